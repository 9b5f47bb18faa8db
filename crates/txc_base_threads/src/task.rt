// What a thread does.
use std::snapshot::Snapshot;
use std::thread::Promise;

/// The work of one thread.
pub trait Task<O> {
    /// Whether the task can be performed.
    ghost Can: { Self → Type 0 };

    /// Whether the task can have this output.
    ghost Does: { Self → O → Type 0 };

    /// Performs the task and returns its output.
    fn perform(self) -> O
        requires { Can self }
        ensures { Does self result };
}

/// A promise that this task is performed.
#[derive(Drop)]
pub(crate) struct Promised<J>(pub(crate) Snapshot<J>);

impl<O, J: Task<O>> Promise<O> for Promised<J> {
    ghost kept_by = { λ promise output. J.Does promise.0.value output };
}
