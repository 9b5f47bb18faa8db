// One thread per task.
ghost use Rattle.std.specs.Prelude.{◌<◌, ℕ, IfOk, slice_index_or, vec_len};
ghost use Rattle.txc_base_threads.specs.Postcondition.{AllRelated};
ghost use denote.Param.Send.{IsSend, IsSync};

use crate::start_error::StartError;
use crate::task::{Promised, Task};
use std::alloc::Global;
use std::snapshot::Snapshot;
use std::sync::Wait;
use std::thread;
use std::thread::{Threads, join_promised};

/// Performs each task in a thread of its own, and returns their outputs in the order of the tasks.
///
/// Fails with `NoThread` if a thread cannot be started, and with `NoMemory` if allocation fails. The tasks that were
/// not started are dropped. Blocks until all threads have ended, also on failure.
pub fn run_all<
    'a,
    R: Threads + Wait + Sync + 'a,
    J: Task<O> + Send + Drop + 'a,
    O: Send + Drop + 'a,
>(rt: &'a R, alloc: Global, tasks: Vec<J>) -> Result<Vec<O>, StartError>
    requires can { (k : ℕ) (j : _) → k < vec_len tasks → J.Can (slice_index_or tasks.items k j) }
    ensures came { IfOk result (λ outputs. AllRelated J.Does tasks.items outputs.items) }
{
    thread::scope(
        thread::scope_env::<'a>(),
        rt,
        |scope| -> Result<Vec<O>, StartError>
            requires handle { IsSync R.row }
            requires task { IsSend J.row }
            requires output { IsSend O.row }
            requires can { (k : ℕ) (j : _) → k < vec_len tasks → J.Can (slice_index_or tasks.items k j) }
            ensures came { IfOk result (λ outputs. AllRelated J.Does tasks.items outputs.items) }
        {
            let mut threads = Vec::new(alloc);
            threads.reserve(tasks.len())?;
            for task in tasks {
                let promise = Promised(Snapshot::of(&task));
                match scope.spawn_with(promise, move || task.perform()) {
                    Ok(thread) => threads.push_reserved(thread),
                    Err(_refused) => return Err(StartError::NoThread),
                }
            }
            Ok(join_promised(rt, threads)?)
        },
    )
}

/// Shows that threads may share items of this type. Does nothing at run time.
pub fn show_shared<T: Sync>(items: &[T])
    ensures { IsSync T.row }
{
    let _items = items;
}
