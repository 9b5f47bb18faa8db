// The name of a step, which is its first element.
ghost use Rattle.std.specs.Prelude.{◌≡◌};
ghost use Rattle.txc_cmd_script.specs.Operations.{step_name_of};

/// The name of a step.
#[derive(Clone, Copy)]
pub(crate) enum StepName {
    Write,
    TryWrite,
    Read,
    TryRead,
    Peek,
    TryPeek,
    PutBack,
    Close,
    IsClosed,
    IsEmpty,
    IsFull,
    Dup,
    Clone,
    Flush,
    Length,
    Or,
    Retry,
}

/// Returns the step name that is this text, if there is one.
pub(crate) fn read_step_name(name: &str) -> Option<StepName>
    ensures { result ≡ step_name_of name.now }
{
    match name {
        "write" => Some(StepName::Write),
        "try-write" => Some(StepName::TryWrite),
        "read" => Some(StepName::Read),
        "try-read" => Some(StepName::TryRead),
        "peek" => Some(StepName::Peek),
        "try-peek" => Some(StepName::TryPeek),
        "put-back" => Some(StepName::PutBack),
        "close" => Some(StepName::Close),
        "is-closed" => Some(StepName::IsClosed),
        "is-empty" => Some(StepName::IsEmpty),
        "is-full" => Some(StepName::IsFull),
        "dup" => Some(StepName::Dup),
        "clone" => Some(StepName::Clone),
        "flush" => Some(StepName::Flush),
        "length" => Some(StepName::Length),
        "or" => Some(StepName::Or),
        "retry" => Some(StepName::Retry),
        _ => None,
    }
}
