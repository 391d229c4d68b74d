ghost use Rattle.std.specs.Prelude.{◌≡◌};
ghost use Rattle.script_stage.specs.declared.errors.StepError.TheVariants as step_errors;
ghost use Rattle.script_stage.specs.Errors.{of_forward, of_heap};

use object_memory::HeapError;
use proxy_objects::ForwardError;
use std::alloc::AllocError;
use transcript_text::Refusal;

/// Why a line of a script did not do what it asks for.
#[derive(Debug, Drop)]
pub enum StepError {
    /// It is refused.
    Refused(Refusal),
    /// There was no memory for it.
    Memory,
}

impl From<xp_base::Memory> for StepError {
    ghost from_gives = { λ _ e. e ≡ step_errors.Memory };

    fn from(_: xp_base::Memory) -> StepError {
        StepError::Memory
    }
}

impl From<AllocError> for StepError {
    ghost from_gives = { λ _ e. e ≡ step_errors.Memory };

    fn from(_: AllocError) -> StepError {
        StepError::Memory
    }
}

impl From<Refusal> for StepError {
    ghost from_gives = { λ refusal e. e ≡ step_errors.Refused refusal };

    fn from(refusal: Refusal) -> StepError {
        StepError::Refused(refusal)
    }
}

impl From<HeapError> for StepError {
    ghost from_gives = { λ error e. e ≡ of_heap error };

    fn from(error: HeapError) -> StepError {
        match error {
            HeapError::Full => StepError::Refused(Refusal::Heap),
            HeapError::Memory => StepError::Memory,
        }
    }
}

impl From<ForwardError> for StepError {
    ghost from_gives = { λ error e. e ≡ of_forward error };

    fn from(error: ForwardError) -> StepError {
        match error {
            ForwardError::Depth => StepError::Refused(Refusal::Depth),
            ForwardError::Memory => StepError::Memory,
        }
    }
}
