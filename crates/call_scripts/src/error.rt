ghost use Rattle.std.specs.Prelude.{◌≡◌};

use thiserror::Error;
use xp_base::Memory;

/// Why a script has no reading.
#[derive(Debug, Drop, Error)]
pub enum ScriptError {
    /// The first line, counted from 1, that has no reading.
    #[error("Fault")]
    Fault { line: u32 },
    /// There was no memory for the script.
    #[error("Memory")]
    Memory,
}

impl From<Memory> for ScriptError {
    ghost use Rattle.call_scripts.specs.declared.error.ScriptError.TheVariants as errors;

    ghost from_gives = { λ _ e. e ≡ errors.Memory };

    fn from(_: Memory) -> ScriptError {
        ScriptError::Memory
    }
}
