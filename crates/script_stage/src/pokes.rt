//! What lines change in place: the bytes of a block, and the context.

ghost use Rattle.std.specs.Prelude.{◌≡◌};
ghost use Rattle.script_meaning.specs.Step.{new_context, poked};
ghost use Rattle.script_stage.specs.Standing.{Does, IsStanding, TellsDone};

use crate::errors::StepError;
use crate::stages::Stage;
use call_model::CType;
use call_scripts::ValueWord;
use invoke_by_index::in_range;
use transcript_text::Refusal;

impl<'a> Stage<'a> {
    /// Writes bytes into a block, from an offset on. It is refused where no block has the name,
    /// where an object has it, or where the bytes would not end within the block.
    pub fn poke(&mut self, name: &[u8], offset: u32, bytes: &[u8]) -> Result<(), StepError>
        requires { IsStanding self.old }
        ensures { Does
            TellsDone
            (λ state. poked state name.now offset bytes.now)
            self.old
            self.new
            result }
    {
        let data = self.data_named(name)?;
        let offset = u64::from(offset);
        if offset + bytes.len() as u64 > data.length {
            return Err(StepError::Refused(Refusal::Range(0)));
        }
        self.machine.store_bytes(data.at + offset, bytes);
        Ok(())
    }

    /// Sets the address that later calls pass as their context. It is refused where no block or
    /// variable has the name of the value, or where a word does not hold the number.
    pub fn set_context(&mut self, value: &ValueWord) -> Result<(), StepError>
        ensures { Does
            TellsDone
            (λ state. new_context self.old.machine.conv state value.now)
            self.old
            self.new
            result }
    {
        let Some(number) = self.number_of_value(value) else {
            return Err(StepError::Refused(Refusal::NoName));
        };
        if !in_range(self.machine.conv(), CType::Ptr, number) {
            return Err(StepError::Refused(Refusal::Range(0)));
        }
        self.context = number as u64;
        Ok(())
    }
}
