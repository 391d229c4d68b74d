//! New data blocks.

ghost use Rattle.std.specs.Prelude.{◌≡◌};
ghost use Rattle.call_scripts.specs.declared.script.Fill.TheVariants.{Given, Iid, Zeros};
ghost use Rattle.script_meaning.specs.Step.{new_data};
ghost use Rattle.script_stage.specs.Standing.{Does, TellsAddress};
ghost use Rattle.uuid.specs.Parts.{swap_fields};

use crate::errors::StepError;
use crate::stages::Stage;
use call_scripts::Fill;
use object_memory::HEAP_LIMIT;
use std::alloc::Global;
use transcript_text::Refusal;
use uuid::Uuid;

impl<'a> Stage<'a> {
    /// Makes a data block, and gives its address. It is refused where the name is taken, or the
    /// heap has no room.
    pub fn add_data(&mut self, alloc: Global, name: &'a [u8], fill: &Fill) -> Result<u64, StepError>
        ensures { Does
            TellsAddress
            (λ state. new_data self.old.machine.conv state name.now fill.now)
            self.old
            self.new
            result }
    {
        match fill {
            Fill::Given(bytes) => self.add_bytes(name, bytes.as_slice()),
            Fill::Zeros(count) => self.add_zeros(alloc, name, *count),
            Fill::Iid(iid) => self.add_iid(name, iid),
        }
    }

    /// Makes a block of zeros. More of them than the heap can have are refused before there is
    /// memory for any.
    fn add_zeros(&mut self, alloc: Global, name: &'a [u8], count: u128) -> Result<u64, StepError>
        ensures { Does
            TellsAddress
            (λ state. new_data self.old.machine.conv state name.now (Zeros count))
            self.old
            self.new
            result }
    {
        if self.named(name).is_some() {
            return Err(StepError::Refused(Refusal::Taken));
        }
        if count > HEAP_LIMIT as u128 {
            return Err(StepError::Refused(Refusal::Heap));
        }
        let bytes = vec![in alloc; 0; count as usize]?;
        self.add_bytes(name, bytes.as_slice())
    }

    /// Makes a block with an IID. In memory its first three fields have their low bytes first.
    fn add_iid(&mut self, name: &'a [u8], iid: &[u8; 16]) -> Result<u64, StepError>
        ensures { Does
            TellsAddress
            (λ state. new_data self.old.machine.conv state name.now (Iid iid.now))
            self.old
            self.new
            result }
    {
        let bytes = Uuid::from_bytes(*iid).to_bytes_le();
        self.add_bytes(name, &bytes)
    }
}
