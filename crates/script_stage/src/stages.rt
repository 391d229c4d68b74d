//! The machine of a script, and what the script's names stand for.

ghost use Rattle.std.specs.Prelude.{◌≡◌, IfOk, option_map, pos};
ghost use Rattle.call_model.specs.declared.places.Conv as conventions;
ghost use Rattle.call_scripts.specs.declared.script.Fill.TheVariants.{Given};
ghost use Rattle.script_meaning.specs.State.{State, empty};
ghost use Rattle.script_meaning.specs.Step.{new_data};
ghost use Rattle.script_meaning.specs.Words as words;
ghost use Rattle.script_stage.specs.Standing.{Does, Stands, TellsAddress, noted_as};

use crate::errors::StepError;
use crate::names::Names;
use crate::placed::{Kind, Placed};
use call_model::{Conv, word_of};
use call_scripts::{Target, ValueWord};
use object_memory::Machine;
use script_objects::{Objects, Rules};
use std::alloc::Global;
use transcript_text::Refusal;
use xp_base::Memory;

/// A machine, and what the names of a script stand for on it.
#[derive(Drop)]
pub struct Stage<'a> {
    /// The machine that the script's calls are made on.
    pub machine: Machine,
    /// The blocks that were made, by name.
    pub blocks: Names<'a, Placed>,
    /// The numbers that came out of calls, by the names of variables.
    pub variables: Names<'a, i128>,
    /// The objects that were made, by number.
    pub objects: Objects,
    /// The rules by which objects reply.
    pub rules: Rules,
    /// The address that calls pass as their context.
    pub context: u64,
}

impl<'a> Stage<'a> {
    /// A new machine, on which nothing was made. The one error is want of memory.
    pub fn new(alloc: Global, conv: Conv) -> Result<Stage<'a>, Memory>
        ensures conv { IfOk result (λ stage. stage.machine.conv ≡ conv) }
        ensures stands { IfOk result (λ stage. Stands stage empty) }
    {
        Ok(Stage {
            machine: Machine::new(alloc, conv)?,
            blocks: Names::new(alloc),
            variables: Names::new(alloc),
            objects: Objects::new(alloc),
            rules: Rules::new(alloc),
            context: 0,
        })
    }

    /// The block of a name; None where there is none.
    pub fn named(&self, name: &[u8]) -> Option<Placed>
        ensures { (state : State) → Stands self.now state → result ≡ noted_as state name.now }
    {
        self.blocks.find(name)
    }

    /// The address of the block of a name; None where there is none.
    pub fn address_of(&self, name: &[u8]) -> Option<i128>
        ensures { (state : State) → Stands self.now state
            → result ≡ words.address_of state name.now }
    {
        let block = self.named(name)?;
        Some(i128::from(block.at))
    }

    /// The number that a value stands for; None where no block or variable has its name.
    pub fn number_of_value(&self, value: &ValueWord) -> Option<i128>
        ensures { (state : State) → Stands self.now state
            → result ≡ words.number_of_value state value.now }
    {
        match value {
            ValueWord::Number(number) => Some(*number),
            ValueWord::Address(name) => self.address_of(name.as_slice()),
            ValueWord::Variable(name) => self.variables.find(name.as_slice()),
        }
    }

    /// The number that the target of a call stands for; None where no block or variable has its
    /// name.
    pub fn number_of_target(&self, target: &Target) -> Option<i128>
        ensures { (state : State) → Stands self.now state
            → result ≡ words.number_of_target state target.now }
    {
        match target {
            Target::Block(name) => self.address_of(name.as_slice()),
            Target::Variable(name) => self.variables.find(name.as_slice()),
        }
    }

    /// Makes a block with these bytes, and gives its address. It is refused where the name is
    /// taken, or the heap has no room.
    pub fn add_bytes(&mut self, name: &'a [u8], bytes: &[u8]) -> Result<u64, StepError>
        ensures { Does
            TellsAddress
            (λ state. new_data self.old.machine.conv state name.now (Given bytes.now))
            self.old
            self.new
            result }
    {
        if self.named(name).is_some() {
            return Err(StepError::Refused(Refusal::Taken));
        }
        let at = self.machine.add_block(bytes)?;
        let kind = Kind::Data {
            length: bytes.len() as u64,
        };
        self.blocks.put(name, Placed { at, kind })?;
        Ok(at)
    }
}
