//! New objects and forwarders, and the objects that lines name.

ghost use Rattle.std.specs.Prelude.{◌≡◌, ℕ, ◌≤◌, ◌^◌, pos, IfSome, IsNone, Some};
ghost use Rattle.lib_model.specs.Table.{table_of};
ghost use Rattle.call_replies.specs.Blocks.{Block};
ghost use Rattle.script_meaning.specs.Members.{object_of};
ghost use Rattle.script_meaning.specs.State as states;
ghost use Rattle.script_meaning.specs.State.{State, object_numbered};
ghost use Rattle.script_meaning.specs.Step as steps;
ghost use Rattle.script_meaning.specs.Step.{new_forwarder, new_object};
ghost use Rattle.script_stage.specs.Finding.{Finds, named_object, target_of};
ghost use Rattle.script_stage.specs.Standing.{Does, IsStanding, Stands, TellsAddress};

use crate::errors::StepError;
use crate::placed::{Kind, Placed};
use crate::stages::Stage;
use call_model::{Conv, word_of};
use descriptor_reader::Typelib;
use proxy_objects::MOST_FORWARDERS;
use transcript_text::Refusal;

/// Whether a forwarder with a convention of its own may stand on a machine of a convention: both
/// have words of 8 bytes.
fn joins(conv: Conv, own: Option<Conv>) -> bool
    ensures { result ≡ steps.joins conv own }
{
    match own {
        None => true,
        Some(own) => word_of(conv) != 4 && word_of(own) != 4,
    }
}

/// A number as an address; None where 64 bits don't hold it.
fn address_in(number: i128) -> Option<u64>
    ensures some { IfSome result (λ address. number ≡ pos address) }
    ensures none { IsNone result → (n : ℕ) → number ≡ pos n → 2 ^ 64 ≤ n }
{
    if number < 0 || number > u64::MAX as i128 {
        return None;
    }
    Some(number as u64)
}

impl<'a> Stage<'a> {
    /// Makes an object of an interface, and gives its address. It is refused where the name is
    /// taken, where no resolved interface has the other name, or where the heap has no room.
    pub fn add_object(
        &mut self,
        typelib: &Typelib<'_>,
        name: &'a [u8],
        iface: &[u8],
    ) -> Result<u64, StepError>
        requires { IsStanding self.old }
        ensures { Does
            TellsAddress
            (λ state. new_object
            (table_of typelib.now)
            self.old.machine.conv
            state
            name.now
            iface.now)
            self.old
            self.new
            result }
    {
        if self.named(name).is_some() {
            return Err(StepError::Refused(Refusal::Taken));
        }
        let Some(iface) = typelib.find(iface) else {
            return Err(StepError::Refused(Refusal::NoInterface));
        };
        let at = self.machine.add_object()?;
        let number = self.objects.add(at, iface)?;
        let kind = Kind::Object { number, iface };
        self.blocks.put(name, Placed { at, kind })?;
        Ok(at)
    }

    /// Makes an object that hands each call on to the one in a block, under its own convention
    /// where it is given one, and gives its address. It is refused, in this order, where the name
    /// is taken, where no block has the target's name, where this block is no object, where one of
    /// two conventions has words of 4 bytes, where as many forwarders as there may be stand on the
    /// way from the target, or where the heap has no room.
    pub fn add_forwarder(
        &mut self,
        name: &'a [u8],
        target: &[u8],
        own: Option<Conv>,
    ) -> Result<u64, StepError>
        requires { IsStanding self.old }
        ensures { Does
            TellsAddress
            (λ state. new_forwarder self.old.machine.conv state name.now target.now own)
            self.old
            self.new
            result }
    {
        let target = self.forwarder_target(name, target, own)?;
        let iface = self.objects.get(target).unwrap().iface;
        let at = self.machine.add_object()?;
        let number = self.objects.add_forwarder(at, iface, target, own)?;
        let kind = Kind::Object { number, iface };
        self.blocks.put(name, Placed { at, kind })?;
        Ok(at)
    }

    /// The number of the object that a new forwarder hands its calls on to; or why there can be no
    /// such forwarder, but for want of room.
    fn forwarder_target(
        &self,
        name: &[u8],
        target: &[u8],
        own: Option<Conv>,
    ) -> Result<u32, Refusal>
        ensures { (state : State) → Stands self.now state
            → Finds
            state
            (target_of self.now.machine.conv state name.now target.now own)
            result }
    {
        if self.named(name).is_some() {
            return Err(Refusal::Taken);
        }
        let Some(found) = self.named(target) else {
            return Err(Refusal::NoName);
        };
        let Kind::Object { number, .. } = found.kind else {
            return Err(Refusal::NotAnObject);
        };
        if !joins(self.machine.conv(), own) {
            return Err(Refusal::Word);
        }
        if self.objects.depth(number) >= MOST_FORWARDERS {
            return Err(Refusal::Depth);
        }
        Ok(number)
    }

    /// The number of the object in the block of a name, which has the members of an interface. It
    /// is refused where this is no object, or one of another interface.
    pub fn object_named(
        &self,
        typelib: &Typelib<'_>,
        iface: u16,
        name: &[u8],
    ) -> Result<u32, Refusal>
        ensures { (state : State) → Stands self.now state
            → Finds
            state
            (object_of (table_of typelib.now) iface (named_object state name.now))
            result }
    {
        let Some(found) = self.named(name) else {
            return Err(Refusal::NotAnObject);
        };
        let Kind::Object { number, .. } = found.kind else {
            return Err(Refusal::NotAnObject);
        };
        self.of_iface(typelib, iface, number)
    }

    /// The number of the object that begins at an address, which has the members of an interface.
    /// It is refused where none begins there, or one of another interface.
    pub fn object_at(
        &self,
        typelib: &Typelib<'_>,
        iface: u16,
        address: i128,
    ) -> Result<u32, Refusal>
        ensures { (state : State) → Stands self.now state
            → Finds
            state
            (object_of (table_of typelib.now) iface (states.object_at state address))
            result }
    {
        let Some(address) = address_in(address) else {
            return Err(Refusal::NotAnObject);
        };
        let Some(number) = self.machine.object_at(address) else {
            return Err(Refusal::NotAnObject);
        };
        self.of_iface(typelib, iface, number)
    }

    /// The object of this number, if it has the members of an interface.
    fn of_iface(&self, typelib: &Typelib<'_>, iface: u16, number: u32) -> Result<u32, Refusal>
        ensures { (state : State) (b : Block) → Stands self.now state
            → object_numbered state.blocks number ≡ Some b
            → Finds state (object_of (table_of typelib.now) iface (Some b)) result }
    {
        let Some(object) = self.objects.get(number) else {
            return Err(Refusal::NotAnObject);
        };
        if !typelib.descends(object.iface, iface) {
            return Err(Refusal::WrongInterface);
        }
        Ok(number)
    }
}
