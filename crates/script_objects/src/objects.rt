//! What is kept of objects.

ghost use Rattle.proxy_objects.specs.declared.errors.ForwardError.TheVariants.{Depth as TooDeep};

use call_model::Conv;
use proxy_objects::{Forward, ForwardError, Forwards, MOST_FORWARDERS};
use std::alloc::Global;
use std::marker::Model;
use xp_base::Memory;

/// An object: the address where it begins, and the number of its interface, counted from 1.
#[derive(Clone, Copy, Debug, PartialEq, Eq)]
pub struct Object {
    pub at: u64,
    pub iface: u16,
}

/// The objects that were made, by their numbers, which count from 0; and which of them hand their
/// calls on.
#[derive(Drop)]
pub struct Objects {
    list: Vec<Object>,
    forwards: Forwards,
}

impl Model for Objects {
    ghost use Rattle.script_objects.specs.Known.{AreAdded, ObjectsView};

    ghost Value = { ObjectsView };

    ghost view = { λ o. record { objects = o.list.items; forwards = o.forwards } };

    ghost invariant = { λ o. AreAdded (record { objects = o.list.items; forwards = o.forwards }) };
}

impl Objects {
    ghost use Rattle.std.specs.Prelude.{◌≡◌, ◌<◌, ◌↔◌, ◌^◌, ℕ, List, [], ◌∷◌, ◌++◌, false, length, slice_get, option_map, option_and_then, Err, IfOk, IfSome, OnErr, OnOk, Some};
    ghost use Rattle.call_model.specs.declared.places.Conv as conventions;
    ghost use Rattle.call_replies.specs.Blocks.{Block, Object as ObjectHeld, Forwarder};
    ghost use Rattle.proxy_objects.specs.Forwarding.{forward_of};
    ghost use Rattle.script_meaning.specs.Chain as chains;
    ghost use Rattle.script_meaning.specs.Lawful.{AreLawful};
    ghost use Rattle.script_meaning.specs.State.{State, next_number, object_numbered};
    ghost use Rattle.script_meaning.specs.Step.{has_depth};
    ghost use Rattle.script_objects.specs.Known.{AreKnown, KnowsMore, forward_in, kept, no_objects, with_forwarder, with_object};

    /// No objects. It takes no memory.
    pub fn new(alloc: Global) -> Objects
        ensures empty { result ≡ no_objects }
        ensures known { (conv : conventions.Conv) → AreKnown conv result [] }
    {
        Objects {
            list: Vec::new(alloc),
            forwards: Forwards::new(alloc),
        }
    }

    /// How many objects there are: the number of the next one.
    pub fn count(&self) -> usize
        ensures length { result ≡ length self.now.objects }
        ensures known { (conv : conventions.Conv) (state : State)
            → AreKnown conv self.now state.blocks → result ≡ next_number state }
    {
        self.list.len()
    }

    /// The object of a number; None where there is none.
    pub fn get(&self, number: u32) -> Option<Object>
        ensures kept { result ≡ slice_get self.now.objects number }
        ensures known { (conv : conventions.Conv) (blocks : List Block) → AreLawful conv blocks
            → AreKnown conv self.now blocks
            → result ≡ option_map kept (object_numbered blocks number) }
    {
        self.kept(number)
    }

    /// What is kept of the object of a number.
    fn kept(&self, number: u32) -> Option<Object>
        ensures { result ≡ slice_get self.now.objects number }
    {
        self.list.get(number as usize).copied()
    }

    /// What the object of a number hands its calls on to; None where it answers them itself.
    pub fn forward(&self, number: u32) -> Option<Forward>
        ensures kept { result ≡ forward_of self.now.forwards number }
        ensures known { (conv : conventions.Conv) (blocks : List Block) → AreLawful conv blocks
            → AreKnown conv self.now blocks
            → result
            ≡ option_and_then (λ b. forward_in b.held) (object_numbered blocks number) }
        ensures below { IfSome result (λ forward. forward.target < number) }
    {
        self.forwards.of(number).copied()
    }

    /// How many forwarders stand on the way from an object to the one that answers its calls,
    /// itself counted.
    pub fn depth(&self, number: u32) -> u32
        ensures { (conv : conventions.Conv) (blocks : List Block) → AreLawful conv blocks
            → AreKnown conv self.now blocks
            → (by : conventions.Conv) (b : Block) → object_numbered blocks number ≡ Some b
            → result ≡ chains.depth (chains.chain_of blocks by b) }
    {
        self.forwards.depth(number)
    }

    /// Adds an object that answers its calls, and gives its number. The one error is want of
    /// memory; nothing has changed then.
    pub fn add(&mut self, at: u64, iface: u16) -> Result<u32, Memory>
        requires few { length self.old.objects < 2 ^ 32 }
        ensures number { IfOk result (λ number. number ≡ length self.old.objects) }
        ensures added { OnOk result (self.new ≡ with_object self.old at iface) }
        ensures known { IfOk
            result
            (λ number. KnowsMore self.old self.new at (ObjectHeld number iface)) }
        ensures err { OnErr result (self.new ≡ self.old) }
    {
        let number = self.count() as u32;
        self.list.push(Object { at, iface })?;
        Ok(number)
    }

    /// Adds an object that hands its calls on to the one of a smaller number, under its own
    /// convention where it is given one, and gives its number.
    ///
    /// `Depth` comes exactly where as many forwarders as there may be stand on the way from the
    /// target. After an error nothing has changed.
    pub fn add_forwarder(
        &mut self,
        at: u64,
        iface: u16,
        target: u32,
        own: Option<Conv>,
    ) -> Result<u32, ForwardError>
        requires few { length self.old.objects < 2 ^ 32 }
        requires below { target < length self.old.objects }
        ensures number { IfOk result (λ number. number ≡ length self.old.objects) }
        ensures added { OnOk result (self.new ≡ with_forwarder self.old at iface target own) }
        ensures known { IfOk
            result
            (λ number. KnowsMore self.old self.new at (Forwarder number iface target own)) }
        ensures depth { (conv : conventions.Conv) (state : State) → AreLawful conv state.blocks
            → AreKnown conv self.old state.blocks
            → (b : Block) → object_numbered state.blocks target ≡ Some b
            → (result ≡ Err TooDeep) ↔ (has_depth conv state b ≡ false) }
        ensures err { OnErr result (self.new ≡ self.old) }
    {
        if self.forwards.depth(target) >= MOST_FORWARDERS {
            return Err(ForwardError::Depth);
        }
        let number = self.count() as u32;
        self.list.push(Object { at, iface })?;
        if let Err(error) = self.forwards.add(number, target, own) {
            self.list.pop();
            return Err(error);
        }
        Ok(number)
    }
}
