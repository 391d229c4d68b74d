ghost use Rattle.proxy_objects.specs.declared.errors.ForwardError.TheVariants.{Depth as TooDeep};

use crate::errors::ForwardError;
use crate::forward::Forward;
use call_model::Conv;
use indexmap::IndexMap;
use std::alloc::Global;
use std::marker::Model;

/// The most forwarders that may stand on the way from an object, itself counted.
pub const MOST_FORWARDERS: u32 = 16;

/// Which objects hand their calls on, by their numbers.
///
/// A target has a smaller number than the object that hands its calls on to it, so that every way
/// from an object to the one that answers ends; no way passes by more than `MOST_FORWARDERS`.
#[derive(Drop)]
pub struct Forwards {
    by_object: IndexMap<u32, Forward>,
}

impl Model for Forwards {
    ghost use Rattle.proxy_objects.specs.Forwarding.{Forwarding, IsShort};

    ghost Value = { Forwarding };

    ghost view = { λ f. f.by_object.entries };

    ghost invariant = { λ f. IsShort f.by_object.entries };
}

impl Forwards {
    ghost use Rattle.std.specs.Prelude.{◌≡◌, ◌<◌, ◌≤◌, ◌↔◌, ℕ, [], nat_eq, Err, IfSome, IsSome, IsTrue, Some, OnErr, OnOk, if◌then◌else◌};
    ghost use Rattle.std.specs.Option.{option_copied};
    ghost use Rattle.proxy_objects.specs.Forwarding.{HasDepth, forward_of, with_forward};

    /// No object that hands its calls on. It takes no memory.
    pub fn new(alloc: Global) -> Forwards
        ensures { result ≡ [] }
    {
        Forwards {
            by_object: IndexMap::new(alloc),
        }
    }

    /// Makes an object hand its calls on to a target, under its own convention where it is given
    /// one.
    ///
    /// The target's number is smaller, and the object's is greater than that of each object that
    /// was added before. `Depth` comes exactly where `MOST_FORWARDERS` stand on the way from the
    /// target. After an error nothing has changed.
    pub fn add(&mut self, object: u32, target: u32, conv: Option<Conv>) -> Result<(), ForwardError>
        requires below { target < object }
        requires rising { (added : ℕ) → IsSome (forward_of self.old added) → added < object }
        ensures added { OnOk
            result
            (self.new ≡ with_forward self.old object (record { target = target; conv = conv })) }
        ensures known { OnOk
            result
            ((other : ℕ) → forward_of self.new other
            ≡ (if nat_eq object other then Some (record { target = target; conv = conv })
            else forward_of self.old other)) }
        ensures depth { (result ≡ Err TooDeep) ↔ HasDepth self.old target MOST_FORWARDERS }
        ensures err { OnErr result (self.new ≡ self.old) }
    {
        if self.is_full(target) {
            return Err(ForwardError::Depth);
        }
        self.by_object.insert(object, Forward { target, conv })?;
        Ok(())
    }

    /// What an object hands its calls on to. None exactly where it was not added.
    pub fn of(&self, object: u32) -> Option<&Forward>
        ensures forward { option_copied result ≡ forward_of self.now object }
        ensures below { IfSome result (λ forward. forward.now.target < object) }
    {
        self.by_object.get(&object)
    }

    /// How many forwarders stand on the way from an object to the one that answers its calls,
    /// itself counted: never more than `MOST_FORWARDERS`.
    pub fn depth(&self, object: u32) -> u32
        ensures count { HasDepth self.now object result }
        ensures most { result ≤ MOST_FORWARDERS }
    {
        let mut count = 0;
        let mut at = object;
        while let Some(forward) = self.by_object.get(&at) {
            count += 1;
            at = forward.target;
        }
        count
    }

    /// Whether as many forwarders as there may be stand on the way from an object.
    #[tactic(auto, using(crate::proofs::Ways::one_depth))]
    fn is_full(&self, object: u32) -> bool
        ensures { IsTrue result ↔ HasDepth self.now object MOST_FORWARDERS }
    {
        self.depth(object) == MOST_FORWARDERS
    }
}
