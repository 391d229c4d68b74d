//! The objects that calls enter.

ghost use Rattle.std.specs.Prelude.{◌≡◌, IsSome, List, Some, slice_get};
ghost use Rattle.call_model.specs.declared.places.Conv as conventions;
ghost use Rattle.call_replies.specs.Blocks.{Block};
ghost use Rattle.script_meaning.specs.Lawful.{AreLawful};
ghost use Rattle.script_meaning.specs.State.{object_numbered};
ghost use Rattle.script_objects.specs.Known.{AreKnown};

use script_objects::Objects;

/// The address of the object of a number. There is one.
pub(crate) fn address_of(objects: &Objects, number: u32) -> u64
    requires { IsSome (slice_get objects.now.objects number) }
    ensures { (conv : conventions.Conv) (blocks : List Block) (b : Block) → AreLawful conv blocks
        → AreKnown conv objects.now blocks → object_numbered blocks number ≡ Some b
        → result ≡ b.at }
{
    objects.get(number).unwrap().at
}
