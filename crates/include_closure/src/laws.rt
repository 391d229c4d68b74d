//! Laws of the definitions that the contracts of crates above cite.

ghost use Rattle.std.specs.Prelude.{ℕ, List};
ghost use Rattle.xp_base.specs.Files.{Files};
ghost use Rattle.include_closure.specs.Closure.{HasOneClosure};

/// The visits of any roots over any files come to something, and to one thing alone: to a list of
/// files, or to a first fault.
pub fn every_closure_comes_to_one_thing()
    ensures { (told : Files) (roots : List (List ℕ)) → HasOneClosure told roots }
{}
