//! The laws of the texts of `big`, each as the clause of a function that does nothing.

ghost use Rattle.std.specs.Prelude.{ℕ, ◌≤◌};
ghost use Rattle.big_laws.specs.Lawful.{BigIsLawful};

/// The IDL file that `big` makes is accepted for each number that `big` takes, and so is one of a
/// single interface; the script that it makes is a script.
pub fn big_is_lawful()
    ensures { (last : ℕ) → last ≤ 249 → BigIsLawful last }
{}
