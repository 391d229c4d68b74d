ghost use Rattle.std.specs.Prelude.{◌≡◌, ◌<◌, ◌↔◌, [], ◌∷◌, ◌++◌, length, slice_get, IsTrue, OnErr, OnOk, OnSome};
ghost use Rattle.std.specs.Option.{option_copied};

use crate::errors::Memory;
use std::alloc::Global;
use std::marker::Model;

/// A list of values, which contracts see as the list itself. It grows at its end alone.
#[derive(Debug, Drop)]
pub struct List<T> {
    values: Vec<T>,
}

impl<T> Model for List<T> {
    ghost use Rattle.std.specs.Prelude;
    ghost use Rattle.std.specs.Coded.{coded_list};

    ghost Value = { Prelude.List T };

    ghost coded = { coded_list T.code };

    ghost view = { λ l. l.values.items };
}

impl<T> List<T> {
    /// The empty list. It takes no memory.
    pub fn new(alloc: Global) -> List<T>
        ensures { result ≡ [] }
    {
        List {
            values: Vec::new(alloc),
        }
    }

    /// How many values there are.
    pub fn len(&self) -> usize
        ensures { result ≡ length self.now }
    {
        self.values.len()
    }

    /// Whether there is no value.
    pub fn is_empty(&self) -> bool
        ensures { IsTrue result ↔ (self.now ≡ []) }
    {
        self.values.is_empty()
    }

    /// The value at place `at`, counted from 0; None exactly where `at` is not below the length.
    pub fn get(&self, at: usize) -> Option<&T>
        ensures value { option_copied result ≡ slice_get self.now at }
        ensures within { OnSome result (at < length self.now) }
    {
        self.values.get(at)
    }

    /// The values, in order.
    pub fn as_slice(&self) -> &[T]
        ensures { result.now ≡ self.now }
    {
        self.values.as_slice()
    }
}

impl<T: Drop> List<T> {
    /// Adds the value last. The one error is want of memory, which leaves the list as it was; the
    /// value is then dropped.
    pub fn push(&mut self, value: T) -> Result<(), Memory>
        ensures ok { OnOk result (self.new ≡ self.old ++ value ∷ []) }
        ensures err { OnErr result (self.new ≡ self.old) }
    {
        self.values.push(value)?;
        Ok(())
    }
}
