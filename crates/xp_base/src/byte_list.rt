ghost use Rattle.std.specs.Prelude.{◌≡◌, [], ◌++◌, IfOk, OnErr, OnOk};

use crate::errors::Memory;
use std::alloc::Global;
use std::marker::Model;

/// A list of bytes, which contracts see as the list itself. It grows at its end alone.
#[derive(Debug, Drop)]
pub struct Bytes {
    bytes: Vec<u8>,
}

impl Model for Bytes {
    ghost use Rattle.std.specs.Prelude.{List, ℕ};

    ghost Value = { List ℕ };

    ghost view = { λ b. b.bytes.items };
}

impl Bytes {
    /// The empty list. It takes no memory.
    pub fn new(alloc: Global) -> Bytes
        ensures { result ≡ [] }
    {
        Bytes {
            bytes: Vec::new(alloc),
        }
    }

    /// A list with the bytes of `from`. The one error is want of memory.
    pub fn copy(alloc: Global, from: &[u8]) -> Result<Bytes, Memory>
        ensures { IfOk result (λ copied. copied ≡ from.now) }
    {
        let bytes = from.to_vec(alloc)?;
        Ok(Bytes { bytes })
    }

    /// Adds the bytes of `piece` at the end. The one error is want of memory, which leaves the list
    /// as it was.
    pub fn append(&mut self, piece: &[u8]) -> Result<(), Memory>
        ensures ok { OnOk result (self.new ≡ self.old ++ piece.now) }
        ensures err { OnErr result (self.new ≡ self.old) }
    {
        self.bytes.extend_from_slice(piece)?;
        Ok(())
    }

    /// The bytes, in order.
    pub fn as_slice(&self) -> &[u8]
        ensures { result.now ≡ self.now }
    {
        self.bytes.as_slice()
    }
}
