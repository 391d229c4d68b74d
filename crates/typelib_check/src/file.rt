ghost use Rattle.std.specs.Prelude.{◌≡◌, ℕ, ◌+◌, ◌*◌, ◌<◌, ◌≤◌, ◌^◌, length};
ghost use Rattle.lib_model.specs.Denotes.{pool_of};
ghost use Rattle.typelib_faults.specs.Bytes.{AreBytes};
ghost use Rattle.typelib_faults.specs.Laws.{IsFine};
ghost use Rattle.typelib_faults.specs.Places.{count_of, directory_of};

/// A file whose header has no fault: its bytes, and the numbers of the header that every part
/// needs.
#[derive(Clone, Copy)]
pub struct File<'a> {
    /// The whole file.
    pub bytes: &'a [u8],
    /// The number of interfaces.
    pub count: u16,
    /// The place of the directory.
    pub directory: usize,
    /// The place of the pool.
    pub pool: usize,
    pub ghost count_is: { count ≡ count_of bytes.now },
    pub ghost directory_is: { directory ≡ directory_of bytes.now },
    pub ghost pool_is: { pool ≡ pool_of bytes.now },
    pub ghost entries_fit: { (k : ℕ) → k < count → directory + 28 * k + 28 ≤ length bytes.now },
    pub ghost pool_fits: { pool ≤ length bytes.now },
    pub ghost is_short: { length bytes.now < 2 ^ 63 },
}

/// A file that has no fault, so that its parts can be read again without one.
#[derive(Clone, Copy)]
pub struct CheckedFile<'a> {
    /// The file.
    pub file: File<'a>,
    pub ghost is_fine: { IsFine file.bytes.now },
    pub ghost are_bytes: { AreBytes file.bytes.now },
}
