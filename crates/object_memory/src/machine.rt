ghost use Rattle.std.specs.Prelude.{◌≡◌, ◌+◌, ◌-◌, ◌*◌, ◌%◌, ◌^◌, ◌<◌, ◌≤◌, ◌++◌, ◌↔◌, List, [], length, take, replicate, slice_get, Some, IfOk, IfSome, IsSome, IsTrue, OnErr, Contains};
ghost use Rattle.std.specs.Option.{option_copied};
ghost use Rattle.std.specs.Borrow.{sem};
ghost use Rattle.xp_base.specs.LittleEndian.{low_bytes, number_of};
ghost use Rattle.call_model.specs.Placement;
ghost use Rattle.object_memory.specs.Cells.{LoadsCell, StoresCell, cell_numbers};
ghost use Rattle.object_memory.specs.Heap.{Content, Data, Holds, HoldsMore, Object, ReadsBlock, ReadsBlockNumber, Stores, with_data, with_object};
ghost use Rattle.object_memory.specs.Layout;
ghost use Rattle.object_memory.specs.Memory.{InCells, InMemory, Inside, IsLaidOut, IsReadable, bytes_at, cell_bytes, entry_at, new_machine, number_at, occupied};
ghost use Rattle.object_memory.specs.Widths.{bytes_of};

use crate::blocks::{
    block_of, count_up_to, find_space, note, number_of_bytes, place_in, put_low_bytes, vtable, zero,
};
use crate::data_block::DataBlock;
use crate::errors::HeapError;
use crate::frame::Frame;
use crate::layout::{CELLS_AT, HEAP_LIMIT, MOST_CELLS, SLOTS, VTABLE_AT, space_for};
use crate::width::Width;
use call_model::{Conv, word_of};
use raw_block::Block;
use std::alloc::Global;
use std::marker::Model;
use xp_base::Memory;

/// The machine that calls are made on.
///
/// It has a vtable at `VTABLE_AT`, whose slot n holds the entry address 0x1000 + 16 n, and behind
/// it a heap of data blocks and objects; an object is two words, the vtable's address and its
/// number. Its cells begin at `CELLS_AT`, of which those that were pushed can be read and written.
/// A word has the bytes of a pointer under the machine's convention.
#[derive(Drop)]
pub struct Machine {
    conv: Conv,
    heap: Block,
    used: usize,
    blocks: Vec<DataBlock>,
    objects: Vec<u64>,
    cells: Block,
    pushed: u32,
    frame: Frame,
    alloc: Global,
}

impl Model for Machine {
    ghost use Rattle.std.specs.Prelude.{ℕ, ◌*◌, take};
    ghost use Rattle.object_memory.specs.Memory.{MachineView};
    ghost use Rattle.object_memory.specs.WellFormed.{IsWellFormed};

    ghost Value = { MachineView };

    ghost view = { λ m. record {
      conv = m.conv;
      memory = take m.used m.heap;
      blocks = m.blocks.items;
      objects = m.objects.items;
      cells = take (8 * m.pushed) m.cells;
      frame = m.frame;
    } };

    ghost invariant = { λ m.
        IsWellFormed m.conv m.heap m.used m.blocks.items m.objects.items m.cells m.pushed };
}

impl Machine {
    ghost use Rattle.object_memory.specs.Lends.{lends_frame};

    /// A machine with its vtable, an empty heap, no pushed cell, and a frame of zeros with an
    /// empty stack. The one error is want of memory.
    pub fn new(alloc: Global, conv: Conv) -> Result<Machine, Memory>
        ensures fresh { IfOk result (λ machine. machine ≡ new_machine conv) }
        ensures holds { IfOk result (λ machine. Holds machine []) }
    {
        let heap = vtable(alloc, word_of(conv) as usize)?;
        let cells = block_of(alloc, 8 * MOST_CELLS as usize)?;
        let frame = Frame::new(alloc)?;
        Ok(Machine {
            conv,
            used: heap.len(),
            heap,
            blocks: Vec::new(alloc),
            objects: Vec::new(alloc),
            cells,
            pushed: 0,
            frame,
            alloc,
        })
    }

    /// The machine's convention.
    pub fn conv(&self) -> Conv
        ensures { result ≡ self.now.conv }
    {
        self.conv
    }

    /// How many bytes a word has.
    pub fn word(&self) -> u32
        ensures { result ≡ Placement.word_of self.now.conv }
    {
        word_of(self.conv)
    }

    /// Adds a data block that holds `bytes`, and gives its address: where the space of the last
    /// block ends. `Full` comes exactly where the blocks would occupy more than `HEAP_LIMIT`
    /// bytes. After an error nothing has changed.
    pub fn add_block(&mut self, bytes: &[u8]) -> Result<u64, HeapError>
        ensures address { IfOk result (λ address. address ≡ VTABLE_AT + length self.old.memory) }
        ensures added { IfOk result (λ _. self.new ≡ with_data self.old bytes.now) }
        ensures holds { IfOk result (λ _. HoldsMore self.old self.new (Data bytes.now)) }
        ensures full { (result ≡ Err HeapError.Full)
            ↔ (HEAP_LIMIT < occupied self.old + Layout.space_for (length bytes.now)) }
        ensures err { OnErr result (self.new ≡ self.old) }
    {
        let start = space_for(SLOTS * word_of(self.conv) as usize);
        let space = find_space(self.alloc, &mut self.heap, self.used, start, bytes.len())?;
        let address = VTABLE_AT + self.used as u64;
        note(
            &mut self.blocks,
            DataBlock {
                address,
                length: bytes.len(),
            },
        )?;
        self.heap.copy_in(self.used, bytes);
        self.used += space;
        Ok(address)
    }

    /// Adds an object, and gives its address. Its number is the count of earlier objects. `Full`
    /// comes exactly where the blocks would occupy more than `HEAP_LIMIT` bytes; an object
    /// occupies 16. After an error nothing has changed.
    pub fn add_object(&mut self) -> Result<u64, HeapError>
        ensures address { IfOk result (λ address. address ≡ VTABLE_AT + length self.old.memory) }
        ensures added { IfOk result (λ _. self.new ≡ with_object self.old) }
        ensures holds { IfOk
            result
            (λ _. HoldsMore self.old self.new (Object (length self.old.objects))) }
        ensures full { (result ≡ Err HeapError.Full) ↔ (HEAP_LIMIT < occupied self.old + 16) }
        ensures err { OnErr result (self.new ≡ self.old) }
    {
        let word = word_of(self.conv) as usize;
        let start = space_for(SLOTS * word);
        let space = find_space(self.alloc, &mut self.heap, self.used, start, 2 * word)?;
        let address = VTABLE_AT + self.used as u64;
        let number = self.objects.len() as u64;
        note(&mut self.objects, address)?;
        put_low_bytes(&mut self.heap, self.used, word, VTABLE_AT);
        put_low_bytes(&mut self.heap, self.used + word, word, number);
        self.used += space;
        Ok(address)
    }

    /// Pushes `n` cells of zero, and gives the address of the first. There are so many left.
    pub fn push_cells(&mut self, n: u32) -> u64
        requires { length self.old.cells + 8 * n ≤ 8 * MOST_CELLS }
        ensures address { result ≡ CELLS_AT + length self.old.cells }
        ensures pushed { self.new
            ≡ record self.old { cells = self.old.cells ++ replicate (8 * n) 0 } }
        ensures zeros { cell_numbers self.new.cells ≡ cell_numbers self.old.cells ++ replicate n 0 }
        ensures laid_out { IsLaidOut self.old }
    {
        let start = 8 * self.pushed as usize;
        zero(&mut self.cells, start, start + 8 * n as usize);
        self.pushed += n;
        CELLS_AT + start as u64
    }

    /// Takes the last `n` cells away again. So many are pushed.
    pub fn pop_cells(&mut self, n: u32)
        requires { 8 * n ≤ length self.old.cells }
        ensures popped { self.new
            ≡ record self.old { cells = take (length self.old.cells - 8 * n) self.old.cells } }
    {
        self.pushed -= n;
    }

    /// How many cells can still be pushed.
    pub fn cells_free(&self) -> u32
        ensures { length self.now.cells + 8 * result ≡ 8 * MOST_CELLS }
    {
        MOST_CELLS - self.pushed
    }

    /// The number of `width` bytes at an address. None exactly where they do not all lie in vtable
    /// and heap, or in the pushed cells.
    pub fn load(&self, at: u64, width: Width) -> Option<u64>
        ensures readable { IsSome result ↔ IsReadable self.now at (bytes_of width) }
        ensures value { result ≡ number_at self.now at (bytes_of width) }
        ensures small { IfSome result (λ number. number < 2 ^ (8 * bytes_of width)) }
        ensures in_cells { InCells self.now at (bytes_of width)
            → result ≡ Some (number_of (cell_bytes self.now at (bytes_of width))) }
        ensures cell { LoadsCell self.now at width result }
        ensures holds { ReadsBlockNumber self.now at (bytes_of width) result }
        ensures laid_out { IsLaidOut self.now }
    {
        let bytes = self.bytes(at, width.bytes() as u64)?;
        Some(number_of_bytes(bytes))
    }

    /// Writes the low bytes of `v` at an address. False exactly where they do not all lie in
    /// vtable and heap, or in the pushed cells; then nothing has changed.
    pub fn store(&mut self, at: u64, width: Width, v: u64) -> bool
        ensures stores { Stores
            self.old
            self.new
            at
            (bytes_of width)
            (low_bytes (bytes_of width) v)
            result }
        ensures number { IsTrue result
            → number_at self.new at (bytes_of width) ≡ Some (v % 2 ^ (8 * bytes_of width)) }
        ensures cell { StoresCell self.old self.new at width v }
        ensures laid_out { IsLaidOut self.old }
    {
        self.store_bytes(at, &v.to_le_bytes()[..width.bytes()])
    }

    /// Writes bytes at an address. False exactly where they do not all lie in vtable and heap, or
    /// in the pushed cells; then nothing has changed.
    pub fn store_bytes(&mut self, at: u64, bytes: &[u8]) -> bool
        ensures stores { Stores self.old self.new at (length bytes.now) bytes.now result }
        ensures laid_out { IsLaidOut self.old }
    {
        let n = bytes.len();
        if let Some(place) = place_in(VTABLE_AT, self.used, at, n) {
            self.heap.copy_in(place, bytes);
            return true;
        }
        if let Some(place) = place_in(CELLS_AT, 8 * self.pushed as usize, at, n) {
            self.cells.copy_in(place, bytes);
            return true;
        }
        false
    }

    /// The `n` bytes at an address. None exactly where they do not all lie in vtable and heap, or
    /// in the pushed cells; no byte at all can be read everywhere.
    pub fn bytes(&self, at: u64, n: u64) -> Option<&[u8]>
        ensures none { n ≡ 0 → option_copied result ≡ Some [] }
        ensures readable { 1 ≤ n → (IsSome result ↔ IsReadable self.now at n) }
        ensures value { 1 ≤ n → option_copied result ≡ bytes_at self.now at n }
        ensures in_cells { InCells self.now at n
            → option_copied result ≡ Some (cell_bytes self.now at n) }
        ensures holds { ReadsBlock self.now at n (option_copied result) }
        ensures laid_out { IsLaidOut self.now }
    {
        let pushed = 8 * self.pushed as usize;
        if n == 0 {
            return Some(&[]);
        }
        let n = n as usize;
        if let Some(place) = place_in(VTABLE_AT, self.used, at, n) {
            return Some(self.heap.bytes(place, n));
        }
        match place_in(CELLS_AT, pushed, at, n) {
            Some(place) => Some(self.cells.bytes(place, n)),
            None => None,
        }
    }

    /// The bytes of vtable and heap, from `VTABLE_AT` on.
    pub fn heap(&self) -> &[u8]
        ensures { result.now ≡ self.now.memory }
    {
        self.heap.bytes(0, self.used)
    }

    /// Whether there is a byte at least, and all lie in one data block.
    pub fn in_block(&self, at: u64, n: u64) -> bool
        ensures inside { IsTrue result ↔ Inside self.now.blocks at n }
        ensures in_memory { IsTrue result → InMemory self.now at n }
    {
        let before = count_up_to(&self.blocks, at);
        if n == 0 || before == 0 {
            return false;
        }
        let block = self.blocks[before - 1];
        let length = block.length as u64;
        n <= length && at - block.address <= length - n
    }

    /// The entry of a slot: the word at the word at `this` and as many words further. None exactly
    /// where one of the two loads is outside. On a machine that holds a heap, each object of it
    /// leads to the slot's entry address.
    pub fn slot_entry(&self, this: u64, slot: u16) -> Option<u64>
        ensures loaded { result ≡ entry_at self.now this slot }
        ensures held { (heap : List Content) → Holds self.now heap → Contains self.now.objects this
            → slot < SLOTS → result ≡ Some (Layout.entry_of slot) }
    {
        let width = Width::of_word(self.conv);
        let table = self.load(this, width)?;
        let at = table.checked_add(u64::from(word_of(self.conv)) * u64::from(slot))?;
        self.load(at, width)
    }

    /// The number of the object that begins at an address. None exactly where none does. The
    /// addresses rise with the numbers, so there is one number at most.
    pub fn object_at(&self, address: u64) -> Option<u32>
        ensures found { IsSome result ↔ Contains self.now.objects address }
        ensures number { IfSome
            result
            (λ number. slice_get self.now.objects number ≡ Some address) }
        ensures laid_out { IsLaidOut self.now }
    {
        match self.objects.binary_search(&address) {
            Ok(number) => Some(number as u32),
            Err(_) => None,
        }
    }

    /// The frame.
    pub fn frame(&self) -> &Frame
        ensures { result.now ≡ self.now.frame }
    {
        &self.frame
    }

    /// The frame, to be changed. Nothing else of the machine changes.
    pub fn frame_mut(&mut self) -> &mut Frame
        ensures* writes_back { sem 𝓛 (lends_frame self.entry result) }
        ensures value { result.now ≡ self.old.frame }
    {
        &mut self.frame
    }
}
