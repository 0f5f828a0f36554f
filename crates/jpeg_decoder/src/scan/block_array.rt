//! The blocks of a component, of which as many are stored as scans have reached.
ghost use Rattle.std.specs.Prelude.{◌≡◌, ◌≤◌, ◌<◌, All, IfOk, OnOk};
ghost use Rattle.jpeg_decoder.specs.Scanning.{arrays_in, sizes_of, IsFull};

use std::alloc::{AllocError, Global};

/// How many blocks are stored at once, from the one that is asked for on, as far as there are any.
const STEP: usize = 64;

/// The blocks of a component in raster order, their coefficients in block order: the first ones,
/// which are stored, and after them blocks of zeros, which aren't.
///
/// Room for all of them is reserved at first, but no memory is touched before a block is stored.
#[derive(Drop)]
pub struct BlockArray {
    /// The blocks that are stored.
    pub blocks: Vec<[i16; 64]>,
    // how many blocks there are, with those that aren't stored
    count: usize,
}

/// Returns up to where blocks are to be stored, so that the one at an index is.
fn end_after(index: usize, count: usize) -> usize
    requires { index < count }
    ensures after { index < result }
    ensures within { result ≤ count }
{
    index + (count - index).min(STEP)
}

impl BlockArray {
    ghost use Rattle.std.specs.Prelude.{◌≡◌, ◌≤◌, ◌<◌, IfOk, OnOk, [], length, replicate};
    ghost use Rattle.jpeg_bits.specs.Passes.{zero_block};
    ghost use Rattle.jpeg_decoder.specs.Scanning.{blocks_in, IsFull};

    /// Makes no blocks.
    pub fn none(alloc: Global) -> BlockArray
        ensures { blocks_in result ≡ [] }
    {
        BlockArray {
            blocks: Vec::new(alloc),
            count: 0,
        }
    }

    /// Makes this many blocks of zeros, of which none is stored. The error is that there is no room
    /// for all of them.
    pub fn zeros(alloc: Global, count: usize) -> Result<BlockArray, AllocError>
        ensures blocks { IfOk result (λ a. blocks_in a ≡ replicate count zero_block) }
        ensures size { IfOk result (λ a. length (blocks_in a) ≡ count) }
    {
        let blocks = Vec::with_capacity(alloc, count)?;
        Ok(BlockArray { blocks, count })
    }

    /// Makes this many blocks of zeros, of which none will be stored: no room is reserved.
    pub fn unstored(alloc: Global, count: usize) -> BlockArray
        ensures { blocks_in result ≡ replicate count zero_block }
    {
        BlockArray {
            blocks: Vec::new(alloc),
            count,
        }
    }

    /// Copies the blocks. No more are stored, and there is as much room for them.
    #[tactic(auto, unfolding(crate::specs::Scanning::blocks_in))]
    pub fn copied(&self, alloc: Global) -> Result<BlockArray, AllocError>
        ensures blocks { IfOk result (λ a. blocks_in a ≡ blocks_in self.now) }
        ensures stored { IfOk result (λ a. a.blocks.items ≡ self.now.blocks.items) }
    {
        let mut blocks = Vec::with_capacity(alloc, self.blocks.capacity())?;
        blocks.extend_from_slice(&self.blocks)?;
        Ok(BlockArray {
            blocks,
            count: self.count,
        })
    }

    /// Stores the first blocks, up to this many.
    #[cold]
    #[inline(never)]
    fn store(&mut self, end: usize) -> Result<(), AllocError>
        requires more { length self.old.blocks.items ≤ end }
        requires within { end ≤ self.old.count }
        ensures blocks { blocks_in self.new ≡ blocks_in self.old }
        ensures count { self.new.count ≡ self.old.count }
        ensures stored { OnOk result (length self.new.blocks.items ≡ end) }
    {
        self.blocks.resize(end, [0; 64])
    }

    /// Stores the block at an index, and with it those before it and some after it.
    #[inline]
    pub fn reach(&mut self, index: usize) -> Result<(), AllocError>
        requires { index < length (blocks_in self.old) }
        ensures blocks { blocks_in self.new ≡ blocks_in self.old }
        ensures stored { OnOk result (index < length self.new.blocks.items) }
    {
        if index < self.blocks.len() {
            return Ok(());
        }
        self.store(end_after(index, self.count))
    }

    /// Stores all blocks.
    pub fn fill(&mut self) -> Result<(), AllocError>
        ensures blocks { blocks_in self.new ≡ blocks_in self.old }
        ensures full { OnOk result (IsFull self.new) }
    {
        if self.blocks.len() < self.count {
            self.store(self.count)?;
        }
        Ok(())
    }
}

/// Stores all blocks of some components.
pub fn fill_all(arrays: &mut Vec<BlockArray>) -> Result<(), AllocError>
    ensures arrays { OnOk result (arrays_in arrays.new.items ≡ arrays_in arrays.old.items) }
    ensures sizes { sizes_of arrays.new.items ≡ sizes_of arrays.old.items }
    ensures full { OnOk result (All IsFull arrays.new.items) }
{
    let mut slot = 0;
    while slot < arrays.len() {
        arrays[slot].fill()?;
        slot += 1;
    }
    Ok(())
}

/// Copies the blocks of some components.
pub fn copied_arrays(alloc: Global, arrays: &[BlockArray]) -> Result<Vec<BlockArray>, AllocError>
    ensures { IfOk result (λ v. arrays_in v.items ≡ arrays_in arrays.now) }
{
    let mut copies = Vec::with_capacity(alloc, arrays.len())?;
    for array in arrays {
        copies.push(array.copied(alloc)?)?;
    }
    Ok(copies)
}
