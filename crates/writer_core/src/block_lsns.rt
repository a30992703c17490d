//! A map from blocks and their groups to LSNs.

ghost use Rattle.std.specs.Prelude.{◌≡◌, ◌≢◌, ℕ, IfOk, OnOk, length, slice_get};
ghost use Rattle.writer_core.specs.Kept.{lsn_in, lsn_under, PutsIn};
ghost use Rattle.writer_core.specs.declared.block_lsns.TheConstants.{TREES};

use std::alloc::{AllocError, Global};
use std::collections::BTreeMap;
use std::mem;

const TREES: usize = 16;

/// A block and its group.
type Place = (u32, u8);

/// Makes the trees, which are empty.
#[inline(never)]
fn empty_trees(alloc: Global) -> Result<Vec<BTreeMap<Place, u64>>, AllocError>
    ensures full { IfOk result (λ trees. length trees.items ≡ TREES) }
    ensures empty { IfOk result (λ trees. (i q b : ℕ) → lsn_under (slice_get trees.items i) q b ≡ 0) }
{
    let mut trees = Vec::with_capacity(alloc, TREES)?;
    while trees.len() < TREES {
        trees.push_reserved(BTreeMap::new(alloc));
    }
    Ok(trees)
}

/// Returns the LSN of a block in its tree, 0 if it has none.
fn known_in(tree: &BTreeMap<Place, u64>, place: Place) -> u64
    ensures { result ≡ lsn_in tree.now place.1 place.0 }
{
    match tree.get(&place) {
        Some(lsn) => *lsn,
        None => 0,
    }
}

/// Sets the LSN of a block in its tree. Returns the one before it, 0 if there was none.
#[inline(always)]
fn put_in(tree: &mut BTreeMap<Place, u64>, place: Place, lsn: u64) -> Result<u64, AllocError>
    ensures before { IfOk result (λ before. before ≡ lsn_in tree.old place.1 place.0) }
    ensures ok { OnOk result (PutsIn (lsn_in tree.old) place.1 place.0 lsn (lsn_in tree.new)) }
{
    if let Some(last) = tree.get_mut(&place) {
        return Ok(mem::replace(last, lsn));
    }
    tree.insert(place, lsn)?;
    Ok(0)
}

/// The LSN of each block that has one. There are 16 trees, selected by the block's number modulo 16, so that each stays
/// low: with one tree, recoveries between writes take 6 % more instructions. The trees are made when the first LSN is
/// set.
#[derive(Drop)]
pub struct BlockLsns {
    trees: Vec<BTreeMap<Place, u64>>,
    ghost full: { length trees.items ≢ 0 → length trees.items ≡ TREES },
}

impl BlockLsns {
    ghost use Rattle.writer_core.specs.Kept.{KeepsIn};
    ghost use Rattle.writer_core.specs.BlockLsns.{kept_in};

    /// Makes an empty map. Allocates nothing.
    pub fn new(alloc: Global) -> BlockLsns
        ensures { (q b : ℕ) → kept_in result q b ≡ 0 }
    {
        BlockLsns {
            trees: Vec::new(alloc),
        }
    }

    /// Makes the trees, if there are none.
    fn make_trees(&mut self) -> Result<(), AllocError>
        ensures full { OnOk result (length self.new.trees.items ≡ TREES) }
        ensures same { OnOk result ((q b : ℕ) → kept_in self.new q b ≡ kept_in self.old q b) }
    {
        if self.trees.is_empty() {
            self.trees = empty_trees(*self.trees.allocator())?;
        }
        Ok(())
    }

    /// Returns the LSN of a block, 0 if it has none.
    pub fn known(&self, place: Place) -> u64
        ensures { result ≡ kept_in self.now place.1 place.0 }
    {
        if self.trees.is_empty() {
            return 0;
        }
        known_in(&self.trees[place.0 as usize % TREES], place)
    }

    /// Sets the LSN of a block. Returns the one before it, 0 if there was none.
    #[inline(always)]
    pub fn put(&mut self, place: Place, lsn: u64) -> Result<u64, AllocError>
        ensures before { IfOk result (λ before. before ≡ kept_in self.old place.1 place.0) }
        ensures ok { OnOk result (PutsIn (kept_in self.old) place.1 place.0 lsn (kept_in self.new)) }
    {
        self.make_trees()?;
        put_in(&mut self.trees[place.0 as usize % TREES], place, lsn)
    }

    /// Sets the LSN of a block, if it has none.
    pub fn keep(&mut self, place: Place, lsn: u64) -> Result<(), AllocError>
        ensures { OnOk result (KeepsIn (kept_in self.old) place.1 place.0 lsn (kept_in self.new)) }
    {
        if self.known(place) == 0 {
            self.put(place, lsn)?;
        }
        Ok(())
    }
}
