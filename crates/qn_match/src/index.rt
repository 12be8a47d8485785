//! The blocks of a tensor by their sectors on the shared legs.
ghost use Rattle.std.specs.Prelude.{◌≡◌, ◌<◌, ◌++◌, ◌∷◌, [], ℕ, List, cond, length, nat_eq, All, IfOk, OnOk};
ghost use Rattle.std.specs.Cmp.Lexicographic.{pointwise};
ghost use Rattle.qn_match.specs.Keys.{digits_of};
ghost use Rattle.qn_match.specs.Index.{positions_of, IsIndex};

use indexmap::IndexMap;
use qn_block::Block;
use smallvec::SmallVec;
use std::alloc::{AllocError, Global};

/// The sectors of a block on the shared legs.
pub type Key = SmallVec<u32, 8>;

/// The positions of blocks, ascending, by the keys of the blocks.
pub type Index = IndexMap<Key, Vec<usize>>;

/// The sectors of a tuple at these places.
pub fn key_of(alloc: Global, places: &[usize], tuple: &[u32]) -> Result<Key, AllocError>
    requires { All (λ k. k < length tuple.now) places.now }
    ensures { IfOk result (λ key. key.items ≡ digits_of places.now tuple.now) }
{
    let mut key = SmallVec::new(alloc);
    for place in places {
        key.push(tuple[*place])?;
    }
    Ok(key)
}

/// Appends a position to those of a key.
fn add_position(index: &mut Index, key: Key, position: usize) -> Result<(), AllocError>
    ensures { OnOk result ((other : List ℕ) → positions_of index.new other ≡ positions_of index.old other ++ cond (pointwise nat_eq other key.items) (position ∷ []) []) }
{
    index.entry(key)?.or_default().push(position)?;
    Ok(())
}

/// The index of these blocks by their sectors on the legs at these places.
pub fn index_of(alloc: Global, places: &[usize], blocks: &[Block]) -> Result<Index, AllocError>
    requires { All (λ b. All (λ k. k < length b.tuple) places.now) blocks.now }
    ensures { IfOk result (IsIndex places.now blocks.now) }
{
    let mut index = IndexMap::new(alloc);
    for j in 0..blocks.len() {
        let block = &blocks[j];
        let key = key_of(alloc, places, block.tuple.as_slice())?;
        add_position(&mut index, key, j)?;
    }
    Ok(index)
}

/// The positions that the index has for a key.
pub fn positions_of<'a>(index: &'a Index, key: &Key) -> &'a [usize]
    ensures { result.now ≡ positions_of index.now key.now.items }
{
    match index.get(key) {
        Some(positions) => positions.as_slice(),
        None => &[],
    }
}
