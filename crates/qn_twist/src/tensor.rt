//! A tensor, negated block by block.

ghost use Rattle.std.specs.Prelude.{◌≡◌, ◌<◌, length, map};
ghost use Rattle.std.specs.List.{All};
ghost use Rattle.qn_index.specs.Tuples.{IsTuple};
ghost use Rattle.qn_block.specs.Blocked.{tensor_of};
ghost use Rattle.qn_twist.specs.Twisted.{Twisted, twisted, twisted_block};

use crate::block::twist_block;
use qn_block::laws::entries_of_blocks;
use qn_block::{Block, BlockTensor};
use qn_charge::Group;
use qn_index::Leg;

/// Negates each block in whose tuple an odd number of the legs at these places have odd sectors.
fn twist_blocks<const K: usize>(
    group: &Group<K>,
    legs: &[Leg<K>],
    places: &[usize],
    blocks: &mut Vec<Block>,
)
    requires tuples { All (λ b. IsTuple legs.now b.tuple) blocks.old.items }
    requires places { All (λ k. k < length legs.now) places.now }
    ensures { blocks.new.items ≡ map (twisted_block group.now legs.now places.now) blocks.old.items }
{
    for i in 0..blocks.len() {
        twist_block(group, legs, places, &mut blocks[i]);
    }
}

/// The tensor, in which each block whose tuple has an odd number of odd sectors among the legs at these places is
/// negated. So each entry is times -1 where an odd number of these legs have odd values. A place that stands twice
/// counts twice. Takes no memory.
pub fn twist<const K: usize>(t: BlockTensor<K>, places: &[usize]) -> BlockTensor<K>
    requires { All (λ k. k < length t.legs) places.now }
    ensures blocks { result ≡ twisted t.entry places.now }
    ensures value { Twisted (tensor_of t.entry) places.now (tensor_of result) }
{
    entries_of_blocks();
    t.known();
    let (group, legs, flux, mut blocks) = t.into_parts();
    twist_blocks(&group, &legs, places, &mut blocks);
    let twisted = BlockTensor::of_blocks(group, legs, flux, blocks);
    twisted.known();
    twisted
}
