//! Tensors and combiners of rows in one group.

ghost use Rattle.std.specs.Prelude.{IfOk};
ghost use Rattle.qn_match.specs.Pairs.{IsPair};

use qn_block::BlockTensor;
use qn_charge::{Factor, Group};
use qn_match::is_pair;
use qn_samples::{BlockRow, LegRow, TensorRow, tensor_of};
use std::alloc::{AllocError, Global};
use std::process::Abort;
use std::test::Fail;

/// The tensor of a row in the group of this factor.
pub(crate) fn tensor(
    alloc: Global,
    factor: Factor,
    legs: &[LegRow],
    flux: i64,
    blocks: &[BlockRow],
) -> Result<BlockTensor<1>, Fail> {
    let group = Group::<1>::new(&[factor])?;
    let row = TensorRow { legs, flux, blocks };
    Ok(tensor_of(alloc, &group, row)?)
}

/// What a contraction over these pairs of legs asks for.
pub(crate) fn expect_pair(
    rt: &impl Abort,
    alloc: Global,
    a: &BlockTensor<1>,
    b: &BlockTensor<1>,
    shared: &[(usize, usize)],
) -> Result<(), AllocError>
    ensures { IfOk result (λ r. IsPair a.now b.now shared.now) }
{
    assert!(rt; is_pair(alloc, a, b, shared)?);
    Ok(())
}
