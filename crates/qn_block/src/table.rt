//! The two tables of a combiner.
ghost use Rattle.std.specs.Prelude.{◌≡◌, Bool, List, ℕ, IfOk, IfErr, OnOk};
ghost use Rattle.qn_charge.specs.Charges.{zero_charge};
ghost use Rattle.qn_index.specs.Places.{IsValues};
ghost use Rattle.qn_index.specs.Extents.{IsWithinLimits};
ghost use Rattle.qn_value.specs.Tensors.{entry_of};
ghost use Rattle.qn_block.specs.Blocked.{tensor_of};
ghost use Rattle.qn_block.specs.Refusals.{IsShapeFault};
ghost use Rattle.qn_block.specs.Tables.{fuse_legs, fuse_entry, split_legs, split_entry, fuse_tensor, split_tensor, matching};

use crate::checks::check_shape;
use crate::combiner::Combiner;
use crate::conjugate::conjugate_legs;
use crate::fault::BlockFault;
use crate::from_fn::tensor_from;
use crate::tensor::BlockTensor;
use crate::values::{backwards, is_odd_inward, odd_inward, same_values};
use qn_charge::Abelian;
use qn_gauss::Gauss;
use qn_index::{Leg, copy_legs};
use std::alloc::AllocError;

/// The entry of a table: 1 where the values match, or -1, and else 0.
#[tactic(auto, unfolding(qn_gauss::specs::Gaussian::zero_g, qn_gauss::specs::Gaussian::one_g, qn_gauss::specs::Gaussian::neg_g))]
fn matching(same: bool, odd: bool) -> Gauss
    ensures { result ≡ matching same odd }
{
    match (same, odd) {
        (false, _) => Gauss::ZERO,
        (true, false) => Gauss::ONE,
        (true, true) => Gauss::ONE.neg(),
    }
}

impl<const K: usize> Combiner<K> {
    /// The entry of the fuse table at a value of the fused leg and values of the legs, last first.
    fn fuse_entry(&self, values: &[u32]) -> Gauss
        requires { IsValues (fuse_legs self.now.group self.now.legs self.now.arrow) values.now }
        ensures { result ≡ fuse_entry self.now.group self.now.legs self.now.arrow values.now }
    {
        self.known();
        let legs = self.legs();
        let n = legs.len();
        let turned = backwards(&values[1..]);
        let given = &turned[..n];
        let found = self.values_of(values[0]);
        matching(
            same_values(given, &found[..n]),
            odd_inward(self.group(), legs, given),
        )
    }

    /// The entry of the split table at values of the legs and a value of the fused leg.
    fn split_entry(&self, values: &[u32]) -> Gauss
        requires { IsValues (split_legs self.now.group self.now.legs self.now.arrow) values.now }
        ensures { result ≡ split_entry self.now.group self.now.legs self.now.arrow values.now }
    {
        self.known();
        let n = self.legs().len();
        let given = &values[..n];
        let found = self.values_of(values[n]);
        matching(
            same_values(given, &found[..n]),
            is_odd_inward(self.group(), self.fused(), values[n]),
        )
    }

    /// The legs of the fuse table: the fused leg, and then the flipped legs, last first.
    pub fn fuse_legs(&self) -> Result<Vec<Leg<K>>, AllocError>
        ensures { IfOk result (λ v. v.items ≡ fuse_legs self.now.group self.now.legs self.now.arrow) }
    {
        let fused = self.fused().copy()?;
        let mut legs = conjugate_legs(self.allocator(), self.legs())?;
        legs.insert(0, fused)?;
        Ok(legs)
    }

    /// The legs of the split table: the legs, and then the flipped fused leg.
    pub fn split_legs(&self) -> Result<Vec<Leg<K>>, AllocError>
        ensures { IfOk result (λ v. v.items ≡ split_legs self.now.group self.now.legs self.now.arrow) }
    {
        let fused = self.fused().copy()?;
        let mut legs = copy_legs(self.allocator(), self.legs())?;
        legs.push(fused.flip())?;
        Ok(legs)
    }

    /// Whether the fuse table is within the limits of a shape, or which limit it breaks first.
    pub fn check_fuse_table(&self) -> Result<(), BlockFault>
        ensures ok { OnOk result (
            IsWithinLimits self.now.group (fuse_legs self.now.group self.now.legs self.now.arrow) (
            zero_charge self.now.group)) }
        ensures err { IfErr result (
            IsShapeFault self.now.group (fuse_legs self.now.group self.now.legs self.now.arrow) (
            zero_charge self.now.group)) }
    {
        self.known();
        let legs = self.fuse_legs()?;
        let flux = self.group().zero();
        check_shape(self.allocator(), self.group(), &legs, &flux)
    }

    /// The fuse table: a tensor of the fused leg and the flipped legs, last first. Contracted with a
    /// tensor over all flipped legs it puts the fused leg in their place. The table may not be too wide.
    pub fn fuse_table(&self) -> Result<BlockTensor<K>, AllocError>
        requires shape { IsWithinLimits self.now.group (fuse_legs self.now.group self.now.legs self.now.arrow) (
            zero_charge self.now.group) }
        ensures group { IfOk result (λ t. t.group ≡ self.now.group) }
        ensures legs { IfOk result (λ t. t.legs ≡ fuse_legs self.now.group self.now.legs self.now.arrow) }
        ensures flux { IfOk result (λ t. t.flux ≡ zero_charge self.now.group) }
        ensures entries { IfOk result (λ t. (xs : List ℕ) → entry_of (tensor_of t) xs ≡ entry_of (fuse_tensor self.now) xs) }
    {
        self.known();
        let legs = self.fuse_legs()?;
        let flux = self.group().zero();
        let entry = |values: &[u32]| -> Gauss
            requires { IsValues (fuse_legs self.now.group self.now.legs self.now.arrow) values.now }
            ensures { result ≡ fuse_entry self.entry.now.group self.entry.now.legs self.entry.now.arrow values.now }
        { self.fuse_entry(values) };
        let table = tensor_from(self.allocator(), *self.group(), legs, flux, &entry)?;
        table.known();
        Ok(table)
    }

    /// Whether the split table is within the limits of a shape, or which limit it breaks first.
    pub fn check_split_table(&self) -> Result<(), BlockFault>
        ensures ok { OnOk result (
            IsWithinLimits self.now.group (split_legs self.now.group self.now.legs self.now.arrow) (
            zero_charge self.now.group)) }
        ensures err { IfErr result (
            IsShapeFault self.now.group (split_legs self.now.group self.now.legs self.now.arrow) (
            zero_charge self.now.group)) }
    {
        self.known();
        let legs = self.split_legs()?;
        let flux = self.group().zero();
        check_shape(self.allocator(), self.group(), &legs, &flux)
    }

    /// The split table: a tensor of the legs and the flipped fused leg. Contracted with a tensor over
    /// the fused leg it puts the legs in its place. The table may not be too wide.
    pub fn split_table(&self) -> Result<BlockTensor<K>, AllocError>
        requires shape { IsWithinLimits self.now.group (split_legs self.now.group self.now.legs self.now.arrow) (
            zero_charge self.now.group) }
        ensures group { IfOk result (λ t. t.group ≡ self.now.group) }
        ensures legs { IfOk result (λ t. t.legs ≡ split_legs self.now.group self.now.legs self.now.arrow) }
        ensures flux { IfOk result (λ t. t.flux ≡ zero_charge self.now.group) }
        ensures entries { IfOk result (λ t. (xs : List ℕ) → entry_of (tensor_of t) xs ≡ entry_of (split_tensor self.now) xs) }
    {
        self.known();
        let legs = self.split_legs()?;
        let flux = self.group().zero();
        let entry = |values: &[u32]| -> Gauss
            requires { IsValues (split_legs self.now.group self.now.legs self.now.arrow) values.now }
            ensures { result ≡ split_entry self.entry.now.group self.entry.now.legs self.entry.now.arrow values.now }
        { self.split_entry(values) };
        let table = tensor_from(self.allocator(), *self.group(), legs, flux, &entry)?;
        table.known();
        Ok(table)
    }
}
