//! The shapes of tensors, and what steps make of them.

ghost use Rattle.std.specs.Prelude.{◌≡◌, ◌≤◌, length, All, IfOk};
ghost use Rattle.qn_charge.specs.Charges.{sum_charge};
ghost use Rattle.qn_index.specs.Legs.{IsLegOf};
ghost use Rattle.qn_index.specs.Tuples.{IsFlux};
ghost use Rattle.qn_match.specs.Cost.{cost_of};
ghost use Rattle.qn_plan.specs.Shapes.{joined_shape, closed_shape, shared_places};
ghost use Rattle.qn_plan.specs.Planned.{is_too_wide};
ghost use Rattle.qn_plan.specs.Conditions.{AreAdded, CanCost};

use crate::ends::{append_ends, append_legs, shared_places};
use qn_charge::{Abelian, Charge, Group};
use qn_index::{Leg, width};
use qn_match::cost;
use qn_net::MemberRole;
use qn_value::plain::LineEnd;
use std::alloc::{AllocError, Global};
use std::marker::Model;

const MAX_LEGS: usize = 64;

const MAX_TUPLES: u64 = 1 << 20;

const MAX_ENTRIES: u64 = 1 << 22;

/// A tensor without its entries: its number in the plan, which end of which line each leg is, the legs, the flux,
/// and what it stands for where no step has touched it.
#[derive(Drop)]
pub(crate) struct Shape<const K: usize> {
    pub number: u32,
    pub ends: Vec<LineEnd>,
    pub legs: Vec<Leg<K>>,
    pub flux: Charge<K>,
    pub role: MemberRole,
}

impl<const K: usize> Model for Shape<K> {
    ghost use Rattle.qn_net.specs.Members.{role_value};
    ghost use Rattle.qn_plan.specs.Shapes.{ShapeValue};

    ghost Value = { ShapeValue };

    ghost view = { λ s. record { number = s.number; ends = s.ends.items; legs = s.legs.items; flux = s.flux; role = role_value s.role } };
}

/// Two tensors brought together over these labels.
pub(crate) fn joined<const K: usize>(
    alloc: Global,
    group: &Group<K>,
    first: &Shape<K>,
    second: &Shape<K>,
    summed: &[i64],
) -> Result<Shape<K>, AllocError>
    requires first { length first.now.ends ≡ length first.now.legs }
    requires second { length second.now.ends ≡ length second.now.legs }
    requires flux { AreAdded group.now first.now.flux second.now.flux }
    ensures { IfOk result (λ s. s ≡ joined_shape group.now first.now second.now summed.now) }
{
    let mut ends = Vec::new(alloc);
    append_ends(&first.ends, summed, &mut ends)?;
    append_ends(&second.ends, summed, &mut ends)?;
    let mut legs = Vec::new(alloc);
    append_legs(&first.ends, &first.legs, summed, &mut legs)?;
    append_legs(&second.ends, &second.legs, summed, &mut legs)?;
    Ok(Shape {
        number: first.number,
        ends,
        legs,
        flux: group.add(&first.flux, &second.flux),
        role: MemberRole::Plain,
    })
}

/// A tensor that is summed over these labels.
pub(crate) fn closed<const K: usize>(
    alloc: Global,
    shape: &Shape<K>,
    summed: &[i64],
) -> Result<Shape<K>, AllocError>
    requires { length shape.now.ends ≡ length shape.now.legs }
    ensures { IfOk result (λ s. s ≡ closed_shape shape.now summed.now) }
{
    let mut ends = Vec::new(alloc);
    append_ends(&shape.ends, summed, &mut ends)?;
    let mut legs = Vec::new(alloc);
    append_legs(&shape.ends, &shape.legs, summed, &mut legs)?;
    Ok(Shape {
        number: shape.number,
        ends,
        legs,
        flux: shape.flux,
        role: MemberRole::Plain,
    })
}

/// Whether a shape is past one of the limits.
pub(crate) fn is_too_wide<const K: usize>(
    alloc: Global,
    group: &Group<K>,
    shape: &Shape<K>,
) -> Result<bool, AllocError>
    requires charges { All (IsLegOf group.now) shape.now.legs }
    requires flux { IsFlux group.now shape.now.flux }
    ensures { IfOk result (λ b. b ≡ is_too_wide group.now shape.now.legs shape.now.flux) }
{
    if shape.legs.len() > MAX_LEGS {
        return Ok(true);
    }
    let extent = width(alloc, group, &shape.legs, &shape.flux)?;
    if extent.tuples > MAX_TUPLES {
        return Ok(true);
    }
    Ok(extent.entries > MAX_ENTRIES)
}

/// What the contraction of two tensors over these labels costs.
pub(crate) fn cost_over<const K: usize>(
    alloc: Global,
    group: &Group<K>,
    first: &Shape<K>,
    second: &Shape<K>,
    summed: &[i64],
) -> Result<u64, AllocError>
    requires { CanCost group.now first.now second.now summed.now }
    ensures { IfOk result (λ n. n ≡ cost_of group.now first.now.legs first.now.flux second.now.legs second.now.flux (shared_places first.now.ends second.now.ends summed.now)) }
{
    let places = shared_places(alloc, &first.ends, &second.ends, summed)?;
    cost(
        alloc,
        group,
        &first.legs,
        &first.flux,
        &second.legs,
        &second.flux,
        &places,
    )
}
