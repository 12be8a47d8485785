//! The shapes of the members of a network.

ghost use Rattle.std.specs.Prelude.{◌≡◌, ◌≤◌, ◌<◌, ◌+◌, length, All, IfOk};
ghost use Rattle.qn_value.specs.Labels.{is_inward};
ghost use Rattle.qn_net.specs.Members.{member_tensor, role_of};
ghost use Rattle.qn_plan.specs.Shapes.{member_shape, member_shapes, member_ends};

use crate::shape::Shape;
use qn_index::{Dir, Leg};
use qn_net::NetTensor;
use qn_value::plain::LineEnd;
use std::alloc::{AllocError, Global};

/// Whether an arrow points into its tensor.
fn points_in(dir: Dir) -> bool
    ensures { result ≡ is_inward dir }
{
    match dir {
        Dir::In => true,
        Dir::Out => false,
    }
}

/// The end of a line that a leg with this label and arrow is.
fn leg_end(label: &i64, dir: Dir) -> LineEnd
    ensures { result ≡ record { label = label.now; inward = is_inward dir } }
{
    LineEnd {
        label: *label,
        inward: points_in(dir),
    }
}

/// Which end of which line each leg is.
fn ends_of<const K: usize>(alloc: Global, member: &NetTensor<K>) -> Result<Vec<LineEnd>, AllocError>
    requires { length member.now.labels ≡ length (member_tensor member.now.member).legs }
    ensures { IfOk result (λ v. v.items ≡ member_ends (member_tensor member.now.member).legs member.now.labels) }
{
    let labels = member.labels();
    let mut ends = Vec::with_capacity(alloc, labels.len())?;
    for j in 0..labels.len() {
        ends.push(leg_end(&labels[j], member.dir(j)))?;
    }
    Ok(ends)
}

/// The legs.
fn legs_of<const K: usize>(alloc: Global, member: &NetTensor<K>) -> Result<Vec<Leg<K>>, AllocError>
    ensures { IfOk result (λ v. v.items ≡ (member_tensor member.now.member).legs) }
{
    let mut legs = Vec::with_capacity(alloc, member.width())?;
    for j in 0..member.width() {
        legs.push(member.leg(j)?)?;
    }
    Ok(legs)
}

/// The shape of a member with this number.
fn shape_of<const K: usize>(
    alloc: Global,
    number: u32,
    member: &NetTensor<K>,
) -> Result<Shape<K>, AllocError>
    requires { length member.now.labels ≡ length (member_tensor member.now.member).legs }
    ensures { IfOk result (λ s. s ≡ member_shape number (member_tensor member.now.member) member.now.labels (role_of member.now.member)) }
{
    let ends = ends_of(alloc, member)?;
    let legs = legs_of(alloc, member)?;
    Ok(Shape {
        number,
        ends,
        legs,
        flux: member.flux(),
        role: member.role(),
    })
}

/// The number of the member at a place.
fn number_of(place: usize) -> u32
    requires { place < 256 }
    ensures { result ≡ place + 1 }
{
    place as u32 + 1
}

/// The shapes of the members, numbered from 1.
pub(crate) fn shapes_of<const K: usize>(
    alloc: Global,
    members: &[NetTensor<K>],
) -> Result<Vec<Shape<K>>, AllocError>
    requires few { length members.now ≤ 256 }
    requires labels { All (λ m. length m.labels ≡ length (member_tensor m.member).legs) members.now }
    ensures { IfOk result (λ v. v.items ≡ member_shapes 1 members.now) }
{
    let mut shapes = Vec::with_capacity(alloc, members.len())?;
    for i in 0..members.len() {
        shapes.push(shape_of(alloc, number_of(i), &members[i])?)?;
    }
    Ok(shapes)
}
