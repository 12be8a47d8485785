//! What stands in a network: a tensor, the fuse or the split of a combiner; and its leg at each place.

ghost use Rattle.std.specs.Prelude.{◌≡◌, ◌<◌, ◌==◌, ◌+◌, IfOk, cond, length, slice_index_or};
ghost use Rattle.qn_index.specs.Legs.{flipped, other_way};
ghost use Rattle.qn_block.specs.Tables.{fuse_tensor, split_tensor};
ghost use Rattle.qn_net.specs.Members.{LabelledMember, MemberValue, MemberLaw, member_value, member_tensor, role_of, role_value, leg_at, no_leg, is_flipped, IsHeld};

use qn_block::{BlockTensor, Combiner};
use qn_charge::{Abelian, Charge};
use qn_index::{Dir, Leg, Sector};
use std::alloc::AllocError;
use std::marker::Model;

/// What a member of a network is.
#[derive(Debug, Drop)]
pub enum Member<const K: usize> {
    /// A tensor of its own.
    Tensor(BlockTensor<K>),
    /// The fuse table of a combiner.
    Fuse(Combiner<K>),
    /// The split table of a combiner.
    Split(Combiner<K>),
}

/// What a member stands for.
#[derive(Clone, Copy, Debug, PartialEq, Eq)]
pub enum MemberRole {
    /// A tensor of its own.
    Plain,
    /// The fuse table of a combiner.
    FuseTable,
    /// The split table of a combiner.
    SplitTable,
}

/// A member of a network, with a label on each leg: positive labels pair up legs, and -1, -2, .. number the open ones.
#[derive(Debug, Drop)]
pub struct NetTensor<const K: usize> {
    pub member: Member<K>,
    pub labels: Vec<i64>,
}

impl<const K: usize> Model for NetTensor<K> {
    ghost use Rattle.qn_net.specs.Members.{LabelledMember, member_value};

    ghost Value = { LabelledMember };

    ghost view = { λ t. record { member = member_value K t.member; labels = t.labels.items } };
}

/// The other arrow.
fn turned(dir: Dir) -> Dir
    ensures { result ≡ other_way dir }
{
    match dir {
        Dir::Out => Dir::In,
        Dir::In => Dir::Out,
    }
}

/// The leg of a combiner that stands at a place of its fuse table: the fused leg first, the others flipped.
fn in_fuse<const K: usize>(c: &Combiner<K>, leg: usize) -> &Leg<K>
    requires { leg < length (fuse_tensor c.now).legs }
    ensures { slice_index_or (fuse_tensor c.now).legs leg no_leg ≡ cond (leg == 0) result.now (flipped result.now) }
{
    if leg == 0 {
        return c.fused();
    }
    let legs = c.legs();
    &legs[legs.len() - leg]
}

/// The leg of a combiner that stands at a place of its split table: the fused leg last, and flipped.
fn in_split<const K: usize>(c: &Combiner<K>, leg: usize) -> &Leg<K>
    requires { leg < length (split_tensor c.now).legs }
    ensures { slice_index_or (split_tensor c.now).legs leg no_leg ≡
        cond (leg == length c.now.legs) (flipped result.now) result.now }
{
    let legs = c.legs();
    if leg == legs.len() {
        return c.fused();
    }
    &legs[leg]
}

impl<const K: usize> NetTensor<K> {
    /// What holds of each member. Nothing is done.
    pub fn known(&self)
        ensures { IsHeld self.now.member }
    {
        match &self.member {
            Member::Tensor(t) => t.known(),
            Member::Fuse(c) => c.known(),
            Member::Split(c) => c.known(),
        }
    }

    /// The labels, one for each leg.
    pub fn labels(&self) -> &[i64]
        ensures { result.now ≡ self.now.labels }
    {
        &self.labels
    }

    /// What the member stands for.
    pub fn role(&self) -> MemberRole
        ensures { role_value result ≡ role_of self.now.member }
    {
        match &self.member {
            Member::Tensor(_) => MemberRole::Plain,
            Member::Fuse(_) => MemberRole::FuseTable,
            Member::Split(_) => MemberRole::SplitTable,
        }
    }

    /// The flux.
    pub fn flux(&self) -> Charge<K>
        ensures { result ≡ (member_tensor self.now.member).flux }
    {
        match &self.member {
            Member::Tensor(t) => *t.flux(),
            Member::Fuse(c) => c.group().zero(),
            Member::Split(c) => c.group().zero(),
        }
    }

    /// The number of legs.
    pub fn width(&self) -> usize
        ensures { result ≡ length (member_tensor self.now.member).legs }
    {
        match &self.member {
            Member::Tensor(t) => t.legs().len(),
            Member::Fuse(c) => more(c.legs()),
            Member::Split(c) => more(c.legs()),
        }
    }

    /// Whether a leg is a flipped leg of a combiner.
    fn is_turned(&self, leg: usize) -> bool
        ensures { result ≡ is_flipped self.now.member leg }
    {
        match &self.member {
            Member::Tensor(_) => false,
            Member::Fuse(_) => leg != 0,
            Member::Split(c) => leg == c.legs().len(),
        }
    }

    /// The leg, or the leg of a combiner that it is but for its arrow.
    fn source(&self, leg: usize) -> &Leg<K>
        requires { leg < length (member_tensor self.now.member).legs }
        ensures { leg_at self.now leg ≡ cond (is_flipped self.now.member leg) (flipped result.now) result.now }
    {
        match &self.member {
            Member::Tensor(t) => {
                let legs = t.legs();
                &legs[leg]
            }
            Member::Fuse(c) => in_fuse(c, leg),
            Member::Split(c) => in_split(c, leg),
        }
    }

    /// The arrow of a leg.
    pub fn dir(&self, leg: usize) -> Dir
        requires { leg < length (member_tensor self.now.member).legs }
        ensures { result ≡ (leg_at self.now leg).arrow }
    {
        let dir = self.source(leg).dir();
        if self.is_turned(leg) {
            turned(dir)
        } else {
            dir
        }
    }

    /// The sectors of a leg.
    pub fn sectors(&self, leg: usize) -> &[Sector<K>]
        requires { leg < length (member_tensor self.now.member).legs }
        ensures { result.now ≡ (leg_at self.now leg).sectors }
    {
        self.source(leg).sectors()
    }

    /// A copy of a leg.
    pub fn leg(&self, leg: usize) -> Result<Leg<K>, AllocError>
        requires { leg < length (member_tensor self.now.member).legs }
        ensures { IfOk result (λ l. l ≡ leg_at self.now leg) }
    {
        let copy = self.source(leg).copy()?;
        if self.is_turned(leg) {
            Ok(copy.flip())
        } else {
            Ok(copy)
        }
    }
}

/// One more than the number of a combiner's legs.
fn more<const K: usize>(legs: &[Leg<K>]) -> usize
    ensures { result ≡ length legs.now + 1 }
{
    legs.len() + 1
}

/// The tensor that a member of a network stands for is within the limits.
pub fn member_law()
    ensures { MemberLaw }
{}
