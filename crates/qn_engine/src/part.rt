//! What the engine keeps for each tensor of a network on its way through the steps.

ghost use Rattle.std.specs.Prelude.{◌≡◌, ◌≤◌, ◌<◌, ◌+◌, ◌-◌, take, drop, true, false, length, IfOk, MatchOption};
ghost use Rattle.qn_block.specs.Blocked.{tensor_of};
ghost use Rattle.qn_net.specs.Members.{IsNarrow, member_tensor, role_of, role_value};
ghost use Rattle.qn_net.specs.Groups.Role.{tensor as tensor_role};
ghost use Rattle.qn_net.specs.Steps.{meets_condition};
ghost use Rattle.qn_engine.specs.Parts.{tensor_value, table_value, combiner_of, is_fuse_table, held_value, member_parts, is_odd_tensor, is_odd_number, place_of, IsSameTensor};

use qn_block::{BlockTensor, Combiner};
use qn_charge::Abelian;
use qn_net::{Member, MemberRole, NetTensor};
use qn_plan::meets_condition;
use std::alloc::{AllocError, Global};
use std::marker::Model;

/// A tensor that is lent by a member of the network, or one that a step made.
#[derive(Drop)]
pub(crate) enum Tensor<'a, const K: usize> {
    Lent(&'a BlockTensor<K>),
    Made(BlockTensor<K>),
}

impl<'a, const K: usize> Tensor<'a, K> {
    /// The tensor.
    pub(crate) fn get(&self) -> &BlockTensor<K>
        ensures { result.now ≡ tensor_value K self.now }
    {
        match self {
            Tensor::Lent(t) => t,
            Tensor::Made(t) => t,
        }
    }
}

/// The table of a combiner that no step has touched.
#[derive(Clone, Copy)]
pub(crate) enum Table<'a, const K: usize> {
    Fuse(&'a Combiner<K>),
    Split(&'a Combiner<K>),
}

impl<'a, const K: usize> Table<'a, K> {
    /// The combiner.
    pub(crate) fn combiner(&self) -> &'a Combiner<K>
        ensures { result.now ≡ combiner_of K self.now }
    {
        match self {
            Table::Fuse(c) => c,
            Table::Split(c) => c,
        }
    }

    /// What the table is as a member of a network.
    pub(crate) fn role(&self) -> MemberRole
        ensures { role_value result ≡ role_of (table_value K self.now) }
    {
        match self {
            Table::Fuse(_) => MemberRole::FuseTable,
            Table::Split(_) => MemberRole::SplitTable,
        }
    }

    /// Whether this is the fuse table.
    pub(crate) fn is_fuse(&self) -> bool
        ensures { result ≡ is_fuse_table K self.now }
    {
        match self {
            Table::Fuse(_) => true,
            Table::Split(_) => false,
        }
    }

    /// Whether the flux is odd, which it is not.
    fn is_odd(&self) -> bool
        ensures { result ≡ is_odd_tensor (member_tensor (table_value K self.now)) }
    {
        false
    }

    /// The table as a tensor.
    fn made(&self) -> Result<Tensor<'a, K>, AllocError>
        requires { IsNarrow (table_value K self.now) }
        ensures { IfOk result (λ t. IsSameTensor (tensor_of (tensor_value K t)) (member_tensor (table_value K self.now))) }
    {
        match self {
            Table::Fuse(c) => Ok(Tensor::Made(c.fuse_table()?)),
            Table::Split(c) => Ok(Tensor::Made(c.split_table()?)),
        }
    }
}

/// A tensor, or a table that is made into one at the first step that does not fuse or split by it.
#[derive(Drop)]
pub(crate) enum Held<'a, const K: usize> {
    Plain(Tensor<'a, K>),
    Combined(Table<'a, K>),
}

/// The tensor, a table being made into one.
pub(crate) fn settled<'a, const K: usize>(held: Held<'a, K>) -> Result<Tensor<'a, K>, AllocError>
    requires { IsNarrow (held_value K held) }
    ensures { IfOk result (λ t. IsSameTensor (tensor_of (tensor_value K t)) (member_tensor (held_value K held.entry))) }
{
    match held {
        Held::Plain(t) => Ok(t),
        Held::Combined(table) => table.made(),
    }
}

/// A tensor in its place, with its number in the plan and a label on each leg.
#[derive(Drop)]
pub struct Part<'a, const K: usize> {
    pub(crate) number: u32,
    pub(crate) held: Held<'a, K>,
    pub(crate) labels: Vec<i64>,
}

impl<'a, const K: usize> Model for Part<'a, K> {
    ghost use Rattle.qn_engine.specs.Parts.{PartValue, held_value};

    ghost Value = { PartValue };

    ghost view = { λ p. record { number = p.number; member = held_value K p.held; labels = p.labels.items } };
}

impl<'a, const K: usize> Part<'a, K> {
    /// The number in the plan.
    fn number(&self) -> u32
        ensures { result ≡ self.now.number }
    {
        self.number
    }

    /// Whether the flux is odd.
    pub(crate) fn is_odd(&self) -> bool
        ensures { result ≡ is_odd_tensor (member_tensor self.now.member) }
    {
        match &self.held {
            Held::Plain(t) => is_odd(t.get()),
            Held::Combined(table) => table.is_odd(),
        }
    }

    /// The table, where this is one and these are the labels of just the legs that it combines.
    pub(crate) fn table(&self, summed: &[i64]) -> Option<Table<'a, K>>
        ensures { MatchOption result
            (meets_condition (role_of self.now.member) self.now.labels summed.now ≡ false)
            (λ t. (meets_condition (role_of self.now.member) self.now.labels summed.now ≡ true) × (table_value K t ≡ self.now.member)) }
    {
        match &self.held {
            Held::Plain(_) => None,
            Held::Combined(table) => {
                if meets_condition(table.role(), &self.labels, summed) {
                    Some(*table)
                } else {
                    None
                }
            }
        }
    }
}

/// Whether the flux is odd.
fn is_odd<const K: usize>(t: &BlockTensor<K>) -> bool
    ensures { result ≡ is_odd_tensor (tensor_of t.now) }
{
    t.group().parity(t.flux())
}

/// The place of the part with this number, or the number of parts.
pub(crate) fn place_of<const K: usize>(parts: &[Part<K>], number: u32) -> usize
    ensures place { result ≡ place_of number parts.now }
    ensures within { result ≤ length parts.now }
{
    for i in 0..parts.len() {
        let part = &parts[i];
        if part.number() == number {
            return i;
        }
    }
    parts.len()
}

/// Whether an odd number of the parts have odd flux.
fn is_odd_number<const K: usize>(parts: &[Part<K>]) -> bool
    ensures { result ≡ is_odd_number parts.now }
{
    let mut odd = false;
    for i in 0..parts.len() {
        odd ^= parts[i].is_odd();
    }
    odd
}

/// Whether an odd number of the parts between two places have odd flux.
pub(crate) fn is_odd_between<const K: usize>(parts: &[Part<K>], first: usize, second: usize) -> bool
    requires order { first < second }
    requires within { second < length parts.now }
    ensures { result ≡ is_odd_number (take (second - (first + 1)) (drop (first + 1) parts.now)) }
{
    is_odd_number(&parts[first + 1..second])
}

/// A tensor that steps made, kept for later: with its number in the plan and a label on each leg.
#[derive(Drop)]
pub struct Kept<const K: usize> {
    number: u32,
    tensor: BlockTensor<K>,
    labels: Vec<i64>,
}

impl<const K: usize> Model for Kept<K> {
    ghost use Rattle.qn_net.specs.Members.MemberValue.{own};
    ghost use Rattle.qn_engine.specs.Parts.{PartValue};

    ghost Value = { PartValue };

    ghost view = { λ k. record { number = k.number; member = own k.tensor; labels = k.labels.items } };
}

impl<const K: usize> Kept<K> {
    /// The tensor in its place, lent.
    pub fn lend<'a>(&'a self, alloc: Global) -> Result<Part<'a, K>, AllocError>
        ensures { IfOk result (λ p. p ≡ self.now) }
    {
        let labels = Vec::from_slice(alloc, &self.labels)?;
        Ok(Part {
            number: self.number,
            held: Held::Plain(Tensor::Lent(&self.tensor)),
            labels,
        })
    }
}

impl<'a, const K: usize> Part<'a, K> {
    /// A copy to be kept. It is made of no table.
    pub fn keep(&self, alloc: Global) -> Result<Kept<K>, AllocError>
        requires { role_of self.now.member ≡ tensor_role }
        ensures { IfOk result (λ k. k ≡ self.now) }
    {
        match &self.held {
            Held::Plain(t) => {
                let labels = Vec::from_slice(alloc, &self.labels)?;
                let tensor = t.get().copy()?;
                Ok(Kept {
                    number: self.number,
                    tensor,
                    labels,
                })
            }
            Held::Combined(_) => unreachable!(),
        }
    }
}

/// The member as a part.
fn part_of<'a, const K: usize>(
    alloc: Global,
    number: u32,
    member: &'a NetTensor<K>,
) -> Result<Part<'a, K>, AllocError>
    ensures { IfOk result (λ p. p ≡ record { number = number; member = member.now.member; labels = member.now.labels }) }
{
    let labels = Vec::from_slice(alloc, member.labels())?;
    let held = match &member.member {
        Member::Tensor(t) => Held::Plain(Tensor::Lent(t)),
        Member::Fuse(c) => Held::Combined(Table::Fuse(c)),
        Member::Split(c) => Held::Combined(Table::Split(c)),
    };
    Ok(Part {
        number,
        held,
        labels,
    })
}

/// The number of the member at a place.
fn number_of(place: usize) -> u32
    requires { place < 256 }
    ensures { result ≡ place + 1 }
{
    place as u32 + 1
}

/// The members as parts, numbered from 1.
pub(crate) fn parts_of<'a, const K: usize>(
    alloc: Global,
    members: &'a [NetTensor<K>],
) -> Result<Vec<Part<'a, K>>, AllocError>
    requires { length members.now ≤ 256 }
    ensures { IfOk result (λ v. v.items ≡ member_parts 1 members.now) }
{
    let mut parts = Vec::with_capacity(alloc, members.len())?;
    for i in 0..members.len() {
        parts.push(part_of(alloc, number_of(i), &members[i])?)?;
    }
    Ok(parts)
}
