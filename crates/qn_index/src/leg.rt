//! A leg: its arrow and its sectors; why sectors are no leg, and why two legs do not meet.

ghost use Rattle.std.specs.Prelude.{◌≡◌, ◌<◌, ◌≤◌, ◌^◌, List, ℕ, length, IfOk, IfErr, IfNone, OnOk, MatchOption, ◌+◌, IsTrue, ◌↔◌, ◌⊎◌};
ghost use Rattle.qn_index.specs.Legs.{LegValue, SectorValue, total, before, sector_at, sector_of, offset_in, IsLeg, IsOf, IsLegOf, IsSound, Meets, flipped};
ghost use Rattle.qn_index.specs.Refusals.{IsFirstLegFault, BadCharge, BadDim};
ghost use Rattle.std.specs.List.{All};
ghost use Rattle.qn_charge.specs.Firsts.{HasNone, IsFirst};

use qn_charge::{Charge, Group};
use std::alloc::{AllocError, Global};
use std::marker::Model;

/// The most sectors that a leg may have.
pub const MAX_SECTORS: usize = 64;

/// The greatest magnitude of a part of a charge on a leg.
pub const MAX_CHARGE: i64 = 1_000_000_000;

/// The arrow of a leg.
#[derive(Clone, Copy, Debug, PartialEq, Eq)]
pub enum Dir {
    Out,
    In,
}

/// A charge and how many values have it.
#[derive(Clone, Copy, Debug, PartialEq, Eq)]
pub struct Sector<const K: usize> {
    pub charge: Charge<K>,
    pub dim: u32,
}

impl<const K: usize> Model for Sector<K> {
    ghost use Rattle.qn_index.specs.Legs.{SectorValue};

    ghost Value = { SectorValue };

    ghost view = { λ s. record { charge = s.charge; dim = s.dim } };

    ghost inverse = { λ p. record { charge = p.charge; dim = p.dim } };
}

impl<const K: usize> Sector<K> {
    /// Whether two sectors are the same.
    pub fn same(&self, other: &Sector<K>) -> bool
        ensures { IsTrue result ↔ (self.now ≡ other.now) }
    {
        self.dim == other.dim && self.charge.same(&other.charge)
    }
}

/// Why sectors are no leg. Sectors are counted from 0.
#[derive(Clone, Copy, Debug, PartialEq, Eq)]
pub enum LegFault {
    /// The first sector with a charge out of range: a U(1) part above 10^9 in size,
    /// or a Z_n part that is not from 0 to n - 1.
    ChargeRange { sector: usize },
    /// The first sector whose dimension is not from 1 to 65,536, or at which the total passes 2^20.
    DimRange { sector: usize },
    NoSector,
    /// More than 64 sectors.
    TooManySectors,
}

/// Why two legs do not meet.
#[derive(Clone, Copy, Debug, PartialEq, Eq)]
pub enum Clash {
    /// The arrows are equal.
    Arrow,
    /// The arrows are opposite, and the lists of sectors differ.
    Sectors,
}

/// A directed leg: an arrow and from 1 to 64 sectors with at most 2^20 values in all.
/// Its values run from 0 on, sector after sector.
#[derive(Debug, Drop)]
pub struct Leg<const K: usize> {
    arrow: Dir,
    sectors: Vec<Sector<K>>,
    dim: u32,
}

impl<const K: usize> Model for Leg<K> {
    ghost use Rattle.std.specs.Prelude.{◌≡◌};
    ghost use Rattle.qn_index.specs.Legs.{LegValue, IsLeg, total};

    ghost Value = { LegValue };

    ghost view = { λ l. record { arrow = l.arrow; sectors = l.sectors.items } };

    ghost invariant = { λ l. IsLeg l.sectors.items × (l.dim ≡ total l.sectors.items) };
}

impl<const K: usize> Leg<K> {
    /// The leg with this arrow and these sectors, or the first reason why there is none.
    /// Takes no memory.
    pub fn new(group: &Group<K>, dir: Dir, sectors: Vec<Sector<K>>) -> Result<Leg<K>, LegFault>
        ensures ok { IfOk result (λ l. l ≡ record { arrow = dir; sectors = sectors.entry.items }) }
        ensures charges { OnOk result (HasNone (BadCharge group.now sectors.entry.items)) }
        ensures group { IfOk result (IsLegOf group.now) }
        ensures err { IfErr result (IsFirstLegFault group.now sectors.entry.items) }
    {
        match first_bad_charge(group, &sectors) {
            Some(i) => return Err(LegFault::ChargeRange { sector: i }),
            None => {}
        }
        match first_bad_dim(&sectors) {
            Some(i) => return Err(LegFault::DimRange { sector: i }),
            None => {}
        }
        if sectors.is_empty() {
            return Err(LegFault::NoSector);
        }
        if sectors.len() > MAX_SECTORS {
            return Err(LegFault::TooManySectors);
        }
        let dim = total_of(&sectors);
        Ok(Leg {
            arrow: dir,
            sectors,
            dim,
        })
    }

    /// What holds of each leg.
    pub fn known(&self)
        ensures { IsLeg self.now.sectors }
    {
        let _sectors = &self.sectors;
    }

    pub fn dir(&self) -> Dir
        ensures { result ≡ self.now.arrow }
    {
        self.arrow
    }

    pub fn sectors(&self) -> &[Sector<K>]
        ensures { result.now ≡ self.now.sectors }
    {
        &self.sectors
    }

    /// The number of values.
    pub fn dim(&self) -> u32
        ensures { result ≡ total self.now.sectors }
    {
        self.dim
    }

    /// The charge of a sector.
    pub fn charge(&self, sector: u32) -> &Charge<K>
        requires { sector < length self.now.sectors }
        ensures { result.now ≡ (sector_at self.now.sectors sector).charge }
    {
        let items = self.sectors();
        let s = &items[sector as usize];
        &s.charge
    }

    /// The dimension of a sector.
    pub fn dim_at(&self, sector: u32) -> u32
        requires { sector < length self.now.sectors }
        ensures { result ≡ (sector_at self.now.sectors sector).dim }
    {
        let items = self.sectors();
        let s = &items[sector as usize];
        s.dim
    }

    /// The sector of a value, and its offset in that sector.
    pub fn at(&self, v: u32) -> (u32, u32)
        requires { v < total self.now.sectors }
        ensures in_range { result.0 < length self.now.sectors }
        ensures within { result.1 < (sector_at self.now.sectors result.0).dim }
        ensures place { before self.now.sectors result.0 + result.1 ≡ v }
        ensures sector { result.0 ≡ sector_of self.now.sectors v }
        ensures offset { result.1 ≡ offset_in self.now.sectors v }
    {
        self.known();
        let items = self.sectors();
        let mut rest = v;
        for (i, s) in items.iter().enumerate() {
            if rest < s.dim {
                return (i as u32, rest);
            }
            rest -= s.dim;
        }
        unreachable!()
    }

    /// The value at an offset in a sector.
    pub fn place_of(&self, sector: u32, offset: u32) -> u32
        requires sector { sector < length self.now.sectors }
        requires offset { offset < (sector_at self.now.sectors sector).dim }
        ensures place { result ≡ before self.now.sectors sector + offset }
        ensures in_range { result < total self.now.sectors }
        ensures sector { sector_of self.now.sectors result ≡ sector }
        ensures offset { offset_in self.now.sectors result ≡ offset }
    {
        self.known();
        let items = self.sectors();
        let mut sum = 0u32;
        for s in &items[..sector as usize] {
            sum += s.dim;
        }
        sum + offset
    }

    /// The leg with the other arrow.
    pub fn flip(self) -> Leg<K>
        ensures { result ≡ flipped self.entry }
    {
        Leg {
            arrow: match self.arrow {
                Dir::Out => Dir::In,
                Dir::In => Dir::Out,
            },
            sectors: self.sectors,
            dim: self.dim,
        }
    }

    /// What keeps the two legs from meeting: equal arrows, or else other sectors.
    pub fn meets(&self, other: &Leg<K>) -> Option<Clash>
        ensures { Meets self.now other.now result }
    {
        if self.dir() == other.dir() {
            return Some(Clash::Arrow);
        }
        if !same_sectors(self.sectors(), other.sectors()) {
            return Some(Clash::Sectors);
        }
        None
    }

    /// An equal leg.
    pub fn copy(&self) -> Result<Leg<K>, AllocError>
        ensures { IfOk result (λ l. l ≡ self.now) }
    {
        Ok(Leg {
            arrow: self.arrow,
            sectors: self.sectors.clone()?,
            dim: self.dim,
        })
    }
}

/// Equal legs.
pub fn copy_legs<const K: usize>(alloc: Global, legs: &[Leg<K>]) -> Result<Vec<Leg<K>>, AllocError>
    ensures { IfOk result (λ v. v.items ≡ legs.now) }
{
    let mut copies = Vec::with_capacity(alloc, legs.len())?;
    for leg in legs {
        copies.push(leg.copy()?)?;
    }
    Ok(copies)
}

/// Whether two lists of sectors are the same.
pub fn same_sectors<const K: usize>(a: &[Sector<K>], b: &[Sector<K>]) -> bool
    ensures { IsTrue result ↔ (a.now ≡ b.now) }
{
    if a.len() != b.len() {
        return false;
    }
    for i in 0..a.len() {
        let s = &a[i];
        let t = &b[i];
        if !s.same(t) {
            return false;
        }
    }
    true
}

/// The first sector whose charge is out of range.
fn first_bad_charge<const K: usize>(group: &Group<K>, sectors: &[Sector<K>]) -> Option<usize>
    ensures group { IfNone result (All (IsOf group.now) sectors.now) }
    ensures first { MatchOption result (HasNone (BadCharge group.now sectors.now)) (IsFirst (BadCharge group.now sectors.now)) }
{
    group.known();
    for i in 0..sectors.len() {
        let s = &sectors[i];
        s.charge.known();
        match group.out_of(&s.charge, MAX_CHARGE) {
            Some(_) => return Some(i),
            None => {}
        }
    }
    None
}

/// The first sector whose dimension is out of range, or at which the total passes its limit.
fn first_bad_dim<const K: usize>(sectors: &[Sector<K>]) -> Option<usize>
    ensures { MatchOption result (HasNone (BadDim sectors.now)) (IsFirst (BadDim sectors.now)) }
{
    let mut total = 0u32;
    for i in 0..sectors.len() {
        let s = &sectors[i];
        if is_bad_dim(s.dim, total) {
            return Some(i);
        }
        total += s.dim;
    }
    None
}

/// Whether a dimension is out of range, or too great after this total.
fn is_bad_dim(dim: u32, total: u32) -> bool
    requires { total ≤ 2 ^ 20 }
    ensures { IsTrue result ↔ ((dim ≡ 0) ⊎ (65536 < dim) ⊎ (2 ^ 20 < total + dim)) }
{
    dim == 0 || dim > 65_536 || dim > (1 << 20) - total
}

/// The number of values of all sectors.
fn total_of<const K: usize>(sectors: &[Sector<K>]) -> u32
    requires { total sectors.now ≤ 2 ^ 20 }
    ensures { result ≡ total sectors.now }
{
    let mut sum = 0u32;
    for s in sectors {
        sum += s.dim;
    }
    sum
}

/// What holds of each leg.
pub fn known_all<const K: usize>(legs: &[Leg<K>])
    ensures { All IsSound legs.now }
{
    for leg in legs {
        leg.known();
    }
}
