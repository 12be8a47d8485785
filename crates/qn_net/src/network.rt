//! Networks: members whose labels pair up legs that meet, an order of these labels, and twisted ones among them.

ghost use Rattle.std.specs.Prelude.{◌≡◌, ◌<◌, ◌≤◌, List, [], Option, Some, None, ℤ, pos, negsuc, IfOk, IfErr, OnOk, IfSome, MatchOption, length, map};
ghost use Rattle.std.specs.List.{All};
ghost use Rattle.qn_charge.specs.Charges.{IsGroup};
ghost use Rattle.qn_net.specs.Members.{IsHeld, IsMemberOf, placed_member, ends_of_members};
ghost use Rattle.qn_net.specs.declared.fault.NetFault.TheVariants.{LabelCount, Arrow, Sectors, OpenLabels};
ghost use Rattle.qn_net.specs.NetworkValues.{NetworkValue, IsWellFormed};
ghost use Rattle.qn_net.specs.Refusals.{AreLabelled, HaveLabels, IsGoodOrder, IsChoiceFault, IsFaultless, IsNetFault, given, order_or, network_of};

use crate::fault::NetFault;
use crate::labels::{ends_of, label_fault};
use crate::lines::{ascending, first_equal_arrows, first_gap, first_miscounted, first_repeated};
use crate::meeting::first_unequal_sectors;
use crate::member::NetTensor;
use crate::order::order_fault;
use crate::table::LabelTable;
use crate::twist::first_bad_twist;
use qn_charge::Group;
use std::alloc::{AllocError, Global};
use std::marker::Model;

fn miscounted(n: u32) -> NetFault
    ensures { result ≡ LabelCount (pos n) }
{
    NetFault::LabelCount {
        label: i64::from(n),
    }
}

fn repeated(n: u32) -> NetFault
    ensures { result ≡ LabelCount (negsuc n) }
{
    NetFault::LabelCount {
        label: -1 - i64::from(n),
    }
}

fn equal_arrows(n: u32) -> NetFault
    ensures { result ≡ Arrow (pos n) }
{
    NetFault::Arrow {
        label: i64::from(n),
    }
}

fn unequal_sectors(n: u32) -> NetFault
    ensures { result ≡ Sectors (pos n) }
{
    NetFault::Sectors {
        label: i64::from(n),
    }
}

fn missing(n: u32) -> NetFault
    ensures { result ≡ OpenLabels (negsuc n) }
{
    NetFault::OpenLabels {
        label: -1 - i64::from(n),
    }
}

/// The first fault of the lines of a network: counts of labels, then arrows, then sectors, then a gap among the open
/// labels.
fn line_fault<const K: usize>(tensors: &[NetTensor<K>], table: &LabelTable) -> Option<NetFault>
    requires labels { HaveLabels tensors.now }
    requires table { table.now ≡ ends_of_members tensors.now }
    ensures none { result ≡ None → AreLabelled tensors.now }
    ensures fault { (order : Option (List ℤ)) (twist : List ℤ) → IfSome result (IsNetFault tensors.now order twist) }
{
    match first_miscounted(table) {
        Some(n) => return Some(miscounted(n)),
        None => {}
    }
    match first_repeated(table) {
        Some(n) => return Some(repeated(n)),
        None => {}
    }
    match first_equal_arrows(table) {
        Some(n) => return Some(equal_arrows(n)),
        None => {}
    }
    match first_unequal_sectors(tensors, table) {
        Some(n) => return Some(unequal_sectors(n)),
        None => {}
    }
    match first_gap(table) {
        Some(n) => return Some(missing(n)),
        None => {}
    }
    None
}

/// The legs of labelled members by their labels.
fn table_of<const K: usize>(
    alloc: Global,
    tensors: &[NetTensor<K>],
) -> Result<LabelTable, AllocError>
    requires { HaveLabels tensors.now }
    ensures { IfOk result (λ t. t ≡ ends_of_members tensors.now) }
{
    let ends = ends_of(alloc, tensors)?;
    LabelTable::new(alloc, ends)
}

/// The table of members whose labels have no fault.
fn checked_table<const K: usize>(
    alloc: Global,
    tensors: &[NetTensor<K>],
) -> Result<LabelTable, NetFault>
    ensures ok { IfOk result (λ t. t ≡ ends_of_members tensors.now) }
    ensures labelled { OnOk result (AreLabelled tensors.now) }
    ensures err { (order : Option (List ℤ)) (twist : List ℤ) → IfErr result (IsNetFault tensors.now order twist) }
{
    match label_fault(tensors) {
        Some(fault) => return Err(fault),
        None => {}
    }
    let table = table_of(alloc, tensors)?;
    match line_fault(tensors, &table) {
        Some(fault) => return Err(fault),
        None => {}
    }
    Ok(table)
}

/// What holds of each member.
fn known_members<const K: usize>(tensors: &[NetTensor<K>])
    ensures { All (λ m. IsHeld m.member) tensors.now }
{
    for t in tensors {
        t.known();
    }
}

/// Whether the order has each positive label that stands, once.
fn check_order(alloc: Global, order: &[i64], table: &LabelTable) -> Result<(), NetFault>
    ensures good { OnOk result (IsGoodOrder table.now (Some order.now)) }
    ensures err { IfErr result (IsChoiceFault table.now (Some order.now)) }
{
    match order_fault(alloc, order, table) {
        Ok(Some(place)) => Err(NetFault::Order { place }),
        Ok(None) => Ok(()),
        Err(_) => Err(NetFault::Memory),
    }
}

/// The given order, or without one the positive labels ascending.
fn chosen_order(
    alloc: Global,
    order: Option<Vec<i64>>,
    table: &LabelTable,
) -> Result<Vec<i64>, NetFault>
    ensures ok { IfOk result (λ v. v.items ≡ order_or table.now (given order)) }
    ensures good { OnOk result (IsGoodOrder table.now (given order)) }
    ensures err { IfErr result (IsChoiceFault table.now (given order)) }
{
    match order {
        Some(list) => match check_order(alloc, &list, table) {
            Ok(()) => Ok(list),
            Err(fault) => Err(fault),
        },
        None => match ascending(alloc, table) {
            Ok(list) => Ok(list),
            Err(_) => Err(NetFault::Memory),
        },
    }
}

/// A network: members whose positive labels pair up legs that meet, open legs -1, -2, .., an order of the positive
/// labels, and the twisted ones among these, ascending.
#[derive(Debug, Drop)]
pub struct Network<const K: usize> {
    group: Group<K>,
    tensors: Vec<NetTensor<K>>,
    order: Vec<i64>,
    twist: Vec<i64>,
}

impl<const K: usize> Model for Network<K> {
    ghost use Rattle.std.specs.Prelude.{map, length, ◌≤◌};
    ghost use Rattle.std.specs.List.{All};
    ghost use Rattle.qn_net.specs.Members.{IsMemberOf, placed_member};
    ghost use Rattle.qn_net.specs.NetworkValues.{NetworkValue, IsWellFormed};

    ghost Value = { NetworkValue };

    ghost view = { λ n. record { group = n.group; members = map placed_member n.tensors.items; order = n.order.items; twists = n.twist.items } };

    ghost invariant = { λ n. IsWellFormed (record { group = n.group; members = map placed_member n.tensors.items; order = n.order.items; twists = n.twist.items })
        × All (IsMemberOf n.group) n.tensors.items × (length n.tensors.items ≤ 256) };
}

impl<const K: usize> Network<K> {
    /// The network of these members, 1 to 256 of at most 32 legs each, or the first reason why there is none.
    /// Without an order the positive labels are taken ascending. The twisted labels are given ascending.
    pub fn new(
        alloc: Global,
        group: Group<K>,
        tensors: Vec<NetTensor<K>>,
        order: Option<Vec<i64>>,
        twist: Vec<i64>,
    ) -> Result<Network<K>, NetFault>
        requires some { 0 < length tensors.items }
        requires few { length tensors.items ≤ 256 }
        requires members { All (IsMemberOf group) tensors.items }
        ensures ok { IfOk result (λ n. n ≡ network_of group.entry tensors.entry.items (given order) twist.items) }
        ensures faultless { OnOk result (IsFaultless tensors.entry.items (given order) twist.items) }
        ensures err { IfErr result (IsNetFault tensors.entry.items (given order) twist.items) }
    {
        group.known();
        known_members(&tensors);
        let table = match checked_table(alloc, &tensors) {
            Ok(table) => table,
            Err(fault) => return Err(fault),
        };
        let order = match chosen_order(alloc, order, &table) {
            Ok(order) => order,
            Err(fault) => return Err(fault),
        };
        match first_bad_twist(&twist, &table) {
            Some(place) => Err(NetFault::Twist { place }),
            None => Ok(Network {
                group,
                tensors,
                order,
                twist,
            }),
        }
    }

    /// What holds of each network. Nothing is done.
    pub fn known(&self)
        ensures well_formed { IsWellFormed self.now }
    {
        let _group = &self.group;
    }

    /// The group of the charges.
    pub fn group(&self) -> &Group<K>
        ensures { result.now ≡ self.now.group }
    {
        &self.group
    }

    /// The members, each with a label on every leg.
    pub fn tensors(&self) -> &[NetTensor<K>]
        ensures members { map placed_member result.now ≡ self.now.members }
        ensures each { All (IsMemberOf self.now.group) result.now }
        ensures few { length result.now ≤ 256 }
    {
        &self.tensors
    }

    /// The order of the positive labels.
    pub fn order(&self) -> &[i64]
        ensures { result.now ≡ self.now.order }
    {
        &self.order
    }

    /// The twisted labels, ascending.
    pub fn twist(&self) -> &[i64]
        ensures { result.now ≡ self.now.twists }
    {
        &self.twist
    }
}
