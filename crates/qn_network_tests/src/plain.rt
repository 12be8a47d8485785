//! What the plain program is given of a network.

use qn_block::BlockTensor;
use qn_charge::{Abelian, Group};
use qn_gauss::Gauss;
use qn_index::{Dir, Leg};
use qn_net::{Member, NetTensor, Network};
use qn_value::plain::{LineEnd, LineParities, PlainRow, PlainTensor, SummedLine};
use std::alloc::{AllocError, Global};
use std::process::Abort;

// Tensors and the lines between them.
#[derive(Drop)]
pub(crate) struct PlainNetwork {
    pub(crate) lines: Vec<LineParities>,
    pub(crate) tensors: Vec<PlainTensor>,
    pub(crate) bonds: Vec<SummedLine>,
}

// All lists of values of these legs.
pub(crate) fn values_of<const K: usize>(
    alloc: Global,
    legs: &[Leg<K>],
) -> Result<Vec<Vec<u32>>, AllocError> {
    let mut lists = Vec::new(alloc);
    lists.push(Vec::new(alloc))?;
    for leg in legs {
        lists = longer(alloc, &lists, leg.dim())?;
    }
    Ok(lists)
}

// Each of the lists with each value of one more leg.
fn longer(alloc: Global, lists: &[Vec<u32>], dim: u32) -> Result<Vec<Vec<u32>>, AllocError> {
    let mut all = Vec::new(alloc);
    for list in lists {
        for value in 0..dim {
            let mut next = list.clone()?;
            next.push(value)?;
            all.push(next)?;
        }
    }
    Ok(all)
}

// The entry at these values, which have to be in range.
pub(crate) fn entry_at<const K: usize>(
    rt: &impl Abort,
    tensor: &BlockTensor<K>,
    values: &[u32],
) -> Gauss {
    if tensor.is_in_range(values) {
        tensor.entry(values)
    } else {
        panic!(rt; "the values {values:?} are out of range")
    }
}

// The tensor that a member stands for.
fn table_of<const K: usize>(
    rt: &impl Abort,
    member: &Member<K>,
) -> Result<BlockTensor<K>, AllocError> {
    match member {
        Member::Tensor(tensor) => tensor.copy(),
        Member::Fuse(combiner) => match combiner.check_fuse_table() {
            Ok(()) => combiner.fuse_table(),
            Err(fault) => panic!(rt; "{fault:?}"),
        },
        Member::Split(combiner) => match combiner.check_split_table() {
            Ok(()) => combiner.split_table(),
            Err(fault) => panic!(rt; "{fault:?}"),
        },
    }
}

fn end_of<const K: usize>(leg: &Leg<K>, label: i64) -> LineEnd {
    LineEnd {
        label,
        inward: leg.dir() == Dir::In,
    }
}

// The entries other than 0.
fn rows_of<const K: usize>(
    rt: &impl Abort,
    alloc: Global,
    tensor: &BlockTensor<K>,
) -> Result<Vec<PlainRow>, AllocError> {
    let mut rows = Vec::new(alloc);
    for values in values_of(alloc, tensor.legs())? {
        let entry = entry_at(rt, tensor, &values);
        if !entry.is_zero() {
            rows.push(PlainRow { values, entry })?;
        }
    }
    Ok(rows)
}

fn plain_of<const K: usize>(
    rt: &impl Abort,
    alloc: Global,
    tensor: &BlockTensor<K>,
    labels: &[i64],
) -> Result<PlainTensor, AllocError> {
    let mut ends = Vec::new(alloc);
    for (leg, label) in tensor.legs().iter().zip(labels.iter()) {
        ends.push(end_of(leg, *label))?;
    }
    let rows = rows_of(rt, alloc, tensor)?;
    let odd = tensor.group().parity(tensor.flux());
    Ok(PlainTensor { ends, rows, odd })
}

fn parities_of<const K: usize>(
    alloc: Global,
    group: &Group<K>,
    leg: &Leg<K>,
    label: i64,
) -> Result<LineParities, AllocError> {
    let mut odd = Vec::new(alloc);
    for sector in leg.sectors() {
        for _ in 0..sector.dim {
            odd.push(group.parity(&sector.charge))?;
        }
    }
    Ok(LineParities { label, odd })
}

// Adds a member and its lines.
fn add_member<const K: usize>(
    rt: &impl Abort,
    alloc: Global,
    member: &NetTensor<K>,
    lines: &mut Vec<LineParities>,
    tensors: &mut Vec<PlainTensor>,
) -> Result<(), AllocError> {
    let table = table_of(rt, &member.member)?;
    for (leg, label) in table.legs().iter().zip(member.labels().iter()) {
        lines.push(parities_of(alloc, table.group(), leg, *label)?)?;
    }
    tensors.push(plain_of(rt, alloc, &table, member.labels())?)?;
    Ok(())
}

// The number of values of a line.
fn dim_of(lines: &[LineParities], label: i64) -> u32 {
    for line in lines {
        if line.label == label {
            return u32::try_from(line.odd.len()).unwrap_or(0);
        }
    }
    0
}

fn bonds_of(
    alloc: Global,
    lines: &[LineParities],
    labels: &[i64],
) -> Result<Vec<SummedLine>, AllocError> {
    let mut bonds = Vec::new(alloc);
    for label in labels {
        bonds.push(SummedLine {
            label: *label,
            dim: dim_of(lines, *label),
            twisted: false,
        })?;
    }
    Ok(bonds)
}

// The open ends -1, -2, .. with the arrows of these legs.
pub(crate) fn opens_of<const K: usize>(
    alloc: Global,
    legs: &[Leg<K>],
) -> Result<Vec<LineEnd>, AllocError> {
    let mut label: i64 = 0;
    let mut opens = Vec::new(alloc);
    for leg in legs {
        label = label.wrapping_sub(1);
        opens.push(end_of(leg, label))?;
    }
    Ok(opens)
}

pub(crate) fn plain_network<const K: usize>(
    rt: &impl Abort,
    alloc: Global,
    net: &Network<K>,
) -> Result<PlainNetwork, AllocError> {
    let mut lines = Vec::new(alloc);
    let mut tensors = Vec::new(alloc);
    for member in net.tensors() {
        add_member(rt, alloc, member, &mut lines, &mut tensors)?;
    }
    let bonds = bonds_of(alloc, &lines, net.order())?;
    Ok(PlainNetwork {
        lines,
        tensors,
        bonds,
    })
}
