//! Networks, written a token at a time.
ghost use Rattle.std.specs.Prelude.{◌≡◌, IfOk, OnOk, List, ℕ, ℤ, map, codes};
ghost use Rattle.std.specs.List.{All};
ghost use Rattle.qn_net.specs.Members.{IsHeld};
ghost use Rattle.qn_json.specs.Appended.{Appends, IsRead};
ghost use Rattle.qn_json.specs.Texts.{list_data};
ghost use Rattle.qn_doc.specs.NetworkTexts.{labels_data, own_data, combine_data, table_data, labelled_data, member_data, twist_members, network_data, Closes, IsTextOf};

use json::Writer;
use qn_block::{BlockTensor, Combiner};
use qn_charge::Group;
use qn_net::{Member, NetTensor, Network};
use qn_parts::parts::{
    finished, write_arrow, write_blocks, write_charge, write_group, write_legs, write_numbers,
};
use std::alloc::{AllocError, Global};

fn write_own<const K: usize>(
    out: &mut Writer,
    t: &BlockTensor<K>,
    labels: &[i64],
) -> Result<(), AllocError>
    ensures { OnOk result (Appends (own_data t.now labels.now) out.old out.new) }
{
    out.begin_object()?;
    out.key("blocks")?;
    write_blocks(out, t.blocks())?;
    out.key("flux")?;
    write_charge(out, t.flux())?;
    out.key("labels")?;
    write_numbers(out, labels)?;
    out.key("legs")?;
    write_legs(out, t.legs())?;
    out.end_object()
}

fn write_combine<const K: usize>(
    out: &mut Writer,
    c: &Combiner<K>,
    mode: &str,
) -> Result<(), AllocError>
    ensures { OnOk result (Appends (combine_data c.now mode.now) out.old out.new) }
{
    out.begin_object()?;
    out.key("dir")?;
    write_arrow(out, c.dir())?;
    out.key("legs")?;
    write_legs(out, c.legs())?;
    out.key("mode")?;
    out.string(mode)?;
    out.end_object()
}

fn write_table<const K: usize>(
    out: &mut Writer,
    c: &Combiner<K>,
    mode: &str,
    labels: &[i64],
) -> Result<(), AllocError>
    ensures { OnOk result (Appends (table_data c.now mode.now labels.now) out.old out.new) }
{
    out.begin_object()?;
    out.key("combine")?;
    write_combine(out, c, mode)?;
    out.key("labels")?;
    write_numbers(out, labels)?;
    out.end_object()
}

fn write_member<const K: usize>(out: &mut Writer, m: &NetTensor<K>) -> Result<(), AllocError>
    ensures { OnOk result (Appends (member_data m.now) out.old out.new) }
{
    match &m.member {
        Member::Tensor(t) => write_own(out, t, m.labels()),
        Member::Fuse(c) => write_table(out, c, "fuse", m.labels()),
        Member::Split(c) => write_table(out, c, "split", m.labels()),
    }
}

fn write_members<const K: usize>(
    out: &mut Writer,
    members: &[NetTensor<K>],
) -> Result<(), AllocError>
    ensures { OnOk result (Appends (list_data (map member_data members.now)) out.old out.new) }
{
    out.begin_array()?;
    for m in members {
        write_member(out, m)?;
    }
    out.end_array()
}

// The twisted labels, where there are any, and the closing bracket.
fn write_twist(out: &mut Writer, twist: &[i64]) -> Result<(), AllocError>
    ensures closes { OnOk result (Closes (twist_members twist.now) out.old out.new) }
    ensures read { OnOk result (IsRead (labels_data twist.now)) }
{
    if twist.is_empty() {
        return out.end_object();
    }
    out.key("twist")?;
    write_numbers(out, twist)?;
    out.end_object()
}

fn write_parts<const K: usize>(
    out: &mut Writer,
    group: &Group<K>,
    order: &[i64],
    members: &[NetTensor<K>],
    twist: &[i64],
) -> Result<(), AllocError>
    ensures { OnOk result (Appends (network_data group.now order.now members.now twist.now) out.old out.new) }
{
    out.begin_object()?;
    out.key("group")?;
    write_group(out, group)?;
    out.key("order")?;
    write_numbers(out, order)?;
    out.key("tensors")?;
    write_members(out, members)?;
    write_twist(out, twist)
}

/// What holds of each member. Nothing is done.
fn known_members<const K: usize>(members: &[NetTensor<K>])
    ensures { All (λ m. IsHeld m.member) members.now }
{
    for m in members {
        m.known();
    }
}

/// The text of a network: one line of compact JSON with its newline. Blocks that are all zeros are
/// left out. A combiner is written as it was given, never as its table. Without twisted labels their key is left out.
pub fn write_network<const K: usize>(alloc: Global, net: &Network<K>) -> Result<Vec<u8>, AllocError>
    ensures { IfOk result (λ bytes. IsTextOf net.now bytes.items) }
{
    let members = net.tensors();
    known_members(members);
    let mut out = Writer::new(Vec::new(alloc));
    write_parts(&mut out, net.group(), net.order(), members, net.twist())?;
    let text = finished(out)?;
    Ok(text)
}
