//! The labels of members by themselves.

ghost use Rattle.std.specs.Prelude.{◌≡◌, ◌↔◌, ◌++◌, ◌<◌, ℤ, List, Option, IsTrue, IsNone, IfSome, IfOk, MatchOption, length};
ghost use Rattle.qn_charge.specs.Firsts.{HasNone, IsFirst};
ghost use Rattle.qn_value.specs.Labels.{is_inward, slots_of, ends};
ghost use Rattle.qn_net.specs.Members.{member_tensor, ends_of_members};
ghost use Rattle.qn_net.specs.Refusals.{IsLabel, BadLabelAt, HaveLabels, IsNetFault};

use crate::fault::NetFault;
use crate::member::NetTensor;
use crate::table::end_of;
use qn_index::Dir;
use qn_value::plain::LineEnd;
use std::alloc::{AllocError, Global};

/// Whether a number may be a label.
pub(crate) fn is_label(label: i64) -> bool
    ensures { IsTrue result ↔ IsLabel label }
{
    label != 0 && label.unsigned_abs() <= 1024
}

/// The first label that is out of range.
fn first_bad_label(labels: &[i64]) -> Option<usize>
    ensures { MatchOption result (HasNone (BadLabelAt labels.now)) (IsFirst (BadLabelAt labels.now)) }
{
    for j in 0..labels.len() {
        if !is_label(labels[j]) {
            return Some(j);
        }
    }
    None
}

/// The first member that has not one label for each leg, or a label that is out of range.
pub(crate) fn label_fault<const K: usize>(tensors: &[NetTensor<K>]) -> Option<NetFault>
    ensures none { IsNone result → HaveLabels tensors.now }
    ensures fault { (order : Option (List ℤ)) (twist : List ℤ) → IfSome result (IsNetFault tensors.now order twist) }
{
    for i in 0..tensors.len() {
        let t = &tensors[i];
        let labels = t.labels();
        if labels.len() != t.width() {
            return Some(NetFault::LabelArity { tensor: i });
        }
        match first_bad_label(labels) {
            Some(j) => return Some(NetFault::LabelRange { tensor: i, leg: j }),
            None => {}
        }
    }
    None
}

/// Whether an arrow points into its tensor.
fn points_in(dir: Dir) -> bool
    ensures { result ≡ is_inward dir }
{
    match dir {
        Dir::In => true,
        Dir::Out => false,
    }
}

/// The end of a line that a leg with this label and arrow is.
fn leg_end(label: &i64, dir: Dir) -> LineEnd
    ensures { result ≡ record { label = label.now; inward = is_inward dir } }
{
    let label = *label;
    end_of(label, points_in(dir))
}

/// Adds the ends that the legs of a tensor are.
fn add_ends<const K: usize>(list: &mut Vec<LineEnd>, t: &NetTensor<K>) -> Result<(), AllocError>
    requires { length t.now.labels ≡ length (member_tensor t.now.member).legs }
    ensures { IfOk result (λ _.
        list.new.items ≡ list.old.items ++ ends (slots_of (member_tensor t.now.member).legs t.now.labels)) }
{
    let labels = t.labels();
    for j in 0..labels.len() {
        list.push(leg_end(&labels[j], t.dir(j)))?;
    }
    Ok(())
}

/// Which end of which line each leg is, member by member.
pub(crate) fn ends_of<const K: usize>(
    alloc: Global,
    tensors: &[NetTensor<K>],
) -> Result<Vec<LineEnd>, AllocError>
    requires { HaveLabels tensors.now }
    ensures { IfOk result (λ v. v.items ≡ ends_of_members tensors.now) }
{
    let mut list = Vec::new(alloc);
    for t in tensors {
        add_ends(&mut list, t)?;
    }
    Ok(list)
}
