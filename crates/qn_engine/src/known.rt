//! What holds of the steps of a network.

ghost use Rattle.std.specs.Prelude.{◌≡◌, ◌≤◌, None, All};
ghost use Rattle.qn_gauss.specs.Gaussian.{mag, limit};
ghost use Rattle.qn_net.specs.Members.{IsHeld};
ghost use Rattle.qn_net.specs.NetworkValues.{parities, sectors, steps, passing_place};
ghost use Rattle.qn_net.specs.Passing.{first_admissible_step};
ghost use Rattle.qn_plan.specs.Planned.{first_wide};
ghost use Rattle.qn_engine.specs.Parts.{IsSmallMember};
ghost use Rattle.qn_engine.specs.Carrying.{AreReady};

use qn_block::Block;
use qn_gauss::Gauss;
use qn_net::fusing::{member_tables_law, never_first_law};
use qn_net::operations::{first_tensors_law, lines_law};
use qn_net::passing::first_steps_law;
use qn_net::plans::steps_law;
use qn_net::values::{network_passing_law, network_value_law};
use qn_net::{Member, NetTensor, Network};
use qn_plan::laws::steps_within_limits;

/// What holds of all entries. Nothing is done.
fn known_entries(entries: &[Gauss])
    ensures { All (λ z. mag z ≤ limit) entries.now }
{
    for z in entries {
        z.known();
    }
}

/// What holds of the entries of all blocks. Nothing is done.
fn known_blocks(blocks: &[Block])
    ensures { All (λ b. All (λ z. mag z ≤ limit) b.entries) blocks.now }
{
    for b in blocks {
        known_entries(b.entries());
    }
}

/// What holds of the entries of a member. Nothing is done.
fn known_member<const K: usize>(member: &NetTensor<K>)
    ensures held { IsHeld member.now.member }
    ensures small { IsSmallMember member.now.member }
{
    member.known();
    match &member.member {
        Member::Tensor(t) => known_blocks(t.blocks()),
        Member::Fuse(_) | Member::Split(_) => {}
    }
}

/// What holds of all members. Nothing is done.
fn known_members<const K: usize>(members: &[NetTensor<K>])
    ensures held { All (λ m. IsHeld m.member) members.now }
    ensures small { All (λ m. IsSmallMember m.member) members.now }
{
    for m in members {
        known_member(m);
    }
}

/// What holds of the steps of the network. Nothing is done.
pub fn known_steps<const K: usize>(net: &Network<K>)
    ensures ready { first_wide net.now ≡ None → AreReady net.now }
    ensures place { passing_place net.now ≡ first_admissible_step (parities net.now) net.now.group (sectors net.now) 1 (steps net.now) }
{
    net.known();
    let members = net.tensors();
    known_members(members);
    network_value_law();
    network_passing_law();
    first_tensors_law();
    steps_law();
    lines_law();
    steps_within_limits();
    member_tables_law();
    never_first_law();
    first_steps_law();
}
