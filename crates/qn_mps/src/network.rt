//! The networks of chains: of one alone, of an overlap, of an expectation.

ghost use Rattle.std.specs.Prelude.{◌≡◌, ◌<◌, ◌≤◌, ◌++◌, [], None, IfOk, OnOk, length};
ghost use Rattle.std.specs.List.{All};
ghost use Rattle.qn_charge.specs.Charges.{neg_charge, sum_charge};
ghost use Rattle.qn_net.specs.Members.{IsMemberOf};
ghost use Rattle.qn_net.specs.NetworkValues.{value};
ghost use Rattle.qn_net.specs.Refusals.{IsFaultless, network_of};
ghost use Rattle.qn_braket.specs.Chains.{IsExpectNetwork, IsOverlapNetwork, chain_flux, element, expectation, overlap, with_labels};
ghost use Rattle.qn_braket.specs.ChainLaws.{network_flux};
ghost use Rattle.qn_mps.specs.declared.chain.ChainKind.TheVariants.{State as state_kind, Operator as operator_kind};
ghost use Rattle.qn_mps.specs.Labels.{labels_at};
ghost use Rattle.qn_mps.specs.Networks.{AreExpectMembers, AreOverlapMembers, HasConjugates, IsConjugateMember, chain_members, chain_network};

use crate::chain::{Chain, ChainKind};
use crate::labels::{Line, labels_at};
use qn_block::BlockTensor;
use qn_braket::chains::{
    chain_faultless_law, expect_faultless_law, expect_flux_law, expect_network_law,
    overlap_faultless_law, overlap_flux_law, overlap_network_law,
};
use qn_charge::Group;
use qn_net::values::no_fault_law;
use qn_net::{Member, NetFault, NetTensor, Network};
use std::alloc::{AllocError, Global};

/// Adds the tensors of a chain, from the first site to the last, each with its labels.
fn add_tensors<const K: usize>(
    members: &mut Vec<NetTensor<K>>,
    chain: &Chain<K>,
    own: &[Line],
    link: Line,
) -> Result<(), AllocError>
    ensures { OnOk result (
        members.new.items ≡
        members.old.items ++ with_labels (labels_at own.now link (length chain.now.tensors)) 0 chain.now.tensors) }
{
    chain.known();
    let alloc = chain.allocator();
    let tensors = chain.tensors();
    for site in 0..tensors.len() {
        let labels = labels_at(alloc, own, link, tensors.len(), site)?;
        let member = Member::Tensor(tensors[site].copy()?);
        members.push(NetTensor { member, labels })?;
    }
    Ok(())
}

/// The conjugate of a tensor as a member: its labels stand in reversed order.
fn conjugate_member<const K: usize>(
    tensor: &BlockTensor<K>,
    mut labels: Vec<i64>,
) -> Result<NetTensor<K>, AllocError>
    ensures { IfOk result (IsConjugateMember tensor.now labels.items) }
{
    let conjugate = tensor.dag()?;
    labels.reverse();
    Ok(NetTensor {
        member: Member::Tensor(conjugate),
        labels,
    })
}

/// Adds the conjugates of the tensors of a chain, from the last site to the first, each with its labels in reversed
/// order.
fn add_conjugates<const K: usize>(
    members: &mut Vec<NetTensor<K>>,
    chain: &Chain<K>,
    own: &[Line],
    link: Line,
) -> Result<(), AllocError>
    ensures { OnOk result (
        HasConjugates (labels_at own.now link (length chain.now.tensors)) chain.now.tensors members.old.items members.new.items) }
{
    chain.known();
    let alloc = chain.allocator();
    let tensors = chain.tensors();
    for site in (0..tensors.len()).rev() {
        let labels = labels_at(alloc, own, link, tensors.len(), site)?;
        members.push(conjugate_member(&tensors[site], labels)?)?;
    }
    Ok(())
}

/// The members of a chain's own network.
fn own_members<const K: usize>(chain: &Chain<K>) -> Result<Vec<NetTensor<K>>, AllocError>
    ensures { IfOk result (λ v. v.items ≡ chain_members chain.now) }
{
    chain.known();
    let count = chain.tensors().len();
    let mut members = Vec::with_capacity(chain.allocator(), count)?;
    match chain.kind() {
        ChainKind::State => {
            add_tensors(&mut members, chain, &[Line::OwnUpper], Line::OwnLink)?;
        }
        ChainKind::Operator => {
            let last = (count - 1) as u8;
            let own = [Line::OwnUpper, Line::OwnLower { last }];
            add_tensors(&mut members, chain, &own, Line::OwnLink)?;
        }
    }
    Ok(members)
}

/// The members of the network of an overlap.
fn overlap_members<const K: usize>(
    bra: &Chain<K>,
    ket: &Chain<K>,
) -> Result<Vec<NetTensor<K>>, AllocError>
    ensures { IfOk result (λ v. AreOverlapMembers bra.now.tensors ket.now.tensors v.items) }
{
    let site = Line::Shared { step: 3, first: 1 };
    let bra_link = Line::Shared { step: 3, first: 2 };
    let ket_link = Line::Shared { step: 3, first: 3 };
    let mut members = Vec::new(bra.allocator());
    add_conjugates(&mut members, bra, &[site], bra_link)?;
    add_tensors(&mut members, ket, &[site], ket_link)?;
    Ok(members)
}

/// The members of the network of an expectation.
fn expect_members<const K: usize>(
    bra: &Chain<K>,
    op: &Chain<K>,
    ket: &Chain<K>,
) -> Result<Vec<NetTensor<K>>, AllocError>
    ensures { IfOk result (λ v. AreExpectMembers bra.now.tensors op.now.tensors ket.now.tensors v.items) }
{
    let upper = Line::Shared { step: 5, first: 1 };
    let lower = Line::Shared { step: 5, first: 2 };
    let bra_link = Line::Shared { step: 5, first: 3 };
    let op_link = Line::Shared { step: 5, first: 4 };
    let ket_link = Line::Shared { step: 5, first: 5 };
    let mut members = Vec::new(bra.allocator());
    add_conjugates(&mut members, bra, &[upper], bra_link)?;
    add_tensors(&mut members, op, &[upper, lower], op_link)?;
    add_tensors(&mut members, ket, &[lower], ket_link)?;
    Ok(members)
}

/// The network of members whose labels have no fault. The positive labels are taken ascending, and none is twisted.
fn faultless_network<const K: usize>(
    group: Group<K>,
    members: Vec<NetTensor<K>>,
) -> Result<Network<K>, AllocError>
    requires some { 0 < length members.items }
    requires few { length members.items ≤ 256 }
    requires members { All (IsMemberOf group) members.items }
    requires faultless { IsFaultless members.items None [] }
    ensures { IfOk result (λ n. n ≡ network_of group.entry members.entry.items None []) }
{
    no_fault_law();
    let alloc = *members.allocator();
    match Network::new(alloc, group, members, None, Vec::new(alloc)) {
        Ok(network) => Ok(network),
        Err(NetFault::Memory) => Err(AllocError),
        Err(_) => unreachable!(),
    }
}

impl<const K: usize> Chain<K> {
    /// The network of the chain alone: link j has the label j, a state's s_j and an operator's s'_j have -j, and an
    /// operator's s_j on n sites has -(2n + 1 - j).
    pub fn network(&self) -> Result<Network<K>, AllocError>
        ensures { IfOk result (λ n. n ≡ chain_network self.now) }
    {
        self.known();
        chain_faultless_law();
        let members = own_members(self)?;
        faultless_network(*self.group(), members)
    }
}

/// The network whose value is the overlap of two states on the same sites: the conjugates of the bra's tensors, from
/// the last site to the first, and then the ket's tensors. The legs s of site j have the label 3j - 2, the bra's link j
/// has 3j - 1, the ket's 3j.
pub fn overlap_net<const K: usize>(bra: &Chain<K>, ket: &Chain<K>) -> Result<Network<K>, AllocError>
    requires bra { bra.now.kind ≡ state_kind }
    requires ket { ket.now.kind ≡ state_kind }
    requires group { ket.now.group ≡ bra.now.group }
    requires sites { ket.now.sites ≡ bra.now.sites }
    ensures network { IfOk result (IsOverlapNetwork bra.now.group bra.now.tensors ket.now.tensors) }
    ensures value { IfOk result (λ n. value n [] ≡ overlap bra.now.group bra.now.sites bra.now.tensors ket.now.tensors) }
    ensures flux { IfOk result (λ n.
        network_flux n ≡
        sum_charge bra.now.group (chain_flux bra.now.group ket.now.tensors) (
        neg_charge bra.now.group (chain_flux bra.now.group bra.now.tensors))) }
{
    bra.known();
    ket.known();
    overlap_network_law();
    overlap_faultless_law();
    overlap_flux_law();
    let members = overlap_members(bra, ket)?;
    faultless_network(*bra.group(), members)
}

/// The network whose value is the expectation of an operator between two states on the same sites: the conjugates of
/// the bra's tensors, from the last site to the first, then the operator's tensors, and then the ket's. The legs s' of
/// site j have the label 5j - 4, the legs s 5j - 3, and the links j of bra, operator and ket 5j - 2, 5j - 1 and 5j.
pub fn expect_net<const K: usize>(
    bra: &Chain<K>,
    op: &Chain<K>,
    ket: &Chain<K>,
) -> Result<Network<K>, AllocError>
    requires bra { bra.now.kind ≡ state_kind }
    requires op { op.now.kind ≡ operator_kind }
    requires ket { ket.now.kind ≡ state_kind }
    requires groups { (op.now.group ≡ bra.now.group) × (ket.now.group ≡ bra.now.group) }
    requires sites { (op.now.sites ≡ bra.now.sites) × (ket.now.sites ≡ bra.now.sites) }
    ensures network { IfOk result (IsExpectNetwork bra.now.group bra.now.tensors op.now.tensors ket.now.tensors) }
    ensures value { IfOk result (λ n.
        value n [] ≡
        expectation bra.now.group bra.now.sites (element bra.now.group op.now.tensors) bra.now.tensors ket.now.tensors) }
    ensures flux { IfOk result (λ n.
        network_flux n ≡
        sum_charge bra.now.group (sum_charge bra.now.group (chain_flux bra.now.group op.now.tensors) (chain_flux bra.now.group ket.now.tensors)) (neg_charge bra.now.group (chain_flux bra.now.group bra.now.tensors))) }
{
    bra.known();
    op.known();
    ket.known();
    expect_network_law();
    expect_faultless_law();
    expect_flux_law();
    let members = expect_members(bra, op, ket)?;
    faultless_network(*bra.group(), members)
}
