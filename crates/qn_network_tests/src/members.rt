//! What is seen of the members of a network.

use qn_charge::Factor;
use qn_doc::{AnyNet, read_network};
use qn_index::Dir;
use qn_net::{MemberRole, NetTensor, Network};
use std::alloc::{AllocError, Global};
use std::process::Abort;
use std::test::Fail;

// The fuse table of a combiner of an In leg of charge 1, its split table, and a tensor.
const COMBINERS: &str =
    "{\"group\":[{\"fermion\":true,\"kind\":\"u1\"}],\"tensors\":[{\"combine\":{\"dir\":\"out\",\"legs\":[{\"dir\":\"in\",\"sectors\":[[[1],1]]}],\"mode\":\"fuse\"},\"labels\":[-1,1]},{\"combine\":{\"dir\":\"out\",\"legs\":[{\"dir\":\"in\",\"sectors\":[[[1],1]]}],\"mode\":\"split\"},\"labels\":[1,-2]},{\"legs\":[{\"dir\":\"out\",\"sectors\":[[[7],3]]}],\"flux\":[7],\"blocks\":[],\"labels\":[-3]}]}";

// What is seen of a leg: its arrow, and the charge and the dimension of its one sector.
type Seen = (Dir, i64, u32);

fn expect_leg(
    rt: &impl Abort,
    member: &NetTensor<1>,
    leg: usize,
    wanted: Seen,
) -> Result<(), AllocError> {
    assert!(rt; leg < member.width());
    let copy = member.leg(leg)?;
    assert!(rt; member.dir(leg) == copy.dir());
    for sector in member.sectors(leg) {
        assert!(rt; (copy.dir(), sector.charge.part(0), sector.dim) == wanted);
    }
    Ok(())
}

fn expect_member(
    rt: &impl Abort,
    member: &NetTensor<1>,
    role: MemberRole,
    flux: i64,
    legs: &[Seen],
) -> Result<(), AllocError> {
    assert!(rt; member.role() == role);
    assert_eq!(rt; member.flux().part(0), flux);
    assert_eq!(rt; member.width(), legs.len());
    for (j, leg) in legs.iter().enumerate() {
        expect_leg(rt, member, j, *leg)?;
    }
    Ok(())
}

const MEMBERS: &[(MemberRole, i64, &[Seen])] = &[
    (
        MemberRole::FuseTable,
        0,
        &[(Dir::Out, -1, 1), (Dir::Out, 1, 1)],
    ),
    (
        MemberRole::SplitTable,
        0,
        &[(Dir::In, 1, 1), (Dir::In, -1, 1)],
    ),
    (MemberRole::Plain, 7, &[(Dir::Out, 7, 3)]),
];

fn expect_network(rt: &impl Abort, net: &Network<1>) -> Result<(), AllocError> {
    assert!(rt; net.group().factor(0) == (Factor::U1 { fermion: true }));
    assert_eq!(rt; net.order(), [1i64].as_slice());
    assert_eq!(rt; net.tensors().len(), MEMBERS.len());
    for (member, (role, flux, legs)) in net.tensors().iter().zip(MEMBERS.iter()) {
        expect_member(rt, member, *role, *flux, legs)?;
    }
    Ok(())
}

#[test]
fn members(rt: HostRuntime) -> Result<(), Fail> {
    match read_network(rt.alloc(), COMBINERS.as_bytes()) {
        Ok(AnyNet::N1(net)) => expect_network(&rt, &net)?,
        _ => panic!(rt; "no network"),
    }
    Ok(())
}
