//! What is seen of a chain, and the labels of its networks.

use qn_mps::{Chain, ChainKind, overlap_net};
use qn_net::Network;
use qn_sumdoc::{AnyStates, read_states};
use std::alloc::AllocError;
use std::process::Abort;
use std::test::Fail;

// The state 2i|10> + 3|01>, and the same with the other arrow first on its link.
const STATES: &str =
    "{\"group\":[{\"fermion\":true,\"kind\":\"u1\"}],\"sites\":[{\"kind\":\"fermion\"},{\"kind\":\"fermion\"}],\"bra\":[{\"legs\":[{\"dir\":\"out\",\"sectors\":[[[0],1],[[1],1]]},{\"dir\":\"in\",\"sectors\":[[[0],1],[[1],1]]}],\"flux\":[0],\"blocks\":[[[0,0],[1]],[[1,1],[[0,1]]]]},{\"legs\":[{\"dir\":\"out\",\"sectors\":[[[0],1],[[1],1]]},{\"dir\":\"out\",\"sectors\":[[[0],1],[[1],1]]}],\"flux\":[1],\"blocks\":[[[0,1],[3]],[[1,0],[2]]]}],\"ket\":[{\"legs\":[{\"dir\":\"out\",\"sectors\":[[[0],1],[[1],1]]},{\"dir\":\"out\",\"sectors\":[[[0],1],[[1],1]]}],\"flux\":[1],\"blocks\":[[[0,1],[1]],[[1,0],[[0,1]]]]},{\"legs\":[{\"dir\":\"in\",\"sectors\":[[[0],1],[[1],1]]},{\"dir\":\"out\",\"sectors\":[[[0],1],[[1],1]]}],\"flux\":[0],\"blocks\":[[[0,0],[2]],[[1,1],[-3]]]}]}";

// The labels of the members, in their order, and the order of the positive labels.
type Labels<'a> = (&'a [&'a [i64]], &'a [i64]);

const CHAIN: Labels<'static> = (&[&[-1, 1], &[1, -2]], &[1]);

const OVERLAP: Labels<'static> = (&[&[4, 2], &[2, 1], &[1, 3], &[3, 4]], &[1, 2, 3, 4]);

fn expect_labels(rt: &impl Abort, network: &Network<1>, labels: Labels) {
    let members = network.tensors();
    assert_eq!(rt; members.len(), labels.0.len());
    for (member, wanted) in members.iter().zip(labels.0.iter()) {
        assert_eq!(rt; member.labels(), *wanted);
    }
    assert_eq!(rt; network.order(), labels.1);
}

// The chain with its first tensor put in its own place.
fn put_again(rt: &impl Abort, chain: &Chain<1>) -> Result<Chain<1>, AllocError> {
    let mut copy = chain.copy()?;
    assert!(rt; !chain.tensors().is_empty());
    let tensor = chain.tensors()[0].copy()?;
    copy.put(1, tensor);
    Ok(copy)
}

fn expect_state(rt: &impl Abort, chain: &Chain<1>, standard: bool) -> Result<(), AllocError> {
    assert!(rt; chain.kind() == ChainKind::State);
    assert_eq!(rt; chain.sites().len(), 2);
    assert_eq!(rt; chain.standard(), standard);
    let copy = put_again(rt, chain)?;
    assert!(rt;
        copy.tensors()
            .iter()
            .all(|tensor| tensor.blocks().len() == 2)
    );
    expect_labels(rt, &copy.network()?, CHAIN);
    Ok(())
}

fn expect_overlap(rt: &impl Abort, chain: &Chain<1>) -> Result<(), AllocError> {
    assert!(rt; chain.kind() == ChainKind::State);
    let copy = chain.copy()?;
    expect_labels(rt, &overlap_net(chain, &copy)?, OVERLAP);
    Ok(())
}

#[test]
fn chains_and_their_networks(rt: HostRuntime) -> Result<(), Fail> {
    match read_states(rt.alloc(), STATES.as_bytes(), false) {
        Ok(AnyStates::N1(states)) => {
            expect_state(&rt, &states.bra, true)?;
            expect_state(&rt, &states.ket, false)?;
            expect_overlap(&rt, &states.bra)?;
        }
        _ => panic!(&rt; "no states"),
    }
    Ok(())
}
