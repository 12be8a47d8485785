//! What is read of an operator sum and of two states.

use qn_gauss::Gauss;
use qn_opsum::{OpSum, Term};
use qn_sumdoc::{AnyStates, AnySum, States, read_states, read_sum};
use std::process::Abort;

// The state 2i|10> + 3|01> of two fermions twice, and a hop from the second site to the first.
const DOCUMENT: &str =
    "{\"group\":[{\"fermion\":true,\"kind\":\"u1\"}],\"sites\":[{\"kind\":\"fermion\"},{\"kind\":\"fermion\"}],\"terms\":[{\"coef\":[2,\"-3\"],\"ops\":[[1,\"Cdag\"],[2,\"C\"]]}],\"bra\":[{\"legs\":[{\"dir\":\"out\",\"sectors\":[[[0],1],[[1],1]]},{\"dir\":\"in\",\"sectors\":[[[0],1],[[1],1]]}],\"flux\":[0],\"blocks\":[[[0,0],[1]],[[1,1],[[0,1]]]]},{\"legs\":[{\"dir\":\"out\",\"sectors\":[[[0],1],[[1],1]]},{\"dir\":\"out\",\"sectors\":[[[0],1],[[1],1]]}],\"flux\":[1],\"blocks\":[[[0,1],[3]],[[1,0],[2]]]}],\"ket\":[{\"legs\":[{\"dir\":\"out\",\"sectors\":[[[0],1],[[1],1]]},{\"dir\":\"in\",\"sectors\":[[[0],1],[[1],1]]}],\"flux\":[0],\"blocks\":[[[0,0],[1]],[[1,1],[[0,1]]]]},{\"legs\":[{\"dir\":\"out\",\"sectors\":[[[0],1],[[1],1]]},{\"dir\":\"out\",\"sectors\":[[[0],1],[[1],1]]}],\"flux\":[1],\"blocks\":[[[0,1],[3]],[[1,0],[2]]]}]}";

// The term is 2-3i times these operators.
fn expect_term(rt: &impl Abort, term: &Term, wanted: &[(u32, &str)]) {
    assert_eq!(rt; Some(term.coef), Gauss::new(2, -3));
    assert_eq!(rt; term.factors().len(), wanted.len());
    for (factor, (site, name)) in term.factors().iter().zip(wanted.iter()) {
        assert_eq!(rt; factor.0, *site);
        assert_eq!(rt; factor.1.as_str(), *name);
    }
}

fn expect_sum(rt: &impl Abort, sum: &OpSum<1>) {
    assert_eq!(rt; sum.sites().len(), 2);
    assert_eq!(rt; sum.terms().len(), 1);
    for term in sum.terms() {
        expect_term(rt, term, &[(1, "Cdag"), (2, "C")]);
    }
}

fn expect_states(rt: &impl Abort, states: &States<1>, with_sum: bool) {
    assert_eq!(rt; states.sites.len(), 2);
    assert_eq!(rt; states.sum.is_some(), with_sum);
    assert_eq!(rt; states.bra.tensors().len(), 2);
    assert_eq!(rt; states.ket.tensors().len(), 2);
    for tensor in states.ket.tensors() {
        assert_eq!(rt; tensor.blocks().len(), 2);
    }
}

#[test]
fn sums_and_states(rt: HostRuntime) {
    match read_sum(rt.alloc(), DOCUMENT.as_bytes()) {
        Ok(AnySum::N1(sum)) => expect_sum(&rt, &sum),
        _ => panic!(rt; "no sum"),
    }
    for with_sum in [false, true] {
        match read_states(rt.alloc(), DOCUMENT.as_bytes(), with_sum) {
            Ok(AnyStates::N1(states)) => expect_states(&rt, &states, with_sum),
            _ => panic!(&rt; "no states"),
        }
    }
}
