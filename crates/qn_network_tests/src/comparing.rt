//! Values of networks, at all values of their open legs, against the plain program.

ghost use Rattle.std.specs.Prelude.{◌≡◌, ◌<◌};

use crate::documents::NETWORKS;
use crate::plain::{entry_at, opens_of, plain_network, values_of};
use qn_block::BlockTensor;
use qn_doc::{AnyNet, read_network};
use qn_engine::evaluate;
use qn_gauss::Steps;
use qn_net::Network;
use qn_pair::OpenGate;
use qn_value::plain;
use std::alloc::{AllocError, Global};
use std::marker::Brand;
use std::process::Abort;
use std::sync::ledger::{Blank, Ledger};
use std::test::Fail;
use std::thread::Threads;

// At all values of the open legs the tensor has the network's value by its definition.
fn expect_value<const K: usize>(
    rt: &impl Abort,
    alloc: Global,
    net: &Network<K>,
    found: &BlockTensor<K>,
) -> Result<(), AllocError> {
    let given = plain_network(rt, alloc, net)?;
    let opens = opens_of(alloc, found.legs())?;
    for values in values_of(alloc, found.legs())? {
        let wanted = plain::evaluate(
            alloc,
            &given.lines,
            &given.tensors,
            &given.bonds,
            &opens,
            &values,
        );
        match wanted {
            Ok(wanted) => assert_eq!(rt; entry_at(rt, found, &values), wanted),
            Err(fault) => panic!(rt; "{fault:?}"),
        }
    }
    Ok(())
}

fn compare<const K: usize, L: Ledger, R: Abort + Threads + Sync>(
    rt: &R,
    alloc: Global,
    net: &Network<K>,
    steps: &mut Steps<L>,
) -> Result<(), AllocError> {
    match evaluate(rt, alloc, net, 1, &OpenGate, steps) {
        Ok(found) => expect_value(rt, alloc, net, &found),
        Err(fault) => panic!(rt; "{fault:?}"),
    }
}

fn compare_any<L: Ledger, R: Abort + Threads + Sync>(
    rt: &R,
    alloc: Global,
    text: &str,
    steps: &mut Steps<L>,
) -> Result<(), AllocError> {
    match read_network(alloc, text.as_bytes()) {
        Ok(AnyNet::N0(net)) => compare(rt, alloc, &net, steps),
        Ok(AnyNet::N1(net)) => compare(rt, alloc, &net, steps),
        Ok(AnyNet::N2(net)) => compare(rt, alloc, &net, steps),
        Ok(_) => panic!(rt; "more than two factors"),
        Err(fault) => panic!(rt; "{fault:?}"),
    }
}

fn compare_all<L: Ledger, R: Abort + Threads + Sync>(
    blank: Blank,
    rt: &R,
    alloc: Global,
) -> Result<(), AllocError>
    requires name { blank.name ≡ L.name }
    requires parts { blank.parts ≡ L.parts }
    requires some { 0 < L.parts }
{
    let mut steps = Steps::<L>::new(blank);
    for (front, orders) in NETWORKS {
        for order in orders {
            let text = format!(in alloc; "{front},\"order\":{order}}}")?;
            compare_any(rt, alloc, text.as_str(), &mut steps)?;
        }
    }
    Ok(())
}

#[test]
fn networks_by_the_plain_program(rt: HostRuntime) -> Result<(), Fail> {
    compare_all::<Brand, _>(Blank::new(1), &rt, rt.alloc())?;
    Ok(())
}
