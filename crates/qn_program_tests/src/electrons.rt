//! The automaton of a long chain of electrons.

ghost use Rattle.std.specs.Prelude.{◌≡◌, ◌<◌, length};

use crate::ends::ends;
use std::alloc::{AllocError, Global};
use std::marker::Brand;
use std::sync::ledger::{Blank, Ledger};
use std::test::Fail;
use std::thread::Threads;

// A fermion of this spin goes from one site to another.
fn hop(alloc: Global, to: u32, from: u32, spin: &str) -> Result<String, AllocError> {
    format!(in alloc; "{{\"coef\":-1,\"ops\":[[{to},\"Cdag{spin}\"],[{from},\"C{spin}\"]]}},")
}

// Hopping between neighbours among this many sites, both ways and with both spins.
fn hops(alloc: Global, count: u32) -> Result<String, AllocError> {
    let mut text = String::new(alloc);
    for j in 1..count {
        let next = j + 1;
        text.push_str(&hop(alloc, j, next, "up")?)?;
        text.push_str(&hop(alloc, next, j, "up")?)?;
        text.push_str(&hop(alloc, j, next, "dn")?)?;
        text.push_str(&hop(alloc, next, j, "dn")?)?;
    }
    Ok(text)
}

// The repulsion of two electrons on one of this many sites, for each but the last.
fn repulsions(alloc: Global, count: u32) -> Result<String, AllocError> {
    let mut text = String::new(alloc);
    for j in 1..count {
        let term = format!(in alloc; "{{\"coef\":4,\"ops\":[[{j},\"Nup\"],[{j},\"Ndn\"]]}},")?;
        text.push_str(&term)?;
    }
    Ok(text)
}

// The Hubbard chain of this many sites.
fn hubbard(alloc: Global, count: u32) -> Result<String, AllocError> {
    let mut sites = String::new(alloc);
    for _ in 1..count {
        sites.push_str("{\"kind\":\"electron\"},")?;
    }
    let hops = hops(alloc, count)?;
    let repulsions = repulsions(alloc, count)?;
    format!(in alloc;
        "{{\"group\":[{{\"fermion\":true,\"kind\":\"u1\"}},{{\"fermion\":false,\"kind\":\"u1\"}}],\"sites\":[{sites}{{\"kind\":\"electron\"}}],\"terms\":[{hops}{repulsions}{{\"coef\":4,\"ops\":[[{count},\"Nup\"],[{count},\"Ndn\"]]}}]}}"
    )
}

// How often the part stands in the text.
fn times(text: &[u8], part: &[u8]) -> u32
    requires { 0 < length part.now }
{
    let mut count: u32 = 0;
    for window in text.windows(part.len()) {
        if window == part {
            count = count.saturating_add(1);
        }
    }
    count
}

// Whether the automaton of the Hubbard chain of 64 sites has two legs for each site, and two for
// each link, whose charges are those of a hopping electron of either spin.
fn electrons_hold<L: Ledger, R: Threads + Sync>(
    blank: Blank,
    rt: &R,
    alloc: Global,
    room: usize,
) -> Result<bool, AllocError>
    requires name { blank.name ≡ L.name }
    requires parts { blank.parts ≡ L.parts }
    requires some { 0 < L.parts }
{
    let bytes = hubbard(alloc, 64)?.into_bytes();
    let (status, out, _err) = ends::<L, R>(blank, rt, alloc, "mpo", bytes, room, [0, 0, 0])?;
    let all = times(out.held(), b"\"sectors\":");
    let sites = times(
        out.held(),
        b"\"sectors\":[[[0,0],1],[[1,1],1],[[1,-1],1],[[2,0],1]]}",
    );
    let links = times(
        out.held(),
        b"\"sectors\":[[[-1,-1],1],[[-1,1],1],[[0,0],2],[[1,-1],1],[[1,1],1]]}",
    );
    Ok(status.exit_number() == 0 && all == 254 && sites == 128 && links == 126)
}

#[test]
fn electrons(rt: HostRuntime) -> Result<(), Fail> {
    let holds = electrons_hold::<Brand, _>(Blank::new(1), &rt, rt.alloc(), 100_000)?;
    assert!(rt; holds);
    Ok(())
}
