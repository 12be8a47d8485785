//! Counts at their limits and above, and texts that are no documents.

use qn_doc::{DocFault, read_network, read_tensor};
use qn_sumdoc::{read_states, read_sum};
use std::alloc::{AllocError, Global};
use std::test::Fail;

// The place of a fault: its code, tensor, part and item; four zeros stand for none.
type Place = (u32, u32, u32, i64);

#[derive(Clone, Copy)]
enum Reader {
    Tensor,
    Network,
    Sum,
    States,
}

// A document: its reader, its text up to a piece, the piece, how often it stands there, and the rest of the text.
type Row<'a> = (Reader, &'a str, &'a str, u32, &'a str, Place);

fn place_of(fault: &DocFault) -> Place {
    match fault {
        DocFault::Bad(fault) => (fault.code, fault.tensor, fault.part, fault.item),
        DocFault::Memory => (0, 0, 0, -1),
    }
}

fn first_fault(alloc: Global, reader: Reader, text: &str) -> Place {
    let bytes = text.as_bytes();
    let fault = match reader {
        Reader::Tensor => read_tensor(alloc, bytes).err(),
        Reader::Network => read_network(alloc, bytes).err(),
        Reader::Sum => read_sum(alloc, bytes).err(),
        Reader::States => read_states(alloc, bytes, false).err(),
    };
    match fault {
        Some(fault) => place_of(&fault),
        None => (0, 0, 0, 0),
    }
}

// The pieces stand with commas between them.
fn document(
    alloc: Global,
    front: &str,
    piece: &str,
    count: u32,
    rest: &str,
) -> Result<String, AllocError> {
    let mut text = String::from_str(alloc, front)?;
    for i in 0..count {
        if i > 0 {
            text.push_str(",")?;
        }
        text.push_str(piece)?;
    }
    text.push_str(rest)?;
    Ok(text)
}

const SITES: &str = "{\"group\":[{\"fermion\":true,\"kind\":\"u1\"}],\"sites\":[";

const SITE: &str = "{\"kind\":\"fermion\"}";

const TERM: &str = "{\"coef\":1,\"ops\":[]}";

const TERMS: &str =
    "{\"group\":[{\"fermion\":true,\"kind\":\"u1\"}],\"sites\":[{\"kind\":\"fermion\"}],\"terms\":[";

const FACTORS: &str = "{\"legs\":[],\"flux\":[0,0,0,0],\"blocks\":[],\"group\":[";

const FIVE_FACTORS: &str = "{\"legs\":[],\"flux\":[0,0,0,0,0],\"blocks\":[],\"group\":[";

const FACTOR: &str = "{\"fermion\":false,\"kind\":\"u1\"}";

const LEGS: &str = "{\"group\":[],\"flux\":[],\"blocks\":[],\"legs\":[";

const SECTORS: &str =
    "{\"group\":[],\"flux\":[],\"blocks\":[],\"legs\":[{\"dir\":\"out\",\"sectors\":[";

const NETWORK: &str = "{\"group\":[],\"tensors\":[";

const SCALAR: &str = "{\"legs\":[],\"flux\":[],\"blocks\":[],\"labels\":[]}";

const ROWS: &[Row<'static>] = &[
    (Reader::Tensor, "", " ", 3, "", (2, 0, 0, 0)),
    (Reader::Tensor, FACTORS, FACTOR, 4, "]}", (0, 0, 0, 0)),
    (Reader::Tensor, FIVE_FACTORS, FACTOR, 5, "]}", (4, 0, 0, 0)),
    (
        Reader::Tensor,
        LEGS,
        "{\"dir\":\"out\",\"sectors\":[[[],1]]}",
        32,
        "]}",
        (0, 0, 0, 0),
    ),
    (
        Reader::Tensor,
        LEGS,
        "{\"dir\":\"out\",\"sectors\":[]}",
        33,
        "]}",
        (8, 1, 0, 0),
    ),
    (
        Reader::Tensor,
        SECTORS,
        "[[],65536]",
        16,
        "]}]}",
        (0, 0, 0, 0),
    ),
    (
        Reader::Tensor,
        SECTORS,
        "[[],65536]",
        17,
        "]}]}",
        (10, 1, 1, 17),
    ),
    (Reader::Tensor, SECTORS, "[[],1]", 64, "]}]}", (0, 0, 0, 0)),
    (Reader::Tensor, SECTORS, "[[],1]", 65, "]}]}", (11, 1, 1, 0)),
    (
        Reader::Tensor,
        LEGS,
        "{\"dir\":\"out\",\"sectors\":[[[],1],[[],1]]}",
        20,
        "]}",
        (0, 0, 0, 0),
    ),
    (
        Reader::Tensor,
        LEGS,
        "{\"dir\":\"out\",\"sectors\":[[[],1],[[],1]]}",
        21,
        "]}",
        (13, 1, 0, 0),
    ),
    (Reader::Network, NETWORK, SCALAR, 256, "]}", (0, 0, 0, 0)),
    (Reader::Network, NETWORK, SCALAR, 257, "]}", (7, 0, 0, 0)),
    (
        Reader::Network,
        "{\"group\":[{\"fermion\":false,\"kind\":\"u1\"}],\"tensors\":[{\"labels\":[],\"combine\":{\"dir\":\"out\",\"mode\":\"fuse\",\"legs\":[",
        "{\"dir\":\"out\",\"sectors\":[[[1],1]]}",
        31,
        "]}}]}",
        (20, 1, 0, 0),
    ),
    (
        Reader::Network,
        "{\"group\":[{\"fermion\":false,\"kind\":\"u1\"}],\"tensors\":[{\"labels\":[],\"combine\":{\"dir\":\"out\",\"mode\":\"fuse\",\"legs\":[",
        "{\"dir\":\"out\",\"sectors\":[[[1],1]]}",
        32,
        "]}}]}",
        (8, 1, 0, 0),
    ),
    (
        Reader::Sum,
        SITES,
        SITE,
        64,
        "],\"terms\":[{\"coef\":1,\"ops\":[[64,\"N\"]]}]}",
        (0, 0, 0, 0),
    ),
    (
        Reader::Sum,
        SITES,
        SITE,
        65,
        "],\"terms\":[{\"coef\":1,\"ops\":[[1,\"N\"]]}]}",
        (28, 0, 0, 0),
    ),
    (Reader::Sum, TERMS, TERM, 2000, "]}", (0, 0, 0, 0)),
    (Reader::Sum, TERMS, TERM, 2001, "]}", (29, 0, 0, 0)),
    (
        Reader::Sum,
        "{\"group\":[{\"fermion\":true,\"kind\":\"u1\"}],\"sites\":[{\"kind\":\"fermion\"}],\"terms\":[{\"coef\":1,\"ops\":[",
        "[1,\"N\"]",
        32,
        "]}]}",
        (0, 0, 0, 0),
    ),
    (
        Reader::Sum,
        "{\"group\":[{\"fermion\":true,\"kind\":\"u1\"}],\"sites\":[{\"kind\":\"fermion\"}],\"terms\":[{\"coef\":1,\"ops\":[",
        "[1,\"N\"]",
        33,
        "]}]}",
        (30, 0, 1, 0),
    ),
    (
        Reader::States,
        SITES,
        SITE,
        64,
        "],\"bra\":[],\"ket\":[]}",
        (34, 100, 0, 0),
    ),
    (
        Reader::States,
        SITES,
        SITE,
        65,
        "],\"bra\":[],\"ket\":[]}",
        (28, 0, 0, 0),
    ),
];

#[test]
fn counts(rt: HostRuntime) -> Result<(), Fail> {
    let alloc = rt.alloc();
    for (reader, front, piece, count, rest, wanted) in ROWS {
        let text = document(alloc, front, piece, *count, rest)?;
        let found = first_fault(alloc, *reader, text.as_str());
        assert_eq!(rt; found, *wanted, "{count} {piece}");
    }
    Ok(())
}
