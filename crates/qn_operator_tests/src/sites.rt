//! The operators of all kinds of sites, entry by entry.

use qn_gauss::Gauss;
use qn_opsum::OpSum;
use qn_sites::{OpTable, SiteTable};
use qn_sumdoc::{AnySum, read_sum};
use std::alloc::{AllocError, Global};
use std::process::Abort;
use std::test::Fail;

const SPIN: &str =
    "{\"group\":[{\"fermion\":false,\"kind\":\"u1\"}],\"sites\":[{\"kind\":\"spin_half\"}],\"terms\":[{\"coef\":1,\"ops\":[]}]}";

const FERMION: &str =
    "{\"group\":[{\"fermion\":true,\"kind\":\"u1\"}],\"sites\":[{\"kind\":\"fermion\"}],\"terms\":[{\"coef\":1,\"ops\":[]}]}";

const ELECTRON: &str =
    "{\"group\":[{\"fermion\":true,\"kind\":\"u1\"},{\"fermion\":false,\"kind\":\"u1\"}],\"sites\":[{\"kind\":\"electron\"}],\"terms\":[{\"coef\":1,\"ops\":[]}]}";

// A boson whose number counts modulo 2, with an operator that adds one and one without a name.
const OWN: &str =
    "{\"group\":[{\"fermion\":false,\"kind\":\"zn\",\"n\":2}],\"sites\":[{\"kind\":\"own\",\"sectors\":[[[0],1],[[1],1]],\"ops\":{\"X\":{\"charge\":[1],\"table\":[[0,3],[1,0]]},\"\":{\"charge\":[0],\"table\":[[2,0],[0,4]]}}}],\"terms\":[{\"coef\":1,\"ops\":[]}]}";

// A number other than 0 in the table of an operator: the row, the column and the number.
type Cell = (u32, u32, i128);

// A kind of site: a document with one such site, and its operators.
type Row<'a> = (&'a str, &'a [(&'a str, &'a [Cell])]);

const ROWS: &[Row<'static>] = &[
    (
        SPIN,
        &[
            ("I", &[(0, 0, 1), (1, 1, 1)]),
            ("Sm", &[(1, 0, 1)]),
            ("Sp", &[(0, 1, 1)]),
            ("Z", &[(0, 0, 1), (1, 1, -1)]),
        ],
    ),
    (
        FERMION,
        &[
            ("C", &[(0, 1, 1)]),
            ("Cdag", &[(1, 0, 1)]),
            ("I", &[(0, 0, 1), (1, 1, 1)]),
            ("N", &[(1, 1, 1)]),
        ],
    ),
    (
        ELECTRON,
        &[
            ("Cdagdn", &[(2, 0, 1), (3, 1, -1)]),
            ("Cdagup", &[(1, 0, 1), (3, 2, 1)]),
            ("Cdn", &[(0, 2, 1), (1, 3, -1)]),
            ("Cup", &[(0, 1, 1), (2, 3, 1)]),
            ("I", &[(0, 0, 1), (1, 1, 1), (2, 2, 1), (3, 3, 1)]),
            ("Ndn", &[(2, 2, 1), (3, 3, 1)]),
            ("Nup", &[(1, 1, 1), (3, 3, 1)]),
        ],
    ),
    (
        OWN,
        &[
            ("", &[(0, 0, 2), (1, 1, 4)]),
            ("I", &[(0, 0, 1), (1, 1, 1)]),
            ("X", &[(0, 1, 3), (1, 0, 1)]),
        ],
    ),
];

// The number in this place of a table, and 0 where none stands there.
fn number_at(cells: &[Cell], row: u32, column: u32) -> i128 {
    for cell in cells {
        if (cell.0, cell.1) == (row, column) {
            return cell.2;
        }
    }
    0
}

// The table and its rule have this entry.
fn expect_entry<const K: usize>(
    rt: &impl Abort,
    alloc: Global,
    op: &OpTable<K>,
    row: u32,
    column: u32,
    wanted: i128,
) -> Result<(), AllocError> {
    assert!(rt; row < op.leg().dim() && column < op.leg().dim());
    let entry = op.entry(row, column);
    assert_eq!(rt; Some(entry), Gauss::new(wanted, 0));
    let rule = op.copy()?.rule(alloc)?;
    assert_eq!(rt; rule.ask(&[row, column]), entry);
    Ok(())
}

fn expect_op<const K: usize>(
    rt: &impl Abort,
    alloc: Global,
    op: &OpTable<K>,
    name: &str,
    cells: &[Cell],
) -> Result<(), AllocError> {
    assert_eq!(rt; op.name().as_str(), name);
    for row in 0..op.leg().dim() {
        for column in 0..op.leg().dim() {
            let wanted = number_at(cells, row, column);
            expect_entry(rt, alloc, op, row, column, wanted)?;
        }
    }
    Ok(())
}

fn expect_site<const K: usize>(
    rt: &impl Abort,
    alloc: Global,
    site: &SiteTable<K>,
    ops: &[(&str, &[Cell])],
) -> Result<(), AllocError> {
    assert_eq!(rt; site.ops().len(), ops.len());
    for (op, (name, cells)) in site.ops().iter().zip(ops.iter()) {
        expect_op(rt, alloc, op, name, cells)?;
    }
    Ok(())
}

fn expect_sites<const K: usize>(
    rt: &impl Abort,
    alloc: Global,
    sum: &OpSum<K>,
    ops: &[(&str, &[Cell])],
) -> Result<(), AllocError> {
    for site in sum.sites() {
        expect_site(rt, alloc, site, ops)?;
    }
    Ok(())
}

#[test]
fn kinds_of_sites(rt: HostRuntime) -> Result<(), Fail> {
    let alloc = rt.alloc();
    for (text, ops) in ROWS {
        match read_sum(alloc, text.as_bytes()) {
            Ok(AnySum::N1(sum)) => expect_sites(&rt, alloc, &sum, ops)?,
            Ok(AnySum::N2(sum)) => expect_sites(&rt, alloc, &sum, ops)?,
            _ => panic!(&rt; "{text}"),
        }
    }
    Ok(())
}
