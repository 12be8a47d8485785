//! Terms in the order of their sites.

use qn_opsum::{Normal, OpSum};
use qn_sumdoc::{AnySum, read_sum};
use std::alloc::AllocError;
use std::process::Abort;
use std::test::Fail;

// Terms of charge 0 and of charge -1.
const EVEN: &str =
    "{\"group\":[{\"fermion\":true,\"kind\":\"u1\"}],\"sites\":[{\"kind\":\"fermion\"},{\"kind\":\"fermion\"}],\"terms\":[{\"coef\":1,\"ops\":[[2,\"C\"],[1,\"Cdag\"]]},{\"coef\":1,\"ops\":[[1,\"Cdag\"],[2,\"C\"]]},{\"coef\":1,\"ops\":[[2,\"C\"],[1,\"N\"],[2,\"Cdag\"],[1,\"I\"]]},{\"coef\":1,\"ops\":[]}]}";

const ODD: &str =
    "{\"group\":[{\"fermion\":true,\"kind\":\"u1\"}],\"sites\":[{\"kind\":\"fermion\"},{\"kind\":\"fermion\"}],\"terms\":[{\"coef\":1,\"ops\":[[2,\"N\"],[1,\"C\"]]},{\"coef\":1,\"ops\":[[2,\"C\"],[2,\"Cdag\"],[1,\"C\"]]}]}";

// A term in site order: whether it is negated, and its operators.
type Row<'a> = (bool, &'a [(u32, &'a str)]);

const ROWS: &[(&str, &[Row<'static>])] = &[
    (
        EVEN,
        &[
            (true, &[(1, "Cdag"), (2, "C")]),
            (false, &[(1, "Cdag"), (2, "C")]),
            (false, &[(1, "N"), (1, "I"), (2, "C"), (2, "Cdag")]),
            (false, &[]),
        ],
    ),
    (
        ODD,
        &[
            (false, &[(1, "C"), (2, "N")]),
            (false, &[(1, "C"), (2, "C"), (2, "Cdag")]),
        ],
    ),
];

fn expect_normal(rt: &impl Abort, normal: &Normal, wanted: &Row) {
    assert_eq!(rt; normal.negative, wanted.0);
    assert_eq!(rt; normal.factors.len(), wanted.1.len());
    for (found, (site, name)) in normal.factors.iter().zip(wanted.1.iter()) {
        assert_eq!(rt; found.0, *site);
        assert_eq!(rt; found.1.as_str(), *name);
    }
}

fn expect_terms(rt: &impl Abort, sum: &OpSum<1>, rows: &[Row]) -> Result<(), AllocError> {
    assert_eq!(rt; sum.terms().len(), rows.len());
    for (i, row) in rows.iter().enumerate() {
        assert!(rt; i < sum.terms().len());
        expect_normal(rt, &sum.normal(i)?, row);
    }
    Ok(())
}

#[test]
fn terms_in_site_order(rt: HostRuntime) -> Result<(), Fail> {
    for (text, rows) in ROWS {
        match read_sum(rt.alloc(), text.as_bytes()) {
            Ok(AnySum::N1(sum)) => expect_terms(&rt, &sum, rows)?,
            _ => panic!(&rt; "{text}"),
        }
    }
    Ok(())
}
