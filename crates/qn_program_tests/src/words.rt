//! Lines of words, the jobs that they name, and the first word that does not fit.

use crate::ends::split;
use qn_cli::{Job, read_words};
use std::test::Fail;

const LINES: &[(&str, Result<Job, u32>)] = &[
    ("contract", Ok(Job::Contract { workers: 1 })),
    ("contract --workers 64", Ok(Job::Contract { workers: 64 })),
    ("plan", Ok(Job::Plan)),
    ("mpo", Ok(Job::Mpo)),
    ("overlap", Ok(Job::Overlap { workers: 1 })),
    ("overlap --workers 2", Ok(Job::Overlap { workers: 2 })),
    ("expect", Ok(Job::Expect { workers: 1 })),
    ("expect --workers 8", Ok(Job::Expect { workers: 8 })),
    (
        "gen 7",
        Ok(Job::Gen {
            seed: 7,
            workers: 1,
        }),
    ),
    (
        "gen 0 --workers 8",
        Ok(Job::Gen {
            seed: 0,
            workers: 8,
        }),
    ),
    (
        "gen 4294967295",
        Ok(Job::Gen {
            seed: 4294967295,
            workers: 1,
        }),
    ),
    ("", Err(1)),
    ("solve", Err(1)),
    ("--help", Err(1)),
    ("contract --workers 0", Err(3)),
    ("contract --workers 65", Err(3)),
    ("contract --workers 064", Err(3)),
    ("contract --workers +2", Err(3)),
    (
        "contract --workers 340282366920938463463374607431768211457",
        Err(3),
    ),
    ("contract --workers", Err(3)),
    ("contract --workers 2 --workers 2", Err(4)),
    ("contract --workers=2", Err(2)),
    ("plan --workers 2", Err(2)),
    ("mpo 1", Err(2)),
    ("gen", Err(2)),
    ("gen -1", Err(2)),
    ("gen 4294967296", Err(2)),
    ("gen 07", Err(2)),
    ("gen --workers 2", Err(2)),
    ("gen 7 --workers", Err(4)),
    ("gen 7 --workers 2 3", Err(5)),
];

#[test]
fn words(rt: HostRuntime) -> Result<(), Fail> {
    for (line, wanted) in LINES {
        let words = split(rt.alloc(), line)?;
        assert_eq!(rt; read_words(words.as_slice()), *wanted, "{line}");
    }
    Ok(())
}
