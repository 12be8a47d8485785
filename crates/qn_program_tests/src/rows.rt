//! Worked rows of the program. Further documents, with what the program writes on them, stand in `examples` and `suite`.

use crate::documents::*;

// The words, the document, the numbers of the reads, writes and writes of the error line that fail, from 1, the exit
// number, and what is written to the sink and to the error sink.
pub(crate) type Row<'a> = (&'a str, &'a str, [u64; 3], u8, &'a str, &'a str);

pub(crate) const ROWS: &[Row<'static>] = &[
    ("contract", TWO, [0, 0, 0], 0, ELEVEN, ""),
    ("contract --workers 64", TWO, [0, 0, 0], 0, ELEVEN, ""),
    (
        "plan",
        PASSING,
        [0, 0, 0],
        0,
        "{\"cost\":1,\"steps\":[{\"cost\":1,\"kind\":\"pair\",\"labels\":[],\"of\":[1,2]}]}\n",
        "",
    ),
    ("mpo", STATES, [0, 0, 0], 0, NUMBER, ""),
    ("overlap --workers 3", STATES, [0, 0, 0], 0, OVERLAP, ""),
    ("expect --workers 2", STATES, [0, 0, 0], 0, EXPECTATION, ""),
    // workloads for which nothing is read, though the first read would fail
    (
        "gen 7",
        TWO,
        [1, 0, 0],
        0,
        "{\"cost\":37176,\"scalar\":[\"-1988538497530626\",\"0\"],\"sites\":15,\"steps\":44}\n",
        "",
    ),
    (
        "gen 24 --workers 8",
        "",
        [0, 0, 0],
        0,
        "{\"cost\":2450,\"scalar\":[\"0\",\"0\"],\"sites\":32,\"steps\":95}\n",
        "",
    ),
    // a sum that passes, and bytes that are no document
    (
        "contract",
        PASSING,
        [0, 0, 0],
        4,
        "",
        "qntn: passed step 1 at [] offset 0\n",
    ),
    (
        "contract",
        "",
        [0, 0, 0],
        3,
        "",
        "qntn: malformed F2 tensor 0 part 0 item 0\n",
    ),
    (
        "plan",
        CUT,
        [0, 0, 0],
        3,
        "",
        "qntn: malformed F2 tensor 0 part 0 item 0\n",
    ),
    (
        "contract",
        "[]{}",
        [0, 0, 0],
        3,
        "",
        "qntn: malformed F2 tensor 0 part 0 item 0\n",
    ),
    (
        "expect",
        TWO,
        [0, 0, 0],
        3,
        "",
        "qntn: malformed F3 tensor 0 part 0 item 0\n",
    ),
    // failing sources and sinks
    ("contract", TWO, [2, 0, 0], 5, "", "qntn: read fault\n"),
    (
        "contract",
        TWO,
        [0, 2, 0],
        6,
        "{\"blocks\":",
        "qntn: write fault\n",
    ),
    ("contract", CUT, [0, 0, 1], 3, "", ""),
    ("contract", CUT, [0, 0, 2], 3, "", "qntn: malf"),
    ("contract", TWO, [0, 0, 1], 0, ELEVEN, ""),
    // words for which nothing is read, though the first read would fail
    ("solve", TWO, [1, 0, 0], 2, "", "qntn: usage word 1\n"),
    (
        "plan --workers 2",
        TWO,
        [1, 0, 0],
        2,
        "",
        "qntn: usage word 2\n",
    ),
    (
        "contract --workers 064",
        TWO,
        [1, 0, 0],
        2,
        "",
        "qntn: usage word 3\n",
    ),
];
