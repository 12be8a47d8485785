//! Signs of small rearrangements, moves and chords.

use qn_sign::{block_move, chord, exchange};

// The sign of a goal, whose positions have to be those of the word.
fn sign_of(odd: &[bool], goal: &[usize]) -> Option<bool> {
    if goal.iter().all(|k| *k < odd.len()) {
        Some(exchange(odd, goal))
    } else {
        None
    }
}

// Which things are odd, the goal, and whether it has a minus.
type Row<'a> = (&'a [bool], &'a [usize], bool);

const ROWS: &[Row<'static>] = &[
    (&[], &[], false),
    (&[true, true, true], &[1, 0, 2], true),
    (&[true, true, true], &[1, 2, 0], false),
    (&[true, true, true], &[2, 1, 0], true),
    (&[true, false, true], &[1, 2, 0], true),
    (&[false, true, false], &[2, 1, 0], false),
    (&[true, false, true, true], &[2, 0, 3, 1], true),
    (&[true, true, true, true, true], &[4, 3, 2, 1, 0], false),
    (&[true, true, true], &[2, 0], true),
];

#[test]
fn signs(rt: HostRuntime) {
    for (odd, goal, minus) in ROWS {
        assert_eq!(rt; sign_of(odd, goal), Some(*minus));
    }
    for (first, second) in [(false, false), (false, true), (true, false), (true, true)] {
        let both = first && second;
        assert!(rt; block_move(first, second) == both && chord(first, second) == both);
    }
}
