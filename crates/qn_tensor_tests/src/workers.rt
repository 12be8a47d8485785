//! Workers that draw from one board: what one worker gives back, and that a second one draws beside the first.

ghost use Rattle.std.specs.Prelude.{◌≡◌, ◌<◌};

use crate::rows::{expect_pair, tensor};
use qn_block::Block;
use qn_board::Board;
use qn_gauss::Steps;
use qn_index::Dir;
use qn_match::pairs;
use qn_pair::{Gate, OpenGate, contract, work};
use qn_samples::{BOSON, BlockRow, LegRow, Sectors, are_blocks};
use std::alloc::Global;
use std::marker::Brand;
use std::process::Abort;
use std::sync::atomic::{AtomicU64, Ordering};
use std::sync::ledger::{Blank, Ledger};
use std::test::Fail;
use std::thread::Threads;

// Tasks 0 and 1 wait for each other, and then one of them waits for task 2.
#[derive(Drop)]
struct Meeting {
    first: AtomicU64,
    second: AtomicU64,
    third: AtomicU64,
    held: u64,
    lost: AtomicU64,
}

impl Meeting {
    fn new(held: u64) -> Meeting {
        Meeting {
            first: AtomicU64::new(0),
            second: AtomicU64::new(0),
            third: AtomicU64::new(0),
            held,
            lost: AtomicU64::new(0),
        }
    }

    fn wait(&self, word: &AtomicU64) {
        for _ in 0..50_000_000u64 {
            if word.load(Ordering::SeqCst) == 1 {
                return;
            }
        }
        self.lost.store(1, Ordering::SeqCst);
    }
}

impl Gate for Meeting {
    fn pass(&self, task: u64) {
        match task {
            0 => self.first.store(1, Ordering::SeqCst),
            1 => self.second.store(1, Ordering::SeqCst),
            _ => self.third.store(1, Ordering::SeqCst),
        }
        self.wait(&self.first);
        self.wait(&self.second);
        if task == self.held {
            self.wait(&self.third);
        }
    }
}

// 2^126.
const HALF: i128 = 85070591730234615865843651857942052864;

const THREE: Sectors<'static> = &[(0, 1), (1, 1), (2, 1)];

const CHAIN: &[LegRow<'static>] = &[(Dir::In, THREE), (Dir::Out, THREE)];

const ONES: &[BlockRow<'static>] = &[(&[0, 0], &[1]), (&[1, 1], &[1]), (&[2, 2], &[1])];

const TWOS: &[BlockRow<'static>] = &[(&[0, 0], &[2]), (&[1, 1], &[2]), (&[2, 2], &[2])];

const LARGE: &[BlockRow<'static>] = &[(&[0, 0], &[1]), (&[1, 1], &[HALF]), (&[2, 2], &[HALF])];

// Two workers at a gate give the blocks of the identity.
fn expect_meeting<L: Ledger, R: Abort + Threads + Sync>(
    blank: Blank,
    rt: &R,
    alloc: Global,
    gate: &Meeting,
) -> Result<(), Fail>
    requires name { blank.name ≡ L.name }
    requires parts { blank.parts ≡ L.parts }
    requires some { 0 < L.parts }
{
    let mut steps = Steps::<L>::new(blank);
    let a = tensor(alloc, BOSON, CHAIN, 0, ONES)?;
    let shared = &[(1, 0)];
    expect_pair(rt, alloc, &a, &a, shared)?;
    match contract(rt, alloc, &a, &a, shared, false, 2, gate, &mut steps) {
        Ok(result) => assert!(rt; are_blocks(result.blocks(), ONES)),
        Err(_) => panic!(rt; "refused"),
    }
    Ok(())
}

#[test]
fn a_second_worker_draws_beside_the_first(rt: HostRuntime) -> Result<(), Fail> {
    for held in [0, 1] {
        let gate = Meeting::new(held);
        expect_meeting::<Brand, _>(Blank::new(1), &rt, rt.alloc(), &gate)?;
        assert!(rt; gate.lost.load(Ordering::SeqCst) == 0);
    }
    Ok(())
}

// Whether the blocks are those of the first tasks, in their order, that rows list.
fn are_first(rt: &impl Abort, done: Vec<(u64, Block)>, rows: &[BlockRow]) {
    assert_eq!(rt; done.len(), rows.len());
    let mut number = 0u64;
    for (task, block) in done {
        assert_eq!(rt; task, number);
        let row = rows.get(number as usize..).unwrap_or(&[]);
        assert!(rt; are_blocks(&[block], row.get(..1).unwrap_or(&[])));
        number = number.wrapping_add(1);
    }
}

// A call of `work` on all tasks of a chain and the diagonal of twos: how many steps at most, the blocks of the first tasks,
// the least task that is noted, and the next one of the board.
fn expect_work<L: Ledger, R: Abort>(
    blank: Blank,
    rt: &R,
    alloc: Global,
    first: &[BlockRow],
    rows: &[BlockRow],
    end: (Option<u64>, u64),
) -> Result<(), Fail>
    requires name { blank.name ≡ L.name }
    requires parts { blank.parts ≡ L.parts }
    requires some { 0 < L.parts }
{
    let mut steps = Steps::<L>::new(blank);
    let a = tensor(alloc, BOSON, CHAIN, 0, first)?;
    let b = tensor(alloc, BOSON, CHAIN, 0, TWOS)?;
    let shared = &[(1, 0)];
    expect_pair(rt, alloc, &a, &b, shared)?;
    let tasks = pairs(alloc, &a, &b, shared)?;
    assert!(rt; tasks.len() <= 3);
    let (board, seat) = Board::new(alloc, tasks.len() as u64, 1)?;
    let (seat, number, done) = work(
        alloc, &board, seat, &a, &b, shared, false, &tasks, &OpenGate, &mut steps,
    );
    let outcome = board.finish(seat);
    assert!(rt; number <= 3 && (outcome.least, outcome.next) == end);
    are_first(rt, done?, rows);
    Ok(())
}

#[test]
fn one_worker_draws_every_task(rt: HostRuntime) -> Result<(), Fail> {
    let alloc = rt.alloc();
    expect_work::<Brand, _>(Blank::new(1), &rt, alloc, ONES, TWOS, (None, 4))?;
    let two: &[BlockRow] = &[(&[0, 0], &[2])];
    expect_work::<Brand, _>(Blank::new(1), &rt, alloc, LARGE, two, (Some(1), 4))?;
    Ok(())
}
