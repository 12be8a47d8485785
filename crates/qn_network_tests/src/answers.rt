//! Plans, and what a network answers that has a value, a step that is too wide, or a sum that passes.

ghost use Rattle.std.specs.Prelude.{◌≡◌, ◌<◌};

use qn_doc::{AnyNet, read_network};
use qn_engine::{EngineFault, evaluate};
use qn_gauss::{Gauss, Steps};
use qn_net::Network;
use qn_pair::OpenGate;
use qn_plan::{PlanFault, Step, StepKind, plan};
use std::alloc::{AllocError, Global};
use std::marker::Brand;
use std::process::Abort;
use std::sync::ledger::{Blank, Ledger};
use std::test::Fail;
use std::thread::Threads;

// Two vectors, worth 11; a step of each kind, worth (1 + 2) 1 + (3 + 4) 2 = 17; two products, of which the second is too
// wide; a sum that passes.
const PAIRED: &str =
    "{\"group\":[],\"tensors\":[{\"legs\":[{\"dir\":\"out\",\"sectors\":[[[],2]]}],\"flux\":[],\"blocks\":[[[0],[1,2]]],\"labels\":[1]},{\"legs\":[{\"dir\":\"in\",\"sectors\":[[[],2]]}],\"flux\":[],\"blocks\":[[[0],[3,4]]],\"labels\":[1]}]}";

const FUSED_AND_TRACED: &str =
    "{\"group\":[],\"tensors\":[{\"legs\":[{\"dir\":\"out\",\"sectors\":[[[],2]]},{\"dir\":\"in\",\"sectors\":[[[],2]]},{\"dir\":\"out\",\"sectors\":[[[],2]]}],\"flux\":[],\"blocks\":[[[0,0,0],[1,9,9,2,3,9,9,4]]],\"labels\":[1,2,2]},{\"combine\":{\"dir\":\"out\",\"legs\":[{\"dir\":\"out\",\"sectors\":[[[],2]]}],\"mode\":\"fuse\"},\"labels\":[3,1]},{\"legs\":[{\"dir\":\"in\",\"sectors\":[[[],2]]}],\"flux\":[],\"blocks\":[[[0],[1,2]]],\"labels\":[3]}]}";

const TOO_WIDE: &str =
    "{\"group\":[],\"tensors\":[{\"legs\":[{\"dir\":\"out\",\"sectors\":[[[],1]]}],\"flux\":[],\"blocks\":[],\"labels\":[-1]},{\"legs\":[{\"dir\":\"out\",\"sectors\":[[[],4096]]}],\"flux\":[],\"blocks\":[],\"labels\":[-2]},{\"legs\":[{\"dir\":\"out\",\"sectors\":[[[],2048]]}],\"flux\":[],\"blocks\":[],\"labels\":[-3]}]}";

const PASSING: &str =
    "{\"group\":[],\"tensors\":[{\"legs\":[{\"dir\":\"out\",\"sectors\":[[[],2]]}],\"flux\":[],\"blocks\":[[[0],[1,\"85070591730234615865843651857942052864\"]]],\"labels\":[-1]},{\"legs\":[],\"flux\":[],\"blocks\":[[[],[2]]],\"labels\":[]}]}";

// A step: its kind, the numbers of its tensors, its labels, and its cost.
type Wanted<'a> = (StepKind, u32, u32, &'a [i64], u64);

// What a network answers: its steps and its value, a number; or a step that is too wide; or a place that passes.
#[derive(Clone, Copy)]
enum Answer<'a> {
    Value(&'a [Wanted<'a>], i128),
    Wide(u32),
    Passed(u32, &'a [u32], u64),
}

const ROWS: &[(&str, Answer<'static>)] = &[
    (
        PAIRED,
        Answer::Value(&[(StepKind::Pair, 1, 2, &[1], 2)], 11),
    ),
    (
        FUSED_AND_TRACED,
        Answer::Value(
            &[
                (StepKind::Fuse, 1, 2, &[1], 0),
                (StepKind::Trace, 1, 0, &[2], 0),
                (StepKind::Pair, 1, 3, &[3], 2),
            ],
            17,
        ),
    ),
    (TOO_WIDE, Answer::Wide(2)),
    (PASSING, Answer::Passed(1, &[0], 1)),
];

fn expect_step(rt: &impl Abort, step: &Step, wanted: Wanted) {
    let (kind, first, second, labels, cost) = wanted;
    assert!(rt; step.kind == kind);
    assert!(rt; (step.first, step.second, step.cost) == (first, second, cost));
    assert_eq!(rt; step.labels.as_slice(), labels);
}

fn expect_plan(
    rt: &impl Abort,
    alloc: Global,
    net: &Network<0>,
    answer: Answer,
) -> Result<(), AllocError> {
    match (plan(alloc, net), answer) {
        (Ok(steps), Answer::Value(wanted, _)) => {
            assert_eq!(rt; steps.len(), wanted.len());
            for (step, wanted) in steps.iter().zip(wanted.iter()) {
                expect_step(rt, step, *wanted);
            }
        }
        (Err(PlanFault::StepWide { step }), Answer::Wide(wanted)) => assert_eq!(rt; step, wanted),
        (Ok(_), Answer::Passed(..)) => {}
        _ => panic!(rt; "another plan"),
    }
    Ok(())
}

fn expect_answer<L: Ledger, R: Abort + Threads + Sync>(
    rt: &R,
    alloc: Global,
    net: &Network<0>,
    answer: Answer,
    steps: &mut Steps<L>,
) {
    match (evaluate(rt, alloc, net, 1, &OpenGate, steps), answer) {
        (Ok(tensor), Answer::Value(_, wanted)) => {
            for block in tensor.blocks() {
                assert!(rt; block.entries().len() == 1);
                for entry in block.entries() {
                    assert_eq!(rt; Some(*entry), Gauss::new(wanted, 0));
                }
            }
            assert_eq!(rt; tensor.blocks().len(), 1);
        }
        (Err(EngineFault::Wide { step }), Answer::Wide(wanted)) => assert_eq!(rt; step, wanted),
        (Err(EngineFault::Passed { step, at, offset }), Answer::Passed(number, tuple, place)) => {
            assert!(rt; (step, offset) == (number, place));
            assert_eq!(rt; at.as_slice(), tuple);
        }
        _ => panic!(rt; "another answer"),
    }
}

fn expect_all<L: Ledger, R: Abort + Threads + Sync>(
    blank: Blank,
    rt: &R,
    alloc: Global,
) -> Result<(), AllocError>
    requires name { blank.name ≡ L.name }
    requires parts { blank.parts ≡ L.parts }
    requires some { 0 < L.parts }
{
    let mut steps = Steps::<L>::new(blank);
    for (text, answer) in ROWS {
        match read_network(alloc, text.as_bytes()) {
            Ok(AnyNet::N0(net)) => {
                expect_plan(rt, alloc, &net, *answer)?;
                expect_answer(rt, alloc, &net, *answer, &mut steps);
            }
            _ => panic!(rt; "no network"),
        }
    }
    Ok(())
}

#[test]
fn answers(rt: HostRuntime) -> Result<(), Fail> {
    expect_all::<Brand, _>(Blank::new(1), &rt, rt.alloc())?;
    Ok(())
}
