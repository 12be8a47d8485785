//! The lines of plans and of summaries.

ghost use Rattle.std.specs.Prelude.{◌≡◌};

use qn_gauss::Gauss;
use qn_plan::{Step, StepKind};
use qn_texts::{Summary, write_plan, write_summary};
use std::alloc::{AllocError, Global};
use std::test::Fail;

fn step_of(kind: StepKind, first: u32, second: u32, labels: Vec<i64>, cost: u64) -> Step
    ensures { result.cost ≡ cost }
{
    Step {
        kind,
        first,
        second,
        labels,
        cost,
    }
}

fn plan_lines(alloc: Global) -> Result<Vec<u8>, AllocError> {
    let one = Vec::from_slice(alloc, &[1])?;
    let five = Vec::from_slice(alloc, &[5])?;
    let two = Vec::from_slice(alloc, &[2, 1024])?;
    let steps = [
        step_of(StepKind::Pair, 1, 3, one, 2),
        step_of(StepKind::Fuse, 1, 2, five, 0),
        step_of(StepKind::Trace, 1, 0, two, 0),
    ];
    write_plan(alloc, &steps)
}

#[test]
fn lines(rt: HostRuntime) -> Result<(), Fail> {
    let alloc = rt.alloc();
    let bytes = plan_lines(alloc)?;
    let text =
        "{\"cost\":2,\"steps\":[{\"cost\":2,\"kind\":\"pair\",\"labels\":[1],\"of\":[1,3]},{\"cost\":0,\"kind\":\"fuse\",\"labels\":[5],\"of\":[1,2]},{\"cost\":0,\"kind\":\"trace\",\"labels\":[2,1024],\"of\":[1]}]}\n";
    assert!(rt; bytes.as_slice() == text.as_bytes());
    let summary = Summary {
        sites: 15,
        scalar: Gauss::ONE.neg(),
        steps: 44,
        cost: 6789,
    };
    let bytes = write_summary(alloc, &summary)?;
    let text = "{\"cost\":6789,\"scalar\":[\"-1\",\"0\"],\"sites\":15,\"steps\":44}\n";
    assert!(rt; bytes.as_slice() == text.as_bytes());
    Ok(())
}
