//! The text of a plan.

ghost use Rattle.std.specs.Prelude.{◌≡◌, ◌≤◌, ◌<◌, ◌^◌, ◌*◌, ◌+◌, IfOk, OnOk, [], ◌∷◌, map, length, codes};
ghost use Rattle.std.specs.List.{All, sum_by};
ghost use Rattle.serde_json.specs.Data.{string};
ghost use Rattle.qn_net.specs.Steps.{Kind};
ghost use Rattle.qn_plan.specs.Planned.{kind_value};
ghost use Rattle.qn_json.specs.Appended.{Appends};
ghost use Rattle.qn_json.specs.Texts.{list_data, count_data};
ghost use Rattle.qn_texts.specs.PlanTexts.{kind_word, numbers_of, step_data, plan_data, plan_text};

use json::Writer;
use qn_parts::parts::{finished, write_count, write_numbers};
use qn_plan::{Step, StepKind};
use std::alloc::{AllocError, Global};

fn write_kind(out: &mut Writer, kind: StepKind) -> Result<(), AllocError>
    ensures { OnOk result (Appends (string (kind_word (kind_value kind))) out.old out.new) }
{
    match kind {
        StepKind::Pair => out.string("pair"),
        StepKind::Trace => out.string("trace"),
        StepKind::Fuse => out.string("fuse"),
    }
}

fn write_one(out: &mut Writer, first: u32) -> Result<(), AllocError>
    ensures { OnOk result (Appends (list_data (map count_data (first ∷ []))) out.old out.new) }
{
    out.begin_array()?;
    write_count(out, u64::from(first))?;
    out.end_array()
}

fn write_two(out: &mut Writer, first: u32, second: u32) -> Result<(), AllocError>
    ensures { OnOk result (Appends (list_data (map count_data (first ∷ second ∷ []))) out.old out.new) }
{
    out.begin_array()?;
    write_count(out, u64::from(first))?;
    write_count(out, u64::from(second))?;
    out.end_array()
}

fn write_tensors(out: &mut Writer, step: &Step) -> Result<(), AllocError>
    ensures { OnOk result (Appends (list_data (map count_data (numbers_of step.now.kind step.now.first step.now.second))) out.old out.new) }
{
    match step.kind {
        StepKind::Trace => write_one(out, step.first),
        _ => write_two(out, step.first, step.second),
    }
}

fn write_step(out: &mut Writer, step: &Step) -> Result<(), AllocError>
    ensures { OnOk result (Appends (step_data step.now) out.old out.new) }
{
    out.begin_object()?;
    out.key("cost")?;
    write_count(out, step.cost)?;
    out.key("kind")?;
    write_kind(out, step.kind)?;
    out.key("labels")?;
    write_numbers(out, &step.labels)?;
    out.key("of")?;
    write_tensors(out, step)?;
    out.end_object()
}

fn write_steps(out: &mut Writer, steps: &[Step]) -> Result<(), AllocError>
    ensures { OnOk result (Appends (list_data (map step_data steps.now)) out.old out.new) }
{
    out.begin_array()?;
    for step in steps {
        write_step(out, step)?;
    }
    out.end_array()
}

/// What all steps cost together.
fn total(steps: &[Step]) -> u64
    requires { sum_by (λ s. s.cost) steps.now < 2 ^ 64 }
    ensures { result ≡ sum_by (λ s. s.cost) steps.now }
{
    let mut total = 0;
    let mut rest = steps;
    while let [step, tail @ ..] = rest {
        total += step.cost;
        rest = tail;
    }
    total
}

fn write_parts(out: &mut Writer, steps: &[Step]) -> Result<(), AllocError>
    requires { sum_by (λ s. s.cost) steps.now < 2 ^ 64 }
    ensures { OnOk result (Appends (plan_data steps.now) out.old out.new) }
{
    out.begin_object()?;
    out.key("cost")?;
    write_count(out, total(steps))?;
    out.key("steps")?;
    write_steps(out, steps)?;
    out.end_object()
}

/// The text of a plan.
///
/// The only error is want of memory.
pub fn write_plan(alloc: Global, steps: &[Step]) -> Result<Vec<u8>, AllocError>
    requires { sum_by (λ s. s.cost) steps.now < 2 ^ 64 }
    ensures { IfOk result (λ b. b.items ≡ plan_text steps.now) }
{
    let mut out = Writer::new(Vec::new(alloc));
    write_parts(&mut out, steps)?;
    let text = finished(out)?;
    Ok(text)
}
