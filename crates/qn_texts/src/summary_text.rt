//! The text of a value with its costs.

ghost use Rattle.std.specs.Prelude.{◌≡◌, IfOk, OnOk};
ghost use Rattle.qn_json.specs.Appended.{Appends};
ghost use Rattle.qn_texts.specs.SummaryTexts.{SummaryValue, summary_data, summary_text};

use json::Writer;
use qn_gauss::Gauss;
use qn_parts::parts::{finished, write_count, write_entry};
use std::alloc::{AllocError, Global};
use std::marker::Model;

/// What came out of a network that was evaluated: how many sites it has, its value, and how many
/// steps were taken at which cost.
#[derive(Debug, Drop)]
pub struct Summary {
    pub sites: u32,
    pub scalar: Gauss,
    pub steps: u32,
    /// How many multiplications the steps take at most.
    pub cost: u64,
}

impl Model for Summary {
    ghost use Rattle.qn_texts.specs.SummaryTexts.{SummaryValue};

    ghost Value = { SummaryValue };

    ghost view = { λ s. record { sites = s.sites; scalar = s.scalar; steps = s.steps; cost = s.cost } };
}

fn write_parts(out: &mut Writer, summary: &Summary) -> Result<(), AllocError>
    ensures { OnOk result (Appends (summary_data summary.now) out.old out.new) }
{
    out.begin_object()?;
    out.key("cost")?;
    write_count(out, summary.cost)?;
    out.key("scalar")?;
    write_entry(out, summary.scalar)?;
    out.key("sites")?;
    write_count(out, u64::from(summary.sites))?;
    out.key("steps")?;
    write_count(out, u64::from(summary.steps))?;
    out.end_object()
}

/// The text of a summary: one line of compact JSON with its newline.
///
/// The only error is want of memory.
pub fn write_summary(alloc: Global, summary: &Summary) -> Result<Vec<u8>, AllocError>
    ensures { IfOk result (λ b. b.items ≡ summary_text summary.now) }
{
    let mut out = Writer::new(Vec::new(alloc));
    write_parts(&mut out, summary)?;
    let text = finished(out)?;
    Ok(text)
}
