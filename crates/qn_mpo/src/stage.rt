//! The states of the automaton: what is still to come of a term.
ghost use Rattle.std.specs.Prelude.{◌≡◌, IfOk, MatchOption};
ghost use Rattle.qn_auto.specs.Automaton.{next, stage, to_come};
ghost use Rattle.qn_auto.specs.Automaton.Stage.{not_begun};
ghost use Rattle.qn_auto.specs.LinkOrder.{kind_lower};

use crate::factor::{Factor, after, begin, is_list_before};
use std::alloc::{AllocError, Global};
use std::marker::Model;

/// A state of the automaton: before a term, within one, or after it.
#[derive(Debug, Drop)]
pub(crate) struct Stage {
    begun: bool,
    // the operators still to come; none before a term has begun, and none when it is done
    rest: Vec<Factor>,
}

impl Model for Stage {
    ghost use Rattle.qn_auto.specs.Automaton.{Stage};
    ghost use Rattle.qn_mpo.specs.States.{stage_with};

    ghost Value = { Stage };

    ghost view = { λ s. stage_with s.begun s.rest.items };
}

impl Stage {
    /// The state before a term.
    pub(crate) fn not_begun(alloc: Global) -> Stage
        ensures { result ≡ not_begun }
    {
        Stage {
            begun: false,
            rest: Vec::new(alloc),
        }
    }

    /// What is to come after site `j` of a term that has begun, or done.
    pub(crate) fn next(alloc: Global, j: u32, factors: &[Factor]) -> Result<Stage, AllocError>
        ensures { IfOk result (λ s. s ≡ next j factors.now) }
    {
        Ok(Stage {
            begun: true,
            rest: after(alloc, j, factors)?,
        })
    }

    /// The state of a term at the link right of site `j`.
    pub(crate) fn of_term(alloc: Global, j: u32, factors: &[Factor]) -> Result<Stage, AllocError>
        ensures { IfOk result (λ s. s ≡ stage j factors.now) }
    {
        if j < begin(factors) {
            return Ok(Stage::not_begun(alloc));
        }
        Stage::next(alloc, j, factors)
    }

    /// The operators still to come of a term that has begun; `None` before it has.
    pub(crate) fn begun(&self) -> Option<&[Factor]>
        ensures { MatchOption result (self.now ≡ not_begun) (λ fs. self.now ≡ to_come fs.now) }
    {
        if self.begun { Some(&self.rest) } else { None }
    }

    /// Whether the state comes before another of the same charge: not begun, then the lists, then done.
    pub(crate) fn is_before(&self, other: &Stage) -> bool
        ensures { result ≡ kind_lower self.now other.now }
    {
        let Some(rest) = self.begun() else {
            return other.begun().is_some();
        };
        let Some(others) = other.begun() else {
            return false;
        };
        if rest.is_empty() {
            return false;
        }
        others.is_empty() || is_list_before(rest, others)
    }
}
