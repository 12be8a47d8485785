//! That each document comes to one outcome at most.
ghost use Rattle.std.specs.Prelude.{◌≡◌, ℕ, List};
ghost use Rattle.qn_words.specs.declared.words.Job.{Job};
ghost use Rattle.qn_cli.specs.Outcomes.{Outcome};
ghost use Rattle.qn_cli.specs.Jobs.{ComesTo};

use qn_mps::laws::{same_expect_law, same_overlap_law};

/// What a job comes to on the bytes of a document is one outcome at most.
#[tactic(auto, using(crate::proofs::Outcomes::one_outcome))]
pub fn one_outcome()
    ensures { (job : Job) (bytes : List ℕ) (o p : Outcome) → ComesTo job bytes o → ComesTo job bytes p → o ≡ p }
{
    same_overlap_law();
    same_expect_law();
}
