//! What a rule of one leg means.
ghost use Rattle.qn_lazy.specs.Examples.{AsksOnce, HasThree};
ghost use Rattle.qn_lazy.specs.Meaning.{HasTableLaw, LegRuleLaw, OneAnswerLaw, TableLaw};

/// The function may give one answer only.
pub fn one_answer_law()
    ensures { OneAnswerLaw }
{}

/// It has a table.
pub fn has_table_law()
    ensures { HasTableLaw }
{}

/// Its table is diagonal.
pub fn table_law()
    ensures { TableLaw }
{}

/// Each entry of a tensor is multiplied by the weight of its value.
pub fn leg_rule_law()
    ensures { LegRuleLaw }
{}

/// A leg with three values and a vector with one block: of three entries one is asked.
pub fn worked_asks()
    ensures asks { AsksOnce }
    ensures entries { HasThree }
{}
