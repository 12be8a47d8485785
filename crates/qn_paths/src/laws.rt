//! The value of the automaton of an operator sum.

ghost use Rattle.qn_paths.specs.Paths.{AutomatonLaw};
ghost use Rattle.qn_paths.specs.Sums.{SumElementLaw, SumExpectationLaw};

/// The value of the network of the automaton's pieces is the sum of the operator strings.
pub fn automaton_law()
    ensures { AutomatonLaw }
{}

/// The automaton of an operator sum has the matrix elements and the expectations of the sum.
pub fn sum_law()
    ensures elements { SumElementLaw }
    ensures expectations { SumExpectationLaw }
{}
