//! What holds of every state that the task machine reaches.

ghost use Rattle.qn_board.specs.Laws.{StartsSound, StaysSound, RunsSound, IsDeterministic, DrawsOnce, NextIsBounded, SpentShowsEnd, WholeIsAlone, FinishDecides};
ghost use Rattle.qn_board.specs.Worked.{IsWorked};

/// The laws of the task machine. It has no code.
pub fn machine_laws()
    ensures starts { StartsSound }
    ensures stays { StaysSound }
    ensures runs { RunsSound }
    ensures deterministic { IsDeterministic }
    ensures draws_once { DrawsOnce }
    ensures next { NextIsBounded }
    ensures spent { SpentShowsEnd }
    ensures whole { WholeIsAlone }
    ensures finish { FinishDecides }
    // A list of events that ends as `finish` asks.
    ensures worked { IsWorked }
{}
