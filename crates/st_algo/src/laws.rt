//! The laws of algorithms, as the clauses of one call.

ghost use Rattle.st_algo.specs.Laws.{LawOfRules, LawOfClauses, LawOfLowering};

/// The steps of a rule in an executable order can be taken one after another, each with what is
/// bound by those before it; so can those of a clause that keeps its rules; and so can those of
/// all algorithms to which an internal language is lowered by its modes.
pub fn steps_can_be_taken()
    ensures rules { LawOfRules }
    ensures clauses { LawOfClauses }
    ensures lowered { LawOfLowering }
{}
