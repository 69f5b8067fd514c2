//! The laws by which a clause is tried, as the clauses of one call.

ghost use Rattle.st_il.specs.declared.definition.Il.{Il};
ghost use Rattle.st_semantics.specs.Laws.{CallsAreSingle};
ghost use Rattle.st_eval.specs.Steps.{LawOfArguments, LawOfNext, LawOfFailure, LawOfDeepness};
ghost use Rattle.st_eval.specs.Steps.{LawOfResults, LawOfTests, LawOfEquations, LawOfSides};
ghost use Rattle.st_eval.specs.Elements.{LawOfCounts, LawOfElements, LawOfGathering, LawOfLists};
ghost use Rattle.st_eval.specs.Elements.{LawOfGathered};
ghost use Rattle.st_eval.specs.CanBeMet.{LawOfMeeting};

/// A clause is tried from the values of its arguments on. Where they are values of the arguments
/// under no environment, it is passed over. A premise that holds leads to the next one; one that
/// fails lets the clause be passed over; one that meets Deep makes the clause meet Deep; and behind
/// its last premise the clause is chosen. What a condition does is told by its value, and what an
/// equation does by the value of the side that is bound and by what matches the other side. An
/// iterated premise goes over the elements of what is bound, as many as its count says: it does what
/// the inner premise does at the first element at which that does not hold, and where it holds at
/// all of them it binds the lists or options of what they bind, or meets Deep where one is too high.
/// And a premise that keeps the rules can be met at its position.
pub fn steps_of_clauses()
    ensures arguments { (il : Il) → LawOfArguments il }
    ensures next { (il : Il) → LawOfNext il }
    ensures failure { (il : Il) → CallsAreSingle il → LawOfFailure il }
    ensures deepness { (il : Il) → LawOfDeepness il }
    ensures results { (il : Il) → LawOfResults il }
    ensures tests { (il : Il) → CallsAreSingle il → LawOfTests il }
    ensures equations { (il : Il) → CallsAreSingle il → LawOfEquations il }
    ensures sides { (il : Il) → CallsAreSingle il → LawOfSides il }
    ensures counts { (il : Il) → CallsAreSingle il → LawOfCounts il }
    ensures elements { (il : Il) → CallsAreSingle il → LawOfElements il }
    ensures gathering { (il : Il) → CallsAreSingle il → LawOfGathering il }
    ensures lists { (il : Il) → CallsAreSingle il → LawOfLists il }
    ensures gathered { (il : Il) → CallsAreSingle il → LawOfGathered il }
    ensures meeting { (il : Il) → CallsAreSingle il → LawOfMeeting il }
{}
