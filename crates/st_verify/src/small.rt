//! What the meaning of rules comes to on a small specification.

ghost use Rattle.st_verify.specs.SmallMeaning.{LawOfSmallTrees, LawOfSmallSteps, LawOfSmallVerdicts};
ghost use Rattle.st_verify.specs.SmallMeaning.{LawOfSmallNotes, LawOfSmallModes, LawOfSmallTyping};

/// On a small specification what has a valid tree, and what is derivable, is what one of its rules
/// says, and the verdict on a line is the first rule of derivations that it breaks. What the code
/// notes of a line is what is noted of it; the rules on modes are kept, and those on types.
pub fn small_specifications()
    ensures trees { LawOfSmallTrees }
    ensures steps { LawOfSmallSteps }
    ensures verdicts { LawOfSmallVerdicts }
    ensures notes { LawOfSmallNotes }
    ensures modes { LawOfSmallModes }
    ensures typing { LawOfSmallTyping }
{}
