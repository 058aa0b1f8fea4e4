// The laws of what sources stand for.
// A function here does nothing at run time: its contract is a theorem, which a caller gets by the call. Rattle proves a
// statement only as the contract of a function, so a law is a function that computes nothing.

ghost use Rattle.est_front.specs.Laws.{TextsStandForOneProgram, ExpandedTextsAreWellFormed, ExpandedTextsHaveNames};
ghost use Rattle.est_front.specs.Laws.{StandingTextsAreNotRefused};

/// A text stands for at most one kernel program, for each main module.
pub fn texts_stand_for_one_program()
    ensures { TextsStandForOneProgram }
{}

/// The expansion of a text is a well-formed kernel program, and its names can be written.
pub fn expanded_texts_are_well_formed()
    ensures well_formed { ExpandedTextsAreWellFormed }
    ensures names { ExpandedTextsHaveNames }
{}

/// A text that stands for a kernel program has no cause of a refusal: `analyse` and `front` answer its program, unless
/// memory runs out.
pub fn standing_texts_are_not_refused()
    ensures { StandingTextsAreNotRefused }
{}
