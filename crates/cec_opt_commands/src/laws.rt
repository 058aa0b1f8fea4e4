// A law of what is refused.
// A function here does nothing at run time: its contract is a theorem, which a caller gets by the call. Rattle proves a
// statement only as the contract of a function, so a law is a function that computes nothing.

ghost use Rattle.cec_opt_commands.specs.Laws.{AcceptedTextsAreDone};

/// What `cec_opt` says of an outcome leaves no other one but `Done` and `NoMemory`, where no count of faults rises and
/// nothing is refused: the words have a meaning, and the text that the file holds keeps its limit and has no fault, or
/// the source compiles.
pub fn accepted_texts_are_done()
    ensures { AcceptedTextsAreDone }
{}
