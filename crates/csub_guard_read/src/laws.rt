// The law that ties what is read to what texts mean.
// A function here does nothing at run time: its contract is a theorem, which a caller gets by the call. Rattle proves a
// statement only as the contract of a function, so a law is a function that computes nothing.

ghost use Rattle.csub_guard_read.specs.Laws.{DescribedTextsAreRead};

/// A text that describes a program describes no other one, and has no fault but its length.
pub fn described_texts_are_read()
    ensures { DescribedTextsAreRead }
{}
