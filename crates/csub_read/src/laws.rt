// The laws that tie what is read to what texts mean.
// A function here does nothing at run time: its contract is a theorem, which a caller gets by the call. Rattle proves a
// statement only as the contract of a function, so a law is a function that computes nothing.

ghost use Rattle.csub_read.specs.Laws.{DescribedTextsAreRead, WrittenTextsAreRead};
ghost use Rattle.csub_read.specs.LongestTokens.{TokensAreLongest};

/// Each token of a text is as long as it can be: no longer word or mark begins at its place.
pub fn tokens_are_longest()
    ensures { TokensAreLongest }
{}

/// A text that describes a program describes no other one, and has no fault but its length and out of memory.
pub fn described_texts_are_read()
    ensures { DescribedTextsAreRead }
{}

/// The text that is written of a net is read as the program by which it means the net.
pub fn written_texts_are_read()
    ensures { WrittenTextsAreRead }
{}
