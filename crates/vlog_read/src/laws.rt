// The laws that tie what is read to what texts mean.
// A function here does nothing at run time: its contract is a theorem, which a caller gets by the call. Rattle proves a
// statement only as the contract of a function, so a law is a function that computes nothing.

ghost use Rattle.vlog_read.specs.Laws.{DescribedTextsAreRead, WrittenTextsAreRead};

/// A text that describes a module describes no other one, and has no fault but its length.
pub fn described_texts_are_read()
    ensures { DescribedTextsAreRead }
{}

/// The text that is written of a net is read as the module by which it means the net.
pub fn written_texts_are_read()
    ensures { WrittenTextsAreRead }
{}
