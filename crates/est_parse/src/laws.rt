// The laws of the one spelling of a tree.
// A function here does nothing at run time: its contract is a theorem, which a caller gets by the call. Rattle proves a
// statement only as the contract of a function, so a law is a function that computes nothing.

ghost use Rattle.est_parse.specs.Laws.{SpellingsAreGrammatical, SpellingsAreRead, TreesAreSpellable};

/// Each tree that the grammar can have, whatever its places, has one spelling: the kinds of its tokens without optional
/// words, without an optional `;`, with `end module`, and with `repeat` for both spellings of that statement. To tokens
/// of these kinds the grammar gives this tree, except for its places; and it gives no tokens to any other tree.
pub fn spellings_are_grammatical()
    ensures spelled { SpellingsAreGrammatical }
    ensures all { TreesAreSpellable }
{}

/// For tokens of these kinds `parse` returns the tree, except for its places, if the tree is nested at most 200 deep
/// and memory does not run out.
pub fn spellings_are_read()
    ensures { SpellingsAreRead }
{}
