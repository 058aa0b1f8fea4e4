// The law of the token relation.
// A function here does nothing at run time: its contract is a theorem, which a caller gets by the call. Rattle proves a
// statement only as the contract of a function, so a law is a function that computes nothing.

ghost use Rattle.std.specs.Prelude.{◌≡◌, ℕ, List};
ghost use Rattle.est_ast.specs.Lexing.{Lexing, LexesAs};

/// Every text has exactly one lexing: its tokens, or its first fault.
pub fn every_text_lexes_once()
    ensures some { (text : List ℕ) → (lexing : Lexing) × LexesAs text lexing }
    ensures at_most_one { (text : List ℕ) (one other : Lexing)
        → LexesAs text one → LexesAs text other → one ≡ other }
{}
