// The laws of inlining.
// A function here does nothing at run time: its contract is a theorem, which a caller gets by the call. Rattle proves a
// statement only as the contract of a function, so a law is a function that computes nothing.

ghost use Rattle.est_expand_laws.specs.Laws.{InliningIsFlattening, InliningKeepsLimits};

/// Where flattening has no fault, the flat form of a program is that of its main module with the bodies of the modules
/// that it runs in the place of each `run`. Where flattening passes a limit, that of the inlined module passes it too.
pub fn inlining_is_flattening()
    ensures same { InliningIsFlattening }
    ensures limits { InliningKeepsLimits }
{}
