// The laws of generated sources.
// A function here does nothing at run time: its contract is a theorem, which a caller gets by the call. Rattle proves a
// statement only as the contract of a function, so a law is a function that computes nothing.

ghost use Rattle.est_gen_laws.specs.Laws.{GeneratedSourcesHaveEightInputs};

/// A program that a generated source stands for has eight inputs and eight outputs, no signal that is both, and no
/// relation.
pub fn generated_sources_have_eight_inputs()
    ensures interface { GeneratedSourcesHaveEightInputs }
{}
