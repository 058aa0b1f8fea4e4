// The laws of flattening.
// A function here does nothing at run time: its contract is a theorem, which a caller gets by the call. Rattle proves a
// statement only as the contract of a function, so a law is a function that computes nothing.

ghost use Rattle.est_expand.specs.Laws.{FlatFormsFit, FlatFormsAreNamed, RenamingChangesNamesAlone};

/// The flat form of a program keeps what a flat program keeps.
pub fn flat_forms_fit()
    ensures fit { FlatFormsFit }
    ensures named { FlatFormsAreNamed }
{}

/// Renaming captures nothing: programs that are the same except for the names of formals, local signals and traps have
/// flat forms that are the same except for the names of local signals, or one fault at one place.
pub fn renaming_changes_names_alone()
    ensures { RenamingChangesNamesAlone }
{}
