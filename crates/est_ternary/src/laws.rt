// The laws of the three-valued walk of a term.
// A function here does nothing at run time: its contract is a theorem, which a caller gets by the call. Rattle proves a
// statement only as the contract of a function, so a law is a function that computes nothing.

ghost use Rattle.est_ternary.specs.Laws.{WalksTellPotentials, WalksAreMonotone, SolvedSignalsAreEmitted, SolvedIsLeast};
ghost use Rattle.est_ternary.specs.Laws.{SettledIsSolved, StepsAreKnown, KnownSteps, StepIsTheWalk};

/// The walk of a term shows its potentials:
///
/// - Where the term surely runs, what is present in the walk is what the term must do. What is not absent is what the
///   term can do.
/// - Where it is unknown whether the term runs, nothing is present. What is not absent is what the term may do.
/// - Where the term does not run, all is absent.
pub fn walks_tell_potentials()
    ensures { WalksTellPotentials }
{}

/// The more is known of whether a term runs and of the signals, the more is known of its walk.
pub fn walks_are_monotone()
    ensures { WalksAreMonotone }
{}

/// The outgoing signals, decided one within another, have the statuses that the walk in their environment gives them.
/// Every other environment with this property knows at least as much.
pub fn solved_signals_are_least()
    ensures emitted { SolvedSignalsAreEmitted }
    ensures least { SolvedIsLeast }
{}

/// The outgoing signals are settled exactly where the walk decides each of them.
pub fn settled_signals_are_solved()
    ensures { SettledIsSolved }
{}

/// A term has a step exactly where its walk asks for nothing that is unknown, if no loop of it is instantaneous; and
/// the step emits and completes as the walk says.
pub fn steps_are_known_walks()
    ensures known { StepsAreKnown }
    ensures steps { KnownSteps }
    ensures walked { StepIsTheWalk }
{}
