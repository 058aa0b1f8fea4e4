// The laws that tie the tables of potentials, steps and static codes to one another.
// A function here does nothing at run time: its contract is a theorem, which a caller gets by the call. Rattle proves a
// statement only as the contract of a function, so a law is a function that computes nothing.

ghost use Rattle.est_kernel.specs.Laws.{MustGrows, CanShrinks, MayShrinks, MustLiesInCan, CanLiesInMay, MustHasOneCode};
ghost use Rattle.est_kernel.specs.Laws.{MayKeepsStaticCodes, StepIsWhatMustBeDone, StepKeepsStaticCodes};
ghost use Rattle.est_kernel.specs.Laws.{PreorderHasEachStatement, PreorderPlaces, StepKeepsExits, RunPausesOrEnds};
ghost use Rattle.est_kernel.specs.Laws.{RunsWhereEachReacts, RunAnswersEachEvent, PrefixHasPrefixOfAnswers};
ghost use Rattle.est_kernel.specs.Laws.{LeftCompletesAsResumed, TreesAreKernels};

/// Must, and both kinds of Can, are monotone in what is known of the signals: Must grows, and each
/// Can shrinks.
pub fn potentials_are_monotone()
    ensures must_grows { MustGrows }
    ensures can_shrinks { CanShrinks }
    ensures may_shrinks { MayShrinks }
{}

/// Must lies in Can, and Can of a term that must be run lies in Can of one that may be run.
pub fn potentials_nest()
    ensures must_in_can { MustLiesInCan }
    ensures can_in_may { CanLiesInMay }
{}

/// Must has at most one completion code.
pub fn must_has_one_code()
    ensures { MustHasOneCode }
{}

/// Where no loop is instantaneous, what a term can do completes with its static codes.
pub fn static_codes_cover_potentials()
    ensures { MayKeepsStaticCodes }
{}

/// A step, where there is one, emits and completes just as Must says, nothing else can be done, and
/// its code is a static one.
pub fn steps_follow_potentials()
    ensures just { StepIsWhatMustBeDone }
    ensures code { StepKeepsStaticCodes }
{}

/// The statements in preorder are as many as the statements that a statement has.
pub fn preorder_has_each_statement()
    ensures { PreorderHasEachStatement }
{}

/// Each place of preorder has its statement, and after it stand the statement's parts.
pub fn preorder_has_parts_behind()
    ensures { PreorderPlaces }
{}

/// Exits stay in their traps: a step completes with no code further out, and what it leaves keeps the
/// exits in their traps. So a whole program pauses (code 1) or ends (code 0).
pub fn exits_stay_in_traps()
    ensures step { StepKeepsExits }
    ensures run { RunPausesOrEnds }
{}

/// A run has its answers exactly where each of its reactions is there, one answer per event; and the
/// first items of a run have the first of its answers.
pub fn runs_are_reactions()
    ensures reactions { RunsWhereEachReacts }
    ensures events { RunAnswersEachEvent }
    ensures prefixes { PrefixHasPrefixOfAnswers }
{}

/// Each tree of this crate is a kernel statement. What is left of one after one instant or more completes with
/// one of its resumed codes, where no loop is instantaneous.
pub fn residuals_complete_as_resumed()
    ensures trees { TreesAreKernels }
    ensures residuals { LeftCompletesAsResumed }
{}
