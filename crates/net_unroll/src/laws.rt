// The laws of evaluations along a schedule. Each call does nothing: its contract is the law.

ghost use Rattle.net_unroll.specs.Laws.{KnownSchedulesSettle, SchedulesStayBelow, TruthsAgree};

/// Whatever the schedule, no more is known along it than in every solution.
pub fn schedules_stay_below()
    ensures { SchedulesStayBelow }
{}

/// Whatever the schedule, the truth values along it are those of each node that is known.
pub fn truths_agree()
    ensures { TruthsAgree }
{}

/// Where a schedule leaves no node unknown, it gives the least solution, and the truth values are those of that.
pub fn known_schedules_settle()
    ensures { KnownSchedulesSettle }
{}
