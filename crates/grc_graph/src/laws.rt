// The laws of live instances and of states.
// A function here does nothing at run time: its contract is a theorem, which a caller gets by the call. Rattle proves a
// statement only as the contract of a function, so a law is a function that computes nothing.

ghost use Rattle.grc_graph.specs.InstanceLaws.{InstancesAscend, EnclosingAreLive, LeavesAreResumedPauses};
ghost use Rattle.grc_graph.specs.InstanceLaws.{ResidualHasResumedCodes};

/// Each live instance of a body stands once in its list, and they are in order.
pub fn instances_ascend()
    ensures { InstancesAscend }
{}

/// The instance of each statement around a live instance, as seen from it, is live: so it is of every
/// enclosing parallel, and of the binder of every visible local signal.
pub fn enclosing_instances_are_live()
    ensures { EnclosingAreLive }
{}

/// The leaves of a body's selection tree are the pauses whose resumed instance is live, in order.
pub fn leaves_are_resumed_pauses()
    ensures { LeavesAreResumedPauses }
{}

/// What is left of a body in a state can complete only with codes that the body has when it is resumed.
pub fn residual_has_resumed_codes()
    ensures { ResidualHasResumedCodes }
{}
