// Laws of what is refused, and of what is done.
// A function here does nothing at run time: its contract is a theorem, which a caller gets by the call. Rattle proves a
// statement only as the contract of a function, so a law is a function that computes nothing.

ghost use Rattle.cec_commands.specs.Laws.{AcceptedRequestsAreDone, CompilingSourcesAreNotRefused, StoppingRunsAreTold};

/// A source that compiles has no cause of a refusal: the refusals are complete, except because memory ran out.
pub fn compiling_sources_are_not_refused()
    ensures { CompilingSourcesAreNotRefused }
{}

/// What `cec` says of an outcome leaves no other one but `Done` and `NoMemory` where no count of faults rises and
/// nothing that the files hold is refused: the source has a meaning and no fault, cycle or limit that it passes, the
/// text is one of its form without a combinational cycle, and each instant of the trace is accepted.
pub fn accepted_requests_are_done()
    ensures { AcceptedRequestsAreDone }
{}

/// Where `run --via tri` comes to an instant in which the program is not constructive, and nothing is refused before,
/// `cec` ends with the number of that instant, unless memory runs out or a file or sink fails.
pub fn stopping_runs_are_told()
    ensures { StoppingRunsAreTold }
{}
