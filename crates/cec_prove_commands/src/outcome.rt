// How a command ended.

ghost use Rattle.std.specs.Prelude.{◌≡◌};
ghost use Rattle.cec_prove_commands.specs.Statuses.{fault_status, long_fault, refusal_outcome, refusal_status};
ghost use Rattle.cec_prove_commands.specs.Statuses.{status_of, unread_outcome, written_outcome};

use base_types::FileFault;
use blif_read::BlifFault;
use cec_compile::{Cycle, Limit, Refusal};
use cec_cycles::Stuck;
use cec_text_io::Written;
use cec_words::Which;

/// How a command ended, with the cause of each refusal.
#[derive(Drop)]
pub enum ProveOutcome {
    /// What the program writes about itself was written.
    Told,
    /// The claim holds, or the two sources, or texts, do the same.
    Proved,
    /// The claim does not hold, or the two sources, or texts, do not do the same: the trace was written.
    Refuted,
    /// The survey was written, and each signal is decided.
    Surveyed,
    /// The survey was written, and a signal is undecided.
    PartlySurveyed,
    /// The lines of all points were written, and each point is decided.
    Covered,
    /// The lines of all points were written, and a point is undecided.
    PartlyCovered,
    /// Neither was found. No trace of at most this number of instants was found.
    Undecided(usize),
    /// No outgoing signal has the name.
    NoSignal,
    /// No outgoing signal has the name that is assumed.
    NoAssumed,
    /// The given signals of the two sources, or the inputs of the two texts, differ.
    OtherGiven,
    /// The outgoing signals of the two sources, or the outputs of the two texts, differ.
    OtherOutgoing,
    /// The relations of the two sources differ.
    OtherRelations,
    /// The words have no meaning.
    Usage,
    /// This file, or the source or the text in it, has this fault.
    BadInput(Which, InputFault),
    /// The output was not taken: its count of faults rose.
    WriteFault,
    /// Running out of memory.
    NoMemory,
}

/// What is wrong with a file, or with the source or the text in it.
#[derive(Drop)]
pub enum InputFault {
    /// The file was not read: the count of faults of the files rose, and the name that failed last is that of the file.
    Unread,
    /// The source does not compile, for another cause than a cycle.
    Refused(Refusal),
    /// The source's program is not constructive: the trace was written, and the program has no reaction to its last
    /// event. If the source is the second one of a comparison, the first one is constructive.
    NotConstructive(Stuck),
    /// The dependencies have this cycle, and it was not shown whether the program is constructive. If the source is the
    /// second one of a comparison, the first one is constructive.
    UndecidedCycle(Cycle),
    /// The dependencies have this cycle, and the netlist that shows it would be too large. If the source is the second
    /// one of a comparison, the first one is constructive.
    TooManyNets(Cycle),
    /// The first fault of the text, or that of its circuit. If the text is the second one of a comparison, the first
    /// one has no fault.
    BadText(BlifFault),
    /// The text has more bytes than `Limits::TEXT_BYTES`.
    TooLong,
}

/// The outcome of a writing that ended so, where it is this one when all is written.
pub(crate) fn written_outcome(done: ProveOutcome, written: Written) -> ProveOutcome
    ensures { result ≡ written_outcome done written }
{
    match written {
        Written::Done => done,
        Written::WriteFault => ProveOutcome::WriteFault,
        Written::NoMemory => ProveOutcome::NoMemory,
    }
}

/// The outcome of a source that has no answer.
pub(crate) fn refusal_outcome(which: Which, refusal: Refusal) -> ProveOutcome
    ensures { result ≡ refusal_outcome which refusal }
{
    match refusal {
        Refusal::NoMemory => ProveOutcome::NoMemory,
        others => ProveOutcome::BadInput(which, InputFault::Refused(others)),
    }
}

/// The outcome of a file that was not read, with a text or a source.
pub(crate) fn unread_outcome(which: Which, of_texts: bool, fault: FileFault) -> ProveOutcome
    ensures { result ≡ unread_outcome which of_texts fault }
{
    match fault {
        FileFault::Failed => ProveOutcome::BadInput(which, InputFault::Unread),
        FileFault::TooLong => ProveOutcome::BadInput(which, long_fault(of_texts)),
        FileFault::NoMemory => ProveOutcome::NoMemory,
    }
}

// The fault of a text, or a source, that is too long.
fn long_fault(of_texts: bool) -> InputFault
    ensures { result ≡ long_fault of_texts }
{
    if of_texts {
        InputFault::TooLong
    } else {
        InputFault::Refused(Refusal::Limit(Limit::Source))
    }
}

impl ProveOutcome {
    /// The status that the program ends with. It takes no memory.
    pub fn number(&self) -> u8
        ensures { result ≡ status_of self.now }
    {
        match self {
            ProveOutcome::Told | ProveOutcome::Proved => 0,
            ProveOutcome::Surveyed | ProveOutcome::Covered => 0,
            ProveOutcome::Usage => 2,
            ProveOutcome::BadInput(_, fault) => fault_status(fault),
            ProveOutcome::WriteFault => 9,
            ProveOutcome::NoMemory => 10,
            ProveOutcome::Refuted => 20,
            ProveOutcome::PartlySurveyed | ProveOutcome::PartlyCovered => 21,
            ProveOutcome::Undecided(_) => 21,
            ProveOutcome::NoSignal | ProveOutcome::NoAssumed => 22,
            ProveOutcome::OtherGiven | ProveOutcome::OtherOutgoing | ProveOutcome::OtherRelations =>
                23,
        }
    }
}

// The status after a fault.
fn fault_status(fault: &InputFault) -> u8
    ensures { result ≡ fault_status fault.now }
{
    match fault {
        InputFault::Unread => 3,
        InputFault::Refused(refusal) => refusal_status(refusal),
        InputFault::BadText(_) => 7,
        InputFault::TooLong | InputFault::TooManyNets(_) => 8,
        InputFault::NotConstructive(_) => 12,
        InputFault::UndecidedCycle(_) => 21,
    }
}

// The status of a source that does not compile: that of `cec`.
fn refusal_status(refusal: &Refusal) -> u8
    ensures { result ≡ refusal_status refusal.now }
{
    match refusal {
        Refusal::Static(_) => 4,
        Refusal::Cyclic(_) => 5,
        Refusal::Limit(_) => 8,
        Refusal::NoMemory => 10,
    }
}
