// How a command ended.

ghost use Rattle.std.specs.Prelude.{◌≡◌};
ghost use Rattle.cec_opt_commands.specs.Statuses.{refusal_outcome, refusal_status, source_unread_outcome, status_of};
ghost use Rattle.cec_opt_commands.specs.Statuses.{stop_outcome, unmade_outcome, unread_outcome, written_outcome};
ghost use Rattle.cec_opt_commands.specs.declared.outcome.OptOutcome.TheVariants.{BadComponent, BadModule};

use base_types::{FileFault, Stop};
use blif_read::BlifFault;
use cec_compile::{Cycle, Limit, Refusal};
use cec_cycles::Stuck;
use cec_opt_faults::Unmade;
use cec_text_io::Written;
use csub_embed::EmbedFault;
use vlog_reset::ResetFault;

/// How a command ended, with the cause of each refusal.
#[derive(Debug, Drop)]
pub enum OptOutcome {
    /// All was written.
    Done,
    /// The words have no meaning.
    Usage,
    /// The file was not read: the count of faults of the files rose, and the name that failed last is that of the file.
    FileFault,
    /// The first fault of the text.
    BadText(BlifFault),
    /// The text or the source has a netlist, which has no embedded C text under the name after `--embed`. This is the
    /// first fault of the name and of the signals.
    BadComponent(EmbedFault),
    /// The text or the source has a netlist, which has no Verilog with a reset under the names that are asked for. This
    /// is the first fault of the names.
    BadModule(ResetFault),
    /// The text has more bytes than `Limits::TEXT_BYTES`.
    TooLong,
    /// The source does not compile, for another cause than a cycle.
    Refused(Refusal),
    /// The source's program is not constructive: the trace was written, and the program has no reaction to its last
    /// event.
    NotConstructive(Stuck),
    /// The dependencies have this cycle, and it was not shown whether the program is constructive.
    Undecided(Cycle),
    /// The dependencies have this cycle, and the netlist that shows it would be too large.
    TooManyNets(Cycle),
    /// The output was not taken: its count of faults rose.
    WriteFault,
    /// Running out of memory.
    NoMemory,
}

impl From<Written> for OptOutcome {
    ghost from_gives = { λ written outcome. outcome ≡ written_outcome written };

    fn from(written: Written) -> OptOutcome {
        match written {
            Written::Done => OptOutcome::Done,
            Written::WriteFault => OptOutcome::WriteFault,
            Written::NoMemory => OptOutcome::NoMemory,
        }
    }
}

impl From<Stop<BlifFault>> for OptOutcome {
    ghost from_gives = { λ stop outcome. outcome ≡ stop_outcome stop };

    fn from(stop: Stop<BlifFault>) -> OptOutcome {
        match stop {
            Stop::Fault(fault) => OptOutcome::BadText(fault),
            Stop::NoMemory => OptOutcome::NoMemory,
        }
    }
}

impl From<Stop<Unmade<BlifFault, EmbedFault>>> for OptOutcome {
    ghost from_gives = { λ stop outcome. outcome ≡ unmade_outcome BadComponent stop };

    fn from(stop: Stop<Unmade<BlifFault, EmbedFault>>) -> OptOutcome {
        match stop {
            Stop::Fault(Unmade::NoNet(fault)) => OptOutcome::BadText(fault),
            Stop::Fault(Unmade::NoText(fault)) => OptOutcome::BadComponent(fault),
            Stop::NoMemory => OptOutcome::NoMemory,
        }
    }
}

impl From<Stop<Unmade<BlifFault, ResetFault>>> for OptOutcome {
    ghost from_gives = { λ stop outcome. outcome ≡ unmade_outcome BadModule stop };

    fn from(stop: Stop<Unmade<BlifFault, ResetFault>>) -> OptOutcome {
        match stop {
            Stop::Fault(Unmade::NoNet(fault)) => OptOutcome::BadText(fault),
            Stop::Fault(Unmade::NoText(fault)) => OptOutcome::BadModule(fault),
            Stop::NoMemory => OptOutcome::NoMemory,
        }
    }
}

impl From<FileFault> for OptOutcome {
    ghost from_gives = { λ fault outcome. outcome ≡ unread_outcome fault };

    fn from(fault: FileFault) -> OptOutcome {
        match fault {
            FileFault::Failed => OptOutcome::FileFault,
            FileFault::TooLong => OptOutcome::TooLong,
            FileFault::NoMemory => OptOutcome::NoMemory,
        }
    }
}

impl OptOutcome {
    /// The status that the program ends with. It takes no memory.
    pub fn number(&self) -> u8
        ensures { result ≡ status_of self.now }
    {
        match self {
            OptOutcome::Done => 0,
            OptOutcome::Usage => 2,
            OptOutcome::FileFault => 3,
            OptOutcome::BadText(_) => 7,
            OptOutcome::BadComponent(_) => 14,
            OptOutcome::BadModule(_) => 14,
            OptOutcome::TooLong => 8,
            OptOutcome::Refused(refusal) => refusal_status(refusal),
            OptOutcome::NotConstructive(_) => 12,
            OptOutcome::Undecided(_) => 21,
            OptOutcome::TooManyNets(_) => 8,
            OptOutcome::WriteFault => 9,
            OptOutcome::NoMemory => 10,
        }
    }
}

// The status of a source that does not compile: that of `cec`.
fn refusal_status(refusal: &Refusal) -> u8
    ensures { result ≡ refusal_status refusal.now }
{
    match refusal {
        Refusal::Static(_) => 4,
        Refusal::Cyclic(_) => 5,
        Refusal::Limit(_) => 8,
        Refusal::NoMemory => 10,
    }
}

/// The outcome of a source that does not compile.
pub(crate) fn refusal_outcome(refusal: Refusal) -> OptOutcome
    ensures { result ≡ refusal_outcome refusal }
{
    match refusal {
        Refusal::NoMemory => OptOutcome::NoMemory,
        others => OptOutcome::Refused(others),
    }
}

/// The outcome of a file with a source that was not read.
pub(crate) fn source_unread_outcome(fault: FileFault) -> OptOutcome
    ensures { result ≡ source_unread_outcome fault }
{
    match fault {
        FileFault::Failed => OptOutcome::FileFault,
        FileFault::TooLong => OptOutcome::Refused(Refusal::Limit(Limit::Source)),
        FileFault::NoMemory => OptOutcome::NoMemory,
    }
}
