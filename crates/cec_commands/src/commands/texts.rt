// The commands on texts, by their form: the one place that tells the languages apart.

ghost use Rattle.std.specs.Prelude.{◌≡◌};
ghost use Rattle.base_types.specs.SinkChanges.{change};
ghost use Rattle.cec_commands.specs.TextTasks.{CountsTask, FitsTask, LeavesTask, LongTaskTrace, SaysOfTask};

mod executing;
mod running;
mod writing;

use crate::commands::texts::executing::exec_in;
use crate::commands::texts::running::run_in;
use crate::commands::texts::writing::write_in;
use crate::jobs::TextTask;
use crate::outcome::Outcome;
use crate::targets::{GuardedTarget, NetTarget, Target};
use base_types::{Files, Sink};
use blif_run::BlifTexts;
use blif_text::BlifWriter;
use cec_compile::TextForm;
use csub_run::CTexts;
use csub_text::CWriter;
use std::alloc::Global;
use vlog_run::VerilogTexts;
use vlog_text::VlogWriter;

/// Does a task on texts of a form, where its first file was read, and says how it ended.
pub(crate) fn do_in_form<F: Files, O: Sink>(
    alloc: Global,
    form: TextForm,
    task: TextTask<'_>,
    bytes: &[u8],
    files: &mut F,
    out: &mut O,
) -> Outcome
    requires { FitsTask task bytes.now }
    ensures agrees { SaysOfTask form task.entry result bytes.now }
    ensures long_trace { LongTaskTrace (F.content files.old) task.entry result }
    ensures files_counted { CountsTask task.entry result
        (F.faults files.old) (F.faults files.new) (F.last_failed files.old) (F.last_failed files.new) }
    ensures files_stay { F.content files.new ≡ F.content files.old }
    ensures out { LeavesTask form task.entry (F.content files.old) bytes.now
        (change O.told O.faults out.old out.new) result }
{
    match form {
        TextForm::Blif | TextForm::EncodedBlif => {
            do_in::<NetTarget<BlifWriter, BlifTexts>, F, O>(alloc, form, task, bytes, files, out)
        }
        TextForm::C => {
            do_in::<NetTarget<CWriter, CTexts>, F, O>(alloc, form, task, bytes, files, out)
        }
        TextForm::Guarded => do_in::<GuardedTarget, F, O>(alloc, form, task, bytes, files, out),
        TextForm::Verilog => {
            do_in::<NetTarget<VlogWriter, VerilogTexts>, F, O>(alloc, form, task, bytes, files, out)
        }
    }
}

// Does a task on texts of a form in their language.
fn do_in<T: Target, F: Files, O: Sink>(
    alloc: Global,
    form: TextForm,
    task: TextTask<'_>,
    bytes: &[u8],
    files: &mut F,
    out: &mut O,
) -> Outcome
    requires fits { FitsTask task bytes.now }
    requires form { T.serves form }
    ensures agrees { SaysOfTask form task.entry result bytes.now }
    ensures long_trace { LongTaskTrace (F.content files.old) task.entry result }
    ensures files_counted { CountsTask task.entry result
        (F.faults files.old) (F.faults files.new) (F.last_failed files.old) (F.last_failed files.new) }
    ensures files_stay { F.content files.new ≡ F.content files.old }
    ensures out { LeavesTask form task.entry (F.content files.old) bytes.now
        (change O.told O.faults out.old out.new) result }
{
    match task {
        TextTask::Write(job) => write_in::<T, O>(alloc, form, job, bytes, out),
        TextTask::Run(job, trace) => run_in::<T, F, O>(alloc, form, job, bytes, trace, files, out),
        TextTask::Exec(trace) => exec_in::<T, F, O>(alloc, form, bytes, trace, files, out),
    }
}
