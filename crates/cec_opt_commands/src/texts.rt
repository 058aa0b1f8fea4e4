// What a task makes of a text.

ghost use Rattle.std.specs.Prelude.{◌≤◌, Some, length, map};
ghost use Rattle.std.specs.String.{string_bytes};
ghost use Rattle.base_types.specs.SinkChanges.{change};
ghost use Rattle.net_ir.specs.Runs.{netlist_of};
ghost use Rattle.cec_text_io.specs.Writings.{LeavesPieces};
ghost use Rattle.cec_opt_texts.specs.Related.{named_relation};
ghost use Rattle.cec_opt_commands.specs.Answers.{IsAnswer};
ghost use Rattle.cec_opt_commands.specs.NetTexts.{IsWritten};
ghost use Rattle.cec_opt_commands.specs.Outcomes.{LeavesAnswer, SaysOf};
ghost use Rattle.cec_opt_commands.specs.Relations.{given_by};
ghost use Rattle.cec_opt_commands.specs.Views.{plain_task};
ghost use Rattle.cec_opt_commands.specs.Words.{Check, Write};

use crate::counts::text_counts;
use crate::embedded::embed_text;
use crate::outcome::OptOutcome;
use crate::relations::given_by;
use crate::resetting::reset_text;
use crate::words::{Form, Task};
use base_types::{Limits, NoMemory, Sink};
use blif_text::BlifWriter;
use cec_opt_texts::{GivenRelation, optimized_net};
use cec_text_io::{Written, write_net_in_pieces, write_whole};
use csub_text::CWriter;
use net_ir::Net;
use std::alloc::Global;
use vlog_text::VlogWriter;

/// Does a task on a text, where its inputs meet the relations that words begin with. Writes what it makes to `out`, and
/// says how it ended.
pub(crate) fn do_task<O: Sink>(
    alloc: Global,
    task: Task<'_>,
    given: &[String],
    text: &[u8],
    out: &mut O,
) -> OptOutcome
    requires { length text.now ≤ Limits.TEXT_BYTES }
    ensures says { SaysOf (plain_task task.entry) (given_by (map string_bytes given.now)) result text.now }
    ensures out { LeavesAnswer (plain_task task.entry)
        (IsAnswer (plain_task task.entry) text.now (given_by (map string_bytes given.now)))
        (change O.told O.faults out.old out.new) result }
{
    match given_by(alloc, given) {
        Ok(relations) => do_task_under(alloc, task, &relations, text, out),
        Err(NoMemory) => OptOutcome::NoMemory,
    }
}

// The same with these relations.
fn do_task_under<O: Sink>(
    alloc: Global,
    task: Task<'_>,
    given: &[GivenRelation<'_>],
    text: &[u8],
    out: &mut O,
) -> OptOutcome
    requires { length text.now ≤ Limits.TEXT_BYTES }
    ensures says { SaysOf (plain_task task.entry) (map named_relation given.now) result text.now }
    ensures out { LeavesAnswer (plain_task task.entry)
        (IsAnswer (plain_task task.entry) text.now (map named_relation given.now))
        (change O.told O.faults out.old out.new) result }
{
    match task {
        Task::Write(form) => write_optimized(alloc, form, given, text, out),
        Task::Embed(component, layout) => embed_text(alloc, component, layout, given, text, out),
        Task::Reset(options, coding) => reset_text(alloc, options, coding, given, text, out),
        Task::Check => write_counts(alloc, given, text, out),
    }
}

// Writes the optimized circuit of a text, in a form.
fn write_optimized<O: Sink>(
    alloc: Global,
    form: Form,
    given: &[GivenRelation<'_>],
    text: &[u8],
    out: &mut O,
) -> OptOutcome
    requires { length text.now ≤ Limits.TEXT_BYTES }
    ensures says { SaysOf (Write form) (map named_relation given.now) result text.now }
    ensures out { LeavesAnswer (Write form) (IsAnswer (Write form) text.now (map named_relation given.now))
        (change O.told O.faults out.old out.new) result }
{
    match optimized_net(alloc, text, given) {
        Ok(net) => OptOutcome::from(write_net(alloc, form, &net, out)),
        Err(stop) => OptOutcome::from(stop),
    }
}

// Writes the counts of a text.
fn write_counts<O: Sink>(
    alloc: Global,
    given: &[GivenRelation<'_>],
    text: &[u8],
    out: &mut O,
) -> OptOutcome
    requires { length text.now ≤ Limits.TEXT_BYTES }
    ensures says { SaysOf Check (map named_relation given.now) result text.now }
    ensures out { LeavesAnswer Check (IsAnswer Check text.now (map named_relation given.now))
        (change O.told O.faults out.old out.new) result }
{
    match text_counts(alloc, text, given) {
        Ok(lines) => OptOutcome::from(write_whole(&lines, out)),
        Err(stop) => OptOutcome::from(stop),
    }
}

/// Writes the text of a netlist in a form, piece by piece.
pub(crate) fn write_net<O: Sink>(alloc: Global, form: Form, net: &Net, out: &mut O) -> Written
    ensures { LeavesPieces (λ text. IsWritten form text (netlist_of net.now))
        (change O.told O.faults out.old out.new) (Some result) }
{
    match form {
        Form::Blif => write_net_in_pieces::<BlifWriter, O>(alloc, net, out),
        Form::C => write_net_in_pieces::<CWriter, O>(alloc, net, out),
        Form::Verilog => write_net_in_pieces::<VlogWriter, O>(alloc, net, out),
    }
}
