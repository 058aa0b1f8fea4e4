// The languages that sources are compiled to, as the commands know them.

use crate::text_faults::TextFault;
use base_types::{Limits, Sink, Stop};
use cec_compile::{
    GuardedMade, Made, Refusal, TextForm, guarded_made, source_made, write_guarded_text,
    write_source_text,
};
use cec_text_io::Written;
use csub_guard_run::{GuardedRunner, read_machine, run_counted, run_written_counted};
use grc_order::Picker;
use net_ir::Net;
use net_writer::{NetText, write_net};
use run_over_traces::{Interface, Language, RunFault, run_text, run_written};
use std::alloc::Global;
use std::marker::PhantomData;

/// A language that sources are compiled to: how texts of it are written of a source, and how they are run.
///
/// `serves` says that it is the language of a form, by which its clauses speak, and `is_of` that a machine is that of
/// a text. A language whose texts are written of a netlist alone is a `NetTarget` of its writer and its texts.
pub(crate) trait Target {
    ghost use Rattle.std.specs.Prelude.{◌≡◌, ◌<◌, ◌≤◌, ◌^◌, ℕ, List, [], Some, length, map, IfOk, IfErr};
    ghost use Rattle.std.specs.Prelude.{MatchResult, option_map};
    ghost use Rattle.base_types.specs.Relations.{relation_of};
    ghost use Rattle.base_types.specs.SinkChanges.{change};
    ghost use Rattle.base_types.specs.Stops.{IfFault};
    ghost use Rattle.base_types.specs.Writing.{Appends};
    ghost use Rattle.net_ir.specs.Runs.{netlist_of};
    ghost use Rattle.cec_text_io.specs.Writings.{LeavesPieces};
    ghost use Rattle.run_trace_io.specs.Answers.{beginning};
    ghost use Rattle.cec_compile.specs.GuardedTexts.{IsGuardedOf};
    ghost use Rattle.cec_compile.specs.MadeNets.{IsMade};
    ghost use Rattle.cec_compile.specs.Refusals.{IsRefused};
    ghost use Rattle.cec_compile.specs.SourceTexts.{IsSourceText};
    ghost use Rattle.cec_compile.specs.Sources.{IsSource};
    ghost use Rattle.cec_compile.specs.declared.forms.TextForm.{TextForm};
    ghost use Rattle.cec_compile.specs.declared.forms.TextForm.TheVariants.{Guarded};
    ghost use Rattle.cec_commands.specs.ExecTexts.{TextHasFault, IsRunnable, RunsBy};
    ghost use Rattle.cec_commands.specs.NetTexts.{IsWritten, RunsText};
    ghost use Rattle.cec_commands.specs.Targets.{language_of};

    /// The machines that run its texts.
    type Machine: Drop;

    ghost serves: { TextForm → Type 0 };

    ghost is_of: { Self.Machine → List ℕ → Type 0 };

    /// Compiles a source and writes its text of a form to `out`, piece by piece, and says how the writing ended. The
    /// errors are those of `blif_of`; nothing is written then.
    fn write<P: Picker, O: Sink>(
        alloc: Global,
        form: TextForm,
        source: &[u8],
        main: Option<&[u8]>,
        picker: &mut P,
        out: &mut O,
    ) -> Result<Written, Refusal>
        requires short { length source.now ≤ Limits.SOURCE_BYTES }
        requires form { serves form }
        ensures compiles { IfOk result (λ _. IsSource (option_map (λ m. m.now) main.entry) source.now) }
        ensures out { MatchResult result
            (λ ended. LeavesPieces (IsSourceText form (option_map (λ m. m.now) main.entry) source.now)
            (change O.told O.faults out.old out.new) (Some ended))
            (λ _. Appends (O.told out.old) (O.told out.new) (O.faults out.old) (O.faults out.new) []) }
        ensures refuses { IfErr result (IsRefused source.now (option_map (λ m. m.now) main.entry)) };

    /// What a source's text of a form is written of, and the text. The errors are those of `blif_of`.
    fn make<P: Picker>(
        alloc: Global,
        form: TextForm,
        source: &[u8],
        main: Option<&[u8]>,
        picker: &mut P,
    ) -> Result<(Made, Vec<u8>), Refusal>
        requires short { length source.now ≤ Limits.SOURCE_BYTES }
        requires form { serves form }
        ensures made { IfOk result (λ made. IsMade form source.now (option_map (λ m. m.now) main.entry) made.0) }
        ensures text { IfOk result (λ made. IsWritten form made.1.items (netlist_of made.0.net)) }
        ensures guarded { IfOk result (λ made. form ≡ Guarded
            → IsGuardedOf source.now (option_map (λ m. m.now) main.entry) made.1.items) }
        ensures refuses { IfErr result (IsRefused source.now (option_map (λ m. m.now) main.entry)) };

    /// Reads the text of a form that was written of a net, and runs it over a trace, with these names in its lines.
    /// Its errors are the first fault of the trace, a write that failed, and out of memory.
    fn run_made<O: Sink>(
        alloc: Global,
        form: TextForm,
        net: &Net,
        text: &[u8],
        interface: Interface,
        trace: Vec<u8>,
        out: &mut O,
    ) -> Result<(), RunFault>
        requires form { serves form }
        requires written { IsWritten form text.now (netlist_of net.now) }
        requires fits { length text.now ≤ Limits.TEXT_BYTES }
        requires given { interface.given.items ≡ net.now.inputs.items }
        requires outgoing { length interface.outgoing.items ≡ length net.now.outputs.items }
        requires countable { length interface.relations.items < 2 ^ 32 }
        requires short { length trace.items ≤ 2 ^ 24 }
        ensures { RunsText form text.now interface.outgoing.items (netlist_of net.now)
            (beginning trace.items interface.given.items (map relation_of interface.relations.items))
            (change O.told O.faults out.old out.new) result };

    /// The machine of a text of a form, at its start. Its errors are the first fault of the text, and out of memory.
    fn read(alloc: Global, form: TextForm, text: &[u8]) -> Result<Self::Machine, Stop<TextFault>>
        requires form { serves form }
        requires fits { length text.now ≤ Limits.TEXT_BYTES }
        ensures reads { IfOk result (λ machine. is_of machine text.now) }
        ensures runs { IfOk result (λ _. IsRunnable (language_of form) text.now) }
        ensures fault { IfFault result (TextHasFault (language_of form) text.now) };

    /// Runs a text of a form that was read over a trace, by its own interface. Its errors are those of `run_made`.
    fn run_read<O: Sink>(
        alloc: Global,
        form: TextForm,
        machine: Self::Machine,
        trace: Vec<u8>,
        out: &mut O,
    ) -> Result<(), RunFault>
        requires form { serves form }
        requires read { (text : List ℕ) × is_of machine text }
        requires short { length trace.items ≤ 2 ^ 24 }
        ensures { (text : List ℕ) → is_of machine text
            → RunsBy (language_of form) text trace.items (change O.told O.faults out.old out.new) result };
}

/// A language whose texts are written of a netlist alone: by its writer, and run as its texts are.
pub(crate) struct NetTarget<W, L> {
    writer: PhantomData<W>,
    texts: PhantomData<L>,
}

impl<W: NetText + Drop, L: Language> Target for NetTarget<W, L>
where
    TextFault: From<L::Fault>,
{
    ghost use Rattle.cec_text_io.specs.NetWriting.{IsWrittenIn};
    ghost use Rattle.run_over_traces.specs.Languages.{RunsIn};
    ghost use Rattle.cec_commands.specs.ExecTexts.{IsFaultIn, IsTextIn};
    ghost use Rattle.cec_commands.specs.Targets.{IsReadIn, RunsForm, WritesForm};

    type Machine = L::Machine;

    ghost serves = { λ form. WritesForm (IsWrittenIn W.written W.means) form
        × RunsForm (IsTextIn L.reads) (IsFaultIn L.faulty ⟦<TextFault as From<L::Fault>>⟧.from_gives)
        (RunsIn L.reads L.given L.outgoing L.shows) L.means form };

    ghost is_of = { IsReadIn L.reads L.plain L.Machine.shows L.shows };

    fn write<P: Picker, O: Sink>(
        alloc: Global,
        form: TextForm,
        source: &[u8],
        main: Option<&[u8]>,
        picker: &mut P,
        out: &mut O,
    ) -> Result<Written, Refusal> {
        write_source_text::<W, P, O>(alloc, form, source, main, picker, out)
    }

    fn make<P: Picker>(
        alloc: Global,
        form: TextForm,
        source: &[u8],
        main: Option<&[u8]>,
        picker: &mut P,
    ) -> Result<(Made, Vec<u8>), Refusal> {
        let made = source_made(alloc, form, source, main, picker)?;
        let text = write_net::<W>(alloc, &made.net)?;
        Ok((made, text))
    }

    fn run_made<O: Sink>(
        alloc: Global,
        _form: TextForm,
        net: &Net,
        text: &[u8],
        interface: Interface,
        trace: Vec<u8>,
        out: &mut O,
    ) -> Result<(), RunFault> {
        run_written::<L, O>(alloc, net, text, interface, trace, out)
    }

    fn read(alloc: Global, _form: TextForm, text: &[u8]) -> Result<L::Machine, Stop<TextFault>> {
        match L::read(alloc, text) {
            Ok(machine) => Ok(machine),
            Err(Stop::Fault(fault)) => Err(Stop::Fault(TextFault::from(fault))),
            Err(Stop::NoMemory) => Err(Stop::NoMemory),
        }
    }

    fn run_read<O: Sink>(
        alloc: Global,
        _form: TextForm,
        machine: L::Machine,
        trace: Vec<u8>,
        out: &mut O,
    ) -> Result<(), RunFault> {
        run_text::<L, O>(alloc, machine, trace, out)
    }
}

/// The C subset with gates in blocks that a call skips. After the lines of a run stands that of its count.
pub(crate) struct GuardedTarget {}

impl Target for GuardedTarget {
    ghost use Rattle.std.specs.Prelude.{◌≡◌};
    ghost use Rattle.csub_guard_read.specs.Faults.{ReadsAs};
    ghost use Rattle.csub_guard_run.specs.Showing.{IsNew, counted_program};
    ghost use Rattle.cec_compile.specs.declared.forms.TextForm.TheVariants.{Guarded};

    type Machine = GuardedRunner;

    ghost serves = { λ form. form ≡ Guarded };

    ghost is_of = { λ machine text. ReadsAs text (counted_program machine) × IsNew machine };

    fn write<P: Picker, O: Sink>(
        alloc: Global,
        _form: TextForm,
        source: &[u8],
        main: Option<&[u8]>,
        picker: &mut P,
        out: &mut O,
    ) -> Result<Written, Refusal> {
        write_guarded_text(alloc, source, main, picker, out)
    }

    fn make<P: Picker>(
        alloc: Global,
        _form: TextForm,
        source: &[u8],
        main: Option<&[u8]>,
        picker: &mut P,
    ) -> Result<(Made, Vec<u8>), Refusal> {
        let guarded = guarded_made(alloc, source, main, picker)?;
        let GuardedMade { made, text } = guarded;
        Ok((made, text))
    }

    fn run_made<O: Sink>(
        alloc: Global,
        _form: TextForm,
        net: &Net,
        text: &[u8],
        interface: Interface,
        trace: Vec<u8>,
        out: &mut O,
    ) -> Result<(), RunFault> {
        run_written_counted(alloc, net, text, interface, trace, out)
    }

    fn read(alloc: Global, _form: TextForm, text: &[u8]) -> Result<GuardedRunner, Stop<TextFault>> {
        match read_machine(alloc, text) {
            Ok(machine) => Ok(machine),
            Err(Stop::Fault(fault)) => Err(Stop::Fault(TextFault::from(fault))),
            Err(Stop::NoMemory) => Err(Stop::NoMemory),
        }
    }

    fn run_read<O: Sink>(
        alloc: Global,
        _form: TextForm,
        machine: GuardedRunner,
        trace: Vec<u8>,
        out: &mut O,
    ) -> Result<(), RunFault> {
        run_counted(alloc, machine, trace, out)
    }
}
