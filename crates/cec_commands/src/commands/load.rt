// The command that runs a generated source over random events, by its BLIF text and by its C text.

ghost use Rattle.std.specs.Prelude.{◌≡◌, ◌+◌, ◌<◌, ◌≤◌, ◌^◌, length, map, count_by, Some, None, IfOk, IfErr};
ghost use Rattle.base_types.specs.SinkChanges.{change};
ghost use Rattle.est_gen.specs.Sources.{source_text};
ghost use Rattle.net_ir.specs.Runs.{net_run, netlist_of};
ghost use Rattle.run_over_traces.specs.Languages.{shown_answer};
ghost use Rattle.cec_text_io.specs.Contents.{Content};
ghost use Rattle.cec_commands.specs.Jobs.{Load};
ghost use Rattle.cec_commands.specs.JobViews.{AreBranches};
ghost use Rattle.cec_commands.specs.Lines.{GainsErr};
ghost use Rattle.cec_commands.specs.Loads.{IsSummary, drawn_items, state_behind};
ghost use Rattle.cec_commands.specs.Loading.{CountsMachine, CountsMore, CountsNet, IsDrawn, counted_text, pause_count};
ghost use Rattle.cec_commands.specs.Loading.{pause_of, present_count};
ghost use Rattle.cec_commands.specs.NetTexts.{TextsFit};
ghost use Rattle.cec_commands.specs.Outcomes.{OutcomeLeavesText, MakesOn};
ghost use Rattle.cec_compile.specs.Refusals.{IsRefused};

use crate::answers::text_made;
use crate::lines::{Subject, report, subject_of_none};
use crate::outcome::Outcome;
use crate::writing::write_whole;
use base_types::{Draw, Limits, NoMemory, Sink};
use blif_run::BlifTexts;
use blif_text::write_blif;
use cec_compile::{Limit, Refusal, compile};
use cec_text_io::joined;
use csub_run::CTexts;
use csub_text::write_c;
use est_gen::{GenFault, generate_source, next_event};
use grc_order::First;
use itoa::Buffer;
use net_ir::Net;
use run_over_traces::{Language, Runner};
use run_trace_io::Word;
use std::alloc::Global;

/// How many outgoing signals were present in all instants, and how many of the instants ended paused.
#[derive(Clone, Copy)]
pub(crate) struct Counts {
    pub emitted: u64,
    pub paused: u64,
}

/// Runs a generated source over a number of random events, and writes the numbers of the run. The words give a number
/// of branches for which there is a source.
pub(crate) fn write_load<O: Sink, E: Sink>(
    alloc: Global,
    start: u64,
    branches: u32,
    instants: u32,
    out: &mut O,
    err: &mut E,
) -> Outcome
    requires { AreBranches branches }
    ensures agrees { MakesOn None result (source_text start branches) }
    ensures out { OutcomeLeavesText (IsSummary (source_text start branches) (state_behind start branches) instants)
        (change O.told O.faults out.old out.new)
        result }
    ensures err { (content : Content) → GainsErr (Some (Load start branches instants)) content result
        (E.told err.old) (E.told err.new) (E.faults err.old) (E.faults err.new) }
{
    let generated = match generate_source(alloc, start, branches) {
        Ok(generated) => generated,
        Err(GenFault::NoMemory) => {
            report(err, subject_of_none(), &Outcome::NoMemory);
            return Outcome::NoMemory;
        }
        Err(GenFault::BadBranches) => unreachable!(),
    };
    let source = generated.source;
    if source.len() as u64 > Limits::SOURCE_BYTES {
        report(err, subject_of_none(), &Outcome::Limit(Limit::Source));
        return Outcome::Limit(Limit::Source);
    }
    let outcome = write_summary(alloc, &source, generated.rest, instants, out);
    let subject = Subject {
        name: "",
        trace: "",
        main: b"",
        source: &source,
    };
    report(err, subject, &outcome);
    outcome
}

// Runs a generated source over random events, writes the numbers of the run, and says how it ended.
fn write_summary<O: Sink>(
    alloc: Global,
    source: &[u8],
    draw: Draw,
    instants: u32,
    out: &mut O,
) -> Outcome
    requires short { length source.now ≤ Limits.SOURCE_BYTES }
    requires drawn { IsDrawn source.now }
    ensures agrees { MakesOn None result source.now }
    ensures out { OutcomeLeavesText (IsSummary source.now draw instants)
        (change O.told O.faults out.old out.new)
        result }
{
    match summary(alloc, source, draw, instants) {
        Ok(text) => write_whole(&text, out),
        Err(refusal) => Outcome::from(refusal),
    }
}

// The numbers of a generated source's run over random events.
fn summary(alloc: Global, source: &[u8], draw: Draw, instants: u32) -> Result<Vec<u8>, Refusal>
    requires short { length source.now ≤ Limits.SOURCE_BYTES }
    requires drawn { IsDrawn source.now }
    ensures text { IfOk result (λ text. IsSummary source.now draw instants text.items) }
    ensures refuses { IfErr result (IsRefused source.now None) }
{
    match compile(alloc, source, None, &mut First) {
        Ok(compiled) => text_made(net_summary(alloc, &compiled.net, draw, instants)),
        Err(refusal) => Err(refusal),
    }
}

// The same of a net.
fn net_summary(alloc: Global, net: &Net, draw: Draw, instants: u32) -> Result<Vec<u8>, NoMemory>
    requires inputs { length net.now.inputs.items ≡ 8 }
    requires outputs { length net.now.outputs.items ≡ 8 }
    requires fits { TextsFit (netlist_of net.now) }
    ensures { let answers = map shown_answer (net_run (netlist_of net.now) (drawn_items instants draw)) in
        IfOk result (λ text. text.items ≡ counted_text instants (present_count answers) (pause_count answers)) }
{
    let counts = run_both(alloc, net, draw, instants)?;
    summary_text(alloc, instants, counts)
}

// The three lines.
fn summary_text(alloc: Global, instants: u32, counts: Counts) -> Result<Vec<u8>, NoMemory>
    ensures { IfOk result (λ text. text.items ≡ counted_text instants counts.emitted counts.paused) }
{
    let mut shown = Buffer::new();
    let mut emitted = Buffer::new();
    let mut paused = Buffer::new();
    let text = joined(
        alloc,
        &[
            b"instants ",
            shown.format(instants).as_bytes(),
            b"\nemitted ",
            emitted.format(counts.emitted).as_bytes(),
            b"\npaused ",
            paused.format(counts.paused).as_bytes(),
            b"\n",
        ],
    )?;
    Ok(text)
}

// What both texts of a net show over random events.
fn run_both(alloc: Global, net: &Net, draw: Draw, instants: u32) -> Result<Counts, NoMemory>
    requires inputs { length net.now.inputs.items ≡ 8 }
    requires outputs { length net.now.outputs.items ≡ 8 }
    requires fits { TextsFit (netlist_of net.now) }
    ensures { IfOk result (CountsNet (netlist_of net.now) (drawn_items instants draw)) }
{
    let circuit_text = write_blif(alloc, net)?;
    let program_text = write_c(alloc, net)?;
    let mut circuit = BlifTexts::read_back(alloc, net, &circuit_text)?;
    let mut machine = CTexts::read_back(alloc, net, &program_text)?;
    let mut draw = draw;
    let (shown, called) = run_drawn(&mut circuit, &mut machine, &mut draw, instants);
    // Both texts mean the net, so their runs have the same numbers.
    prove!(shown.emitted == called.emitted);
    prove!(shown.paused == called.paused);
    Ok(called)
}

// Runs two machines over the same random events.
fn run_drawn<R: Runner, S: Runner>(
    circuit: &mut R,
    machine: &mut S,
    draw: &mut Draw,
    instants: u32,
) -> (Counts, Counts)
    requires each_input { R.input_count circuit.old ≡ 8 }
    requires each_output { R.output_count circuit.old ≡ 8 }
    requires each_given { S.input_count machine.old ≡ 8 }
    requires each_shown { S.output_count machine.old ≡ 8 }
    ensures shown { CountsMachine R.shows circuit.old circuit.new (drawn_items instants draw.old) result.0 }
    ensures called { CountsMachine S.shows machine.old machine.new (drawn_items instants draw.old) result.1 }
{
    let mut shown = Counts {
        emitted: 0,
        paused: 0,
    };
    let mut called = shown;
    for instant in 0..instants {
        let event = next_event(draw);
        shown = with_reaction(circuit, &event, shown);
        called = with_reaction(machine, &event, called);
    }
    (shown, called)
}

// The counts with one reaction more.
fn with_reaction<R: Runner>(machine: &mut R, event: &[bool], counts: Counts) -> Counts
    requires each_input { length event.now ≡ R.input_count machine.old }
    requires each_output { R.output_count machine.old ≡ 8 }
    requires few { counts.emitted + 8 < 2 ^ 64 }
    requires each { counts.paused + 1 < 2 ^ 64 }
    ensures more { CountsMore R.shows machine.old event.now machine.new counts result }
    ensures inputs_stay { R.input_count machine.new ≡ R.input_count machine.old }
    ensures outputs_stay { R.output_count machine.new ≡ R.output_count machine.old }
{
    let word = machine.react(event);
    Counts {
        emitted: counts.emitted + present_count(machine.outputs()),
        paused: counts.paused + pause_of(word),
    }
}

// How many signals are present.
fn present_count(present: &[bool]) -> u64
    ensures count { result ≡ count_by (λ b. b) present.now }
    ensures within { result ≤ length present.now }
{
    let mut count = 0;
    for signal in present {
        if *signal {
            count += 1;
        }
    }
    count
}

// One for a program that is paused.
fn pause_of(word: Word) -> u64
    ensures { result ≡ pause_of word }
{
    match word {
        Word::Paused => 1,
        Word::Ended | Word::Bare => 0,
    }
}
