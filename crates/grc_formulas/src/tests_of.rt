// The test of a suspension as a source.

ghost use Rattle.std.specs.Prelude.{◌≡◌, ◌+◌, ◌≤◌, length, IfOk};
ghost use Rattle.est_kernel.specs.Plain.{expression_of, program_of};
ghost use Rattle.grc_graph.specs.Neighbouring.{names_in};
ghost use Rattle.grc_graph.specs.PlainGraphs.{names_of};
ghost use Rattle.grc_graph.specs.Statements.{signals_in};
ghost use Rattle.grc_formulas.specs.Building.{RowsFit};
ghost use Rattle.est_kernel.specs.Plain.{given_count};
ghost use Rattle.grc_formulas.specs.Testing.{TestMade, SignalSaid, given_source, wire_source};
ghost use Rattle.grc_formulas.specs.WordLaws.{late_bounds};

use crate::building::{both, either, negation};
use crate::table::{Row, Source};
use base_types::{NoMemory, SigId, WireId};
use est_kernel::Test;
use grc_graph::{Binding, Graph, Layer, Neighbours};

/// A test, and the place after its signals in the list of those that a statement reads.
#[derive(Clone, Copy)]
pub(crate) struct Tested {
    pub source: Source,
    pub after: usize,
}

/// What says that a test is true where it is resumed; `signals` says what the signals of the
/// statement stand for, and those of the test begin at a place of it.
pub(crate) fn test_source(
    graph: &Graph,
    near: &Neighbours,
    test: &Test,
    signals: &[Binding],
    place: usize,
    rows: &mut Vec<Row>,
) -> Result<Tested, NoMemory>
    requires wires { names_in near.now ≡ names_of graph.now }
    requires fit { RowsFit (late_bounds graph.now 0) rows.old.items }
    requires place { place + length (signals_in (expression_of test.now)) ≤ length signals.now }
    ensures { IfOk result (λ made. TestMade graph.now signals.now
        (expression_of test.now) place rows.old.items rows.new.items made) }
{
    match test {
        Test::Tick => Ok(Tested {
            source: Source::Const(true),
            after: place,
        }),
        Test::Sig(signal) => Ok(Tested {
            source: signal_source(graph, near, *signal, signals[place]),
            after: place + 1,
        }),
        Test::Not(part) => {
            let made = test_source(graph, near, part, signals, place, rows)?;
            let source = negation(rows, made.source)?;
            Ok(Tested {
                source,
                after: made.after,
            })
        }
        Test::And(left, right) => {
            let first = test_source(graph, near, left, signals, place, rows)?;
            let second = test_source(graph, near, right, signals, first.after, rows)?;
            let source = both(rows, first.source, second.source)?;
            Ok(Tested {
                source,
                after: second.after,
            })
        }
        Test::Or(left, right) => {
            let first = test_source(graph, near, left, signals, place, rows)?;
            let second = test_source(graph, near, right, signals, first.after, rows)?;
            let source = either(rows, first.source, second.source)?;
            Ok(Tested {
                source,
                after: second.after,
            })
        }
    }
}

// What says that a signal is present, as a resumed place sees it.
fn signal_source(graph: &Graph, near: &Neighbours, signal: SigId, binding: Binding) -> Source
    requires { names_in near.now ≡ names_of graph.now }
    ensures { SignalSaid graph.now signal.0 binding result }
{
    match binding {
        Binding::Entering => given_source(graph, signal),
        Binding::Outgoing => wire_source(near.out(signal)),
        Binding::Bound(binder) => wire_source(near.find_status(binder, Layer::Resumed)),
        Binding::Unbound => Source::Const(false),
    }
}

// What says that the event gives a signal; it gives the inputs alone.
fn given_source(graph: &Graph, signal: SigId) -> Source
    ensures { result ≡ given_source (given_count (program_of graph.now.program)) signal }
{
    let program = graph.program();
    let given = program.inputs as usize + program.both as usize;
    if (signal.0 as usize) < given {
        Source::Input(signal)
    } else {
        Source::Const(false)
    }
}

/// A wire, if there is one; what is no wire is false.
pub(crate) fn wire_source(wire: Option<WireId>) -> Source
    ensures { result ≡ wire_source wire }
{
    match wire {
        Some(wire) => Source::Wire(wire),
        None => Source::Const(false),
    }
}
