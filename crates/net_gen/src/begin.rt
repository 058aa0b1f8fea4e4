// A circuit before its first gate.

ghost use Rattle.std.specs.Prelude.{◌≡◌, ◌+◌, ◌<◌, ◌^◌, None, IfOk, replicate};
ghost use Rattle.est_kernel.specs.Plain.{program_of, given_count};
ghost use Rattle.net_gen.specs.Drawings.{drawing_of};
ghost use Rattle.net_gen.specs.Making.{Begun};
ghost use Rattle.net_gen.specs.Senses.{first_of};

use crate::circuit::Draft;
use base_types::{NetId, NoMemory};
use grc_formulas::Words;
use grc_graph::Graph;
use net_ir::{Gate, Op};
use std::alloc::Global;

/// How the nets before the gates are numbered.
#[derive(Clone, Copy)]
struct FirstNumbers {
    /// The number of inputs, which is that of the boot latch.
    given: u32,
    /// The number of the first gate.
    first: u32,
}

// The limits on signals and on kernel nodes keep the numbers of the inputs, of the latches and of two gates small.
fn count_before_gates(graph: &Graph) -> FirstNumbers
    ensures given { result.given ≡ given_count (program_of graph.now.program) }
    ensures first { result.first ≡ first_of graph.now }
    ensures fits { first_of graph.now + 2 < 2 ^ 32 }
{
    let program = graph.program();
    let given = program.inputs + program.both;
    let first = given + 1 + graph.next.len() as u32;
    FirstNumbers { given, first }
}

// A table without an entry.
fn no_nets(alloc: Global, count: usize) -> Result<Vec<Option<NetId>>, NoMemory>
    ensures { IfOk result (λ v. v.items ≡ replicate count None) }
{
    Ok(vec![in alloc; None; count]?)
}

fn constant_gate(value: bool) -> Gate
    ensures { result ≡ record { op = Op.Const value; wire = None } }
{
    Gate {
        op: Op::Const(value),
        wire: None,
    }
}

/// A circuit of two gates, the constants.
pub(crate) fn begin(alloc: Global, graph: &Graph, words: &Words) -> Result<Draft, NoMemory>
    ensures { IfOk result (λ c. Begun graph.now words.now (drawing_of c)) }
{
    let numbers = count_before_gates(graph);
    let wires = graph.wires().len();
    Ok(Draft {
        given: numbers.given,
        first: numbers.first,
        no: NetId(numbers.first),
        yes: NetId(numbers.first + 1),
        gates: vec![in alloc; constant_gate(false), constant_gate(true)]?,
        wires: no_nets(alloc, wires)?,
        ends: no_nets(alloc, wires)?,
        rows: no_nets(alloc, words.rows.len())?,
    })
}
