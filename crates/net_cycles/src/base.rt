// The nets before the gates, and the constants.

ghost use Rattle.std.specs.Prelude.{◌≡◌, None, IfOk};
ghost use Rattle.net_cycles.specs.Bases.{IsBase};

use base_types::{NetId, NoMemory};
use grc_formulas::Words;
use grc_graph::Graph;
use net_ir::{Gate, Op};
use net_unroll::Growing;
use std::alloc::Global;

/// How the nets before the gates are numbered (the inputs, the latch of the first instant, the leaves), and the nets
/// that are never and always true.
#[derive(Clone, Copy)]
pub struct Base {
    pub given: u32,
    pub leaves: u32,
    pub no: NetId,
    pub yes: NetId,
}

/// A base, and gates that begin with the constants.
#[derive(Drop)]
pub struct Beginning {
    pub base: Base,
    pub gates: Growing,
}

/// What nets of formulas are made of: the nets that carry the wires, and those of all rows.
#[derive(Clone, Copy)]
pub struct Nets<'a> {
    pub graph: &'a Graph,
    pub words: &'a Words,
    pub base: Base,
    pub wires: &'a [NetId],
    pub rows: &'a [NetId],
}

// A gate that carries no wire.
fn silent(op: Op) -> Gate
    ensures { result ≡ record { op = op; wire = None } }
{
    Gate { op, wire: None }
}

/// The nets before the gates of a graph's netlist, and the constants.
pub fn begin(alloc: Global, graph: &Graph) -> Result<Beginning, NoMemory>
    ensures { IfOk result (λ b. IsBase graph.now b.base b.gates) }
{
    let program = graph.program();
    let given = program.inputs + program.both;
    let leaves = graph.next.len() as u32;
    let first = given + 1 + leaves;
    let list = vec![in alloc; silent(Op::Const(false)), silent(Op::Const(true))]?;
    let gates = Growing { first, list };
    let base = Base {
        given,
        leaves,
        no: NetId(first),
        yes: NetId(first + 1),
    };
    Ok(Beginning { base, gates })
}
