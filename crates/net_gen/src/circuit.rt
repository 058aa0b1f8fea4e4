// A circuit under construction.

ghost use Rattle.std.specs.Prelude.{◌≡◌, ◌+◌, ◌<◌, ◌≤◌, ◌^◌, None, Some, length, slice_index_or, slice_set, IfOk, OnOk};
ghost use Rattle.net_gen.specs.Drawings.{drawing_of, next_number, with_gate, with_wire, with_net, net_number};
ghost use Rattle.net_gen.specs.Drawings.{with_run_once, run_number_once, with_joined, joined_op, JoinFits, RunFits};
ghost use Rattle.net_gen.specs.Drawings.{constant_net, input_net, with_row, Placed};
ghost use Rattle.net_gen.specs.Readiness.{SourceReady, RowReady, source_net, row_op};

use base_types::{NetId, NoMemory, SigId, WireId};
use grc_formulas::{Row, Source};
use net_ir::{Gate, Op};

/// The gates so far, and which nets say what the wires and the rows of the graph say, as far as they
/// were made.
#[derive(Drop)]
pub(crate) struct Draft {
    /// The number of inputs, which is that of the boot latch.
    pub given: u32,
    /// The number of the first gate.
    pub first: u32,
    /// The net that is never true, and the one that always is.
    pub no: NetId,
    pub yes: NetId,
    pub gates: Vec<Gate>,
    /// The net that carries a wire.
    pub wires: Vec<Option<NetId>>,
    /// At an end of an instance, the net that says that one of its ends up to this one is true.
    pub ends: Vec<Option<NetId>>,
    /// The net of a row.
    pub rows: Vec<Option<NetId>>,
}

impl Draft {
    // The number of the next gate.
    fn next_number(&self) -> u32
        requires { next_number (drawing_of self.now) < 2 ^ 32 }
        ensures { result ≡ next_number (drawing_of self.now) }
    {
        self.first + self.gates.len() as u32
    }

    /// One more gate, and its net.
    pub(crate) fn push(&mut self, op: Op) -> Result<NetId, NoMemory>
        requires { next_number (drawing_of self.old) < 2 ^ 32 }
        ensures drawn { IfOk result (λ n. drawing_of self.new ≡ with_gate (drawing_of self.old) op None) }
        ensures number { IfOk result (λ n. n.0 ≡ next_number (drawing_of self.old)) }
        ensures fits { IfOk result (λ n. next_number (drawing_of self.old) < 2 ^ 32) }
    {
        let number = self.next_number();
        self.gates.push(Gate { op, wire: None })?;
        Ok(NetId(number))
    }

    /// A net of this value. What only copies a net needs no gate.
    pub(crate) fn net(&mut self, op: Op) -> Result<NetId, NoMemory>
        requires { next_number (drawing_of self.old) < 2 ^ 32 }
        ensures drawn { IfOk result (λ n. drawing_of self.new ≡ with_net (drawing_of self.old) op) }
        ensures number { IfOk result (λ n. n.0 ≡ net_number (drawing_of self.old) op) }
        ensures fits { IfOk result (λ n. net_number (drawing_of self.old) op < 2 ^ 32) }
    {
        match op {
            Op::Copy(net) => Ok(net),
            Op::Const(_) | Op::Not(_) | Op::And(_, _) | Op::Or(_, _) => {
                let net = self.push(op)?;
                Ok(net)
            }
        }
    }

    /// One more gate, which carries a wire.
    pub(crate) fn carry(&mut self, op: Op, wire: WireId) -> Result<(), NoMemory>
        requires wire { wire.0 < length self.old.wires.items }
        requires room { next_number (drawing_of self.old) < 2 ^ 32 }
        ensures drawn { OnOk result (drawing_of self.new ≡ with_wire (drawing_of self.old) op wire) }
        ensures fits { OnOk result (next_number (drawing_of self.old) < 2 ^ 32) }
    {
        let number = self.next_number();
        let wire_of_gate = Some(wire);
        self.gates.push(Gate {
            op,
            wire: wire_of_gate,
        })?;
        let wires = &mut self.wires;
        wires[wire.0 as usize] = Some(NetId(number));
        Ok(())
    }

    /// The net of a constant.
    pub(crate) fn constant(&self, value: bool) -> NetId
        ensures { result ≡ constant_net (drawing_of self.now) value }
    {
        if value { self.yes } else { self.no }
    }

    /// The net that says that the event gives a signal; it gives the inputs alone.
    pub(crate) fn input(&self, signal: SigId) -> NetId
        ensures { result ≡ input_net (drawing_of self.now) signal.0 }
    {
        if signal.0 < self.given {
            NetId(signal.0)
        } else {
            self.no
        }
    }

    /// The net of a source.
    pub(crate) fn source(&self, source: Source) -> NetId
        requires { SourceReady (drawing_of self.now) source }
        ensures { result ≡ source_net (drawing_of self.now) source }
    {
        match source {
            Source::Const(value) => self.constant(value),
            Source::Leaf(leaf) => NetId(self.given + 1 + leaf),
            Source::Input(signal) => NetId(signal.0),
            Source::Wire(wire) => entry(&self.wires, wire.0 as usize),
            Source::Row(row) => entry(&self.rows, row),
        }
    }

    /// A row as an operator.
    pub(crate) fn row(&self, row: Row) -> Op
        requires { RowReady (drawing_of self.now) row }
        ensures { result ≡ row_op (drawing_of self.now) row }
    {
        match row {
            Row::Not(a) => Op::Not(self.source(a)),
            Row::And(a, b) => Op::And(self.source(a), self.source(b)),
            Row::Or(a, b) => Op::Or(self.source(a), self.source(b)),
        }
    }

    /// One more gate, for a row.
    pub(crate) fn add_row(&mut self, op: Op, row: usize) -> Result<(), NoMemory>
        requires row { row < length self.old.rows.items }
        requires room { next_number (drawing_of self.old) < 2 ^ 32 }
        ensures drawn { OnOk result (drawing_of self.new ≡ with_row (drawing_of self.old) op row) }
        ensures fits { OnOk result (next_number (drawing_of self.old) < 2 ^ 32) }
    {
        let net = self.push(op)?;
        let rows = &mut self.rows;
        rows[row] = Some(net);
        Ok(())
    }

    /// The net of a run of ends up to this wire: the one that there is, or else the or of the net of
    /// the run before, if there is one, and of the wire's own net.
    pub(crate) fn run(&mut self, before: Option<NetId>, wire: usize) -> Result<NetId, NoMemory>
        requires wire { Placed (drawing_of self.old).wires wire }
        requires place { wire < length self.old.ends.items }
        requires room { next_number (drawing_of self.old) < 2 ^ 32 }
        ensures drawn { IfOk result (λ n. drawing_of self.new ≡ with_run_once (drawing_of self.old) before wire) }
        ensures number { IfOk result (λ n. n.0 ≡ run_number_once (drawing_of self.old) before wire) }
        ensures fits { IfOk result (λ n. RunFits (drawing_of self.old) before wire) }
    {
        if let Some(net) = self.ends[wire] {
            return Ok(net);
        }
        let own = entry(&self.wires, wire);
        let net = match before {
            None => own,
            Some(before) => self.push(Op::Or(before, own))?,
        };
        let ends = &mut self.ends;
        ends[wire] = Some(net);
        Ok(net)
    }

    /// The or of an operator, if there is one, and of a net.
    pub(crate) fn join(&mut self, so_far: Option<Op>, own: NetId) -> Result<Op, NoMemory>
        requires { next_number (drawing_of self.old) < 2 ^ 32 }
        ensures drawn { IfOk result (λ op. drawing_of self.new ≡ with_joined (drawing_of self.old) so_far) }
        ensures op { IfOk result (λ op. op ≡ joined_op (drawing_of self.old) so_far own) }
        ensures fits { IfOk result (λ op. JoinFits (drawing_of self.old) so_far) }
    {
        match so_far {
            None => Ok(Op::Copy(own)),
            Some(op) => {
                let net = self.net(op)?;
                Ok(Op::Or(net, own))
            }
        }
    }
}

/// The net at a place of a table, where there is one.
pub(crate) fn entry(table: &[Option<NetId>], place: usize) -> NetId
    requires { Placed table.now place }
    ensures { slice_index_or table.now place None ≡ Some result }
{
    match table[place] {
        Some(net) => net,
        None => unreachable!(),
    }
}
