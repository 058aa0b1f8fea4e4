// The gates of a smaller netlist under construction, from the front.

ghost use Rattle.std.specs.Prelude.{◌≡◌, ℕ, ◌+◌, ◌<◌, ◌≤◌, ◌^◌, [], ◌∷◌, ◌++◌, length, take, IfOk, OnOk};
ghost use Rattle.net_ir.specs.Gates.{operand_end, ReadsLower};
ghost use Rattle.net_simp.specs.Renaming.{stand_in, renamed_op, OwnNames};
ghost use Rattle.net_simp.specs.Rules.{reduced_op};
ghost use Rattle.net_simp.specs.Drafts.{InRange, Drafted, Folded, found_op, with_gate, name_of, with_form, form_in};

use crate::forms::{Form, form_of};
use crate::gates::{op_at, own_names, renamed_op};
use crate::rules::{outright_op, reduced_op};
use base_types::{NetId, NoMemory, WireId};
use indexmap::IndexMap;
use net_ir::{Gate, Op};
use std::alloc::Global;

/// Gates, and for each net of an older netlist the one that stands for it.
#[derive(Drop)]
pub(crate) struct Renumbered {
    pub names: Vec<NetId>,
    pub gates: Vec<Gate>,
}

/// The new gates so far, for each old net the one that stands for it, and for each form of operator a net that
/// computes it.
#[derive(Drop)]
struct Draft {
    names: Vec<NetId>,
    gates: Vec<Gate>,
    known: IndexMap<Form, NetId>,
}

impl Draft {
    // What stands for one more old gate.
    fn add(&mut self, first: usize, gate: Gate) -> Result<(), NoMemory>
        requires low { operand_end gate.op ≤ length self.old.names.items }
        requires in_range { InRange first self.old.gates.items self.old.names.items (form_in self.old.known) }
        requires room { first + length self.old.gates.items < 2 ^ 32 }
        ensures gates { OnOk result (self.new.gates.items ≡ with_gate first self.old.gates.items
            (found_op (form_in self.old.known)
            (reduced_op first self.old.gates.items (renamed_op (stand_in self.old.names.items) gate.op))) gate.wire) }
        ensures names { OnOk result (self.new.names.items ≡ self.old.names.items
            ++ name_of (found_op (form_in self.old.known)
            (reduced_op first self.old.gates.items (renamed_op (stand_in self.old.names.items) gate.op)))
            (first + length self.old.gates.items) ∷ []) }
        ensures known { OnOk result ((q : Form) → form_in self.new.known q ≡ with_form (form_in self.old.known)
            (found_op (form_in self.old.known)
            (reduced_op first self.old.gates.items (renamed_op (stand_in self.old.names.items) gate.op)))
            (first + length self.old.gates.items) q) }
    {
        let op = self.found_op(reduced_op(first, &self.gates, renamed_op(&self.names, gate.op)));
        self.put(first, op, gate.wire)
    }

    // The operator, or a copy of a net that computes it already.
    fn found_op(&self, op: Op) -> Op
        ensures { result ≡ found_op (form_in self.now.known) op }
    {
        let form = form_of(op);
        match self.known.get(&form) {
            Some(net) => Op::Copy(*net),
            None => op,
        }
    }

    // A gate of this operator, where it copies no net or carries a wire.
    fn put(&mut self, first: usize, op: Op, wire: Option<WireId>) -> Result<(), NoMemory>
        requires low { operand_end op ≤ first + length self.old.gates.items }
        requires room { first + length self.old.gates.items < 2 ^ 32 }
        ensures gates { OnOk result (self.new.gates.items ≡ with_gate first self.old.gates.items op wire) }
        ensures names { OnOk result (self.new.names.items ≡ self.old.names.items
            ++ name_of op (first + length self.old.gates.items) ∷ []) }
        ensures known { OnOk result ((q : Form) → form_in self.new.known q
            ≡ with_form (form_in self.old.known) op (first + length self.old.gates.items) q) }
    {
        match op {
            Op::Copy(net) => {
                if wire.is_some() {
                    let op = outright_op(op_at(first, &self.gates, net), net);
                    self.gates.push(Gate { op, wire })?;
                }
                self.names.push(net)?;
            }
            Op::Const(_) | Op::Not(_) | Op::And(_, _) | Op::Or(_, _) => {
                let own = NetId((first + self.gates.len()) as u32);
                self.gates.push(Gate { op, wire })?;
                self.names.push(own)?;
                self.known.insert(form_of(op), own)?;
            }
        }
        Ok(())
    }
}

/// Gates that compute the same, of which no one that carries no wire is a copy, or has an operator that another one
/// has, or that a rule makes less.
pub(crate) fn folded_gates(
    alloc: Global,
    first: usize,
    gates: &[Gate],
) -> Result<Renumbered, NoMemory>
    requires reads_lower { ReadsLower first gates.now }
    requires numbered { first + length gates.now ≤ 2 ^ 32 }
    ensures { IfOk result (λ d. Folded first gates.now d.gates.items d.names.items) }
{
    let names = own_names(alloc, first)?;
    let mut draft = Draft {
        names,
        gates: Vec::new(alloc),
        known: IndexMap::new(alloc),
    };
    for gate in gates {
        draft.add(first, *gate)?;
    }
    let Draft {
        names,
        gates,
        known: _,
    } = draft;
    Ok(Renumbered { names, gates })
}
