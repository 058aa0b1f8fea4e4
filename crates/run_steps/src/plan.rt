// Plans: steps as records, one after another.

ghost use Rattle.std.specs.Prelude.{◌≡◌, ◌<◌, ◌≤◌, ◌^◌, [], ◌∷◌, length, map, All, IfOk, IfSome, OnOk};
ghost use Rattle.run_steps.specs.Slots.{value_at};
ghost use Rattle.run_steps.specs.Plans.{Adds, AddsTerm, Joins, Makes, Says, TermFits, made, table_step};
ghost use Rattle.run_steps.specs.Plans.{IsOperand, IsTable, Tabulates};
ghost use Rattle.run_steps.specs.Records.{GateFits, StretchFits, gate_lookup, stretches_made};

use crate::gate::gate_of;
use crate::gate_list::GateList;
use crate::lookup::{Lookup, lookup_value};
use crate::term::{Junction, Term, pair};
use base_types::NoMemory;
use std::alloc::Global;
use std::marker::Model;
use std::mem;

/// Gates, and after them a lookup that is none.
#[derive(Drop)]
pub struct Stretch {
    pub gates: GateList,
    pub last: Lookup,
}

/// A plan. A contract sees it as the list of its lookups, with how many slots have names, how many there are, and how
/// many of the lookups are no gates (`Planned`).
#[derive(Drop)]
pub struct Plan {
    named: usize,
    free: usize,
    slots: usize,
    stretches: Vec<Stretch>,
    // The gates after the last stretch.
    gates: GateList,
}

impl Model for Plan {
    ghost use Rattle.run_steps.specs.Plans.{Planned};

    ghost Value = { Planned };

    ghost use Rattle.run_steps.specs.Records.{plan_of, AreWithin};

    ghost view = { plan_of };

    ghost invariant = { AreWithin };
}

impl Plan {
    /// A plan without a step, where this many slots have names. Its only error is out of memory: none holds a value for
    /// each of 2^64 slots.
    pub fn new(alloc: Global, named: usize) -> Result<Plan, NoMemory>
        ensures named { IfOk result (λ p. p.named ≡ named) }
        ensures tables { IfOk result (λ p. p.tables ≡ 0) }
        ensures makes { IfOk result (λ p. Makes p []) }
    {
        let free = named.checked_add(1).ok_or(NoMemory)?;
        Ok(Plan {
            named,
            free,
            slots: free,
            stretches: Vec::new(alloc),
            gates: GateList::new(alloc),
        })
    }

    /// How many slots there are, each for one value of a run.
    pub fn slots(&self) -> usize
        ensures slots { result ≡ self.now.slots }
        ensures names { self.now.named < self.now.free }
        ensures free { self.now.free ≤ self.now.slots }
    {
        self.slots
    }

    // The gates, where no lookup is anything else.
    pub(crate) fn gates(&self) -> &GateList
        requires { self.now.tables ≡ 0 }
        ensures lookups { map gate_lookup result.now ≡ self.now.lookups }
        ensures fit { All (GateFits self.now.slots) result.now }
    {
        &self.gates
    }

    /// Adds the step of a table over slots of names: its element at the place whose binary digits are their values, the
    /// lowest digit first. Its only error is out of memory.
    pub fn push_table(
        &mut self,
        alloc: Global,
        output: usize,
        reads: &[usize],
        truth: &[bool],
    ) -> Result<(), NoMemory>
        requires output { output < self.old.named }
        requires reads { All (λ slot. slot < self.old.named) reads.now }
        requires each_place { length truth.now ≡ 2 ^ length reads.now }
        requires few { length reads.now ≤ 8 }
        ensures { OnOk result (Adds (table_step output reads.now truth.now) self.old self.new) }
    {
        self.slots();
        match table_term(output, reads, truth) {
            Some(term) => self.push_term(output, term),
            None => self.push_lookup(alloc, output, reads, truth),
        }
    }

    // Adds the step of a table that is no gate.
    fn push_lookup(
        &mut self,
        alloc: Global,
        output: usize,
        reads: &[usize],
        truth: &[bool],
    ) -> Result<(), NoMemory>
        requires output { output < self.old.named }
        requires reads { All (λ slot. slot < self.old.named) reads.now }
        requires each_place { length truth.now ≡ 2 ^ length reads.now }
        requires few { length reads.now ≤ 8 }
        ensures { OnOk result (Adds (table_step output reads.now truth.now) self.old self.new) }
    {
        let last = Lookup {
            output,
            reads: Vec::from_slice(alloc, reads)?,
            truth: Vec::from_slice(alloc, truth)?,
        };
        let gates = mem::replace(&mut self.gates, GateList::new(alloc));
        self.stretches.push(Stretch { gates, last })?;
        self.free = self.named + 1;
        Ok(())
    }

    /// The term that has this value everywhere.
    pub fn constant(&self, value: bool) -> Term
        ensures { Says self.now result (λ values. value) }
    {
        Term::unary(self.named, value, value)
    }

    /// The term that is the value of a slot; what is no slot of a name is 0.
    pub fn copied(&self, slot: usize) -> Term
        ensures { Says self.now result (λ values. value_at values slot) }
    {
        if slot < self.named {
            Term::unary(slot, false, true)
        } else {
            Term::unary(self.named, false, false)
        }
    }

    /// Two terms joined. What is in them is computed before. Its only error is out of memory.
    pub fn joined(&mut self, junction: Junction, left: Term, right: Term) -> Result<Term, NoMemory>
        requires left_fits { TermFits self.old.free left }
        requires right_fits { TermFits self.old.free right }
        ensures { IfOk result (λ t. Joins junction left right self.old t self.new) }
    {
        let left = self.operand(left)?;
        let right = self.operand(right)?;
        Ok(pair(junction, &left, &right))
    }

    // The term as one of a single slot. Where it reads two, a gate before gives its value to a slot that is free.
    fn operand(&mut self, term: Term) -> Result<Term, NoMemory>
        requires { TermFits self.old.free term }
        ensures { IfOk result (λ t. IsOperand term self.old t self.new) }
    {
        if term.left == term.right {
            return Ok(term);
        }
        let slot = self.free;
        let free = slot.checked_add(1).ok_or(NoMemory)?;
        self.gates.push(gate_of(slot, &term))?;
        self.free = free;
        self.slots = self.slots.max(free);
        Ok(Term::unary(slot, false, true))
    }

    /// Adds the step that gives a slot of a name the value of a term. The terms so far say nothing any more. Its only
    /// error is out of memory.
    pub fn push_term(&mut self, output: usize, term: Term) -> Result<(), NoMemory>
        requires output { output < self.old.named }
        requires fits { TermFits self.old.free term }
        ensures { OnOk result (AddsTerm output term self.old self.new) }
    {
        self.gates.push(gate_of(output, &term))?;
        self.free = self.named + 1;
        Ok(())
    }

    /// Makes the steps, one after another. It takes no memory.
    pub fn run(&self, values: &mut [bool])
        requires { self.now.slots ≤ length values.old }
        ensures { values.new ≡ made self.now.lookups values.old }
    {
        make_stretches(&self.stretches, values);
        self.gates.make_all(values);
    }
}

fn make_stretches(stretches: &[Stretch], values: &mut [bool])
    requires { All (StretchFits (length values.old)) stretches.now }
    ensures { values.new ≡ stretches_made stretches.now values.old }
{
    for stretch in stretches {
        stretch.gates.make_all(values);
        let value = lookup_value(&stretch.last, values);
        values[stretch.last.output] = value;
    }
}

// The term of a table that reads at most two slots. One that reads none has the slot of its output.
fn table_term(output: usize, reads: &[usize], truth: &[bool]) -> Option<Term>
    ensures { IfSome result (IsTable output reads.now truth.now) }
{
    match reads {
        [] => constant_term(output, truth),
        [slot] => unary_term(*slot, truth),
        [left, right] => binary_term(*left, *right, truth),
        _ => None,
    }
}

fn constant_term(slot: usize, truth: &[bool]) -> Option<Term>
    ensures { IfSome result (Tabulates slot slot [] truth.now) }
{
    if truth.len() != 1 {
        return None;
    }
    Some(Term::unary(slot, truth[0], truth[0]))
}

fn unary_term(slot: usize, truth: &[bool]) -> Option<Term>
    ensures { IfSome result (Tabulates slot slot (slot ∷ []) truth.now) }
{
    if truth.len() != 2 {
        return None;
    }
    Some(Term::unary(slot, truth[0], truth[1]))
}

fn binary_term(left: usize, right: usize, truth: &[bool]) -> Option<Term>
    ensures { IfSome result (Tabulates left right (left ∷ right ∷ []) truth.now) }
{
    if truth.len() != 4 {
        return None;
    }
    Some(Term {
        left,
        right,
        neither: truth[0],
        first: truth[1],
        second: truth[2],
        both: truth[3],
    })
}
