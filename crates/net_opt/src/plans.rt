// Small graphs of functions of six variables.

use crate::edges::{Edge, TRUE, edge_at, negated, negated_if, straight};
use crate::tables::{
    Between, depends_on, has, is_possible, narrowed, narrowed_width, restricted, variable_table,
};
use base_types::NoMemory;
use std::alloc::Global;

/// How many variables there are; their nodes follow what is always true.
pub(crate) const VARIABLES: usize = 6;

/// A graph of the variables. Its pairs follow them, and hold lower nodes alone.
#[derive(Drop)]
pub(crate) struct Plan {
    pub lefts: Vec<Edge>,
    pub rights: Vec<Edge>,
    pub root: Edge,
    turn: usize,
}

// A graph that computes one of these functions. Different turns prefer different variables where several ways cost the
// same.
fn planned(alloc: Global, functions: Between, turn: usize) -> Result<Plan, NoMemory> {
    let mut plan = Plan {
        lefts: Vec::new(alloc),
        rights: Vec::new(alloc),
        root: TRUE,
        turn,
    };
    plan.root = plan.edge_between(functions, VARIABLES + 1)?;
    Ok(plan)
}

// A power of two: how many plans can be found again at one time.
const SLOTS: usize = 4_096;

// Beyond this count plans are made anew.
const MOST: usize = 20_000;

// What a plan was made for, and its place.
#[derive(Clone, Copy)]
struct Slot {
    functions: Between,
    place: usize,
}

/// Plans by the functions that they were made for, so that most are made once.
#[derive(Drop)]
pub(crate) struct Plans {
    plans: Vec<Plan>,
    slots: Vec<Slot>,
    turn: usize,
}

impl Plans {
    pub fn new(alloc: Global, turn: usize) -> Result<Plans, NoMemory> {
        let none = Slot {
            functions: Between { low: 0, high: 0 },
            place: usize::MAX,
        };
        Ok(Plans {
            plans: Vec::new(alloc),
            slots: vec![in alloc; none; SLOTS]?,
            turn,
        })
    }

    /// Forgets all plans where there are many. Places are of no use after that.
    pub fn tidy(&mut self) {
        if self.plans.len() > MOST {
            self.plans.clear();
        }
    }

    /// The place of a plan for these functions.
    pub fn place_of(&mut self, alloc: Global, functions: Between) -> Result<usize, NoMemory> {
        let number = slot_number(functions);
        if number < self.slots.len() {
            let slot = self.slots[number];
            if slot.functions == functions && slot.place < self.plans.len() {
                return Ok(slot.place);
            }
        }
        let place = self.plans.len();
        self.plans.push(planned(alloc, functions, self.turn)?)?;
        if number < self.slots.len() {
            self.slots[number] = Slot { functions, place };
        }
        Ok(place)
    }

    /// The plan at a place.
    pub fn at(&self, place: usize) -> Option<&Plan> {
        if place < self.plans.len() {
            Some(&self.plans[place])
        } else {
            None
        }
    }
}

fn slot_number(functions: Between) -> usize {
    let mut word = functions.low.wrapping_mul(0x9e37_79b9_7f4a_7c15);
    word = (word ^ functions.high).wrapping_mul(0xbf58_476d_1ce4_e5b9);
    ((word >> 40) & 0xfff) as usize
}

// How a function is made of simpler ones, where the literal is that of a variable.
#[derive(Clone, Copy, PartialEq)]
enum Form {
    // the literal and one function
    Both,
    // the literal or one function
    Either,
    // the literal or one function, but not both
    Differ,
    // the second function, or the literal and the first
    Outer,
    // the first function, and the literal or the second
    Inner,
    // the first function where the literal holds, else the second
    Choice,
}

#[derive(Clone, Copy)]
struct Step {
    form: Form,
    literal: Edge,
    one: Between,
    other: Between,
    cost: usize,
}

impl Plan {
    // An edge of one of these functions.
    fn edge_between(&mut self, given: Between, depth: usize) -> Result<Edge, NoMemory> {
        let between = narrowed(given);
        if let Some(edge) = plain_edge(between) {
            return Ok(edge);
        }
        if depth == 0 {
            return Ok(TRUE);
        }
        let step = best_step(between, self.turn);
        let one = self.edge_between(step.one, depth - 1)?;
        if step.form == Form::Both {
            return self.both(step.literal, one);
        }
        if step.form == Form::Either {
            return self.either(step.literal, one);
        }
        if step.form == Form::Differ {
            return self.choice(step.literal, negated(one), one);
        }
        let other = self.edge_between(step.other, depth - 1)?;
        self.joined(step, one, other)
    }

    // What two functions make with a literal.
    fn joined(&mut self, step: Step, one: Edge, other: Edge) -> Result<Edge, NoMemory> {
        if step.form == Form::Outer {
            let part = self.both(step.literal, one)?;
            self.either(part, other)
        } else if step.form == Form::Inner {
            let part = self.either(step.literal, other)?;
            self.both(one, part)
        } else {
            self.choice(step.literal, one, other)
        }
    }

    fn choice(&mut self, literal: Edge, one: Edge, other: Edge) -> Result<Edge, NoMemory> {
        let left = self.both(literal, one)?;
        let right = self.both(negated(literal), other)?;
        self.either(left, right)
    }

    fn either(&mut self, left: Edge, right: Edge) -> Result<Edge, NoMemory> {
        Ok(negated(self.both(negated(left), negated(right))?))
    }

    // The pair of two edges: one that there is, or one more.
    fn both(&mut self, left: Edge, right: Edge) -> Result<Edge, NoMemory> {
        if left == right || right == TRUE {
            return Ok(left);
        }
        if left == TRUE {
            return Ok(right);
        }
        if left.node == right.node || left.node == 0 || right.node == 0 {
            return Ok(negated(TRUE));
        }
        for k in 0..self.lefts.len() {
            let l = edge_at(&self.lefts, k);
            let r = edge_at(&self.rights, k);
            if (l == left && r == right) || (l == right && r == left) {
                return Ok(straight(k.saturating_add(VARIABLES + 1)));
            }
        }
        let node = self.lefts.len().saturating_add(VARIABLES + 1);
        self.lefts.push(left)?;
        self.rights.push(right)?;
        Ok(straight(node))
    }
}

// A constant or a literal that is one of these functions.
fn plain_edge(between: Between) -> Option<Edge> {
    if between.low == 0 {
        return Some(negated(TRUE));
    }
    if between.high == u64::MAX {
        return Some(TRUE);
    }
    for variable in 0..VARIABLES {
        let table = variable_table(variable);
        if has(between, table) {
            return Some(straight(variable + 1));
        }
        if has(between, !table) {
            return Some(negated(straight(variable + 1)));
        }
    }
    None
}

// The step that leaves the least to do.
fn best_step(between: Between, turn: usize) -> Step {
    let mut best = no_step(halves_of(between, 0));
    for place in 0..VARIABLES {
        let variable = place.saturating_add(turn) % VARIABLES;
        if depends_on(between, variable) {
            best = best_step_by(halves_of(between, variable), best);
        }
    }
    best
}

// The functions where a variable is true, and where it is false.
#[derive(Clone, Copy)]
struct Halves {
    variable: usize,
    one: Between,
    other: Between,
}

fn halves_of(between: Between, variable: usize) -> Halves {
    Halves {
        variable,
        one: restricted(between, variable, true),
        other: restricted(between, variable, false),
    }
}

// The same, where the variable counts as its negation.
fn turned(halves: Halves) -> Halves {
    Halves {
        variable: halves.variable,
        one: halves.other,
        other: halves.one,
    }
}

// The cheapest of a step and those by a variable.
fn best_step_by(halves: Halves, before: Step) -> Step {
    let other = turned(halves);
    let mut best = cheaper(before, step_by_choice(halves, before.cost));
    best = cheaper(best, step_by_difference(halves));
    best = cheaper(best, step_by_part(halves, false));
    best = cheaper(best, step_by_part(other, true));
    best = cheaper(best, step_by_parts(halves, false, best.cost));
    cheaper(best, step_by_parts(other, true, best.cost))
}

fn cheaper(best: Step, step: Step) -> Step {
    if step.cost < best.cost { step } else { best }
}

fn literal_of(variable: usize, negative: bool) -> Edge {
    negated_if(straight(variable.saturating_add(1)), negative)
}

fn step_of(form: Form, literal: Edge, one: Between, other: Between, cost: usize) -> Step {
    Step {
        form,
        literal,
        one,
        other,
        cost,
    }
}

// What is never taken.
fn no_step(halves: Halves) -> Step {
    step_of(Form::Choice, TRUE, halves.one, halves.other, usize::MAX)
}

fn step_by_choice(halves: Halves, limit: usize) -> Step {
    let Halves {
        variable,
        one,
        other,
    } = halves;
    let cost = cost_of_two(one, other, 3, limit);
    step_of(Form::Choice, literal_of(variable, false), one, other, cost)
}

fn step_by_difference(halves: Halves) -> Step {
    let Halves {
        variable,
        one,
        other,
    } = halves;
    let same = Between {
        low: other.low | !one.high,
        high: other.high & !one.low,
    };
    if !is_possible(same) {
        return no_step(halves);
    }
    let cost = narrowed_width(same).saturating_add(3);
    step_of(Form::Differ, literal_of(variable, false), same, same, cost)
}

// The literal and one function, or the literal or one function.
fn step_by_part(halves: Halves, negative: bool) -> Step {
    let Halves {
        variable,
        one,
        other,
    } = halves;
    let literal = literal_of(variable, negative);
    if other.low == 0 {
        let cost = narrowed_width(one).saturating_add(1);
        return step_of(Form::Both, literal, one, one, cost);
    }
    if one.high == u64::MAX {
        let cost = narrowed_width(other).saturating_add(1);
        return step_of(Form::Either, literal, other, other, cost);
    }
    no_step(halves)
}

// Where a function only grows with the literal: a literal less in one of two parts.
fn step_by_parts(halves: Halves, negative: bool, limit: usize) -> Step {
    let Halves {
        variable,
        one,
        other,
    } = halves;
    let literal = literal_of(variable, negative);
    if other.low & !one.high != 0 {
        return no_step(halves);
    }
    let outer_one = Between {
        low: one.low & !other.low,
        high: one.high,
    };
    let outer_other = Between {
        low: other.low,
        high: other.high & one.high,
    };
    let inner_one = Between {
        low: one.low | other.low,
        high: one.high,
    };
    let inner_other = Between {
        low: other.low,
        high: other.high | !one.high,
    };
    let outer = cost_of_two(outer_one, outer_other, 2, limit);
    let inner = cost_of_two(inner_one, inner_other, 2, limit.min(outer));
    if outer <= inner {
        step_of(Form::Outer, literal, outer_one, outer_other, outer)
    } else {
        step_of(Form::Inner, literal, inner_one, inner_other, inner)
    }
}

// What two functions and some pairs cost. It is not counted from a limit on.
fn cost_of_two(one: Between, other: Between, pairs: usize, limit: usize) -> usize {
    let first = narrowed_width(one).saturating_add(pairs);
    if first >= limit {
        return usize::MAX;
    }
    first.saturating_add(narrowed_width(other))
}
