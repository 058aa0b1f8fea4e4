// The hints of a derivation.

use base_types::NoMemory;
use sat_kernel::Premise;
use sat_trail::{LiteralId, Reason, Store, Trail, at, put};
use std::alloc::Global;

// The role of a variable in an explanation.
#[derive(Clone, Copy)]
enum Role {
    Unseen,
    // A literal of the clause that is derived.
    Goal,
    // A literal above level 0 whose reason is needed.
    Needed,
    // A literal of level 0, which has a unit clause.
    Fixed,
}

/// The hints under which the kernel derives a clause. Unit clauses of literals of level 0 come first, then the reasons
/// in the order in which they forced their literals, and the conflict last.
#[derive(Drop)]
pub(crate) struct Evidence {
    pub hints: Vec<Premise>,
    /// The decisions that the reasons lead back to.
    pub core: Vec<LiteralId>,
    // By variable.
    roles: Vec<Role>,
    touched: Vec<LiteralId>,
    reasons: Vec<u32>,
    // The number of needed literals that the walk has not met.
    open: usize,
}

impl Evidence {
    pub fn new(alloc: Global) -> Evidence {
        Evidence {
            hints: Vec::new(alloc),
            core: Vec::new(alloc),
            roles: Vec::new(alloc),
            touched: Vec::new(alloc),
            reasons: Vec::new(alloc),
            open: 0,
        }
    }

    /// Adds a variable.
    pub fn grow(&mut self) -> Result<(), NoMemory> {
        self.roles.push(Role::Unseen)?;
        Ok(())
    }

    /// Explains why all literals of a clause become false as soon as those of the goal do.
    pub fn explain_conflict(
        &mut self,
        trail: &Trail,
        store: &Store,
        units: &[Option<Premise>],
        goal: &[LiteralId],
        conflict: u32,
    ) -> Result<(), NoMemory> {
        self.clear();
        self.mark_goal(goal)?;
        self.need(trail, units, store.literals(conflict))?;
        self.walk(trail, store, units)?;
        self.cite_reasons(store)?;
        self.hints.push(store.premise(conflict))?;
        Ok(())
    }

    /// Explains why a literal is true.
    pub fn explain_literal(
        &mut self,
        trail: &Trail,
        store: &Store,
        units: &[Option<Premise>],
        literal: LiteralId,
    ) -> Result<(), NoMemory> {
        self.clear();
        self.need(trail, units, &[literal])?;
        self.walk(trail, store, units)?;
        self.cite_reasons(store)
    }

    fn clear(&mut self) {
        for literal in &self.touched {
            put(&mut self.roles, literal.variable(), Role::Unseen);
        }
        self.touched.clear();
        self.reasons.clear();
        self.hints.clear();
        self.core.clear();
        self.open = 0;
    }

    fn mark_goal(&mut self, goal: &[LiteralId]) -> Result<(), NoMemory> {
        for literal in goal {
            put(&mut self.roles, literal.variable(), Role::Goal);
            self.touched.push(*literal)?;
        }
        Ok(())
    }

    // Marks the literals of a clause as needed. Those of level 0 have unit clauses, which are cited at once.
    fn need(
        &mut self,
        trail: &Trail,
        units: &[Option<Premise>],
        clause: &[LiteralId],
    ) -> Result<(), NoMemory> {
        for literal in clause {
            let variable = literal.variable();
            if is_unseen(at(&self.roles, variable, Role::Goal)) {
                self.touched.push(*literal)?;
                if trail.level_of(variable) == 0 {
                    put(&mut self.roles, variable, Role::Fixed);
                    if let Some(unit) = at(units, variable, None) {
                        self.hints.push(unit)?;
                    }
                } else {
                    put(&mut self.roles, variable, Role::Needed);
                    self.open = self.open.saturating_add(1);
                }
            }
        }
        Ok(())
    }

    // Notes the reasons of needed literals, from the end of the trail back.
    fn walk(
        &mut self,
        trail: &Trail,
        store: &Store,
        units: &[Option<Premise>],
    ) -> Result<(), NoMemory> {
        for place in (0..trail.len()).rev() {
            if self.open == 0 {
                break;
            }
            let literal = trail.literal(place);
            if is_needed(at(&self.roles, literal.variable(), Role::Unseen)) {
                self.open = self.open.saturating_sub(1);
                match trail.reason_of(literal.variable()) {
                    Reason::Clause(clause) => {
                        self.reasons.push(clause)?;
                        self.need(trail, units, store.literals(clause))?;
                    }
                    Reason::Decision => self.core.push(literal)?,
                }
            }
        }
        Ok(())
    }

    // Cites the reasons in the order of the trail.
    fn cite_reasons(&mut self, store: &Store) -> Result<(), NoMemory> {
        for clause in self.reasons.iter().rev() {
            self.hints.push(store.premise(*clause))?;
        }
        Ok(())
    }
}

fn is_unseen(role: Role) -> bool {
    match role {
        Role::Unseen => true,
        Role::Goal | Role::Needed | Role::Fixed => false,
    }
}

fn is_needed(role: Role) -> bool {
    match role {
        Role::Needed => true,
        Role::Unseen | Role::Goal | Role::Fixed => false,
    }
}
