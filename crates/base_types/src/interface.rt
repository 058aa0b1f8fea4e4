// What a program says of its signals.

ghost use Rattle.std.specs.Prelude.{◌≡◌, IfOk, map};
ghost use Rattle.base_types.specs.Relations.{relation_of};

use crate::indices::SigId;
use crate::memory::NoMemory;
use crate::texts::Text;
use std::alloc::Global;

/// A signal's name, as the source spells it.
#[derive(Drop)]
pub struct SignalInfo {
    pub name: Text,
}

/// What a program's environment keeps of its given signals, the inputs and those that are input and output, in every
/// instant.
#[derive(Drop)]
pub enum InputRelation {
    /// The second signal is present whenever the first one is.
    Implies(SigId, SigId),
    /// At most one of the signals is present; one that the list names twice counts once.
    Excludes(Vec<SigId>),
}

/// The same relations, in memory of their own. Its only error is out of memory.
pub fn copy_relations(
    alloc: Global,
    relations: &[InputRelation],
) -> Result<Vec<InputRelation>, NoMemory>
    ensures { IfOk result (λ v. map relation_of v.items ≡ map relation_of relations.now) }
{
    let mut copies = Vec::new(alloc);
    for relation in relations {
        copies.push(copy_relation(alloc, relation)?)?;
    }
    Ok(copies)
}

// The same relation, in memory of its own.
fn copy_relation(alloc: Global, relation: &InputRelation) -> Result<InputRelation, NoMemory>
    ensures { IfOk result (λ r. relation_of r ≡ relation_of relation.now) }
{
    match relation {
        InputRelation::Implies(cause, effect) => Ok(InputRelation::Implies(*cause, *effect)),
        InputRelation::Excludes(inputs) => {
            Ok(InputRelation::Excludes(Vec::from_slice(alloc, inputs.as_slice())?))
        }
    }
}
