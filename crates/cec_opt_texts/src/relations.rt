// Relations of the inputs of a netlist, which are given by their names.

ghost use Rattle.std.specs.Prelude.{◌≡◌, ◌≤◌, ◌^◌, length, map, position, Ok, IfOk};
ghost use Rattle.base_types.specs.Names.{is_same_name};
ghost use Rattle.base_types.specs.Relations.{relation_of, Implies};
ghost use Rattle.base_types.specs.Stops.{FaultIs, IfFault};
ghost use Rattle.cec_opt_texts.specs.Faults.{IsNoInput};
ghost use Rattle.cec_opt_texts.specs.Related.{
  input_number,
  input_numbers,
  named_relation,
  names_between_commas,
  numbered_relation,
  numbered_relations,
  Implication,
  Never,
};

use base_types::{InputRelation, NoMemory, SigId, Stop, Text};
use blif_read::BlifFault;
use std::alloc::Global;

/// What the environment keeps of the inputs of a text in every instant, by their names.
#[derive(Clone, Copy)]
pub enum GivenRelation<'a> {
    /// At most one of the inputs is present. The names have commas between them, and one that is named twice counts
    /// once.
    Never(&'a [u8]),
    /// The second input is present whenever the first one is.
    Implies(&'a [u8], &'a [u8]),
}

/// The relations by the numbers of the inputs. The fault is the first name that is no input.
pub(crate) fn numbered_relations(
    alloc: Global,
    inputs: &[Text],
    given: &[GivenRelation<'_>],
) -> Result<Vec<InputRelation>, Stop<BlifFault>>
    requires { length inputs.now ≤ 2 ^ 32 }
    ensures found { IfOk result
        (λ list. numbered_relations inputs.now (map named_relation given.now) ≡ Ok (map relation_of list.items)) }
    ensures fault { IfFault result (IsNoInput (numbered_relations inputs.now (map named_relation given.now))) }
{
    let mut found = Vec::new(alloc);
    for relation in given {
        match numbered_relation(alloc, inputs, *relation) {
            Ok(next) => found.push(next)?,
            Err(stop) => return Err(stop),
        }
    }
    Ok(found)
}

fn numbered_relation(
    alloc: Global,
    inputs: &[Text],
    relation: GivenRelation<'_>,
) -> Result<InputRelation, Stop<BlifFault>>
    requires { length inputs.now ≤ 2 ^ 32 }
    ensures found { IfOk result
        (λ r. numbered_relation inputs.now (named_relation relation.entry) ≡ Ok (relation_of r)) }
    ensures fault { IfFault result (IsNoInput (numbered_relation inputs.now (named_relation relation.entry))) }
{
    match relation {
        GivenRelation::Never(names) => exclusion(alloc, inputs, names),
        GivenRelation::Implies(a, b) => implication(alloc, inputs, a, b),
    }
}

fn exclusion(alloc: Global, inputs: &[Text], names: &[u8]) -> Result<InputRelation, Stop<BlifFault>>
    requires { length inputs.now ≤ 2 ^ 32 }
    ensures found { IfOk result
        (λ r. numbered_relation inputs.now (Never (names_between_commas names.now)) ≡ Ok (relation_of r)) }
    ensures fault { IfFault result (IsNoInput (numbered_relation inputs.now (Never (names_between_commas names.now)))) }
{
    let list = names_between_commas(alloc, names)?;
    match input_numbers(alloc, inputs, &list) {
        Ok(numbers) => Ok(InputRelation::Excludes(numbers)),
        Err(stop) => Err(stop),
    }
}

fn implication(
    alloc: Global,
    inputs: &[Text],
    a: &[u8],
    b: &[u8],
) -> Result<InputRelation, Stop<BlifFault>>
    requires { length inputs.now ≤ 2 ^ 32 }
    ensures found { IfOk result (λ r. numbered_relation inputs.now (Implication a.now b.now) ≡ Ok (relation_of r)) }
    ensures fault { IfFault result (IsNoInput (numbered_relation inputs.now (Implication a.now b.now))) }
{
    let cause = input_number(alloc, inputs, a)?;
    let effect = input_number(alloc, inputs, b)?;
    Ok(InputRelation::Implies(cause, effect))
}

fn names_between_commas(alloc: Global, names: &[u8]) -> Result<Vec<&[u8]>, NoMemory>
    ensures { IfOk result (λ list. map (λ name. name.now) list.items ≡ names_between_commas names.now) }
{
    let list = names.split(|byte| *byte == b',').collect(alloc)?;
    Ok(list)
}

fn input_numbers(
    alloc: Global,
    inputs: &[Text],
    names: &[&[u8]],
) -> Result<Vec<SigId>, Stop<BlifFault>>
    requires { length inputs.now ≤ 2 ^ 32 }
    ensures found { IfOk result
        (λ list. input_numbers inputs.now (map (λ name. name.now) names.now) ≡ Ok (map (λ s. s.0) list.items)) }
    ensures fault { IfFault result (IsNoInput (input_numbers inputs.now (map (λ name. name.now) names.now))) }
{
    let mut found = Vec::new(alloc);
    for name in names {
        match input_number(alloc, inputs, name) {
            Ok(number) => found.push(number)?,
            Err(stop) => return Err(stop),
        }
    }
    Ok(found)
}

// The number of the input of this name.
fn input_number(alloc: Global, inputs: &[Text], name: &[u8]) -> Result<SigId, Stop<BlifFault>>
    requires { length inputs.now ≤ 2 ^ 32 }
    ensures found { IfOk result (λ n. input_number inputs.now name.now ≡ Ok n.0) }
    ensures fault { IfFault result (IsNoInput (input_number inputs.now name.now)) }
{
    match input_place(inputs, name) {
        Some(place) => Ok(SigId(place as u32)),
        None => Err(no_input(alloc, name)),
    }
}

fn input_place(inputs: &[Text], name: &[u8]) -> Option<usize>
    ensures { result ≡ position (is_same_name name.now) inputs.now }
{
    inputs.iter().position(|input| name == input.bytes())
}

fn no_input(alloc: Global, name: &[u8]) -> Stop<BlifFault>
    ensures { FaultIs (λ fault. fault ≡ BlifFault.NoInput name.now) result }
{
    match Text::from_bytes(alloc, name) {
        Ok(name) => Stop::Fault(BlifFault::NoInput(name)),
        Err(_) => Stop::NoMemory,
    }
}
