// Whether the names of a circuit are those of a netlist's interface.

ghost use Rattle.std.specs.Prelude.{◌≡◌, ◌++◌, ℕ, List, [], None, true, false, map, codes, All, IsTrue, OnOk};
ghost use Rattle.std.specs.Prelude.{MatchOption};
ghost use Rattle.std.specs.List.{list_all};
ghost use Rattle.base_types.specs.Names.{is_name, is_name_byte};
ghost use Rattle.base_types.specs.Stops.{IfFault};
ghost use Rattle.net_ir.specs.NameLists.{is_among, first_again};
ghost use Rattle.blif_text.specs.OutputNames.{output_word};
ghost use Rattle.blif_text.specs.Plain.{plain_circuit};
ghost use Rattle.blif_text.specs.Runs.{driven_names};
ghost use Rattle.blif_net.specs.Interfaces.{IsFit, IsCircuitFault, HasName};
ghost use Rattle.blif_net.specs.Checking.{IsModel, IsInput, IsOutput, IsAgain};

use base_types::{NoMemory, Stop, Text, is_letter, is_name_byte};
use blif_read::BlifFault;
use blif_run::{listed_count, tells_pause};
use blif_text::Blif;
use indexmap::IndexSet;
use run_steps::slot_of;
use std::alloc::Global;
use std::collections::HashSet;

/// Whether the names of a circuit are those of a netlist's interface. The slots of the inputs stand first.
pub(crate) fn check_interface(
    alloc: Global,
    blif: &Blif,
    slots: &IndexSet<&[u8]>,
) -> Result<(), Stop<BlifFault>>
    requires { map (λ k. k.now) slots.now.keys ≡ driven_names (plain_circuit blif.now) }
    ensures fits { OnOk result (IsFit (plain_circuit blif.now)) }
    ensures fault { IfFault result (IsCircuitFault (plain_circuit blif.now)) }
{
    if !tells_pause(&blif.outputs) {
        return Err(Stop::Fault(BlifFault::NoPause));
    }
    check_model(alloc, &blif.name)?;
    check_inputs(alloc, &blif.inputs)?;
    let listed = &blif.outputs[..listed_count(&blif.outputs)];
    check_outputs(alloc, &blif.inputs, slots, listed)?;
    check_once(alloc, listed)
}

fn check_model(alloc: Global, name: &Text) -> Result<(), Stop<BlifFault>>
    ensures fits { OnOk result (IsTrue (is_name name.now)) }
    ensures fault { IfFault result (IsModel name.now) }
{
    if is_name(name.bytes()) {
        return Ok(());
    }
    let copy = Text::from_bytes(alloc, name.bytes())?;
    Err(Stop::Fault(BlifFault::Model(copy)))
}

fn check_inputs(alloc: Global, inputs: &[Text]) -> Result<(), Stop<BlifFault>>
    ensures fit { OnOk result (All (λ name. IsTrue (is_name name)) inputs.now) }
    ensures fault { IfFault result (IsInput inputs.now) }
{
    for input in inputs {
        if !is_name(input.bytes()) {
            let copy = Text::from_bytes(alloc, input.bytes())?;
            return Err(Stop::Fault(BlifFault::Input(copy)));
        }
    }
    Ok(())
}

// That each word is that of an output.
fn check_outputs(
    alloc: Global,
    inputs: &[Text],
    slots: &IndexSet<&[u8]>,
    words: &[Text],
) -> Result<(), Stop<BlifFault>>
    requires slots { (others : List (List ℕ)) × (map (λ k. k.now) slots.now.keys ≡ inputs.now ++ others) }
    requires inputs { All (λ name. IsTrue (is_name name)) inputs.now }
    ensures named { OnOk result (All (HasName inputs.now) words.now) }
    ensures fault { IfFault result (IsOutput inputs.now words.now) }
{
    for word in words {
        if !has_name(inputs, slots, word.bytes()) {
            let copy = Text::from_bytes(alloc, word.bytes())?;
            return Err(Stop::Fault(BlifFault::Output(copy)));
        }
    }
    Ok(())
}

// Whether a word is that of an output: a name that no input has, or an input's name with a mark after it.
fn has_name(inputs: &[Text], slots: &IndexSet<&[u8]>, word: &[u8]) -> bool
    requires slots { (others : List (List ℕ)) × (map (λ k. k.now) slots.now.keys ≡ inputs.now ++ others) }
    requires inputs { All (λ name. IsTrue (is_name name)) inputs.now }
    ensures named { result ≡ true → HasName inputs.now word.now }
    ensures nameless { result ≡ false → HasName inputs.now word.now → ⊥ }
{
    match unmarked(word) {
        Some(name) => is_input(inputs, slots, name),
        None => is_name(word) && !is_input(inputs, slots, word),
    }
}

// The name of an output that is an input's too, where this is its word.
fn unmarked(word: &[u8]) -> Option<&[u8]>
    ensures { MatchOption result ((name : List ℕ) → word.now ≡ name ++ codes ".out" → ⊥)
        (λ name. word.now ≡ name.now ++ codes ".out") }
{
    word.strip_suffix(b".out")
}

fn is_input(inputs: &[Text], slots: &IndexSet<&[u8]>, name: &[u8]) -> bool
    requires { (others : List (List ℕ)) × (map (λ k. k.now) slots.now.keys ≡ inputs.now ++ others) }
    ensures { result ≡ is_among name.now inputs.now }
{
    slot_of(slots, name) < inputs.len()
}

// That no word stands a second time.
fn check_once(alloc: Global, words: &[Text]) -> Result<(), Stop<BlifFault>>
    ensures once { OnOk result (first_again [] words.now ≡ None) }
    ensures fault { IfFault result (IsAgain words.now) }
{
    let mut seen = HashSet::new(alloc);
    for word in words {
        if !seen.insert(word.bytes())? {
            let copy = Text::from_bytes(alloc, word.bytes())?;
            return Err(Stop::Fault(BlifFault::Again(copy)));
        }
    }
    Ok(())
}

/// The name of an output that has this word, where the names of the inputs are given.
pub(crate) fn output_name<'a>(inputs: &[Text], word: &'a [u8]) -> &'a [u8]
    requires { HasName inputs.now word.now }
    ensures fits { IsTrue (is_name result.now) }
    ensures word { output_word inputs.now result.now ≡ word.now }
{
    let _count = inputs.len();
    match unmarked(word) {
        Some(name) => name,
        None => word,
    }
}

fn is_name(name: &[u8]) -> bool
    ensures { result ≡ is_name name.now }
{
    match name {
        [] => false,
        [first, rest @ ..] => is_letter(*first) && are_name_bytes(rest),
    }
}

fn are_name_bytes(bytes: &[u8]) -> bool
    ensures { result ≡ list_all is_name_byte bytes.now }
{
    bytes.iter().all(|byte| is_name_byte(*byte))
}
