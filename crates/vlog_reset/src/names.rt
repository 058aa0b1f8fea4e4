// The names of the module of a net, and tables of names. Running out of memory is the only error.

ghost use Rattle.std.specs.Prelude.{◌≡◌, ℕ, List, [], ◌∷◌, ◌++◌, map, decimal, IfOk, OnOk};
ghost use Rattle.std.specs.HashSet.{contains_by};
ghost use Rattle.std.specs.List.{range_with_len};
ghost use Rattle.base_types.specs.Names.{is_same_name};
ghost use Rattle.net_ir.specs.NameLists.{first_again, is_among};
ghost use Rattle.net_ir.specs.Runs.{netlist_of};
ghost use Rattle.net_expressions.specs.NameTables.{again_from, name_told};
ghost use Rattle.vlog_reset.specs.Faults.{outer_names, own_names};
ghost use Rattle.vlog_reset.specs.Views.{options_of};
ghost use Rattle.vlog_reset.specs.Written.{input_name, output_name};

use crate::ends::name_of;
use crate::options::ResetOptions;
use crate::writer::{put_input_name, put_output_name};
use base_types::{NoMemory, Text, put_number};
use net_expressions::{name_set, name_table};
use net_ir::{Net, NetOut};
use std::alloc::Global;
use std::collections::HashSet;

// ---- the names of an interface

// The names of the module, of the reset, of the inputs and of the outputs, `paused` among them.
pub fn interface_names(
    alloc: Global,
    net: &Net,
    options: ResetOptions<'_>,
) -> Result<Vec<Text>, NoMemory>
    ensures { IfOk result (λ v. v.items ≡ outer_names (options_of options.entry) (netlist_of net.now)) }
{
    let mut names = Vec::new(alloc);
    push_interface(alloc, &mut names, net, options)?;
    Ok(names)
}

fn push_interface(
    alloc: Global,
    names: &mut Vec<Text>,
    net: &Net,
    options: ResetOptions<'_>,
) -> Result<(), NoMemory>
    ensures { OnOk result (names.new.items
        ≡ names.old.items ++ outer_names (options_of options.entry) (netlist_of net.now)) }
{
    push_name(alloc, names, name_of(net, options))?;
    push_name(alloc, names, options.reset)?;
    push_inputs(alloc, names, &net.inputs, options)?;
    push_outputs(alloc, names, &net.outputs, options)?;
    push_name(alloc, names, b"paused")
}

fn push_name(alloc: Global, names: &mut Vec<Text>, name: &[u8]) -> Result<(), NoMemory>
    ensures { OnOk result (names.new.items ≡ names.old.items ++ name.now ∷ []) }
{
    let text = Text::from_bytes(alloc, name)?;
    names.push(text)?;
    Ok(())
}

fn push_inputs(
    alloc: Global,
    names: &mut Vec<Text>,
    inputs: &[Text],
    options: ResetOptions<'_>,
) -> Result<(), NoMemory>
    ensures { OnOk result (names.new.items
        ≡ names.old.items ++ map (input_name (options_of options.entry)) inputs.now) }
{
    for name in inputs {
        let text = input_text(alloc, name, options)?;
        names.push(text)?;
    }
    Ok(())
}

fn input_text(alloc: Global, name: &Text, options: ResetOptions<'_>) -> Result<Text, NoMemory>
    ensures { IfOk result (λ text. text ≡ input_name (options_of options.entry) name.now) }
{
    let mut bytes = Vec::new(alloc);
    put_input_name(&mut bytes, name, options)?;
    Text::from_bytes(alloc, &bytes)
}

fn push_outputs(
    alloc: Global,
    names: &mut Vec<Text>,
    outputs: &[NetOut],
    options: ResetOptions<'_>,
) -> Result<(), NoMemory>
    ensures { OnOk result (names.new.items
        ≡ names.old.items ++ map (output_name (options_of options.entry)) outputs.now) }
{
    for output in outputs {
        let text = output_text(alloc, output, options)?;
        names.push(text)?;
    }
    Ok(())
}

fn output_text(alloc: Global, output: &NetOut, options: ResetOptions<'_>) -> Result<Text, NoMemory>
    ensures { IfOk result (λ text. text ≡ output_name (options_of options.entry) output.now) }
{
    let mut bytes = Vec::new(alloc);
    put_output_name(&mut bytes, output, options)?;
    Text::from_bytes(alloc, &bytes)
}

// ---- the module's own names

// The names of the clock, of the registers and of the wires.
pub fn own_texts(alloc: Global, net: &Net) -> Result<Vec<Text>, NoMemory>
    ensures { IfOk result (λ v. v.items ≡ own_names (netlist_of net.now)) }
{
    let mut names = Vec::new(alloc);
    push_own(alloc, &mut names, net)?;
    Ok(names)
}

fn push_own(alloc: Global, names: &mut Vec<Text>, net: &Net) -> Result<(), NoMemory>
    ensures { OnOk result (names.new.items ≡ names.old.items ++ own_names (netlist_of net.now)) }
{
    push_name(alloc, names, b"clk")?;
    push_numbered(alloc, names, b"state", net.latches.len())?;
    push_numbered(alloc, names, b"gate", net.gates.len())
}

// So many names, of a mark and a number each.
fn push_numbered(
    alloc: Global,
    names: &mut Vec<Text>,
    mark: &[u8],
    count: usize,
) -> Result<(), NoMemory>
    ensures { OnOk result (names.new.items
        ≡ names.old.items ++ map (λ k. mark.now ++ decimal k) (range_with_len 0 count)) }
{
    for k in 0..count {
        let text = numbered_text(alloc, mark, k)?;
        names.push(text)?;
    }
    Ok(())
}

fn numbered_text(alloc: Global, mark: &[u8], k: usize) -> Result<Text, NoMemory>
    ensures { IfOk result (λ text. text ≡ mark.now ++ decimal k) }
{
    let mut bytes = Vec::new(alloc);
    put_number(&mut bytes, mark, k)?;
    Text::from_bytes(alloc, &bytes)
}

// ---- tables

// The set of some names.
pub fn known_names(alloc: Global, names: &[Text]) -> Result<HashSet<&[u8]>, NoMemory>
    ensures { IfOk result
        (λ s. (n : List ℕ) → contains_by (λ k. is_same_name n k.now) s ≡ is_among n names.now) }
{
    let words = name_bytes(alloc, names)?;
    name_set(alloc, &words)
}

// The first name that is in a set or stands a second time.
pub fn name_again_among<'a>(
    alloc: Global,
    known: &HashSet<&[u8]>,
    names: &'a [Text],
) -> Result<Option<&'a [u8]>, NoMemory>
    ensures { IfOk result (λ again. name_told again
        ≡ again_from (λ n. contains_by (λ k. is_same_name n k.now) known.now) names.now) }
{
    let words = name_bytes(alloc, names)?;
    let table = name_table(alloc, known, &words)?;
    Ok(table.again)
}

fn name_bytes(alloc: Global, names: &[Text]) -> Result<Vec<&[u8]>, NoMemory>
    ensures { IfOk result (λ v. map (λ w. w.now) v.items ≡ names.now) }
{
    let mut words = Vec::new(alloc);
    for name in names {
        words.push(name.bytes())?;
    }
    Ok(words)
}
