// Names of new signals.

ghost use Rattle.std.specs.Prelude.{◌≡◌, ◌&&◌, ◌+◌, ◌≤◌, ◌∷◌, IfOk, IsTrue, OnOk, decimal, length, map, take};
ghost use Rattle.std.specs.List.{list_all, list_any};
ghost use Rattle.base_types.specs.Distinct.{all_differ};
ghost use Rattle.base_types.specs.Names.{is_name, is_name_byte, is_same_name};
ghost use Rattle.est_ast.specs.FlatPrograms.{IsNamed};
ghost use Rattle.est_ast.specs.FlatViews.{flat_of};
ghost use Rattle.est_cover.specs.Covered.{visible_count};
ghost use Rattle.est_cover.specs.NewNames.{AreNew};

use base_types::{NoMemory, SignalInfo, Text, is_letter, is_name_byte, put_number};
use est_ast::Flat;
use std::alloc::Global;

/// Names for this many new outgoing signals of a program, or for fewer: names such as `p0` that the environment does
/// not see in the program. Out of memory is the only error.
pub fn new_names(alloc: Global, flat: &Flat, count: usize) -> Result<Vec<SignalInfo>, NoMemory>
    requires interface { visible_count (flat_of flat.now) ≤ length flat.now.signals.items }
    requires few { count ≤ 4096 }
    requires differ { IsTrue (all_differ is_same_name
        (take (visible_count (flat_of flat.now)) (flat_of flat.now).signals)) }
    ensures count { IfOk result (λ v. length v.items ≤ count) }
    ensures new { IfOk result (λ v. AreNew (take (visible_count (flat_of flat.now)) (flat_of flat.now).signals)
        (map (λ s. s.name) v.items)) }
{
    let seen = (flat.inputs + (flat.both + flat.outputs)) as usize;
    names_beside(alloc, &flat.signals[..seen], count)
}

// The same for a program of which the environment sees these signals.
#[tactic(auto, using(crate::proofs::FreshNames::name_rows))]
fn names_beside(
    alloc: Global,
    given: &[SignalInfo],
    count: usize,
) -> Result<Vec<SignalInfo>, NoMemory>
    requires few { count ≤ 4096 }
    requires given { length given.now ≤ 4096 }
    requires differ { IsTrue (all_differ is_same_name (map (λ s. s.name) given.now)) }
    ensures count { IfOk result (λ v. length v.items ≤ count) }
    ensures new { IfOk result (λ v. AreNew (map (λ s. s.name) given.now) (map (λ s. s.name) v.items)) }
{
    let mut made = Vec::new(alloc);
    for number in 0..given.len() + count {
        if made.len() < count {
            push_new(alloc, given, &mut made, number)?;
        }
    }
    Ok(made)
}

// One more name, made of this number, unless there is such a name.
#[tactic(auto, using(crate::proofs::FreshNames::name_rows))]
fn push_new(
    alloc: Global,
    given: &[SignalInfo],
    made: &mut Vec<SignalInfo>,
    number: usize,
) -> Result<(), NoMemory>
    ensures count { OnOk result (length made.new.items ≤ length made.old.items + 1) }
    ensures new { AreNew (map (λ s. s.name) given.now) (map (λ s. s.name) made.old.items)
        → OnOk result (AreNew (map (λ s. s.name) given.now) (map (λ s. s.name) made.new.items)) }
{
    let name = name_of(alloc, number)?;
    if is_among(given, name.bytes()) || is_among(made, name.bytes()) {
        return Ok(());
    }
    made.push(SignalInfo { name })?;
    Ok(())
}

// The name of this number.
fn name_of(alloc: Global, number: usize) -> Result<Text, NoMemory>
    ensures { IfOk result (λ t. t ≡ 112 ∷ decimal number) }
{
    let mut bytes = Vec::new(alloc);
    put_number(&mut bytes, b"p", number)?;
    Text::from_bytes(alloc, bytes.as_slice())
}

// Whether a signal has this name.
fn is_among(signals: &[SignalInfo], name: &[u8]) -> bool
    ensures { result ≡ list_any (is_same_name name.now) (map (λ s. s.name) signals.now) }
{
    for signal in signals {
        if name == signal.name.bytes() {
            return true;
        }
    }
    false
}

/// Reports whether the names of a program and of its interface can be written: a letter, followed by letters, digits
/// and `_`.
pub fn is_named(flat: &Flat) -> bool
    requires { visible_count (flat_of flat.now) ≤ length flat.now.signals.items }
    ensures { IsTrue result → IsNamed (flat_of flat.now) }
{
    let seen = (flat.inputs + (flat.both + flat.outputs)) as usize;
    let written = is_written(flat.name.bytes());
    let all = are_written(&flat.signals[..seen]);
    both(written, all)
}

// Whether both are so.
fn both(left: bool, right: bool) -> bool
    ensures { result ≡ (left && right) }
{
    left && right
}

// Whether each of these names can be written.
fn are_written(signals: &[SignalInfo]) -> bool
    ensures { result ≡ list_all is_name (map (λ s. s.name) signals.now) }
{
    for signal in signals {
        if !is_written(signal.name.bytes()) {
            return false;
        }
    }
    true
}

// Whether a name can be written.
fn is_written(name: &[u8]) -> bool
    ensures { result ≡ is_name name.now }
{
    match name.split_first() {
        None => false,
        Some((first, rest)) => is_letter(*first) && are_name_bytes(rest),
    }
}

// Whether each of these bytes may be in a name.
fn are_name_bytes(bytes: &[u8]) -> bool
    ensures { result ≡ list_all is_name_byte bytes.now }
{
    for byte in bytes {
        if !is_name_byte(*byte) {
            return false;
        }
    }
    true
}
