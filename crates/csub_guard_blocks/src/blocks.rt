// The text of a net in which the gates of a head are in blocks.

ghost use Rattle.std.specs.Prelude.{◌≡◌, ◌≢◌, ℕ, false, ◌+◌, ◌^◌, ◌<◌, ◌≤◌, Some, ◌++◌, length, map};
ghost use Rattle.std.specs.Prelude.{filter};
ghost use Rattle.std.specs.Prelude.{flat_map, slice_index_or, IfOk, OnOk, All};
ghost use Rattle.std.specs.List.{list_any};
ghost use Rattle.net_ir.specs.Runs.{netlist_of};
ghost use Rattle.net_ir.specs.declared.netlist.Gate.{Gate as stored_gate};
ghost use Rattle.net_writer.specs.Parts.{PutsPlace};
ghost use Rattle.csub_text.specs.Parts.{net_parts};
ghost use Rattle.csub_text.specs.Trees.{Const};
ghost use Rattle.csub_text.specs.Written.{assign_line, gate_assign, gate_name};
ghost use Rattle.csub_guard_blocks.specs.Blocks.{HasHead, Run, piece_text, group_piece};
ghost use Rattle.csub_guard_blocks.specs.Blocks.{head_of, is_outer, members_between, member_assign, zero_assign};
ghost use Rattle.csub_guard_blocks.specs.Blocks.{if_line, head_name, second_text, parts_before};
ghost use Rattle.csub_guard_blocks.specs.declared.owning.Owner.TheVariants as codes;
ghost use Rattle.csub_guard_blocks.specs.Pieces.{PutsPlain, groups_from, text_from};
ghost use Rattle.csub_guard_blocks.specs.Usages.{owner_in};

use crate::owning::Owner;
use base_types::{NoMemory, put};
use csub_text::CWriter;
use net_expressions::put_gate_name;
use net_ir::{Gate, Net};
use net_writer::put_part;
use std::alloc::Global;

// Puts what stands at a place after a text: a part of the text of the C subset, or in place of those of gates one that
// belongs to no head, or the block of those that do from there on. The answer is the place after; none at the end.
pub fn put_place(
    text: &mut Vec<u8>,
    net: &Net,
    owners: &[Owner],
    place: u128,
) -> Result<Option<u128>, NoMemory>
    requires count { length owners.now ≡ length net.now.gates.items }
    requires heads { All (λ o. HasHead (length net.now.gates.items) (owner_in o)) owners.now }
    ensures { IfOk result (PutsPlace (text_from (netlist_of net.now) (map owner_in owners.now)) place
        text.old.items text.new.items) }
{
    let begin = gates_begin(net);
    let end = begin + net.gates.len() as u128;
    if place < begin {
        return put_plain(text, net, place);
    }
    if end <= place {
        return put_plain(text, net, place);
    }
    let next = put_group(text, net, owners, (place - begin) as usize)?;
    Ok(Some(begin + next as u128))
}

// Puts a part of the text of the C subset after a text. The answer is the number of the next one; none at the end.
#[tactic(auto, unfolding(csub_text::specs::Parts::net_parts))]
fn put_plain(text: &mut Vec<u8>, net: &Net, place: u128) -> Result<Option<u128>, NoMemory>
    ensures { IfOk result (PutsPlain (net_parts (netlist_of net.now)) place text.old.items text.new.items) }
{
    let writer = CWriter {};
    if put_part(&writer, text, net, place)? {
        Ok(Some(place + 1))
    } else {
        Ok(None)
    }
}

// Puts a gate that belongs to no head after a text, or the block of those that do from this place on. The answer is
// the place after.
fn put_group(text: &mut Vec<u8>, net: &Net, owners: &[Owner], k: usize) -> Result<usize, NoMemory>
    requires count { length owners.now ≡ length net.now.gates.items }
    requires heads { All (λ o. HasHead (length net.now.gates.items) (owner_in o)) owners.now }
    requires here { k < length owners.now }
    ensures more { IfOk result (λ next. k < next) }
    ensures within { IfOk result (λ next. next ≤ length owners.now) }
    ensures text { IfOk result (λ next. text.new.items
        ++ groups_from (netlist_of net.now) (map owner_in owners.now) next
        ≡ text.old.items ++ groups_from (netlist_of net.now) (map owner_in owners.now) k) }
{
    match head_of(owners[k]) {
        None => {
            put_gate(text, net, k)?;
            Ok(k + 1)
        }
        Some(head) => {
            let end = run_end(owners, k, head);
            put_block(text, net, owners, head, k, end)?;
            Ok(end)
        }
    }
}

// The number of the first gate among the parts of the text of the C subset.
fn gates_begin(net: &Net) -> u128
    ensures number { result ≡ length (parts_before (netlist_of net.now)) }
    ensures few { result < 2 ^ 67 }
{
    let latches = net.latches.len() as u128;
    let inputs = net.inputs.len() as u128;
    2 * latches + 3 * inputs + net.outputs.len() as u128 + net.gates.len() as u128 + 2
}

// The place of the head of a gate that belongs so.
fn head_of(owner: Owner) -> Option<usize>
    ensures { result ≡ head_of (owner_in owner) }
{
    match owner {
        Owner::Free => None,
        Owner::Inner(head) | Owner::Outer(head) => Some(head),
    }
}

// Whether a gate that belongs so is used beside the gates of its head.
fn is_outer(owner: Owner) -> bool
    ensures { result ≡ is_outer (owner_in owner) }
{
    matches!(owner, Owner::Outer(_))
}

// The place after the gates of this head that stand one after another from this place on.
fn run_end(owners: &[Owner], begin: usize, head: usize) -> usize
    requires here { begin < length owners.now }
    requires first { head_of (owner_in (slice_index_or owners.now begin codes.Free)) ≡ Some head }
    ensures more { begin < result }
    ensures within { result ≤ length owners.now }
    ensures same { (k : ℕ) → begin ≤ k → k < result
        → head_of (owner_in (slice_index_or owners.now k codes.Free)) ≡ Some head }
    ensures other { result < length owners.now
        → head_of (owner_in (slice_index_or owners.now result codes.Free)) ≢ Some head }
{
    let mut end = begin + 1;
    while end < owners.len() && head_of(owners[end]) == Some(head) {
        end += 1;
    }
    end
}

// The gates of a head from one place up to another, as a block.
fn put_block(
    text: &mut Vec<u8>,
    net: &Net,
    owners: &[Owner],
    head: usize,
    begin: usize,
    end: usize,
) -> Result<(), NoMemory>
    requires count { length owners.now ≡ length net.now.gates.items }
    requires head { head < length net.now.gates.items }
    requires within { end ≤ length owners.now }
    requires some { begin ≤ end }
    ensures { OnOk result (text.new.items ≡ text.old.items ++ piece_text (group_piece (netlist_of net.now)
        (Run head (members_between net.now.gates.items (map owner_in owners.now) begin end)))) }
{
    put_if(text, net, head)?;
    put_computed(text, net, owners, begin, end)?;
    put_second(text, net, owners, begin, end)
}

// The line that tests whether a head runs.
fn put_if(text: &mut Vec<u8>, net: &Net, head: usize) -> Result<(), NoMemory>
    requires { head < length net.now.gates.items }
    ensures { OnOk result (text.new.items ≡ text.old.items ++ if_line (head_name (netlist_of net.now) head)) }
{
    put(text, b"if (")?;
    put_gate_name(text, head, net.gates[head])?;
    put(text, b") {\n")
}

// The second half of a block, where it has one, and the end of the block.
fn put_second(
    text: &mut Vec<u8>,
    net: &Net,
    owners: &[Owner],
    begin: usize,
    end: usize,
) -> Result<(), NoMemory>
    requires count { length owners.now ≡ length net.now.gates.items }
    requires within { end ≤ length net.now.gates.items }
    requires some { begin ≤ end }
    ensures { OnOk result (text.new.items ≡ text.old.items ++ second_text (map zero_assign (filter (λ m. m.shown)
        (members_between net.now.gates.items (map owner_in owners.now) begin end)))) }
{
    if !has_outer(net, owners, begin, end) {
        return put(text, b"}\n");
    }
    put(text, b"} else {\n")?;
    put_zeros(text, net, owners, begin, end)?;
    put(text, b"}\n")
}

// The gates of a block are computed.
fn put_computed(
    text: &mut Vec<u8>,
    net: &Net,
    owners: &[Owner],
    begin: usize,
    end: usize,
) -> Result<(), NoMemory>
    requires count { length owners.now ≡ length net.now.gates.items }
    requires within { end ≤ length net.now.gates.items }
    requires some { begin ≤ end }
    ensures { OnOk result (text.new.items ≡ text.old.items ++ flat_map assign_line
        (map (member_assign (netlist_of net.now))
        (members_between net.now.gates.items (map owner_in owners.now) begin end))) }
{
    for k in begin..end {
        put_gate(text, net, k)?;
    }
    Ok(())
}

// A gate is computed, as the text of the C subset has it.
fn put_gate(text: &mut Vec<u8>, net: &Net, k: usize) -> Result<(), NoMemory>
    requires { k < length net.now.gates.items }
    ensures { OnOk result ((g : stored_gate) → text.new.items ≡ text.old.items
        ++ assign_line (gate_assign (netlist_of net.now) k (slice_index_or net.now.gates.items k g))) }
{
    let writer = CWriter {};
    put_part(&writer, text, net, gates_begin(net) + k as u128)?;
    Ok(())
}

// Where something beside gates of its head uses a gate of a block, it is given 0.
fn put_zeros(
    text: &mut Vec<u8>,
    net: &Net,
    owners: &[Owner],
    begin: usize,
    end: usize,
) -> Result<(), NoMemory>
    requires count { length owners.now ≡ length net.now.gates.items }
    requires within { end ≤ length net.now.gates.items }
    requires some { begin ≤ end }
    ensures { OnOk result (text.new.items ≡ text.old.items ++ flat_map assign_line
        (map zero_assign (filter (λ m. m.shown)
        (members_between net.now.gates.items (map owner_in owners.now) begin end)))) }
{
    for k in begin..end {
        if is_outer(owners[k]) {
            put_zero(text, k, net.gates[k])?;
        }
    }
    Ok(())
}

// A gate is given 0.
fn put_zero(text: &mut Vec<u8>, k: usize, gate: Gate) -> Result<(), NoMemory>
    ensures { OnOk result (text.new.items ≡ text.old.items
        ++ assign_line (record { target = gate_name k gate.wire; value = Const false })) }
{
    put_gate_name(text, k, gate)?;
    put(text, b" = 0;\n")
}

// Whether something beside gates of its head uses a gate of a block.
fn has_outer(net: &Net, owners: &[Owner], begin: usize, end: usize) -> bool
    requires count { length owners.now ≡ length net.now.gates.items }
    requires within { end ≤ length net.now.gates.items }
    requires some { begin ≤ end }
    ensures { result ≡ list_any (λ m. m.shown)
        (members_between net.now.gates.items (map owner_in owners.now) begin end) }
{
    for k in begin..end {
        if is_outer(owners[k]) {
            return true;
        }
    }
    false
}
