// How each gate of a net belongs to a head, from the last gate to the first.

ghost use Rattle.std.specs.Prelude.{◌≡◌, ℕ, ◌+◌, ◌<◌, ◌≤◌, ◌||◌, ◌==◌, Option, length, map, if◌then◌else◌, IfOk, All};
ghost use Rattle.std.specs.List.{list_any};
ghost use Rattle.net_ir.specs.Gates.{operand_end, ReadsLower};
ghost use Rattle.net_ir.specs.Netlists.{first_gate, net_count};
ghost use Rattle.net_ir.specs.Runs.{netlist_of};
ghost use Rattle.csub_guard_blocks.specs.Owners.{Usage, Mixed, owners, usage_beside, with_gate, with_operand, both};
ghost use Rattle.csub_guard_blocks.specs.Owners.{usage_by};
ghost use Rattle.csub_guard_blocks.specs.Owners.{owner_of, owner_by, behind};
ghost use Rattle.csub_guard_blocks.specs.Usages.{owner_in, usage_in, region_in, used};

use base_types::{NetId, NoMemory};
use net_ir::{Gate, Latch, Net, NetOut, Op};
use std::alloc::Global;

/// How a gate belongs: to no head; to the head whose gate has this place, and gates of that head alone use it; or to
/// that head, and it is used beside.
#[derive(Clone, Copy)]
pub enum Owner {
    Free,
    Inner(usize),
    Outer(usize),
}

// What uses a net: nothing, gates of the head whose gate has this place alone, or something else.
#[derive(Clone, Copy)]
enum Usage {
    Unused,
    Within(usize),
    Mixed,
}

/// How each gate belongs. `regions` has for each gate the place of the gate that says whether the head of its region
/// runs, if it carries a wire of a region. The time and the memory are linear in the net.
pub fn owners(alloc: Global, net: &Net, regions: &[Option<usize>]) -> Result<Vec<Owner>, NoMemory>
    requires { length regions.now ≡ length net.now.gates.items }
    ensures { IfOk result (λ o. map owner_in o.items ≡ owners (netlist_of net.now) (region_in regions.now)) }
{
    let mut usages = usages_beside(alloc, net)?;
    let mut owners = vec![in alloc; Owner::Free; net.gates.len()]?;
    let first = net.inputs.len() + net.latches.len();
    for k in (0..net.gates.len()).rev() {
        let gate = net.gates[k];
        let owner = owner_of(k, gate, regions[k], usages[first + k]);
        use_operands(&mut usages, owner, gate.op);
        owners[k] = owner;
    }
    Ok(owners)
}

// How the gate at a place belongs, which lies in this region, and whose net is used so.
fn owner_of(k: usize, gate: Gate, region: Option<usize>, usage: Usage) -> Owner
    ensures { owner_in result ≡ owner_of (λ _. region) k gate.wire (usage_in usage) }
{
    match gate.wire {
        None => match usage {
            Usage::Within(head) => behind(k, head, Owner::Inner(head)),
            _ => Owner::Free,
        },
        Some(_) => match region {
            None => Owner::Free,
            Some(head) => behind(k, head, owner_by(head, usage)),
        },
    }
}

// A gate at a place belongs to a head only where it comes after the head's gate.
fn behind(k: usize, head: usize, owner: Owner) -> Owner
    ensures { owner_in result ≡ behind k head (owner_in owner) }
{
    if head < k { owner } else { Owner::Free }
}

// How a gate of a head belongs that is used so.
fn owner_by(head: usize, usage: Usage) -> Owner
    ensures { owner_in result ≡ owner_by head (usage_in usage) }
{
    match usage {
        Usage::Unused => Owner::Inner(head),
        Usage::Mixed => Owner::Outer(head),
        Usage::Within(own) => {
            if head == own {
                Owner::Inner(head)
            } else {
                Owner::Outer(head)
            }
        }
    }
}

// How each net is used by what is no gate.
fn usages_beside(alloc: Global, net: &Net) -> Result<Vec<Usage>, NoMemory>
    ensures count { IfOk result (λ usages. length usages.items ≡ net_count (netlist_of net.now)) }
    ensures says { IfOk result (λ usages. (n : ℕ) → n < net_count (netlist_of net.now)
        → used usages.items n ≡ usage_beside (netlist_of net.now) n) }
{
    let count = net.inputs.len() + net.latches.len() + net.gates.len();
    let mut usages = vec![in alloc; Usage::Unused; count]?;
    use_latches(&mut usages, &net.latches);
    use_outputs(&mut usages, &net.outputs);
    usages[net.paused.0 as usize] = Usage::Mixed;
    Ok(usages)
}

// Latches take nets over.
fn use_latches(usages: &mut [Usage], latches: &[Latch])
    requires within { All (λ l. l.from.0 < length usages.old) latches.now }
    ensures count { length usages.new ≡ length usages.old }
    ensures says { (n : ℕ) → used usages.new n
        ≡ (if list_any (λ l. l.from.0 == n) latches.now then Mixed else used usages.old n) }
{
    for latch in latches {
        usages[latch.from.0 as usize] = Usage::Mixed;
    }
}

// Outputs show nets.
fn use_outputs(usages: &mut [Usage], outputs: &[NetOut])
    requires within { All (λ o. o.net.0 < length usages.old) outputs.now }
    ensures count { length usages.new ≡ length usages.old }
    ensures says { (n : ℕ) → used usages.new n
        ≡ (if list_any (λ o. o.net.0 == n) outputs.now then Mixed else used usages.old n) }
{
    for output in outputs {
        usages[output.net.0 as usize] = Usage::Mixed;
    }
}

// A gate that belongs so reads nets.
fn use_operands(usages: &mut [Usage], owner: Owner, op: Op)
    requires { operand_end op ≤ length usages.old }
    ensures count { length usages.new ≡ length usages.old }
    ensures says { (n : ℕ) → used usages.new n ≡ with_gate (owner_in owner) op n (used usages.old n) }
{
    match op {
        Op::Const(_) => {}
        Op::Copy(a) | Op::Not(a) => use_operand(usages, owner, a),
        Op::And(a, b) | Op::Or(a, b) => {
            use_operand(usages, owner, b);
            use_operand(usages, owner, a);
        }
    }
}

// A gate that belongs so reads a net.
fn use_operand(usages: &mut [Usage], owner: Owner, a: NetId)
    requires { a.0 < length usages.old }
    ensures count { length usages.new ≡ length usages.old }
    ensures says { (n : ℕ) → used usages.new n ≡ with_operand (owner_in owner) a n (used usages.old n) }
{
    let usage = both(usage_by(owner), usages[a.0 as usize]);
    usages[a.0 as usize] = usage;
}

// A use by a gate that belongs so.
fn usage_by(owner: Owner) -> Usage
    ensures { usage_in result ≡ usage_by (owner_in owner) }
{
    match owner {
        Owner::Free => Usage::Mixed,
        Owner::Inner(head) | Owner::Outer(head) => Usage::Within(head),
    }
}

// What uses a net that is used both ways.
fn both(one: Usage, other: Usage) -> Usage
    ensures { usage_in result ≡ both (usage_in one) (usage_in other) }
{
    match one {
        Usage::Unused => other,
        Usage::Mixed => Usage::Mixed,
        Usage::Within(head) => match other {
            Usage::Unused => Usage::Within(head),
            Usage::Mixed => Usage::Mixed,
            Usage::Within(own) => {
                if head == own {
                    Usage::Within(head)
                } else {
                    Usage::Mixed
                }
            }
        },
    }
}
