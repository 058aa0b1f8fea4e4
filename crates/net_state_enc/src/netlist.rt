// The netlist whose latches hold a code.

ghost use Rattle.std.specs.Prelude.{◌≡◌, ℕ, true, false, ◌+◌, ◌*◌, ◌<◌, ◌≤◌, ◌^◌, [], ◌∷◌, ◌++◌, length, map, take};
ghost use Rattle.std.specs.Prelude.{IfOk, OnOk, All};
ghost use Rattle.std.specs.Prelude.{None, drop, replicate};
ghost use Rattle.base_types.specs.Stops.{IfFault};
ghost use Rattle.net_ir.specs.Gates.{operand_end, ReadsLower};
ghost use Rattle.net_ir.specs.Netlists.{IsNet, first_gate, net_count};
ghost use Rattle.net_ir.specs.Runs.{netlist_of, initial_latches};
ghost use Rattle.net_simp.specs.Renaming.{stand_in, renamed_out};
ghost use Rattle.net_state_enc.specs.Drafts.{Grew, Says, EachSays, literals_of, values_of, wanted};
ghost use Rattle.net_state_enc.specs.Recodings.{copied, code_base, first_behind, Drawn, bit_latch, coded_net};
ghost use Rattle.net_state_enc.specs.Recodings.{numbers_from};
ghost use Rattle.net_state_enc.specs.Recodings.{latch_net, CopiesDrawn, IsCodedNet};

use crate::codes::Literal;
use crate::gates::{Draft, bit_nets, leaf_nets};
use base_types::{NetId, NoMemory, Stop, Text};
use net_ir::{Gate, Latch, Net, NetOut, Op};
use net_simp::{copied_names, renamed_op, stand_in};
use std::alloc::Global;

// What is drawn for a netlist: the net that stands for each net, the gates, and the nets of the bits.
#[derive(Drop)]
struct Drawing {
    names: Vec<NetId>,
    gates: Vec<Gate>,
    bits: Vec<NetId>,
}

// This many nets from a number on.
fn push_numbers(names: &mut Vec<NetId>, from: u32, count: usize) -> Result<(), NoMemory>
    requires { from + count < 2 ^ 32 }
    ensures { OnOk result (names.new.items ≡ names.old.items ++ numbers_from from count) }
{
    for k in 0..count {
        names.push(NetId(from + k as u32))?;
    }
    Ok(())
}

// The nets that stand for those of a netlist: for those before the leaves each itself, for the leaves these, and for
// the gates the nets from `here` on.
fn new_names(
    alloc: Global,
    base: u32,
    leaves: &[NetId],
    here: u32,
    gates: usize,
) -> Result<Vec<NetId>, NoMemory>
    requires { here + gates < 2 ^ 32 }
    ensures { IfOk result (λ names. names.items ≡ (numbers_from 0 base ++ leaves.now) ++ numbers_from here gates) }
{
    let mut names = Vec::new(alloc);
    push_numbers(&mut names, 0, base as usize)?;
    names.extend_from_slice(leaves)?;
    push_numbers(&mut names, here, gates)?;
    Ok(names)
}

// Copies gates over the nets that stand for those that they read.
fn copy_gates(draft: &mut Draft, names: &[NetId], gates: &[Gate]) -> Result<(), NoMemory>
    requires { All (λ g. operand_end g.op ≤ length names.now) gates.now }
    ensures gates { OnOk result (draft.new.gates.items
        ≡ draft.old.gates.items ++ map (copied (stand_in names.now)) gates.now) }
    ensures first { OnOk result (draft.new.first ≡ draft.old.first) }
{
    for gate in gates {
        let op = renamed_op(names, gate.op);
        let wire = gate.wire;
        draft.gates.push(Gate { op, wire })?;
    }
    Ok(())
}

// The nets that stand for those that latches read.
fn next_nets(alloc: Global, names: &[NetId], latches: &[Latch]) -> Result<Vec<NetId>, NoMemory>
    requires { All (λ l. l.from.0 < length names.now) latches.now }
    ensures { IfOk result (λ v. v.items ≡ map (latch_net (stand_in names.now)) latches.now) }
{
    let mut nets = Vec::new(alloc);
    for latch in latches {
        nets.push(stand_in(names, latch.from))?;
    }
    Ok(nets)
}

// Draws the gates that read the code, after those that there are, and the copies of the gates of a netlist. Answers
// the nets that stand for those of the netlist.
fn draw_copies(
    alloc: Global,
    draft: &mut Draft,
    yes: NetId,
    net: &Net,
    width: u32,
    codes: &[Vec<Literal>],
) -> Result<Vec<NetId>, NoMemory>
    requires count { length codes.now + 1 ≡ length net.now.latches.items }
    requires narrow { width < length codes.now }
    requires first { draft.old.first ≡ first_behind (netlist_of net.now) width }
    requires within { All (λ ls. All (λ l. l.bit < width) ls) (literals_of codes.now) }
    requires short { All (λ ls. length ls ≤ width) (literals_of codes.now) }
    requires reads { ReadsLower draft.old.first draft.old.gates.items }
    requires silent { All (λ g. g.wire ≡ None) draft.old.gates.items }
    requires yes { Says draft.old.first draft.old.gates.items yes.0 (λ v. true) }
    requires room { draft.old.first + length draft.old.gates.items
        + (2 * (length codes.now * width) + length net.now.gates.items) < 2 ^ 32 }
    ensures drawn { IfOk result (λ names. CopiesDrawn (netlist_of net.now) width (literals_of codes.now)
        draft.old.gates.items names.items draft.new.gates.items) }
    ensures first { OnOk result (draft.new.first ≡ draft.old.first) }
{
    let base = draft.first - width;
    let leaves = leaf_nets(alloc, draft, yes, base, width, codes)?;
    let here = draft.next_number();
    let names = new_names(alloc, base, &leaves, here, net.gates.len())?;
    copy_gates(draft, &names, &net.gates)?;
    Ok(names)
}

// Draws the gates that write the code, where `names` tell the nets that stand for those of a netlist.
fn draw_bits(
    alloc: Global,
    draft: &mut Draft,
    no: NetId,
    names: &[NetId],
    net: &Net,
    width: u32,
    codes: &[Vec<Literal>],
) -> Result<Vec<NetId>, NoMemory>
    requires count { length codes.now + 1 ≡ length net.now.latches.items }
    requires within { All (λ ls. All (λ l. l.bit < width) ls) (literals_of codes.now) }
    requires short { All (λ ls. length ls ≤ width) (literals_of codes.now) }
    requires reads { ReadsLower draft.old.first draft.old.gates.items }
    requires names { All (λ l. l.from.0 < length names.now) net.now.latches.items }
    requires low { All (λ l. stand_in names.now l.from.0 < draft.old.first + length draft.old.gates.items)
        net.now.latches.items }
    requires no { Says draft.old.first draft.old.gates.items no.0 (λ v. false) }
    requires room { draft.old.first + length draft.old.gates.items + length codes.now * width < 2 ^ 32 }
    ensures grew { OnOk result (Grew draft.old.first draft.old.gates.items draft.new.gates.items
        (length codes.now * width)) }
    ensures says { IfOk result (λ sums. EachSays draft.old.first draft.new.gates.items sums.items
        (λ i v. wanted (literals_of codes.now) (values_of draft.old.gates.items
        (map (latch_net (stand_in names.now)) (drop 1 net.now.latches.items)) v) i)) }
    ensures count { IfOk result (λ sums. length sums.items ≡ width) }
    ensures first { OnOk result (draft.new.first ≡ draft.old.first) }
{
    let next = next_nets(alloc, names, &net.latches[1..])?;
    let bits = bit_nets(alloc, draft, no, width, codes, &next)?;
    Ok(bits)
}

// What is drawn for a netlist whose leaves have these literals in a code of this width.
fn drawing_of(
    alloc: Global,
    net: &Net,
    width: u32,
    codes: &[Vec<Literal>],
) -> Result<Drawing, NoMemory>
    requires count { length codes.now + 1 ≡ length net.now.latches.items }
    requires narrow { width < length codes.now }
    requires within { All (λ ls. All (λ l. l.bit < width) ls) (literals_of codes.now) }
    requires short { All (λ ls. length ls ≤ width) (literals_of codes.now) }
    requires leaves { length codes.now ≤ 1024 }
    requires nets { length net.now.inputs.items + length net.now.gates.items ≤ 2 ^ 31 }
    ensures { IfOk result (λ d. Drawn (netlist_of net.now) (map (λ l. l.from) (drop 1 net.now.latches.items)) width
        (literals_of codes.now) d.names.items d.gates.items d.bits.items) }
{
    let mut draft = Draft {
        first: net.inputs.len() as u32 + 1 + width,
        gates: Vec::new(alloc),
    };
    let yes = draft.push(Op::Const(true))?;
    let no = draft.push(Op::Const(false))?;
    let names = draw_copies(alloc, &mut draft, yes, net, width, codes)?;
    let bits = draw_bits(alloc, &mut draft, no, &names, net, width, codes)?;
    let Draft { gates, .. } = draft;
    Ok(Drawing { names, gates, bits })
}

/// The netlist has more than 2^31 inputs and gates.
#[derive(Drop)]
pub struct TooManyNets;

/// How many inputs and gates a netlist may have whose state is coded. The gates that read and write a code have room
/// after them.
const NETS_AT_MOST: usize = 0x8000_0000;

/// The netlist whose latches hold the code of those of a netlist, where `codes` are the literals of the leaves in a
/// code of this width.
pub(crate) fn coded_net(
    alloc: Global,
    net: &Net,
    width: u32,
    codes: &[Vec<Literal>],
) -> Result<Net, Stop<TooManyNets>>
    requires count { length codes.now + 1 ≡ length net.now.latches.items }
    requires narrow { width < length codes.now }
    requires within { All (λ ls. All (λ l. l.bit < width) ls) (literals_of codes.now) }
    requires short { All (λ ls. length ls ≤ width) (literals_of codes.now) }
    requires leaves { length codes.now ≤ 1024 }
    requires inits { initial_latches (netlist_of net.now) ≡ true ∷ replicate (length codes.now) false }
    ensures coded { IfOk result (λ new.
        IsCodedNet (netlist_of net.now) (netlist_of new) width (literals_of codes.now)) }
    ensures fault { IfFault result (λ fault. 2 ^ 31 < length net.now.inputs.items + length net.now.gates.items) }
{
    if net.inputs.len() + net.gates.len() > NETS_AT_MOST {
        return Err(Stop::Fault(TooManyNets));
    }
    let Drawing { names, gates, bits } = drawing_of(alloc, net, width, codes)?;
    let made = net_around(alloc, net, &names, gates, &bits)?;
    Ok(made)
}

// The netlist around what is drawn.
fn net_around(
    alloc: Global,
    net: &Net,
    names: &[NetId],
    gates: Vec<Gate>,
    bits: &[NetId],
) -> Result<Net, NoMemory>
    requires boot { 0 < length net.now.latches.items }
    requires names { net_count (netlist_of net.now) ≤ length names.now }
    requires is_net { IsNet (coded_net (netlist_of net.now) (stand_in names.now) gates.items bits.now) }
    ensures { IfOk result (λ new. netlist_of new
        ≡ coded_net (netlist_of net.now) (stand_in names.now) gates.items bits.now) }
{
    let name = Text::from_bytes(alloc, net.name.bytes())?;
    let inputs = copied_names(alloc, &net.inputs)?;
    let outputs = renamed_outputs(alloc, names, &net.outputs)?;
    let paused = stand_in(names, net.paused);
    let latches = code_latches(alloc, stand_in(names, net.latches[0].from), bits)?;
    Ok(Net {
        name,
        inputs,
        outputs,
        paused,
        latches,
        gates,
    })
}

fn renamed_outputs(
    alloc: Global,
    names: &[NetId],
    outputs: &[NetOut],
) -> Result<Vec<NetOut>, NoMemory>
    requires { All (λ o. o.net.0 < length names.now) outputs.now }
    ensures { IfOk result (λ v. v.items ≡ map (renamed_out (stand_in names.now)) outputs.now) }
{
    let mut renamed = Vec::new(alloc);
    for output in outputs {
        let name = Text::from_bytes(alloc, output.name.bytes())?;
        let net = stand_in(names, output.net);
        renamed.push(NetOut { name, net })?;
    }
    Ok(renamed)
}

// The latch that tells the first instant, and one for each bit.
fn code_latches(alloc: Global, boot: NetId, bits: &[NetId]) -> Result<Vec<Latch>, NoMemory>
    ensures { IfOk result (λ v. v.items ≡ record { init = true; from = boot } ∷ map bit_latch bits.now) }
{
    let first = Latch {
        init: true,
        from: boot,
    };
    let mut latches = vec![in alloc; first]?;
    for net in bits {
        latches.push(Latch {
            init: false,
            from: *net,
        })?;
    }
    Ok(latches)
}
