// The gates that read a code and write one.

ghost use Rattle.std.specs.Prelude.{◌≡◌, ℕ, true, false, ◌+◌, ◌*◌, ◌<◌, ◌≤◌, ◌^◌, ◌&&◌, ◌||◌, None, [], ◌∷◌, ◌++◌};
ghost use Rattle.std.specs.Prelude.{length, map};
ghost use Rattle.std.specs.Prelude.{IfOk, OnOk, All, List, Bool};
ghost use Rattle.net_ir.specs.Gates.{operand_end, ReadsLower, value_in, gate_values};
ghost use Rattle.net_state_enc.specs.Codes.{is_met, are_met, wants};
ghost use Rattle.net_state_enc.specs.Drafts.{Grew, Says, EachSays, bits_at, literals_of, literals_at, values_of};
ghost use Rattle.net_state_enc.specs.Drafts.{wanted};

use crate::codes::Literal;
use base_types::{NetId, NoMemory};
use net_ir::{Gate, Op};
use std::alloc::Global;

/// The gates so far, and the number of the first one.
#[derive(Drop)]
pub(crate) struct Draft {
    pub first: u32,
    pub gates: Vec<Gate>,
}

impl Draft {
    /// The number of the next gate.
    pub(crate) fn next_number(&self) -> u32
        requires { self.now.first + length self.now.gates.items < 2 ^ 32 }
        ensures { result ≡ self.now.first + length self.now.gates.items }
    {
        self.first + self.gates.len() as u32
    }

    /// One more gate, which carries no wire, and its net.
    pub(crate) fn push(&mut self, op: Op) -> Result<NetId, NoMemory>
        requires { self.old.first + length self.old.gates.items < 2 ^ 32 }
        ensures gates { IfOk result (λ n. self.new.gates.items
            ≡ self.old.gates.items ++ record { op = op; wire = None } ∷ []) }
        ensures number { IfOk result (λ n. n.0 ≡ self.old.first + length self.old.gates.items) }
        ensures fits { OnOk result (self.old.first + length self.old.gates.items < 2 ^ 32) }
        ensures first { OnOk result (self.new.first ≡ self.old.first) }
    {
        let number = self.next_number();
        self.gates.push(Gate { op, wire: None })?;
        Ok(NetId(number))
    }
}

// The net of a literal, where the bits of the code are the nets from `base` on.
fn literal_net(draft: &mut Draft, base: u32, literal: Literal) -> Result<NetId, NoMemory>
    requires reads { ReadsLower draft.old.first draft.old.gates.items }
    requires within { base + literal.bit < draft.old.first }
    requires room { draft.old.first + length draft.old.gates.items < 2 ^ 32 }
    ensures grew { OnOk result (Grew draft.old.first draft.old.gates.items draft.new.gates.items 1) }
    ensures says { IfOk result (λ n.
        Says draft.old.first draft.new.gates.items n.0 (λ v. is_met (bits_at base v) literal)) }
    ensures first { OnOk result (draft.new.first ≡ draft.old.first) }
{
    let net = NetId(base + literal.bit);
    if literal.value {
        Ok(net)
    } else {
        Ok(draft.push(Op::Not(net))?)
    }
}

// The net that is true where all literals are met.
fn product(
    draft: &mut Draft,
    yes: NetId,
    base: u32,
    literals: &[Literal],
) -> Result<NetId, NoMemory>
    requires reads { ReadsLower draft.old.first draft.old.gates.items }
    requires within { All (λ l. base + l.bit < draft.old.first) literals.now }
    requires room { draft.old.first + length draft.old.gates.items + 2 * length literals.now < 2 ^ 32 }
    requires yes { Says draft.old.first draft.old.gates.items yes.0 (λ v. true) }
    ensures grew { OnOk result (Grew draft.old.first draft.old.gates.items draft.new.gates.items
        (2 * length literals.now)) }
    ensures says { IfOk result (λ n.
        Says draft.old.first draft.new.gates.items n.0 (λ v. are_met (bits_at base v) literals.now)) }
    ensures first { OnOk result (draft.new.first ≡ draft.old.first) }
{
    let mut net = yes;
    for literal in literals {
        let own = literal_net(draft, base, *literal)?;
        net = draft.push(Op::And(net, own))?;
    }
    Ok(net)
}

/// For each leaf the net that is true where its literals are met.
pub(crate) fn leaf_nets(
    alloc: Global,
    draft: &mut Draft,
    yes: NetId,
    base: u32,
    width: u32,
    codes: &[Vec<Literal>],
) -> Result<Vec<NetId>, NoMemory>
    requires reads { ReadsLower draft.old.first draft.old.gates.items }
    requires within { All (λ ls. All (λ l. l.bit < width) ls) (literals_of codes.now) }
    requires bits { base + width ≤ draft.old.first }
    requires room { draft.old.first + length draft.old.gates.items + 2 * (length codes.now * width) < 2 ^ 32 }
    requires short { All (λ ls. length ls ≤ width) (literals_of codes.now) }
    requires yes { Says draft.old.first draft.old.gates.items yes.0 (λ v. true) }
    ensures grew { OnOk result (Grew draft.old.first draft.old.gates.items draft.new.gates.items
        (2 * (length codes.now * width))) }
    ensures says { IfOk result (λ nets. EachSays draft.old.first draft.new.gates.items nets.items
        (λ k v. are_met (bits_at base v) (literals_at codes.now k))) }
    ensures count { IfOk result (λ nets. length nets.items ≡ length codes.now) }
    ensures first { OnOk result (draft.new.first ≡ draft.old.first) }
{
    let mut nets = Vec::new(alloc);
    for code in codes {
        nets.push(product(draft, yes, base, code)?)?;
    }
    Ok(nets)
}

// Adds a leaf to the bits that it wants true.
fn add_leaf(
    draft: &mut Draft,
    sums: &mut [NetId],
    net: NetId,
    code: &[Literal],
) -> Result<(), NoMemory>
    requires reads { ReadsLower draft.old.first draft.old.gates.items }
    requires within { All (λ l. l.bit < length sums.old) code.now }
    requires sums { All (λ n. n.0 < draft.old.first + length draft.old.gates.items) sums.old }
    requires net { net.0 < draft.old.first + length draft.old.gates.items }
    requires room { draft.old.first + length draft.old.gates.items + length code.now < 2 ^ 32 }
    ensures grew { OnOk result (Grew draft.old.first draft.old.gates.items draft.new.gates.items (length code.now)) }
    ensures says { OnOk result ((ms : ℕ → List Bool → Bool)
        → EachSays draft.old.first draft.old.gates.items sums.old ms
        → EachSays draft.old.first draft.new.gates.items sums.new
        (λ i v. ms i v || (value_in (gate_values v draft.old.gates.items) net.0 && wants i code.now))) }
    ensures count { length sums.new ≡ length sums.old }
    ensures first { OnOk result (draft.new.first ≡ draft.old.first) }
{
    for literal in code {
        if literal.value {
            let place = literal.bit as usize;
            let sum = draft.push(Op::Or(sums[place], net))?;
            sums[place] = sum;
        }
    }
    Ok(())
}

/// For each bit of the code the net that is true where a leaf is selected that wants it true; `nets` say which leaves
/// are.
pub(crate) fn bit_nets(
    alloc: Global,
    draft: &mut Draft,
    no: NetId,
    width: u32,
    codes: &[Vec<Literal>],
    nets: &[NetId],
) -> Result<Vec<NetId>, NoMemory>
    requires reads { ReadsLower draft.old.first draft.old.gates.items }
    requires within { All (λ ls. All (λ l. l.bit < width) ls) (literals_of codes.now) }
    requires short { All (λ ls. length ls ≤ width) (literals_of codes.now) }
    requires count { length nets.now ≡ length codes.now }
    requires room { draft.old.first + length draft.old.gates.items + length codes.now * width < 2 ^ 32 }
    requires nets { All (λ n. n.0 < draft.old.first + length draft.old.gates.items) nets.now }
    requires no { Says draft.old.first draft.old.gates.items no.0 (λ v. false) }
    ensures grew { OnOk result (Grew draft.old.first draft.old.gates.items draft.new.gates.items
        (length codes.now * width)) }
    ensures says { IfOk result (λ sums. EachSays draft.old.first draft.new.gates.items sums.items
        (λ i v. wanted (literals_of codes.now) (values_of draft.old.gates.items nets.now v) i)) }
    ensures count { IfOk result (λ sums. length sums.items ≡ width) }
    ensures first { OnOk result (draft.new.first ≡ draft.old.first) }
{
    let mut sums = vec![in alloc; no; width as usize]?;
    for (k, code) in codes.iter().enumerate() {
        add_leaf(draft, &mut sums, nets[k], code)?;
    }
    Ok(sums)
}
