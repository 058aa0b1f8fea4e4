// Which gates read each node.

ghost use Rattle.std.specs.Prelude.{◌-◌, ◌<◌, ◌^◌, length, MatchOption, IfOk, OnOk, ⊤};
ghost use Rattle.grc_ternary_gates.specs.Linking.{AreLinks, IsLinked, OperandsFit};

use crate::gates::{Gate, Side, operand};
use base_types::NoMemory;
use std::alloc::Global;

/// How the gates that have the same node as an operand follow one another, from the last one back. A gate
/// is meant by the number of gates up to it, itself counted, so that 0 means that there is none.
#[derive(Drop)]
pub struct Links {
    /// For each node, the last gate that has it as the operand.
    pub last: Vec<usize>,
    /// For each gate, the last one before it that has the same operand.
    pub earlier: Vec<usize>,
}

/// The links of gates by one of their operands.
pub(crate) fn link(alloc: Global, gates: &[Gate], side: Side) -> Result<Links, NoMemory>
    requires fit { OperandsFit side gates.now }
    ensures { IfOk result (λ l. AreLinks side gates.now l.last.items l.earlier.items) }
{
    let mut links = Links {
        last: vec![in alloc; 0usize; gates.len()]?,
        earlier: Vec::with_capacity(alloc, gates.len())?,
    };
    for (k, gate) in gates.iter().enumerate() {
        add_link(&mut links, k, operand(*gate, side))?;
    }
    Ok(links)
}

// Adds the links of the gate with this number, which has this operand.
fn add_link(links: &mut Links, gate: usize, operand: Option<usize>) -> Result<(), NoMemory>
    requires node { MatchOption operand ⊤ (λ a. a < length links.old.last.items) }
    requires few { gate < 2 ^ 64 - 1 }
    ensures { OnOk result (IsLinked links.old links.new gate operand) }
{
    match operand {
        None => links.earlier.push(0)?,
        Some(node) => {
            links.earlier.push(links.last[node])?;
            links.last[node] = gate + 1;
        }
    }
    Ok(())
}
