// Tables of gates.

ghost use Rattle.std.specs.Prelude.{◌≡◌, ◌++◌, ◌∷◌, [], length, IfOk};

use crate::gates::Gate;
use base_types::NoMemory;

/// Puts a gate at the end of a table, and gives its place there. Its only error is out of memory.
pub fn push_gate(table: &mut Vec<Gate>, gate: Gate) -> Result<usize, NoMemory>
    ensures table { IfOk result (λ n. table.new.items ≡ table.old.items ++ gate ∷ []) }
    ensures place { IfOk result (λ n. n ≡ length table.old.items) }
{
    let place = table.len();
    table.push(gate)?;
    Ok(place)
}
