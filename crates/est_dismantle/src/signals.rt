// The new signals of a program.

ghost use Rattle.std.specs.Prelude.{◌≡◌, ◌++◌, IfOk, map, replicate, codes};

use base_types::{NoMemory, SignalInfo, Text};
use std::alloc::Global;

/// These signals, and after them this many new ones, each of the name `x`.
pub(crate) fn signals_with(
    alloc: Global,
    signals: Vec<SignalInfo>,
    new: u32,
) -> Result<Vec<SignalInfo>, NoMemory>
    ensures { IfOk result (λ v. map (λ s. s.name) v.items
        ≡ map (λ s. s.name) signals.items ++ replicate new (codes "x")) }
{
    let mut all = signals;
    for _ in 0..new {
        let name = Text::from_bytes(alloc, b"x")?;
        all.push(SignalInfo { name })?;
    }
    Ok(all)
}
