// The nets of the next state, and of the sources of a graph's system.

ghost use Rattle.std.specs.Prelude.{◌≡◌, ◌+◌, ◌<◌, ◌^◌, length, IfOk, IsTrue, All};
ghost use Rattle.grc_formulas.specs.Rows.{source_fits};
ghost use Rattle.net_cycles.specs.Bases.{IsWhole, NextMade, bounds_of, sources_of};

use crate::base::{Base, Nets};
use crate::formulas::lower;
use crate::rows::source_net;
use base_types::{NetId, NoMemory};
use grc_formulas::Words;
use net_unroll::{GrowFault, Growing};
use std::alloc::Global;

/// The net of the next value of each leaf.
pub fn next_nets(
    alloc: Global,
    gates: &mut Growing,
    nets: &Nets<'_>,
) -> Result<Vec<NetId>, GrowFault>
    requires whole { IsWhole nets.now gates.old }
    ensures { IfOk result
        (λ made. NextMade nets.now gates.old gates.new made.items (length nets.now.graph.now.next.items)) }
{
    let mut made = Vec::new(alloc);
    for formula in nets.graph.next.as_slice() {
        let net = lower(gates, nets, formula)?;
        made.push(net)?;
    }
    Ok(made)
}

/// The nets of the sources of a graph's system, in their order.
pub fn source_nets(
    alloc: Global,
    base: Base,
    words: &Words,
    rows: &[NetId],
) -> Result<Vec<NetId>, NoMemory>
    requires fits { All (λ s. IsTrue (source_fits (bounds_of base 0 (length rows.now)) s)) words.now.selected.items }
    requires few { base.given + 1 + base.leaves < 2 ^ 32 }
    ensures { IfOk result (λ nets. nets.items ≡ sources_of base words.now rows.now) }
{
    let mut nets = vec![in alloc; base.no, base.yes, NetId(base.given)]?;
    for signal in 0..base.given {
        nets.push(NetId(signal))?;
    }
    for source in words.selected.as_slice() {
        let net = source_net(base, &[], rows, *source);
        nets.push(net)?;
    }
    Ok(nets)
}
