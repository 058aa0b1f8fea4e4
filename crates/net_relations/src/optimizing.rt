// The optimized netlist where the inputs meet relations.

ghost use Rattle.std.specs.Prelude.{map, IfOk};
ghost use Rattle.base_types.specs.Relations.{relation_of};
ghost use Rattle.net_ir.specs.Runs.{netlist_of};
ghost use Rattle.net_simp.specs.SimpleNets.{IsSimple};
ghost use Rattle.net_opt.specs.Shown.{EachIsShown};
ghost use Rattle.net_relations.specs.Under.{OptimizesUnder};

use crate::implications::implications_of;
use crate::stripping::stripped_net;
use base_types::{InputRelation, NoMemory};
use net_ir::Net;
use net_opt::optimize;
use std::alloc::Global;

/// A netlist that does what the given one does wherever the inputs meet the relations, with no more gates and no more
/// latches: the same inputs and outputs, in the same order, and over every list of items, resets included, whose events
/// meet the relations, the same outputs and `paused`. A signal of a relation is the input of that number. What
/// `net_opt::optimize` says of latches and gates that stay holds here too. The only error is out of memory.
///
/// Example: where the second of two inputs is present whenever the first one is, their conjunction is the first one.
pub fn optimize_under(
    alloc: Global,
    net: &Net,
    relations: &[InputRelation],
) -> Result<Net, NoMemory>
    ensures optimizes { IfOk result
        (λ new. OptimizesUnder (map relation_of relations.now) (netlist_of net.now) (netlist_of new)) }
    ensures simple { IfOk result (λ new. IsSimple (netlist_of new)) }
    ensures shown { IfOk result (λ new. EachIsShown (netlist_of new)) }
{
    let small = optimize(alloc, net)?;
    let known = implications_of(alloc, relations, net.inputs.len())?;
    if known.is_empty() {
        return Ok(small);
    }
    let stripped = stripped_net(alloc, small, &known)?;
    optimize(alloc, &stripped)
}
