// The optimized netlist of a text, and its texts.

ghost use Rattle.std.specs.Prelude.{◌≤◌, length, map, IfOk};
ghost use Rattle.base_types.specs.Stops.{IfFault};
ghost use Rattle.net_ir.specs.Runs.{netlist_of};
ghost use Rattle.blif_text.specs.Written as blif_texts;
ghost use Rattle.csub_text.specs.Written as c_texts;
ghost use Rattle.vlog_text.specs.Written as verilog_texts;
ghost use Rattle.cec_opt_texts.specs.Faults.{IsGivenFault, IsNoInput, IsOptFault};
ghost use Rattle.cec_opt_texts.specs.Alike.{BlifKeeps, CKeeps, VerilogKeeps};
ghost use Rattle.cec_opt_texts.specs.Optimized.{IsSmallFor, IsSmallNetOf, IsSmallText, IsTextNet};
ghost use Rattle.cec_opt_texts.specs.Related.{named_relation, numbered_relations};

use crate::relations::{GivenRelation, numbered_relations};
use base_types::{Limits, Stop};
use blif_net::net_of_circuit;
use blif_read::{BlifFault, read_blif};
use blif_text::write_blif;
use csub_text::write_c;
use net_ir::Net;
use net_relations::optimize_under;
use std::alloc::Global;
use vlog_text::write_verilog;

/// The BLIF text of the optimized netlist of a BLIF text. Over all items whose events meet the given relations it shows
/// what the text shows that was read, on the same inputs and outputs. The fault is the text's first one. Where it has
/// none, the fault is the first name of a relation that is no input. Out of memory is the only other error.
///
/// Example: of two latches with the same source and the same first value, the text has one.
pub fn optimized_blif(
    alloc: Global,
    text: &[u8],
    given: &[GivenRelation<'_>],
) -> Result<Vec<u8>, Stop<BlifFault>>
    requires { length text.now ≤ Limits.TEXT_BYTES }
    ensures keeps { IfOk result (λ written. BlifKeeps text.now (map named_relation given.now) written.items) }
    ensures small { IfOk result
        (λ written. IsSmallText text.now (map named_relation given.now) blif_texts.written written.items) }
    ensures fault { IfFault result (IsGivenFault text.now (map named_relation given.now)) }
{
    let net = optimized_net(alloc, text, given)?;
    let written = write_blif(alloc, &net)?;
    Ok(written)
}

/// The C text of the optimized netlist of a BLIF text, the same.
pub fn optimized_c(
    alloc: Global,
    text: &[u8],
    given: &[GivenRelation<'_>],
) -> Result<Vec<u8>, Stop<BlifFault>>
    requires { length text.now ≤ Limits.TEXT_BYTES }
    ensures keeps { IfOk result (λ written. CKeeps text.now (map named_relation given.now) written.items) }
    ensures small { IfOk result
        (λ written. IsSmallText text.now (map named_relation given.now) c_texts.written written.items) }
    ensures fault { IfFault result (IsGivenFault text.now (map named_relation given.now)) }
{
    let net = optimized_net(alloc, text, given)?;
    let written = write_c(alloc, &net)?;
    Ok(written)
}

/// The structural Verilog of the optimized netlist of a BLIF text, the same.
pub fn optimized_verilog(
    alloc: Global,
    text: &[u8],
    given: &[GivenRelation<'_>],
) -> Result<Vec<u8>, Stop<BlifFault>>
    requires { length text.now ≤ Limits.TEXT_BYTES }
    ensures keeps { IfOk result (λ written. VerilogKeeps text.now (map named_relation given.now) written.items) }
    ensures small { IfOk result
        (λ written. IsSmallText text.now (map named_relation given.now) verilog_texts.written written.items) }
    ensures fault { IfFault result (IsGivenFault text.now (map named_relation given.now)) }
{
    let net = optimized_net(alloc, text, given)?;
    let written = write_verilog(alloc, &net)?;
    Ok(written)
}

/// The netlist of a BLIF text, optimized where its inputs meet the given relations: its circuit's netlist, with no more
/// gates and no more latches.
pub fn optimized_net(
    alloc: Global,
    text: &[u8],
    given: &[GivenRelation<'_>],
) -> Result<Net, Stop<BlifFault>>
    requires { length text.now ≤ Limits.TEXT_BYTES }
    ensures small { IfOk result (λ net. IsSmallNetOf text.now (map named_relation given.now) (netlist_of net)) }
    ensures fault { IfFault result (IsGivenFault text.now (map named_relation given.now)) }
{
    match text_net(alloc, text) {
        Ok(net) => optimized_under(alloc, &net, given),
        Err(stop) => Err(stop),
    }
}

/// A netlist, optimized where its inputs meet the given relations. The fault is the first name of a relation that is no
/// input, and out of memory is the only other error.
///
/// Example: where the second of two inputs is present whenever the first one is, their conjunction is the first one.
pub fn optimized_under(
    alloc: Global,
    net: &Net,
    given: &[GivenRelation<'_>],
) -> Result<Net, Stop<BlifFault>>
    ensures small { IfOk result
        (λ small. IsSmallFor (map named_relation given.now) (netlist_of net.now) (netlist_of small)) }
    ensures fault { IfFault result
        (IsNoInput (numbered_relations (netlist_of net.now).inputs (map named_relation given.now))) }
{
    match numbered_relations(alloc, &net.inputs, given) {
        Ok(relations) => {
            let small = optimize_under(alloc, net, &relations)?;
            Ok(small)
        }
        Err(stop) => Err(stop),
    }
}

/// The netlist of a BLIF text, as the text describes it: its circuit's netlist.
pub fn text_net(alloc: Global, text: &[u8]) -> Result<Net, Stop<BlifFault>>
    requires { length text.now ≤ Limits.TEXT_BYTES }
    ensures net { IfOk result (λ net. IsTextNet text.now (netlist_of net)) }
    ensures fault { IfFault result (IsOptFault text.now) }
{
    let blif = read_blif(alloc, text)?;
    net_of_circuit(alloc, &blif)
}
