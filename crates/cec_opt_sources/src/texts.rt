// The small netlist of a source, and its texts.

ghost use Rattle.std.specs.Prelude.{◌≡◌, ◌≤◌, length, IfOk, IfErr, option_map};
ghost use Rattle.est_kernel.specs.Plain.{program_of};
ghost use Rattle.net_ir.specs.Runs.{netlist_of};
ghost use Rattle.cec_compile.specs.Following.{FollowsGraph};
ghost use Rattle.cec_compile.specs.Refusals.{IsRefused};
ghost use Rattle.cec_opt_sources.specs.SmallTexts.{StandsForSmallNet, StandsForSmallBlif, StandsForSmallC};
ghost use Rattle.cec_opt_sources.specs.SmallTexts.{StandsForSmallVerilog, IsSmallSource, IsSmallBlifOf, IsSmallCOf};
ghost use Rattle.cec_opt_sources.specs.SmallTexts.{IsSmallVerilogOf};

use base_types::Limits;
use blif_text::write_blif;
use cec_compile::{Compiled, Refusal, compile};
use csub_text::write_c;
use grc_order::Picker;
use net_ir::Net;
use net_opt::optimize;
use std::alloc::Global;
use vlog_text::write_verilog;

/// The BLIF text of the small netlist of a source. The compiler-correctness theorem holds of the text (`TextKeeps`), as
/// of that of `cec_compile::blif_of`: it has a reading by the BLIF profile. Over every list of events that meet the
/// source's relations, each reaction of the source is constructive, and the text has a run. Any two runs agree, and the
/// outputs and `_paused` are those of the reactions. It refuses what `blif_of` refuses.
///
/// Example: the text of `module M: output O; emit O end module` begins with `.model M`.
pub fn small_blif_of<P: Picker>(
    alloc: Global,
    text: &[u8],
    main: Option<&[u8]>,
    picker: &mut P,
) -> Result<Vec<u8>, Refusal>
    requires { length text.now ≤ Limits.SOURCE_BYTES }
    ensures compiles { IfOk result (λ written. StandsForSmallBlif text.now
        (option_map (λ m. m.now) main.entry) written.items) }
    ensures made { IfOk result (λ written. IsSmallBlifOf text.now
        (option_map (λ m. m.now) main.entry) written.items) }
    ensures refuses { IfErr result (IsRefused text.now (option_map (λ m. m.now) main.entry)) }
{
    let small = small_net(alloc, text, main, picker)?;
    let net = net_alone(small);
    let written = write_blif(alloc, &net)?;
    Ok(written)
}

/// The C text of the small netlist of a source, the same (`CTextKeeps`).
pub fn small_c_of<P: Picker>(
    alloc: Global,
    text: &[u8],
    main: Option<&[u8]>,
    picker: &mut P,
) -> Result<Vec<u8>, Refusal>
    requires { length text.now ≤ Limits.SOURCE_BYTES }
    ensures compiles { IfOk result (λ written. StandsForSmallC text.now
        (option_map (λ m. m.now) main.entry) written.items) }
    ensures made { IfOk result (λ written. IsSmallCOf text.now
        (option_map (λ m. m.now) main.entry) written.items) }
    ensures refuses { IfErr result (IsRefused text.now (option_map (λ m. m.now) main.entry)) }
{
    let small = small_net(alloc, text, main, picker)?;
    let net = net_alone(small);
    let written = write_c(alloc, &net)?;
    Ok(written)
}

/// The structural Verilog of the small netlist of a source, the same (`VerilogTextKeeps`).
pub fn small_verilog_of<P: Picker>(
    alloc: Global,
    text: &[u8],
    main: Option<&[u8]>,
    picker: &mut P,
) -> Result<Vec<u8>, Refusal>
    requires { length text.now ≤ Limits.SOURCE_BYTES }
    ensures compiles { IfOk result (λ written. StandsForSmallVerilog text.now
        (option_map (λ m. m.now) main.entry) written.items) }
    ensures made { IfOk result (λ written. IsSmallVerilogOf text.now
        (option_map (λ m. m.now) main.entry) written.items) }
    ensures refuses { IfErr result (IsRefused text.now (option_map (λ m. m.now) main.entry)) }
{
    let small = small_net(alloc, text, main, picker)?;
    let net = net_alone(small);
    let written = write_verilog(alloc, &net)?;
    Ok(written)
}

/// A source compiled, and the optimized netlist of it.
#[derive(Drop)]
pub struct SmallSource {
    pub compiled: Compiled,
    pub net: Net,
}

/// A source compiled, and its netlist optimized. The optimized netlist keeps what the source's program means
/// (`NetKeeps`), and has no more gates and no more latches than that of the compiled source. It refuses what `compile`
/// refuses.
pub fn small_net<P: Picker>(
    alloc: Global,
    text: &[u8],
    main: Option<&[u8]>,
    picker: &mut P,
) -> Result<SmallSource, Refusal>
    requires { length text.now ≤ Limits.SOURCE_BYTES }
    ensures compiles { IfOk result (λ s. StandsForSmallNet text.now
        (option_map (λ m. m.now) main.entry) (netlist_of s.net)) }
    ensures made { IfOk result (IsSmallSource text.now (option_map (λ m. m.now) main.entry)) }
    ensures follows { IfOk result (λ s. FollowsGraph s.compiled) }
    ensures refuses { IfErr result (IsRefused text.now (option_map (λ m. m.now) main.entry)) }
{
    let compiled = compile(alloc, text, main, picker)?;
    let net = optimize(alloc, &compiled.net)?;
    Ok(SmallSource { compiled, net })
}

// The optimized netlist alone.
fn net_alone(small: SmallSource) -> Net
    ensures { result ≡ small.net }
{
    let SmallSource { net, .. } = small;
    net
}
