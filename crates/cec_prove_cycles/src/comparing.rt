// Whether two sources do the same.

ghost use Rattle.std.specs.Prelude.{◌≤◌, length, option_map, IfErr, IfOk};
ghost use Rattle.est_kernel.specs.Plain.{program_of};
ghost use Rattle.est_kernel.specs.WellFormed.{IsWellFormed};
ghost use Rattle.net_ir.specs.Runs.{netlist_of};
ghost use Rattle.cec_compile.specs.NetMeaning.{NetKeeps};
ghost use Rattle.cec_cycles.specs.Constructive.{IsRefusedConstructive, StandsForConstructiveMade};
ghost use Rattle.cec_prove_cycles.specs.Answers.{ComparesWithConstructive, HasConstructiveComparison};
ghost use Rattle.cec_prove_cycles.specs.Answers.{IsPairRefusedConstructive};

use crate::refusal::CyclePairRefusal;
use base_types::Limits;
use cec_compile::{Made, TextForm, source_made};
use cec_cycles::{CycleRefusal, cyclic_made};
use cec_prove_sources::{Comparison, net_comparison};
use grc_order::Picker;
use std::alloc::Global;

/// The program of a source whose dependencies may have a cycle, and a netlist that keeps what it means. Where the
/// dependencies have no cycle, it is that of its BLIF text. The effort is that of `constructive_verdict_of`.
///
/// It refuses what `constructive_verdict_of` refuses.
pub fn constructive_made<P: Picker>(
    alloc: Global,
    text: &[u8],
    main: Option<&[u8]>,
    picker: &mut P,
    effort: u64,
) -> Result<Made, CycleRefusal>
    requires { length text.now ≤ Limits.SOURCE_BYTES }
    ensures compiles { IfOk result (λ made. StandsForConstructiveMade text.now
        (option_map (λ m. m.now) main.entry) (program_of made.program) (netlist_of made.net)) }
    ensures refuses { IfErr result (IsRefusedConstructive text.now (option_map (λ m. m.now) main.entry)) }
{
    match source_made(alloc, TextForm::Blif, text, main, picker) {
        Ok(made) => Ok(made),
        Err(refusal) => cyclic_made(alloc, text, main, refusal, effort),
    }
}

// The comparison of a program with another source.
fn compared_with<P: Picker>(
    alloc: Global,
    left: &Made,
    text: &[u8],
    main: Option<&[u8]>,
    picker: &mut P,
    effort: u64,
) -> Result<Comparison, CycleRefusal>
    requires short { length text.now ≤ Limits.SOURCE_BYTES }
    requires fits { IsWellFormed (program_of left.now.program) }
    requires keeps { NetKeeps (netlist_of left.now.net) (program_of left.now.program) }
    ensures compares { IfOk result (ComparesWithConstructive (program_of left.now.program) text.now
        (option_map (λ m. m.now) main.entry)) }
    ensures refuses { IfErr result (IsRefusedConstructive text.now (option_map (λ m. m.now) main.entry)) }
{
    let right = constructive_made(alloc, text, main, picker, effort)?;
    let comparison = net_comparison(alloc, left, &right, effort)?;
    Ok(comparison)
}

/// Whether two sources do the same, each of them by its module of this name, or by its first one. The dependencies of
/// either may have a cycle. The comparison is that of their programs (`cec_prove_sources::net_comparison`). The effort
/// is that of `constructive_verdict_of`.
///
/// It refuses what `constructive_verdict_of` refuses, of the first source, and else of the second one.
pub fn constructive_comparison_of<P: Picker>(
    alloc: Global,
    first: &[u8],
    second: &[u8],
    main: Option<&[u8]>,
    picker: &mut P,
    effort: u64,
) -> Result<Comparison, CyclePairRefusal>
    requires first { length first.now ≤ Limits.SOURCE_BYTES }
    requires second { length second.now ≤ Limits.SOURCE_BYTES }
    ensures compares { IfOk result (HasConstructiveComparison first.now second.now
        (option_map (λ m. m.now) main.entry)) }
    ensures refuses { IfErr result (IsPairRefusedConstructive first.now second.now
        (option_map (λ m. m.now) main.entry)) }
{
    let left = match constructive_made(alloc, first, main, picker, effort) {
        Ok(made) => made,
        Err(refusal) => return Err(CyclePairRefusal::First(refusal)),
    };
    match compared_with(alloc, &left, second, main, picker, effort) {
        Ok(comparison) => Ok(comparison),
        Err(refusal) => Err(CyclePairRefusal::Second(refusal)),
    }
}
