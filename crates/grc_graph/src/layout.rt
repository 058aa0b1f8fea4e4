// How the wires of a program's graph are laid out: those of outgoing signals first, then instance by instance.

ghost use Rattle.std.specs.Prelude.{◌≡◌, ◌+◌, ◌<◌, ◌≤◌, ◌^◌, ◌++◌, length, map, IfOk};
ghost use Rattle.std.specs.List.{range_with_len};
ghost use Rattle.base_types.specs.CodeSet.{members};
ghost use Rattle.base_types.specs.declared.bounds.TheConstants.Limits.{WIRES};
ghost use Rattle.est_kernel.specs.CodeLists.{AreCodesOf};
ghost use Rattle.est_kernel.specs.Plain.{program_of, term_of};
ghost use Rattle.est_kernel.specs.WellFormed.{IsWellFormed};
ghost use Rattle.grc_graph.specs.declared.wires.Wire.TheVariants.{Out, End};
ghost use Rattle.grc_graph.specs.GraphRuns.{program_wires};
ghost use Rattle.grc_graph.specs.Instances.{body_instances};
ghost use Rattle.grc_graph.specs.PlainGraphs.{wire_of};
ghost use Rattle.grc_graph.specs.PlainInstances.{instance_of};
ghost use Rattle.grc_graph.specs.Statements.{program_listed};
ghost use Rattle.grc_graph.specs.StatementViews.{view_of};
ghost use Rattle.grc_graph.specs.Wires.{listed};
ghost use Rattle.grc_graph.specs.WireTables.{AreFirsts, AreNeighbours, Ascending, AreBelow, SplitsAtStatement};
ghost use Rattle.grc_graph.specs.WireTables.{wire_run, is_local};

use crate::code_tables::{codes_end, instance_codes};
use crate::instances::{Instance, Instances};
use crate::statements::Statement;
use crate::wires::Wire;
use base_types::{CodeSet, InstId, NoMemory, SigId};
use est_kernel::{Codes, Kernel, KernelProgram};
use std::alloc::Global;

/// The wires of a program's graph in order, and where they and the instances are found.
#[derive(Drop)]
pub struct WireLayout {
    pub wires: Vec<Wire>,
    /// For each instance the number of its first wire, and at last the number of wires.
    pub first_wires: Vec<u32>,
    /// For each statement the number of its first instance, and at last the number of instances.
    pub first_instances: Vec<u32>,
}

/// The layout of a program's graph: `statements`, `codes` and `live` are those of its body. Its only error is want
/// of memory.
pub fn wire_layout(
    alloc: Global,
    program: &KernelProgram,
    statements: &[Statement<'_>],
    codes: &Codes,
    live: &Instances,
) -> Result<WireLayout, NoMemory>
    requires formed { IsWellFormed (program_of program.now) }
    requires statements { map view_of statements.now ≡ program_listed (program_of program.now) }
    requires codes { AreCodesOf codes.now (term_of program.now.body) }
    requires live { map instance_of live.now.list.items ≡ body_instances (term_of program.now.body) }
    requires few { length (program_wires (program_of program.now)) ≤ WIRES }
    ensures wires { IfOk result (λ t. map (wire_of (map instance_of live.now.list.items)) t.wires.items
        ≡ program_wires (program_of program.now)) }
    ensures tables { IfOk result (λ t. AreNeighbours live.now.list.items t.wires.items t.first_wires.items
        program.now.inputs (program.now.both + program.now.outputs)) }
    ensures firsts { IfOk result (λ t. AreFirsts live.now.list.items t.first_instances.items) }
{
    let first_instances = first_instances(alloc, &live.list, statements.len() as u32)?;
    let runs = wire_runs(alloc, program, statements, codes, live)?;
    Ok(WireLayout {
        wires: runs.wires,
        first_wires: runs.first_wires,
        first_instances,
    })
}

/// Wires, and for each instance the number of its first one, and at last the number of wires.
#[derive(Drop)]
struct WireRuns {
    wires: Vec<Wire>,
    first_wires: Vec<u32>,
}

// The wires, run by run.
fn wire_runs(
    alloc: Global,
    program: &KernelProgram,
    statements: &[Statement<'_>],
    codes: &Codes,
    live: &Instances,
) -> Result<WireRuns, NoMemory>
    requires formed { IsWellFormed (program_of program.now) }
    requires statements { map view_of statements.now ≡ program_listed (program_of program.now) }
    requires codes { AreCodesOf codes.now (term_of program.now.body) }
    requires live { map instance_of live.now.list.items ≡ body_instances (term_of program.now.body) }
    requires few { length (program_wires (program_of program.now)) ≤ WIRES }
    ensures wires { IfOk result (λ t. map (wire_of (map instance_of live.now.list.items)) t.wires.items
        ≡ program_wires (program_of program.now)) }
    ensures tables { IfOk result (λ t. AreNeighbours live.now.list.items t.wires.items t.first_wires.items
        program.now.inputs (program.now.both + program.now.outputs)) }
{
    let outgoing = program.both + program.outputs;
    let mut wires = Vec::new(alloc);
    push_outgoing(&mut wires, program.inputs, outgoing)?;
    let mut first = Vec::new(alloc);
    first.push(outgoing)?;
    for (i, instance) in live.list.iter().enumerate() {
        let path = instance.path.0;
        let set = instance_codes(codes, *instance);
        let local = is_local(statements[path as usize].body);
        push_run(&mut wires, InstId(i as u32), local, set)?;
        first.push(wires.len() as u32)?;
    }
    Ok(WireRuns {
        wires,
        first_wires: first,
    })
}

/// For each of this many statements the number of its first instance, of instances that ascend, and at last the number
/// of instances. The time is linear in the statements except for a logarithm; its only error is out of memory.
pub fn first_instances(alloc: Global, live: &[Instance], count: u32) -> Result<Vec<u32>, NoMemory>
    requires ascend { Ascending live.now }
    requires below { AreBelow count live.now }
    requires few { length live.now < 2 ^ 32 }
    requires fits { count + 1 < 2 ^ 32 }
    ensures { IfOk result (λ v. AreFirsts live.now v.items) }
{
    let mut firsts = Vec::new(alloc);
    for statement in 0..count + 1 {
        firsts.push(count_before(live, statement) as u32)?;
    }
    Ok(firsts)
}

// The number of instances of statements before this one.
fn count_before(live: &[Instance], statement: u32) -> usize
    requires { Ascending live.now }
    ensures within { result ≤ length live.now }
    ensures place { SplitsAtStatement statement live.now result }
{
    live.partition_point(|x| x.path.0 < statement)
}

// Appends the wires of the outgoing signals, `count` from this one on.
fn push_outgoing(wires: &mut Vec<Wire>, from: u32, count: u32) -> Result<(), NoMemory>
    requires { from + count < 2 ^ 32 }
    ensures { IfOk result (λ u. wires.new.items ≡ wires.old.items
        ++ map (λ s. Out (record { 0 = s })) (range_with_len from count)) }
{
    for k in 0..count {
        wires.push(Wire::Out(SigId(from + k)))?;
    }
    Ok(())
}

// Appends the wires of an instance.
fn push_run(wires: &mut Vec<Wire>, i: InstId, local: bool, codes: CodeSet) -> Result<(), NoMemory>
    ensures { IfOk result (λ u. wires.new.items ≡ wires.old.items ++ wire_run local (members codes) i.0) }
{
    wires.push(Wire::Go(i))?;
    if local {
        wires.push(Wire::Local(i))?;
    }
    push_ends(wires, i, codes)
}

// Appends the ends of an instance.
fn push_ends(wires: &mut Vec<Wire>, i: InstId, codes: CodeSet) -> Result<(), NoMemory>
    ensures { IfOk result (λ u. wires.new.items ≡ wires.old.items ++ map (λ k. End i k) (listed (members codes))) }
{
    for code in 0..codes_end(codes) {
        if codes.has(code) {
            wires.push(Wire::End(i, code))?;
        }
    }
    Ok(())
}

// Whether a statement is a Local.
fn is_local(body: &Kernel) -> bool
    ensures { result ≡ is_local (term_of body.now) }
{
    matches!(body, Kernel::Local(_, _))
}
