// The graph of a program.

ghost use Rattle.std.specs.Prelude.{◌≡◌, ◌+◌, ◌≤◌, map, IfOk, IfErr};
ghost use Rattle.base_types.specs.declared.bounds.TheConstants.Limits.{WIRES};
ghost use Rattle.est_kernel.specs.CodeLists.{AreCodesOf};
ghost use Rattle.est_kernel.specs.Plain.{program_of, term_of};
ghost use Rattle.est_kernel.specs.WellFormed.{IsWellFormed};
ghost use Rattle.grc_graph.specs.BuiltGraphs.{IsGraphOf};
ghost use Rattle.grc_graph.specs.GraphSizes.{graph_size};
ghost use Rattle.grc_graph.specs.Instances.{body_instances};
ghost use Rattle.grc_graph.specs.Neighbouring.{program_wires};
ghost use Rattle.grc_graph.specs.PlainGraphs.{wire_of};
ghost use Rattle.grc_graph.specs.PlainInstances.{instance_of};
ghost use Rattle.grc_graph.specs.SelectionTrees.{body_tree};
ghost use Rattle.grc_graph.specs.Statements.{program_listed};
ghost use Rattle.grc_graph.specs.StatementViews.{view_of};
ghost use Rattle.grc_graph.specs.TreeForms.{tree_node};
ghost use Rattle.grc_graph.specs.WireTables.{AreFirsts, AreNeighbours};
ghost use Rattle.grc_build.specs.Faults.{FaultHasCause};
ghost use Rattle.grc_build.specs.Parts.{AreParts, AreFormulas, IsLayoutOf};
ghost use Rattle.grc_build.specs.Tabled.{AreTables};

use crate::emissions::gather_emissions;
use crate::equations::equations;
use crate::next::next_formulas;
use crate::nodes::nodes;
use crate::refusal::BuildFault;
use crate::rooms::room_left;
use crate::tables::Tables;
use base_types::NoMemory;
use est_kernel::{Codes, KernelProgram};
use grc_graph::{
    Formula, Graph, Instances, Neighbours, Node, SelTree, Statement, WireLayout, list_statements,
    wire_layout,
};
use std::alloc::Global;

/// The graph of a program: `codes` are the static codes of its body, `tree` is its selection tree, and `live` are its
/// live instances. Its errors are too many wires and live test nodes, and out of memory.
pub fn build(
    alloc: Global,
    program: KernelProgram,
    codes: Codes,
    live: Instances,
    tree: SelTree,
) -> Result<Graph, BuildFault>
    requires formed { IsWellFormed (program_of program) }
    requires codes { AreCodesOf codes (term_of program.body) }
    requires tree { map tree_node tree.nodes.items ≡ body_tree (term_of program.body) }
    requires live { map instance_of live.list.items ≡ body_instances (term_of program.body) }
    ensures graph { IfOk result (λ graph. IsGraphOf graph (program_of program)) }
    ensures refuses { IfErr result (λ fault. FaultHasCause (program_of program) fault) }
{
    let Parts { layout, formulas } = graph_parts(alloc, &program, &codes, &live)?;
    Ok(Graph {
        program,
        codes,
        instances: live,
        tree,
        nodes: formulas.nodes,
        wires: layout.wires,
        equations: formulas.equations,
        next: formulas.next,
        first_wires: layout.first_wires,
        first_instances: layout.first_instances,
        loops: None,
    })
}

/// What of a graph is made of its program.
#[derive(Drop)]
pub(crate) struct Parts {
    pub layout: WireLayout,
    pub formulas: Formulas,
}

/// The nodes and the formulas of a graph over its wires.
#[derive(Drop)]
pub(crate) struct Formulas {
    pub nodes: Vec<Node>,
    pub equations: Vec<Formula>,
    pub next: Vec<Formula>,
}

// The parts of a program's graph.
fn graph_parts(
    alloc: Global,
    program: &KernelProgram,
    codes: &Codes,
    live: &Instances,
) -> Result<Parts, BuildFault>
    requires formed { IsWellFormed (program_of program.now) }
    requires codes { AreCodesOf codes.now (term_of program.now.body) }
    requires live { map instance_of live.now.list.items ≡ body_instances (term_of program.now.body) }
    ensures parts { IfOk result (λ parts. AreParts program.now live.now parts) }
    ensures few { IfOk result (λ parts. graph_size (program_of program.now) ≤ WIRES) }
    ensures refuses { IfErr result (λ fault. FaultHasCause (program_of program.now) fault) }
{
    let statements = list_statements(alloc, program)?;
    match room_left(program, &statements, codes, live) {
        None => Err(BuildFault::TooManyWires),
        Some(_) => {
            let layout = wire_layout(alloc, program, &statements, codes, live)?;
            let parts = laid_parts(alloc, program, statements, live, layout)?;
            Ok(parts)
        }
    }
}

// The parts of a graph whose wires are laid out so.
fn laid_parts(
    alloc: Global,
    program: &KernelProgram,
    statements: Vec<Statement<'_>>,
    live: &Instances,
    layout: WireLayout,
) -> Result<Parts, NoMemory>
    requires formed { IsWellFormed (program_of program.now) }
    requires statements { map view_of statements.items ≡ program_listed (program_of program.now) }
    requires live { map instance_of live.now.list.items ≡ body_instances (term_of program.now.body) }
    requires layout { IsLayoutOf program.now live.now layout }
    ensures { IfOk result (λ parts. AreParts program.now live.now parts) }
{
    let wires = Neighbours::over(
        program,
        live,
        &layout.wires,
        &layout.first_wires,
        &layout.first_instances,
    );
    let tables = Tables {
        program,
        statements,
        wires,
    };
    let formulas = table_formulas(alloc, tables)?;
    Ok(Parts { layout, formulas })
}

// The nodes and the formulas of the graph that these tables describe.
fn table_formulas(alloc: Global, tables: Tables<'_>) -> Result<Formulas, NoMemory>
    requires { AreTables tables }
    ensures { IfOk result (λ formulas. AreFormulas tables.entry formulas) }
{
    let emitters = gather_emissions(alloc, &tables)?;
    let equations = equations(alloc, &tables, &emitters);
    let nodes = nodes(alloc, &tables);
    all_formulas(nodes, equations, next_formulas(alloc, &tables))
}

// The formulas of a graph's nodes and wires, from results. All parts are results, so that none is owned over a `?`.
fn all_formulas(
    nodes: Result<Vec<Node>, NoMemory>,
    equations: Result<Vec<Formula>, NoMemory>,
    next: Result<Vec<Formula>, NoMemory>,
) -> Result<Formulas, NoMemory>
    ensures { IfOk result (λ formulas. (nodes ≡ Ok formulas.nodes) × (equations ≡ Ok formulas.equations)
        × (next ≡ Ok formulas.next)) }
{
    match (nodes, equations, next) {
        (Ok(nodes), Ok(equations), Ok(next)) => Ok(Formulas {
            nodes,
            equations,
            next,
        }),
        _ => Err(NoMemory),
    }
}
