// Which statements end only where they run.

ghost use Rattle.std.specs.Prelude.{◌≡◌, length, IfOk};
ghost use Rattle.est_kernel.specs.Plain.{program_of, term_of};
ghost use Rattle.est_kernel.specs.Preorder.{statement_count};
ghost use Rattle.est_kernel.specs.WellFormed.{IsWellFormed};
ghost use Rattle.grc_share.specs.Renamings.{AreGuards};
ghost use Rattle.grc_share.specs.SharedGraphs.{is_guarded};

use base_types::NoMemory;
use est_kernel::{Kernel, KernelProgram};
use grc_graph::list_statements;
use std::alloc::Global;

/// For each statement of a program's body whether it is a sequence or a loop, whose shared instance ends where it runs
/// alone.
pub(crate) fn guards(alloc: Global, program: &KernelProgram) -> Result<Vec<bool>, NoMemory>
    requires { IsWellFormed (program_of program.now) }
    ensures each { IfOk result (λ v. length v.items ≡ statement_count (term_of program.now.body)) }
    ensures guards { IfOk result (λ v. AreGuards (program_of program.now) v.items) }
{
    let statements = list_statements(alloc, program)?;
    let mut list: Vec<bool> = Vec::with_capacity(alloc, statements.len())?;
    for statement in &statements {
        list.push(is_guarded(statement.body))?;
    }
    Ok(list)
}

// Whether a statement is a sequence or a loop.
fn is_guarded(body: &Kernel) -> bool
    ensures { result ≡ is_guarded (term_of body.now) }
{
    matches!(body, Kernel::Seq(_, _) | Kernel::Loop(_, _))
}
