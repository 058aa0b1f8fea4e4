// For each statement of a body the loop bodies around it.

ghost use Rattle.std.specs.Prelude.{◌≡◌, ℕ, ◌+◌, ◌<◌, ◌^◌, length, slice_index_or, IfOk};
ghost use Rattle.est_kernel.specs.Plain.{program_of, term_of};
ghost use Rattle.est_kernel.specs.Preorder.{statement_count};
ghost use Rattle.est_kernel.specs.WellFormed.{IsWellFormed};
ghost use Rattle.grc_graph.specs.StatementViews.{entry_view};
ghost use Rattle.grc_share.specs.LoopCounts.{AreLoopCounts, Enters, counts_in};

use base_types::NoMemory;
use est_kernel::KernelProgram;
use grc_graph::{Entry, LoopBodies, list_statements};
use std::alloc::Global;

/// The loop bodies around each statement of a program's body. The error is out of memory.
pub(crate) fn loop_bodies(
    alloc: Global,
    program: &KernelProgram,
) -> Result<Vec<LoopBodies>, NoMemory>
    requires { IsWellFormed (program_of program.now) }
    ensures each { IfOk result (λ v. length v.items ≡ statement_count (term_of program.now.body)) }
    ensures counts { IfOk result (λ v. AreLoopCounts (term_of program.now.body) v.items) }
{
    let statements = list_statements(alloc, program)?;
    let mut list: Vec<LoopBodies> = Vec::with_capacity(alloc, statements.len())?;
    for statement in &statements {
        let counts = counts_at(statement.control, &list);
        list.push(counts)?;
    }
    Ok(list)
}

// The loop bodies around a statement that is entered so; those before it are known.
fn counts_at(control: Entry<'_>, list: &[LoopBodies]) -> LoopBodies
    requires entered { Enters (length list.now) (entry_view control) }
    requires few { (n : ℕ) (d : LoopBodies) → n < length list.now → (slice_index_or list.now n d).inside + 1 < 2 ^ 32 }
    ensures { result ≡ counts_in list.now (entry_view control.entry) }
{
    match control {
        Entry::Body => LoopBodies {
            above: 0,
            inside: 0,
        },
        Entry::Looped(n) => {
            let around = list[n as usize].inside;
            LoopBodies {
                above: around,
                inside: around + 1,
            }
        }
        Entry::Part(n)
        | Entry::Branch(n)
        | Entry::Then(n, _)
        | Entry::Else(n, _)
        | Entry::Suspended(n, _)
        | Entry::Second(n) => {
            let around = list[n as usize].inside;
            LoopBodies {
                above: around,
                inside: around,
            }
        }
    }
}
