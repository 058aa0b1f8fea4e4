// The resumed head of each statement.

ghost use Rattle.std.specs.Prelude.{◌≡◌, ◌+◌, ◌<◌, ◌^◌, ◌++◌, IfOk};
ghost use Rattle.est_kernel.specs.Plain.{term_of};
ghost use Rattle.est_kernel.specs.Preorder.{statement_count};
ghost use Rattle.grc_regions.specs.HeadLists.{heads_of};

use base_types::NoMemory;
use est_kernel::Kernel;
use std::alloc::Global;

/// For each statement of a body, by its number, that of its resumed head. Its only error is out of memory.
pub fn resumed_heads(alloc: Global, body: &Kernel) -> Result<Vec<u32>, NoMemory>
    requires { statement_count (term_of body.now) < 2 ^ 32 }
    ensures { IfOk result (λ heads. heads.items ≡ heads_of 0 (term_of body.now) 0) }
{
    let mut heads = Vec::new(alloc);
    let _ = push_heads(body, 0, 0, &mut heads)?;
    Ok(heads)
}

// Appends the heads of the statement with this number, whose own head this is, and of all in it, in preorder; answers
// the number after them.
fn push_heads(body: &Kernel, head: u32, path: u32, heads: &mut Vec<u32>) -> Result<u32, NoMemory>
    requires { path + statement_count (term_of body.now) < 2 ^ 32 }
    ensures after { IfOk result (λ after. after ≡ path + statement_count (term_of body.now)) }
    ensures heads { IfOk result (λ after. heads.new.items
        ≡ heads.old.items ++ heads_of head (term_of body.now) path) }
{
    heads.push(head)?;
    match body {
        Kernel::Nothing | Kernel::Pause | Kernel::Emit(_) | Kernel::Exit(_) => Ok(path + 1),
        Kernel::Present(_, yes, no) => {
            let next = push_heads(yes, head, path + 1, heads)?;
            push_heads(no, head, next, heads)
        }
        Kernel::Seq(first, second) => {
            let next = push_heads(first, head, path + 1, heads)?;
            push_heads(second, head, next, heads)
        }
        Kernel::Par(left, right) => {
            let next = push_heads(left, path + 1, path + 1, heads)?;
            push_heads(right, next, next, heads)
        }
        Kernel::Suspend(_, part) => push_heads(part, head, path + 1, heads),
        Kernel::Loop(_, part) => push_heads(part, head, path + 1, heads),
        Kernel::Trap(part) => push_heads(part, head, path + 1, heads),
        Kernel::Local(_, part) => push_heads(part, head, path + 1, heads),
    }
}
