// The forms of a statement that change what stands around those in them: traps, local signals and `run`. As in `forms`,
// each has a function of its own that is never inlined.

ghost use Rattle.std.specs.Prelude.{◌≡◌, ◌+◌, ◌<◌, ◌^◌, map, length, IfOk, OnOk};
ghost use Rattle.est_ast.specs.FlatViews.{flat_stmt_of, flat_part_of};
ghost use Rattle.est_ast.specs.Trees.{Trap, Signal};
ghost use Rattle.est_ast.specs.Views.{stmt_of, handle_of};
ghost use Rattle.est_expand.specs.Flattening.{in_trap, numbers, handler as handler_walk, ran};
ghost use Rattle.est_expand.specs.Views.{around_of, program_in, inside_of, site_walk, TrapsFit, Walks};

use crate::interface::text_list;
use crate::met::Met;
use crate::place::{Around, Site, Source};
use crate::refusal::{ExpandFault, ScopeFault};
use crate::runs::{enter, module_named, module_scope};
use crate::traps::Traps;
use crate::walk::{boxed, walk};
use base_types::{NoMemory, SigId, Span};
use est_ast::{FlatForm, FlatStmt, Handle, Name, Rename, Stmt};
use est_names::NameSet;
use std::alloc::Global;
use std::mem;

/// `trap T in p end`, and what handles it.
#[cycle(walk)]
#[inline(never)]
pub fn flat_trap<'a>(
    alloc: Global,
    site: &Site<'a>,
    around: &mut Around<'a>,
    met: &mut Met,
    name: &'a Name,
    p: &'a Stmt,
    handle: &'a Option<Handle>,
) -> Result<FlatStmt, ExpandFault>
    requires room { TrapsFit around.old (site.now.source.room + 1) }
    ensures walks { Walks flat_stmt_of result met.old met.new
        (site_walk site.now (around_of around.old) (Trap name.now (stmt_of p.now) (handle_of handle.now))) }
    ensures kept { OnOk result (around_of around.new ≡ around_of around.old) }
{
    let p = trapped(alloc, &site.source, around, met, name, p)?;
    let q = handler(alloc, &site.source, around, met, name, handle)?;
    let form = FlatForm::Trap(p, q);
    let span = site.span;
    Ok(FlatStmt { span, form })
}

/// `signal S in p end`: local signals and their scope.
#[cycle(walk)]
#[inline(never)]
pub fn flat_signal<'a>(
    alloc: Global,
    site: &Site<'a>,
    around: &mut Around<'a>,
    met: &mut Met,
    names: &'a [Name],
    p: &'a Stmt,
) -> Result<FlatStmt, ExpandFault>
    requires room { TrapsFit around.old (site.now.source.room + 1) }
    ensures walks { Walks flat_stmt_of result met.old met.new
        (site_walk site.now (around_of around.old) (Signal names.now (stmt_of p.now))) }
    ensures kept { OnOk result (around_of around.new ≡ around_of around.old) }
{
    let names = text_list(alloc, names)?;
    let first = met.meet_signals(alloc, &names)?;
    around.scope.bind_all(&names, first, false)?;
    let p = boxed(alloc, &site.source, around, met, p)?;
    around.scope.unbind_all(names.len());
    let signals = signals_from(alloc, first, &names)?;
    let form = FlatForm::Signal(signals, p);
    let span = site.span;
    Ok(FlatStmt { span, form })
}

// The body of a trap.
#[cycle(walk)]
fn trapped<'a>(
    alloc: Global,
    source: &Source<'a>,
    around: &mut Around<'a>,
    met: &mut Met,
    name: &'a Name,
    p: &'a Stmt,
) -> Result<Box<FlatStmt>, ExpandFault>
    requires room { TrapsFit around.old (source.now.room + 1) }
    ensures walks { Walks (λ p. flat_stmt_of p.value) result met.old met.new
        (inside_of source.now (in_trap name.now.text (around_of around.old)) (stmt_of p.now)) }
    ensures kept { OnOk result (around_of around.new ≡ around_of around.old) }
{
    around.traps.enter(name.text.bytes())?;
    let p = boxed(alloc, source, around, met, p)?;
    around.traps.leave();
    Ok(p)
}

// The body of a handler of the trap of this name, outside the trap.
#[cycle(walk)]
fn handler<'a>(
    alloc: Global,
    source: &Source<'a>,
    around: &mut Around<'a>,
    met: &mut Met,
    name: &'a Name,
    handle: &'a Option<Handle>,
) -> Result<Option<Box<FlatStmt>>, ExpandFault>
    requires room { TrapsFit around.old source.now.room }
    ensures walks { Walks flat_part_of result met.old met.new
        (handler_walk (inside_of source.now (around_of around.old)) name.now (handle_of handle.now)) }
    ensures kept { OnOk result (around_of around.new ≡ around_of around.old) }
{
    let Some(handle) = handle else {
        return Ok(None);
    };
    if handle.name.text.bytes() != name.text.bytes() {
        return Err(ExpandFault::Scope(ScopeFault::UnknownTrap(handle.name.span)));
    }
    Ok(Some(boxed(alloc, source, around, met, &handle.body)?))
}

// As many signals as there are names, from this one on.
#[inline(never)]
fn signals_from(alloc: Global, first: u32, names: &[&[u8]]) -> Result<Vec<SigId>, NoMemory>
    requires { first + length names.now < 2 ^ 32 }
    ensures { IfOk result (λ found. map (λ s. s.0) found.items ≡ numbers first (map (λ name. name.now) names.now)) }
{
    let mut found = Vec::new(alloc);
    let mut next = first;
    for _name in names {
        found.push(SigId(next))?;
        next += 1;
    }
    Ok(found)
}

/// The body of a module.
#[cycle(walk)]
#[inline(never)]
pub fn run<'a>(
    alloc: Global,
    source: &Source<'a>,
    around: &mut Around<'a>,
    met: &mut Met,
    name: &'a Name,
    renames: &'a [Rename],
) -> Result<FlatStmt, ExpandFault>
    requires room { TrapsFit around.old source.now.room }
    ensures walks { Walks flat_stmt_of result met.old met.new
        (ran (program_in source.now) source.now.inputs (inside_of source.now)
        (around_of around.old) name.now renames.now) }
    ensures kept { OnOk result (around_of around.new ≡ around_of around.old) }
{
    let module = module_named(source, name)?;
    enter(alloc, &mut around.chain, name)?;
    let scope = module_scope(alloc, &around.scope, name, module, renames)?;
    let traps = Traps::new(alloc);
    let chain = NameSet::new(alloc);
    let mut inner = Around {
        scope,
        traps,
        chain,
    };
    mem::swap(&mut around.chain, &mut inner.chain);
    let p = walk(alloc, source, &mut inner, met, &module.body)?;
    mem::swap(&mut around.chain, &mut inner.chain);
    around.chain.pop();
    Ok(p)
}
