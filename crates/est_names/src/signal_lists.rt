// The lists of names after the `signal`s of a body.

ghost use Rattle.std.specs.Prelude.{◌≡◌, ◌++◌, map, OnOk};
ghost use Rattle.est_ast.specs.Trees.{stmts, cases};
ghost use Rattle.est_ast.specs.Views.{stmt_of, part_of, handle_of, case_of};
ghost use Rattle.est_names.specs.NameFaults.{signal_lists, signal_lists_part, signal_lists_handler};
ghost use Rattle.est_names.specs.NameFaults.{signal_lists_all, signal_lists_cases};

use base_types::NoMemory;
use est_ast::{Case, Form, Handle, Name, Stmt};

/// Puts those of a statement after the others, in the order of the text.
#[cycle(signal_lists)]
#[tactic(auto, using(est_ast::proofs::Exports::rows))]
pub fn push_lists<'a>(lists: &mut Vec<&'a [Name]>, statement: &'a Stmt) -> Result<(), NoMemory>
    ensures { OnOk result (map (λ l. l.now) lists.new.items
        ≡ map (λ l. l.now) lists.old.items ++ signal_lists (stmt_of statement.now)) }
{
    match &statement.form {
        Form::Await(_, q) => push_part(lists, q),
        Form::AwaitCase(cases) => push_cases(lists, cases),
        Form::Present(_, p, q) => {
            push_part(lists, p)?;
            push_part(lists, q)
        }
        Form::PresentCase(cases, q) => {
            push_cases(lists, cases)?;
            push_part(lists, q)?;
            Ok(())
        }
        Form::Abort(p, _, q) => {
            push_lists(lists, p)?;
            push_part(lists, q)
        }
        Form::AbortCase(p, cases) => {
            push_lists(lists, p)?;
            push_cases(lists, cases)?;
            Ok(())
        }
        Form::Trap(_, p, handler) => {
            push_lists(lists, p)?;
            push_handler(lists, handler)
        }
        Form::Signal(names, p) => {
            lists.push(names.as_slice())?;
            push_lists(lists, p)
        }
        Form::Seq(parts) | Form::Par(parts) => push_all(lists, parts),
        Form::Loop(p) | Form::LoopEach(p, _) | Form::Every(_, p) => push_lists(lists, p),
        Form::Repeat(_, _, p) | Form::Group(p) => push_lists(lists, p),
        Form::WeakAbort(p, _) | Form::Suspend(p, _) => push_lists(lists, p),
        Form::Nothing | Form::Pause | Form::Halt => Ok(()),
        Form::Emit(_) | Form::Sustain(_) | Form::Exit(_) | Form::Run(_, _) => Ok(()),
    }
}

// Those of a part that may be left out.
#[cycle(signal_lists)]
fn push_part<'a>(lists: &mut Vec<&'a [Name]>, part: &'a Option<Box<Stmt>>) -> Result<(), NoMemory>
    ensures { OnOk result (map (λ l. l.now) lists.new.items
        ≡ map (λ l. l.now) lists.old.items ++ signal_lists_part (part_of part.now)) }
{
    match part {
        Some(p) => push_lists(lists, p),
        None => Ok(()),
    }
}

// Those of a handler that may be left out.
#[cycle(signal_lists)]
fn push_handler<'a>(
    lists: &mut Vec<&'a [Name]>,
    handler: &'a Option<Handle>,
) -> Result<(), NoMemory>
    ensures { OnOk result (map (λ l. l.now) lists.new.items
        ≡ map (λ l. l.now) lists.old.items ++ signal_lists_handler (handle_of handler.now)) }
{
    match handler {
        Some(handle) => push_lists(lists, &handle.body),
        None => Ok(()),
    }
}

// Those of statements in a list.
#[cycle(signal_lists)]
fn push_all<'a>(lists: &mut Vec<&'a [Name]>, parts: &'a [Stmt]) -> Result<(), NoMemory>
    ensures { OnOk result (map (λ l. l.now) lists.new.items
        ≡ map (λ l. l.now) lists.old.items ++ signal_lists_all (stmts (map stmt_of parts.now))) }
{
    for p in parts {
        push_lists(lists, p)?;
    }
    Ok(())
}

// Those of cases.
#[cycle(signal_lists)]
fn push_cases<'a>(lists: &mut Vec<&'a [Name]>, found: &'a [Case]) -> Result<(), NoMemory>
    ensures { OnOk result (map (λ l. l.now) lists.new.items
        ≡ map (λ l. l.now) lists.old.items ++ signal_lists_cases (cases (map case_of found.now))) }
{
    for case in found {
        if let Some(p) = &case.body {
            push_lists(lists, p)?;
        }
    }
    Ok(())
}
