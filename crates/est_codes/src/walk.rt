// The walk over a body that lists the codes of its statements.

ghost use Rattle.std.specs.Prelude.{◌≡◌, List, [], ◌++◌, IfOk, IfErr};
ghost use Rattle.base_types.specs.declared.place.Span.{Span};
ghost use Rattle.est_kernel.specs.CodeLists.{AreCodesOf};
ghost use Rattle.est_kernel.specs.Plain.{term_of};
ghost use Rattle.est_kernel.specs.StaticCodes.{instant_loops, NoInstantLoop};
ghost use Rattle.est_kernel.specs.WellFormed.{KeepsLimits};
ghost use Rattle.est_kernel.specs.Terms.{Term, Loop};
ghost use Rattle.est_codes.specs.declared.walk.Found.{Found};
ghost use Rattle.est_codes.specs.Entries.{ExitsFit, HasCodesOf, Lists, ListsParts};
ghost use Rattle.est_codes.specs.Faults.{FaultHasCause, IsLeastSpan};

use crate::entries::{Entry, resumed_sets, started_sets};
use crate::places::lesser;
use crate::refusal::CodeFault;
use base_types::{NoMemory, Span};
use est_kernel::{Codes, Kernel};
use std::alloc::Global;

/// The static codes of each statement of the body, by its number in preorder.
/// Its errors are an instantaneous loop, the first one by its place, and out of memory.
///
/// Example: `present A then pause end` has the codes 0 and 1 when it is started, so a loop around it is refused.
pub fn codes(alloc: Global, body: &Kernel) -> Result<Codes, CodeFault>
    requires { KeepsLimits (term_of body.now) }
    ensures no_loop { IfOk result (λ codes. NoInstantLoop (term_of body.now)) }
    ensures codes { IfOk result (λ codes. AreCodesOf codes (term_of body.now)) }
    ensures fault { IfErr result (λ fault. FaultHasCause (instant_loops (term_of body.now)) fault) }
{
    let mut entries = Vec::new(alloc);
    let found = list_entries(body, &mut entries)?;
    if let Some(place) = found.least {
        return Err(CodeFault::InstantLoop(place));
    }
    Ok(entry_sets(alloc, &entries)?)
}

// The sets of the statements that have these entries.
fn entry_sets(alloc: Global, entries: &[Entry]) -> Result<Codes, NoMemory>
    ensures { IfOk result (λ codes. (found : Found) (body : Term) → Lists [] entries.now found body
        → AreCodesOf codes body) }
{
    Ok(Codes {
        started: started_sets(alloc, entries)?,
        resumed: resumed_sets(alloc, entries)?,
    })
}

/// What a walk over a statement hands up: its codes, and the least place of an instantaneous loop in
/// it.
#[derive(Clone, Copy)]
pub(crate) struct Found {
    pub entry: Entry,
    pub least: Option<Span>,
}

impl Found {
    // Of a statement that has these codes and no part.
    fn of_leaf(entry: Entry) -> Found
        ensures { result ≡ record { entry = entry; least = None } }
    {
        Found { entry, least: None }
    }

    // Of a statement that has these codes and this part, and is no loop.
    fn of_one(entry: Entry, part: Found) -> Found
        ensures { result ≡ record { entry = entry; least = part.least } }
    {
        let least = part.least;
        Found { entry, least }
    }

    // Of a statement that has these codes and these parts.
    fn of_two(entry: Entry, first: Found, second: Found) -> Found
        ensures entry { result.entry ≡ entry }
        ensures least { (a b : List Span) → IsLeastSpan first.least a → IsLeastSpan second.least b
            → IsLeastSpan result.least (a ++ b) }
    {
        let least = lesser(first.least, second.least);
        Found { entry, least }
    }

    // Of a loop over this part.
    fn of_loop(place: Span, part: Found) -> Found
        ensures entry { (p : Term) → HasCodesOf part.entry p → HasCodesOf result.entry (Loop place p) }
        ensures least { (p : Term) → HasCodesOf part.entry p → IsLeastSpan part.least (instant_loops p)
            → IsLeastSpan result.least (instant_loops (Loop place p)) }
    {
        let least = if part.entry.started.has(0) {
            lesser(Some(place), part.least)
        } else {
            part.least
        };
        let entry = part.entry.looped();
        Found { entry, least }
    }
}

// Lists the codes of the statement and of all in it, in preorder.
#[cycle(list_entries)]
fn list_entries(body: &Kernel, entries: &mut Vec<Entry>) -> Result<Found, NoMemory>
    requires { ExitsFit (term_of body.now) }
    ensures { IfOk result (λ found. Lists entries.old.items entries.new.items found (term_of body.now)) }
{
    let at = entries.len();
    entries.push(Entry::empty())?;
    let found = list_parts(body, entries)?;
    entries[at] = found.entry;
    Ok(found)
}

// Lists the codes of all in the statement but of itself, in preorder; answers what is found of the statement.
#[cycle(list_entries)]
fn list_parts(body: &Kernel, entries: &mut Vec<Entry>) -> Result<Found, NoMemory>
    requires { ExitsFit (term_of body.now) }
    ensures { IfOk result (λ found. ListsParts entries.old.items entries.new.items found (term_of body.now)) }
{
    match body {
        Kernel::Nothing | Kernel::Emit(_) => Ok(Found::of_leaf(Entry::starting_with(0))),
        Kernel::Pause => Ok(Found::of_leaf(Entry::pause())),
        Kernel::Exit(code) => Ok(Found::of_leaf(Entry::starting_with(*code))),
        Kernel::Present(_, yes, no) => {
            let yes = list_entries(yes, entries)?;
            let no = list_entries(no, entries)?;
            Ok(Found::of_two(yes.entry.present(no.entry), yes, no))
        }
        Kernel::Suspend(_, part) => {
            let part = list_entries(part, entries)?;
            Ok(Found::of_one(part.entry.suspended(), part))
        }
        Kernel::Seq(first, second) => {
            let first = list_entries(first, entries)?;
            let second = list_entries(second, entries)?;
            Ok(Found::of_two(first.entry.then(second.entry), first, second))
        }
        Kernel::Loop(place, part) => {
            let part = list_entries(part, entries)?;
            Ok(Found::of_loop(*place, part))
        }
        Kernel::Par(left, right) => {
            let left = list_entries(left, entries)?;
            let right = list_entries(right, entries)?;
            Ok(Found::of_two(left.entry.beside(right.entry), left, right))
        }
        Kernel::Trap(part) => {
            let part = list_entries(part, entries)?;
            Ok(Found::of_one(part.entry.trapped(), part))
        }
        Kernel::Local(_, part) => list_entries(part, entries),
    }
}
