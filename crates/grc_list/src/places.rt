// The places of the statements of a body, by which each statement's path is found.

ghost use Rattle.std.specs.Prelude.{◌≡◌, ◌<◌, ◌++◌, length, map, option_map, IfOk, OnOk};
ghost use Rattle.est_kernel.specs.Plain.{term_of};
ghost use Rattle.grc_graph.specs.WireNames.{path_at, bound_signal, bound_at};
ghost use Rattle.grc_list.specs.Places.{places, body_places};
ghost use Rattle.grc_list.specs.PlaceViews.{place_of};

use base_types::{NoMemory, PathId, SigId};
use est_kernel::Kernel;
use grc_graph::Path;
use std::alloc::Global;

// A statement: the number of the statement around it, its child number there, and the signal that it binds.
// The body has the first two 0.
#[derive(Clone, Copy)]
pub struct Place {
    pub parent: usize,
    pub child: u8,
    pub bound: Option<SigId>,
}

// The places of all statements of a body, by their numbers.
#[derive(Drop)]
pub struct Places<'a> {
    pub body: &'a Kernel,
    pub list: Vec<Place>,
    ghost listed: { map place_of list.items ≡ body_places (term_of body.now) },
}

impl<'a> Places<'a> {
    pub fn new(alloc: Global, body: &'a Kernel) -> Result<Places<'a>, NoMemory>
        ensures { IfOk result (λ p. term_of p.body.now ≡ term_of body.now) }
    {
        let mut list = Vec::new(alloc);
        push_places(body, 0, 0, &mut list)?;
        Ok(Places { body, list })
    }

    // The path of the statement with this number.
    pub fn path_at(&self, alloc: Global, number: PathId) -> Result<Path, NoMemory>
        ensures { IfOk result (λ p. p.steps.items ≡ path_at (term_of self.now.body.now) number.0) }
    {
        let mut steps = Vec::new(alloc);
        let mut at = self.known(number);
        while at > 0 {
            let place = self.list[at];
            steps.push(place.child)?;
            at = place.parent;
        }
        steps.reverse();
        Ok(Path { steps })
    }

    // The number of a statement, and that of the body for one that the body does not have.
    fn known(&self, number: PathId) -> usize
        ensures within { result < length self.now.list.items }
        ensures path { path_at (term_of self.now.body.now) result ≡ path_at (term_of self.now.body.now) number.0 }
    {
        let at = number.0 as usize;
        if at < self.list.len() { at } else { 0 }
    }

    // The signal that the statement with this number binds.
    pub fn bound_at(&self, number: PathId) -> Option<SigId>
        ensures { option_map (λ s. s.0) result ≡ bound_at (term_of self.now.body.now) number.0 }
    {
        let at = number.0 as usize;
        if at < self.list.len() {
            self.list[at].bound
        } else {
            None
        }
    }
}

// Appends the places of a statement and of all statements in it, in preorder.
fn push_places(
    statement: &Kernel,
    parent: usize,
    child: u8,
    list: &mut Vec<Place>,
) -> Result<(), NoMemory>
    ensures { OnOk result (map place_of list.new.items ≡ map place_of list.old.items
        ++ places parent child (term_of statement.now) (length list.old.items)) }
{
    let at = list.len();
    list.push(Place {
        parent,
        child,
        bound: bound_signal(statement),
    })?;
    match statement {
        Kernel::Nothing | Kernel::Pause | Kernel::Emit(_) | Kernel::Exit(_) => Ok(()),
        Kernel::Present(_, first, second)
        | Kernel::Seq(first, second)
        | Kernel::Par(first, second) => {
            push_places(first, at, 0, list)?;
            push_places(second, at, 1, list)
        }
        Kernel::Suspend(_, part)
        | Kernel::Loop(_, part)
        | Kernel::Trap(part)
        | Kernel::Local(_, part) => push_places(part, at, 0, list),
    }
}

// The signal that a statement binds.
fn bound_signal(statement: &Kernel) -> Option<SigId>
    ensures { option_map (λ s. s.0) result ≡ bound_signal (term_of statement.now) }
{
    match statement {
        Kernel::Local(signal, _) => Some(*signal),
        _ => None,
    }
}
