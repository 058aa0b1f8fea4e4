// Where names were assigned so far.

ghost use Rattle.std.specs.Prelude.{◌≡◌, ℕ, List, [], Some};
ghost use Rattle.csub_guard_read.specs.Uses.{place_of};
ghost use Rattle.csub_guard_read.specs.Tables.{puts_told, put_of, joined, clashes, is_set_by, is_outside_by};

use crate::uses::Place;

// Where a name was assigned: outside of blocks, in a half of the block with this number and test, or in both halves of
// one block.
#[derive(Clone, Copy)]
pub enum Puts<'a> {
    Outside,
    First(usize, &'a [u8]),
    Second(&'a [u8]),
    Both,
}

// The same where the name is assigned at one place more.
pub fn joined<'a>(before: Option<Puts<'a>>, place: Place<'a>) -> Puts<'a>
    ensures { put_of result ≡ joined (puts_told before.entry) (place_of place.entry) }
{
    match place {
        Place::Outside => Puts::Outside,
        Place::First(block, test) => match before {
            Some(Puts::Outside) => Puts::Outside,
            _ => Puts::First(block, test),
        },
        Place::Second(_, test) => match before {
            Some(Puts::Outside) => Puts::Outside,
            Some(Puts::First(_, _)) => Puts::Both,
            _ => Puts::Second(test),
        },
    }
}

// Whether a name was assigned at a place that is not the first half of the same block.
pub fn clashes(before: Option<Puts<'_>>, place: Place<'_>) -> bool
    ensures { result ≡ clashes (puts_told before.entry) (place_of place.entry) }
{
    match before {
        None => false,
        Some(Puts::First(block, _)) => match place {
            Place::Second(own, _) => block != own,
            _ => true,
        },
        Some(_) => true,
    }
}

// Whether a name that was assigned there may be read at a place.
pub fn is_set(before: Option<Puts<'_>>, place: Place<'_>) -> bool
    ensures { result ≡ is_set_by (puts_told before.entry) (place_of place.entry) }
{
    match before {
        None => false,
        Some(Puts::Outside) => true,
        Some(Puts::Both) => true,
        Some(Puts::First(_, test)) => match place {
            Place::First(_, own) => test == own,
            _ => false,
        },
        Some(Puts::Second(test)) => match place {
            Place::Second(_, own) => test == own,
            _ => false,
        },
    }
}

// Whether a name was assigned outside of blocks.
pub fn is_outside(before: Option<Puts<'_>>) -> bool
    ensures { result ≡ is_outside_by (puts_told before.entry) }
{
    match before {
        Some(Puts::Outside) => true,
        _ => false,
    }
}
