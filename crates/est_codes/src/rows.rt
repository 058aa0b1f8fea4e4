// The rows of the tables of static codes that combine the codes of parts.

ghost use Rattle.std.specs.Prelude.{◌≡◌, ◌||◌, if◌then◌else◌};
ghost use Rattle.base_types.specs.CodeSet.{members};
ghost use Rattle.base_types.specs.Codes.{either, except, maxima};
ghost use Rattle.base_types.specs.declared.place.Span.{Span};
ghost use Rattle.est_kernel.specs.StaticCodes.{codes_if, has_code, branch_codes};
ghost use Rattle.est_kernel.specs.Terms.{Expression, Term, Present, Suspend, Seq, Loop, Par, Trap};
ghost use Rattle.est_codes.specs.Entries.{HasCodesOf};

use crate::entries::Entry;
use base_types::CodeSet;

impl Entry {
    /// The codes of a choice between these two branches.
    pub(crate) fn present(self, other: Entry) -> Entry
        ensures { (e : Expression) (p q : Term) → HasCodesOf self p → HasCodesOf other q
            → HasCodesOf result (Present e p q) }
    {
        Entry {
            started: self.started.union(other.started),
            resumed: self.resumed.union(other.resumed),
        }
    }

    /// The codes of a suspension of this statement.
    pub(crate) fn suspended(self) -> Entry
        ensures { (e : Expression) (p : Term) → HasCodesOf self p → HasCodesOf result (Suspend e p) }
    {
        let pause = where_given(has_some(self.resumed), CodeSet::one(1));
        Entry {
            started: self.started,
            resumed: self.resumed.union(pause),
        }
    }

    /// The codes of this statement and then the other one.
    pub(crate) fn then(self, next: Entry) -> Entry
        ensures { (p q : Term) → HasCodesOf self p → HasCodesOf next q → HasCodesOf result (Seq p q) }
    {
        Entry {
            started: started_in_sequence(self.started, next.started),
            resumed: resumed_in_sequence(self, next),
        }
    }

    /// The codes of a loop over this statement.
    pub(crate) fn looped(self) -> Entry
        ensures { (at : Span) (p : Term) → HasCodesOf self p → HasCodesOf result (Loop at p) }
    {
        let restarted = where_given(self.resumed.has(0), self.started.without(0));
        Entry {
            started: self.started.without(0),
            resumed: self.resumed.without(0).union(restarted),
        }
    }

    /// The codes of these two branches in parallel.
    pub(crate) fn beside(self, other: Entry) -> Entry
        ensures { (p q : Term) → HasCodesOf self p → HasCodesOf other q → HasCodesOf result (Par p q) }
    {
        Entry {
            started: self.started.max_of(other.started),
            resumed: resumed_in_parallel(self, other),
        }
    }

    /// The codes of a trap around this statement.
    pub(crate) fn trapped(self) -> Entry
        ensures { (p : Term) → HasCodesOf self p → HasCodesOf result (Trap p) }
    {
        Entry {
            started: self.started.lowered(),
            resumed: self.resumed.lowered(),
        }
    }
}

// The set where the condition holds, else the empty set.
fn where_given(holds: bool, set: CodeSet) -> CodeSet
    ensures { members result ≡ codes_if holds (members set) }
{
    if holds { set } else { CodeSet::empty() }
}

// Whether the set has a code.
fn has_some(set: CodeSet) -> bool
    ensures { result ≡ has_code (members set) }
{
    for k in 0..64 {
        if set.has(k) {
            return true;
        }
    }
    false
}

// The codes of a started sequence.
fn started_in_sequence(first: CodeSet, second: CodeSet) -> CodeSet
    ensures { members result ≡ (if members first 0
        then either (except 0 (members first)) (members second) else members first) }
{
    if first.has(0) {
        first.without(0).union(second)
    } else {
        first
    }
}

// The codes of a resumed sequence.
fn resumed_in_sequence(first: Entry, next: Entry) -> CodeSet
    ensures { members result ≡ either (except 0 (members first.resumed))
        (either (codes_if (members first.resumed 0) (members next.started))
        (codes_if (members first.started 0 || members first.resumed 0) (members next.resumed))) }
{
    let can_end = first.started.union(first.resumed).has(0);
    let handed_on = where_given(first.resumed.has(0), next.started);
    let going_on = where_given(can_end, next.resumed);
    first.resumed.without(0).union(handed_on.union(going_on))
}

// The codes of a resumed parallel.
fn resumed_in_parallel(left: Entry, right: Entry) -> CodeSet
    ensures { members result
        ≡ codes_if (has_code (members left.resumed) || has_code (members right.resumed))
        (maxima (branch_codes (members left.started) (members left.resumed))
        (branch_codes (members right.started) (members right.resumed))) }
{
    let goes_on = has_some(left.resumed) || has_some(right.resumed);
    where_given(goes_on, branch(left).max_of(branch(right)))
}

// The codes of a branch of a parallel that goes on.
fn branch(part: Entry) -> CodeSet
    ensures { members result ≡ branch_codes (members part.started) (members part.resumed) }
{
    let over = where_given(part.started.has(0) || part.resumed.has(0), CodeSet::one(0));
    part.resumed.union(over)
}
