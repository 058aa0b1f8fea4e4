// Terms: what one operation makes of at most two slots.

ghost use Rattle.std.specs.Prelude.{◌≡◌, Bool, List, if◌then◌else◌, length, not};
ghost use Rattle.run_steps.specs.Slots.{value_at};
ghost use Rattle.run_steps.specs.Plans.{TermFits, joined, term_value};

/// How two terms are joined.
#[derive(Clone, Copy)]
pub enum Junction {
    And,
    Or,
}

/// A function of the values of two slots, which may be the same: its value where both are 0, where the first alone is
/// 1, where the second alone is, and where both are.
#[derive(Clone, Copy)]
pub struct Term {
    pub left: usize,
    pub right: usize,
    pub neither: bool,
    pub first: bool,
    pub second: bool,
    pub both: bool,
}

impl Term {
    // The value `low` where the slot is 0, and `high` where it is 1.
    pub(crate) fn unary(slot: usize, low: bool, high: bool) -> Term
        ensures left { result.left ≡ slot }
        ensures right { result.right ≡ slot }
        ensures value { (values : List Bool)
            → term_value result values ≡ (if value_at values slot then high else low) }
    {
        Term {
            left: slot,
            right: slot,
            neither: low,
            first: low,
            second: high,
            both: high,
        }
    }

    /// The term that is true where this one is not.
    pub fn negated(self) -> Term
        ensures left { result.left ≡ self.left }
        ensures right { result.right ≡ self.right }
        ensures value { (values : List Bool) → term_value result values ≡ not (term_value self values) }
    {
        Term {
            left: self.left,
            right: self.right,
            neither: !self.neither,
            first: !self.first,
            second: !self.second,
            both: !self.both,
        }
    }

    /// The value where the slots have these values.
    pub fn value(&self, values: &[bool]) -> bool
        requires { TermFits (length values.now) self.now }
        ensures { result ≡ term_value self.now values.now }
    {
        let left = values[self.left];
        let right = values[self.right];
        match (left, right) {
            (false, false) => self.neither,
            (true, false) => self.first,
            (false, true) => self.second,
            (true, true) => self.both,
        }
    }
}

// Two terms of one slot each, joined.
pub fn pair(junction: Junction, left: &Term, right: &Term) -> Term
    requires left_one { left.now.left ≡ left.now.right }
    requires right_one { right.now.left ≡ right.now.right }
    ensures left { result.left ≡ left.now.left }
    ensures right { result.right ≡ right.now.left }
    ensures value { (values : List Bool)
        → term_value result values ≡ joined junction (term_value left.now values) (term_value right.now values) }
{
    Term {
        left: left.left,
        right: right.left,
        neither: joined(junction, left.neither, right.neither),
        first: joined(junction, left.both, right.neither),
        second: joined(junction, left.neither, right.both),
        both: joined(junction, left.both, right.both),
    }
}

fn joined(junction: Junction, left: bool, right: bool) -> bool
    ensures { result ≡ joined junction left right }
{
    match junction {
        Junction::And => left && right,
        Junction::Or => left || right,
    }
}
