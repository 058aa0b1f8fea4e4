// Literals and clauses, and how hints cite a clause.

/// A variable, by its number, or its negation.
#[derive(Clone, Copy)]
pub struct Literal {
    pub variable: u32,
    pub positive: bool,
}

impl Literal {
    ghost use Rattle.std.specs.Prelude.{◌≡◌};
    ghost use Rattle.sat_kernel.specs.Clauses.{opposite};

    /// The negation of a literal.
    pub fn opposite(self) -> Literal
        ensures { result ≡ opposite self }
    {
        Literal {
            variable: self.variable,
            positive: !self.positive,
        }
    }
}

/// A disjunction of literals. The empty clause is false.
pub type Clause = Vec<Literal>;

/// How a hint cites a clause: the number of an assumed or of a derived clause, from 0.
#[derive(Clone, Copy)]
pub enum Premise {
    Assumed(usize),
    Derived(usize),
}
