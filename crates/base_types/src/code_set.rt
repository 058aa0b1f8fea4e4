// Sets of completion codes.

ghost use Rattle.std.specs.Prelude.{◌≡◌, ℕ, ◌<◌, ◌^◌};

/// A set of completion codes below 64. A contract sees it as the test of its `members`.
#[derive(Clone, Copy, PartialEq)]
pub struct CodeSet {
    bits: u64,
    ghost within: { bits < 2 ^ 64 },
}

impl CodeSet {
    ghost use Rattle.base_types.specs.Codes.{no_code, only, either, upto, maxima, lowered, except};
    ghost use Rattle.base_types.specs.CodeSet.{bit, members};

    /// The set with no code.
    pub fn empty() -> CodeSet
        ensures { members result ≡ no_code }
    {
        CodeSet::from_bits(0)
    }

    /// The set with the one code `k`.
    pub fn one(k: u8) -> CodeSet
        requires { k < 64 }
        ensures { members result ≡ only k }
    {
        CodeSet::from_bits(1 << k)
    }

    /// The codes of either set.
    pub fn union(self, other: CodeSet) -> CodeSet
        ensures { members result ≡ either (members self) (members other) }
    {
        CodeSet::from_bits(self.bits | other.bits)
    }

    /// The greater code of each pair of a code of `self` and a code of `other`: the completion
    /// codes of two parallel branches. It is empty if either set is.
    pub fn max_of(self, other: CodeSet) -> CodeSet
        ensures { members result ≡ maxima (members self) (members other) }
    {
        CodeSet::from_bits(self.bits & other.from_least() | other.bits & self.from_least())
    }

    /// The codes that a trap makes of these codes of its body: 0 and 2 become 0, 1 stays, and k
    /// above 2 becomes k - 1.
    pub fn lowered(self) -> CodeSet
        ensures { members result ≡ lowered (members self) }
    {
        CodeSet::from_bits(self.bits & 3 | self.bits >> 2 & 1 | self.bits >> 1 & !3)
    }

    /// The codes of the set other than `k`.
    pub fn without(self, k: u8) -> CodeSet
        ensures { members result ≡ except k (members self) }
    {
        if k < 64 {
            CodeSet::from_bits(self.bits & !(1 << k))
        } else {
            self
        }
    }

    /// Whether the code `k` is in the set.
    pub fn has(self, k: u8) -> bool
        ensures { result ≡ members self k }
    {
        k < 64 && self.bits >> k & 1 == 1
    }

    fn from_bits(bits: u64) -> CodeSet
        ensures { result.bits ≡ bits }
    {
        CodeSet { bits }
    }

    // The codes below 64 that are not less than the least code of the set, as bits.
    fn from_least(self) -> u64
        ensures { (k : ℕ) → k < 64 → bit result k ≡ upto (members self) k }
    {
        if self.bits == 0 {
            0
        } else {
            u64::MAX << self.bits.trailing_zeros()
        }
    }
}
