// What a language gives of its expressions.

use base_reader::ReadError;
use std::alloc::Global;

/// What begins a part of an expression.
#[derive(Clone, Copy)]
pub enum Opening<B> {
    /// A negation.
    Not,
    /// A bracket.
    Open(B),
    /// A token that is a part of its own.
    Leaf,
}

/// An operator between parts. It binds closer than the one after it here.
#[derive(Clone, Copy)]
pub enum Joint {
    And,
    Or,
}

/// A language of expressions: which tokens begin, part and close them, and how their trees are made.
///
/// `Plain`, `PlainLeaf` and `PlainTree` are the types of tokens, leaves and trees as plain values. `tiers` says what
/// each token is, and what each node is made of.
pub trait ExprLanguage {
    ghost use Rattle.std.specs.Prelude.{◌≡◌, ◌<◌, Some, map, vec_len, is_some, MatchResult};
    ghost use Rattle.base_expressions.specs.Reading.{Tiers, leaf_at};
    ghost use Rattle.base_expressions.specs.Views.{opening_in};
    ghost use Rattle.base_expressions.specs.declared.language.Opening.TheVariants as openings;
    ghost use Rattle.base_reader.specs.declared.faults.ReadError.TheVariants as errors;

    /// The tokens.
    type Token;
    /// The kinds of brackets.
    type Bracket: Copy;
    /// The trees.
    type Tree: Drop;

    ghost Plain: { Type 0 };

    ghost PlainLeaf: { Type 0 };

    ghost PlainTree: { Type 0 };

    ghost token_of: { Self.Token → Plain };

    ghost tree_of: { Self.Tree → PlainTree };

    ghost tiers: { Tiers Plain Self.Bracket PlainLeaf PlainTree };

    /// What the token begins, if it begins a part.
    fn opening(token: &Self::Token) -> Option<Opening<Self::Bracket>>
        ensures { result ≡ opening_in (tiers.opening (token_of token.now)) };

    /// Whether the token closes the bracket.
    fn is_close(bracket: Self::Bracket, token: &Self::Token) -> bool
        ensures { result ≡ is_some (tiers.closing bracket (token_of token.now)) };

    /// Whether the token is the operator.
    fn is_joint(joint: Joint, token: &Self::Token) -> bool
        ensures { result ≡ is_some (tiers.mark joint (token_of token.now)) };

    /// The tree of a token that is a part of its own. Running out of memory is the only error.
    fn leaf(alloc: Global, token: &Self::Token) -> Result<Self::Tree, ReadError>
        requires { opening_in (tiers.opening (token_of token.now)) ≡ Some openings.Leaf }
        ensures { MatchResult result
            (λ tree. leaf_at tiers (token_of token.now) ≡ Some (tree_of tree)) (λ e. e ≡ errors.NoMemory) };

    /// The negation of a part. Running out of memory is the only error.
    fn negation(alloc: Global, part: Self::Tree) -> Result<Self::Tree, ReadError>
        ensures { MatchResult result
            (λ tree. tree_of tree ≡ tiers.negation (tree_of part)) (λ e. e ≡ errors.NoMemory) };

    /// An expression in brackets. Running out of memory is the only error.
    fn bracketed(
        alloc: Global,
        bracket: Self::Bracket,
        body: Self::Tree,
    ) -> Result<Self::Tree, ReadError>
        ensures { MatchResult result
            (λ tree. tree_of tree ≡ tiers.bracketed bracket (tree_of body)) (λ e. e ≡ errors.NoMemory) };

    /// Two parts or more with the operator between them.
    fn joined(joint: Joint, parts: Vec<Self::Tree>) -> Self::Tree
        requires { 1 < vec_len parts }
        ensures { tree_of result ≡ tiers.joined joint (map tree_of parts.items) };
}
