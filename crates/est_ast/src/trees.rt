// Source trees.

use base_types::{Span, Text};

/// A name and its place in the source.
#[derive(Drop)]
pub struct Name {
    pub text: Text,
    pub span: Span,
}

/// A program: its modules in the order of the text, of which there is one at least.
#[derive(Drop)]
pub struct Program {
    pub modules: Vec<Module>,
}

/// A module: its name, its declarations in order, and its body.
#[derive(Drop)]
pub struct Module {
    pub name: Name,
    pub decls: Vec<Decl>,
    pub body: Stmt,
}

/// A declaration.
#[derive(Drop)]
pub enum Decl {
    /// `input` and the names.
    Input(Vec<Name>),
    /// `inputoutput` and the names: signals that the environment may give and the module may emit.
    InputOutput(Vec<Name>),
    /// `output` and the names.
    Output(Vec<Name>),
    /// `relation` and the relations.
    Relation(Vec<Relation>),
}

/// What the environment keeps of a module's given signals in each instant.
#[derive(Drop)]
pub enum Relation {
    /// `A => B`: the second is present whenever the first is.
    Implies(Name, Name),
    /// `A # B # C`: at most one of them is present.
    Excludes(Vec<Name>),
}

/// A test of signals. A list of one part is that part and makes no node.
#[derive(Drop)]
pub enum SigExpr {
    /// `tick`, which is always true.
    Tick(Span),
    /// A signal.
    Sig(Name),
    /// `not`.
    Not(Box<SigExpr>),
    /// Two parts or more, with `and` between them.
    And(Vec<SigExpr>),
    /// Two parts or more, with `or` between them.
    Or(Vec<SigExpr>),
    /// A test in `( )`.
    Round(Box<SigExpr>),
    /// A test in `[ ]`.
    Square(Box<SigExpr>),
}

/// What a statement waits for.
#[derive(Drop)]
pub enum Delay {
    /// The next instant but the first in which the test is true.
    Plain(SigExpr),
    /// The next instant, the first included, in which the test is true.
    Immediate(SigExpr),
    /// The instant, the first not included, in which the test has been true this many times. The number has a
    /// place.
    Count(u128, Span, SigExpr),
}

/// `case`, its test, and what comes after `do` where that is there.
#[derive(Drop)]
#[cycle(tree)]
pub struct Case {
    pub event: SigExpr,
    pub body: Option<Stmt>,
}

/// A renaming in `run`: the signal here, and the name that it has in the module.
#[derive(Drop)]
pub struct Rename {
    pub actual: Name,
    pub formal: Name,
}

/// A statement and its place, from the start of its first token to the end of its last.
#[derive(Drop)]
#[cycle(tree)]
pub struct Stmt {
    pub span: Span,
    pub form: Form,
}

/// What a statement is. A part in an `Option` is one that the text may leave out.
#[derive(Drop)]
#[cycle(tree)]
pub enum Form {
    /// `nothing`.
    Nothing,
    /// `pause`.
    Pause,
    /// `halt`.
    Halt,
    /// `emit S`.
    Emit(Name),
    /// `sustain S`.
    Sustain(Name),
    /// `await d`, and the part between `do` and `end`.
    Await(Delay, Option<Box<Stmt>>),
    /// `await case .. end`, with one case or more.
    AwaitCase(Vec<Case>),
    /// `present e`, the part after `then` and that after `else`.
    Present(SigExpr, Option<Box<Stmt>>, Option<Box<Stmt>>),
    /// `present case .. end`, with one case or more, and the part after `else`.
    PresentCase(Vec<Case>, Option<Box<Stmt>>),
    /// `loop p end`.
    Loop(Box<Stmt>),
    /// `loop p each d`, where d is no `immediate` one.
    LoopEach(Box<Stmt>, Delay),
    /// `every d do p end`.
    Every(Delay, Box<Stmt>),
    /// `repeat n times p end`, where the number has a place. `positive` before it leaves no trace.
    Repeat(u128, Span, Box<Stmt>),
    /// `abort p when d`, and the part between `do` and `end`.
    Abort(Box<Stmt>, Delay, Option<Box<Stmt>>),
    /// `abort p when case .. end`, with one case or more.
    AbortCase(Box<Stmt>, Vec<Case>),
    /// `weak abort p when d`.
    WeakAbort(Box<Stmt>, Delay),
    /// `suspend p when e`, also with `immediate`; there is no count.
    Suspend(Box<Stmt>, Delay),
    /// `trap T in p`, and what handles it.
    Trap(Name, Box<Stmt>, Option<Handle>),
    /// `exit T`.
    Exit(Name),
    /// `signal S, .. in p end`, with one name or more.
    Signal(Vec<Name>, Box<Stmt>),
    /// `run M`, and the renamings.
    Run(Name, Vec<Rename>),
    /// Two parts or more, with `;` between them.
    Seq(Vec<Stmt>),
    /// Two parts or more, with `||` between them.
    Par(Vec<Stmt>),
    /// A statement in `[ ]`.
    Group(Box<Stmt>),
}

/// `handle T do p`.
#[derive(Drop)]
#[cycle(tree)]
pub struct Handle {
    pub name: Name,
    pub body: Box<Stmt>,
}
