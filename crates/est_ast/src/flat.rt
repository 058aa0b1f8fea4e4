// Flat programs: one body without `run`, whose signals and traps are numbers.

ghost use Rattle.std.specs.Prelude.{◌≤◌, length};

use base_types::{InputRelation, SigId, SignalInfo, Span, Text};

/// A program whose modules are in one body. Signals are, in this order, the inputs, the inputoutputs, the
/// outputs and the local ones, each kind in the order of the text. There are at most `Limits::SIGNALS`.
#[derive(Drop)]
pub struct Flat {
    /// The main module's name.
    pub name: Text,
    /// The signals by number.
    pub signals: Vec<SignalInfo>,
    /// The number of inputs.
    pub inputs: u32,
    /// The number of inputoutputs.
    pub both: u32,
    /// The number of outputs.
    pub outputs: u32,
    /// The main module's relations.
    pub relations: Vec<InputRelation>,
    /// What the program does.
    pub body: FlatStmt,
    ghost few: { length signals.items ≤ 4096 },
}

/// A test of signals.
#[derive(Drop)]
pub enum FlatExpr {
    Tick(Span),
    Sig(SigId),
    Not(Box<FlatExpr>),
    And(Vec<FlatExpr>),
    Or(Vec<FlatExpr>),
}

/// What a statement waits for.
#[derive(Drop)]
pub enum FlatDelay {
    Plain(FlatExpr),
    Immediate(FlatExpr),
    Count(u128, Span, FlatExpr),
}

/// A case and what it does.
#[derive(Drop)]
#[cycle(flat)]
pub struct FlatCase {
    pub event: FlatExpr,
    pub body: Option<FlatStmt>,
}

/// A statement and the place of the source statement that it comes from.
#[derive(Drop)]
#[cycle(flat)]
pub struct FlatStmt {
    pub span: Span,
    pub form: FlatForm,
}

/// What a statement is: the forms of a source statement, except for `run`.
#[derive(Drop)]
#[cycle(flat)]
pub enum FlatForm {
    Nothing,
    Pause,
    Halt,
    Emit(SigId),
    Sustain(SigId),
    Await(FlatDelay, Option<Box<FlatStmt>>),
    AwaitCase(Vec<FlatCase>),
    Present(FlatExpr, Option<Box<FlatStmt>>, Option<Box<FlatStmt>>),
    PresentCase(Vec<FlatCase>, Option<Box<FlatStmt>>),
    Loop(Box<FlatStmt>),
    LoopEach(Box<FlatStmt>, FlatDelay),
    Every(FlatDelay, Box<FlatStmt>),
    Repeat(u128, Span, Box<FlatStmt>),
    Abort(Box<FlatStmt>, FlatDelay, Option<Box<FlatStmt>>),
    AbortCase(Box<FlatStmt>, Vec<FlatCase>),
    WeakAbort(Box<FlatStmt>, FlatDelay),
    Suspend(Box<FlatStmt>, FlatDelay),
    /// The second part is the handler's body, which stands outside the trap.
    Trap(Box<FlatStmt>, Option<Box<FlatStmt>>),
    /// The number of source traps between the exit and its trap.
    Exit(u32),
    /// One new signal or more, and their scope.
    Signal(Vec<SigId>, Box<FlatStmt>),
    Seq(Vec<FlatStmt>),
    Par(Vec<FlatStmt>),
}
