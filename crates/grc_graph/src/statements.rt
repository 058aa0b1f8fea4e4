// The statements of a body by number, each with what lets it run and what its signals stand for.

ghost use Rattle.std.specs.Prelude.{◌≡◌, ◌+◌, ◌<◌, ◌≤◌, ◌^◌, [], ◌∷◌, ◌++◌, length, map, slice_index_or, slice_set};
ghost use Rattle.std.specs.Prelude.{IfOk};
ghost use Rattle.est_kernel.specs.Plain.{term_of, expression_of, program_of, interface_count};
ghost use Rattle.est_kernel.specs.Preorder.{statement_count};
ghost use Rattle.est_kernel.specs.WellFormed.{IsWellFormed};
ghost use Rattle.grc_graph.specs.Scopes.{program_scope};
ghost use Rattle.grc_graph.specs.Statements.{Listed, listed, listed_one, program_listed, signals_in, signals_of};
ghost use Rattle.grc_graph.specs.Statements.{LocalsFit};
ghost use Rattle.grc_graph.specs.StatementViews.{view_of, entry_view, binding_of, scope_of};

use base_types::{NoMemory, SigId};
use est_kernel::{Kernel, KernelProgram, Test};
use std::alloc::Global;

/// What lets a statement run; a number is that of the statement around it.
#[derive(Clone, Copy)]
pub enum Entry<'a> {
    /// The body of a program, by itself.
    Body,
    /// It runs whenever the statement around it does.
    Part(u32),
    /// It is started with the statement around it, and resumed where it holds a selected pause.
    Branch(u32),
    /// As a branch, but started where the test is true.
    Then(u32, &'a Test),
    /// As a branch, but started where the test is false.
    Else(u32, &'a Test),
    /// It is started with the suspension, and resumed where the test is false.
    Suspended(u32, &'a Test),
    /// The second part of a sequence.
    Second(u32),
    /// The body of a loop.
    Looped(u32),
}

/// What a signal stands for at a place of a body.
#[derive(Clone, Copy)]
pub enum Binding {
    /// An input alone: its status comes with the event.
    Entering,
    /// An output, or input and output.
    Outgoing,
    /// The signal of the Local with this number.
    Bound(u32),
    /// No visible signal.
    Unbound,
}

/// A statement of a body.
#[derive(Drop)]
pub struct Statement<'a> {
    pub body: &'a Kernel,
    /// What lets it run.
    pub control: Entry<'a>,
    /// The number of its second part, where it has two.
    pub second: u32,
    /// What the signals that it reads or emits itself stand for, in order.
    pub signals: Vec<Binding>,
}

/// The statements of a program's body by number. Its only error is out of memory.
pub fn list_statements(
    alloc: Global,
    program: &KernelProgram,
) -> Result<Vec<Statement<'_>>, NoMemory>
    requires { IsWellFormed (program_of program.now) }
    ensures { IfOk result (λ list. map view_of list.items ≡ program_listed (program_of program.now)) }
{
    let interface = program.inputs + (program.both + program.outputs);
    let mut scope = program_scope(alloc, program.inputs, interface, program.signals.len())?;
    let mut list = Vec::new(alloc);
    list_part(alloc, &program.body, Entry::Body, 0, &mut scope, &mut list)?;
    Ok(list)
}

// The scope of a program's body, as a table of this many signals.
fn program_scope(
    alloc: Global,
    inputs: u32,
    interface: u32,
    all: usize,
) -> Result<Vec<Binding>, NoMemory>
    requires inputs { inputs ≤ interface }
    requires interface { interface ≤ all }
    ensures length { IfOk result (λ table. length table.items ≡ all) }
    ensures scope { IfOk result (λ table. scope_of table.items ≡ program_scope inputs interface) }
{
    let mut table = Vec::new(alloc);
    for signal in 0..all {
        table.push(first_binding(signal, inputs, interface))?;
    }
    Ok(table)
}

// What a signal stands for in a program's body.
fn first_binding(signal: usize, inputs: u32, interface: u32) -> Binding
    ensures { binding_of result ≡ program_scope inputs interface signal }
{
    if signal < inputs as usize {
        Binding::Entering
    } else if signal < interface as usize {
        Binding::Outgoing
    } else {
        Binding::Unbound
    }
}

// Appends the statement with this number and all in it, in preorder; answers the number after them.
// The table of scopes is as before where it succeeds.
fn list_part<'a>(
    alloc: Global,
    body: &'a Kernel,
    control: Entry<'a>,
    path: u32,
    scope: &mut Vec<Binding>,
    list: &mut Vec<Statement<'a>>,
) -> Result<u32, NoMemory>
    requires locals { LocalsFit (length scope.old.items) (term_of body.now) }
    requires fits { path + statement_count (term_of body.now) < 2 ^ 32 }
    ensures after { IfOk result (λ after. after ≡ path + statement_count (term_of body.now)) }
    ensures scope { IfOk result (λ after. scope.new.items ≡ scope.old.items) }
    ensures list { IfOk result (λ after. map view_of list.new.items ≡ map view_of list.old.items
        ++ listed (scope_of scope.old.items) (entry_view control.entry) (term_of body.now) path) }
{
    let place = list.len();
    push_statement(alloc, body, control, scope, list)?;
    match body {
        Kernel::Nothing | Kernel::Pause | Kernel::Emit(_) | Kernel::Exit(_) => Ok(path + 1),
        Kernel::Present(test, yes, no) => {
            let next = list_part(alloc, yes, Entry::Then(path, test), path + 1, scope, list)?;
            set_second(list, place, next);
            list_part(alloc, no, Entry::Else(path, test), next, scope, list)
        }
        Kernel::Suspend(test, part) => {
            let control = Entry::Suspended(path, test);
            list_part(alloc, part, control, path + 1, scope, list)
        }
        Kernel::Seq(first, second) => {
            let next = list_part(alloc, first, Entry::Branch(path), path + 1, scope, list)?;
            set_second(list, place, next);
            list_part(alloc, second, Entry::Second(path), next, scope, list)
        }
        Kernel::Loop(_, part) => {
            list_part(alloc, part, Entry::Looped(path), path + 1, scope, list)
        }
        Kernel::Par(left, right) => {
            let next = list_part(alloc, left, Entry::Branch(path), path + 1, scope, list)?;
            set_second(list, place, next);
            list_part(alloc, right, Entry::Branch(path), next, scope, list)
        }
        Kernel::Trap(part) => list_part(alloc, part, Entry::Part(path), path + 1, scope, list),
        Kernel::Local(signal, part) => {
            let outer = bind_signal(scope, *signal, Binding::Bound(path));
            let after = list_part(alloc, part, Entry::Part(path), path + 1, scope, list)?;
            let _ = bind_signal(scope, *signal, outer);
            Ok(after)
        }
    }
}

// Appends a statement, without its parts.
fn push_statement<'a>(
    alloc: Global,
    body: &'a Kernel,
    control: Entry<'a>,
    scope: &[Binding],
    list: &mut Vec<Statement<'a>>,
) -> Result<(), NoMemory>
    ensures { IfOk result (λ u. map view_of list.new.items ≡ map view_of list.old.items
        ++ listed_one (scope_of scope.now) (entry_view control.entry) (term_of body.now) 0 ∷ []) }
{
    let signals = own_signals(alloc, body, scope)?;
    list.push(Statement {
        body,
        control,
        second: 0,
        signals,
    })?;
    Ok(())
}

// What the signals that a statement reads or emits itself stand for.
fn own_signals(alloc: Global, body: &Kernel, scope: &[Binding]) -> Result<Vec<Binding>, NoMemory>
    ensures { IfOk result (λ v. map binding_of v.items ≡ map (scope_of scope.now) (signals_of (term_of body.now))) }
{
    let mut signals = Vec::new(alloc);
    match body {
        Kernel::Emit(signal) => signals.push(binding_in(scope, *signal))?,
        Kernel::Present(test, _, _) => push_signals(test, scope, &mut signals)?,
        Kernel::Suspend(test, _) => push_signals(test, scope, &mut signals)?,
        _ => {}
    }
    Ok(signals)
}

// Appends what the signals of a test stand for.
fn push_signals(test: &Test, scope: &[Binding], signals: &mut Vec<Binding>) -> Result<(), NoMemory>
    ensures { IfOk result (λ u. map binding_of signals.new.items ≡ map binding_of signals.old.items
        ++ map (scope_of scope.now) (signals_in (expression_of test.now))) }
{
    match test {
        Test::Tick => Ok(()),
        Test::Sig(signal) => {
            signals.push(binding_in(scope, *signal))?;
            Ok(())
        }
        Test::Not(part) => {
            push_signals(part, scope, signals)?;
            Ok(())
        }
        Test::And(left, right) => {
            push_signals(left, scope, signals)?;
            push_signals(right, scope, signals)?;
            Ok(())
        }
        Test::Or(left, right) => {
            push_signals(left, scope, signals)?;
            push_signals(right, scope, signals)?;
            Ok(())
        }
    }
}

// What a signal stands for, by the table.
fn binding_in(scope: &[Binding], signal: SigId) -> Binding
    ensures { binding_of result ≡ scope_of scope.now signal.0 }
{
    if (signal.0 as usize) < scope.len() {
        scope[signal.0 as usize]
    } else {
        Binding::Unbound
    }
}

// Lets a signal stand for something else; answers what it stood for.
fn bind_signal(scope: &mut Vec<Binding>, signal: SigId, binding: Binding) -> Binding
    requires { signal.0 < length scope.old.items }
    ensures outer { result ≡ slice_index_or scope.old.items signal.0 result }
    ensures scope { scope.new.items ≡ slice_set scope.old.items signal.0 binding }
{
    let outer = scope[signal.0 as usize];
    scope[signal.0 as usize] = binding;
    outer
}

// Writes down the number of a statement's second part.
fn set_second(list: &mut Vec<Statement<'_>>, place: usize, second: u32)
    requires { place < length list.old.items }
    ensures { (l : Listed) → map view_of list.new.items ≡ slice_set (map view_of list.old.items) place
        (record (slice_index_or (map view_of list.old.items) place l) { second = second }) }
{
    let statement = &mut list[place];
    statement.second = second;
}
