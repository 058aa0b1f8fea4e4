// Expressions over names, each with its slot, as terms of a plan and as steps.

ghost use Rattle.std.specs.Prelude.{◌≡◌, ◌<◌, [], map, IfOk, OnOk};
ghost use Rattle.net_expressions.specs.Views.{expr_of};
ghost use Rattle.run_steps.specs.Slots.{slot_in};
ghost use Rattle.run_steps.specs.Plans.{Adds, Compiles};
ghost use Rattle.run_steps.specs.Expressions.{expr_step, expr_value, parts_value, joined_all};

use crate::plan::Plan;
use crate::slots::slot_of;
use crate::term::{Junction, Term};
use base_types::NoMemory;
use indexmap::IndexSet;
use net_expressions::Expr;

/// The term of an expression. What is in it is computed before. Its only error is out of memory.
#[cycle(terms)]
pub fn expr_term(plan: &mut Plan, slots: &IndexSet<&[u8]>, value: &Expr) -> Result<Term, NoMemory>
    ensures { IfOk result
        (λ t. Compiles (expr_value (map (λ k. k.now) slots.now.keys) value.now) plan.old t plan.new) }
{
    match value {
        Expr::Name(name) => Ok(plan.copied(slot_of(slots, name.bytes()))),
        Expr::Const(value) => Ok(plan.constant(*value)),
        Expr::Not(part) => match expr_term(plan, slots, part) {
            Ok(term) => Ok(term.negated()),
            Err(NoMemory) => Err(NoMemory),
        },
        Expr::And(parts) => joined_term(plan, slots, Junction::And, parts.as_slice()),
        Expr::Or(parts) => joined_term(plan, slots, Junction::Or, parts.as_slice()),
    }
}

// The term of expressions that are joined.
#[cycle(terms)]
fn joined_term(
    plan: &mut Plan,
    slots: &IndexSet<&[u8]>,
    junction: Junction,
    parts: &[Expr],
) -> Result<Term, NoMemory>
    ensures { IfOk result
        (λ t. Compiles (parts_value (map (λ k. k.now) slots.now.keys) junction parts.now) plan.old t plan.new) }
{
    let Some((first, others)) = parts.split_first() else {
        return Ok(plan.constant(none_joined(junction)));
    };
    let mut all = expr_term(plan, slots, first)?;
    for part in others {
        let next = expr_term(plan, slots, part)?;
        all = plan.joined(junction, all, next)?;
    }
    Ok(all)
}

fn none_joined(junction: Junction) -> bool
    ensures { result ≡ joined_all junction [] }
{
    match junction {
        Junction::And => true,
        Junction::Or => false,
    }
}

/// Adds the step that gives a name the value of an expression. The terms so far say nothing any more. Its only error is
/// out of memory.
pub fn push_expr(
    plan: &mut Plan,
    slots: &IndexSet<&[u8]>,
    target: &[u8],
    value: &Expr,
) -> Result<(), NoMemory>
    requires { slot_in (map (λ k. k.now) slots.now.keys) target.now < plan.old.named }
    ensures tables { OnOk result (plan.new.tables ≡ plan.old.tables) }
    ensures adds { OnOk result
        (Adds (expr_step (map (λ k. k.now) slots.now.keys) target.now (expr_of value.now)) plan.old plan.new) }
{
    let term = expr_term(plan, slots, value)?;
    plan.push_term(slot_of(slots, target), term)
}
