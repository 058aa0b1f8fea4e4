// The names in expressions.

ghost use Rattle.std.specs.Prelude.{◌≡◌, ◌++◌, map, flat_map, IfOk, OnOk};
ghost use Rattle.net_expressions.specs.Names.{names_in};
ghost use Rattle.net_expressions.specs.Plain.{names_at};
ghost use Rattle.net_expressions.specs.Views.{expr_of};

use crate::trees::Expr;
use base_types::NoMemory;
use std::alloc::Global;

/// The names in an expression, from the left. Its only error is out of memory.
#[tactic(auto, using(crate::proofs::Rows::names_told))]
pub fn names_in<'a>(alloc: Global, value: &'a Expr) -> Result<Vec<&'a [u8]>, NoMemory>
    ensures { IfOk result (λ v. map (λ w. w.now) v.items ≡ names_in (expr_of value.now)) }
{
    let mut names = Vec::new(alloc);
    put_names(value, &mut names)?;
    Ok(names)
}

#[cycle(names)]
#[tactic(auto, using(crate::proofs::Rows::name_rows))]
fn put_names<'a>(value: &'a Expr, names: &mut Vec<&'a [u8]>) -> Result<(), NoMemory>
    ensures { OnOk result (map (λ w. w.now) names.new.items ≡ map (λ w. w.now) names.old.items ++ names_at value.now) }
{
    match value {
        Expr::Name(name) => Ok(names.push(name.bytes())?),
        Expr::Const(_) => Ok(()),
        Expr::Not(part) => put_names(part, names),
        Expr::And(parts) => put_all_names(parts.as_slice(), names),
        Expr::Or(parts) => put_all_names(parts.as_slice(), names),
    }
}

#[cycle(names)]
fn put_all_names<'a>(parts: &'a [Expr], names: &mut Vec<&'a [u8]>) -> Result<(), NoMemory>
    ensures { OnOk result
        (map (λ w. w.now) names.new.items ≡ map (λ w. w.now) names.old.items ++ flat_map names_at parts.now) }
{
    for part in parts {
        put_names(part, names)?;
    }
    Ok(())
}
