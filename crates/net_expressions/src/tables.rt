// Tables of names.

ghost use Rattle.std.specs.Prelude.{◌≡◌, ◌≢◌, ℕ, List, Some, None, map, IfOk};
ghost use Rattle.std.specs.HashSet.{contains_by};
ghost use Rattle.base_types.specs.Names.{is_same_name};
ghost use Rattle.net_ir.specs.NameLists.{is_among};
ghost use Rattle.net_expressions.specs.NameTables.{name_told, again_from};

use base_types::NoMemory;
use std::alloc::Global;
use std::collections::HashSet;

/// A set of names, and the first of them that stood among others before or stands a second time. Where there is such a
/// name, nothing is said of the set.
#[derive(Drop)]
pub struct NameTable<'a> {
    pub names: HashSet<&'a [u8]>,
    pub again: Option<&'a [u8]>,
}

/// The table of some names, where those before are given. Its only error is out of memory.
pub fn name_table<'a>(
    alloc: Global,
    before: &HashSet<&[u8]>,
    names: &[&'a [u8]],
) -> Result<NameTable<'a>, NoMemory>
    ensures again { IfOk result (λ t. name_told t.again
        ≡ again_from (λ n. contains_by (λ k. is_same_name n k.now) before.now) (map (λ w. w.now) names.now)) }
    ensures members { IfOk result (λ t. t.again ≡ None
        → (n : List ℕ) → contains_by (λ k. is_same_name n k.now) t.names ≡ is_among n (map (λ w. w.now) names.now)) }
{
    let mut table = HashSet::new(alloc);
    for name in names {
        if before.contains(*name) {
            return Ok(ended(table, name));
        }
        if !table.insert(*name)? {
            return Ok(ended(table, name));
        }
    }
    Ok(NameTable {
        names: table,
        again: None,
    })
}

// A table that ends before a name.
fn ended<'a>(names: HashSet<&'a [u8]>, name: &'a [u8]) -> NameTable<'a>
    ensures told { name_told result.again ≡ Some name.now }
    ensures some { result.again ≢ None }
{
    NameTable {
        names,
        again: Some(name),
    }
}

/// The set of some names. Its only error is out of memory.
pub fn name_set<'a>(alloc: Global, names: &[&'a [u8]]) -> Result<HashSet<&'a [u8]>, NoMemory>
    ensures { IfOk result
        (λ s. (n : List ℕ) → contains_by (λ k. is_same_name n k.now) s ≡ is_among n (map (λ w. w.now) names.now)) }
{
    let mut set = HashSet::new(alloc);
    for name in names {
        set.insert(*name)?;
    }
    Ok(set)
}
