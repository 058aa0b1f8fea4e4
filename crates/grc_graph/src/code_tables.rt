// The static codes of a statement, by its number.

ghost use Rattle.std.specs.Prelude.{◌≡◌, ℕ, ◌<◌, ◌≤◌, false, length};
ghost use Rattle.base_types.specs.CodeSet.{members};
ghost use Rattle.est_kernel.specs.StaticCodes.{has_code};
ghost use Rattle.grc_graph.specs.CodeTables.{codes_of, set_at};
ghost use Rattle.grc_graph.specs.PlainInstances.{instance_of};
ghost use Rattle.grc_graph.specs.Wires.{codes_below, listed};

use crate::instances::{Instance, Layer};
use base_types::CodeSet;
use est_kernel::Codes;

/// The codes of the started statement with this number. It takes no memory.
pub fn started_codes(codes: &Codes, path: u32) -> CodeSet
    requires { path < length codes.now.started.items }
    ensures { members result ≡ set_at codes.now.started.items path }
{
    codes.started[path as usize]
}

/// The codes of the resumed statement with this number. It takes no memory.
pub fn resumed_codes(codes: &Codes, path: u32) -> CodeSet
    requires { path < length codes.now.resumed.items }
    ensures { members result ≡ set_at codes.now.resumed.items path }
{
    codes.resumed[path as usize]
}

/// The static codes of an instance. It takes no memory.
pub fn instance_codes(codes: &Codes, instance: Instance) -> CodeSet
    requires started { instance.path.0 < length codes.now.started.items }
    requires resumed { instance.path.0 < length codes.now.resumed.items }
    ensures { members result ≡ codes_of codes.now (instance_of instance) }
{
    match instance.layer {
        Layer::Resumed => resumed_codes(codes, instance.path.0),
        Layer::Started(_) => started_codes(codes, instance.path.0),
    }
}

/// A number after the last code of a set, up to which a loop over its codes need go. It takes no memory.
pub fn codes_end(set: CodeSet) -> u8
    ensures within { result ≤ 64 }
    ensures none { (k : ℕ) → result ≤ k → k < 64 → members set k ≡ false }
    ensures all { codes_below result (members set) ≡ listed (members set) }
{
    let mut rest = set;
    for code in 0..64 {
        if rest == CodeSet::empty() {
            return code;
        }
        rest = rest.without(code);
    }
    64
}

/// Whether the set has a code. It takes no memory.
pub fn has_some_code(set: CodeSet) -> bool
    ensures { result ≡ has_code (members set) }
{
    for code in 0..codes_end(set) {
        if set.has(code) {
            return true;
        }
    }
    false
}
