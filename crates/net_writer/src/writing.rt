// The pieces of which parts are written.

ghost use Rattle.std.specs.Prelude.{◌≡◌, ◌++◌, OnOk};

use base_types::{NoMemory, put};

/// Writes a name between some bytes. Running out of memory is the only error.
pub fn put_named(
    text: &mut Vec<u8>,
    before: &[u8],
    name: &[u8],
    behind: &[u8],
) -> Result<(), NoMemory>
    ensures { OnOk result (text.new.items ≡ text.old.items ++ (before.now ++ (name.now ++ behind.now))) }
{
    put(text, before)?;
    put(text, name)?;
    put(text, behind)
}
