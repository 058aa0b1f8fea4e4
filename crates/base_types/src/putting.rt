// Bytes and numbers after a text.

ghost use Rattle.std.specs.Prelude.{◌≡◌, ◌++◌, decimal, OnOk};

use crate::memory::NoMemory;
use itoa::Buffer;

/// Puts some bytes after a text. Running out of memory is the only error, here and below.
pub fn put(text: &mut Vec<u8>, bytes: &[u8]) -> Result<(), NoMemory>
    ensures { OnOk result (text.new.items ≡ text.old.items ++ bytes.now) }
{
    text.extend_from_slice(bytes)?;
    Ok(())
}

/// Puts some bytes after a text, and a decimal number after them.
pub fn put_number(text: &mut Vec<u8>, mark: &[u8], number: usize) -> Result<(), NoMemory>
    ensures { OnOk result (text.new.items ≡ text.old.items ++ (mark.now ++ decimal number)) }
{
    put(text, mark)?;
    put(text, Buffer::new().format(number).as_bytes())
}
