// A page of answers.

ghost use Rattle.std.specs.Prelude.{◌≡◌, ◌++◌, IsTrue, true, false, [], codes, decimal};

use base_types::{put, put_number};
use std::alloc::Global;

/// A text to which answers are added. A call that adds to it has no error: if it runs out of memory, the page is no
/// longer whole, and stays so. So a program looks at that once, at its end, and a row has no early return, whose proof
/// costs most.
#[derive(Drop)]
pub(crate) struct Page {
    pub bytes: Vec<u8>,
    pub is_whole: bool,
}

impl Page {
    /// A page with no answers.
    pub(crate) fn new(alloc: Global) -> Page
        ensures empty { result.bytes.items ≡ [] }
        ensures whole { result.is_whole ≡ true }
    {
        Page {
            bytes: Vec::new(alloc),
            is_whole: true,
        }
    }

    /// Adds some bytes.
    pub(crate) fn put(&mut self, bytes: &[u8])
        ensures adds { IsTrue self.new.is_whole → self.new.bytes.items ≡ self.old.bytes.items ++ bytes.now }
        ensures stays { IsTrue self.new.is_whole → IsTrue self.old.is_whole }
    {
        if put(&mut self.bytes, bytes).is_err() {
            self.is_whole = false;
        }
    }

    /// Adds a mark and a number.
    pub(crate) fn put_number(&mut self, mark: &[u8], number: usize)
        ensures adds { IsTrue self.new.is_whole
            → self.new.bytes.items ≡ self.old.bytes.items ++ (mark.now ++ decimal number) }
        ensures stays { IsTrue self.new.is_whole → IsTrue self.old.is_whole }
    {
        if put_number(&mut self.bytes, mark, number).is_err() {
            self.is_whole = false;
        }
    }

    /// Says that what would be added is not there, since a pass ran out of memory.
    pub(crate) fn fail(&mut self)
        ensures broken { self.new.is_whole ≡ false }
    {
        self.is_whole = false;
    }
}
