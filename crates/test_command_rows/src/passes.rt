// What the front end answers, for a call that no command makes.

ghost use Rattle.std.specs.Prelude.{◌≤◌, length};

use crate::page::Page;
use base_types::Limits;
use est_front::front;
use est_kernel::{height, size};
use std::alloc::Global;

/// The numbers of signals and nodes of a source's kernel program, and its height; none where the source is refused.
pub(crate) fn kernel_text(alloc: Global, source: &[u8]) -> Option<Vec<u8>>
    requires { length source.now ≤ Limits.SOURCE_BYTES }
{
    let mut page = Page::new(alloc);
    match front(alloc, source, None) {
        Ok(program) => {
            page.put_number(b"", program.signals.len());
            page.put_number(b" ", size(&program.body) as usize);
            page.put_number(b" ", height(&program.body) as usize);
            page.put(b"\n");
        }
        Err(_) => page.fail(),
    }
    whole(page)
}

fn whole(page: Page) -> Option<Vec<u8>> {
    if page.is_whole {
        Some(page.bytes)
    } else {
        None
    }
}
