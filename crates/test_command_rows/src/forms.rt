// Texts that one call gives in one piece.

ghost use Rattle.std.specs.Prelude.{◌≤◌, length};

use crate::passes::kernel_text;
use base_types::Limits;
use cec_commands::{blif_of, c_of, encoded_blif_of, guarded_c_of, verilog_of};
use cec_opt_sources::{small_blif_of, small_c_of, small_verilog_of};
use cec_opt_texts::{optimized_blif, optimized_c, optimized_verilog};
use grc_order::First;
use std::alloc::Global;

/// A text of the file `m`, with no option that the library calls do not take.
#[derive(Clone, Copy)]
pub(crate) enum Form {
    Blif,
    EncodedBlif,
    C,
    GuardedC,
    Verilog,
    OptimizedBlif,
    OptimizedC,
    OptimizedVerilog,
    SmallBlif,
    SmallC,
    SmallVerilog,
    Kernel,
}

const FORMS: [(&str, Form); 12] = [
    ("blif m", Form::Blif),
    ("blif --encode m", Form::EncodedBlif),
    ("c m", Form::C),
    ("c --guard m", Form::GuardedC),
    ("verilog m", Form::Verilog),
    ("cec-opt blif m", Form::OptimizedBlif),
    ("cec-opt c m", Form::OptimizedC),
    ("cec-opt verilog m", Form::OptimizedVerilog),
    ("call small_blif_of m", Form::SmallBlif),
    ("call small_c_of m", Form::SmallC),
    ("call small_verilog_of m", Form::SmallVerilog),
    ("call front m", Form::Kernel),
];

/// The text that some words ask for, if one call gives it.
pub(crate) fn form_of(words: &str) -> Option<Form> {
    for (name, form) in FORMS.iter() {
        if *name == words {
            return Some(*form);
        }
    }
    None
}

/// Whether the call that gives a text in one piece gives these bytes.
pub(crate) fn is_made(alloc: Global, form: Form, source: &[u8], written: &[u8]) -> bool {
    match text_of(alloc, form, source) {
        Some(text) => text.as_slice() == written,
        None => false,
    }
}

/// The text of a source, or the optimized text of a BLIF text, or what a pass answers; none where it is refused.
pub(crate) fn text_of(alloc: Global, form: Form, source: &[u8]) -> Option<Vec<u8>> {
    if source.len() as u64 > Limits::SOURCE_BYTES {
        return None;
    }
    match form {
        Form::Blif => blif_of(alloc, source, None, &mut First).ok(),
        Form::EncodedBlif => encoded_blif_of(alloc, source, None, &mut First).ok(),
        Form::C => c_of(alloc, source, None, &mut First).ok(),
        Form::GuardedC => guarded_c_of(alloc, source, None, &mut First).ok(),
        Form::Verilog => verilog_of(alloc, source, None, &mut First).ok(),
        Form::OptimizedBlif => optimized_blif(alloc, source, &[]).ok(),
        Form::OptimizedC => optimized_c(alloc, source, &[]).ok(),
        Form::OptimizedVerilog => optimized_verilog(alloc, source, &[]).ok(),
        Form::SmallBlif => small_blif_of(alloc, source, None, &mut First).ok(),
        Form::SmallC => small_c_of(alloc, source, None, &mut First).ok(),
        Form::SmallVerilog => small_verilog_of(alloc, source, None, &mut First).ok(),
        Form::Kernel => kernel_text(alloc, source),
    }
}
