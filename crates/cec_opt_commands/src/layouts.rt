// The words for the layout of an embedded text.

ghost use Rattle.std.specs.Prelude.{◌≡◌, map};
ghost use Rattle.std.specs.Result.{result_map_both};
ghost use Rattle.std.specs.String.{string_bytes};
ghost use Rattle.cec_opt_commands.specs.Layouts.{file_of, is_layout, is_packed, layout_of, no_layout, one_layout};
ghost use Rattle.cec_opt_commands.specs.Layouts.{with_file, with_layout, with_packed};
ghost use Rattle.cec_words.specs.CommonWords.{misuse_is};

use cec_words::{Misuse, faulty};
use csub_embed::{EmbedFile, EmbedLayout};

/// What the words for the layout have said so far.
#[derive(Clone, Copy)]
pub(crate) struct Laid {
    /// Whether each latch takes one bit.
    pub(crate) packed: bool,
    /// The file that is asked for.
    pub(crate) file: Option<EmbedFile>,
}

/// Before any such word.
pub(crate) fn no_layout() -> Laid
    ensures { result ≡ no_layout }
{
    Laid {
        packed: false,
        file: None,
    }
}

/// The layout that the words ask for.
pub(crate) fn layout_of(laid: Laid) -> EmbedLayout
    ensures { result ≡ layout_of laid }
{
    EmbedLayout {
        packed: laid.packed,
        file: laid.file.unwrap_or(EmbedFile::Header),
    }
}

/// One word for the layout or none, and the words after it.
pub(crate) fn one_layout<'a>(
    laid: Laid,
    words: &'a [String],
) -> Result<(Laid, &'a [String]), Misuse<'a>>
    ensures { result_map_both (λ l. (l.0, map string_bytes l.1.now)) misuse_is result
        ≡ one_layout laid (map string_bytes words.now) }
{
    let Some((word, more)) = words.split_first() else {
        return Ok((laid, words));
    };
    if !is_layout(word.as_bytes()) {
        return Ok((laid, words));
    }
    match with_layout(laid, word.as_bytes()) {
        Some(next) => Ok((next, more)),
        None => Err(faulty(b"bad option: ", word.as_bytes())),
    }
}

// Whether a word is one for the layout.
fn is_layout(word: &[u8]) -> bool
    ensures { result ≡ is_layout word.now }
{
    is_packed(word) || file_of(word).is_some()
}

// One more word for the layout; `None` where it does not go with those before.
fn with_layout(laid: Laid, word: &[u8]) -> Option<Laid>
    ensures { result ≡ with_layout laid word.now }
{
    if is_packed(word) {
        with_packed(laid)
    } else {
        with_file(laid, file_of(word))
    }
}

fn with_packed(laid: Laid) -> Option<Laid>
    ensures { result ≡ with_packed laid }
{
    if laid.packed {
        return None;
    }
    Some(Laid {
        packed: true,
        ..laid
    })
}

fn with_file(laid: Laid, file: Option<EmbedFile>) -> Option<Laid>
    ensures { result ≡ with_file laid file }
{
    if laid.file.is_some() {
        return None;
    }
    Some(Laid { file, ..laid })
}

fn is_packed(word: &[u8]) -> bool
    ensures { result ≡ is_packed word.now }
{
    word == b"--packed".as_slice()
}

// The word for a file.
fn file_of(word: &[u8]) -> Option<EmbedFile>
    ensures { result ≡ file_of word.now }
{
    if word == b"--header".as_slice() {
        Some(EmbedFile::Header)
    } else if word == b"--declarations".as_slice() {
        Some(EmbedFile::Declarations)
    } else if word == b"--definitions".as_slice() {
        Some(EmbedFile::Definitions)
    } else {
        None
    }
}
