// The words after `verilog --reset`: how the reset works, names, and a text or a source.

ghost use Rattle.std.specs.Prelude.{◌≡◌, None, map, option_map};
ghost use Rattle.std.specs.Result.{result_map_both};
ghost use Rattle.std.specs.String.{string_bytes};
ghost use Rattle.vlog_reset.specs.Views.{options_of};
ghost use Rattle.cec_opt_commands.specs.Resets.{
  bad_word,
  coding_of,
  manner_with,
  needs_value,
  plain_reset,
  wanted_by,
  with_active_low,
  with_asynchronous,
  with_encoded,
  with_flag,
  with_initialized,
  with_its_main,
  with_its_source,
  with_module,
  with_prefixes,
  with_its_text,
  with_value,
  with_word,
};
ghost use Rattle.cec_words.specs.CommonWords.{misuse_is};
ghost use Rattle.cec_opt_commands.specs.Views.{wanted_is};

use cec_opt_sources::Coding;
use cec_words::{Misuse, faulty, is_plain};
use vlog_reset::{Manner, ResetOptions};

/// What the words have said so far.
#[derive(Clone, Copy)]
pub(crate) struct Wanted<'a> {
    /// The names of the module, and how its reset works.
    pub(crate) options: ResetOptions<'a>,
    /// The file with a source, and the name of its main module.
    pub(crate) source: Option<&'a str>,
    pub(crate) main: Option<&'a [u8]>,
    /// The file with a text.
    pub(crate) text: Option<&'a str>,
    /// Whether the circuit of a source is the one whose latches hold the state in a code.
    pub(crate) is_encoded: bool,
}

/// Before any such word: a reset that takes effect at edges of the clock, and is active high.
pub(crate) fn plain_reset(reset: &[u8]) -> Wanted<'_>
    ensures { wanted_is result ≡ plain_reset reset.now }
{
    Wanted {
        options: ResetOptions {
            name: None,
            reset,
            manner: Manner {
                is_asynchronous: false,
                is_active_low: false,
                is_initialized: false,
            },
            has_prefixes: false,
        },
        source: None,
        main: None,
        text: None,
        is_encoded: false,
    }
}

fn with_asynchronous(manner: Manner) -> Option<Manner>
    ensures { result ≡ with_asynchronous manner }
{
    if manner.is_asynchronous {
        return None;
    }
    Some(Manner {
        is_asynchronous: true,
        ..manner
    })
}

fn with_active_low(manner: Manner) -> Option<Manner>
    ensures { result ≡ with_active_low manner }
{
    if manner.is_active_low {
        return None;
    }
    Some(Manner {
        is_active_low: true,
        ..manner
    })
}

fn with_initialized(manner: Manner) -> Option<Manner>
    ensures { result ≡ with_initialized manner }
{
    if manner.is_initialized {
        return None;
    }
    Some(Manner {
        is_initialized: true,
        ..manner
    })
}

fn manner_with(manner: Manner, word: &[u8]) -> Option<Manner>
    ensures { result ≡ manner_with manner word.now }
{
    if word == b"--async".as_slice() {
        with_asynchronous(manner)
    } else if word == b"--active-low".as_slice() {
        with_active_low(manner)
    } else if word == b"--initial".as_slice() {
        with_initialized(manner)
    } else {
        None
    }
}

fn with_prefixes<'a>(options: ResetOptions<'a>) -> Option<ResetOptions<'a>>
    ensures { option_map options_of result ≡ with_prefixes (options_of options.entry) }
{
    if options.has_prefixes {
        return None;
    }
    Some(ResetOptions {
        has_prefixes: true,
        ..options
    })
}

// One more word without a value.
fn with_flag<'a>(options: ResetOptions<'a>, word: &[u8]) -> Option<ResetOptions<'a>>
    ensures { option_map options_of result ≡ with_flag (options_of options.entry) word.now }
{
    if word == b"--prefix".as_slice() {
        return with_prefixes(options);
    }
    let manner = manner_with(options.manner, word)?;
    Some(ResetOptions { manner, ..options })
}

// The file with a text, where neither one nor a source is named, and none is asked to be encoded.
fn with_its_text<'a>(wanted: Wanted<'a>, name: &'a str) -> Option<Wanted<'a>>
    ensures { option_map wanted_is result ≡ with_its_text (wanted_is wanted.entry) name.now }
{
    if wanted.text.is_some()
        || wanted.source.is_some()
        || wanted.main.is_some()
        || wanted.is_encoded
    {
        return None;
    }
    Some(Wanted {
        text: Some(name),
        ..wanted
    })
}

// A source is encoded, and no text.
fn with_encoded<'a>(wanted: Wanted<'a>) -> Option<Wanted<'a>>
    ensures { option_map wanted_is result ≡ with_encoded (wanted_is wanted.entry) }
{
    if wanted.text.is_some() || wanted.is_encoded {
        return None;
    }
    Some(Wanted {
        is_encoded: true,
        ..wanted
    })
}

/// The circuit of a source whose latches hold the state in a code, or the lighter one of two.
pub(crate) fn coding_of(is_encoded: bool) -> Coding
    ensures { result ≡ coding_of is_encoded }
{
    if is_encoded {
        Coding::Encoded
    } else {
        Coding::Lighter
    }
}

// One more word that is no value: a file, or one for the reset. `None` where it does not go with those before.
fn with_word<'a>(wanted: Wanted<'a>, word: &'a str) -> Option<Wanted<'a>>
    ensures { option_map wanted_is result ≡ with_word (wanted_is wanted.entry) word.now }
{
    if is_plain(word.as_bytes()) {
        return with_its_text(wanted, word);
    }
    if word.as_bytes() == b"--encode".as_slice() {
        return with_encoded(wanted);
    }
    let options = with_flag(wanted.options, word.as_bytes())?;
    Some(Wanted { options, ..wanted })
}

fn with_module<'a>(wanted: Wanted<'a>, value: &'a str) -> Option<Wanted<'a>>
    ensures { option_map wanted_is result ≡ with_module (wanted_is wanted.entry) value.now }
{
    if wanted.options.name.is_some() || !is_plain(value.as_bytes()) {
        return None;
    }
    let options = ResetOptions {
        name: Some(value.as_bytes()),
        ..wanted.options
    };
    Some(Wanted { options, ..wanted })
}

fn with_its_source<'a>(wanted: Wanted<'a>, value: &'a str) -> Option<Wanted<'a>>
    ensures { option_map wanted_is result ≡ with_its_source (wanted_is wanted.entry) value.now }
{
    if wanted.text.is_some() || wanted.source.is_some() || !is_plain(value.as_bytes()) {
        return None;
    }
    Some(Wanted {
        source: Some(value),
        ..wanted
    })
}

fn with_its_main<'a>(wanted: Wanted<'a>, value: &'a str) -> Option<Wanted<'a>>
    ensures { option_map wanted_is result ≡ with_its_main (wanted_is wanted.entry) value.now }
{
    if wanted.text.is_some() || wanted.main.is_some() || !is_plain(value.as_bytes()) {
        return None;
    }
    Some(Wanted {
        main: Some(value.as_bytes()),
        ..wanted
    })
}

// One more word with its value; `None` where it does not go with those before, or does not take the value.
fn with_value<'a>(wanted: Wanted<'a>, key: &[u8], value: &'a str) -> Option<Wanted<'a>>
    ensures { option_map wanted_is result ≡ with_value (wanted_is wanted.entry) key.now value.now }
{
    if key == b"--module".as_slice() {
        with_module(wanted, value)
    } else if key == b"--source".as_slice() {
        with_its_source(wanted, value)
    } else if key == b"--main".as_slice() {
        with_its_main(wanted, value)
    } else {
        None
    }
}

// Whether a word has a value.
fn needs_value(word: &[u8]) -> bool
    ensures { result ≡ needs_value word.now }
{
    word == b"--module".as_slice() || word == b"--source".as_slice() || word == b"--main".as_slice()
}

/// All further words, or what is wrong with them.
pub(crate) fn wanted_by<'a>(
    wanted: Wanted<'a>,
    words: &'a [String],
) -> Result<Wanted<'a>, Misuse<'a>>
    ensures { result_map_both wanted_is misuse_is result
        ≡ wanted_by (wanted_is wanted.entry) None (map string_bytes words.now) }
{
    let mut with = wanted;
    let mut key: Option<&'a [u8]> = None;
    for word in words {
        match key {
            None => {
                if needs_value(word.as_bytes()) {
                    key = Some(word.as_bytes());
                } else {
                    match with_word(with, word) {
                        None => return Err(bad_word(word.as_bytes())),
                        Some(next) => with = next,
                    }
                }
            }
            Some(name) => match with_value(with, name, word) {
                None => return Err(faulty(b"bad option: ", name)),
                Some(next) => {
                    with = next;
                    key = None;
                }
            },
        }
    }
    match key {
        None => Ok(with),
        Some(name) => Err(faulty(b"no value after ", name)),
    }
}

// What is wrong with a word that has no value, and does not go with those before. A file is one word too many.
fn bad_word(word: &[u8]) -> Misuse<'_>
    ensures { misuse_is result ≡ bad_word word.now }
{
    if is_plain(word) {
        faulty(b"one word too many: ", word)
    } else {
        faulty(b"bad option: ", word)
    }
}
