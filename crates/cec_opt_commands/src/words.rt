// What the words of a command line ask for, or what is wrong with them.

ghost use Rattle.std.specs.Prelude.{◌≡◌, ◌++◌, codes, map, option_map};
ghost use Rattle.std.specs.Result.{result_map_both};
ghost use Rattle.std.specs.String.{string_bytes};
ghost use Rattle.base_types.specs.Names.{is_same_name};
ghost use Rattle.cec_opt_commands.specs.Relations.{given_by};
ghost use Rattle.cec_opt_commands.specs.Resets.{plain_reset};
ghost use Rattle.cec_opt_commands.specs.Words.{
  about_asked,
  command_of,
  embed_asked,
  file_wanted,
  first_asked,
  given_request,
  is_embed,
  is_reset,
  laid_asked,
  no_file,
  no_options,
  one_option,
  options_asked,
  related_asked,
  request_by,
  reset_asked,
  rest_asked,
  source_asked,
  takes_value,
  task_asked,
  task_of,
  text_asked,
  text_wanted,
  with_main,
  with_option,
  with_source,
};
ghost use Rattle.cec_words.specs.CommonWords.{about_of, is_plain, misuse_is};
ghost use Rattle.cec_opt_commands.specs.Views.{options_are, plain_request, plain_task, wanted_is};

use crate::layouts::{layout_of, no_layout, one_layout};
use crate::relations::{first_relation, is_relation, rest_by};
use crate::resets::{Wanted, coding_of, plain_reset, wanted_by};
use cec_opt_sources::Coding;
use cec_words::{About, Misuse, about_of, faulty, is_plain};
use csub_embed::EmbedLayout;
use vlog_reset::ResetOptions;

/// A form of the texts that are written.
#[derive(Clone, Copy, Debug, PartialEq, Eq)]
pub(crate) enum Form {
    /// BLIF.
    Blif,
    /// The C subset.
    C,
    /// Structural Verilog.
    Verilog,
}

/// What is done with a text, or with a source.
#[derive(Clone, Copy)]
pub(crate) enum Task<'a> {
    /// Its optimized circuit is written, in this form.
    Write(Form),
    /// Its optimized circuit is written as embedded C, as a component of this name and in this layout.
    Embed(&'a [u8], EmbedLayout),
    /// Its optimized circuit is written as Verilog with a reset, with these names. Of a source it is this one of two
    /// circuits.
    Reset(ResetOptions<'a>, Coding),
    /// The sizes of its circuit and of the optimized one are reported.
    Check,
}

/// What is asked for.
#[derive(Clone, Copy)]
pub(crate) enum Request<'a> {
    /// What the program writes about itself.
    Tell(About),
    /// A task on the text in the file of this name, where its inputs meet the relations that these words begin with.
    Do(Task<'a>, &'a [String], &'a str),
    /// A task on the source in the file of this name, by the main module of this name.
    Make(Task<'a>, &'a str, Option<&'a [u8]>),
}

/// The options of a command on a source.
#[derive(Clone, Copy)]
pub(crate) struct Options<'a> {
    source: Option<&'a str>,
    main: Option<&'a [u8]>,
}

/// What the words ask for, or what is wrong with them. It takes no memory.
pub(crate) fn request_by(words: &[String]) -> Result<Request<'_>, Misuse<'_>>
    ensures { result_map_both plain_request misuse_is result ≡ request_by (map string_bytes words.now) }
{
    match words.split_first() {
        None => Err(faulty(b"no command", b"")),
        Some((word, rest)) => first_asked(word.as_bytes(), rest),
    }
}

// What a first word and the words after it ask for.
fn first_asked<'a>(word: &'a [u8], rest: &'a [String]) -> Result<Request<'a>, Misuse<'a>>
    ensures { result_map_both plain_request misuse_is result
        ≡ first_asked word.now (task_of word.now) (about_of word.now) (map string_bytes rest.now) }
{
    match task_of(word) {
        Some(task) => related_asked(task, rest),
        None => match about_of(word) {
            Some(about) => about_asked(about, rest),
            None => Err(faulty(b"unknown word: ", word)),
        },
    }
}

// What a word that asks about the program and the words after it ask for.
fn about_asked<'a>(about: About, rest: &'a [String]) -> Result<Request<'a>, Misuse<'a>>
    ensures { result_map_both plain_request misuse_is result ≡ about_asked about (map string_bytes rest.now) }
{
    match rest.first() {
        None => Ok(Request::Tell(about)),
        Some(more) => Err(faulty(b"one word too many: ", more.as_bytes())),
    }
}

// What a task and the words after its command ask for, the first of which may be relations.
fn related_asked<'a>(task: Task<'a>, words: &'a [String]) -> Result<Request<'a>, Misuse<'a>>
    ensures { result_map_both plain_request misuse_is result
        ≡ related_asked (plain_task task.entry) (map string_bytes words.now) }
{
    let Some(word) = words.first() else {
        return task_asked(task, words);
    };
    let request = task_asked(task, rest_by(words))?;
    given_request(word.as_bytes(), words, request)
}

// A request, with the relations that words begin with, the first of which has this word. A source has relations of
// its own.
fn given_request<'a>(
    word: &'a [u8],
    words: &'a [String],
    request: Request<'a>,
) -> Result<Request<'a>, Misuse<'a>>
    ensures { result_map_both plain_request misuse_is result
        ≡ given_request word.now (given_by (map string_bytes words.now)) (plain_request request.entry) }
{
    match request {
        Request::Tell(about) => Ok(Request::Tell(about)),
        Request::Do(task, _, name) => Ok(Request::Do(task, words, name)),
        Request::Make(task, name, main) => match first_relation(words) {
            Some(_) => Err(faulty(b"a source has relations of its own: ", word)),
            None => Ok(Request::Make(task, name, main)),
        },
    }
}

// What a task and the words after its command and relations ask for.
fn task_asked<'a>(task: Task<'a>, words: &'a [String]) -> Result<Request<'a>, Misuse<'a>>
    ensures { result_map_both plain_request misuse_is result
        ≡ task_asked (plain_task task.entry) (map string_bytes words.now) }
{
    let Some((word, rest)) = words.split_first() else {
        return Err(no_file(task));
    };
    if is_embed(task, word.as_bytes()) {
        embed_asked(rest)
    } else if is_reset(task, word.as_bytes()) {
        reset_asked(rest)
    } else {
        rest_asked(task, words)
    }
}

// What is wrong where neither a text nor a source is named.
fn no_file(task: Task<'_>) -> Misuse<'static>
    ensures { misuse_is result ≡ no_file (plain_task task.entry) }
{
    faulty(b"no file after ", command_of(task))
}

// The command of a task.
fn command_of(task: Task<'_>) -> &'static [u8]
    ensures { result.now ≡ command_of (plain_task task.entry) }
{
    match task {
        Task::Write(Form::Blif) => b"blif",
        Task::Write(Form::C) | Task::Embed(_, _) => b"c",
        Task::Write(Form::Verilog) | Task::Reset(_, _) => b"verilog",
        Task::Check => b"check",
    }
}

// Whether a word after the command of a task asks for embedded C.
fn is_embed(task: Task<'_>, word: &[u8]) -> bool
    ensures { result ≡ is_embed (plain_task task.entry) word.now }
{
    match task {
        Task::Write(Form::C) => word == b"--embed".as_slice(),
        Task::Write(Form::Blif) | Task::Write(Form::Verilog) => false,
        Task::Embed(_, _) | Task::Reset(_, _) | Task::Check => false,
    }
}

// Whether a word after the command of a task asks for Verilog with a reset.
fn is_reset(task: Task<'_>, word: &[u8]) -> bool
    ensures { result ≡ is_reset (plain_task task.entry) word.now }
{
    match task {
        Task::Write(Form::Verilog) => word == b"--reset".as_slice(),
        Task::Write(Form::Blif) | Task::Write(Form::C) => false,
        Task::Embed(_, _) | Task::Reset(_, _) | Task::Check => false,
    }
}

// What the name of a reset and the words after it ask for.
fn reset_asked<'a>(words: &'a [String]) -> Result<Request<'a>, Misuse<'a>>
    ensures { result_map_both plain_request misuse_is result ≡ reset_asked (map string_bytes words.now) }
{
    let Some((reset, rest)) = words.split_first() else {
        return Err(faulty(b"no value after ", b"--reset"));
    };
    if !is_plain(reset.as_bytes()) {
        return Err(faulty(b"bad option: ", b"--reset"));
    }
    let wanted = wanted_by(plain_reset(reset.as_bytes()), rest)?;
    file_wanted(wanted)
}

// What is asked for, where a text or a source is named.
fn file_wanted<'a>(wanted: Wanted<'a>) -> Result<Request<'a>, Misuse<'a>>
    ensures { result_map_both plain_request misuse_is result
        ≡ file_wanted (wanted_is wanted.entry) (wanted_is wanted.entry).source }
{
    match wanted.source {
        Some(name) => {
            let coding = coding_of(wanted.is_encoded);
            Ok(Request::Make(Task::Reset(wanted.options, coding), name, wanted.main))
        }
        None => text_wanted(wanted),
    }
}

fn text_wanted<'a>(wanted: Wanted<'a>) -> Result<Request<'a>, Misuse<'a>>
    ensures { result_map_both plain_request misuse_is result ≡ text_wanted (wanted_is wanted.entry) }
{
    let task = Task::Reset(wanted.options, Coding::Lighter);
    match wanted.text {
        Some(name) => Ok(Request::Do(task, &[], name)),
        None => Err(no_file(task)),
    }
}

// What the name of a component and the words after it ask for.
fn embed_asked<'a>(words: &'a [String]) -> Result<Request<'a>, Misuse<'a>>
    ensures { result_map_both plain_request misuse_is result ≡ embed_asked (map string_bytes words.now) }
{
    let Some((component, rest)) = words.split_first() else {
        return Err(faulty(b"no value after ", b"--embed"));
    };
    if !is_plain(component.as_bytes()) {
        return Err(faulty(b"bad option: ", b"--embed"));
    }
    laid_asked(component.as_bytes(), rest)
}

// What words for the layout of a component, at most two, and the words after them ask for.
fn laid_asked<'a>(component: &'a [u8], words: &'a [String]) -> Result<Request<'a>, Misuse<'a>>
    ensures { result_map_both plain_request misuse_is result
        ≡ laid_asked component.now (map string_bytes words.now) }
{
    let (first, rest) = one_layout(no_layout(), words)?;
    let (laid, more) = one_layout(first, rest)?;
    rest_asked(Task::Embed(component, layout_of(laid)), more)
}

// What a task and a file, or options, ask for.
fn rest_asked<'a>(task: Task<'a>, words: &'a [String]) -> Result<Request<'a>, Misuse<'a>>
    ensures { result_map_both plain_request misuse_is result
        ≡ rest_asked (plain_task task.entry) (map string_bytes words.now) }
{
    let Some((name, more)) = words.split_first() else {
        return Err(no_file(task));
    };
    let Some(second) = more.first() else {
        return text_asked(task, name);
    };
    if is_plain(name.as_bytes()) {
        return Err(faulty(b"one word too many: ", second.as_bytes()));
    }
    options_asked(task, words)
}

// What a task and one word, a file, ask for.
fn text_asked<'a>(task: Task<'a>, name: &'a str) -> Result<Request<'a>, Misuse<'a>>
    ensures { result_map_both plain_request misuse_is result ≡ text_asked (plain_task task.entry) name.now }
{
    if is_plain(name.as_bytes()) {
        Ok(Request::Do(task, &[], name))
    } else if takes_value(name.as_bytes()) {
        Err(faulty(b"no value after ", name.as_bytes()))
    } else {
        Err(faulty(b"not a file: ", name.as_bytes()))
    }
}

// What a task and options, at most two, ask for.
fn options_asked<'a>(task: Task<'a>, words: &'a [String]) -> Result<Request<'a>, Misuse<'a>>
    ensures { result_map_both plain_request misuse_is result
        ≡ options_asked (plain_task task.entry) (map string_bytes words.now) }
{
    let (first, rest) = one_option(no_options(), words)?;
    let (options, more) = one_option(first, rest)?;
    source_asked(task, options, more)
}

// What a task asks for with these options, after which comes no word.
fn source_asked<'a>(
    task: Task<'a>,
    options: Options<'a>,
    words: &'a [String],
) -> Result<Request<'a>, Misuse<'a>>
    ensures { result_map_both plain_request misuse_is result
        ≡ source_asked (plain_task task.entry) (options_are options.entry) (map string_bytes words.now) }
{
    if let Some(more) = words.first() {
        return Err(faulty(b"one word too many: ", more.as_bytes()));
    }
    match options.source {
        Some(name) => Ok(Request::Make(task, name, options.main)),
        None => Err(no_file(task)),
    }
}

// One option or none, and the words after it.
fn one_option<'a>(
    options: Options<'a>,
    words: &'a [String],
) -> Result<(Options<'a>, &'a [String]), Misuse<'a>>
    ensures { result_map_both (λ o. (options_are o.0, map string_bytes o.1.now)) misuse_is result
        ≡ one_option (options_are options.entry) (map string_bytes words.now) }
{
    let Some((key, rest)) = words.split_first() else {
        return Ok((options, words));
    };
    let Some((value, more)) = rest.split_first() else {
        return Err(faulty(b"no value after ", key.as_bytes()));
    };
    match with_option(options, key.as_bytes(), value) {
        Some(next) => Ok((next, more)),
        None => Err(faulty(b"bad option: ", key.as_bytes())),
    }
}

// Before any option.
fn no_options<'a>() -> Options<'a>
    ensures { options_are result ≡ no_options }
{
    Options {
        source: None,
        main: None,
    }
}

// One more option.
fn with_option<'a>(options: Options<'a>, key: &[u8], value: &'a str) -> Option<Options<'a>>
    ensures { option_map options_are result ≡ with_option (options_are options.entry) key.now value.now }
{
    if key == b"--source".as_slice() {
        with_source(options, value)
    } else if key == b"--main".as_slice() {
        with_main(options, value)
    } else {
        None
    }
}

fn with_source<'a>(options: Options<'a>, value: &'a str) -> Option<Options<'a>>
    ensures { option_map options_are result ≡ with_source (options_are options.entry) value.now }
{
    if options.source.is_some() || !is_plain(value.as_bytes()) {
        return None;
    }
    Some(Options {
        source: Some(value),
        ..options
    })
}

fn with_main<'a>(options: Options<'a>, value: &'a str) -> Option<Options<'a>>
    ensures { option_map options_are result ≡ with_main (options_are options.entry) value.now }
{
    if options.main.is_some() || !is_plain(value.as_bytes()) {
        return None;
    }
    Some(Options {
        main: Some(value.as_bytes()),
        ..options
    })
}

// Whether a word needs another one after it.
fn takes_value(word: &[u8]) -> bool
    ensures { result ≡ takes_value word.now }
{
    word == b"--source".as_slice() || word == b"--main".as_slice() || is_relation(word)
}

// The task of a command.
fn task_of<'a>(word: &[u8]) -> Option<Task<'a>>
    ensures { option_map plain_task result ≡ task_of word.now }
{
    if is_verilog(word) {
        return Some(Task::Write(Form::Verilog));
    }
    match word {
        b"blif" => Some(Task::Write(Form::Blif)),
        b"c" => Some(Task::Write(Form::C)),
        b"check" => Some(Task::Check),
        _ => None,
    }
}

const VERILOG: &[u8] = b"verilog";

fn is_verilog(word: &[u8]) -> bool
    ensures { result ≡ is_same_name word.now (codes "verilog") }
{
    word == VERILOG
}
