// What the words of a command line ask for.

ghost use Rattle.std.specs.Prelude.{◌≡◌, drop, map, option_map, [], IfSome};
ghost use Rattle.std.specs.String.{string_bytes};
ghost use Rattle.cec_commands.specs.Jobs.{c_form, form_by, source_job, request_asked, request_by, value_in, word_at};
ghost use Rattle.cec_commands.specs.JobViews.{CanBeGenerated, plain_job, plain_request};

use cec_compile::TextForm;
use cec_words::{Asked, Pick, Source, Value, Via, read_words};

/// What is made of a source.
#[derive(Clone, Copy)]
pub(crate) enum Task {
    /// Its text of this form.
    Text(TextForm),
    /// The listing of its graph.
    Grc,
    /// A line of counts.
    Check,
}

/// A job on a source: the file with the source, the main module's name, and how the evaluation order is chosen.
#[derive(Clone, Copy)]
pub(crate) struct Job<'a> {
    pub name: &'a str,
    pub main: Option<&'a [u8]>,
    pub pick: Pick,
}

/// What is done with texts of a form.
#[derive(Clone, Copy)]
pub(crate) enum TextTask<'a> {
    /// The text of a source is written.
    Write(Job<'a>),
    /// A source is run by its text, over the trace in this file.
    Run(Job<'a>, &'a str),
    /// A text is run over the trace in this file.
    Exec(&'a str),
}

/// What is asked for.
#[derive(Clone, Copy)]
pub(crate) enum Request<'a> {
    /// The list of the commands.
    Help,
    /// What a task makes of a source.
    Make(Task, Job<'a>),
    /// A source by the text of this form that is made of it, run over the trace in this file.
    Run(TextForm, Job<'a>, &'a str),
    /// A source by three-valued reactions of its graph, over the trace in this file.
    RunTri(Job<'a>, &'a str),
    /// The text of this language in the one file, run over the trace in the other.
    Exec(Via, &'a str, &'a str),
    /// A generated source, by its start number and its number of branches.
    Generate(u64, u32),
    /// The numbers of its run over a number of random instants.
    Load(u64, u32, u32),
}

/// What the words ask for; `None` where they have no meaning.
pub(crate) fn request_by(words: &[String]) -> Option<Request<'_>>
    ensures asked { option_map plain_request result ≡ request_by (map string_bytes words.now) }
    ensures generated { IfSome result (λ request. CanBeGenerated (plain_request request)) }
{
    match read_words(words) {
        Some(asked) => Some(request_asked(words, asked)),
        None => None,
    }
}

// The request in words that are read so.
fn request_asked(words: &[String], asked: Asked) -> Request<'_>
    ensures { plain_request result ≡ request_asked (map string_bytes words.now) asked }
{
    match asked {
        Asked::Help => Request::Help,
        Asked::Blif(source) => {
            let form = form_by(Via::Blif, source.encode);
            Request::Make(Task::Text(form), source_job(words, source))
        }
        Asked::C(source) => {
            let form = c_form(source.guard);
            Request::Make(Task::Text(form), source_job(words, source))
        }
        Asked::Verilog(source) => {
            Request::Make(Task::Text(TextForm::Verilog), source_job(words, source))
        }
        Asked::Grc(source) => Request::Make(Task::Grc, source_job(words, source)),
        Asked::Check(source) => Request::Make(Task::Check, source_job(words, source)),
        Asked::Run(via, source, trace) => {
            let form = form_by(via, source.encode);
            Request::Run(form, source_job(words, source), word_at(words, trace))
        }
        Asked::RunTri(source, trace) => {
            Request::RunTri(source_job(words, source), word_at(words, trace))
        }
        Asked::Exec(via, text, trace) => {
            Request::Exec(via, word_at(words, text), word_at(words, trace))
        }
        Asked::Gen(start, branches, None) => Request::Generate(start, branches),
        Asked::Gen(start, branches, Some(instants)) => Request::Load(start, branches, instants),
    }
}

/// The form of a source's text, by its language, and by whether its latches are to hold the state in a code.
pub(crate) fn form_by(via: Via, encode: bool) -> TextForm
    ensures { result ≡ form_by via encode }
{
    match via {
        Via::Blif if encode => TextForm::EncodedBlif,
        Via::Blif => TextForm::Blif,
        Via::C => TextForm::C,
        Via::Guard => TextForm::Guarded,
        Via::Verilog => TextForm::Verilog,
    }
}

// The form of a C text, by whether it must be guarded.
fn c_form(guard: bool) -> TextForm
    ensures { result ≡ c_form guard }
{
    if guard {
        TextForm::Guarded
    } else {
        TextForm::C
    }
}

// A job on a source.
fn source_job(words: &[String], source: Source) -> Job<'_>
    ensures { plain_job result ≡ source_job (map string_bytes words.now) source }
{
    Job {
        name: word_at(words, source.file),
        main: main_in(words, source.main),
        pick: source.pick,
    }
}

// The main module's name, where the words give one.
fn main_in(words: &[String], main: Option<Value>) -> Option<&[u8]>
    ensures { option_map (λ m. m.now) result ≡ option_map (value_in (map string_bytes words.now)) main }
{
    match main {
        Some(value) => Some(value_in(words, value)),
        None => None,
    }
}

// The value of an option, which may be in a word after its name.
fn value_in(words: &[String], value: Value) -> &[u8]
    ensures { result.now ≡ value_in (map string_bytes words.now) value }
{
    let bytes = word_at(words, value.word).as_bytes();
    if value.start <= bytes.len() {
        &bytes[value.start..]
    } else {
        b""
    }
}

// The word at a place.
fn word_at(words: &[String], at: usize) -> &str
    ensures { result.now ≡ word_at (map string_bytes words.now) at }
{
    match words.get(at) {
        Some(word) => word.as_str(),
        None => "",
    }
}
