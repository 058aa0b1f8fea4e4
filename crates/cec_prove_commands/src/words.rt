// What the words of a command line ask for, or what is wrong with them.

ghost use Rattle.std.specs.Prelude.{◌≡◌, ◌++◌, map, option_map, None};
ghost use Rattle.std.specs.Result.{result_map_both};
ghost use Rattle.std.specs.String.{string_bytes};
ghost use Rattle.cec_words.specs.CommonWords.{about_of, is_plain, misuse_is};
ghost use Rattle.cec_prove_commands.specs.Views.{command_is, job_is, request_is, task_is};
ghost use Rattle.cec_prove_commands.specs.Words.{
  about_asked,
  bad_option,
  claim_asked,
  command_asked,
  command_of,
  comparison_asked,
  file_asked,
  first_asked,
  is_comparison,
  is_flag,
  is_of_texts,
  job_asked,
  last_option,
  level_of,
  plain_job,
  request_by,
  second_asked,
  takes_value,
  text_task,
  with_assumed,
  with_level,
  with_main,
  with_option,
  with_text,
};

use cec_prove_sources::Claim;
use cec_words::{About, Misuse, about_of, faulty, is_plain};

/// A command.
#[derive(Clone, Copy)]
pub(crate) enum Command {
    /// A claim about an outgoing signal.
    Asks(Claim),
    /// All outgoing signals.
    Surveys,
    /// All points.
    Covers,
    /// Two sources.
    Compares,
}

/// What a command finds out about a source, or about a BLIF text.
#[derive(Clone, Copy)]
pub(crate) enum Task<'a> {
    /// Whether a claim about the outgoing signal of this name holds.
    Ask(Claim, &'a [u8]),
    /// When each outgoing signal is present.
    Survey,
    /// Which points are reached.
    Cover,
    /// Whether the source in the file of this name does the same.
    Compare(&'a str),
    /// Whether a claim about the output of a text that has this name holds.
    AskText(Claim, &'a [u8]),
    /// When each output of a text is true.
    SurveyText,
    /// Whether the text in the file of this name does the same as another text.
    CompareTexts(&'a str),
}

/// A task about the source, or the text, in a file.
#[derive(Clone, Copy)]
pub(crate) struct Job<'a> {
    pub(crate) task: Task<'a>,
    /// The name of the file.
    pub(crate) name: &'a str,
    /// The signal that is assumed.
    pub(crate) assumed: Option<&'a [u8]>,
    /// The main module.
    pub(crate) main: Option<&'a [u8]>,
    /// How long to search, from 1 to 9.
    pub(crate) level: Option<u8>,
}

/// What is asked for.
#[derive(Clone, Copy)]
pub(crate) enum Request<'a> {
    /// What the program writes about itself.
    Tell(About),
    /// A task.
    Do(Job<'a>),
}

/// What the words ask for, or what is wrong with them. It takes no memory.
pub(crate) fn request_by(words: &[String]) -> Result<Request<'_>, Misuse<'_>>
    ensures { result_map_both request_is misuse_is result ≡ request_by (map string_bytes words.now) }
{
    match words.split_first() {
        None => Err(faulty(b"no command", b"")),
        Some((word, rest)) => first_asked(word.as_bytes(), rest),
    }
}

// What a first word and the words after it ask for.
fn first_asked<'a>(word: &'a [u8], rest: &'a [String]) -> Result<Request<'a>, Misuse<'a>>
    ensures { result_map_both request_is misuse_is result
        ≡ first_asked word.now (command_of word.now) (about_of word.now) (map string_bytes rest.now) }
{
    match command_of(word) {
        Some(command) => command_asked(command, word, rest),
        None => match about_of(word) {
            Some(about) => about_asked(about, rest),
            None => Err(faulty(b"unknown word: ", word)),
        },
    }
}

// What a word that asks about the program and the words after it ask for.
fn about_asked<'a>(about: About, rest: &'a [String]) -> Result<Request<'a>, Misuse<'a>>
    ensures { result_map_both request_is misuse_is result ≡ about_asked about (map string_bytes rest.now) }
{
    match rest.first() {
        None => Ok(Request::Tell(about)),
        Some(more) => Err(faulty(b"one word too many: ", more.as_bytes())),
    }
}

// What a command and the words after it ask for.
fn command_asked<'a>(
    command: Command,
    word: &'a [u8],
    rest: &'a [String],
) -> Result<Request<'a>, Misuse<'a>>
    ensures { result_map_both request_is misuse_is result
        ≡ command_asked (command_is command) word.now (map string_bytes rest.now) }
{
    match command {
        Command::Asks(claim) => claim_asked(claim, word, rest),
        Command::Surveys => file_asked(Task::Survey, word, rest),
        Command::Covers => file_asked(Task::Cover, word, rest),
        Command::Compares => comparison_asked(word, rest),
    }
}

// What a claim and the words after it ask for: a signal, a file and options.
fn claim_asked<'a>(
    claim: Claim,
    word: &'a [u8],
    rest: &'a [String],
) -> Result<Request<'a>, Misuse<'a>>
    ensures { result_map_both request_is misuse_is result ≡ claim_asked claim word.now (map string_bytes rest.now) }
{
    let Some((signal, more)) = rest.split_first() else {
        return Err(faulty(b"no signal after ", word));
    };
    if !is_plain(signal.as_bytes()) {
        return Err(faulty(b"not a signal: ", signal.as_bytes()));
    }
    file_asked(Task::Ask(claim, signal.as_bytes()), signal.as_bytes(), more)
}

// What a file and options ask for, after a word.
fn file_asked<'a>(
    task: Task<'a>,
    before: &'a [u8],
    rest: &'a [String],
) -> Result<Request<'a>, Misuse<'a>>
    ensures { result_map_both request_is misuse_is result
        ≡ file_asked (task_is task.entry) before.now (map string_bytes rest.now) }
{
    let Some((name, options)) = rest.split_first() else {
        return Err(faulty(b"no file after ", before));
    };
    if !is_plain(name.as_bytes()) {
        return Err(faulty(b"not a file: ", name.as_bytes()));
    }
    job_asked(plain_job(task, name), options)
}

// What two files and options ask for, after a word.
fn comparison_asked<'a>(before: &'a [u8], rest: &'a [String]) -> Result<Request<'a>, Misuse<'a>>
    ensures { result_map_both request_is misuse_is result ≡ comparison_asked before.now (map string_bytes rest.now) }
{
    let Some((name, more)) = rest.split_first() else {
        return Err(faulty(b"no file after ", before));
    };
    if !is_plain(name.as_bytes()) {
        return Err(faulty(b"not a file: ", name.as_bytes()));
    }
    second_asked(name, more)
}

// What a second file and options ask for.
fn second_asked<'a>(name: &'a str, rest: &'a [String]) -> Result<Request<'a>, Misuse<'a>>
    ensures { result_map_both request_is misuse_is result ≡ second_asked name.now (map string_bytes rest.now) }
{
    let Some((other, options)) = rest.split_first() else {
        return Err(faulty(b"no file after ", name.as_bytes()));
    };
    if !is_plain(other.as_bytes()) {
        return Err(faulty(b"not a file: ", other.as_bytes()));
    }
    job_asked(plain_job(Task::Compare(other), name), options)
}

// A task without options.
fn plain_job<'a>(task: Task<'a>, name: &'a str) -> Job<'a>
    ensures { job_is result ≡ plain_job (task_is task.entry) name.now }
{
    Job {
        task,
        name,
        assumed: None,
        main: None,
        level: None,
    }
}

// The command that a word is.
fn command_of(word: &[u8]) -> Option<Command>
    ensures { option_map command_is result ≡ command_of word.now }
{
    if word == b"never".as_slice() {
        Some(Command::Asks(Claim::Never))
    } else if word == b"always".as_slice() {
        Some(Command::Asks(Claim::Always))
    } else if word == b"all".as_slice() {
        Some(Command::Surveys)
    } else if word == b"cover".as_slice() {
        Some(Command::Covers)
    } else if word == b"same".as_slice() {
        Some(Command::Compares)
    } else {
        None
    }
}

// What a task with options asks for: `--text`, and others of two words.
fn job_asked<'a>(job: Job<'a>, options: &'a [String]) -> Result<Request<'a>, Misuse<'a>>
    ensures { result_map_both request_is misuse_is result
        ≡ job_asked (job_is job.entry) None (map string_bytes options.now) }
{
    let mut with = job;
    let mut key: Option<&'a [u8]> = None;
    for word in options {
        match key {
            None => {
                if is_flag(word.as_bytes()) {
                    match with_text(with) {
                        None => return Err(bad_option(word.as_bytes())),
                        Some(next) => with = next,
                    }
                } else {
                    key = Some(word.as_bytes());
                }
            }
            Some(name) => match with_option(with, name, word.as_bytes()) {
                None => return Err(bad_option(name)),
                Some(next) => {
                    with = next;
                    key = None;
                }
            },
        }
    }
    match key {
        None => Ok(Request::Do(with)),
        Some(name) => Err(last_option(name)),
    }
}

// What is wrong with a word in the place of an option: a name is one word too many.
fn bad_option(word: &[u8]) -> Misuse<'_>
    ensures { misuse_is result ≡ bad_option word.now }
{
    if is_plain(word) {
        faulty(b"one word too many: ", word)
    } else {
        faulty(b"bad option: ", word)
    }
}

// What is wrong with the last word, in the place of an option.
fn last_option(word: &[u8]) -> Misuse<'_>
    ensures { misuse_is result ≡ last_option word.now }
{
    if takes_value(word) {
        faulty(b"no value after ", word)
    } else {
        bad_option(word)
    }
}

// Whether a word is the option that has no value.
fn is_flag(word: &[u8]) -> bool
    ensures { result ≡ is_flag word.now }
{
    word == b"--text".as_slice()
}

// Whether a word is an option that has a value.
fn takes_value(word: &[u8]) -> bool
    ensures { result ≡ takes_value word.now }
{
    word == b"--assume".as_slice() || word == b"--main".as_slice() || word == b"--effort".as_slice()
}

// The task with one option.
fn with_option<'a>(job: Job<'a>, key: &[u8], value: &'a [u8]) -> Option<Job<'a>>
    ensures { option_map job_is result ≡ with_option (job_is job.entry) key.now value.now }
{
    if key == b"--assume".as_slice() {
        with_assumed(job, value)
    } else if key == b"--main".as_slice() {
        with_main(job, value)
    } else if key == b"--effort".as_slice() {
        with_level(job, value)
    } else {
        None
    }
}

/// Whether a task is a comparison, which assumes nothing.
pub(crate) fn is_comparison(task: Task<'_>) -> bool
    ensures { result ≡ is_comparison (task_is task.entry) }
{
    match task {
        Task::Ask(_, _) | Task::Survey | Task::Cover => false,
        Task::AskText(_, _) | Task::SurveyText => false,
        Task::Compare(_) | Task::CompareTexts(_) => true,
    }
}

/// Whether a task is about texts, which have no modules.
pub(crate) fn is_of_texts(task: Task<'_>) -> bool
    ensures { result ≡ is_of_texts (task_is task.entry) }
{
    match task {
        Task::Ask(_, _) | Task::Survey | Task::Cover | Task::Compare(_) => false,
        Task::AskText(_, _) | Task::SurveyText | Task::CompareTexts(_) => true,
    }
}

// The same task about texts. There is none where the task is about texts already, and none about points.
fn text_task(task: Task<'_>) -> Option<Task<'_>>
    ensures { option_map task_is result ≡ text_task (task_is task.entry) }
{
    match task {
        Task::Ask(claim, signal) => Some(Task::AskText(claim, signal)),
        Task::Survey => Some(Task::SurveyText),
        Task::Compare(other) => Some(Task::CompareTexts(other)),
        Task::Cover | Task::AskText(_, _) | Task::SurveyText | Task::CompareTexts(_) => None,
    }
}

fn with_text(job: Job<'_>) -> Option<Job<'_>>
    ensures { option_map job_is result ≡ with_text (job_is job.entry) }
{
    if job.main.is_some() {
        return None;
    }
    let task = text_task(job.task)?;
    Some(Job { task, ..job })
}

fn with_assumed<'a>(job: Job<'a>, value: &'a [u8]) -> Option<Job<'a>>
    ensures { option_map job_is result ≡ with_assumed (job_is job.entry) value.now }
{
    if is_comparison(job.task) || job.assumed.is_some() || !is_plain(value) {
        return None;
    }
    Some(Job {
        assumed: Some(value),
        ..job
    })
}

fn with_main<'a>(job: Job<'a>, value: &'a [u8]) -> Option<Job<'a>>
    ensures { option_map job_is result ≡ with_main (job_is job.entry) value.now }
{
    if is_of_texts(job.task) || job.main.is_some() || !is_plain(value) {
        return None;
    }
    Some(Job {
        main: Some(value),
        ..job
    })
}

fn with_level<'a>(job: Job<'a>, value: &'a [u8]) -> Option<Job<'a>>
    ensures { option_map job_is result ≡ with_level (job_is job.entry) value.now }
{
    if job.level.is_some() {
        return None;
    }
    let level = level_of(value)?;
    Some(Job {
        level: Some(level),
        ..job
    })
}

// The number that one digit other than 0 spells.
fn level_of(word: &[u8]) -> Option<u8>
    ensures { result ≡ level_of word.now }
{
    let (digit, more) = word.split_first()?;
    if more.is_empty() && *digit >= b'1' && *digit <= b'9' {
        Some(*digit - 48)
    } else {
        None
    }
}
