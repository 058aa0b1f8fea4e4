// What one word says.

ghost use Rattle.std.specs.Prelude.{◌≡◌, codes, map, option_map, IfSome};
ghost use Rattle.base_types.specs.Names.{is_same_name};
ghost use Rattle.cec_words.specs.Commands.{command_of, options, spelling_of, named, way_of};
ghost use Rattle.cec_words.specs.Commands.{pick_of, part_of, step_of};
ghost use Rattle.cec_words.specs.OptionNames.{option_name};
ghost use Rattle.cec_words.specs.Spellings.{IsWithin};
ghost use Rattle.cec_words.specs.Views.{plain_command, plain_setting, plain_spelling, plain_way, plain_part};
ghost use Rattle.cec_words.specs.Views.{plain_step};

use crate::asked::{Pick, Value, Via};
use crate::common::is_plain;
use crate::numbers::number;
use base_types::Limits;

// A command other than `--help`.
#[derive(Clone, Copy)]
pub enum Command {
    Blif,
    C,
    Verilog,
    Grc,
    Check,
    Run,
    Exec,
    Gen,
}

// An option of a command.
#[derive(Clone, Copy)]
pub enum Setting {
    Via,
    Main,
    Pick,
    Start,
    Branches,
    Run,
    Encode,
    Guard,
}

// How a word spells an option: bare, with the value in the next word, or with the value from this
// byte on.
#[derive(Clone, Copy)]
pub enum Spelling {
    Bare(Setting),
    Valued(Setting, usize),
}

// What `--via` says a run goes by: a text of this form, or three-valued reactions.
#[derive(Clone, Copy)]
pub enum Way {
    Text(Via),
    Tri,
}

// A part of the words after the command: a file, or an option with its value, if it has one.
#[derive(Clone, Copy)]
pub enum Part {
    File(usize),
    Via(Way),
    Main(Value),
    Pick(Pick),
    Start(u64),
    Branches(u32),
    Run(u32),
    Encode,
    Guard,
}

// What a word does: it makes an option wait for its value, or it ends a part.
#[derive(Clone, Copy)]
pub enum Step {
    Waits(Setting),
    Ends(Part),
}

pub fn command_of(word: &[u8]) -> Option<Command>
    ensures { option_map plain_command result ≡ command_of word.now }
{
    if is_verilog(word) {
        return Some(Command::Verilog);
    }
    match word {
        b"blif" => Some(Command::Blif),
        b"c" => Some(Command::C),
        b"grc" => Some(Command::Grc),
        b"check" => Some(Command::Check),
        b"run" => Some(Command::Run),
        b"exec" => Some(Command::Exec),
        b"gen" => Some(Command::Gen),
        _ => None,
    }
}

// The step of the word at this place, where `waiting` is an option without its value.
pub fn step_of(command: Command, waiting: Option<Setting>, at: usize, word: &[u8]) -> Option<Step>
    ensures { option_map plain_step result
        ≡ step_of (plain_command command) (option_map plain_setting waiting) at word.now }
{
    if let Some(setting) = waiting {
        if !is_plain(word) {
            return None;
        }
        let part = part_of(setting, Value { word: at, start: 0 }, word)?;
        return Some(Step::Ends(part));
    }
    if is_plain(word) {
        return Some(Step::Ends(Part::File(at)));
    }
    match named(options(command), word)? {
        Spelling::Bare(Setting::Encode) => Some(Step::Ends(Part::Encode)),
        Spelling::Bare(Setting::Guard) => Some(Step::Ends(Part::Guard)),
        Spelling::Bare(setting) => Some(Step::Waits(setting)),
        Spelling::Valued(setting, start) => {
            let part = part_of(setting, Value { word: at, start }, &word[start..])?;
            Some(Step::Ends(part))
        }
    }
}

// The options of a command.
fn options(command: Command) -> &'static [Setting]
    ensures { map plain_setting result.now ≡ options (plain_command command) }
{
    match command {
        Command::Blif => &[Setting::Main, Setting::Pick, Setting::Encode],
        Command::C => &[Setting::Main, Setting::Pick, Setting::Guard],
        Command::Verilog => &[Setting::Main, Setting::Pick],
        Command::Grc | Command::Check => &[Setting::Main],
        Command::Run => &[Setting::Via, Setting::Main, Setting::Pick, Setting::Encode],
        Command::Exec => &[Setting::Via],
        Command::Gen => &[Setting::Start, Setting::Branches, Setting::Run],
    }
}

// The name of an option.
fn option_name(setting: Setting) -> &'static [u8]
    ensures { result.now ≡ option_name (plain_setting setting) }
{
    match setting {
        Setting::Via => b"--via",
        Setting::Main => b"--main",
        Setting::Pick => b"--pick",
        Setting::Start => b"--start",
        Setting::Branches => b"--branches",
        Setting::Run => b"--run",
        Setting::Encode => b"--encode",
        Setting::Guard => b"--guard",
    }
}

// The first of the options that a word spells.
fn named(options: &[Setting], word: &[u8]) -> Option<Spelling>
    ensures spelling { option_map plain_spelling result ≡ named (map plain_setting options.now) word.now }
    ensures within { IfSome result (IsWithin word.now) }
{
    for setting in options {
        if let Some(spelling) = spelling_of(*setting, word) {
            return Some(spelling);
        }
    }
    None
}

// How a word spells an option, if it does.
fn spelling_of(setting: Setting, word: &[u8]) -> Option<Spelling>
    ensures spelling { option_map plain_spelling result ≡ spelling_of (plain_setting setting) word.now }
    ensures within { IfSome result (IsWithin word.now) }
{
    let name = option_name(setting);
    let length = name.len();
    if word == name {
        return Some(Spelling::Bare(setting));
    }
    if word.len() > length + 1 && &word[..length] == name && word[length] == b'=' {
        return Some(Spelling::Valued(setting, length + 1));
    }
    None
}

// The part that an option and its value make, if the value has a meaning.
fn part_of(setting: Setting, value: Value, bytes: &[u8]) -> Option<Part>
    ensures { option_map plain_part result ≡ part_of (plain_setting setting) value bytes.now }
{
    match setting {
        Setting::Main => Some(Part::Main(value)),
        Setting::Via => way_of(bytes).map(Part::Via),
        Setting::Pick => pick_of(bytes).map(Part::Pick),
        Setting::Start => number(bytes).map(Part::Start),
        Setting::Branches => match number(bytes)? {
            0 => None,
            branches if branches <= Limits::BRANCHES => Some(Part::Branches(branches as u32)),
            _ => None,
        },
        Setting::Run => match number(bytes)? {
            instants if instants <= Limits::LOAD_INSTANTS => Some(Part::Run(instants as u32)),
            _ => None,
        },
        Setting::Encode | Setting::Guard => None,
    }
}

fn way_of(bytes: &[u8]) -> Option<Way>
    ensures { option_map plain_way result ≡ way_of bytes.now }
{
    if is_verilog(bytes) {
        return Some(Way::Text(Via::Verilog));
    }
    match bytes {
        b"blif" => Some(Way::Text(Via::Blif)),
        b"c" => Some(Way::Text(Via::C)),
        b"guard" => Some(Way::Text(Via::Guard)),
        b"tri" => Some(Way::Tri),
        _ => None,
    }
}

const VERILOG: &[u8] = b"verilog";

fn is_verilog(word: &[u8]) -> bool
    ensures { result ≡ is_same_name word.now (codes "verilog") }
{
    word == VERILOG
}

fn pick_of(bytes: &[u8]) -> Option<Pick>
    ensures { result ≡ pick_of bytes.now }
{
    match bytes {
        b"first" => Some(Pick::First),
        b"last" => Some(Pick::Last),
        _ => number(bytes).map(Pick::Drawn),
    }
}
