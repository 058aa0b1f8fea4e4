// A list of words, read from the left.

ghost use Rattle.std.specs.Prelude.{◌≡◌, map, option_and_then, None, MatchOption};
ghost use Rattle.std.specs.String.{string_bytes};
ghost use Rattle.cec_words.specs.Readings.{asked_by, asked_once, gathered};
ghost use Rattle.cec_words.specs.Slots.{slots, HasNoMeaning, Takes};
ghost use Rattle.cec_words.specs.Views.{plain_command};

use crate::asked::Asked;
use crate::given::Given;
use crate::steps::{Command, Setting, Step, command_of, step_of};

/// What a list of words asks for; None where it has no meaning. It takes no memory.
pub fn read_words(words: &[String]) -> Option<Asked>
    ensures { result ≡ asked_by (map string_bytes words.now) }
{
    let (first, behind) = words.split_first()?;
    let first = first.as_bytes();
    if first == b"--help".as_slice() {
        return if behind.is_empty() {
            Some(Asked::Help)
        } else {
            None
        };
    }
    let command = command_of(first)?;
    given(command, behind)?.asked(command)
}

// The files and options of the words after a command, where they may have a meaning.
fn given(command: Command, words: &[String]) -> Option<Given>
    ensures { option_and_then (asked_once (plain_command command))
        (gathered (plain_command command) None 1 (map string_bytes words.now))
        ≡ option_and_then (λ g. asked_once (plain_command command) (slots g)) result }
{
    let mut reader = Reader {
        given: Given::none(),
        waiting: None,
    };
    for (k, word) in words.iter().enumerate() {
        let step = step_of(command, reader.waiting, k + 1, word.as_bytes())?;
        reader = reader.after(step)?;
    }
    match reader.waiting {
        None => Some(reader.given),
        Some(_) => None,
    }
}

// What the words so far gave, and the option that waits for its value.
#[derive(Clone, Copy)]
struct Reader {
    given: Given,
    waiting: Option<Setting>,
}

impl Reader {
    // After one step more, unless it is an option's second value or a third file.
    fn after(self, step: Step) -> Option<Reader>
        ensures { MatchOption result (HasNoMeaning self.given step) (λ r. Takes self.given step r.given r.waiting) }
    {
        match step {
            Step::Waits(setting) => Some(Reader {
                given: self.given,
                waiting: Some(setting),
            }),
            Step::Ends(part) => {
                let given = self.given.with_part(part)?;
                Some(Reader {
                    given,
                    waiting: None,
                })
            }
        }
    }
}
