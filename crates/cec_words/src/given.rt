// The files and options that some words give.

ghost use Rattle.std.specs.Prelude.{◌≡◌, MatchOption};
ghost use Rattle.cec_words.specs.Readings.{nothing, asked_once, exec_asked, run_asked, source};
ghost use Rattle.cec_words.specs.Slots.{slots, only_file, both_files, Fills, Overfills};
ghost use Rattle.cec_words.specs.Views.{plain_command, plain_way};

use crate::asked::{Asked, Pick, Source, Value, Via};
use crate::steps::{Command, Part, Way};

// The files so far; no command has more than two.
#[derive(Clone, Copy)]
pub enum Files {
    None,
    One(usize),
    Two(usize, usize),
}

#[derive(Clone, Copy)]
pub struct Given {
    pub files: Files,
    pub via: Option<Way>,
    pub main: Option<Value>,
    pub pick: Option<Pick>,
    pub start: Option<u64>,
    pub branches: Option<u32>,
    pub run: Option<u32>,
    pub encode: bool,
    pub guard: bool,
}

impl Given {
    pub fn none() -> Given
        ensures { slots result ≡ nothing }
    {
        Given {
            files: Files::None,
            via: None,
            main: None,
            pick: None,
            start: None,
            branches: None,
            run: None,
            encode: false,
            guard: false,
        }
    }

    // One part more, unless it is an option's second value or a third file.
    pub fn with_part(self, part: Part) -> Option<Given>
        ensures { MatchOption result (Overfills self part) (λ new. Fills self new part) }
    {
        match part {
            Part::File(at) => self.with_file(at),
            Part::Via(via) => self.with_via(via),
            Part::Main(main) => self.with_main(main),
            Part::Pick(pick) => self.with_pick(pick),
            Part::Start(start) => self.with_start(start),
            Part::Branches(branches) => self.with_branches(branches),
            Part::Run(run) => self.with_run(run),
            Part::Encode => self.with_encode(),
            Part::Guard => self.with_guard(),
        }
    }

    fn with_file(self, at: usize) -> Option<Given>
        ensures { MatchOption result (Overfills self (Part.File at)) (λ new. Fills self new (Part.File at)) }
    {
        match self.files {
            Files::None => Some(Given {
                files: Files::One(at),
                ..self
            }),
            Files::One(first) => Some(Given {
                files: Files::Two(first, at),
                ..self
            }),
            Files::Two(_, _) => None,
        }
    }

    fn with_via(self, via: Way) -> Option<Given>
        ensures { MatchOption result (Overfills self (Part.Via via)) (λ new. Fills self new (Part.Via via)) }
    {
        match self.via {
            None => Some(Given {
                via: Some(via),
                ..self
            }),
            Some(_) => None,
        }
    }

    fn with_main(self, main: Value) -> Option<Given>
        ensures { MatchOption result (Overfills self (Part.Main main)) (λ new. Fills self new (Part.Main main)) }
    {
        match self.main {
            None => Some(Given {
                main: Some(main),
                ..self
            }),
            Some(_) => None,
        }
    }

    fn with_pick(self, pick: Pick) -> Option<Given>
        ensures { MatchOption result (Overfills self (Part.Pick pick)) (λ new. Fills self new (Part.Pick pick)) }
    {
        match self.pick {
            None => Some(Given {
                pick: Some(pick),
                ..self
            }),
            Some(_) => None,
        }
    }

    fn with_start(self, start: u64) -> Option<Given>
        ensures { MatchOption result (Overfills self (Part.Start start)) (λ new. Fills self new (Part.Start start)) }
    {
        match self.start {
            None => Some(Given {
                start: Some(start),
                ..self
            }),
            Some(_) => None,
        }
    }

    fn with_branches(self, branches: u32) -> Option<Given>
        ensures { MatchOption result (Overfills self (Part.Branches branches))
            (λ new. Fills self new (Part.Branches branches)) }
    {
        match self.branches {
            None => Some(Given {
                branches: Some(branches),
                ..self
            }),
            Some(_) => None,
        }
    }

    fn with_run(self, run: u32) -> Option<Given>
        ensures { MatchOption result (Overfills self (Part.Run run)) (λ new. Fills self new (Part.Run run)) }
    {
        match self.run {
            None => Some(Given {
                run: Some(run),
                ..self
            }),
            Some(_) => None,
        }
    }

    fn with_encode(self) -> Option<Given>
        ensures { MatchOption result (Overfills self Part.Encode) (λ new. Fills self new Part.Encode) }
    {
        if self.encode {
            None
        } else {
            Some(Given {
                encode: true,
                ..self
            })
        }
    }

    fn with_guard(self) -> Option<Given>
        ensures { MatchOption result (Overfills self Part.Guard) (λ new. Fills self new Part.Guard) }
    {
        if self.guard {
            None
        } else {
            Some(Given {
                guard: true,
                ..self
            })
        }
    }

    // What a command with these files and options asks for.
    pub fn asked(self, command: Command) -> Option<Asked>
        ensures { result ≡ asked_once (plain_command command) (slots self) }
    {
        match command {
            Command::Blif => Some(Asked::Blif(self.source(self.one_file()?))),
            Command::C => Some(Asked::C(self.source(self.one_file()?))),
            Command::Verilog => Some(Asked::Verilog(self.source(self.one_file()?))),
            Command::Grc => Some(Asked::Grc(self.source(self.one_file()?))),
            Command::Check => Some(Asked::Check(self.source(self.one_file()?))),
            Command::Run => {
                let (file, trace) = self.two_files()?;
                self.run_asked(self.via?, file, trace)
            }
            Command::Exec => {
                let (text, trace) = self.two_files()?;
                exec_asked(self.via?, text, trace)
            }
            Command::Gen => match self.files {
                Files::None => Some(Asked::Gen(self.start?, self.branches?, self.run)),
                Files::One(_) | Files::Two(_, _) => None,
            },
        }
    }

    fn one_file(self) -> Option<usize>
        ensures { result ≡ only_file self.files }
    {
        match self.files {
            Files::One(file) => Some(file),
            Files::None | Files::Two(_, _) => None,
        }
    }

    fn two_files(self) -> Option<(usize, usize)>
        ensures { result ≡ both_files self.files }
    {
        match self.files {
            Files::Two(first, second) => Some((first, second)),
            Files::None | Files::One(_) => None,
        }
    }

    // A run of a source by what `--via` says. Only a BLIF text has an encoded state, and three-valued reactions
    // have no order of evaluation to choose.
    fn run_asked(self, way: Way, file: usize, trace: usize) -> Option<Asked>
        ensures { result ≡ run_asked (slots self) (plain_way way) file trace }
    {
        match way {
            Way::Text(Via::C | Via::Guard | Via::Verilog) if self.encode => None,
            Way::Text(via) => Some(Asked::Run(via, self.source(file), trace)),
            Way::Tri if self.pick.is_none() && !self.encode => Some(Asked::RunTri(
                self.source(file),
                trace,
            )),
            Way::Tri => None,
        }
    }

    fn source(self, file: usize) -> Source
        ensures { result ≡ source (slots self) file }
    {
        Source {
            file,
            main: self.main,
            pick: self.pick.unwrap_or(Pick::First),
            encode: self.encode,
            guard: self.guard,
        }
    }
}

// A run of a text, which is of some form.
fn exec_asked(way: Way, text: usize, trace: usize) -> Option<Asked>
    ensures { result ≡ exec_asked (plain_way way) text trace }
{
    match way {
        Way::Text(via) => Some(Asked::Exec(via, text, trace)),
        Way::Tri => None,
    }
}
