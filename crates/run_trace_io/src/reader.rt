// The reader of traces.

ghost use Rattle.std.specs.Prelude.{◌≡◌, ◌≤◌, ◌<◌, ◌+◌, ◌^◌, length, map, IsTrue, IsSome, OnOk, IfErr};
ghost use Rattle.base_types.specs.Names.{is_same_name};
ghost use Rattle.base_types.specs.Distinct.{all_differ};
ghost use Rattle.base_types.specs.Relations.{relation_of};
ghost use Rattle.run_trace_io.specs.Traces.{has_resets, next_group};
ghost use Rattle.run_trace_io.specs.Reads.{IsRead};

use crate::faults::{TraceError, TraceFault};
use crate::groups::{Names, Read, has_resets, read_group};
use crate::places::{Places, hashed_places};
use crate::relations::first_broken;
use base_types::{InputRelation, NoMemory, Text};
use std::alloc::Global;
use std::marker::Model;

/// The truth values of the inputs in an instant, in order. A contract sees it as their list.
#[derive(Drop)]
pub struct Event {
    bits: Vec<bool>,
}

impl Model for Event {
    ghost use Rattle.std.specs.Prelude.{Bool, List};

    ghost Value = { List Bool };

    ghost view = { λ e. e.bits.items };
}

/// An item of a trace.
#[derive(Drop)]
pub enum Item {
    /// What is driven goes back to its start.
    Reset,
    /// An instant.
    React(Event),
}

impl Event {
    /// The truth values. It takes no memory.
    pub fn bits(&self) -> &[bool]
        ensures { result.now ≡ self.now }
    {
        self.bits.as_slice()
    }
}

/// A reader of a trace, item by item.
#[derive(Drop)]
pub struct TraceReader {
    alloc: Global,
    text: Vec<u8>,
    inputs: Vec<Text>,
    relations: Vec<InputRelation>,
    // Made when the reader starts to read.
    places: Option<Places>,
    // Whether `!reset` is a reset.
    resets: bool,
    at: usize,
    instant: u32,
    ghost within: { at ≤ length text.items },
    ghost short: { length text.items ≤ 2 ^ 24 },
    ghost counted: { instant ≤ at + 1 },
    ghost names_differ: { IsTrue (all_differ is_same_name inputs.items) },
    ghost resets_hold: { resets ≡ has_resets inputs.items },
    ghost countable: { length relations.items < 2 ^ 32 },
}

impl TraceReader {
    ghost use Rattle.run_trace_io.specs.Answers.{reading_of, beginning, AnswersGroup};

    /// A reader at the beginning of a trace, for inputs of these names that keep these relations. It
    /// takes no memory.
    pub fn new(
        alloc: Global,
        text: Vec<u8>,
        inputs: Vec<Text>,
        relations: Vec<InputRelation>,
    ) -> TraceReader
        requires short { length text.items ≤ 2 ^ 24 }
        requires names_differ { IsTrue (all_differ is_same_name inputs.items) }
        requires countable { length relations.items < 2 ^ 32 }
        ensures { reading_of result ≡ beginning text.items inputs.items (map relation_of relations.items) }
    {
        let resets = has_resets(&inputs);
        TraceReader {
            alloc,
            text,
            inputs,
            relations,
            places: None,
            resets,
            at: 0,
            instant: 1,
        }
    }

    /// The next item; None at the end of the trace, which is after a whole group. At a fault, and for
    /// out of memory, the reader stays as it was, so the same fault comes again.
    pub fn next(&mut self) -> Result<Option<Item>, TraceError>
        ensures { AnswersGroup (reading_of self.old) result (reading_of self.new) }
    {
        self.make_places()?;
        match self.read() {
            Err(error) => Err(error),
            Ok(Read::End) => Ok(None),
            Ok(Read::Reset(behind)) => {
                self.at = behind;
                Ok(Some(Item::Reset))
            }
            Ok(Read::Instant(bits, behind)) => {
                if let Some(k) = first_broken(&self.relations, &bits) {
                    return Err(TraceError::Fault(TraceFault::Breaks(self.instant, k as u32 + 1)));
                }
                self.at = behind;
                self.instant += 1;
                Ok(Some(Item::React(Event { bits })))
            }
        }
    }

    // Makes the table of the places, where there is none yet.
    fn make_places(&mut self) -> Result<(), TraceError>
        ensures same { reading_of self.new ≡ reading_of self.old }
        ensures made { OnOk result (IsSome self.new.places) }
        ensures no_memory { IfErr result (λ e. e ≡ TraceError.NoMemory) }
    {
        if self.places.is_none() {
            match hashed_places(self.alloc, &self.inputs) {
                Ok(places) => self.places = Some(places),
                Err(NoMemory) => return Err(TraceError::NoMemory),
            }
        }
        Ok(())
    }

    // The next group.
    fn read(&self) -> Result<Read, TraceError>
        requires { IsSome self.now.places }
        ensures { IsRead self.now.text.items self.now.at (next_group (reading_of self.now)) result }
    {
        let Some(places) = &self.places else {
            unreachable!();
        };
        let names = Names {
            inputs: &self.inputs,
            places,
            resets: self.resets,
            instant: self.instant,
        };
        read_group(self.alloc, &self.text, self.at, names)
    }
}
