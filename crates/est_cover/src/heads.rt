// What a covered program has, except for its body.

ghost use Rattle.std.specs.Prelude.{◌≤◌, length};

use base_types::{InputRelation, SignalInfo, Text};

/// The name, the signals, their kinds and the relations.
#[derive(Drop)]
pub(crate) struct Head {
    pub(crate) name: Text,
    pub(crate) signals: Vec<SignalInfo>,
    pub(crate) inputs: u32,
    pub(crate) both: u32,
    pub(crate) outputs: u32,
    pub(crate) relations: Vec<InputRelation>,
    ghost few: { length signals.items ≤ 4096 },
}
