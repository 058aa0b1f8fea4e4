// Questions about an outgoing signal, and answers to them.

/// What is claimed of an outgoing signal.
#[derive(Clone, Copy)]
pub enum Claim {
    /// It is present in no reaction.
    Never,
    /// It is present in each reaction.
    Always,
}

/// A question: whether a claim about an outgoing signal holds, where another outgoing signal, if one is named, is
/// present in each reaction.
#[derive(Clone, Copy)]
pub struct Question<'a> {
    pub claim: Claim,
    pub signal: &'a [u8],
    pub assumed: Option<&'a [u8]>,
}

/// How the instants of a trace are laid out.
#[derive(Clone, Copy)]
pub enum Layout {
    /// Each instant on a line of its own.
    LinePerInstant,
    /// All instants on one line.
    OneLine,
}

/// What the search for a proof or a trace found.
#[derive(Drop)]
pub enum Finding {
    /// The claim holds over all items.
    Holds,
    /// This trace leads to a reaction that breaks the claim.
    Broken(Vec<u8>),
    /// Neither was found, and no trace of at most this number of instants.
    Open(usize),
}

/// The answer to a question.
#[derive(Drop)]
pub enum Verdict {
    /// The claim holds over all items.
    Holds,
    /// This trace leads to a reaction that breaks the claim.
    Broken(Vec<u8>),
    /// Neither was shown. No trace of at most this number of instants was found.
    Open(usize),
    /// The program has no outgoing signal of that name.
    NoSignal,
    /// The program has no outgoing signal of the name that is assumed.
    NoAssumed,
}

/// What is known of an outgoing signal.
#[derive(Drop)]
pub enum Presence {
    /// It is present in no reaction.
    Never,
    /// It is present in each reaction.
    Always,
    /// Traces to a reaction in which it is present, and to one in which it is absent, where they were found.
    Found(Option<Vec<u8>>, Option<Vec<u8>>),
}

/// The survey of all outgoing signals of a source.
#[derive(Drop)]
pub enum Survey {
    /// The lines of all signals. When each of them is present is known.
    Whole(Vec<u8>),
    /// The same, where at least one signal is undecided.
    Partly(Vec<u8>),
    /// The program has no outgoing signal of the name that is assumed.
    NoAssumed,
}

/// The comparison of two sources.
#[derive(Drop)]
pub enum Comparison {
    /// Both answer the same over all items.
    Same,
    /// This trace leads to reactions that differ.
    Different(Vec<u8>),
    /// Neither was shown. No trace of at most this number of instants was found.
    Open(usize),
    /// The names of the given signals differ, or their order does.
    OtherGiven,
    /// The names of the outgoing signals differ, or their order does.
    OtherOutgoing,
    /// The relations differ, or their order does.
    OtherRelations,
}
