// What words ask for.

/// Which text is run.
#[derive(Clone, Copy)]
pub enum Via {
    Blif,
    C,
    Guard,
    Verilog,
}

/// Which of the wires that are ready is placed next in the order of evaluation.
#[derive(Clone, Copy)]
pub enum Pick {
    First,
    Last,
    /// One that is drawn from this start number.
    Drawn(u64),
}

/// The bytes of a word from a byte on, by the word's place among the words.
#[derive(Clone, Copy)]
pub struct Value {
    pub word: usize,
    pub start: usize,
}

/// A source to be compiled. The file is given by its word's place, the module by its name.
#[derive(Clone, Copy)]
pub struct Source {
    pub file: usize,
    pub main: Option<Value>,
    pub pick: Pick,
    /// Whether the latches of its text hold the state in a code. Only a BLIF text has this.
    pub encode: bool,
    /// Whether blocks of its text are skipped where they are idle. Only a C text has this.
    pub guard: bool,
}

/// What a list of words asks for. Files are given by the places of their words.
#[derive(Clone, Copy)]
pub enum Asked {
    /// The list of the commands.
    Help,
    /// The BLIF text of a source.
    Blif(Source),
    /// The C text of a source.
    C(Source),
    /// The Verilog text of a source.
    Verilog(Source),
    /// The listing of a source's graph.
    Grc(Source),
    /// The line of counts of a source.
    Check(Source),
    /// A source's run over the trace.
    Run(Via, Source, usize),
    /// A source's run over the trace by three-valued reactions, whether its wires depend on one another in circles
    /// or not.
    RunTri(Source, usize),
    /// The run of a text over the trace.
    Exec(Via, usize, usize),
    /// A generated source: its start number, its branches, and how many instants it runs.
    Gen(u64, u32, Option<u32>),
}
