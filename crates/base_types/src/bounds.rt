// The stated limits. A limit is passed at the first number above it.

ghost use Rattle.std.specs.Prelude.{◌≡◌};
ghost use Rattle.base_types.specs.declared.bounds.TheConstants.Limits.{SOURCE_BYTES, TRACE_BYTES, TEXT_BYTES, NESTING};
ghost use Rattle.base_types.specs.declared.bounds.TheConstants.Limits.{STATEMENTS, DEPTH, SIGNALS, KERNEL_NODES};
ghost use Rattle.base_types.specs.declared.bounds.TheConstants.Limits.{KERNEL_HEIGHT, TRAPS, INSTANCES, WIRES};
ghost use Rattle.base_types.specs.declared.bounds.TheConstants.Limits.{LEAST_COUNT, GREATEST_COUNT, BRANCHES};
ghost use Rattle.base_types.specs.declared.bounds.TheConstants.Limits.{LOAD_INSTANTS};

/// The limits of the compiler and of its runners. A quantity may be as great as its number here.
#[derive(Clone, Copy)]
pub struct Limits;

impl Limits {
    /// Bytes of a source: 1 MiB.
    pub const SOURCE_BYTES: u64 = 1_048_576;

    /// Bytes of a trace: 16 MiB.
    pub const TRACE_BYTES: u64 = 16_777_216;

    /// Bytes of a BLIF or C text that is read: 256 MiB.
    pub const TEXT_BYTES: u64 = 268_435_456;

    /// Nesting of a source: statements with room for a statement or a case, `not` and brackets,
    /// one in another.
    pub const NESTING: u64 = 200;

    /// Statements that the expansion of `run` meets.
    pub const STATEMENTS: u64 = 65_536;

    /// Statements that one statement is in, during the expansion of `run`.
    pub const DEPTH: u64 = 2_048;

    /// Signals of a program, interface and local.
    pub const SIGNALS: u64 = 4_096;

    /// Nodes of a kernel body, statements and tests together.
    pub const KERNEL_NODES: u64 = 65_536;

    /// Nodes on the longest way from a kernel body down, tests included.
    pub const KERNEL_HEIGHT: u64 = 1_024;

    /// Traps one in another.
    pub const TRAPS: u64 = 60;

    /// Live instances of a program's statements.
    pub const INSTANCES: u64 = 131_072;

    /// Wires of a graph plus its live test nodes.
    pub const WIRES: u64 = 262_144;

    /// The least count of a delay or a `repeat`.
    pub const LEAST_COUNT: u64 = 1;

    /// The greatest count of a delay or a `repeat`.
    pub const GREATEST_COUNT: u64 = 255;

    /// Parallel branches of a generated source.
    pub const BRANCHES: u64 = 400;

    /// Instants that a generated source is run for.
    pub const LOAD_INSTANTS: u64 = 100_000;

    /// Bytes of a piece in which a text is written: 64 KiB.
    pub const PIECE_BYTES: usize = 65_536;
}

/// The limits have the numbers that the documents state. It does nothing: its contract says so, with
/// a literal for each limit. `PIECE_BYTES` is stated nowhere else and may change.
pub fn limits_are_as_stated()
    ensures source { SOURCE_BYTES ≡ 1048576 }
    ensures trace { TRACE_BYTES ≡ 16777216 }
    ensures text { TEXT_BYTES ≡ 268435456 }
    ensures nesting { NESTING ≡ 200 }
    ensures statements { STATEMENTS ≡ 65536 }
    ensures depth { DEPTH ≡ 2048 }
    ensures signals { SIGNALS ≡ 4096 }
    ensures kernel_nodes { KERNEL_NODES ≡ 65536 }
    ensures kernel_height { KERNEL_HEIGHT ≡ 1024 }
    ensures traps { TRAPS ≡ 60 }
    ensures instances { INSTANCES ≡ 131072 }
    ensures wires { WIRES ≡ 262144 }
    ensures least_count { LEAST_COUNT ≡ 1 }
    ensures greatest_count { GREATEST_COUNT ≡ 255 }
    ensures branches { BRANCHES ≡ 400 }
    ensures load_instants { LOAD_INSTANTS ≡ 100000 }
{}
