// When to restart.

// The conflicts before the first restart by Luby's sequence.
const UNIT: u64 = 128;

// The conflicts of the first phase. Each later phase is longer by a quarter.
const PHASE: u64 = 1_000;

// The fewest conflicts between two restarts of a rapid phase.
const FEWEST: u64 = 10;

// The conflicts over which the long mean is taken.
const LONG: u64 = 16_384;

/// Restarts in two kinds of phases, in turn: rapid ones as soon as recent clauses spread over more levels than
/// usual, and calm ones by Luby's sequence. Rapid restarts suit equivalences of circuits, calm ones suit satisfiable
/// questions.
#[derive(Clone, Copy)]
pub(crate) struct Restarts {
    // Means of the levels of learned clauses, times 2^32: of recent ones, and of all.
    short: u64,
    long: u64,
    learned: u64,
    // Conflicts since the last restart.
    since: u64,
    limit: u64,
    round: u64,
    is_rapid: bool,
    phase: u64,
    phase_end: u64,
}

impl Restarts {
    pub fn new() -> Restarts {
        Restarts {
            short: 0,
            long: 0,
            learned: 0,
            since: 0,
            limit: UNIT,
            round: 0,
            is_rapid: true,
            phase: PHASE,
            phase_end: PHASE,
        }
    }

    /// Begins a run.
    pub fn begin(&mut self) {
        self.since = 0;
        if !self.is_rapid {
            self.round = self.round.saturating_add(1);
            self.limit = luby(self.round).saturating_mul(UNIT);
        }
    }

    /// Notes a clause that was learned, with literals of this many levels.
    pub fn note(&mut self, spread: u32) {
        self.learned = self.learned.saturating_add(1);
        self.since = self.since.saturating_add(1);
        let next = (spread.min(0xffff) as u64).saturating_mul(0x1_0000_0000);
        self.short = moved(self.short, next, 32);
        self.long = moved(self.long, next, self.learned.min(LONG));
        if self.learned >= self.phase_end {
            self.is_rapid = !self.is_rapid;
            self.phase = self.phase.saturating_add(self.phase / 4);
            self.phase_end = self.learned.saturating_add(self.phase);
            self.limit = UNIT;
        }
    }

    /// Reports whether the run should end.
    pub fn is_due(&self) -> bool {
        if self.is_rapid {
            self.since >= FEWEST && self.short.saturating_mul(10) > self.long.saturating_mul(11)
        } else {
            self.since >= self.limit
        }
    }
}

// A mean moved toward the next value by one part of this many.
fn moved(mean: u64, next: u64, parts: u64) -> u64 {
    let parts = parts.max(1);
    mean.saturating_sub(mean / parts)
        .saturating_add(next / parts)
}

// Luby's sequence: 1, 1, 2, 1, 1, 2, 4, .. (Luby, Sinclair and Zuckerman, "Optimal Speedup of Las Vegas Algorithms").
fn luby(round: u64) -> u64 {
    let mut left = round;
    for _ in 0..64 {
        let size = size_around(left);
        if size == left {
            return size / 2 + 1;
        }
        left = left.saturating_sub(size / 2);
    }
    1
}

// The least of 1, 3, 7, .. that is not below this number.
fn size_around(number: u64) -> u64 {
    let mut size: u64 = 1;
    for _ in 0..62 {
        if size >= number {
            break;
        }
        size = size.saturating_mul(2).saturating_add(1);
    }
    size
}
