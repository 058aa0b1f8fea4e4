// Functions of six variables, as tables of 64 values: bit k is the value where variable v is bit v of k.

ghost use Rattle.std.specs.Prelude.{◌<◌};

/// The table of a variable: that of a constant where there is none of this number.
pub(crate) fn variable_table(variable: usize) -> u64 {
    match variable {
        0 => 0xaaaa_aaaa_aaaa_aaaa,
        1 => 0xcccc_cccc_cccc_cccc,
        2 => 0xf0f0_f0f0_f0f0_f0f0,
        3 => 0xff00_ff00_ff00_ff00,
        4 => 0xffff_0000_ffff_0000,
        5 => 0xffff_ffff_0000_0000,
        _ => 0,
    }
}

// How far the two values of a variable stand apart.
fn step_of(variable: usize) -> u32
    ensures { result < 64 }
{
    match variable {
        0 => 1,
        1 => 2,
        2 => 4,
        3 => 8,
        4 => 16,
        _ => 32,
    }
}

/// A function where a variable has this value, as a function of the others.
fn cofactor(table: u64, variable: usize, value: bool) -> u64 {
    let mask = variable_table(variable);
    let step = step_of(variable);
    if value {
        let half = table & mask;
        half | (half >> step)
    } else {
        let half = table & !mask;
        half | (half << step)
    }
}

/// Functions between two others: those that are true where `low` is, and false where `high` is not.
#[derive(Clone, Copy, PartialEq)]
pub(crate) struct Between {
    pub low: u64,
    pub high: u64,
}

/// Whether there is such a function.
pub(crate) fn is_possible(between: Between) -> bool {
    between.low & !between.high == 0
}

/// Whether a function is one of them.
pub(crate) fn has(between: Between, table: u64) -> bool {
    between.low & !table == 0 && table & !between.high == 0
}

/// The functions where a variable has this value.
pub(crate) fn restricted(between: Between, variable: usize, value: bool) -> Between {
    Between {
        low: cofactor(between.low, variable, value),
        high: cofactor(between.high, variable, value),
    }
}

// Whether a function depends on a variable.
fn varies(table: u64, variable: usize) -> bool {
    ((table >> step_of(variable)) ^ table) & !variable_table(variable) != 0
}

// Those that do not depend on a variable, where there are such.
fn freed_of(between: Between, variable: usize) -> Option<Between> {
    let mask = variable_table(variable);
    let step = step_of(variable);
    let low = (between.low | between.low >> step) & !mask;
    let high = between.high & (between.high >> step) & !mask;
    if low & !high != 0 {
        return None;
    }
    Some(Between {
        low: low | low << step,
        high: high | high << step,
    })
}

/// Those that depend on fewer variables, where there are such.
pub(crate) fn narrowed(between: Between) -> Between {
    let mut narrow = between;
    for variable in 0..6 {
        if let Some(freed) = freed_of(narrow, variable) {
            narrow = freed;
        }
    }
    narrow
}

/// Whether some of them depend on a variable.
pub(crate) fn depends_on(between: Between, variable: usize) -> bool {
    varies(between.low, variable) || varies(between.high, variable)
}

/// On how many variables the narrowed functions depend: on those that none of them can do without.
pub(crate) fn narrowed_width(between: Between) -> usize {
    let mut narrow = between;
    let mut count: usize = 0;
    for variable in 0..6 {
        match freed_of(narrow, variable) {
            Some(freed) => narrow = freed,
            None => count = count.saturating_add(1),
        }
    }
    count
}
