// The sum of the counts of calls.

ghost use Rattle.std.specs.Prelude.{◌≡◌, ◌<◌, ◌^◌, ◌++◌, decimal, OnOk};
ghost use Rattle.csub_guard_run.specs.Showing.{IsHeld, IsSum};
ghost use Rattle.csub_guard_run.specs.Totals.{worth, worth_of, HasRoom};

use base_types::{NoMemory, put};
use itoa::Buffer;

// 10^38: the upper part of a sum says how often it is in it.
const PART: u128 = 100_000_000_000_000_000_000_000_000_000_000_000_000;

// A number of assignments: its last 38 decimal digits, and what is before them.
#[derive(Clone, Copy)]
pub struct Total {
    pub high: u64,
    pub low: u128,
}

// The sum of a number and a count, where a counter holds it.
pub fn sum_of(total: Option<Total>, count: u128) -> Option<Total>
    requires room { HasRoom total }
    ensures sum { IsSum (worth_of total) count (worth_of result) }
    ensures room { HasRoom result }
    ensures small { count < 2 ^ 128 }
{
    let before = total?;
    let low = before.low + count % PART;
    let high = u128::from(before.high) + count / PART + low / PART;
    match u64::try_from(high) {
        Ok(high) => Some(Total {
            high,
            low: low % PART,
        }),
        Err(_) => None,
    }
}

// The number, where 64 bits hold it.
pub fn held(total: Option<Total>) -> Option<u64>
    requires room { HasRoom total }
    ensures { IsHeld (worth_of total) result }
{
    let total = total?;
    if total.high > 0 {
        return None;
    }
    match u64::try_from(total.low) {
        Ok(low) => Some(low),
        Err(_) => None,
    }
}

// Writes a number in decimal.
pub fn put_total(text: &mut Vec<u8>, total: Total) -> Result<(), NoMemory>
    requires room { total.low < 10 ^ 38 }
    ensures { OnOk result (text.new.items ≡ text.old.items ++ decimal (worth total)) }
{
    if total.high == 0 {
        return put(text, Buffer::new().format(total.low).as_bytes());
    }
    put(text, Buffer::new().format(total.high).as_bytes())?;
    put(
        text,
        &Buffer::new().format(PART + total.low).as_bytes()[1..],
    )
}
