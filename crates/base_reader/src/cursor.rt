// The steps of a reader on the tokens that are left.

ghost use Rattle.std.specs.Prelude.{◌≡◌, ℕ, suc, true, false, ◌∷◌, [], MatchOption};
ghost use Rattle.std.specs.Prelude.{MatchResult};
ghost use Rattle.base_reader.specs.Readings.{fault_at, ended};

use crate::faults::Fault;

/// The next token and those after it, or `None` at the end of the list.
pub fn first<T>(tokens: &[T]) -> Option<(&T, &[T])>
    ensures { MatchOption result (tokens.now ≡ []) (λ found. tokens.now ≡ found.0.now ∷ found.1.now) }
{
    tokens.split_first()
}

/// The fault at the next token, where nothing that the grammar has can stand.
pub fn refused<T>(tokens: &[T]) -> Fault
    ensures { result ≡ fault_at false tokens.now }
{
    Fault {
        deep: false,
        left: tokens.len(),
    }
}

/// The room inside what the next token opens: one less than the room outside. Where there is none,
/// the fault for depth at that token.
pub fn inside<T>(room: u32, tokens: &[T]) -> Result<u32, Fault>
    ensures { MatchResult result (λ less. room ≡ suc less) (λ fault. (room ≡ 0) × (fault ≡ fault_at true tokens.now)) }
{
    match room.checked_sub(1) {
        Some(less) => Ok(less),
        None => Err(Fault {
            deep: true,
            left: tokens.len(),
        }),
    }
}

/// The value that was read, where no token is left, or the fault at the first token that is.
pub fn ended<T, V: Drop>(value: V, rest: &[T]) -> Result<V, Fault>
    ensures { result ≡ ended value rest.now }
{
    if rest.is_empty() {
        Ok(value)
    } else {
        Err(refused(rest))
    }
}
