// Numbers in values.

ghost use Rattle.std.specs.Prelude.{◌≡◌};
ghost use Rattle.cec_words.specs.Numbers.{number};

// A number of one or more decimal digits, below 2^64.
pub fn number(bytes: &[u8]) -> Option<u64>
    ensures { result ≡ number bytes.now }
{
    if bytes.is_empty() {
        return None;
    }
    let mut value = 0u64;
    for byte in bytes {
        if !byte.is_ascii_digit() {
            return None;
        }
        value = value.checked_mul(10)?.checked_add(u64::from(*byte - b'0'))?;
    }
    Some(value)
}
