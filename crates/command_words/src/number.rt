//! Numbers in words.
ghost use Rattle.std.specs.Prelude.{◌≡◌};
ghost use Rattle.command_words.specs.Numbers.{number_of, number_within};

/// One to nineteen decimal digits.
fn number(text: &[u8]) -> Option<u64>
    ensures { result ≡ number_of text.now }
{
    if text.is_empty() || text.len() > 19 {
        return None;
    }
    let mut value = 0u64;
    for c in text {
        if !c.is_ascii_digit() {
            return None;
        }
        value = value * 10 + u64::from(*c - b'0');
    }
    Some(value)
}

/// A number from `low` to `high`, in one to nineteen decimal digits.
pub fn within(low: u64, high: u64, text: &[u8]) -> Option<u64>
    ensures { result ≡ number_within low high text.now }
{
    match number(text) {
        Some(n) if low <= n && n <= high => Some(n),
        _ => None,
    }
}
