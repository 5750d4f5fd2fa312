ghost use Rattle.std.specs.Prelude.{◌≡◌, ℕ, ◌+◌, ◌<◌, ◌≤◌, IfSome};
ghost use Rattle.gv_text.specs.Number.{digit_of, number_of, number_below};

fn digit(byte: u8) -> Option<u8>
    ensures value { result ≡ digit_of byte }
    ensures small { IfSome result (λ d. d < 16) }
{
    match byte {
        b'0'..=b'9' => Some(byte - b'0'),
        b'a'..=b'f' => Some(byte - b'a' + 10),
        _ => None,
    }
}

/// The number that a word spells: 1 to 16 hexadecimal digits, leading zeros included.
fn number(word: &[u8]) -> Option<u64>
    ensures { result ≡ number_of word.now }
{
    if word.is_empty() || word.len() > 16 {
        return None;
    }
    let mut value = 0;
    for byte in word {
        value = value * 16 + u64::from(digit(*byte)?);
    }
    Some(value)
}

/// The number that a word spells, unless it is above `highest`.
pub(crate) fn number_up_to(highest: u64, word: &[u8]) -> Option<u64>
    ensures value { result ≡ number_below (highest + 1) word.now }
    ensures small { IfSome result (λ n. n ≤ highest) }
{
    let value = number(word)?;
    if value <= highest { Some(value) } else { None }
}
