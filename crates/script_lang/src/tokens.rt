// Names, numbers and sets.
ghost use Rattle.std.specs.Prelude.{◌≡◌, ◌+◌, ◌*◌, ◌<◌, ◌^◌};
ghost use Rattle.std.specs.List.{list_all};
ghost use Rattle.std.specs.Option.{SomeIff};
ghost use Rattle.script_lang.specs.Tokens.{is_name_byte, is_name};
ghost use Rattle.script_lang.specs.Tokens.{value_within, number_value, set_value};

fn is_name_byte(byte: u8) -> bool
    ensures { result ≡ is_name_byte byte }
{
    byte.is_ascii_alphanumeric() || byte == b'_'
}

fn are_name_bytes(bytes: &[u8]) -> bool
    ensures { result ≡ list_all is_name_byte bytes.now }
{
    bytes.iter().all(|byte| is_name_byte(*byte))
}

// Whether the word is a name: 1 to 32 bytes, a letter and then letters, digits and `_`.
pub(crate) fn is_name(word: &[u8]) -> bool
    ensures { result ≡ is_name word.now }
{
    let Some((first, rest)) = word.split_first() else {
        return false;
    };
    first.is_ascii_alphabetic() && rest.len() <= 31 && are_name_bytes(rest)
}

// The value with one digit more, where it fits.
fn with_digit(value: u64, digit: u8) -> Option<u64>
    ensures { SomeIff result (value * 10 + digit < 2 ^ 64) (value * 10 + digit) }
{
    value.checked_mul(10)?.checked_add(u64::from(digit))
}

// The value of 1 to `most` decimal digits, where it is at most `limit`.
pub(crate) fn value_within(most: usize, limit: u64, word: &[u8]) -> Option<u64>
    ensures { result ≡ value_within most limit word.now }
{
    if word.is_empty() || word.len() > most {
        return None;
    }
    let mut value = 0u64;
    for byte in word {
        if !byte.is_ascii_digit() {
            return None;
        }
        value = with_digit(value, *byte - b'0')?;
    }
    (value <= limit).then_some(value)
}

// The value of a number: up to 10 digits, and at most 2^32 - 1.
#[tactic(auto, unfolding(crate::specs::Tokens::number_value))]
pub(crate) fn number_value(word: &[u8]) -> Option<u32>
    ensures { result ≡ number_value word.now }
{
    let value = value_within(10, u64::from(u32::MAX), word)?;
    Some(value as u32)
}

// The value of a set: up to 20 digits, and at most 2^64 - 1.
#[tactic(auto, unfolding(crate::specs::Tokens::set_value))]
pub(crate) fn set_value(word: &[u8]) -> Option<u64>
    ensures { result ≡ set_value word.now }
{
    value_within(20, u64::MAX, word)
}
