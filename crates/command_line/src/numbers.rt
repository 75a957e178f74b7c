// Numbers on the command line.
ghost use Rattle.std.specs.Prelude.{◌≡◌, ◌&&◌, nat_le};
ghost use Rattle.std.specs.Char.{is_ascii_digit};
ghost use Rattle.std.specs.List.{list_all};
ghost use Rattle.command_line.specs.Numbers.{is_numeral, number_in};

fn are_digits(bytes: &[u8]) -> bool
    ensures { result ≡ list_all is_ascii_digit bytes.now }
{
    bytes.iter().all(|byte| byte.is_ascii_digit())
}

// Whether a number stands within these bounds.
fn is_within(least: u32, most: u32, number: u32) -> bool
    ensures { result ≡ (nat_le least number && nat_le number most) }
{
    (least..=most).contains(&number)
}

// Whether the word is 1 to 10 decimal digits.
fn is_numeral(word: &str) -> bool
    ensures { result ≡ is_numeral 10 word.now }
{
    if word.is_empty() || word.len() > 10 {
        return false;
    }
    are_digits(word.as_bytes())
}

/// A number of 1 to 10 decimal digits within these bounds.
pub(crate) fn number_in(least: u32, most: u32, word: &str) -> Option<u32>
    ensures { result ≡ number_in least most word.now }
{
    if !is_numeral(word) {
        return None;
    }
    let number = word.parse::<u32>().ok()?;
    is_within(least, most, number).then_some(number)
}
