// The bytes of ASCII words, and where a piece ends.
ghost use Rattle.std.specs.Prelude.{◌≡◌, ◌+◌, ◌-◌, ◌<◌, true, length, slice_index, IsAscii};
ghost use Rattle.unicode_segmentation.specs.Steps.{IsFirstEnd};
ghost use Rattle.ascii_words.specs.AsciiWords.{is_run, is_bridge, is_ascii_break};
ghost use Rattle.ascii_words.specs.Places.{IsCutAt};

// A letter, a digit or '_'.
pub(crate) fn is_run(byte: u8) -> bool
    ensures { result ≡ is_run byte }
{
    byte.is_ascii_alphanumeric() || byte == b'_'
}

fn is_bridge(before: u8, mid: u8, after: u8) -> bool
    ensures { result ≡ is_bridge before mid after }
{
    let letters = before.is_ascii_alphabetic()
        && (mid == b':' || (mid == b'.' || mid == b'\''))
        && after.is_ascii_alphabetic();
    let digits = before.is_ascii_digit()
        && (mid == b',' || (mid == b';' || (mid == b'.' || mid == b'\'')))
        && after.is_ascii_digit();
    letters || digits
}

// Whether the byte at `at` stands between two bytes of one word.
fn is_bridge_at(bytes: &[u8], at: usize) -> bool
    requires { (0 < at) × (at < length bytes.now) }
    ensures { result ≡ is_bridge (slice_index bytes.now (at - 1)) (slice_index bytes.now at)
        (slice_index bytes.now (at + 1)) }
{
    at + 1 < bytes.len() && is_bridge(bytes[at - 1], bytes[at], bytes[at + 1])
}

// Where the piece ends that begins with this byte of a run.
pub(crate) fn piece_end(text: &[u8], start: usize) -> usize
    requires ascii { IsAscii text.now }
    requires some { start < length text.now }
    requires run { is_run (slice_index text.now start) ≡ true }
    ensures end { IsFirstEnd is_ascii_break text.now start (length text.now) result }
    ensures cut { IsCutAt text.now result }
{
    let mut end = start + 1;
    while end < text.len() {
        if is_run(text[end]) {
            end += 1;
        } else if is_bridge_at(text, end) {
            end += 2;
        } else {
            return end;
        }
    }
    end
}
