//! Where a run of bytes of one kind ends.

ghost use Rattle.std.specs.Prelude.{◌≡◌, ◌+◌, ◌≤◌, length, drop};
ghost use Rattle.std.specs.Char.{is_ascii_digit};
ghost use Rattle.std.specs.List.{prefix_len, position_or_len};
ghost use Rattle.text_scan.specs.Tokens.{is_blank};

fn is_blank(b: u8) -> bool
    ensures { result ≡ is_blank b }
{
    matches!(b, b' ' | b'\t' | b'\r' | b'\n')
}

/// The place of the first byte from `at` on that is no blank, or the length.
pub fn blanks_end(bytes: &[u8], at: usize) -> usize
    requires { at ≤ length bytes.now }
    ensures end { result ≡ at + prefix_len is_blank (drop at bytes.now) }
    ensures within { result ≤ length bytes.now }
{
    for i in at..bytes.len() {
        if !is_blank(bytes[i]) {
            return i;
        }
    }
    bytes.len()
}

/// The place of the first blank from `at` on, or the length.
pub fn token_end(bytes: &[u8], at: usize) -> usize
    requires { at ≤ length bytes.now }
    ensures end { result ≡ at + position_or_len is_blank (drop at bytes.now) }
    ensures within { result ≤ length bytes.now }
{
    for i in at..bytes.len() {
        if is_blank(bytes[i]) {
            return i;
        }
    }
    bytes.len()
}

/// The place of the first byte from `at` on that is no digit, or the length.
pub fn digits_end(bytes: &[u8], at: usize) -> usize
    requires { at ≤ length bytes.now }
    ensures end { result ≡ at + prefix_len is_ascii_digit (drop at bytes.now) }
    ensures within { result ≤ length bytes.now }
{
    for i in at..bytes.len() {
        if !bytes[i].is_ascii_digit() {
            return i;
        }
    }
    bytes.len()
}
