ghost use Rattle.std.specs.Prelude.{◌≡◌, ◌↔◌, ◌≤◌, ◌<◌, [], ℕ, IsTrue, slice_index, length, nat_eq, true, false};
ghost use Rattle.std.specs.List.{list_any};
ghost use Rattle.std.specs.Cmp.Lexicographic.{pointwise};
ghost use Rattle.cr_tokens.specs.Bytes.{IsDigit, IsOctalDigit, IsHexDigit, IsNondigit, IsWordByte, IsSpace, IsIndent};

/// A digit.
pub fn is_digit(byte: u8) -> bool
    ensures { IsTrue result ↔ IsDigit byte }
{
    matches!(byte, b'0'..=b'9')
}

/// An octal digit.
pub fn is_octal_digit(byte: u8) -> bool
    ensures { IsTrue result ↔ IsOctalDigit byte }
{
    matches!(byte, b'0'..=b'7')
}

/// A hexadecimal digit.
pub fn is_hex_digit(byte: u8) -> bool
    ensures { IsTrue result ↔ IsHexDigit byte }
{
    matches!(byte, b'0'..=b'9' | b'A'..=b'F' | b'a'..=b'f')
}

/// A letter or an underscore.
pub fn is_nondigit(byte: u8) -> bool
    ensures { IsTrue result ↔ IsNondigit byte }
{
    matches!(byte, b'a'..=b'z' | b'A'..=b'Z' | b'_')
}

/// A letter, an underscore or a digit.
pub fn is_word_byte(byte: u8) -> bool
    ensures { IsTrue result ↔ IsWordByte byte }
{
    is_nondigit(byte) || is_digit(byte)
}

/// White space.
pub fn is_space(byte: u8) -> bool
    ensures { IsTrue result ↔ IsSpace byte }
{
    matches!(byte, b'\t'..=b'\r' | b' ')
}

/// A space or a tab.
pub fn is_indent(byte: u8) -> bool
    ensures { IsTrue result ↔ IsIndent byte }
{
    matches!(byte, b'\t' | b' ')
}

/// The byte at a place, or 0 past the end.
pub fn byte_at(file: &[u8], at: usize) -> u8
    ensures { result ≡ slice_index file.now at }
{
    if at < file.len() { file[at] } else { 0 }
}

/// The first place from `from` on whose byte is not of the class, or the end of the file.
pub fn run_end<F: Fn(u8) -> bool>(file: &[u8], from: usize, class: F) -> usize
    requires callable { F.IsAlwaysCallable class }
    requires inside { from ≤ length file.now }
    ensures after { from ≤ result }
    ensures inside { result ≤ length file.now }
    ensures each { (k : ℕ) → from ≤ k → k < result → F.post class (slice_index file.now k) true }
    ensures stop { result < length file.now → F.post class (slice_index file.now result) false }
{
    for at in from..file.len() {
        if !class(file[at]) {
            return at;
        }
    }
    file.len()
}

/// Whether two spellings are the same. They are short, and most differ at once, so they are compared byte by byte.
pub fn same_spelling(one: &[u8], other: &[u8]) -> bool
    ensures { result ≡ pointwise nat_eq one.now other.now }
{
    let mut rest = other;
    for byte in one {
        match rest {
            [] => return false,
            [first, others @ ..] => {
                if *byte != *first {
                    return false;
                }
                rest = others;
            }
        }
    }
    ends(rest)
}

fn ends(rest: &[u8]) -> bool
    ensures { result ≡ pointwise nat_eq [] rest.now }
{
    match rest {
        [] => true,
        _ => false,
    }
}

/// Whether a spelling stands in a table.
pub fn is_among(table: &[&[u8]], spelling: &[u8]) -> bool
    ensures { result ≡ list_any (λ t. pointwise nat_eq t.now spelling.now) table.now }
{
    for entry in table {
        if same_spelling(*entry, spelling) {
            return true;
        }
    }
    false
}
