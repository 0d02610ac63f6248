// Fields and numbers.
ghost use Rattle.std.specs.Prelude.{◌≡◌, ◌≢◌, ◌<◌, ◌^◌, ◌↔◌, ℕ, All, IsTrue, List, MatchOption, decimal, length, slice_index};
ghost use Rattle.cr_log.specs.Reading.{IsCut, IsPair, SpellsNone, StartsWithNumber};

/// Splits a text around the first such byte.
pub fn cut(text: &[u8], byte: u8) -> Option<(&[u8], &[u8])>
    ensures { MatchOption result (All (λ b. b ≢ byte) text.now) (λ parts. IsCut byte text.now parts.0.now parts.1.now) }
{
    for (i, b) in text.iter().enumerate() {
        if *b == byte {
            return Some((&text[..i], &text[i + 1..]));
        }
    }
    None
}

/// The number that a field spells, without a sign and without a leading zero.
pub fn number(field: &[u8]) -> Option<u64>
    ensures { MatchOption result (SpellsNone field.now) (λ n. field.now ≡ decimal n) }
{
    if !is_plain(field) {
        return None;
    }
    let Ok(text) = str::from_utf8(field) else {
        return None;
    };
    match text.parse::<u64>() {
        Ok(n) => Some(n),
        Err(_) => None,
    }
}

// Whether a field has no plus and no zero before other digits.
fn is_plain(field: &[u8]) -> bool
    ensures unsigned { IsTrue result → slice_index field.now 0 ≢ 43 }
    ensures unpadded { IsTrue result → slice_index field.now 0 ≡ 48 → length field.now ≡ 1 }
    ensures only { slice_index field.now 0 ≢ 43 → (slice_index field.now 0 ≡ 48 → length field.now ≡ 1) → IsTrue result }
{
    if field.is_empty() {
        return true;
    }
    field[0] != b'+' && (field[0] != b'0' || field.len() == 1)
}

/// Takes a number and the space after it off a text.
pub fn take_number(text: &[u8]) -> Option<(u64, &[u8])>
    ensures { MatchOption result ((n : ℕ) (rest : List ℕ) → StartsWithNumber text.now n rest → ⊥) (λ taken. StartsWithNumber text.now taken.0 taken.1.now) }
{
    let (field, rest) = cut(text, b' ')?;
    let first = number(field)?;
    Some((first, rest))
}

/// Reads two numbers with a space between them.
pub fn pair(text: &[u8]) -> Option<(u64, u64)>
    ensures { MatchOption result ((m n : ℕ) → IsPair text.now m n → ⊥) (λ both. IsPair text.now both.0 both.1) }
{
    let (first, rest) = take_number(text)?;
    let second = number(rest)?;
    Some((first, second))
}
