// The statuses that a formula names.
ghost use Rattle.std.specs.Prelude.{◌≡◌, ◌≢◌, ◌≤◌, ℕ, IsTrue, MatchOption, decimal, length, slice_index};
ghost use Rattle.cr_formula.specs.Forms.{SpellsNoStatus};

/// The status that a word spells: 0 to 255 in decimal, without a sign, a suffix or a zero before other digits.
pub(crate) fn status_of(word: &[u8]) -> Option<u8>
    ensures { MatchOption result (SpellsNoStatus word.now) (λ n. word.now ≡ decimal n) }
{
    if !is_plain(word) {
        return None;
    }
    let Ok(text) = str::from_utf8(word) else {
        return None;
    };
    match text.parse::<u8>() {
        Ok(n) => Some(n),
        Err(_) => None,
    }
}

// Whether a word has no plus and no zero before other digits.
fn is_plain(word: &[u8]) -> bool
    ensures unsigned { IsTrue result → slice_index word.now 0 ≢ 43 }
    ensures unpadded { IsTrue result → slice_index word.now 0 ≡ 48 → length word.now ≡ 1 }
    ensures only { slice_index word.now 0 ≢ 43 → (slice_index word.now 0 ≡ 48 → length word.now ≡ 1) → IsTrue result }
{
    if word.is_empty() {
        return true;
    }
    word[0] != b'+' && (word[0] != b'0' || word.len() == 1)
}
