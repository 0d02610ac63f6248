// Numbers as bytes, the lowest first.
ghost use Rattle.std.specs.Prelude.{◌≡◌, ◌++◌, ◌<◌, length, MatchOption};
ghost use Rattle.std.specs.Int.{to_le_bytes, w16, w64};

/// Takes a number of two bytes off the front.
pub fn take_u16(bytes: &[u8]) -> Option<(u16, &[u8])>
    ensures { MatchOption result (length bytes.now < 2) (λ taken. bytes.now ≡ to_le_bytes w16 taken.0 ++ taken.1.now) }
{
    let (number, rest) = bytes.split_first_chunk::<2>()?;
    Some((u16_of(*number), rest))
}

/// Takes a number of eight bytes off the front.
pub fn take_u64(bytes: &[u8]) -> Option<(u64, &[u8])>
    ensures { MatchOption result (length bytes.now < 8) (λ taken. bytes.now ≡ to_le_bytes w64 taken.0 ++ taken.1.now) }
{
    let (number, rest) = bytes.split_first_chunk::<8>()?;
    Some((u64_of(*number), rest))
}

fn u16_of(bytes: [u8; 2]) -> u16
    ensures { to_le_bytes w16 result ≡ bytes }
{
    u16::from_le_bytes(bytes)
}

fn u64_of(bytes: [u8; 8]) -> u64
    ensures { to_le_bytes w64 result ≡ bytes }
{
    u64::from_le_bytes(bytes)
}
