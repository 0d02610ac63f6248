// How large a picture is in sizes and turns.
use crate::reduction::Reduction;
use crate::shown::Named;

/// What the whole height and the whole width of a picture stand for, 1 at least.
#[derive(Clone, Copy, Debug, PartialEq, Eq)]
pub struct Scale {
    pub high: u64,
    pub long: u64,
}

/// The scale on which both of them have room.
pub fn scale_of(one: Named<'_>, other: Option<Named<'_>>) -> Scale {
    let mut high = one.of.begun.max(1);
    let mut long = one.of.turns.max(1);
    if let Some(other) = other {
        high = high.max(other.of.begun);
        long = long.max(other.of.turns);
    }
    Scale { high, long }
}

/// `most` parts of the way from nothing to `whole`: how many of them `part` is, to the nearest.
pub fn parts_of(part: u64, whole: u64, most: u32) -> u64 {
    let whole = u128::from(whole.max(1));
    let twice = 2 * u128::from(most) * u128::from(part);
    u64::try_from((twice + whole) / (2 * whole)).unwrap_or(u64::MAX)
}

/// The size when so many turns had been taken: `turns` of `parts`, where each turn has so many parts.
pub fn size_at(of: &Reduction, turns: u128, parts: u32) -> u64 {
    let mut size = of.begun;
    for one in of.accepted.iter() {
        if u128::from(one.turn) * u128::from(parts) > turns {
            return size;
        }
        size = one.size;
    }
    size
}
