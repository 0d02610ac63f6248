ghost use Rattle.std.specs.Prelude.{◌≡◌};
ghost use Rattle.cr_check_expressions.specs.Breaks.{fault, comes_first, lesser};

/// A constraint that an expression breaks.
#[derive(Clone, Copy, PartialEq, Eq, Debug)]
pub struct Break {
    /// The token at which it is answered.
    pub token: u32,
    /// The row of the table of constraints, K1 to K43.
    pub row: u8,
}

/// The break of a row at a token, where it holds no longer.
pub fn break_if(row: u8, token: u32, broken: bool) -> Option<Break>
    ensures { result ≡ fault row token broken }
{
    if broken {
        Some(Break { token, row })
    } else {
        None
    }
}

/// Of two breaks the one at the lesser token, and at one token the one of the lesser row.
pub fn lesser(first: Option<Break>, second: Option<Break>) -> Option<Break>
    ensures { result ≡ lesser first second }
{
    match first {
        None => second,
        Some(one) => match second {
            None => Some(one),
            Some(other) => if comes_first(one, other) {
                Some(one)
            } else {
                Some(other)
            },
        },
    }
}

fn comes_first(one: Break, other: Break) -> bool
    ensures { result ≡ comes_first one other }
{
    one.token < other.token || (one.token == other.token && one.row <= other.row)
}
