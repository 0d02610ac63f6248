// The program's own line, read back.
use crate::rows::Kind;

/// What a line of status 4 or 5 says: `creduce: NAME:LINE: not in the subset: WORD NUMBER`, `not defined: U1` or `left the profile: N1`.
#[derive(Clone, Copy, Debug, PartialEq, Eq)]
pub struct Refused<'a> {
    pub name: &'a str,
    pub line: u64,
    pub kind: Kind,
    pub number: u8,
}

/// Reads such a line. The name may have colons, so it is read from its end.
pub fn read_refusal(line: &str) -> Option<Refused<'_>> {
    let rest = line.strip_prefix("creduce: ")?;
    let (rest, number) = rest.rsplit_once(": ")?;
    let (rest, stage) = rest.rsplit_once(": ")?;
    let (name, line) = rest.rsplit_once(':')?;
    let (kind, number) = kind_of(stage, number)?;
    let Ok(line) = line.parse::<u64>() else {
        return None;
    };
    Some(Refused {
        name,
        line,
        kind,
        number,
    })
}

fn kind_of(stage: &str, number: &str) -> Option<(Kind, u8)> {
    let (kind, digits) = match stage {
        "not defined" => (Kind::Undefined, number.strip_prefix("U")?),
        "left the profile" => (Kind::Left, number.strip_prefix("N")?),
        "not in the subset" => {
            let (word, digits) = number.split_once(' ')?;
            let kind = match word {
                "token" => Kind::Token,
                "parse" => Kind::Parse,
                "name" => Kind::Name,
                "type" => Kind::Type,
                _ => return None,
            };
            (kind, digits)
        }
        _ => return None,
    };
    match digits.parse::<u8>() {
        Ok(number) => Some((kind, number)),
        Err(_) => None,
    }
}
