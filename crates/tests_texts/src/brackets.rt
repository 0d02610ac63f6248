use crate::rows::{expect_true, number, pair, rows};
use pass_text::{Pair, partners};
use std::alloc::{AllocError, Global};

// Signs, a point for a token that is no bracket; and the pairs, or `none`.
const PAIRS: &str = "
¦
...¦
.(.).¦1 3
(())()¦0 3 1 2 4 5
{[]()}¦0 5 1 2 3 4
([)]¦none
(]¦none
)¦none
(¦none
(}{)¦none
())(¦none
";

fn are(pairs: &[Pair], wanted: &str) -> bool {
    let mut places = wanted.split_whitespace();
    for pair in pairs {
        if number(places.next()) != pair.from || number(places.next()) != pair.to {
            return false;
        }
    }
    places.next().is_none()
}

fn agrees(alloc: Global, signs: &str, wanted: &str) -> Result<bool, AllocError> {
    match partners(alloc, signs.as_bytes())? {
        Some(pairs) => Ok(are(&pairs, wanted)),
        None => Ok(wanted == "none"),
    }
}

#[test]
fn brackets_have_the_partners_of_the_table(rt: HostRuntime) -> Result<(), AllocError> {
    for row in rows(PAIRS) {
        let (signs, wanted) = pair(row);
        let agrees = agrees(rt.alloc(), signs, wanted)?;
        expect_true(&rt, agrees, row);
    }
    Ok(())
}
