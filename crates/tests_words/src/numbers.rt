// The rows of numbers. What is wanted stands in docs/NUMBERS.md.
use cr_explain::{Kind, number_of, number_text};
use std::alloc::{AllocError, Global};
use std::process::Abort;

/// Words of numbers, and behind a bar a part of what is said of it, or nothing where it has no row.
const NUMBERS: &str = "\
K1|type 1 is K1: the type specifiers of a declaration are together one type of the list
K40|`main` is defined, as `int main(void)`, `int main()`
type 43|the labels of a function differ
U16|a conversion of `printf` has no argument, or one of another type
N8|with `--any-order` alone
token 5|here the 262,145th token begins (own: a choice of this subset)
parse2|the tokens end before the unit does (C11 6.9)
name 1|not at fault: int x; int main(void) { return x; }
K0|
K44|
U17|
N9|with `--reached=NAME` alone
N10|
token 6|
parse 5|
name 3|
X1|
K|
";

// Whether what is said of a word's number has this text, however its lines are cut.
fn expect_said(rt: &impl Abort, alloc: Global, line: &str) -> Result<(), AllocError> {
    let Some((word, wanted)) = line.split_once('|') else {
        panic!(rt; "{line}");
    };
    let Some((kind, number)) = number_of(word) else {
        assert!(rt; wanted.is_empty(), "{line}");
        return Ok(());
    };
    let text = number_text(alloc, kind, number)?;
    let mut joined = String::new(alloc);
    for c in text.as_str().chars() {
        joined.push(if c == '\n' { ' ' } else { c })?;
    }
    assert!(rt;
        !wanted.is_empty() && joined.as_str().contains(wanted),
        "{line}"
    );
    Ok(())
}

#[test]
fn each_number_has_its_row(rt: HostRuntime) -> Result<(), AllocError> {
    for line in NUMBERS.lines() {
        expect_said(&rt, rt.alloc(), line)?;
    }
    assert!(&rt; number_of("K37") == Some((Kind::Type, 37)), "K37");
    Ok(())
}
