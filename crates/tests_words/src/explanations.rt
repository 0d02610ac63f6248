// What is said beside a status. What is wanted was found by hand: from the rules of the command line, and from the places in the texts.
use cr_explain::{Place, Seen, TestSeen, asked_text, explanation, first_place};
use std::alloc::{AllocError, Global};
use std::process::Abort;

/// Words in no form, each behind a bar, and first a part of what is said of them.
const WORDS: &str = "\
--workers takes a number from 1 to 32, and not \"33\"|--workers|33|a|b
did you mean --workers?|--workres|3|a|b
--limit takes a number from 0|--limit=x|a|b
--limit has no value|a|b|--limit
--passes takes different letters|--passes|lx|a|b
--passes takes different letters|--passes|ll|a|b
--steps stands twice|--steps|3|--steps=3|a|b
here is only \"a\"|a
\"c\" is one more|a|b|c
TEST and FILE are missing
isn't gen:NUMBER:ITEMS|has:x|gen:7
is no name of a file|has:x|d/..
TEST is an empty word||f.c
--workers 4 says that here|-n|4|a|b
--workers 8 says that here|--n=8|a|b
--workers 2 says that here|-j|2|a|b
as timeout 20 gcc ..|--timeout|20|a|b
nothing like it|--tidy|a|b
nothing like it|--not-c|a|b
\"--zebra\" is no option|--zebra|a|b
only one of them may stand|--journal|--resume|a|b
--journal stands twice|--journal|a|b|--journal
don't go together|--journal|--standing|a|b
a generated program has no journal|--journal|has:x|gen:1:1
isn't made of one or more whole tokens|has:|f.c
a shell takes away|if:has(x)|f.c
\"is\" is none of|if:is(same)|f.c
the brackets don't pair|if:not(same|f.c
is no formula|if:ends(256)|f.c
LOG and FILE are two words, and here are 1|--replay|a
--workers doesn't stand with --replay|--replay|--workers|1|a|b
--journal doesn't stand with --replay|--replay|--journal|a|b
--journal takes no value|--journal=yes|a|b
--replay is the first word|a|--replay|b
--report is the first word|f.c.log|--report
for creduce in the folder of its sources|--prove
--workers 8 says that here|-j8|a|b
did you mean --limit?|--limits|3|a|b
did you mean --resume?|--resum|a|b
TEST and FILE are two words, and here is only \"a\"|--limit|--journal|5|a
--explain takes token 1 to 5|--explain|K44
--reached takes an identifier of C, and not \"9a\"|--reached=9a|a|b
--reached takes an identifier of C, and not \"\"|--reached=|a|b
--reached has its label in the same word, as --reached=NAME|--reached|A|a|b
--reached=A stands twice|--reached=A|a|b|--reached=A
--reached stands twice|--reached=A|a|b|--reached=B
--reached doesn't stand with --replay|--replay|--reached=A|a|b
did you mean --reached?|--reach=A|a|b
TEST and FILE are two words, and here is only \"a\"|--limit|--reached=A|5|a
letters of ltbusciprfv and o, and not \"vov\"|--passes=vov|a|b
here is only \"a\"|--passes=ltbusciprfvo|a
takes a number from 0 to 9223372036854775807, and not \"-1\"|--limit|-1|a|b
";

/// Files that are refused: the end of the program's line, a part of what is said, and the file, whose lines end with `/`.
const FILES: &str = "\
1: not in the subset: token 2|a directive|#include <stdio.h>/int main(void) { return 0; }/
1: not in the subset: token 2|1.5e-3 is no integer constant|int x = 1.5e-3+1;/
1: not in the subset: token 2|the byte 0xC3 begins no token|int ä;/
1: not in the subset: token 2|`@` begins no token here|int x@;/
1: not in the subset: token 2|0b11 is no integer constant: C11 has no binary ones|int x = 0b11;/
1: not in the subset: token 2|0x1p3 is no integer constant: floating point is left out|int x = 0x1p3;/
1: not in the subset: token 2|08 is no integer constant: its digits|int x = 08;/
1: not in the subset: token 2|a character constant has one character|int x = 'ab';/
1: not in the subset: token 2|an escape that C hasn't|char *s = \"\\e\";/
1: not in the subset: name 1|`asm`: take it out|int main(void) { asm(\"nop\"); return 0; }/
1: not in the subset: parse 1|`asm`: take it out|int main(void) { asm volatile (\"nop\"); return 0; }/
1: not in the subset: parse 1|`asm`: take it out|int main(void) { int x; asm(\"nop\" : \"=r\"(x)); return 0; }/
1: not in the subset: parse 1|`__int128`: use two|int main(void) { __int128 x = 1; return 0; }/
1: not in the subset: parse 1|`size_t`: a header has it|int main(void) { size_t n = 1; return 0; }/
1: not in the subset: parse 1|`{`: a statement within|int main(void) { int x = ({ 1; }); return x; }/
1: not in the subset: parse 1|two of type unsigned long|__int128 x;/
1: not in the subset: parse 1|creduce-prepare takes it out|int f(void) __attribute__((pure));/
1: not in the subset: parse 1|`x` is no type that is declared before|int f(x) int x; { return x; }/
1: not in the subset: parse 1|`u32` is no type that is declared before|int main(void) { u32 n = 1; return n; }/
1: not in the subset: parse 1|`uint` is no type that is declared before|int f(int x, uint y);/
1: not in the subset: parse 4|4. a call of anything but a plain name|int f(void); int main(void) { return (f)(); }/
1: not in the subset: parse 4|1. a keyword without a rule|double x;/
1: not in the subset: parse 4|`double`: floating point is left out|double x;/
1: not in the subset: parse 4|`.`: give the values in their order|struct s { int m; } x = { .m = 1 };/
1: not in the subset: parse 1|`main` has no type in front|main() { return 0; }/
1: not in the subset: parse 1|`:`: C11 wants a value between|int main(void) { return 1 ?: 2; }/
1: not in the subset: parse 1|`{`: no function stands within a function|int main(void) { int f(void) { return 1; } return f(); }/
1: not in the subset: parse 1|`int`: where these are the parameters|int f() int x; { return x; }/
2: not in the subset: name 1|nosuch isn't declared before line 2, column 25|int x;/int main(void) { return nosuch; }/
1: not in the subset: name 1|strlen is a function of the library|int main(void) { return strlen(0); }/
1: not in the subset: name 1|define it in the file, as creduce-prepare does|int main(void) { return strlen(0); }/
1: not in the subset: name 1|define it in the file, or take the call out|int main(void) { malloc(1); return 0; }/
1: not in the subset: name 1|`INT_MAX`: a header has it|int main(void) { return INT_MAX; }/
1: not in the subset: name 1|`stderr`: streams are left out|int f(int x) { return x; } int main(void) { return f(stderr); }/
1: not in the subset: name 1|__builtin_clz is a function of the compiler|int main(void) { return __builtin_clz(1); }/
2: not in the subset: type 40|f is used in line 2, column 25, and the file doesn't define it|int f(void);/int main(void) { return f(); }/
1: not in the subset: type 40|main isn't, as int main(void)|int f(void) { return 0; }/
1: not in the subset: type 40|main isn't, as int main(void)|extern int f(int n), a[1] = { 1 }; int f(int n) { return a[n]; }/
2: not in the subset: type 40|x is used in line 2, column 25, and the file doesn't define it|extern int x;/int main(void) { return x; }/
1: not defined: U2|`~` or `%` by 0|int main(void) { return 1 ~ 0; }/
1: not in the subset: name 1|    int main(void) { return x; }/                            ^|int main(void) { return x; }/
1: not in the subset: parse 1|`...`: a range of cases|int main(void) { switch (1) { case 1 ... 3:; } return 0; }/
1: not in the subset: parse 1|write the type itself|int x; typeof(x) y;/
1: not in the subset: type 20|    struct s { int m; } x; int main(void) { return x.n; }/                                                    ^|struct s { int m; } x; int main(void) { return x.n; }/
2: not in the subset: type 40|Line 1 of f.c is/    int f(void); int main(void) { return f(); }/                                         ^|int f(void); int main(void) { return f(); }/int x;/
";

/// Other ends: the status, a part of what is said, the program's line, and the two words.
const ENDS: &str = "\
3|from the folder /here|creduce: no file f.c|./t.sh|f.c
4|TEST comes first, then FILE: creduce './t.sh' 'f.c'|creduce: ./t.sh:1: not in the subset: token 2|f.c|./t.sh
6|(cd creduce-trial-0 && .././t.sh;|creduce: the test says no to f.c|./t.sh|f.c
6|hasn't the tokens of \"x\"|creduce: the test says no to f.c|has:x|f.c
8|There is no ./t.sh|creduce: the test failed on f.c|./t.sh|f.c
8|The test failed on a variant|f.c size 9 to 8 accepted 1 turns 4 fault|./t.sh|f.c
9|can't be read or written by you|creduce: file fault: f.c|./t.sh|f.c
12|--resume goes on|creduce: journal fault: f.c.journal|has:x|f.c
13|Record 3 of it|creduce: journal refused: f.c.journal 3|./t.sh|f.c
14|At line 7 of the log|creduce: replay: line 7|f.c.log|f.c
14|At line 7 of the log|creduce: replay: line 7|--replay|f.c.log|f.c
3|--replay reads FILE.orig, LOG and FILE, all of them from the folder /here|creduce: no file f.c.orig|--replay|f.c.log|f.c
3|--replay reads FILE.orig, LOG and FILE|creduce: no file a.c|--replay|a.c|f.c
3|--resume goes on from f.c.orig|creduce: no file f.c.orig|--resume|./t.sh|f.c
";

fn seen(file: Option<&[u8]>, place: Option<Place>) -> Seen<'_> {
    Seen {
        folder: "/here",
        file,
        place,
        test: TestSeen::Absent,
        documents: "/docs",
    }
}

fn expect_part(rt: &impl Abort, text: &String, wanted: &str, line: &str) {
    assert!(rt; text.as_str().contains(wanted), "{line}: {text}");
}

fn words_in(alloc: Global, line: &str) -> Result<Vec<String>, AllocError> {
    let mut words = Vec::new(alloc);
    for word in line.split('|').skip(1) {
        words.push(String::from_str(alloc, word)?)?;
    }
    Ok(words)
}

fn expect_words(rt: &impl Abort, alloc: Global, line: &str) -> Result<(), AllocError> {
    let wanted = line.split('|').next().unwrap_or("");
    let words = words_in(alloc, line)?;
    let text = explanation(alloc, words.as_slice(), 2, "", seen(None, None))?;
    expect_part(rt, &text, wanted, line);
    Ok(())
}

// A text whose lines end with `/` in a row; `~` stands for `/` itself.
fn lines_of(alloc: Global, row: &str) -> Result<String, AllocError> {
    let mut text = String::new(alloc);
    for c in row.chars() {
        text.push(match c {
            '/' => '\n',
            '~' => '/',
            c => c,
        })?;
    }
    Ok(text)
}

fn expect_file(rt: &impl Abort, alloc: Global, row: &str) -> Result<(), AllocError> {
    let mut cells = row.splitn(3, '|');
    let end = cells.next().unwrap_or("");
    let wanted = lines_of(alloc, cells.next().unwrap_or(""))?;
    let file = lines_of(alloc, cells.next().unwrap_or(""))?;
    let status: u8 = if end.contains("subset") { 4 } else { 5 };
    let line = format!(in alloc; "creduce: f.c:{end}")?;
    let bytes = file.as_str().as_bytes();
    let place = if status == 4 {
        first_place(alloc, bytes)?
    } else {
        None
    };
    let words = words_in(alloc, "|has:x|f.c")?;
    let text = explanation(
        alloc,
        words.as_slice(),
        status,
        line.as_str(),
        seen(Some(bytes), place),
    )?;
    expect_part(rt, &text, wanted.as_str(), row);
    Ok(())
}

fn expect_end(rt: &impl Abort, alloc: Global, row: &str) -> Result<(), AllocError> {
    let mut cells = row.splitn(4, '|');
    let status = cells.next().unwrap_or("").parse::<u8>().unwrap_or(0);
    let wanted = cells.next().unwrap_or("");
    let line = cells.next().unwrap_or("");
    let places = format!(in alloc; "|{}", cells.next().unwrap_or(""))?;
    let words = words_in(alloc, places.as_str())?;
    let text = explanation(alloc, words.as_slice(), status, line, seen(None, None))?;
    expect_part(rt, &text, wanted, row);
    Ok(())
}

#[test]
fn the_bad_word_is_named(rt: HostRuntime) -> Result<(), AllocError> {
    for line in WORDS.lines() {
        expect_words(&rt, rt.alloc(), line)?;
    }
    Ok(())
}

#[test]
fn a_refusal_says_what_can_be_done(rt: HostRuntime) -> Result<(), AllocError> {
    for row in FILES.lines() {
        expect_file(&rt, rt.alloc(), row)?;
    }
    Ok(())
}

#[test]
fn other_ends_are_explained(rt: HostRuntime) -> Result<(), AllocError> {
    for row in ENDS.lines() {
        expect_end(&rt, rt.alloc(), row)?;
    }
    Ok(())
}

/// Words that ask for no run, each behind a bar, and first a part of what is answered; without one, words that ask for no text.
const ASKED: &str = "\
creduce shrinks a C program|--help
creduce shrinks a C program|-h
--any-order|./t.sh|f.c|--help
type 37 is K37|--explain|K37
token 2: at this byte|--explain|token|2
U16: a conversion of `printf`|--explain|all
|./t.sh|f.c
|./t.sh|f.c|--|--help
|--explain|K44
|
";

#[test]
fn the_help_stands_at_any_place(rt: HostRuntime) -> Result<(), AllocError> {
    for line in ASKED.lines() {
        let wanted = line.split('|').next().unwrap_or("");
        let words = words_in(rt.alloc(), line)?;
        match asked_text(rt.alloc(), words.as_slice())? {
            Some(text) => {
                assert!(&rt; !wanted.is_empty(), "{line}");
                expect_part(&rt, &text, wanted, line);
            }
            None => assert!(&rt; wanted.is_empty(), "{line}"),
        }
    }
    Ok(())
}
