// The values of formulas, and what a run says of words that spell none. What is wanted was found by another reading of the rules, and of the
// last rows by hand.
ghost use Rattle.cr_lawful.specs.Lawful.{IsLawful};

use crate::runs::outcome;
use crate::silent::Silent;
use crate::texts::{bytes_of, word_of, words_of};
use cr_formula::{Formula, FormulaFault};
use cr_formula_bound::Bound;
use cr_lawful::CLaw;
use cr_main_task::ruled;
use cr_meaning::Limits;
use cr_outside::{Answer, Question};
use std::alloc::{AllocError, Global};
use std::process::Abort;
use std::sync::Wait;
use std::thread::Threads;

/// Files by names.
const FILES: &str = r##"
p¦# 1 "p.c"␊typedef int T;␊extern int printf(const char *, ...);␊enum color { RED, GREEN = 5, BLUE };␊struct pair { T left; T right; };␊static struct pair table[2] = { { 1, 2 }, { 3, 4 } };␊static T sum(struct pair *p, int n)␊{␊  T s = 0;␊  int i;␊  for (i = 0; i < n; i++)␊    s += p[i].left * p[i].right;␊  return s;␊}␊int main(void)␊{␊  long T = BLUE;␊  printf("%d %ld\n", sum(table, 2), T);␊  return 0;␊}␊
a¦int printf(const char*,...);int main(){printf("a\n");return 3;}
b¦int printf(const char*,...);int main(){printf("b\n");return 3;}
loops¦int main(){while(1);}
u¦int main(){return 1/0;}
aborts¦void abort(void);int main(){abort();}
high¦int putchar(int);int main(){putchar(128);putchar(98);}
x¦int main(){} @
accents¦int printf(const char*,...);int main(){printf("%s","\303\251!");return 0;}
silent¦int main(){return 3;}
silenter¦int main(){return 4;}
"##;

/// What is answered, 2 where the word spells no formula; the word, the input, and the file.
const ROWS: &str = r##"
yes¦if:prints("14␠6")¦p¦p
yes¦if:same¦p¦p
no¦if:not(has("BLUE"))¦p¦p
2¦if:and(same¦p¦p
2¦if:¦a¦a
2¦if:same()¦a¦a
2¦if:same␠same¦a¦a
2¦if:Same¦a¦a
2¦if:and(same)¦a¦a
2¦if:and(same,same,same)¦a¦a
2¦if:not␠same¦a¦a
2¦if:not(same))¦a¦a
2¦if:(same)¦a¦a
2¦if:same;¦a¦a
2¦if:ends(256)¦a¦a
2¦if:ends(00)¦a¦a
2¦if:ends(0x1)¦a¦a
2¦if:ends(3u)¦a¦a
2¦if:ends(03)¦a¦a
2¦if:ends(-1)¦a¦a
2¦if:ends('a')¦a¦a
2¦if:ends(1.)¦a¦a
2¦if:ends()¦a¦a
2¦if:has("")¦a¦a
2¦if:has("/*␠*/")¦a¦a
2¦if:has("@")¦a¦a
2¦if:has("\"")¦a¦a
2¦if:has("a"␠"b")¦a¦a
2¦if:has(main)¦a¦a
2¦if:prints("a)¦a¦a
2¦if:prints("\q")¦a¦a
2¦if:not(ends(1),ends(2))¦a¦a
2¦if:or(,same)¦a¦a
2¦if:not(not(not(not(not(not(not(not(not(not(not(not(not(not(not(not(not(not(not(not(not(not(not(not(not(not(not(not(not(not(not(not(not(not(not(not(not(not(not(not(not(not(not(not(not(not(not(not(not(not(not(not(not(not(not(not(not(not(not(not(not(not(not(not(same))))))))))))))))))))))))))))))))))))))))))))))))))))))))))))))))¦a¦a
no¦if:not(not(not(not(not(not(not(not(not(not(not(not(not(not(not(not(not(not(not(not(not(not(not(not(not(not(not(not(not(not(not(not(not(not(not(not(not(not(not(not(not(not(not(not(not(not(not(not(not(not(not(not(not(not(not(not(not(not(not(not(not(not(not(same)))))))))))))))))))))))))))))))))))))))))))))))))))))))))))))))¦a¦a
yes¦if:␠same␠¦a¦a
yes¦if:/*c*/same//x¦a¦a
yes¦if:#pragma␠x␊same¦a¦a
yes¦if:and␠(␠same␠,␠ends␠(␠3␠)␠)¦a¦a
no¦if:same¦a¦b
no¦if:same¦a¦loops
yes¦if:not(same)¦a¦loops
yes¦if:ends(3)¦a¦b
no¦if:ends(0)¦a¦b
yes¦if:ends(134)¦a¦aborts
no¦if:ends(0)¦a¦u
yes¦if:prints("")¦a¦a
no¦if:prints("")¦a¦u
yes¦if:prints("")¦a¦aborts
yes¦if:prints("a\n")¦a¦a
no¦if:prints("a\n\n")¦a¦a
yes¦if:prints("\200b")¦a¦high
yes¦if:prints("\x80")¦a¦high
no¦if:prints("a\0")¦a¦a
yes¦if:has("return␠3")¦a¦a
yes¦if:has("return\n␠␠3;")¦a¦a
no¦if:has("retur")¦a¦a
yes¦if:has("\"a\\n\"")¦a¦a
yes¦if:has("//x\nmain")¦a¦a
yes¦if:has("main")¦a¦loops
no¦if:has("main")¦a¦x
yes¦if:not(has("main"))¦a¦x
2¦if:or(has("@@"),same)¦a¦a
yes¦if:or(ends(1),ends(3))¦a¦a
no¦if:and(ends(3),not(prints("b")))¦a¦b
2¦if:has("\x6dain")¦a¦a
yes¦if:has("\155ain")¦a¦a
no¦if:and(and(same,not(has("printf("))),same)¦a¦loops
yes¦if:or(not(has("3;")),ends(0))¦b¦u
2¦if:and(not(same),0nds(3))¦b¦loops
yes¦if:not(ends(0))¦a¦u
yes¦if:not(and(has("abort"),not(has("return␠3"))))¦p¦loops
no¦if:and(not(has("return␠3")),not(or(prints(""),prints(""))))¦a¦a
yes¦if:not(not(not(same)))¦a¦p
yes¦if:not(has("return␠3"))¦a¦aborts
yes¦if:or(or(and(ends(3),ends(0)),not(prints("a"))),same)¦p¦high
yes¦if:not(and(and(ends(0),prints("b")),or(same,ends(134))))¦b¦aborts
no¦if:and(not(or(prints(""),prints("b"))),not(prints("4␠6")))¦a¦p
no¦if:not(not(and(same,ends(134))))¦a¦aborts
2¦if:not(or(and(ends()34),has("main")),and(prints("\n"),same)))¦a¦high
no¦if:and(prints("4␠6"),or(ends(3),or(has("abort"),same)))¦b¦b
yes¦if:not(has("return"))¦b¦high
no¦if:not(prints(""))¦b¦a
no¦if:not(or(not(ends(3)),not(ends(3))))¦a¦high
no¦if:and(and(or(prints("b"),same),has("return␠3")),has("printf("))¦p¦loops
no¦if:or(and(and(same,same),prints("4␠6")),prints("b"))¦a¦p
no¦if:has("abort")¦a¦u
2¦if:or(has("abort"),and(ends(3),n0t(same)))¦b¦p
no¦if:prints("\n")¦b¦loops
no¦if:prints("4␠6")¦a¦aborts
no¦if:or(and(same,not(has("3;"))),and(ends(3),or(has("3;"),ends(3))))¦b¦loops
yes¦if:not(or(same,or(same,same)))¦p¦u
2¦if:or(not(or(s,me,prints("\n"))),ends(3))¦b¦loops
no¦if:and(not(ends(0)),or(has("main"),and(has("3;"),ends(3))))¦a¦high
yes¦if:or(or(not(same),not(same)),not(not(prints("\n"))))¦b¦b
2¦if:o,(and(and(same,same),prints("a")),not(and(same,has("printf("))))¦p¦aborts
no¦if:not(not(or(has("3;"),prints("4␠6"))))¦p¦loops
no¦if:and(has("abort"),or(not(same),and(same,ends(134))))¦b¦p
no¦if:and(has("abort"),and(same,has("3;")))¦a¦aborts
no¦if:and(not(or(prints("b"),prints("\n"))),not(and(same,ends(0))))¦b¦high
2¦if:or(not(not(has("return␠3"))),not(has("retu"n␠3")))¦b¦loops
yes¦if:␠/*␠a␠*/␠and␠(␊same␊,␠//␠b␊ends(␠3␠)␠)␠¦a¦a
2¦if:same/*¦a¦a
yes¦if:ends(0)¦p¦p
2¦if:ends(0␠0)¦p¦p
2¦if:ends(+0)¦p¦p
2¦if:ends(0l)¦p¦p
no¦if:ends(255)¦p¦p
yes¦if:or(ends(255),not(ends(255)))¦p¦u
yes¦if:prints("\303\251")¦a¦accents
yes¦if:prints("\xc3\xa9!")¦a¦accents
no¦if:prints("\251\303")¦a¦accents
no¦if:prints("\251!!")¦a¦accents
yes¦if:and(prints("\xA9"),not(prints("\xff\xff")))¦a¦accents
yes¦if:same¦accents¦accents
no¦if:same¦silent¦a
no¦if:same¦silent¦silenter
yes¦if:same¦silent¦silent
no¦if:same¦a¦b
no¦if:same¦silent¦loops
yes¦if:and(and(and(and(and(and(and(and(and(and(and(and(and(and(and(and(and(and(and(and(and(and(and(and(and(and(and(and(and(and(and(and(and(and(and(and(and(and(and(and(and(and(and(and(and(and(and(and(and(and(and(and(and(and(and(and(and(and(and(and(and(and(and(same,same),same),same),same),same),same),same),same),same),same),same),same),same),same),same),same),same),same),same),same),same),same),same),same),same),same),same),same),same),same),same),same),same),same),same),same),same),same),same),same),same),same),same),same),same),same),same),same),same),same),same),same),same),same),same),same),same),same),same),same),same),same),same)¦a¦a
2¦if:and(and(and(and(and(and(and(and(and(and(and(and(and(and(and(and(and(and(and(and(and(and(and(and(and(and(and(and(and(and(and(and(and(and(and(and(and(and(and(and(and(and(and(and(and(and(and(and(and(and(and(and(and(and(and(and(and(and(and(and(and(and(and(and(same,same),same),same),same),same),same),same),same),same),same),same),same),same),same),same),same),same),same),same),same),same),same),same),same),same),same),same),same),same),same),same),same),same),same),same),same),same),same),same),same),same),same),same),same),same),same),same),same),same),same),same),same),same),same),same),same),same),same),same),same),same),same),same),same)¦a¦a
yes¦if:or(ends(9),or(ends(9),or(ends(9),or(ends(9),or(ends(9),or(ends(9),or(ends(9),or(ends(9),or(ends(9),or(ends(9),or(ends(9),or(ends(9),or(ends(9),or(ends(9),or(ends(9),or(ends(9),or(ends(9),or(ends(9),or(ends(9),or(ends(9),or(ends(9),or(ends(9),or(ends(9),or(ends(9),or(ends(9),or(ends(9),or(ends(9),or(ends(9),or(ends(9),or(ends(9),or(ends(9),or(ends(9),or(ends(9),or(ends(9),or(ends(9),or(ends(9),or(ends(9),or(ends(9),or(ends(9),or(ends(9),or(ends(9),or(ends(9),or(ends(9),or(ends(9),or(ends(9),or(ends(9),or(ends(9),or(ends(9),or(ends(9),or(ends(9),or(ends(9),or(ends(9),or(ends(9),or(ends(9),or(ends(9),or(ends(9),or(ends(9),or(ends(9),or(ends(9),or(ends(9),or(ends(9),or(ends(9),or(ends(9),same)))))))))))))))))))))))))))))))))))))))))))))))))))))))))))))))¦a¦a
2¦if:or(ends(9),or(ends(9),or(ends(9),or(ends(9),or(ends(9),or(ends(9),or(ends(9),or(ends(9),or(ends(9),or(ends(9),or(ends(9),or(ends(9),or(ends(9),or(ends(9),or(ends(9),or(ends(9),or(ends(9),or(ends(9),or(ends(9),or(ends(9),or(ends(9),or(ends(9),or(ends(9),or(ends(9),or(ends(9),or(ends(9),or(ends(9),or(ends(9),or(ends(9),or(ends(9),or(ends(9),or(ends(9),or(ends(9),or(ends(9),or(ends(9),or(ends(9),or(ends(9),or(ends(9),or(ends(9),or(ends(9),or(ends(9),or(ends(9),or(ends(9),or(ends(9),or(ends(9),or(ends(9),or(ends(9),or(ends(9),or(ends(9),or(ends(9),or(ends(9),or(ends(9),or(ends(9),or(ends(9),or(ends(9),or(ends(9),or(ends(9),or(ends(9),or(ends(9),or(ends(9),or(ends(9),or(ends(9),or(ends(9),or(ends(9),same))))))))))))))))))))))))))))))))))))))))))))))))))))))))))))))))¦a¦a
"##;

fn file_named(name: &str) -> &'static str {
    for row in FILES.lines() {
        match row.split_once('¦') {
            Some((known, text)) if known == name => return text,
            _ => {}
        }
    }
    ""
}

fn said(answer: Answer) -> &'static str {
    match answer {
        Answer::Yes => "yes",
        Answer::No => "no",
        Answer::Failed => "failed",
        Answer::NoMemory => "no memory",
    }
}

// What the formula answers of a file, where the input is lawful.
fn bound_answer(
    alloc: Global,
    formula: &Formula,
    limits: Limits,
    input: Vec<u8>,
    file: &[u8],
) -> Result<&'static str, AllocError>
    requires { IsLawful limits input.items }
{
    let bound = Bound::bind(alloc, formula, limits, input, None)?;
    let mut judge = Silent::new();
    Ok(said(bound.ask(alloc, &mut judge, "", file)))
}

fn answer_of(
    alloc: Global,
    formula: &Formula,
    input: Vec<u8>,
    file: &[u8],
) -> Result<&'static str, AllocError> {
    let law = CLaw::with_steps(1_000_000, None);
    match ruled(alloc, &law, &input) {
        Ok(None) => bound_answer(alloc, formula, law.limits, input, file),
        Ok(Some(_)) => Ok("the input isn't lawful"),
        Err(fault) => Err(fault),
    }
}

// What is answered of a word.
fn found(
    alloc: Global,
    word: &str,
    input: Vec<u8>,
    file: &[u8],
) -> Result<&'static str, AllocError> {
    match Formula::read(alloc, word) {
        Ok(formula) => {
            let answer = answer_of(alloc, &formula, input, file);
            drop(formula);
            answer
        }
        Err(FormulaFault::Form) => Ok("2"),
        Err(FormulaFault::NoMemory) => Err(AllocError),
    }
}

fn expect_value(rt: &impl Abort, alloc: Global, row: &str) -> Result<(), AllocError> {
    let mut cells = row.split('¦');
    let wanted = cells.next().unwrap_or("");
    let word = word_of(alloc, cells.next().unwrap_or(""))?;
    let input = bytes_of(alloc, file_named(cells.next().unwrap_or("")))?;
    let file = bytes_of(alloc, file_named(cells.next().unwrap_or("")))?;
    let found = found(alloc, word.as_str(), input, &file)?;
    assert!(rt; found == wanted, "{row}: {found}");
    Ok(())
}

// The status of a run without a turn, on the input.
fn status_for(answer: &str) -> u8 {
    match answer {
        "2" => 2,
        "no" => 6,
        _ => 7,
    }
}

// The words of a run without a turn.
fn words_with(alloc: Global, word: &str) -> Result<Vec<String>, AllocError> {
    let mut words = words_of(alloc, "--limit=0 --")?;
    words.push(word_of(alloc, word)?)?;
    words.push(String::from_str(alloc, "t.c")?)?;
    Ok(words)
}

// A run without a turn on a file that is its own input ends by what is answered of it.
fn expect_run(
    rt: &(impl Abort + Threads + Wait + Sync),
    alloc: Global,
    row: &str,
) -> Result<(), AllocError> {
    let mut cells = row.split('¦');
    let wanted = status_for(cells.next().unwrap_or(""));
    let word = cells.next().unwrap_or("");
    let input = cells.next().unwrap_or("");
    if input == cells.next().unwrap_or("") {
        let words = words_with(alloc, word)?;
        let found = outcome(rt, alloc, &words, bytes_of(alloc, file_named(input))?)?;
        assert!(rt; found.0 == wanted, "{row}: {}", found.0);
    }
    Ok(())
}

#[test]
fn a_formula_has_the_value_that_was_found_by_hand(rt: HostRuntime) -> Result<(), AllocError> {
    for row in ROWS.trim_start().lines() {
        expect_value(&rt, rt.alloc(), row)?;
    }
    Ok(())
}

#[test]
fn a_run_begins_where_the_value_is_yes(rt: HostRuntime) -> Result<(), AllocError> {
    for row in ROWS.trim_start().lines() {
        expect_run(&rt, rt.alloc(), row)?;
    }
    Ok(())
}
