// The command line. What is wanted was found by hand from its rules.
use cr_explain::word_fault;
use cr_main_words::{Settings, Source, WordFault, words};
use cr_outside::Test;
use std::alloc::{AllocError, Global};
use std::process::Abort;

/// What lists of words give where there are 32 workers, and behind it the words, each behind a bar: workers, window,
/// limit, steps, passes, the test and the file, or `no`.
const LISTS: &str = "\
4 256 none 1000000 ltbusciprf has f.c|has:b|f.c
4 256 5 1000000 ltbusciprf has f.c|--limit=5|has:b|f.c
4 256 5 1000000 ltbusciprf has f.c|--limit|5|has:b|f.c
4 256 5 1000000 ltbusciprf has f.c|has:b|--limit|5|f.c
4 256 5 1000000 ltbusciprf has f.c|has:b|f.c|--limit=5
4 256 0 1000000 ltbusciprf has f.c|--limit|0|has:b|f.c
4 256 9 1000000 ltbusciprf has f.c|--limit=0000000000000000009|has:b|f.c
4 256 9223372036854775807 1000000 ltbusciprf has f.c|--limit=9223372036854775807|has:b|f.c
4 8 none 1000000 ltbusciprf has f.c|--window=8|--|has:b|f.c
4 1 none 1000000 ltbusciprf has f.c|--window|1|has:b|f.c
4 4096 none 1000000 ltbusciprf has f.c|has:b|f.c|--window|4096
1 256 none 1000000 ltbusciprf has f.c|--workers=1|has:b|f.c
32 256 none 1000000 ltbusciprf has f.c|--workers|32|has:b|f.c
4 256 none 1 ltbusciprf has f.c|--steps|1|has:b|f.c
4 256 none 100000000 ltbusciprf has f.c|--steps=100000000|has:b|f.c
4 256 none 1000000 l has f.c|--passes|l|has:b|f.c
4 256 none 1000000 tsf has f.c|--passes=fst|has:b|f.c
4 256 none 1000000 ltbusciprf has f.c|--passes|frpicsubtl|has:b|f.c
4 256 none 1000000 ltbusciprfvo has f.c|--passes|ovfrpicsubtl|has:b|f.c
4 256 none 1000000 vo has f.c|--passes=ov|has:b|f.c
2 16 7 99 bc t.sh f.c|--steps|99|t.sh|--workers=2|--passes|cb|f.c|--limit|7|--window=16
4 256 none 1000000 ltbusciprf has f.c|has:b|--|f.c
4 256 none 1000000 ltbusciprf has -x.c|--|has:b|-x.c
4 256 none 1000000 ltbusciprf has --limit=4|has:b|--|--limit=4
4 256 none 1000000 ltbusciprf has -|has:b|-
4 256 none 1000000 ltbusciprf - f.c|-|f.c
4 256 none 1000000 ltbusciprf -- f.c|--|--|f.c
4 256 none 1000000 ltbusciprf has d/...c|has:b|d/...c
4 256 none 1000000 ltbusciprf has /gen:1:1|has:b|/gen:1:1
4 256 none 1000000 ltbusciprf has gen 7 40|has:b|gen:7:40
4 256 none 1000000 ltbusciprf has gen 2147483647 10000|has:b|gen:2147483647:10000
4 256 none 1000000 ltbusciprf has gen 0 1|has:b|gen:000:01
no
no|has:b
no|--limit=5
no|has:b|f.c|g.c
no|has:b|f.c|--|g.c
no|--passes|f|t|w.sh|w.c
no||f.c
no|has:|f.c
no|has:b|
no|has:b|d/
no|has:b|d/..
no|has:b|gen:7:0
no|has:b|gen:7:10001
no|has:b|gen:2147483648:1
no|has:b|gen:7
no|has:b|gen:1:1:1
no|--|has:b|gen:
no|--limit|1|--limit|2|has:b|f.c
no|--limit=1|has:b|f.c|--limit|1
no|has:b|f.c|--limit
no|--limit|-|has:b|f.c
no|--limit|--|has:b|f.c
no|--limit=-5|has:b|f.c
no|--limit=|has:b|f.c
no|--limit=+5|has:b|f.c
no|--limit=5x|has:b|f.c
no|--limit=00000000000000000005|has:b|f.c
no|--limit=9223372036854775808|has:b|f.c
no|--limits=5|has:b|f.c
no|-limit=5|has:b|f.c
no|--workers|33|has:b|f.c
no|--workers|0|has:b|f.c
no|--window|0|has:b|f.c
no|--window|4097|has:b|f.c
no|--steps|0|has:b|f.c
no|--steps|100000001|has:b|f.c
no|--passes|ll|has:b|f.c
no|--passes|vov|has:b|f.c
no|--passes=|has:b|f.c
no|--passes|lx|has:b|f.c
no|--help|has:b|f.c
no|has:b|-x.c
";

/// The words of a line, each behind a bar.
pub(crate) fn list_of(alloc: Global, line: &str) -> Result<Vec<String>, AllocError> {
    let mut list = Vec::new(alloc);
    for word in line.split('|').skip(1) {
        list.push(String::from_str(alloc, word)?)?;
    }
    Ok(list)
}

fn tell_numbers(told: &mut String, found: &Settings) -> Result<(), AllocError> {
    write!(told, "{} {} ", found.workers, found.window)?;
    match found.limit {
        Some(limit) => write!(told, "{limit}")?,
        None => write!(told, "none")?,
    }
    write!(told, " {} ", found.steps)
}

/// Tells the letters of the passes that are on.
pub(crate) fn tell_passes(told: &mut String, enabled: &[bool; 12]) -> Result<(), AllocError> {
    for (letter, on) in "ltbusciprfvo".chars().zip(enabled.iter()) {
        if *on {
            told.push(letter)?;
        }
    }
    Ok(())
}

fn tell_test(told: &mut String, test: &Test) -> Result<(), AllocError> {
    match test {
        Test::Has(_) => write!(told, " has "),
        Test::Program(path) => write!(told, " {} ", path.as_str()),
    }
}

fn tell_source(told: &mut String, source: &Source) -> Result<(), AllocError> {
    match source {
        Source::Named(name) => write!(told, "{}", name.as_str()),
        Source::Made(number, items) => write!(told, "gen {number} {items}"),
    }
}

/// Tells settings: workers, window, limit, steps, passes, the test and the file.
pub(crate) fn tell_settings(told: &mut String, found: &Settings) -> Result<(), AllocError> {
    tell_numbers(told, found)?;
    tell_passes(told, &found.enabled)?;
    tell_test(told, &found.test)?;
    tell_source(told, &found.source)
}

fn told(alloc: Global, found: &Settings) -> Result<String, AllocError> {
    let mut told = String::new(alloc);
    tell_settings(&mut told, found)?;
    Ok(told)
}

fn answer(alloc: Global, line: &str) -> Result<String, AllocError> {
    let list = list_of(alloc, line)?;
    match words(alloc, &list, 32) {
        Ok(found) => told(alloc, &found),
        Err(WordFault::Usage) => String::from_str(alloc, "no"),
        Err(WordFault::NoMemory) => String::from_str(alloc, "no memory"),
    }
}

/// Whether a word that is in no form is found exactly where the words are refused, but for TEST's own text.
pub(crate) fn expect_fault(
    rt: &impl Abort,
    alloc: Global,
    line: &str,
    is_refused: bool,
) -> Result<(), AllocError> {
    let list = list_of(alloc, line)?;
    let found = word_fault(alloc, list.as_slice())?;
    let is_wanted = is_refused && !line.contains("|has:|");
    assert!(rt; found.is_some() == is_wanted, "{line}");
    Ok(())
}

fn expect_answer(rt: &impl Abort, alloc: Global, line: &str) -> Result<(), AllocError> {
    let found = answer(alloc, line)?;
    let wanted = line.split('|').next().unwrap_or("");
    assert!(rt; found.as_str() == wanted, "{line}: {found}");
    expect_fault(rt, alloc, line, wanted == "no")
}

#[test]
fn words_give_their_settings_or_none(rt: HostRuntime) -> Result<(), AllocError> {
    for line in LISTS.lines() {
        expect_answer(&rt, rt.alloc(), line)?;
    }
    Ok(())
}
