use crate::rows::{expect, pair, rows};
use cr_outside::{
    Answer, Event, FileFault, Files, Judge, MemFiles, MemSink, Question, ReadAnswer, Scripted,
    Sink, SinkFault, Test, TestFault,
};
use std::alloc::{AllocError, Global};
use std::process::Abort;

fn one_file(alloc: Global, name: &str, text: &str, fails: &[u64]) -> Result<MemFiles, AllocError> {
    let mut pairs = Vec::new(alloc);
    pairs.push((
        String::from_str(alloc, name)?,
        text.as_bytes().to_vec(alloc)?,
    ))?;
    Ok(MemFiles::new(pairs, fails.to_vec(alloc)?))
}

// A judge that says yes to one file.
fn judge(alloc: Global, file: &str, fails: &[u64]) -> Result<Scripted, AllocError> {
    let mut rows = Vec::new(alloc);
    rows.push((file.as_bytes().to_vec(alloc)?, Answer::Yes))?;
    Ok(Scripted::new(alloc, rows, Answer::No, fails.to_vec(alloc)?))
}

// The bytes read, or why there are none.
fn expect_read(rt: &impl Abort, found: ReadAnswer, wanted: &str) {
    match found {
        ReadAnswer::Bytes(bytes) => expect(rt, &bytes, wanted.as_bytes(), wanted),
        ReadAnswer::Absent => expect(rt, b"absent", wanted.as_bytes(), wanted),
        ReadAnswer::Failed => expect(rt, b"failed", wanted.as_bytes(), wanted),
        ReadAnswer::NoMemory => expect(rt, b"no memory", wanted.as_bytes(), wanted),
    }
}

fn expect_write(rt: &impl Abort, found: Result<(), FileFault>, wanted: Result<(), FileFault>) {
    assert!(rt; found == wanted, "{wanted:?}");
}

fn expect_put(rt: &impl Abort, found: Result<(), SinkFault>, wanted: Result<(), SinkFault>) {
    assert!(rt; found == wanted, "{wanted:?}");
}

#[test]
fn files_are_read_written_and_fail_where_told(rt: HostRuntime) -> Result<(), AllocError> {
    let alloc = rt.alloc();
    let mut files = one_file(alloc, "a", "abc", &[4])?;
    expect_read(&rt, files.read(alloc, "a", 2), "ab");
    expect_read(&rt, files.read(alloc, "b", 2), "absent");
    expect_write(&rt, files.write(alloc, "b", b"new"), Ok(()));
    let lost = files.write(alloc, "a", b"lost");
    expect_write(&rt, lost, Err(FileFault::Failed));
    expect_read(&rt, files.read(alloc, "b", 9), "new");
    expect_read(&rt, files.read(alloc, "a", 9), "abc");
    Ok(())
}

#[test]
fn files_tell_their_calls_the_newest_first(rt: HostRuntime) -> Result<(), AllocError> {
    let alloc = rt.alloc();
    let mut files = one_file(alloc, "a", "abc", &[3])?;
    expect_read(&rt, files.read(alloc, "a", 2), "ab");
    expect_write(&rt, files.write(alloc, "b", b"x"), Ok(()));
    expect_read(&rt, files.read(alloc, "b", 9), "failed");
    let told = texts_of(alloc, files.events())?;
    let wanted = "Read(\"b\", 9, Failed);Wrote(\"b\", [120], Done, true);Read(\"a\", 2, Done);";
    expect(&rt, told.as_bytes(), wanted.as_bytes(), wanted);
    Ok(())
}

fn texts_of(alloc: Global, events: &[Event]) -> Result<String, AllocError> {
    let mut texts = String::new(alloc);
    for event in events {
        write!(texts, "{event:?};")?;
    }
    Ok(texts)
}

#[test]
fn pieces_are_put_one_after_the_other(rt: HostRuntime) -> Result<(), AllocError> {
    let alloc = rt.alloc();
    let mut sink = MemSink::new(alloc, [2].to_vec(alloc)?);
    expect_put(&rt, sink.put(b"one "), Ok(()));
    expect_put(&rt, sink.put(b"two "), Err(SinkFault::Failed));
    expect_put(&rt, sink.put(b"three"), Ok(()));
    expect(&rt, sink.bytes(), b"one three", "the pieces that were put");
    Ok(())
}

#[test]
fn a_judge_answers_by_its_rows(rt: HostRuntime) -> Result<(), AllocError> {
    let alloc = rt.alloc();
    let mut judge = judge(alloc, "int a;", &[3])?;
    for row in rows("\nint a;¦Yes\nint b;¦No\nint a;¦Failed\n") {
        expect_judged(&rt, alloc, &mut judge, row);
    }
    assert!(rt; judge.calls().len() == 3, "{} calls", judge.calls().len());
    Ok(())
}

fn expect_judged(rt: &impl Abort, alloc: Global, judge: &mut Scripted, row: &str) {
    let (file, wanted) = pair(row);
    let found = judge.ask(alloc, "t", "f.c", file.as_bytes());
    expect(rt, word_of(found).as_bytes(), wanted.as_bytes(), row);
}

fn word_of(answer: Answer) -> &'static str {
    match answer {
        Answer::Yes => "Yes",
        Answer::No => "No",
        Answer::Failed => "Failed",
        Answer::NoMemory => "NoMemory",
    }
}

// What a word is read as, in words.
fn reading_of(alloc: Global, word: &str) -> &'static str {
    match Test::read(alloc, word) {
        Ok(Test::Has(_)) => "a text",
        Ok(Test::Program(_)) => "a program",
        Err(TestFault::Empty) => "empty",
        Err(TestFault::BadText) => "bad text",
        Err(TestFault::NoMemory) => "no memory",
    }
}

const WORDS: &str = "
has:a + b¦a text
./test.sh¦a program
¦empty
has:¦bad text
has:/*¦bad text
";

#[test]
fn a_word_is_a_text_or_a_program(rt: HostRuntime) {
    for row in rows(WORDS) {
        let (word, wanted) = pair(row);
        let found = reading_of(rt.alloc(), word);
        expect(&rt, found.as_bytes(), wanted.as_bytes(), row);
    }
}

// Files, and whether the tokens of `a+b` stand in them.
const ASKED: &str = "
int x = a + b;¦Yes
int x = aa+b;¦No
int x = a++b;¦No
a+b /*¦No
";

fn expect_asked(rt: &impl Abort, alloc: Global, test: &Test, judge: &mut Scripted) {
    for row in rows(ASKED) {
        let (file, wanted) = pair(row);
        let found = test.ask(alloc, judge, "f.c", file.as_bytes());
        expect(rt, word_of(found).as_bytes(), wanted.as_bytes(), row);
    }
    assert!(rt; judge.calls().is_empty(), "not empty");
}

#[test]
fn a_text_is_found_by_its_tokens(rt: HostRuntime) -> Result<(), AllocError> {
    let mut judge = judge(rt.alloc(), "", &[])?;
    match Test::read(rt.alloc(), "has:a+b") {
        Ok(test) => expect_asked(&rt, rt.alloc(), &test, &mut judge),
        Err(_) => return Err(AllocError),
    }
    Ok(())
}
