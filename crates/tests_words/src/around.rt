// What stands around a run, as texts.
use cr_around::{
    JournalWords, documents_of, folders_in, holder_in, holder_text, quoted, recorded, test_word,
    words_in, words_text,
};
use std::alloc::{AllocError, Global};

fn reached_of(alloc: Global, label: &str) -> Result<Option<String>, AllocError> {
    if label.is_empty() {
        return Ok(None);
    }
    Ok(Some(String::from_str(alloc, label)?))
}

fn words_of(alloc: Global, test: &str, reached: &str) -> Result<JournalWords, AllocError> {
    Ok(JournalWords {
        test: String::from_str(alloc, test)?,
        test_sum: None,
        any_order: true,
        reached: reached_of(alloc, reached)?,
        program: String::from_str(alloc, "0a")?,
        result: Some(String::from_str(alloc, "1b")?),
    })
}

const TEXT: &str = "creduce journal 1
test has:a\\nb\\\\
test-bytes none
any-order yes
reached
program 0a
result 1b
";

const LABELLED: &str = "creduce journal 1
test t
test-bytes none
any-order yes
reached none
program 0a
result 1b
";

#[test]
fn the_words_of_a_journal_are_read_back(rt: HostRuntime) -> Result<(), AllocError> {
    let alloc = rt.alloc();
    for (test, reached, wanted) in [("has:a\nb\\", "", TEXT), ("t", "none", LABELLED)] {
        let words = words_of(alloc, test, reached)?;
        let text = words_text(alloc, &words)?;
        assert!(rt; text.as_str() == wanted);
        assert!(rt; words_in(alloc, wanted)? == Some(words));
    }
    for other in [
        "",
        "a text of mine",
        "creduce journal 1\n",
        "creduce journal 2\ntest a\ntest-bytes none\nany-order no\nreached\nprogram 0\nresult none\n",
        "creduce journal 1\ntest a\ntest-bytes none\nany-order no\nprogram 0\nresult none\n",
    ] {
        assert!(rt; words_in(alloc, other)?.is_none(), "{other}");
    }
    Ok(())
}

#[test]
fn the_lock_says_who_has_it(rt: HostRuntime) -> Result<(), AllocError> {
    let text = holder_text(rt.alloc(), 17, "a\nb.c", 4)?;
    assert!(rt; text.as_str() == "process 17 reduces a\\nb.c\nfolders 4\n");
    assert!(rt; holder_in(text.as_str()) == "process 17 reduces a\\nb.c");
    assert!(rt;
        folders_in(text.as_str()) == 4 && folders_in("") == 0 && folders_in("folders x\n") == 0
    );
    Ok(())
}

#[test]
fn words_are_as_a_shell_takes_them(rt: HostRuntime) -> Result<(), AllocError> {
    let alloc = rt.alloc();
    for (word, wanted) in [
        ("./t.sh", "./t.sh"),
        ("", "''"),
        ("has:a b", "'has:a b'"),
        ("it's", "'it'\\''s'"),
    ] {
        assert!(rt; quoted(alloc, word)?.as_str() == wanted, "{word}");
    }
    Ok(())
}

/// Words, and which of them is the test.
const WORDS: [(&str, &str); 6] = [
    ("t f.c", "t"),
    ("--journal --workers 4 t f.c", "t"),
    ("--limit=0 t f.c", "t"),
    ("--any-order -- --t f.c", "--t"),
    ("--workers --any-order 4 t f.c", "t"),
    ("--limit --reached=a 4 t f.c", "t"),
];

#[test]
fn the_test_is_found_among_the_words(rt: HostRuntime) -> Result<(), AllocError> {
    let alloc = rt.alloc();
    for (line, wanted) in WORDS {
        let mut words = Vec::new(alloc);
        for word in line.split(' ') {
            words.push(String::from_str(alloc, word)?)?;
        }
        assert!(rt; test_word(words.as_slice()) == Some(wanted), "{line}");
    }
    Ok(())
}

#[test]
fn the_documents_are_found_from_the_program(rt: HostRuntime) -> Result<(), AllocError> {
    for (program, wanted) in [
        ("/a b/crates/creduce/out/creduce", "/a b/docs"),
        ("/top/release/creduce", "/top/docs"),
        ("/usr/local/bin/creduce", "/usr/local/share/creduce/docs"),
        ("/tmp/tried", "docs"),
    ] {
        assert!(rt;
            documents_of(rt.alloc(), program)?.as_str() == wanted,
            "{program}"
        );
    }
    let record = "creduce 1.0\nprogram 0a1b\nprogram-date 2\n";
    assert!(rt; recorded(record, "program") == Some("0a1b") && recorded(record, "kit").is_none());
    Ok(())
}
