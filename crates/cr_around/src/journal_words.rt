// What stands beside a journal: what the run that began it was asked for.
use std::alloc::{AllocError, Global};

/// The first line, which says what the text is.
const HEAD: &str = "creduce journal 1";

/// What stands for a checksum that isn't there.
const NONE: &str = "none";

/// What a run that keeps a journal was asked for, and by which program.
#[derive(Debug, Drop, PartialEq, Eq)]
pub struct JournalWords {
    /// The word that is the test.
    pub test: String,
    /// The checksum of the test's file, where it is one that can be read.
    pub test_sum: Option<String>,
    pub any_order: bool,
    /// The label that is to be reached, which is an identifier.
    pub reached: Option<String>,
    /// The checksum of the program.
    pub program: String,
    /// The checksum of the result, from just before it is put in the file's place.
    pub result: Option<String>,
}

/// The text of the words.
pub fn words_text(alloc: Global, words: &JournalWords) -> Result<String, AllocError> {
    let test = escaped(alloc, words.test.as_str())?;
    let sum = shown(&words.test_sum);
    let result = shown(&words.result);
    let any_order = if words.any_order { "yes" } else { "no" };
    let (space, label) = match &words.reached {
        Some(label) => (" ", label.as_str()),
        None => ("", ""),
    };
    format!(in alloc;
        "{HEAD}\ntest {test}\ntest-bytes {sum}\nany-order {any_order}\nreached{space}{label}\nprogram {}\nresult {result}\n",
        words.program
    )
}

fn shown(sum: &Option<String>) -> &str {
    match sum {
        Some(sum) => sum.as_str(),
        None => NONE,
    }
}

/// The words that a text has. None where it is the text of none.
pub fn words_in(alloc: Global, text: &str) -> Result<Option<JournalWords>, AllocError> {
    let words = read(alloc, text)?;
    // What was read is right where it has this very text.
    if words_text(alloc, &words)?.as_str() == text {
        Ok(Some(words))
    } else {
        Ok(None)
    }
}

/// A text on one line, without new-lines.
pub fn escaped(alloc: Global, text: &str) -> Result<String, AllocError> {
    let mut line = String::new(alloc);
    for c in text.chars() {
        match c {
            '\n' => line.push_str("\\n")?,
            '\\' => line.push_str("\\\\")?,
            c => line.push(c)?,
        }
    }
    Ok(line)
}

/// The text that a line is of.
pub fn unescaped(alloc: Global, line: &str) -> Result<String, AllocError> {
    let mut text = String::new(alloc);
    let mut is_escaped = false;
    for c in line.chars() {
        match c {
            '\\' if !is_escaped => is_escaped = true,
            'n' if is_escaped => {
                text.push('\n')?;
                is_escaped = false;
            }
            c => {
                text.push(c)?;
                is_escaped = false;
            }
        }
    }
    Ok(text)
}

// What the lines say. Whether each of them is there, and nothing else, is looked at behind it.
fn read(alloc: Global, text: &str) -> Result<JournalWords, AllocError> {
    let mut words = JournalWords {
        test: String::new(alloc),
        test_sum: None,
        any_order: false,
        reached: None,
        program: String::new(alloc),
        result: None,
    };
    for line in text.split('\n') {
        if let Some(test) = line.strip_prefix("test ") {
            words.test = unescaped(alloc, test)?;
        } else if let Some(sum) = line.strip_prefix("test-bytes ") {
            words.test_sum = sum_in(alloc, sum)?;
        } else if let Some(any_order) = line.strip_prefix("any-order ") {
            words.any_order = any_order == "yes";
        } else if let Some(label) = line.strip_prefix("reached ") {
            words.reached = Some(String::from_str(alloc, label)?);
        } else if let Some(program) = line.strip_prefix("program ") {
            words.program = String::from_str(alloc, program)?;
        } else if let Some(result) = line.strip_prefix("result ") {
            words.result = sum_in(alloc, result)?;
        }
    }
    Ok(words)
}

fn sum_in(alloc: Global, text: &str) -> Result<Option<String>, AllocError> {
    if text == NONE {
        return Ok(None);
    }
    Ok(Some(String::from_str(alloc, text)?))
}
