// Tables of runs and reductions. A table is a text of blocks with an empty line between them, and a line of a block is a word with
// what is told under it. What a block leaves open is told by the table's first block.
use cr_outside::Answer;
use cr_reduce::Accepted;
use std::alloc::{AllocError, Global};

/// A block of a table.
#[derive(Clone, Copy)]
pub(crate) struct Case {
    own: &'static str,
    first: &'static str,
}

/// So many calls about one file, and what is answered.
#[derive(Drop)]
pub(crate) struct Calls {
    pub(crate) times: u64,
    pub(crate) answer: Answer,
    pub(crate) file: Vec<u8>,
}

// What a block tells under a word.
fn told_in(block: &'static str, word: &str) -> Option<&'static str> {
    for line in block.lines() {
        match line.split_once(' ') {
            Some((first, rest)) if first == word => return Some(rest),
            _ => {}
        }
    }
    None
}

impl Case {
    /// The first block of a table.
    pub(crate) fn first_of(table: &'static str) -> Case {
        let first = table.split("\n\n").next().unwrap_or("");
        Case { own: first, first }
    }

    /// This block of a table.
    pub(crate) fn of(table: &'static str, own: &'static str) -> Case {
        let first = Case::first_of(table).first;
        Case { own, first }
    }

    /// What is told under a word, or nothing.
    pub(crate) fn told(&self, word: &str) -> &'static str {
        match told_in(self.own, word) {
            Some(told) => told,
            None => told_in(self.first, word).unwrap_or(""),
        }
    }

    pub(crate) fn number(&self, word: &str) -> u64 {
        self.told(word).parse().unwrap_or(99)
    }

    pub(crate) fn numbers(&self, alloc: Global, word: &str) -> Result<Vec<u64>, AllocError> {
        let mut numbers = Vec::new(alloc);
        for number in self.told(word).split_whitespace() {
            numbers.push(number.parse().unwrap_or(99))?;
        }
        Ok(numbers)
    }

    /// Whether these bytes are told under a word; `same` are those of the file before the run.
    pub(crate) fn tells(
        &self,
        alloc: Global,
        word: &str,
        found: &[u8],
    ) -> Result<bool, AllocError> {
        let wanted = match self.told(word) {
            "same" => self.before(alloc)?,
            told => bytes_of(alloc, told)?,
        };
        Ok(wanted.as_slice() == found)
    }

    /// The file before the run, with what is repeated many times at its end.
    pub(crate) fn before(&self, alloc: Global) -> Result<Vec<u8>, AllocError> {
        let mut bytes = bytes_of(alloc, self.told("before"))?;
        for many in self.told("many").split(", ") {
            push_many(&mut bytes, many)?;
        }
        Ok(bytes)
    }

    /// The calls of this block, each line of them with their number, the answer and the file.
    pub(crate) fn calls(&self, alloc: Global) -> Result<Vec<Calls>, AllocError> {
        let mut all = Vec::new(alloc);
        for line in self.own.lines() {
            if let Some(told) = line.strip_prefix("call ") {
                push_calls(alloc, &mut all, told)?;
            }
        }
        Ok(all)
    }
}

fn push_calls(alloc: Global, all: &mut Vec<Calls>, told: &str) -> Result<(), AllocError> {
    let mut cells = told.splitn(3, ' ');
    let times = cells.next().unwrap_or("").parse().unwrap_or(0);
    let answer = answer_of(cells.next().unwrap_or(""));
    let file = bytes_of(alloc, cells.next().unwrap_or(""))?;
    all.push(Calls {
        times,
        answer,
        file,
    })?;
    Ok(())
}

fn answer_of(word: &str) -> Answer {
    if word == "yes" {
        Answer::Yes
    } else if word == "no" {
        Answer::No
    } else if word == "starved" {
        Answer::NoMemory
    } else {
        Answer::Failed
    }
}

// Pushes a text so many times as the number before it.
fn push_many(bytes: &mut Vec<u8>, many: &str) -> Result<(), AllocError> {
    let (times, text) = many.split_once(' ').unwrap_or(("0", ""));
    for _ in 0..times.parse().unwrap_or(0u64) {
        push_text(bytes, text)?;
    }
    Ok(())
}

fn push_text(bytes: &mut Vec<u8>, text: &str) -> Result<(), AllocError> {
    for c in text.chars() {
        if c != '∅' {
            bytes.push(byte_of(c))?;
        }
    }
    Ok(())
}

/// The bytes of a text, in which the picture of a control character or a blank stands for it, and `∅` for nothing.
pub(crate) fn bytes_of(alloc: Global, text: &str) -> Result<Vec<u8>, AllocError> {
    let mut bytes = Vec::new(alloc);
    push_text(&mut bytes, text)?;
    Ok(bytes)
}

/// One more file, if it is told what it has.
pub(crate) fn push_told(
    alloc: Global,
    pairs: &mut Vec<(String, Vec<u8>)>,
    name: &str,
    told: &str,
) -> Result<(), AllocError> {
    if told != "none" {
        let name = String::from_str(alloc, name)?;
        pairs.push((name, bytes_of(alloc, told)?))?;
    }
    Ok(())
}

fn byte_of(c: char) -> u8 {
    let code = c as u32;
    match c {
        '␀'..='␠' => (code - 0x2400) as u8,
        '\0'..='\x7f' => code as u8,
        _ => b'?',
    }
}

/// Tells acceptances: pass, level, index, size and turn of each.
pub(crate) fn tell(told: &mut String, accepted: &[Accepted]) -> Result<(), AllocError> {
    for one in accepted {
        let at = one.at;
        write!(
            told,
            "{} {} {} {} {}, ",
            at.pass, at.level, at.index, one.size, one.turn
        )?;
    }
    Ok(())
}
