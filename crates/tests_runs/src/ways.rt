// Ways to ask for one run.
use std::alloc::{AllocError, Global};

/// Flags behind a run's words, and whether a formula asks for the text that `has:` has.
#[derive(Clone, Copy)]
pub(crate) struct Way {
    pub(crate) flags: &'static str,
    pub(crate) by_formula: bool,
}

/// The words as they are.
pub(crate) const AS_TOLD: Way = Way {
    flags: "",
    by_formula: false,
};

/// The words with these flags behind them.
pub(crate) fn with(flags: &'static str) -> Way {
    Way {
        flags,
        by_formula: false,
    }
}

fn push_word(
    alloc: Global,
    words: &mut Vec<String>,
    way: Way,
    word: &str,
) -> Result<(), AllocError> {
    let word = match word.strip_prefix("has:") {
        Some(text) if way.by_formula => format!(in alloc; "if:has(\"{text}\")")?,
        _ => String::from_str(alloc, word)?,
    };
    words.push(word)?;
    Ok(())
}

/// The words of a text, asked for in this way.
pub(crate) fn words_by(alloc: Global, way: Way, text: &str) -> Result<Vec<String>, AllocError> {
    let mut words = Vec::new(alloc);
    for word in text.split_whitespace() {
        push_word(alloc, &mut words, way, word)?;
    }
    for flag in way.flags.split_whitespace() {
        words.push(String::from_str(alloc, flag)?)?;
    }
    Ok(words)
}
