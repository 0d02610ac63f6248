// Why a word spells no formula, by its look.
use std::alloc::{AllocError, Global};

/// Why the text behind `if:` spells no formula, by its look.
pub fn formula_fault(alloc: Global, formula: &str) -> Result<String, AllocError> {
    let look = look_of(formula);
    if look.unquoted {
        return format!(in alloc;
            "the texts of has and prints stand in quotation marks, which a shell takes away: put the whole word in '..'"
        );
    }
    if let Some(name) = look.stranger {
        return format!(in alloc;
            "\"{name}\" is none of has(\"TEXT\"), prints(\"TEXT\"), ends(N), same, and(F,F), or(F,F) and not(F)"
        );
    }
    if look.opened != look.closed {
        return format!(in alloc; "in \"if:{formula}\" the brackets don't pair");
    }
    format!(in alloc;
        "\"if:{formula}\" is no formula: has(\"TEXT\") with whole tokens of C, prints(\"TEXT\"), ends(N) with a plain number from 0 to 255, same, and(F,F), or(F,F) and not(F) are, at most 64 deep"
    )
}

// What is seen of a formula outside its texts.
#[derive(Drop)]
struct Look<'a> {
    unquoted: bool,
    stranger: Option<&'a str>,
    opened: usize,
    closed: usize,
}

fn look_of(formula: &str) -> Look<'_> {
    let mut look = Look {
        unquoted: false,
        stranger: None,
        opened: 0,
        closed: 0,
    };
    let mut within = false;
    // Every second part of what stands between quotation marks is a text.
    for part in formula.split('"') {
        if !within {
            look_at(&mut look, part);
        }
        within = !within;
    }
    look
}

fn look_at<'a>(look: &mut Look<'a>, part: &'a str) {
    for byte in part.bytes() {
        if byte == b'(' {
            look.opened = look.opened.saturating_add(1);
        } else if byte == b')' {
            look.closed = look.closed.saturating_add(1);
        }
    }
    let mut asks_text = false;
    for word in part.split(|c: char| !(c.is_ascii_alphanumeric() || c == '_')) {
        if word.is_empty() {
            continue;
        }
        look.unquoted = look.unquoted || asks_text;
        asks_text = matches!(word, "has" | "prints");
        if !is_known(word) && look.stranger.is_none() {
            look.stranger = Some(word);
        }
    }
}

// The words of formulas, and numbers.
fn is_known(word: &str) -> bool {
    matches!(
        word,
        "has" | "prints" | "ends" | "same" | "and" | "or" | "not"
    ) || word.bytes().all(|b| b.is_ascii_digit())
}
