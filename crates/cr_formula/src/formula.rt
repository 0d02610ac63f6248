// Formulas, and the words of a command line that spell them.
ghost use Rattle.std.specs.Prelude.{◌≡◌, ◌++◌, ℕ, List, IfOk, MatchOption, codes};
ghost use Rattle.cr_tokens.specs.Tokens.{Tokenizes};
ghost use Rattle.cr_formula.specs.Forms.{Form, Spells, TextSpells, form_of};

use crate::parser::read_words;
use crate::words::words_of;
use cr_outside::Has;
use cr_tokens::{Tokens, read};
use std::alloc::Global;
use thiserror::Error;

/// What is asked of a file, beside the input that is reduced.
#[derive(Debug, Drop)]
pub enum Formula {
    /// `has("TEXT")`: the file's tokens hold those of a text as an unbroken run.
    Has(Has),
    /// `prints("TEXT")`: its run ends, and these bytes stand in what it prints as an unbroken run.
    Prints(Vec<u8>),
    /// `ends(N)`: its run ends with this status.
    Ends(u8),
    /// `same`: its run ends, and so does the input's, with the same status and the same output.
    Same,
    /// `and(F,F)`
    And(Box<Formula>, Box<Formula>),
    /// `or(F,F)`
    Or(Box<Formula>, Box<Formula>),
    /// `not(F)`
    Not(Box<Formula>),
}

/// Why a word gives no formula.
#[derive(Clone, Copy, Debug, PartialEq, Eq, Drop, Error)]
pub enum FormulaFault {
    #[error("no memory is left")]
    NoMemory,
    #[error("the word is no formula")]
    Form,
}

impl Formula {
    /// Reads a word: `if:` and a formula. Form comes exactly where it spells none.
    pub fn read(alloc: Global, word: &str) -> Result<Formula, FormulaFault>
        ensures found { IfOk result (λ f. Spells word.now (form_of f)) }
        ensures none { result ≡ Err FormulaFault.Form → (f : Form) → Spells word.now f → ⊥ }
    {
        match text_of(word) {
            Some(text) => read_text(alloc, text),
            None => Err(FormulaFault::Form),
        }
    }
}

// What stands behind `if:`.
fn text_of(word: &str) -> Option<&[u8]>
    ensures { MatchOption result ((text : List ℕ) → word.now ≡ codes "if:" ++ text → ⊥) (λ text. word.now ≡ codes "if:" ++ text.now) }
{
    match word.as_bytes().strip_prefix(b"if:") {
        Some(text) => Some(text),
        None => None,
    }
}

fn read_text(alloc: Global, text: &[u8]) -> Result<Formula, FormulaFault>
    ensures found { IfOk result (λ f. TextSpells text.now (form_of f)) }
    ensures none { result ≡ Err FormulaFault.Form → (f : Form) → TextSpells text.now f → ⊥ }
{
    match read(alloc, text) {
        Ok(tokens) => read_tokens(alloc, text, &tokens),
        Err(fault) => {
            if fault.is_want() {
                return Err(FormulaFault::NoMemory);
            }
            Err(FormulaFault::Form)
        }
    }
}

fn read_tokens(alloc: Global, text: &[u8], tokens: &Tokens) -> Result<Formula, FormulaFault>
    requires { Tokenizes text.now tokens.now.list.items }
    ensures found { IfOk result (λ f. TextSpells text.now (form_of f)) }
    ensures none { result ≡ Err FormulaFault.Form → (f : Form) → TextSpells text.now f → ⊥ }
{
    let words = match words_of(alloc, text, tokens.list.as_slice()) {
        Ok(words) => words,
        Err(_) => return Err(FormulaFault::NoMemory),
    };
    let found = read_words(alloc, words.as_slice());
    drop(words);
    found
}
