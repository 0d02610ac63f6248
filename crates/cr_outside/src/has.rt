// The question whether a file contains a text.
ghost use Rattle.std.specs.Prelude.{◌≡◌, ◌≢◌, ◌⊎◌, false, List, IfOk, MatchOption};
ghost use Rattle.cr_tokens.specs.declared.token.Token.{Token};
ghost use Rattle.cr_tokens.specs.Tokens.{Tokenizes};
ghost use Rattle.cr_outside.specs.HasText.{HasText, IsText, TellsText};

use crate::{Answer, Judge, NoMemory, Question, TestFault};
use cr_tokens::{Tokens, contains, read};
use std::alloc::{AllocError, Global};
use std::marker::Model;

/// A text of C with its tokens, of which there is at least one. Clauses see the text.
#[derive(Debug, Drop)]
pub struct Has {
    text: Vec<u8>,
    wanted: Tokens,
}

impl Model for Has {
    ghost use Rattle.std.specs.Prelude.{List, ℕ, ◌≢◌, []};
    ghost use Rattle.cr_tokens.specs.Tokens.{Tokenizes};

    ghost Value = { List ℕ };

    ghost view = { λ h. h.text.items };

    ghost invariant = { λ h. Tokenizes h.text.items h.wanted.list.items × (h.wanted.list.items ≢ []) };
}

impl Has {
    /// The question about a text. A text that doesn't tokenise, or has no token, is `BadText`.
    pub fn new(alloc: Global, text: &[u8]) -> Result<Has, TestFault>
        ensures text { IfOk result (λ has. (has ≡ text.now) × IsText text.now) }
        ensures bad { result ≡ Err TestFault.BadText → IsText text.now → ⊥ }
        ensures not_empty { result ≢ Err TestFault.Empty }
    {
        match tokens_of(alloc, text) {
            Ok(Some(wanted)) => with_tokens(alloc, text, wanted),
            Ok(None) => Err(TestFault::BadText),
            Err(_) => Err(TestFault::NoMemory),
        }
    }

    fn ask_tokens(&self, file: &[u8], tokens: &Tokens) -> Answer
        requires { Tokenizes file.now tokens.now.list.items }
        ensures yes { result ≡ Answer.Yes → HasText self.now file.now }
        ensures no { result ≡ Answer.No → HasText self.now file.now → ⊥ }
        ensures told { (result ≡ Answer.Yes) ⊎ (result ≡ Answer.No) }
    {
        if contains(file, tokens, &self.text, &self.wanted) {
            Answer::Yes
        } else {
            Answer::No
        }
    }
}

// The tokens of a file, where it has some.
fn tokens_of(alloc: Global, file: &[u8]) -> Result<Option<Tokens>, NoMemory>
    ensures { IfOk result (λ found. MatchOption found ((list : List Token) → Tokenizes file.now list → ⊥) (λ tokens. Tokenizes file.now tokens.list.items)) }
{
    match read(alloc, file) {
        Ok(tokens) => Ok(Some(tokens)),
        Err(fault) => {
            if fault.is_want() {
                return Err(AllocError);
            }
            Ok(None)
        }
    }
}

fn with_tokens(alloc: Global, text: &[u8], wanted: Tokens) -> Result<Has, TestFault>
    requires { Tokenizes text.now wanted.list.items }
    ensures text { IfOk result (λ has. (has ≡ text.now) × IsText text.now) }
    ensures bad { result ≡ Err TestFault.BadText → IsText text.now → ⊥ }
    ensures not_empty { result ≢ Err TestFault.Empty }
{
    if wanted.list.is_empty() {
        return Err(TestFault::BadText);
    }
    match text.to_vec(alloc) {
        Ok(text) => Ok(Has { text, wanted }),
        Err(_) => Err(TestFault::NoMemory),
    }
}

impl Question for Has {
    ghost tells = { λ text says name file answer. TellsText text file answer };

    ghost asks = { λ _. false };

    ghost one_answer = { λ text says name file has lacks. lacks has };

    fn uses_judge(&self) -> bool {
        false
    }

    fn ask<J: Judge>(&self, alloc: Global, _judge: &mut J, _name: &str, file: &[u8]) -> Answer {
        match tokens_of(alloc, file) {
            Ok(Some(tokens)) => self.ask_tokens(file, &tokens),
            Ok(None) => Answer::No,
            Err(_) => Answer::NoMemory,
        }
    }
}
