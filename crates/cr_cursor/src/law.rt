// The law that a file must obey.
ghost use Rattle.std.specs.Prelude.{◌≡◌, ◌≢◌, ◌≤◌, ◌⊎◌, ◌==◌, ℕ, List, false, true, length, count_by};
ghost use Rattle.cr_tokens.specs.Faults.{FirstTokenFault};
ghost use Rattle.cr_tokens.specs.Tokens.{Tokenizes};
ghost use Rattle.cr_tokens.specs.Places.{line_of as line_of_place};
ghost use Rattle.cr_cursor.specs.TokenLaw.{RulesOn};
ghost use Rattle.cr_cursor.specs.declared.law.Reason.{Reason};

use crate::stop::Stop;
use cr_tokens::{TokenFault, Tokens, read};
use std::alloc::Global;

/// What a law rules on a file.
#[derive(Clone, Copy, Debug, PartialEq, Eq)]
pub enum Ruling {
    Lawful,
    Unlawful(Reason),
    /// The stop asked to give up.
    Stopped,
    NoMemory,
}

/// Why a file is unlawful: the number of the fault or case, and the line that it is on, from 1.
#[derive(Clone, Copy, Debug, PartialEq, Eq)]
pub enum Reason {
    Token(u8, u32),
    Parse(u8, u32),
    Name(u8, u32),
    Typing(u8, u32),
    Undefined(u8, u32),
    Left(u8, u32),
}

/// Says which files are lawful.
pub trait Law {
    ghost lawful: { Self → List ℕ → Type 0 };

    /// Why a file is unlawful.
    ghost reasons: { Self → List ℕ → Reason → Type 0 };

    /// Rules on a file, and gives up where the stop says so.
    fn rule<S: Stop>(&self, alloc: Global, file: &[u8], stop: &mut S) -> Ruling
        requires { S.raised stop.old ≡ false }
        ensures lawful { result ≡ Ruling.Lawful → lawful self.now file.now }
        ensures unlawful { (reason : Reason) → result ≡ Ruling.Unlawful reason → lawful self.now file.now → ⊥ }
        ensures reason { (reason : Reason) → result ≡ Ruling.Unlawful reason → reasons self.now file.now reason }
        ensures stopped { result ≡ Ruling.Stopped → S.raised stop.new ≡ true }
        ensures held { S.held stop.new ≡ S.held stop.old };

    /// Rules as `rule` does on a file whose tokens were read before.
    fn rule_on_tokens<S: Stop>(
        &self,
        alloc: Global,
        file: &[u8],
        tokens: &Tokens,
        stop: &mut S,
    ) -> Ruling
        requires unstopped { S.raised stop.old ≡ false }
        requires tokens { Tokenizes file.now tokens.now.list.items }
        ensures lawful { result ≡ Ruling.Lawful → lawful self.now file.now }
        ensures unlawful { (reason : Reason) → result ≡ Ruling.Unlawful reason → lawful self.now file.now → ⊥ }
        ensures reason { (reason : Reason) → result ≡ Ruling.Unlawful reason → reasons self.now file.now reason }
        ensures stopped { result ≡ Ruling.Stopped → S.raised stop.new ≡ true }
        ensures held { S.held stop.new ≡ S.held stop.old };
}

/// The law that a file tokenises.
#[derive(Clone, Copy, Debug, PartialEq, Eq, Default)]
pub struct TokenLaw;

impl Law for TokenLaw {
    ghost use Rattle.cr_cursor.specs.TokenLaw.{IsTokenReason, IsTokenized};

    ghost lawful = { λ _ file. IsTokenized file };

    ghost reasons = { λ _ file reason. IsTokenReason file reason };

    fn rule<S: Stop>(&self, alloc: Global, file: &[u8], _stop: &mut S) -> Ruling
        ensures lawful { result ≡ Ruling.Lawful → IsTokenized file.now }
        ensures unlawful { (reason : Reason) → result ≡ Ruling.Unlawful reason → IsTokenized file.now → ⊥ }
        // It is the number and the line of the first fault.
        ensures reason { (reason : Reason) → result ≡ Ruling.Unlawful reason → IsTokenReason file.now reason }
        ensures stopped { result ≡ Ruling.Stopped → S.raised _stop.new ≡ true }
        ensures held { S.held _stop.new ≡ S.held _stop.old }
        ensures unstopped { result ≢ Ruling.Stopped }
    {
        let fault = match read(alloc, file) {
            Ok(_) => return Ruling::Lawful,
            Err(fault) => fault,
        };
        token_ruling(file, fault)
    }

    fn rule_on_tokens<S: Stop>(
        &self,
        _alloc: Global,
        _file: &[u8],
        _tokens: &Tokens,
        _stop: &mut S,
    ) -> Ruling {
        Ruling::Lawful
    }
}

/// The ruling on a file whose tokens have a fault: `Token` with its number and line, or want of memory.
pub fn token_ruling(file: &[u8], fault: TokenFault) -> Ruling
    requires { (fault ≡ TokenFault.NoMemory) ⊎ FirstTokenFault file.now fault }
    ensures { RulesOn file.now fault result }
{
    match fault {
        TokenFault::NoMemory => Ruling::NoMemory,
        TokenFault::TooLong => Ruling::Unlawful(Reason::Token(1, 1)),
        TokenFault::BadByte(place) => Ruling::Unlawful(Reason::Token(2, line_of(file, place))),
        TokenFault::OpenComment(place) => Ruling::Unlawful(Reason::Token(3, line_of(file, place))),
        TokenFault::OpenLiteral(place) => Ruling::Unlawful(Reason::Token(4, line_of(file, place))),
        TokenFault::TooMany(place) => Ruling::Unlawful(Reason::Token(5, line_of(file, place))),
    }
}

/// The line that a place of a file stands on, from 1.
pub fn line_of(file: &[u8], place: u32) -> u32
    requires { length file.now ≤ 1048576 }
    ensures { result ≡ line_of_place file.now place }
{
    let before = &file[..file.len().min(place as usize)];
    1 + count_lines(before)
}

fn count_lines(text: &[u8]) -> u32
    requires { length text.now ≤ 1048576 }
    ensures { result ≡ count_by (λ b. b == 10) text.now }
{
    text.iter().filter(|b| **b == b'\n').count() as u32
}
