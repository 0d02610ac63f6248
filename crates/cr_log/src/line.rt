// One line of a log.
ghost use Rattle.std.specs.Prelude.{◌≡◌, ◌∷◌, ◌++◌, ℕ, List, MatchOption, codes};
ghost use Rattle.cr_reduce.specs.declared.end.Accepted.{Accepted};
ghost use Rattle.cr_log.specs.Forms.{IsAcceptedLine, IsInForm, IsLastLine, StartsInForm};
ghost use Rattle.cr_log.specs.Reading.{IsLetter, Says, StartsWithLine, StartsWithPass, StartsWithWhy};

use crate::number::{cut, pair, take_number};
use cr_cursor::Cursor;
use cr_reduce::Accepted;

/// What a last line says.
#[derive(Clone, Copy)]
pub struct Last {
    pub why: u8,
    pub size: u64,
    pub turns: u64,
}

/// What a line says.
#[derive(Clone, Copy)]
pub enum Line {
    Accepted(Accepted),
    Last(Last),
}

/// Takes a line in the form and its LF off a text.
pub fn take_line(text: &[u8]) -> Option<(Line, &[u8])>
    ensures { MatchOption result (StartsInForm text.now → ⊥) (λ taken. StartsWithLine text.now taken.0 taken.1.now) }
{
    let (front, rest) = cut(text, b'\n')?;
    let line = read_line(front)?;
    Some((line, rest))
}

// Reads a line without its LF.
fn read_line(text: &[u8]) -> Option<Line>
    ensures { MatchOption result (IsInForm text.now → ⊥) (Says text.now) }
{
    if let Some(one) = read_accepted(text) {
        return Some(Line::Accepted(one));
    }
    let last = read_last(text)?;
    Some(Line::Last(last))
}

// LETTER LEVEL INDEX SIZE TURN
fn read_accepted(line: &[u8]) -> Option<Accepted>
    ensures { MatchOption result ((one : Accepted) → IsAcceptedLine line.now one → ⊥) (IsAcceptedLine line.now) }
{
    let (pass, rest) = take_pass(line)?;
    let (level, rest) = take_number(rest)?;
    if level > 255 {
        return None;
    }
    let (index, rest) = take_number(rest)?;
    let (size, turn) = pair(rest)?;
    Some(Accepted {
        at: Cursor {
            pass,
            level: level as u8,
            index,
        },
        size,
        turn,
    })
}

// Takes a pass's letter and the space after it off a line.
fn take_pass(line: &[u8]) -> Option<(u8, &[u8])>
    ensures { MatchOption result ((pass : ℕ) (rest : List ℕ) → StartsWithPass line.now pass rest → ⊥) (λ taken. StartsWithPass line.now taken.0 taken.1.now) }
{
    let [letter, b' ', rest @ ..] = line else {
        return None;
    };
    let pass = pass_of(*letter)?;
    Some((pass, rest))
}

// The pass of a letter.
fn pass_of(letter: u8) -> Option<u8>
    ensures { MatchOption result ((pass : ℕ) → IsLetter letter pass → ⊥) (IsLetter letter) }
{
    match letter {
        b'l' => Some(0),
        b't' => Some(1),
        b'b' => Some(2),
        b'u' => Some(3),
        b's' => Some(4),
        b'c' => Some(5),
        b'i' => Some(6),
        b'p' => Some(7),
        b'r' => Some(8),
        b'f' => Some(9),
        b'v' => Some(10),
        b'o' => Some(11),
        _ => None,
    }
}

// end WHY SIZE TURNS
fn read_last(line: &[u8]) -> Option<Last>
    ensures { MatchOption result ((why size turns : ℕ) → IsLastLine line.now why size turns → ⊥) (λ last. IsLastLine line.now last.why last.size last.turns) }
{
    let (why, rest) = take_why(line)?;
    let (size, turns) = pair(rest)?;
    Some(Last { why, size, turns })
}

// Takes `end WHY` and the space after it off a line.
fn take_why(line: &[u8]) -> Option<(u8, &[u8])>
    ensures { MatchOption result ((why : ℕ) (rest : List ℕ) → StartsWithWhy line.now why rest → ⊥) (λ taken. StartsWithWhy line.now taken.0 taken.1.now) }
{
    let rest = take_end(line)?;
    match rest {
        [b'f', b'i', b'x', b'e', b'd', b' ', rest @ ..] => Some((0, rest)),
        [b'l', b'i', b'm', b'i', b't', b' ', rest @ ..] => Some((1, rest)),
        [b'f', b'a', b'u', b'l', b't', b' ', rest @ ..] => Some((2, rest)),
        _ => None,
    }
}

// Takes `end` and the space after it off a line.
fn take_end(line: &[u8]) -> Option<&[u8]>
    ensures { MatchOption result ((rest : List ℕ) → line.now ≡ codes "end" ++ 32 ∷ rest → ⊥) (λ rest. line.now ≡ codes "end" ++ 32 ∷ rest.now) }
{
    match line {
        [b'e', b'n', b'd', b' ', rest @ ..] => Some(rest),
        _ => None,
    }
}
