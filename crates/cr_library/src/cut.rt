ghost use Rattle.std.specs.Prelude.{◌≡◌, ◌≢◌, slice_get, MatchOption, None, Some, Err, IfOk, ◌++◌, ◌∷◌, [], OnOk, ℕ, List, length, ◌≤◌};
ghost use Rattle.cr_library.specs.Conversion.{specified, converted};
ghost use Rattle.cr_library.specs.Format.{ArePiecesOf, LeavesProfile};
ghost use Rattle.cr_library.specs.Reading.{ended, IsReading};

use crate::piece::Piece;
use cr_rows::Row;
use std::alloc::{AllocError, Global};
use std::mem;

/// Why a format has no pieces: it has a conversion outside the profile (N7), or memory is wanting.
#[derive(Clone, Copy, Debug, PartialEq, Eq)]
pub enum FormatEnd {
    Outside,
    NoMemory,
}

impl From<AllocError> for FormatEnd {
    ghost use Rattle.cr_library.specs.declared.cut.FormatEnd.TheVariants.{NoMemory};

    ghost from_gives = { λ _ end. end ≡ NoMemory };

    fn from(_: AllocError) -> FormatEnd {
        FormatEnd::NoMemory
    }
}

/// The conversion whose specifier stands first, after some letters `l`, and what follows it.
fn specify(letters: u8, text: &[u8]) -> Option<(Piece, &[u8])>
    ensures { MatchOption result (specified letters text.now ≡ None) (λ x. specified letters text.now ≡ Some (x.0, x.1.now)) }
{
    let (&specifier, rest) = text.split_first()?;
    let piece = match specifier {
        b'd' => Piece::Signed(letters),
        b'u' => Piece::Unsigned(letters),
        b'x' => Piece::Hex(letters),
        b'c' if letters == 0 => Piece::Byte,
        b's' if letters == 0 => Piece::Text,
        _ => return None,
    };
    Some((piece, rest))
}

/// The conversion whose letters stand first, after a `%`, and what follows it.
fn convert(text: &[u8]) -> Option<(Piece, &[u8])>
    ensures { MatchOption result (converted text.now ≡ None) (λ x. converted text.now ≡ Some (x.0, x.1.now)) }
{
    match text {
        [b'l', b'l', rest @ ..] => specify(2, rest),
        [b'l', rest @ ..] => specify(1, rest),
        _ => specify(0, text),
    }
}

/// What follows a `%` that stands first.
fn after_percent(text: &[u8]) -> Option<&[u8]>
    ensures { MatchOption result (slice_get text.now 0 ≢ Some 37) (λ rest. text.now ≡ 37 ∷ rest.now) }
{
    match text {
        [b'%', rest @ ..] => Some(rest),
        _ => None,
    }
}

/// What is read of a format: whole pieces, and a run of plain bytes that may go on.
#[derive(Drop)]
struct Cut {
    pieces: Vec<Piece>,
    run: Vec<u8>,
}

impl Cut {
    fn push_byte(&mut self, byte: u8) -> Result<(), AllocError>
        ensures pieces { self.new.pieces.items ≡ self.old.pieces.items }
        ensures run { OnOk result (self.new.run.items ≡ self.old.run.items ++ byte ∷ []) }
    {
        self.run.push(byte)?;
        Ok(())
    }

    fn end_run(&mut self, alloc: Global) -> Result<(), AllocError>
        ensures pieces { OnOk result (self.new.pieces.items ≡ ended self.old.pieces.items self.old.run.items) }
        ensures run { OnOk result (self.new.run.items ≡ []) }
    {
        if !self.run.is_empty() {
            let run = mem::replace(&mut self.run, Vec::new(alloc));
            self.pieces.push(Piece::Bytes(Row::from_vec(run)))?;
        }
        Ok(())
    }

    fn push_conversion(&mut self, alloc: Global, piece: Piece) -> Result<(), AllocError>
        ensures pieces { OnOk result (self.new.pieces.items ≡ ended self.old.pieces.items self.old.run.items ++ piece ∷ []) }
        ensures run { OnOk result (self.new.run.items ≡ []) }
    {
        self.end_run(alloc)?;
        self.pieces.push(piece)?;
        Ok(())
    }

    /// Reads a byte of a run, or a conversion, and answers what follows it.
    fn step<'a>(&mut self, alloc: Global, byte: u8, after: &'a [u8]) -> Result<&'a [u8], FormatEnd>
        ensures shorter { IfOk result (λ rest. length rest.now ≤ length after.now) }
        ensures read { IfOk result (λ rest. (format : List ℕ)
            → IsReading format self.old.pieces.items self.old.run.items (byte ∷ after.now)
            → IsReading format self.new.pieces.items self.new.run.items rest.now) }
        ensures outside { result ≡ Err FormatEnd.Outside → (format : List ℕ)
            → IsReading format self.old.pieces.items self.old.run.items (byte ∷ after.now) → LeavesProfile format }
    {
        if byte != b'%' {
            self.push_byte(byte)?;
            return Ok(after);
        }
        if let Some(rest) = after_percent(after) {
            self.push_byte(b'%')?;
            return Ok(rest);
        }
        let Some((piece, rest)) = convert(after) else {
            return Err(FormatEnd::Outside);
        };
        self.push_conversion(alloc, piece)?;
        Ok(rest)
    }
}

/// The pieces of a format, with joined runs of plain bytes. Outside comes exactly where the format has
/// a conversion outside the profile, a `%` at its end too.
pub fn pieces(alloc: Global, format: &[u8]) -> Result<Vec<Piece>, FormatEnd>
    ensures spelled { IfOk result (λ pieces. ArePiecesOf format.now pieces.items) }
    ensures outside { result ≡ Err FormatEnd.Outside → LeavesProfile format.now }
{
    let mut cut = Cut {
        pieces: Vec::new(alloc),
        run: Vec::new(alloc),
    };
    let mut rest = format;
    while let Some((&byte, after)) = rest.split_first() {
        rest = cut.step(alloc, byte, after)?;
    }
    cut.end_run(alloc)?;
    Ok(cut.pieces)
}
