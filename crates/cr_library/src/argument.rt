ghost use Rattle.std.specs.Prelude.{◌≡◌, ◌≢◌, ◌<◌, ◌^◌, ◌∷◌, [], ◌++◌, false, Err, IsTrue, OnOk, OnErr, IfOk, unsigned_abs};
ghost use Rattle.std.specs.String.{string_bytes};
ghost use Rattle.cr_ints.specs.IntKind.{Represents};
ghost use Rattle.cr_library.specs.declared.piece.Piece.TheVariants.{Byte};
ghost use Rattle.cr_library.specs.Argument.{TakesInteger, signed_kind, unsigned_kind, wanted_of, agrees, shown};

use crate::piece::Piece;
use cr_ints::{IntKind, convert};
use std::alloc::{AllocError, Global};

/// Why an argument isn't printed: its type disagrees with the conversion (U16), or memory is wanting.
#[derive(Clone, Copy, Debug, PartialEq, Eq)]
pub enum ShowEnd {
    Disagrees,
    NoMemory,
}

impl From<AllocError> for ShowEnd {
    ghost use Rattle.cr_library.specs.declared.argument.ShowEnd.TheVariants.{NoMemory};

    ghost from_gives = { λ _ end. end ≡ NoMemory };

    fn from(_: AllocError) -> ShowEnd {
        ShowEnd::NoMemory
    }
}

/// The signed type that this number of letters `l` names.
fn signed(letters: u8) -> IntKind
    ensures { result ≡ signed_kind letters }
{
    match letters {
        0 => IntKind::Int,
        1 => IntKind::Long,
        _ => IntKind::LLong,
    }
}

/// The unsigned type that this number of letters `l` names.
fn unsigned(letters: u8) -> IntKind
    ensures { result ≡ unsigned_kind letters }
{
    match letters {
        0 => IntKind::UInt,
        1 => IntKind::ULong,
        _ => IntKind::ULLong,
    }
}

fn wanted(want: &Piece) -> IntKind
    requires { TakesInteger want.now }
    ensures { result ≡ wanted_of want.now }
{
    match want {
        Piece::Signed(letters) => signed(*letters),
        Piece::Unsigned(letters) | Piece::Hex(letters) => unsigned(*letters),
        Piece::Byte | Piece::Bytes(_) | Piece::Text => IntKind::Int,
    }
}

fn does_agree(wanted: IntKind, kind: IntKind, value: i128) -> bool
    ensures test { result ≡ agrees wanted kind value }
    ensures in_wanted { IsTrue result → Represents wanted value }
{
    kind.rank() == wanted.rank() && wanted.can_represent(value)
}

/// The text of a number.
fn number(alloc: Global, want: &Piece, value: i128) -> Result<String, AllocError>
    requires takes { TakesInteger want.now }
    requires number { want.now ≢ Byte }
    requires agrees { Represents (wanted_of want.now) value }
    ensures { IfOk result (λ text. string_bytes text ≡ shown want.now value) }
{
    let size = value.unsigned_abs();
    match want {
        Piece::Unsigned(_) => format!(in alloc; "{size}"),
        Piece::Hex(_) => {
            let bits = size as u64;
            format!(in alloc; "{bits:x}")
        }
        _ => format!(in alloc; "{value}"),
    }
}

/// The bytes that a conversion prints of a value that agrees with it.
fn printed(alloc: Global, want: &Piece, value: i128) -> Result<Vec<u8>, AllocError>
    requires takes { TakesInteger want.now }
    requires agrees { Represents (wanted_of want.now) value }
    ensures { IfOk result (λ text. text.items ≡ shown want.now value) }
{
    match want {
        Piece::Byte => Ok(vec![in alloc; convert(value, IntKind::UChar) as u8]?),
        _ => Ok(number(alloc, want, value)?.into_bytes()),
    }
}

/// Appends what a conversion prints of a value of a kind. Disagrees comes exactly where the argument
/// has another type than the conversion takes (C11 7.21.6.1p9).
pub fn show(want: &Piece, kind: IntKind, value: i128, out: &mut Vec<u8>) -> Result<(), ShowEnd>
    requires takes { TakesInteger want.now }
    requires representable { Represents kind value }
    ensures agrees { OnOk result (IsTrue (agrees (wanted_of want.now) kind value)) }
    ensures disagrees { result ≡ Err ShowEnd.Disagrees → agrees (wanted_of want.now) kind value ≡ false }
    ensures shown { OnOk result (out.new.items ≡ out.old.items ++ shown want.now value) }
    ensures unchanged { OnErr result (out.new.items ≡ out.old.items) }
{
    if !does_agree(wanted(want), kind, value) {
        return Err(ShowEnd::Disagrees);
    }
    let text = printed(*out.allocator(), want, value)?;
    out.extend_from_slice(&text)?;
    Ok(())
}
