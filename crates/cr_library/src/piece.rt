ghost use Rattle.std.specs.Prelude.{◌↔◌, IsTrue};

use cr_rows::Row;

/// A piece of a format: a run of plain bytes, or a conversion. The number is that of the letters `l`
/// before the conversion's specifier, 0 to 2.
#[derive(Debug, Drop)]
pub enum Piece {
    /// Bytes that are printed as they are; a `%%` of the format is one byte of them.
    Bytes(Row<u8>),
    /// `%d`, `%ld`, `%lld`
    Signed(u8),
    /// `%u`, `%lu`, `%llu`
    Unsigned(u8),
    /// `%x`, `%lx`, `%llx`
    Hex(u8),
    /// `%c`
    Byte,
    /// `%s`
    Text,
}

impl Piece {
    ghost use Rattle.cr_library.specs.Argument.{TakesInteger};

    /// Whether this is a conversion of an integer, with at most two letters `l`.
    pub fn takes_integer(&self) -> bool
        ensures { IsTrue result ↔ TakesInteger self.now }
    {
        match self {
            Piece::Signed(letters) | Piece::Unsigned(letters) | Piece::Hex(letters) => *letters
                <= 2,
            Piece::Byte => true,
            Piece::Bytes(_) | Piece::Text => false,
        }
    }
}
