use crate::rows::{cut, expect, expect_text, expect_value, kind, number, pair, rows, triple};
use cr_ints::IntKind;
use cr_library::{FormatEnd, Piece, ShowEnd, pieces, show};
use std::alloc::{AllocError, Global};
use std::process::Abort;
use std::test::Fail;

// Formats and their pieces.
const PIECES: &str = "
¦[]
%d%ld%lld¦[Signed(0), Signed(1), Signed(2)]
%u%lu%llu¦[Unsigned(0), Unsigned(1), Unsigned(2)]
%x%lx%llx¦[Hex(0), Hex(1), Hex(2)]
%c%s¦[Byte, Text]
%%¦[Bytes(Row { items: [37] })]
a%%b%%%dl¦[Bytes(Row { items: [97, 37, 98, 37] }), Signed(0), Bytes(Row { items: [108] })]
";

// Formats that leave the profile.
const OUTSIDE: &str = "
%
%l
%ll
%5d
%-d
% d
%.3d
%lc
%ls
%hd
%llld
%i
%D
%X
%p
%n
%d%
a%%%
%%%q
%l%
";

// A format of one conversion, an argument, and what is printed behind `=`, or that the two disagree.
const ARGUMENTS: &str = "
%d¦Int 0¦=0
%d¦Int -2147483648¦=-2147483648
%d¦UInt 7¦=7
%d¦UInt 2147483648¦Disagrees
%d¦Long 7¦Disagrees
%ld¦Long -9223372036854775808¦=-9223372036854775808
%ld¦Int 7¦Disagrees
%ld¦LLong 7¦Disagrees
%lld¦LLong -9223372036854775808¦=-9223372036854775808
%u¦Int 7¦=7
%u¦Int -1¦Disagrees
%u¦UInt 4294967295¦=4294967295
%llu¦ULLong 18446744073709551615¦=18446744073709551615
%x¦Int 255¦=ff
%x¦UInt 0¦=0
%lx¦Long -1¦Disagrees
%llx¦ULLong 18446744073709551615¦=ffffffffffffffff
%c¦Int 65¦=A
%c¦Int 321¦=A
%c¦Int -191¦=A
%c¦Char 65¦Disagrees
";

fn expect_pieces(
    rt: &impl Abort,
    alloc: Global,
    format: &str,
    wanted: &str,
) -> Result<(), AllocError> {
    let found = match pieces(alloc, format.as_bytes()) {
        Ok(pieces) => format!(in alloc; "{pieces:?}"),
        Err(end) => format!(in alloc; "{end:?}"),
    };
    expect_text(rt, found, wanted, format)
}

#[test]
fn formats_have_these_pieces(rt: HostRuntime) -> Result<(), AllocError> {
    for row in rows(PIECES) {
        let (format, wanted) = pair(row);
        expect_pieces(&rt, rt.alloc(), format, wanted)?;
    }
    Ok(())
}

#[test]
fn formats_leave_the_profile(rt: HostRuntime) -> Result<(), AllocError> {
    for format in rows(OUTSIDE) {
        expect_pieces(&rt, rt.alloc(), format, "Outside")?;
    }
    Ok(())
}

// Appends what the one conversion of a format prints.
fn printed(
    rt: &impl Abort,
    alloc: Global,
    format: &str,
    kind: IntKind,
    value: i128,
    out: &mut Vec<u8>,
) -> Result<Option<ShowEnd>, FormatEnd> {
    let wanted = pieces(alloc, format.as_bytes())?;
    assert!(rt;
        wanted.len() == 1 && wanted[0].takes_integer(),
        "another piece"
    );
    expect_value(rt, kind, value);
    Ok(show(&wanted[0], kind, value, out).err())
}

fn expect_bytes(rt: &impl Abort, found: &[u8], wanted: &[u8], row: &str) {
    assert!(rt; found == wanted, "{row}: {found:?} and not {wanted:?}");
}

fn expect_shown(rt: &impl Abort, end: Option<ShowEnd>, found: &[u8], wanted: &str, row: &str) {
    match end {
        None => expect_bytes(rt, found, wanted.as_bytes(), row),
        Some(end) => {
            expect(rt, word_of(end), wanted, row);
            expect_bytes(rt, found, b"=", row);
        }
    }
}

fn expect_argument(rt: &impl Abort, alloc: Global, row: &str) -> Result<(), Fail> {
    let (format, argument, wanted) = triple(row);
    let (name, value) = cut(argument);
    let (kind, value) = (kind(name)?, number(value)?);
    let mut out = vec![in alloc; b'=']?;
    let end = printed(rt, alloc, format, kind, value, &mut out)?;
    expect_shown(rt, end, &out, wanted, row);
    Ok(())
}

#[test]
fn arguments_are_shown(rt: HostRuntime) -> Result<(), Fail> {
    for row in rows(ARGUMENTS) {
        expect_argument(&rt, rt.alloc(), row)?;
    }
    Ok(())
}

fn word_of(end: ShowEnd) -> &'static str {
    match end {
        ShowEnd::Disagrees => "Disagrees",
        ShowEnd::NoMemory => "NoMemory",
    }
}

fn put_number(
    rt: &impl Abort,
    alloc: Global,
    format: &str,
    value: i128,
    out: &mut Vec<u8>,
) -> Result<(), FormatEnd> {
    let end = printed(rt, alloc, format, IntKind::Int, value, out)?;
    assert!(rt; end.is_none(), "something where nothing should be");
    Ok(())
}

fn put_bytes(alloc: Global, format: &[u8], out: &mut Vec<u8>) -> Result<(), Fail> {
    for piece in pieces(alloc, format)? {
        if let Piece::Bytes(bytes) = piece {
            out.extend_from_slice(bytes.as_slice())?;
        }
    }
    Ok(())
}

fn expect_pieces_printed(rt: &impl Abort, alloc: Global, out: &mut Vec<u8>) -> Result<(), Fail> {
    put_number(rt, alloc, "%c", 66, out)?;
    put_number(rt, alloc, "%x", 255, out)?;
    put_bytes(alloc, b"%%", out)?;
    expect_bytes(rt, out, b"aBff%", "the whole format");
    put_number(rt, alloc, "%c", 200, out)?;
    expect_bytes(rt, out, b"aBff%\xc8", "a byte from 128 on");
    Ok(())
}

/// `printf("%s%c%x%%", "a", 66, 255)` prints `aBff%`, and a byte from 128 on is one byte.
#[test]
fn a_format_is_printed_piece_by_piece(rt: HostRuntime) -> Result<(), Fail> {
    let mut out = vec![in rt.alloc(); b'a']?;
    expect_pieces_printed(&rt, rt.alloc(), &mut out)
}
