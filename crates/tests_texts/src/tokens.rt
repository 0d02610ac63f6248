use crate::rows::{SAMPLE, bytes_of, expect, expect_cell, pair, rows, triple};
use cr_tokens::{Token, TokenFault, TokenKind, Tokens, contains, first_fault, read, size};
use std::alloc::{AllocError, Global};
use std::process::Abort;

// Texts and their tokens, after C11 6.4 and the definitions in crates/cr_tokens/README.md. A token is the letter of its kind (keyword,
// name, integer, character, text, punctuator) and its spelling.
const LISTS: &str = r#"
¦
 ¦
␉␋␌␍␊¦
a+++b¦Na P++ P+ Nb
x>>=1¦Nx P>>= I1
...¦P...
..¦P. P.
....¦P... P.
p->x¦Np P-> Nx
-->¦P-- P>
0x1fUL¦I0x1fUL
0X1F¦I0X1F
1u 1lu 1llU 1LLu 1ULL¦I1u I1lu I1llU I1LLu I1ULL
017¦I017
0¦I0
9223372036854775807¦I9223372036854775807
9223372036854775808u¦I9223372036854775808u
18446744073709551615U¦I18446744073709551615U
0xffffffffffffffff¦I0xffffffffffffffff
01777777777777777777777¦I01777777777777777777777
00000000000000000000000000¦I00000000000000000000000000
_Bool int1 int¦K_Bool Nint1 Kint
_Thread_local _Static_assert autos¦K_Thread_local K_Static_assert Nautos
_a9Z¦N_a9Z
%:¦P% P:
<:¦P< P:
<<<=¦P<< P<=
a?b:c¦Na P? Nb P: Nc
??=¦P? P? P=
!=^=|=&=%=/=*=¦P!= P^= P|= P&= P%= P/= P*=
[](){}~,;¦P[ P] P( P) P{ P} P~ P, P;
/ =¦P/ P=
'a'¦C'a'
'"'¦C'"'
'\''¦C'\''
'\377'¦C'\377'
'\0'¦C'\0'
'\x000000ff'¦C'\x000000ff'
"\'\"\?\\\a\b\f\n\r\t\v"¦T"\'\"\?\\\a\b\f\n\r\t\v"
""¦T""
"a""b"¦T"a" T"b"
"\1234"¦T"\1234"
"\08"¦T"\08"
"€ÿ"¦T"€ÿ"
"/*" x¦T"/*" Nx
"?" "a??" "???"¦T"?" T"a??" T"???"
/**/¦
a/* " ' // ␀ÿ */b¦Na Nb
/***/x¦Nx
//¦
// " /*␊x¦Nx
# 1 "p.c"¦
# 1 "p.c" \␊x¦Nx
  #pragma x @ ÿ␊y¦Ny
␉# ␉ pragma␊#7¦
x␊# 1 /*␊y¦Nx Ny
/*␊# 1 */x¦Nx
a+ +b¦Na P+ P+ Nb
"#;

// Texts and their first faults.
const FAULTS: &str = r#"
1.5¦BadByte(0)
x .5¦BadByte(2)
08¦BadByte(0)
0x¦BadByte(0)
0b1¦BadByte(0)
1e5¦BadByte(0)
1e+5¦BadByte(0)
0xe+1¦BadByte(0)
1lL¦BadByte(0)
1ulu¦BadByte(0)
1_¦BadByte(0)
1..2¦BadByte(0)
9223372036854775808¦BadByte(0)
9223372036854775808ll¦BadByte(0)
18446744073709551616¦BadByte(0)
18446744073709551616u¦BadByte(0)
0x10000000000000000¦BadByte(0)
02000000000000000000000¦BadByte(0)
int @¦BadByte(4)
€¦BadByte(0)
a␡¦BadByte(1)
␀¦BadByte(0)
$¦BadByte(0)
a`¦BadByte(1)
\¦BadByte(0)
ab\␊cd¦BadByte(2)
???/␊¦BadByte(1)
#define¦BadByte(0)
#¦BadByte(0)
#pragmatic¦BadByte(0)
# ␋1¦BadByte(0)
␋# 1¦BadByte(1)
a#b¦BadByte(1)
a # 1¦BadByte(2)
/**/# 1¦BadByte(4)
/*␊*/# 1¦BadByte(5)
##¦BadByte(0)
''¦BadByte(0)
'ab'¦BadByte(0)
'a¦OpenLiteral(0)
x 'ab␊'¦OpenLiteral(2)
"a␊¦OpenLiteral(0)
"¦OpenLiteral(0)
"\␊¦BadByte(1)
'\¦BadByte(1)
'\400'¦BadByte(1)
'\x100'¦BadByte(1)
'\x'¦BadByte(1)
'\xg'¦BadByte(1)
'\8'¦BadByte(1)
"ab\q¦BadByte(3)
'\q'¦BadByte(1)
'\u0041'¦BadByte(1)
"??="¦BadByte(1)
"a???/"¦BadByte(3)
"\??/"¦BadByte(2)
'??''¦BadByte(1)
'ÿ'¦BadByte(1)
"a␡␉b¦BadByte(2)
"a␉b"¦BadByte(2)
/*/¦OpenComment(0)
x /* \␊¦OpenComment(2)
"a\\␊¦BadByte(3)
'\\␊'¦BadByte(2)
"a\\¦OpenLiteral(0)
/* \␊ */¦BadByte(3)
// a\␊b¦BadByte(4)
// a??/␊b¦BadByte(4)
/* ??/␊*/ @¦BadByte(3)
/* ok */ @¦BadByte(9)
@ /*¦BadByte(0)
"#;

// Texts and their sizes: bytes, 8 for each token, and the weights.
const SIZES: &str = r#"
¦0
 ¦1
a¦12
0¦9
1¦10
2¦11
00¦12
1u¦12
'1'¦13
"1"¦13
int¦11
+=¦10
int a;␊int b;␊int c;␊¦102
/* a */¦7
"#;

// A file, a text, and whether the text's tokens stand in the file's as an unbroken run.
const RUNS: &str = r#"
int a;¦a¦true
int a;¦a ;¦true
int a;¦int ;¦false
int a;¦¦true
¦¦true
¦a¦false
a a b¦a b¦true
a b a c¦a c¦true
aa¦a¦false
a¦a a¦false
x = y+z;¦y + z¦true
x = y+ +z;¦y++z¦false
"b"¦b¦false
0x1¦1¦false
"#;

fn letter(kind: TokenKind) -> u8 {
    match kind {
        TokenKind::Keyword => b'K',
        TokenKind::Identifier => b'N',
        TokenKind::Integer => b'I',
        TokenKind::Character => b'C',
        TokenKind::Text => b'T',
        TokenKind::Punctuator => b'P',
    }
}

fn push_token(out: &mut Vec<u8>, file: &[u8], token: &Token) -> Result<(), AllocError> {
    if !out.is_empty() {
        out.push(b' ')?;
    }
    out.push(letter(token.kind))?;
    match file.get(token.start as usize..token.end as usize) {
        Some(spelling) => out.extend_from_slice(spelling),
        None => Ok(()),
    }
}

fn spelled(alloc: Global, file: &[u8], tokens: &Tokens) -> Result<Vec<u8>, AllocError> {
    let mut out = Vec::new(alloc);
    for token in &tokens.list {
        push_token(&mut out, file, token)?;
    }
    Ok(out)
}

// The tokens of a file, or its first fault as both calls name it.
fn answer(alloc: Global, file: &[u8]) -> Result<Vec<u8>, AllocError> {
    match read(alloc, file) {
        Ok(tokens) => spelled(alloc, file, &tokens),
        Err(fault) if first_fault(file) == Some(fault) => named(alloc, fault),
        Err(_) => Ok(Vec::new(alloc)),
    }
}

fn named(alloc: Global, fault: TokenFault) -> Result<Vec<u8>, AllocError> {
    format!(in alloc; "{fault:?}")?.as_bytes().to_vec(alloc)
}

fn answer_of(alloc: Global, text: &str) -> Result<Vec<u8>, AllocError> {
    let file = bytes_of(alloc, text)?;
    answer(alloc, &file)
}

fn expect_answer(rt: &impl Abort, alloc: Global, row: &str) -> Result<(), AllocError> {
    let (text, wanted) = pair(row);
    let found = answer_of(alloc, text)?;
    expect_cell(rt, alloc, &found, wanted, row)
}

#[test]
fn texts_have_their_tokens(rt: HostRuntime) -> Result<(), AllocError> {
    for row in rows(LISTS) {
        expect_answer(&rt, rt.alloc(), row)?;
    }
    Ok(())
}

#[test]
fn texts_have_their_first_faults(rt: HostRuntime) -> Result<(), AllocError> {
    for row in rows(FAULTS) {
        expect_answer(&rt, rt.alloc(), row)?;
    }
    Ok(())
}

// The size of a file, in words.
fn measured(alloc: Global, file: &[u8]) -> Result<String, AllocError> {
    match read(alloc, file) {
        Ok(tokens) => format!(in alloc; "{}", size(file, &tokens)),
        Err(fault) => format!(in alloc; "{fault:?}"),
    }
}

fn expect_size(
    rt: &impl Abort,
    alloc: Global,
    file: &[u8],
    wanted: &str,
    row: &str,
) -> Result<(), AllocError> {
    let found = measured(alloc, file)?;
    expect(rt, found.as_bytes(), wanted.as_bytes(), row);
    Ok(())
}

fn expect_size_of(rt: &impl Abort, alloc: Global, row: &str) -> Result<(), AllocError> {
    let (text, wanted) = pair(row);
    let file = bytes_of(alloc, text)?;
    expect_size(rt, alloc, &file, wanted, row)
}

#[test]
fn texts_have_their_sizes(rt: HostRuntime) -> Result<(), AllocError> {
    for row in rows(SIZES) {
        expect_size_of(&rt, rt.alloc(), row)?;
    }
    let sample = SAMPLE.as_bytes();
    expect_size(&rt, rt.alloc(), sample, "1686", "the sample")?;
    assert!(rt; sample.len() == 407, "{} and not 407", sample.len());
    assert!(rt;
        count_of(rt.alloc(), sample) == Ok(143),
        "another number of tokens than 143"
    );
    Ok(())
}

/// The number of a file's tokens.
pub(crate) fn count_of(alloc: Global, file: &[u8]) -> Result<usize, TokenFault> {
    Ok(read(alloc, file)?.list.len())
}

// Whether a text's tokens stand in a file, in words.
fn stands(alloc: Global, file: &[u8], text: &[u8]) -> &'static str {
    let (Ok(tokens), Ok(wanted)) = (read(alloc, file), read(alloc, text)) else {
        return "no tokens";
    };
    if contains(file, &tokens, text, &wanted) {
        "true"
    } else {
        "false"
    }
}

#[test]
fn runs_stand_unbroken(rt: HostRuntime) {
    for row in rows(RUNS) {
        let (file, text, wanted) = triple(row);
        let found = stands(rt.alloc(), file.as_bytes(), text.as_bytes());
        expect(&rt, found.as_bytes(), wanted.as_bytes(), row);
    }
}

fn repeated(alloc: Global, byte: u8, count: usize, end: &[u8]) -> Result<Vec<u8>, AllocError> {
    let mut text = vec![in alloc; byte; count]?;
    text.extend_from_slice(end)?;
    Ok(text)
}

// What is read of `count` times one byte and then an end: as many tokens, or a fault.
fn expect_count(
    rt: &impl Abort,
    alloc: Global,
    byte: u8,
    count: usize,
    end: &[u8],
    wanted: Result<usize, TokenFault>,
) -> Result<(), AllocError> {
    let text = repeated(alloc, byte, count, end)?;
    assert!(rt; count_of(alloc, &text) == wanted, "{wanted:?}");
    Ok(())
}

#[test]
fn limits_are_kept(rt: HostRuntime) -> Result<(), AllocError> {
    let a = rt.alloc();
    let too_many = TokenFault::TooMany(262_145);
    let bad_byte = TokenFault::BadByte(262_145);
    let open_literal = TokenFault::OpenLiteral(262_144);
    expect_count(&rt, a, b' ', 1_048_576, b"", Ok(0))?;
    expect_count(&rt, a, b'@', 1_048_577, b"", Err(TokenFault::TooLong))?;
    expect_count(&rt, a, b';', 262_144, b" /**/ ", Ok(262_144))?;
    expect_count(&rt, a, b';', 262_144, b" ;", Err(too_many))?;
    expect_count(&rt, a, b';', 262_144, b" @", Err(bad_byte))?;
    expect_count(&rt, a, b';', 262_144, b"'ab", Err(open_literal))
}
