ghost use Rattle.std.specs.Prelude.{◌≡◌, ◌<◌, IsTrue, length};
ghost use Rattle.cr_check_types.specs.Relations.{AreRows};

use crate::lists::rows_of;
use crate::specifiers::place_of;
use crate::{all_rows, expect, name_of, pair, row_between, yes_or_no};
use cr_check_constants::Constant;
use cr_check_declarators::{
    Class, Declaration, Enumerated, Given, Library, Linkage, Signature, agree, enumeration_kind,
    enumerator_by, has_library_type, is_again, library_of, linkage_of, may_be_initialised,
    tag_agrees, with_declaration,
};
use cr_check_types::Table;
use cr_syntax::Kind;
use std::alloc::{AllocError, Global};
use std::test::Fail;

// The enumerators of a list, by what each is given: `_` for nothing, `?` for an expression without a type, `x` for one that is no
// constant. Told are their values, `K15` where the constraint is broken, and the type. By hand from C11 6.7.2.2p2 to p4.
const ENUMERATORS: &str = "\
_ => 0 uint
_ _ 5 _ => 0 1 5 6 uint
-1 _ _ => -1 0 1 int
3 _ 1 => 3 4 1 uint
2147483647 => 2147483647 uint
2147483647 _ => 2147483647 K15 uint
2147483647 _ _ => 2147483647 K15 none uint
2147483648 => K15 uint
-2147483648 => -2147483648 int
-2147483649 => K15 uint
x => K15 uint
x _ 7 _ => K15 none 7 8 uint
? _ => none none uint";

// A tag's specifier, the one that declares it first, whether its list has ended, and whether they agree. By hand from 6.7.2.3p2, p3.
const TAGS: &str = "\
struct struct no => yes
struct{ struct no => yes
struct enum{ yes => no
struct{ enum{ yes => no
enum{ enum{ no => yes
enum{ struct no => no
enum enum{ yes => yes
enum enum{ no => no
enum enum no => no
enum struct{ yes => no";

// A place, a storage class, what is declared, and the linkage of the visible declaration; told is the linkage, and whether an
// initialiser may stand. By hand from 6.2.2p3 to p6 and 6.7.9p5.
const LINKAGES: &str = "\
file - object none => external yes
file static object none => internal yes
file extern object none => external yes
file extern object internal => internal yes
file - object internal => external yes
file typedef object none => alone no
file - function none => external no
file - function internal => internal no
definition static function none => internal no
definition - function internal => internal no
block - object none => alone yes
block static object internal => alone yes
block extern object internal => internal no
block extern object alone => external no
block extern object none => external no
block - function none => external no
block - function internal => internal no
block typedef object external => alone no
clause - object none => alone yes
parameter - object none => alone yes
member - object none => alone yes";

// Declarations of one name, in order: its linkage, with `d` where it defines a function and `i` where it initialises an object at file
// scope. Told is for each whether it breaks K10. By hand from 6.2.2p7, 6.9p3, p5; `library` begins the row of a library's name.
const DECLARATIONS: &str = "\
external => no
external external => no no
external external-d external => no no no
external-d external-d => no yes
external-d external external-d => no no yes
external external-i external-i => no no yes
internal external => no yes
external internal => no yes
internal internal-d => no no
library external external-d => no yes";

// Two types of functions, and whether they agree. By hand from 6.7.6.3p15.
const FUNCTIONS: &str = "\
int(int) int(int) => yes
int(int) int(const_int) => yes
int(*_int) int(*_const_int) => no
int(int) int(int,int) => no
int(int,*_char) int(int,*_char) => yes
int(int,*_char) int(int,*_int) => no
int() int() => yes
int() int(int) => no
int() void() => no
int(int,...) int(int,...) => yes
int(int,...) int(int) => no
int(*_[]_int) int(*_[3]_int) => yes
int(*_[2]_int) int(*_[3]_int) => no";

// Linked names with types, and whether the library has them so. By hand from 7.21.6.3, 7.21.7.8, 7.22.4.1, 7.22.4.4.
const LIBRARY: &str = "\
printf int(*_const_char,...) => yes
printf int(*_char,...) => no
printf int(*_const_char) => no
printf void(*_const_char,...) => no
printf int(const_*_const_char,...) => yes
printf int(...) => no
putchar int(int) => yes
putchar int(const_int) => yes
putchar int(char) => no
putchar int() => no
putchar int(int,int) => no
putchar const_int(int) => no
abort void() => yes
abort void(int) => no
abort int() => no
exit void(int) => yes
exit *_void(int) => no
exit void(long) => no
puts void(int) => other";

// What a table is about.
#[derive(Clone, Copy)]
enum Rule {
    Enumerators,
    Tags,
    Linkages,
    Declarations,
    Functions,
    Library,
}

#[test]
fn names_are_declared_by_the_rules(rt: HostRuntime) -> Result<(), Fail> {
    let alloc = rt.alloc();
    each_row(alloc, ENUMERATORS, Rule::Enumerators)?;
    each_row(alloc, TAGS, Rule::Tags)?;
    each_row(alloc, LINKAGES, Rule::Linkages)?;
    each_row(alloc, DECLARATIONS, Rule::Declarations)?;
    each_row(alloc, FUNCTIONS, Rule::Functions)?;
    each_row(alloc, LIBRARY, Rule::Library)
}

fn each_row(alloc: Global, rows: &str, rule: Rule) -> Result<(), Fail> {
    for row in rows.split('\n') {
        expect_answer(alloc, row, rule)?;
    }
    Ok(())
}

fn expect_answer(alloc: Global, row: &str, rule: Rule) -> Result<(), Fail> {
    let (given, told) = pair(row, " => ");
    let found = answered(alloc, given, rule)?;
    expect(row, found.as_str().trim(), told)
}

fn answered(alloc: Global, given: &str, rule: Rule) -> Result<String, AllocError> {
    let words = words_of(alloc, given)?;
    let mut out = String::new(alloc);
    push_answer(alloc, &mut out, words.as_slice(), rule)?;
    Ok(out)
}

fn words_of<'a>(alloc: Global, text: &'a str) -> Result<Vec<&'a str>, AllocError> {
    let mut words = Vec::new(alloc);
    for word in text.split(' ') {
        words.push(word)?;
    }
    Ok(words)
}

fn push_answer(
    alloc: Global,
    out: &mut String,
    words: &[&str],
    rule: Rule,
) -> Result<(), AllocError> {
    match rule {
        Rule::Enumerators => push_enumerated(out, words),
        Rule::Tags => out.push_str(tagged(words)),
        Rule::Linkages => push_linked(out, words),
        Rule::Declarations => push_repeated(out, words),
        Rule::Functions => out.push_str(compared(alloc, words)?),
        Rule::Library => out.push_str(listed(alloc, words)?),
    }
}

fn push_enumerated(out: &mut String, words: &[&str]) -> Result<(), AllocError> {
    let mut before: Option<Enumerated> = None;
    let mut negative = false;
    for word in words {
        let next = enumerator_by(before, given_by(word));
        push_value(out, next)?;
        negative = next.negative;
        before = Some(next);
    }
    out.push_str(name_of(enumeration_kind(negative)))
}

fn push_value(out: &mut String, enumerated: Enumerated) -> Result<(), AllocError> {
    match enumerated.value {
        Some(value) => write!(out, "{value} "),
        None if enumerated.broken => out.push_str("K15 "),
        None => out.push_str("none "),
    }
}

fn given_by(word: &str) -> Given {
    match word {
        "_" => Given::Nothing,
        "?" => Given::Untyped,
        "x" => Given::Expression(Constant::NotConstant),
        _ => Given::Expression(Constant::Value(word.parse::<i128>().unwrap_or(0))),
    }
}

fn tagged(words: &[&str]) -> &'static str {
    match words {
        [kind, first, listed] => {
            let agrees = tag_agrees(tag_kind(kind), tag_kind(first), *listed == "yes");
            yes_or_no(agrees)
        }
        _ => "?",
    }
}

fn tag_kind(word: &str) -> Kind {
    match word {
        "struct{" => Kind::StructContent,
        "enum{" => Kind::EnumContent,
        "enum" => Kind::EnumTag,
        _ => Kind::StructTag,
    }
}

fn push_linked(out: &mut String, words: &[&str]) -> Result<(), AllocError> {
    match words {
        [place, class, what, visible] => {
            let place = place_of(place);
            let function = *what == "function";
            let class = class_of(class);
            let linkage = linkage_of(place, class, function, linkage_in(visible));
            let typedef = matches!(class, Some(Class::Typedef));
            let may = yes_or_no(may_be_initialised(place, typedef, function, linkage));
            let name = linkage_name(linkage);
            write!(out, "{name} {may}")
        }
        _ => out.push_str("?"),
    }
}

fn class_of(word: &str) -> Option<Class> {
    match word {
        "static" => Some(Class::Static),
        "extern" => Some(Class::Extern),
        "typedef" => Some(Class::Typedef),
        _ => None,
    }
}

fn linkage_in(word: &str) -> Option<Linkage> {
    match word {
        "alone" => Some(Linkage::Alone),
        "internal" => Some(Linkage::Internal),
        "external" => Some(Linkage::External),
        _ => None,
    }
}

fn linkage_name(linkage: Linkage) -> &'static str {
    match linkage {
        Linkage::Alone => "alone",
        Linkage::Internal => "internal",
        Linkage::External => "external",
    }
}

fn push_repeated(out: &mut String, words: &[&str]) -> Result<(), AllocError> {
    let mut earlier: Option<Declaration> = None;
    let mut library = false;
    for word in words {
        if *word == "library" {
            library = true;
        } else {
            let declaration = declaration_of(word);
            out.push_str(yes_or_no(is_again(earlier, declaration, library)))?;
            out.push(' ')?;
            earlier = Some(with_declaration(earlier, declaration));
        }
    }
    Ok(())
}

fn declaration_of(word: &str) -> Declaration {
    Declaration {
        linkage: if word.starts_with("internal") {
            Linkage::Internal
        } else {
            Linkage::External
        },
        defines: word.ends_with("-d"),
        initialised: word.ends_with("-i"),
    }
}

fn compared(alloc: Global, words: &[&str]) -> Result<&'static str, AllocError> {
    match words {
        [left, right] => agreement(alloc, left, right),
        _ => Ok("?"),
    }
}

fn agreement(alloc: Global, left: &str, right: &str) -> Result<&'static str, AllocError> {
    let mut table = Table::new(alloc)?;
    let (one, ones) = function_in(alloc, &mut table, left)?;
    let (other, others) = function_in(alloc, &mut table, right)?;
    agreement_of(&table, one, ones.as_slice(), other, others.as_slice())
}

fn agreement_of(
    table: &Table,
    one: Signature,
    ones: &[u32],
    other: Signature,
    others: &[u32],
) -> Result<&'static str, AllocError> {
    if !are_rows(table, one, ones) || !are_rows(table, other, others) {
        return Err(AllocError);
    }
    Ok(yes_or_no(agree(table, one, ones, other, others)))
}

fn listed(alloc: Global, words: &[&str]) -> Result<&'static str, AllocError> {
    match words {
        [name, text] => match library_of(name.as_bytes()) {
            Some(library) => listed_as(alloc, library, text),
            None => Ok("other"),
        },
        _ => Ok("?"),
    }
}

fn listed_as(alloc: Global, library: Library, text: &str) -> Result<&'static str, AllocError> {
    let mut table = Table::new(alloc)?;
    let (signature, rows) = function_in(alloc, &mut table, text)?;
    listing_of(&table, library, signature, rows.as_slice())
}

fn listing_of(
    table: &Table,
    library: Library,
    signature: Signature,
    rows: &[u32],
) -> Result<&'static str, AllocError> {
    if !are_rows(table, signature, rows) {
        return Err(AllocError);
    }
    Ok(yes_or_no(has_library_type(table, library, signature, rows)))
}

fn are_rows(table: &Table, signature: Signature, rows: &[u32]) -> bool
    ensures result { IsTrue result → signature.result < length table.now }
    ensures rows { IsTrue result → AreRows table.now rows.now }
{
    (signature.result as usize) < table.len() && all_rows(table, rows)
}

// A function's type in words: that of its result, and in brackets those of its parameters.
fn function_in(
    alloc: Global,
    table: &mut Table,
    text: &str,
) -> Result<(Signature, Vec<u32>), AllocError> {
    let (result, rest) = text.split_once("(").unwrap_or((text, ""));
    let result = row_between(table, result, '_')?;
    let list = rest.strip_suffix(")").unwrap_or("");
    let variadic = list.ends_with("...");
    let parameters = rows_of(alloc, table, list, '_')?;
    Ok((Signature { result, variadic }, parameters))
}
