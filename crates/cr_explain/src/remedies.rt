// What can be done about a fault, by what stands there.
use crate::extensions::extension_remedy;
use crate::forms::form_remedy;
use crate::library::library_remedy;
use crate::place::{Place, is_of_library};
use crate::rows::Kind;
use crate::shown::{Position, position_of};
use std::alloc::{AllocError, Global};

/// What can be done, by the number and by what stands at the fault; nothing where that is all in the number's row.
pub fn remedy(
    alloc: Global,
    file: &[u8],
    place: Place,
    kind: Kind,
    number: u8,
) -> Result<Option<String>, AllocError> {
    if kind == Kind::Token && number == 2 {
        return bad_byte(alloc, place.onward(file));
    }
    let Some(spelled) = place.text(file) else {
        return Ok(None);
    };
    match (kind, number) {
        (Kind::Parse, 1) => misfit(alloc, file, place, spelled),
        (Kind::Parse, 4) => match form_remedy(place.form, spelled) {
            Some(text) => Ok(Some(format!(in alloc; "`{spelled}`: {text}")?)),
            None => Ok(None),
        },
        (Kind::Name, 1) => Ok(Some(unknown_name(alloc, spelled, position_of(file, place.start))?)),
        (Kind::Type, 40) => {
            let at = position_of(file, place.start);
            let text = format!(in alloc;
                "{spelled} is used in {at}, and the file doesn't define it: give it a short body, or an object a declaration without extern"
            )?;
            Ok(Some(text))
        }
        _ => Ok(None),
    }
}

// At a byte that begins no token, or spoils a literal.
fn bad_byte(alloc: Global, bytes: &[u8]) -> Result<Option<String>, AllocError> {
    let Some(first) = bytes.first() else {
        return Ok(None);
    };
    let text = match *first {
        b'#' => "a directive: creduce-prepare makes a preprocessed file of the source",
        b'\'' => "a character constant has one character here",
        b'?' => "a trigraph: write the character that it stands for",
        b'\\' =>
            "an escape that C hasn't, or a line that goes on behind a backslash: creduce-prepare joins these",
        b'.' | b'0'..=b'9' => return Ok(Some(bad_number(alloc, bytes)?)),
        0xEF if bytes.starts_with(b"\xEF\xBB\xBF") => {
            "a byte order mark: take these three bytes out of the file"
        }
        byte => return Ok(Some(stray_byte(alloc, byte)?)),
    };
    Ok(Some(String::from_str(alloc, text)?))
}

fn stray_byte(alloc: Global, byte: u8) -> Result<String, AllocError> {
    if byte.is_ascii_graphic() {
        let c = char::from(byte);
        format!(in alloc; "`{c}` begins no token here")
    } else {
        format!(in alloc; "the byte 0x{byte:02X} begins no token here")
    }
}

// A number that is no integer constant.
fn bad_number(alloc: Global, bytes: &[u8]) -> Result<String, AllocError> {
    let spelled = number_at(alloc, bytes)?;
    let why = why_no_integer(spelled.as_str());
    format!(in alloc; "{spelled} is no integer constant: {why}")
}

fn why_no_integer(spelled: &str) -> &'static str {
    let is_hexadecimal = spelled.starts_with("0x") || spelled.starts_with("0X");
    if spelled.starts_with("0b") || spelled.starts_with("0B") {
        "C11 has no binary ones, so write it with 0x"
    } else if spelled.contains('.') || has_exponent(spelled, is_hexadecimal) {
        "floating point is left out"
    } else {
        "its digits or its suffix aren't those of one, or no type holds it"
    }
}

fn has_exponent(spelled: &str, is_hexadecimal: bool) -> bool {
    let (small, large) = if is_hexadecimal {
        ('p', 'P')
    } else {
        ('e', 'E')
    };
    spelled.contains(small) || spelled.contains(large)
}

// A number as it is spelled.
fn number_at(alloc: Global, bytes: &[u8]) -> Result<String, AllocError> {
    let mut spelled = String::new(alloc);
    let mut is_exponent = false;
    for byte in bytes {
        let is_sign = is_exponent && matches!(*byte, b'+' | b'-');
        if !is_sign && !byte.is_ascii_alphanumeric() && !matches!(*byte, b'.' | b'_') {
            break;
        }
        is_exponent = matches!(*byte, b'e' | b'E' | b'p' | b'P');
        spelled.push(char::from(*byte))?;
    }
    Ok(spelled)
}

// A name that nothing declares.
fn unknown_name(alloc: Global, name: &str, at: Position) -> Result<String, AllocError> {
    if is_of_library(name) {
        return format!(in alloc;
            "{name} is a function of the library, and wants its prototype in front: creduce-prepare brings it"
        );
    }
    if name.starts_with("__builtin_")
        || name.starts_with("__sync_")
        || name.starts_with("__atomic_")
    {
        return format!(in alloc;
            "{name} is a function of the compiler: write one, or an expression in its place; creduce-prepare knows some"
        );
    }
    if let Some(text) = library_remedy(name) {
        return format!(in alloc;
            "{name} is a function of the library, of which printf, putchar, abort and exit alone are known: {text}"
        );
    }
    match extension_remedy(name) {
        Some(text) => format!(in alloc; "`{name}`: {text}"),
        None => format!(in alloc; "{name} isn't declared before {at}"),
    }
}

// What is done about a token that fits nowhere: by a word of another language in front of it, else by itself.
fn misfit(
    alloc: Global,
    file: &[u8],
    place: Place,
    spelled: &str,
) -> Result<Option<String>, AllocError> {
    if let Some(word) = place.cause_text(file) {
        let text = match extension_remedy(word) {
            Some(text) => format!(in alloc; "`{word}`: {text}")?,
            None => no_type(alloc, word)?,
        };
        return Ok(Some(text));
    }
    match extension_remedy(spelled).or(token_remedy(spelled, last_of(place.before(file)))) {
        Some(text) => Ok(Some(format!(in alloc; "`{spelled}`: {text}")?)),
        None if place.is_name => name_remedy(alloc, file, place, spelled),
        None => Ok(None),
    }
}

// What is done about a name that fits nowhere: what begins a declaration is a type.
fn name_remedy(
    alloc: Global,
    file: &[u8],
    place: Place,
    spelled: &str,
) -> Result<Option<String>, AllocError> {
    if !matches!(
        last_of(place.before(file)),
        None | Some(b'(' | b',' | b';' | b'}')
    ) {
        return Ok(None);
    }
    let text = if is_called(place.behind(file)) {
        format!(in alloc;
            "`{spelled}` has no type in front, which C11 wants of each declaration: write int, if it is one"
        )?
    } else {
        no_type(alloc, spelled)?
    };
    Ok(Some(text))
}

fn no_type(alloc: Global, name: &str) -> Result<String, AllocError> {
    format!(in alloc;
        "`{name}` is no type that is declared before: a header may have it (creduce-prepare), or, where parameters are declared behind their list, put their types into the list"
    )
}

// The last byte that is no white space.
fn last_of(bytes: &[u8]) -> Option<u8> {
    for byte in bytes.iter().rev() {
        if !byte.is_ascii_whitespace() {
            return Some(*byte);
        }
    }
    None
}

// Whether an opening bracket comes first, white space aside.
fn is_called(bytes: &[u8]) -> bool {
    for byte in bytes {
        if !byte.is_ascii_whitespace() {
            return *byte == b'(';
        }
    }
    false
}

// The same of punctuators and keywords, by the byte in front.
fn token_remedy(spelled: &str, front: Option<u8>) -> Option<&'static str> {
    match spelled {
        "..." => Some(
            "a range of cases is no C11: write a case for each; and a function of your own has a fixed number of parameters",
        ),
        "&&" => Some("the address of a label is no C11: use a switch"),
        "{" => brace_remedy(front?),
        ":" if front == Some(b'?') => Some("C11 wants a value between `?` and `:`: write it out"),
        "}" if front == Some(b'{') => {
            Some("C11 wants something between these braces: write a value or a member")
        }
        _ if front == Some(b')') && is_type_word(spelled) => {
            Some("where these are the parameters behind their list, put their types into the list")
        }
        _ => None,
    }
}

fn brace_remedy(front: u8) -> Option<&'static str> {
    match front {
        b'(' => Some(
            "a statement within an expression is no C11: write a function, or the statements in front",
        ),
        b')' => Some(
            "no function stands within a function: define it in front; and parameters have their types in the list",
        ),
        _ => None,
    }
}

fn is_type_word(spelled: &str) -> bool {
    matches!(
        spelled,
        "int"
            | "char"
            | "short"
            | "long"
            | "unsigned"
            | "signed"
            | "void"
            | "struct"
            | "enum"
            | "const"
            | "register"
    )
}
