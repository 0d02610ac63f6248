// What a person needs beside a refusal.
use crate::place::Place;
use crate::remedies::remedy;
use crate::rows::Kind;
use crate::shown::{position_of, push_line};
use crate::text::{form_text, number_text, push_folded};
use std::alloc::{AllocError, Global};

/// What is said of a refusal beside the program's line: the line of the file, where in it the fault stands, what the number means, and
/// what can be done. `line` is the line that the program named, from 1, and `place` where in the file the fault is, if that is known.
pub fn refusal_text(
    alloc: Global,
    name: &str,
    file: &[u8],
    line: u64,
    kind: Kind,
    number: u8,
    place: Option<Place>,
) -> Result<String, AllocError> {
    let mut text = String::new(alloc);
    let fault = place.map(|place| place.start);
    // K40 is put at the last token; what it is about stands before.
    let line = match fault {
        Some(at) if kind == Kind::Type => position_of(file, at).line as u64,
        _ => line,
    };
    push_line(alloc, &mut text, name, file, line, fault)?;
    text.push_str(number_text(alloc, kind, number)?.as_str())?;
    if let Some(place) = place {
        push_remedy(alloc, &mut text, file, place, kind, number)?;
    } else if kind == Kind::Type && number == 40 {
        text.push_str(
            "All that is used is defined here, by the look of it: so main isn't, as int main(void), int main(), or with an int and a char **.\n",
        )?;
    }
    Ok(text)
}

fn push_remedy(
    alloc: Global,
    text: &mut String,
    file: &[u8],
    place: Place,
    kind: Kind,
    number: u8,
) -> Result<(), AllocError> {
    if place.form != 0 {
        text.push_str("Here it is\n")?;
        text.push_str(form_text(alloc, place.form)?.as_str())?;
    }
    match remedy(alloc, file, place, kind, number)? {
        Some(said) => push_folded(text, said.as_str()),
        None => Ok(()),
    }
}
