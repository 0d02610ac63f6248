// What is written in the place of the forms of parse 4.

/// What can be done about one of the nine forms, by its number and the token there.
pub fn form_remedy(form: u8, spelled: &str) -> Option<&'static str> {
    Some(match form {
        1 => return keyword_remedy(spelled),
        2 => "give the values in their order, without designators",
        3 => "give the value a name: declare an object in front, and use that",
        4 => "call a function by its name; in the place of a table of functions write a switch",
        5 => "make it a plain member",
        8 => "give the function a fixed number of parameters",
        _ => return None,
    })
}

fn keyword_remedy(spelled: &str) -> Option<&'static str> {
    Some(match spelled {
        "double" | "float" | "_Complex" | "_Imaginary" => {
            "floating point is left out: try whether integers show the fault too"
        }
        "union" => "try whether a structure shows the fault too",
        "restrict" | "_Noreturn" | "_Static_assert" => "creduce-prepare takes it out",
        "_Alignas" | "_Atomic" | "_Thread_local" => "take it out",
        "_Alignof" | "_Generic" => "write what it comes to",
        _ => return None,
    })
}
