// The words of a call for a report.

/// What a report is asked of.
#[derive(Clone, Copy, Debug, PartialEq, Eq)]
pub struct Asked<'a> {
    /// The log or the journal, and another log beside it.
    pub name: &'a str,
    pub against: Option<&'a str>,
    /// The file that the picture is to go to.
    pub picture: Option<&'a str>,
}

// The words, told apart so far.
#[derive(Clone, Copy)]
struct Told<'a> {
    name: Option<&'a str>,
    against: Option<&'a str>,
    picture: Option<&'a str>,
    /// The option whose value is the next word.
    awaiting: Option<Valued>,
    /// Behind `--` no word is an option.
    are_places: bool,
}

// The two options.
#[derive(Clone, Copy)]
enum Valued {
    Against,
    Picture,
}

/// What the words behind `--report` ask for, where they are in the form.
pub fn asked_for<'a>(words: &'a [String]) -> Option<Asked<'a>> {
    let mut told = Told {
        name: None,
        against: None,
        picture: None,
        awaiting: None,
        are_places: false,
    };
    for word in words {
        told = told_more(told, word.as_str())?;
    }
    if told.awaiting.is_some() {
        return None;
    }
    Some(Asked {
        name: told.name?,
        against: told.against,
        picture: told.picture,
    })
}

fn told_more<'a>(told: Told<'a>, word: &'a str) -> Option<Told<'a>> {
    let mut more = told;
    if let Some(valued) = told.awaiting {
        more.awaiting = None;
        return valued_more(more, valued, word);
    }
    if told.are_places || !word.starts_with("-") {
        if told.name.is_some() || word.is_empty() {
            return None;
        }
        more.name = Some(word);
        return Some(more);
    }
    match word.split_once('=') {
        Some(("--against", value)) => valued_more(more, Valued::Against, value),
        Some(("--svg", value)) => valued_more(more, Valued::Picture, value),
        Some(_) => None,
        None => option_more(more, word),
    }
}

fn option_more<'a>(told: Told<'a>, word: &str) -> Option<Told<'a>> {
    let mut more = told;
    match word {
        "--against" => more.awaiting = Some(Valued::Against),
        "--svg" => more.awaiting = Some(Valued::Picture),
        "--" => more.are_places = true,
        _ => return None,
    }
    Some(more)
}

// Takes an option's value, where it is its first and isn't empty.
fn valued_more<'a>(told: Told<'a>, valued: Valued, value: &'a str) -> Option<Told<'a>> {
    let mut more = told;
    let before = match valued {
        Valued::Against => told.against,
        Valued::Picture => told.picture,
    };
    if before.is_some() || value.is_empty() {
        return None;
    }
    match valued {
        Valued::Against => more.against = Some(value),
        Valued::Picture => more.picture = Some(value),
    }
    Some(more)
}
