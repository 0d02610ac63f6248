// What a reduction did, by its log or its journal.
use cr_around::Plain;
use cr_pool::measure;
use cr_report::{
    Asked, Named, Reduction, ReportFault, asked_for, picture_text, read_journal, read_reduction,
    report_text,
};
use creduce_system::read_most;
use std::alloc::AllocError;
use std::{fs, io};

/// Status 1: there is nothing to report.
const UNREAD: u8 = 1;

/// Status 2: the words are in no form.
const MISUSED: u8 = 2;

/// Status 10: the report can't be put.
const UNPUT: u8 = 10;

/// The most bytes of a log or a journal, and of a file that is reduced.
const MOST: usize = 1 << 31;

const MOST_OF_FILE: usize = 1 << 24;

const USAGE: &str =
    "creduce: usage: creduce --report FILE.log|FILE.journal [--against OTHER.log] [--svg PICTURE.svg]";

/// Puts what the words behind `--report` ask for, and answers the status.
pub fn report(rt: &HostRuntime, words: &[String]) -> Result<u8, AllocError> {
    let Some(asked) = asked_for(words) else {
        let _ = eprintln!(rt; "{USAGE}");
        return Ok(MISUSED);
    };
    let Some(of) = reduction(rt, asked.name)? else {
        return Ok(UNREAD);
    };
    let one = Named {
        name: asked.name,
        of: &of,
    };
    match asked.against {
        None => put(rt, asked, one, None),
        Some(name) => match reduction(rt, name)? {
            Some(of) => put(rt, asked, one, Some(Named { name, of: &of })),
            None => Ok(UNREAD),
        },
    }
}

// What a log or a journal says; nothing where that can't be read, which is said.
fn reduction(rt: &HostRuntime, name: &str) -> Result<Option<Reduction>, AllocError> {
    let bytes = match read_most(rt, rt.alloc(), name, MOST) {
        Ok(bytes) => bytes,
        Err(e) if e.kind() == io::ErrorKind::OutOfMemory => return Err(AllocError),
        Err(_) => {
            let name = Plain(name);
            let _ = eprintln!(rt; "creduce: {name} is no file that can be read");
            return Ok(None);
        }
    };
    let read = if name.ends_with(".journal") {
        read_journal(rt.alloc(), bytes.as_slice())
    } else {
        let first = first_size(rt, name)?;
        read_reduction(rt.alloc(), bytes.as_slice(), first)
    };
    match read {
        Ok(reduction) => Ok(Some(reduction)),
        Err(ReportFault::NoMemory) => Err(AllocError),
        Err(fault) => {
            let name = Plain(name);
            let _ = eprintln!(rt; "creduce: {name}: {fault}");
            Ok(None)
        }
    }
}

// The size at first, which no log has: that of the copy beside it, where one stands there and has tokens.
fn first_size(rt: &HostRuntime, name: &str) -> Result<Option<u64>, AllocError> {
    let Some(file) = name.strip_suffix(".log") else {
        return Ok(None);
    };
    let copy = format!(in rt.alloc(); "{file}.orig")?;
    match read_most(rt, rt.alloc(), copy.as_str(), MOST_OF_FILE) {
        Ok(bytes) => measure(rt.alloc(), bytes.as_slice()),
        Err(_) => Ok(None),
    }
}

fn put(
    rt: &HostRuntime,
    asked: Asked<'_>,
    one: Named<'_>,
    other: Option<Named<'_>>,
) -> Result<u8, AllocError> {
    let text = report_text(rt.alloc(), one, other)?;
    if print!(rt; "{text}").is_err() {
        return Ok(UNPUT);
    }
    let Some(picture) = asked.picture else {
        return Ok(0);
    };
    let text = picture_text(rt.alloc(), one, other)?;
    if fs::write(rt, picture, text.as_str()).is_err() {
        let picture = Plain(picture);
        let _ = eprintln!(rt; "creduce: {picture} can't be written");
        return Ok(UNPUT);
    }
    Ok(0)
}
