// What is found before a run begins.
use crate::older::stands;
use crate::paths::{has_room, part_of};
use crate::std_files::read_most;
use crate::sums::sum_of;
use cr_around::{Begun, Ending, Facts, Kind, Site, words_in};
use std::alloc::{AllocError, Global};
use std::fs::{self, File, FileType, OpenOptions};
use std::io::{self, ErrorKind};
use std::os::unix::fs::FileTypeExt;
use std::rt::Files as SystemFiles;

/// The number by which the system names the limit on a file's length, and how it says that there is none.
const FILE_LENGTH: i32 = 1;

const UNLIMITED: u64 = u64::MAX;

/// The most bytes of a journal's words that are read.
const MOST: usize = 1_048_576;

/// What stands at a place where nothing is looked for.
const NOTHING: Site = Site {
    kind: None,
    is_writable: true,
};

fn kind_of(found: FileType) -> Kind {
    if found.is_file() {
        Kind::Plain
    } else if found.is_dir() {
        Kind::Folder
    } else if found.is_fifo() {
        Kind::Pipe
    } else if found.is_socket() {
        Kind::Socket
    } else {
        Kind::Device
    }
}

// What stands at a path. What can't be seen counts as nothing: the call that needs it says so.
fn site<R: SystemFiles<File = File>>(rt: &R, path: &str) -> Site {
    let Ok(found) = fs::metadata(rt, path) else {
        return NOTHING;
    };
    let kind = kind_of(found.file_type());
    // Opening a pipe would wait.
    let is_writable = kind == Kind::Plain && OpenOptions::new().write(true).open(rt, path).is_ok();
    Site {
        kind: Some(kind),
        is_writable,
    }
}

fn beside<R: SystemFiles<File = File>>(
    rt: &R,
    alloc: Global,
    name: &str,
    ending: Ending,
) -> Result<Site, AllocError> {
    let path = format!(in alloc; "{name}{}", ending.text())?;
    Ok(site(rt, path.as_str()))
}

// Whether a new file can be made beside this one, whose name goes on with this end.
fn takes_new<R: SystemFiles<File = File>>(
    rt: &R,
    alloc: Global,
    name: &str,
    ending: Ending,
) -> Result<bool, AllocError> {
    if !has_room(name, ending.text()) {
        return Ok(false);
    }
    let part = part_of(alloc, name)?;
    let made = OpenOptions::new()
        .write(true)
        .create_new(true)
        .open(rt, &*part);
    match made {
        Ok(_) => Ok(fs::remove_file(rt, &*part).is_ok()),
        Err(e) => Ok(e.kind() == ErrorKind::AlreadyExists),
    }
}

// The limit on a file's length.
fn length_limit() -> Option<u64> {
    let mut limit = libc::types::rlimit {
        rlim_cur: 0,
        rlim_max: 0,
    };
    if libc::getrlimit(FILE_LENGTH, &mut limit) < 0 || limit.rlim_cur == UNLIMITED {
        return None;
    }
    Some(limit.rlim_cur)
}

// What the journal of a file was begun with, if one was.
fn begun<R: SystemFiles<File = File>>(rt: &R, alloc: Global, name: &str) -> io::Result<Begun> {
    let journal = format!(in alloc; "{name}{}", Ending::Journal.text())?;
    if !has_length(rt, journal.as_str()) {
        return Ok(Begun::Nothing);
    }
    let path = format!(in alloc; "{name}{}", Ending::JournalWords.text())?;
    if !stands(rt, path.as_str())? {
        return Ok(Begun::Unknown);
    }
    let text = match String::from_utf8(read_most(rt, alloc, path.as_str(), MOST)?) {
        Ok(text) => text,
        Err(_) => return Ok(Begun::Unknown),
    };
    Ok(match words_in(alloc, text.as_str())? {
        Some(words) => Begun::With(words),
        None => Begun::Unknown,
    })
}

/// Whether a plain file with some bytes stands there.
pub fn has_length<R: SystemFiles>(rt: &R, path: &str) -> bool {
    match fs::metadata(rt, path) {
        Ok(found) => found.is_file() && found.len() > 0,
        Err(_) => false,
    }
}

/// What is found of a file that is to be reduced, with a journal or without, and of that journal where the run is to go on with it.
pub fn facts<R: SystemFiles<File = File>>(
    rt: &R,
    alloc: Global,
    name: &str,
    keeps_journal: bool,
    resumes: bool,
) -> Result<Facts, AllocError> {
    let (longest, journal, journal_words) = if keeps_journal {
        (
            Ending::JournalWords,
            beside(rt, alloc, name, Ending::Journal)?,
            beside(rt, alloc, name, Ending::JournalWords)?,
        )
    } else {
        (Ending::Copy, NOTHING, NOTHING)
    };
    let begun = if resumes {
        begun(rt, alloc, name).unwrap_or(Begun::Unknown)
    } else {
        Begun::Nothing
    };
    let (file_sum, copy_sum) = if resumes {
        let copy = format!(in alloc; "{name}{}", Ending::Copy.text())?;
        (
            sum_of(rt, alloc, name).ok(),
            sum_of(rt, alloc, copy.as_str()).ok(),
        )
    } else {
        (None, None)
    };
    let file = site(rt, name);
    // That a file isn't there is the run's to say, unless its copy is what the run goes on from.
    let is_missed = file.kind.is_none() && !resumes;
    Ok(Facts {
        file,
        takes_new: is_missed || takes_new(rt, alloc, name, longest)?,
        copy: beside(rt, alloc, name, Ending::Copy)?,
        log: beside(rt, alloc, name, Ending::Log)?,
        best: beside(rt, alloc, name, Ending::Best)?,
        journal,
        journal_words,
        most: length_limit(),
        begun,
        file_sum,
        copy_sum,
    })
}
