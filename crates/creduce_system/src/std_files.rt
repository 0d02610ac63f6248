// The files of the operating system.
ghost use Rattle.std.specs.Prelude.{◌≡◌, ◌≤◌, IsErrOf, None};
ghost use Rattle.cr_outside.specs.Faults.{Rose};

use crate::older::{keep_away, stands};
use crate::part::{put_in_place, put_whole};
use crate::sums::sum_of_bytes;
use cr_around::{Ending, JournalWords, words_text};
use cr_outside::{FileFault, Files, Outside, ReadAnswer};
use std::alloc::Global;
use std::fs::{self, File, Metadata, OpenOptions};
use std::io::{self, ErrorKind, Read};
use std::os::unix::fs::MetadataExt;
use std::rt::Files as SystemFiles;

/// What the name of the copy of a file ends with.
const COPY: &str = ".orig";

/// The most bytes that are read of it: more than a file that is reduced may have.
const MOST: usize = 1 << 25;

/// The files of the operating system, by their paths. They tell no content.
///
/// A file that is written is on the disk, with its name, before the write answers `Ok`, and it is replaced whole, so that a stop at any
/// moment leaves the old bytes or the new ones. It keeps its mode; where it is a link, the link's target is replaced; and where it has
/// several names, or its folder takes no new file of this user's, it is written in place. The copy of the file that is reduced has that
/// file's mode, and an older copy with other bytes is kept under a name of its own. Only plain files are read.
#[derive(Drop)]
pub struct StdFiles<'a, R> {
    rt: &'a R,
    reduced: Option<&'a str>,
    /// What stands beside the journal of the file, where one is kept.
    words: Option<JournalWords>,
    /// Whether the file had other bytes than those that were read when it was to be written.
    pub was_changed: bool,
    /// Under which name an older copy is kept, once it was renamed.
    pub kept: Option<String>,
    pub(crate) faults: u64,
}

/// What a file that is written is to the reduction.
#[derive(Clone, Copy)]
enum Role<'a> {
    /// The file itself.
    Reduced,
    /// Any, where it isn't known which file is reduced.
    Any,
    /// The copy of the file of this name.
    Copy(&'a str),
    /// What a reduction leaves beside both.
    Beside,
}

impl<'a, R> StdFiles<'a, R> {
    /// No call has failed yet. `reduced` is the file that is reduced.
    pub fn new(rt: &'a R, reduced: Option<&'a str>) -> StdFiles<'a, R>
        ensures { result.faults ≡ 0 }
    {
        StdFiles {
            rt,
            reduced,
            words: None,
            was_changed: false,
            kept: None,
            faults: 0,
        }
    }

    /// The same files, which note the checksum of the result beside the journal before it is put in the file's place.
    pub fn noting(self, words: Option<JournalWords>) -> StdFiles<'a, R>
        ensures { result.faults ≡ self.entry.faults }
    {
        StdFiles { words, ..self }
    }

    fn role(&self, name: &str) -> Role<'a> {
        let Some(reduced) = self.reduced else {
            return Role::Any;
        };
        if name == reduced {
            Role::Reduced
        } else if name.strip_suffix(COPY) == Some(reduced) {
            Role::Copy(reduced)
        } else {
            Role::Beside
        }
    }

    /// What a write answers. A fault is counted.
    fn answer_write(&mut self, written: io::Result<()>) -> Result<(), FileFault>
        ensures later { self.old.faults ≤ self.new.faults }
        ensures failed { IsErrOf result FileFault.Failed → Rose self.old.faults self.new.faults }
    {
        match written {
            Ok(()) => Ok(()),
            Err(e) if e.kind() == ErrorKind::OutOfMemory => Err(FileFault::NoMemory),
            Err(_) => {
                self.faults = self.faults.saturating_add(1);
                Err(FileFault::Failed)
            }
        }
    }
}

impl<R: SystemFiles<File = File>> StdFiles<'_, R> {
    // Writes the file that is reduced, unless somebody has changed it since it was read: its copy has the bytes that were read.
    fn put_reduced(&mut self, alloc: Global, name: &str, bytes: &[u8]) -> io::Result<()>
        ensures { self.new.faults ≡ self.old.faults }
    {
        if self.is_changed(alloc, name, bytes)? {
            self.was_changed = true;
            return Err(io::Error::from(ErrorKind::InvalidData));
        }
        self.note_result(alloc, name, bytes)?;
        put_subject(self.rt, alloc, name, bytes)
    }

    // Writes a file as what it is to the reduction.
    fn put(&mut self, alloc: Global, name: &str, bytes: &[u8]) -> io::Result<()>
        ensures { self.new.faults ≡ self.old.faults }
    {
        match self.role(name) {
            Role::Reduced => self.put_reduced(alloc, name, bytes),
            Role::Any => put_subject(self.rt, alloc, name, bytes),
            Role::Copy(reduced) => self.put_copy(alloc, name, reduced, bytes),
            Role::Beside => put_beside(self.rt, alloc, name, bytes),
        }
    }

    // From here on the file may have these bytes.
    fn note_result(&mut self, alloc: Global, name: &str, bytes: &[u8]) -> io::Result<()>
        ensures { self.new.faults ≡ self.old.faults }
    {
        let Some(words) = &mut self.words else {
            return Ok(());
        };
        words.result = Some(sum_of_bytes(alloc, bytes)?);
        let text = words_text(alloc, words)?;
        let path = format!(in alloc; "{name}{}", Ending::JournalWords.text())?;
        put_beside(self.rt, alloc, path.as_str(), text.as_bytes())
    }

    // Whether the file has other bytes than its copy, than these, and than the result that the journal's words name. One that isn't there has
    // none to lose.
    fn is_changed(&self, alloc: Global, name: &str, bytes: &[u8]) -> io::Result<bool> {
        let there = match read_most(self.rt, alloc, name, MOST) {
            Err(e) if e.kind() == ErrorKind::NotFound => return Ok(false),
            read => read?,
        };
        if there.as_slice() == bytes || self.is_result(alloc, there.as_slice())? {
            return Ok(false);
        }
        let copy = format!(in alloc; "{name}{COPY}")?;
        Ok(read_most(self.rt, alloc, copy.as_str(), MOST)?.as_slice() != there.as_slice())
    }

    // Whether these are the bytes of the result that the journal's words name: of a run that had ended and is gone on with.
    fn is_result(&self, alloc: Global, bytes: &[u8]) -> io::Result<bool> {
        let noted = self.words.as_ref().and_then(|words| words.result.as_ref());
        match noted {
            Some(noted) => Ok(noted.as_str() == sum_of_bytes(alloc, bytes)?.as_str()),
            None => Ok(false),
        }
    }

    // Writes the copy of a file, with that file's mode. Whatever stands in its place with other bytes is kept.
    fn put_copy(&mut self, alloc: Global, name: &str, reduced: &str, bytes: &[u8]) -> io::Result<()>
        ensures { self.new.faults ≡ self.old.faults }
    {
        if stands(self.rt, name)? && !has_bytes(self.rt, alloc, name, bytes)? {
            self.kept = Some(keep_away(self.rt, alloc, name)?);
        }
        let like = found(self.rt, reduced)?;
        put_whole(self.rt, alloc, name, bytes, like.as_ref(), None)
    }
}

// The metadata of what a path leads to, if anything stands there.
fn found<R: SystemFiles>(rt: &R, name: &str) -> io::Result<Option<Metadata>> {
    match fs::metadata(rt, name) {
        Ok(found) => Ok(Some(found)),
        Err(e) if e.kind() == ErrorKind::NotFound => Ok(None),
        Err(e) => Err(e),
    }
}

// Whether a plain file stands there, and no link, that has these bytes.
fn has_bytes<R: SystemFiles<File = File>>(
    rt: &R,
    alloc: Global,
    name: &str,
    bytes: &[u8],
) -> io::Result<bool> {
    let there = fs::symlink_metadata(rt, name)?;
    if !there.is_file() || there.len() != bytes.len() as u64 {
        return Ok(false);
    }
    Ok(read_most(rt, alloc, name, bytes.len())?.as_slice() == bytes)
}

// Writes a file that may be a link. One that its user may not write is refused, though its folder might take another.
fn put_subject<R: SystemFiles<File = File>>(
    rt: &R,
    alloc: Global,
    name: &str,
    bytes: &[u8],
) -> io::Result<()> {
    let Some(there) = found(rt, name)? else {
        return put_whole(rt, alloc, name, bytes, None, None);
    };
    drop(OpenOptions::new().write(true).open(rt, name)?);
    if there.nlink() > 1 {
        return put_in_place(rt, name, bytes);
    }
    if !fs::symlink_metadata(rt, name)?.is_symlink() {
        return put_whole(rt, alloc, name, bytes, Some(&there), Some(&there));
    }
    let target = rt.canonicalize(alloc, name)?;
    put_whole(
        rt,
        alloc,
        target.as_str(),
        bytes,
        Some(&there),
        Some(&there),
    )
}

// Writes a file beside both; a link there is replaced, and not followed.
fn put_beside<R: SystemFiles<File = File>>(
    rt: &R,
    alloc: Global,
    name: &str,
    bytes: &[u8],
) -> io::Result<()> {
    let there = found(rt, name)?;
    put_whole(rt, alloc, name, bytes, there.as_ref(), None)
}

/// The first bytes of a plain file. What is none, as a folder or a pipe, isn't opened.
pub fn read_most<R: SystemFiles<File = File>>(
    rt: &R,
    alloc: Global,
    name: &str,
    most: usize,
) -> io::Result<Vec<u8>> {
    if !fs::metadata(rt, name)?.is_file() {
        return Err(io::Error::from(ErrorKind::InvalidInput));
    }
    let mut bytes = Vec::new(alloc);
    fs::open(rt, name)?
        .take(most as u64)
        .read_to_end(&mut bytes)?;
    Ok(bytes)
}

impl<R> Outside for StdFiles<'_, R> {
    ghost story = { λ _. None };
}

impl<R: SystemFiles<File = File>> Files for StdFiles<'_, R> {
    ghost faults = { λ s. s.faults };

    fn read(&mut self, alloc: Global, name: &str, most: usize) -> ReadAnswer {
        match read_most(self.rt, alloc, name, most) {
            Ok(bytes) => ReadAnswer::Bytes(bytes),
            Err(e) => match e.kind() {
                ErrorKind::NotFound => ReadAnswer::Absent,
                ErrorKind::OutOfMemory => ReadAnswer::NoMemory,
                _ => {
                    self.faults = self.faults.saturating_add(1);
                    ReadAnswer::Failed
                }
            },
        }
    }

    fn write(&mut self, alloc: Global, name: &str, bytes: &[u8]) -> Result<(), FileFault> {
        let written = self.put(alloc, name, bytes);
        self.answer_write(written)
    }
}
