// A file of the system that is replaced whole.
ghost use Rattle.std.specs.Prelude.{◌≡◌, None};

use crate::faults::{error_of, fault_of};
use crate::paths::{folder_of, part_of};
use cr_around::{PlaceFault, Shelf, replace};
use std::alloc::Global;
use std::fs::{self, File, Metadata, OpenOptions};
use std::io::{self, ErrorKind, Write};
use std::os::unix::fs::{MetadataExt, OpenOptionsExt};
use std::rt::Files as SystemFiles;

/// Read, write and run, for the owner, the group and all others.
const PERMISSIONS: u32 = 0o777;

/// A part that was made beside a file, and the folder of both. It tells no steps.
#[derive(Drop)]
struct Part<'a, R> {
    rt: &'a R,
    name: &'a str,
    part: &'a str,
    file: File,
    folder: File,
}

impl<R: SystemFiles<File = File>> Shelf for Part<'_, R> {
    ghost steps = { λ _. None };

    fn part(&mut self, bytes: &[u8]) -> Result<(), PlaceFault> {
        self.file.write_all(bytes).map_err(fault_of)
    }

    fn sync(&mut self) -> Result<(), PlaceFault> {
        self.file.sync_all().map_err(fault_of)
    }

    fn rename(&mut self) -> Result<(), PlaceFault> {
        fs::rename(self.rt, self.part, self.name).map_err(fault_of)
    }

    fn settle(&mut self) -> Result<(), PlaceFault> {
        sync_names(&self.folder).map_err(fault_of)
    }
}

// Puts a folder's names on the disk, where its file system can be asked for that.
fn sync_names(folder: &File) -> io::Result<()> {
    match folder.sync_all() {
        Err(e) if e.kind() == ErrorKind::InvalidInput => Ok(()),
        synced => synced,
    }
}

/// Puts the name of a file on the disk.
pub fn sync_name<R: SystemFiles<File = File>>(rt: &R, name: &str) -> io::Result<()> {
    sync_names(&OpenOptions::new().read(true).open(rt, folder_of(name))?)
}

/// Makes an empty file where none is, with the permissions of this one.
pub fn make<R: SystemFiles<File = File>>(
    rt: &R,
    name: &str,
    like: Option<&Metadata>,
) -> io::Result<File> {
    let mut options = OpenOptions::new();
    options.write(true).create_new(true);
    let Some(like) = like else {
        return options.open(rt, name);
    };
    let file = options.mode(like.mode() & PERMISSIONS).open(rt, name)?;
    // The mask of the process may have taken some away.
    file.set_permissions(like.permissions())?;
    Ok(file)
}

// Whether both have one owner and one group.
fn is_of_one_owner(file: &Metadata, part: &Metadata) -> bool {
    file.uid() == part.uid() && file.gid() == part.gid()
}

// Makes the part, in the place of one that a stop has left. None where the folder takes no new file of this user.
fn begin<R: SystemFiles<File = File>>(
    rt: &R,
    part: &str,
    like: Option<&Metadata>,
) -> io::Result<Option<File>> {
    match fs::remove_file(rt, part) {
        Err(e) if e.kind() == ErrorKind::PermissionDenied => return Ok(None),
        Err(e) if e.kind() != ErrorKind::NotFound => return Err(e),
        _ => {}
    }
    match make(rt, part, like) {
        Ok(file) => Ok(Some(file)),
        Err(e) if e.kind() == ErrorKind::PermissionDenied => Ok(None),
        Err(e) => Err(e),
    }
}

/// Puts these bytes in the place of a file's, on the disk, so that a stop at any moment, a cut of the power too, leaves the old file or the
/// new one, which has the permissions of `like`. In place, and on the disk, where the folder takes no new file, or where the new one would
/// have another owner than `owned`.
pub fn put_whole<R: SystemFiles<File = File>>(
    rt: &R,
    alloc: Global,
    name: &str,
    bytes: &[u8],
    like: Option<&Metadata>,
    owned: Option<&Metadata>,
) -> io::Result<()> {
    let part = part_of(alloc, name)?;
    let part = part.as_str();
    let Some(file) = begin(rt, part, like)? else {
        return put_in_place(rt, name, bytes);
    };
    let made = file.metadata()?;
    if owned.is_some_and(|owned| !is_of_one_owner(owned, &made)) {
        fs::remove_file(rt, part)?;
        return put_in_place(rt, name, bytes);
    }
    let put = put_part(rt, name, part, file, bytes);
    if put.is_err() {
        let _ = fs::remove_file(rt, part);
    }
    put
}

fn put_part<R: SystemFiles<File = File>>(
    rt: &R,
    name: &str,
    part: &str,
    file: File,
    bytes: &[u8],
) -> io::Result<()> {
    let folder = OpenOptions::new().read(true).open(rt, folder_of(name))?;
    let mut shelf = Part {
        rt,
        name,
        part,
        file,
        folder,
    };
    replace(&mut shelf, bytes).map_err(error_of)
}

/// Writes a whole file in place, and puts it and its name on the disk.
pub fn put_in_place<R: SystemFiles<File = File>>(
    rt: &R,
    name: &str,
    bytes: &[u8],
) -> io::Result<()> {
    let mut file = OpenOptions::new()
        .write(true)
        .create(true)
        .truncate(true)
        .open(rt, name)?;
    file.write_all(bytes)?;
    file.sync_all()?;
    sync_name(rt, name)
}
