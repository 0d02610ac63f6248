// The adapters of the system, on real files and with programs that stand on every system.
use cr_outside::{Answer, Files, Judge, ReadAnswer, Sink};
use creduce_system::{ProcessJudge, Progress, Shown, StdFiles, StdOut};
use std::os::unix::fs::{MetadataExt, PermissionsExt, symlink};
use std::process::Command;
use std::{fs, io};

const NAME: &str = "creduce-test-file.c";

/// The permissions of a file that its owner alone may read and write.
const OWN: u32 = 0o600;

fn reads(answer: ReadAnswer, text: &str) -> bool {
    match answer {
        ReadAnswer::Bytes(bytes) => bytes.as_slice() == text.as_bytes(),
        ReadAnswer::Absent | ReadAnswer::Failed | ReadAnswer::NoMemory => false,
    }
}

// Whether a file, which is removed, had this text and these permissions.
fn had(rt: &HostRuntime, name: &str, text: &str, mode: u32) -> io::Result<bool> {
    let is_so = fs::read(rt, name)?.as_slice() == text.as_bytes()
        && fs::symlink_metadata(rt, name)?.mode() & 0o777 == mode;
    fs::remove_file(rt, name)?;
    Ok(is_so)
}

fn make(rt: &HostRuntime, name: &str, text: &str, mode: u32) -> io::Result<()> {
    fs::write(rt, name, text)?;
    fs::set_permissions(rt, name, fs::Permissions::from_mode(mode))
}

#[test]
fn a_real_file_is_written_read_and_missed(rt: HostRuntime) -> io::Result<()> {
    let mut files = StdFiles::new(&rt, None);
    assert_eq!(rt; files.write(rt.alloc(), NAME, b"int a;\n"), Ok(()));
    assert_eq!(rt; files.write(rt.alloc(), NAME, b"int\n"), Ok(()));
    assert!(rt; reads(files.read(rt.alloc(), NAME, 9), "int\n"));
    assert!(rt; reads(files.read(rt.alloc(), NAME, 2), "in"));
    fs::remove_file(&rt, NAME)?;
    assert!(rt;
        matches!(files.read(rt.alloc(), NAME, 9), ReadAnswer::Absent),
        "a file that isn't there was read"
    );
    // A folder can't be read.
    assert!(rt; matches!(files.read(rt.alloc(), ".", 9), ReadAnswer::Failed));
    Ok(())
}

#[test]
fn a_pipe_is_not_opened(rt: HostRuntime) -> io::Result<()> {
    let mut command = Command::new(rt.alloc(), "mkfifo")?;
    command.arg("creduce-test-pipe")?.status(&rt)?;
    let mut files = StdFiles::new(&rt, None);
    assert!(rt;
        matches!(
            files.read(rt.alloc(), "creduce-test-pipe", 9),
            ReadAnswer::Failed
        )
    );
    fs::remove_file(&rt, "creduce-test-pipe")
}

#[test]
fn a_file_and_its_copy_have_its_mode_and_an_older_copy_is_kept(rt: HostRuntime) -> io::Result<()> {
    let alloc = rt.alloc();
    make(&rt, "creduce-test-own.c", "int a;", OWN)?;
    make(&rt, "creduce-test-own.c.orig", "int b;", 0o644)?;
    make(&rt, "creduce-test-own.c.orig.1", "int c;", 0o644)?;
    let mut files = StdFiles::new(&rt, Some("creduce-test-own.c"));
    assert!(rt; files.write(alloc, "creduce-test-own.c.orig", b"int a;") == Ok(()));
    assert!(rt; files.write(alloc, "creduce-test-own.c.orig", b"int a;") == Ok(()));
    assert!(rt; files.write(alloc, "creduce-test-own.c", b"int;") == Ok(()));
    assert!(rt; had(&rt, "creduce-test-own.c", "int;", OWN)?);
    assert!(rt; had(&rt, "creduce-test-own.c.orig", "int a;", OWN)?);
    assert!(rt; had(&rt, "creduce-test-own.c.orig.1", "int c;", 0o644)?);
    assert!(rt; had(&rt, "creduce-test-own.c.orig.2", "int b;", 0o644)?);
    Ok(())
}

#[test]
fn a_file_goes_on_under_all_its_names(rt: HostRuntime) -> io::Result<()> {
    let alloc = rt.alloc();
    make(&rt, "creduce-test-a.c", "int a;", OWN)?;
    fs::hard_link(&rt, "creduce-test-a.c", "creduce-test-b.c")?;
    symlink(&rt, "creduce-test-a.c", "creduce-test-c.c")?;
    symlink(&rt, "creduce-test-c.c", "creduce-test-c.c.orig")?;
    let mut files = StdFiles::new(&rt, Some("creduce-test-c.c"));
    // A copy that is a link to the file itself is no copy.
    assert!(rt; files.write(alloc, "creduce-test-c.c.orig", b"int a;") == Ok(()));
    assert!(rt; files.write(alloc, "creduce-test-c.c", b"int;") == Ok(()));
    fs::remove_file(&rt, "creduce-test-c.c.orig.1")?;
    fs::remove_file(&rt, "creduce-test-c.c")?;
    assert!(rt; had(&rt, "creduce-test-a.c", "int;", OWN)?);
    assert!(rt; had(&rt, "creduce-test-b.c", "int;", OWN)?);
    assert!(rt; had(&rt, "creduce-test-c.c.orig", "int a;", OWN)?);
    Ok(())
}

#[test]
fn a_piece_goes_to_standard_output(rt: HostRuntime) {
    let mut out = StdOut::new(&rt, rt.alloc());
    assert_eq!(rt; out.put(b"a piece of a test\n"), Ok(()));
    assert!(rt; out.so_far() == b"a piece of a test\n".as_slice());
}

/// Tests that stand on every system, and what they answer.
const TESTS: [(&str, Answer); 3] = [
    ("/bin/true", Answer::Yes),
    ("/bin/false", Answer::No),
    ("/bin/there-is-no-such-test", Answer::Failed),
];

#[test]
fn a_process_answers_by_its_exit_status(rt: HostRuntime) -> io::Result<()> {
    let mut judge = ProcessJudge::new(&rt, 7, "of-a-test", OWN);
    for (test, wanted) in TESTS {
        let answer = judge.ask(rt.alloc(), test, "judged.c", b"int a;\n");
        assert!(rt; answer == wanted, "{test}");
    }
    assert!(rt; judge.asked == 3 && judge.faults == 1);
    assert!(rt; had(&rt, "creduce-trial-7/judged.c", "int a;\n", OWN)?);
    fs::remove_dir(&rt, "creduce-trial-7")
}

#[test]
fn a_variant_is_alone_in_its_folder(rt: HostRuntime) -> io::Result<()> {
    let mut judge = ProcessJudge::new(&rt, 9, "of-a-test", OWN);
    fs::create_dir(&rt, "creduce-test-kept")?;
    fs::write(&rt, "creduce-test-kept/kept", "kept")?;
    // The folder of an older run.
    fs::create_dir(&rt, "creduce-trial-9")?;
    fs::write(&rt, "creduce-trial-9/stale", "stale")?;
    assert!(rt; is_alone(&rt, &mut judge)?);
    // What a test leaves: files, folders and links.
    fs::write(&rt, "creduce-trial-9/stale", "stale")?;
    fs::create_dir(&rt, "creduce-trial-9/deep")?;
    symlink(&rt, "../../creduce-test-kept", "creduce-trial-9/deep/link")?;
    symlink(&rt, "../creduce-test-kept", "creduce-trial-9/link")?;
    assert!(rt; is_alone(&rt, &mut judge)?);
    // A link in the place of the folder.
    fs::rename(&rt, "creduce-trial-9", "creduce-test-moved")?;
    symlink(&rt, "creduce-test-kept", "creduce-trial-9")?;
    assert!(rt; is_alone(&rt, &mut judge)?);
    fs::remove_dir_all(&rt, "creduce-trial-9")?;
    fs::remove_dir_all(&rt, "creduce-test-moved")?;
    assert!(rt; had(&rt, "creduce-test-kept/kept", "kept", 0o644)?);
    fs::remove_dir(&rt, "creduce-test-kept")
}

// Asks a judge of number 9, and answers whether its folder, and no link, then has the variant alone.
fn is_alone(rt: &HostRuntime, judge: &mut ProcessJudge<'_, HostRuntime>) -> io::Result<bool> {
    let answer = judge.ask(rt.alloc(), "/bin/true", "alone.c", b"int a;");
    let mut count = 0u32;
    for entry in fs::read_dir(rt, "creduce-trial-9")? {
        entry?;
        count = count.saturating_add(1);
    }
    Ok(
        answer == Answer::Yes
            && count == 1
            && fs::symlink_metadata(rt, "creduce-trial-9")?.is_dir()
            && fs::read(rt, "creduce-trial-9/alone.c")?.as_slice() == b"int a;".as_slice(),
    )
}

/// Tests in turn, and the file that each is asked about.
const NOTED: [(&str, &str); 5] = [
    ("/bin/true", "int a, b;"),
    ("/bin/true", "int b;"),
    ("/bin/true", "int a[2];"),
    ("/bin/false", ";"),
    ("/bin/there-is-no-such-test", ""),
];

#[test]
fn the_smallest_file_that_passed_is_kept(rt: HostRuntime) -> io::Result<()> {
    make(&rt, "noted.c", "int a, b, c;", OWN)?;
    make(&rt, "noted.c.best", "int d;", 0o644)?;
    let progress = Progress::new(&rt, Shown::Lines, u64::MAX, Some("noted.c"));
    let mut judge = ProcessJudge::new(&rt, 8, "of-a-test", OWN).noting(&progress);
    for (test, file) in NOTED {
        let _ = judge.ask(rt.alloc(), test, "noted.c", file.as_bytes());
    }
    assert!(rt; judge.asked == 5 && judge.faults == 1 && progress.has_kept(&rt));
    assert!(rt; had(&rt, "noted.c.best.1", "int d;", 0o644)?);
    assert!(rt; had(&rt, "noted.c.best", "int b;", OWN)?);
    fs::remove_file(&rt, "noted.c")?;
    fs::remove_dir_all(&rt, "creduce-trial-8")
}
