// A reduction that is kept, and gone on with after a stop at each call on its disk. What is wanted was found by hand from the rules of
// the lines pass and of the reduction.
ghost use Rattle.std.specs.Prelude.{◌≡◌, ◌<◌, ◌≤◌, ◌+◌, ◌*◌, ◌^◌, [], ℕ, IfOk, IfSome, None, length, true};
ghost use Rattle.cr_cursor.specs.TokenLaw.{IsTokenized};
ghost use Rattle.cr_cursor.specs.Variants.{pass_count};
ghost use Rattle.cr_journal.specs.Keeping.{Rests};
ghost use Rattle.cr_journal_records.specs.Records.{AtRest};
ghost use Rattle.cr_journal_rows.specs.Forms.{bodies_of};
ghost use Rattle.cr_outside_disk.specs.Moments.{EveryTold};
ghost use Rattle.cr_reduce.specs.Sizes.{HasSize};

use crate::texts::{bytes_of, disk, expect};
use cr_cursor::{Cursor, Law, Never, NoMemory, Ruling, TokenLaw};
use cr_journal::{KeptEnd, reduce_kept, replay};
use cr_journal_rows::{Header, JournalFault, begin, recover};
use cr_outside::{Answer, Judge, Test};
use cr_outside_disk::{Disk, DiskFault, MemDisk};
use cr_pool::Bench;
use cr_reduce::{Accepted, End, Kept, Plan, Why};
use pass_list::CPasses;
use std::alloc::{AllocError, Global};
use std::process::Abort;
use std::thread::Threads;

const FILE: &[u8] = b"int a;\nint b;\nint c;\n";

const RESULT: &[u8] = b"int b;\n";

/// A header and two rows: `l 13 1 68 15` and `l 14 0 34 16`.
const JOURNAL: &str = "\
01010040420f0000000000ffffffffffffffff66000000000000000000000000\
01000d010000000000000044000000000000000f000000000000000000000000\
01000e0000000000000000220000000000000010000000000000000000000000\
00";

const HEADER: Header = Header {
    passes: 1,
    steps: 1_000_000,
    limit: u64::MAX,
    size: 102,
};

/// The most turns of a row.
const MOST: u64 = u64::MAX / 2;

/// The calls on the disk of a run that isn't stopped: a start; the sync of a recovery; cut, sync, write, sync; and for the header and each
/// row write, sync, write, sync.
const CALLS: u64 = 18;

// Counts its calls, of which there are none: the test is a text.
#[derive(Drop)]
struct Silent {
    asked: u64,
}

impl Judge for Silent {
    type Key = ();

    ghost key = { λ _. tt };

    ghost says = { λ _ _ _ _. None };

    ghost asked = { λ j. j.asked };

    ghost calls = { λ _. None };

    ghost faults = { λ _. 0 };

    fn ask(&mut self, _alloc: Global, _test: &str, _name: &str, _file: &[u8]) -> Answer {
        self.asked = self.asked.saturating_add(1);
        Answer::NoMemory
    }
}

fn bench(alloc: Global) -> Result<Bench<Silent>, NoMemory>
    ensures some { IfOk result (λ bench. 0 < length bench.judges) }
    ensures kept { IfOk result (λ bench. bench.kept ≡ []) }
{
    let mut judges = Vec::new(alloc);
    judges.push(Silent { asked: 0 })?;
    Bench::new(alloc, judges)
}

// A row of the lines pass.
fn row(level: u8, index: u64, size: u64, turn: u64) -> Accepted {
    Accepted {
        at: Cursor {
            pass: 0,
            level,
            index,
        },
        size,
        turn,
    }
}

fn rows() -> [Accepted; 2] {
    [row(13, 1, 68, 15), row(14, 0, 34, 16)]
}

// The file, which tokenises.
fn file(rt: &impl Abort, alloc: Global) -> Result<Vec<u8>, NoMemory>
    ensures { IfOk result (λ file. IsTokenized file.items) }
{
    let file = FILE.to_vec(alloc)?;
    match TokenLaw.rule(alloc, &file, &mut Never { looks: 0 }) {
        Ruling::Lawful => Ok(file),
        Ruling::NoMemory => Err(AllocError),
        _ => panic!(rt; "the file has no tokens"),
    }
}

// What the disk's journal has, which is begun where there is none. Nothing where a call on the disk failed.
fn opened<D: Disk>(
    rt: &impl Abort,
    alloc: Global,
    disk: &mut D,
) -> Result<Option<(Header, Vec<Accepted>)>, NoMemory>
    ensures rests { IfOk result (λ found. IfSome found (λ journal. EveryTold (AtRest (bodies_of journal.0 journal.1.items)) (D.story disk.new))) }
    ensures ready { IfOk result (λ found. IfSome found (λ _. D.is_ready disk.new ≡ true)) }
    ensures long { IfOk result (λ found. IfSome found (λ journal. 32 * length journal.1.items + 33 ≤ D.size disk.new)) }
{
    let len = match disk.start(alloc, "f.c.journal") {
        Ok(len) => len,
        Err(DiskFault::Failed) => return Ok(None),
        Err(DiskFault::NoMemory) => return Err(AllocError),
    };
    let fault = match recover(disk, alloc, len) {
        Ok(Some(journal)) => return Ok(Some(journal)),
        Ok(None) => match begin(disk, alloc, &HEADER) {
            Ok(()) => return Ok(Some((HEADER, Vec::new(alloc)))),
            Err(fault) => fault,
        },
        Err(fault) => fault,
    };
    match fault {
        JournalFault::Disk => Ok(None),
        JournalFault::NoMemory => Err(AllocError),
        _ => panic!(rt; "the journal is bad"),
    }
}

// Where the reduction stands by the disk's journal. Nothing where a call on the disk failed.
fn standing<D: Disk>(rt: &impl Abort, alloc: Global, disk: &mut D) -> Result<Option<Kept>, NoMemory>
    ensures sized { IfOk result (λ found. IfSome found (λ kept. (n : ℕ) × HasSize kept.file.items n)) }
    ensures place { IfOk result (λ found. IfSome found (λ kept. (kept.at.pass < pass_count) × (kept.at.level < 16))) }
    ensures turns { IfOk result (λ found. IfSome found (λ kept. kept.turns < 2 ^ 63)) }
    ensures rests { IfOk result (λ found. IfSome found (λ kept. Rests kept.accepted.items (D.story disk.new))) }
    ensures ready { IfOk result (λ found. IfSome found (λ _. D.is_ready disk.new ≡ true)) }
    ensures long { IfOk result (λ found. IfSome found (λ kept. 32 * length kept.accepted.items + 33 ≤ D.size disk.new)) }
{
    let file = file(rt, alloc)?;
    let Some((header, rows)) = opened(rt, alloc, disk)? else {
        return Ok(None);
    };
    assert!(rt; header == HEADER, "another header");
    match replay(alloc, &CPasses::lines(), &TokenLaw, file, rows, MOST) {
        Ok(kept) => Ok(Some(kept)),
        Err(JournalFault::NoMemory) => Err(AllocError),
        Err(_) => panic!(rt; "the rows don't follow"),
    }
}

// Reduces as far as the disk goes. Nothing where a call on it failed.
fn reduced<R: Threads + Abort + Sync>(
    rt: &R,
    alloc: Global,
    disk: &mut MemDisk,
) -> Result<Option<End>, NoMemory> {
    let Some(kept) = standing(rt, alloc, disk)? else {
        return Ok(None);
    };
    let Ok(question) = Test::read(alloc, "has:b") else {
        panic!(rt; "no test");
    };
    let plan = Plan {
        workers: 1,
        window: 64,
        limit: None,
    };
    let mut bench = bench(alloc)?;
    let passes = CPasses::lines();
    let end = reduce_kept(
        rt, alloc, &passes, &TokenLaw, &question, &mut bench, disk, "f.c", kept, &plan,
    );
    match end {
        KeptEnd::Done(end) => Ok(Some(end)),
        KeptEnd::Disk => Ok(None),
    }
}

fn expect_end(
    rt: &impl Abort,
    alloc: Global,
    end: &Option<End>,
    disk: &MemDisk,
    row: &str,
) -> Result<(), AllocError> {
    let Some(end) = end else {
        panic!(rt; "{row}: the disk failed");
    };
    expect(rt, &end.file, RESULT, row);
    assert!(rt; end.accepted.as_slice() == rows().as_slice(), "{row}");
    assert!(rt; end.turns == 32 && end.why == Why::Fixed, "{row}");
    expect(rt, &disk.image(alloc, 7)?, &bytes_of(alloc, JOURNAL)?, row);
    Ok(())
}

#[test]
fn a_kept_reduction_leaves_its_rows(rt: HostRuntime) -> Result<(), AllocError> {
    let alloc = rt.alloc();
    let mut disk = disk(alloc, b"", &[])?;
    let end = reduced(&rt, alloc, &mut disk)?;
    expect_end(&rt, alloc, &end, &disk, "not stopped")
}

#[test]
fn after_each_stop_it_goes_on_to_the_same(rt: HostRuntime) -> Result<(), AllocError> {
    let alloc = rt.alloc();
    for call in 1..=CALLS {
        for fill in [0, 1, 255] {
            let mut stopped = disk(alloc, b"", &[call])?;
            let end = reduced(&rt, alloc, &mut stopped)?;
            assert!(rt; end.is_none(), "call {call} didn't stop it");
            let image = stopped.image(alloc, fill)?;
            let mut after = disk(alloc, &image, &[])?;
            let end = reduced(&rt, alloc, &mut after)?;
            let row = format!(in alloc; "call {call} fill {fill}")?;
            expect_end(&rt, alloc, &end, &after, row.as_str())?;
        }
    }
    Ok(())
}

fn expect_differs(
    rt: &impl Abort,
    alloc: Global,
    rows: &[Accepted],
    limit: u64,
    number: u32,
) -> Result<(), AllocError> {
    let file = file(rt, alloc)?;
    let rows = rows.to_vec(alloc)?;
    let found = replay(alloc, &CPasses::lines(), &TokenLaw, file, rows, limit);
    assert!(rt;
        matches!(found, Err(JournalFault::Differs(n)) if n == number),
        "row {number}"
    );
    Ok(())
}

#[test]
fn a_row_that_does_not_follow_is_named(rt: HostRuntime) -> Result<(), AllocError> {
    let alloc = rt.alloc();
    let [first, second] = rows();
    expect_differs(&rt, alloc, &[first, row(14, 0, 35, 16)], MOST, 2)?;
    expect_differs(&rt, alloc, &[first, second], 15, 2)?;
    expect_differs(&rt, alloc, &[row(16, 1, 68, 15), second], MOST, 1)
}
