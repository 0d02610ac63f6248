// What a run puts on the output about its journal.
ghost use Rattle.std.specs.Prelude.{◌≡◌, IfOk};
ghost use Rattle.cr_main_kept.specs.Lines.{PutsFault, fault_line, refused_line};
ghost use Rattle.cr_main_task.specs.Outside.{Says};

use cr_journal_rows::JournalFault;
use cr_main_task::{put, status};
use cr_outside::{NoMemory, Sink};
use std::alloc::Global;

/// A call on the journal failed.
const JOURNAL_FAULT: u8 = 12;

/// The journal isn't that of this reduction.
const JOURNAL_REFUSED: u8 = 13;

/// Puts the line for a call on the journal that failed.
pub fn put_fault<O: Sink>(alloc: Global, out: &mut O, name: &str) -> u8
    ensures { Says (O.told out.old) (O.told out.new) (O.faults out.old) (O.faults out.new) (fault_line name.now) 12 12 result }
{
    match fault_text(alloc, name) {
        Ok(line) => put(out, &line, JOURNAL_FAULT, JOURNAL_FAULT),
        Err(_) => status::NO_MEMORY,
    }
}

/// Puts the line for a journal that is refused: for the record of this number, or 0 for its length or header.
pub fn put_refused<O: Sink>(alloc: Global, out: &mut O, name: &str, number: u64) -> u8
    ensures { Says (O.told out.old) (O.told out.new) (O.faults out.old) (O.faults out.new) (refused_line name.now number) 13 13 result }
{
    match refused_text(alloc, name, number) {
        Ok(line) => put(out, &line, JOURNAL_REFUSED, JOURNAL_REFUSED),
        Err(_) => status::NO_MEMORY,
    }
}

/// Puts the line for a fault of the journal.
pub fn put_stop<O: Sink>(alloc: Global, out: &mut O, name: &str, fault: JournalFault) -> u8
    ensures { PutsFault (O.told out.old) (O.told out.new) (O.faults out.old) (O.faults out.new) name.now fault result }
{
    match fault {
        JournalFault::NoMemory => status::NO_MEMORY,
        JournalFault::Disk => put_fault(alloc, out, name),
        JournalFault::Bad(number) => put_refused(alloc, out, name, number),
        JournalFault::Differs(number) => put_refused(alloc, out, name, u64::from(number)),
    }
}

fn fault_text(alloc: Global, name: &str) -> Result<Vec<u8>, NoMemory>
    ensures { IfOk result (λ text. text.items ≡ fault_line name.now) }
{
    let mut text = String::new(alloc);
    write!(text, "creduce: journal fault: {name}.journal\n")?;
    Ok(text.into_bytes())
}

fn refused_text(alloc: Global, name: &str, number: u64) -> Result<Vec<u8>, NoMemory>
    ensures { IfOk result (λ text. text.items ≡ refused_line name.now number) }
{
    let mut text = String::new(alloc);
    write!(text, "creduce: journal refused: {name}.journal {number}\n")?;
    Ok(text.into_bytes())
}
