// What the program puts on its output.
ghost use Rattle.std.specs.Prelude.{◌≡◌, ◌++◌, ◌∷◌, ℕ, List, [], IfOk, codes, decimal};
ghost use Rattle.cr_main_task.specs.Messages.{name_line, reason_line, reason_line_of, reason_status, refusal_line, refusal_status};
ghost use Rattle.cr_main_task.specs.Outside.{Says};

use crate::status;
use cr_cursor::Reason;
use cr_outside::{NoMemory, Sink, SinkFault};
use std::alloc::Global;

/// Why a run ends with a line and reduces nothing further.
#[derive(Clone, Copy, Debug, PartialEq, Eq)]
pub enum Refusal {
    /// There is no such file.
    NoFile,
    /// The law rules against the file.
    Against(Reason),
    /// The test says no to the file.
    SaysNo,
    /// The test failed on the file.
    TestFailed,
    /// The file could not be read or written.
    FileFault,
}

/// Puts one line, and answers the status that the run ends with: the first, or the second where the put failed.
pub fn put<O: Sink>(out: &mut O, line: &[u8], whole: u8, cut: u8) -> u8
    ensures { Says (O.told out.old) (O.told out.new) (O.faults out.old) (O.faults out.new) line.now whole cut result }
{
    match out.put(line) {
        Ok(()) => whole,
        Err(SinkFault::Failed) => cut,
        Err(SinkFault::NoMemory) => status::NO_MEMORY,
    }
}

/// Puts the line of a refusal, about the file of this name, and answers its status.
pub fn refuse<O: Sink>(alloc: Global, out: &mut O, name: &str, why: Refusal) -> u8
    ensures { Says (O.told out.old) (O.told out.new) (O.faults out.old) (O.faults out.new)
        (refusal_line name.now why) (refusal_status why) (refusal_status why) result }
{
    let status = status_of(why);
    match line_of(alloc, name, why) {
        Ok(line) => put(out, &line, status, status),
        Err(_) => status::NO_MEMORY,
    }
}

fn status_of(why: Refusal) -> u8
    ensures { result ≡ refusal_status why }
{
    match why {
        Refusal::NoFile => status::NO_FILE,
        Refusal::Against(Reason::Undefined(_, _) | Reason::Left(_, _)) => status::NOT_DEFINED,
        Refusal::Against(_) => status::NOT_IN_SUBSET,
        Refusal::SaysNo => status::SAYS_NO,
        Refusal::TestFailed => status::TEST_FAILED,
        Refusal::FileFault => status::FILE_FAULT,
    }
}

fn line_of(alloc: Global, name: &str, why: Refusal) -> Result<Vec<u8>, NoMemory>
    ensures { IfOk result (λ line. line.items ≡ refusal_line name.now why) }
{
    match why {
        Refusal::NoFile => named(alloc, "no file ", name),
        Refusal::Against(reason) => reason_text(alloc, name, reason),
        Refusal::SaysNo => named(alloc, "the test says no to ", name),
        Refusal::TestFailed => named(alloc, "the test failed on ", name),
        Refusal::FileFault => named(alloc, "file fault: ", name),
    }
}

fn named(alloc: Global, front: &str, name: &str) -> Result<Vec<u8>, NoMemory>
    ensures { IfOk result (λ line. line.items ≡ name_line front.now name.now) }
{
    let mut text = String::new(alloc);
    write!(text, "creduce: {front}{name}\n")?;
    Ok(text.into_bytes())
}

fn reason_text(alloc: Global, name: &str, reason: Reason) -> Result<Vec<u8>, NoMemory>
    ensures { IfOk result (λ line. line.items ≡ reason_line name.now reason) }
{
    match reason {
        Reason::Token(number, line) => {
            numbered(alloc, name, line, "not in the subset: token ", number)
        }
        Reason::Parse(number, line) => {
            numbered(alloc, name, line, "not in the subset: parse ", number)
        }
        Reason::Name(number, line) => {
            numbered(alloc, name, line, "not in the subset: name ", number)
        }
        Reason::Typing(number, line) => {
            numbered(alloc, name, line, "not in the subset: type ", number)
        }
        Reason::Undefined(number, line) => numbered(alloc, name, line, "not defined: U", number),
        Reason::Left(number, line) => numbered(alloc, name, line, "left the profile: N", number),
    }
}

fn numbered(
    alloc: Global,
    name: &str,
    line: u32,
    kind: &str,
    number: u8,
) -> Result<Vec<u8>, NoMemory>
    ensures { IfOk result (λ text. text.items ≡ reason_line_of name.now line kind.now number) }
{
    let mut text = String::new(alloc);
    write!(text, "creduce: {name}:{line}: ")?;
    write!(text, "{kind}{number}\n")?;
    Ok(text.into_bytes())
}
