// Reading a log back.
ghost use Rattle.std.specs.Prelude.{◌≡◌, ◌≤◌, ◌<◌, ◌^◌, ℕ, List, Err, IfOk, length};
ghost use Rattle.cr_reduce.specs.declared.end.Accepted.{Accepted};
ghost use Rattle.cr_log.specs.declared.reader.LogFault.{LogFault};
ghost use Rattle.cr_log.specs.Forms.{IsFirstBadLine, IsLog};
ghost use Rattle.cr_log.specs.Readers.{IsReadAs, IsRefusedAt, Reads, finished};

use crate::line::{Last, Line, take_line};
use cr_reduce::Accepted;
use std::alloc::Global;
use thiserror::Error;

/// What a log says.
#[derive(Debug, Drop)]
pub struct Log {
    pub accepted: Vec<Accepted>,
    /// Why the reduction ended: 0 at a fixed point, 1 at the limit, 2 at a fault of the test.
    pub why: u8,
    /// The size of the end's file.
    pub size: u64,
    pub turns: u64,
}

/// Why a text gives no log.
#[derive(Clone, Copy, Debug, PartialEq, Eq, Error)]
pub enum LogFault {
    #[error("out of memory")]
    NoMemory,
    /// This line, counted from 1, is the first that isn't in the form. Where the text ends without a last line, it is the
    /// line that would follow.
    #[error("line {0} isn't in the form of a log")]
    Line(u32),
}

/// Reads a log: lines of acceptances, one last line, and then the end of the text, each line ended by LF, its fields
/// separated by one space, each number decimal without leading zeros.
pub fn read_log(alloc: Global, text: &[u8]) -> Result<Log, LogFault>
    requires { length text.now ≤ 1073741824 }
    ensures log { IfOk result (λ log. IsLog text.now log.accepted.items log.why log.size log.turns) }
    ensures line { (n : ℕ) → result ≡ Err (LogFault.Line n) → IsFirstBadLine text.now n }

    // Without want of memory every log is read, and every other text is refused at its line.
    ensures every_log { (accepted : List Accepted) (why size turns : ℕ) → IsLog text.now accepted why size turns → IsReadAs result accepted why size turns }
    ensures every_line { (n : ℕ) → IsFirstBadLine text.now n → IsRefusedAt result n }
{
    read_lines(alloc, text)
}

fn read_lines(alloc: Global, text: &[u8]) -> Result<Log, LogFault>
    requires { length text.now ≤ 1073741824 }
    ensures { Reads text.now result }
{
    let mut accepted = Vec::new(alloc);
    let mut rest = text;
    let mut number = 1;
    loop {
        let Some((line, after)) = take_line(rest) else {
            return Err(LogFault::Line(number));
        };
        match line {
            Line::Accepted(one) => {
                if accepted.push(one).is_err() {
                    return Err(LogFault::NoMemory);
                }
            }
            Line::Last(last) => return finish(accepted, last, after, number),
        }
        rest = after;
        number += 1;
    }
}

// The log, where nothing follows its last line, which is line `number`.
fn finish(accepted: Vec<Accepted>, last: Last, after: &[u8], number: u32) -> Result<Log, LogFault>
    requires { number < 2 ^ 31 }
    ensures { result ≡ finished accepted last after.now number }
{
    if !after.is_empty() {
        return Err(LogFault::Line(number + 1));
    }
    Ok(Log {
        accepted,
        why: last.why,
        size: last.size,
        turns: last.turns,
    })
}
