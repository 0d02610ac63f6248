// What the program puts on its output where it runs nothing.
ghost use Rattle.cr_main.specs.Said.{Says, usage_line};

use cr_main_task::{put, status};
use cr_outside::Sink;

/// The line for words that give no settings.
const USAGE: &str =
    "creduce: usage: creduce [--workers N] [--window N] [--limit N] [--steps N] [--passes LETTERS] TEST FILE\n";

/// Puts the line for words that give no settings.
pub fn put_usage<O: Sink>(out: &mut O) -> u8
    ensures { Says (O.told out.old) (O.told out.new) (O.faults out.old) (O.faults out.new) usage_line 2 2 result }
{
    put(out, USAGE.as_bytes(), status::USAGE, status::USAGE)
}
