// What a replay puts on the output.
ghost use Rattle.std.specs.Prelude.{◌≡◌, IfOk};
ghost use Rattle.cr_main_task.specs.Outside.{Says};
ghost use Rattle.cr_main_replay.specs.Replay.{breaks_line, yes_line};

use cr_main_task::{put, status};
use cr_outside::{NoMemory, Sink};
use std::alloc::Global;

/// Puts the line for a log that leads to the file of this name by so many accepted variants.
pub fn put_yes<O: Sink>(alloc: Global, out: &mut O, name: &str, count: usize) -> u8
    ensures { Says (O.told out.old) (O.told out.new) (O.faults out.old) (O.faults out.new) (yes_line name.now count) 0 10 result }
{
    match yes_text(alloc, name, count) {
        Ok(line) => put(out, &line, status::FIXED, status::OUTPUT_FAULT),
        Err(_) => status::NO_MEMORY,
    }
}

/// Puts the line for a log of which this line is the first that fails.
pub fn put_breaks<O: Sink>(alloc: Global, out: &mut O, number: u32) -> u8
    ensures { Says (O.told out.old) (O.told out.new) (O.faults out.old) (O.faults out.new) (breaks_line number) 14 14 result }
{
    match breaks_text(alloc, number) {
        Ok(line) => put(out, &line, status::NOT_REPLAYED, status::NOT_REPLAYED),
        Err(_) => status::NO_MEMORY,
    }
}

fn yes_text(alloc: Global, name: &str, count: usize) -> Result<Vec<u8>, NoMemory>
    ensures { IfOk result (λ text. text.items ≡ yes_line name.now count) }
{
    let mut text = String::new(alloc);
    write!(text, "{name} replay yes accepted {count}\n")?;
    Ok(text.into_bytes())
}

fn breaks_text(alloc: Global, number: u32) -> Result<Vec<u8>, NoMemory>
    ensures { IfOk result (λ text. text.items ≡ breaks_line number) }
{
    let mut text = String::new(alloc);
    write!(text, "creduce: replay: line {number}\n")?;
    Ok(text.into_bytes())
}
