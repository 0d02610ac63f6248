ghost use Rattle.std.specs.Prelude.{◌≡◌, ◌≤◌, ◌<◌, ◌+◌, ◌*◌, ◌++◌, ◌^◌, length, IfOk, OnOk};
ghost use Rattle.std.specs.String.{string_bytes};
ghost use Rattle.std.specs.List.{flat_map, range_with_len};
ghost use Rattle.cr_gen.specs.Program.{next_state, operator_of, function_text, function_at, item_text, call_text, generated};

use crate::draws::Draws;
use std::alloc::{AllocError, Global};

/// Want of memory.
pub type NoMemory = AllocError;

/// The most bytes that one item takes: its function's 69 and its call's 12, and its number twice.
const ITEM_BYTES: usize = 89;
/// The bytes of the prototype and of `main` without its calls.
const OTHER_BYTES: usize = 102;

/// The operator of C that a draw modulo 3 chooses.
fn operator(choice: u32) -> &'static str
    ensures { result.now ≡ operator_of choice }
{
    match choice {
        0 => "+",
        1 => "*",
        _ => "^",
    }
}

fn push_function(
    text: &mut String,
    item: u32,
    operator: &str,
    constant: u32,
) -> Result<(), NoMemory>
    ensures { OnOk result (string_bytes text.new
        ≡ string_bytes text.old ++ function_text item operator.now constant) }
{
    write!(
        text,
        "static unsigned f{item}(unsigned a)\n{{\n  unsigned b = a {operator} {constant}u;\n  return b;\n}}\n"
    )
}

fn push_call(text: &mut String, item: u32) -> Result<(), NoMemory>
    ensures { OnOk result (string_bytes text.new ≡ string_bytes text.old ++ call_text item) }
{
    write!(text, "  s = f{item}(s);\n")
}

/// Appends the function of one item, with the next two draws.
fn push_item(text: &mut String, draws: &mut Draws, item: u32) -> Result<(), NoMemory>
    ensures drawn { draws.new.state ≡ next_state (next_state draws.old.state) }
    ensures appended { OnOk result (string_bytes text.new
        ≡ string_bytes text.old ++ function_at item draws.old.state) }
{
    let symbol = operator(draws.draw() % 3);
    let constant = draws.draw() % 9 + 1;
    push_function(text, item, symbol, constant)
}

/// Appends the functions of all items, in order.
fn push_functions(text: &mut String, number: u32, items: u32) -> Result<(), NoMemory>
    ensures { OnOk result (string_bytes text.new
        ≡ string_bytes text.old ++ flat_map (item_text number) (range_with_len 0 items)) }
{
    let mut draws = Draws { state: number };
    for item in 0..items {
        push_item(text, &mut draws, item)?;
    }
    Ok(())
}

/// Appends the calls of all items, in order.
fn push_calls(text: &mut String, items: u32) -> Result<(), NoMemory>
    ensures { OnOk result (string_bytes text.new
        ≡ string_bytes text.old ++ flat_map call_text (range_with_len 0 items)) }
{
    for item in 0..items {
        push_call(text, item)?;
    }
    Ok(())
}

/// The program of `items` functions, each called once by `main`, with operators and constants
/// drawn from `number`.
pub fn make(alloc: Global, number: u32, items: u32) -> Result<Vec<u8>, NoMemory>
    requires number { number < 2 ^ 31 }
    requires some { 1 ≤ items }
    requires most { items ≤ 10000 }
    ensures text { IfOk result (λ text. text.items ≡ generated number items) }
    ensures size { IfOk result (λ text. length text.items ≤ 102 + 89 * items) }
{
    let mut text = String::with_capacity(alloc, OTHER_BYTES + ITEM_BYTES * items as usize)?;
    text.push_str("int printf(const char *, ...);\n")?;
    push_functions(&mut text, number, items)?;
    text.push_str("int main(void)\n{\n  unsigned s = 1u;\n")?;
    push_calls(&mut text, items)?;
    text.push_str("  printf(\"%u\\n\", s);\n  return 0;\n}\n")?;
    Ok(text.into_bytes())
}
