ghost use Rattle.std.specs.Prelude.{◌≡◌, ◌↔◌, ◌≤◌, ◌<◌, ℕ, List, IsTrue, IfOk, length, slice_get, slice_range};
ghost use Rattle.cr_tokens.specs.Tokens.{Tokenizes, IsToken};
ghost use Rattle.cr_tokens.specs.Runs.{spellings};
ghost use Rattle.cr_tokens.specs.Places.{StaysApart};
ghost use Rattle.cr_syntax.specs.declared.node.Node.{Node};
ghost use Rattle.cr_printer.specs.Text.{Prints, tokens_of};
ghost use Rattle.cr_printer.specs.Seams.{AreInOrder, NeedsNoSpace};

use crate::seam::stays_apart;
use cr_syntax::Unit;
use cr_tokens::Token;
use std::alloc::{AllocError, Global};

/// Want of memory.
pub type NoMemory = AllocError;

/// The text of a unit of the file: its tokens in order, with one space between two of them exactly where they wouldn't be
/// read as these two side by side.
pub fn print(alloc: Global, file: &[u8], unit: &Unit) -> Result<Vec<u8>, NoMemory>
    requires { Tokenizes file.now unit.now.tokens.list.items }
    ensures { IfOk result (λ text. Prints (spellings file.now unit.now.tokens.list.items) text.items) }
{
    print_tokens(alloc, file, unit.tokens.list.as_slice())
}

/// The text of one node of a unit of the file, spelled in the same way.
pub fn print_expr(alloc: Global, file: &[u8], unit: &Unit, node: u32) -> Result<Vec<u8>, NoMemory>
    requires file { Tokenizes file.now unit.now.tokens.list.items }
    requires node { node < length unit.now.nodes }
    ensures { IfOk result (λ text. (n : Node) × (slice_get unit.now.nodes node ≡ Some n) × Prints (spellings file.now (tokens_of unit.now n)) text.items) }
{
    print_tokens(alloc, file, run_of(unit, node))
}

/// The tokens of a node.
fn run_of<'a>(unit: &'a Unit, node: u32) -> &'a [Token]
    requires { node < length unit.now.nodes }
    ensures { (n : Node) × (slice_get unit.now.nodes node ≡ Some n) × (result.now ≡ tokens_of unit.now n) }
{
    let node = &unit.nodes.as_slice()[node as usize];
    let first = node.first as usize;
    let last = node.last as usize;
    &unit.tokens.list.as_slice()[first..last + 1]
}

fn print_tokens(alloc: Global, file: &[u8], tokens: &[Token]) -> Result<Vec<u8>, NoMemory>
    requires { AreInOrder file.now tokens.now }
    ensures { IfOk result (λ text. Prints (spellings file.now tokens.now) text.items) }
{
    let mut text = Vec::with_capacity(alloc, room(tokens))?;
    for at in 0..tokens.len() {
        if !needs_no_space(file, tokens, at) {
            text.push(b' ')?;
        }
        text.extend_from_slice(tokens[at].spelling(file))?;
    }
    Ok(text)
}

/// The bytes from the first token's first to the last one's last, which no text of the tokens exceeds.
fn room(tokens: &[Token]) -> usize
    ensures { (file text : List ℕ) → AreInOrder file tokens.now → Prints (spellings file tokens.now) text → length text ≤ result }
{
    if tokens.is_empty() {
        return 0;
    }
    let first = &tokens[0];
    let last = &tokens[tokens.len() - 1];
    last.end.saturating_sub(first.start) as usize
}

/// Whether a token comes directly behind the one before, or is the first.
fn needs_no_space(file: &[u8], tokens: &[Token], at: usize) -> bool
    requires tokens { AreInOrder file.now tokens.now }
    requires at { at < length tokens.now }
    ensures { IsTrue result ↔ NeedsNoSpace (spellings file.now tokens.now) at }
{
    at == 0 || are_apart(file, &tokens[at - 1], &tokens[at])
}

/// Whether a token and one behind it in the file are read as these two where they stand side by side.
fn are_apart(file: &[u8], left: &Token, right: &Token) -> bool
    requires short { length file.now ≤ 1048576 }
    requires left { IsToken file.now left.now }
    requires right { IsToken file.now right.now }
    requires order { left.now.end ≤ right.now.start }
    ensures { IsTrue result ↔ StaysApart (slice_range file.now left.now.start left.now.end) (slice_range file.now right.now.start right.now.end) }
{
    stays_apart(left.spelling(file), right.spelling(file))
}
