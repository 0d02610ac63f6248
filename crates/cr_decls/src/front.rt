ghost use Rattle.std.specs.Prelude.{◌≡◌, ◌<◌, ◌^◌, IfOk, IfErr, length};
ghost use Rattle.cr_syntax.specs.Words.{AreSpans, lexemes_of};
ghost use Rattle.cr_syntax.specs.Kept.{row_in};
ghost use Rattle.cr_syntax.specs.Units.{IsTreeOf};
ghost use Rattle.cr_syntax_order.specs.Listed.{AreListed};
ghost use Rattle.cr_decls.specs.Unit.{IsOnlyTree, IsRefused, IsOnlyRefusal};

use crate::externals::unit;
use cr_exprs_descent::{ParseFault, Source, words_of};
use cr_rows::Row;
use cr_syntax::{Unit, begin};
use cr_tokens::Tokens;
use std::alloc::Global;
use std::collections::LinkedList;

/// The one unit that spells the tokens of a file, its nodes listed in order, or the first refusal.
pub fn parse(alloc: Global, file: &[u8], tokens: &Tokens) -> Result<Unit, ParseFault>
    requires spans { AreSpans file.now tokens.now.list.items }
    requires few { length tokens.now.list.items < 2 ^ 32 }
    ensures tree { IfOk result (λ u. IsTreeOf (lexemes_of file.now tokens.now.list.items) (row_in u.nodes u.items)) }
    ensures only { IfOk result (λ u. IsOnlyTree (lexemes_of file.now tokens.now.list.items) (row_in u.nodes u.items)) }
    ensures refused { IfErr result (IsRefused (lexemes_of file.now tokens.now.list.items)) }
    ensures first { IfErr result (IsOnlyRefusal (lexemes_of file.now tokens.now.list.items)) }
    ensures listed { IfOk result (λ u. AreListed u.nodes 0 u.items (length u.nodes)) }
    ensures tokens { IfOk result (λ u. u.tokens.list.items ≡ tokens.now.list.items) }
{
    let list = tokens.list.as_slice();
    let words = words_of(alloc, file, list)?;
    let source = Source {
        file,
        tokens: list,
        words: words.as_slice(),
    };
    let mut scopes = LinkedList::new(alloc);
    begin(alloc, &mut scopes)?;
    let mut nodes = Row::new(alloc);
    let items = unit(alloc, &source, &mut scopes, &mut nodes)?;
    let list = list.to_vec(alloc)?;
    Ok(Unit::new(Tokens { list }, nodes, items))
}
