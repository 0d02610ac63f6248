ghost use Rattle.std.specs.Prelude.{◌↔◌, ◌≤◌, ◌+◌, IsTrue, length};
ghost use Rattle.cr_tokens.specs.Places.{StaysApart};
ghost use Rattle.cr_printer.specs.Seams.{IsSpelling};

use pass_edit::needs_space;

/// Whether two spellings of tokens are read as these two where they stand side by side.
pub(crate) fn stays_apart(left: &[u8], right: &[u8]) -> bool
    requires left { IsSpelling left.now }
    requires right { IsSpelling right.now }
    requires short { length left.now + length right.now ≤ 1048576 }
    ensures { IsTrue result ↔ StaysApart left.now right.now }
{
    !needs_space(left, right)
}
