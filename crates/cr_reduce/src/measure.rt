// The size of a file, by its tokens.
ghost use Rattle.std.specs.Prelude.{IfOk};
ghost use Rattle.cr_reduce.specs.Sizes.{IsMeasured};
ghost use Rattle.cr_cursor.specs.TokenLaw.{IsTokenized};

use cr_outside::NoMemory;
use cr_pool::measure;
use std::alloc::Global;

/// The size of a file that tokenises.
pub fn size_of(alloc: Global, file: &[u8]) -> Result<u64, NoMemory>
    requires { IsTokenized file.now }
    ensures { IfOk result (IsMeasured file.now) }
{
    match measure(alloc, file)? {
        Some(size) => Ok(size),
        None => unreachable!(),
    }
}
