// The size of a file, by its tokens.
ghost use Rattle.std.specs.Prelude.{ℕ, IfOk, MatchOption};
ghost use Rattle.cr_tokens.specs.Tokens.{Tokenizes};
ghost use Rattle.cr_pool.specs.Sizes.{HasSize, IsMeasured};

use cr_outside::NoMemory;
use cr_tokens::{Tokens, read, size};
use std::alloc::{AllocError, Global};

/// A file's tokens, and its size by them.
#[derive(Drop)]
pub struct Measured {
    pub tokens: Tokens,
    pub size: u64,
}

/// The size of a file, where it tokenises.
pub fn measure(alloc: Global, file: &[u8]) -> Result<Option<u64>, NoMemory>
    ensures { IfOk result (λ found. MatchOption found ((n : ℕ) → HasSize file.now n → ⊥) (IsMeasured file.now)) }
{
    match read_and_measure(alloc, file)? {
        Some(found) => Ok(Some(found.size)),
        None => Ok(None),
    }
}

/// The same with the tokens, for whoever rules on the file next.
pub fn read_and_measure(alloc: Global, file: &[u8]) -> Result<Option<Measured>, NoMemory>
    ensures { IfOk result (λ found. MatchOption found ((n : ℕ) → HasSize file.now n → ⊥) (λ it. Tokenizes file.now it.tokens.list.items × IsMeasured file.now it.size)) }
{
    match read(alloc, file) {
        Ok(tokens) => {
            let size = size(file, &tokens);
            Ok(Some(Measured { tokens, size }))
        }
        Err(fault) => {
            if fault.is_want() {
                return Err(AllocError);
            }
            Ok(None)
        }
    }
}
