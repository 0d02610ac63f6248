ghost use Rattle.std.specs.Prelude.{◌≡◌, ◌⊎◌, ◌≤◌, ◌<◌, ◌++◌, ◌∷◌, [], IfOk, IfErr, IfSome, IfNone, OnOk, length};
ghost use Rattle.cr_tokens.specs.Tokens.{Tokenizes, HasTokens, HasNoTokens};
ghost use Rattle.cr_tokens.specs.Faults.{FirstTokenFault};

use crate::item::{Item, item_at};
use crate::token::{MAX_BYTES, MAX_TOKENS, Token, TokenFault, Tokens};
use std::alloc::Global;

/// The tokens of a file (C11 6.4), or its first fault. `TooLong` comes above 1,048,576 bytes before all
/// else; the other faults carry the place of a byte, and the one at the least place is answered.
/// `TooMany` comes at the 262,145th token.
pub fn read(alloc: Global, file: &[u8]) -> Result<Tokens, TokenFault>
    ensures list { IfOk result (λ r. Tokenizes file.now r.list.items) }
    ensures fault { IfErr result (λ e. (e ≡ TokenFault.NoMemory) ⊎ FirstTokenFault file.now e) }

    // A file is refused only where it has no tokens.
    ensures refused { IfErr result (λ e. (e ≡ TokenFault.NoMemory) ⊎ HasNoTokens file.now) }
{
    if file.len() > MAX_BYTES {
        return Err(TokenFault::TooLong);
    }
    let room = file.len().min(MAX_TOKENS);
    let mut list = match Vec::with_capacity(alloc, room) {
        Ok(list) => list,
        Err(_) => return Err(TokenFault::NoMemory),
    };
    let mut at = 0;
    while at < file.len() {
        match item_at(file, at)? {
            Item::Blank(to) => at = to,
            Item::Spelled(token) => {
                keep(&mut list, token)?;
                at = token.end as usize;
            }
        }
    }
    Ok(Tokens { list })
}

/// The first fault of a file, or `None` where it has tokens. It takes no memory.
pub fn first_fault(file: &[u8]) -> Option<TokenFault>
    ensures fault { IfSome result (FirstTokenFault file.now) }
    ensures none { IfNone result (HasTokens file.now) }
{
    if file.len() > MAX_BYTES {
        return Some(TokenFault::TooLong);
    }
    let mut at = 0;
    let mut count: usize = 0;
    while at < file.len() {
        match item_at(file, at) {
            Err(fault) => return Some(fault),
            Ok(Item::Blank(to)) => at = to,
            Ok(Item::Spelled(token)) => {
                if count >= MAX_TOKENS {
                    return Some(TokenFault::TooMany(token.start));
                }
                count += 1;
                at = token.end as usize;
            }
        }
    }
    None
}

fn keep(list: &mut Vec<Token>, token: Token) -> Result<(), TokenFault>
    ensures kept { OnOk result (list.new.items ≡ list.old.items ++ token ∷ []) }
    ensures room { OnOk result (length list.old.items < 262144) }
    ensures full { IfErr result (λ e. (e ≡ TokenFault.NoMemory) ⊎ ((e ≡ TokenFault.TooMany token.start) × (262144 ≤ length list.old.items))) }
{
    if list.len() >= MAX_TOKENS {
        return Err(TokenFault::TooMany(token.start));
    }
    match list.push(token) {
        Ok(()) => Ok(()),
        Err(_) => Err(TokenFault::NoMemory),
    }
}
