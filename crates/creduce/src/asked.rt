// What is answered without a run, besides the version.
use cr_explain::asked_text;
use std::alloc::AllocError;

/// Status 10: what was asked for can't be put.
const UNPUT: u8 = 10;

/// Puts the text that these words ask for, and answers the status, where they ask for no run.
pub fn asked(rt: &HostRuntime, words: &[String]) -> Result<Option<u8>, AllocError> {
    let Some(text) = asked_text(rt.alloc(), words)? else {
        return Ok(None);
    };
    match print!(rt; "{text}") {
        Ok(()) => Ok(Some(0)),
        Err(_) => Ok(Some(UNPUT)),
    }
}
