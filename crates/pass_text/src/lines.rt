// Pass l: chunks of lines. Level 0 removes chunks of 16,384 lines, each later one chunks half as long, level 14 single lines.
ghost use Rattle.std.specs.Prelude.{◌≡◌, ◌≤◌, ◌<◌, ◌*◌, ◌^◌, ◌++◌, ◌-◌, List, ℕ, [], ◌+◌, length, take, drop, vec_capacity, vec_len, OnOk, OnErr};
ghost use Rattle.pass_text.specs.Lines.{chunk_of, chunks_of, first_len, joined, lines_bytes, lines_of};

use cr_cursor::{Cursor, NoMemory};

const LAST_LEVEL: u8 = 14;

/// How many variants a level has, in a file of so many lines: one for each chunk, the last one maybe shorter.
pub fn lines_width(lines: u64, level: u8) -> u64
    ensures width { result ≡ chunks_of lines 0 level }
    ensures few { result ≤ lines }
{
    if level <= LAST_LEVEL {
        lines.div_ceil(chunk_len(level))
    } else {
        0
    }
}

/// Sets `out` to the file without one chunk of lines. It takes no memory where `out` has room; after an error, which is want of memory,
/// `out` is empty.
pub fn lines_variant(file: &[u8], at: Cursor, out: &mut Vec<u8>) -> Result<(), NoMemory>
    requires { at.index ≤ 1048576 }
    ensures variant { OnOk result (out.new.items ≡ lines_bytes file.now at) }
    ensures empty { OnErr result (out.new.items ≡ []) }
    ensures full { OnErr result (vec_capacity out.old < length (lines_bytes file.now at)) }
{
    let chunk = chunk_len(at.level);
    let start = skip_lines(file, at.index * chunk);
    let end = skip_lines(file, (at.index + 1) * chunk);
    set(out, &file[..start], &file[end..])
}

// How many lines a chunk of a level has.
fn chunk_len(level: u8) -> u64
    ensures length { result ≡ chunk_of level }
    ensures some { 0 < result }
    ensures few { result ≤ 16384 }
{
    1 << LAST_LEVEL.saturating_sub(level)
}

/// How many lines a file has: each ends with LF, or with the file.
pub fn count_lines(file: &[u8]) -> u64
    ensures count { result ≡ length (lines_of file.now) }
    ensures few { result ≤ length file.now }
{
    let mut count = 0;
    let mut at = 0;
    while at < file.len() {
        at += line_len(file, at);
        count += 1;
    }
    count
}

// Where the first n lines end.
fn skip_lines(file: &[u8], n: u64) -> usize
    ensures length { result ≡ length (joined (take n (lines_of file.now))) }
    ensures within { result ≤ length file.now }
{
    let mut at = 0;
    let mut left = n;
    while left > 0 && at < file.len() {
        at += line_len(file, at);
        left -= 1;
    }
    at
}

// How many bytes the line has that begins at a place.
fn line_len(file: &[u8], at: usize) -> usize
    requires { at < length file.now }
    ensures length { result ≡ first_len (drop at file.now) }
    ensures within { at + result ≤ length file.now }
    ensures some { 0 < result }
{
    first_line(&file[at..])
}

// How many bytes the first line has, its LF included.
fn first_line(file: &[u8]) -> usize
    ensures { result ≡ first_len file.now }
{
    let mut len = 0;
    while len < file.len() {
        len += 1;
        if file[len - 1] == b'\n' {
            return len;
        }
    }
    len
}

// Sets the text to two parts put together. Where it has room for them it takes no memory.
fn set(out: &mut Vec<u8>, front: &[u8], back: &[u8]) -> Result<(), NoMemory>
    ensures ok { OnOk result (out.new.items ≡ front.now ++ back.now) }
    ensures err { OnErr result (out.new.items ≡ []) }
    ensures full { OnErr result (vec_capacity out.old < length front.now + length back.now) }
{
    out.clear();
    if let Err(fault) = append(out, front, back) {
        out.clear();
        return Err(fault);
    }
    Ok(())
}

fn append(out: &mut Vec<u8>, front: &[u8], back: &[u8]) -> Result<(), NoMemory>
    ensures ok { OnOk result (out.new.items ≡ out.old.items ++ front.now ++ back.now) }
    ensures full { OnErr result (vec_capacity out.old < vec_len out.old + length front.now + length back.now) }
{
    out.extend_from_slice(front)?;
    out.extend_from_slice(back)
}
