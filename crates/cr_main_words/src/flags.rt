// The flags, and the words without them.
ghost use Rattle.std.specs.Prelude.{◌≡◌, ◌≤◌, ◌++◌, codes, drop, filter, IfOk, OnOk, MatchOption, None, Some, length, not, string_bytes};
ghost use Rattle.std.specs.List.{count_by, list_any, position, position_or_len};
ghost use Rattle.std.specs.Str.{bytes_eq};
ghost use Rattle.cr_main_words.specs.Flags.{first_label, flag_words, is_end, is_flag, is_labelled, label_count, rest_of, times};
ghost use Rattle.cr_main_words.specs.Words.{texts_of};

use std::alloc::{AllocError, Global};

/// How often a flag stands before the first `--`.
pub fn times(list: &[String], flag: &str) -> usize
    ensures { result ≡ times flag.now (texts_of list.now) }
{
    count_of(&list[..end_of(list)], flag)
}

fn count_of(words: &[String], flag: &str) -> usize
    ensures { result ≡ count_by (λ word. bytes_eq (string_bytes word) flag.now) words.now }
{
    words.iter().filter(|word| word.as_str() == flag).count()
}

/// The words without the flags.
pub fn rest_of(alloc: Global, list: &[String]) -> Result<Vec<String>, AllocError>
    ensures { IfOk result (λ rest. texts_of rest.items ≡ rest_of (texts_of list.now)) }
{
    let end = end_of(list);
    let mut rest = others_of(alloc, &list[..end])?;
    push_all(&mut rest, &list[end..])?;
    Ok(rest)
}

// Where the first `--` stands, or the number of words.
fn end_of(list: &[String]) -> usize
    ensures end { result ≡ position_or_len is_end (texts_of list.now) }
    ensures within { result ≤ length list.now }
{
    dashes_in(list).unwrap_or(list.len())
}

fn dashes_in(list: &[String]) -> Option<usize>
    ensures { result ≡ position (λ word. bytes_eq (string_bytes word) (codes "--")) list.now }
{
    list.iter().position(|word| word.as_str() == "--")
}

// The words that are no flags.
fn others_of(alloc: Global, front: &[String]) -> Result<Vec<String>, AllocError>
    ensures { IfOk result (λ others. texts_of others.items ≡ filter (λ word. not (is_flag word)) (texts_of front.now)) }
{
    let mut others = Vec::new(alloc);
    for word in front {
        if !is_flag(word.as_str()) {
            others.push(word.clone()?)?;
        }
    }
    Ok(others)
}

fn push_all(rest: &mut Vec<String>, list: &[String]) -> Result<(), AllocError>
    ensures { OnOk result (texts_of rest.new.items ≡ texts_of rest.old.items ++ texts_of list.now) }
{
    for word in list {
        rest.push(word.clone()?)?;
    }
    Ok(())
}

fn is_flag(word: &str) -> bool
    ensures { result ≡ is_flag word.now }
{
    is_plain_flag(word) || is_labelled(word)
}

fn is_plain_flag(word: &str) -> bool
    ensures { result ≡ list_any (λ flag. bytes_eq word.now flag) flag_words }
{
    word == "--journal" || word == "--resume" || word == "--standing" || word == "--any-order"
}

fn is_labelled(word: &str) -> bool
    ensures { result ≡ is_labelled word.now }
{
    word.as_bytes().starts_with(b"--reached=")
}

/// How many words before the first `--` ask for a label.
pub fn label_count(list: &[String]) -> usize
    ensures { result ≡ label_count (texts_of list.now) }
{
    labelled_in(&list[..end_of(list)])
}

fn labelled_in(words: &[String]) -> usize
    ensures { result ≡ count_by (λ word. is_labelled (string_bytes word)) words.now }
{
    words
        .iter()
        .filter(|word| is_labelled(word.as_str()))
        .count()
}

/// The label that the first of them asks for.
pub fn first_label(list: &[String]) -> Option<&[u8]>
    ensures { MatchOption result (first_label (texts_of list.now) ≡ None) (λ name. first_label (texts_of list.now) ≡ Some name.now) }
{
    let front = &list[..end_of(list)];
    match front.get(labelled_at(front)) {
        Some(word) => Some(behind_flag(word.as_str())),
        None => None,
    }
}

// Where the first of them stands, or the number of words.
fn labelled_at(words: &[String]) -> usize
    ensures { result ≡ position_or_len (λ word. is_labelled (string_bytes word)) words.now }
{
    labelled_place(words).unwrap_or(words.len())
}

fn labelled_place(words: &[String]) -> Option<usize>
    ensures { result ≡ position (λ word. is_labelled (string_bytes word)) words.now }
{
    words.iter().position(|word| is_labelled(word.as_str()))
}

fn behind_flag(word: &str) -> &[u8]
    ensures { result.now ≡ drop 10 word.now }
{
    behind(word.as_bytes())
}

fn behind(bytes: &[u8]) -> &[u8]
    ensures { result.now ≡ drop 10 bytes.now }
{
    &bytes[bytes.len().min(10)..]
}
