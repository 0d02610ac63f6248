ghost use Rattle.std.specs.Prelude.{◌≡◌, ◌≢◌, ℕ, ◌+◌, ◌*◌, ◌/◌, ◌%◌, ◌<◌, ◌≤◌, None, Some, IfOk, length, slice_index_or, vec_len, vec_capacity};
ghost use Rattle.cr_sequence.specs.Kept.{item_in, IsKept, ShowAlike, ShowOthersAlike};

use std::alloc::{AllocError, Global};

/// So many items are made at once.
pub(crate) const BLOCK: usize = 256;

/// An item of the pattern that comes over and over.
#[inline]
fn repeated_at<T: Copy>(first: T, pattern: &Vec<T>, place: usize) -> T
    requires { 0 < length pattern.now.items }
    ensures { result ≡ slice_index_or pattern.now.items (place % length pattern.now.items) first }
{
    pattern[place % pattern.len()]
}

/// No block yet.
pub(crate) fn none_each(alloc: Global, count: usize) -> Result<Vec<Option<u32>>, AllocError>
    ensures count { IfOk result (λ all. length all.items ≡ count) }
    ensures none { IfOk result (λ all. (block : ℕ) → slice_index_or all.items block None ≡ None) }
{
    Vec::from_elem(alloc, None, count)
}

/// An item.
#[inline]
pub(crate) fn item_at<T: Copy>(
    first: T,
    pattern: &Vec<T>,
    blocks: &Vec<Option<u32>>,
    pool: &Vec<T>,
    place: usize,
) -> T
    requires some { 0 < length pattern.now.items }
    requires kept { IsKept blocks.now.items pool.now }
    requires within { place / 256 < length blocks.now.items }
    ensures { result ≡ item_in first pattern.now.items blocks.now.items pool.now.items place }
{
    match blocks[place / BLOCK] {
        Some(number) => pool[number as usize * 256 + place % BLOCK],
        None => repeated_at(first, pattern, place),
    }
}

// The first items of a block, behind those that are there.
fn fill<T: Copy>(first: T, pattern: &Vec<T>, pool: &mut Vec<T>, from: usize, count: usize)
    requires some { 0 < length pattern.now.items }
    requires room { vec_len pool.old + count ≤ vec_capacity pool.old }
    requires few { from + count ≤ 4294967296 }
    ensures longer { vec_len pool.new ≡ vec_len pool.old + count }
    ensures capacity { vec_capacity pool.old ≤ vec_capacity pool.new }
    ensures before { (k : ℕ) → k < vec_len pool.old → slice_index_or pool.new.items k first ≡ slice_index_or pool.old.items k first }
    ensures filled { (k : ℕ) → k < count → slice_index_or pool.new.items (vec_len pool.old + k) first ≡ slice_index_or pattern.now.items ((from + k) % length pattern.now.items) first }
{
    for k in 0..count {
        let item = repeated_at(first, pattern, from + k);
        pool.push(item).unwrap();
    }
}

// Makes a block. Its place in the pool is behind the others.
#[inline(never)]
fn make<T: Copy>(
    first: T,
    pattern: &Vec<T>,
    blocks: &mut Vec<Option<u32>>,
    pool: &mut Vec<T>,
    block: usize,
) -> u32
    requires some { 0 < length pattern.now.items }
    requires kept { IsKept blocks.old.items pool.old }
    requires within { block < length blocks.old.items }
    requires unmade { slice_index_or blocks.old.items block None ≡ None }
    ensures kept { IsKept blocks.new.items pool.new }
    ensures count { length blocks.new.items ≡ length blocks.old.items }
    ensures there { slice_index_or blocks.new.items block None ≡ Some result }
    ensures same { ShowAlike first pattern.now.items blocks.old.items pool.old.items blocks.new.items pool.new.items }
{
    let number = (pool.len() / 256) as u32;
    fill(first, pattern, pool, block * BLOCK, BLOCK);
    blocks[block] = Some(number);
    number
}

// The number of a block, which is made where it wasn't.
#[inline(always)]
fn made<T: Copy>(
    first: T,
    pattern: &Vec<T>,
    blocks: &mut Vec<Option<u32>>,
    pool: &mut Vec<T>,
    block: usize,
) -> u32
    requires some { 0 < length pattern.now.items }
    requires kept { IsKept blocks.old.items pool.old }
    requires within { block < length blocks.old.items }
    ensures kept { IsKept blocks.new.items pool.new }
    ensures count { length blocks.new.items ≡ length blocks.old.items }
    ensures there { slice_index_or blocks.new.items block None ≡ Some result }
    ensures same { ShowAlike first pattern.now.items blocks.old.items pool.old.items blocks.new.items pool.new.items }
{
    match blocks[block] {
        Some(number) => number,
        None => make(first, pattern, blocks, pool, block),
    }
}

/// Sets an item. No memory is taken.
#[inline(always)]
pub(crate) fn set<T: Copy>(
    first: T,
    pattern: &Vec<T>,
    blocks: &mut Vec<Option<u32>>,
    pool: &mut Vec<T>,
    place: usize,
    value: T,
)
    requires some { 0 < length pattern.now.items }
    requires kept { IsKept blocks.old.items pool.old }
    requires within { place / 256 < length blocks.old.items }
    ensures kept { IsKept blocks.new.items pool.new }
    ensures count { length blocks.new.items ≡ length blocks.old.items }
    ensures there { item_in first pattern.now.items blocks.new.items pool.new.items place ≡ value }
    ensures others { ShowOthersAlike place first pattern.now.items blocks.old.items pool.old.items blocks.new.items pool.new.items }
{
    let number = made(first, pattern, blocks, pool, place / BLOCK);
    pool[number as usize * 256 + place % BLOCK] = value;
}

/// No block is made any more, if one was.
pub(crate) fn unmake<T: Copy>(blocks: &mut Vec<Option<u32>>, pool: &mut Vec<T>)
    requires { IsKept blocks.old.items pool.old }
    ensures kept { IsKept blocks.new.items pool.new }
    ensures count { length blocks.new.items ≡ length blocks.old.items }
    ensures none { (block : ℕ) → slice_index_or blocks.new.items block None ≡ None }
{
    if pool.len() != 0 {
        forget(blocks, pool);
    }
}

fn forget<T: Copy>(blocks: &mut Vec<Option<u32>>, pool: &mut Vec<T>)
    requires { IsKept blocks.old.items pool.old }
    ensures kept { IsKept blocks.new.items pool.new }
    ensures count { length blocks.new.items ≡ length blocks.old.items }
    ensures none { (block : ℕ) → slice_index_or blocks.new.items block None ≡ None }
{
    pool.clear();
    for block in 0..blocks.len() {
        blocks[block] = None;
    }
}
