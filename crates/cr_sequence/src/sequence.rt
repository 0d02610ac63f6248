ghost use Rattle.std.specs.Prelude.{◌≡◌, ℕ, ◌+◌, ◌-◌, ◌*◌, ◌<◌, ◌≤◌, ◌++◌, ◌∷◌, [], IfOk, OnOk, OnErr, length, map, slice_get, slice_set, take, drop, true, false, Some, IfSome};
ghost use Rattle.std.specs.List.{flat_map};
ghost use Rattle.cr_sequence.specs.Kept.{repeated};
ghost use Rattle.cr_sequence.specs.Written.{overwritten};
ghost use Rattle.cr_sequence.specs.Stretches.{items_in, all_items, AreCounted, BeginsBy, BeginsFrom, ChangesTo, Done, filled, replaced, Holds, IsPlaced};

use crate::stretch::{Stretch, size_of};
use std::alloc::{AllocError, Global};
use std::marker::Model;

/// So many slots stay, whether they are used or not.
const KEPT: usize = 1024;

/// More items there aren't.
const MOST: usize = 1 << 40;

/// A stretch, how many items stand before it, and those behind it.
#[derive(Drop)]
pub struct Part<T> {
    pub start: usize,
    pub stretch: Stretch<T>,
    pub after: Vec<T>,
}

/// A list: plain items, and behind them parts that each begin with a stretch.
#[derive(Drop)]
pub struct Sequence<T> {
    alloc: Global,
    count: usize,
    flat: Vec<T>,
    parts: Vec<Part<T>>,
}

impl<T> Model for Sequence<T> {
    ghost use Rattle.std.specs.Prelude.{◌≡◌, ◌≤◌, List, length};
    ghost use Rattle.std.specs.Coded.{coded_list};
    ghost use Rattle.cr_sequence.specs.Stretches.{all_items, AreCounted};

    ghost Value = { List T };

    ghost coded = { coded_list T.code };

    ghost view = { λ s. all_items s.flat.items s.parts.items };

    ghost invariant = { λ s. AreCounted s.count s.flat.items s.parts.items };
}

fn start_at<T>(parts: &Vec<Part<T>>, index: usize) -> usize
    requires { index < length parts.now.items }
    ensures { (part : Part T) → slice_get parts.now.items index ≡ Some part → part.start ≡ result }
{
    parts[index].start
}

// The last part that begins at an index or before it.
fn part_of<T>(parts: &Vec<Part<T>>, index: usize) -> usize
    requires some { 0 < length parts.now.items }
    requires first { BeginsBy parts.now.items 0 index }
    ensures { Holds parts.now.items index result }
{
    let mut low = 0;
    let mut high = parts.len();
    while high - low > 1 {
        let middle = low + (high - low) / 2;
        if start_at(parts, middle) <= index {
            low = middle;
        } else {
            high = middle;
        }
    }
    low
}

// The part in which an index stands that isn't among the plain items, and the place in it.
fn placed<T>(count: usize, flat: &Vec<T>, parts: &Vec<Part<T>>, index: usize) -> (usize, usize)
    requires counted { AreCounted count flat.now.items parts.now.items }
    requires within { index < count }
    requires behind { length flat.now.items ≤ index }
    ensures number { result.0 < length parts.now.items }
    ensures place { IsPlaced flat.now.items parts.now.items index result.0 result.1 }
{
    let number = part_of(parts, index);
    let start = start_at(parts, number);
    (number, index.saturating_sub(start))
}

#[inline]
fn get_in<T: Copy>(part: &Part<T>, place: usize) -> T
    requires { place < length (items_in part.now) }
    ensures { slice_get (items_in part.now) place ≡ Some result }
{
    let count = part.stretch.len();
    if place < count {
        part.stretch.get(place)
    } else {
        part.after[place - count]
    }
}

#[inline]
fn set_in<T: Copy>(part: &mut Part<T>, place: usize, item: T)
    requires { place < length (items_in part.old) }
    ensures start { part.new.start ≡ part.old.start }
    ensures items { items_in part.new ≡ slice_set (items_in part.old) place item }
{
    let count = part.stretch.len();
    if place < count {
        part.stretch.set(place, item);
    } else {
        part.after[place - count] = item;
    }
}

fn push_in<T: Copy>(part: &mut Part<T>, item: T) -> Result<(), AllocError>
    ensures start { part.new.start ≡ part.old.start }
    ensures pushed { OnOk result (items_in part.new ≡ items_in part.old ++ item ∷ []) }
    ensures refused { OnErr result (items_in part.new ≡ items_in part.old) }
{
    part.after.push(item)?;
    Ok(())
}

/// Gives memory back where most of it stands idle.
pub fn give_back<T: Drop>(items: &mut Vec<T>)
    ensures { items.new.items ≡ items.old.items }
{
    let count = items.len();
    if items.capacity() / 4 > count && items.capacity() > KEPT {
        items.shrink_to(count * 2);
    }
}

// The first items alone.
fn cut_items<T: Copy>(items: &mut Vec<T>, count: usize)
    ensures { items.new.items ≡ take count items.old.items }
{
    items.truncate(count);
    give_back(items);
}

fn cut_in<T: Copy>(part: &mut Part<T>, count: usize)
    ensures start { part.new.start ≡ part.old.start }
    ensures items { items_in part.new ≡ take count (items_in part.old) }
{
    let own = part.stretch.len();
    part.stretch.truncate(count);
    cut_items(&mut part.after, count.saturating_sub(own));
}

fn get_at<T: Copy>(parts: &Vec<Part<T>>, number: usize, place: usize) -> T
    requires number { number < length parts.now.items }
    requires place { (part : Part T) → slice_get parts.now.items number ≡ Some part → place < length (items_in part) }
    ensures { (part : Part T) → slice_get parts.now.items number ≡ Some part → slice_get (items_in part) place ≡ Some result }
{
    get_in(&parts[number], place)
}

fn set_at<T: Copy>(parts: &mut Vec<Part<T>>, number: usize, place: usize, item: T)
    requires number { number < length parts.old.items }
    requires place { (part : Part T) → slice_get parts.old.items number ≡ Some part → place < length (items_in part) }
    ensures { ChangesTo parts.old.items number parts.new.items (λ part. slice_set (items_in part) place item) }
{
    set_in(&mut parts[number], place, item);
}

// An item that isn't among the plain ones.
#[inline(never)]
fn get_behind<T: Copy>(count: usize, flat: &Vec<T>, parts: &Vec<Part<T>>, index: usize) -> T
    requires counted { AreCounted count flat.now.items parts.now.items }
    requires within { index < count }
    requires behind { length flat.now.items ≤ index }
    ensures { slice_get (all_items flat.now.items parts.now.items) index ≡ Some result }
{
    let (number, place) = placed(count, flat, parts, index);
    get_at(parts, number, place)
}

// Sets an item that isn't among the plain ones.
#[inline(never)]
fn set_behind<T: Copy>(count: usize, flat: &Vec<T>, parts: &mut Vec<Part<T>>, index: usize, item: T)
    requires counted { AreCounted count flat.now.items parts.old.items }
    requires within { index < count }
    requires behind { length flat.now.items ≤ index }
    ensures { Done count flat.now.items parts.new.items (slice_set (all_items flat.now.items parts.old.items) index item) }
{
    let (number, place) = placed(count, flat, parts, index);
    set_at(parts, number, place, item);
}

fn push_at<T: Copy>(parts: &mut Vec<Part<T>>, number: usize, item: T) -> Result<(), AllocError>
    requires { number < length parts.old.items }
    ensures pushed { OnOk result (ChangesTo parts.old.items number parts.new.items (λ part. items_in part ++ item ∷ [])) }
    ensures refused { OnErr result (ChangesTo parts.old.items number parts.new.items items_in) }
{
    push_in(&mut parts[number], item)
}

fn cut_at<T: Copy>(parts: &mut Vec<Part<T>>, number: usize, count: usize)
    requires { number < length parts.old.items }
    ensures { ChangesTo parts.old.items number parts.new.items (λ part. take count (items_in part)) }
{
    cut_in(&mut parts[number], count);
}

#[tactic(auto, using(crate::proofs::Parts::alone_by))]
fn part_with<T>(alloc: Global, start: usize, stretch: Stretch<T>) -> Part<T>
    ensures start { result.start ≡ start }
    ensures items { items_in result ≡ stretch }
{
    Part {
        start,
        stretch,
        after: Vec::new(alloc),
    }
}

fn push_part<T: Copy>(parts: &mut Vec<Part<T>>, part: Part<T>) -> Result<(), AllocError>
    ensures pushed { OnOk result (parts.new.items ≡ parts.old.items ++ part ∷ []) }
    ensures refused { OnErr result (parts.new.items ≡ parts.old.items) }
{
    match parts.push(part) {
        Ok(()) => Ok(()),
        Err(_) => Err(AllocError),
    }
}

#[inline]
fn push_flat<T: Copy>(flat: &mut Vec<T>, item: T) -> Result<(), AllocError>
    ensures pushed { OnOk result (flat.new.items ≡ flat.old.items ++ item ∷ []) }
    ensures refused { OnErr result (flat.new.items ≡ flat.old.items) }
{
    flat.push(item)?;
    Ok(())
}

// One more item, behind all.
#[inline]
fn push_behind<T: Copy>(
    count: usize,
    flat: &mut Vec<T>,
    parts: &mut Vec<Part<T>>,
    item: T,
) -> Result<(), AllocError>
    requires counted { AreCounted count flat.old.items parts.old.items }
    requires few { count < 2199023255552 }
    ensures pushed { OnOk result (Done (count + 1) flat.new.items parts.new.items (all_items flat.old.items parts.old.items ++ item ∷ [])) }
    ensures refused { OnErr result (Done count flat.new.items parts.new.items (all_items flat.old.items parts.old.items)) }
{
    let number = parts.len();
    if number == 0 {
        push_flat(flat, item)
    } else {
        push_at(parts, number - 1, item)
    }
}

// Whether so many more items are few enough, and would be plain.
#[inline]
fn may_extend<T>(count: usize, parts: &Vec<Part<T>>, more: usize) -> bool
    ensures few { result ≡ true → count + more ≤ 2199023255552 }
    ensures plain { result ≡ true → length parts.now.items ≡ 0 }
{
    count <= MOST && more <= MOST && parts.len() == 0
}

// More plain items, or none where memory is wanting.
#[inline]
fn extend_flat<T: Copy>(flat: &mut Vec<T>, items: &[T]) -> bool
    ensures extended { result ≡ true → flat.new.items ≡ flat.old.items ++ items.now }
    ensures same { result ≡ false → flat.new.items ≡ flat.old.items }
{
    flat.extend_from_slice(items).is_ok()
}

#[inline]
fn extend_flat_with<T: Copy>(flat: &mut Vec<T>, count: usize, item: T) -> bool
    requires few { length flat.old.items + count ≤ 2199023255552 }
    ensures extended { result ≡ true → flat.new.items ≡ flat.old.items ++ repeated count (item ∷ []) }
    ensures same { result ≡ false → flat.new.items ≡ flat.old.items }
{
    let longer = flat.len() + count;
    flat.resize(longer, item).is_ok()
}

fn has_stretch<T: Copy>(parts: &Vec<Part<T>>, number: usize, size: usize) -> bool
    requires { number < length parts.now.items }
    ensures { result ≡ true → (part : Part T) → slice_get parts.now.items number ≡ Some part → length part.stretch ≡ size }
{
    parts[number].stretch.len() == size
}

fn fill_in<T: Copy>(part: &mut Part<T>, value: T)
    ensures start { part.new.start ≡ part.old.start }
    ensures items { items_in part.new ≡ map (λ _. value) part.old.stretch ++ part.old.after.items }
{
    part.stretch.fill(value);
}

fn fill_at<T: Copy>(parts: &mut Vec<Part<T>>, number: usize, value: T)
    requires { number < length parts.old.items }
    ensures { ChangesTo parts.old.items number parts.new.items (λ part. map (λ _. value) part.stretch ++ part.after.items) }
{
    fill_in(&mut parts[number], value);
}

// Where so many items from a place on are a whole stretch, each is one value now; else nothing changes.
fn fill_stretch<T: Copy>(
    count: usize,
    flat: &Vec<T>,
    parts: &mut Vec<Part<T>>,
    from: usize,
    size: usize,
    value: T,
) -> bool
    requires counted { AreCounted count flat.now.items parts.old.items }
    requires within { from < count }
    requires behind { length flat.now.items ≤ from }
    ensures done { result ≡ true → Done count flat.now.items parts.new.items (filled (all_items flat.now.items parts.old.items) from size value) }
    ensures same { result ≡ false → parts.new.items ≡ parts.old.items }
{
    let (number, place) = placed(count, flat, parts, from);
    if place != 0 {
        return false;
    }
    let whole = has_stretch(parts, number, size);
    if whole {
        fill_at(parts, number, value);
        true
    } else {
        false
    }
}

fn refill_in<T: Copy>(part: &mut Part<T>, pattern: Vec<T>, times: usize)
    requires some { 0 < length pattern.items }
    requires whole { times * length pattern.items ≡ length part.old.stretch }
    ensures start { part.new.start ≡ part.old.start }
    ensures items { items_in part.new ≡ repeated times pattern.items ++ part.old.after.items }
{
    part.stretch.refill(pattern, times);
}

fn refill_at<T: Copy>(parts: &mut Vec<Part<T>>, number: usize, pattern: Vec<T>, times: usize)
    requires number { number < length parts.old.items }
    requires some { 0 < length pattern.items }
    requires whole { (part : Part T) → slice_get parts.old.items number ≡ Some part → times * length pattern.items ≡ length part.stretch }
    ensures { ChangesTo parts.old.items number parts.new.items (λ part. repeated times pattern.items ++ part.after.items) }
{
    refill_in(&mut parts[number], pattern, times);
}

// Where a pattern so many times has as many items as the whole stretch at a place, it is there now; else nothing changes.
fn refill_stretch<T: Copy>(
    count: usize,
    flat: &Vec<T>,
    parts: &mut Vec<Part<T>>,
    from: usize,
    pattern: Vec<T>,
    times: usize,
) -> bool
    requires counted { AreCounted count flat.now.items parts.old.items }
    requires within { from < count }
    requires behind { length flat.now.items ≤ from }
    requires some { 0 < length pattern.items }
    ensures done { result ≡ true → Done count flat.now.items parts.new.items (replaced (all_items flat.now.items parts.old.items) from (repeated times pattern.items)) }
    ensures same { result ≡ false → parts.new.items ≡ parts.old.items }
{
    let (number, place) = placed(count, flat, parts, from);
    if place != 0 {
        return false;
    }
    let each = size_of(&pattern);
    let Some(size) = times.checked_mul(each) else {
        return false;
    };
    let whole = has_stretch(parts, number, size);
    if whole {
        refill_at(parts, number, pattern, times);
        true
    } else {
        false
    }
}

fn pattern_at<T: Copy>(parts: &Vec<Part<T>>, number: usize) -> Option<(&[T], usize)>
    requires { number < length parts.now.items }
    ensures { (part : Part T) → slice_get parts.now.items number ≡ Some part → IfSome result (λ p. repeated p.1 p.0.now ≡ part.stretch) }
{
    parts[number].stretch.pattern()
}

// The pattern of a whole stretch, and how often it comes.
fn pattern_behind<'a, T: Copy>(
    count: usize,
    flat: &Vec<T>,
    parts: &'a Vec<Part<T>>,
    from: usize,
    size: usize,
) -> Option<(&'a [T], usize)>
    requires counted { AreCounted count flat.now.items parts.now.items }
    requires within { from < count }
    requires behind { length flat.now.items ≤ from }
    ensures { IfSome result (λ p. repeated p.1 p.0.now ≡ take size (drop from (all_items flat.now.items parts.now.items))) }
{
    let (number, place) = placed(count, flat, parts, from);
    if place != 0 {
        return None;
    }
    let whole = has_stretch(parts, number, size);
    if whole {
        pattern_at(parts, number)
    } else {
        None
    }
}

// One item after another.
#[inline(never)]
fn set_each<T: Copy>(items: &mut Sequence<T>, from: usize, count: usize, value: T)
    requires within { from + count ≤ length items.old }
    requires few { from + count ≤ 2199023255552 }
    ensures { items.new ≡ filled items.old from count value }
{
    for i in 0..count {
        items.set(from + i, value);
    }
}

// The first items alone.
fn cut_behind<T: Copy>(count: usize, flat: &mut Vec<T>, parts: &mut Vec<Part<T>>, size: usize)
    requires counted { AreCounted count flat.old.items parts.old.items }
    requires less { size < count }
    ensures { Done size flat.new.items parts.new.items (take size (all_items flat.old.items parts.old.items)) }
{
    let kept = parts_before(parts, size);
    parts.truncate(kept);
    if kept == 0 {
        cut_items(flat, size);
    } else {
        let start = start_at(parts, kept - 1);
        cut_at(parts, kept - 1, size.saturating_sub(start));
    }
}

// Whether so many items from a place on are plain.
#[inline]
fn is_plain<T>(flat: &Vec<T>, from: usize, count: usize) -> bool
    ensures { result ≡ true → from + count ≤ length flat.now.items }
{
    let plain = flat.len();
    from <= plain && count <= plain - from
}

#[inline]
fn are_plain<T>(flat: &Vec<T>, from: usize, to: usize, count: usize) -> bool
    ensures { result ≡ true → (from + count ≤ length flat.now.items) × (to + count ≤ length flat.now.items) }
{
    is_plain(flat, from, count) && is_plain(flat, to, count)
}

#[inline]
fn plain_run<T>(flat: &Vec<T>, from: usize, count: usize) -> &[T]
    requires { from + count ≤ length flat.now.items }
    ensures { result.now ≡ take count (drop from flat.now.items) }
{
    &flat[from..from + count]
}

// Writes items over plain ones, from a place on.
#[inline]
fn write_over<T: Copy>(items: &mut Vec<T>, at: usize, more: &[T])
    requires { at + length more.now ≤ length items.old.items }
    ensures { items.new.items ≡ overwritten items.old.items at more.now }
{
    for i in 0..more.len() {
        items[at + i] = more[i];
    }
}

// The same one by one, wherever they stand.
#[inline(never)]
fn set_all<T: Copy>(items: &mut Sequence<T>, at: usize, more: &[T])
    requires within { at + length more.now ≤ length items.old }
    requires few { at + length more.now ≤ 2199023255552 }
    ensures { items.new ≡ overwritten items.old at more.now }
{
    for i in 0..more.len() {
        items.set(at + i, more[i]);
    }
}

// Copies plain items to a place before theirs.
#[inline]
fn copy_down<T: Copy>(items: &mut Vec<T>, from: usize, to: usize, count: usize)
    requires down { to ≤ from }
    requires within { from + count ≤ length items.old.items }
    ensures { items.new.items ≡ overwritten items.old.items to (take count (drop from items.old.items)) }
{
    for i in 0..count {
        items[to + i] = items[from + i];
    }
}

// Copies plain items to a place after theirs.
#[inline]
fn copy_up<T: Copy>(items: &mut Vec<T>, from: usize, to: usize, count: usize)
    requires up { from < to }
    requires within { to + count ≤ length items.old.items }
    ensures { items.new.items ≡ overwritten items.old.items to (take count (drop from items.old.items)) }
{
    for i in (0..count).rev() {
        items[to + i] = items[from + i];
    }
}

#[inline]
fn copy_over<T: Copy>(items: &mut Vec<T>, from: usize, to: usize, count: usize)
    requires from { from + count ≤ length items.old.items }
    requires to { to + count ≤ length items.old.items }
    ensures { items.new.items ≡ overwritten items.old.items to (take count (drop from items.old.items)) }
{
    if to <= from {
        copy_down(items, from, to, count);
    } else {
        copy_up(items, from, to, count);
    }
}

// Copies items one by one to a place before theirs, wherever they stand.
fn set_down<T: Copy>(items: &mut Sequence<T>, from: usize, to: usize, count: usize)
    requires down { to ≤ from }
    requires within { from + count ≤ length items.old }
    requires few { from + count ≤ 2199023255552 }
    ensures { items.new ≡ overwritten items.old to (take count (drop from items.old)) }
{
    for i in 0..count {
        let item = items.get(from + i);
        items.set(to + i, item);
    }
}

// The same to a place after theirs.
fn set_up<T: Copy>(items: &mut Sequence<T>, from: usize, to: usize, count: usize)
    requires up { from < to }
    requires within { to + count ≤ length items.old }
    requires few { to + count ≤ 2199023255552 }
    ensures { items.new ≡ overwritten items.old to (take count (drop from items.old)) }
{
    for i in (0..count).rev() {
        let item = items.get(from + i);
        items.set(to + i, item);
    }
}

#[inline(never)]
fn copy_each<T: Copy>(items: &mut Sequence<T>, from: usize, to: usize, count: usize)
    requires from { from + count ≤ length items.old }
    requires to { to + count ≤ length items.old }
    requires few_from { from + count ≤ 2199023255552 }
    requires few_to { to + count ≤ 2199023255552 }
    ensures { items.new ≡ overwritten items.old to (take count (drop from items.old)) }
{
    if to <= from {
        set_down(items, from, to, count);
    } else {
        set_up(items, from, to, count);
    }
}

impl<T: Copy> Sequence<T> {
    /// No item yet. It takes no memory.
    pub fn new(alloc: Global) -> Sequence<T>
        ensures { result ≡ [] }
    {
        Sequence {
            alloc,
            count: 0,
            flat: Vec::new(alloc),
            parts: Vec::new(alloc),
        }
    }

    /// How many items there are.
    #[inline]
    pub fn len(&self) -> usize
        ensures { result ≡ length self.now }
    {
        self.count
    }

    /// An item.
    #[inline(always)]
    pub fn get(&self, index: usize) -> T
        requires { index < length self.now }
        ensures { slice_get self.now index ≡ Some result }
    {
        let plain = self.flat.len();
        if index < plain {
            self.flat[index]
        } else {
            get_behind(self.count, &self.flat, &self.parts, index)
        }
    }

    /// Sets an item. It takes no memory, so it can't fail.
    #[inline(always)]
    pub fn set(&mut self, index: usize, item: T)
        requires { index < length self.old }
        ensures { self.new ≡ slice_set self.old index item }
    {
        let plain = self.flat.len();
        if index < plain {
            self.flat[index] = item;
        } else {
            set_behind(self.count, &self.flat, &mut self.parts, index, item);
        }
    }

    /// So many items from a place on, where they stand plain one behind another.
    #[inline]
    pub fn run(&self, from: usize, count: usize) -> Option<&[T]>
        ensures { IfSome result (λ run. run.now ≡ take count (drop from self.now)) }
    {
        if !is_plain(&self.flat, from, count) {
            return None;
        }
        Some(plain_run(&self.flat, from, count))
    }

    /// Writes items over those from a place on. It takes no memory, so it can't fail.
    #[inline]
    pub fn overwrite(&mut self, at: usize, items: &[T])
        requires { at + length items.now ≤ length self.old }
        ensures { self.new ≡ overwritten self.old at items.now }
    {
        if !self.overwrite_plain(at, items) {
            set_all(self, at, items);
        }
    }

    #[inline]
    fn overwrite_plain(&mut self, at: usize, items: &[T]) -> bool
        requires { at + length items.now ≤ length self.old }
        ensures few { at + length items.now ≤ 2199023255552 }
        ensures done { result ≡ true → self.new ≡ overwritten self.old at items.now }
        ensures same { result ≡ false → self.new ≡ self.old }
    {
        if !is_plain(&self.flat, at, items.len()) {
            return false;
        }
        write_over(&mut self.flat, at, items);
        true
    }

    /// Copies so many items from one place on over those from another one on, as they were before the first is written.
    #[inline]
    pub fn copy_within(&mut self, from: usize, to: usize, count: usize)
        requires from { from + count ≤ length self.old }
        requires to { to + count ≤ length self.old }
        ensures { self.new ≡ overwritten self.old to (take count (drop from self.old)) }
    {
        if !self.copy_plain(from, to, count) {
            copy_each(self, from, to, count);
        }
    }

    #[inline]
    fn copy_plain(&mut self, from: usize, to: usize, count: usize) -> bool
        requires from { from + count ≤ length self.old }
        requires to { to + count ≤ length self.old }
        ensures few_from { from + count ≤ 2199023255552 }
        ensures few_to { to + count ≤ 2199023255552 }
        ensures done { result ≡ true → self.new ≡ overwritten self.old to (take count (drop from self.old)) }
        ensures same { result ≡ false → self.new ≡ self.old }
    {
        if !are_plain(&self.flat, from, to, count) {
            return false;
        }
        copy_over(&mut self.flat, from, to, count);
        true
    }

    /// One more item. The error is want of memory.
    #[inline]
    pub fn push(&mut self, item: T) -> Result<(), AllocError>
        ensures pushed { OnOk result (self.new ≡ self.old ++ item ∷ []) }
        ensures refused { OnErr result (self.new ≡ self.old) }
    {
        if self.count >= MOST {
            return Err(AllocError);
        }
        match push_behind(self.count, &mut self.flat, &mut self.parts, item) {
            Ok(()) => {
                self.count += 1;
                Ok(())
            }
            Err(error) => Err(error),
        }
    }

    /// More items, behind all, where all are plain and there is memory; else nothing changes.
    #[inline]
    pub fn extend_plain(&mut self, items: &[T]) -> bool
        ensures extended { result ≡ true → self.new ≡ self.old ++ items.now }
        ensures same { result ≡ false → self.new ≡ self.old }
    {
        let more = items.len();
        if !may_extend(self.count, &self.parts, more) {
            return false;
        }
        if !extend_flat(&mut self.flat, items) {
            return false;
        }
        self.count += more;
        true
    }

    /// The same with one item so many times.
    #[inline]
    pub fn extend_plain_with(&mut self, count: usize, item: T) -> bool
        ensures extended { result ≡ true → self.new ≡ self.old ++ repeated count (item ∷ []) }
        ensures same { result ≡ false → self.new ≡ self.old }
    {
        if !may_extend(self.count, &self.parts, count) {
            return false;
        }
        if !extend_flat_with(&mut self.flat, count, item) {
            return false;
        }
        self.count += count;
        true
    }

    /// A pattern so many times, which takes no room until its items are set. The error is want of memory.
    pub fn push_stretch(&mut self, pattern: Vec<T>, times: usize) -> Result<(), AllocError>
        requires some { 0 < length pattern.items }
        requires few { times * length pattern.items ≤ 4294967296 }
        ensures pushed { OnOk result (self.new ≡ self.old ++ repeated times pattern.items) }
        ensures refused { OnErr result (self.new ≡ self.old) }
    {
        if self.count >= MOST {
            return Err(AllocError);
        }
        let stretch = Stretch::new(self.alloc, pattern, times)?;
        let count = stretch.len();
        let part = part_with(self.alloc, self.count, stretch);
        match push_part(&mut self.parts, part) {
            Ok(()) => {
                self.count += count;
                Ok(())
            }
            Err(error) => Err(error),
        }
    }

    /// So many items from a place on are one value. It takes no memory, and where they are a whole stretch, a step for each block
    /// at most.
    pub fn fill(&mut self, from: usize, count: usize, value: T)
        requires { from + count ≤ length self.old }
        ensures { self.new ≡ filled self.old from count value }
    {
        if !self.fill_whole(from, count, value) {
            set_each(self, from, count, value);
        }
    }

    fn fill_whole(&mut self, from: usize, count: usize, value: T) -> bool
        requires { from + count ≤ length self.old }
        ensures few { from + count ≤ 2199023255552 }
        ensures done { result ≡ true → self.new ≡ filled self.old from count value }
        ensures same { result ≡ false → self.new ≡ self.old }
    {
        let plain = self.flat.len();
        if from < plain {
            return false;
        }
        if from >= self.count {
            return false;
        }
        fill_stretch(self.count, &self.flat, &mut self.parts, from, count, value)
    }

    /// A pattern so many times in place of as many items from a place on, where these are a whole stretch; else nothing changes. It takes
    /// a step for each block at most.
    pub fn refill(&mut self, from: usize, pattern: Vec<T>, times: usize) -> bool
        requires { 0 < length pattern.items }
        ensures done { result ≡ true → self.new ≡ replaced self.old from (repeated times pattern.items) }
        ensures same { result ≡ false → self.new ≡ self.old }
    {
        let plain = self.flat.len();
        if from < plain {
            return false;
        }
        if from >= self.count {
            return false;
        }
        refill_stretch(
            self.count,
            &self.flat,
            &mut self.parts,
            from,
            pattern,
            times,
        )
    }

    /// Which pattern so many items from a place on are, and how often it comes, where they are a whole stretch of which none was set.
    pub fn pattern(&self, from: usize, count: usize) -> Option<(&[T], usize)>
        ensures { IfSome result (λ p. repeated p.1 p.0.now ≡ take count (drop from self.now)) }
    {
        let plain = self.flat.len();
        if from < plain {
            return None;
        }
        if from >= self.count {
            return None;
        }
        pattern_behind(self.count, &self.flat, &self.parts, from, count)
    }

    /// Drops the items from a place on.
    pub fn truncate(&mut self, count: usize)
        ensures { self.new ≡ take count self.old }
    {
        if count >= self.count {
            return;
        }
        cut_behind(self.count, &mut self.flat, &mut self.parts, count);
        self.count = count;
    }
}

// How many parts begin before an index.
fn parts_before<T>(parts: &Vec<Part<T>>, index: usize) -> usize
    ensures within { result ≤ length parts.now.items }
    ensures before { 0 < result → BeginsBy parts.now.items (result - 1) index }
    ensures behind { BeginsFrom parts.now.items result index }
{
    let mut count = parts.len();
    while count > 0 {
        let start = start_at(parts, count - 1);
        if start < index {
            return count;
        }
        count -= 1;
    }
    0
}
