ghost use Rattle.std.specs.Prelude.{◌≡◌, ◌<◌, ◌≤◌, ◌↔◌, ℕ, ◌+◌, length, true, false, map, take, drop, slice_set, Ok, IsTrue, IfNone, IfSome, IfOk};
ghost use Rattle.std.specs.List.{list_any};
ghost use Rattle.cr_sequence.specs.Kept.{repeated};
ghost use Rattle.cr_sequence.specs.Stretches.{filled};
ghost use Rattle.cr_memory.specs.Kind.{is_same};
ghost use Rattle.cr_memory.specs.Access.{is_null_or_end, is_unset, is_literal, is_constant, have_kinds, have_same_kinds, overwritten, reaching, reach_by, Writes, Reads, HasStride};
ghost use Rattle.cr_memory.specs.Pointers.{is_in_literal};
ghost use Rattle.cr_memory.specs.Flat.{span_at, ended_in, held_ended_in, index_of, own_in, PlaceIn, PointerIn, HoldsIn, OwnHold, RunHolds, Began, HasRoom, cell_or, shape_or, flat_load, flat_save, flat_put, flat_copy, flat_cells};

use crate::spans::Spans;
use crate::value::{
    CONSTANT_WRITTEN, Cell, ENDED, Guard, LITERAL_WRITTEN, NULL_OR_END, OTHER_TYPE, Pointer,
    Scalar, Trap, UNSET,
};
use cr_sequence::Sequence;
use std::alloc::{AllocError, Global};

#[inline]
fn cell_at(cells: &Sequence<Cell>, index: usize) -> Cell
    requires { index < length cells.now }
    ensures { result ≡ cell_or cells.now index }
{
    cells.get(index)
}

#[inline]
fn own_at(shape: &Sequence<(Scalar, Guard)>, index: usize) -> (Scalar, Guard)
    requires { index < length shape.now }
    ensures { result ≡ shape_or shape.now index }
{
    shape.get(index)
}

/// A place behind another one, among so many.
#[inline]
pub(crate) fn place_in(count: usize, from: usize, by: usize) -> usize
    requires { from + by ≤ count }
    ensures { result ≡ from + by }
{
    from + by
}

/// So many cells from a place on are unset again, whatever their guards.
pub(crate) fn unset(cells: &mut Sequence<Cell>, from: usize, count: usize)
    requires { from + count ≤ length cells.old }
    ensures { cells.new ≡ filled cells.old from count Cell.Unset }
{
    cells.fill(from, count, Cell::Unset);
}

pub(crate) fn is_same(left: Scalar, right: Scalar) -> bool
    ensures { result ≡ is_same left right }
{
    left == right
}

pub(crate) fn has_ended(spans: &Spans, at: Pointer) -> bool
    ensures { result ≡ ended_in spans.now at }
{
    match at {
        Pointer::Null => false,
        Pointer::At { object, .. } => !spans.get(object).alive,
    }
}

fn holds_ended(spans: &Spans, cell: Cell) -> bool
    ensures { result ≡ held_ended_in spans.now cell }
{
    match cell {
        Cell::Pointer(pointer) => has_ended(spans, pointer),
        Cell::Unset | Cell::Number(_) => false,
    }
}

/// The place of the cell that a pointer points to.
fn index(spans: &Spans, cells: &Sequence<Cell>, at: Pointer) -> Result<usize, Trap>
    requires within { PointerIn spans.now at }
    requires room { HasRoom spans.now (length cells.now) }
    ensures place { result ≡ reaching (ended_in spans.now at) (is_null_or_end at) (Ok (index_of spans.now at)) }
    ensures inside { IfOk result (λ i. i < length cells.now) }
{
    let Pointer::At {
        object,
        cell,
        high,
        ..
    } = at
    else {
        return Err(Trap::Undefined(NULL_OR_END));
    };
    let span = spans.get(object);
    if !span.alive {
        Err(Trap::Undefined(ENDED))
    } else if cell < high {
        Ok(place_in(cells.len(), span.first, cell as usize))
    } else {
        Err(Trap::Undefined(NULL_OR_END))
    }
}

/// Whether a pointer into a live object points to a char of a string literal.
pub(crate) fn is_in_literal(
    spans: &Spans,
    cells: &Sequence<Cell>,
    shape: &Sequence<(Scalar, Guard)>,
    at: Pointer,
) -> bool
    requires within { PointerIn spans.now at }
    requires live { ended_in spans.now at ≡ false }
    requires room { HasRoom spans.now (length cells.now) }
    requires same_length { length shape.now ≡ length cells.now }
    ensures { result ≡ is_in_literal (own_in spans.now shape.now) at }
{
    match index(spans, cells, at) {
        Ok(index) => is_literal(own_at(shape, index)),
        Err(_) => false,
    }
}

/// The place of the first of the cells of an element that a pointer points to.
fn first_index(
    spans: &Spans,
    cells: &Sequence<Cell>,
    at: Pointer,
    count: usize,
) -> Result<usize, Trap>
    requires within { PointerIn spans.now at }
    requires stride { HasStride at count }
    requires room { HasRoom spans.now (length cells.now) }
    ensures place { result ≡ reaching (ended_in spans.now at) (is_null_or_end at) (Ok (index_of spans.now at)) }
    ensures inside { IfOk result (λ i. i + count ≤ length cells.now) }
{
    index(spans, cells, at)
}

/// Whether a pointer points to a cell of a live object.
pub(crate) fn reach(spans: &Spans, at: Pointer) -> Result<(), Trap>
    ensures { result ≡ reach_by (ended_in spans.now) at }
{
    if has_ended(spans, at) {
        return Err(Trap::Undefined(ENDED));
    }
    match at {
        Pointer::At { cell, high, .. } if cell < high => Ok(()),
        _ => Err(Trap::Undefined(NULL_OR_END)),
    }
}

fn is_unset(cell: Cell) -> bool
    ensures { result ≡ is_unset cell }
{
    match cell {
        Cell::Unset => true,
        Cell::Number(_) | Cell::Pointer(_) => false,
    }
}

/// The cell at a pointer's place as a value of a kind.
pub(crate) fn load(
    spans: &Spans,
    cells: &Sequence<Cell>,
    shape: &Sequence<(Scalar, Guard)>,
    at: Pointer,
    kind: Scalar,
) -> Result<Cell, Trap>
    requires within { PointerIn spans.now at }
    requires room { HasRoom spans.now (length cells.now) }
    requires same_length { length shape.now ≡ length cells.now }
    ensures { result ≡ flat_load spans.now cells.now shape.now at kind }
{
    let index = index(spans, cells, at)?;
    let cell = cell_at(cells, index);
    if holds_ended(spans, cell) {
        Err(Trap::Undefined(ENDED))
    } else if !is_same(own_at(shape, index).0, kind) {
        Err(Trap::Left(OTHER_TYPE))
    } else if is_unset(cell) {
        Err(Trap::Undefined(UNSET))
    } else {
        Ok(cell)
    }
}

/// Writes a value of a kind to the cell at a pointer's place.
pub(crate) fn save(
    spans: &Spans,
    cells: &mut Sequence<Cell>,
    shape: &Sequence<(Scalar, Guard)>,
    at: Pointer,
    kind: Scalar,
    value: Cell,
) -> Result<(), Trap>
    requires within { PointerIn spans.now at }
    requires room { HasRoom spans.now (length cells.old) }
    requires same_length { length shape.now ≡ length cells.old }
    ensures { Writes (flat_save spans.now cells.old shape.now at kind value) result cells.old cells.new }
{
    let index = index(spans, cells, at)?;
    let (own, guard) = own_at(shape, index);
    match guard {
        Guard::Literal => Err(Trap::Undefined(LITERAL_WRITTEN)),
        Guard::Constant => Err(Trap::Undefined(CONSTANT_WRITTEN)),
        Guard::Free if !is_same(own, kind) => Err(Trap::Left(OTHER_TYPE)),
        Guard::Free => {
            cells.set(index, value);
            Ok(())
        }
    }
}

// On a plain run of a shape, and one by one where there is none.

#[inline]
fn run_has_literal(shape: &[(Scalar, Guard)]) -> bool
    ensures { result ≡ list_any (λ s. is_literal s.1) shape.now }
{
    shape.iter().any(|s| s.1 == Guard::Literal)
}

#[inline]
fn run_has_constant(shape: &[(Scalar, Guard)]) -> bool
    ensures { result ≡ list_any (λ s. is_constant s.1) shape.now }
{
    shape.iter().any(|s| s.1 == Guard::Constant)
}

#[inline]
fn runs_have_same_kinds(left: &[(Scalar, Guard)], right: &[(Scalar, Guard)]) -> bool
    ensures { result ≡ have_same_kinds left.now right.now }
{
    left.iter().zip(right).all(|(l, r)| is_same(l.0, r.0))
}

#[inline]
fn run_has_kinds(shape: &[(Scalar, Guard)], kinds: &[Scalar]) -> bool
    ensures { result ≡ have_kinds shape.now kinds.now }
{
    shape
        .iter()
        .zip(kinds)
        .all(|(own, kind)| is_same(own.0, *kind))
}

#[inline]
fn has_literal(shape: &Sequence<(Scalar, Guard)>, from: usize, count: usize) -> bool
    requires { from + count ≤ length shape.now }
    ensures { result ≡ list_any (λ s. is_literal s.1) (take count (drop from shape.now)) }
{
    match shape.run(from, count) {
        Some(own) => run_has_literal(own),
        None => has_literal_each(shape, from, count),
    }
}

fn is_literal(own: (Scalar, Guard)) -> bool
    ensures { result ≡ is_literal own.1 }
{
    match own.1 {
        Guard::Literal => true,
        Guard::Free | Guard::Constant => false,
    }
}

#[inline(never)]
fn has_literal_each(shape: &Sequence<(Scalar, Guard)>, from: usize, count: usize) -> bool
    requires { from + count ≤ length shape.now }
    ensures { result ≡ list_any (λ s. is_literal s.1) (take count (drop from shape.now)) }
{
    for i in 0..count {
        if is_literal(own_at(shape, place_in(shape.len(), from, i))) {
            return true;
        }
    }
    false
}

#[inline]
fn has_constant(shape: &Sequence<(Scalar, Guard)>, from: usize, count: usize) -> bool
    requires { from + count ≤ length shape.now }
    ensures { result ≡ list_any (λ s. is_constant s.1) (take count (drop from shape.now)) }
{
    match shape.run(from, count) {
        Some(own) => run_has_constant(own),
        None => has_constant_each(shape, from, count),
    }
}

fn is_constant(own: (Scalar, Guard)) -> bool
    ensures { result ≡ is_constant own.1 }
{
    match own.1 {
        Guard::Constant => true,
        Guard::Free | Guard::Literal => false,
    }
}

#[inline(never)]
fn has_constant_each(shape: &Sequence<(Scalar, Guard)>, from: usize, count: usize) -> bool
    requires { from + count ≤ length shape.now }
    ensures { result ≡ list_any (λ s. is_constant s.1) (take count (drop from shape.now)) }
{
    for i in 0..count {
        if is_constant(own_at(shape, place_in(shape.len(), from, i))) {
            return true;
        }
    }
    false
}

#[inline]
fn have_same_kinds(
    shape: &Sequence<(Scalar, Guard)>,
    left: usize,
    right: usize,
    count: usize,
) -> bool
    requires left { left + count ≤ length shape.now }
    requires right { right + count ≤ length shape.now }
    ensures { result ≡ have_same_kinds (take count (drop left shape.now)) (take count (drop right shape.now)) }
{
    match (shape.run(left, count), shape.run(right, count)) {
        (Some(one), Some(other)) => runs_have_same_kinds(one, other),
        _ => have_same_kinds_each(shape, left, right, count),
    }
}

#[inline(never)]
fn have_same_kinds_each(
    shape: &Sequence<(Scalar, Guard)>,
    left: usize,
    right: usize,
    count: usize,
) -> bool
    requires left { left + count ≤ length shape.now }
    requires right { right + count ≤ length shape.now }
    ensures { result ≡ have_same_kinds (take count (drop left shape.now)) (take count (drop right shape.now)) }
{
    for i in 0..count {
        let one = own_at(shape, place_in(shape.len(), left, i));
        let other = own_at(shape, place_in(shape.len(), right, i));
        if !is_same(one.0, other.0) {
            return false;
        }
    }
    true
}

#[inline]
fn have_kinds(shape: &Sequence<(Scalar, Guard)>, from: usize, kinds: &[Scalar]) -> bool
    requires { from + length kinds.now ≤ length shape.now }
    ensures { result ≡ have_kinds (take (length kinds.now) (drop from shape.now)) kinds.now }
{
    match shape.run(from, kinds.len()) {
        Some(own) => run_has_kinds(own, kinds),
        None => have_kinds_each(shape, from, kinds),
    }
}

#[inline(never)]
fn have_kinds_each(shape: &Sequence<(Scalar, Guard)>, from: usize, kinds: &[Scalar]) -> bool
    requires { from + length kinds.now ≤ length shape.now }
    ensures { result ≡ have_kinds (take (length kinds.now) (drop from shape.now)) kinds.now }
{
    for i in 0..kinds.len() {
        let own = own_at(shape, place_in(shape.len(), from, i));
        if !is_same(own.0, kinds[i]) {
            return false;
        }
    }
    true
}

/// Writes values over the cells from a place on.
#[inline]
fn write_over(cells: &mut Sequence<Cell>, target: usize, values: &[Cell])
    requires { target + length values.now ≤ length cells.old }
    ensures { cells.new ≡ overwritten cells.old target values.now }
{
    cells.overwrite(target, values);
}

/// Writes values of the kinds to the cells of a structure.
pub(crate) fn put(
    spans: &Spans,
    cells: &mut Sequence<Cell>,
    shape: &Sequence<(Scalar, Guard)>,
    to: Pointer,
    kinds: &[Scalar],
    values: &[Cell],
) -> Result<(), Trap>
    requires to { PointerIn spans.now to }
    requires stride { HasStride to (length kinds.now) }
    requires same_number { length values.now ≡ length kinds.now }
    requires room { HasRoom spans.now (length cells.old) }
    requires same_length { length shape.now ≡ length cells.old }
    ensures { Writes (flat_put spans.now cells.old shape.now to kinds.now values.now) result cells.old cells.new }
{
    let target = first_index(spans, cells, to, kinds.len())?;
    if has_literal(shape, target, kinds.len()) {
        return Err(Trap::Undefined(LITERAL_WRITTEN));
    }
    if has_constant(shape, target, kinds.len()) {
        return Err(Trap::Undefined(CONSTANT_WRITTEN));
    }
    if !have_kinds(shape, target, kinds) {
        return Err(Trap::Left(OTHER_TYPE));
    }
    write_over(cells, target, values);
    Ok(())
}

/// Copies items to another place.
#[inline]
pub(crate) fn copy_items<T: Copy>(
    items: &mut Sequence<T>,
    source: usize,
    target: usize,
    count: usize,
)
    requires source { source + count ≤ length items.old }
    requires target { target + count ≤ length items.old }
    ensures { items.new ≡ overwritten items.old target (take count (drop source items.old)) }
{
    items.copy_within(source, target, count);
}

/// Copies as many cells as a structure has.
pub(crate) fn copy(
    spans: &Spans,
    cells: &mut Sequence<Cell>,
    shape: &Sequence<(Scalar, Guard)>,
    from: Pointer,
    to: Pointer,
    count: u32,
) -> Result<(), Trap>
    requires from { PointerIn spans.now from }
    requires to { PointerIn spans.now to }
    requires from_stride { HasStride from count }
    requires to_stride { HasStride to count }
    requires room { HasRoom spans.now (length cells.old) }
    requires same_length { length shape.now ≡ length cells.old }
    ensures { Writes (flat_copy spans.now cells.old shape.now from to count) result cells.old cells.new }
{
    if has_ended(spans, from) || has_ended(spans, to) {
        return Err(Trap::Undefined(ENDED));
    }
    let count = count as usize;
    let source = first_index(spans, cells, from, count)?;
    let target = first_index(spans, cells, to, count)?;
    if has_literal(shape, target, count) {
        return Err(Trap::Undefined(LITERAL_WRITTEN));
    }
    if has_constant(shape, target, count) {
        return Err(Trap::Undefined(CONSTANT_WRITTEN));
    }
    if !have_same_kinds(shape, source, target, count) {
        return Err(Trap::Left(OTHER_TYPE));
    }
    copy_items(cells, source, target, count);
    Ok(())
}

#[inline]
fn copied(
    alloc: Global,
    cells: &Sequence<Cell>,
    from: usize,
    count: usize,
) -> Result<Vec<Cell>, AllocError>
    requires { from + count ≤ length cells.now }
    ensures { IfOk result (λ all. all.items ≡ take count (drop from cells.now)) }
{
    match cells.run(from, count) {
        Some(run) => run.to_vec(alloc),
        None => copied_each(alloc, cells, from, count),
    }
}

#[inline(never)]
fn copied_each(
    alloc: Global,
    cells: &Sequence<Cell>,
    from: usize,
    count: usize,
) -> Result<Vec<Cell>, AllocError>
    requires { from + count ≤ length cells.now }
    ensures { IfOk result (λ all. all.items ≡ take count (drop from cells.now)) }
{
    let mut all = Vec::with_capacity(alloc, count)?;
    for i in 0..count {
        all.push(cell_at(cells, place_in(cells.len(), from, i)))?;
    }
    Ok(all)
}

/// The cells of a structure.
pub(crate) fn cells(
    alloc: Global,
    spans: &Spans,
    cells: &Sequence<Cell>,
    shape: &Sequence<(Scalar, Guard)>,
    from: Pointer,
    kinds: &[Scalar],
) -> Result<Vec<Cell>, Trap>
    requires from { PointerIn spans.now from }
    requires from_stride { HasStride from (length kinds.now) }
    requires room { HasRoom spans.now (length cells.now) }
    requires same_length { length shape.now ≡ length cells.now }
    ensures { Reads (flat_cells spans.now cells.now shape.now from kinds.now) result }
{
    let start = first_index(spans, cells, from, kinds.len())?;
    if !have_kinds(shape, start, kinds) {
        return Err(Trap::Left(OTHER_TYPE));
    }
    match copied(alloc, cells, start, kinds.len()) {
        Ok(copy) => Ok(copy),
        Err(_) => Err(Trap::NoMemory),
    }
}

/// Sets a cell of a live object, whatever its guard.
pub(crate) fn begin(spans: &Spans, cells: &mut Sequence<Cell>, object: u32, cell: u32, value: Cell)
    requires { (span_at spans.now object).first + cell < length cells.old }
    ensures { cells.new ≡ slice_set cells.old ((span_at spans.now object).first + cell) value }
{
    let at = place_in(cells.len(), spans.get(object).first, cell as usize);
    cells.set(at, value);
}

/// Whether cells of these kinds may hold these values.
fn own_hold(spans: &Spans, own: &[(Scalar, Guard)], values: &[Cell]) -> bool
    ensures { result ≡ true → OwnHold spans.now own.now values.now }
{
    let (mut own_left, mut left) = (own, values);
    while let [value, more @ ..] = left {
        let [kind, others @ ..] = own_left else {
            return false;
        };
        if !holds(spans, kind.0, *value) {
            return false;
        }
        own_left = others;
        left = more;
    }
    true
}

/// The same of the cells from a place on, wherever they stand.
#[inline(never)]
fn each_holds(
    spans: &Spans,
    shape: &Sequence<(Scalar, Guard)>,
    first: usize,
    values: &[Cell],
) -> bool
    requires { first + length values.now ≤ length shape.now }
    ensures { result ≡ true → RunHolds spans.now shape.now first values.now }
{
    let (mut count, mut left) = (0, values);
    while let [value, more @ ..] = left {
        let own = own_at(shape, place_in(shape.len(), first, count));
        if !holds(spans, own.0, *value) {
            return false;
        }
        count += 1;
        left = more;
    }
    true
}

#[inline]
fn run_holds(
    spans: &Spans,
    shape: &Sequence<(Scalar, Guard)>,
    first: usize,
    values: &[Cell],
) -> bool
    requires { first + length values.now ≤ length shape.now }
    ensures { result ≡ true → RunHolds spans.now shape.now first values.now }
{
    match shape.run(first, values.len()) {
        Some(own) => own_hold(spans, own, values),
        None => each_holds(spans, shape, first, values),
    }
}

/// Whether so many cells from a place on are among those of an object.
#[inline]
fn fits(count: u32, from: u32, more: usize) -> bool
    ensures { result ≡ true → from + more ≤ count }
{
    from <= count && more <= (count - from) as usize
}

/// Sets cells of a live object from a place on, whatever their guards, where it has them and they may hold the values; else nothing changes.
pub(crate) fn begin_run(
    spans: &Spans,
    cells: &mut Sequence<Cell>,
    shape: &Sequence<(Scalar, Guard)>,
    object: u32,
    from: u32,
    values: &[Cell],
) -> bool
    requires room { HasRoom spans.now (length cells.old) }
    requires same_length { length shape.now ≡ length cells.old }
    ensures done { result ≡ true → Began spans.now cells.old shape.now object from values.now cells.new }
    ensures same { result ≡ false → cells.new ≡ cells.old }
{
    let span = spans.get(object);
    if !span.alive || !fits(span.count, from, values.len()) {
        return false;
    }
    let first = place_in(cells.len(), span.first, from as usize);
    if !run_holds(spans, shape, first, values) {
        return false;
    }
    write_over(cells, first, values);
    true
}

/// The cells of a live object, where they stand plain.
pub(crate) fn run_of<'a>(
    spans: &Spans,
    cells: &'a Sequence<Cell>,
    object: u32,
) -> Option<&'a [Cell]>
    ensures { IfSome result (λ run. ((span_at spans.now object).alive ≡ true)
        × (run.now ≡ take (span_at spans.now object).count (drop (span_at spans.now object).first cells.now))) }
{
    let span = spans.get(object);
    if !span.alive {
        return None;
    }
    cells.run(span.first, span.count as usize)
}

/// How often which pattern of kinds comes in a live large object.
fn pattern_of<'a>(
    spans: &Spans,
    shape: &'a Sequence<(Scalar, Guard)>,
    object: u32,
) -> Option<(&'a [(Scalar, Guard)], usize)>
    ensures { IfSome result (λ p. ((span_at spans.now object).alive ≡ true)
        × (repeated p.1 p.0.now ≡ take (span_at spans.now object).count (drop (span_at spans.now object).first shape.now))) }
{
    let span = spans.get(object);
    if !span.alive {
        return None;
    }
    shape.pattern(span.first, span.count as usize)
}

/// Sets all cells of a live large object to a pattern that comes so many times, whatever their guards, where they may hold it; else nothing
/// changes.
pub(crate) fn refill(
    spans: &Spans,
    cells: &mut Sequence<Cell>,
    shape: &Sequence<(Scalar, Guard)>,
    object: u32,
    pattern: Vec<Cell>,
    times: u32,
) -> bool
    requires room { HasRoom spans.now (length cells.old) }
    requires same_length { length shape.now ≡ length cells.old }
    ensures done { result ≡ true → Began spans.now cells.old shape.now object 0 (repeated times pattern.items) cells.new }
    ensures same { result ≡ false → cells.new ≡ cells.old }
{
    let Some((own, often)) = pattern_of(spans, shape, object) else {
        return false;
    };
    if often != times as usize || own.len() != pattern.len() || pattern.len() == 0 {
        return false;
    }
    if !own_hold(spans, own, pattern.as_slice()) {
        return false;
    }
    cells.refill(spans.get(object).first, pattern, often)
}

/// Whether a pointer names an object that was entered, into an array of whole elements, within its cells where it lives.
pub(crate) fn is_pointer(spans: &Spans, at: Pointer) -> bool
    ensures { IsTrue result ↔ PointerIn spans.now at }
{
    match at {
        Pointer::Null => true,
        Pointer::At {
            object,
            cell,
            low,
            high,
            element,
        } => is_array_place(spans, object, cell, low, high, element.cells),
    }
}

fn is_array_place(spans: &Spans, object: u32, cell: u32, low: u32, high: u32, stride: u32) -> bool
    ensures { IsTrue result ↔ PlaceIn spans.now object cell low high stride }
{
    if object >= spans.entered() || stride == 0 || cell < low || high < cell {
        return false;
    }
    let span = spans.get(object);
    (cell - low) % stride == 0 && (high - cell) % stride == 0 && (!span.alive || high <= span.count)
}

/// Whether a value may stand in a cell of a kind.
pub(crate) fn holds(spans: &Spans, kind: Scalar, value: Cell) -> bool
    ensures { IsTrue result ↔ HoldsIn spans.now kind value }
{
    match (kind, value) {
        (_, Cell::Unset) => true,
        (Scalar::Int(kind), Cell::Number(number)) => kind.can_represent(number),
        (Scalar::Pointer(_), Cell::Pointer(pointer)) => is_pointer(spans, pointer),
        _ => false,
    }
}

/// The kind of a live object's cell.
pub(crate) fn kind_of(
    spans: &Spans,
    shape: &Sequence<(Scalar, Guard)>,
    object: u32,
    cell: u32,
) -> Option<Scalar>
    requires { HasRoom spans.now (length shape.now) }
    ensures some { IfSome result (λ kind. ((span_at spans.now object).alive ≡ true) × (cell < (span_at spans.now object).count) × (kind ≡ (shape_or shape.now ((span_at spans.now object).first + cell)).0)) }
    ensures none { IfNone result ((span_at spans.now object).alive ≡ true → (span_at spans.now object).count ≤ cell) }
{
    let span = spans.get(object);
    if !span.alive || cell >= span.count {
        return None;
    }
    Some(own_at(shape, place_in(shape.len(), span.first, cell as usize)).0)
}
