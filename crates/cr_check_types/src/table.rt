ghost use Rattle.std.specs.Prelude.{◌≡◌, ◌<◌, ◌≤◌, ◌+◌, ℕ, IfOk, OnOk, IfNone, IfSome, IsTrue, IsFalse, Some, length, slice_get};
ghost use Rattle.std.specs.HashMap.{get};
ghost use Rattle.cr_check_types.specs.Types.{Qualified, type_at, type_of, room_of, unknown, IsTable, IsShape, IsRow, Grows};
ghost use Rattle.cr_check_types.specs.Shared.{same_key, key_of, qualifiers_of, normal_of, IsOther, IsAbsent, IsCanonical, IsWith, AreShared};

use crate::compatible::number_of;
use crate::shape::Shape;
use cr_syntax::CType;
use std::alloc::{AllocError, Global};
use std::collections::HashMap;
use std::marker::Model;

const NO_TYPE: Shape = Shape {
    of: CType::Unknown,
    constant: false,
    volatile: false,
};

// What tells shapes apart: the kind of type with its qualifiers, and two numbers.
type Key = ((u8, u8), (u64, u64));

// How many rows that were asked for are kept at hand.
const PLACES: usize = 128;

/// The types of a unit, each a row that names rows before its own. Row 0 is that of no type, and each type has one row.
#[derive(Drop)]
pub struct Table {
    shapes: Vec<Shape>,
    // The row of each shape.
    rows: HashMap<Key, u32>,
    // The row that was last asked for at each place, which may be any row: most shapes are asked for again and again, and a look here
    // takes the place of one in the map.
    recent: [u32; PLACES],
}

impl Model for Table {
    ghost use Rattle.std.specs.Prelude.{List};
    ghost use Rattle.std.specs.HashMap.{get};
    ghost use Rattle.cr_check_types.specs.declared.shape.Shape as shape;
    ghost use Rattle.cr_check_types.specs.Shared.{same_key, AreShared};

    ghost Value = { List shape.Shape };

    ghost view = { λ table. table.shapes.items };

    ghost invariant = { λ table. AreShared table.shapes.items (λ key. get same_key table.rows key) };
}

impl Table {
    /// A table with the row of no type alone.
    pub fn new(alloc: Global) -> Result<Table, AllocError>
        ensures first { IfOk result (λ t. IsRow t 0 unknown) }
        ensures alone { IfOk result (λ t. length t ≡ 1) }
    {
        let mut shapes = Vec::new(alloc);
        let mut rows = HashMap::new(alloc);
        put(&mut shapes, &mut rows, NO_TYPE)?;
        Ok(Table {
            shapes,
            rows,
            recent: [0; PLACES],
        })
    }

    /// A law: each type has one row, and one shape.
    pub fn is_canonical(&self)
        ensures { IsCanonical self.now }
    {
        let _ = &self.shapes;
    }

    /// How many rows there are.
    pub fn len(&self) -> usize
        ensures { result ≡ length self.now }
    {
        self.shapes.len()
    }

    /// The shape of a row: the type's outermost level.
    pub fn shape(&self, row: u32) -> Shape
        requires { row < length self.now }
        ensures is { type_at self.now row ≡ type_of (type_at self.now) result }
        ensures below { room_of result ≤ row }
    {
        shape_in(&self.shapes, row as usize)
    }

    /// The row of the type that a shape makes, which is new where the type has no row yet. The error is want of memory, also where
    /// the row's number doesn't fit 32 bits.
    pub fn add(&mut self, shape: Shape) -> Result<u32, AllocError>
        requires { room_of shape ≤ length self.old }
        ensures made { IfOk result (λ r. IsRow self.new r (type_of (type_at self.old) shape)) }
        ensures grows { OnOk result (Grows self.old self.new) }
        ensures shared { OnOk result (IsWith self.old (type_of (type_at self.old) shape) self.new) }
    {
        let shape = normal(shape);
        let place = place_of(shape);
        match known(&self.shapes, &self.rows, self.recent[place], shape) {
            Some(row) => {
                self.recent[place] = row;
                Ok(row)
            }
            None => put(&mut self.shapes, &mut self.rows, shape),
        }
    }
}

// Where a shape's row is kept at hand.
fn place_of(shape: Shape) -> usize
    ensures { result < 128 }
{
    let kind = match shape.of {
        CType::Void => 0,
        CType::Int(kind) => usize::from(number_of(kind)),
        CType::Pointer(row) => (row as usize).wrapping_mul(4) + 16,
        CType::Array(row, _) => (row as usize).wrapping_mul(4) + 17,
        CType::Struct(node) => (node as usize).wrapping_mul(4) + 18,
        CType::Function(node) => (node as usize).wrapping_mul(4) + 19,
        CType::Unknown => 12,
    };
    kind % PLACES
}

// The row with this very shape, which may be the recent one.
#[tactic(auto, using(crate::proofs::Shared::missing, crate::proofs::Shared::elsewhere))]
fn known(shapes: &[Shape], rows: &HashMap<Key, u32>, recent: u32, shape: Shape) -> Option<u32>
    requires { AreShared shapes.now (λ key. get same_key rows.now key) }
    ensures there { IfSome result (λ r. IsRow shapes.now r (type_of (type_at shapes.now) shape)) }
    ensures absent { IfNone result (IsAbsent shapes.now shape) }
{
    if is_at(shapes, recent as usize, shape) {
        return Some(recent);
    }
    match row_at(rows, shape) {
        Some(row) if is_at(shapes, row as usize, shape) => Some(row),
        _ => None,
    }
}

fn row_at(rows: &HashMap<Key, u32>, shape: Shape) -> Option<u32>
    ensures { result ≡ get same_key rows.now (key_of shape) }
{
    rows.get(&key_of(shape)).copied()
}

fn shape_in(shapes: &[Shape], row: usize) -> Shape
    requires table { IsTable shapes.now }
    requires within { row < length shapes.now }
    ensures shape { IsShape shapes.now row result }
    ensures at { slice_get shapes.now row ≡ Some result }
{
    shapes[row]
}

// Whether a row has this very shape.
#[tactic(auto, using(crate::proofs::Shared::past_other))]
fn is_at(shapes: &[Shape], row: usize, shape: Shape) -> bool
    requires { IsTable shapes.now }
    ensures there { IsTrue result → IsRow shapes.now row (type_of (type_at shapes.now) shape) }
    ensures other { IsFalse result → IsOther shapes.now row shape }
{
    if row < shapes.len() {
        same_key(key_of(shape_in(shapes, row)), key_of(shape))
    } else {
        false
    }
}

// One row more, of a shape that has none.
fn put(
    shapes: &mut Vec<Shape>,
    rows: &mut HashMap<Key, u32>,
    shape: Shape,
) -> Result<u32, AllocError>
    requires shared { AreShared shapes.old.items (λ key. get same_key rows.old key) }
    requires normal { normal_of shape ≡ shape }
    requires absent { IsAbsent shapes.old.items shape }
    requires room { room_of shape ≤ length shapes.old.items }
    ensures shared { AreShared shapes.new.items (λ key. get same_key rows.new key) }
    ensures row { IfOk result (λ r. r ≡ length shapes.old.items) }
    ensures one { OnOk result (length shapes.new.items ≡ length shapes.old.items + 1) }
    ensures made { IfOk result (λ r. IsRow shapes.new.items r (type_of (type_at shapes.old.items) shape)) }
    ensures grows { OnOk result (Grows shapes.old.items shapes.new.items) }
    ensures with { OnOk result (IsWith shapes.old.items (type_of (type_at shapes.old.items) shape) shapes.new.items) }
{
    let row = next_row(shapes)?;
    rows.insert(key_of(shape), row)?;
    shapes.push(shape)?;
    Ok(row)
}

fn next_row(shapes: &Vec<Shape>) -> Result<u32, AllocError>
    ensures { IfOk result (λ r. r ≡ length shapes.now.items) }
{
    u32::try_from(shapes.len()).map_err(|_| AllocError)
}

// The same type's shape, whose own qualifiers are gone where it is an array.
fn normal(shape: Shape) -> Shape
    ensures is { result ≡ normal_of shape }
    ensures normal { normal_of result ≡ result }
    ensures same { (look : ℕ → Qualified) → type_of look result ≡ type_of look shape }
    ensures room { room_of result ≡ room_of shape }
{
    match shape.of {
        CType::Array(..) => Shape::plain(shape.of),
        _ => shape,
    }
}

fn key_of(shape: Shape) -> Key
    ensures { result ≡ key_of shape }
{
    let qualifiers = qualifiers_of(shape.constant, shape.volatile);
    match shape.of {
        CType::Void => ((0, qualifiers), (0, 0)),
        CType::Int(kind) => ((1, qualifiers), (u64::from(number_of(kind)), 0)),
        CType::Pointer(row) => ((2, qualifiers), (u64::from(row), 0)),
        CType::Array(row, count) => ((3, qualifiers), (u64::from(row), count)),
        CType::Struct(node) => ((4, qualifiers), (u64::from(node), 0)),
        CType::Function(node) => ((5, qualifiers), (u64::from(node), 0)),
        CType::Unknown => ((6, qualifiers), (0, 0)),
    }
}

fn same_key(left: Key, right: Key) -> bool
    ensures { result ≡ same_key left right }
{
    left.0.0 == right.0.0 && left.0.1 == right.0.1 && left.1.0 == right.1.0 && left.1.1 == right.1.1
}

fn qualifiers_of(constant: bool, volatile: bool) -> u8
    ensures { result ≡ qualifiers_of constant volatile }
{
    match (constant, volatile) {
        (false, false) => 0,
        (false, true) => 1,
        (true, false) => 2,
        (true, true) => 3,
    }
}
