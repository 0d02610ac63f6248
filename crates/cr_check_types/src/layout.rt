ghost use Rattle.std.specs.Prelude.{◌≡◌, ◌<◌, ◌*◌, length, ℕ};
ghost use Rattle.cr_check_types.specs.Types.{type_at};
ghost use Rattle.cr_check_types.specs.Layouts.{fitted, count_of, element_of, scalar, bytes_of, layout_by, single_of, times, layout_of, aligned, offset_of, with_member, closed};

use crate::table::Table;
use cr_ints::IntKind;
use cr_syntax::CType;

/// How much room a type takes. Numbers that don't fit count as the greatest.
#[derive(Clone, Copy)]
pub struct Layout {
    /// Its bytes.
    pub size: u64,
    /// The number of bytes of which its address is a multiple.
    pub alignment: u64,
    /// The scalars in it.
    pub cells: u64,
}

/// What has no size, and where the members of a structure begin.
pub const NOTHING: Layout = Layout {
    size: 0,
    alignment: 1,
    cells: 0,
};

/// The elements of a type that are no arrays.
#[derive(Clone, Copy)]
struct Elements {
    count: u64,
    row: u32,
}

impl Table {
    /// The layout of a type, by those of the structures' nodes.
    pub fn layout(&self, layouts: &[Layout], row: u32) -> Layout
        requires { row < length self.now }
        ensures { result ≡ layout_of layouts.now (type_at self.now row) }
    {
        let elements = self.elements(row);
        times(elements.count, self.single(layouts, elements.row))
    }

    // The elements of a row's type, in all.
    fn elements(&self, row: u32) -> Elements
        requires { row < length self.now }
        ensures count { result.count ≡ fitted (count_of (type_at self.now row)) }
        ensures within { result.row < length self.now }
        ensures element { type_at self.now result.row ≡ element_of (type_at self.now row) }
        ensures single { element_of (type_at self.now result.row) ≡ type_at self.now result.row }
    {
        let mut inner = row;
        let mut count: u64 = 1;
        loop {
            match self.shape(inner).of {
                CType::Array(below, n) => {
                    count = count.saturating_mul(n);
                    inner = below;
                }
                _ => return Elements { count, row: inner },
            }
        }
    }

    fn single(&self, layouts: &[Layout], row: u32) -> Layout
        requires { row < length self.now }
        ensures { result ≡ single_of layouts.now (type_at self.now row) }
    {
        match self.shape(row).of {
            CType::Pointer(_) => scalar(8),
            CType::Array(..) => NOTHING,
            of => layout_by(layouts, of),
        }
    }
}

fn layout_by(layouts: &[Layout], of: CType) -> Layout
    ensures { result ≡ layout_by layouts.now of }
{
    match of {
        CType::Int(kind) => scalar(bytes_of(kind)),
        CType::Struct(node) => layouts.get(node as usize).copied().unwrap_or(NOTHING),
        _ => NOTHING,
    }
}

fn bytes_of(kind: IntKind) -> u64
    ensures { result ≡ bytes_of kind }
{
    u64::from(kind.width()).div_ceil(8)
}

fn scalar(bytes: u64) -> Layout
    ensures { result ≡ scalar bytes }
{
    Layout {
        size: bytes,
        alignment: bytes,
        cells: 1,
    }
}

fn times(count: u64, one: Layout) -> Layout
    ensures { (n : ℕ) → count ≡ fitted n → result ≡ times n one }
{
    Layout {
        size: product(count, one.size),
        alignment: one.alignment,
        cells: product(count, one.cells),
    }
}

#[tactic(auto, using(crate::proofs::Fitted::cut))]
fn product(count: u64, each: u64) -> u64
    ensures { (n : ℕ) → count ≡ fitted n → result ≡ fitted (n * each) }
{
    count.saturating_mul(each)
}

/// Where a member stands behind the members so far, in bytes (C11 6.7.2.1p15).
pub fn offset(before: Layout, member: Layout) -> u64
    ensures { result ≡ offset_of before member }
{
    aligned(before.size, member.alignment)
}

/// The members so far, with one more.
pub fn with_member(before: Layout, member: Layout) -> Layout
    ensures { result ≡ with_member before member }
{
    Layout {
        size: offset(before, member).saturating_add(member.size),
        alignment: before.alignment.max(member.alignment),
        cells: before.cells.saturating_add(member.cells),
    }
}

/// The structure that has these members and no more (6.7.2.1p17).
pub fn closed(members: Layout) -> Layout
    ensures { result ≡ closed members }
{
    Layout {
        size: aligned(members.size, members.alignment),
        ..members
    }
}

// The first multiple of the alignment from a number on.
fn aligned(number: u64, alignment: u64) -> u64
    ensures { result ≡ aligned number alignment }
{
    if alignment == 0 {
        return 0;
    }
    let last = u128::from(number) + (u128::from(alignment) - 1);
    let whole = last / u128::from(alignment) * u128::from(alignment);
    whole.min(u128::from(u64::MAX)) as u64
}
