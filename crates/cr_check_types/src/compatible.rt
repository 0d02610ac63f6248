ghost use Rattle.std.specs.Prelude.{◌≡◌, ◌<◌, ◌&&◌, ◌↔◌, IsTrue, ℕ, length};
ghost use Rattle.cr_check_types.specs.Types.{type_at, type_of, room_of, Qualified, unknown};
ghost use Rattle.cr_check_types.specs.Relations.{number_of, same, are_same, sizes_agree, are_compatible, IsLeastRow, bare, AreRows, AgreeInParameters, stepped, StaysBelow};

use crate::shape::Shape;
use crate::table::Table;
use cr_ints::IntKind;
use cr_syntax::CType;

/// What two shapes say of the compatibility of their types.
#[derive(Clone, Copy)]
enum Step {
    Answer(bool),
    /// They are compatible where the types of these rows are.
    Below(u32, u32),
}

impl Table {
    /// Whether the types of two rows are compatible (C11 6.2.7). Functions are where they are of one node.
    pub fn are_compatible(&self, left: u32, right: u32) -> bool
        requires left { left < length self.now }
        requires right { right < length self.now }
        ensures { result ≡ are_compatible (type_at self.now left) (type_at self.now right) }
    {
        let mut one = left;
        let mut other = right;
        loop {
            match compared(self.shape(one), self.shape(other)) {
                Step::Answer(answer) => return answer,
                Step::Below(x, y) => {
                    one = x;
                    other = y;
                }
            }
        }
    }

    /// Whether the types of two rows are compatible without their own qualifiers (6.7.6.3p15, 6.5.16.1p1).
    pub fn are_compatible_bare(&self, left: u32, right: u32) -> bool
        requires left { left < length self.now }
        requires right { right < length self.now }
        ensures { result ≡ are_compatible (bare (type_at self.now left)) (bare (type_at self.now right)) }
    {
        let left = Shape::plain(self.shape(left).of);
        let right = Shape::plain(self.shape(right).of);
        match compared(left, right) {
            Step::Answer(answer) => answer,
            Step::Below(x, y) => self.are_compatible(x, y),
        }
    }

    /// Whether the parameters of two functions agree (6.7.6.3p15); their results and ellipses are the caller's to compare.
    pub fn agree_in_parameters(&self, left: &[u32], right: &[u32]) -> bool
        requires left { AreRows self.now left.now }
        requires right { AreRows self.now right.now }
        ensures { IsTrue result ↔ AgreeInParameters self.now left.now right.now }
    {
        if left.len() != right.len() {
            return false;
        }
        for at in 0..left.len() {
            if !self.are_compatible_bare(left[at], right[at]) {
                return false;
            }
        }
        true
    }

    /// The first row whose type is compatible with that of the row. Its time is the number of rows.
    #[tactic(auto, using(crate::proofs::Itself::itself))]
    pub fn least_compatible(&self, row: u32) -> u32
        requires { row < length self.now }
        ensures { IsLeastRow (λ r. are_compatible (type_at self.now r) (type_at self.now row)) row result }
    {
        for other in 0..row {
            if self.are_compatible(other, row) {
                return other;
            }
        }
        row
    }
}

fn compared(left: Shape, right: Shape) -> Step
    ensures is { (look : ℕ → Qualified) → are_compatible (type_of look left) (type_of look right) ≡ stepped look result }
    ensures below { StaysBelow (room_of left) (room_of right) result }
{
    match (left.of, right.of) {
        (CType::Pointer(x), CType::Pointer(y)) if same_qualifiers(left, right) => Step::Below(x, y),
        (CType::Array(x, n), CType::Array(y, m)) if sizes_agree(n, m) => Step::Below(x, y),
        (CType::Pointer(_) | CType::Array(..), _) | (_, CType::Pointer(_) | CType::Array(..)) => {
            Step::Answer(false)
        }
        (of, other) => Step::Answer(are_same(of, other) && same_qualifiers(left, right)),
    }
}

fn same_qualifiers(left: Shape, right: Shape) -> bool
    ensures { result ≡ (same left.constant right.constant && same left.volatile right.volatile) }
{
    left.constant == right.constant && left.volatile == right.volatile
}

fn sizes_agree(count: u64, other: u64) -> bool
    ensures { result ≡ sizes_agree count other }
{
    count == 0 || other == 0 || count == other
}

fn are_same(left: CType, right: CType) -> bool
    ensures { result ≡ are_same left right }
{
    match (left, right) {
        (CType::Void, CType::Void) | (CType::Unknown, CType::Unknown) => true,
        (CType::Int(kind), CType::Int(other)) => number_of(kind) == number_of(other),
        (CType::Struct(node), CType::Struct(other)) => node == other,
        (CType::Function(node), CType::Function(other)) => node == other,
        (CType::Pointer(row), CType::Pointer(other)) => row == other,
        (CType::Array(row, n), CType::Array(other, m)) => row == other && n == m,
        _ => false,
    }
}

/// The number of an integer type among all.
pub(crate) fn number_of(kind: IntKind) -> u8
    ensures { result ≡ number_of kind }
{
    match kind {
        IntKind::Bool => 0,
        IntKind::Char => 1,
        IntKind::SChar => 2,
        IntKind::UChar => 3,
        IntKind::Short => 4,
        IntKind::UShort => 5,
        IntKind::Int => 6,
        IntKind::UInt => 7,
        IntKind::Long => 8,
        IntKind::ULong => 9,
        IntKind::LLong => 10,
        IntKind::ULLong => 11,
    }
}
