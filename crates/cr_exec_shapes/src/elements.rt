ghost use Rattle.std.specs.Prelude.{◌≡◌, ◌*◌, ℕ};
ghost use Rattle.cr_check_types.specs.Types.{type_at, type_of};
ghost use Rattle.cr_check_types.specs.Layouts.{count_of, element_of};
ghost use Rattle.cr_meaning_operations.specs.Shapes.{is_volatile};
ghost use Rattle.cr_exec_shapes.specs.Types.{Counted, IsSingle};

use crate::types::Types;
use cr_check_types::Shape;
use cr_syntax::CType;

/// The elements of a type that are no arrays; a type that is no array is its own one.
#[derive(Clone, Copy)]
pub(crate) struct Elements {
    /// None where they can't be counted.
    pub(crate) count: Option<u64>,
    pub(crate) shape: Shape,
}

impl<'a> Types<'a> {
    /// The elements of a row's type, in all.
    pub(crate) fn elements(&self, row: u32) -> Elements
        ensures count { Counted result.count 1 (count_of (type_at self.now.shapes row)) }
        ensures shape { type_of (type_at self.now.shapes) result.shape ≡ element_of (type_at self.now.shapes row) }
        ensures single { IsSingle result.shape.of }
    {
        let mut inner = self.shape(row);
        let mut count = Some(1);
        loop {
            match inner.of {
                CType::Array(below, n) => {
                    count = product(count, n);
                    inner = self.shape(below);
                }
                _ => return Elements {
                    count,
                    shape: inner,
                },
            }
        }
    }

    /// Whether a row's type is qualified `volatile`; an array is as its elements are (C11 6.7.3p9).
    pub fn is_volatile(&self, row: u32) -> bool
        ensures { result ≡ is_volatile (type_at self.now.shapes row) }
    {
        self.elements(row).shape.volatile
    }
}

fn product(count: Option<u64>, n: u64) -> Option<u64>
    ensures { (rest whole : ℕ) → Counted count (n * rest) whole → Counted result rest whole }
{
    match count {
        Some(count) => times(count, n),
        None => None,
    }
}

fn times(count: u64, n: u64) -> Option<u64>
    ensures { (rest whole : ℕ) → count * (n * rest) ≡ whole → Counted result rest whole }
{
    match count.checked_mul(n) {
        Some(all) => Some(all),
        None => None,
    }
}
