ghost use Rattle.std.specs.Prelude.{◌≡◌, ◌<◌, IfOk, OnOk, length};
ghost use Rattle.cr_check_types.specs.Types.{type_at, IsRow, Grows};
ghost use Rattle.cr_check_types.specs.Relations.{composite_of, known_size};

use crate::shape::Shape;
use crate::table::Table;
use cr_syntax::CType;
use std::alloc::AllocError;

impl Table {
    /// A row of the composite of two compatible types (C11 6.2.7p3): the first with the sizes that the other knows.
    pub fn composite(&mut self, left: u32, right: u32) -> Result<u32, AllocError>
        requires left { left < length self.old }
        requires right { right < length self.old }
        ensures made { IfOk result (λ r. IsRow self.new r (composite_of (type_at self.old left) (type_at self.old right))) }
        ensures grows { OnOk result (Grows self.old self.new) }
    {
        let mut one = left;
        let mut other = right;
        // The levels so far, from the innermost outwards.
        let mut levels = self.add(Shape::plain(CType::Void))?;
        loop {
            let shape = self.shape(one);
            match (shape.of, self.shape(other).of) {
                (CType::Pointer(x), CType::Pointer(y)) => {
                    let of = CType::Pointer(levels);
                    levels = self.add(Shape { of, ..shape })?;
                    one = x;
                    other = y;
                }
                (CType::Array(x, n), CType::Array(y, m)) => {
                    levels = self.add(Shape::plain(CType::Array(levels, known_size(n, m))))?;
                    one = x;
                    other = y;
                }
                _ => return self.turned(levels, one),
            }
        }
    }
}

fn known_size(count: u64, other: u64) -> u64
    ensures { result ≡ known_size count other }
{
    if count == 0 { other } else { count }
}
