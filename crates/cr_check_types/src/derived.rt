ghost use Rattle.std.specs.Prelude.{◌≡◌, ◌<◌, ◌||◌, IfOk, OnOk, length};
ghost use Rattle.cr_check_types.specs.Types.{type_at, IsRow, Grows};
ghost use Rattle.cr_check_types.specs.Relations.{turned, bare, qualified};

use crate::shape::Shape;
use crate::table::Table;
use cr_syntax::CType;
use std::alloc::AllocError;

impl Table {
    /// A row of what a declarator makes of a type (C11 6.7.6). The declarator's derivations stand from the name outwards,
    /// and end in any plain type as the place of the name.
    pub fn turned(&mut self, derivations: u32, base: u32) -> Result<u32, AllocError>
        requires derivations { derivations < length self.old }
        requires base { base < length self.old }
        ensures made { IfOk result (λ r. IsRow self.new r (turned (type_at self.old derivations) (type_at self.old base))) }
        ensures grows { OnOk result (Grows self.old self.new) }
    {
        let mut rest = derivations;
        let mut made = base;
        loop {
            let shape = self.shape(rest);
            match shape.of {
                CType::Pointer(below) => {
                    let of = CType::Pointer(made);
                    made = self.add(Shape { of, ..shape })?;
                    rest = below;
                }
                CType::Array(below, count) => {
                    made = self.add(Shape::plain(CType::Array(made, count)))?;
                    rest = below;
                }
                _ => return Ok(made),
            }
        }
    }

    /// A row of the unqualified version of a type (6.2.5p26).
    pub fn bare(&mut self, row: u32) -> Result<u32, AllocError>
        requires { row < length self.old }
        ensures made { IfOk result (λ r. IsRow self.new r (bare (type_at self.old row))) }
        ensures grows { OnOk result (Grows self.old self.new) }
    {
        let of = self.shape(row).of;
        self.add(Shape::plain(of))
    }

    /// A row of a type with these qualifiers added (6.7.3); those of an array go to its elements.
    pub fn qualified(&mut self, row: u32, constant: bool, volatile: bool) -> Result<u32, AllocError>
        requires { row < length self.old }
        ensures made { IfOk result (λ r. IsRow self.new r (qualified constant volatile (type_at self.old row))) }
        ensures grows { OnOk result (Grows self.old self.new) }
    {
        if constant || volatile {
            self.more_qualified(row, constant, volatile)
        } else {
            Ok(row)
        }
    }

    // Where there are none to add, no level of an array is walked.
    fn more_qualified(
        &mut self,
        row: u32,
        constant: bool,
        volatile: bool,
    ) -> Result<u32, AllocError>
        requires { row < length self.old }
        ensures made { IfOk result (λ r. IsRow self.new r (qualified constant volatile (type_at self.old row))) }
        ensures grows { OnOk result (Grows self.old self.new) }
    {
        let mut inner = row;
        // The arrays so far, from the innermost outwards.
        let mut levels = self.add(Shape::plain(CType::Void))?;
        loop {
            let shape = self.shape(inner);
            match shape.of {
                CType::Array(below, count) => {
                    levels = self.add(Shape::plain(CType::Array(levels, count)))?;
                    inner = below;
                }
                _ => {
                    let element = self.add(with_qualifiers(shape, constant, volatile))?;
                    return self.turned(levels, element);
                }
            }
        }
    }
}

fn with_qualifiers(shape: Shape, constant: bool, volatile: bool) -> Shape
    ensures { result ≡ record shape { constant = shape.constant || constant; volatile = shape.volatile || volatile } }
{
    Shape {
        constant: shape.constant || constant,
        volatile: shape.volatile || volatile,
        ..shape
    }
}
