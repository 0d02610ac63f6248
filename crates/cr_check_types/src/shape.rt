ghost use Rattle.std.specs.Prelude.{◌≡◌, false};

use cr_syntax::CType;

/// A type, and whether it is qualified `const` and `volatile` (C11 6.7.3). An array is qualified as its elements are.
#[derive(Clone, Copy, PartialEq, Eq)]
pub struct Shape {
    pub of: CType,
    pub constant: bool,
    pub volatile: bool,
}

impl Shape {
    /// The type without qualifiers.
    pub fn plain(of: CType) -> Shape
        ensures { result ≡ record { of = of; constant = false; volatile = false } }
    {
        Shape {
            of,
            constant: false,
            volatile: false,
        }
    }
}
