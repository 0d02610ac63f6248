ghost use Rattle.std.specs.Prelude.{◌≡◌};
ghost use Rattle.cr_check_declarators.specs.Declarators.{size_of, size_in, overfull_of, pointer_of, array_of, with_array, function_of};

use crate::words::first_of;
use cr_check_constants::Constant;

/// The most cells that an array or a structure has.
pub const MOST_CELLS: u64 = 1_048_576;

/// What stands between the brackets of an array declarator.
#[derive(Clone, Copy)]
pub enum Size {
    /// nothing
    Open,
    /// an expression without a type
    Untyped,
    /// what is no integer constant expression above 0
    Wrong,
    /// a number above 0
    Known(u64),
}

/// Arrays of arrays, with nothing derived between them.
#[derive(Clone, Copy)]
pub struct Arrays {
    /// The product of their known sizes; numbers that don't fit count as the greatest.
    pub count: u64,
    /// The first bracket of those with a known size.
    pub bracket: Option<u32>,
}

/// What a declarator has, beside the row of its derivations. Those of a function declarator are derivations of its result.
#[derive(Clone, Copy)]
pub struct Declarator {
    /// The node of the function declarator next to its name.
    pub function: Option<u32>,
    /// Whether the list of that function's parameters is empty.
    pub empty: bool,
    /// Whether a function is derived elsewhere.
    pub misplaced: bool,
    /// Whether the size of an array has no type.
    pub untyped: bool,
    /// The first bracket with a wrong size.
    pub wrong: Option<u32>,
    /// The first bracket without a size.
    pub sizeless: Option<u32>,
    /// The first `volatile` behind a star.
    pub volatile: Option<u32>,
    /// The arrays whose elements have the type of the specifiers.
    pub arrays: Arrays,
    /// The first bracket of an array of pointers with too many cells.
    pub overfull: Option<u32>,
}

const NO_ARRAYS: Arrays = Arrays {
    count: 1,
    bracket: None,
};

/// A declared name alone, or no declarator at all.
pub const BARE: Declarator = Declarator {
    function: None,
    empty: false,
    misplaced: false,
    untyped: false,
    wrong: None,
    sizeless: None,
    volatile: None,
    arrays: NO_ARRAYS,
    overfull: None,
};

/// What the expression between brackets gives, if one stands there. `typed` is whether it has a type, and `constant` what it is as an
/// integer constant expression (C11 6.7.6.2p1).
pub fn size_of(typed: bool, constant: Constant) -> Size
    ensures { result ≡ size_of typed constant }
{
    match constant {
        _ if !typed => Size::Untyped,
        Constant::Value(value) => size_in(value),
        Constant::NotConstant | Constant::Undefined => Size::Wrong,
    }
}

fn size_in(value: i128) -> Size
    ensures { result ≡ size_in value }
{
    match u64::try_from(value) {
        Ok(0) => Size::Wrong,
        Ok(number) => Size::Known(number),
        Err(_) => Size::Wrong,
    }
}

/// A star with its qualifiers before a declarator (6.7.6.1). `volatile` is the token of the first of that name.
pub fn pointer(inner: Declarator, volatile: Option<u32>) -> Declarator
    ensures { result ≡ pointer_of inner volatile }
{
    Declarator {
        arrays: NO_ARRAYS,
        overfull: overfull(inner.overfull, inner.arrays, 1),
        volatile: first_of(volatile, inner.volatile),
        ..inner
    }
}

/// The bracket of an array with too many cells, where its elements have so many.
pub(crate) fn overfull(before: Option<u32>, arrays: Arrays, cells: u64) -> Option<u32>
    ensures { result ≡ overfull_of before arrays cells }
{
    if arrays.count.saturating_mul(cells) > MOST_CELLS {
        first_of(before, arrays.bracket)
    } else {
        before
    }
}

/// Brackets behind a declarator (6.7.6.2). `bracket` is the token of the left one.
pub fn array(inner: Declarator, bracket: u32, size: Size) -> Declarator
    ensures { result ≡ array_of inner bracket size }
{
    match size {
        Size::Open => Declarator {
            sizeless: first_of(inner.sizeless, Some(bracket)),
            ..inner
        },
        Size::Untyped => Declarator {
            untyped: true,
            ..inner
        },
        Size::Wrong => Declarator {
            wrong: first_of(inner.wrong, Some(bracket)),
            ..inner
        },
        Size::Known(count) => Declarator {
            arrays: with_array(inner.arrays, bracket, count),
            ..inner
        },
    }
}

fn with_array(arrays: Arrays, bracket: u32, count: u64) -> Arrays
    ensures { result ≡ with_array arrays bracket count }
{
    Arrays {
        count: arrays.count.saturating_mul(count),
        bracket: first_of(arrays.bracket, Some(bracket)),
    }
}

/// Parameters behind a declarator (6.7.6.3), with the number of their node. `bare` is whether nothing is derived in the declarator
/// yet, and `empty` whether the list is empty.
pub fn function(inner: Declarator, bare: bool, node: u32, empty: bool) -> Declarator
    ensures { result ≡ function_of inner bare node empty }
{
    match inner.function {
        None if bare => Declarator {
            function: Some(node),
            empty,
            ..inner
        },
        _ => Declarator {
            misplaced: true,
            ..inner
        },
    }
}
