//! A list that may stand inside another list.
//!
//! Clauses compare plain data. They see a `Vec` as its items beside its block of memory, so a `Vec` of structs that hold a `Vec`
//! isn't plain data to them, and a `Vec` of `Row`s is: they see a `Row` as the list of its items and nothing more.
//! It promises what `Vec` promises of the list, and what a column has at a number. It stands on std alone.
#![tactic(auto)]

ghost use Rattle.std.specs.Prelude.{◌≡◌, ◌<◌, [], ◌∷◌, ◌++◌, length, set, slice_index_or, option_to_list, IfNone, OnOk, OnErr, IsTrue, ◌↔◌};
ghost use Rattle.std.specs.List.{AllZip};

use std::alloc::{AllocError, Global};
use std::marker::Model;

/// The items of a list, in order.
#[derive(Drop, Debug)]
pub struct Row<T> {
    items: Vec<T>,
}

impl<T> Model for Row<T> {
    ghost use Rattle.std.specs.Prelude.{List};
    ghost use Rattle.std.specs.Coded.{coded_list};

    ghost Value = { List T };

    ghost coded = { coded_list T.code };

    ghost view = { λ row. row.items.items };
}

impl<T> Row<T> {
    /// An empty row. It takes no memory until something is pushed.
    pub fn new(alloc: Global) -> Self
        ensures { result ≡ [] }
    {
        Row {
            items: Vec::new(alloc),
        }
    }

    /// The row of a vector's items.
    pub fn from_vec(items: Vec<T>) -> Self
        ensures { result ≡ items.items }
    {
        Row { items }
    }

    /// The vector of a row's items.
    pub fn into_vec(self) -> Vec<T>
        ensures { result.items ≡ self }
    {
        self.items
    }

    /// How many items there are.
    pub fn len(&self) -> usize
        ensures { result ≡ length self.now }
    {
        self.items.len()
    }

    /// Whether there is no item.
    pub fn is_empty(&self) -> bool
        ensures { IsTrue result ↔ (self.now ≡ []) }
    {
        self.items.is_empty()
    }

    /// All items, in order.
    pub fn as_slice(&self) -> &[T]
        ensures { result.now ≡ self.now }
    {
        self.items.as_slice()
    }

    /// Takes the last item out, if there is one.
    pub fn pop(&mut self) -> Option<T>
        ensures last { self.old ≡ self.new ++ option_to_list result }
        ensures none { IfNone result (self.old ≡ []) }
    {
        self.items.pop()
    }
}

impl<T: Drop> Row<T> {
    /// Puts an item at the end. The error is want of memory.
    pub fn push(&mut self, item: T) -> Result<(), AllocError>
        ensures ok { OnOk result (self.new ≡ self.old ++ item ∷ []) }
        ensures err { OnErr result (self.new ≡ self.old) }
    {
        self.items.push(item)?;
        Ok(())
    }

    /// Makes room for so many further items. The error is want of memory.
    pub fn reserve(&mut self, additional: usize) -> Result<(), AllocError>
        ensures { self.new ≡ self.old }
    {
        self.items.reserve(additional)
    }

    /// Puts an item in the place of the one at `index`.
    pub fn set(&mut self, index: usize, item: T)
        requires { index < length self.old }
        ensures { self.new ≡ set self.old index item }
    {
        self.items[index] = item;
    }
}

impl<T: Clone> Clone for Row<T> {
    ghost is_clone = { λ row copy. AllZip T.is_clone row copy };

    fn clone(&self) -> Result<Self, AllocError> {
        Ok(Row {
            items: self.items.clone()?,
        })
    }
}

/// What a column has at a number; `nothing` beyond its end.
pub fn entry_at<T: Copy>(column: &[T], at: usize, nothing: T) -> T
    ensures { result ≡ slice_index_or column.now at nothing }
{
    if at < column.len() {
        column[at]
    } else {
        nothing
    }
}

/// The items of the row with a number; none beyond the last.
pub fn row_at<T>(rows: &[Row<T>], at: usize) -> &[T]
    ensures { result.now ≡ slice_index_or rows.now at [] }
{
    if at < rows.len() {
        rows[at].as_slice()
    } else {
        &[]
    }
}
