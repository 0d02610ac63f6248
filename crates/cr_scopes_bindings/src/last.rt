// Columns of the last numbers with a key.
ghost use Rattle.std.specs.Prelude.{◌≡◌, ◌<◌, ℕ, Some, None, length, slice_index_or, slice_set, if◌then◌else◌};
ghost use Rattle.cr_scopes.specs.Resolved.{is_number};
ghost use Rattle.cr_scopes_bindings.specs.Bindings.{entry_if};

use cr_rows::entry_at;

/// A number has this key from now on, if it has any.
pub(crate) fn put(column: &mut Vec<Option<u32>>, key: Option<usize>, number: u32)
    ensures count { length column.new.items ≡ length column.old.items }
    ensures each { (k : ℕ) → k < length column.old.items → slice_index_or column.new.items k None ≡ (if is_number key k then Some number else slice_index_or column.old.items k None) }
{
    match key {
        Some(key) => set_link(column, key, Some(number)),
        None => {}
    }
}

/// Sets an entry, where there is one.
pub fn set_link(column: &mut Vec<Option<u32>>, at: usize, entry: Option<u32>)
    ensures { column.new.items ≡ slice_set column.old.items at entry }
{
    if at < column.len() {
        column[at] = entry;
    }
}

/// What a column has at a number that may not be there.
pub(crate) fn entry(column: &[Option<u32>], number: Option<usize>) -> Option<u32>
    ensures { result ≡ entry_if column.now number }
{
    entry_at(column, number?, None)
}
