use crate::row_between;
use cr_check_types::Table;
use std::alloc::{AllocError, Global};

/// The rows of types in words, with commas between them; `...` is none.
pub(crate) fn rows_of(
    alloc: Global,
    table: &mut Table,
    types: &str,
    between: char,
) -> Result<Vec<u32>, AllocError> {
    let mut rows = Vec::new(alloc);
    for text in types.split(',') {
        push_row(&mut rows, table, text.trim_start(), between)?;
    }
    Ok(rows)
}

fn push_row(
    rows: &mut Vec<u32>,
    table: &mut Table,
    text: &str,
    between: char,
) -> Result<(), AllocError> {
    if !text.is_empty() && text != "..." {
        let row = row_between(table, text, between)?;
        rows.push(row)?;
    }
    Ok(())
}
