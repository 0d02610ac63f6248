// A counted edit.
use cr_rows::Row;
use pass_edit::Change;

/// An edit, and the tokens by which it is counted: those of the node, item or entity that it is about.
#[derive(Drop)]
pub struct Counted {
    pub first: u32,
    pub last: u32,
    pub edit: Row<Change>,
}
