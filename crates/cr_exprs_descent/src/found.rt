use cr_rows::Row;

/// A node that was read, and the token after it.
#[derive(Clone, Copy, Debug, PartialEq, Eq)]
pub struct Found {
    pub node: u32,
    pub next: usize,
}

/// The nodes of a list that was read, and the token after it.
#[derive(Drop, Debug)]
pub(crate) struct Listed {
    pub parts: Row<u32>,
    pub next: usize,
}

/// A node or none that was read, and the token after it.
#[derive(Clone, Copy, Debug)]
pub struct Optional {
    pub node: Option<u32>,
    pub next: usize,
}
