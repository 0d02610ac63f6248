/// Where the cells of an object stand in the flat store, and whether it lives.
#[derive(Clone, Copy, PartialEq, Eq, Debug)]
pub struct Span {
    pub first: usize,
    pub count: u32,
    pub alive: bool,
}
