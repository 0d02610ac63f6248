use cr_eval::Table;
use cr_exec_world::World;
use std::alloc::Global;

/// A program that runs.
#[derive(Drop)]
pub(crate) struct Running<'a> {
    pub(crate) alloc: Global,
    pub(crate) table: &'a Table,
    pub(crate) world: World,
}
