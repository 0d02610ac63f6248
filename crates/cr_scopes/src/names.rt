use cr_rows::Row;

/// What one name stands for in a unit (C11 6.2.1, 6.2.2). Tokens are named by their numbers, in order.
#[derive(Drop, Debug)]
pub struct Entity {
    /// The tokens that declare it.
    pub declared: Row<u32>,
    /// The tokens that use it.
    pub uses: Row<u32>,
    /// Its name space (6.2.3): 0 for ordinary identifiers, 1 for tags.
    pub space: u8,
}

/// The entities of a unit, in the order of their first declaring tokens.
#[derive(Drop, Debug)]
pub struct Names {
    pub entities: Row<Entity>,
    /// For each token the entity in whose lists it stands.
    pub of_token: Row<Option<u32>>,
}
