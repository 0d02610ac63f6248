use cr_rows::Row;

/// What a run may take.
#[derive(Clone, Copy)]
pub struct Limits {
    /// Expressions evaluated and statements executed (N1).
    pub steps: u64,
    /// Calls within one another, that of `main` included (N2); at least 1.
    pub depth: u32,
    /// Cells that live at once (N3).
    pub cells: u32,
    /// Bytes printed (N4).
    pub output: u32,
}

/// How a run ends.
#[derive(Drop)]
pub enum Run {
    /// The program ended by itself, after so many steps.
    Ended {
        status: u8,
        output: Row<u8>,
        steps: u64,
    },
    /// The behaviour is undefined: the number of the case, U1 to U16, and the node where it is met.
    Undefined(u8, u32),
    /// The program leaves the profile: the number of the case, N1 to N7, and the node where it is met.
    Left(u8, u32),
    /// The caller asked it to stop.
    Stopped,
    /// There is no memory left.
    NoMemory,
}
