use cr_footprint::Foot;
use cr_meaning::Value;

/// What the evaluation of an expression gave: its value, and what it read and wrote.
#[derive(Drop)]
pub struct Part {
    pub value: Value,
    pub foot: Foot,
}
