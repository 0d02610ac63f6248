#![tactic(auto, using(crate::proofs::Answering::answers, crate::proofs::Answering::then_answers, crate::proofs::Answering::ends_answer, crate::proofs::Answering::written))]

ghost use Rattle.std.specs.Prelude.{◌≡◌};

use cr_meaning::Value;

/// What a node reads and writes by itself. Several cells are those of one object from the first one on.
#[derive(Clone, Copy)]
pub enum Deeds {
    Nothing,
    Read {
        object: u32,
        first: u32,
        count: u32,
    },
    /// The read of a volatile object (C11 5.1.2.3p2).
    Touch {
        object: u32,
        cell: u32,
    },
    Write {
        object: u32,
        first: u32,
        count: u32,
    },
    /// A read, or of a volatile object a touch, and a write behind it.
    Update {
        object: u32,
        cell: u32,
        volatile: bool,
    },
}

/// What a node's own work gives.
#[derive(Drop)]
pub struct Did {
    pub value: Value,
    pub deeds: Deeds,
}

/// A value, with no event.
pub(crate) fn plainly(value: Value) -> Did
    ensures { result ≡ record { value = value; deeds = Deeds.Nothing } }
{
    Did {
        value,
        deeds: Deeds::Nothing,
    }
}
