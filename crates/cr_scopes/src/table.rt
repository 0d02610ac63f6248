ghost use Rattle.std.specs.Prelude.{◌≡◌, ◌==◌, ℕ, [], Some, OnOk, if◌then◌else◌, nat_eq};
ghost use Rattle.std.specs.Map.{lookup};

use std::alloc::{AllocError, Global};
use std::collections::HashMap;
use std::marker::Model;

/// What names are known as. A clause sees the list of them with what they are, in some order.
#[derive(Drop)]
pub struct Table<V> {
    names: HashMap<u32, V>,
}

impl<V> Model for Table<V> {
    ghost use Rattle.std.specs.Prelude.{List, ℕ};
    ghost use Rattle.std.specs.Coded.{coded_list, coded×, coded_ℕ};

    ghost Value = { List (ℕ × V) };

    ghost coded = { coded_list (coded× coded_ℕ V.code) };

    ghost view = { λ table. table.names.entries };
}

impl<V: Copy + Drop> Table<V> {
    /// A table without names.
    pub fn new(alloc: Global) -> Self
        ensures { result ≡ [] }
    {
        Table {
            names: HashMap::new(alloc),
        }
    }

    /// What a name is known as.
    pub fn said(&self, name: u32) -> Option<V>
        ensures { result ≡ lookup (nat_eq name) self.now }
    {
        if self.names.is_empty() {
            return None;
        }
        self.names.get(&name).copied()
    }

    /// Makes a name known. The error is want of memory.
    pub fn put(&mut self, name: u32, value: V) -> Result<(), AllocError>
        ensures { OnOk result ((q : ℕ) → lookup (nat_eq q) self.new ≡ (if q == name then Some value else lookup (nat_eq q) self.old)) }
    {
        self.names.insert(name, value)?;
        Ok(())
    }
}
