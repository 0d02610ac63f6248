// The watch.
ghost use Rattle.std.specs.Prelude.{◌≡◌, [], List, length};
ghost use Rattle.cr_eval.specs.Table.{program_of};
ghost use Rattle.cr_meaning.specs.World.{Program};
ghost use Rattle.cr_meaning_seen.specs.Marks.{Mark};
ghost use Rattle.cr_meaning_loose.specs.Levels.{closed, levels_of};
ghost use Rattle.cr_meaning_loose.specs.Lists.{around};
ghost use Rattle.cr_meaning_loose.specs.Loose.{Judged};
ghost use Rattle.cr_order_watch.specs.Judged.{KnowsRun};

use crate::levels::{first_cut, is_asked};
use crate::opened::{Open, handed};
use cr_eval::Table;
use cr_exec::Watch;
use cr_footprint::{Foot, NoMemory};
use cr_rows::Row;
use std::alloc::Global;

/// Sees whether the operands of a program's nodes see one another.
#[derive(Drop)]
pub(crate) struct OrderWatch<'a> {
    alloc: Global,
    table: &'a Table,
    /// For each node the initialiser list in which it directly stands.
    outer: &'a [Option<u32>],
    /// The nodes that have begun and not ended, but for the whole program's, the last one at the end.
    nodes: Row<Open>,
    /// The first node, or list, whose operands do.
    loose: Option<u32>,
}

impl<'a> OrderWatch<'a> {
    /// Nothing has begun.
    pub(crate) fn new(alloc: Global, table: &'a Table, outer: &'a [Option<u32>]) -> OrderWatch<'a>
        ensures knows { KnowsRun result (program_of table.now) [] }
        ensures outer { result.outer.now ≡ outer.now }
    {
        OrderWatch {
            alloc,
            table,
            outer,
            nodes: Row::new(alloc),
            loose: None,
        }
    }

    /// The lists of the watch.
    pub(crate) fn outer(&self) -> &'a [Option<u32>]
        ensures { result.now ≡ self.now.outer.now }
    {
        self.outer
    }

    /// The first node whose operands see one another, where the run ends now.
    pub(crate) fn first_loose(self) -> Option<u32>
        ensures { (p : Program) (marks : List Mark) → KnowsRun self.entry p marks → Judged p (around self.entry.outer.now) (closed (levels_of (length p.ops) marks)) result }
    {
        match self.loose {
            Some(node) => Some(node),
            None => first_cut(self.table, self.outer, self.nodes),
        }
    }
}

impl<'a> Watch for OrderWatch<'a> {
    ghost knows = { KnowsRun };

    fn begin(&mut self, node: u32) -> Result<(), NoMemory> {
        if self.loose.is_some() {
            return Ok(());
        }
        let asked = is_asked(self.nodes.as_slice());
        let top = Open::new(self.alloc, self.table, node, asked);
        self.nodes.push(top)
    }

    fn end(&mut self, _node: u32, foot: &Foot) -> Result<(), NoMemory> {
        if self.loose.is_some() {
            return Ok(());
        }
        let Some(top) = self.nodes.pop() else {
            return Ok(());
        };
        if !top.fixed {
            self.loose = Some(top.node);
            return Ok(());
        }
        if !top.asked {
            return Ok(());
        }
        let Some(below) = self.nodes.pop() else {
            return Ok(());
        };
        match handed(self.alloc, self.table, self.outer, top, foot, below) {
            Ok((below, None)) => self.nodes.push(below),
            Ok((_, Some(list))) => {
                self.loose = Some(list);
                Ok(())
            }
            Err(end) => Err(end),
        }
    }
}
