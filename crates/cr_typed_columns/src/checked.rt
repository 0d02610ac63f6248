use cr_check_declarators::{Declarator, Specified};
use cr_check_enclosing::Around;
use cr_check_expressions::{Declared, Member};
use cr_check_initialisers::Line;
use cr_check_operands::Fact;
use cr_check_types::{Layout, Table};
use cr_rows::Row;
use cr_scopes::Names;

/// What was checked of a unit's nodes. Where nothing else is said a column has one entry a node, and what is not there is as nothing
/// known. A row is one of the table.
#[derive(Clone, Copy)]
pub struct CheckedColumns<'a> {
    pub table: &'a Table,
    pub names: &'a Names,
    /// For each token the number of its spelling.
    pub spellings: &'a [u32],
    /// For each token the whole declarator, or the enumerator, that declares it.
    pub declarers: &'a [Option<u32>],
    /// The node above each.
    pub above: &'a [Option<u32>],
    /// What each has from above.
    pub around: &'a [Around],
    /// What expressions have.
    pub facts: &'a [Fact],
    /// What specifiers say.
    pub specified: &'a [Specified],
    /// What declarators have.
    pub declarators: &'a [Declarator],
    /// The row of the type that a declaration gives its name, and that a type name names.
    pub named: &'a [u32],
    /// What each node declares.
    pub declared: &'a [Declared],
    /// The row of the composite type of all declarations of an object up to this one (C11 6.2.7p3, p4).
    pub composites: &'a [u32],
    /// Whether the object that a node declares is of static duration (6.2.4p3).
    pub statics: &'a [bool],
    /// The members of each structure, at its content.
    pub members: &'a [Row<Member>],
    /// The layout of each structure, at its content.
    pub layouts: &'a [Layout],
    /// The lines of the plan of each initialised declarator.
    pub lines: &'a [Row<Line>],
    /// The row of what each function definition gives.
    pub results: &'a [u32],
    /// For each `goto` the label that it names.
    pub labels: &'a [Option<u32>],
}
