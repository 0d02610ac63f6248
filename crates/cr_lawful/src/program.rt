// A program, as it is read of a file.
ghost use Rattle.std.specs.Prelude.{◌≡◌, ℕ, List, IfErr, IfOk, Ok};
ghost use Rattle.cr_lawful_analysis.specs.Analysis.{IsAnalysis};
ghost use Rattle.cr_lawful.specs.Programs.{IsProgram};

use cr_cursor::Ruling;
use cr_lawful_analysis::Analysis;
use cr_rows::Row;
use cr_scopes::Names;
use cr_syntax::Unit;
use cr_tokens::Tokens;
use cr_typed::Typed;
use std::alloc::AllocError;

/// A typed unit, with what its names stand for and the structures whose members it names.
#[derive(Drop)]
pub(crate) struct Program {
    pub typed: Typed,
    pub names: Names,
    /// For each node the structure whose member it names, by its content.
    pub structures: Row<Option<u32>>,
}

/// The program of these, where there was memory for them.
pub(crate) fn program_of(
    typed: Result<Typed, AllocError>,
    names: Names,
    structures: Result<Row<Option<u32>>, AllocError>,
) -> Result<Program, Ruling>
    ensures program { IfOk result (λ p. (p.names ≡ names) × (typed ≡ Ok p.typed) × (structures ≡ Ok p.structures)) }
    ensures refused { IfErr result (λ ruling. ruling ≡ Ruling.NoMemory) }
{
    match typed.ok().zip(structures.ok()) {
        Some((typed, structures)) => Ok(Program {
            typed,
            names,
            structures,
        }),
        None => Err(Ruling::NoMemory),
    }
}

/// The file's bytes with what is read of them, once the program has run.
pub(crate) fn reading_of(program: Program) -> (Vec<u8>, Analysis)
    requires { (file : List ℕ) × IsProgram file program }
    ensures { IsAnalysis result.0.items result.1 }
{
    let Program {
        typed,
        names,
        structures,
    } = program;
    let tokens = Tokens {
        list: typed.tokens.into_vec(),
    };
    let unit = Unit::new(tokens, typed.nodes, typed.items);
    (
        typed.file.into_vec(),
        Analysis::OfUnit(unit, names, structures),
    )
}
