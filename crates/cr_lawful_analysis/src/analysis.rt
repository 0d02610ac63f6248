// What is read of a file.
ghost use Rattle.std.specs.Prelude.{◌≡◌, ℕ, List, IfOk, MatchOption, OnOk};
ghost use Rattle.cr_scopes.specs.declared.fault.NameFault.TheVariants as name_fault;
ghost use Rattle.cr_tokens.specs.Tokens.{HasNoTokens, Tokenizes};
ghost use Rattle.cr_exprs_descent.specs.declared.fault.ParseFault.TheVariants.{NoMemory};
ghost use Rattle.cr_check.specs.declared.fault.TypeFault.TheVariants as type_fault;
ghost use Rattle.cr_check.specs.declared.checked.Checked.{Checked};
ghost use Rattle.cr_lawful_analysis.specs.Analysis.{AreItsNames, IsAnalysis, IsParsed, IsUnitOf, tree_of};
ghost use Rattle.cr_lawful_analysis.specs.Members.{structures_of};

use crate::members::structures_of;
use cr_check::{TypeFault, check};
use cr_decls::parse;
use cr_exprs_descent::ParseFault;
use cr_holding::holding;
use cr_rows::Row;
use cr_scopes::{NameFault, Names, resolve};
use cr_syntax::{Unit, tokens_are_spans};
use cr_syntax_machine_laws::one_first_refusal;
use cr_tokens::{Token, TokenFault, Tokens, read};
use std::alloc::{AllocError, Global};

/// What is read of a file.
#[derive(Drop)]
pub enum Analysis {
    /// It has no tokens.
    NoTokens,
    /// Its tokens are those of no unit, or of one whose names aren't known, or that breaks a constraint.
    NoUnit(Row<Token>),
    /// Its unit, which has its tokens, what its names stand for, and for each node the structure whose member it names, by its content. The
    /// nodes are listed in order, each behind those below it.
    OfUnit(Unit, Names, Row<Option<u32>>),
}

/// Reads a file. The error is want of memory.
pub fn analyse(alloc: Global, file: &[u8]) -> Result<Analysis, AllocError>
    ensures { IfOk result (IsAnalysis file.now) }
{
    match tokens(alloc, file)? {
        Some(tokens) => parsed(alloc, file, tokens),
        None => Ok(Analysis::NoTokens),
    }
}

fn tokens(alloc: Global, file: &[u8]) -> Result<Option<Tokens>, AllocError>
    ensures { IfOk result (λ found. MatchOption found (HasNoTokens file.now) (λ tokens. Tokenizes file.now tokens.list.items)) }
{
    match read(alloc, file) {
        Ok(tokens) => Ok(Some(tokens)),
        Err(TokenFault::NoMemory) => Err(AllocError),
        Err(_) => Ok(None),
    }
}

fn parsed(alloc: Global, file: &[u8], tokens: Tokens) -> Result<Analysis, AllocError>
    requires { Tokenizes file.now tokens.list.items }
    ensures { IfOk result (IsAnalysis file.now) }
{
    tokens_are_spans();
    one_first_refusal();
    match parse(alloc, file, &tokens) {
        Ok(unit) => named(alloc, file, unit),
        Err(fault) => {
            refusal(fault)?;
            Ok(Analysis::NoUnit(Row::from_vec(tokens.list)))
        }
    }
}

// Want of memory is no refusal.
fn refusal(fault: ParseFault) -> Result<(), AllocError>
    ensures { OnOk result (fault ≡ NoMemory → ⊥) }
{
    match fault {
        ParseFault::NoMemory => Err(AllocError),
        _ => Ok(()),
    }
}

fn named(alloc: Global, file: &[u8], unit: Unit) -> Result<Analysis, AllocError>
    requires tokens { Tokenizes file.now unit.tokens.list.items }
    requires parsed { IsParsed file.now unit.tokens.list.items (tree_of unit) }
    ensures { IfOk result (IsAnalysis file.now) }
{
    tokens_are_spans();
    match resolve(alloc, file, &unit) {
        Ok(names) => checked(alloc, file, unit, names),
        Err(fault) => {
            name_refusal(fault)?;
            Ok(Analysis::NoUnit(Row::from_vec(unit.tokens.list)))
        }
    }
}

fn name_refusal(fault: NameFault) -> Result<(), AllocError>
    ensures { OnOk result (fault ≡ name_fault.NoMemory → ⊥) }
{
    match fault {
        NameFault::NoMemory => Err(AllocError),
        _ => Ok(()),
    }
}

fn checked(alloc: Global, file: &[u8], unit: Unit, names: Names) -> Result<Analysis, AllocError>
    requires tokens { Tokenizes file.now unit.tokens.list.items }
    requires parsed { IsParsed file.now unit.tokens.list.items (tree_of unit) }
    requires known { AreItsNames file.now unit.tokens.list.items (tree_of unit) names }
    ensures { IfOk result (IsAnalysis file.now) }
{
    tokens_are_spans();
    match check(alloc, file, &unit, &names) {
        Ok(checked) => {
            let structures = structures_of(alloc, &unit, &checked);
            drop(checked);
            of_unit(unit, names, structures)
        }
        Err(fault) => {
            drop(names);
            type_refusal(fault)?;
            Ok(Analysis::NoUnit(Row::from_vec(unit.tokens.list)))
        }
    }
}

fn of_unit(
    unit: Unit,
    names: Names,
    structures: Result<Row<Option<u32>>, AllocError>,
) -> Result<Analysis, AllocError>
    ensures { (file : List ℕ) (checked : Checked) → Tokenizes file unit.tokens.list.items → IsUnitOf file unit.tokens.list.items unit names checked
        → IfOk structures (λ s. s ≡ structures_of unit.nodes checked) → IfOk result (IsAnalysis file) }
{
    let (structures, (unit, names)) = holding(structures, (unit, names))?;
    Ok(Analysis::OfUnit(unit, names, structures))
}

fn type_refusal(fault: TypeFault) -> Result<(), AllocError>
    ensures { OnOk result (fault ≡ type_fault.NoMemory → ⊥) }
{
    match fault {
        TypeFault::NoMemory => Err(AllocError),
        _ => Ok(()),
    }
}
