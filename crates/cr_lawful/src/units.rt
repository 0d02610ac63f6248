// The program of a file, or what is ruled where it has none. The stop is asked before each long step.
ghost use Rattle.std.specs.Prelude.{◌≡◌, Bool, Some, IfOk, IfErr, OnOk, false};
ghost use Rattle.cr_tokens.specs.Tokens.{Tokenizes};
ghost use Rattle.cr_lawful_analysis.specs.Analysis.{IsParsed, tree_of};
ghost use Rattle.cr_scopes.specs.Units.{AreUnitEntities, AreUnitNames, IsUnitFirst};
ghost use Rattle.cr_check.specs.Checked.{IsSoundOf};
ghost use Rattle.cr_lawful.specs.Lawful.{Refuses};
ghost use Rattle.cr_lawful.specs.Looks.{IsNotBelow};
ghost use Rattle.cr_lawful.specs.Programs.{IsProgram};

use crate::program::{Program, program_of};
use crate::reasons::{name_ruling, parse_ruling, type_ruling};
use cr_check::{Checked, check, first_name_fault};
use cr_cursor::{Ruling, Stop, token_ruling};
use cr_decls::parse;
use cr_lawful_analysis::structures_of;
use cr_scopes::{NameFault, Names, Resolution, resolve_whole};
use cr_syntax::{Unit, tokens_are_spans};
use cr_tokens::{Tokens, read};
use cr_typed_unit::typed;
use std::alloc::Global;

pub(crate) fn program_of_file<S: Stop>(
    alloc: Global,
    file: &[u8],
    stop: &mut S,
) -> Result<Program, Ruling>
    requires { S.raised stop.old ≡ false }
    ensures program { IfOk result (IsProgram file.now) }
    ensures refused { IfErr result (λ ruling. Refuses file.now (S.raised stop.new) ruling) }
    ensures unstopped { OnOk result (S.raised stop.new ≡ false) }
    ensures held { S.held stop.new ≡ S.held stop.old }
    ensures looks { IsNotBelow (S.looks stop.old) (S.looks stop.new) }
{
    match read(alloc, file) {
        Ok(tokens) => program_of_tokens(alloc, file, &tokens, stop),
        Err(fault) => Err(token_ruling(file, fault)),
    }
}

pub(crate) fn program_of_tokens<S: Stop>(
    alloc: Global,
    file: &[u8],
    tokens: &Tokens,
    stop: &mut S,
) -> Result<Program, Ruling>
    requires unstopped { S.raised stop.old ≡ false }
    requires tokens { Tokenizes file.now tokens.now.list.items }
    ensures program { IfOk result (IsProgram file.now) }
    ensures refused { IfErr result (λ ruling. Refuses file.now (S.raised stop.new) ruling) }
    ensures unstopped { OnOk result (S.raised stop.new ≡ false) }
    ensures held { S.held stop.new ≡ S.held stop.old }
    ensures looks { IsNotBelow (S.looks stop.old) (S.looks stop.new) }
{
    tokens_are_spans();
    match parse(alloc, file, tokens) {
        Ok(unit) => with_names(alloc, file, unit, stop),
        Err(fault) => Err(parse_ruling(file, tokens.list.as_slice(), fault)),
    }
}

fn with_names<S: Stop>(
    alloc: Global,
    file: &[u8],
    unit: Unit,
    stop: &mut S,
) -> Result<Program, Ruling>
    requires unstopped { S.raised stop.old ≡ false }
    requires tokens { Tokenizes file.now unit.tokens.list.items }
    requires parsed { IsParsed file.now unit.tokens.list.items (tree_of unit) }
    ensures program { IfOk result (IsProgram file.now) }
    ensures refused { IfErr result (λ ruling. Refuses file.now (S.raised stop.new) ruling) }
    ensures unstopped { OnOk result (S.raised stop.new ≡ false) }
    ensures held { S.held stop.new ≡ S.held stop.old }
    ensures looks { IsNotBelow (S.looks stop.old) (S.looks stop.new) }
{
    if stop.stop() {
        return Err(Ruling::Stopped);
    }
    tokens_are_spans();
    match resolve_whole(alloc, file, &unit) {
        Ok(resolution) => with_resolution(alloc, file, unit, resolution, stop),
        Err(_) => Err(Ruling::NoMemory),
    }
}

fn with_resolution<S: Stop>(
    alloc: Global,
    file: &[u8],
    unit: Unit,
    resolution: Resolution,
    stop: &mut S,
) -> Result<Program, Ruling>
    requires unstopped { S.raised stop.old ≡ false }
    requires tokens { Tokenizes file.now unit.tokens.list.items }
    requires parsed { IsParsed file.now unit.tokens.list.items (tree_of unit) }
    requires entities { AreUnitEntities file.now unit resolution.names }
    requires fault { IsUnitFirst file.now unit resolution.fault }
    ensures program { IfOk result (IsProgram file.now) }
    ensures refused { IfErr result (λ ruling. Refuses file.now (S.raised stop.new) ruling) }
    ensures unstopped { OnOk result (S.raised stop.new ≡ false) }
    ensures held { S.held stop.new ≡ S.held stop.old }
    ensures looks { IsNotBelow (S.looks stop.old) (S.looks stop.new) }
{
    if stop.stop() {
        drop((unit, resolution));
        return Err(Ruling::Stopped);
    }
    match resolution.fault {
        Some(fault) => Err(ruled_on_names(alloc, file, &unit, &resolution.names, fault)),
        None => with_types(alloc, file, unit, resolution.names, stop),
    }
}

// What is ruled of a unit one of whose names is at fault.
fn ruled_on_names(
    alloc: Global,
    file: &[u8],
    unit: &Unit,
    names: &Names,
    fault: NameFault,
) -> Ruling
    requires tokens { Tokenizes file.now unit.now.tokens.list.items }
    requires parsed { IsParsed file.now unit.now.tokens.list.items (tree_of unit.now) }
    requires entities { AreUnitEntities file.now unit.now names.now }
    requires fault { IsUnitFirst file.now unit.now (Some fault) }
    ensures { (raised : Bool) → Refuses file.now raised result }
{
    tokens_are_spans();
    match first_name_fault(alloc, file, unit, names, fault) {
        Ok(first) => name_ruling(file, unit.tokens.list.as_slice(), first),
        Err(_) => Ruling::NoMemory,
    }
}

fn with_types<S: Stop>(
    alloc: Global,
    file: &[u8],
    unit: Unit,
    names: Names,
    stop: &mut S,
) -> Result<Program, Ruling>
    requires unstopped { S.raised stop.old ≡ false }
    requires tokens { Tokenizes file.now unit.tokens.list.items }
    requires parsed { IsParsed file.now unit.tokens.list.items (tree_of unit) }
    requires known { AreUnitNames file.now unit names }
    ensures program { IfOk result (IsProgram file.now) }
    ensures refused { IfErr result (λ ruling. Refuses file.now (S.raised stop.new) ruling) }
    ensures unstopped { OnOk result (S.raised stop.new ≡ false) }
    ensures held { S.held stop.new ≡ S.held stop.old }
    ensures looks { IsNotBelow (S.looks stop.old) (S.looks stop.new) }
{
    tokens_are_spans();
    match check(alloc, file, &unit, &names) {
        Ok(checked) => with_columns(alloc, file, unit, names, checked, stop),
        Err(fault) => Err(type_ruling(file, unit.tokens.list.as_slice(), fault)),
    }
}

fn with_columns<S: Stop>(
    alloc: Global,
    file: &[u8],
    unit: Unit,
    names: Names,
    checked: Checked,
    stop: &mut S,
) -> Result<Program, Ruling>
    requires unstopped { S.raised stop.old ≡ false }
    requires tokens { Tokenizes file.now unit.tokens.list.items }
    requires parsed { IsParsed file.now unit.tokens.list.items (tree_of unit) }
    requires known { AreUnitNames file.now unit names }
    requires sound { IsSoundOf file.now unit names checked }
    ensures program { IfOk result (IsProgram file.now) }
    ensures refused { IfErr result (λ ruling. Refuses file.now (S.raised stop.new) ruling) }
    ensures unstopped { OnOk result (S.raised stop.new ≡ false) }
    ensures held { S.held stop.new ≡ S.held stop.old }
    ensures looks { IsNotBelow (S.looks stop.old) (S.looks stop.new) }
{
    if stop.stop() {
        drop((unit, names, checked));
        return Err(Ruling::Stopped);
    }
    tokens_are_spans();
    let structures = structures_of(alloc, &unit, &checked);
    let typed = typed(alloc, file, unit, &names, checked);
    program_of(typed, names, structures)
}
