// What is made once for a file.
ghost use Rattle.std.specs.Prelude.{◌≡◌, ◌≤◌, IfOk, MatchOption, length};
ghost use Rattle.cr_lawful_analysis.specs.Analysis.{IsAnalysis, read_of};
ghost use Rattle.pass_list.specs.Offers.{AreMenus, ByNames, ByStructures, ByTokens, ByTree, HasFilesTokens, IfOn, IsKnown, IsOffered, is_on, menu_at, nothing};
ghost use Rattle.pass_list.specs.Passes.{pass_by};
ghost use Rattle.pass_exprs.specs.Expressions.{c_offering};
ghost use Rattle.pass_inline.specs.Inlined.{i_offering};
ghost use Rattle.pass_names.specs.Renamed.{r_offering};
ghost use Rattle.pass_names.specs.Unused.{u_offering};
ghost use Rattle.pass_output.specs.Output.{o_offering};
ghost use Rattle.pass_params.specs.Parameters.{p_offering};
ghost use Rattle.pass_stmts.specs.Printed.{IsPrintedOffering};
ghost use Rattle.pass_stmts.specs.Statements.{s_offering};
ghost use Rattle.pass_text.specs.Brackets.{IsBracketOffering};
ghost use Rattle.pass_text.specs.Runs.{t_offering};
ghost use Rattle.pass_values.specs.Values.{v_offering};

use crate::pass::{Pass, pass_by};
use cr_cursor::NoMemory;
use cr_lawful_analysis::Analysis;
use pass_edit::{Kept, Menu};
use pass_exprs::expressions;
use pass_inline::inlined;
use pass_names::{renamed, unused};
use pass_output::output;
use pass_params::parameters;
use pass_stmts::{printed, statements};
use pass_text::{brackets, count_lines, runs_of_tokens};
use pass_values::values;
use std::alloc::Global;
use std::marker::Model;

/// What the enabled passes offer for a file: how many lines there are, and a menu for each other pass, by its number.
#[derive(Drop)]
pub struct Index {
    lines: u64,
    menus: Vec<Menu>,
}

impl Model for Index {
    ghost use Rattle.std.specs.Prelude.{◌≤◌};
    ghost use Rattle.pass_list.specs.Offers.{Known};

    ghost Value = { Known };

    ghost view = { λ i. record { lines = i.lines; menus = i.menus.items } };

    ghost invariant = { λ i. i.lines ≤ 1048576 };
}

impl Index {
    /// How many lines pass l goes by: those of the file, or none where it isn't enabled.
    pub fn line_count(&self) -> u64
        ensures lines { result ≡ self.now.lines }
        ensures few { result ≤ 1048576 }
    {
        self.lines
    }

    /// What a pass behind the lines offers, if it is there.
    pub fn menu(&self, pass: u8) -> Option<&Menu>
        ensures { MatchOption result (menu_at self.now.menus pass ≡ nothing) (λ menu. menu.now ≡ menu_at self.now.menus pass) }
    {
        self.menus.get(pass as usize)
    }
}

/// The index of a file of at most 1,048,576 bytes, of which this was read. The error is want of memory.
pub fn index_of(
    alloc: Global,
    enabled: &[bool],
    file: &[u8],
    analysis: &Analysis,
) -> Result<Index, NoMemory>
    requires short { length file.now ≤ 1048576 }
    requires analysis { ∥ IsAnalysis file.now analysis.now ∥₁ }
    requires tokens { HasFilesTokens file.now analysis.now }
    ensures { IfOk result (λ index. IsKnown enabled.now file.now index) }
{
    let lines = if is_on(enabled, 0) {
        count_lines(file)
    } else {
        0
    };
    let menus = menus(alloc, enabled, file, analysis)?;
    Ok(Index { lines, menus })
}

fn menus(
    alloc: Global,
    enabled: &[bool],
    file: &[u8],
    analysis: &Analysis,
) -> Result<Vec<Menu>, NoMemory>
    requires { HasFilesTokens file.now analysis.now }
    ensures count { IfOk result (λ menus. length menus.items ≡ 12) }
    ensures menus { IfOk result (λ menus. AreMenus enabled.now file.now (read_of analysis.now) 12 menus.items) }
{
    let mut menus = Vec::new(alloc);
    for pass in 0..12 {
        menus.push(menu(alloc, is_on(enabled, pass), pass, file, analysis)?)?;
    }
    Ok(menus)
}

fn is_on(enabled: &[bool], pass: usize) -> bool
    ensures { result ≡ is_on enabled.now pass }
{
    match enabled.get(pass) {
        Some(on) => *on,
        None => false,
    }
}

fn menu(
    alloc: Global,
    on: bool,
    pass: usize,
    file: &[u8],
    analysis: &Analysis,
) -> Result<Menu, NoMemory>
    requires { HasFilesTokens file.now analysis.now }
    ensures { IfOk result (IfOn on (IsOffered file.now (read_of analysis.now) (pass_by pass))) }
{
    if on {
        offered(alloc, pass_by(pass), file, analysis)
    } else {
        Ok(nothing(alloc))
    }
}

fn offered(alloc: Global, pass: Pass, file: &[u8], analysis: &Analysis) -> Result<Menu, NoMemory>
    requires { HasFilesTokens file.now analysis.now }
    ensures { IfOk result (IsOffered file.now (read_of analysis.now) pass) }
{
    match pass {
        Pass::Lines | Pass::NotThere => Ok(nothing(alloc)),
        Pass::Runs => runs(alloc, analysis),
        Pass::Brackets => pairs(alloc, file, analysis),
        Pass::Unused => unused_offered(alloc, file, analysis),
        Pass::Statements => statements_offered(alloc, file, analysis),
        Pass::Expressions => expressions_offered(alloc, file, analysis),
        Pass::Inlined => inlined_offered(alloc, file, analysis),
        Pass::Parameters => parameters_offered(alloc, file, analysis),
        Pass::Renamed => renamed_offered(alloc, file, analysis),
        Pass::Printed => printed_offered(alloc, file, analysis),
        Pass::Values => values_offered(alloc, file, analysis),
        Pass::Output => output_offered(alloc, file, analysis),
    }
}

fn nothing(alloc: Global) -> Menu
    ensures { result ≡ nothing }
{
    Menu::new(Vec::new(alloc), Kept::nothing(alloc))
}

fn runs(alloc: Global, analysis: &Analysis) -> Result<Menu, NoMemory>
    ensures { IfOk result (ByTokens (read_of analysis.now).tokens (λ tokens menu. menu ≡ t_offering tokens)) }
{
    match analysis {
        Analysis::NoTokens => Ok(nothing(alloc)),
        Analysis::NoUnit(tokens) => runs_of_tokens(alloc, tokens.as_slice()),
        Analysis::OfUnit(unit, _, _) => runs_of_tokens(alloc, unit.tokens.list.as_slice()),
    }
}

fn pairs(alloc: Global, file: &[u8], analysis: &Analysis) -> Result<Menu, NoMemory>
    ensures { IfOk result (IsOffered file.now (read_of analysis.now) Pass.Brackets) }
{
    match analysis {
        Analysis::NoTokens => Ok(nothing(alloc)),
        Analysis::NoUnit(tokens) => brackets(alloc, file, tokens.as_slice()),
        Analysis::OfUnit(unit, _, _) => brackets(alloc, file, unit.tokens.list.as_slice()),
    }
}

fn unused_offered(alloc: Global, file: &[u8], analysis: &Analysis) -> Result<Menu, NoMemory>
    ensures { IfOk result (IsOffered file.now (read_of analysis.now) Pass.Unused) }
{
    match analysis {
        Analysis::OfUnit(unit, names, structures) => {
            unused(alloc, file, unit, names, structures.as_slice())
        }
        _ => Ok(nothing(alloc)),
    }
}

fn inlined_offered(alloc: Global, file: &[u8], analysis: &Analysis) -> Result<Menu, NoMemory>
    ensures { IfOk result (IsOffered file.now (read_of analysis.now) Pass.Inlined) }
{
    match analysis {
        Analysis::OfUnit(unit, names, _) => inlined(alloc, unit, names),
        _ => Ok(nothing(alloc)),
    }
}

fn parameters_offered(alloc: Global, file: &[u8], analysis: &Analysis) -> Result<Menu, NoMemory>
    ensures { IfOk result (IsOffered file.now (read_of analysis.now) Pass.Parameters) }
{
    match analysis {
        Analysis::OfUnit(unit, names, _) => parameters(alloc, file, unit, names),
        _ => Ok(nothing(alloc)),
    }
}

fn renamed_offered(alloc: Global, file: &[u8], analysis: &Analysis) -> Result<Menu, NoMemory>
    ensures { IfOk result (IsOffered file.now (read_of analysis.now) Pass.Renamed) }
{
    match analysis {
        Analysis::OfUnit(unit, names, _) => renamed(alloc, file, unit, names),
        _ => Ok(nothing(alloc)),
    }
}

fn statements_offered(alloc: Global, file: &[u8], analysis: &Analysis) -> Result<Menu, NoMemory>
    ensures { IfOk result (IsOffered file.now (read_of analysis.now) Pass.Statements) }
{
    match analysis {
        Analysis::OfUnit(unit, _, _) => {
            let tokens = unit.tokens.list.as_slice();
            statements(alloc, file, tokens, unit.nodes.as_slice())
        }
        _ => Ok(nothing(alloc)),
    }
}

fn expressions_offered(alloc: Global, file: &[u8], analysis: &Analysis) -> Result<Menu, NoMemory>
    ensures { IfOk result (IsOffered file.now (read_of analysis.now) Pass.Expressions) }
{
    match analysis {
        Analysis::OfUnit(unit, _, _) => {
            let tokens = unit.tokens.list.as_slice();
            expressions(alloc, tokens, unit.nodes.as_slice())
        }
        _ => Ok(nothing(alloc)),
    }
}

fn printed_offered(alloc: Global, file: &[u8], analysis: &Analysis) -> Result<Menu, NoMemory>
    requires { HasFilesTokens file.now analysis.now }
    ensures { IfOk result (IsOffered file.now (read_of analysis.now) Pass.Printed) }
{
    match analysis {
        Analysis::OfUnit(unit, _, _) => printed(alloc, file, unit),
        _ => Ok(nothing(alloc)),
    }
}

fn values_offered(alloc: Global, file: &[u8], analysis: &Analysis) -> Result<Menu, NoMemory>
    ensures { IfOk result (IsOffered file.now (read_of analysis.now) Pass.Values) }
{
    match analysis {
        Analysis::OfUnit(unit, names, _) => values(alloc, unit, names),
        _ => Ok(nothing(alloc)),
    }
}

fn output_offered(alloc: Global, file: &[u8], analysis: &Analysis) -> Result<Menu, NoMemory>
    ensures { IfOk result (IsOffered file.now (read_of analysis.now) Pass.Output) }
{
    match analysis {
        Analysis::OfUnit(unit, _, _) => output(alloc, file, unit),
        _ => Ok(nothing(alloc)),
    }
}
