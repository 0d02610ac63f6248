// The passes as one.
ghost use Rattle.std.specs.Prelude.{IfOk, IfSome};
ghost use Rattle.cr_lawful_analysis.specs.Analysis.{IsAnalysis};
ghost use Rattle.pass_list.specs.Offers.{HasFilesTokens, Offers, offer_of};
ghost use Rattle.pass_list.specs.OfferLaws.{few_variants, no_level, no_pass, one_offer};

use crate::index::{Index, index_of};
use cr_cursor::{Cursor, NoMemory, Passes};
use cr_lawful_analysis::{Analysis, LastRead, analyse};
use cr_tokens::read;
use pass_edit::{variant, width};
use pass_text::{lines_variant, lines_width};
use std::alloc::Global;

/// The twelve passes l t b u s c i p r f v o by their numbers from 0 on, of which some are enabled.
#[derive(Clone, Copy)]
pub struct CPasses<'a> {
    pub enabled: [bool; 12],
    /// Where what was read of a file may lie already.
    pub last: Option<&'a LastRead>,
}

impl<'a> CPasses<'a> {
    /// Pass l alone.
    pub fn lines() -> CPasses<'a> {
        let mut enabled = [false; 12];
        enabled[0] = true;
        CPasses {
            enabled,
            last: None,
        }
    }
}

// What lies there of a file. Its tokens are read once more, since of what lay there only that it is the file's is known.
fn left(alloc: Global, last: Option<&LastRead>, file: &[u8]) -> Option<Analysis>
    ensures read { IfSome result (λ analysis. ∥ IsAnalysis file.now analysis ∥₁) }
    ensures tokens { IfSome result (HasFilesTokens file.now) }
{
    let analysis = last?.take(file)?;
    match read(alloc, file) {
        Ok(_) => Some(analysis),
        Err(_) => None,
    }
}

// What is read of a file, or was read before. The error is want of memory.
fn analysis_of(alloc: Global, last: Option<&LastRead>, file: &[u8]) -> Result<Analysis, NoMemory>
    ensures read { IfOk result (λ analysis. ∥ IsAnalysis file.now analysis ∥₁) }
    ensures tokens { IfOk result (HasFilesTokens file.now) }
{
    match left(alloc, last, file) {
        Some(analysis) => Ok(analysis),
        None => analyse(alloc, file),
    }
}

impl<'a> Passes for CPasses<'a> {
    type Prep = Index;

    ghost offers = { λ p file o. Offers p.enabled file o };

    ghost offer = { λ _ index file. offer_of index file };

    ghost one = { λ p file o other is also. one_offer p.enabled file o other is also };

    ghost few = { λ p file o pass level is. few_variants p.enabled file o pass level is };

    ghost no_more_passes = { λ p file o pass level is above. no_pass p.enabled file o pass level is above };

    ghost sixteen_levels = { λ p file o pass level is above. no_level p.enabled file o pass level is above };

    fn prepare(&self, alloc: Global, file: &[u8]) -> Result<Index, NoMemory> {
        let analysis = analysis_of(alloc, self.last, file)?;
        let index = index_of(alloc, &self.enabled, file, &analysis);
        drop(analysis);
        index
    }

    fn width(&self, prep: &Index, pass: u8, level: u8) -> u64 {
        if pass == 0 {
            return lines_width(prep.line_count(), level);
        }
        match prep.menu(pass) {
            Some(menu) => width(menu, level),
            None => 0,
        }
    }

    fn variant(
        &self,
        prep: &Index,
        file: &[u8],
        at: Cursor,
        out: &mut Vec<u8>,
    ) -> Result<(), NoMemory> {
        let _lines = prep.line_count();
        if at.pass == 0 {
            return lines_variant(file, at, out);
        }
        match prep.menu(at.pass) {
            Some(menu) => variant(menu, file, at.level, at.index, out),
            None => Ok(out.clear()),
        }
    }
}
