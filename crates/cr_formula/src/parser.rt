// Reads a formula of its words.
ghost use Rattle.std.specs.Prelude.{◌≡◌, ◌∷◌, [], ◌+◌, ◌<◌, ◌≤◌, max, ℕ, List, IfOk, Err, codes};
ghost use Rattle.cr_outside.specs.HasText.{IsText};
ghost use Rattle.cr_formula.specs.Forms.{Form, NoFormula, NoTwo, Quotes, Reads, ReadsTwo, form_of, nesting_of};

use crate::formula::{Formula, FormulaFault};
use crate::status::status_of;
use crate::words::{Head, first_byte, first_of, head_of, in_brackets, past};
use cr_check_literals::literal_bytes;
use cr_outside::{Has, TestFault};
use cr_rows::Row;
use std::alloc::Global;

/// How deep formulas may stand in one another.
const NESTING: u8 = 64;

/// Reads a formula that is all of the words.
pub(crate) fn read_words(alloc: Global, words: &[Row<u8>]) -> Result<Formula, FormulaFault>
    ensures found { IfOk result (λ f. Reads (form_of f) words.now [] × (nesting_of (form_of f) ≤ 64)) }
    ensures none { result ≡ Err FormulaFault.Form → (f : Form) → Reads f words.now [] → nesting_of f ≤ 64 → ⊥ }
{
    let (formula, rest) = match parse(alloc, words, NESTING) {
        Ok(found) => found,
        Err(fault) => return Err(fault),
    };
    if !rest.is_empty() {
        drop(formula);
        return Err(FormulaFault::Form);
    }
    Ok(formula)
}

// Reads a formula at the front, and what follows.
#[cycle(reading)]
fn parse<'a>(
    alloc: Global,
    words: &'a [Row<u8>],
    left: u8,
) -> Result<(Formula, &'a [Row<u8>]), FormulaFault>
    ensures found { IfOk result (λ r. Reads (form_of r.0) words.entry.now r.1.now × (nesting_of (form_of r.0) ≤ left)) }
    ensures none { result ≡ Err FormulaFault.Form → NoFormula words.entry.now left }
{
    if left == 0 {
        return Err(FormulaFault::Form);
    }
    let Some((head, rest)) = head_of(words) else {
        return Err(FormulaFault::Form);
    };
    match head {
        Head::Has => having(alloc, rest),
        Head::Prints => printing(alloc, rest),
        Head::Ends => ending(rest),
        Head::Same => Ok((Formula::Same, rest)),
        Head::And => conjunction(alloc, rest, left - 1),
        Head::Or => disjunction(alloc, rest, left - 1),
        Head::Not => negation(alloc, rest, left - 1),
    }
}

// The bytes of a literal in brackets, and what follows.
fn quoted<'a>(alloc: Global, words: &'a [Row<u8>]) -> Result<(Vec<u8>, &'a [Row<u8>]), FormulaFault>
    ensures found { IfOk result (λ r. Quotes r.0.items words.entry.now r.1.now) }
    ensures none { result ≡ Err FormulaFault.Form → (text : List ℕ) (rest : List (List ℕ)) → Quotes text words.entry.now rest → ⊥ }
{
    let Some((literal, rest)) = in_brackets(words) else {
        return Err(FormulaFault::Form);
    };
    let spelling = literal.as_slice();
    if first_byte(spelling) != b'"' {
        return Err(FormulaFault::Form);
    }
    match literal_bytes(alloc, spelling) {
        Ok(text) => Ok((text, rest)),
        Err(_) => Err(FormulaFault::NoMemory),
    }
}

fn having<'a>(alloc: Global, words: &'a [Row<u8>]) -> Result<(Formula, &'a [Row<u8>]), FormulaFault>
    ensures found { IfOk result (λ r. Reads (form_of r.0) (codes "has" ∷ words.entry.now) r.1.now × (nesting_of (form_of r.0) ≤ 1)) }
    ensures none { result ≡ Err FormulaFault.Form → (f : Form) (rest : List (List ℕ)) → Reads f (codes "has" ∷ words.entry.now) rest → ⊥ }
{
    let (text, rest) = match quoted(alloc, words) {
        Ok(found) => found,
        Err(fault) => return Err(fault),
    };
    match has_of(alloc, text) {
        Ok(has) => Ok((Formula::Has(has), rest)),
        Err(fault) => Err(fault),
    }
}

// The question about a text.
fn has_of(alloc: Global, text: Vec<u8>) -> Result<Has, FormulaFault>
    ensures has { IfOk result (λ has. (has ≡ text.items) × IsText text.items) }
    ensures none { result ≡ Err FormulaFault.Form → IsText text.items → ⊥ }
{
    let made = Has::new(alloc, text.as_slice());
    drop(text);
    match made {
        Ok(has) => Ok(has),
        Err(TestFault::NoMemory) => Err(FormulaFault::NoMemory),
        Err(TestFault::Empty) => unreachable!(),
        Err(TestFault::BadText) => Err(FormulaFault::Form),
    }
}

fn printing<'a>(
    alloc: Global,
    words: &'a [Row<u8>],
) -> Result<(Formula, &'a [Row<u8>]), FormulaFault>
    ensures found { IfOk result (λ r. Reads (form_of r.0) (codes "prints" ∷ words.entry.now) r.1.now × (nesting_of (form_of r.0) ≤ 1)) }
    ensures none { result ≡ Err FormulaFault.Form → (f : Form) (rest : List (List ℕ)) → Reads f (codes "prints" ∷ words.entry.now) rest → ⊥ }
{
    match quoted(alloc, words) {
        Ok((text, rest)) => Ok((Formula::Prints(text), rest)),
        Err(fault) => Err(fault),
    }
}

fn ending<'a>(words: &'a [Row<u8>]) -> Result<(Formula, &'a [Row<u8>]), FormulaFault>
    ensures found { IfOk result (λ r. Reads (form_of r.0) (codes "ends" ∷ words.entry.now) r.1.now × (nesting_of (form_of r.0) ≤ 1)) }
    ensures none { result ≡ Err FormulaFault.Form → (f : Form) (rest : List (List ℕ)) → Reads f (codes "ends" ∷ words.entry.now) rest → ⊥ }
{
    let Some((word, rest)) = in_brackets(words) else {
        return Err(FormulaFault::Form);
    };
    match status_of(word.as_slice()) {
        Some(n) => Ok((Formula::Ends(n), rest)),
        None => Err(FormulaFault::Form),
    }
}

#[cycle(reading)]
fn negation<'a>(
    alloc: Global,
    words: &'a [Row<u8>],
    left: u8,
) -> Result<(Formula, &'a [Row<u8>]), FormulaFault>
    ensures found { IfOk result (λ r. Reads (form_of r.0) (codes "not" ∷ words.entry.now) r.1.now × (nesting_of (form_of r.0) ≤ left + 1)) }
    ensures none { result ≡ Err FormulaFault.Form → NoFormula (codes "not" ∷ words.entry.now) (left + 1) }
{
    let Some(inside) = past(words, b"(") else {
        return Err(FormulaFault::Form);
    };
    let (one, behind) = match parse(alloc, inside, left) {
        Ok(found) => found,
        Err(fault) => return Err(fault),
    };
    let Some(rest) = past(behind, b")") else {
        drop(one);
        return Err(FormulaFault::Form);
    };
    Ok((Formula::Not(boxed(alloc, one)?), rest))
}

#[cycle(reading)]
fn conjunction<'a>(
    alloc: Global,
    words: &'a [Row<u8>],
    left: u8,
) -> Result<(Formula, &'a [Row<u8>]), FormulaFault>
    ensures found { IfOk result (λ r. Reads (form_of r.0) (codes "and" ∷ words.entry.now) r.1.now × (nesting_of (form_of r.0) ≤ left + 1)) }
    ensures none { result ≡ Err FormulaFault.Form → NoFormula (codes "and" ∷ words.entry.now) (left + 1) }
{
    match pair(alloc, words, left) {
        Ok((one, other, rest)) => Ok((Formula::And(one, other), rest)),
        Err(fault) => Err(fault),
    }
}

#[cycle(reading)]
fn disjunction<'a>(
    alloc: Global,
    words: &'a [Row<u8>],
    left: u8,
) -> Result<(Formula, &'a [Row<u8>]), FormulaFault>
    ensures found { IfOk result (λ r. Reads (form_of r.0) (codes "or" ∷ words.entry.now) r.1.now × (nesting_of (form_of r.0) ≤ left + 1)) }
    ensures none { result ≡ Err FormulaFault.Form → NoFormula (codes "or" ∷ words.entry.now) (left + 1) }
{
    match pair(alloc, words, left) {
        Ok((one, other, rest)) => Ok((Formula::Or(one, other), rest)),
        Err(fault) => Err(fault),
    }
}

// Two formulas in brackets, and what follows.
#[cycle(reading)]
fn pair<'a>(
    alloc: Global,
    words: &'a [Row<u8>],
    left: u8,
) -> Result<(Box<Formula>, Box<Formula>, &'a [Row<u8>]), FormulaFault>
    ensures found { IfOk result (λ r. ReadsTwo (form_of r.0.value) (form_of r.1.value) words.entry.now r.2.now × (max (nesting_of (form_of r.0.value)) (nesting_of (form_of r.1.value)) ≤ left)) }
    ensures none { result ≡ Err FormulaFault.Form → NoTwo words.entry.now left }
{
    let Some(inside) = past(words, b"(") else {
        return Err(FormulaFault::Form);
    };
    let (one, behind) = match parse(alloc, inside, left) {
        Ok(found) => found,
        Err(fault) => return Err(fault),
    };
    let Some(second) = past(behind, b",") else {
        drop(one);
        return Err(FormulaFault::Form);
    };
    let (other, end) = match parse(alloc, second, left) {
        Ok(found) => found,
        Err(fault) => {
            drop(one);
            return Err(fault);
        }
    };
    let Some(rest) = past(end, b")") else {
        drop((one, other));
        return Err(FormulaFault::Form);
    };
    let one = boxed(alloc, one)?;
    Ok((one, boxed(alloc, other)?, rest))
}

fn boxed(alloc: Global, formula: Formula) -> Result<Box<Formula>, FormulaFault>
    ensures boxed { IfOk result (λ b. b.value ≡ formula) }
    ensures memory { result ≡ Err FormulaFault.Form → ⊥ }
{
    match Box::new(alloc, formula) {
        Ok(made) => Ok(made),
        Err(_) => Err(FormulaFault::NoMemory),
    }
}
