use crate::rows::{expect, expect_true, number, rows, triple};
use cr_rows::Row;
use cr_tokens::read;
use pass_edit::{Bit, Change, Edits, Kept, Menu, Run, Sign, Text, variant, width};
use std::alloc::{AllocError, Global};
use std::process::Abort;
use std::test::Fail;

// A file, the changes as `start end text`, and the file after them. A text is a word of `text_of`.
const CHANGES: &str = "
return x;¦7 8 zero¦return 0;
int(a)b;¦3 4 nothing, 5 6 nothing¦int a b;
f(1);¦1 4 nothing¦f;
f(1);¦1 2 nothing, 3 4 nothing¦f 1;
if(1)x;else y;¦5 7 semicolon¦if(1);else y;
a+b;¦0 1 one, 2 3 zero¦1+0;
int f(int a){}¦6 11 void¦int f(void){}
f(g(1,2));¦2 8 same, 4 5 zero¦f(1,2);
int ab=ab;¦4 6 kept, 7 9 kept¦int zz=zz;
x¦0 1 nothing¦
int s(int a,int b){return a-b;}int main(){return s(1+x,-y);}¦49 58 form0¦int s(int a,int b){return a-b;}int main(){return ((1+x)-(-y));}
int s(int a,int b){return a-b;}int main(){return s(1+x,-y);}¦49 58 form1¦int s(int a,int b){return a-b;}int main(){return {int a=1+x;int b=-y;{return a-b;}};}
int s(int a,int b){return a-b;}int main(){return s(1+x,-y);}¦49 58 form2¦int s(int a,int b){return a-b;}int main(){return (- -y;}
";

// A form each: `(`, `)`, `}`, `=` and `;` are signs, `?N` is a hole, and `N-M` the tokens from one number to before another.
const FORMS: &str = "
( ?0 ) 12-13 ( ?1 ) )
3-5 = ?0 ; 6-8 = ?1 ; 9-16 }
28-29 ?1 ?7
";

fn text_of(word: &str) -> Text {
    match word {
        "zero" => Text::Zero,
        "one" => Text::One,
        "semicolon" => Text::Semicolon,
        "void" => Text::Void,
        "same" => Text::Same(4, 7),
        "kept" => Text::Kept(1, 3),
        "form0" => Text::Filled(Sign::OpenParenthesis, 0, 0),
        "form1" => Text::Filled(Sign::OpenBrace, 1, 0),
        "form2" => Text::Filled(Sign::OpenParenthesis, 2, 0),
        _ => Text::Nothing,
    }
}

fn change(text: &str) -> Change {
    let mut words = text.split_whitespace();
    let start = number(words.next());
    let end = number(words.next());
    let text = text_of(words.next().unwrap_or(""));
    Change { start, end, text }
}

fn bit(word: &str) -> Bit {
    match word {
        "(" => Bit::Put(Sign::OpenParenthesis),
        ")" => Bit::Put(Sign::CloseParenthesis),
        "}" => Bit::Put(Sign::CloseBrace),
        "=" => Bit::Put(Sign::Equals),
        ";" => Bit::Put(Sign::Semicolon),
        _ => match word.strip_prefix('?') {
            Some(hole) => Bit::Hole(number(Some(hole))),
            None => Bit::Tokens(run(word)),
        },
    }
}

fn run(word: &str) -> Run {
    let mut ends = word.split('-');
    let from = number(ends.next());
    let to = number(ends.next());
    Run { from, to }
}

fn form(alloc: Global, words: &str) -> Result<Row<Bit>, AllocError> {
    let mut form = Row::new(alloc);
    for word in words.split_whitespace() {
        form.push(bit(word))?;
    }
    Ok(form)
}

// The runs that fill the holes.
fn runs(alloc: Global) -> Result<Row<Run>, AllocError> {
    let mut runs = Row::new(alloc);
    for word in "24-27 28-30".split_whitespace() {
        runs.push(run(word))?;
    }
    Ok(runs)
}

fn keep_texts(alloc: Global, file: &[u8], kept: &mut Kept) -> Result<(), Fail> {
    kept.bytes = Row::from_vec(b"yzzy".to_vec(alloc)?);
    kept.tokens = Row::from_vec(read(alloc, file)?.list);
    Ok(())
}

fn keep_forms(alloc: Global, kept: &mut Kept) -> Result<(), AllocError> {
    for words in rows(FORMS) {
        kept.forms.push(form(alloc, words)?)?;
    }
    kept.runs.push(runs(alloc)?)
}

fn keep(alloc: Global, file: &[u8], kept: &mut Kept) -> Result<(), Fail> {
    keep_texts(alloc, file, kept)?;
    Ok(keep_forms(alloc, kept)?)
}

fn kept(alloc: Global, file: &[u8]) -> Result<Kept, Fail> {
    let mut kept = Kept::nothing(alloc);
    keep(alloc, file, &mut kept)?;
    Ok(kept)
}

fn edit(alloc: Global, changes: &str) -> Result<Vec<Change>, AllocError> {
    let mut edit = Vec::new(alloc);
    for text in changes.split(',') {
        edit.push(change(text))?;
    }
    Ok(edit)
}

fn fill(edits: &mut Edits, edit: &[Change]) -> Result<(), AllocError> {
    edits.push(&[])?;
    edits.push(edit)
}

// An edit of nothing, and the one of these changes.
fn level(alloc: Global, changes: &str) -> Result<Edits, AllocError> {
    let edit = edit(alloc, changes)?;
    let mut edits = Edits::new(alloc);
    fill(&mut edits, &edit)?;
    Ok(edits)
}

// A level of no edit, and one of two.
fn levels(alloc: Global, changes: &str) -> Result<Vec<Edits>, AllocError> {
    let mut levels = Vec::new(alloc);
    levels.push(Edits::new(alloc))?;
    levels.push(level(alloc, changes)?)?;
    Ok(levels)
}

fn menu(alloc: Global, file: &[u8], changes: &str) -> Result<Menu, Fail> {
    let levels = levels(alloc, changes)?;
    Ok(Menu::new(levels, kept(alloc, file)?))
}

fn has_its_widths(menu: &Menu) -> bool {
    width(menu, 0) == 0 && width(menu, 1) == 2 && width(menu, 2) == 0
}

// Sets `out` to a variant of level 1.
fn expect_variant(
    rt: &impl Abort,
    menu: &Menu,
    row: &str,
    at: u64,
    out: &mut Vec<u8>,
) -> Result<(), AllocError> {
    let (file, _, edited) = triple(row);
    variant(menu, file.as_bytes(), 1, at, out)?;
    let wanted = if at == 0 { file } else { edited };
    expect(rt, out, wanted.as_bytes(), row);
    Ok(())
}

fn expect_menu(rt: &impl Abort, menu: &Menu, row: &str, out: &mut Vec<u8>) -> Result<(), Fail> {
    expect_true(rt, has_its_widths(menu), row);
    expect_variant(rt, menu, row, 1, out)?;
    Ok(expect_variant(rt, menu, row, 0, out)?)
}

fn expect_row(rt: &impl Abort, alloc: Global, row: &str, out: &mut Vec<u8>) -> Result<(), Fail> {
    let (file, changes, _) = triple(row);
    let menu = menu(alloc, file.as_bytes(), changes)?;
    expect_menu(rt, &menu, row, out)
}

#[test]
fn edits_give_the_files_of_the_table(rt: HostRuntime) -> Result<(), Fail> {
    let mut out = Vec::new(rt.alloc());
    for row in rows(CHANGES) {
        expect_row(&rt, rt.alloc(), row, &mut out)?;
    }
    Ok(())
}
