ghost use Rattle.std.specs.Prelude.{◌≤◌};

use crate::rows::{bytes_of, expect_cell, expect_true, rows, triple};
use cr_cursor::Cursor;
use cr_tokens::read;
use pass_edit::{Menu, variant, width};
use pass_text::{brackets, count_lines, lines_variant, lines_width, runs_of_tokens};
use std::alloc::Global;
use std::process::Abort;
use std::str::SplitWhitespace;
use std::test::Fail;

// Pass, level, index and the level's width; a file; and its variant, which is the file where there is none.
const VARIANTS: &str = r#"
l 13 0 1¦int f(int x){return x;}int main(void){int i=0;i=f(i);return i;}¦
l 14 0 3¦a␊b␊c¦b␊c
l 14 2 3¦a␊b␊c¦a␊b␊
l 13 0 2¦a␊b␊c¦c
l 13 1 2¦a␊b␊c¦a␊b␊
t 0 0 2¦char s[]="ab",*t="cd";int main();¦;
t 3 0 9¦int main(void){return 0;}¦(void){return 0;}
t 4 0 10¦int main(void){return 0;}¦ main(void){return 0;}
t 4 2 10¦int main(void){return 0;}¦int main void){return 0;}
t 1 2 3¦int main(void){return 0;}¦int main
t 3 14 32¦int f(int x){return x;}int main(void){int i=0;i=f(i);return i;}¦int f(int x){return x;}int main({int i=0;i=f(i);return i;}
t 4 23 33¦int f(int x){return x;}int main(void){int i=0;i=f(i);return i;}¦int f(int x){return x;}int main(void){int i=0;i f(i);return i;}
b 0 0 1¦f(1);¦f;
b 1 0 1¦f(1);¦f();
b 2 0 1¦f(1);¦f 1;
b 1 0 1¦f( );¦f( );
b 1 0 1¦f( /*a*/ x /*b*/ y );¦f( /*a*/  );
b 0 1 2¦volatile int v=1;int main(){v=v+1;v++;return v&&v;}¦volatile int v=1;int main()
b 1 1 2¦volatile int v=1;int main(){v=v+1;v++;return v&&v;}¦volatile int v=1;int main(){}
b 2 1 2¦volatile int v=1;int main(){v=v+1;v++;return v&&v;}¦volatile int v=1;int main()v=v+1;v++;return v&&v;
b 0 0 0¦([)]¦([)]
b 1 0 0¦f(1;¦f(1;
b 2 0 0¦f;¦f;
b 3 0 0¦f(1);¦f(1);
t 0 0 0¦int main(void){return 0;}¦int main(void){return 0;}
l 14 0 0¦¦
b 0 3 4¦int main(){int i=3;L:if(i){i--;goto L;}return i;}¦int main(){int i=3;L:if(i)return i;}
b 2 3 6¦char s[]="ab",*t="cd";int main(){s[0]=t[1];return s[2];}¦char s[]="ab",*t="cd";int main(){s 0=t[1];return s[2];}
"#;

fn number(word: Option<&str>) -> u64
    ensures { result ≤ 1000 }
{
    match word {
        Some(word) => word.parse().unwrap_or(1000u64).min(1000),
        None => 1000,
    }
}

fn menu_of(alloc: Global, pass: &str, file: &[u8]) -> Result<Menu, Fail> {
    let tokens = read(alloc, file)?;
    if pass == "t" {
        return Ok(runs_of_tokens(alloc, tokens.list.as_slice())?);
    }
    Ok(brackets(alloc, file, tokens.list.as_slice())?)
}

// Sets `out` to the variant of an index, and answers the level's width.
fn make(alloc: Global, pass: &str, file: &[u8], at: Cursor, out: &mut Vec<u8>) -> Result<u64, Fail>
    requires { at.index ≤ 1000 }
{
    if pass == "l" {
        lines_variant(file, at, out)?;
        return Ok(lines_width(count_lines(file), at.level));
    }
    let menu = menu_of(alloc, pass, file)?;
    variant(&menu, file, at.level, at.index, out)?;
    Ok(width(&menu, at.level))
}

fn cursor(words: &mut SplitWhitespace<'_>) -> Cursor
    ensures { result.index ≤ 1000 }
{
    let level = u8::try_from(number(words.next())).unwrap_or(99);
    let index = number(words.next());
    Cursor {
        pass: 0,
        level,
        index,
    }
}

// Sets `out` to the variant that the numbers name, and answers whether the level has its width.
fn has_width(alloc: Global, numbers: &str, file: &[u8], out: &mut Vec<u8>) -> Result<bool, Fail> {
    let mut words = numbers.split_whitespace();
    let pass = words.next().unwrap_or("");
    let at = cursor(&mut words);
    let width = make(alloc, pass, file, at, out)?;
    Ok(width == number(words.next()))
}

fn expect_row(rt: &impl Abort, alloc: Global, row: &str, out: &mut Vec<u8>) -> Result<(), Fail> {
    let (numbers, file, wanted) = triple(row);
    let file = bytes_of(alloc, file)?;
    expect_true(rt, has_width(alloc, numbers, &file, out)?, row);
    Ok(expect_cell(rt, alloc, out, wanted, row)?)
}

#[test]
fn passes_give_the_variants_of_the_table(rt: HostRuntime) -> Result<(), Fail> {
    let mut out = Vec::new(rt.alloc());
    for row in rows(VARIANTS) {
        expect_row(&rt, rt.alloc(), row, &mut out)?;
    }
    Ok(())
}
