// Programs: one with all kinds of declarations, its prefixes, and generated ones.
ghost use Rattle.std.specs.Prelude.{◌<◌, ◌≤◌};

use crate::shown::{most, none_of, ruled, shown};
use cr_gen::make;
use std::alloc::{AllocError, Global};
use std::ops::Range;
use std::process::Abort;
use std::test::Fail;

const SAMPLE: &str = r#"# 1 "p.c"
typedef int T;
extern int printf(const char *, ...);
enum color { RED, GREEN = 5, BLUE };
struct pair { T left; T right; };
static struct pair table[2] = { { 1, 2 }, { 3, 4 } };
static T sum(struct pair *p, int n)
{
  T s = 0;
  int i;
  for (i = 0; i < n; i++)
    s += p[i].left * p[i].right;
  return s;
}
int main(void)
{
  long T = BLUE;
  printf("%d %ld\n", sum(table, 2), T);
  return 0;
}
"#;

// The bytes up to the end of each of its external declarations.
const ENDS: [usize; 7] = [24, 62, 99, 133, 187, 318, 406];

// A number, and what the programs of 1, 3 and 40 items print.
const GENERATED: &str = "\
0 5 33 3169648586
1 9 33 2091922352
2 2 66 2766571968
3 6 14 4436971
4 3 1 1198542050
5 7 7 1730858541
6 0 35 2511289674
7 6 11 462676047
8 9 33 3301622235
9 6 384 2260150719
10 9 57 2637312058
11 5 9 573010
12 9 162 127693786
13 4 60 140854905
14 8 5 2660199212
15 2 15 2632181216
16 7 120 3077926910
17 3 9 2221117355
18 7 12 6157788
19 0 18 3175032660
20 7 48 2978745
";

#[test]
fn the_sample_runs(rt: HostRuntime) -> Result<(), AllocError> {
    assert!(rt; SAMPLE.len() == 407, "{} and not 407", SAMPLE.len());
    let found = shown(rt.alloc(), SAMPLE, most())?;
    assert!(rt; found.as_str() == "lawful 0 14 6\n", "{found}");
    Ok(())
}

// A prefix that ends with an external declaration or one byte behind it parses, and of these the two with all of main are lawful: the
// others lack it, K40.
fn is_ruled_so(end: usize, found: &str) -> bool {
    let ends = ENDS.contains(&end) || (end > 0 && ENDS.contains(&(end - 1)));
    let refused = found.starts_with("token") || found.starts_with("parse");
    let lawful = found == "lawful";
    lawful == (end >= 406) && refused != ends && (!ends || lawful || found.starts_with("type 40"))
}

fn expect_prefix(rt: &impl Abort, alloc: Global, end: usize) -> Result<(), AllocError> {
    let text = SAMPLE.get(0..end).unwrap_or("");
    let found = ruled(alloc, text.as_bytes(), most())?;
    assert!(rt; is_ruled_so(end, found.as_str()), "{end}: {found}");
    Ok(())
}

#[test]
fn prefixes_of_the_sample(rt: HostRuntime) -> Result<(), AllocError> {
    for end in 0..408 {
        expect_prefix(&rt, rt.alloc(), end)?;
    }
    Ok(())
}

// The number of a row's programs, and what the one of this column prints.
fn generated(row: &str, column: usize) -> Option<(u32, &str)> {
    let (number, printed) = row.split_once(' ')?;
    Some((number.parse::<u32>().ok()?, printed.split(' ').nth(column)?))
}

// What a generated program comes to.
fn made_shown(alloc: Global, number: u32, items: u32) -> Result<String, Fail>
    requires number { number < 2147483648 }
    requires items { (1 ≤ items) × (items ≤ 10000) }
{
    let text = String::from_utf8(make(alloc, number, items)?)?;
    let found = shown(alloc, text.as_str(), most())?;
    Ok(found)
}

// Notes a row whose program of so many items, in this column, prints something else.
fn try_generated(
    alloc: Global,
    wrong: &mut String,
    items: u32,
    column: usize,
    row: &str,
) -> Result<(), Fail>
    requires { (1 ≤ items) × (items ≤ 10000) }
{
    let (number, printed) = generated(row, column).ok_or("no output")?;
    if number >= 2_147_483_648 {
        return Err(Fail::from("no number of a program"));
    }
    let found = made_shown(alloc, number, items)?;
    let wanted = format!(in alloc; "lawful 0 {printed}\n")?;
    if found != wanted {
        write!(wrong, "\n{found}: {items} of {row}")?;
    }
    Ok(())
}

// Tries the programs of so many items, which are the column of that number, of some of the rows.
fn expect_generated(
    alloc: Global,
    items: u32,
    column: usize,
    rows: Range<usize>,
) -> Result<(), Fail>
    requires { (1 ≤ items) × (items ≤ 10000) }
{
    let mut wrong = String::new(alloc);
    for row in GENERATED.lines().skip(rows.start).take(rows.len()) {
        try_generated(alloc, &mut wrong, items, column, row)?;
    }
    none_of(wrong)
}

#[test]
fn generated_programs_of_one_and_three_items(rt: HostRuntime) -> Result<(), Fail> {
    expect_generated(rt.alloc(), 1, 0, 0..21)?;
    expect_generated(rt.alloc(), 3, 1, 0..21)
}

#[test]
fn generated_programs_of_forty_items(rt: HostRuntime) -> Result<(), Fail> {
    expect_generated(rt.alloc(), 40, 2, 0..10)
}

#[test]
fn more_generated_programs_of_forty_items(rt: HostRuntime) -> Result<(), Fail> {
    expect_generated(rt.alloc(), 40, 2, 10..21)
}
