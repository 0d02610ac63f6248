ghost use Rattle.std.specs.Prelude.{◌≡◌, ◌≤◌, length, IfOk};

use crate::rows::{SAMPLE, bytes_of, expect, pair, rows};
use crate::tokens::count_of;
use cr_printer::{print, print_expr};
use cr_rows::Row;
use cr_syntax::{Kind, Node, Unit};
use cr_tokens::{Tokens, read};
use std::alloc::{AllocError, Global};
use std::process::Abort;
use std::test::Fail;

// A spelling of each sort of token: two keywords, two identifiers, integer constants of each base with and without a
// suffix, a character, texts, and each punctuator.
const SPELLINGS: &str = r#"
int return x _9e 1 017 0x1e 10u 'e' "" "s\n" 0 [ ] ( ) { } . -> ++ -- & * + - ~ ! / % << >> < > <=
>= == != ^ | && || ? : ; ... = *= /= %= += -= <<= >>= &= ^= |= ,
"#;

// The spellings behind which some others need a space, and these: what a letter or a digit before it would make longer, what
// a number before it would take in or begin with (C11 6.4.8), and a sign too after a number that ends in `e`.
const SPACED: &str = "
int¦int return x _9e 1 017 0x1e 10u 0
return¦int return x _9e 1 017 0x1e 10u 0
x¦int return x _9e 1 017 0x1e 10u 0
_9e¦int return x _9e 1 017 0x1e 10u 0
1¦int return x _9e 1 017 0x1e 10u 0 . ...
017¦int return x _9e 1 017 0x1e 10u 0 . ...
0¦int return x _9e 1 017 0x1e 10u 0 . ...
10u¦int return x _9e 1 017 0x1e 10u 0 . ...
0x1e¦int return x _9e 1 017 0x1e 10u 0 . ... + ++ += - -- -= ->
.¦1 017 0x1e 10u 0 ...
&¦& && &= = ==
*¦= ==
+¦+ ++ += = ==
-¦- -- -= -> > >> >= >>= = ==
!¦= ==
/¦/ /= * *= = ==
%¦= ==
<<¦= ==
>>¦= ==
<¦< << <= <<= = ==
>¦> >> >= >>= = ==
^¦= ==
|¦| || |= = ==
=¦= ==
";

// Texts, and what their tokens print as.
const TEXTS: &str = r#"
¦
 /* no token */␊¦
int main(void){return 0;}␊¦int main(void){return 0;}
a+ +b¦a+ +b
a + ++ b¦a+ ++b
a ( )¦a()
x 1u¦x 1u
1 .¦1 .
"a" "b" 'c'¦"a""b"'c'
a /␊/* in between */ * b // behind␊¦a/ *b
# 1 "p.c"␊p -> q - > r¦p->q- >r
. . .¦...
"#;

const PRINTED_SAMPLE: &str = "typedef int T;extern int printf(const char*,...);\
enum color{RED,GREEN=5,BLUE};struct pair{T left;T right;};\
static struct pair table[2]={{1,2},{3,4}};\
static T sum(struct pair*p,int n){T s=0;int i;for(i=0;i<n;i++)s+=p[i].left*p[i].right;return s;}\
int main(void){long T=BLUE;printf(\"%d %ld\\n\",sum(table,2),T);return 0;}";

// What the tokens of a text print as.
fn printed(alloc: Global, text: &[u8]) -> Result<Vec<u8>, Fail> {
    let tokens = read(alloc, text)?;
    let unit = Unit::new(tokens, Row::new(alloc), Row::new(alloc));
    Ok(print(alloc, text, &unit)?)
}

fn needs_space(left: &str, right: &str) -> bool {
    for row in rows(SPACED) {
        let (before, behind) = pair(row);
        if before == left {
            return has(behind, right);
        }
    }
    false
}

fn has(spellings: &str, spelling: &str) -> bool {
    for one in spellings.split_whitespace() {
        if one == spelling {
            return true;
        }
    }
    false
}

fn expect_printed(rt: &impl Abort, alloc: Global, file: &[u8], wanted: &str) -> Result<(), Fail> {
    let found = printed(alloc, file)?;
    expect(rt, &found, wanted.as_bytes(), wanted);
    Ok(())
}

fn expect_between(rt: &impl Abort, alloc: Global, left: &str, right: &str) -> Result<(), Fail> {
    let text = format!(in alloc; "{left}\n{right}")?;
    let between = if needs_space(left, right) { " " } else { "" };
    let wanted = format!(in alloc; "{left}{between}{right}")?;
    expect_printed(rt, alloc, text.as_bytes(), &wanted)
}

#[test]
fn a_space_stands_where_two_spellings_need_one(rt: HostRuntime) -> Result<(), Fail> {
    for left in SPELLINGS.split_whitespace() {
        for right in SPELLINGS.split_whitespace() {
            expect_between(&rt, rt.alloc(), left, right)?;
        }
    }
    Ok(())
}

fn expect_row(rt: &impl Abort, alloc: Global, row: &str) -> Result<(), Fail> {
    let (text, wanted) = pair(row);
    let file = bytes_of(alloc, text)?;
    expect_printed(rt, alloc, &file, wanted)
}

#[test]
fn texts_are_printed(rt: HostRuntime) -> Result<(), Fail> {
    for row in rows(TEXTS) {
        expect_row(&rt, rt.alloc(), row)?;
    }
    expect_printed(&rt, rt.alloc(), SAMPLE.as_bytes(), PRINTED_SAMPLE)?;
    assert!(rt;
        count_of(rt.alloc(), PRINTED_SAMPLE.as_bytes()) == Ok(143),
        "another number of tokens than 143"
    );
    assert!(rt; count_of(rt.alloc(), b"...") == Ok(1));
    Ok(())
}

// The unit of `a+ +b` whose nodes are the operand `+b` and the whole sum.
fn sum_of(alloc: Global, tokens: Tokens) -> Result<Unit, AllocError>
    requires { length tokens.list.items ≡ 4 }
    ensures tokens { IfOk result (λ unit. unit.tokens ≡ tokens) }
    ensures nodes { IfOk result (λ unit. length unit.nodes ≡ 2) }
{
    let operand = Node {
        kind: Kind::Plus,
        first: 2,
        last: 3,
        parts: Row::new(alloc),
    };
    let sum = Node {
        kind: Kind::Add,
        first: 0,
        last: 3,
        parts: Row::from_vec(vec![in alloc; 0]?),
    };
    let mut nodes = Row::new(alloc);
    nodes.push(operand)?;
    nodes.push(sum)?;
    let items = Row::from_vec(vec![in alloc; 1]?);
    Ok(Unit::new(tokens, nodes, items))
}

const SUM: &str = "a+ +b";

fn node_printed(alloc: Global, node: u32) -> Result<Vec<u8>, Fail>
    requires { node ≤ 1 }
{
    let tokens = read(alloc, SUM.as_bytes())?;
    if tokens.list.len() != 4 {
        return Err(Fail::from("four tokens"));
    }
    let unit = sum_of(alloc, tokens)?;
    Ok(print_expr(alloc, SUM.as_bytes(), &unit, node)?)
}

#[test]
fn nodes_are_printed(rt: HostRuntime) -> Result<(), Fail> {
    let operand = node_printed(rt.alloc(), 0)?;
    expect(&rt, &operand, b"+b", "the operand");
    let sum = node_printed(rt.alloc(), 1)?;
    expect(&rt, &sum, SUM.as_bytes(), "the sum");
    Ok(())
}
