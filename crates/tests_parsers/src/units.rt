use crate::are_spans;
use crate::texts::{Names, expect, fault_text, nested, pair, rows, shown, triple};
use cr_decls::parse;
use cr_exprs::ParseFault;
use cr_exprs::ParseFault::NoMemory;
use cr_syntax::Unit;
use cr_tokens::read;
use std::alloc::{AllocError, Global};
use std::process::Abort;
use std::test::Fail;

// Units and their trees as `shown` writes them, with names by their spelling. Worked out by hand from C11 6.7 to 6.9 and the
// definitions in crates/cr_decls/README.md.
const TREES: &str = r#"
-- declarations
int x;¦Declaration[Int x]
int;¦Declaration[Int]
const x;¦Declaration[Const x]
int x,*y;¦Declaration[Int x PointerDeclarator[y]]
volatile int v;int*volatile const p;¦Declaration[Specifiers[Volatile Int] v] Declaration[Int PointerDeclarator[p]]
int a;int b;¦Declaration[Int a] Declaration[Int b]
extern short a;auto signed b;register _Bool c;¦Declaration[Specifiers[Extern Short] a] Declaration[Specifiers[Auto Signed] b] Declaration[Specifiers[Register Bool] c]
int x=1;¦Declaration[Int InitDeclarator[x 1]]
int x=1,y,z=(1,2);¦Declaration[Int InitDeclarator[x 1] y InitDeclarator[z Group[Comma[1 2]]]]
int a[]={1,{2},};¦Declaration[Int InitDeclarator[ArrayDeclarator[a] InitializerList[1 InitializerList[2]]]]
int a[2]={1,b=2},c;¦Declaration[Int InitDeclarator[ArrayDeclarator[a 2] InitializerList[1 Assign[b 2]]] c]
int*(*a[3])(int);¦Declaration[Int PointerDeclarator[FunctionDeclarator[GroupDeclarator[PointerDeclarator[ArrayDeclarator[a 3]]] Int]]]
enum color{RED,GREEN=5,BLUE};¦Declaration[EnumContent[Enumerator Enumerator[5] Enumerator]]
struct pair{int a;}p={1};¦Declaration[StructContent[MemberDeclaration[Int a]] InitDeclarator[p InitializerList[1]]]
-- functions
int f(void);¦Declaration[Int FunctionDeclarator[f VoidParameters]]
int f(void){}¦FunctionDefinition[Int FunctionDeclarator[f VoidParameters] Compound]
int f(int x){return x;}¦FunctionDefinition[Int FunctionDeclarator[f Parameter[Int x]] Compound[Return[x]]]
static inline int*f(){;}¦FunctionDefinition[Specifiers[Static Inline Int] PointerDeclarator[FunctionDeclarator[f]] Compound[ExpressionStatement]]
int(f)(int a){return;}¦FunctionDefinition[Int FunctionDeclarator[GroupDeclarator[f] Parameter[Int a]] Compound[Return]]
int f{}¦FunctionDefinition[Int f Compound]
int printf(const char*,...);¦Declaration[Int FunctionDeclarator[printf VariadicParameters[Parameter[Specifiers[Const Char] AbstractPointer]]]]
int main(){int printf(int,...);}¦FunctionDefinition[Int FunctionDeclarator[main] Compound[Declaration[Int FunctionDeclarator[printf VariadicParameters[Int]]]]]
int(*f(int a))(int,...){}¦FunctionDefinition[Int FunctionDeclarator[GroupDeclarator[PointerDeclarator[FunctionDeclarator[f Parameter[Int a]]]] VariadicParameters[Int]] Compound]
int f(int g(int,...)){}¦FunctionDefinition[Int FunctionDeclarator[f Parameter[Int FunctionDeclarator[g VariadicParameters[Int]]]] Compound]
-- typedef names and identifiers
typedef int T;T x;¦Declaration[Specifiers[Typedef Int] T] Declaration[T x]
typedef int T,*P;P p;¦Declaration[Specifiers[Typedef Int] T PointerDeclarator[P]] Declaration[P p]
typedef int T;const T;¦Declaration[Specifiers[Typedef Int] T] Declaration[Specifiers[Const T]]
typedef int T;unsigned T;¦Declaration[Specifiers[Typedef Int] T] Declaration[Unsigned T]
typedef int T;int f(T);¦Declaration[Specifiers[Typedef Int] T] Declaration[Int FunctionDeclarator[f T]]
typedef int T;T f(T T){return T;}¦Declaration[Specifiers[Typedef Int] T] FunctionDefinition[T FunctionDeclarator[f Parameter[T T]] Compound[Return[T]]]
typedef int T;T f(int T);T x;¦Declaration[Specifiers[Typedef Int] T] Declaration[T FunctionDeclarator[f Parameter[Int T]]] Declaration[T x]
typedef int T;T f(int g(int T),T a);¦Declaration[Specifiers[Typedef Int] T] Declaration[T FunctionDeclarator[f Parameters[Parameter[Int FunctionDeclarator[g Parameter[Int T]]] Parameter[T a]]]]
typedef int T;T f(int T,int a[sizeof(T)]);¦Declaration[Specifiers[Typedef Int] T] Declaration[T FunctionDeclarator[f Parameters[Parameter[Int T] Parameter[Int ArrayDeclarator[a SizeofExpression[Group[T]]]]]]]
typedef int T;struct T{int T;};T x;¦Declaration[Specifiers[Typedef Int] T] Declaration[StructContent[MemberDeclaration[Int T]]] Declaration[T x]
typedef int T;struct S{T T;T*p;};¦Declaration[Specifiers[Typedef Int] T] Declaration[StructContent[MemberDeclaration[T T] MemberDeclaration[T PointerDeclarator[p]]]]
typedef int T;enum T{A};T x;¦Declaration[Specifiers[Typedef Int] T] Declaration[EnumContent[Enumerator]] Declaration[T x]
typedef int T;T T;¦Declaration[Specifiers[Typedef Int] T] Declaration[T T]
typedef int T;int x=(T)-1,T=(T)-1;¦Declaration[Specifiers[Typedef Int] T] Declaration[Int InitDeclarator[x Cast[T Minus[1]]] InitDeclarator[T Subtract[Group[T] 1]]]
-- the same in blocks, behind "typedef int T;void f(int a)"
{T x;T;}¦Compound[Declaration[T x] Declaration[T]]
{T*p;}¦Compound[Declaration[T PointerDeclarator[p]]]
{T T;T=1;}¦Compound[Declaration[T T] ExpressionStatement[Assign[T 1]]]
{T(x);a=x;}¦Compound[Declaration[T GroupDeclarator[x]] ExpressionStatement[Assign[a x]]]
{int T;T(a);}¦Compound[Declaration[Int T] ExpressionStatement[Call[a]]]
{{int T;T*a;}T*a;}¦Compound[Compound[Declaration[Int T] ExpressionStatement[Multiply[T a]]] Declaration[T PointerDeclarator[a]]]
{int T=sizeof(T);}¦Compound[Declaration[Int InitDeclarator[T SizeofExpression[Group[T]]]]]
{enum{T};T;}¦Compound[Declaration[EnumContent[Enumerator]] ExpressionStatement[T]]
{a=sizeof(enum{T});T;}¦Compound[ExpressionStatement[Assign[a SizeofType[EnumContent[Enumerator]]]] ExpressionStatement[T]]
{if(sizeof(enum{T}))T;T x;}¦Compound[If[SizeofType[EnumContent[Enumerator]] ExpressionStatement[T]] Declaration[T x]]
{for(T x;;)x;}¦Compound[For[Declaration[T x] ExpressionStatement[x]]]
{for(int T;T;T)T;T x;}¦Compound[For[Declaration[Int T] T T ExpressionStatement[T]] Declaration[T x]]
{a=(T)a;a=sizeof(T);}¦Compound[ExpressionStatement[Assign[a Cast[T a]]] ExpressionStatement[Assign[a SizeofType[T]]]]
{int g(int T);T x;}¦Compound[Declaration[Int FunctionDeclarator[g Parameter[Int T]]] Declaration[T x]]
-- statements
{if(a)a;}¦Compound[If[a ExpressionStatement[a]]]
{if(a)if(a)1;else 2;}¦Compound[If[a If[a ExpressionStatement[1] ExpressionStatement[2]]]]
{if(a){if(a)1;}else 2;}¦Compound[If[a Compound[If[a ExpressionStatement[1]]] ExpressionStatement[2]]]
{if(a)1;else if(a)2;else 3;}¦Compound[If[a ExpressionStatement[1] If[a ExpressionStatement[2] ExpressionStatement[3]]]]
{if(a)while(a)if(a)1;else 2;else 3;}¦Compound[If[a While[a If[a ExpressionStatement[1] ExpressionStatement[2]]] ExpressionStatement[3]]]
{switch(a){case 1:case 2:a;break;default:;}}¦Compound[Switch[a Compound[Case[1 Case[2 ExpressionStatement[a]]] Break Default[ExpressionStatement]]]]
{switch(a){case 1?2:3:switch(a){case 2:;}}}¦Compound[Switch[a Compound[Case[Conditional[1 2 3] Switch[a Compound[Case[2 ExpressionStatement]]]]]]]
{do a++;while(a);}¦Compound[Do[ExpressionStatement[PostIncrement[a]] a]]
{for(;;);}¦Compound[For[ExpressionStatement]]
{for(;a;);}¦Compound[For[a ExpressionStatement]]
{for(a;;a)continue;}¦Compound[For[a a Continue]]
{for(int i=0;i<3;i++){}}¦Compound[For[Declaration[Int InitDeclarator[i 0]] Less[i 3] PostIncrement[i] Compound]]
{{}{}}¦Compound[Compound Compound]
{return a,a;}¦Compound[Return[Comma[a a]]]
-- labels and jumps
int main(){L:;}¦FunctionDefinition[Int FunctionDeclarator[main] Compound[Label[ExpressionStatement]]]
int main(){goto L;L:;}¦FunctionDefinition[Int FunctionDeclarator[main] Compound[Goto Label[ExpressionStatement]]]
{a:T:a=1;goto T;T x;}¦Compound[Label[Label[ExpressionStatement[Assign[a 1]]]] Goto Declaration[T x]]
{if(a){b:T:{T x;}}}¦Compound[If[a Compound[Label[Label[Compound[Declaration[T x]]]]]]]
{switch(a){b:case 1:T:default:c:if(a)goto b;}}¦Compound[Switch[a Compound[Label[Case[1 Label[Default[Label[If[a Goto]]]]]]]]]
{if(a)1;else{b:if(a)2;else 3;}}¦Compound[If[a ExpressionStatement[1] Compound[Label[If[a ExpressionStatement[2] ExpressionStatement[3]]]]]]
{a?b:c;b:c?a:a;}¦Compound[ExpressionStatement[Conditional[a b c]] Label[ExpressionStatement[Conditional[c a a]]]]
"#;

// Texts that are refused; those that begin with a brace stand behind "typedef int T;void f(int a)", which are ten tokens.
const FAULTS: &str = r#"
¦Ended
int¦Ended
int x¦Ended
int x=¦Ended
int f(¦Ended
int f(){¦Ended
int f(){}int¦Ended
typedef int T;T¦Ended
;¦Unexpected(0)
x;¦Unexpected(0)
int x;}¦Unexpected(3)
int x y;¦Unexpected(2)
int x,;¦Unexpected(3)
int x=;¦Unexpected(3)
int x={};¦Unexpected(4)
int x={1,,};¦Unexpected(6)
int x={1 2};¦Unexpected(5)
int x,y{}¦Unexpected(4)
int x=1{}¦Unexpected(4)
int f(){return}¦Unexpected(6)
int f(int a,){}¦Unexpected(6)
int f(void)int x;¦Unexpected(5)
int T;T x;¦Unexpected(3)
typedef int T;int T;T x;¦Unexpected(7)
typedef int T;enum{T};T x;¦Unexpected(9)
typedef int T;T f(T T,T b);¦Unexpected(10)
{int x}¦Unexpected(13)
{a}¦Unexpected(12)
{return T;}¦Unexpected(12)
{a*T;}¦Unexpected(13)
{T(x);a=T(x);}¦Unexpected(18)
{if a;}¦Unexpected(12)
{if(T x)a;}¦Unexpected(13)
{if(a)T x;}¦Unexpected(16)
{else;}¦Unexpected(11)
{if(a);else;else;}¦Unexpected(18)
{do;while(a)}¦Unexpected(17)
{do;a;}¦Unexpected(13)
{for(;)}¦Unexpected(14)
{for(;;;);}¦Unexpected(15)
{for(T x;;)x;x;T y;x}¦Unexpected(26)
{break}¦Unexpected(12)
{switch(a){case 1:T x;}}¦Unexpected(20)
{switch(a){case 1:}}¦Unexpected(19)
{switch(a)}¦Unexpected(15)
-- labels and jumps: a typedef name begins a statement too, as a label
a goto¦Unexpected(0)
{a goto b;}¦Unexpected(12)
{goto 1;}¦Unexpected(12)
{goto a}¦Unexpected(13)
{a:}¦Unexpected(13)
{a:T x;}¦Unexpected(14)
{T:int x;}¦Unexpected(13)
{if(a)T;}¦Unexpected(16)
{if(a)T float;¦OutsideSubset(16, 1)
{if(a)T¦Ended
{a:¦Ended
-- unused keywords
float x;¦OutsideSubset(0, 1)
int x;double¦OutsideSubset(3, 1)
int restrict x;¦OutsideSubset(1, 1)
{a float¦OutsideSubset(12, 1)
int x=float¦OutsideSubset(3, 1)
-- designators, compound literals, calls of what is no identifier, bit-fields
int a[]={[0]=1};¦OutsideSubset(6, 2)
int a={1,.b=2};¦OutsideSubset(6, 2)
int a=.b;¦OutsideSubset(3, 2)
int a=(int){1};¦OutsideSubset(6, 3)
int a=f()();¦OutsideSubset(6, 4)
struct s{int a:3;};¦OutsideSubset(5, 5)
-- labels, bodies of switches
{case 1:;}¦OutsideSubset(11, 6)
{default:;}¦OutsideSubset(11, 6)
{switch(a){{case 1:;}}}¦OutsideSubset(17, 6)
{switch(a){if(a)case 1:;}}¦OutsideSubset(20, 6)
{switch(a){case 1:{case 2:;}}}¦OutsideSubset(20, 6)
{switch(a)case 1:;}¦OutsideSubset(15, 6)
{switch(a)a;}¦OutsideSubset(15, 7)
{switch(a);}¦OutsideSubset(15, 7)
{switch(a)if(a){}}¦OutsideSubset(15, 7)
{switch(a)T x;}¦OutsideSubset(15, 7)
{switch(a)T:;}¦OutsideSubset(15, 7)
{switch(a)goto b;}¦OutsideSubset(15, 7)
int main(){if(1)L:;}¦OutsideSubset(9, 9)
{if(a)T:;}¦OutsideSubset(15, 9)
{do b:;while(a);}¦OutsideSubset(12, 9)
{a:if(a);else b:;}¦OutsideSubset(19, 9)
{switch(a){case 1:if(a)b:;}}¦OutsideSubset(23, 9)
{switch(a){if(a)b:case 1:;}}¦OutsideSubset(20, 9)
{a:case 1:;}¦OutsideSubset(13, 6)
-- functions with `...`
int f(int a,...){}¦OutsideSubset(6, 8)
int(f)(int,...){}¦OutsideSubset(7, 8)
int*f(int,...){¦OutsideSubset(6, 8)
int(*f(int,...))(int){}¦OutsideSubset(7, 8)
int f(int,...)}¦Unexpected(7)
int f(int,...)=[¦OutsideSubset(8, 2)
typedef int T;T f(int T,...){¦OutsideSubset(10, 8)
"#;

// p.c: every alternative that its program needs.
const PROGRAM: &str =
    "# 1 \"p.c\"\ntypedef int T;\nextern int printf(const char *, ...);\nenum color { RED, GREEN = 5, BLUE };\nstruct pair { T left; T right; };\nstatic struct pair table[2] = { { 1, 2 }, { 3, 4 } };\nstatic T sum(struct pair *p, int n)\n{\n  T s = 0;\n  int i;\n  for (i = 0; i < n; i++)\n    s += p[i].left * p[i].right;\n  return s;\n}\nint main(void)\n{\n  long T = BLUE;\n  printf(\"%d %ld\\n\", sum(table, 2), T);\n  return 0;\n}\n";

// What stands before a block.
const HEAD: &str = "typedef int T;void f(int a)";

// The tree of a block behind its head.
fn whole_tree(alloc: Global, text: &str, tree: &str) -> Result<String, AllocError> {
    if !is_block(text) {
        return String::from_str(alloc, tree);
    }
    format!(in alloc;
        "Declaration[Specifiers[Typedef Int] T] FunctionDefinition[Void FunctionDeclarator[f Parameter[Int a]] {tree}]"
    )
}

fn whole(alloc: Global, text: &str) -> Result<String, AllocError> {
    let head = if is_block(text) { HEAD } else { "" };
    format!(in alloc; "{head}{text}")
}

fn is_block(text: &str) -> bool {
    text.as_bytes().first() == Some(&b'{')
}

fn tree_of_row(alloc: Global, text: &str) -> Result<String, Fail> {
    let file = whole(alloc, text)?;
    tree_of(alloc, file.as_str())
}

fn expect_tree(rt: &impl Abort, alloc: Global, row: &str) -> Result<(), Fail> {
    let (text, tree) = pair(row);
    let found = tree_of_row(alloc, text)?;
    let wanted = whole_tree(alloc, text, tree)?;
    expect(rt, found.as_str(), wanted.as_str(), row);
    Ok(())
}

#[test]
fn units_have_their_trees(rt: HostRuntime) -> Result<(), Fail> {
    let trees = rows(rt.alloc(), TREES)?;
    assert!(rt; trees.len() == 73, "{} and not 73", trees.len());
    for row in trees {
        expect_tree(&rt, rt.alloc(), row)?;
    }
    Ok(())
}

fn expect_fault(
    rt: &impl Abort,
    alloc: Global,
    file: &str,
    wanted: &str,
    row: &str,
) -> Result<(), Fail> {
    let found = fault_of(alloc, file)?;
    expect(rt, found.as_str(), wanted, row);
    Ok(())
}

fn expect_refused(rt: &impl Abort, alloc: Global, row: &str) -> Result<(), Fail> {
    let (text, wanted) = pair(row);
    let file = whole(alloc, text)?;
    expect_fault(rt, alloc, file.as_str(), wanted, row)
}

#[test]
fn refusals_name_kind_and_token(rt: HostRuntime) -> Result<(), Fail> {
    let faults = rows(rt.alloc(), FAULTS)?;
    assert!(rt; faults.len() == 93, "{} and not 93", faults.len());
    for row in faults {
        expect_refused(&rt, rt.alloc(), row)?;
    }
    Ok(())
}

// The bytes up to the end of each of its external declarations.
const ENDS: [usize; 7] = [24, 62, 99, 133, 187, 318, 406];

fn is_unit(alloc: Global, text: &str) -> Result<bool, Fail> {
    match read(alloc, text.as_bytes()) {
        Ok(_) => Ok(parsed(alloc, text)?.is_ok()),
        Err(_) => Ok(false),
    }
}

#[test]
fn a_program_and_its_prefixes(rt: HostRuntime) -> Result<(), Fail> {
    assert!(rt; PROGRAM.len() == 407, "{} and not 407", PROGRAM.len());
    for end in 0..408 {
        let is_unit = is_unit(rt.alloc(), PROGRAM.get(0..end).unwrap_or(""))?;
        // an external declaration ends there, or one byte before
        let ends = ENDS.contains(&end) || (end > 0 && ENDS.contains(&(end - 1)));
        assert!(rt; is_unit == ends, "{end}");
    }
    Ok(())
}

// How many levels fit, what stands before them, what opens one each time, what stands in them, and what closes one.
const NESTS: &str = r#"
128¦void f()¦{¦¦}
127¦void f(){¦if(1)¦;¦
127¦void f(){¦if(1);else ¦;¦
127¦void f(){¦while(1)¦;¦
127¦void f(){¦for(;;)¦;¦
127¦void f(){¦do ¦;¦while(1);
127¦void f(){¦a:¦;¦
125¦void f(){switch(1){¦case 1:¦;¦
125¦void f(){switch(1){¦default:¦;¦
128¦int a=¦{¦1¦}
128¦int ¦*¦a¦
"#;

fn number(cell: &str) -> Result<usize, Fail> {
    Ok(cell.parse::<usize>().ok().ok_or("no number")?)
}

// What is found of a row's nest with so many levels more.
fn nest_fault(alloc: Global, row: &str, more: usize) -> Result<String, Fail> {
    let (most, before, rest) = triple(row);
    let (open, inner, close) = triple(rest);
    let count = number(most)?.saturating_add(more);
    let text = nested(alloc, before, open, count, inner, close, end_of(before))?;
    fault_of(alloc, text.as_str())
}

fn expect_fits(rt: &impl Abort, alloc: Global, row: &str) -> Result<(), Fail> {
    let found = nest_fault(alloc, row, 0)?;
    expect(rt, found.as_str(), "none", row);
    Ok(())
}

fn expect_too_deep(rt: &impl Abort, alloc: Global, row: &str) -> Result<(), Fail> {
    let found = nest_fault(alloc, row, 1)?;
    assert!(rt; found.as_str().starts_with("TooDeep("), "{row}: {found}");
    Ok(())
}

#[test]
fn levels_are_counted_to_128(rt: HostRuntime) -> Result<(), Fail> {
    let nests = rows(rt.alloc(), NESTS)?;
    assert!(rt; nests.len() == 11, "{} and not 11", nests.len());
    for row in nests {
        expect_fits(&rt, rt.alloc(), row)?;
        expect_too_deep(&rt, rt.alloc(), row)?;
    }
    Ok(())
}

// How often a level is opened, what stands before, what opens it, what stands at the limit, and how that is refused.
const LIMITS: &str = r#"
127¦void f(){¦a:¦b:;¦TooDeep(260)
127¦void f(){¦if(1)¦b:;¦OutsideSubset(513, 9)
126¦void f(){¦if(1)¦switch(1)b:;¦OutsideSubset(513, 7)
126¦void f(){¦if(1)¦switch(1)(b);¦TooDeep(513)
126¦void f(){¦if(1)¦switch(1)-1;¦TooDeep(513)
126¦void f(){¦if(1)¦switch(1)do;while(1);¦TooDeep(513)
125¦void f(){¦if(1)¦switch(1)-1;¦OutsideSubset(509, 7)
"#;

fn expect_limit(rt: &impl Abort, alloc: Global, row: &str) -> Result<(), Fail> {
    let (count, before, rest) = triple(row);
    let (open, inner, wanted) = triple(rest);
    let text = nested(alloc, before, open, number(count)?, inner, "", "}")?;
    expect_fault(rt, alloc, text.as_str(), wanted, row)
}

#[test]
fn at_one_token_too_deep_comes_first(rt: HostRuntime) -> Result<(), Fail> {
    let limits = rows(rt.alloc(), LIMITS)?;
    assert!(rt; limits.len() == 7, "{} and not 7", limits.len());
    for row in limits {
        expect_limit(&rt, rt.alloc(), row)?;
    }
    Ok(())
}

fn end_of(before: &str) -> &str {
    match before.as_bytes().last() {
        Some(b'{') => { if before.len() > 9 { "}}" } else { "}" } }
        Some(b')') => "",
        _ => ";",
    }
}

// Rows that may be long, and what stands before and behind.
const CHAINS: &str = r#"
¦int a;¦
int a¦,a¦;
int a={1¦,1¦};
void f(){¦int a;¦}
void f(){¦{}¦}
"#;

fn expect_chain(rt: &impl Abort, alloc: Global, row: &str) -> Result<(), Fail> {
    let (before, link, behind) = triple(row);
    let text = nested(alloc, before, link, 3000, "", "", behind)?;
    expect_fault(rt, alloc, text.as_str(), "none", row)
}

#[test]
fn rows_cost_no_levels(rt: HostRuntime) -> Result<(), Fail> {
    let chains = rows(rt.alloc(), CHAINS)?;
    assert!(rt; chains.len() == 5, "{} and not 5", chains.len());
    for row in chains {
        expect_chain(&rt, rt.alloc(), row)?;
    }
    Ok(())
}

// The tree of a text, or why there is none.
fn tree_of(alloc: Global, text: &str) -> Result<String, Fail> {
    match parsed(alloc, text)? {
        Ok(unit) => Ok(shown_unit(alloc, text, &unit)?),
        Err(fault) => Ok(fault_text(alloc, Some(fault))?),
    }
}

// Why a text is refused, in words.
fn fault_of(alloc: Global, text: &str) -> Result<String, Fail> {
    Ok(fault_text(alloc, parsed(alloc, text)?.err())?)
}

// The unit of a text.
fn parsed(alloc: Global, text: &str) -> Result<Result<Unit, ParseFault>, Fail> {
    let tokens = read(alloc, text.as_bytes())?;
    if !are_spans(text.as_bytes(), tokens.list.as_slice()) {
        return Ok(Err(NoMemory));
    }
    Ok(parse(alloc, text.as_bytes(), &tokens))
}

// The items of a unit in words.
fn shown_unit(alloc: Global, text: &str, unit: &Unit) -> Result<String, AllocError> {
    shown(
        alloc,
        text,
        &unit.tokens,
        unit.nodes.as_slice(),
        unit.items.as_slice(),
        Names::BySpelling,
    )
}
