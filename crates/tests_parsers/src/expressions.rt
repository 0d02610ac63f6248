use crate::are_spans;
use crate::texts::{Names, expect, fault_text, nested, pair, rows, shown, triple};
use cr_exprs::Goal::{Assignment, Conditional, Expression};
use cr_exprs::ParseFault::TooDeep;
use cr_exprs::{Goal, ParseFault, TypeNames, expression};
use cr_rows::Row;
use cr_syntax::{Node, TypeName};
use cr_tokens::{Tokens, read};
use std::alloc::{AllocError, Global};
use std::process::Abort;
use std::test::Fail;

// Expressions, the number of the token after them, and their trees as `shown` writes them, with names by their kinds. `T` and `V` are types,
// but an inner scope makes `V` an object. Worked out by hand from C11 6.5 and 6.7 and the definitions in crates/cr_exprs/README.md.
const TREES: &str = r#"
a¦1¦a
a goto¦1¦a
1¦1¦1
'x'¦1¦'x'
"s"¦1¦"s"
"s" "t" "u"¦3¦"s" "t" "u"
(a)¦3¦Group[a]
-- the ten levels of binary operators
a+b¦3¦Add[a b]
a+b*c¦5¦Add[a Multiply[b c]]
a*b+c¦5¦Add[Multiply[a b] c]
a-b-c¦5¦Subtract[Subtract[a b] c]
a-(b-c)¦7¦Subtract[a Group[Subtract[b c]]]
a/b%c¦5¦Remainder[Divide[a b] c]
a<<b>>c¦5¦ShiftRight[ShiftLeft[a b] c]
a<b>c<=d>=e¦9¦GreaterEqual[LessEqual[Greater[Less[a b] c] d] e]
a==b!=c¦5¦NotEqual[Equal[a b] c]
a&b^c|d¦7¦Or[Xor[And[a b] c] d]
a|b^c&d¦7¦Or[a Xor[b And[c d]]]
a&&b||c&&d¦7¦LogicalOr[LogicalAnd[a b] LogicalAnd[c d]]
a||b||c¦5¦LogicalOr[LogicalOr[a b] c]
a<<b+c¦5¦ShiftLeft[a Add[b c]]
a&b==c¦5¦And[a Equal[b c]]
a<b<<c¦5¦Less[a ShiftLeft[b c]]
-- conditionals, assignments, commas
a?b:c¦5¦Conditional[a b c]
a?b:c?d:e¦9¦Conditional[a b Conditional[c d e]]
a?b?c:d:e¦9¦Conditional[a Conditional[b c d] e]
a?b,c:d¦7¦Conditional[a Comma[b c] d]
a||b?c:d¦7¦Conditional[LogicalOr[a b] c d]
a=b¦3¦Assign[a b]
a=b=c¦5¦Assign[a Assign[b c]]
a+=b-=c¦5¦AddAssign[a SubtractAssign[b c]]
a*=b/=c%=d¦7¦MultiplyAssign[a DivideAssign[b RemainderAssign[c d]]]
a<<=b>>=c¦5¦ShiftLeftAssign[a ShiftRightAssign[b c]]
a&=b^=c|=d¦7¦AndAssign[a XorAssign[b OrAssign[c d]]]
a=b?c:d¦7¦Assign[a Conditional[b c d]]
a,b,c¦5¦Comma[Comma[a b] c]
a=b,c=d¦7¦Comma[Assign[a b] Assign[c d]]
-- unary and postfix expressions
-a¦2¦Minus[a]
- -a¦3¦Minus[Minus[a]]
!~+a¦4¦Not[Complement[Plus[a]]]
&*p¦3¦AddressOf[Dereference[p]]
++--a¦3¦PreIncrement[PreDecrement[a]]
-a++¦3¦Minus[PostIncrement[a]]
*p++¦3¦Dereference[PostIncrement[p]]
a++--¦3¦PostDecrement[PostIncrement[a]]
*p=1¦4¦Assign[Dereference[p] 1]
a[1]¦4¦Subscript[a 1]
a[1][2]¦7¦Subscript[Subscript[a 1] 2]
a[b,c]¦6¦Subscript[a Comma[b c]]
s.m¦3¦Member[s]
s.T¦3¦Member[s]
p->m.n¦5¦Member[PointerMember[p]]
f()¦3¦Call
f(a)¦4¦Call[a]
f(a,b=c)¦8¦Call[a Assign[b c]]
f(a)[1]->m++¦10¦PostIncrement[PointerMember[Subscript[Call[a] 1]]]
f((a,b))¦8¦Call[Group[Comma[a b]]]
f(g(a),b)¦9¦Call[Call[a] b]
-- casts and `sizeof`
(T)a¦4¦Cast[TypedefName a]
(int)-a¦5¦Cast[Int Minus[a]]
(T)(a)¦6¦Cast[TypedefName Group[a]]
(T)(int)a¦7¦Cast[TypedefName Cast[Int a]]
(V)+a¦5¦Add[Group[V] a]
(T)+a¦5¦Cast[TypedefName Plus[a]]
(T)a*b¦6¦Multiply[Cast[TypedefName a] b]
(const)a¦4¦Cast[Const a]
(T*)p¦5¦Cast[TypeName[TypedefName AbstractPointer] p]
(char*volatile const*)p¦8¦Cast[TypeName[Char AbstractPointer[AbstractPointer]] p]
(const char*const*)p¦8¦Cast[TypeName[PlainSpecifiers[Const Char] AbstractPointer[AbstractPointer]] p]
(int(*)[3])p¦10¦Cast[TypeName[Int AbstractArrayOf[AbstractGroup[AbstractPointer] 3]] p]
sizeof a¦2¦SizeofExpression[a]
sizeof(a)¦4¦SizeofExpression[Group[a]]
sizeof(T)¦4¦SizeofType[TypedefName]
sizeof(int[3])¦7¦SizeofType[TypeName[Int AbstractArray[3]]]
sizeof(int[])¦6¦SizeofType[TypeName[Int AbstractArray]]
sizeof(int[2][3])¦10¦SizeofType[TypeName[Int AbstractArrayOf[AbstractArray[2] 3]]]
sizeof(unsigned long)*2¦7¦Multiply[SizeofType[PlainSpecifiers[Unsigned Long]] 2]
sizeof(T)-1¦6¦Subtract[SizeofType[TypedefName] 1]
sizeof(T){¦4¦SizeofType[TypedefName]
sizeof(a)[0]¦7¦SizeofExpression[Subscript[Group[a] 0]]
sizeof sizeof a¦3¦SizeofExpression[SizeofExpression[a]]
sizeof(struct S)¦5¦SizeofType[StructTag]
sizeof(struct S{int x;T y,*z;})¦16¦SizeofType[StructContent[MemberDeclaration[Int NameDeclarator] MemberDeclaration[TypedefName NameDeclarator PointerDeclarator[NameDeclarator]]]]
sizeof(struct{int T;})¦9¦SizeofType[StructContent[MemberDeclaration[Int NameDeclarator]]]
sizeof(enum E)¦5¦SizeofType[EnumTag]
sizeof(enum{A,B=1,C,})¦14¦SizeofType[EnumContent[Enumerator Enumerator[1] Enumerator]]
sizeof(enum{T})+T¦9¦Add[SizeofType[EnumContent[Enumerator]] T]
sizeof(struct{int(*f)(T,int x,...);})¦20¦SizeofType[StructContent[MemberDeclaration[Int FunctionDeclarator[GroupDeclarator[PointerDeclarator[NameDeclarator]] VariadicParameters[TypedefName Parameter[Int NameDeclarator]]]]]]
sizeof(struct{int f(void);})¦12¦SizeofType[StructContent[MemberDeclaration[Int FunctionDeclarator[NameDeclarator VoidParameters]]]]
sizeof(struct{int f();})¦11¦SizeofType[StructContent[MemberDeclaration[Int FunctionDeclarator[NameDeclarator]]]]
sizeof(struct{int f(int*,int[2],T(*)[3]);})¦26¦SizeofType[StructContent[MemberDeclaration[Int FunctionDeclarator[NameDeclarator Parameters[Parameter[Int AbstractPointer] Parameter[Int AbstractArray[2]] Parameter[TypedefName AbstractArrayOf[AbstractGroup[AbstractPointer] 3]]]]]]]
sizeof(struct{int a[2],b[];})¦16¦SizeofType[StructContent[MemberDeclaration[Int ArrayDeclarator[NameDeclarator 2] ArrayDeclarator[NameDeclarator]]]]
-- what follows a run
a b¦1¦a
a)¦1¦a
a+b;¦3¦Add[a b]
a+b=c¦3¦Add[a b]
a=b+c=d¦5¦Assign[a Add[b c]]
a?b:c=d¦5¦Conditional[a b c]
(a)=b¦5¦Assign[Group[a] b]
(T)a=b¦4¦Cast[TypedefName a]
"#;

// Texts that are refused, where so many levels are open, and why.
const FAULTS: &str = r#"
¦0¦Ended
a+¦0¦Ended
(a¦0¦Ended
a[¦0¦Ended
a.¦0¦Ended
a?b¦0¦Ended
f(a¦0¦Ended
(T)¦0¦Ended
sizeof¦0¦Ended
sizeof(struct{int f(void¦0¦Ended
(a]¦0¦Unexpected(2)
+)¦0¦Unexpected(1)
a+)¦0¦Unexpected(2)
a[]¦0¦Unexpected(2)
a.(¦0¦Unexpected(2)
a.int¦0¦Unexpected(2)
a->1¦0¦Unexpected(2)
a?b;¦0¦Unexpected(3)
a?:b¦0¦Unexpected(2)
f(a,)¦0¦Unexpected(4)
f(,a)¦0¦Unexpected(2)
f(a;b)¦0¦Unexpected(3)
a,,b¦0¦Unexpected(2)
if¦0¦Unexpected(0)
{¦0¦Unexpected(0)
T¦0¦Unexpected(0)
a+T¦0¦Unexpected(2)
T(a)¦0¦Unexpected(0)
(T);¦0¦Unexpected(3)
(int a)b¦0¦Unexpected(2)
(T T)a¦0¦Unexpected(2)
(T V)a¦0¦Unexpected(2)
(struct)a¦0¦Unexpected(2)
(static int)a¦0¦Unexpected(1)
sizeof(struct{})¦0¦Unexpected(4)
sizeof(struct{int;})¦0¦Unexpected(5)
sizeof(struct{int a})¦0¦Unexpected(6)
sizeof(enum{})¦0¦Unexpected(4)
sizeof(enum{1})¦0¦Unexpected(4)
sizeof(enum{A B})¦0¦Unexpected(5)
sizeof(enum{A,,})¦0¦Unexpected(6)
sizeof(int[)¦0¦Unexpected(4)
sizeof(int*a)¦0¦Unexpected(4)
sizeof(int(int))¦0¦Unexpected(4)
sizeof(int(*)(int))¦0¦Unexpected(6)
sizeof(struct{int f(int,);})¦0¦Unexpected(9)
sizeof(struct{int f(...);})¦0¦Unexpected(7)
sizeof(struct{int f(void,void}¦0¦Unexpected(10)
-- a call of what is no identifier
1(a)¦0¦OutsideSubset(1, 4)
f(a)(b)¦0¦OutsideSubset(4, 4)
(a)(b)¦0¦OutsideSubset(3, 4)
(V)(a)¦0¦OutsideSubset(3, 4)
a[1](b)¦0¦OutsideSubset(4, 4)
p->f(a)¦0¦OutsideSubset(3, 4)
a++(b)¦0¦OutsideSubset(2, 4)
"s"(a)¦0¦OutsideSubset(1, 4)
-- compound literals, bit-fields, unused keywords
(T){1}¦0¦OutsideSubset(3, 3)
(int){1}¦0¦OutsideSubset(3, 3)
sizeof(struct{int a:3;})¦0¦OutsideSubset(6, 5)
float¦0¦OutsideSubset(0, 1)
a+double¦0¦OutsideSubset(2, 1)
a _Alignof¦0¦OutsideSubset(1, 1)
(float)a¦0¦OutsideSubset(1, 1)
(int restrict)a¦0¦OutsideSubset(2, 1)
sizeof(union U)¦0¦OutsideSubset(2, 1)
-- 128 levels are open already, or nearly
(a)¦128¦TooDeep(0)
a=b¦128¦TooDeep(1)
a?b:c¦128¦TooDeep(1)
a[1]¦128¦TooDeep(1)
f(a)¦128¦TooDeep(1)
1(a)¦128¦TooDeep(1)
1(a)¦127¦OutsideSubset(1, 4)
a+{¦128¦TooDeep(2)
(T)-a¦127¦TooDeep(3)
(T){¦127¦TooDeep(3)
sizeof(a)¦127¦TooDeep(1)
"#;

// The token after a text's expression, and its tree.
fn tree_of(alloc: Global, text: &str) -> Result<String, Fail> {
    let outcome = read_text(alloc, text, 0, Expression)?;
    outcome_shown(alloc, text, &outcome)
}

fn expect_tree(rt: &impl Abort, alloc: Global, row: &str) -> Result<(), Fail> {
    let (text, wanted) = pair(row);
    let found = tree_of(alloc, text)?;
    expect(rt, found.as_str(), wanted, row);
    Ok(())
}

#[test]
fn expressions_have_their_trees(rt: HostRuntime) -> Result<(), Fail> {
    let trees = rows(rt.alloc(), TREES)?;
    assert!(rt; trees.len() == 100, "{} and not 100", trees.len());
    for row in trees {
        expect_tree(&rt, rt.alloc(), row)?;
    }
    Ok(())
}

fn expect_fault(rt: &impl Abort, alloc: Global, row: &str) -> Result<(), Fail> {
    let (text, depth, wanted) = triple(row);
    let depth = depth.parse::<u32>().ok().ok_or("no depth")?;
    let fault = read_text(alloc, text, depth, Expression)?.found.err();
    let found = fault_text(alloc, fault)?;
    expect(rt, found.as_str(), wanted, row);
    Ok(())
}

#[test]
fn refusals_name_kind_and_token(rt: HostRuntime) -> Result<(), Fail> {
    let faults = rows(rt.alloc(), FAULTS)?;
    assert!(rt; faults.len() == 76, "{} and not 76", faults.len());
    for row in faults {
        expect_fault(&rt, rt.alloc(), row)?;
    }
    Ok(())
}

fn expect_after(
    rt: &impl Abort,
    alloc: Global,
    text: &str,
    goal: Goal,
    next: u32,
) -> Result<(), Fail> {
    let after = after(&read_text(alloc, text, 0, goal)?);
    assert!(rt; after == next, "{text}: {after} and not {next}");
    Ok(())
}

#[test]
fn other_goals_end_earlier(rt: HostRuntime) -> Result<(), Fail> {
    let rows = [
        ("a=b,c", Assignment, 3u32),
        ("a=b,c", Conditional, 1),
        ("a?b:c,d", Conditional, 5),
    ];
    for (text, goal, next) in &rows {
        expect_after(&rt, rt.alloc(), text, *goal, *next)?;
    }
    Ok(())
}

// Openers, each with what closes it, or ends its operand.
const NESTS: [(&str, &str); 6] = [
    ("(", ")"),
    ("- ", " "),
    ("a[", "]"),
    ("a=", " "),
    ("a?", ":b"),
    ("(T)", " "),
];

// What is found of so many levels.
fn nest_found(
    alloc: Global,
    open: &str,
    count: usize,
    close: &str,
) -> Result<Result<(u32, u32), ParseFault>, Fail> {
    let nest = nested(alloc, "", open, count, "a", close, "")?;
    Ok(read_text(alloc, nest.as_str(), 0, Expression)?.found)
}

fn expect_levels(rt: &impl Abort, alloc: Global, open: &str, close: &str) -> Result<(), Fail> {
    let fits = nest_found(alloc, open, 128, close)?;
    assert!(rt; fits.is_ok(), "{open}");
    let deep = nest_found(alloc, open, 129, close)?;
    assert!(rt; matches!(deep, Err(TooDeep(_))), "{open}");
    Ok(())
}

#[test]
fn levels_are_counted_to_128(rt: HostRuntime) -> Result<(), Fail> {
    for (open, close) in &NESTS {
        expect_levels(&rt, rt.alloc(), open, close)?;
    }
    Ok(())
}

const LINKS: [(&str, bool); 5] = [
    ("+1", true),
    (",1", true),
    ("[1]", false),
    ("++", true),
    (".m", true),
];

fn expect_chain(rt: &impl Abort, alloc: Global, link: &str, fits: bool) -> Result<(), Fail> {
    let chain = nested(alloc, "a", link, 2000, "", "", "")?;
    let found = read_text(alloc, chain.as_str(), 128, Expression)?.found;
    assert!(rt; found.is_ok() == fits, "{link}");
    Ok(())
}

#[test]
fn chains_cost_no_levels(rt: HostRuntime) -> Result<(), Fail> {
    for (link, fits) in &LINKS {
        expect_chain(&rt, rt.alloc(), link, *fits)?;
    }
    Ok(())
}

// What reading a text answers, and the nodes.
#[derive(Drop)]
struct Outcome {
    found: Result<(u32, u32), ParseFault>,
    nodes: Row<Node>,
}

fn after(outcome: &Outcome) -> u32 {
    match outcome.found {
        Ok((_, after)) => after,
        Err(_) => 0,
    }
}

// Reads an expression from a text's first token on.
fn read_text(alloc: Global, text: &str, depth: u32, goal: Goal) -> Result<Outcome, Fail> {
    let names = names(alloc)?;
    let tokens = read(alloc, text.as_bytes())?;
    Ok(read_tokens(alloc, text.as_bytes(), &tokens, depth, goal, &names))
}

fn read_tokens(
    alloc: Global,
    file: &[u8],
    tokens: &Tokens,
    depth: u32,
    goal: Goal,
    names: &TypeNames,
) -> Outcome {
    let mut nodes = Row::new(alloc);
    if depth > 128 || !are_spans(file, tokens.list.as_slice()) {
        return Outcome {
            found: Err(ParseFault::NoMemory),
            nodes,
        };
    }
    let found = expression(alloc, file, tokens, 0, depth, goal, names, &mut nodes);
    Outcome { found, nodes }
}

fn names(alloc: Global) -> Result<TypeNames, AllocError> {
    let mut scopes = Row::new(alloc);
    scopes.push(scope(alloc, "T V", true)?)?;
    scopes.push(scope(alloc, "V", false)?)?;
    Ok(TypeNames { scopes })
}

// A scope whose names are all types, or all none.
fn scope(alloc: Global, names: &str, is_type: bool) -> Result<Row<TypeName>, AllocError> {
    let mut scope = Row::new(alloc);
    for spelling in names.split_whitespace() {
        scope.push(name(alloc, spelling, is_type)?)?;
    }
    Ok(scope)
}

fn name(alloc: Global, spelling: &str, is_type: bool) -> Result<TypeName, AllocError> {
    Ok(TypeName {
        name: Row::from_vec(spelling.as_bytes().to_vec(alloc)?),
        is_type,
    })
}

// The token after the node that was read, and the node in words.
fn outcome_shown(alloc: Global, text: &str, outcome: &Outcome) -> Result<String, Fail> {
    let tokens = read(alloc, text.as_bytes())?;
    let top = match outcome.found {
        Ok((top, _)) => top,
        Err(_) => 0,
    };
    let nodes = outcome.nodes.as_slice();
    let shown = shown(alloc, text, &tokens, nodes, &[top], Names::ByKind)?;
    let after = after(outcome);
    Ok(format!(in alloc; "{after}¦{shown}")?)
}
