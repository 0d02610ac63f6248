// Programs as lists of operations.
use crate::rows::{expect_text, rows, triple};
use cr_cursor::Stop;
use cr_eval::Table;
use cr_exec::run;
use cr_ints::IntKind;
use cr_meaning::{
    Access, Callee, Case, Change, Form, Limits, Line, Op, Operator, Parameter, Relation, Run,
    Target, Work,
};
use cr_memory::{Cell, Element, Guard, Scalar};
use cr_rows::Row;
use cr_sequence::Times;
use std::alloc::{AllocError, Global};
use std::process::Abort;
use std::str::SplitWhitespace;
use std::test::Fail;

const INT: Scalar = Scalar::Int(IntKind::Int);

const TO_INT: Scalar = Scalar::Pointer(0);

const TO_POINTER: Scalar = Scalar::Pointer(1);

// An element of one cell, a char, and what main's second argument points to; the types of objects have no names here.
const ONE: Element = Element { cells: 1, of: 0 };

const CHAR: Element = Element { cells: 1, of: 1 };

const TEXT: Element = Element { cells: 1, of: 12 };

// The steps that may be taken with the look at which the run is to stop, a program, and what its run comes to with the number of looks.
// An operation is its work and behind `|` its operands, by their places in the list. By hand: `while(1);`, with and without a stop;
// `int f(int n){if(n)return f(n-1);return 0;}` for 254 and 255; a pointer into a block that a `goto` left; a loop to 10; `exit(300)`;
// `putchar(65)`; `f(x=1,x)`.
const PROGRAMS: &str = "
1000000 0¦constant 1;expression;while|0 1;block|2;program 3¦Left 1 0, 245 looks
1000000 3¦constant 1;expression;while|0 1;block|2;program 3¦Stopped, 3 looks
9999 0¦int;read 0;read 0;constant 1;subtract|2 3;call 10 0|4;return|5;if|1 6;constant 0;return|8;block|7 9;constant 254;call 10 0|11;return|12;block|13;program 14¦Ended 0 2041 [], 1 looks
9999 0¦int;read 0;read 0;constant 1;subtract|2 3;call 10 0|4;return|5;if|1 6;constant 0;return|8;block|7 9;constant 255;call 10 0|11;return|12;block|13;program 14¦Left 2 5, 1 looks
9999 0¦pointer;int;place 1;address|2;place 0;point|4 3;expression|5;goto 10;block 1|6 7;expression;labelled|9;pointed 0;at|11;return|12;label 10 1 0|8 10 13;program 14¦Undefined 10 11, 1 looks
9999 0¦int;place 0;constant 0;assign|1 2;expression|3;read 0;constant 10;less|5 6;place 0;read 0;constant 1;add|9 10;assign|8 11;expression|12;while|7 13;read 0;return|15;block 0|4 14 16;program 17¦Ended 10 101 [], 1 looks
9999 0¦constant 300;exit|0;expression|1;block|2;program 3¦Ended 44 4 [], 1 looks
9999 0¦constant 65;putchar|0;expression|1;constant 0;return|3;block|2 4;program 5¦Ended 0 6 [65], 1 looks
9999 0¦int;int;int;read 0;return|3;block|4;place 2;constant 1;assign|6 7;read 2;call 5 0 1|8 9;return|10;block 2|11;program 12¦Undefined 12 10, 1 looks
";

// By hand too: `switch(n){case 1: s+=1; default: s+=2; case 2: s+=4; break; case 3: s+=8;}` for 1, 2, 9 and 3; the sum of parts of
// `int a[4]={5,7}; struct{int m; int *p;} t={3};` with `!t.p`; `argc + !argv[0]` of `main`; each conversion of `printf`, whose value
// is returned.
const MORE_PROGRAMS: &str = "
9999 0¦int;place 0;constant 0;assign|1 2;expression|3;constant 1;place 0;constant 1;increase|6 7;expression|8;labelled|9;place 0;constant 2;increase|11 12;expression|13;labelled|14;place 0;constant 4;increase|16 17;expression|18;labelled|19;break;place 0;constant 8;increase|22 23;expression|24;labelled|25;switch 27 1 1:0 2:2 3:4|5 10 15 20 21 26;read 0;return|28;block 0|4 27 29;program 30¦Ended 7 26 [], 1 looks
9999 0¦int;place 0;constant 0;assign|1 2;expression|3;constant 2;place 0;constant 1;increase|6 7;expression|8;labelled|9;place 0;constant 2;increase|11 12;expression|13;labelled|14;place 0;constant 4;increase|16 17;expression|18;labelled|19;break;place 0;constant 8;increase|22 23;expression|24;labelled|25;switch 27 1 1:0 2:2 3:4|5 10 15 20 21 26;read 0;return|28;block 0|4 27 29;program 30¦Ended 4 16 [], 1 looks
9999 0¦int;place 0;constant 0;assign|1 2;expression|3;constant 9;place 0;constant 1;increase|6 7;expression|8;labelled|9;place 0;constant 2;increase|11 12;expression|13;labelled|14;place 0;constant 4;increase|16 17;expression|18;labelled|19;break;place 0;constant 8;increase|22 23;expression|24;labelled|25;switch 27 1 1:0 2:2 3:4|5 10 15 20 21 26;read 0;return|28;block 0|4 27 29;program 30¦Ended 6 21 [], 1 looks
9999 0¦int;place 0;constant 0;assign|1 2;expression|3;constant 3;place 0;constant 1;increase|6 7;expression|8;labelled|9;place 0;constant 2;increase|11 12;expression|13;labelled|14;place 0;constant 4;increase|16 17;expression|18;labelled|19;break;place 0;constant 8;increase|22 23;expression|24;labelled|25;switch 27 1 1:0 2:2 3:4|5 10 15 20 21 26;read 0;return|28;block 0|4 27 29;program 30¦Ended 8 15 [], 1 looks
9999 0¦array;constant 5;constant 7;initialise 0 0 1|1 2;declaration|3;pair;constant 3;initialise 5 0|6;declaration|7;whole 0;constant 1;element|9 10;whole 0;constant 3;element|12 13;add|11 14;place 5;second|16;not|17;add|15 18;place 5;first|20;add|19 21;return|22;block 0 5|4 8 23;program 24¦Ended 11 19 [], 1 looks
9999 0¦int;strings;read 0;vector 1;constant 0;string|3 4;not|5;add|2 6;return|7;block|8;main 9 0 1¦Ended 1 8 [], 1 looks
9999 0¦text %d,%u,%x,%c,%s,%%;constant -7;uint 8;constant 255;constant 66;text ab;printf 0 0 0 0 1|0 1 2 3 4 5;return|6;block|7;program 8 0 5¦Ended 14 9 [45, 55, 44, 56, 44, 102, 102, 44, 66, 44, 97, 98, 44, 37], 1 looks
9999 0¦text %ld,%lu,%lx,%lld,%llu,%llx;long -5000000000;ulong 18446744073709551615;ulong 255;llong -1;ullong 1;ullong 16;printf 0 0 0 0 0 0|0 1 2 3 4 5 6;return|7;block|8;program 9 0¦Ended 43 10 [45, 53, 48, 48, 48, 48, 48, 48, 48, 48, 48, 44, 49, 56, 52, 52, 54, 55, 52, 52, 48, 55, 51, 55, 48, 57, 53, 53, 49, 54, 49, 53, 44, 102, 102, 44, 45, 49, 44, 49, 44, 49, 48], 1 looks
";

// `2147483647+1`; `1/0`; `INT_MIN%-1`; `1<<32`; `1<<31`; `a+5` of `int a[4]`; `&x-&y`; `&x<&y`; `a[4]`; `x` that was never set;
// `"ab"[0]=120`; a `const` written; the value of `f` that ended at its brace; `printf("%d")`. More cells than may live; more output
// than there may be; an `int` read as `unsigned`; `a+4==b`; `printf("%5d",1)`.
const CASES: &str = "
9999 0¦constant 2147483647;constant 1;add|0 1;return|2;block|3;program 4¦Undefined 1 2, 1 looks
9999 0¦constant 1;constant 0;divide|0 1;return|2;block|3;program 4¦Undefined 2 2, 1 looks
9999 0¦constant -2147483648;constant -1;remainder|0 1;return|2;block|3;program 4¦Undefined 3 2, 1 looks
9999 0¦constant 1;constant 32;left|0 1;return|2;block|3;program 4¦Undefined 4 2, 1 looks
9999 0¦constant 1;constant 31;left|0 1;return|2;block|3;program 4¦Undefined 5 2, 1 looks
9999 0¦array;whole 0;constant 5;advance|1 2;expression|3;block 0|4;program 5¦Undefined 6 3, 1 looks
9999 0¦int;int;place 0;address|2;place 1;address|4;distance|3 5;return|6;block 0 1|7;program 8¦Undefined 7 6, 1 looks
9999 0¦int;int;place 0;address|2;place 1;address|4;before|3 5;return|6;block 0 1|7;program 8¦Undefined 8 6, 1 looks
9999 0¦array;whole 0;constant 4;element|1 2;return|3;block 0|4;program 5¦Undefined 9 3, 1 looks
9999 0¦int;read 0;return|1;block 0|2;program 3¦Undefined 11 1, 1 looks
9999 0¦text ab;constant 0;index|0 1;constant 120;store|2 3;expression|4;block|5;program 6 0¦Undefined 13 4, 1 looks
9999 0¦const;place 0;constant 2;assign|1 2;expression|3;block 0|4;program 5¦Undefined 14 3, 1 looks
9999 0¦block;call 0;return|1;block|2;program 3¦Undefined 15 2, 1 looks
9999 0¦text %d;printf|0;expression|1;block|2;program 3 0¦Undefined 16 1, 1 looks
9999 0¦many;block 0;program 1¦Left 3 0, 1 looks
9999 0¦constant 65;putchar|0;expression|1;constant 1;while|3 2;block|4;program 5¦Left 4 1, 1 looks
9999 0¦int;place 0;constant 1;assign|1 2;expression|3;unsigned 0;return|5;block 0|4 6;program 7¦Left 5 5, 1 looks
9999 0¦array;array;whole 0;constant 4;advance|2 3;whole 1;equal|4 5;return|6;block 0 1|7;program 8¦Left 6 6, 1 looks
9999 0¦text %5d;constant 1;printf 0|0 1;expression|2;block|3;program 4 0¦Left 7 2, 1 looks
";

// A stop that asks to give up at one of its looks.
#[derive(Drop)]
pub(crate) struct Once {
    pub(crate) looks: u64,
    pub(crate) at: u64,
    pub(crate) raised: bool,
}

impl Stop for Once {
    type Held = ();

    ghost raised = { λ s. s.raised };

    ghost held = { λ _. tt };

    ghost looks = { λ s. s.looks };

    fn stop(&mut self) -> bool {
        self.looks = self.looks.saturating_add(1);
        if self.looks == self.at {
            self.raised = true;
            return true;
        }
        false
    }
}

fn number(words: &mut SplitWhitespace<'_>) -> Option<i128> {
    words.next()?.parse().ok()
}

fn next(words: &mut SplitWhitespace<'_>) -> u32 {
    match words.next() {
        Some(word) => word.parse().unwrap_or(0),
        None => 0,
    }
}

fn numbers(alloc: Global, words: SplitWhitespace<'_>) -> Result<Row<u32>, AllocError> {
    let mut numbers = Vec::new(alloc);
    for word in words {
        numbers.push(word.parse().unwrap_or(0))?;
    }
    Ok(Row::from_vec(numbers))
}

// For each argument whether it is a pointer to char.
fn texts(alloc: Global, words: SplitWhitespace<'_>) -> Result<Row<bool>, AllocError> {
    let mut texts = Vec::new(alloc);
    for word in words {
        texts.push(word == "1")?;
    }
    Ok(Row::from_vec(texts))
}

// The cells at which the initialised parts of an object begin, each an int.
fn lines(alloc: Global, words: SplitWhitespace<'_>) -> Result<Row<Line>, AllocError> {
    let mut lines = Vec::new(alloc);
    for word in words {
        lines.push(Line {
            cell: word.parse().unwrap_or(0),
            form: Form::Number(IntKind::Int),
            user: 0,
        })?;
    }
    Ok(Row::from_vec(lines))
}

// Each constant with its item.
fn cases(alloc: Global, words: SplitWhitespace<'_>) -> Result<Row<Case>, AllocError> {
    let mut cases = Vec::new(alloc);
    for word in words {
        let (constant, item) = word.split_once(':').unwrap_or((word, ""));
        cases.push(Case {
            constant: constant.parse().unwrap_or(0),
            item: item.parse().unwrap_or(0),
        })?;
    }
    Ok(Row::from_vec(cases))
}

fn parameters(alloc: Global, nodes: &Row<u32>) -> Result<Row<Parameter>, AllocError> {
    let mut parameters = Vec::new(alloc);
    for node in nodes.as_slice() {
        parameters.push(Parameter {
            node: *node,
            form: Form::Number(IntKind::Int),
        })?;
    }
    Ok(Row::from_vec(parameters))
}

fn label(alloc: Global, label: u32, item: u32) -> Result<Row<Target>, AllocError> {
    let mut labels = Vec::new(alloc);
    labels.push(Target {
        label,
        item: item as usize,
    })?;
    Ok(Row::from_vec(labels))
}

fn called(alloc: Global, body: u32, nodes: &Row<u32>) -> Result<Work, AllocError> {
    let parameters = parameters(alloc, nodes)?;
    Ok(Work::Call(Callee::Function(parameters, body, false)))
}

fn switch(alloc: Global, mut words: SplitWhitespace<'_>) -> Result<Work, AllocError> {
    let body = next(&mut words);
    let other = Some(next(&mut words) as usize);
    let cases = cases(alloc, words)?;
    Ok(Work::Switch(
        IntKind::Int,
        body,
        Row::new(alloc),
        cases,
        other,
        Row::new(alloc),
    ))
}

fn main_of(alloc: Global, mut words: SplitWhitespace<'_>) -> Result<Work, AllocError> {
    let body = next(&mut words);
    let parameters = parameters(alloc, &numbers(alloc, words)?)?;
    Ok(Work::Program(Row::new(alloc), parameters, TO_INT, body))
}

fn statement(
    alloc: Global,
    name: &str,
    mut words: SplitWhitespace<'_>,
) -> Result<Work, AllocError> {
    Ok(match name {
        "expression" => Work::Expression,
        "if" => Work::If,
        "while" => Work::While,
        "labelled" => Work::Labelled,
        "break" => Work::Break,
        "switch" => switch(alloc, words)?,
        "return" => Work::Return(Form::Number(IntKind::Int)),
        "goto" => Work::Goto(next(&mut words)),
        "block" => Work::Block(numbers(alloc, words)?, Row::new(alloc)),
        "label" => {
            let node = next(&mut words);
            let labels = label(alloc, node, next(&mut words))?;
            Work::Block(numbers(alloc, words)?, labels)
        }
        "initialise" => {
            let declared = next(&mut words);
            Work::Initialise(declared, lines(alloc, words)?)
        }
        "main" => main_of(alloc, words)?,
        "program" => {
            let body = next(&mut words);
            Work::Program(numbers(alloc, words)?, Row::new(alloc), TO_INT, body)
        }
        _ => Work::Declaration,
    })
}

fn kind_of(name: &str) -> Option<IntKind> {
    match name {
        "constant" => Some(IntKind::Int),
        "uint" => Some(IntKind::UInt),
        "long" => Some(IntKind::Long),
        "ulong" => Some(IntKind::ULong),
        "llong" => Some(IntKind::LLong),
        "ullong" => Some(IntKind::ULLong),
        _ => None,
    }
}

fn operator_of(name: &str) -> Option<Operator> {
    match name {
        "add" => Some(Operator::Add),
        "subtract" => Some(Operator::Subtract),
        "divide" => Some(Operator::Divide),
        "remainder" => Some(Operator::Remainder),
        "left" => Some(Operator::ShiftLeft),
        _ => None,
    }
}

// The work of an expression that only its name tells.
fn plain(name: &str) -> Option<Work> {
    if let Some(operator) = operator_of(name) {
        return Some(Work::Binary(Change::Arithmetic(operator, IntKind::Int)));
    }
    Some(match name {
        "less" => Work::Compare(Relation::Less, IntKind::Int),
        "before" => Work::ComparePointers(Relation::Less),
        "equal" => Work::ComparePointers(Relation::Equal),
        "distance" => Work::Distance(ONE),
        "advance" => Work::Binary(Change::Move(false, ONE)),
        "not" => Work::Not,
        "address" => Work::AddressOf,
        "at" => Work::Dereference(ONE),
        "element" => Work::Subscript(ONE),
        "index" => Work::Subscript(CHAR),
        "string" => Work::Subscript(TEXT),
        "first" => Work::Member(2, 0, ONE, Form::Number(IntKind::Int)),
        "second" => Work::Member(2, 1, ONE, Form::Pointer(0)),
        "assign" => Work::Assign(Form::Number(IntKind::Int)),
        "store" => Work::Assign(Form::Number(IntKind::Char)),
        "point" => Work::Assign(Form::Pointer(0)),
        "increase" => Work::Update(
            Change::Arithmetic(Operator::Add, IntKind::Int),
            Form::Number(IntKind::Int),
            false,
            false,
        ),
        "putchar" => Work::Call(Callee::Putchar),
        "exit" => Work::Call(Callee::Exit),
        _ => return None,
    })
}

fn work(
    alloc: Global,
    node: u32,
    name: &str,
    mut words: SplitWhitespace<'_>,
) -> Result<Work, AllocError> {
    if let Some(kind) = kind_of(name) {
        return Ok(Work::Constant(kind, number(&mut words).unwrap_or(0)));
    }
    if let Some(work) = plain(name) {
        return Ok(work);
    }
    Ok(match name {
        "place" | "read" | "unsigned" | "pointed" | "vector" | "whole" => {
            Work::Object(next(&mut words), 0)
        }
        "text" => Work::Object(node, 0),
        "printf" => Work::Call(Callee::Printf(texts(alloc, words)?)),
        "call" => {
            let body = next(&mut words);
            called(alloc, body, &numbers(alloc, words)?)?
        }
        _ => statement(alloc, name, words)?,
    })
}

fn access(name: &str) -> Access {
    match name {
        "read" | "at" | "element" | "first" => Access::Scalar(INT, false),
        "unsigned" => Access::Scalar(Scalar::Int(IntKind::UInt), false),
        "pointed" | "string" | "second" => Access::Scalar(TO_INT, false),
        "vector" => Access::Scalar(TO_POINTER, false),
        "whole" => Access::Array(ONE, 4),
        "text" => Access::Array(CHAR, 0),
        _ => Access::Unused,
    }
}

// The bytes of a literal, with the closing zero.
fn literal(alloc: Global, text: &str) -> Result<Row<Cell>, AllocError> {
    let mut cells = Vec::new(alloc);
    for byte in text.as_bytes() {
        cells.push(Cell::Number(i128::from(*byte)))?;
    }
    cells.push(Cell::Number(0))?;
    Ok(Row::from_vec(cells))
}

fn literal_of(alloc: Global, name: &str, text: &str) -> Result<Option<Row<Cell>>, AllocError> {
    if name == "text" {
        Ok(Some(literal(alloc, text)?))
    } else {
        Ok(None)
    }
}

fn alike(
    alloc: Global,
    count: usize,
    cell: (Scalar, Guard),
) -> Result<Times<(Scalar, Guard)>, AllocError> {
    let mut cells = Vec::new(alloc);
    for _ in 0..count {
        cells.push(cell)?;
    }
    Times::new(cells, 1)
}

fn elements(
    alloc: Global,
    count: u32,
    cell: (Scalar, Guard),
) -> Result<Times<(Scalar, Guard)>, AllocError> {
    let mut cells = Vec::new(alloc);
    cells.push(cell)?;
    Times::new(cells, count)
}

fn pair(alloc: Global) -> Result<Times<(Scalar, Guard)>, AllocError> {
    let mut cells = Vec::new(alloc);
    cells.push((INT, Guard::Free))?;
    cells.push((TO_INT, Guard::Free))?;
    Times::new(cells, 1)
}

fn shape(alloc: Global, name: &str, text: &str) -> Result<Times<(Scalar, Guard)>, AllocError> {
    match name {
        "int" => alike(alloc, 1, (INT, Guard::Free)),
        "const" => alike(alloc, 1, (INT, Guard::Constant)),
        "array" => elements(alloc, 4, (INT, Guard::Free)),
        "many" => elements(alloc, 513, (INT, Guard::Free)),
        "pointer" => alike(alloc, 1, (TO_INT, Guard::Free)),
        "strings" => alike(alloc, 1, (TO_POINTER, Guard::Free)),
        "pair" => pair(alloc),
        "text" => alike(
            alloc,
            text.len().saturating_add(1),
            (Scalar::Int(IntKind::Char), Guard::Literal),
        ),
        _ => Times::new(Vec::new(alloc), 1),
    }
}

pub(crate) fn table(alloc: Global, program: &str, steps: u64) -> Result<Table, AllocError> {
    let mut ops = Vec::new(alloc);
    let mut shapes = Vec::new(alloc);
    let mut literals = Vec::new(alloc);
    let mut node = 0;
    for line in program.split(';') {
        let (line, parts) = line.split_once('|').unwrap_or((line, ""));
        let (name, rest) = line.split_once(' ').unwrap_or((line, ""));
        ops.push(Op {
            parts: numbers(alloc, parts.split_whitespace())?,
            work: work(alloc, node, name, rest.split_whitespace())?,
            access: access(name),
        })?;
        shapes.push(shape(alloc, name, rest)?)?;
        literals.push(literal_of(alloc, name, rest)?)?;
        node = node.saturating_add(1);
    }
    Ok(Table {
        ops: Row::from_vec(ops),
        shapes: Row::from_vec(shapes),
        literals: Row::from_vec(literals),
        kinds: Row::new(alloc),
        limits: Limits {
            steps,
            depth: 256,
            cells: 512,
            output: 64,
        },
    })
}

fn shown(alloc: Global, run: &Run, looks: u64) -> Result<String, AllocError> {
    match run {
        Run::Ended {
            status,
            output,
            steps,
        } => format!(in alloc;
            "Ended {status} {steps} {:?}, {looks} looks",
            output.as_slice()
        ),
        Run::Undefined(number, node) => {
            format!(in alloc; "Undefined {number} {node}, {looks} looks")
        }
        Run::Left(number, node) => format!(in alloc; "Left {number} {node}, {looks} looks"),
        Run::Stopped => format!(in alloc; "Stopped, {looks} looks"),
        Run::NoMemory => format!(in alloc; "no memory, {looks} looks"),
    }
}

fn check(rt: &impl Abort, alloc: Global, row: &str) -> Result<(), AllocError> {
    let (limits, program, wanted) = triple(row);
    let mut words = limits.split_whitespace();
    let steps = u64::from(next(&mut words));
    let at = u64::from(next(&mut words));
    let table = table(alloc, program, steps)?;
    let mut stop = Once {
        looks: 0,
        at,
        raised: false,
    };
    let outcome = run(alloc, &table, &mut stop);
    expect_text(rt, shown(alloc, &outcome, stop.looks), wanted, row)
}

// `1+1+..+1` with 2,000 `+`, a tree as deep, of which main returns the value, 2001.
fn chain(alloc: Global) -> Result<String, AllocError> {
    let mut program = String::from_str(alloc, "9999 0¦constant 1")?;
    let mut last: u32 = 0;
    for _ in 0..2000 {
        let one = last.saturating_add(1);
        let sum = format!(in alloc; ";constant 1;add|{last} {one}")?;
        program.push_str(sum.as_str())?;
        last = one.saturating_add(1);
    }
    let end = last.saturating_add(1);
    let block = end.saturating_add(1);
    format!(in alloc;
        "{program};return|{last};block|{end};program {block}¦Ended 209 4003 [], 1 looks"
    )
}

#[test]
fn programs_run(rt: HostRuntime) -> Result<(), Fail> {
    for table in [PROGRAMS, MORE_PROGRAMS, CASES] {
        for row in rows(table) {
            check(&rt, rt.alloc(), row)?;
        }
    }
    let deep = chain(rt.alloc())?;
    check(&rt, rt.alloc(), deep.as_str())?;
    Ok(())
}
