// What C11 says of single statements, and the examples of docs/NUMBERS.md.
use crate::shown::{expect_all, none_of, try_file};
use std::alloc::{AllocError, Global};
use std::test::Fail;

// Statements, which stand on one line in `main` behind `int f(int x){return x;}` and `int i=0;`.
const STATEMENTS: &str = r#"
undefined 12 1¦i=i++;
lawful 0¦i=f(i++);
lawful 0¦i=(i++,5);
undefined 12 1¦(i++,5)+i;
lawful 0¦i=i++||1;
undefined 12 1¦i=1;i=i++||1;
lawful 0¦i=1;i=i++&&1;
undefined 12 1¦i=i++&&1;
lawful 0¦i=i++?i:i;
undefined 12 1¦i++*i++;
undefined 12 1¦f(i++)+i;
undefined 12 1¦f(f(i++)+i++);
lawful 0¦f(f(i++)+f(2));
lawful 0¦i=i+1;i+=i;++i;
undefined 12 1¦i=++i+1;
undefined 12 1¦i+=i++;
lawful 0¦i=sizeof i++;
lawful 0¦int j=i++,k=i++;
undefined 3 1¦(-2147483647-1)/-1;
undefined 3 1¦(-2147483647-1)%-1;
undefined 5 1¦1<<31;
undefined 4 1¦1u<<32;
undefined 4 1¦1<<-1;
undefined 4 1¦1>>32;
undefined 5 1¦-1<<0;
lawful 0¦-1>>1;
undefined 1 1¦2147483647+1;
undefined 1 1¦-2147483647-2;
undefined 1 1¦65536*32768;
undefined 1 1¦-(-2147483647-1);
lawful 0¦4294967295u+1u;
lawful 0¦2147483647u+1;
undefined 2 1¦1/0;
undefined 2 1¦1%0;
lawful 0¦0&&1/0;
lawful 0¦char c=127;c++;
lawful 0¦int a[2][3];&a[0][3];
undefined 9 1¦int a[2][3];a[0][3];
undefined 6 1¦int a[2][3];a[0]+4;
left 5 1¦int a[2][3];((int*)a)[0];
lawful 0¦int b[2]={1};b[1];
undefined 11 1¦int b[2]={1,b[0]};
undefined 14 1¦struct s{const int m;}x={1};*(int*)&x.m=2;
lawful 0¦int a[2];&a[2]-a;
undefined 11 1¦int a[2];a[1];
undefined 6 1¦int*p=0;p+1;
undefined 6 1¦int a[2];&a[2]+1;
undefined 6 1¦int a[2];a-1;
"#;

// Files.
const FILES: &str = r#"
undefined 10 2¦int *f(void){int x;return &x;}\nint main(void){return f()==0;}\n
left 7 2¦int printf(const char *, ...);\nint main(void){printf("%5d",1);}\n
undefined 16 2¦int printf(const char *, ...);\nint main(void){printf("%d");}\n
lawful 0 aBff%¦int printf(const char *, ...);\nint main(void){printf("%s%c%x%%","a",66,255);}\n
lawful 0 -7 4294967295 7 1¦int printf(const char*,...);int main(){printf("%ld %u %lld %llu",-7L,-1+0u,7LL,1ULL,0);}
lawful 6 ab\n\\cd¦int printf(const char*,...);int main(){return printf("%s\\n\\\\%s","ab","cd");}
lawful 44¦void exit(int);int main(){exit(300);}
lawful 134 A¦void abort(void);int putchar(int);int main(){putchar(65);abort();return 1/0;}
lawful 255¦int main(){return -1;}
lawful 2¦int main(int c,char**v){return c+!v[0]+1;}
undefined 12 1¦volatile int v=1;int main(){return v+v;}
lawful 1¦volatile int v=1;int main(){v=v+1;v++;return v&&v;}
undefined 12 1¦volatile int v=1;int f(int a,int b){return a;}int main(){return f(v,v);}
type 27 1¦volatile int v=1;int main(){return *(int*)&v;}
type 41 1¦struct s{volatile int m;};int main(){}
lawful 0¦int main(){int i=3;L:if(i){i--;goto L;}return i;}
type 42 1¦int main(){goto L;{L:;}}
type 42 1¦int main(){goto L;}
type 43 1¦int main(){L:;L:;}
parse 4 1¦int main(){if(1)L:;}
undefined 10 1¦int main(){int*p;{int x=1;p=&x;goto L;}L:return *p;}
left 2 1¦int main(){return main();}
type 7 1¦char a[1048577];int main(){}
lawful 7¦int s;int f(int n){switch(n){case 1:s+=1;default:s+=2;case 2:s+=4;break;case 3:s+=8;}return s;}int main(){return f(1);}
lawful 8¦int s;int f(int n){switch(n){case 1:s+=1;default:s+=2;case 2:s+=4;break;case 3:s+=8;}return s;}int main(){return f(3);}
lawful 3¦struct s{int m,n;};struct s x={1,2},y;int main(){y=x;struct s z=y;return z.m+(y=x).n;}
undefined 12 1¦struct s{int m,n;};struct s x={1,2};int main(){struct s z=x;return z.m+(z=x).n;}
lawful 5¦int main(){int s=0;for(int i=0;i<4;i++){if(i==1)continue;s+=i;}return s;}
"#;

// The examples of the README and of the guide; what those that are lawful come to is what gcc's programs of them do.
const SHOWN: &str = r#"
undefined 9 5¦int main(void)\n{\n    int sum = 0, a[3] = { 1, 2, 3 };\n    for (int i = 0; i <= 3; i++)\n        sum += a[i];\n    return sum;\n}\n
undefined 1 7¦int printf(const char *format, ...);\n\nstatic int limit = 2147483647;\n\nstatic int above(int value)\n{\n    int next = value + 1;\n    return next > value;\n}\n\nint main(void)\n{\n    printf("%d\\n", above(limit));\n    return 0;\n}\n
lawful 0 1023038356 after 24 steps\n¦int printf(const char *format, ...);\n\nstruct state { unsigned int sum; int steps; };\nenum { COUNT = 8 };\n\nstatic const int table[COUNT] = { 3, 1, 4, 1, 5, 9, 2, 6 };\nstatic struct state whole = { 1u, 0 };\n\nstatic unsigned int rotate(unsigned int value)\n{\n    return (value << 5) | (value >> 27);\n}\n\nstatic int find(int wanted)\n{\n    for (int i = 0; i < COUNT; i++)\n        if (table[i] == wanted)\n            return i + 1;\n    return 0;\n}\n\nstatic void step(struct state *state, int value)\n{\n    int place;\n    switch (value % 4) {\n    case 0:\n        state->sum += 7u;\n        break;\n    default:\n        state->sum ^= 2654435769u * (unsigned int)value;\n    }\n    if (place = find(value))\n        state->sum += (unsigned int)place;\n    state->sum = rotate(state->sum);\n    state->steps++;\n}\n\nint main(void)\n{\n    for (int i = 0; i < 3 * COUNT; i++)\n        step(&whole, table[i % COUNT] + i);\n    printf("%u after %d steps\\n", whole.sum, whole.steps);\n    return 0;\n}\n
lawful 10¦struct pair { int first; int second; };\n\nstatic struct pair whole = { 3, 4 };\n\nstatic int sum(struct pair *pair, int factor)\n{\n    return pair->first * factor + pair->second;\n}\n\nint main(void)\n{\n    whole.second = sum(&whole, 2);\n    return whole.second;\n}\n
lawful 17¦#pragma STDC FENV_ACCESS OFF\n/* The reducer's sample: it keeps what the test asks for, and drops the other lines. */\nenum { WIDTH = 4, HEIGHT = 3 };\n\nstatic int cells[WIDTH * HEIGHT];\nstatic unsigned int seed = 1u;\n\nstatic unsigned int next(void)\n{\n    seed = seed * 1103515245u + 12345u;\n    return seed >> 16;\n}\n\nstatic int sum(void)\n{\n    int total = 0;\n    for (int i = 0; i < WIDTH * HEIGHT; i++)\n        total = total + cells[i];\n    return total;\n}\n\nint main(void)\n{\n    for (int i = 0; i < WIDTH * HEIGHT; i++)\n        cells[i] = (int)(next() % 10u);\n    return sum() / WIDTH;\n}\n
"#;

// For U1 to U16 and N1 to N7 a file that shows the case, and one that nearly does.
const NUMBERS: &str = r#"
undefined 1 1¦int main(void) { int x = 2147483647; x = x + 1; return 0; }
lawful 0¦int main(void) { unsigned x = 4294967295; x = x + 1; return 0; }
undefined 2 1¦int main(void) { int z = 0; return 1 / z; }
lawful 0¦int main(void) { int z = 0; return z && 1 / z; }
undefined 3 1¦int main(void) { int m = -2147483647 - 1; return m % -1; }
lawful 0¦int main(void) { int m = -2147483647; return m % -1; }
undefined 4 1¦int main(void) { unsigned u = 1; return u << 32 == 0; }
lawful 0¦int main(void) { unsigned long u = 1; return u << 32 == 0; }
undefined 5 1¦int main(void) { int x = 1; return x << 31 == 0; }
lawful 0¦int main(void) { unsigned x = 1; return x << 31 == 0; }
undefined 6 1¦int main(void) { int a[4], *p = &a[5]; return p == a; }
lawful 0¦int main(void) { int a[4], *p = &a[4]; return p == a; }
undefined 7 1¦int main(void) { int x, y; return &x - &y == 1; }
lawful 1¦int main(void) { int a[2]; return &a[1] - &a[0] == 1; }
undefined 8 1¦int main(void) { int x, y; return &x < &y; }
lawful 1¦int main(void) { int a[2]; return &a[0] < &a[1]; }
undefined 9 1¦int main(void) { int a[2] = { 0 }; return a[2]; }
lawful 0¦int main(void) { int a[2] = { 0 }; return &a[2] == a; }
undefined 10 1¦int main(void) { int *p; { int x = 1; p = &x; } return *p; }
lawful 1¦int main(void) { int *p; { static int x = 1; p = &x; } return *p; }
undefined 11 1¦int main(void) { int x; return x; }
lawful 0¦int main(void) { static int x; return x; }
undefined 12 1¦int main(void) { int i = 1; i = i++; return i; }
lawful 5¦int main(void) { int i = 1; i = (i++, 5); return i; }
undefined 13 1¦int main(void) { char *p = "abc"; p[0] = 'x'; return 0; }
lawful 0¦int main(void) { char p[] = "abc"; p[0] = 'x'; return 0; }
undefined 14 1¦int main(void) { const int x = 1; *(int *)&x = 2; return 0; }
lawful 0¦int main(void) { int x = 1; const int *p = &x; *(int *)p = 2; return 0; }
undefined 15 1¦int f(void) { } int main(void) { return f(); }
lawful 0¦int f(void) { } int main(void) { f(); return 0; }
undefined 16 1¦int printf(const char *, ...); int main(void) { printf("%d\\n"); return 0; }
lawful 0 1\n¦int printf(const char *, ...); int main(void) { printf("%d\\n", 1, 2); return 0; }
lawful 0¦int main(void) { for (int i = 0; i < 9; i++); return 0; }
left 2 1¦int f(int n) { return n ? f(n - 1) : 0; } int main(void) { return f(255); }
lawful 0¦int f(int n) { return n ? f(n - 1) : 0; } int main(void) { return f(254); }
left 5 1¦int main(void) { int x = 1; return *(unsigned *)&x; }
lawful 1¦int main(void) { int x = 1; return *(const int *)&x; }
lawful 1¦int main(void) { int x = 1; void *v = &x; return *(const int *)v; }
left 6 1¦int main(void) { int a[2], b[2]; return a + 2 == b; }
lawful 0¦int main(void) { int a[2], b[2]; return a == b; }
left 7 1¦int printf(const char *, ...); int main(void) { printf("%5d\\n", 1); return 0; }
lawful 0 1\n¦int printf(const char *, ...); int main(void) { printf("%ld\\n", 1L); return 0; }
"#;

fn try_statement(alloc: Global, wrong: &mut String, row: &str) -> Result<(), AllocError> {
    let Some((wanted, statement)) = row.split_once('¦') else {
        return Ok(());
    };
    let text = format!(in alloc;
        "int f(int x){{return x;}}int main(void){{int i=0;{statement}return 0;}}"
    )?;
    try_file(alloc, wrong, wanted, text.as_str())
}

#[test]
fn statements_in_a_frame(rt: HostRuntime) -> Result<(), Fail> {
    let mut wrong = String::new(rt.alloc());
    for row in STATEMENTS.lines() {
        try_statement(rt.alloc(), &mut wrong, row)?;
    }
    none_of(wrong)
}

#[test]
fn files_come_to_their_ends(rt: HostRuntime) -> Result<(), Fail> {
    expect_all(rt.alloc(), FILES)
}

#[test]
fn each_number_has_its_example(rt: HostRuntime) -> Result<(), Fail> {
    expect_all(rt.alloc(), NUMBERS)
}

#[test]
fn examples_of_the_documents(rt: HostRuntime) -> Result<(), Fail> {
    expect_all(rt.alloc(), SHOWN)
}
