// Reductions of small programs by all passes, and by those that read C. What is wanted was found by another reading of the rules.
use crate::outcomes::{Outcome, silent_outcome, words_of};
use crate::tables::bytes_of;
use std::alloc::{AllocError, Global};
use std::process::Abort;
use std::thread::Threads;

/// Files, and behind each its reductions: the status, the words, what is put, the file after the run, and the log, where one is written.
const REDUCTIONS: &str = r#"
file¦int f(int x){return x;}int main(void){int i=0;i=f(i);return i;}
0¦--steps 1000 has:main t.c¦t.c size 354 to 63 accepted 9 turns 161 fixed␊¦int main(){}¦t 1 22 268 56␊t 2 18 229 75␊t 3 7 202 83␊t 3 15 177 92␊t 4 7 168 101␊t 4 11 156 106␊t 4 13 147 109␊b 1 0 123 115␊u 0 0 63 124␊end fixed 63 161␊
0¦--steps 1000 --passes sciuprf has:return t.c¦t.c size 354 to 180 accepted 5 turns 26 fixed␊¦int f(void){return 0;}int main(void){}¦s 0 2 282 3␊s 0 2 246 4␊c 0 0 243 5␊p 0 0 231 10␊u 2 0 180 15␊end fixed 180 26␊
7¦--steps 1000 --limit 40 has:main t.c¦t.c size 354 to 354 accepted 0 turns 40 limit␊¦int f(int x){return x;}int main(void){int i=0;i=f(i);return i;}¦end limit 354 40␊
file¦typedef int T;T a[2]={1,2};struct s{T m;const int c;}x={1,2};int main(){T*p=a;x.m=*p+a[1];return x.m-3;}
0¦--steps 1000 has:main t.c¦t.c size 697 to 63 accepted 13 turns 275 fixed␊¦int main(){}¦t 0 46 528 62␊t 1 40 445 103␊t 3 11 426 154␊t 3 28 407 172␊t 4 7 396 189␊t 4 14 384 197␊t 4 18 371 202␊t 4 33 362 218␊b 0 0 344 220␊b 2 0 326 231␊u 0 0 272 236␊u 0 0 112 237␊u 0 0 63 238␊end fixed 63 275␊
0¦--steps 1000 --passes sciuprf has:return t.c¦t.c size 697 to 96 accepted 11 turns 47 fixed␊¦int main(){return 0;}¦s 0 1 576 3␊c 0 1 575 6␊c 0 2 573 8␊c 0 3 572 10␊c 0 4 570 12␊c 0 5 567 14␊c 0 6 523 16␊u 0 0 406 31␊u 0 0 205 32␊u 2 0 145 33␊u 0 0 96 39␊end fixed 96 47␊
7¦--steps 1000 --limit 40 has:main t.c¦t.c size 697 to 697 accepted 0 turns 40 limit␊¦typedef int T;T a[2]={1,2};struct s{T m;const int c;}x={1,2};int main(){T*p=a;x.m=*p+a[1];return x.m-3;}¦end limit 697 40␊
file¦enum e{A,B=5,C};int main(){enum e v=B;switch(v){case A:return 1;case B:break;default:return 2;}return v-5;}
0¦--steps 1000 has:main t.c¦t.c size 558 to 63 accepted 9 turns 157 fixed␊¦int main(){}¦t 0 28 375 44␊t 1 23 286 68␊t 2 6 245 75␊t 2 13 198 83␊t 2 13 157 84␊t 3 3 136 88␊t 4 1 124 99␊t 4 10 115 109␊u 0 0 63 120␊end fixed 63 157␊
0¦--steps 1000 --passes sciuprf has:return t.c¦t.c size 558 to 96 accepted 8 turns 38 fixed␊¦int main(){return 0;}¦u 3 0 537 1␊s 0 1 292 3␊c 0 0 290 5␊c 0 1 287 7␊c 0 2 264 9␊u 2 0 199 19␊u 3 0 178 20␊u 0 0 96 30␊end fixed 96 38␊
7¦--steps 1000 --limit 40 has:main t.c¦t.c size 558 to 558 accepted 0 turns 40 limit␊¦enum e{A,B=5,C};int main(){enum e v=B;switch(v){case A:return 1;case B:break;default:return 2;}return v-5;}¦end limit 558 40␊
file¦int printf(const char *, ...);int main(void){printf("%d %u %c %s%%",1,2u,65,"x");return 0;}
0¦--steps 1000 has:main t.c¦t.c size 373 to 63 accepted 3 turns 136 fixed␊¦int main(){}¦t 0 16 188 32␊t 4 13 176 86␊u 0 0 63 99␊end fixed 63 136␊
0¦--steps 1000 --passes sciuprf has:return t.c¦t.c size 373 to 108 accepted 3 turns 15 fixed␊¦int main(void){return 0;}¦s 0 0 221 1␊f 0 0 219 5␊u 0 0 108 7␊end fixed 108 15␊
7¦--steps 1000 --limit 40 has:main t.c¦t.c size 373 to 188 accepted 1 turns 40 limit␊¦int printf(const char *, ...);int main(void){}¦t 0 16 188 32␊end limit 188 40␊
file¦volatile int v=1;int main(){v=v+1;v++;return v&&v;}
0¦--steps 1000 has:main t.c¦t.c size 282 to 63 accepted 7 turns 116 fixed␊¦int main(){}¦t 1 11 199 38␊t 2 11 153 50␊t 3 3 134 54␊t 3 9 113 61␊t 4 0 97 62␊u 0 0 64 78␊f 0 0 63 79␊end fixed 63 116␊
0¦--steps 1000 --passes sciuprf has:return t.c¦t.c size 282 to 96 accepted 5 turns 20 fixed␊¦int main(){return 0;}¦s 0 0 221 1␊s 0 0 190 2␊c 0 0 189 4␊c 0 1 164 6␊u 0 0 96 12␊end fixed 96 20␊
7¦--steps 1000 --limit 40 has:main t.c¦t.c size 282 to 199 accepted 1 turns 40 limit␊¦volatile int v=1;int main(){;return v&&v;}¦t 1 11 199 38␊end limit 199 40␊
file¦int main(){int i=3;L:if(i){i--;goto L;}return i;}
0¦--steps 1000 has:main t.c¦t.c size 296 to 63 accepted 3 turns 92 fixed␊¦int main(){}¦t 0 10 125 26␊t 2 5 81 37␊t 3 5 63 43␊end fixed 63 92␊
0¦--steps 1000 --passes sciuprf has:return t.c¦t.c size 296 to 96 accepted 4 turns 20 fixed␊¦int main(){return 0;}¦s 0 1 152 2␊c 0 0 150 4␊c 0 1 147 6␊u 2 0 96 12␊end fixed 96 20␊
7¦--steps 1000 --limit 40 has:main t.c¦t.c size 296 to 81 accepted 2 turns 40 limit␊¦int main(){;;}¦t 0 10 125 26␊t 2 5 81 37␊end limit 81 40␊
file¦struct p{int a;struct p*n;};static struct p q;int g(struct p*r){return r?r->a:0;}int main(){q.n=&q;return g(q.n);}
0¦--steps 1000 has:main t.c¦t.c size 635 to 63 accepted 10 turns 295 fixed␊¦int main(){}¦t 1 42 549 101␊t 2 12 498 115␊t 4 23 484 215␊t 4 37 472 230␊b 0 5 421 243␊b 1 2 339 246␊b 1 4 330 249␊u 0 0 221 256␊u 0 0 64 257␊f 0 0 63 258␊end fixed 63 295␊
0¦--steps 1000 --passes sciuprf has:return t.c¦t.c size 635 to 168 accepted 6 turns 25 fixed␊¦int g(void){return 0;}int main(){}¦s 0 1 563 2␊s 0 1 476 3␊c 0 0 412 4␊p 0 0 376 7␊u 0 0 312 12␊u 0 0 168 13␊end fixed 168 25␊
7¦--steps 1000 --limit 40 has:main t.c¦t.c size 635 to 635 accepted 0 turns 40 limit␊¦struct p{int a;struct p*n;};static struct p q;int g(struct p*r){return r?r->a:0;}int main(){q.n=&q;return g(q.n);}¦end limit 635 40␊
file¦extern int u;int u=3;static int h(int a,char b){return a+b;}int main(){unsigned long z=sizeof(int);return h(u,1)+z-8;}
0¦--steps 1000 has:main t.c¦t.c size 583 to 63 accepted 15 turns 240 fixed␊¦int main(){}¦t 1 40 498 94␊t 2 0 450 95␊t 2 16 402 112␊t 2 28 365 125␊t 3 2 345 130␊t 3 25 318 154␊t 4 3 304 161␊t 4 13 295 172␊t 4 19 279 179␊t 4 22 270 183␊b 1 0 212 191␊b 1 3 158 195␊u 0 0 125 201␊u 0 0 65 202␊f 0 0 63 203␊end fixed 63 240␊
0¦--steps 1000 --passes sciuprf has:return t.c¦t.c size 583 to 183 accepted 9 turns 33 fixed␊¦static int h(void){return 0;}int main(){}¦s 0 2 457 3␊c 0 0 455 4␊c 0 1 431 6␊c 0 2 397 8␊p 0 0 364 13␊p 0 0 351 14␊u 0 0 303 19␊u 0 0 252 20␊u 2 0 183 22␊end fixed 183 33␊
7¦--steps 1000 --limit 40 has:main t.c¦t.c size 583 to 583 accepted 0 turns 40 limit␊¦extern int u;int u=3;static int h(int a,char b){return a+b;}int main(){unsigned long z=sizeof(int);return h(u,1)+z-8;}¦end limit 583 40␊
file¦int main(){int a[2][3]={{1,2},{3}};int*p=&a[0][2];for(int i=0;i<2;i++){a[i][0]+=i;}return *p;}
0¦--steps 1000 has:main t.c¦t.c size 700 to 63 accepted 9 turns 328 fixed␊¦int main(){}¦t 1 54 621 125␊t 2 18 583 145␊t 2 49 544 177␊t 3 16 525 196␊t 3 40 504 221␊t 3 42 482 224␊t 4 8 471 238␊t 4 39 460 270␊b 1 1 63 288␊end fixed 63 328␊
0¦--steps 1000 --passes sciuprf has:return t.c¦t.c size 700 to 96 accepted 8 turns 51 fixed␊¦int main(){return 0;}¦s 0 2 439 3␊c 0 2 438 7␊c 0 3 436 9␊c 0 4 434 11␊c 0 10 432 18␊c 0 11 420 20␊u 2 0 295 42␊u 2 0 96 43␊end fixed 96 51␊
7¦--steps 1000 --limit 40 has:main t.c¦t.c size 700 to 700 accepted 0 turns 40 limit␊¦int main(){int a[2][3]={{1,2},{3}};int*p=&a[0][2];for(int i=0;i<2;i++){a[i][0]+=i;}return *p;}¦end limit 700 40␊
file¦void w(int n){while(n){n--;if(n==2)continue;else break;}do n++;while(n<3);}int main(){w(4);return 0;}
0¦--steps 1000 has:main t.c¦t.c size 558 to 63 accepted 12 turns 249 fixed␊¦int main(){}¦t 1 44 475 98␊t 2 21 424 120␊t 2 23 382 123␊t 3 12 360 147␊t 3 12 341 148␊t 3 13 319 150␊t 3 19 298 157␊t 4 17 285 184␊b 0 3 229 199␊b 0 3 200 200␊b 1 1 148 204␊u 0 0 63 212␊end fixed 63 249␊
0¦--steps 1000 --passes sciuprf has:return t.c¦t.c size 558 to 96 accepted 5 turns 18 fixed␊¦int main(){return 0;}¦s 0 0 345 1␊s 0 0 231 2␊s 0 0 181 3␊p 0 0 169 7␊u 0 0 96 10␊end fixed 96 18␊
7¦--steps 1000 --limit 40 has:main t.c¦t.c size 558 to 558 accepted 0 turns 40 limit␊¦void w(int n){while(n){n--;if(n==2)continue;else break;}do n++;while(n<3);}int main(){w(4);return 0;}¦end limit 558 40␊
file¦char s[]="ab",*t="cd";int main(){s[0]=t[1];return s[2];}
0¦--steps 1000 has:main t.c¦t.c size 353 to 63 accepted 6 turns 121 fixed␊¦int main(){}¦t 0 17 191 33␊t 2 2 150 47␊t 3 1 129 58␊t 3 3 106 61␊t 4 1 97 69␊u 0 0 63 84␊end fixed 63 121␊
0¦--steps 1000 --passes sciuprf has:return t.c¦t.c size 353 to 96 accepted 4 turns 22 fixed␊¦int main(){return 0;}¦s 0 0 256 1␊c 0 1 251 4␊c 0 2 219 6␊u 0 0 96 14␊end fixed 96 22␊
7¦--steps 1000 --limit 40 has:main t.c¦t.c size 353 to 191 accepted 1 turns 40 limit␊¦char s[]="ab",*t="cd";int main(){}¦t 0 17 191 33␊end limit 191 40␊
file¦int m(int,int);int m(int a,int b){return a<b?a:b;}int main(){short k=-1;unsigned y=k;return m(3,(int)(y>>31))-1;}
0¦--steps 1000 has:main t.c¦t.c size 657 to 63 accepted 10 turns 192 fixed␊¦int main(){}¦t 0 42 490 58␊t 1 0 408 59␊t 1 10 318 70␊t 2 17 274 101␊t 2 18 227 103␊t 3 17 208 122␊t 3 17 189 123␊t 4 10 180 134␊b 1 0 123 146␊u 0 0 63 155␊end fixed 63 192␊
0¦--steps 1000 --passes sciuprf has:return t.c¦t.c size 657 to 168 accepted 9 turns 34 fixed␊¦int m(void){return 0;}int main(){}¦s 0 3 483 4␊c 0 0 417 5␊c 0 1 407 7␊c 0 2 404 9␊p 0 0 351 14␊p 0 0 340 15␊u 0 0 277 20␊u 2 0 224 22␊u 2 0 168 23␊end fixed 168 34␊
7¦--steps 1000 --limit 40 has:main t.c¦t.c size 657 to 657 accepted 0 turns 40 limit␊¦int m(int,int);int m(int a,int b){return a<b?a:b;}int main(){short k=-1;unsigned y=k;return m(3,(int)(y>>31))-1;}¦end limit 657 40␊
file¦int putchar(int);void exit(int);int main(){putchar(65);exit(3);}
0¦--steps 1000 has:main t.c¦t.c size 307 to 63 accepted 5 turns 156 fixed␊¦int main(){}¦t 2 17 259 67␊t 2 18 215 69␊t 3 17 197 87␊u 0 0 129 118␊u 0 0 63 119␊end fixed 63 156␊
6¦--steps 1000 --passes sciuprf has:return t.c¦creduce: the test says no to t.c␊¦int putchar(int);void exit(int);int main(){putchar(65);exit(3);}
7¦--steps 1000 --limit 40 has:main t.c¦t.c size 307 to 307 accepted 0 turns 40 limit␊¦int putchar(int);void exit(int);int main(){putchar(65);exit(3);}¦end limit 307 40␊
file¦long long b=1ll<<40;int main(){const int c=2;return (b>>39)-c|c^c&~c;}
0¦--steps 1000 has:main t.c¦t.c size 390 to 63 accepted 4 turns 101 fixed␊¦int main(){}¦t 0 18 221 34␊t 1 0 130 35␊t 2 5 83 46␊t 3 5 63 52␊end fixed 63 101␊
0¦--steps 1000 --passes sciuprf has:return t.c¦t.c size 390 to 96 accepted 5 turns 24 fixed␊¦int main(){return 0;}¦c 0 0 364 3␊c 0 1 362 5␊c 0 2 226 7␊u 0 0 161 15␊u 2 0 96 16␊end fixed 96 24␊
7¦--steps 1000 --limit 40 has:main t.c¦t.c size 390 to 130 accepted 2 turns 40 limit␊¦int main(){const int c=2;}¦t 0 18 221 34␊t 1 0 130 35␊end limit 130 40␊
"#;

// The copy of the file, and its log, where a row tells one: else nothing is written.
fn written(
    alloc: Global,
    file: &[u8],
    log: Option<&str>,
) -> Result<(Option<Vec<u8>>, Option<Vec<u8>>), AllocError> {
    let Some(log) = log else {
        return Ok((None, None));
    };
    let log = bytes_of(alloc, log)?;
    let copy = file.to_vec(alloc)?;
    Ok((Some(copy), Some(log)))
}

// What a row tells behind its words.
fn told(alloc: Global, file: &[u8], status: &str, rest: &str) -> Result<Outcome, AllocError> {
    let mut cells = rest.split('¦');
    let line = bytes_of(alloc, cells.next().unwrap_or(""))?;
    let after = bytes_of(alloc, cells.next().unwrap_or(""))?;
    let (copy, log) = written(alloc, file, cells.next())?;
    Ok((status.parse().unwrap_or(99), line, Some(after), copy, log))
}

fn expect_row(
    rt: &(impl Abort + Threads + Sync),
    alloc: Global,
    workers: u64,
    window: u64,
    file: &[u8],
    row: &str,
) -> Result<(), AllocError> {
    let (status, behind) = row.split_once('¦').unwrap_or(("", ""));
    let (text, rest) = behind.split_once('¦').unwrap_or(("", ""));
    let words = words_of(alloc, workers, window, text)?;
    let wanted = told(alloc, file, status, rest)?;
    let found = silent_outcome(rt, alloc, &words, file)?;
    assert!(rt; found == wanted, "{row}: {found:?}");
    Ok(())
}

// A file and its rows.
fn expect_table(
    rt: &(impl Abort + Threads + Sync),
    alloc: Global,
    workers: u64,
    window: u64,
    table: &str,
) -> Result<(), AllocError> {
    let mut rows = table.lines();
    let file = bytes_of(alloc, rows.next().unwrap_or(""))?;
    for row in rows {
        expect_row(rt, alloc, workers, window, &file, row)?;
    }
    Ok(())
}

// All files, by so many workers and positions at a time.
fn expect_all(
    rt: &(impl Abort + Threads + Sync),
    alloc: Global,
    workers: u64,
    window: u64,
) -> Result<(), AllocError> {
    for table in REDUCTIONS.split("file¦") {
        expect_table(rt, alloc, workers, window, table)?;
    }
    Ok(())
}

#[test]
fn small_programs_are_reduced_by_one_worker(rt: HostRuntime) -> Result<(), AllocError> {
    expect_all(&rt, rt.alloc(), 1, 256)
}

#[test]
fn small_programs_are_reduced_by_three_workers(rt: HostRuntime) -> Result<(), AllocError> {
    expect_all(&rt, rt.alloc(), 3, 7)
}
