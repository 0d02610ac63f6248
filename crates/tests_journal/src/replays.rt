// The logs of small reductions, by all passes and by those that read C, and the same with one number changed. What is wanted was found by
// another reading of the rules.
use crate::checked::{bytes_of, expect_line, line_of};
use std::alloc::{AllocError, Global};
use std::process::Abort;

/// Files, and behind each its reductions: the log and the result.
const REDUCTIONS: &str = r#"
file¦int f(int x){return x;}int main(void){int i=0;i=f(i);return i;}
t 1 22 268 56␊t 2 18 229 75␊t 3 7 202 83␊t 3 15 177 92␊t 4 7 168 101␊t 4 11 156 106␊t 4 13 147 109␊b 1 0 123 115␊u 0 0 63 124␊end fixed 63 161␊¦int main(){}
s 0 2 282 3␊s 0 2 246 4␊c 0 0 243 5␊p 0 0 231 10␊u 2 0 180 15␊end fixed 180 26␊¦int f(void){return 0;}int main(void){}
end limit 354 40␊¦int f(int x){return x;}int main(void){int i=0;i=f(i);return i;}
file¦typedef int T;T a[2]={1,2};struct s{T m;const int c;}x={1,2};int main(){T*p=a;x.m=*p+a[1];return x.m-3;}
t 0 46 528 62␊t 1 40 445 103␊t 3 11 426 154␊t 3 28 407 172␊t 4 7 396 189␊t 4 14 384 197␊t 4 18 371 202␊t 4 33 362 218␊b 0 0 344 220␊b 2 0 326 231␊u 0 0 272 236␊u 0 0 112 237␊u 0 0 63 238␊end fixed 63 275␊¦int main(){}
s 0 1 576 3␊c 0 1 575 6␊c 0 2 573 8␊c 0 3 572 10␊c 0 4 570 12␊c 0 5 567 14␊c 0 6 523 16␊u 0 0 406 31␊u 0 0 205 32␊u 2 0 145 33␊u 0 0 96 39␊end fixed 96 47␊¦int main(){return 0;}
end limit 697 40␊¦typedef int T;T a[2]={1,2};struct s{T m;const int c;}x={1,2};int main(){T*p=a;x.m=*p+a[1];return x.m-3;}
file¦enum e{A,B=5,C};int main(){enum e v=B;switch(v){case A:return 1;case B:break;default:return 2;}return v-5;}
t 0 28 375 44␊t 1 23 286 68␊t 2 6 245 75␊t 2 13 198 83␊t 2 13 157 84␊t 3 3 136 88␊t 4 1 124 99␊t 4 10 115 109␊u 0 0 63 120␊end fixed 63 157␊¦int main(){}
u 3 0 537 1␊s 0 1 292 3␊c 0 0 290 5␊c 0 1 287 7␊c 0 2 264 9␊u 2 0 199 19␊u 3 0 178 20␊u 0 0 96 30␊end fixed 96 38␊¦int main(){return 0;}
end limit 558 40␊¦enum e{A,B=5,C};int main(){enum e v=B;switch(v){case A:return 1;case B:break;default:return 2;}return v-5;}
file¦int printf(const char *, ...);int main(void){printf("%d %u %c %s%%",1,2u,65,"x");return 0;}
t 0 16 188 32␊t 4 13 176 86␊u 0 0 63 99␊end fixed 63 136␊¦int main(){}
s 0 0 221 1␊f 0 0 219 5␊u 0 0 108 7␊end fixed 108 15␊¦int main(void){return 0;}
t 0 16 188 32␊end limit 188 40␊¦int printf(const char *, ...);int main(void){}
file¦volatile int v=1;int main(){v=v+1;v++;return v&&v;}
t 1 11 199 38␊t 2 11 153 50␊t 3 3 134 54␊t 3 9 113 61␊t 4 0 97 62␊u 0 0 64 78␊f 0 0 63 79␊end fixed 63 116␊¦int main(){}
s 0 0 221 1␊s 0 0 190 2␊c 0 0 189 4␊c 0 1 164 6␊u 0 0 96 12␊end fixed 96 20␊¦int main(){return 0;}
t 1 11 199 38␊end limit 199 40␊¦volatile int v=1;int main(){;return v&&v;}
file¦int main(){int i=3;L:if(i){i--;goto L;}return i;}
t 0 10 125 26␊t 2 5 81 37␊t 3 5 63 43␊end fixed 63 92␊¦int main(){}
s 0 1 152 2␊c 0 0 150 4␊c 0 1 147 6␊u 2 0 96 12␊end fixed 96 20␊¦int main(){return 0;}
t 0 10 125 26␊t 2 5 81 37␊end limit 81 40␊¦int main(){;;}
file¦struct p{int a;struct p*n;};static struct p q;int g(struct p*r){return r?r->a:0;}int main(){q.n=&q;return g(q.n);}
t 1 42 549 101␊t 2 12 498 115␊t 4 23 484 215␊t 4 37 472 230␊b 0 5 421 243␊b 1 2 339 246␊b 1 4 330 249␊u 0 0 221 256␊u 0 0 64 257␊f 0 0 63 258␊end fixed 63 295␊¦int main(){}
s 0 1 563 2␊s 0 1 476 3␊c 0 0 412 4␊p 0 0 376 7␊u 0 0 312 12␊u 0 0 168 13␊end fixed 168 25␊¦int g(void){return 0;}int main(){}
end limit 635 40␊¦struct p{int a;struct p*n;};static struct p q;int g(struct p*r){return r?r->a:0;}int main(){q.n=&q;return g(q.n);}
file¦extern int u;int u=3;static int h(int a,char b){return a+b;}int main(){unsigned long z=sizeof(int);return h(u,1)+z-8;}
t 1 40 498 94␊t 2 0 450 95␊t 2 16 402 112␊t 2 28 365 125␊t 3 2 345 130␊t 3 25 318 154␊t 4 3 304 161␊t 4 13 295 172␊t 4 19 279 179␊t 4 22 270 183␊b 1 0 212 191␊b 1 3 158 195␊u 0 0 125 201␊u 0 0 65 202␊f 0 0 63 203␊end fixed 63 240␊¦int main(){}
s 0 2 457 3␊c 0 0 455 4␊c 0 1 431 6␊c 0 2 397 8␊p 0 0 364 13␊p 0 0 351 14␊u 0 0 303 19␊u 0 0 252 20␊u 2 0 183 22␊end fixed 183 33␊¦static int h(void){return 0;}int main(){}
end limit 583 40␊¦extern int u;int u=3;static int h(int a,char b){return a+b;}int main(){unsigned long z=sizeof(int);return h(u,1)+z-8;}
file¦int main(){int a[2][3]={{1,2},{3}};int*p=&a[0][2];for(int i=0;i<2;i++){a[i][0]+=i;}return *p;}
t 1 54 621 125␊t 2 18 583 145␊t 2 49 544 177␊t 3 16 525 196␊t 3 40 504 221␊t 3 42 482 224␊t 4 8 471 238␊t 4 39 460 270␊b 1 1 63 288␊end fixed 63 328␊¦int main(){}
s 0 2 439 3␊c 0 2 438 7␊c 0 3 436 9␊c 0 4 434 11␊c 0 10 432 18␊c 0 11 420 20␊u 2 0 295 42␊u 2 0 96 43␊end fixed 96 51␊¦int main(){return 0;}
end limit 700 40␊¦int main(){int a[2][3]={{1,2},{3}};int*p=&a[0][2];for(int i=0;i<2;i++){a[i][0]+=i;}return *p;}
file¦void w(int n){while(n){n--;if(n==2)continue;else break;}do n++;while(n<3);}int main(){w(4);return 0;}
t 1 44 475 98␊t 2 21 424 120␊t 2 23 382 123␊t 3 12 360 147␊t 3 12 341 148␊t 3 13 319 150␊t 3 19 298 157␊t 4 17 285 184␊b 0 3 229 199␊b 0 3 200 200␊b 1 1 148 204␊u 0 0 63 212␊end fixed 63 249␊¦int main(){}
s 0 0 345 1␊s 0 0 231 2␊s 0 0 181 3␊p 0 0 169 7␊u 0 0 96 10␊end fixed 96 18␊¦int main(){return 0;}
end limit 558 40␊¦void w(int n){while(n){n--;if(n==2)continue;else break;}do n++;while(n<3);}int main(){w(4);return 0;}
file¦char s[]="ab",*t="cd";int main(){s[0]=t[1];return s[2];}
t 0 17 191 33␊t 2 2 150 47␊t 3 1 129 58␊t 3 3 106 61␊t 4 1 97 69␊u 0 0 63 84␊end fixed 63 121␊¦int main(){}
s 0 0 256 1␊c 0 1 251 4␊c 0 2 219 6␊u 0 0 96 14␊end fixed 96 22␊¦int main(){return 0;}
t 0 17 191 33␊end limit 191 40␊¦char s[]="ab",*t="cd";int main(){}
file¦int m(int,int);int m(int a,int b){return a<b?a:b;}int main(){short k=-1;unsigned y=k;return m(3,(int)(y>>31))-1;}
t 0 42 490 58␊t 1 0 408 59␊t 1 10 318 70␊t 2 17 274 101␊t 2 18 227 103␊t 3 17 208 122␊t 3 17 189 123␊t 4 10 180 134␊b 1 0 123 146␊u 0 0 63 155␊end fixed 63 192␊¦int main(){}
s 0 3 483 4␊c 0 0 417 5␊c 0 1 407 7␊c 0 2 404 9␊p 0 0 351 14␊p 0 0 340 15␊u 0 0 277 20␊u 2 0 224 22␊u 2 0 168 23␊end fixed 168 34␊¦int m(void){return 0;}int main(){}
end limit 657 40␊¦int m(int,int);int m(int a,int b){return a<b?a:b;}int main(){short k=-1;unsigned y=k;return m(3,(int)(y>>31))-1;}
file¦int putchar(int);void exit(int);int main(){putchar(65);exit(3);}
t 2 17 259 67␊t 2 18 215 69␊t 3 17 197 87␊u 0 0 129 118␊u 0 0 63 119␊end fixed 63 156␊¦int main(){}
end limit 307 40␊¦int putchar(int);void exit(int);int main(){putchar(65);exit(3);}
file¦long long b=1ll<<40;int main(){const int c=2;return (b>>39)-c|c^c&~c;}
t 0 18 221 34␊t 1 0 130 35␊t 2 5 83 46␊t 3 5 63 52␊end fixed 63 101␊¦int main(){}
c 0 0 364 3␊c 0 1 362 5␊c 0 2 226 7␊u 0 0 161 15␊u 2 0 96 16␊end fixed 96 24␊¦int main(){return 0;}
t 0 18 221 34␊t 1 0 130 35␊end limit 130 40␊¦int main(){const int c=2;}
"#;

/// One log with its files.
#[derive(Clone, Copy)]
struct Logged {
    copy: &'static str,
    log: &'static str,
    file: &'static str,
}

/// The fields of an accepted line that tests change.
const INDEX: usize = 2;

const SIZE: usize = 3;

const TURN: usize = 4;

fn number_in(line: &str, field: usize) -> u64 {
    let mut at = 0usize;
    for cell in line.split(' ') {
        if at == field {
            return cell.parse().unwrap_or(0);
        }
        at = at.saturating_add(1);
    }
    0
}

// The line, with one more in this field.
fn push_raised(text: &mut String, line: &str, field: usize) -> Result<(), AllocError> {
    let mut at = 0usize;
    for cell in line.split(' ') {
        if at > 0 {
            text.push(' ')?;
        }
        if at == field {
            let more = number_in(line, field).saturating_add(1);
            write!(text, "{more}")?;
        } else {
            text.push_str(cell)?;
        }
        at = at.saturating_add(1);
    }
    Ok(())
}

impl Logged {
    // This line, from 0, without its end.
    fn line(self, number: u64) -> &'static str {
        let mut at = 0u64;
        for line in self.log.split('␊') {
            if at == number {
                return line;
            }
            at = at.saturating_add(1);
        }
        ""
    }

    // How many variants were accepted.
    fn count(self) -> u64 {
        let mut count = 0u64;
        for line in self.log.split('␊') {
            if !line.is_empty() && !line.starts_with("end ") {
                count = count.saturating_add(1);
            }
        }
        count
    }

    // The turn of this line, from 0; that of the last line is the count of turns.
    fn turn(self, number: u64) -> u64 {
        let line = self.line(number);
        let field = if line.starts_with("end") { 3 } else { TURN };
        number_in(line, field)
    }

    // The log, with one more in this field of this line, from 0.
    fn raised(self, alloc: Global, number: u64, field: usize) -> Result<String, AllocError> {
        let mut text = String::new(alloc);
        for at in 0..self.count().saturating_add(1) {
            if at == number {
                push_raised(&mut text, self.line(at), field)?;
            } else {
                text.push_str(self.line(at))?;
            }
            text.push('␊')?;
        }
        Ok(text)
    }

    fn expect(
        self,
        rt: &impl Abort,
        alloc: Global,
        wanted: &str,
        log: &str,
    ) -> Result<(), AllocError> {
        let copy = bytes_of(alloc, self.copy)?;
        let log = bytes_of(alloc, log)?;
        let file = bytes_of(alloc, self.file)?;
        expect_line(rt, alloc, wanted, &copy, &log, &file)
    }

    fn expect_yes(self, rt: &impl Abort, alloc: Global, log: &str) -> Result<(), AllocError> {
        let wanted = format!(in alloc; "t.c replay yes accepted {}", self.count())?;
        self.expect(rt, alloc, wanted.as_str(), log)
    }

    // That line `number`, from 1, is the first that fails.
    fn expect_break(
        self,
        rt: &impl Abort,
        alloc: Global,
        number: u64,
        log: &str,
    ) -> Result<(), AllocError> {
        let wanted = format!(in alloc; "creduce: replay: line {number}")?;
        self.expect(rt, alloc, wanted.as_str(), log)
    }

    // What is put about the log with another cursor.
    fn line_elsewhere(self, alloc: Global, at: u64) -> Result<String, AllocError> {
        let copy = bytes_of(alloc, self.copy)?;
        let log = bytes_of(alloc, self.raised(alloc, at, INDEX)?.as_str())?;
        let file = bytes_of(alloc, self.file)?;
        line_of(alloc, 1_000_000, "ltbusciprf", &copy, &log, &file)
    }
}

// A log is refused at a line of another size.
fn expect_sizes(rt: &impl Abort, alloc: Global, one: Logged) -> Result<(), AllocError> {
    let count = one.count();
    for at in 0..count {
        let log = one.raised(alloc, at, SIZE)?;
        one.expect_break(rt, alloc, at.saturating_add(1), log.as_str())?;
    }
    let log = one.raised(alloc, count, 2)?;
    one.expect_break(rt, alloc, count.saturating_add(1), log.as_str())
}

// A log is taken with another turn, as long as turns rise.
fn expect_turns(rt: &impl Abort, alloc: Global, one: Logged) -> Result<(), AllocError> {
    let count = one.count();
    for at in 0..count {
        let log = one.raised(alloc, at, TURN)?;
        let behind = at.saturating_add(1);
        let free = one.turn(behind).saturating_sub(one.turn(at));
        // The last line has the same turn, or a later one.
        if free > 1 || behind == count && free == 1 {
            one.expect_yes(rt, alloc, log.as_str())?;
        } else {
            one.expect_break(rt, alloc, behind.saturating_add(1), log.as_str())?;
        }
    }
    Ok(())
}

// A log with another cursor is refused there or later, but where it leads to the same file.
fn expect_cursors(rt: &impl Abort, alloc: Global, one: Logged) -> Result<(), AllocError> {
    for at in 0..one.count() {
        let found = one.line_elsewhere(alloc, at)?;
        let line = found.as_str();
        let so = match line.strip_prefix("creduce: replay: line ") {
            Some(number) => number.parse().unwrap_or(0u64) > at,
            None => line.starts_with("t.c replay yes accepted"),
        };
        assert!(rt; so, "{}: {line}", one.log);
    }
    Ok(())
}

fn expect_all(rt: &impl Abort, alloc: Global, one: Logged) -> Result<(), AllocError> {
    one.expect_yes(rt, alloc, one.log)?;
    expect_sizes(rt, alloc, one)?;
    expect_turns(rt, alloc, one)?;
    expect_cursors(rt, alloc, one)
}

// A file and its logs.
fn expect_block(rt: &impl Abort, alloc: Global, block: &'static str) -> Result<(), AllocError> {
    let mut rows = block.lines();
    let copy = rows.next().unwrap_or("");
    for row in rows {
        let (log, file) = row.split_once('¦').unwrap_or(("", ""));
        expect_all(rt, alloc, Logged { copy, log, file })?;
    }
    Ok(())
}

#[test]
fn the_log_of_a_reduction_is_taken_and_another_size_is_refused_at_its_line(
    rt: HostRuntime,
) -> Result<(), AllocError> {
    for block in REDUCTIONS.trim_start().split("file¦") {
        expect_block(&rt, rt.alloc(), block)?;
    }
    Ok(())
}
