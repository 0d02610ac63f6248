// Programs that are reduced as long as they behave the same. How they behave was found by hand.
use crate::runs::outcome;
use crate::texts::{bytes_of, words_of};
use std::alloc::{AllocError, Global};
use std::process::Abort;
use std::sync::Wait;
use std::thread::Threads;

/// The status and the output of a program.
const PROGRAMS: &str = r#"
0¦∅¦int f(int x){return x;}int main(void){int i=0;i=f(i);return i;}
0¦∅¦typedef int T;T a[2]={1,2};struct s{T m;const int c;}x={1,2};int main(){T*p=a;x.m=*p+a[1];return x.m-3;}
0¦∅¦enum e{A,B=5,C};int main(){enum e v=B;switch(v){case A:return 1;case B:break;default:return 2;}return v-5;}
0¦1␠2␠A␠x%¦int printf(const char *, ...);int main(void){printf("%d %u %c %s%%",1,2u,65,"x");return 0;}
1¦∅¦volatile int v=1;int main(){v=v+1;v++;return v&&v;}
0¦∅¦int main(){int i=3;L:if(i){i--;goto L;}return i;}
0¦∅¦struct p{int a;struct p*n;};static struct p q;int g(struct p*r){return r?r->a:0;}int main(){q.n=&q;return g(q.n);}
0¦∅¦extern int u;int u=3;static int h(int a,char b){return a+b;}int main(){unsigned long z=sizeof(int);return h(u,1)+z-8;}
0¦∅¦int main(){int a[2][3]={{1,2},{3}};int*p=&a[0][2];for(int i=0;i<2;i++){a[i][0]+=i;}return *p;}
0¦∅¦void w(int n){while(n){n--;if(n==2)continue;else break;}do n++;while(n<3);}int main(){w(4);return 0;}
0¦∅¦char s[]="ab",*t="cd";int main(){s[0]=t[1];return s[2];}
0¦∅¦int m(int,int);int m(int a,int b){return a<b?a:b;}int main(){short k=-1;unsigned y=k;return m(3,(int)(y>>31))-1;}
3¦A¦int putchar(int);void exit(int);int main(){putchar(65);exit(3);}
2¦∅¦long long b=1ll<<40;int main(){const int c=2;return (b>>39)-c|c^c&~c;}
"#;

// That a run of these words on the file ends with this status, and what the file has then.
fn reduced(
    rt: &(impl Abort + Threads + Wait + Sync),
    alloc: Global,
    words: &str,
    file: Vec<u8>,
    status: u8,
    row: &str,
) -> Result<Vec<u8>, AllocError> {
    let words = words_of(alloc, words)?;
    let (ended, _, after, _, _) = outcome(rt, alloc, &words, file)?;
    assert!(rt; ended == status, "{row}: {ended}");
    match after {
        Some(after) => Ok(after),
        None => Ok(Vec::new(alloc)),
    }
}

fn expect_same(
    rt: &(impl Abort + Threads + Wait + Sync),
    alloc: Global,
    row: &str,
) -> Result<(), AllocError> {
    let (status, behind) = row.split_once('¦').unwrap_or(("", ""));
    let (output, text) = behind.split_once('¦').unwrap_or(("", ""));
    let file = bytes_of(alloc, text)?;
    let result = reduced(rt, alloc, "if:same t.c", file, 0, row)?;
    let words = format!(in alloc; "--limit 0 if:and(ends({status}),prints(\"{output}\")) t.c")?;
    reduced(rt, alloc, words.as_str(), result, 7, row)?;
    Ok(())
}

#[test]
fn what_is_reduced_by_same_behaves_as_before(rt: HostRuntime) -> Result<(), AllocError> {
    for row in PROGRAMS.trim_start().lines() {
        expect_same(&rt, rt.alloc(), row)?;
    }
    Ok(())
}
