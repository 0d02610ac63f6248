// Programs whose run hangs on the order of operands, and programs whose run doesn't. What is wanted of each was worked out by hand: the
// random ones were run in all orders.
use crate::shown::{expect_all, expect_all_by, most, ruled_by};
use cr_lawful_analysis::LastRead;
use cr_order::OrderLaw;
use std::alloc::{AllocError, Global};
use std::test::Fail;

// A ruling of the law of programs that run alike in any order, and the file, as in `rulings`. N8 is `left 8`, and stands on the line of the
// first node whose operands see one another. The initialisers of a declarator are those of all lists in its list, with no order among them
// (C11 6.7.9p23), and N8 stands at the brace of the innermost list that has both.
const ORDERS: &str = r#"
left 8 2¦int x;int f(void){x=1;return 2;}int g(void){return 3;}\nint main(){return x+f();}
left 8 2¦int x;int f(void){x=1;return 2;}int g(void){return 3;}\nint main(){return f()+g();}
lawful 2¦int x;int f(void){x=1;return 2;}int g(void){return 3;}\nint main(){x=f();return x;}
lawful 7¦int x;int f(void){x=1;return 2;}int g(void){return 3;}\nint main(){int y=5;return y+f();}
left 8 2¦void exit(int);void abort(void);int putchar(int);int printf(const char*,...);\nint h(void){exit(0);}int main(){return h()+1/0;}
lawful 0¦int x;int f(void){x=1;return 2;}int g(void){return 3;}\nint main(){return x+(0&&f());}
lawful 0¦int x;int f(void){x=1;return 2;}int g(void){return 3;}\nint main(){return x+(1?x:f());}
lawful 1¦int x;int f(void){x=1;return 2;}int g(void){return 3;}\nint main(){return f()&&x;}
lawful 1¦int x;int f(void){x=1;return 2;}int g(void){return 3;}\nint main(){return f(),x;}
lawful 1¦int x;int f(void){x=1;return 2;}int g(void){return 3;}\nint main(){return f()?x:g();}
left 8 3¦int x;int f(void){x=1;return 2;}int g(void){return 3;}\nint main(){\nreturn g()+\ng();}
left 8 4¦int x;int f(void){x=1;return 2;}int g(void){return 3;}\nint main(){\nreturn g()*\n(x+f());}
left 8 2¦int x;int f(void){x=1;return 2;}\nint h(void){return x+f();}\nint main(){return x+h();}
lawful 2¦int x;int f(int a,int b){x=a;return b;}\nint main(){int y=4;return f(y,f(1,2));}
left 8 2¦int x;int f(int a,int b){x=a;return b;}\nint main(){return f(x,f(1,2));}
lawful 1¦int x;int f(int a){x=a;return x;}\nint main(){return f(x+1);}
lawful 3¦int a[2];int main(){return (a[0]=3)+a[1];}
lawful 1¦int a[2]={1,2},i;int main(){return a[i++];}
left 8 1¦int a[2]={1,2},*p=a;int f(void){p=a+1;return 0;}int main(){return p[f()];}
lawful 3¦void exit(int);void abort(void);int putchar(int);int printf(const char*,...);\nint main(){exit(3);return 0;}
lawful 5¦void exit(int);void abort(void);int putchar(int);int printf(const char*,...);\nint k(int a,int b){exit(a);}int main(){k(5,6);return 0;}
left 8 3¦void exit(int);void abort(void);int putchar(int);int printf(const char*,...);\nint k(void){exit(4);}int main(){int y;\ny=k();return y;}
left 8 4¦void exit(int);void abort(void);int putchar(int);int printf(const char*,...);\nint k(void){exit(4);}\nint main(){int y;y=\n1+k()\n;return y;}
left 8 4¦void exit(int);void abort(void);int putchar(int);int printf(const char*,...);\nint x;int f(void){x=1;return 2;}\nint k(int a,int b){exit(a);}int main(){\nk(f(),x);return 0;}
left 8 2¦void exit(int);void abort(void);int putchar(int);int printf(const char*,...);\nint k(void){abort();}int main(){return 0*k();}
left 8 2¦void exit(int);void abort(void);int putchar(int);int printf(const char*,...);\nint main(){return putchar(65)-putchar(65);}
lawful 0 A¦void exit(int);void abort(void);int putchar(int);int printf(const char*,...);\nint main(){int i=1;return putchar(65)-64-i;}
left 8 3¦void exit(int);void abort(void);int putchar(int);int printf(const char*,...);\nint x;int f(void){return x=7;}int main(){\nprintf("%d%d",x,f());}
left 8 1¦volatile int v,w;int main(){return v+w;}
lawful 5¦volatile int v=2;int w=3;int main(){return v+w;}
left 8 1¦volatile int v;int g(void){return 1;}int main(){return v+g();}
left 8 4¦int x;int f(void){x=1;return 2;}int g(void){return 3;}\nint main(){\nint a[2]=\n{f(),g()};return a[0];}
lawful 2¦int x;int f(void){x=1;return 2;}int g(void){return 3;}\nint main(){int a[3]={f(),7,8};return a[0];}
left 8 2¦int x;int f(void){x=1;return 2;}int g(void){return 3;}\nint main(){int a[2]={x,f()};return a[0];}
lawful 3¦int x;int f(void){x=1;return 2;}int g(void){return 3;}\nint main(){int a[2]={f()};return a[0]+x;}
left 8 3¦int x;int f(void){x=1;return 2;}int g(void){return 3;}\nint main(){int a[2][2]=\n{{f(),1},\n{g(),2}};return a[0][0];}
left 8 3¦int x;int f(void){x=1;return 2;}int g(void){return 3;}\nint main(){int a[2][2]={{1,2},\n{g(),g()}};return a[0][0];}
left 8 1¦int main(){int i=0;int a[2]={i++,i++};return a[0];}
lawful 3¦int x;int f(void){x=1;return 2;}int g(void){return 3;}\nint main(){int a=f(),b=x;return a+b;}
lawful 1¦int x;int f(void){x=1;return 2;}int g(void){return 3;}\nint a[4];int main(){return &a[f()-2]==a;}
left 8 1¦int a[2],*p=a;int f(void){p=a+1;return 0;}int main(){return &p[f()]==a;}
lawful 6¦int x=1;int f(void){x=5;return 1;}int main(){x+=f();return x;}
left 8 3¦int x,i;int f(void){x=1;return 0;}int main(){\nfor(i=0;i<2;i++)\nx+(i&&f());}
lawful 4¦int x;int f(void){x=1;return 2;}int g(void){return 3;}\nint main(){return x+(int)sizeof f();}
left 8 1¦struct s{int a,b;}s;int f(void){s.b=1;return 1;}int main(){return (s,1)+f();}
lawful 1¦struct s{int a,b;}s;int f(void){s.b=1;return 1;}int main(){return s.a+f();}
lawful 1¦struct s{int a,b;}s;int main(){return s.a+(s.b=1);}
left 8 1¦int f(void){static int n;return ++n;}int main(){return f()+f();}
lawful 6¦int x=1,y=2,z;int f(void){z=3;return z;}int main(){return x+y*f()-x;}
lawful 4¦int x;int f(int a){x=a;return a+1;}int main(){return f(f(f(1)));}
lawful 8¦int x=1,y=2,a[2]={1,2},*p=&x;\nint main(){int l=0;\nl^=(*p||((x|*p)==a[x&1]));\nl+=(a[1]+=((++*p),((3&&l)+2)));\nreturn (l+x)&15;}\n
lawful 7¦int x=1,y=2,a[2]={1,2},*p=&x;\nint g(int k){return k+y;}\nint h(void){a[1]=x;return 3;}\nint main(){int l=0;\nl=h();\nl+=g(x);\nreturn (l+x)&15;}\n
lawful 3¦int x=1,y=2,a[2]={1,2},*p=&x;\nint main(){int l=0;\nl=((a[0]++)==(l));\nl+=(((y|*p)<(0&&3)),((*p|=a[0])==~l));\nreturn (l+x)&15;}\n
lawful 4¦int x=1,y=2,a[2]={1,2},*p=&x;\nvolatile int v=1;\nint main(){int l=0;\nl+=((v&1)*(l&(a[0]-a[a[1]&1])));\nl^=(a[x&1]^(v&1));\nreturn (l+x)&15;}\n
lawful 13¦int x=1,y=2,a[2]={1,2},*p=&x;\nvolatile int v=1;\nint e(int k,int l){*p=k;return k-l;}\nint main(){int l=0;\nl+=v;\nl+=(a[0]*e((a[0]<x),(a[1]+=a[1])));\nreturn (l+x)&15;}\n
lawful 4¦int x=1,y=2,a[2]={1,2},*p=&x;\nvolatile int v=1;\nint f(int k){x=k;return k+1;}\nint main(){int l=0;\nl^=f(v);\nl^=(-l<f((y==f(*p))));\nreturn (l+x)&15;}\n
lawful 8¦int x=1,y=2,a[2]={1,2},*p=&x;\nint h(void){a[1]=x;return 3;}\nint main(){int l=0;\nl+=((0&x)^h());\nl+=((a[0])^(++x));\nreturn (l+x)&15;}\n
left 8 4¦int x=1,y=2,a[2]={1,2},*p=&x;\nint f(int k){x=k;return k+1;}\nint main(){int l=0;\nl^=(x|=(x==f(l)));\nl=1;\nreturn (l+x)&15;}\n
lawful 4¦int x=1,y=2,a[2]={1,2},*p=&x;\nvolatile int v=1;\nint h(void){a[1]=x;return 3;}\nint main(){int l=0;\nl=((v&1)==(*p));\nl+=((1&l)^h());\nreturn (l+x)&15;}\n
lawful 1¦int x=1,y=2,a[2]={1,2},*p=&x;\nint g(int k){return k+y;}\nint main(){int l=0;\nl+=(a[1]++);\nl=(g((a[y&1]?3:a[1]))==!*p);\nreturn (l+x)&15;}\n
lawful 1¦int x=1,y=2,a[2]={1,2},*p=&x;\nint h(void){a[1]=x;return 3;}\nint main(){int l=0;\nl+=(h()==2);\nl^=(h()==(y||(*p^0)));\nreturn (l+x)&15;}\n
lawful 1¦int x=1,y=2,a[2]={1,2},*p=&x;\nvolatile int v=1;\nint main(){int l=0;\nl=(((1||a[1])||*p)-a[y&1]);\nl=((v&1)<x);\nreturn (l+x)&15;}\n
lawful 4¦int x=1,y=2,a[2]={1,2},*p=&x;\nvolatile int v=1;\nint main(){int l=0;\nl+=(v&1);\nl=(((2||y)||(a[x&1]*(y--)))^a[x&1]);\nreturn (l+x)&15;}\n
left 8 4¦int x=1,y=2,a[2]={1,2},*p=&x;\nint h(void){a[1]=x;return 3;}\nint main(){int l=0;\nl+=(a[1]*h());\nl^=(2^(*p&&(a[x&1]+h())));\nreturn (l+x)&15;}\n
left 8 6¦int x=1,y=2,a[2]={1,2},*p=&x;\nint h(void){a[1]=x;return 3;}\nint e(int k,int l){*p=k;return k-l;}\nint main(){int l=0;\nl=(a[0]++);\nl+=e((*&a[1]+(0?a[a[1]&1]:3)),h());\nreturn (l+x)&15;}\n
left 8 4¦int x=1,y=2,a[2]={1,2},*p=&x;\nint h(void){a[1]=x;return 3;}\nint main(){int l=0;\nl^=(a[*p&1]^h());\nl+=(a[0]++);\nreturn (l+x)&15;}\n
left 8 5¦int x=1,y=2,a[2]={1,2},*p=&x;\nint g(int k){return k+y;}\nint h(void){a[1]=x;return 3;}\nint main(){int l=0;\nl=(g((h()+a[1]))+a[1]);\nl^=!a[1];\nreturn (l+x)&15;}\n
left 8 5¦int x=1,y=2,a[2]={1,2},*p=&x;\nint f(int k){x=k;return k+1;}\nint main(){int l=0;\nl+=(0<(a[1]^=f(x)));\nl+=(~*p*f((a[a[0]&1]&y)));\nreturn (l+x)&15;}\n
left 8 6¦int x=1,y=2,a[2]={1,2},*p=&x;\nvolatile int v=1;\nint h(void){a[1]=x;return 3;}\nint main(){int l=0;\nl+=(v*y);\nl+=(h()*a[x&1]);\nreturn (l+x)&15;}\n
left 8 6¦int x=1,y=2,a[2]={1,2},*p=&x;\nvolatile int v=1;\nint h(void){a[1]=x;return 3;}\nint main(){int l=0;\nl=(v=x);\nl=(h()+a[x&1]);\nreturn (l+x)&15;}\n
left 8 5¦int x=1,y=2,a[2]={1,2},*p=&x;\nint f(int k){x=k;return k+1;}\nint h(void){a[1]=x;return 3;}\nint main(){int l=0;\nl^=f((x=(a[1]^h())));\nl+=(++y);\nreturn (l+x)&15;}\n
left 8 6¦int x=1,y=2,a[2]={1,2},*p=&x;\nint h(void){a[1]=x;return 3;}\nint e(int k,int l){*p=k;return k-l;}\nint main(){int l=0;\nl=(h()+(char)l);\nl=(-*p^(1&&(e(3,1)+a[*p&1])));\nreturn (l+x)&15;}\n
left 8 4¦int x=1,y=2,a[2]={1,2},*p=&x;\nint h(void){a[1]=x;return 3;}\nint main(){int l=0;\nl^=((a[a[0]&1]==x)-h());\nl^=(a[1]=(h()==a[l&1]));\nreturn (l+x)&15;}\n
left 8 4¦int x=1,y=2,a[2]={1,2},*p=&x;\nint h(void){a[1]=x;return 3;}\nint main(){int l=0;\nl^=(((1?y:*p)+a[1])^h());\nl^=(a[1]^(y^=((x+=*p)^a[l&1])));\nreturn (l+x)&15;}\n
"#;

// The same of each form of a node with operands in any order, one where they see one another beside one where they don't: assignments, calls
// with and without effects, calls within arguments, conditional operands, initialisers, and the ends of runs within operands.
const FORMS: &str = r#"
left 8 2¦int i,a[2];int f(void){i=1;return 5;}\nint main(){a[i]=f();return a[0];}
lawful 5¦int i,a[2];int f(void){a[1]=4;return 5;}\nint main(){a[i]=f();return a[0];}
left 8 2¦int i,a[2];int f(void){i=1;return 5;}\nint main(){a[i]+=f();return a[0];}
left 8 2¦int x,y,*p=&x;int f(void){p=&y;return 3;}\nint main(){*p=f();return x;}
lawful 3¦int x,*p=&x;int f(void){x=1;return 3;}\nint main(){*p=f();return x;}
lawful 3¦struct s{int a,b;}s,*q=&s;int f(void){s.b=1;return 2;}\nint main(){q->a=f();return s.a+s.b;}
left 8 2¦struct s{int a,b;}s,t;struct s*f(void){s.b=7;return &t;}\nint main(){*f()=s;return t.b;}
lawful 4¦int x,y,z;int main(){x=y=z=4;return x;}
left 8 2¦int a[4];int f(void){return 1;}int g(void){return 2;}\nint main(){a[f()]=g();return a[1];}
left 8 2¦int a[2];int main(){int i=0,j=3;\na[i++]=j++;return a[0];}
lawful 5¦int x=1,y;int main(){x+=(y=2);return x+y;}
lawful 2¦int a[2],n;int f(void){return n++;}\nint main(){a[f()]++;return a[0]+n;}
lawful 4¦int g(void){return 3;}\nint main(){int l=2;return l*g()-l;}
lawful 2¦int x=1;int r(void){return x;}\nint main(){return r()+x;}
left 8 2¦int x=1;int r(void){return x;}\nint main(){return r()+(x=4);}
left 8 2¦int w(int*p){*p=5;return 1;}\nint main(){int i=2;return i+w(&i);}
lawful 3¦int w(int*p){*p=5;return 1;}\nint main(){int i=2,j=3;return i+w(&j);}
lawful 2¦int w(int*p){*p=5;return 1;}\nint main(){int i=2;return (&i!=0)+w(&i);}
left 8 2¦int x;int f(void){x=1;return 2;}int h(void){return f();}\nint main(){return x<h();}
lawful 1¦int x,y=3;int f(void){x=1;return 2;}int h(void){return f();}\nint main(){return h()<y;}
lawful 3¦int x;int f(int a,int b){return a+b;}int g(int a){x=a;return a;}\nint main(){return f(g(1),2);}
left 8 2¦int x;int f(int a,int b){return a+b;}int g(int a){x=a;return a;}\nint main(){return f(g(1),g(2));}
left 8 2¦int x;int f(int a,int b){return a+b;}int g(int a){x=a;return a;}\nint main(){return f(g(1),x);}
left 8 3¦int x;int f(int a,int b){return a+b;}int g(int a){x=a;return a;}\nint main(){return f(3,\nf(x,g(2)));}
lawful 4¦int x=1;int f(int a,int b){x=a+b;return x;}\nint main(){return f(f(1,x),2);}
left 8 2¦int x=1;int f(int a,int b){x=a+b;return x;}\nint main(){return f(f(1,2),x);}
lawful 7¦int f(int a,int b){return a*b;}int main(){int i=2,j=3;return f(i,j)+1;}
lawful 0¦int x,c;int f(void){x=1;return 2;}\nint main(){return x+(c?f():0);}
left 8 2¦int x,c=1;int f(void){x=1;return 2;}\nint main(){return x+(c?f():0);}
lawful 4¦int x=1,y=2,c=1;int f(void){y=5;return 3;}\nint main(){return (c?x:y)+f();}
left 8 2¦int x=1,y=2,c;int f(void){y=5;return 3;}\nint main(){return (c?x:y)+f();}
lawful 2¦int x=1;int f(void){x=0;return 1;}\nint main(){return (x||f())+x;}
left 8 2¦int x;int f(void){x=1;return 1;}\nint main(){return (x||f())+x;}
lawful 3¦int x,y=1;int f(void){x=2;return 2;}\nint main(){return (f(),x)+y;}
left 8 2¦int x;int f(void){x=1;return 2;}\nint main(){return (f(),1)+x;}
left 8 2¦struct s{int a,b;};int x;int f(void){x=1;return 2;}\nint main(){struct s t={x,\nf()};return t.a;}
lawful 9¦struct s{int a,b;};int x;int f(void){x=1;return 2;}\nint main(){struct s t={f(),7};return t.a+t.b;}
left 8 2¦int main(){int i=0;\nint a[2]={i,i++};return a[1];}
left 8 3¦int x;int f(void){x=1;return 2;}\nint main(){int a[2]={1,\nx+f()};return a[0];}
left 8 2¦volatile int v=1;\nint main(){int a[2]={v,v};return a[0];}
lawful 2¦volatile int v=1;\nint main(){int a[2]={v,1};return a[0]+a[1];}
left 8 3¦int x;int f(void){x=1;return 2;}\nint main(){int a[2][2]=\n{{x,1},\n{f(),2}};return a[0][0];}
lawful 6¦int x;int f(void){x=1;return 2;}\nint main(){int a[2][2]={{f(),1},{3,4}};return a[0][0]+a[1][1];}
lawful 3¦int x;int f(void){x=1;return 2;}\nint main(){int a=f()+1;return a;}
left 8 2¦void exit(int);\nint main(){return 1+(exit(2),1);}
lawful 4¦void exit(int);int k(void){exit(4);}\nint main(){return -k();}
lawful 4¦void exit(int);int k(void){exit(4);}\nint main(){return k()?1:2;}
lawful 4¦void exit(int);int k(void){exit(4);}\nint main(){return k()&&1;}
lawful 4¦void exit(int);int k(void){exit(4);}\nint main(){int y=k();return y;}
lawful 4¦void exit(int);int k(void){exit(4);}\nint main(){int a[2]={k()};return a[0];}
left 8 2¦void exit(int);int k(void){exit(4);}\nint main(){int a[2]={1,k()};return a[0];}
lawful 4¦void exit(int);int k(void){exit(4);}int g(int a){return a;}\nint main(){return g(k());}
left 8 2¦void exit(int);int k(void){exit(4);}int g(int a,int b){return a;}\nint main(){return g(k(),1);}
left 8 2¦void exit(int);int k(void){exit(4);}\nint a[5];int main(){return a[k()];}
left 8 2¦void exit(int);int k(void){exit(4);}\nint main(){int x=1;x+=k();return x;}
lawful 4¦void exit(int);int k(void){exit(4);}\nint main(){int x=1;if(x)k();return x;}
"#;

// Lists within lists: the first of them to end that has two which see one another, before or behind an evaluation within an initialiser, and
// where `exit` or `abort` cuts several off the innermost that has another initialiser.
const LISTS: &str = r#"
left 8 4¦int f(void){return 1;}int g(void){return 3;}\nint main(){int a[2][2]=\n{{1,2},\n{f(),g()}};return a[0][0];}
left 8 3¦int f(void){return 1;}int g(void){return 3;}\nint main(){int a[2][2]=\n{{f(),2},\n{1,g()}};return a[0][0];}
left 8 4¦int f(void){return 1;}int g(void){return 3;}\nint main(){int a[3][2]=\n{{f(),2},\n{f(),g()},\n{f(),f()}};return a[0][0];}
left 8 4¦struct s{int a,b[2];};int f(void){return 1;}int g(void){return 3;}\nint main(){struct s t=\n{f(),\n{g(),g()}};return t.a;}
left 8 3¦int f(void){return 1;}int g(void){return 3;}\nint main(){int a[2]=\n{f(),\n{g()}};return a[0];}
left 8 3¦int f(void){return 1;}int g(void){return 3;}\nint main(){int a[2][2]=\n{f(),\ng(),1,2};return a[0][0];}
left 8 5¦int f(void){return 1;}int g(void){return 3;}\nint main(){int a[1][2][2]=\n{{\n{1,2},\n{f(),g()}}};return a[0][0][0];}
left 8 4¦int f(void){return 1;}int g(void){return 3;}\nint main(){int a[1][2][2]=\n{\n{{1,f()},\n{g(),2}}};return a[0][0][0];}
left 8 4¦int x;int f(void){x=1;return 2;}int g(void){return 3;}\nint main(){int a[2][2]=\n{\n{f(),g()},\n{1,\nx+f()}};return a[0][0];}
left 8 5¦int x;int f(void){x=1;return 2;}int g(void){return 3;}\nint main(){int a[2][2]=\n{{1,f()},\n{g(),\nx+f()}};return a[0][0];}
left 8 4¦int x;int f(void){x=1;return 2;}int g(void){return 3;}\nint main(){int a[2][2]=\n{{1,\nx+f()},\n{f(),g()}};return a[0][0];}
left 8 4¦int x;int f(void){x=1;return 2;}\nint main(){int a[2][2]=\n{{3,4},\n{x,f()}};return a[0][0];}
lawful 2¦int x;int f(void){x=1;return 2;}\nint main(){int a[2][2]={{f(),4},{3,5}};return a[0][0];}
left 8 4¦void exit(int);int k(void){exit(4);}\nint main(){int a[2][2]=\n{{1,2},\n{k(),3}};return a[0][0];}
left 8 3¦void exit(int);int k(void){exit(4);}\nint main(){int a[2][2]=\n{{1,2},\n{k()}};return a[0][0];}
left 8 4¦void abort(void);int k(void){abort();}\nint main(){int a[1][2][2]=\n{{\n{1,k()}}};return a[0][0][0];}
lawful 4¦void exit(int);int k(void){exit(4);}\nint main(){int a[1][1]={{k()}};return a[0][0];}
left 8 3¦int f(void){return 1;}void exit(int);int k(void){exit(4);}\nint main(){int a[2][2]=\n{{f(),2},\n{k()}};return a[0][0];}
left 8 3¦int f(void){return 1;}void exit(int);int k(void){exit(4);}\nint main(){int a[2][2]={\n{f(),f()},\n{1,k()}};return a[0][0];}
"#;

// The same files by the law that asks nothing of the order.
const BY_CLAW: &str = r#"
lawful 2¦int x;int f(void){x=1;return 2;}int g(void){return 3;}\nint main(){return x+f();}
lawful 5¦int x;int f(void){x=1;return 2;}int g(void){return 3;}\nint main(){return f()+g();}
lawful 0¦void exit(int);int h(void){exit(0);}int main(){return h()+1/0;}
"#;

// What has a reason by that law has that one, and not N8.
const FIRST: &str = r#"
undefined 2 2¦int f(void){return 1;}int main(){f()+f();\nreturn 1/0;}
undefined 12 2¦int f(void){return 1;}int main(){int i=1;f()+f();\ni=i++;return i;}
undefined 12 2¦int a[2];int main(){int i=0;\na[i]=i++;return i;}
undefined 12 2¦int a[2];int main(){int i=0;\na[i++]=i;return i;}
left 1 2¦int f(void){return 1;}int main(){f()+f();\nfor(;;);}
type 37 1¦int f(void){return 1;}int main(){int*p=1;return f()+f();}
parse 2 1¦int f(void){return 1;}int main(){f()+f()
"#;

fn law() -> OrderLaw<'static> {
    OrderLaw {
        limits: most(),
        last: None,
        runs: None,
    }
}

#[test]
fn a_run_hangs_on_no_order_or_n8_stands_at_the_node(rt: HostRuntime) -> Result<(), Fail> {
    expect_all_by(rt.alloc(), ORDERS, &law())
}

#[test]
fn each_form_of_a_node_has_its_operands_in_any_order(rt: HostRuntime) -> Result<(), Fail> {
    expect_all_by(rt.alloc(), FORMS, &law())?;
    expect_all_by(rt.alloc(), LISTS, &law())
}

#[test]
fn the_law_of_programs_asks_for_no_order_and_its_reasons_come_first(
    rt: HostRuntime,
) -> Result<(), Fail> {
    let alloc = rt.alloc();
    expect_all(alloc, BY_CLAW)?;
    expect_all_by(alloc, FIRST, &law())
}

// The law leaves what it read of a file that is lawful, and nothing of one whose run hangs on an order.
#[test]
fn what_is_read_of_a_file_is_left_where_no_order_matters(rt: HostRuntime) -> Result<(), Fail> {
    let alloc = rt.alloc();
    let fixed = "int f(void){return 1;}int main(){return f();}";
    let loose = "int f(void){return 1;}int main(){return f()+f();}";
    assert!(rt;
        left(alloc, fixed)? && !left(alloc, loose)?,
        "what the law leaves is another file's, or isn't left"
    );
    Ok(())
}

fn left(alloc: Global, file: &str) -> Result<bool, AllocError> {
    let last = LastRead::new();
    let law = OrderLaw {
        limits: most(),
        last: Some(&last),
        runs: None,
    };
    ruled_by(alloc, file.as_bytes(), &law)?;
    Ok(last.take(file.as_bytes()).is_some())
}
