ghost use Rattle.std.specs.Prelude.{◌≤◌, length};

use cr_cursor::{Cursor, Passes};
use pass_list::CPasses;
use std::alloc::{AllocError, Global};
use std::process::Abort;

// Files, and behind each the pass, level and index of a variant and the level's width, and the variant, which is the file where there is
// none. Of the first files the variants were worked out by hand, of the others by another reading of the same rules.
const VARIANTS: &str = r#"
file¦
c 0 0 0¦
s 0 0 0¦
f 0 0 0¦
file¦f(1);
c 0 0 0¦f(1);
s 0 0 0¦f(1);
f 0 0 0¦f(1);
t 4 0 5¦(1);
b 0 0 1¦f;
file¦int main(){if(1){return 2;}else return 3;}
s 0 0 2¦int main(){}
s 0 1 2¦int main(){if(1){}else return 3;}
s 1 0 1¦int main(){{return 2;}}
s 2 0 1¦int main(){return 3;}
s 3 0 2¦int main(){if(1);else return 3;}
s 3 1 2¦int main(){if(1){return 2;}else ;}
s 4 0 0¦int main(){if(1){return 2;}else return 3;}
s 5 0 0¦int main(){if(1){return 2;}else return 3;}
file¦int main(){return 1+2*3;}
c 0 0 5¦int main(){return 0;}
c 0 1 5¦int main(){return 0+2*3;}
c 0 2 5¦int main(){return 1+0;}
c 0 4 5¦int main(){return 1+2*0;}
c 1 3 5¦int main(){return 1+1*3;}
c 2 0 2¦int main(){return 1;}
c 2 1 2¦int main(){return 1+2;}
c 3 0 2¦int main(){return 2*3;}
c 3 1 2¦int main(){return 1+3;}
c 4 0 0¦int main(){return 1+2*3;}
file¦int x,f(int,int);int main(){return(1)/*a*/+/*b*/ sizeof(x),f(2,3),(int)-4?5:6;}int f(int a,int b){return a;}
c 0 0 18¦int x,f(int,int);int main(){return 0;}int f(int a,int b){return a;}
c 0 3 18¦int x,f(int,int);int main(){return 0/*a*/+/*b*/ sizeof(x),f(2,3),(int)-4?5:6;}int f(int a,int b){return a;}
c 2 0 9¦int x,f(int,int);int main(){return(1)/*a*/+/*b*/ sizeof(x),f(2,3);}int f(int a,int b){return a;}
c 2 2 9¦int x,f(int,int);int main(){return(1),f(2,3),(int)-4?5:6;}int f(int a,int b){return a;}
c 2 3 9¦int x,f(int,int);int main(){return 1/*a*/+/*b*/ sizeof(x),f(2,3),(int)-4?5:6;}int f(int a,int b){return a;}
c 2 5 9¦int x,f(int,int);int main(){return(1)/*a*/+/*b*/ sizeof(x),2,(int)-4?5:6;}int f(int a,int b){return a;}
c 2 6 9¦int x,f(int,int);int main(){return(1)/*a*/+/*b*/ sizeof(x),f(2,3),5;}int f(int a,int b){return a;}
c 2 7 9¦int x,f(int,int);int main(){return(1)/*a*/+/*b*/ sizeof(x),f(2,3),-4?5:6;}int f(int a,int b){return a;}
c 3 4 5¦int x,f(int,int);int main(){return(1)/*a*/+/*b*/ sizeof(x),f(2,3),6;}int f(int a,int b){return a;}
file¦int x,f();int main(){return(1)/*a*/+/*b*/ sizeof(x),f(2,3),(int)-4?5:6;}
c 0 0 0¦int x,f();int main(){return(1)/*a*/+/*b*/ sizeof(x),f(2,3),(int)-4?5:6;}
c 2 0 0¦int x,f();int main(){return(1)/*a*/+/*b*/ sizeof(x),f(2,3),(int)-4?5:6;}
file¦int x;int main(){{ ;/*a*/{}}do x;while(1);for(;;);switch(1){case 1:while(1)x;default:;}}
s 0 0 8¦int x;int main(){do x;while(1);for(;;);switch(1){case 1:while(1)x;default:;}}
s 0 1 8¦int x;int main(){{ /*a*/{}}do x;while(1);for(;;);switch(1){case 1:while(1)x;default:;}}
s 0 2 8¦int x;int main(){{ ;/*a*/}do x;while(1);for(;;);switch(1){case 1:while(1)x;default:;}}
s 0 6 8¦int x;int main(){{ ;/*a*/{}}do x;while(1);for(;;);switch(1){default:;}}
s 1 0 4¦int x;int main(){{ ;/*a*/{}}x;for(;;);switch(1){case 1:while(1)x;default:;}}
s 1 1 4¦int x;int main(){{ ;/*a*/{}}do x;while(1);;switch(1){case 1:while(1)x;default:;}}
s 1 2 4¦int x;int main(){{ ;/*a*/{}}do x;while(1);for(;;);{case 1:while(1)x;default:;}}
s 1 3 4¦int x;int main(){{ ;/*a*/{}}do x;while(1);for(;;);switch(1){case 1:x;default:;}}
s 3 0 6¦int x;int main(){{ ;/*a*/{}}do ;while(1);for(;;);switch(1){case 1:while(1)x;default:;}}
s 3 1 6¦int x;int main(){{ ;/*a*/{}}do x;while(1);for(;;);switch(1){case 1:while(1)x;default:;}}
s 3 2 6¦int x;int main(){{ ;/*a*/{}}do x;while(1);for(;;);switch(1);}
s 3 3 6¦int x;int main(){{ ;/*a*/{}}do x;while(1);for(;;);switch(1){case 1:;default:;}}
s 3 4 6¦int x;int main(){{ ;/*a*/{}}do x;while(1);for(;;);switch(1){case 1:while(1);default:;}}
s 4 0 2¦int x;int main(){ ;/*a*/{}do x;while(1);for(;;);switch(1){case 1:while(1)x;default:;}}
s 4 1 2¦int x;int main(){{ ;/*a*/}do x;while(1);for(;;);switch(1){case 1:while(1)x;default:;}}
f 0 0 1¦int x;int main(){{;{}}do x;while(1);for(;;);switch(1){case 1:while(1)x;default:;}}
file¦int f(int x){return x+1;}int main(){return f(2*3);}
i 0 0 1¦int main(){return ((2*3)+1);}
i 1 0 0¦int f(int x){return x+1;}int main(){return f(2*3);}
i 2 0 0¦int f(int x){return x+1;}int main(){return f(2*3);}
file¦int f(int x){return x+1;}int main(){return f(f(2))+sizeof f(3);}
i 0 0 3¦int f(int x){return x+1;}int main(){return ((f(2))+1)+sizeof f(3);}
i 0 1 3¦int f(int x){return x+1;}int main(){return f(((2)+1))+sizeof f(3);}
i 0 2 3¦int f(int x){return x+1;}int main(){return f(f(2))+sizeof ((3)+1);}
file¦int a,f(int),b;int c(int),f(int);int main(){return f(- 2);}int f(int x){return - x/*a*/-  -(x);}
i 0 0 1¦int a,b;int c(int);int main(){return (-(-2)- -((-2)));}
file¦typedef int F(int);int a,f(int),b;F c,f;int main(){return f(- 2);}int f(int x){return - x/*a*/-  -(x);}
i 0 0 0¦typedef int F(int);int a,f(int),b;F c,f;int main(){return f(- 2);}int f(int x){return - x/*a*/-  -(x);}
file¦struct s{int x;}z;int g(int[],int),k(struct s);int k(struct s x){return x.x;}int g(int a[],int b){return a[b];}int main(){int c[]={k(z),2};g(c,0);return g(c,1)+main();}
i 0 0 3¦struct s{int x;}z;int g(int[],int);int g(int a[],int b){return a[b];}int main(){int c[]={((z).x),2};g(c,0);return g(c,1)+main();}
i 0 1 3¦struct s{int x;}z;int g(int[],int),k(struct s);int k(struct s x){return x.x;}int g(int a[],int b){return a[b];}int main(){int c[]={k(z),2};((c)[(0)]);return g(c,1)+main();}
i 0 2 3¦struct s{int x;}z;int g(int[],int),k(struct s);int k(struct s x){return x.x;}int g(int a[],int b){return a[b];}int main(){int c[]={k(z),2};g(c,0);return ((c)[(1)])+main();}
file¦struct s{int x;}z;int g(int[],int),k(struct s);int k(struct s x){return x.x;}int g(int a[],int b){return a[b];}int main(){int c[]={k(z),2};g;return g(c,1)+main();}
i 0 0 0¦struct s{int x;}z;int g(int[],int),k(struct s);int k(struct s x){return x.x;}int g(int a[],int b){return a[b];}int main(){int c[]={k(z),2};g;return g(c,1)+main();}
file¦int main(){return 0;}int f(){return main();}
i 0 0 1¦int f(){return (0);}
file¦int f(){return 1;}int main(){int x=f();{int f=2;return f;}}
i 0 0 1¦int main(){int x=(1);{int f=2;return f;}}
file¦int f(){L:return 1;}int g(){{return 1;}}int h(){;return 1;}int main(){return f()+g()+h();}
i 0 0 0¦int f(){L:return 1;}int g(){{return 1;}}int h(){;return 1;}int main(){return f()+g()+h();}
i 1 0 0¦int f(){L:return 1;}int g(){{return 1;}}int h(){;return 1;}int main(){return f()+g()+h();}
file¦int y;void g(int,int),g(int a,int b);int main(){void g(int,int);g(1,y);return y;}void g(int a,int b){void g(int,int);y=a+b;}
i 0 0 0¦int y;void g(int,int),g(int a,int b);int main(){void g(int,int);g(1,y);return y;}void g(int a,int b){void g(int,int);y=a+b;}
i 1 0 1¦int y;int main(){{int a=1;int b=y;{void g(int,int);y=a+b;}}return y;}
file¦int y;void f(int n){if(n)f(n-1);}void h(void){return;}int main(){if(y)f(2);else h();(f(1));f(y),f(3);return 0;}
i 0 0 0¦int y;void f(int n){if(n)f(n-1);}void h(void){return;}int main(){if(y)f(2);else h();(f(1));f(y),f(3);return 0;}
i 1 0 1¦int y;void f(int n){if(n)f(n-1);}void h(void){return;}int main(){if(y){int n=2;{if(n)f(n-1);}}else h();(f(1));f(y),f(3);return 0;}
file¦int f(int x){return x;}int main(){return f(5);}
i 0 0 1¦int main(){return ((5));}
p 0 0 1¦int f(void){return 0;}int main(){return f();}
file¦int f(int a,int b[sizeof a],int c);int f(int a,int b[],int c){return c?f(a,b,f(1,b,2)):a;}int main(int n,char**v){int f(int,int*,int);return f(n,0,3);}
p 0 0 3¦int f(int b[sizeof a],int c);int f(int b[],int c){return c?f(b,f(b,2)):0;}int main(int n,char**v){int f(int*,int);return f(0,3);}
p 0 1 3¦int f(int a,int c);int f(int a,int c){return c?f(a,f(1,2)):a;}int main(int n,char**v){int f(int,int);return f(n,3);}
p 0 2 3¦int f(int a,int b[sizeof a]);int f(int a,int b[]){return 0?f(a,b):a;}int main(int n,char**v){int f(int,int*);return f(n,0);}
file¦int f();int f(int a,int b[sizeof a],int c);int f(int a,int b[],int c){return c?f(a,b,f(1,b,2)):a;}int main(int n){int f(int,int*,int);return f(n,0,3);}
p 0 0 0¦int f();int f(int a,int b[sizeof a],int c);int f(int a,int b[],int c){return c?f(a,b,f(1,b,2)):a;}int main(int n){int f(int,int*,int);return f(n,0,3);}
file¦int main(){L:return 0;}
s 5 0 1¦int main(){return 0;}
file¦int main(){L :/*a*/M:goto M;N:;}
s 5 0 2¦int main(){/*a*/M:goto M;N:;}
s 5 1 2¦int main(){L :/*a*/M:goto M;;}
file¦int f(){goto L;L:;}int main(){L:;}
s 5 0 1¦int f(){goto L;L:;}int main(){;}
file¦int main(){switch(1){case 1:;default:;}}
s 5 0 0¦int main(){switch(1){case 1:;default:;}}
file¦int main(){return x;}
t 4 0 9¦ main(){return x;}
u 0 0 0¦int main(){return x;}
s 0 0 0¦int main(){return x;}
c 0 0 0¦int main(){return x;}
r 0 0 0¦int main(){return x;}
f 0 0 0¦int main(){return x;}
file¦int f(int a){int a;}
u 2 0 0¦int f(int a){int a;}
s 0 0 0¦int f(int a){int a;}
file¦int a,b;int main(){return b;}
u 0 0 0¦int a,b;int main(){return b;}
u 1 0 1¦int b;int main(){return b;}
r 0 0 2¦int c,b;int main(){return b;}
r 0 1 2¦int a,c;int main(){return c;}
file¦int count;int main(){return count;}
u 0 0 0¦int count;int main(){return count;}
r 0 0 1¦int a;int main(){return a;}
file¦int f(){return 1;}int g(){return f();}int main(){int main=2;{int u,v=u,w;}return main;}
u 0 0 1¦int f(){return 1;}int main(){int main=2;{int u,v=u,w;}return main;}
u 1 0 2¦int f(){return 1;}int g(){return f();}int main(){int main=2;{int u,w;}return main;}
u 1 1 2¦int f(){return 1;}int g(){return f();}int main(){int main=2;{int u,v=u;}return main;}
u 2 0 1¦int f(){return 1;}int g(){return f();}int main(){int main=2;{}return main;}
r 0 2 6¦int f(){return 1;}int g(){return f();}int main(){int a=2;{int u,v=u,w;}return a;}
file¦struct{int x,*y;int z;}s;enum e{A,B,};int main(){return s.x;}
u 0 0 1¦struct{int x,*y;int z;}s;int main(){return s.x;}
u 3 0 4¦struct{int x;int z;}s;enum e{A,B,};int main(){return s.x;}
u 3 1 4¦struct{int x,*y;}s;enum e{A,B,};int main(){return s.x;}
u 3 2 4¦struct{int x,*y;int z;}s;enum e{B,};int main(){return s.x;}
u 3 3 4¦struct{int x,*y;int z;}s;enum e{A,};int main(){return s.x;}
r 0 1 4¦struct{int x,*y;int z;}s;enum a{A,B,};int main(){return s.x;}
file¦struct s{int a,b;};struct t{int a,c;};struct s x;struct t y;int main(){return x.a+y.c;}
u 3 0 2¦struct s{int a;};struct t{int a,c;};struct s x;struct t y;int main(){return x.a+y.c;}
u 3 1 2¦struct s{int a,b;};struct t{int c;};struct s x;struct t y;int main(){return x.a+y.c;}
file¦struct p{int a;struct p*n;int q[2];};struct r{int n;int a;}z[2];int f(struct p*x){return x->n->a+x->q[1];}int main(){struct p o;o.n=0;return f(&o)+z->a+(*z).a;}
u 3 0 1¦struct p{int a;struct p*n;int q[2];};struct r{int a;}z[2];int f(struct p*x){return x->n->a+x->q[1];}int main(){struct p o;o.n=0;return f(&o)+z->a+(*z).a;}
file¦struct s{int a;int b;}x;int main(){struct s{int a;int b;}y;y.a=1;return x.b+y.a;}
u 3 0 2¦struct s{int b;}x;int main(){struct s{int a;int b;}y;y.a=1;return x.b+y.a;}
u 3 1 2¦struct s{int a;int b;}x;int main(){struct s{int a;}y;y.a=1;return x.b+y.a;}
file¦struct s{struct t{int m;}k;int m;}x;int main(){return x.k.m;}
u 3 0 1¦struct s{struct t{int m;}k;}x;int main(){return x.k.m;}
file¦int*p;int main(){return p*2;}
t 4 0 15¦*p;int main(){return p*2;}
b 0 0 2¦int*p;int main{return p*2;}
u 0 0 0¦int*p;int main(){return p*2;}
s 0 0 0¦int*p;int main(){return p*2;}
c 0 0 0¦int*p;int main(){return p*2;}
i 0 0 0¦int*p;int main(){return p*2;}
r 0 0 0¦int*p;int main(){return p*2;}
p 0 0 0¦int*p;int main(){return p*2;}
f 0 0 0¦int*p;int main(){return p*2;}
file¦typedef int T;typedef long T;int main(){return 0;}
s 0 0 0¦typedef int T;typedef long T;int main(){return 0;}
f 0 0 0¦typedef int T;typedef long T;int main(){return 0;}
file¦int x;int f(int a){return a;}
u 0 0 0¦int x;int f(int a){return a;}
p 0 0 0¦int x;int f(int a){return a;}
f 0 0 0¦int x;int f(int a){return a;}
file¦enum{A};int main(){return 0;}
u 3 0 1¦enum{};int main(){return 0;}
file¦int f(int a,int b){extern int g;return b;}int g=1;int main(){int f(int,int);return f(g,g);}
u 0 0 0¦int f(int a,int b){extern int g;return b;}int g=1;int main(){int f(int,int);return f(g,g);}
u 2 0 0¦int f(int a,int b){extern int g;return b;}int g=1;int main(){int f(int,int);return f(g,g);}
r 0 3 4¦int f(int a,int b){extern int c;return b;}int c=1;int main(){int f(int,int);return f(c,c);}
file¦int putchar(int);int main(){int exit=1;return exit;}
u 0 0 1¦int main(){int exit=1;return exit;}
r 0 0 1¦int putchar(int);int main(){int a=1;return a;}
file¦int f(){int main(void);return 1;}int main(){return 0;}
u 0 0 0¦int f(){int main(void);return 1;}int main(){return 0;}
u 2 0 0¦int f(){int main(void);return 1;}int main(){return 0;}
file¦int a,b,c,d,e,f,g,h,i,j,k,l,m,n,o,p,q,r,s,t,u,v,w,x,y,z;int main(){return 0;}
u 1 25 26¦int a,b,c,d,e,f,g,h,i,j,k,l,m,n,o,p,q,r,s,t,u,v,w,x,y;int main(){return 0;}
r 0 0 26¦int aa,b,c,d,e,f,g,h,i,j,k,l,m,n,o,p,q,r,s,t,u,v,w,x,y,z;int main(){return 0;}
file¦int f(int x){return x;}int main(void){int i=0;i=f(i);return i;}
i 0 0 1¦int main(void){int i=0;i=((i));return i;}
p 0 0 1¦int f(void){return 0;}int main(void){int i=0;i=f();return i;}
r 0 0 3¦int a(int x){return x;}int main(void){int i=0;i=a(i);return i;}
r 0 2 3¦int f(int x){return x;}int main(void){int a=0;a=f(a);return a;}
s 0 0 4¦int f(int x){}int main(void){int i=0;i=f(i);return i;}
s 0 3 4¦int f(int x){return x;}int main(void){int i=0;i=f(i);}
c 0 0 7¦int f(int x){return 0;}int main(void){int i=0;i=f(i);return i;}
c 0 1 7¦int f(int x){return x;}int main(void){int i=0;i=f(i);return i;}
c 0 6 7¦int f(int x){return x;}int main(void){int i=0;i=f(i);return 0;}
c 1 0 7¦int f(int x){return 1;}int main(void){int i=0;i=f(i);return i;}
c 1 1 7¦int f(int x){return x;}int main(void){int i=1;i=f(i);return i;}
c 1 6 7¦int f(int x){return x;}int main(void){int i=0;i=f(i);return 1;}
c 2 0 2¦int f(int x){return x;}int main(void){int i=0;i;return i;}
c 2 1 2¦int f(int x){return x;}int main(void){int i=0;i=i;return i;}
c 3 0 1¦int f(int x){return x;}int main(void){int i=0;f(i);return i;}
f 0 0 1¦int f(int x){return x;}int main(void){int i=0;i=f(i);return i;}
file¦typedef int T;T a[2]={1,2};struct s{T m;const int c;}x={1,2};int main(){T*p=a;x.m=*p+a[1];return x.m-3;}
u 3 0 1¦typedef int T;T a[2]={1,2};struct s{T m;}x={1,2};int main(){T*p=a;x.m=*p+a[1];return x.m-3;}
r 0 0 5¦typedef int b;b a[2]={1,2};struct s{b m;const int c;}x={1,2};int main(){b*p=a;x.m=*p+a[1];return x.m-3;}
r 0 2 5¦typedef int T;T a[2]={1,2};struct b{T m;const int c;}x={1,2};int main(){T*p=a;x.m=*p+a[1];return x.m-3;}
r 0 4 5¦typedef int T;T a[2]={1,2};struct s{T m;const int c;}x={1,2};int main(){T*b=a;x.m=*b+a[1];return x.m-3;}
s 0 0 3¦typedef int T;T a[2]={1,2};struct s{T m;const int c;}x={1,2};int main(){x.m=*p+a[1];return x.m-3;}
s 0 1 3¦typedef int T;T a[2]={1,2};struct s{T m;const int c;}x={1,2};int main(){T*p=a;return x.m-3;}
s 0 2 3¦typedef int T;T a[2]={1,2};struct s{T m;const int c;}x={1,2};int main(){T*p=a;x.m=*p+a[1];}
c 0 0 19¦typedef int T;T a[0]={1,2};struct s{T m;const int c;}x={1,2};int main(){T*p=a;x.m=*p+a[1];return x.m-3;}
c 0 17 19¦typedef int T;T a[2]={1,2};struct s{T m;const int c;}x={1,2};int main(){T*p=a;x.m=*p+a[1];return 0.m-3;}
c 0 18 19¦typedef int T;T a[2]={1,2};struct s{T m;const int c;}x={1,2};int main(){T*p=a;x.m=*p+a[1];return x.m-0;}
c 1 0 19¦typedef int T;T a[1]={1,2};struct s{T m;const int c;}x={1,2};int main(){T*p=a;x.m=*p+a[1];return x.m-3;}
c 1 13 19¦typedef int T;T a[2]={1,2};struct s{T m;const int c;}x={1,2};int main(){T*p=a;x.m=*p+1[1];return x.m-3;}
c 1 18 19¦typedef int T;T a[2]={1,2};struct s{T m;const int c;}x={1,2};int main(){T*p=a;x.m=*p+a[1];return x.m-1;}
c 2 0 7¦typedef int T;T a[2]={1,2};struct s{T m;const int c;}x={1,2};int main(){T*p=a;x.m;return x.m-3;}
c 2 3 7¦typedef int T;T a[2]={1,2};struct s{T m;const int c;}x={1,2};int main(){T*p=a;x.m=p+a[1];return x.m-3;}
c 2 6 7¦typedef int T;T a[2]={1,2};struct s{T m;const int c;}x={1,2};int main(){T*p=a;x.m=*p+a[1];return x-3;}
c 3 0 4¦typedef int T;T a[2]={1,2};struct s{T m;const int c;}x={1,2};int main(){T*p=a;*p+a[1];return x.m-3;}
c 3 3 4¦typedef int T;T a[2]={1,2};struct s{T m;const int c;}x={1,2};int main(){T*p=a;x.m=*p+a[1];return 3;}
f 0 0 1¦typedef int T;T a[2]={1,2};struct s{T m;const int c;}x={1,2};int main(){T*p=a;x.m=*p+a[1];return x.m-3;}
file¦enum e{A,B=5,C};int main(){enum e v=B;switch(v){case A:return 1;case B:break;default:return 2;}return v-5;}
u 3 0 1¦enum e{A,B=5};int main(){enum e v=B;switch(v){case A:return 1;case B:break;default:return 2;}return v-5;}
r 0 0 5¦enum a{A,B=5,C};int main(){enum a v=B;switch(v){case A:return 1;case B:break;default:return 2;}return v-5;}
r 0 4 5¦enum e{A,B=5,C};int main(){enum e a=B;switch(a){case A:return 1;case B:break;default:return 2;}return a-5;}
s 0 0 6¦enum e{A,B=5,C};int main(){switch(v){case A:return 1;case B:break;default:return 2;}return v-5;}
s 0 4 6¦enum e{A,B=5,C};int main(){enum e v=B;switch(v){case A:return 1;case B:break;}return v-5;}
s 0 5 6¦enum e{A,B=5,C};int main(){enum e v=B;switch(v){case A:return 1;case B:break;default:return 2;}}
s 1 0 1¦enum e{A,B=5,C};int main(){enum e v=B;{case A:return 1;case B:break;default:return 2;}return v-5;}
s 3 0 4¦enum e{A,B=5,C};int main(){enum e v=B;switch(v);return v-5;}
s 3 1 4¦enum e{A,B=5,C};int main(){enum e v=B;switch(v){case A:;case B:break;default:return 2;}return v-5;}
s 3 3 4¦enum e{A,B=5,C};int main(){enum e v=B;switch(v){case A:return 1;case B:break;default:;}return v-5;}
c 0 0 10¦enum e{A,B=0,C};int main(){enum e v=B;switch(v){case A:return 1;case B:break;default:return 2;}return v-5;}
c 0 9 10¦enum e{A,B=5,C};int main(){enum e v=B;switch(v){case A:return 1;case B:break;default:return 2;}return v-0;}
c 1 0 10¦enum e{A,B=1,C};int main(){enum e v=B;switch(v){case A:return 1;case B:break;default:return 2;}return v-5;}
c 1 1 10¦enum e{A,B=5,C};int main(){enum e v=1;switch(v){case A:return 1;case B:break;default:return 2;}return v-5;}
c 1 9 10¦enum e{A,B=5,C};int main(){enum e v=B;switch(v){case A:return 1;case B:break;default:return 2;}return v-1;}
c 2 0 1¦enum e{A,B=5,C};int main(){enum e v=B;switch(v){case A:return 1;case B:break;default:return 2;}return v;}
c 3 0 1¦enum e{A,B=5,C};int main(){enum e v=B;switch(v){case A:return 1;case B:break;default:return 2;}return 5;}
f 0 0 1¦enum e{A,B=5,C};int main(){enum e v=B;switch(v){case A:return 1;case B:break;default:return 2;}return v-5;}
file¦int printf(const char *, ...);int main(void){printf("%d %u %c %s%%",1,2u,65,"x");return 0;}
s 0 0 2¦int printf(const char *, ...);int main(void){return 0;}
s 0 1 2¦int printf(const char *, ...);int main(void){printf("%d %u %c %s%%",1,2u,65,"x");}
c 0 0 7¦int printf(const char *, ...);int main(void){0;return 0;}
c 0 4 7¦int printf(const char *, ...);int main(void){printf("%d %u %c %s%%",1,2u,0,"x");return 0;}
c 0 6 7¦int printf(const char *, ...);int main(void){printf("%d %u %c %s%%",1,2u,65,"x");return 0;}
c 1 0 7¦int printf(const char *, ...);int main(void){1;return 0;}
c 1 4 7¦int printf(const char *, ...);int main(void){printf("%d %u %c %s%%",1,2u,1,"x");return 0;}
c 1 6 7¦int printf(const char *, ...);int main(void){printf("%d %u %c %s%%",1,2u,65,"x");return 1;}
c 2 0 1¦int printf(const char *, ...);int main(void){"%d %u %c %s%%";return 0;}
c 3 0 1¦int printf(const char *, ...);int main(void){"x";return 0;}
f 0 0 1¦int printf(const char*,...);int main(void){printf("%d %u %c %s%%",1,2u,65,"x");return 0;}
file¦volatile int v=1;int main(){v=v+1;v++;return v&&v;}
r 0 0 1¦volatile int a=1;int main(){a=a+1;a++;return a&&a;}
s 0 0 3¦volatile int v=1;int main(){v++;return v&&v;}
s 0 1 3¦volatile int v=1;int main(){v=v+1;return v&&v;}
s 0 2 3¦volatile int v=1;int main(){v=v+1;v++;}
c 0 0 11¦volatile int v=0;int main(){v=v+1;v++;return v&&v;}
c 0 4 11¦volatile int v=1;int main(){v=0+1;v++;return v&&v;}
c 0 10 11¦volatile int v=1;int main(){v=v+1;v++;return v&&0;}
c 1 0 11¦volatile int v=1;int main(){v=v+1;v++;return v&&v;}
c 1 1 11¦volatile int v=1;int main(){1;v++;return v&&v;}
c 1 10 11¦volatile int v=1;int main(){v=v+1;v++;return v&&1;}
c 2 0 4¦volatile int v=1;int main(){v;v++;return v&&v;}
c 2 3 4¦volatile int v=1;int main(){v=v+1;v++;return v;}
c 3 0 3¦volatile int v=1;int main(){v+1;v++;return v&&v;}
c 3 1 3¦volatile int v=1;int main(){v=1;v++;return v&&v;}
c 3 2 3¦volatile int v=1;int main(){v=v+1;v++;return v;}
f 0 0 1¦volatile int v=1;int main(){v=v+1;v++;return v&&v;}
file¦struct p{int a;struct p*n;};static struct p q;int g(struct p*r){return r?r->a:0;}int main(){q.n=&q;return g(q.n);}
i 0 0 1¦struct p{int a;struct p*n;};static struct p q;int main(){q.n=&q;return ((q.n)?(q.n)->a:0);}
p 0 0 1¦struct p{int a;struct p*n;};static struct p q;int g(void){return 0?0->a:0;}int main(){q.n=&q;return g();}
r 0 0 4¦struct b{int a;struct b*n;};static struct b q;int g(struct b*r){return r?r->a:0;}int main(){q.n=&q;return g(q.n);}
r 0 3 4¦struct p{int a;struct p*n;};static struct p q;int g(struct p*b){return b?b->a:0;}int main(){q.n=&q;return g(q.n);}
s 0 0 3¦struct p{int a;struct p*n;};static struct p q;int g(struct p*r){}int main(){q.n=&q;return g(q.n);}
s 0 1 3¦struct p{int a;struct p*n;};static struct p q;int g(struct p*r){return r?r->a:0;}int main(){return g(q.n);}
s 0 2 3¦struct p{int a;struct p*n;};static struct p q;int g(struct p*r){return r?r->a:0;}int main(){q.n=&q;}
c 0 0 13¦struct p{int a;struct p*n;};static struct p q;int g(struct p*r){return 0;}int main(){q.n=&q;return g(q.n);}
c 0 1 13¦struct p{int a;struct p*n;};static struct p q;int g(struct p*r){return 0?r->a:0;}int main(){q.n=&q;return g(q.n);}
c 0 12 13¦struct p{int a;struct p*n;};static struct p q;int g(struct p*r){return r?r->a:0;}int main(){q.n=&q;return g(0.n);}
c 1 0 13¦struct p{int a;struct p*n;};static struct p q;int g(struct p*r){return 1;}int main(){q.n=&q;return g(q.n);}
c 1 6 13¦struct p{int a;struct p*n;};static struct p q;int g(struct p*r){return r?r->a:0;}int main(){1=&q;return g(q.n);}
c 1 12 13¦struct p{int a;struct p*n;};static struct p q;int g(struct p*r){return r?r->a:0;}int main(){q.n=&q;return g(1.n);}
c 2 0 7¦struct p{int a;struct p*n;};static struct p q;int g(struct p*r){return r->a;}int main(){q.n=&q;return g(q.n);}
c 2 5 7¦struct p{int a;struct p*n;};static struct p q;int g(struct p*r){return r?r->a:0;}int main(){q.n=&q;return q.n;}
c 2 6 7¦struct p{int a;struct p*n;};static struct p q;int g(struct p*r){return r?r->a:0;}int main(){q.n=&q;return g(q);}
c 3 0 2¦struct p{int a;struct p*n;};static struct p q;int g(struct p*r){return 0;}int main(){q.n=&q;return g(q.n);}
c 3 1 2¦struct p{int a;struct p*n;};static struct p q;int g(struct p*r){return r?r->a:0;}int main(){&q;return g(q.n);}
f 0 0 1¦struct p{int a;struct p*n;};static struct p q;int g(struct p*r){return r?r->a:0;}int main(){q.n=&q;return g(q.n);}
file¦extern int u;int u=3;static int h(int a,char b){return a+b;}int main(){unsigned long z=sizeof(int);return h(u,1)+z-8;}
i 0 0 1¦extern int u;int u=3;int main(){unsigned long z=sizeof(int);return ((u)+(1))+z-8;}
p 0 0 2¦extern int u;int u=3;static int h(char b){return 0+b;}int main(){unsigned long z=sizeof(int);return h(1)+z-8;}
p 0 1 2¦extern int u;int u=3;static int h(int a){return a+0;}int main(){unsigned long z=sizeof(int);return h(u)+z-8;}
r 0 0 5¦extern int c;int c=3;static int h(int a,char b){return a+b;}int main(){unsigned long z=sizeof(int);return h(c,1)+z-8;}
r 0 3 5¦extern int u;int u=3;static int h(int a,char c){return a+c;}int main(){unsigned long z=sizeof(int);return h(u,1)+z-8;}
r 0 4 5¦extern int u;int u=3;static int h(int a,char b){return a+b;}int main(){unsigned long c=sizeof(int);return h(u,1)+c-8;}
s 0 0 3¦extern int u;int u=3;static int h(int a,char b){}int main(){unsigned long z=sizeof(int);return h(u,1)+z-8;}
s 0 2 3¦extern int u;int u=3;static int h(int a,char b){return a+b;}int main(){unsigned long z=sizeof(int);}
c 0 0 12¦extern int u;int u=0;static int h(int a,char b){return a+b;}int main(){unsigned long z=sizeof(int);return h(u,1)+z-8;}
c 0 6 12¦extern int u;int u=3;static int h(int a,char b){return a+b;}int main(){unsigned long z=sizeof(int);return 0-8;}
c 0 11 12¦extern int u;int u=3;static int h(int a,char b){return a+b;}int main(){unsigned long z=sizeof(int);return h(u,1)+z-0;}
c 1 0 12¦extern int u;int u=1;static int h(int a,char b){return a+b;}int main(){unsigned long z=sizeof(int);return h(u,1)+z-8;}
c 1 8 12¦extern int u;int u=3;static int h(int a,char b){return a+b;}int main(){unsigned long z=sizeof(int);return h(1,1)+z-8;}
c 1 11 12¦extern int u;int u=3;static int h(int a,char b){return a+b;}int main(){unsigned long z=sizeof(int);return h(u,1)+z-1;}
c 2 0 4¦extern int u;int u=3;static int h(int a,char b){return a;}int main(){unsigned long z=sizeof(int);return h(u,1)+z-8;}
c 2 3 4¦extern int u;int u=3;static int h(int a,char b){return a+b;}int main(){unsigned long z=sizeof(int);return u+z-8;}
c 3 0 4¦extern int u;int u=3;static int h(int a,char b){return b;}int main(){unsigned long z=sizeof(int);return h(u,1)+z-8;}
c 3 2 4¦extern int u;int u=3;static int h(int a,char b){return a+b;}int main(){unsigned long z=sizeof(int);return z-8;}
c 3 3 4¦extern int u;int u=3;static int h(int a,char b){return a+b;}int main(){unsigned long z=sizeof(int);return 1+z-8;}
f 0 0 1¦extern int u;int u=3;static int h(int a,char b){return a+b;}int main(){unsigned long z=sizeof(int);return h(u,1)+z-8;}
file¦int main(){int a[2][3]={{1,2},{3}};int*p=&a[0][2];for(int i=0;i<2;i++){a[i][0]+=i;}return *p;}
r 0 0 3¦int main(){int b[2][3]={{1,2},{3}};int*p=&b[0][2];for(int i=0;i<2;i++){b[i][0]+=i;}return *p;}
r 0 2 3¦int main(){int a[2][3]={{1,2},{3}};int*p=&a[0][2];for(int b=0;b<2;b++){a[b][0]+=b;}return *p;}
s 0 0 5¦int main(){int*p=&a[0][2];for(int i=0;i<2;i++){a[i][0]+=i;}return *p;}
s 0 4 5¦int main(){int a[2][3]={{1,2},{3}};int*p=&a[0][2];for(int i=0;i<2;i++){a[i][0]+=i;}}
s 1 0 1¦int main(){int a[2][3]={{1,2},{3}};int*p=&a[0][2];{a[i][0]+=i;}return *p;}
s 3 0 1¦int main(){int a[2][3]={{1,2},{3}};int*p=&a[0][2];for(int i=0;i<2;i++);return *p;}
c 0 0 26¦int main(){int a[0][3]={{1,2},{3}};int*p=&a[0][2];for(int i=0;i<2;i++){a[i][0]+=i;}return *p;}
c 0 14 26¦int main(){int a[2][3]={{1,2},{3}};int*p=&a[0][2];for(int i=0;i<0;i++){a[i][0]+=i;}return *p;}
c 0 25 26¦int main(){int a[2][3]={{1,2},{3}};int*p=&a[0][2];for(int i=0;i<2;i++){a[i][0]+=i;}return *0;}
c 1 0 26¦int main(){int a[1][3]={{1,2},{3}};int*p=&a[0][2];for(int i=0;i<2;i++){a[i][0]+=i;}return *p;}
c 1 4 26¦int main(){int a[2][3]={{1,2},{1}};int*p=&a[0][2];for(int i=0;i<2;i++){a[i][0]+=i;}return *p;}
c 1 25 26¦int main(){int a[2][3]={{1,2},{3}};int*p=&a[0][2];for(int i=0;i<2;i++){a[i][0]+=i;}return *1;}
c 2 0 9¦int main(){int a[2][3]={{1,2},{3}};int*p=a[0][2];for(int i=0;i<2;i++){a[i][0]+=i;}return *p;}
c 2 4 9¦int main(){int a[2][3]={{1,2},{3}};int*p=&a[0][2];for(int i=0;i<2;i){a[i][0]+=i;}return *p;}
c 2 8 9¦int main(){int a[2][3]={{1,2},{3}};int*p=&a[0][2];for(int i=0;i<2;i++){a[i][0]+=i;}return p;}
c 3 0 6¦int main(){int a[2][3]={{1,2},{3}};int*p=&2;for(int i=0;i<2;i++){a[i][0]+=i;}return *p;}
c 3 5 6¦int main(){int a[2][3]={{1,2},{3}};int*p=&a[0][2];for(int i=0;i<2;i++){i[0]+=i;}return *p;}
f 0 0 1¦int main(){int a[2][3]={{1,2},{3}};int*p=&a[0][2];for(int i=0;i<2;i++){a[i][0]+=i;}return*p;}
file¦void w(int n){while(n){n--;if(n==2)continue;else break;}do n++;while(n<3);}int main(){w(4);return 0;}
i 1 0 1¦int main(){{int n=4;{while(n){n--;if(n==2)continue;else break;}do n++;while(n<3);}}return 0;}
p 0 0 1¦void w(void){while(0){0--;if(0==2)continue;else break;}do 0++;while(0<3);}int main(){w();return 0;}
r 0 0 2¦void a(int n){while(n){n--;if(n==2)continue;else break;}do n++;while(n<3);}int main(){a(4);return 0;}
r 0 1 2¦void w(int a){while(a){a--;if(a==2)continue;else break;}do a++;while(a<3);}int main(){w(4);return 0;}
s 0 0 6¦void w(int n){do n++;while(n<3);}int main(){w(4);return 0;}
s 0 2 6¦void w(int n){while(n){n--;}do n++;while(n<3);}int main(){w(4);return 0;}
s 0 5 6¦void w(int n){while(n){n--;if(n==2)continue;else break;}do n++;while(n<3);}int main(){w(4);}
s 1 0 3¦void w(int n){{n--;if(n==2)continue;else break;}do n++;while(n<3);}int main(){w(4);return 0;}
s 1 2 3¦void w(int n){while(n){n--;if(n==2)continue;else break;}n++;}int main(){w(4);return 0;}
s 2 0 1¦void w(int n){while(n){n--;break;}do n++;while(n<3);}int main(){w(4);return 0;}
s 3 0 4¦void w(int n){while(n);do n++;while(n<3);}int main(){w(4);return 0;}
s 3 2 4¦void w(int n){while(n){n--;if(n==2)continue;else ;}do n++;while(n<3);}int main(){w(4);return 0;}
s 3 3 4¦void w(int n){while(n){n--;if(n==2)continue;else break;}do ;while(n<3);}int main(){w(4);return 0;}
c 0 0 14¦void w(int n){while(0){n--;if(n==2)continue;else break;}do n++;while(n<3);}int main(){w(4);return 0;}
c 0 2 14¦void w(int n){while(n){0--;if(n==2)continue;else break;}do n++;while(n<3);}int main(){w(4);return 0;}
c 0 13 14¦void w(int n){while(n){n--;if(n==2)continue;else break;}do n++;while(n<3);}int main(){w(4);return 0;}
c 1 0 14¦void w(int n){while(1){n--;if(n==2)continue;else break;}do n++;while(n<3);}int main(){w(4);return 0;}
c 1 13 14¦void w(int n){while(n){n--;if(n==2)continue;else break;}do n++;while(n<3);}int main(){w(4);return 1;}
c 2 0 5¦void w(int n){while(n){n;if(n==2)continue;else break;}do n++;while(n<3);}int main(){w(4);return 0;}
c 2 4 5¦void w(int n){while(n){n--;if(n==2)continue;else break;}do n++;while(n<3);}int main(){4;return 0;}
c 3 0 2¦void w(int n){while(n){n--;if(2)continue;else break;}do n++;while(n<3);}int main(){w(4);return 0;}
c 3 1 2¦void w(int n){while(n){n--;if(n==2)continue;else break;}do n++;while(3);}int main(){w(4);return 0;}
f 0 0 1¦void w(int n){while(n){n--;if(n==2)continue;else break;}do n++;while(n<3);}int main(){w(4);return 0;}
file¦char s[]="ab",*t="cd";int main(){s[0]=t[1];return s[2];}
r 0 0 2¦char a[]="ab",*t="cd";int main(){a[0]=t[1];return a[2];}
r 0 1 2¦char s[]="ab",*a="cd";int main(){s[0]=a[1];return s[2];}
s 0 0 2¦char s[]="ab",*t="cd";int main(){return s[2];}
s 0 1 2¦char s[]="ab",*t="cd";int main(){s[0]=t[1];}
c 0 0 12¦char s[]=0,*t="cd";int main(){s[0]=t[1];return s[2];}
c 0 2 12¦char s[]="ab",*t="cd";int main(){0;return s[2];}
c 0 11 12¦char s[]="ab",*t="cd";int main(){s[0]=t[1];return s[0];}
c 1 0 12¦char s[]=1,*t="cd";int main(){s[0]=t[1];return s[2];}
c 1 11 12¦char s[]="ab",*t="cd";int main(){s[0]=t[1];return s[1];}
c 2 0 4¦char s[]="ab",*t="cd";int main(){s[0];return s[2];}
c 2 1 4¦char s[]="ab",*t="cd";int main(){s=t[1];return s[2];}
c 2 3 4¦char s[]="ab",*t="cd";int main(){s[0]=t[1];return s;}
c 3 0 4¦char s[]="ab",*t="cd";int main(){t[1];return s[2];}
c 3 3 4¦char s[]="ab",*t="cd";int main(){s[0]=t[1];return 2;}
f 0 0 1¦char s[]="ab",*t="cd";int main(){s[0]=t[1];return s[2];}
file¦int m(int,int);int m(int a,int b){return a<b?a:b;}int main(){short k=-1;unsigned y=k;return m(3,(int)(y>>31))-1;}
i 0 0 1¦int main(){short k=-1;unsigned y=k;return ((3)<((int)(y>>31))?(3):((int)(y>>31)))-1;}
p 0 0 2¦int m(int);int m(int b){return 0<b?0:b;}int main(){short k=-1;unsigned y=k;return m((int)(y>>31))-1;}
p 0 1 2¦int m(int);int m(int a){return a<0?a:0;}int main(){short k=-1;unsigned y=k;return m(3)-1;}
r 0 0 5¦int c(int,int);int c(int a,int b){return a<b?a:b;}int main(){short k=-1;unsigned y=k;return c(3,(int)(y>>31))-1;}
r 0 4 5¦int m(int,int);int m(int a,int b){return a<b?a:b;}int main(){short k=-1;unsigned c=k;return m(3,(int)(c>>31))-1;}
s 0 0 4¦int m(int,int);int m(int a,int b){}int main(){short k=-1;unsigned y=k;return m(3,(int)(y>>31))-1;}
s 0 2 4¦int m(int,int);int m(int a,int b){return a<b?a:b;}int main(){short k=-1;return m(3,(int)(y>>31))-1;}
s 0 3 4¦int m(int,int);int m(int a,int b){return a<b?a:b;}int main(){short k=-1;unsigned y=k;}
c 0 0 18¦int m(int,int);int m(int a,int b){return 0;}int main(){short k=-1;unsigned y=k;return m(3,(int)(y>>31))-1;}
c 0 17 18¦int m(int,int);int m(int a,int b){return a<b?a:b;}int main(){short k=-1;unsigned y=k;return m(3,(int)(y>>31))-0;}
c 1 0 18¦int m(int,int);int m(int a,int b){return 1;}int main(){short k=-1;unsigned y=k;return m(3,(int)(y>>31))-1;}
c 1 13 18¦int m(int,int);int m(int a,int b){return a<b?a:b;}int main(){short k=-1;unsigned y=k;return m(3,(int)1)-1;}
c 1 17 18¦int m(int,int);int m(int a,int b){return a<b?a:b;}int main(){short k=-1;unsigned y=k;return m(3,(int)(y>>31))-1;}
c 2 0 8¦int m(int,int);int m(int a,int b){return a;}int main(){short k=-1;unsigned y=k;return m(3,(int)(y>>31))-1;}
c 2 1 8¦int m(int,int);int m(int a,int b){return a?a:b;}int main(){short k=-1;unsigned y=k;return m(3,(int)(y>>31))-1;}
c 2 7 8¦int m(int,int);int m(int a,int b){return a<b?a:b;}int main(){short k=-1;unsigned y=k;return m(3,(int)(y))-1;}
c 3 0 5¦int m(int,int);int m(int a,int b){return b;}int main(){short k=-1;unsigned y=k;return m(3,(int)(y>>31))-1;}
c 3 3 5¦int m(int,int);int m(int a,int b){return a<b?a:b;}int main(){short k=-1;unsigned y=k;return (int)(y>>31)-1;}
c 3 4 5¦int m(int,int);int m(int a,int b){return a<b?a:b;}int main(){short k=-1;unsigned y=k;return m(3,(int)(31))-1;}
f 0 0 1¦int m(int,int);int m(int a,int b){return a<b?a:b;}int main(){short k=-1;unsigned y=k;return m(3,(int)(y>>31))-1;}
file¦int putchar(int);void exit(int);int main(){putchar(65);exit(3);}
s 0 0 2¦int putchar(int);void exit(int);int main(){exit(3);}
s 0 1 2¦int putchar(int);void exit(int);int main(){putchar(65);}
c 0 0 4¦int putchar(int);void exit(int);int main(){0;exit(3);}
c 0 3 4¦int putchar(int);void exit(int);int main(){putchar(65);exit(0);}
c 1 0 4¦int putchar(int);void exit(int);int main(){1;exit(3);}
c 1 1 4¦int putchar(int);void exit(int);int main(){putchar(1);exit(3);}
c 1 3 4¦int putchar(int);void exit(int);int main(){putchar(65);exit(1);}
c 2 0 2¦int putchar(int);void exit(int);int main(){65;exit(3);}
c 2 1 2¦int putchar(int);void exit(int);int main(){putchar(65);3;}
f 0 0 1¦int putchar(int);void exit(int);int main(){putchar(65);exit(3);}
file¦long long b=1ll<<40;int main(){const int c=2;return (b>>39)-c|c^c&~c;}
r 0 0 2¦long long a=1ll<<40;int main(){const int c=2;return (a>>39)-c|c^c&~c;}
r 0 1 2¦long long b=1ll<<40;int main(){const int a=2;return (b>>39)-a|a^a&~a;}
s 0 0 2¦long long b=1ll<<40;int main(){return (b>>39)-c|c^c&~c;}
s 0 1 2¦long long b=1ll<<40;int main(){const int c=2;}
c 0 0 17¦long long b=0;int main(){const int c=2;return (b>>39)-c|c^c&~c;}
c 0 7 17¦long long b=1ll<<40;int main(){const int c=2;return (0)-c|c^c&~c;}
c 0 16 17¦long long b=1ll<<40;int main(){const int c=2;return (b>>39)-c|c^c&~0;}
c 1 0 17¦long long b=1;int main(){const int c=2;return (b>>39)-c|c^c&~c;}
c 1 16 17¦long long b=1ll<<40;int main(){const int c=2;return (b>>39)-c|c^c&~1;}
c 2 0 8¦long long b=1ll;int main(){const int c=2;return (b>>39)-c|c^c&~c;}
c 2 7 8¦long long b=1ll<<40;int main(){const int c=2;return (b>>39)-c|c^c&c;}
c 3 0 6¦long long b=40;int main(){const int c=2;return (b>>39)-c|c^c&~c;}
c 3 1 6¦long long b=1ll<<40;int main(){const int c=2;return c^c&~c;}
c 3 5 6¦long long b=1ll<<40;int main(){const int c=2;return (b>>39)-c|c^~c;}
f 0 0 1¦long long b=1ll<<40;int main(){const int c=2;return(b>>39)-c|c^c&~c;}
file¦int main(){int*p=0;void*q=0;return p==q&&p==0&&0==q;}
r 0 0 2¦int main(){int*a=0;void*q=0;return a==q&&a==0&&0==q;}
r 0 1 2¦int main(){int*p=0;void*a=0;return p==a&&p==0&&0==a;}
s 0 0 3¦int main(){void*q=0;return p==q&&p==0&&0==q;}
s 0 1 3¦int main(){int*p=0;return p==q&&p==0&&0==q;}
s 0 2 3¦int main(){int*p=0;void*q=0;}
c 0 0 13¦int main(){int*p=0;void*q=0;return p==q&&p==0&&0==q;}
c 0 4 13¦int main(){int*p=0;void*q=0;return 0&&p==0&&0==q;}
c 0 12 13¦int main(){int*p=0;void*q=0;return p==q&&p==0&&0==0;}
c 1 0 13¦int main(){int*p=1;void*q=0;return p==q&&p==0&&0==q;}
c 1 1 13¦int main(){int*p=0;void*q=1;return p==q&&p==0&&0==q;}
c 1 12 13¦int main(){int*p=0;void*q=0;return p==q&&p==0&&0==1;}
c 2 0 5¦int main(){int*p=0;void*q=0;return p==q&&p==0;}
c 2 2 5¦int main(){int*p=0;void*q=0;return p&&p==0&&0==q;}
c 2 4 5¦int main(){int*p=0;void*q=0;return p==q&&p==0&&0;}
c 3 0 5¦int main(){int*p=0;void*q=0;return 0==q;}
c 3 4 5¦int main(){int*p=0;void*q=0;return p==q&&p==0&&q;}
f 0 0 1¦int main(){int*p=0;void*q=0;return p==q&&p==0&&0==q;}
file¦struct t;int main(){return sizeof(int[2])-8;}
u 0 0 1¦int main(){return sizeof(int[2])-8;}
r 0 0 1¦struct a;int main(){return sizeof(int[2])-8;}
s 0 0 1¦struct t;int main(){}
c 0 0 4¦struct t;int main(){return 0;}
c 0 3 4¦struct t;int main(){return sizeof(int[2])-0;}
c 1 0 4¦struct t;int main(){return 1;}
c 1 3 4¦struct t;int main(){return sizeof(int[2])-1;}
c 2 0 1¦struct t;int main(){return sizeof(int[2]);}
c 3 0 1¦struct t;int main(){return 8;}
f 0 0 1¦struct t;int main(){return sizeof(int[2])-8;}
file¦int f(int n){if(n)return f(n-1);return 0;}int main(){return f(254);}
p 0 0 1¦int f(void){if(0)return f();return 0;}int main(){return f();}
r 0 0 2¦int a(int n){if(n)return a(n-1);return 0;}int main(){return a(254);}
r 0 1 2¦int f(int a){if(a)return f(a-1);return 0;}int main(){return f(254);}
s 0 0 3¦int f(int n){return 0;}int main(){return f(254);}
s 0 1 3¦int f(int n){if(n)return f(n-1);}int main(){return f(254);}
s 0 2 3¦int f(int n){if(n)return f(n-1);return 0;}int main(){}
s 1 0 1¦int f(int n){return f(n-1);return 0;}int main(){return f(254);}
s 3 0 1¦int f(int n){if(n);return 0;}int main(){return f(254);}
c 0 0 8¦int f(int n){if(0)return f(n-1);return 0;}int main(){return f(254);}
c 0 7 8¦int f(int n){if(n)return f(n-1);return 0;}int main(){return f(0);}
c 1 0 8¦int f(int n){if(1)return f(n-1);return 0;}int main(){return f(254);}
c 1 2 8¦int f(int n){if(n)return f(1);return 0;}int main(){return f(254);}
c 1 7 8¦int f(int n){if(n)return f(n-1);return 0;}int main(){return f(1);}
c 2 0 3¦int f(int n){if(n)return n-1;return 0;}int main(){return f(254);}
c 2 2 3¦int f(int n){if(n)return f(n-1);return 0;}int main(){return 254;}
c 3 0 1¦int f(int n){if(n)return f(1);return 0;}int main(){return f(254);}
f 0 0 1¦int f(int n){if(n)return f(n-1);return 0;}int main(){return f(254);}
file¦int f(int n){if(n)return f(n-1);return 0;}int main(){return f(255);}
p 0 0 1¦int f(void){if(0)return f();return 0;}int main(){return f();}
r 0 0 2¦int a(int n){if(n)return a(n-1);return 0;}int main(){return a(255);}
r 0 1 2¦int f(int a){if(a)return f(a-1);return 0;}int main(){return f(255);}
s 0 0 3¦int f(int n){return 0;}int main(){return f(255);}
s 0 2 3¦int f(int n){if(n)return f(n-1);return 0;}int main(){}
s 1 0 1¦int f(int n){return f(n-1);return 0;}int main(){return f(255);}
s 3 0 1¦int f(int n){if(n);return 0;}int main(){return f(255);}
c 0 0 8¦int f(int n){if(0)return f(n-1);return 0;}int main(){return f(255);}
c 0 3 8¦int f(int n){if(n)return f(0-1);return 0;}int main(){return f(255);}
c 0 7 8¦int f(int n){if(n)return f(n-1);return 0;}int main(){return f(0);}
c 1 0 8¦int f(int n){if(1)return f(n-1);return 0;}int main(){return f(255);}
c 1 5 8¦int f(int n){if(n)return f(n-1);return 1;}int main(){return f(255);}
c 1 7 8¦int f(int n){if(n)return f(n-1);return 0;}int main(){return f(1);}
c 2 0 3¦int f(int n){if(n)return n-1;return 0;}int main(){return f(255);}
c 2 1 3¦int f(int n){if(n)return f(n);return 0;}int main(){return f(255);}
c 2 2 3¦int f(int n){if(n)return f(n-1);return 0;}int main(){return 255;}
c 3 0 1¦int f(int n){if(n)return f(1);return 0;}int main(){return f(255);}
f 0 0 1¦int f(int n){if(n)return f(n-1);return 0;}int main(){return f(255);}
file¦int main(){int i=1;i=i++||1;return i;}
r 0 0 1¦int main(){int a=1;a=a++||1;return a;}
s 0 0 3¦int main(){i=i++||1;return i;}
s 0 1 3¦int main(){int i=1;return i;}
s 0 2 3¦int main(){int i=1;i=i++||1;}
c 0 0 8¦int main(){int i=0;i=i++||1;return i;}
c 0 3 8¦int main(){int i=1;i=0;return i;}
c 0 7 8¦int main(){int i=1;i=i++||1;return 0;}
c 1 0 8¦int main(){int i=1;i=i++||1;return i;}
c 1 6 8¦int main(){int i=1;i=i++||1;return i;}
c 1 7 8¦int main(){int i=1;i=i++||1;return 1;}
c 2 0 3¦int main(){int i=1;i;return i;}
c 2 1 3¦int main(){int i=1;i=i++;return i;}
c 2 2 3¦int main(){int i=1;i=i||1;return i;}
c 3 0 2¦int main(){int i=1;i++||1;return i;}
c 3 1 2¦int main(){int i=1;i=1;return i;}
f 0 0 1¦int main(){int i=1;i=i++||1;return i;}
file¦int main(){int i=0;i=i++||1;return i;}
r 0 0 1¦int main(){int a=0;a=a++||1;return a;}
s 0 0 3¦int main(){i=i++||1;return i;}
s 0 2 3¦int main(){int i=0;i=i++||1;}
c 0 0 8¦int main(){int i=0;i=i++||1;return i;}
c 0 3 8¦int main(){int i=0;i=0;return i;}
c 0 7 8¦int main(){int i=0;i=i++||1;return 0;}
c 1 0 8¦int main(){int i=1;i=i++||1;return i;}
c 1 3 8¦int main(){int i=0;i=1;return i;}
c 1 7 8¦int main(){int i=0;i=i++||1;return 1;}
c 2 0 3¦int main(){int i=0;i;return i;}
c 2 1 3¦int main(){int i=0;i=i++;return i;}
c 2 2 3¦int main(){int i=0;i=i||1;return i;}
c 3 0 2¦int main(){int i=0;i++||1;return i;}
c 3 1 2¦int main(){int i=0;i=1;return i;}
f 0 0 1¦int main(){int i=0;i=i++||1;return i;}
file¦int main(void)␊{␊  while (1)␊    ;␊}␊
s 0 0 1¦int main(void)␊{␊  ␊}␊
s 1 0 1¦int main(void)␊{␊  ;␊}␊
s 3 0 1¦int main(void)␊{␊  while (1)␊    ;␊}␊
c 0 0 1¦int main(void)␊{␊  while (0)␊    ;␊}␊
c 1 0 1¦int main(void)␊{␊  while (1)␊    ;␊}␊
f 0 0 1¦int main(void){while(1);}
file¦int down(int n)␊{␊  return down(n + 1);␊}␊int main(void)␊{␊  return down(0);␊}␊
i 0 0 1¦int down(int n)␊{␊  return down(n + 1);␊}␊int main(void)␊{␊  return (down((0)+1));␊}␊
p 0 0 1¦int down(void)␊{␊  return down();␊}␊int main(void)␊{␊  return down();␊}␊
r 0 0 2¦int a(int n)␊{␊  return a(n + 1);␊}␊int main(void)␊{␊  return a(0);␊}␊
r 0 1 2¦int down(int a)␊{␊  return down(a + 1);␊}␊int main(void)␊{␊  return down(0);␊}␊
s 0 0 2¦int down(int n)␊{␊  ␊}␊int main(void)␊{␊  return down(0);␊}␊
s 0 1 2¦int down(int n)␊{␊  return down(n + 1);␊}␊int main(void)␊{␊  ␊}␊
c 0 0 6¦int down(int n)␊{␊  return 0;␊}␊int main(void)␊{␊  return down(0);␊}␊
c 0 3 6¦int down(int n)␊{␊  return down(n + 0);␊}␊int main(void)␊{␊  return down(0);␊}␊
c 0 5 6¦int down(int n)␊{␊  return down(n + 1);␊}␊int main(void)␊{␊  return down(0);␊}␊
c 1 0 6¦int down(int n)␊{␊  return 1;␊}␊int main(void)␊{␊  return down(0);␊}␊
c 1 2 6¦int down(int n)␊{␊  return down(1 + 1);␊}␊int main(void)␊{␊  return down(0);␊}␊
c 1 5 6¦int down(int n)␊{␊  return down(n + 1);␊}␊int main(void)␊{␊  return down(1);␊}␊
c 2 0 3¦int down(int n)␊{␊  return n + 1;␊}␊int main(void)␊{␊  return down(0);␊}␊
c 2 2 3¦int down(int n)␊{␊  return down(n + 1);␊}␊int main(void)␊{␊  return 0;␊}␊
c 3 0 1¦int down(int n)␊{␊  return down(1);␊}␊int main(void)␊{␊  return down(0);␊}␊
f 0 0 1¦int down(int n){return down(n+1);}int main(void){return down(0);}
file¦int main(void)␊{␊  long x = 1;␊  int *p = (int *)&x;␊  *p = 2;␊  return 0;␊}␊
r 0 0 2¦int main(void)␊{␊  long a = 1;␊  int *p = (int *)&a;␊  *p = 2;␊  return 0;␊}␊
r 0 1 2¦int main(void)␊{␊  long x = 1;␊  int *a = (int *)&x;␊  *a = 2;␊  return 0;␊}␊
s 0 0 4¦int main(void)␊{␊  ␊  int *p = (int *)&x;␊  *p = 2;␊  return 0;␊}␊
s 0 1 4¦int main(void)␊{␊  long x = 1;␊  ␊  *p = 2;␊  return 0;␊}␊
s 0 3 4¦int main(void)␊{␊  long x = 1;␊  int *p = (int *)&x;␊  *p = 2;␊  ␊}␊
c 0 0 9¦int main(void)␊{␊  long x = 0;␊  int *p = (int *)&x;␊  *p = 2;␊  return 0;␊}␊
c 0 8 9¦int main(void)␊{␊  long x = 1;␊  int *p = (int *)&x;␊  *p = 2;␊  return 0;␊}␊
c 1 0 9¦int main(void)␊{␊  long x = 1;␊  int *p = (int *)&x;␊  *p = 2;␊  return 0;␊}␊
c 1 8 9¦int main(void)␊{␊  long x = 1;␊  int *p = (int *)&x;␊  *p = 2;␊  return 1;␊}␊
c 2 0 4¦int main(void)␊{␊  long x = 1;␊  int *p = &x;␊  *p = 2;␊  return 0;␊}␊
c 2 3 4¦int main(void)␊{␊  long x = 1;␊  int *p = (int *)&x;␊  p = 2;␊  return 0;␊}␊
c 3 0 1¦int main(void)␊{␊  long x = 1;␊  int *p = (int *)&x;␊  2;␊  return 0;␊}␊
f 0 0 1¦int main(void){long x=1;int*p=(int*)&x;*p=2;return 0;}
file¦int main(void)␊{␊  int a[2][3] = { { 1 } };␊  return ((int *)a)[0];␊}␊
r 0 0 1¦int main(void)␊{␊  int b[2][3] = { { 1 } };␊  return ((int *)b)[0];␊}␊
s 0 0 2¦int main(void)␊{␊  ␊  return ((int *)a)[0];␊}␊
s 0 1 2¦int main(void)␊{␊  int a[2][3] = { { 1 } };␊  ␊}␊
c 0 0 8¦int main(void)␊{␊  int a[0][3] = { { 1 } };␊  return ((int *)a)[0];␊}␊
c 0 7 8¦int main(void)␊{␊  int a[2][3] = { { 1 } };␊  return ((int *)a)[0];␊}␊
c 1 0 8¦int main(void)␊{␊  int a[1][3] = { { 1 } };␊  return ((int *)a)[0];␊}␊
c 1 4 8¦int main(void)␊{␊  int a[2][3] = { { 1 } };␊  return 1[0];␊}␊
c 1 7 8¦int main(void)␊{␊  int a[2][3] = { { 1 } };␊  return ((int *)a)[1];␊}␊
c 2 0 3¦int main(void)␊{␊  int a[2][3] = { { 1 } };␊  return ((int *)a);␊}␊
c 2 2 3¦int main(void)␊{␊  int a[2][3] = { { 1 } };␊  return (a)[0];␊}␊
c 3 0 1¦int main(void)␊{␊  int a[2][3] = { { 1 } };␊  return 0;␊}␊
f 0 0 1¦int main(void){int a[2][3]={{1}};return((int*)a)[0];}
file¦int main(void)␊{␊  signed char c = 127;␊  short s = 32767;␊  c++;␊  s += 1;␊  return c == -128 && s == -32768 ? 0 : 1;␊}␊
r 0 0 2¦int main(void)␊{␊  signed char a = 127;␊  short s = 32767;␊  a++;␊  s += 1;␊  return a == -128 && s == -32768 ? 0 : 1;␊}␊
r 0 1 2¦int main(void)␊{␊  signed char c = 127;␊  short a = 32767;␊  c++;␊  a += 1;␊  return c == -128 && a == -32768 ? 0 : 1;␊}␊
s 0 0 5¦int main(void)␊{␊  ␊  short s = 32767;␊  c++;␊  s += 1;␊  return c == -128 && s == -32768 ? 0 : 1;␊}␊
s 0 3 5¦int main(void)␊{␊  signed char c = 127;␊  short s = 32767;␊  c++;␊  ␊  return c == -128 && s == -32768 ? 0 : 1;␊}␊
s 0 4 5¦int main(void)␊{␊  signed char c = 127;␊  short s = 32767;␊  c++;␊  s += 1;␊  ␊}␊
c 0 0 19¦int main(void)␊{␊  signed char c = 0;␊  short s = 32767;␊  c++;␊  s += 1;␊  return c == -128 && s == -32768 ? 0 : 1;␊}␊
c 0 3 19¦int main(void)␊{␊  signed char c = 127;␊  short s = 32767;␊  0++;␊  s += 1;␊  return c == -128 && s == -32768 ? 0 : 1;␊}␊
c 0 18 19¦int main(void)␊{␊  signed char c = 127;␊  short s = 32767;␊  c++;␊  s += 1;␊  return c == -128 && s == -32768 ? 0 : 0;␊}␊
c 1 0 19¦int main(void)␊{␊  signed char c = 1;␊  short s = 32767;␊  c++;␊  s += 1;␊  return c == -128 && s == -32768 ? 0 : 1;␊}␊
c 1 17 19¦int main(void)␊{␊  signed char c = 127;␊  short s = 32767;␊  c++;␊  s += 1;␊  return c == -128 && s == -32768 ? 1 : 1;␊}␊
c 1 18 19¦int main(void)␊{␊  signed char c = 127;␊  short s = 32767;␊  c++;␊  s += 1;␊  return c == -128 && s == -32768 ? 0 : 1;␊}␊
c 2 0 8¦int main(void)␊{␊  signed char c = 127;␊  short s = 32767;␊  c;␊  s += 1;␊  return c == -128 && s == -32768 ? 0 : 1;␊}␊
c 2 1 8¦int main(void)␊{␊  signed char c = 127;␊  short s = 32767;␊  c++;␊  s;␊  return c == -128 && s == -32768 ? 0 : 1;␊}␊
c 2 7 8¦int main(void)␊{␊  signed char c = 127;␊  short s = 32767;␊  c++;␊  s += 1;␊  return c == -128 && s == 32768 ? 0 : 1;␊}␊
c 3 0 5¦int main(void)␊{␊  signed char c = 127;␊  short s = 32767;␊  c++;␊  1;␊  return c == -128 && s == -32768 ? 0 : 1;␊}␊
c 3 3 5¦int main(void)␊{␊  signed char c = 127;␊  short s = 32767;␊  c++;␊  s += 1;␊  return -128 && s == -32768 ? 0 : 1;␊}␊
c 3 4 5¦int main(void)␊{␊  signed char c = 127;␊  short s = 32767;␊  c++;␊  s += 1;␊  return c == -128 && -32768 ? 0 : 1;␊}␊
f 0 0 1¦int main(void){signed char c=127;short s=32767;c++;s+=1;return c==-128&&s==-32768?0:1;}
file¦struct s { int a; int b; };␊int main(void)␊{␊  struct s x, y;␊  int b[3] = { 7 };␊  static int z;␊  x.a = 1;␊  y = x;␊  return y.a + b[2] + z == 1 ? 0 : 1;␊}␊
u 3 0 1¦struct s { int a;  };␊int main(void)␊{␊  struct s x, y;␊  int b[3] = { 7 };␊  static int z;␊  x.a = 1;␊  y = x;␊  return y.a + b[2] + z == 1 ? 0 : 1;␊}␊
r 0 0 5¦struct c { int a; int b; };␊int main(void)␊{␊  struct c x, y;␊  int b[3] = { 7 };␊  static int z;␊  x.a = 1;␊  y = x;␊  return y.a + b[2] + z == 1 ? 0 : 1;␊}␊
r 0 4 5¦struct s { int a; int b; };␊int main(void)␊{␊  struct s x, y;␊  int b[3] = { 7 };␊  static int c;␊  x.a = 1;␊  y = x;␊  return y.a + b[2] + c == 1 ? 0 : 1;␊}␊
s 0 0 6¦struct s { int a; int b; };␊int main(void)␊{␊  ␊  int b[3] = { 7 };␊  static int z;␊  x.a = 1;␊  y = x;␊  return y.a + b[2] + z == 1 ? 0 : 1;␊}␊
s 0 4 6¦struct s { int a; int b; };␊int main(void)␊{␊  struct s x, y;␊  int b[3] = { 7 };␊  static int z;␊  x.a = 1;␊  ␊  return y.a + b[2] + z == 1 ? 0 : 1;␊}␊
s 0 5 6¦struct s { int a; int b; };␊int main(void)␊{␊  struct s x, y;␊  int b[3] = { 7 };␊  static int z;␊  x.a = 1;␊  y = x;␊  ␊}␊
c 0 0 22¦struct s { int a; int b; };␊int main(void)␊{␊  struct s x, y;␊  int b[0] = { 7 };␊  static int z;␊  x.a = 1;␊  y = x;␊  return y.a + b[2] + z == 1 ? 0 : 1;␊}␊
c 0 7 22¦struct s { int a; int b; };␊int main(void)␊{␊  struct s x, y;␊  int b[3] = { 7 };␊  static int z;␊  x.a = 1;␊  0 = x;␊  return y.a + b[2] + z == 1 ? 0 : 1;␊}␊
c 0 21 22¦struct s { int a; int b; };␊int main(void)␊{␊  struct s x, y;␊  int b[3] = { 7 };␊  static int z;␊  x.a = 1;␊  y = x;␊  return y.a + b[2] + z == 1 ? 0 : 0;␊}␊
c 1 0 22¦struct s { int a; int b; };␊int main(void)␊{␊  struct s x, y;␊  int b[1] = { 7 };␊  static int z;␊  x.a = 1;␊  y = x;␊  return y.a + b[2] + z == 1 ? 0 : 1;␊}␊
c 1 7 22¦struct s { int a; int b; };␊int main(void)␊{␊  struct s x, y;␊  int b[3] = { 7 };␊  static int z;␊  x.a = 1;␊  1 = x;␊  return y.a + b[2] + z == 1 ? 0 : 1;␊}␊
c 1 21 22¦struct s { int a; int b; };␊int main(void)␊{␊  struct s x, y;␊  int b[3] = { 7 };␊  static int z;␊  x.a = 1;␊  y = x;␊  return y.a + b[2] + z == 1 ? 0 : 1;␊}␊
c 2 0 9¦struct s { int a; int b; };␊int main(void)␊{␊  struct s x, y;␊  int b[3] = { 7 };␊  static int z;␊  x.a;␊  y = x;␊  return y.a + b[2] + z == 1 ? 0 : 1;␊}␊
c 2 1 9¦struct s { int a; int b; };␊int main(void)␊{␊  struct s x, y;␊  int b[3] = { 7 };␊  static int z;␊  x = 1;␊  y = x;␊  return y.a + b[2] + z == 1 ? 0 : 1;␊}␊
c 2 8 9¦struct s { int a; int b; };␊int main(void)␊{␊  struct s x, y;␊  int b[3] = { 7 };␊  static int z;␊  x.a = 1;␊  y = x;␊  return y.a + b + z == 1 ? 0 : 1;␊}␊
c 3 0 7¦struct s { int a; int b; };␊int main(void)␊{␊  struct s x, y;␊  int b[3] = { 7 };␊  static int z;␊  1;␊  y = x;␊  return y.a + b[2] + z == 1 ? 0 : 1;␊}␊
c 3 6 7¦struct s { int a; int b; };␊int main(void)␊{␊  struct s x, y;␊  int b[3] = { 7 };␊  static int z;␊  x.a = 1;␊  y = x;␊  return y.a + 2 + z == 1 ? 0 : 1;␊}␊
f 0 0 1¦struct s{int a;int b;};int main(void){struct s x,y;int b[3]={7};static int z;x.a=1;y=x;return y.a+b[2]+z==1?0:1;}
file¦int g;␊int f(int x)␊{␊  g = g * 2 + x;␊  return g;␊}␊int main(void)␊{␊  int r = f(1) + f(2);␊  return r > 0 && g + f(0) ? 0 : 1;␊}␊
p 0 0 1¦int g;␊int f(void)␊{␊  g = g * 2 + 0;␊  return g;␊}␊int main(void)␊{␊  int r = f() + f();␊  return r > 0 && g + f() ? 0 : 1;␊}␊
r 0 0 4¦int a;␊int f(int x)␊{␊  a = a * 2 + x;␊  return a;␊}␊int main(void)␊{␊  int r = f(1) + f(2);␊  return r > 0 && a + f(0) ? 0 : 1;␊}␊
r 0 3 4¦int g;␊int f(int x)␊{␊  g = g * 2 + x;␊  return g;␊}␊int main(void)␊{␊  int a = f(1) + f(2);␊  return a > 0 && g + f(0) ? 0 : 1;␊}␊
s 0 0 4¦int g;␊int f(int x)␊{␊  ␊  return g;␊}␊int main(void)␊{␊  int r = f(1) + f(2);␊  return r > 0 && g + f(0) ? 0 : 1;␊}␊
s 0 3 4¦int g;␊int f(int x)␊{␊  g = g * 2 + x;␊  return g;␊}␊int main(void)␊{␊  int r = f(1) + f(2);␊  ␊}␊
c 0 0 24¦int g;␊int f(int x)␊{␊  0;␊  return g;␊}␊int main(void)␊{␊  int r = f(1) + f(2);␊  return r > 0 && g + f(0) ? 0 : 1;␊}␊
c 0 12 24¦int g;␊int f(int x)␊{␊  g = g * 2 + x;␊  return g;␊}␊int main(void)␊{␊  int r = f(1) + f(0);␊  return r > 0 && g + f(0) ? 0 : 1;␊}␊
c 0 23 24¦int g;␊int f(int x)␊{␊  g = g * 2 + x;␊  return g;␊}␊int main(void)␊{␊  int r = f(1) + f(2);␊  return r > 0 && g + f(0) ? 0 : 0;␊}␊
c 1 0 24¦int g;␊int f(int x)␊{␊  1;␊  return g;␊}␊int main(void)␊{␊  int r = f(1) + f(2);␊  return r > 0 && g + f(0) ? 0 : 1;␊}␊
c 1 11 24¦int g;␊int f(int x)␊{␊  g = g * 2 + x;␊  return g;␊}␊int main(void)␊{␊  int r = f(1) + 1;␊  return r > 0 && g + f(0) ? 0 : 1;␊}␊
c 1 23 24¦int g;␊int f(int x)␊{␊  g = g * 2 + x;␊  return g;␊}␊int main(void)␊{␊  int r = f(1) + f(2);␊  return r > 0 && g + f(0) ? 0 : 1;␊}␊
c 2 0 11¦int g;␊int f(int x)␊{␊  g;␊  return g;␊}␊int main(void)␊{␊  int r = f(1) + f(2);␊  return r > 0 && g + f(0) ? 0 : 1;␊}␊
c 2 1 11¦int g;␊int f(int x)␊{␊  g = g * 2;␊  return g;␊}␊int main(void)␊{␊  int r = f(1) + f(2);␊  return r > 0 && g + f(0) ? 0 : 1;␊}␊
c 2 10 11¦int g;␊int f(int x)␊{␊  g = g * 2 + x;␊  return g;␊}␊int main(void)␊{␊  int r = f(1) + f(2);␊  return r > 0 && g + 0 ? 0 : 1;␊}␊
c 3 0 8¦int g;␊int f(int x)␊{␊  g * 2 + x;␊  return g;␊}␊int main(void)␊{␊  int r = f(1) + f(2);␊  return r > 0 && g + f(0) ? 0 : 1;␊}␊
c 3 7 8¦int g;␊int f(int x)␊{␊  g = g * 2 + x;␊  return g;␊}␊int main(void)␊{␊  int r = f(1) + f(2);␊  return r > 0 && f(0) ? 0 : 1;␊}␊
f 0 0 1¦int g;int f(int x){g=g*2+x;return g;}int main(void){int r=f(1)+f(2);return r>0&&g+f(0)?0:1;}
file¦int main(void)␊{␊  int i = 0;␊  i = i++ || 1;␊  return i == 1 ? 0 : 1;␊}␊
r 0 0 1¦int main(void)␊{␊  int a = 0;␊  a = a++ || 1;␊  return a == 1 ? 0 : 1;␊}␊
s 0 0 3¦int main(void)␊{␊  ␊  i = i++ || 1;␊  return i == 1 ? 0 : 1;␊}␊
s 0 2 3¦int main(void)␊{␊  int i = 0;␊  i = i++ || 1;␊  ␊}␊
c 0 0 13¦int main(void)␊{␊  int i = 0;␊  i = i++ || 1;␊  return i == 1 ? 0 : 1;␊}␊
c 0 12 13¦int main(void)␊{␊  int i = 0;␊  i = i++ || 1;␊  return i == 1 ? 0 : 0;␊}␊
c 1 0 13¦int main(void)␊{␊  int i = 1;␊  i = i++ || 1;␊  return i == 1 ? 0 : 1;␊}␊
c 1 5 13¦int main(void)␊{␊  int i = 0;␊  i = 1++ || 1;␊  return i == 1 ? 0 : 1;␊}␊
c 1 12 13¦int main(void)␊{␊  int i = 0;␊  i = i++ || 1;␊  return i == 1 ? 0 : 1;␊}␊
c 2 0 5¦int main(void)␊{␊  int i = 0;␊  i;␊  return i == 1 ? 0 : 1;␊}␊
c 2 2 5¦int main(void)␊{␊  int i = 0;␊  i = i || 1;␊  return i == 1 ? 0 : 1;␊}␊
c 2 4 5¦int main(void)␊{␊  int i = 0;␊  i = i++ || 1;␊  return i ? 0 : 1;␊}␊
c 3 0 4¦int main(void)␊{␊  int i = 0;␊  i++ || 1;␊  return i == 1 ? 0 : 1;␊}␊
c 3 3 4¦int main(void)␊{␊  int i = 0;␊  i = i++ || 1;␊  return 1 ? 0 : 1;␊}␊
f 0 0 1¦int main(void){int i=0;i=i++||1;return i==1?0:1;}
file¦int main(void)␊{␊  char a[] = "abc", b[4] = "xyz";␊  a[0] = 'x';␊  b[3]++;␊  return a[0] == 'x' ? 0 : 1;␊}␊
r 0 0 2¦int main(void)␊{␊  char c[] = "abc", b[4] = "xyz";␊  c[0] = 'x';␊  b[3]++;␊  return c[0] == 'x' ? 0 : 1;␊}␊
r 0 1 2¦int main(void)␊{␊  char a[] = "abc", c[4] = "xyz";␊  a[0] = 'x';␊  c[3]++;␊  return a[0] == 'x' ? 0 : 1;␊}␊
s 0 0 4¦int main(void)␊{␊  ␊  a[0] = 'x';␊  b[3]++;␊  return a[0] == 'x' ? 0 : 1;␊}␊
s 0 3 4¦int main(void)␊{␊  char a[] = "abc", b[4] = "xyz";␊  a[0] = 'x';␊  b[3]++;␊  ␊}␊
c 0 0 20¦int main(void)␊{␊  char a[] = 0, b[4] = "xyz";␊  a[0] = 'x';␊  b[3]++;␊  return a[0] == 'x' ? 0 : 1;␊}␊
c 0 13 20¦int main(void)␊{␊  char a[] = "abc", b[4] = "xyz";␊  a[0] = 'x';␊  b[3]++;␊  return 0 ? 0 : 1;␊}␊
c 0 19 20¦int main(void)␊{␊  char a[] = "abc", b[4] = "xyz";␊  a[0] = 'x';␊  b[3]++;␊  return a[0] == 'x' ? 0 : 0;␊}␊
c 1 0 20¦int main(void)␊{␊  char a[] = 1, b[4] = "xyz";␊  a[0] = 'x';␊  b[3]++;␊  return a[0] == 'x' ? 0 : 1;␊}␊
c 1 12 20¦int main(void)␊{␊  char a[] = "abc", b[4] = "xyz";␊  a[0] = 'x';␊  b[3]++;␊  return 1;␊}␊
c 1 19 20¦int main(void)␊{␊  char a[] = "abc", b[4] = "xyz";␊  a[0] = 'x';␊  b[3]++;␊  return a[0] == 'x' ? 0 : 1;␊}␊
c 2 0 7¦int main(void)␊{␊  char a[] = "abc", b[4] = "xyz";␊  a[0];␊  b[3]++;␊  return a[0] == 'x' ? 0 : 1;␊}␊
c 2 6 7¦int main(void)␊{␊  char a[] = "abc", b[4] = "xyz";␊  a[0] = 'x';␊  b[3]++;␊  return a == 'x' ? 0 : 1;␊}␊
c 3 0 6¦int main(void)␊{␊  char a[] = "abc", b[4] = "xyz";␊  'x';␊  b[3]++;␊  return a[0] == 'x' ? 0 : 1;␊}␊
c 3 1 6¦int main(void)␊{␊  char a[] = "abc", b[4] = "xyz";␊  0 = 'x';␊  b[3]++;␊  return a[0] == 'x' ? 0 : 1;␊}␊
c 3 5 6¦int main(void)␊{␊  char a[] = "abc", b[4] = "xyz";␊  a[0] = 'x';␊  b[3]++;␊  return 0 == 'x' ? 0 : 1;␊}␊
f 0 0 1¦int main(void){char a[]="abc",b[4]="xyz";a[0]='x';b[3]++;return a[0]=='x'?0:1;}
file¦int main(void)␊{␊  int z = 0;␊  if (z)␊    return 1 / z;␊  return sizeof(1 / 0) == 4 && (z == 0 || 5 / z) ? 0 : 1;␊}␊
r 0 0 1¦int main(void)␊{␊  int a = 0;␊  if (a)␊    return 1 / a;␊  return sizeof(1 / 0) == 4 && (a == 0 || 5 / a) ? 0 : 1;␊}␊
s 0 0 3¦int main(void)␊{␊  ␊  if (z)␊    return 1 / z;␊  return sizeof(1 / 0) == 4 && (z == 0 || 5 / z) ? 0 : 1;␊}␊
s 0 1 3¦int main(void)␊{␊  int z = 0;␊  ␊  return sizeof(1 / 0) == 4 && (z == 0 || 5 / z) ? 0 : 1;␊}␊
s 0 2 3¦int main(void)␊{␊  int z = 0;␊  if (z)␊    return 1 / z;␊  ␊}␊
s 1 0 1¦int main(void)␊{␊  int z = 0;␊  return 1 / z;␊  return sizeof(1 / 0) == 4 && (z == 0 || 5 / z) ? 0 : 1;␊}␊
s 3 0 1¦int main(void)␊{␊  int z = 0;␊  if (z)␊    ;␊  return sizeof(1 / 0) == 4 && (z == 0 || 5 / z) ? 0 : 1;␊}␊
c 0 0 24¦int main(void)␊{␊  int z = 0;␊  if (z)␊    return 1 / z;␊  return sizeof(1 / 0) == 4 && (z == 0 || 5 / z) ? 0 : 1;␊}␊
c 0 19 24¦int main(void)␊{␊  int z = 0;␊  if (z)␊    return 1 / z;␊  return sizeof(1 / 0) == 4 && (z == 0 || 0) ? 0 : 1;␊}␊
c 0 23 24¦int main(void)␊{␊  int z = 0;␊  if (z)␊    return 1 / z;␊  return sizeof(1 / 0) == 4 && (z == 0 || 5 / z) ? 0 : 0;␊}␊
c 1 0 24¦int main(void)␊{␊  int z = 1;␊  if (z)␊    return 1 / z;␊  return sizeof(1 / 0) == 4 && (z == 0 || 5 / z) ? 0 : 1;␊}␊
c 1 6 24¦int main(void)␊{␊  int z = 0;␊  if (z)␊    return 1 / z;␊  return 1 ? 0 : 1;␊}␊
c 1 23 24¦int main(void)␊{␊  int z = 0;␊  if (z)␊    return 1 / z;␊  return sizeof(1 / 0) == 4 && (z == 0 || 5 / z) ? 0 : 1;␊}␊
c 2 0 10¦int main(void)␊{␊  int z = 0;␊  if (z)␊    return 1;␊  return sizeof(1 / 0) == 4 && (z == 0 || 5 / z) ? 0 : 1;␊}␊
c 2 7 10¦int main(void)␊{␊  int z = 0;␊  if (z)␊    return 1 / z;␊  return sizeof(1 / 0) == 4 && (z == 0) ? 0 : 1;␊}␊
c 2 9 10¦int main(void)␊{␊  int z = 0;␊  if (z)␊    return 1 / z;␊  return sizeof(1 / 0) == 4 && (z == 0 || 5) ? 0 : 1;␊}␊
c 3 0 8¦int main(void)␊{␊  int z = 0;␊  if (z)␊    return z;␊  return sizeof(1 / 0) == 4 && (z == 0 || 5 / z) ? 0 : 1;␊}␊
c 3 1 8¦int main(void)␊{␊  int z = 0;␊  if (z)␊    return 1 / z;␊  return 1;␊}␊
c 3 7 8¦int main(void)␊{␊  int z = 0;␊  if (z)␊    return 1 / z;␊  return sizeof(1 / 0) == 4 && (z == 0 || z) ? 0 : 1;␊}␊
f 0 0 1¦int main(void){int z=0;if(z)return 1/z;return sizeof(1/0)==4&&(z==0||5/z)?0:1;}
file¦int main(void)␊{␊  unsigned char c = 1;␊  return (1u << 31) != 0 && (1L << 62) != 0 && c << 20 == 1048576 && -1 >> 31 == -1 ? 0 : 1;␊}␊
r 0 0 1¦int main(void)␊{␊  unsigned char a = 1;␊  return (1u << 31) != 0 && (1L << 62) != 0 && a << 20 == 1048576 && -1 >> 31 == -1 ? 0 : 1;␊}␊
s 0 0 2¦int main(void)␊{␊  ␊  return (1u << 31) != 0 && (1L << 62) != 0 && c << 20 == 1048576 && -1 >> 31 == -1 ? 0 : 1;␊}␊
s 0 1 2¦int main(void)␊{␊  unsigned char c = 1;␊  ␊}␊
c 0 0 31¦int main(void)␊{␊  unsigned char c = 0;␊  return (1u << 31) != 0 && (1L << 62) != 0 && c << 20 == 1048576 && -1 >> 31 == -1 ? 0 : 1;␊}␊
c 0 16 31¦int main(void)␊{␊  unsigned char c = 1;␊  return (1u << 31) != 0 && (1L << 62) != 0 && c << 20 == 1048576 && -1 >> 31 == -1 ? 0 : 1;␊}␊
c 0 30 31¦int main(void)␊{␊  unsigned char c = 1;␊  return (1u << 31) != 0 && (1L << 62) != 0 && c << 20 == 1048576 && -1 >> 31 == -1 ? 0 : 0;␊}␊
c 1 0 31¦int main(void)␊{␊  unsigned char c = 1;␊  return (1u << 31) != 0 && (1L << 62) != 0 && c << 20 == 1048576 && -1 >> 31 == -1 ? 0 : 1;␊}␊
c 1 11 31¦int main(void)␊{␊  unsigned char c = 1;␊  return (1u << 31) != 0 && 1 && c << 20 == 1048576 && -1 >> 31 == -1 ? 0 : 1;␊}␊
c 1 30 31¦int main(void)␊{␊  unsigned char c = 1;␊  return (1u << 31) != 0 && (1L << 62) != 0 && c << 20 == 1048576 && -1 >> 31 == -1 ? 0 : 1;␊}␊
c 2 0 16¦int main(void)␊{␊  unsigned char c = 1;␊  return 0;␊}␊
c 2 13 16¦int main(void)␊{␊  unsigned char c = 1;␊  return (1u << 31) != 0 && (1L << 62) != 0 && c << 20 == 1048576 && -1 == -1 ? 0 : 1;␊}␊
c 2 15 16¦int main(void)␊{␊  unsigned char c = 1;␊  return (1u << 31) != 0 && (1L << 62) != 0 && c << 20 == 1048576 && -1 >> 31 == 1 ? 0 : 1;␊}␊
c 3 0 12¦int main(void)␊{␊  unsigned char c = 1;␊  return 1;␊}␊
c 3 9 12¦int main(void)␊{␊  unsigned char c = 1;␊  return (1u << 31) != 0 && (1L << 62) != 0 && 20 == 1048576 && -1 >> 31 == -1 ? 0 : 1;␊}␊
c 3 11 12¦int main(void)␊{␊  unsigned char c = 1;␊  return (1u << 31) != 0 && (1L << 62) != 0 && c << 20 == 1048576 && 31 == -1 ? 0 : 1;␊}␊
f 0 0 1¦int main(void){unsigned char c=1;return(1u<<31)!=0&&(1L<<62)!=0&&c<<20==1048576&&-1>>31==-1?0:1;}
file¦int main(void)␊{␊  int z = 0;␊  return z << 31 == 0 && 1 << 30 > 0 && 2u << 31 == 0 ? 0 : 1;␊}␊
r 0 0 1¦int main(void)␊{␊  int a = 0;␊  return a << 31 == 0 && 1 << 30 > 0 && 2u << 31 == 0 ? 0 : 1;␊}␊
s 0 0 2¦int main(void)␊{␊  ␊  return z << 31 == 0 && 1 << 30 > 0 && 2u << 31 == 0 ? 0 : 1;␊}␊
s 0 1 2¦int main(void)␊{␊  int z = 0;␊  ␊}␊
c 0 0 21¦int main(void)␊{␊  int z = 0;␊  return z << 31 == 0 && 1 << 30 > 0 && 2u << 31 == 0 ? 0 : 1;␊}␊
c 0 14 21¦int main(void)␊{␊  int z = 0;␊  return z << 31 == 0 && 1 << 30 > 0 && 0 ? 0 : 1;␊}␊
c 0 20 21¦int main(void)␊{␊  int z = 0;␊  return z << 31 == 0 && 1 << 30 > 0 && 2u << 31 == 0 ? 0 : 0;␊}␊
c 1 0 21¦int main(void)␊{␊  int z = 1;␊  return z << 31 == 0 && 1 << 30 > 0 && 2u << 31 == 0 ? 0 : 1;␊}␊
c 1 20 21¦int main(void)␊{␊  int z = 0;␊  return z << 31 == 0 && 1 << 30 > 0 && 2u << 31 == 0 ? 0 : 1;␊}␊
c 2 0 9¦int main(void)␊{␊  int z = 0;␊  return 0;␊}␊
c 2 5 9¦int main(void)␊{␊  int z = 0;␊  return z << 31 == 0 && 1 << 30 && 2u << 31 == 0 ? 0 : 1;␊}␊
c 2 8 9¦int main(void)␊{␊  int z = 0;␊  return z << 31 == 0 && 1 << 30 > 0 && 2u == 0 ? 0 : 1;␊}␊
c 3 0 9¦int main(void)␊{␊  int z = 0;␊  return 1;␊}␊
c 3 1 9¦int main(void)␊{␊  int z = 0;␊  return 2u << 31 == 0 ? 0 : 1;␊}␊
c 3 8 9¦int main(void)␊{␊  int z = 0;␊  return z << 31 == 0 && 1 << 30 > 0 && 31 == 0 ? 0 : 1;␊}␊
f 0 0 1¦int main(void){int z=0;return z<<31==0&&1<<30>0&&2u<<31==0?0:1;}
file¦int f(){L:;}int main(){L:goto L;}
u 0 0 1¦int main(){L:goto L;}
r 0 0 1¦int a(){L:;}int main(){L:goto L;}
s 5 0 1¦int f(){;}int main(){L:goto L;}
file¦int main(){int i=3;L:if(i){i--;goto L;}return i;}
r 0 0 1¦int main(){int a=3;L:if(a){a--;goto L;}return a;}
file¦int main(){int*p;{int x=1;p=&x;goto L;}L:return *p;}
r 0 0 2¦int main(){int*a;{int x=1;a=&x;goto L;}L:return *a;}
r 0 1 2¦int main(){int*p;{int a=1;p=&a;goto L;}L:return *p;}
file¦int printf(const char*,...);int main(){printf("a %d %d\n",0,7);return 0;}
o 0 0 2¦int printf(const char*,...);int main(){printf("a  %d\n",7);return 0;}
o 0 1 2¦int printf(const char*,...);int main(){printf("a %d \n",0);return 0;}
o 1 0 1¦int printf(const char*,...);int main(){printf("%d%d",0,7);return 0;}
o 2 0 0¦int printf(const char*,...);int main(){printf("a %d %d\n",0,7);return 0;}
o 3 0 0¦int printf(const char*,...);int main(){printf("a %d %d\n",0,7);return 0;}
file¦int printf(const char*,...);int main(){long x=1;printf("%ld%u%%%c%s",(long)x,5uL,(x,65),"s");return 0;}
o 0 0 4¦int printf(const char*,...);int main(){long x=1;printf("%u%%%c%s",5uL,(x,65),"s");return 0;}
o 0 1 4¦int printf(const char*,...);int main(){long x=1;printf("%ld%%%c%s",(long)x,(x,65),"s");return 0;}
o 0 2 4¦int printf(const char*,...);int main(){long x=1;printf("%ld%u%%%s",(long)x,5uL,"s");return 0;}
o 0 3 4¦int printf(const char*,...);int main(){long x=1;printf("%ld%u%%%c",(long)x,5uL,(x,65));return 0;}
o 1 0 1¦int printf(const char*,...);int main(){long x=1;printf("%ld%u%c%s",(long)x,5uL,(x,65),"s");return 0;}
o 2 0 3¦int printf(const char*,...);int main(){long x=1;printf("%d%u%%%c%s",x,5uL,(x,65),"s");return 0;}
o 2 1 3¦int printf(const char*,...);int main(){long x=1;printf("%ld%d%%%c%s",(long)x,5,(x,65),"s");return 0;}
o 2 2 3¦int printf(const char*,...);int main(){long x=1;printf("%ld%u%%%d%s",(long)x,5uL,(x,65),"s");return 0;}
file¦int printf(const char*,...);int putchar(int);int main(){printf("%d" "%d",1,2);printf("x%dy%dz",printf("%lu",3ul));putchar(65);printf("%d");return 0;}
o 0 0 2¦int printf(const char*,...);int putchar(int);int main(){printf("%d" "%d",1,2);printf("x y%dz");putchar(65);printf("%d");return 0;}
o 0 1 2¦int printf(const char*,...);int putchar(int);int main(){printf("%d" "%d",1,2);printf("x%dy%dz",printf(""));putchar(65);printf("%d");return 0;}
o 1 0 1¦int printf(const char*,...);int putchar(int);int main(){printf("%d" "%d",1,2);printf("%d%d",printf("%lu",3ul));putchar(65);printf("%d");return 0;}
o 2 0 1¦int printf(const char*,...);int putchar(int);int main(){printf("%d" "%d",1,2);printf("x%dy%dz",printf("%d",3));putchar(65);printf("%d");return 0;}
file¦int printf(const char*,...);int main(){printf("%lld%5d%l%",1ll,2);printf("%uh",1);return 0;}
o 0 0 2¦int printf(const char*,...);int main(){printf("%5d%l%",2);printf("%uh",1);return 0;}
o 0 1 2¦int printf(const char*,...);int main(){printf("%lld%5d%l%",1ll,2);printf("h");return 0;}
o 1 0 2¦int printf(const char*,...);int main(){printf("%lld",1ll,2);printf("%uh",1);return 0;}
o 1 1 2¦int printf(const char*,...);int main(){printf("%lld%5d%l%",1ll,2);printf("%u",1);return 0;}
o 2 0 2¦int printf(const char*,...);int main(){printf("%d%5d%l%",1,2);printf("%uh",1);return 0;}
o 2 1 2¦int printf(const char*,...);int main(){printf("%lld%5d%l%",1ll,2);printf("%d h",1);return 0;}
file¦int printf(const char*,...);int main(){printf("%%%d%%",1);printf("%%");printf("%%%%d",2);return 0;}
o 0 0 1¦int printf(const char*,...);int main(){printf("%%%%");printf("%%");printf("%%%%d",2);return 0;}
o 1 0 1¦int printf(const char*,...);int main(){printf("%d",1);printf("%%");printf("%%%%d",2);return 0;}
o 2 0 0¦int printf(const char*,...);int main(){printf("%%%d%%",1);printf("%%");printf("%%%%d",2);return 0;}
file¦int main(){return x;}
v 0 0 0¦int main(){return x;}
o 0 0 0¦int main(){return x;}
file¦int main(){int a=2+3,b=1;return a*b;}
v 0 0 2¦int main(){int b=1;return (2+3)*b;}
v 0 1 2¦int main(){int a=2+3;return a*(1);}
v 1 0 0¦int main(){int a=2+3,b=1;return a*b;}
v 2 0 0¦int main(){int a=2+3,b=1;return a*b;}
v 3 0 0¦int main(){int a=2+3,b=1;return a*b;}
file¦int f(){int x=f();return x;}int y=4,z;int main(){int u=sizeof u,w=y;for(int i=3;w<i;);return z;}
v 0 0 4¦int f(){return (f());}int y=4,z;int main(){int u=sizeof u,w=y;for(int i=3;w<i;);return z;}
v 0 1 4¦int f(){int x=f();return x;}int z;int main(){int u=sizeof u,w=(4);for(int i=3;w<i;);return z;}
v 0 2 4¦int f(){int x=f();return x;}int y=4,z;int main(){int u=sizeof u;for(int i=3;(y)<i;);return z;}
v 0 3 4¦int f(){int x=f();return x;}int y=4,z;int main(){int u=sizeof u,w=y;for(w<(3););return z;}
v 1 0 0¦int f(){int x=f();return x;}int y=4,z;int main(){int u=sizeof u,w=y;for(int i=3;w<i;);return z;}
v 2 0 0¦int f(){int x=f();return x;}int y=4,z;int main(){int u=sizeof u,w=y;for(int i=3;w<i;);return z;}
file¦int g(){return 1;}int main(){int a,b,c;a=g();b=a;c=1;c=2;return b;}
v 0 0 0¦int g(){return 1;}int main(){int a,b,c;a=g();b=a;c=1;c=2;return b;}
v 1 0 2¦int g(){return 1;}int main(){int b,c;;b=(g());c=1;c=2;return b;}
v 1 1 2¦int g(){return 1;}int main(){int a,c;a=g();;c=1;c=2;return (a);}
file¦int main(){int a,b,c;a=1;a+=2;b=3;c=(b=4);return c++;}
v 1 0 2¦int main(){int b,c;;(1)+=2;b=3;c=(b=4);return c++;}
v 1 1 2¦int main(){int a,b;a=1;a+=2;b=3;;return ((b=4))++;}
file¦int x;int main(){if(x)x=5- -x/**/-1;return 0;}
v 1 0 0¦int x;int main(){if(x)x=5- -x/**/-1;return 0;}
file¦int x,y;int main(){if(x)x=5- -y/**/-1;return 0;}
v 1 0 1¦int y;int main(){if((5- -y-1));return 0;}
file¦int x;int main(){if(x)x=5;return 0;}
v 1 0 1¦int main(){if((5));return 0;}
file¦int main(){int a;a=a+1;return 0;}
v 1 0 1¦int main(){;return 0;}
file¦int f(int p){p=1;return p;}int main(){return f(0);}
v 1 0 0¦int f(int p){p=1;return p;}int main(){return f(0);}
file¦int x=2;int main(){x=5;return x;}
v 0 0 0¦int x=2;int main(){x=5;return x;}
v 1 0 0¦int x=2;int main(){x=5;return x;}
file¦int f(){return 1;}int main(){int a=f();static int b={2};int c=1,d=2;{const int e=f()+1;}return c+d;}
v 0 0 2¦int f(){return 1;}int main(){int a=f();static int b={2};int d=2;{const int e=f()+1;}return (1)+d;}
v 0 1 2¦int f(){return 1;}int main(){int a=f();static int b={2};int c=1;{const int e=f()+1;}return c+(2);}
v 1 0 0¦int f(){return 1;}int main(){int a=f();static int b={2};int c=1,d=2;{const int e=f()+1;}return c+d;}
v 2 0 2¦int f(){return 1;}int main(){f();static int b={2};int c=1,d=2;{const int e=f()+1;}return c+d;}
v 2 1 2¦int f(){return 1;}int main(){int a=f();static int b={2};int c=1,d=2;{f()+1;}return c+d;}
file¦int printf(const char*,...);unsigned short b;struct{char a;}g={-1};int main(){printf("11 %ld %lu\n",(long)0,(unsigned long)(0?b:g.a));return 0;}
v 0 0 0¦int printf(const char*,...);unsigned short b;struct{char a;}g={-1};int main(){printf("11 %ld %lu\n",(long)0,(unsigned long)(0?b:g.a));return 0;}
o 0 0 2¦int printf(const char*,...);unsigned short b;struct{char a;}g={-1};int main(){printf("11  %lu\n",(unsigned long)(0?b:g.a));return 0;}
o 0 1 2¦int printf(const char*,...);unsigned short b;struct{char a;}g={-1};int main(){printf("11 %ld \n",(long)0);return 0;}
o 1 0 1¦int printf(const char*,...);unsigned short b;struct{char a;}g={-1};int main(){printf("%ld%lu",(long)0,(unsigned long)(0?b:g.a));return 0;}
o 2 0 2¦int printf(const char*,...);unsigned short b;struct{char a;}g={-1};int main(){printf("11 %d %lu\n",0,(unsigned long)(0?b:g.a));return 0;}
o 2 1 2¦int printf(const char*,...);unsigned short b;struct{char a;}g={-1};int main(){printf("11 %ld %d\n",(long)0,(0?b:g.a));return 0;}
file¦int printf(const char*,...);static int a;int main(){int b=printf("AT1 ");if(a)printf("DEAD1 ");a=0;}
v 0 0 0¦int printf(const char*,...);static int a;int main(){int b=printf("AT1 ");if(a)printf("DEAD1 ");a=0;}
v 1 0 1¦int printf(const char*,...);int main(){int b=printf("AT1 ");if((0))printf("DEAD1 ");;}
v 2 0 1¦int printf(const char*,...);static int a;int main(){printf("AT1 ");if(a)printf("DEAD1 ");a=0;}
"#;

fn number(word: Option<&str>) -> u64 {
    match word {
        Some(word) => word.parse().unwrap_or(99),
        None => 99,
    }
}

fn pass_of(letter: Option<&str>) -> u8 {
    match letter.unwrap_or("") {
        "l" => 0,
        "t" => 1,
        "b" => 2,
        "u" => 3,
        "s" => 4,
        "c" => 5,
        "i" => 6,
        "p" => 7,
        "r" => 8,
        "f" => 9,
        "v" => 10,
        "o" => 11,
        _ => 12,
    }
}

// The variant of an index, which is the file where there is none.
fn variant_of<P: Passes>(
    alloc: Global,
    passes: &P,
    index: &P::Prep,
    file: &[u8],
    at: Cursor,
) -> Result<Vec<u8>, AllocError> {
    let width = passes.width(index, at.pass, at.level);
    if at.index >= width {
        return file.to_vec(alloc);
    }
    let mut out = Vec::new(alloc);
    passes.variant(index, file, at, &mut out)?;
    Ok(out)
}

// The variant that the numbers name, or a word where the level has another width.
fn made<P: Passes>(
    alloc: Global,
    passes: &P,
    index: &P::Prep,
    file: &[u8],
    numbers: &str,
) -> Result<Vec<u8>, AllocError> {
    let mut words = numbers.split_whitespace();
    let at = Cursor {
        pass: pass_of(words.next()),
        level: u8::try_from(number(words.next())).unwrap_or(99),
        index: number(words.next()),
    };
    if passes.width(index, at.pass, at.level) != number(words.next()) {
        return b"another width".to_vec(alloc);
    }
    variant_of(alloc, passes, index, file, at)
}

// The bytes of a cell, in which `␊` stands for the end of a line and `␉` for a tab.
fn bytes_of(alloc: Global, cell: &str) -> Result<Vec<u8>, AllocError> {
    let mut bytes = Vec::new(alloc);
    for c in cell.chars() {
        bytes.push(byte_of(c))?;
    }
    Ok(bytes)
}

fn byte_of(c: char) -> u8 {
    match c {
        '␊' => b'\n',
        '␉' => b'\t',
        '\0'..='\x7f' => c as u8,
        _ => b'?',
    }
}

fn expect(rt: &impl Abort, found: &[u8], wanted: &[u8], row: &str) {
    assert!(rt; found == wanted, "{row}: {found:?} and not {wanted:?}");
}

fn check<P: Passes>(
    rt: &impl Abort,
    alloc: Global,
    passes: &P,
    index: &P::Prep,
    file: &[u8],
    row: &str,
) -> Result<(), AllocError> {
    let Some((numbers, variant)) = row.split_once('¦') else {
        return Ok(());
    };
    let wanted = bytes_of(alloc, variant)?;
    let found = made(alloc, passes, index, file, numbers)?;
    expect(rt, &found, &wanted, row);
    Ok(())
}

// A file's rows. The index is made once for all of them.
fn check_rows(rt: &impl Abort, alloc: Global, file: &[u8], rows: &str) -> Result<(), AllocError>
    requires { length file.now ≤ 1048576 }
{
    let passes = CPasses {
        enabled: [true; 12],
        last: None,
    };
    let index = passes.prepare(alloc, file)?;
    for row in rows.lines() {
        check(rt, alloc, &passes, &index, file, row)?;
    }
    Ok(())
}

// A file and its rows.
fn check_all(rt: &impl Abort, alloc: Global, table: &str) -> Result<(), AllocError> {
    let (shown, rows) = table.split_once('\n').unwrap_or(("", ""));
    let file = bytes_of(alloc, shown)?;
    check_rows(rt, alloc, &file[..file.len().min(1_048_576)], rows)
}

#[test]
fn passes_give_the_variants_of_the_table(rt: HostRuntime) -> Result<(), AllocError> {
    for table in VARIANTS.split("file¦") {
        check_all(&rt, rt.alloc(), table)?;
    }
    Ok(())
}
