use crate::checking::checked;
use crate::shown::{none_of, plain};
use std::alloc::{AllocError, Global};
use std::test::Fail;

// What a file comes to, and the file, its ends of lines as `\n` and its backslashes as `\\`: `typed`; `name`, 1 for an unknown name and 2 for
// one that is declared twice, and the line; or `type`, the number of the constraint, and the line.
const RULINGS: &str = r#"
type 4 1¦inline int x;int main(){}
type 14 1¦int a[];int main(){return 0;}
type 14 1¦int main(){int a[];return 0;}
type 15 1¦enum{A=1/0};int main(){}
type 15 1¦enum{A=2147483648};int main(){}
type 27 1¦struct s{int a;}x;int main(){return (int)x;}
type 27 1¦int main(){int*p=(int*)1;return p==0;}
type 27 1¦int main(){int*p=(int*)0;return (int)p;}
type 27 1¦volatile int v;int main(){return *(int*)&v;}
type 33 1¦int main(){int*p=0;return p==1;}
type 33 1¦int main(){int*p=0;char*q=0;return p==q;}
typed¦int main(){int*p=0;void*q=0;return p==q&&p==0&&0==q;}
type 35 1¦struct s{int a;}x;int main(){return x&&1;}
type 43 1¦int main(){L:;L:;}
typed¦int f(){L:;}int main(){L:goto L;}
type 42 1¦int main(){goto L;{L:;}}
type 42 1¦int main(){goto L;}
typed¦int main(){int*p;{int x=1;p=&x;goto L;}L:return *p;}
type 26 1¦int main(){return sizeof(struct t);}
typed¦struct t;int main(){return sizeof(int[2])-8;}
typed¦int f(int n){if(n)return f(n-1);return 0;}int main(){return f(254);}
typed¦int f(int n){if(n)return f(n-1);return 0;}int main(){return f(255);}
typed¦int main(){int i=1;i=i++||1;return i;}
typed¦int main(){int i=0;i=i++||1;return i;}
typed¦int main(){int i=0;i+=(i=1,2);return i;}
typed¦int main(){int a[2][3];return &a[0][3]==&a[1][0];}
typed¦int main(){int b[2]={1,b[0]};return 0;}
typed¦struct s{const int m;}x={1};int main(){*(int*)&x.m=2;}
typed¦struct s{int a[2];int b;}x[2]={1,2,3,{{4},5}};int main(){return x[1].a[0]+x[1].a[1]+x[1].b-9;}
typed¦struct s{int a;int b;};int main(){struct s z={1,2};struct s w[2]={z,3,4};return w[0].b+w[1].a-5;}
type 13 1¦char c[2]="abc";int main(){}
type 11 1¦int x={1,2};int main(){}
typed¦int y={{1}};int main(){return y;}
type 11 1¦int a[2]={1,2,3};int main(){}
name 2 1¦int f(int a){int a;return 0;}int main(){return f(1);}
typed¦int g(void);int main(){int g(void);return g();}int g(void){return 0;}
name 2 1¦typedef int T;typedef int T;typedef long T;int main(){}
type 38 1¦int main(){switch(1){case 1:case 1:;}}
type 38 1¦int main(){switch(1){default:;default:;}}
typed¦static int s;extern int s;int main(){return s;}
type 10 1¦int s;static int s;int main(){return s;}
type 23 1¦int main(){register int r;return &r==0;}
type 2 1¦int main(){for(static int i;;);}
typed¦int main(void)\n{\n  while (1)\n    ;\n}\n
typed¦int down(int n)\n{\n  return down(n + 1);\n}\nint main(void)\n{\n  return down(0);\n}\n
typed¦int main(void)\n{\n  long x = 1;\n  int *p = (int *)&x;\n  *p = 2;\n  return 0;\n}\n
typed¦int main(void)\n{\n  int a[2][3] = { { 1 } };\n  return ((int *)a)[0];\n}\n
typed¦int main(void)\n{\n  signed char c = 127;\n  short s = 32767;\n  c++;\n  s += 1;\n  return c == -128 && s == -32768 ? 0 : 1;\n}\n
typed¦struct s { int a; int b; };\nint main(void)\n{\n  struct s x, y;\n  int b[3] = { 7 };\n  static int z;\n  x.a = 1;\n  y = x;\n  return y.a + b[2] + z == 1 ? 0 : 1;\n}\n
typed¦int g;\nint f(int x)\n{\n  g = g * 2 + x;\n  return g;\n}\nint main(void)\n{\n  int r = f(1) + f(2);\n  return r > 0 && g + f(0) ? 0 : 1;\n}\n
typed¦int main(void)\n{\n  int i = 0;\n  i = i++ || 1;\n  return i == 1 ? 0 : 1;\n}\n
typed¦int main(void)\n{\n  char a[] = "abc", b[4] = "xyz";\n  a[0] = 'x';\n  b[3]++;\n  return a[0] == 'x' ? 0 : 1;\n}\n
typed¦int main(void)\n{\n  int z = 0;\n  if (z)\n    return 1 / z;\n  return sizeof(1 / 0) == 4 && (z == 0 || 5 / z) ? 0 : 1;\n}\n
typed¦int main(void)\n{\n  unsigned char c = 1;\n  return (1u << 31) != 0 && (1L << 62) != 0 && c << 20 == 1048576 && -1 >> 31 == -1 ? 0 : 1;\n}\n
typed¦int main(void)\n{\n  int z = 0;\n  return z << 31 == 0 && 1 << 30 > 0 && 2u << 31 == 0 ? 0 : 1;\n}\n
typed¦int main(void)\n{\n  const char *p = "abc";\n  int *n = 0;\n  return p[3] == 0 && &*n == n && sizeof(*n) == 4 ? 0 : 1;\n}\n
typed¦int main(void)\n{\n  int x = 2147483647, n = 0;\n  while (n < 3 && x + n > 0)\n    n++;\n  return n;\n}\n
typed¦enum e { A = 2147483647 };\nint main(void)\n{\n  return A + 1 == 0;\n}\n
typed¦int main(void)\n{\n  long long a = -9223372036854775807LL;\n  a = a - 2LL;\n  return 0;\n}\n
typed¦int *f(void)\n{\n  int x = 1;\n  return &x;\n}\nint main(void)\n{\n  return f() == 0;\n}\n
typed¦int *f(void)\n{\n  int x = 1;\n  return &x;\n}\nint main(void)\n{\n  if (f())\n    return 1;\n  return 0;\n}\n
typed¦int main(void)\n{\n  int *p = 0;\n  for (int i = 0; i < 3; i++)\n    p = &i;\n  *p = 5;\n  return 0;\n}\n
typed¦int *g;\nvoid set(void)\n{\n  int a[2] = { 1, 2 };\n  g = a + 1;\n}\nint main(void)\n{\n  set();\n  return g[0];\n}\n
typed¦int main(void)\n{\n  int *p = 0, *q;\n  if (p == 0)\n  {\n    int x = 3;\n    p = &x;\n  }\n  q = p;\n  return 0;\n}\n
typed¦int main(void)\n{\n  int i, s = 0;\n  int *p = 0;\n  for (i = 0; i < 2; i++)\n  {\n    int x = i;\n    if (p)\n      s += *p;\n    p = &x;\n  }\n  return s;\n}\n
typed¦int *f(int x)\n{\n  return &x;\n}\nint main(void)\n{\n  int *p = f(4);\n  return *p;\n}\n
typed¦int *f(void)\n{\n  int x = 1;\n  return &x;\n}\nint main(void)\n{\n  return *f();\n}\n
typed¦int main(void)\n{\n  int i, s = 0;\n  for (i = 0; i < 2; i++)\n  {\n    int x;\n    if (i == 0)\n      x = 4;\n    s += x;\n  }\n  return s;\n}\n
typed¦int f(int c)\n{\n  int r;\n  if (c)\n    r = 1;\n  return r;\n}\nint main(void)\n{\n  return f(1) + f(0);\n}\n
typed¦int main(void)\n{\n  int x;\n  return x;\n}\n
typed¦struct s { int a; int b; };\nint main(void)\n{\n  struct s x, y;\n  x.a = 1;\n  y = x;\n  return y.b;\n}\n
typed¦void get(int *p, int c)\n{\n  if (c)\n    *p = 1;\n}\nint main(void)\n{\n  int x;\n  get(&x, 0);\n  if (x)\n    return 1;\n  return 0;\n}\n
typed¦int main(void)\n{\n  switch (1)\n  {\n    int x = 5;\n  case 1:\n    return x;\n  }\n  return 0;\n}\n
typed¦int f(int a, int b)\n{\n  return a - b;\n}\nint main(void)\n{\n  int i = 1;\n  return f(i++, i);\n}\n
typed¦int main(void)\n{\n  int i = 1;\n  (i++, 5) + i;\n  return 0;\n}\n
typed¦int main(void)\n{\n  int i = 1;\n  i = i++ || 1;\n  return 0;\n}\n
typed¦int main(void)\n{\n  int a[3] = { 0 }, i = 0;\n  a[i++] = i;\n  return 0;\n}\n
typed¦int main(void)\n{\n  int a = 1, b = 2;\n  a ^= b ^= a ^= b;\n  return 0;\n}\n
typed¦int main(void)\n{\n  int i = 1;\n  return i++ + i++;\n}\n
typed¦int main(void)\n{\n  "abc"[1] = 'x';\n  return 0;\n}\n
typed¦int main(void)\n{\n  char *p = "abc";\n  p[0] = 'x';\n  return 0;\n}\n
typed¦char *t[2] = { "one", "two" };\nint main(void)\n{\n  t[1][0] = 'T';\n  return 0;\n}\n
typed¦int main(void)\n{\n  char *p = "abc";\n  p[3] = 0;\n  return 0;\n}\n
typed¦int main(void)\n{\n  const int a[2] = { 1, 2 };\n  int *p = (int *)a;\n  p[1]++;\n  return 0;\n}\n
typed¦int main(void)\n{\n  const int x = 1;\n  *(int *)&x = 2;\n  return 0;\n}\n
typed¦struct s { const int m; int n; };\nint main(void)\n{\n  struct s x = { 1, 2 };\n  *(int *)&x.m = 2;\n  return 0;\n}\n
typed¦int f(const int n)\n{\n  int *p = (int *)&n;\n  *p += 1;\n  return n;\n}\nint main(void)\n{\n  return f(1);\n}\n
typed¦int main(void)\n{\n  static const char c = 'a';\n  char *p = (char *)&c;\n  *p = 'b';\n  return 0;\n}\n
typed¦struct s { int m; };\nint main(void)\n{\n  const struct s x = { 1 };\n  struct s y = { 2 };\n  *(struct s *)&x = y;\n  return 0;\n}\n
typed¦int f(int x)\n{\n  switch (x)\n  {\n  case 0:\n    return 1;\n  }\n}\nint main(void)\n{\n  return f(f(0)) + f(2);\n}\n
typed¦int f(int x)\n{\n  while (x)\n    return x;\n}\nint main(void)\n{\n  int y = f(1);\n  y = f(0);\n  return 0;\n}\n
typed¦int f(void)\n{\n}\nint main(void)\n{\n  if (f())\n    return 1;\n  return 0;\n}\n
typed¦unsigned f(unsigned x)\n{\n  if (x & 1)\n    return x;\n}\nint main(void)\n{\n  unsigned s = f(1);\n  s += f(2) * 0;\n  return 0;\n}\n
typed¦int printf(const char *, ...);\nstatic long f(void)\n{\n  long x = 1;\n  x++;\n}\nint main(void)\n{\n  printf("%ld\\n", f());\n  return 0;\n}\n
typed¦int printf(const char *, ...);\nint main(void)\n{\n  int x = -16;\n  printf("%x\\n", x);\n  return 0;\n}\n
typed¦int printf(const char *, ...);\nint main(void)\n{\n  printf("%ld\\n", 1);\n  return 0;\n}\n
typed¦int printf(const char *, ...);\nint main(void)\n{\n  int a[2] = { 65, 0 };\n  printf("%s\\n", a);\n  return 0;\n}\n
typed¦int printf(const char *, ...);\nint main(void)\n{\n  long x = 1;\n  printf("%lld\\n", x);\n  return 0;\n}\n
typed¦int printf(const char *, ...);\nint main(void)\n{\n  printf("%u\\n", -1);\n  return 0;\n}\n
typed¦int printf(const char *, ...);\nint main(void)\n{\n  int x = 1;\n  printf("%d\\n", &x);\n  return 0;\n}\n
typed¦int printf(const char *, ...);\nint main(void)\n{\n  printf("%s\\n", 65);\n  return 0;\n}\n
typed¦int id(int x)\n{\n  return x;\n}\nint main(void)\n{\n  int z = id(0);\n  return id(5 % z);\n}\n
typed¦int main(void)\n{\n  long a = 7;\n  char z = 0;\n  a /= z;\n  return 0;\n}\n
typed¦int main(void)\n{\n  1 / 0;\n  return 0;\n}\n
typed¦int main(void)\n{\n  int i, s = 0;\n  for (i = 3; i >= 0; i--)\n    s += 12 / i;\n  return s;\n}\n
typed¦int main(void)\n{\n  unsigned a = 7u, b = 1u;\n  b = b << 31 << 1;\n  a = a / b;\n  return 0;\n}\n
typed¦int main(void)\n{\n  int z = 0;\n  return z / z;\n}\n
typed¦int main(void)\n{\n  int m = -2147483647 - 1, d = -1;\n  return m / d == m;\n}\n
typed¦int main(void)\n{\n  (-2147483647 - 1) / -1;\n  return 0;\n}\n
typed¦int main(void)\n{\n  int m = -2147483647 - 1, d = -1;\n  return m % d;\n}\n
typed¦int main(void)\n{\n  int m = -2147483647 - 1;\n  short d = -1;\n  m %= d;\n  return 0;\n}\n
typed¦int main(void)\n{\n  char n = -1;\n  unsigned x = 4u;\n  x >>= n;\n  return 0;\n}\n
typed¦int main(void)\n{\n  int x = 1;\n  x <<= 40;\n  return 0;\n}\n
typed¦int main(void)\n{\n  unsigned long x = 1;\n  return (x << 64) == 0;\n}\n
typed¦int main(void)\n{\n  int n = 32;\n  return 0 << n;\n}\n
typed¦int main(void)\n{\n  signed char c = -128;\n  c <<= 1;\n  return 0;\n}\n
typed¦int main(void)\n{\n  int x = -1;\n  return x << 1;\n}\n
typed¦int main(void)\n{\n  char a[2] = { 0 };\n  char *p = &a[3];\n  return p == a;\n}\n
typed¦int main(void)\n{\n  int a[4] = { 1, 2, 3, 4 };\n  int *p = a;\n  p--;\n  return *a;\n}\n
typed¦int main(void)\n{\n  int a[2][3] = { { 0 } };\n  int *p = a[0];\n  p = p + 4;\n  return 0;\n}\n
typed¦int main(void)\n{\n  char *p = "abc", *q = "xyz";\n  return p - q == 4;\n}\n
typed¦struct s { int a[2]; int b[2]; };\nint main(void)\n{\n  struct s x = { { 1, 2 }, { 3, 4 } };\n  int *p = x.a, *q = x.b;\n  return q - p == 2;\n}\n
typed¦struct s { int a; int b; };\nint main(void)\n{\n  struct s x = { 1, 2 };\n  return &x.b - &x.a == 1;\n}\n
typed¦int main(void)\n{\n  int x = 1;\n  int *p = 0;\n  return &x - p == 0;\n}\n
typed¦int main(void)\n{\n  int x = 1, y = 2;\n  return &x - &y == 1;\n}\n
typed¦long dist(int *p, int *q)\n{\n  return p - q;\n}\nint main(void)\n{\n  int a[3] = { 0 }, b[3] = { 0 };\n  return dist(a + 3, a) + dist(a, b) > 3;\n}\n
typed¦int main(void)\n{\n  int a[2][3] = { { 0 } };\n  return &a[1][0] - &a[0][0] == 3;\n}\n
typed¦int a[2], b[2];\nint main(void)\n{\n  return a + 1 >= b;\n}\n
typed¦int main(void)\n{\n  int x = 1;\n  int *p = 0;\n  return &x > p;\n}\n
typed¦int main(void)\n{\n  int x = 1, y = 2;\n  return &x < &y;\n}\n
typed¦int before(int *p, int *q)\n{\n  return p < q;\n}\nint main(void)\n{\n  int a[3] = { 0 }, b[3] = { 0 };\n  return before(a, a + 2) + before(b, a);\n}\n
typed¦int main(void)\n{\n  const char *p = "abc";\n  return p[4];\n}\n
typed¦int main(void)\n{\n  int *p = 0;\n  *p = 1;\n  return 0;\n}\n
typed¦int main(void)\n{\n  int x = 1;\n  return *(&x + 1);\n}\n
typed¦int printf(const char *, ...);\nint main(void)\n{\n  char a[2] = { 'a', 'b' };\n  printf("%s\\n", a);\n  return 0;\n}\n
typed¦int printf(const char *, ...);\nint main(void)\n{\n  char *p = 0;\n  printf("%s\\n", p);\n  return 0;\n}\n
typed¦int putchar ( int ) ; void exit ( int ) ; int main ( ) { ( 65 ) ; exit ( 3 ) ; }
typed¦char s [ ] = "ab" , * t = "cd" ; int main ( ) { s [ 0 ] = t [ 1 ] ; return s [ 2 ] ; }
typed¦enum e { A , B = 5 , } ; int main ( ) { enum e v = B ; switch ( v ) { case A : return 1 ; case B : break ; default : return 2 ; } return v - 5 ; }
typed¦int printf ( const char * , ... ) ; int main ( void ) { ( "%d %u %c %s%%" , 1 , 2u , 65 , "x" ) ; return 0 ; }
typed¦long long b = 1ll << 40 ; int main ( ) { const int c = 2 ; return ( b >> 39 ) - c | c ^ c & c ; }
typed¦int printf ( const char * , ... ) ; int main ( ) { printf ( "%d %u %c %s%%" , 1 , 2u , 65 , "x" ) ; return 0 ; }
typed¦int main ( ) { int i = 3 ; L : if ( i ) ; { i -- ; goto L ; } return i ; }
typed¦int main ( ) { int i = 3 ; L : if ( i ) { i ; goto L ; } return i ; }
name 1 1¦enum e { A , B = 5 , C } ; int main ( ) { enum e v = B ; switch ( e ) { case A : return 1 ; case B : break ; default : return 2 ; } return v - 5 ; }
name 1 1¦enum e { A , B = v , C } ; int main ( ) { enum e v = B ; switch ( v ) { case A : return 1 ; case B : break ; default : return 2 ; } return v - 5 ; }
name 1 1¦enum e { A , B = 5 , C } ; int main ( ) { enum e v = B ; switch ( v ) { case A : return 1 ; case B : break ; default : return 2 ; } return e - 5 ; }
name 1 1¦struct p { int a ; struct p * n ; } ; static struct p q ; int g ( struct p * r ) { return ; r ? r -> a : main ; } int main ( ) { q . n = & q ; return g ( q . n ) ; }
name 1 1¦int m ( int , int ) ; int m ( int a , int b ) { return a < b ? a : b ; } int main ( ) { short k = - 1 ; unsigned y = a ; return m ( 3 , ( int ) ( y >> 31 ) ) - 1 ; }
name 1 1¦int main ( ) { int i = 3 ; L : if ( i ) { i -- ; L ; } return i ; }
name 2 1¦int f ( int x ) { return x ; } int main ( void i ) { int i = 0 ; i = f ( i ) ; return i ; }
name 2 1¦struct p { int n ; struct p * n ; } ; static struct p q ; int g ( struct p * r ) { return r ? r -> a : 0 ; } int main ( ) { q . n = & q ; return g ( q . n ) ; }
name 2 1¦enum e { A , B = 5 , C } ; int C ( ) { enum e v = B ; switch ( v ) { case A : return 1 ; case B : break ; default : return 2 ; } return v - 5 ; }
name 2 1¦int main ( ) { int a [ 2 ] [ 3 ] = { { 1 , 2 } , { 3 } } ; int * p = & a [ 0 ] [ 2 ] ; for ( int i = 0 ; i < 2 ; i ++ ) { a [ i ] [ 0 ] += i ; } int * p ; }
name 2 1¦int m ( int , int ) ; int m ( int a , int a ) { return a < b ? a : b ; } int main ( ) { short k = - 1 ; unsigned y = k ; return m ( 3 , ( int ) ( y >> 31 ) ) - 1 ; }
name 2 1¦int main ( ) { int i = 3 ; L : if ( i ) { i -- ; goto L ; } typedef i ; }
type 1 1¦int f ( int x ) { return x ; } int void main ( void ) { int i = 0 ; i = f ( i ) ; return i ; }
type 1 1¦typedef int T ; T a [ 2 ] = { 1 , 2 } ; struct s { T m ; const c ; } x = { 1 , 2 } ; int main ( ) { T * p = a ; x . m = * p + a [ 1 ] ; return x . m - 3 ; }
type 1 1¦long long b = 1ll << 40 ; int int main ( ) { const int c = 2 ; return ( b >> 39 ) - c | c ^ c & ~ c ; }
type 1 1¦long long b = 1ll << 40 ; int main ( ) { const c = 2 ; return ( b >> 39 ) - c | c ^ c & ~ c ; }
type 1 1¦int f ( int x ) { return x ; } int int main ( void ) { int i = 0 ; i = f ( i ) ; return i ; }
type 1 1¦void w ( int n ) { while ( n ) { n -- ; if ( n == 2 ) continue ; else break ; } do n ++ ; while ( n < 3 ) ; } int int main ( ) { w ( 4 ) ; return 0 ; }
type 10 1¦int putchar ( int ) ; void exit ( int ) ; int main { putchar ( 65 ) ; exit ( 3 ) ; }
type 10 1¦int printf ( const char * , ... ) ; int main ( typedef ) { printf ( "%d %u %c %s%%" , 1 , 2u , 65 , "x" ) ; return 0 ; }
type 10 1¦long long b = 1ll << 40 ; int main ( int ) { const int c = 2 ; return ( b >> 39 ) - c | c ^ c & ~ c ; }
type 10 1¦struct p { int a ; struct p * n ; } ; static struct p q ; int g ( struct p * r ) { return r ? r -> a : 0 ; } int main ( int ) { q . n = & q ; return g ( q . n ) ; }
type 10 1¦static int u ; int u = 3 ; static int h ( int a , char b ) { return a + b ; } int main ( ) { unsigned long z = sizeof ( int ) ; return h ( u , 1 ) + z - 8 ; }
type 10 1¦int main ( const ) { int i = 3 ; L : if ( i ) { i -- ; goto L ; } return i ; }
type 11 1¦int main ( ) { int a [ 2 ] [ 1 ] = { { 1 , 2 } , { 3 } } ; int * p = & a [ 0 ] [ 2 ] ; for ( int i = 0 ; i < 2 ; i ++ ) { a [ i ] [ 0 ] += i ; } return * p ; }
type 11 1¦extern int u ; int u = 3 ; static int h ( int a , char b ) { return a + b ; } int main ( ) { unsigned extern z = sizeof ( int ) ; return h ( u , 1 ) + z - 8 ; }
type 12 1¦volatile int v = v ; int main ( ) { v = v + 1 ; v ++ ; return v && v ; }
type 12 1¦long long b = 'c' << 40 ; int main ( ) { const int c = 2 ; return ( b >> 39 ) - c | c ^ c & ~ c ; }
type 12 1¦long long b = b << 40 ; int main ( ) { const int c = 2 ; return ( b >> 39 ) - c | c ^ c & ~ c ; }
type 12 1¦long long b = ~ 1ll << 40 ; int main ( ) { const int c = 2 ; return ( b >> 39 ) - c | c ^ c & ~ c ; }
type 12 1¦extern int u ; int u = u ; static int h ( int a , char b ) { return a + b ; } int main ( ) { unsigned long z = sizeof ( int ) ; return h ( u , 1 ) + z - 8 ; }
type 12 1¦long long b = 2 << 40 ; int main ( ) { const int c = 2 ; return ( b >> 39 ) - c | c ^ c & ~ c ; }
type 13 1¦char s [ ] = "ab" , t = "cd" ; int main ( ) { s [ 0 ] = t [ 1 ] ; return s [ 2 ] ; }
type 13 1¦typedef int T ; T a [ 2 ] = { 1 , "s" } ; struct s { T m ; const int c ; } x = { 1 , 2 } ; int main ( ) { T * p = a ; x . m = * p + a [ 1 ] ; return x . m - 3 ; }
type 13 1¦char s [ ] = "ab" , t = "cd" ; const int main ( ) { s [ 0 ] = t [ 1 ] ; return s [ 2 ] ; }
type 13 1¦char * s [ ] = "ab" , * t = "cd" ; int main ( ) { s [ 0 ] = t [ 1 ] ; return s [ 2 ] ; }
type 13 1¦char s [ ] = "ab" , t = "cd" ; int main ( ) { s [ 0 ] = t [ 1 ] ; return 0 [ 2 ] ; }
type 13 1¦volatile int v = "s" ; int main ( ) { v = v + 1 ; v ++ ; return v && v ; }
type 16 1¦int putchar ( int ) ; void exit ( int ) ; int main ( ) { putchar ( 65 ) ; exit ( main ) ; }
type 16 1¦enum e { A , B = 5 , C } ; int main ( ) { enum e v = B ; switch ( main ) { case A : return 1 ; case B : break ; default : return 2 ; } return v - 5 ; }
type 16 1¦int main ( ) { int a [ 2 ] [ 3 ] = { { 1 , 2 } , { 3 } } ; int * p = & a [ 0 ] [ main ] ; for ( int i = 0 ; i < 2 ; i ++ ) { a [ i ] [ 0 ] += i ; } return * p ; }
type 16 1¦typedef int T ; T a [ 2 ] = { 1 , 2 } ; struct s { T m ; const int c ; } x = { 1 , 2 } ; int main ( ) { T * p = a ; x . m = main * p + a [ 1 ] ; return x . m - 3 ; }
type 16 1¦int f ( int x ) { return x ; } int main ( void ) { int i = 0 ; i = f ( i ) ; return f ; }
type 16 1¦int main ( ) { int i = 3 ; L : if ( i ) { main -- ; goto L ; } return i ; }
type 17 1¦long long b = 1ll << 40 ; int main ( ) { const int c = 2 ; return main ( b >> 39 ) - c | c ^ c & ~ c ; }
type 17 1¦extern int u ; int u = 3 ; static int h ( int a , char b ) { return a + b ; } int main ( ) { unsigned long z = sizeof ( int ) ; return main ( u , 1 ) + z - 8 ; }
type 17 1¦int f ( int x ) { return x ; } int main ( void ) { int i = 0 ; i = f ( ) ; return i ; }
type 17 1¦void w ( int n ) { while ( n ) { n -- ; if ( n == 2 ) continue ; else break ; } do n ++ ; while ( n < 3 ) ; } int main ( ) { w ( ) ; return 0 ; }
type 17 1¦long long b = 1ll << 40 ; int main ( ) { const int c = 2 ; c ( b >> 39 ) - c | c ^ c & ~ c ; }
type 17 1¦int putchar ( int ) ; void exit ( int ) ; int main ( ) { putchar ( 65 ) ; exit ( ) ; }
type 18 1¦int printf ( const char * , ... ) ; int main ( void ) { printf ( 2u , 1 , 2u , 65 , "x" ) ; return 0 ; }
type 18 1¦int f ( int x ) { return x ; } int main ( void ) { int i = 0 ; i = f ( "s" ) ; return i ; }
type 18 1¦struct p { int a ; struct p * n ; } ; static struct p q ; int g ( struct p * r ) { return r ? r -> a : 0 ; } int main ( ) { q . n = & q ; return g ( * q . n ) ; }
type 18 1¦int printf ( const char * , ... ) ; int main ( void ) { printf ( 65 , 1 , 2u , 65 , "x" ) ; return 0 ; }
type 18 1¦int printf ( const char * , ... ) ; int main ( void ) { printf ( sizeof "%d %u %c %s%%" , 1 , 2u , 65 , "x" ) ; return 0 ; }
type 19 1¦typedef int T ; T a [ 2 ] = { 1 , 2 } ; struct s { T m ; const int c ; } x = { 1 , 2 } ; int main ( ) { T * p = a ; x . m = * p + a [ x ] ; return x . m - 3 ; }
type 19 1¦typedef int T ; T a [ 2 ] = { 1 , 2 } ; struct s { T m ; const int c ; } x = { 1 , 2 } ; int main ( ) { T * p = a ; x . m = * p + a [ p ] ; return x . m - 3 ; }
type 19 1¦char s [ ] = "ab" , * t = "cd" ; int main ( ) { s [ "s" ] = t [ 1 ] ; return s [ 2 ] ; }
type 19 1¦int main ( ) { int a [ 2 ] [ 3 ] = { { 1 , 2 } , { 3 } } ; int * p = & p [ 0 ] [ 2 ] ; for ( int i = 0 ; i < 2 ; i ++ ) { a [ i ] [ 0 ] += i ; } return * p ; }
type 19 1¦int main ( ) { int a [ 2 ] [ 3 ] = { { 1 , 2 } , { 3 } } ; int * p = & 2 [ 0 ] [ 2 ] ; for ( int i = 0 ; i < 2 ; i ++ ) { a [ i ] [ 0 ] += i ; } return * p ; }
type 19 1¦int main ( ) { int a [ 2 ] [ 3 ] = { { 1 , 2 } , { 3 } } ; int * p = & a [ 0 ] [ 2 ] ; for ( int i = 0 ; i < 2 ; i ++ ) { 2 [ i ] [ 0 ] += i ; } return * p ; }
type 2 1¦int f ( int static x ) { return x ; } int main ( void ) { int i = 0 ; i = f ( i ) ; return i ; }
type 2 1¦typedef typedef int T ; T a [ 2 ] = { 1 , 2 } ; struct s { T m ; const int c ; } x = { 1 , 2 } ; int main ( ) { T * p = a ; x . m = * p + a [ 1 ] ; return x . m - 3 ; }
type 2 1¦static extern int u ; int u = 3 ; static int h ( int a , char b ) { return a + b ; } int main ( ) { unsigned long z = sizeof ( int ) ; return h ( u , 1 ) + z - 8 ; }
type 2 1¦extern int u ; int u = 3 ; static int extern h ( int a , char b ) { return a + b ; } int main ( ) { unsigned long z = sizeof ( int ) ; return h ( u , 1 ) + z - 8 ; }
type 2 1¦int m ( int , int ) ; int m ( static int a , int b ) { return a < b ? a : b ; } int main ( ) { short k = - 1 ; unsigned y = k ; return m ( 3 , ( int ) ( y >> 31 ) ) - 1 ; }
type 2 1¦int putchar ( int static ) ; void exit ( int ) ; int main ( ) { putchar ( 65 ) ; exit ( 3 ) ; }
type 20 1¦typedef int T ; T a [ 2 ] = { 1 , 2 } ; struct s { T m ; const int c ; } x = { 1 , 2 } ; int main ( ) { T * p = a ; x . m = * p + a [ 1 ] ; return x . p - 3 ; }
type 20 1¦typedef int T ; T a [ 2 ] = { 1 , 2 } ; struct s { T m ; const int c ; } x = { 1 , 2 } ; int main ( ) { T * p = a ; x . m = * p + a [ 1 ] ; return 1 . m - 3 ; }
type 20 1¦struct p { int a ; struct p * n ; } ; static struct p q ; int g ( struct p * r ) { return r ? r -> a : 0 ; } int main ( ) { q . r = & q ; return g ( q . n ) ; }
type 20 1¦long long b = 1ll << 40 ; int main ( ) { const int c = 2 ; return ( b >> 39 ) . c | c ^ c & ~ c ; }
type 20 1¦typedef int T ; T a [ 2 ] = { 1 , 2 } ; struct s { T main ; const int c ; } x = { 1 , 2 } ; int main ( ) { T * p = a ; x . m = * p + a [ 1 ] ; return x . m - 3 ; }
type 20 1¦typedef int T ; T a [ 2 ] = { 1 , 2 } ; struct s { T x ; const int c ; } x = { 1 , 2 } ; int main ( ) { T * p = a ; x . m = * p + a [ 1 ] ; return x . m - 3 ; }
type 21 1¦struct p { int a ; struct p * n ; } ; static struct p q ; int g ( struct p r ) { return r ? r -> a : 0 ; } int main ( ) { q . n = & q ; return g ( q . n ) ; }
type 21 1¦struct p { int a ; struct p * n ; } ; static struct p q ; int g ( struct p * r ) { return r ? r -> a : 0 ; } int main ( ) { q -> n = & q ; return g ( q . n ) ; }
type 21 1¦int f ( int x ) { return x ; } int main ( void ) { int i = 0 -> i = f ( i ) ; return i ; }
type 21 1¦struct p { int g ; struct p * n ; } ; static struct p q ; int g ( struct p * r ) { return r ? r -> a : 0 ; } int main ( ) { q . n = & q ; return g ( q . n ) ; }
type 21 1¦struct p { int main ; struct p * n ; } ; static struct p q ; int g ( struct p * r ) { return r ? r -> a : 0 ; } int main ( ) { q . n = & q ; return g ( q . n ) ; }
type 21 1¦struct p { int a ; struct p * n ; } ; static struct p q ; int g ( struct q * r ) { return r ? r -> a : 0 ; } int main ( ) { q . n = & q ; return g ( q . n ) ; }
type 22 1¦int printf ( const char * , ... ) ; int main ( void ) { printf ( ++ "%d %u %c %s%%" , 1 , 2u , 65 , "x" ) ; return 0 ; }
type 22 1¦int main ( ) { int a [ 2 ] [ 3 ] = { { 1 , 2 } , { ++ 3 } } ; int * p = & a [ 0 ] [ 2 ] ; for ( int i = 0 ; i < 2 ; i ++ ) { a [ i ] [ 0 ] += i ; } return * p ; }
type 22 1¦volatile int v = ++ 1 ; int main ( ) { v = v + 1 ; v ++ ; return v && v ; }
type 22 1¦volatile int v = 1 ; int main ( ) { v = v + ++ 1 ; v ++ ; return v && v ; }
type 22 1¦int main ( ) { int a [ 2 ] [ 3 ] = { { 1 , 2 } , { 3 } } ; int * p = & a [ 0 ] [ 2 ] ; for ( int i = 0 ++ ; i < 2 ; i ++ ) { a [ i ] [ 0 ] += i ; } return * p ; }
type 22 1¦volatile int v = 1 ; int main ( ) { v = v + 1 ; v ++ ++ ; return v && v ; }
type 23 1¦long long b = 1ll << 40 ; int main ( ) { const int c = 2 ; return ( b >> 39 ) - c | c ^ c * & ~ c ; }
type 23 1¦int m ( int , int ) ; int m ( int a , int b ) { return a < b ? a : b ; } int main ( ) { short k = - 1 ; unsigned y = k ; return m ( 3 , & ( int ) ( y >> 31 ) ) - 1 ; }
type 23 1¦typedef int T ; T a [ 2 ] = { 1 , 2 } ; struct s { T m ; const int c ; } x = { 1 , 2 } ; int main ( ) { T * p = a ; x . m = * & + a [ 1 ] ; return x . m - 3 ; }
type 23 1¦extern int u ; int u = & 3 ; static int h ( int a , char b ) { return a + b ; } int main ( ) { unsigned long z = sizeof ( int ) ; return h ( u , 1 ) + z - 8 ; }
type 23 1¦long long b = 1ll << 40 ; int main ( ) { const int c = 2 ; return ( b >> 39 ) - c | c ^ & ~ c ; }
type 23 1¦long long b = 1ll << 40 ; int main ( ) { const int c = 2 ; return ( b >> 39 ) - c | c ^ c ; & ~ c ; }
type 24 1¦char s [ ] = "ab" , * t = "cd" ; int main ( ) { s [ 0 ] = * t [ 1 ] ; return s [ 2 ] ; }
type 24 1¦typedef int T ; T a [ 2 ] = { 1 , 2 } ; struct s { T m ; const int c ; } x = { 1 , 2 } ; int main ( ) { T * p = a ; x . m = * + a [ 1 ] ; return x . m - 3 ; }
type 24 1¦int main ( ) { int a [ 2 ] [ 3 ] = { { 1 , 2 } , { 3 } } ; int * p = * a [ 0 ] [ 2 ] ; for ( int i = 0 ; i < 2 ; i ++ ) { a [ i ] [ 0 ] += i ; } return * p ; }
type 24 1¦long long b = 1ll << 40 ; int main ( ) { const int c = 2 ; return ( b >> 39 ) - c | c ^ c & ~ * c ; }
type 24 1¦typedef int T ; T a [ 2 ] = { 1 , 2 } ; struct s { T m ; const int c ; } x = { 1 , 2 } ; int main ( ) { T * p = a ; x . m = * p + a [ 1 ] ; return x . m - * 3 ; }
type 24 1¦long long b = 1ll << 40 ; int main ( ) { const int c = 2 ; return ( b >> * 39 ) - c | c ^ c & ~ c ; }
type 25 1¦int printf ( const char * , ... ) ; int main ( void ) { printf ( "%d %u %c %s%%" , 1 , 2u , 65 , + "x" ) ; return 0 ; }
type 25 1¦long long b = 1ll << 40 ; int main ( ) { const int c = 2 ; return ( b >> 39 ) - c | c ^ c & ~ & c ; }
type 25 1¦int printf ( const char * , ... ) ; int main ( void ) { printf ( + "%d %u %c %s%%" , 1 , 2u , 65 , "x" ) ; return 0 ; }
type 25 1¦typedef int T ; T a [ 2 ] = { 1 , 2 } ; struct s { T m ; const int c ; } x = { 1 , 2 } ; int main ( ) { T * p = a ; x . m = * + p + a [ 1 ] ; return x . m - 3 ; }
type 25 1¦int main ( ) { int a [ 2 ] [ 3 ] = { { 1 , 2 } , { 3 } } ; int * p = & a [ 0 ] [ 2 ] ; for ( int i = 0 ; i < 2 ; p ++ ) { a [ i ] [ 0 ] += i ; } return * + p ; }
type 25 1¦int main ( ) { int a [ 2 ] [ 3 ] = { { 1 , 2 } , { 3 } } ; int * p = & a [ 0 ] [ 2 ] ; for ( int i = 0 ; i < 2 ; i ++ ) { a [ i ] [ 0 ] += i ; } return * + p ; }
type 26 1¦int putchar ( int ) ; void exit ( int ) ; int main ( ) { putchar ( 65 ) ; sizeof exit ( 3 ) ; }
type 28 1¦int main ( ) { int a [ 2 ] [ 3 ] = { { 1 , 2 } , { 3 } } ; int * p = & a [ 0 ] [ 2 ] ; for ( int i = 0 ; i < 2 ; i ++ ) { a [ i ] [ 0 ] += i ; } return "s" * p ; }
type 28 1¦typedef int T ; T a [ 2 ] = { 1 , 2 } ; struct s { T m ; const int c ; } x = { 1 , 2 } ; int main ( ) { T * p = a ; x . m ++ * p + a [ 1 ] ; return x . m - 3 ; }
type 28 1¦typedef int T ; T a [ 2 ] = { 1 , 2 } ; struct s { T m ; int c ; } x = { 1 , 2 } ; int main ( ) { T * p = a ; x . m * p + a [ 1 ] ; return x . m - 3 ; }
type 28 1¦typedef int T ; T a [ 2 ] = { 1 , 2 } ; struct s { T m ; const int c ; } x = { 1 , 2 } ; int main ( ) { T * p = a ; x . m * p + a [ 1 ] ; return x . m - 3 ; }
type 28 1¦typedef int T ; T a [ 2 ] = { 1 , 2 } ; struct s { T m ; const int c ; } x = { 1 , 2 } ; int main ( ) { T * p = a ; x . m = 1 * p + a [ 1 ] ; return x . m - 3 ; }
type 28 1¦struct p { int a ; struct p * n ; } ; static struct p q ; int g ( struct p * r ) { return r ? r -> a : 0 ; } int main ( ) { q . n * & q ; return g ( q . n ) ; }
type 29 1¦int putchar ( int ) ; void exit ( int ) ; int main ( ) { putchar ( 65 ) + exit ( 3 ) ; }
type 3 1¦struct { int a ; struct p * n ; } ; static struct p q ; int g ( struct p * r ) { return r ? r -> a : 0 ; } int main ( ) { q . n = & q ; return g ( q . n ) ; }
type 3 1¦extern int ; int u = 3 ; static int h ( int a , char b ) { return a + b ; } int main ( ) { unsigned long z = sizeof ( int ) ; return h ( u , 1 ) + z - 8 ; }
type 3 1¦extern int static ; int u = 3 ; static h ( int a , char b ) { return a + b ; } int main ( ) { unsigned long z = sizeof ( int ) ; return h ( u , 1 ) + z - 8 ; }
type 3 1¦struct { int a ; struct p * n ; } ; static struct p q ; int g ( struct p * r ) { return r ? r -> a : 0 ; } int main ( ) { "s" . n = & q ; return g ( q . n ) ; }
type 3 1¦extern int static ; int u = 3 ; static int int h ( int a , char b ) { return a + b ; } int main ( ) { unsigned long z = sizeof ( int ) ; return h ( u , 1 ) + z - 8 ; }
type 3 1¦int putchar ( int ) ; void ; int exit ( int ) ; int main ( ) { putchar ( 65 ) ; exit ( 3 ) ; }
type 30 1¦typedef int T ; T a [ 2 ] = { 1 , 2 } ; struct s { T m ; const int c ; } x = { 1 , 2 } ; int main ( ) { T * p = a ; x . m = * p + a [ 1 ] ; return x . m - p ; }
type 30 1¦long long b = 1ll << 40 ; int main ( ) { const int c = 2 ; return ( b >> 39 ) - & c | c ^ c & ~ c ; }
type 30 1¦typedef int T ; T a [ 2 ] = { 1 , 2 } ; struct s { T m ; const int c ; } x = { 1 , 2 } ; int main ( ) { T * p = a ; x . m = * p + a [ 1 ] ; return x . m - a ; }
type 31 1¦int m ( int , int ) ; int m ( int a , int b ) { return a >> "s" < b ? a : b ; } int main ( ) { short k = - 1 ; unsigned y = k ; return m ( 3 , ( int ) ( y >> 31 ) ) - 1 ; }
type 31 1¦int m ( int , int ) ; int m ( int a , int b ) { return a < b ? a : b ; } int main ( ) { short k = - 1 ; unsigned y = k ; return m ( 3 , ( int ) ( "s" >> 31 ) ) - 1 ; }
type 32 1¦int m ( int , int ) ; int m ( int a , int b ) { return "s" < b ? a : b ; } int main ( ) { short k = - 1 ; unsigned y = k ; return m ( 3 , ( int ) ( y >> 31 ) ) - 1 ; }
type 32 1¦int main ( ) { int a [ 2 ] [ 3 ] = { { 1 , 2 } , { 3 } } ; int * p = & a [ 0 ] [ 2 ] ; for ( int i = 0 ; i < "s" ; i ++ ) { a [ i ] [ 0 ] += i ; } return * p ; }
type 32 1¦int main ( ) { int a [ 2 ] [ 3 ] = { { 1 , 2 } , { 3 } } ; int * p = & a [ 0 ] [ 2 ] ; for ( int * i = 0 ; i < 2 ; i ++ ) { a [ i ] [ 0 ] += i ; } return * p ; }
type 32 1¦int m ( int , int ) ; int m ( int a , int b ) { return & a < b ? a : b ; } int main ( ) { short k = - 1 ; unsigned y = k ; return m ( 3 , ( int ) ( y >> 31 ) ) - 1 ; }
type 32 1¦int main ( ) { int a [ 2 ] [ 3 ] = { { 1 , 2 } , { 3 } } ; int * p = & a [ 0 ] [ 2 ] ; for ( int i = 0 ; i < a ; i ++ ) { a [ i ] [ 0 ] += i ; } return * p ; }
type 34 1¦struct p { int a ; struct p * n ; } ; static struct p q ; int g ( struct p * r ) { return r ? r -> a : 0 ; } int main ( ) { q . n & q ; return g ( q . n ) ; }
type 34 1¦struct p { int a ; struct p * n ; } ; static struct p q ; int g ( struct p * r ) { return r ? r -> a : 0 ; } int main ( ) { q . n = q & q ; return g ( q . n ) ; }
type 34 1¦int main ( ) { int a [ 2 ] [ 3 ] = { { 1 , 2 } , { 3 } } ; int * p = "s" & a [ 0 ] [ 2 ] ; for ( int i = 0 ; i < 2 ; i ++ ) { a [ i ] [ 0 ] += i ; } return * p ; }
type 34 1¦int main ( ) { int a [ 2 ] [ 3 ] = { { 1 , 2 } , { 3 } } ; int * p = a & a [ 0 ] [ 2 ] ; for ( int i = 0 ; i < 2 ; i ++ ) { a [ i ] [ 0 ] += i ; } return * p ; }
type 36 1¦struct p { int a ; struct p * n ; } ; static struct p q ; int g ( struct p * r ) { * r ? r -> a : 0 ; } int main ( ) { q . n = & q ; return g ( q . n ) ; }
type 36 1¦struct p { int a ; struct p * n ; } ; static struct p q ; int g ( struct p * r ) { return r ? r -> a : q ; } int main ( ) { q . n = & q ; return g ( q . n ) ; }
type 36 1¦struct p { int a ; struct p * n ; } ; static struct p q ; int g ( struct p * r ) { return q ? r -> a : 0 ; } int main ( ) { q . n = & q ; return g ( q . n ) ; }
type 36 1¦struct p { int a ; struct p * n ; } ; static struct p q ; int g ( struct p * r ) { return r ? r -> a : r ; } int main ( ) { q . n = & q ; return g ( q . n ) ; }
type 37 1¦long long b = 1ll = 40 ; int main ( ) { const int c = 2 ; return ( b >> 39 ) - c | c ^ c & ~ c ; }
type 37 1¦int main ( ) { const int a [ 2 ] [ 3 ] = { { 1 , 2 } , { 3 } } ; int * p = & a [ 0 ] [ 2 ] ; for ( int i = 0 ; i < 2 ; i ++ ) { a [ i ] [ 0 ] += i ; } return * p ; }
type 37 1¦int main ( ) { int a [ 2 ] [ 3 ] = { { 1 , 2 } , { 3 } } ; int * p = a [ 0 ] [ 2 ] ; for ( int i = 0 ; i < 2 ; i ++ ) { a [ i ] [ 0 ] += i ; } return * p ; }
type 37 1¦typedef int T ; T a [ 2 ] = { 1 , a } ; struct s { T m ; const int c ; } x = { 1 , 2 } ; int main ( ) { T * p = a ; x . m = * p + a [ 1 ] ; return x . m - 3 ; }
type 37 1¦struct p { int a ; struct q * n ; } ; static struct p q ; int g ( struct p * r ) { return r ? r -> a : 0 ; } int main ( ) { q . n = & q ; return g ( q . n ) ; }
type 37 1¦typedef int T ; T a [ 2 ] = { 1 , 2 } ; struct s { T m ; const int c ; } x = { 1 , 2 } ; int main ( ) { T p = a ; x . m = * p + a [ 1 ] ; return x . m - 3 ; }
type 38 1¦enum e { A , B = 5 , C } ; int main ( ) { enum e v = B ; switch ( v ) { case v : return 1 ; case B : break ; default : return 2 ; } return v - 5 ; }
type 38 1¦enum e { A , B = 5 , C } ; int main ( ) { enum e v = B ; switch ( & v ) { case A : return 1 ; case B : break ; default : return 2 ; } return v - 5 ; }
type 38 1¦enum e { A , B = 5 , C } ; int main ( ) { enum e v = B ; switch ( v ) { case B : return 1 ; case B : break ; default : return 2 ; } return v - 5 ; }
type 38 1¦void w ( int n ) { if ( n ) { n -- ; if ( n == 2 ) continue ; else break ; } do n ++ ; while ( n < 3 ) ; } int main ( ) { w ( 4 ) ; return 0 ; }
type 38 1¦enum e { A , B = 5 , C } ; int main ( ) { enum e v = B ; switch ( v ) { case A : return 1 ; case v : break ; default : return 2 ; } v - 5 ; }
type 39 1¦int main ( ) { int a [ 2 ] [ 3 ] = { { 1 , 2 } , { 3 } } ; int * p = & a [ 0 ] [ 2 ] ; for ( int i = 0 ; i < 2 ; i ++ ) { a [ i ] [ 0 ] += i ; } return p ; }
type 39 1¦volatile int v = 1 ; int main ( ) { v = v + 1 ; v ++ ; return ; v && v ; }
type 39 1¦int main ( ) { int a [ 2 ] [ 3 ] = { { 1 , 2 } , { 3 } } ; int * p = & a [ 0 ] [ 2 ] ; for ( int i = 0 ; i < 2 ; i ++ ) { a [ i ] [ 0 ] += i ; } return ; p ; }
type 39 1¦int f ( int x ) { return ; } int main ( void ) { int i = 0 ; i = f ( i ) ; return i ; }
type 39 1¦enum e { A , B = 5 , C } ; int main ( ) { enum e v = B ; switch ( v ) { case A : return 1 ; case B : break ; default : return ; } return v - 5 ; }
type 39 1¦int printf ( const char * , ... ) ; int main ( void ) { printf ( "%d %u %c %s%%" , 1 , 2u , 65 , "x" ) ; return ; }
type 40 1¦volatile int v = 1 ; volatile int main ( ) { v = v + 1 ; v ++ ; return v && v ; }
type 40 1¦long long b = 1ll << 40 ; long int main ( ) { const int c = 2 ; return ( b >> 39 ) - c | c ^ c & ~ c ; }
type 40 1¦int volatile main ( ) { int a [ 2 ] [ 3 ] = { { 1 , 2 } , { 3 } } ; int * p = & a [ 0 ] [ 2 ] ; for ( int i = 0 ; i < 2 ; i ++ ) { a [ i ] [ 0 ] += i ; } return * p ; }
type 40 1¦enum e { A , B = 5 , C } ; int volatile main ( ) { enum e v = B ; switch ( v ) { case A : return 1 ; case B : break ; default : return 2 ; } return v - 5 ; }
type 40 1¦int putchar ( int ) ; void exit ( int ) ; int * main ( ) { putchar ( 65 ) ; exit ( 3 ) ; }
type 40 1¦int putchar ( int ) ; void exit ( int ) ; volatile int main ( ) { putchar ( 65 ) ; exit ( 3 ) ; }
type 41 1¦int putchar ( int ) ; volatile void exit ( int ) ; int main ( ) { putchar ( 65 ) ; exit ( 3 ) ; }
type 41 1¦int putchar ( int ) ; void volatile exit ( int ) ; int main ( ) { putchar ( 65 ) ; exit ( 3 ) ; }
type 41 1¦typedef int T ; T a [ 2 ] = { 1 , 2 } ; struct s { T m ; volatile const int c ; } x = { 1 , 2 } ; int main ( ) { T * p = a ; x . m = * p + a [ 1 ] ; return x . m - 3 ; }
type 41 1¦volatile struct p { int a ; struct p * n ; } ; static struct p q ; int g ( struct p * r ) { return r ? r -> a : 0 ; } int main ( ) { q . n = & q ; return g ( q . n ) ; }
type 41 1¦struct p { int a ; struct p * n ; } ; static volatile struct p q ; int g ( struct p * r ) { return r ? r -> a : 0 ; } int main ( ) { q . n = & q ; return g ( q . n ) ; }
type 41 1¦struct p { int a ; struct p * n ; } volatile ; static struct p q ; int g ( struct p * r ) { return r ? r -> a : 0 ; } int main ( ) { q . n = & q ; return g ( q . n ) ; }
type 42 1¦int main ( ) { int i = 3 ; L : if ( i ) { i -- ; goto main ; } return i ; }
type 42 1¦int main ( ) { int i = 3 ; L : if ( i ) { i -- ; goto i ; } return i ; }
type 42 1¦int f ( int x ) { goto x ; } int main ( void ) { int i = 0 ; i = f ( i ) ; return i ; }
type 42 1¦int main ( ) { int i = 3 ; i : if ( i ) { i -- ; goto L ; } return i ; }
type 42 1¦int main ( ) { int i = 3 ; T : if ( i ) { i -- ; goto L ; } return i ; }
type 42 1¦int main ( ) { int i = 3 ; main : if ( i ) { i -- ; goto L ; } return i ; }
type 5 1¦enum { A , B = 5 , C } ; int main ( ) { enum e v = B ; switch ( v ) { case A : return 1 ; case B : break ; default : return 2 ; } return v - 5 ; }
type 5 1¦enum e { A , B = 5 , C } ; int main ( ) { enum T v = B ; switch ( v ) { case A : return 1 ; case B : break ; default : return 2 ; } return v - 5 ; }
type 5 1¦enum e { A , B = 5 , C } ; int main ( ) { enum a v = B ; switch ( v ) { case A : return 1 ; case B : break ; default : return 2 ; } return v - 5 ; }
type 5 1¦enum v { A , B = 5 , C } ; int main ( ) { enum e v = B ; switch ( v ) { case A : return 1 ; case B : break ; default : return 2 ; } return v - 5 ; }
type 5 1¦enum main { A , B = 5 , C } ; int main ( ) { enum e v = B ; switch ( v ) { case A : return 1 ; case B : break ; default : return 2 ; } return v - 5 ; }
type 5 1¦enum A { A , B = 5 , C } ; int main ( ) { enum e v = B ; switch ( v ) { case A : return 1 ; case B : break ; default : return 2 ; } return v - 5 ; }
type 6 1¦struct q { int a ; struct p * n ; } ; static struct p q ; int g ( struct p * r ) { return r ? r -> a : 0 ; } int main ( ) { q . n = & q ; return g ( q . n ) ; }
type 6 1¦struct p { int a ; struct p * n ; } ; static struct q q ; int g ( struct p * r ) { r ? r -> a : 0 ; } int main ( ) { q . n = & q ; return g ( q . n ) ; }
type 6 1¦struct n { int a ; struct p * n ; } ; static struct p q ; int g ( struct p * r ) { return r ? r -> a : 0 ; } int main ( ) { q . n = & q ; return g ( q . n ) ; }
type 6 1¦struct p { int a ; struct p n ; } ; static struct p q ; int g ( struct p * r ) { return r ? r -> a : 0 ; } int main ( ) { q . n = & q ; return g ( q . n ) ; }
type 6 1¦int main ( ) { int a [ 2 ] [ ] = { { 1 , 2 } , { 3 } } ; int * p = & a [ 0 ] [ 2 ] ; for ( int i = 0 ; i < 2 ; i ++ ) { a [ i ] [ 0 ] += i ; } return * p ; }
type 6 1¦int f ( void x ) { return x ; } int main ( void ) { int i = 0 ; i = f ( i ) ; return i ; }
type 7 1¦char s [ ] = "ab" , * t = "cd" ; int main ( ) { int s [ 0 ] = t [ 1 ] ; return s [ 2 ] ; }
type 7 1¦char s [ ] = "ab" , * t = "cd" ; int main ( ) { char s [ 0 ] = t [ 1 ] ; return s [ 2 ] ; }
type 7 1¦char s [ "cd" ] = "ab" , * t = "cd" ; int main ( ) { s [ 0 ] = t [ 1 ] ; return s [ 2 ] ; }
type 7 1¦char s [ 0 ] = "ab" , * t = "cd" ; int main ( ) { s [ 0 ] = t [ 1 ] ; return s [ 2 ] ; }
type 8 1¦int putchar ( ) ; void exit ( int ) ; int main ( ) { putchar ( 65 ) ; exit ( 3 ) ; }
type 8 1¦int putchar ( int ) ; void exit ( ) ; int main ( ) { putchar ( 65 ) ; exit ( 3 ) ; }
type 8 1¦void putchar ( ) ; void exit ( int ) ; int main ( ) { putchar ( 65 ) ; exit ( 3 ) ; }
type 8 1¦int putchar ( int ) ; void exit ( ) ; int main ( int ) { putchar ( 65 ) ; exit ( 3 ) ; }
type 8 1¦int putchar ( int ) ; void exit ( ) ; static main ( ) { putchar ( 65 ) ; exit ( 3 ) ; }
type 8 1¦typedef int T ; T a [ 2 ] = { 1 , 2 } ; struct s { T m ; const int c ; } x = { 1 , 2 } ; int main ( ) ( ) { T * p = a ; x . m = * p + a [ 1 ] ; return x . m - 3 ; }
type 9 1¦int printf ( char * , ... ) ; int main ( void ) { printf ( "%d %u %c %s%%" , 1 , 2u , 65 , "x" ) ; return 0 ; }
type 9 1¦int putchar ( int ) ; void * exit ( int ) ; int main ( ) { putchar ( 65 ) ; exit ( 3 ) ; }
type 9 1¦enum e { A , B = 5 , C } main ; int main ( ) { enum e v = B ; switch ( v ) { case A : return 1 ; case B : break ; default : return 2 ; } return v - 5 ; }
type 9 1¦int putchar ( int ) ; void exit ( int ) ; int putchar ( ) { putchar ( 65 ) ; exit ( 3 ) ; }
type 9 1¦char s [ ] = "ab" , * t = "cd" ; int s ( ) { s [ 0 ] = t [ 1 ] ; return s [ 2 ] ; }
type 9 1¦extern int * u ; int u = 3 ; static int h ( int a , char b ) { return a + b ; } int main ( ) { unsigned long z = sizeof ( int ) ; return h ( u , 1 ) + z - 8 ; }
typed¦extern int u ; int u = 3 ; static int h ( int a , char b ) { return a + b ; } int main ( ) { unsigned long z ; sizeof ( int ) ; return h ( u , 1 ) + z - 8 ; }
typed¦volatile int v = 1 ; int main ( ) { int v = v + 1 ; v ++ ; return v && v ; }
typed¦typedef int T ; T a [ 2 ] = { 1 , 2 } ; struct s { T m ; const int c ; } x = { 1 , 2 } ; int main ( ) { T * p ; a ; x . m = * p + a [ 1 ] ; return x . m - 3 ; }
typed¦int main ( ) { int i ; 3 ; L : if ( i ) { i -- ; goto L ; } return i ; }
typed¦int f ( int x ) { return x ; } int main ( void ) { int i ; 0 ; i = f ( i ) ; return i ; }
typed¦int m ( int , int ) ; int m ( int a , int b ) { return a < b ? a : b ; } int main ( ) { short k = - 1 ; unsigned y = y ; return m ( 3 , ( int ) ( y >> 31 ) ) - 1 ; }
typed¦volatile int v = 1 ; int main ( ) { v = v + v ; v ++ ; return v && v ; }
typed¦char s [ ] = "ab" , * t = "cd" ; int main ( ) { s [ 0 ] = ++ t [ 1 ] ; return s [ 2 ] ; }
typed¦extern int u ; int u = 3 ; static int h ( int a , char b ) { a + b ; } int main ( ) { unsigned long z = sizeof ( int ) ; return h ( u , 1 ) + z - 8 ; }
typed¦int printf ( const char * , ... ) ; int main ( void ) { printf ( "%d %u %c %s%%" , 1 , 2u , "%d %u %c %s%%" , "x" ) ; return 0 ; }
typed¦int printf ( const char * , ... ) ; int main ( void ) { printf ( "%d %u %c %s%%" , "x" , 2u , 65 , "x" ) ; return 0 ; }
typed¦int printf ( const char * , ... ) ; int main ( void ) { printf ( "%d %u %c %s%%" , 1 , 2u , 65 , 0 ) ; return 0 ; }
typed¦long long b = 1ll << 40 ; int main ( ) { const int c = 2 ; return ( 2 >> 39 ) - c | c ^ c & ~ c ; }
typed¦long long b = 1ll << 40 ; int main ( ) { const int c = 2 ; return ( b >> 39 ) >> - c | c ^ c & ~ c ; }
typed¦typedef int T ; T a [ 2 ] = { 1 , 2 } ; struct s { T m ; const int c ; } x = { 1 , 2 } ; int main ( ) { T * p = a ; x . m = * p + a [ 2 ] ; return x . m - 3 ; }
typed¦int main ( ) { int a [ 2 ] [ 3 ] = { { 1 , 2 } , { 3 } } ; int * p = & a [ 0 ] [ 2 ] ; for ( int i = 0 ; i < 3 ; i ++ ) { a [ i ] [ 0 ] += i ; } return * p ; }
typed¦typedef int T ; T a [ ] = { 1 , } ; struct s { T m ; const int c ; } x = { 1 , 2 } ; int main ( ) { T * p = a ; x . m = * p + a [ 1 ] ; return x . m - 3 ; }
type 43 2¦int main(){L:{\nL\n:;}}
type 43 2¦int main(){L:\nL\n:;}
type 43 2¦int main(){L:if(1){\nL\n:;}}
type 38 2¦int main(){switch(1){case 1:\ncase\n 1:;}}
type 38 2¦int main(){switch(1){default:\ndefault\n:;}}
type 38 2¦int main(){switch(1){case 1:;\ncase\n 1:;}}
type 6 2¦extern void \nx\n;int main(){}
type 6 2¦extern struct zz \nx\n;int main(){}
type 6 2¦void \nz\n[0];int main(){}
type 6 2¦struct zz(*\nz\n)[0];int main(){}
type 6 2¦void(*\nz\n)(int)[4];int main(){}
type 6 2¦void \nz\n(int)[4];int main(){}
type 8 2¦struct n{void \na\n(int);};int main(){}
type 8 2¦struct n{int \na\n(int);};int main(){}
type 4 2¦typedef \ninline\n int T(int);int main(){}
name 2 2¦typedef int S;extern typedef long \nS\n;int main(){}
name 2 2¦typedef int S;typedef extern long \nS\n;int main(){}
type 19 2¦struct s{int a[2];}x,y;int main(){return (x=y).a\n[\n0];}
type 24 2¦struct s{int a[2];}x,y;int main(){return \n*\n(x=y).a;}
type 38 2¦struct s{int a[2];}x,y;int main(){\nif\n((x=y).a)return 1;return 0;}
type 37 2¦struct s{int a[2];}x,y;int main(){int*p;p\n=\n(x=y).a;return 0;}
type 29 2¦struct s{int a[2];}x,y;int main(){return (x=y).a\n+\n1==0;}
type 19 2¦struct s{int a[2];}x,y;int main(){return 0&&(x=y).a\n[\n0];}
type 19 2¦struct s{int a[2];}x,y;int main(){return sizeof (x=y).a\n[\n0];}
type 19 2¦struct s{int a[2];}x,y;int main(){return (1?x:y).a\n[\n1];}
type 19 2¦struct s{int a[2];}x,y;int main(){return (0,x).a\n[\n1];}
type 18 2¦struct s{int a[2];}x,y;int f(int*p){return *p;}int main(){return f(\n(\nx=y).a);}
type 25 2¦struct s{int a[2];}x,y;int main(){return \n!\n(x=y).a;}
type 30 2¦struct s{int a[2];}x,y;int main(){return (x=y).a\n-\n(x=y).a==0;}
type 33 2¦struct s{int a[2];}x,y;int main(){return (x=y).a\n==\n0;}
type 35 2¦struct s{int a[2];}x,y;int main(){return 1\n&&\n(x=y).a;}
type 36 2¦struct s{int a[2];}x,y;int main(){(1\n?\n(x=y).a:(x=y).a);return 0;}
type 27 2¦struct s{int a[2];}x,y;int main(){return \n(\nint*)(x=y).a==0;}
type 37 2¦struct s{int a[2];}x,y;int main(){int*p\n=\n(x=y).a;return 0;}
type 8 2¦int f(void\ng\n(int)){return 0;}int main(){return 0;}
type 7 2¦int z[3]\n[\n0];int main(){}
type 8 2¦void\nz\n[3](int);int main(){}
typed¦struct s{int a[2];}x,y;int main(){(x=y).a;((x=y).a);(void)(x=y).a;(0,(x=y).a);return sizeof (x=y).a-8;}
"#;

// The same of typedef names that are declared again, and of definitions.
const DEFINITIONS: &str = r#"
typed¦typedef int*T;typedef int*T;int main(){}
typed¦typedef int T;typedef T T;int main(){}
name 2 2¦typedef int T[];\ntypedef int T[2];int main(){}
name 2 2¦typedef int T;\ntypedef const int T;int main(){}
name 2 2¦typedef struct{int a;}T;\ntypedef struct{int a;}T;int main(){}
typed¦typedef int T;int main(){typedef long T;T x=1;return x==0;}
name 2 2¦int main(){typedef int T;\ntypedef long T;}
name 2 2¦int x=&1;typedef int T;\ntypedef long T;int main(){}
type 7 1¦typedef int T[0];typedef int T;int main(){}
type 40 2¦extern int x;int main(){\nreturn x;}
type 40 1¦extern int x;int main(){return sizeof x;}
typed¦extern int x;int main(){}
typed¦int x;int main(){return x;}
typed¦extern int x;int main(){return x;}int x;
typed¦int main(){extern int x;return x;}int x=2;
type 40 1¦int main(){extern int x;return x;}
type 6 1¦extern struct s x;int main(){return &x==0;}
type 40 1¦int f(void);int main(){return sizeof f();}
typed¦int f(void);int main(){}
typed¦int f(void);int main(){return f();}int f(void){return 1;}
type 40 1¦static int g(void);int main(){return g();}
typed¦void exit(int);int main(){exit(0);}
typed¦int f(int n,int a[sizeof n]);int main(){}
typed¦enum e{A};int main(){return A;}
type 40 2¦int f(){return 0;}\nint x;
type 40 1¦int main;
typed¦int main(void){}
typed¦typedef int T;T main(void){}
typed¦int main(int c,char**v){}
typed¦int main(const int c,char*v[]){}
typed¦int main(int c,char**const v){}
type 40 1¦int main(int c,const char**v){}
type 40 1¦int main(int c,char*const*v){}
type 40 1¦int main(int c,char*v){}
type 40 1¦int main(int c){}
type 40 1¦int main(long c,char**v){}
type 40 1¦int main(int c,char**v,int d){}
type 40 1¦const int main(){}
type 40 1¦long main(){}
type 40 1¦void main(){}
"#;

// Files with several faults, or with one whose place is easily mistaken, on one token a line: the first fault is put.
const FIRST_FAULTS: &str = r#"
type 5 2¦enum\ne\n;\nint\nmain\n(\n)\n{\n}
type 5 13¦enum\nt\n{\nA\n}\n;\nint\nx\n=\nsizeof\n(\nstruct\nt\n)\n;\nint\nmain\n(\n)\n{\n}
type 5 16¦struct\nt\n{\nint\na\n;\n}\n;\nint\nmain\n(\n)\n{\n(\nenum\nt\n)\n1\n;\n}
type 7 3¦struct\nk\n{\nchar\na\n[\n1048576\n]\n;\nint\nb\n;\nlong\nchar\nc\n;\n}\n;\nint\nmain\n(\n)\n{\n}
type 7 3¦struct\nk\n{\nchar\na\n[\n1048576\n]\n;\nint\nb\n;\nvoid\nc\n;\n}\n;\nint\nmain\n(\n)\n{\n}
type 9 5¦int\nc\n;\nint\nc\n(\nvoid\n(\n*\n)\n[\n2\n]\n)\n;\nint\nmain\n(\n)\n{\n}
type 2 7¦int\nmain\n(\n)\n{\nstatic\ntypedef\nint\nf\n(\nint\n)\n;\n}
type 8 4¦int\n(\n*\np\n)\n(\nenum\nT\n)\n;\nint\nmain\n(\n)\n{\n}
type 8 5¦struct\nn\n{\nint\na\n(\nenum\nT\n)\n;\n}\n;\nint\nmain\n(\n)\n{\n}
type 9 3¦int\n*\nabort\n(\nint\na\n(\nint\n)\n)\n;\nint\nmain\n(\n)\n{\n}
"#;

// Notes a row whose file comes to something else.
fn try_row(alloc: Global, wrong: &mut String, row: &str) -> Result<(), AllocError> {
    let Some((wanted, text)) = row.split_once('¦') else {
        return Ok(());
    };
    let file = plain(alloc, text)?;
    let found = checked(alloc, file.as_str())?;
    if found.as_str() == wanted {
        Ok(())
    } else {
        write!(wrong, "\n{found}: {row}")
    }
}

#[test]
fn files_are_typed_or_refused(rt: HostRuntime) -> Result<(), Fail> {
    let mut wrong = String::new(rt.alloc());
    for row in RULINGS.lines().chain(DEFINITIONS.lines()) {
        try_row(rt.alloc(), &mut wrong, row)?;
    }
    none_of(wrong)
}

#[test]
fn the_first_fault_is_put(rt: HostRuntime) -> Result<(), Fail> {
    let mut wrong = String::new(rt.alloc());
    for row in FIRST_FAULTS.lines() {
        try_row(rt.alloc(), &mut wrong, row)?;
    }
    none_of(wrong)
}
