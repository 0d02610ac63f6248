// Small files. What is wanted of each was worked out by hand.
use crate::shown::expect_all;
use std::test::Fail;

// A ruling, and the file, its ends of lines as `\n` and its backslashes as `\\`: `lawful` with the status of the run and what it
// prints; or the word of the reason, its number and its line.
const LAWFUL: &str = r#"
lawful 1¦int main(){int*p=0;void*q=0;return p==q&&p==0&&0==q;}
lawful 0¦struct t;int main(){return sizeof(int[2])-8;}
lawful 0¦int f(int n){if(n)return f(n-1);return 0;}int main(){return f(254);}
lawful 1¦int main(){int i=0;i=i++||1;return i;}
lawful 3¦int main(){int i=0;i+=(i=1,2);return i;}
lawful 0¦struct s{int a[2];int b;}x[2]={1,2,3,{{4},5}};int main(){return x[1].a[0]+x[1].a[1]+x[1].b-9;}
lawful 0¦struct s{int a;int b;};int main(){struct s z={1,2};struct s w[2]={z,3,4};return w[0].b+w[1].a-5;}
lawful 1¦int y={{1}};int main(){return y;}
lawful 0¦int g(void);int main(){int g(void);return g();}int g(void){return 0;}
lawful 0¦static int s;extern int s;int main(){return s;}
lawful 0¦int f(int*p);int f(int a[sizeof(f(0))]){return 0;}int main(){return f(0);}
lawful 0¦int main(void)\n{\n  signed char c = 127;\n  short s = 32767;\n  c++;\n  s += 1;\n  return c == -128 && s == -32768 ? 0 : 1;\n}\n
lawful 0¦struct s { int a; int b; };\nint main(void)\n{\n  struct s x, y;\n  int b[3] = { 7 };\n  static int z;\n  x.a = 1;\n  y = x;\n  return y.a + b[2] + z == 1 ? 0 : 1;\n}\n
lawful 0¦int g;\nint f(int x)\n{\n  g = g * 2 + x;\n  return g;\n}\nint main(void)\n{\n  int r = f(1) + f(2);\n  return r > 0 && g + f(0) ? 0 : 1;\n}\n
lawful 0¦int main(void)\n{\n  int i = 0;\n  i = i++ || 1;\n  return i == 1 ? 0 : 1;\n}\n
lawful 0¦int main(void)\n{\n  char a[] = "abc", b[4] = "xyz";\n  a[0] = 'x';\n  b[3]++;\n  return a[0] == 'x' ? 0 : 1;\n}\n
lawful 0¦int main(void)\n{\n  int z = 0;\n  if (z)\n    return 1 / z;\n  return sizeof(1 / 0) == 4 && (z == 0 || 5 / z) ? 0 : 1;\n}\n
lawful 0¦int main(void)\n{\n  unsigned char c = 1;\n  return (1u << 31) != 0 && (1L << 62) != 0 && c << 20 == 1048576 && -1 >> 31 == -1 ? 0 : 1;\n}\n
lawful 0¦int main(void)\n{\n  int z = 0;\n  return z << 31 == 0 && 1 << 30 > 0 && 2u << 31 == 0 ? 0 : 1;\n}\n
lawful 0¦int main(void)\n{\n  const char *p = "abc";\n  int *n = 0;\n  return p[3] == 0 && &*n == n && sizeof(*n) == 4 ? 0 : 1;\n}\n
lawful 3¦int putchar ( int ) ; void exit ( int ) ; int main ( ) { ( 65 ) ; exit ( 3 ) ; }
lawful 0¦char s [ ] = "ab" , * t = "cd" ; int main ( ) { s [ 0 ] = t [ 1 ] ; return s [ 2 ] ; }
lawful 0¦enum e { A , B = 5 , } ; int main ( ) { enum e v = B ; switch ( v ) { case A : return 1 ; case B : break ; default : return 2 ; } return v - 5 ; }
lawful 0¦int printf ( const char * , ... ) ; int main ( void ) { ( "%d %u %c %s%%" , 1 , 2u , 65 , "x" ) ; return 0 ; }
lawful 0¦long long b = 1ll << 40 ; int main ( ) { const int c = 2 ; return ( b >> 39 ) - c | c ^ c & c ; }
lawful 0 1 2 A x%¦int printf ( const char * , ... ) ; int main ( ) { printf ( "%d %u %c %s%%" , 1 , 2u , 65 , "x" ) ; return 0 ; }
"#;

const UNDEFINED: &str = r#"
undefined 10 1¦int main(){int*p;{int x=1;p=&x;goto L;}L:return *p;}
undefined 12 1¦int main(){int i=1;i=i++||1;return i;}
undefined 11 1¦int main(){int b[2]={1,b[0]};return 0;}
undefined 14 1¦struct s{const int m;}x={1};int main(){*(int*)&x.m=2;}
undefined 1 4¦int main(void)\n{\n  int x = 2147483647, n = 0;\n  while (n < 3 && x + n > 0)\n    n++;\n  return n;\n}\n
undefined 1 4¦enum e { A = 2147483647 };\nint main(void)\n{\n  return A + 1 == 0;\n}\n
undefined 1 4¦int main(void)\n{\n  long long a = -9223372036854775807LL;\n  a = a - 2LL;\n  return 0;\n}\n
undefined 10 8¦int *f(void)\n{\n  int x = 1;\n  return &x;\n}\nint main(void)\n{\n  return f() == 0;\n}\n
undefined 10 8¦int *f(void)\n{\n  int x = 1;\n  return &x;\n}\nint main(void)\n{\n  if (f())\n    return 1;\n  return 0;\n}\n
undefined 10 6¦int main(void)\n{\n  int *p = 0;\n  for (int i = 0; i < 3; i++)\n    p = &i;\n  *p = 5;\n  return 0;\n}\n
undefined 10 10¦int *g;\nvoid set(void)\n{\n  int a[2] = { 1, 2 };\n  g = a + 1;\n}\nint main(void)\n{\n  set();\n  return g[0];\n}\n
undefined 10 9¦int main(void)\n{\n  int *p = 0, *q;\n  if (p == 0)\n  {\n    int x = 3;\n    p = &x;\n  }\n  q = p;\n  return 0;\n}\n
undefined 10 8¦int main(void)\n{\n  int i, s = 0;\n  int *p = 0;\n  for (i = 0; i < 2; i++)\n  {\n    int x = i;\n    if (p)\n      s += *p;\n    p = &x;\n  }\n  return s;\n}\n
undefined 10 8¦int *f(int x)\n{\n  return &x;\n}\nint main(void)\n{\n  int *p = f(4);\n  return *p;\n}\n
undefined 10 8¦int *f(void)\n{\n  int x = 1;\n  return &x;\n}\nint main(void)\n{\n  return *f();\n}\n
undefined 11 9¦int main(void)\n{\n  int i, s = 0;\n  for (i = 0; i < 2; i++)\n  {\n    int x;\n    if (i == 0)\n      x = 4;\n    s += x;\n  }\n  return s;\n}\n
undefined 11 6¦int f(int c)\n{\n  int r;\n  if (c)\n    r = 1;\n  return r;\n}\nint main(void)\n{\n  return f(1) + f(0);\n}\n
undefined 11 4¦int main(void)\n{\n  int x;\n  return x;\n}\n
undefined 11 7¦struct s { int a; int b; };\nint main(void)\n{\n  struct s x, y;\n  x.a = 1;\n  y = x;\n  return y.b;\n}\n
undefined 11 10¦void get(int *p, int c)\n{\n  if (c)\n    *p = 1;\n}\nint main(void)\n{\n  int x;\n  get(&x, 0);\n  if (x)\n    return 1;\n  return 0;\n}\n
undefined 11 7¦int main(void)\n{\n  switch (1)\n  {\n    int x = 5;\n  case 1:\n    return x;\n  }\n  return 0;\n}\n
undefined 12 8¦int f(int a, int b)\n{\n  return a - b;\n}\nint main(void)\n{\n  int i = 1;\n  return f(i++, i);\n}\n
undefined 12 4¦int main(void)\n{\n  int i = 1;\n  (i++, 5) + i;\n  return 0;\n}\n
undefined 12 4¦int main(void)\n{\n  int i = 1;\n  i = i++ || 1;\n  return 0;\n}\n
undefined 12 4¦int main(void)\n{\n  int a[3] = { 0 }, i = 0;\n  a[i++] = i;\n  return 0;\n}\n
undefined 12 4¦int main(void)\n{\n  int a = 1, b = 2;\n  a ^= b ^= a ^= b;\n  return 0;\n}\n
undefined 12 4¦int main(void)\n{\n  int i = 1;\n  return i++ + i++;\n}\n
undefined 13 3¦int main(void)\n{\n  "abc"[1] = 'x';\n  return 0;\n}\n
undefined 13 4¦int main(void)\n{\n  char *p = "abc";\n  p[0] = 'x';\n  return 0;\n}\n
undefined 13 4¦char *t[2] = { "one", "two" };\nint main(void)\n{\n  t[1][0] = 'T';\n  return 0;\n}\n
undefined 13 4¦int main(void)\n{\n  char *p = "abc";\n  p[3] = 0;\n  return 0;\n}\n
undefined 14 5¦int main(void)\n{\n  const int a[2] = { 1, 2 };\n  int *p = (int *)a;\n  p[1]++;\n  return 0;\n}\n
undefined 14 4¦int main(void)\n{\n  const int x = 1;\n  *(int *)&x = 2;\n  return 0;\n}\n
undefined 14 5¦struct s { const int m; int n; };\nint main(void)\n{\n  struct s x = { 1, 2 };\n  *(int *)&x.m = 2;\n  return 0;\n}\n
undefined 14 4¦int f(const int n)\n{\n  int *p = (int *)&n;\n  *p += 1;\n  return n;\n}\nint main(void)\n{\n  return f(1);\n}\n
undefined 14 5¦int main(void)\n{\n  static const char c = 'a';\n  char *p = (char *)&c;\n  *p = 'b';\n  return 0;\n}\n
undefined 14 6¦struct s { int m; };\nint main(void)\n{\n  const struct s x = { 1 };\n  struct s y = { 2 };\n  *(struct s *)&x = y;\n  return 0;\n}\n
undefined 15 11¦int f(int x)\n{\n  switch (x)\n  {\n  case 0:\n    return 1;\n  }\n}\nint main(void)\n{\n  return f(f(0)) + f(2);\n}\n
undefined 15 9¦int f(int x)\n{\n  while (x)\n    return x;\n}\nint main(void)\n{\n  int y = f(1);\n  y = f(0);\n  return 0;\n}\n
undefined 15 6¦int f(void)\n{\n}\nint main(void)\n{\n  if (f())\n    return 1;\n  return 0;\n}\n
undefined 15 9¦unsigned f(unsigned x)\n{\n  if (x & 1)\n    return x;\n}\nint main(void)\n{\n  unsigned s = f(1);\n  s += f(2) * 0;\n  return 0;\n}\n
undefined 15 9¦int printf(const char *, ...);\nstatic long f(void)\n{\n  long x = 1;\n  x++;\n}\nint main(void)\n{\n  printf("%ld\\n", f());\n  return 0;\n}\n
undefined 16 5¦int printf(const char *, ...);\nint main(void)\n{\n  int x = -16;\n  printf("%x\\n", x);\n  return 0;\n}\n
undefined 16 4¦int printf(const char *, ...);\nint main(void)\n{\n  printf("%ld\\n", 1);\n  return 0;\n}\n
undefined 16 5¦int printf(const char *, ...);\nint main(void)\n{\n  int a[2] = { 65, 0 };\n  printf("%s\\n", a);\n  return 0;\n}\n
undefined 16 5¦int printf(const char *, ...);\nint main(void)\n{\n  long x = 1;\n  printf("%lld\\n", x);\n  return 0;\n}\n
undefined 16 4¦int printf(const char *, ...);\nint main(void)\n{\n  printf("%u\\n", -1);\n  return 0;\n}\n
undefined 16 5¦int printf(const char *, ...);\nint main(void)\n{\n  int x = 1;\n  printf("%d\\n", &x);\n  return 0;\n}\n
undefined 16 4¦int printf(const char *, ...);\nint main(void)\n{\n  printf("%s\\n", 65);\n  return 0;\n}\n
undefined 2 8¦int id(int x)\n{\n  return x;\n}\nint main(void)\n{\n  int z = id(0);\n  return id(5 % z);\n}\n
undefined 2 5¦int main(void)\n{\n  long a = 7;\n  char z = 0;\n  a /= z;\n  return 0;\n}\n
undefined 2 3¦int main(void)\n{\n  1 / 0;\n  return 0;\n}\n
undefined 2 5¦int main(void)\n{\n  int i, s = 0;\n  for (i = 3; i >= 0; i--)\n    s += 12 / i;\n  return s;\n}\n
undefined 2 5¦int main(void)\n{\n  unsigned a = 7u, b = 1u;\n  b = b << 31 << 1;\n  a = a / b;\n  return 0;\n}\n
undefined 2 4¦int main(void)\n{\n  int z = 0;\n  return z / z;\n}\n
undefined 3 4¦int main(void)\n{\n  int m = -2147483647 - 1, d = -1;\n  return m / d == m;\n}\n
undefined 3 3¦int main(void)\n{\n  (-2147483647 - 1) / -1;\n  return 0;\n}\n
undefined 3 4¦int main(void)\n{\n  int m = -2147483647 - 1, d = -1;\n  return m % d;\n}\n
undefined 3 5¦int main(void)\n{\n  int m = -2147483647 - 1;\n  short d = -1;\n  m %= d;\n  return 0;\n}\n
undefined 4 5¦int main(void)\n{\n  char n = -1;\n  unsigned x = 4u;\n  x >>= n;\n  return 0;\n}\n
undefined 4 4¦int main(void)\n{\n  int x = 1;\n  x <<= 40;\n  return 0;\n}\n
undefined 4 4¦int main(void)\n{\n  unsigned long x = 1;\n  return (x << 64) == 0;\n}\n
undefined 4 4¦int main(void)\n{\n  int n = 32;\n  return 0 << n;\n}\n
undefined 5 4¦int main(void)\n{\n  signed char c = -128;\n  c <<= 1;\n  return 0;\n}\n
undefined 5 4¦int main(void)\n{\n  int x = -1;\n  return x << 1;\n}\n
undefined 6 4¦int main(void)\n{\n  char a[2] = { 0 };\n  char *p = &a[3];\n  return p == a;\n}\n
undefined 6 5¦int main(void)\n{\n  int a[4] = { 1, 2, 3, 4 };\n  int *p = a;\n  p--;\n  return *a;\n}\n
undefined 6 5¦int main(void)\n{\n  int a[2][3] = { { 0 } };\n  int *p = a[0];\n  p = p + 4;\n  return 0;\n}\n
undefined 7 4¦int main(void)\n{\n  char *p = "abc", *q = "xyz";\n  return p - q == 4;\n}\n
undefined 7 6¦struct s { int a[2]; int b[2]; };\nint main(void)\n{\n  struct s x = { { 1, 2 }, { 3, 4 } };\n  int *p = x.a, *q = x.b;\n  return q - p == 2;\n}\n
undefined 7 5¦struct s { int a; int b; };\nint main(void)\n{\n  struct s x = { 1, 2 };\n  return &x.b - &x.a == 1;\n}\n
undefined 7 5¦int main(void)\n{\n  int x = 1;\n  int *p = 0;\n  return &x - p == 0;\n}\n
undefined 7 4¦int main(void)\n{\n  int x = 1, y = 2;\n  return &x - &y == 1;\n}\n
undefined 7 3¦long dist(int *p, int *q)\n{\n  return p - q;\n}\nint main(void)\n{\n  int a[3] = { 0 }, b[3] = { 0 };\n  return dist(a + 3, a) + dist(a, b) > 3;\n}\n
undefined 7 4¦int main(void)\n{\n  int a[2][3] = { { 0 } };\n  return &a[1][0] - &a[0][0] == 3;\n}\n
undefined 8 4¦int a[2], b[2];\nint main(void)\n{\n  return a + 1 >= b;\n}\n
undefined 8 5¦int main(void)\n{\n  int x = 1;\n  int *p = 0;\n  return &x > p;\n}\n
undefined 8 4¦int main(void)\n{\n  int x = 1, y = 2;\n  return &x < &y;\n}\n
undefined 8 3¦int before(int *p, int *q)\n{\n  return p < q;\n}\nint main(void)\n{\n  int a[3] = { 0 }, b[3] = { 0 };\n  return before(a, a + 2) + before(b, a);\n}\n
undefined 9 4¦int main(void)\n{\n  const char *p = "abc";\n  return p[4];\n}\n
undefined 9 4¦int main(void)\n{\n  int *p = 0;\n  *p = 1;\n  return 0;\n}\n
undefined 9 4¦int main(void)\n{\n  int x = 1;\n  return *(&x + 1);\n}\n
undefined 9 5¦int printf(const char *, ...);\nint main(void)\n{\n  char a[2] = { 'a', 'b' };\n  printf("%s\\n", a);\n  return 0;\n}\n
undefined 9 5¦int printf(const char *, ...);\nint main(void)\n{\n  char *p = 0;\n  printf("%s\\n", p);\n  return 0;\n}\n
undefined 11 1¦extern int u ; int u = 3 ; static int h ( int a , char b ) { return a + b ; } int main ( ) { unsigned long z ; sizeof ( int ) ; return h ( u , 1 ) + z - 8 ; }
undefined 11 1¦volatile int v = 1 ; int main ( ) { int v = v + 1 ; v ++ ; return v && v ; }
undefined 11 1¦typedef int T ; T a [ 2 ] = { 1 , 2 } ; struct s { T m ; const int c ; } x = { 1 , 2 } ; int main ( ) { T * p ; a ; x . m = * p + a [ 1 ] ; return x . m - 3 ; }
undefined 11 1¦int main ( ) { int i ; 3 ; L : if ( i ) { i -- ; goto L ; } return i ; }
undefined 11 1¦int f ( int x ) { return x ; } int main ( void ) { int i ; 0 ; i = f ( i ) ; return i ; }
undefined 11 1¦int m ( int , int ) ; int m ( int a , int b ) { return a < b ? a : b ; } int main ( ) { short k = - 1 ; unsigned y = y ; return m ( 3 , ( int ) ( y >> 31 ) ) - 1 ; }
undefined 12 1¦volatile int v = 1 ; int main ( ) { v = v + v ; v ++ ; return v && v ; }
undefined 13 1¦char s [ ] = "ab" , * t = "cd" ; int main ( ) { s [ 0 ] = ++ t [ 1 ] ; return s [ 2 ] ; }
undefined 15 1¦extern int u ; int u = 3 ; static int h ( int a , char b ) { a + b ; } int main ( ) { unsigned long z = sizeof ( int ) ; return h ( u , 1 ) + z - 8 ; }
undefined 16 1¦int printf ( const char * , ... ) ; int main ( void ) { printf ( "%d %u %c %s%%" , 1 , 2u , "%d %u %c %s%%" , "x" ) ; return 0 ; }
undefined 16 1¦int printf ( const char * , ... ) ; int main ( void ) { printf ( "%d %u %c %s%%" , "x" , 2u , 65 , "x" ) ; return 0 ; }
undefined 16 1¦int printf ( const char * , ... ) ; int main ( void ) { printf ( "%d %u %c %s%%" , 1 , 2u , 65 , 0 ) ; return 0 ; }
undefined 4 1¦long long b = 1ll << 40 ; int main ( ) { const int c = 2 ; return ( 2 >> 39 ) - c | c ^ c & ~ c ; }
undefined 4 1¦long long b = 1ll << 40 ; int main ( ) { const int c = 2 ; return ( b >> 39 ) >> - c | c ^ c & ~ c ; }
undefined 9 1¦typedef int T ; T a [ 2 ] = { 1 , 2 } ; struct s { T m ; const int c ; } x = { 1 , 2 } ; int main ( ) { T * p = a ; x . m = * p + a [ 2 ] ; return x . m - 3 ; }
undefined 9 1¦int main ( ) { int a [ 2 ] [ 3 ] = { { 1 , 2 } , { 3 } } ; int * p = & a [ 0 ] [ 2 ] ; for ( int i = 0 ; i < 3 ; i ++ ) { a [ i ] [ 0 ] += i ; } return * p ; }
undefined 9 1¦typedef int T ; T a [ ] = { 1 , } ; struct s { T m ; const int c ; } x = { 1 , 2 } ; int main ( ) { T * p = a ; x . m = * p + a [ 1 ] ; return x . m - 3 ; }
"#;

const LEFT: &str = r#"
left 2 1¦int f(int n){if(n)return f(n-1);return 0;}int main(){return f(255);}
left 2 3¦int down(int n)\n{\n  return down(n + 1);\n}\nint main(void)\n{\n  return down(0);\n}\n
left 5 5¦int main(void)\n{\n  long x = 1;\n  int *p = (int *)&x;\n  *p = 2;\n  return 0;\n}\n
left 5 4¦int main(void)\n{\n  int a[2][3] = { { 1 } };\n  return ((int *)a)[0];\n}\n
"#;

// What no other table has of tokens and of units.
// Pointers are moved, subtracted, followed and read as elements of their own type and of others (6.5p7, 6.5.6p7).
const ELEMENTS: &str = r#"
left 5 1¦struct a{int x;char c,d;};struct t{int x;char c;};struct b{struct t p;char d;};int main(){struct a s={1,2,3};return((struct b*)&s)->d;}
left 5 1¦struct p{int a;};struct q{int a;};int f(struct p*x,struct q*y){x->a=1;y->a=2;return x->a;}int main(){struct p s;return f(&s,(struct q*)&s);}
left 5 1¦int a[3];int main(){return (char*)&a[2]-(char*)a;}
left 5 1¦int x;int main(){return (char*)&x+1==(char*)(&x+1);}
lawful 0¦int x=1;int main(){return (unsigned*)&x==0;}
left 5 1¦struct s{int a;}x={7};int main(){return *(int*)&x;}
left 5 1¦struct s{int a;}x={7};int main(){return ((struct s*)&x.a)->a;}
lawful 7¦struct t{int a;};struct s{struct t y;}x={{7}};int main(){struct s*p=&x;return p->y.a;}
left 5 1¦struct t{int a;};struct s{struct t y;}x={{7}};int main(){return ((struct t*)&x)->a;}
lawful 7¦struct s{int a;char c;}x={7};int main(){void*v=&x;struct s*p=v;return p->a;}
lawful 7¦struct s{int a;}x={7};struct t{int b;};int main(){struct t*q=(struct t*)&x;return((struct s*)q)->a;}
lawful 3¦int a[2]={1,2};int main(){const int*p=a;return p[1]+((int*)p)[0];}
lawful 6¦int a[2][3]={{1,2,3},{4,5,6}};int main(){const int(*p)[3]=(const int(*)[3])a;return p[1][2];}
left 5 1¦int a[2][3];int main(){return ((int(*)[2])a)[0][0];}
left 5 1¦int a[6][1];int main(){return ((int*)a)[1];}
left 5 1¦int a[2][3];int main(){return (*(int(*)[3][2])&a)[0][0];}
left 5 1¦int a[1]={7};int main(){return *(int*)&a;}
lawful 2¦extern int a[];int main(){int(*p)[3]=&a;return (*p)[1];}int a[3]={1,2,3};
lawful 3¦extern int a[];int main(){int(*p)[]=&a;int(*q)[3]=p;return (*q)[2];}int a[3]={1,2,3};
lawful 3¦int*f(int**p){return *p;}int x=3;int main(){int*p=&x;return *f(&p);}
left 5 1¦int x=1,*p=&x;int main(){return **(const int**)&p;}
lawful 0¦int main(int c,char**v){return *v!=0||v+1==v;}
left 5 1¦unsigned char s[2]={1,2};int main(){return (char*)s+1==(char*)(s+1);}
lawful 4¦typedef struct s{int a;}S;S x={4};int main(){struct s*p=&x;return p->a;}
left 5 1¦struct s{int a;}x={5};int f(void*v){struct s{int a;};struct s*p=v;return p->a;}int main(){return f(&x);}
lawful 0¦enum e{A}x=0;int main(){unsigned*p=(unsigned*)&x;return p[0];}
lawful 5¦struct s{int a[2];int b;}x={{1,2},3};int main(){int*p=x.a;return p[1]+*&x.b;}
undefined 9 1¦struct p{int a;};int main(){struct p*x=0;return x->a;}
left 5 2¦struct p{int a;}x;struct q{int b;};\nint main(){struct q*y=(struct q*)&x;y++;return 0;}
left 5 2¦int printf(const char*,...);signed char s[2]={65};\nint main(){return printf((char*)s);}
left 5 1¦struct p{int a;}x;struct q{int b;};int main(){return (struct q*)&x-(struct q*)&x;}
undefined 10 1¦struct p{int a;};struct q{int b;};int main(){struct p*x;{struct p y;x=&y;}return ((struct q*)x)->b;}
"#;

// String literals are compared, whose objects may be one (6.4.5p7).
const LITERALS: &str = r#"
left 6 1¦int main(){char*p="xab"+1,*q="ab";return p==q;}
left 6 1¦int main(){return "a"=="b";}
lawful 1¦int main(){char*p="ab";return p+1==p+1;}
lawful 0¦int main(){char*p="ab",s[3]="ab";return p==s;}
lawful 1¦char*f(void){return "ab";}int main(){return f()==f();}
left 6 1¦int main(){char*p="ab",*q="ab";return p!=q;}
undefined 8 1¦int main(){char*p="ab",*q="cd";return p<q;}
lawful 0¦int main(){char*p="ab";return p==0;}
"#;

// Places of one object are compared: the end of an array, and what isn't into that array (6.5.8p5, 6.5.9p6).
const PLACES: &str = r#"
left 6 1¦int main(){int a[2][3];return &a[0][3]==&a[1][0];}
left 6 1¦struct s{char a;int b;}x;int main(){return (void*)(&x.a+1)==(void*)&x.b;}
lawful 1¦struct s{char a;int b;}x;int main(){return (void*)&x.a==(void*)&x;}
lawful 0¦struct s{char a;int b;}x;int main(){return (void*)(&x.a+1)==(void*)&x;}
left 6 1¦struct s{int b;char a;}x;int main(){return (void*)(&x.a+1)==(void*)(&x+1);}
lawful 1¦int a[3];int main(){return (int*)(&a+1)==a+3;}
undefined 8 1¦int a[2][3];int main(){return &a[0][3]<&a[1][0];}
lawful 1¦int a[2][3];int main(){return &a[0][2]<&a[1][0];}
lawful 1¦struct s{int a,b;}x;int main(){return &x.a<&x.b;}
undefined 8 1¦struct s{int a,b;}x;int main(){return &x.a+1<=&x.b;}
lawful 1¦struct s{char a;int b;}x;int main(){return (char*)&x.a<(char*)&x.b;}
undefined 7 1¦int a[2][3];int main(){return &a[1][0]-&a[0][3];}
lawful 6¦int a[3]={1,2,3};int main(){int s=0;for(int*p=a;p!=a+3;p++)s+=*p;return s;}
left 6 1¦int a[2],b[2];int main(){return a+2==b+1;}
lawful 0¦struct s{int a,b;}x;int y;int main(){return &x.a+1==&y;}
"#;

const REFUSED: &str = r#"
parse 2 1¦
token 3 1¦int main(){}/*
token 2 3¦int main()\n{\n  return 08;\n}\n
token 4 2¦int main(){\nreturn 'a;}\n
name 1 1¦int main(){return x;}
name 2 2¦typedef int T;typedef long\nT;int main(){return\nx;}
name 2 2¦typedef int T;typedef char\nT;int f(){int y;int\ny;}int main(){return 0;}
name 1 2¦int f(){return\nx;}typedef int T;typedef long\nT;int main(){return 0;}
name 2 2¦int f(){int y;int\ny;}typedef int T;typedef long\nT;int main(){return 0;}
name 1 2¦typedef int T;typedef int T;int main(){return\nx;}
name 1 2¦typedef int T;typedef int T[\nx];int main(){return 0;}
name 1 2¦int main(){typedef int T;{typedef long T;}return\nx;}
name 2 2¦int main(){typedef int T;{typedef long T;}typedef long\nT;return\nx;}
name 2 2¦typedef int T;int\nT;typedef long\nT;int main(){return x;}
type 37 1¦int main(){return 1=2;}
type 40 1¦int x;
type 40 3¦int f(void);\nint main(void){return f();}\nint x;
parse 4 1¦int main(){switch(1)T:;}
parse 1 1¦typedef int T;int main(){if(1)T x;}
parse 4 1¦int main(){if(1)L:;}
parse 1 1¦enum e { A , B = 5 , ; C } ; int main ( ) { enum e v = B ; switch ( v ) { case A : return 1 ; case B : break ; default : return 2 ; } return v - 5 ; }
parse 1 1¦int main ( ) { int i = 3 ; L : if ( i ) { i -- ; goto L else } return i ; }
parse 1 1¦int putchar ( int ) ; void exit ( int ) ; int main ( ) { putchar ( 65 ) ; ( exit ( 3 ) ; }
parse 1 1¦int int ( int x ) { return x ; } int main ( void ) { int i = 0 ; i = f ( i i ; return i ; }
parse 1 1¦int putchar ( int ) ; void exit ( int ) ; int main ( ) { ] ( 65 ) ; exit ( 3 ) ; }
parse 1 1¦char s [ ] = "ab" , * t = "cd" ; int main ( [ { s [ 0 ] = t [ 1 ] ; return s [ 2 ] ; }
parse 2 1¦long long b = 1ll << 40 ; int main ( ) { const int c = 2 ; return ( b >> 39 ) - c | c ^ c & ~ c ;
parse 2 1¦volatile int v = 1 ; int main ( ) { v = v + 1 ; v ++ ; return v && v ;
parse 2 1¦long long b = 1ll << 40 ; int main ( ) { const int c = 2 ; { ( b >> 39 ) - c | c ^ c & & ~ c ; }
parse 2 1¦volatile int v = 1 ; int main ( ) { v = v + 1 ; v ++ ; return v && v ; v
parse 2 1¦struct p { int a ; struct p * n ; } ; static struct p q ; int g ( struct p * r ) { return r ? r -> a : 0 ; } int main ( ) { q . n = & q ; return g ( q . n ) ; a
parse 2 1¦int main ( ) { int i = 3 ; L : if ( i ) { i -- ; goto L ; } { i ; }
parse 4 1¦typedef int T ; T a [ 2 ] = { 1 , 2 } ; struct s { T m ; const int c ; } x = { [ 1 , 2 } ; int main ( ) { T * p = a ; x . m = * p + a [ 1 ] ; x x . m - 3 ; }
parse 4 1¦int main ( ) { int a [ 2 ] [ 3 ] = { float 1 , 2 } , { 3 } } ; int * p = & a [ 0 ] [ 2 ] ; for ( int i = 0 ; i < 2 ; i ++ ) { a [ i ] [ 0 ] += i ; } return * p ; }
parse 4 1¦volatile int v = 1 ; int main ( ) { v float = v + 1 ; v ++ ; return v && v ; }
parse 4 1¦int putchar ( int ) ; void exit ( int ) ; int main ( ) { putchar ( 65 ) ; exit float 3 ) ; }
parse 4 1¦extern int u ; int u float = 3 ; static int h ( int a , char b ) { return a + b ; } int main ( ) { unsigned long z = sizeof ( int ) ; return h ( u , 1 ) + z - 8 ; }
parse 4 1¦volatile int v = 1 ; int main ( ) { v = v + 1 ( ; v ++ ; return v && v ; }
"#;

#[test]
fn lawful_files_end(rt: HostRuntime) -> Result<(), Fail> {
    expect_all(rt.alloc(), LAWFUL)
}

#[test]
fn undefined_behaviour_has_its_number_and_line(rt: HostRuntime) -> Result<(), Fail> {
    expect_all(rt.alloc(), UNDEFINED)
}

#[test]
fn files_that_leave_the_profile(rt: HostRuntime) -> Result<(), Fail> {
    expect_all(rt.alloc(), LEFT)
}

#[test]
fn files_outside_the_subset(rt: HostRuntime) -> Result<(), Fail> {
    expect_all(rt.alloc(), REFUSED)
}

#[test]
fn pointers_into_two_literals_are_not_compared(rt: HostRuntime) -> Result<(), Fail> {
    expect_all(rt.alloc(), LITERALS)
}

#[test]
fn the_end_of_an_array_is_compared_with_places_of_that_array(rt: HostRuntime) -> Result<(), Fail> {
    expect_all(rt.alloc(), PLACES)
}

#[test]
fn a_pointer_is_used_by_elements_of_its_own_type(rt: HostRuntime) -> Result<(), Fail> {
    expect_all(rt.alloc(), ELEMENTS)
}
