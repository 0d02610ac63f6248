use crate::evaluate::answer;
use crate::rows::{expect_text, rows, triple};
use std::alloc::{AllocError, Global};
use std::process::Abort;

// Expressions, their nodes in postfix, and what they come to: a value, or the case and the number of the word where it is met. All by
// hand from C11 6.5 and this project's choices.

// With `int i = 1, z = 0; volatile int v = 1;`.
const SEQUENCING: &str = "
i = i++¦i i post+i =i¦U12 3
i = f(i++)¦i i post+i f1 =i¦Int 0
i = (i++, 5)¦i i post+i 5 , () =i¦Int 5
(i++, 5) + i¦i post+i 5 , () i:i +i¦U12 6
z = z++ || 1¦z z post+i 1 || =i¦Int 1
i = i++ || 1¦i i post+i 1 || =i¦U12 5
i = i++ && z¦i i post+i z:i && =i¦Int 0
z = z++ && 1¦z z post+i 1 && =i¦U12 5
i = i++ ? i : z¦i i post+i i:i z:i ?i =i¦Int 2
i = i ? i++ : z¦i i:i i post+i z:i ?i =i¦U12 6
i++, i¦i post+i i:i ,¦Int 2
i++ + i++¦i post+i i post+i +i¦U12 4
++i + z¦i pre+i z:i +i¦Int 2
b[z++] = z¦b:12 z post+i [1] z:i =i¦U12 5
i ^= z ^= i ^= z¦i z i z:i ^=i ^=i ^=i¦U12 6
i += (i = 1, 2)¦i i 1 =i 2 , () +=i¦Int 3
i += f(i++)¦i i post+i f1 +=i¦Int 2
f(i++, i)¦i post+i i:i f2¦U12 3
f(i++, z++)¦i post+i z post+i f2¦Int 0
f(i++) + i¦i post+i f1 i:i +i¦U12 4
(i = 0) / i¦i 0 =i () i:i /i¦U12 5
i /= (i = 0)¦i i 0 =i () /=i¦U2 5
v + v¦v:v v:v +i¦U12 2
f(v, v)¦v:v v:v f2¦U12 2
v = v + 1¦v v:v 1 +i =v¦Int 2
v++¦v post+v¦Int 1
v && v¦v:v v:v &&¦Int 1
v = 1, v¦v 1 =v v:v ,¦Int 1
(v = 1) + v¦v 1 =v () v:v +i¦U12 5
t.m + (t = u).m¦t .m:i t u:s =s () .m +i¦U11 1
u.m + (t = u).m¦u .m:i t u:s =s () .m +i¦Int 6
(u = u).m + u.m¦u u:s =s () .m u .m:i +i¦U12 7
u = (u.m = 1, u)¦u u .m 1 =i u:s , () =s¦2 cells
";

// With `int i = 1, x; long w = 1; char c = 127;`, and a function `g` without a value.
const INTEGERS: &str = "
2147483647 + 1¦2147483647 1 +i¦U1 2
4294967295u + 1¦4294967295u 1 +u¦UInt 0
-(-2147483647 - 1)¦2147483647 negi 1 -i () negi¦U1 5
~0u¦0u ~u¦UInt 4294967295
1 / 0¦1 0 /i¦U2 2
1 % 0¦1 0 %i¦U2 2
(-2147483647 - 1) / -1¦2147483647 negi 1 -i () 1 negi /i¦U3 7
(-2147483647 - 1) % -1¦2147483647 negi 1 -i () 1 negi %i¦U3 7
1u << 32¦1u 32 <<u¦U4 2
1 >> -1¦1 1 negi >>i¦U4 3
1 << 31¦1 31 <<i¦U5 2
-1 << 1¦1 negi 1 <<i¦U5 3
-3 >> 1¦3 negi 1 >>i¦Int -2
6 & 3 ^ 8 | 1¦6 3 &i 8 ^i 1 |i¦Int 11
7 * 3¦7 3 *i¦Int 21
c++¦c post+c¦Char 127
++c¦c pre+c¦Char -128
c += 300¦c 300 +=c¦Char -85
c = 300¦c 300 =c¦Char 44
(_Bool)w¦w:l (b)¦Bool 1
-1 < 1u¦1 negi 1u <u¦Int 0
-1 >= 1¦1 negi 1 >=i¦Int 0
1 != 2¦1 2 !=i¦Int 1
i ? c : 1u¦i:i c:c 1u ?u¦UInt 127
!c¦c:c !¦Int 0
x¦x:i¦U11 0
x++¦x post+i¦U11 1
g() + 1¦g0 1 +i¦U15 2
i = g()¦i g0 =i¦U15 2
i += g()¦i g0 +=i¦U15 2
!g()¦g0 !¦U15 1
g() && 1¦g0 1 &&¦U15 2
1 && g()¦1 g0 &&¦U15 2
g() ? 1 : 2¦g0 1 2 ?i¦U15 3
1 ? g() : g()¦1 g0 g0 ?0¦nothing
(g(), 1)¦g0 1 , ()¦Int 1
(void)g()¦g0 (0)¦nothing
";

// With `int i = 1, z = 0, b[2], a[2][3], *p = 0, *q; long w = 1; const int k = 1; struct s { int m; int *p; } t, u = { 3, 0 };` and
// `struct { const int m; int n; } y;`, where `q` and `t.p` point to an object whose lifetime has ended, as what `h` returns does, `t.m`
// was never stored, and `d` is "abc".
const POINTERS: &str = "
a[0]¦a:36 0 [3]:13¦0 of 0..3 by 1
a[1]¦a:36 1 [3]:13¦3 of 3..6 by 1
a¦a:36¦0 of 0..6 by 3
&a[0][3]¦a:36 0 [3]:13 3 p+1¦3 of 0..3 by 1
&a[0][3] == &a[1][0]¦a:36 0 [3]:13 3 p+1 a:36 1 [3]:13 0 p+1 ==*¦N6 10
a[0][3]¦a:36 0 [3]:13 3 [1]:i¦U9 4
a[2]¦a:36 2 [3]:13¦U9 2
a[0] + 4¦a:36 0 [3]:13 4 p+1¦U6 4
b - 1¦b:12 1 p-1¦U6 2
p + 0¦p:* 0 p+1¦U6 2
2 + b - 1¦2 b:12 p+1 1 p-1¦1 of 0..2 by 1
&a[1][0] - &a[0][0]¦a:36 1 [3]:13 0 p+1 a:36 0 [3]:13 0 p+1 d1¦U7 10
b + 2 - b¦b:12 2 p+1 b:12 d1¦Long 2
&i - &z¦i & z & d1¦U7 4
p - p¦p:* p:* d1¦U7 2
&i < &z¦i & z & <*¦U8 4
p < p¦p:* p:* <*¦U8 2
b < b + 1¦b:12 b:12 1 p+1 <*¦Int 1
&i + 1 == &z¦i & 1 p+1 z & ==*¦N6 6
&i == &z¦i & z & ==*¦Int 0
p == 0¦p:* 0 ==*¦Int 1
*p¦p:* at1:i¦U9 1
&*p¦p:* ()¦null
b[2]¦b:12 2 [1]:i¦U9 2
b[1]¦b:12 1 [1]:i¦Int 0
(&u)->m¦u & ->m:i¦Int 3
(&u + 1)->m¦u & 1 p+2 () ->m:i¦U9 5
(*(&u + 1)).m¦u & 1 p+2 () at2 () .m:i¦U9 7
(&u)->m = 5¦u & ->m 5 =i¦Int 5
u.p¦u .p:*¦null
q¦q:*¦U10 0
h() == 0¦h0 0 ==*¦U10 2
*h()¦h0 at1:i¦U10 1
(_Bool)h()¦h0 (b)¦U10 1
h() && 1¦h0 1 &&¦U10 2
!h()¦h0 !¦U10 1
q = h()¦q h0 =*¦0 of 0..1 by 1
(void)h()¦h0 (0)¦nothing
u = t¦u t:s =s¦2 cells
(u = t).m¦u t:s =s () .m¦U11 4
(u = t).p¦u t:s =s () .p¦U10 4
(t = u).m¦t u:s =s () .m¦Int 3
\"abc\"[1]¦d:14 1 [1]:c¦Char 98
\"abc\"[1] = 120¦d:14 1 [1] 120 =c¦U13 4
\"abc\"[3]++¦d:14 3 [1] post+c¦U13 3
*(int *)&k = 2¦k & (*) at1 2 =i¦U14 5
++*(int *)&y.m¦y .m & (*) at1 pre+i¦U14 5
*(int *)&w¦w & (*) at1:i¦N5 3
*(int *)&w = 1¦w & (*) at1 1 =i¦N5 5
((int *)a)[0]¦a:36 (*) () 0 [1]:i¦N5 4
p = 0¦p 0 =*¦null
";

fn expect_rows(rt: &impl Abort, alloc: Global, table: &'static str) -> Result<(), AllocError> {
    for row in rows(table) {
        let (_, words, wanted) = triple(row);
        expect_text(rt, answer(alloc, words), wanted, row)?;
    }
    Ok(())
}

#[test]
fn unsequenced_side_effects_are_found(rt: HostRuntime) -> Result<(), AllocError> {
    expect_rows(&rt, rt.alloc(), SEQUENCING)
}

#[test]
fn integers_have_their_values_and_cases(rt: HostRuntime) -> Result<(), AllocError> {
    expect_rows(&rt, rt.alloc(), INTEGERS)
}

#[test]
fn pointers_and_structures_have_their_values_and_cases(rt: HostRuntime) -> Result<(), AllocError> {
    expect_rows(&rt, rt.alloc(), POINTERS)
}
