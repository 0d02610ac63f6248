use crate::draws::Draws;
use crate::make;
use std::test::Fail;

const ONE: &str = r#"int printf(const char *, ...);
static unsigned f0(unsigned a)
{
  unsigned b = a * 6u;
  return b;
}
int main(void)
{
  unsigned s = 1u;
  s = f0(s);
  printf("%u\n", s);
  return 0;
}
"#;

/// From the greatest number, so that the greatest constant and two operators are there.
const THREE: &str = r#"int printf(const char *, ...);
static unsigned f0(unsigned a)
{
  unsigned b = a ^ 9u;
  return b;
}
static unsigned f1(unsigned a)
{
  unsigned b = a * 7u;
  return b;
}
static unsigned f2(unsigned a)
{
  unsigned b = a * 3u;
  return b;
}
int main(void)
{
  unsigned s = 1u;
  s = f0(s);
  s = f1(s);
  s = f2(s);
  printf("%u\n", s);
  return 0;
}
"#;

#[test]
fn the_first_two_draws_from_seven(rt: HostRuntime) {
    let mut draws = Draws { state: 7 };
    assert_eq!(rt; draws.draw(), 19_564);
    assert_eq!(rt; draws.state, 1_282_168_116);
    assert_eq!(rt; draws.draw(), 9_806);
    assert_eq!(rt; draws.state, 642_666_333);
}

#[test]
fn programs_are_these_texts(rt: HostRuntime) -> Result<(), Fail> {
    let rows = [(7, 1, ONE), (2_147_483_647, 3, THREE)];
    for (number, items, text) in rows {
        let made = make(rt.alloc(), number, items)?;
        assert_eq!(rt; made.as_slice(), text.as_bytes(), "of {number}");
    }
    Ok(())
}

/// 102 bytes beside the items, 81 for each item and its number's digits twice.
#[test]
fn programs_have_these_sizes(rt: HostRuntime) -> Result<(), Fail> {
    let rows = [
        (7, 1, 185),
        (7, 40, 3_482),
        (0, 10_000, 887_882),
        (2_147_483_647, 10_000, 887_882),
    ];
    for (number, items, size) in rows {
        assert_eq!(rt;
            make(rt.alloc(), number, items)?.len(),
            size,
            "of {items} items"
        );
    }
    Ok(())
}
