// A range of a list that may end behind the list.
ghost use Rattle.std.specs.Prelude.{◌≡◌, slice_range};

/// What is there of the items from one place to before another.
pub fn part<T>(text: &[T], from: usize, to: usize) -> &[T]
    ensures { result.now ≡ slice_range text.now from to }
{
    let to = to.min(text.len());
    let from = from.min(to);
    &text[from..to]
}
