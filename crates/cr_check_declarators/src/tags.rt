ghost use Rattle.std.specs.Prelude.{◌≡◌};
ghost use Rattle.cr_check_declarators.specs.Structures.{is_enumeration, tag_agrees};

use cr_syntax::Kind;

/// Whether a tag stands in a specifier of the kind that declares it, and an enumeration without list behind its list (C11 6.7.2.3p2,
/// p3, K5). `first` is the kind of the specifier that declares the tag first, and `listed` whether a list of it has ended.
pub fn tag_agrees(kind: Kind, first: Kind, listed: bool) -> bool
    ensures { result ≡ tag_agrees kind first listed }
{
    match kind {
        Kind::EnumTag => is_enumeration(first) && listed,
        Kind::EnumContent => is_enumeration(first),
        _ => !is_enumeration(first),
    }
}

fn is_enumeration(kind: Kind) -> bool
    ensures { result ≡ is_enumeration kind }
{
    match kind {
        Kind::EnumContent | Kind::EnumTag => true,
        _ => false,
    }
}
