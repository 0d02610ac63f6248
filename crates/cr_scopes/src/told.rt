ghost use Rattle.std.specs.Prelude.{◌≡◌};
ghost use Rattle.cr_scopes.specs.Resolved.{space_of, space_number, told_if, declares_by};
ghost use Rattle.cr_scopes.specs.Scopes.{looked};
ghost use Rattle.cr_scopes.specs.declared.scope.Space.TheVariants.{Tag};

use crate::scope::{Found, OpenScopes, Space, find};
use cr_scopes_events::Role;

/// What a token stands for.
#[derive(Clone, Copy)]
pub struct Told {
    /// The first declaring token of its entity.
    pub first: u32,
    /// Whether it declares it.
    pub declares: bool,
    /// The entity's name space.
    pub space: u8,
}

/// The name space of a role.
pub fn space_of(role: Role) -> Space
    ensures { result ≡ space_of role }
{
    match role {
        Role::Content => Space::Tag,
        Role::Alone => Space::Tag,
        Role::Mentioned => Space::Tag,
        _ => Space::Ordinary,
    }
}

fn space_number(space: Space) -> u8
    ensures { result ≡ space_number space }
{
    match space {
        Space::Ordinary => 0,
        _ => 1,
    }
}

/// What a name stands for, from what is found of it.
pub fn told_if(declares: bool, role: Role, found: Option<Found>) -> Option<Told>
    ensures { result ≡ told_if declares role found }
{
    match found {
        Some(found) => Some(Told {
            first: found.first,
            declares,
            space: space_number(space_of(role)),
        }),
        None => None,
    }
}

/// Whether a name declares; among the tags it is looked for only where it is mentioned.
pub fn declares(scopes: &OpenScopes, role: Role, name: u32) -> bool
    ensures { result ≡ declares_by role (looked Tag name scopes.now) }
{
    match role {
        Role::Used => false,
        Role::Mentioned => find(scopes, Space::Tag, name).seen.is_none(),
        _ => true,
    }
}
