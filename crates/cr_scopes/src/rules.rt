ghost use Rattle.std.specs.Prelude.{◌≡◌, nat_eq};
ghost use Rattle.std.specs.Map.{lookup};
ghost use Rattle.cr_scopes.specs.Looking.{links, begun_by};
ghost use Rattle.cr_scopes.specs.Scopes.{looked};
ghost use Rattle.cr_scopes.specs.declared.scope.Space.TheVariants.{Content, Ordinary};
ghost use Rattle.cr_scopes.specs.Faults.{clashes, wrong_by, fault_by, fault_where};
ghost use Rattle.cr_scopes.specs.States.{lesser};
ghost use Rattle.cr_scopes.specs.Resolved.{token_of};

use crate::fault::NameFault;
use crate::scope::{Found, OpenScopes, Space, find};
use crate::table::Table;
use cr_scopes_events::Role;

/// What has linkage.
pub fn links(outermost: bool, role: Role) -> bool
    ensures { result ≡ links outermost role }
{
    match role {
        Role::Function => true,
        Role::ExternObject => true,
        Role::Object => outermost,
        _ => false,
    }
}

/// What a declaration declares that repeats none in its scope.
pub fn begun(linked: &Table<u32>, name: u32, token: u32, role: Role, outermost: bool) -> Found
    ensures { result ≡ begun_by outermost (lookup (nat_eq name) linked.now) token role }
{
    let first = if links(outermost, role) {
        linked.said(name).unwrap_or(token)
    } else {
        token
    };
    Found { first, role }
}

fn clashes(outermost: bool, found: Option<Found>, role: Role) -> bool
    ensures { result ≡ clashes outermost found role }
{
    match found {
        Some(found) => !((links(outermost, found.role) && links(outermost, role))
            || (found.role == Role::Typedef && role == Role::Typedef)),
        None => false,
    }
}

/// Whether a name may not be what it is written as. No space is looked through that its role doesn't ask of.
pub fn is_wrong(scopes: &OpenScopes, outermost: bool, role: Role, name: u32) -> bool
    ensures { result ≡ wrong_by outermost role (looked Ordinary name scopes.now) (looked Content name scopes.now) }
{
    match role {
        Role::Used => find(scopes, Space::Ordinary, name).seen.is_none(),
        Role::Content => find(scopes, Space::Content, name).here.is_some(),
        Role::Alone => false,
        Role::Mentioned => false,
        role => clashes(outermost, find(scopes, Space::Ordinary, name).here, role),
    }
}

/// The fault of a name that is wrong.
pub fn fault_where(wrong: bool, role: Role, token: u32) -> Option<NameFault>
    ensures { result ≡ fault_where wrong (fault_by role token) }
{
    match wrong {
        true => Some(fault_by(role, token)),
        false => None,
    }
}

fn fault_by(role: Role, token: u32) -> NameFault
    ensures { result ≡ fault_by role token }
{
    match role {
        Role::Used => NameFault::Unknown(token),
        _ => NameFault::Twice(token),
    }
}

/// The fault at the lesser token.
pub fn lesser(first: Option<NameFault>, second: Option<NameFault>) -> Option<NameFault>
    ensures { result ≡ lesser first second }
{
    match first {
        None => second,
        Some(one) => match second {
            None => Some(one),
            Some(other) => if token_of(one) <= token_of(other) {
                Some(one)
            } else {
                Some(other)
            },
        },
    }
}

/// The token of a fault; 0 for want of memory.
pub fn token_of(fault: NameFault) -> u32
    ensures { result ≡ token_of fault }
{
    match fault {
        NameFault::NoMemory => 0,
        NameFault::Unknown(token) => token,
        NameFault::Twice(token) => token,
    }
}
