// Which members are used.
ghost use Rattle.std.specs.Prelude.{◌≡◌, ◌++◌, IfOk, OnOk};
ghost use Rattle.std.specs.HashSet.{contains};
ghost use Rattle.pass_names.specs.Members.{AreUsed, is_unused_member, is_used_member, member_use_by, member_uses, same_member, structure_at};

use cr_syntax::Node;
use cr_tokens::Token;
use pass_levels::{span_at, spelling_at};
use std::alloc::{AllocError, Global};
use std::collections::HashSet;

/// A token behind `.` or `->`, and the structure whose member it names, by its content.
#[derive(Clone, Copy)]
pub(crate) struct MemberUse {
    pub structure: u32,
    pub token: u32,
}

/// Whether no token names a member of a structure, of the name that this token has. The used members are looked for in a set.
pub(crate) fn is_unused_member(
    file: &[u8],
    tokens: &[Token],
    uses: &[MemberUse],
    used: &HashSet<(usize, &[u8])>,
    content: usize,
    member: Option<u32>,
) -> bool
    requires { AreUsed file.now tokens.now uses.now (contains same_member used.now) }
    ensures { result ≡ is_unused_member file.now tokens.now uses.now content member }
{
    match member {
        Some(token) => !is_used_member(file, tokens, uses, used, content, token as usize),
        None => false,
    }
}

fn is_used_member(
    file: &[u8],
    tokens: &[Token],
    _uses: &[MemberUse],
    used: &HashSet<(usize, &[u8])>,
    content: usize,
    token: usize,
) -> bool
    requires { AreUsed file.now tokens.now _uses.now (contains same_member used.now) }
    ensures { result ≡ is_used_member file.now tokens.now _uses.now content token }
{
    used.contains(&(content, spelling_at(file, tokens, token)))
}

/// The members that are used, each by its structure and its name.
pub(crate) fn used_members<'a>(
    alloc: Global,
    file: &'a [u8],
    tokens: &[Token],
    uses: &[MemberUse],
) -> Result<HashSet<(usize, &'a [u8])>, AllocError>
    ensures { IfOk result (λ used. AreUsed file.now tokens.now uses.now (contains same_member used)) }
{
    let mut used = HashSet::new(alloc);
    for one in uses {
        used.insert((
            one.structure as usize,
            spelling_at(file, tokens, one.token as usize),
        ))?;
    }
    Ok(used)
}

/// The uses of members, where the nodes name members of these structures.
pub(crate) fn member_uses(
    alloc: Global,
    nodes: &[Node],
    structures: &[Option<u32>],
) -> Result<Vec<MemberUse>, AllocError>
    ensures { IfOk result (λ uses. uses.items ≡ member_uses nodes.now structures.now) }
{
    let mut uses = Vec::new(alloc);
    for node in 0..nodes.len() {
        let (_, last) = span_at(nodes, node);
        put_member_use(structure_at(structures, node), last, &mut uses)?;
    }
    Ok(uses)
}

fn structure_at(structures: &[Option<u32>], node: usize) -> Option<u32>
    ensures { result ≡ structure_at structures.now node }
{
    match structures.get(node) {
        Some(structure) => *structure,
        None => None,
    }
}

fn put_member_use(
    structure: Option<u32>,
    token: u32,
    uses: &mut Vec<MemberUse>,
) -> Result<(), AllocError>
    ensures { OnOk result (uses.new.items ≡ uses.old.items ++ member_use_by structure token) }
{
    match structure {
        Some(structure) => uses.push(MemberUse { structure, token })?,
        None => {}
    }
    Ok(())
}
