ghost use Rattle.std.specs.Prelude.{◌≡◌, ◌∷◌, drop, OnOk};
ghost use Rattle.cr_scopes.specs.Looking.{place_of};
ghost use Rattle.cr_scopes.specs.Scopes.{blank, said_in, looked, keeps, HasPut, IsTaken, IsNoted, IsNamed};

use crate::table::Table;
use cr_scopes_events::Role;
use std::alloc::{AllocError, Global};
use std::collections::LinkedList;

/// Where a name can be known (C11 6.2.3). That a tag has a content is kept apart.
#[derive(Clone, Copy)]
pub enum Space {
    Ordinary,
    Tag,
    Content,
}

/// Where names of some role are declared.
#[derive(Clone, Copy)]
pub enum Place {
    Nowhere,
    In(Space),
    /// Among the tags, with a content.
    WithContent,
}

/// The entity that a name was found to be.
#[derive(Clone, Copy)]
pub struct Found {
    /// Its first declaring token.
    pub first: u32,
    /// The role of the first declaration in the scope where it was found.
    pub role: Role,
}

/// What is found of a name.
#[derive(Clone, Copy)]
pub struct Look {
    /// In the innermost scope.
    pub here: Option<Found>,
    /// In the innermost scope that has it.
    pub seen: Option<Found>,
}

/// What one scope knows.
#[derive(Drop)]
pub struct Scope {
    ordinary: Table<Found>,
    tags: Table<Found>,
    contents: Table<Found>,
}

/// The scopes that are open, the innermost first.
pub type OpenScopes = LinkedList<Scope>;

impl Scope {
    fn new(alloc: Global) -> Scope
        ensures { result ≡ blank }
    {
        Scope {
            ordinary: Table::new(alloc),
            tags: Table::new(alloc),
            contents: Table::new(alloc),
        }
    }

    fn said(&self, space: Space, name: u32) -> Option<Found>
        ensures { result ≡ said_in self.now space name }
    {
        match space {
            Space::Ordinary => self.ordinary.said(name),
            Space::Tag => self.tags.said(name),
            Space::Content => self.contents.said(name),
        }
    }

    fn put(&mut self, space: Space, name: u32, found: Found) -> Result<(), AllocError>
        ensures { OnOk result (HasPut space name found self.old self.new) }
    {
        match space {
            Space::Ordinary => self.ordinary.put(name, found),
            Space::Tag => self.tags.put(name, found),
            Space::Content => self.contents.put(name, found),
        }
    }
}

/// Opens a scope. The error is want of memory.
pub fn open_scope(alloc: Global, scopes: &mut OpenScopes) -> Result<(), AllocError>
    ensures { OnOk result (scopes.new ≡ blank ∷ scopes.old) }
{
    scopes.push_front(Scope::new(alloc))?;
    Ok(())
}

/// Closes the innermost scope.
pub fn close_scope(scopes: &mut OpenScopes)
    ensures { scopes.new ≡ drop 1 scopes.old }
{
    let _closed = scopes.pop_front();
}

/// What is found of a name in the open scopes.
pub fn find(scopes: &OpenScopes, space: Space, name: u32) -> Look
    ensures { result ≡ looked space name scopes.now }
{
    let here = here(scopes, space, name);
    let seen = match here {
        Some(found) => Some(found),
        None => seen(scopes, space, name),
    };
    Look { here, seen }
}

fn here(scopes: &OpenScopes, space: Space, name: u32) -> Option<Found>
    ensures { result ≡ (looked space name scopes.now).here }
{
    let mut left = scopes.iter();
    match left.next() {
        Some(scope) => scope.said(space, name),
        None => None,
    }
}

fn seen(scopes: &OpenScopes, space: Space, name: u32) -> Option<Found>
    ensures { result ≡ (looked space name scopes.now).seen }
{
    let mut left = scopes.iter();
    while let Some(scope) = left.next() {
        if let Some(found) = scope.said(space, name) {
            return Some(found);
        }
    }
    None
}

/// Where names of some role are declared.
pub fn place_of(role: Role) -> Place
    ensures { result ≡ place_of role }
{
    match role {
        Role::Content => Place::WithContent,
        Role::Alone => Place::In(Space::Tag),
        Role::Mentioned => Place::In(Space::Tag),
        Role::Used => Place::Nowhere,
        _ => Place::In(Space::Ordinary),
    }
}

/// Notes what a name is known as, in each space where its role stands. The error is want of memory.
#[tactic(auto, using(crate::proofs::Noted::once, crate::proofs::Noted::both, crate::proofs::Noted::never))]
pub fn note(
    alloc: Global,
    scopes: &mut OpenScopes,
    name: u32,
    found: Found,
) -> Result<(), AllocError>
    ensures { OnOk result (IsNamed name found scopes.old scopes.new) }
{
    match place_of(found.role) {
        Place::Nowhere => Ok(()),
        Place::In(space) => note_in(alloc, scopes, space, name, found),
        Place::WithContent => {
            note_in(alloc, scopes, Space::Tag, name, found)?;
            note_in(alloc, scopes, Space::Content, name, found)
        }
    }
}

#[tactic(auto, using(crate::proofs::Noted::kept_noted, crate::proofs::Noted::put_noted))]
fn note_in(
    alloc: Global,
    scopes: &mut OpenScopes,
    space: Space,
    name: u32,
    found: Found,
) -> Result<(), AllocError>
    ensures { OnOk result (IsNoted space name found scopes.old scopes.new) }
{
    if keeps(find(scopes, space, name), found.role) {
        return Ok(());
    }
    let mut scope = take_top(alloc, scopes);
    scope.put(space, name, found)?;
    scopes.push_front(scope)?;
    Ok(())
}

fn keeps(look: Look, role: Role) -> bool
    ensures { result ≡ keeps look role }
{
    look.here.is_some() || (role == Role::Mentioned && look.seen.is_some())
}

fn take_top(alloc: Global, scopes: &mut OpenScopes) -> Scope
    ensures { IsTaken result scopes.new scopes.old }
{
    match scopes.pop_front() {
        Some(scope) => scope,
        None => Scope::new(alloc),
    }
}
