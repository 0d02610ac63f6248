// The orders that were given and aren't gone past yet, each behind the one before it as it was guessed to end.
ghost use Rattle.std.specs.Prelude.{◌≡◌, ◌<◌, ◌≤◌, ◌+◌, ◌^◌, All, ℕ, length, IfSome};
ghost use Rattle.std.specs.Arc.{arc_value};
ghost use Rattle.cr_standing_workers.specs.Channels.{IsTrue};
ghost use Rattle.cr_standing.specs.Links.{FrontSays, LinkSays, SpotSays};

use crate::policy::Policy;
use cr_standing_workers::{Hint, Reply, Shared, Subject, Trial};
use std::alloc::Global;
use std::sync::Arc;

/// Where an order begins: at a position of a file, and what the walk will have come to there.
#[derive(Drop)]
pub struct Spot<T: Drop> {
    pub file: Arc<Shared<T>, Global>,
    /// How many positions the file has.
    pub count: u64,
    pub position: u64,
    /// Whether the round has accepted something.
    pub changed: bool,
    /// How many positions were looked at.
    pub turns: u64,
}

/// An order that was given, what is known of its positions, and what was guessed of its end.
#[derive(Drop)]
pub struct Link<T: Drop> {
    pub ticket: u64,
    pub spot: Spot<T>,
    /// The position of which something was said last. Those of the order before it are rejected.
    pub at: u64,
    pub said: Option<Trial>,
    /// Whether the question was asked about it.
    pub asked: bool,
    /// Whether the next order begins where this one ends by a yes, if there is a next one.
    pub guess: bool,
}

/// The orders, the first of them at the walk's position, and what further ones are given by.
#[derive(Drop)]
pub struct Chain<T: Drop> {
    pub links: Vec<Link<T>>,
    /// The next order's ticket.
    pub next: u64,
    /// How many orders are out: given, and not ended by a reply. Some may have been dropped.
    pub out: u64,
    pub policy: Policy,
}

/// What is known of the walk's position.
#[derive(Clone, Copy, Debug, Drop, PartialEq, Eq)]
pub enum Front {
    /// The positions before this one are rejected.
    Past(u64),
    /// This is the first that isn't, and it is accepted.
    Hit(u64),
    /// A worker couldn't decide it.
    Unsure,
    /// Nothing yet.
    Open,
    /// The first order is of another file, or of other positions.
    Other,
}

/// What a reply of this order says.
fn learn<S: Subject<T>, T: Drop>(link: &mut Link<T>, reply: &Reply<T>)
    requires is_true { IsTrue S.replies reply.now }
    requires says { LinkSays S.orders S.replies link.old }
    ensures says { LinkSays S.orders S.replies link.new }
{
    if reply.place.from != link.spot.position
        || reply.place.file.bytes.as_slice() != link.spot.file.bytes.as_slice()
    {
        return;
    }
    link.at = reply.at;
    link.said = Some(reply.trial);
    link.asked = reply.asked;
}

/// The place of an order in the chain.
fn place_of<T: Drop>(links: &[Link<T>], ticket: u64) -> Option<usize>
    ensures { IfSome result (λ i. i < length links.now) }
{
    for i in 0..links.len() {
        if links[i].ticket == ticket {
            return Some(i);
        }
    }
    None
}

/// Takes a reply, made under whatever guess. One whose order was dropped says nothing.
pub fn take_reply<S: Subject<T>, T: Drop>(links: &mut [Link<T>], reply: &Reply<T>) -> Option<usize>
    requires is_true { IsTrue S.replies reply.now }
    requires say { All (LinkSays S.orders S.replies) links.old }
    ensures say { All (LinkSays S.orders S.replies) links.new }
    ensures count { length links.new ≡ length links.old }
    ensures place { IfSome result (λ i. i < length links.new) }
{
    let i = place_of(links, reply.place.ticket)?;
    learn::<S, T>(&mut links[i], reply);
    Some(i)
}

/// Adds an order, of which nothing is known.
pub fn extend<S: Subject<T>, T: Drop>(links: &mut Vec<Link<T>>, ticket: u64, spot: Spot<T>) -> bool
    requires spot { SpotSays S.orders spot }
    requires say { All (LinkSays S.orders S.replies) links.old.items }
    ensures say { All (LinkSays S.orders S.replies) links.new.items }
{
    let at = spot.position;
    let link = Link {
        ticket,
        spot,
        at,
        said: None,
        asked: false,
        guess: false,
    };
    links.push(link).is_ok()
}

/// Drops the orders behind the first ones, so many.
pub fn drop_behind<S: Subject<T>, T: Drop>(hint: &Hint, chain: &mut Chain<T>, keep: usize)
    requires say { All (LinkSays S.orders S.replies) chain.old.links.items }
    ensures say { All (LinkSays S.orders S.replies) chain.new.links.items }
{
    if keep < chain.links.len() {
        hint.drop_tickets(chain.links[keep].ticket, chain.next);
        chain.links.truncate(keep);
    }
}

/// The walk has gone past the first order. Its answer counts, if it has one.
pub fn commit<S: Subject<T>, T: Drop>(chain: &mut Chain<T>, yes: bool)
    requires say { All (LinkSays S.orders S.replies) chain.old.links.items }
    ensures say { All (LinkSays S.orders S.replies) chain.new.links.items }
{
    if chain.links.len() > 0 {
        let link = chain.links.remove(0);
        chain.policy.count(link.asked, yes);
    }
}

/// The walk has gone over the positions before this one, and so past the first order, if that says nothing of those behind.
pub fn pass_by<S: Subject<T>, T: Drop>(chain: &mut Chain<T>, position: u64)
    requires say { All (LinkSays S.orders S.replies) chain.old.links.items }
    ensures say { All (LinkSays S.orders S.replies) chain.new.links.items }
{
    if chain.links.len() > 0 && chain.links[0].at < position {
        commit::<S, T>(chain, false);
    }
}

/// What an order's replies say of a position of its file.
fn known_of<S: Subject<T>, T: Drop>(link: &Link<T>, position: u64) -> Front
    requires says { LinkSays S.orders S.replies link.now }
    requires fits { position + 1 < 2 ^ 64 }
    ensures { FrontSays S.replies (arc_value link.now.spot.file).bytes.items position result }
{
    if position < link.spot.position || position > link.at {
        return Front::Other;
    }
    match link.said {
        Some(Trial::Yes) => Front::Hit(link.at),
        _ if position < link.at => Front::Past(link.at),
        Some(Trial::No) => Front::Past(position + 1),
        Some(Trial::Skipped) => Front::Unsure,
        Some(Trial::Asked) | None => Front::Open,
    }
}

/// What is known of a position of the file at hand, by whatever guess it was found out.
pub fn known_at<S: Subject<T>, T: Drop>(links: &[Link<T>], file: &Shared<T>, position: u64) -> Front
    requires say { All (LinkSays S.orders S.replies) links.now }
    requires fits { position + 1 < 2 ^ 64 }
    ensures { FrontSays S.replies file.now.bytes.items position result }
{
    if links.is_empty() {
        return Front::Other;
    }
    let link = &links[0];
    if link.spot.file.bytes.as_slice() != file.bytes.as_slice() {
        return Front::Other;
    }
    known_of::<S, T>(link, position)
}
