ghost use Rattle.cr_scopes_events.specs.Events.{EventsAreScripted};
ghost use Rattle.cr_scopes_events.specs.Declarators.{DeclaratorsAreRuled};

/// Laws: the events of a node are what its script says, and a declarator declares what its kind says of the inner one.
#[tactic(auto, using(crate::proofs::Walks::events_ruled, crate::proofs::Descents::declarator_ruled))]
pub fn nodes_are_ruled()
    ensures events { EventsAreScripted }
    ensures declarators { DeclaratorsAreRuled }
{}
