/// What a name stands for where it is written.
#[derive(Clone, Copy, PartialEq, Eq)]
pub enum Role {
    // Declarations of ordinary identifiers
    /// an object of a declaration without `extern` and `typedef`
    Object,
    /// the same with `extern`
    ExternObject,
    /// a function, by its own declarator (C11 6.7.6.3)
    Function,
    /// a typedef name (6.7.8)
    Typedef,
    /// a parameter (6.7.6.3)
    Parameter,
    /// an enumerator (6.7.2.2)
    Enumerator,
    // Tags (6.7.2.3)
    /// the tag of a structure's or an enumeration's content
    Content,
    /// the tag of `struct T;`, which declares it
    Alone,
    /// a tag elsewhere, which declares it where none is in scope
    Mentioned,
    // Uses of ordinary identifiers
    /// an identifier in an expression, a called name or a typedef name
    Used,
}

/// What a walk over a unit comes to. Tokens and nodes are named by their numbers.
#[derive(Clone, Copy)]
pub enum Event {
    /// a node
    Node(u32),
    /// a scope begins: a block or a list of parameters
    Opens,
    /// the innermost scope ends
    Closes,
    /// an identifier's token, where its scope begins or where it is used
    Name(u32, Role),
    /// the token that declares a member, and the node of its structure's content
    Member(u32, u32),
}

/// What is done at a node.
#[derive(Clone, Copy)]
pub enum Step {
    /// an event
    Happens(Event),
    /// all that is done at a part
    Inside(u32),
}
