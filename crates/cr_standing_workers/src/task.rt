// What is searched for, by which passes, law and question.

/// What all threads of a reduction share: what they propose variants by, what they rule on them by, and what they ask about them.
#[derive(Drop)]
pub struct Task<'a, P, L, Q> {
    pub passes: &'a P,
    pub law: &'a L,
    pub question: &'a Q,
    /// The file's own name, under which a test sees each variant.
    pub name: &'a str,
}
