ghost use Rattle.cr_syntax.specs.Laws.{TableIsGrammar, GrammarIsTable, ReadIsUnit, UnitIsRead, LatestDecides, OthersStay, TokensAreSpans};

/// A law: each kind of node has one alternative, which a table gives.
pub fn table_is_grammar()
    ensures each { TableIsGrammar }
    ensures only { GrammarIsTable }
{}

/// A law: reading a tree by recursion on it, node by node, takes exactly the units of the grammar.
pub fn reading_is_spelling()
    ensures sound { ReadIsUnit }
    ensures complete { UnitIsRead }
{}

/// A law: of the declarations of a name in one scope the latest decides whether it is a type, and it bears on no other name.
pub fn latest_declaration_decides()
    ensures latest { LatestDecides }
    ensures others { OthersStay }
{}

/// A law: the tokens of a file are parts of it, as `word_at` asks.
pub fn tokens_are_spans()
    ensures { TokensAreSpans }
{}
