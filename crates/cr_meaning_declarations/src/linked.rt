//! Laws of the declarations of a file's unit. The program calls none of these functions.
ghost use Rattle.cr_meaning_declarations.specs.Linked.Laws.{ColumnsFindTheDeclarationBefore, DeclaratorsAreInOrder, TokensAreOfOneSort, ValuesShareEntities};

/// A token is told as a value, as a type or as a tag alone.
pub fn tokens_are_of_one_sort()
    ensures { TokensAreOfOneSort }
{}

/// What declares the entity of an object or a function declares an object or a function.
pub fn values_share_entities()
    ensures { ValuesShareEntities }
{}

/// Of two declarators of declarations the one whose name stands first has the lesser number.
pub fn declarators_are_in_order()
    ensures { DeclaratorsAreInOrder }
{}

/// What is known as the declaration before a declarator is that of the token before it.
pub fn columns_find_the_declaration_before()
    ensures { ColumnsFindTheDeclarationBefore }
{}
