//! Laws of the command line: each is the clause of a function that does nothing.
ghost use Rattle.cr_main_words.specs.Laws.{HasOneSettings};
ghost use Rattle.cr_main_words.specs.RequestLaws.{HasOneRequest, HasPlainReductions};

/// Words give one settings at most.
pub fn words_are_read_in_one_way()
    ensures { HasOneSettings }
{}

/// Words ask for one thing at most.
pub fn words_ask_for_one_thing()
    ensures { HasOneRequest }
{}

/// Words ask for a plain reduction exactly where they have no flag and give its settings as they stand.
pub fn words_without_flag_are_read_as_they_stand()
    ensures { HasPlainReductions }
{}
