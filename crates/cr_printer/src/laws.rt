ghost use Rattle.cr_printer.specs.Laws.{PrintsOneText, JoinedIsPrinted, PrintedIsRead, ThreeDotsAreLost, NeighboursStayApart, PrintedIsNoLonger, DotsHaveNames, PrintedPartIsRead, PrintedIsUnit};

/// A law: a list of spellings prints as one text at most.
pub fn prints_one_text()
    ensures { PrintsOneText }
{}

/// A law: tokens joined by `needs_space` of pass i are what they print as, so neither has a space that the other has not.
pub fn joined_is_printed()
    ensures { JoinedIsPrinted }
{}

/// A law: reading what a list of tokens prints as gives the list back, where no three dots stand in a row in it.
pub fn printed_is_read()
    ensures { PrintedIsRead }
{}

/// A law: where three dots stand in a row in the list, reading what it prints as gives another list.
pub fn three_dots_are_lost()
    ensures { ThreeDotsAreLost }
{}

/// A law: tokens that stand side by side in a file stay apart.
pub fn neighbours_stay_apart()
    ensures { NeighboursStayApart }
{}

/// A law: tokens of a file in a row print as a text that is no longer than the file.
pub fn printed_is_no_longer()
    ensures { PrintedIsNoLonger }
{}

/// A law: in a unit each dot has an identifier behind it.
pub fn dots_have_names()
    ensures { DotsHaveNames }
{}

/// A law: reading what tokens of a unit in a row print as gives these tokens back.
pub fn printed_part_is_read()
    ensures { PrintedPartIsRead }
{}

/// A law: reading what a unit prints as gives a unit with the same kinds and parts.
pub fn printed_is_unit()
    ensures { PrintedIsUnit }
{}
