// Laws of the form.
ghost use Rattle.cr_log.specs.Laws.{LogOrBadLine, OneBadLine, OneLog, ReadsBack};

/// A text is one log, or has one first line that isn't in the form, and never both.
pub fn a_text_is_read_in_one_way()
    ensures one_log { OneLog }
    ensures one_line { OneBadLine }
    ensures apart { LogOrBadLine }
{}

/// The log text of an end says what was accepted and how it ended, so `read_log` gives these back.
pub fn a_log_text_is_a_log()
    ensures { ReadsBack }
{}
