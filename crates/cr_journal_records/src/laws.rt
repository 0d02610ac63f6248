// Laws of the records.
ghost use Rattle.cr_journal_records.specs.Records.{ReadsOnce};

/// An image has one list of records that stand, and one rest behind them.
pub fn an_image_has_one_list_of_records()
    ensures { ReadsOnce }
{}
