// Laws of the form.
ghost use Rattle.cr_journal_rows.specs.Forms.{OneHeader, OneRow};

/// Two rows with one body are one, and so are two headers: what is written is what is read back.
pub fn a_body_is_of_one_row()
    ensures row { OneRow }
    ensures header { OneHeader }
{}
