// Laws of the passes: each is the contract of a function that does nothing but name the laws it rests on.
ghost use Rattle.pass_text.specs.Laws.{HasFewBrackets, HasOneBracketOffering, LinesGoByAChange};

use pass_edit::lines_need_no_seam;

/// A variant of the lines pass is an edit of one change.
pub fn lines_go_by_a_change()
    ensures { LinesGoByAChange }
{
    lines_need_no_seam();
}

/// A file's tokens have one offering of brackets.
pub fn one_bracket_offering()
    ensures { HasOneBracketOffering }
{}

/// A level of the brackets has no more edits than the file has bytes.
pub fn few_brackets()
    ensures { HasFewBrackets }
{}
