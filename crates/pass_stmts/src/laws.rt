// Laws of the printed unit: each is the contract of a function that does nothing but name the laws it rests on.
ghost use Rattle.pass_stmts.specs.Laws.{HasOnePrintedOffering, TheTextIsTheVariant};

use cr_printer::prints_one_text;

/// The variant of pass f is the printed text.
pub fn the_text_is_the_variant()
    ensures { TheTextIsTheVariant }
{}

/// A file's tokens have one offering of the printed unit.
pub fn one_printed_offering()
    ensures { HasOnePrintedOffering }
{
    prints_one_text();
}
