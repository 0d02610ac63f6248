ghost use Rattle.cr_syntax_machine_laws.specs.MachineLaws.{OneAnswer, LooksNoFurther, ReadIsSpelled, SpelledIsRead, OneTree, OneUnit, ReadIsLongest, RefusedEndsRun, RefusedWithin, BeginsBefore, EndedIsNone, AnswersAreReadings, OneReading, OneFirstRefusal, TreeIsNotRefused, MachineReadsUnits};

/// A law: the parser's machine reads the grammar's expressions, and nothing else.
///
/// A program has one answer, and looks at no token behind the one at which it answers. What it reads is spelled; what is
/// spelled it reads, where no token behind goes on with an expression. What it reads is the longest run of tokens that
/// begins a text. No text goes on with a token that it refuses: where a level too many is the cause, none within the limit.
/// The tokens before a refused one begin a text within the limit, and where the end is refused they spell no tree. All in
/// all what it answers is what reading an expression in the middle of a text promises.
pub fn machine_is_grammar()
    ensures one_answer { OneAnswer }
    ensures no_further { LooksNoFurther }
    ensures sound { ReadIsSpelled }
    ensures complete { SpelledIsRead }
    ensures longest { ReadIsLongest }
    ensures refused { RefusedEndsRun }
    ensures within { RefusedWithin }
    ensures viable { BeginsBefore }
    ensures ended { EndedIsNone }
    ensures readings { AnswersAreReadings }
{}

/// A law: what the machine of the subset answers of a file is the tree of its tokens, or their first refusal.
pub fn machine_is_units()
    ensures { MachineReadsUnits }
{}

/// A law: the tokens up to the end of a list spell at most one expression.
pub fn one_tree()
    ensures { OneTree }
{}

/// A law: the tokens of a unit have one tree, whatever the limit.
pub fn one_unit()
    ensures { OneUnit }
{}

/// A law: a start has at most one reading.
pub fn one_reading()
    ensures { OneReading }
{}

/// A law: a token list that the machine of the subset refuses has no other first refusal, and none where it has a tree.
pub fn one_first_refusal()
    ensures only { OneFirstRefusal }
    ensures tree { TreeIsNotRefused }
{}
