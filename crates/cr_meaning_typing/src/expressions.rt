//! What a reader expects of the operations of expressions. The program calls none of these functions.
ghost use Rattle.cr_meaning_typing.specs.Expressions.Operators.{ShiftsAreGood, DifferencesAreGood, OrdersAreGood, EqualitiesAreGood, JunctionsAreGood};
ghost use Rattle.cr_meaning_typing.specs.Expressions.Operators.{NegationsAreGood, CastsAreGood, ConditionalsAreGood, CommasAreGood, UpdatesAreGood, StepsAreGood};
ghost use Rattle.cr_meaning_typing.specs.Expressions.Places.{ConstantsAreGood, LiteralsAreGood, GroupsAreGood, SubscriptsAreGood};
ghost use Rattle.cr_meaning_typing.specs.Expressions.Places.{MembersAreGood, PointerMembersAreGood, AddressesAreGood, FollowedAreGood};

/// Of shifts (K31).
pub fn shifts_are_good()
    ensures { ShiftsAreGood }
{}

/// Of differences (K30), of integers, of pointers, and of a pointer and an integer.
pub fn differences_are_good()
    ensures { DifferencesAreGood }
{}

/// Of `<`, `>`, `<=` and `>=` (K32), of integers and of pointers.
pub fn orders_are_good()
    ensures { OrdersAreGood }
{}

/// Of `==` and `!=` (K33), also of a pointer and a null pointer constant.
pub fn equalities_are_good()
    ensures { EqualitiesAreGood }
{}

/// Of `&&` and `||` (K35).
pub fn junctions_are_good()
    ensures { JunctionsAreGood }
{}

/// Of `!` (K25).
pub fn negations_are_good()
    ensures { NegationsAreGood }
{}

/// Of casts (K27).
pub fn casts_are_good()
    ensures { CastsAreGood }
{}

/// Of `?:` (K36).
pub fn conditionals_are_good()
    ensures { ConditionalsAreGood }
{}

/// Of commas.
pub fn commas_are_good()
    ensures { CommasAreGood }
{}

/// Of compound assignments (K37).
pub fn updates_are_good()
    ensures { UpdatesAreGood }
{}

/// Of `++` and `--` (K22).
pub fn steps_are_good()
    ensures { StepsAreGood }
{}

/// Of constants, enumerators and `sizeof` (K26).
pub fn constants_are_good()
    ensures { ConstantsAreGood }
{}

/// Of string literals.
pub fn literals_are_good()
    ensures { LiteralsAreGood }
{}

/// Of brackets.
pub fn groups_are_good()
    ensures { GroupsAreGood }
{}

/// Of subscripts (K19).
pub fn subscripts_are_good()
    ensures { SubscriptsAreGood }
{}

/// Of `.` (K20), in a place and in a structure that is none.
pub fn members_are_good()
    ensures { MembersAreGood }
{}

/// Of `->` (K21).
pub fn pointer_members_are_good()
    ensures { PointerMembersAreGood }
{}

/// Of `&` (K23).
pub fn addresses_are_good()
    ensures { AddressesAreGood }
{}

/// Of `*` (K24).
pub fn followed_are_good()
    ensures { FollowedAreGood }
{}
