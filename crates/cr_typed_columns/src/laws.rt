ghost use Rattle.cr_typed_columns.specs.Laws.{OneTyped};

/// A law: of two checks that are alike, whatever tables their types stand in, the typed units are the same.
pub fn one_typed()
    ensures { OneTyped }
{}
