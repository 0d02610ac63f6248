//! What a reader expects of the run of a file's typed unit. The program calls none of these functions.
ghost use Rattle.cr_meaning_files.specs.Assembled as assembled;
ghost use Rattle.cr_meaning_files.specs.Files as files;
ghost use Rattle.cr_meaning_files.specs.Laws as laws;

/// Whatever is assembled of a unit that breaks no constraint fits.
pub fn assembled_units_fit()
    ensures { assembled.AssembledUnitsFit }
{}

/// What is assembled of a unit that breaks no constraint is the file's typed unit.
pub fn assembled_units_are_typed()
    ensures { assembled.AssembledUnitsAreTyped }
{}

/// What a run may reach has its operands, its statements and its declarators with it.
pub fn nodes_are_told()
    ensures { laws.AreTold }
{}

/// With a node a run may reach what is evaluated with it.
pub fn runs_are_closed()
    ensures { laws.AreClosed }
{}

/// Each expression of a file's unit has a value, where what it reads of names and members is known.
pub fn expressions_are_worth()
    ensures { laws.AreWorth }
{}

/// An enumerator that a name stands for lies in int.
pub fn enumerators_are_numbers()
    ensures { laws.EnumeratorsAreNumbers }
{}

/// The body of main is a block, which a run reaches.
pub fn mains_are_defined()
    ensures { laws.MainsAreDefined }
{}

/// The label of a goto is one of a block around it.
pub fn labels_stand_around()
    ensures { laws.LabelsStandAround }
{}

/// A declarator sees the object that it declares.
pub fn declarators_see_objects()
    ensures { laws.DeclaratorsSeeObjects }
{}

/// A name sees the object of a block or a `for` that it names.
pub fn names_see_objects()
    ensures { laws.NamesSeeObjects }
{}

/// A name that a run may reach, also a called one, is told once.
pub fn reached_names_are_told_once()
    ensures { laws.ReachedNamesAreToldOnce }
{}

/// What is executed before main names no automatic object.
pub fn early_names_last()
    ensures { laws.EarlyNamesLast }
{}

/// An automatic object is declared in a block or a `for`, or is a parameter of a definition.
pub fn automatic_objects_are_entered()
    ensures { laws.AutomaticObjectsAreEntered }
{}

/// A name that is used as a place names an object of the program, with whole cells.
pub fn places_name_objects()
    ensures { laws.PlacesNameObjects }
{}

/// The run of a file's typed unit comes to a status, or to a numbered case at a node, and never to operands that no program has.
pub fn files_have_outcomes()
    ensures { files.FilesHaveOutcomes }
{}

/// The program of a file's typed unit is well typed.
pub fn files_are_well_typed()
    ensures { files.FilesAreWellTyped }
{}

/// Where its order is fixed, its run comes to one end in whatever order operands, arguments and initialisers are evaluated.
pub fn fixed_files_run_alike()
    ensures { files.FixedFilesRunAlike }
{}

/// An object of the program that declarations declare has the cells of its type.
pub fn objects_have_whole_cells()
    ensures { laws.ObjectsHaveWholeCells }
{}

/// And what stands for it names whole cells.
pub fn nodes_name_whole_cells()
    ensures { laws.NodesNameWholeCells }
{}
