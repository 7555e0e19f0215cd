//! Where the lines of a source stand. The functions do nothing: their contracts are the laws.

ghost use Rattle.claims_texts.specs.Standing.{SizesAreBytes, DataStandsAtItsBase, LinesStandWhereTheyAreMeant, LinesStandInOrder, LabelsStandWhereTheirLinesDo, AllLabelsAreFound, LabelsStandInOrder, NumbersStandWhereTheyAreMeant, SpacesAreZeros, AlignmentsAreFilled};

/// The sizes by which the lines and labels of a source are placed are those of the bytes that it becomes.
pub fn sizes_are_bytes()
    ensures { SizesAreBytes }
{}

/// The data begins at the address from which the addresses of its labels are reckoned.
pub fn data_stands_at_its_base()
    ensures { DataStandsAtItsBase }
{}

/// Each instruction of a program is one that a line of the source means, and it stands at the address from which the
/// line's offsets were reckoned.
pub fn lines_stand_where_they_are_meant()
    ensures { LinesStandWhereTheyAreMeant }
{}

/// A program's lines are in the order of the source and of their addresses, none twice.
pub fn lines_stand_in_order()
    ensures { LinesStandInOrder }
{}

/// The address of a label is that of what stands behind it.
pub fn labels_stand_where_their_lines_do()
    ensures { LabelsStandWhereTheirLinesDo }
{}

/// A program has each label of its source.
pub fn all_labels_are_found()
    ensures { AllLabelsAreFound }
{}

/// A program's labels are in the order of the source, each once.
pub fn labels_stand_in_order()
    ensures { LabelsStandInOrder }
{}

/// The bytes of each number of a line stand from the line's place on.
pub fn numbers_stand_where_they_are_meant()
    ensures { NumbersStandWhereTheyAreMeant }
{}

/// `.space size` puts `size` zeros at its line's place.
pub fn spaces_are_zeros()
    ensures { SpacesAreZeros }
{}

/// `.align power` fills up to the next multiple with nops or zeros.
pub fn alignments_are_filled()
    ensures { AlignmentsAreFilled }
{}
