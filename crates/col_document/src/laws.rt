//! What holds of the definitions, as facts of their own.
ghost use Rattle.col_document.specs.Laws.{DocumentHoldsItsCells, IsReadFromItsSpelling};
ghost use Rattle.col_document.specs.Laws.{IsSpelledInOneWay, NamesItsCount, NamesItsPosition};
ghost use Rattle.col_document.specs.Laws.{NamesItsStep};

/// A list of items leaves a tree exactly where it is the tree's spelling in postfix order, and the
/// tree has at most 256 levels.
pub fn a_tree_is_spelled_in_one_way()
    ensures { IsSpelledInOneWay }
{}

/// A JSON list is read as a tree exactly where its items are the tree's spelling, and the tree has
/// at most 256 levels.
pub fn a_tree_is_read_from_its_spelling()
    ensures { IsReadFromItsSpelling }
{}

/// A text names a count exactly where it is the count's digits, and the count lies below 2^32.
pub fn a_count_is_its_digits()
    ensures { NamesItsCount }
{}

/// A column's name tells a position exactly where it is `c` and the position's digits.
pub fn a_column_name_is_its_position()
    ensures { NamesItsPosition }
{}

/// A text names a step exactly where it is the step's own name.
pub fn a_step_is_read_from_its_name()
    ensures { NamesItsStep }
{}

/// Each cell of a document's table is one of its column's type.
pub fn a_document_holds_its_cells()
    ensures { DocumentHoldsItsCells }
{}
