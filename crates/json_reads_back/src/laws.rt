ghost use Rattle.json_reads_back.specs.LinesCut.{AreOneLineEach};
ghost use Rattle.json_reads_back.specs.LinesRead.{AreListsReadBack, AreCellsReadBack};
ghost use Rattle.json_reads_back.specs.LinesRead.{AreRowsReadBack};

/// The text of a line of any list, read as JSON, is the object of its fields.
pub fn list_lines_are_read_back()
    ensures back { AreListsReadBack }
{}

/// The text of the line of a cell, read as JSON, is its object, where its value is one that a cell
/// holds.
pub fn cell_objects_are_read_back()
    ensures back { AreCellsReadBack }
{}

/// The text of the line of a row, as an array and as an object under any keys, read as JSON, is the
/// value of the row, where its values are ones that a cell holds.
pub fn row_lines_are_read_back()
    ensures back { AreRowsReadBack }
{}

/// The text of a value has no line feed, and the text of the lines of values, cut at its line
/// feeds, is a text for each value, in their order.
pub fn values_have_a_line_each()
    ensures { AreOneLineEach }
{}
