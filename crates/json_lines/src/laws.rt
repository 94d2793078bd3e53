ghost use Rattle.json_lines.specs.JsonLines.{AreReadBack};

/// The text of a value, read as JSON, is the value: where each number's text is a number of JSON,
/// and the value nests no deeper than the reader of `json` goes.
pub fn json_lines_are_read_back()
    ensures back { AreReadBack }
{}
