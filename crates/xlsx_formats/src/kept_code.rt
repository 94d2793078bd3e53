ghost use Rattle.std.specs.Prelude.{◌≡◌, string_bytes};
ghost use Rattle.cell_data.specs.Words.{custom_format};

use cell_data::{CellFormat, detect_custom_number_format};

/// The code of a number format, and what it makes of a number, which is found once, when the code
/// is kept: any number of cell formats may name it.
#[derive(Debug, Drop)]
pub struct KeptCode {
    pub code: String,
    pub format: CellFormat,
    pub ghost detected: { format ≡ custom_format (string_bytes code) },
}

impl KeptCode {
    pub fn new(code: String) -> KeptCode
        ensures { result.code ≡ code }
    {
        let format = detect_custom_number_format(&code);
        KeptCode { code, format }
    }
}
