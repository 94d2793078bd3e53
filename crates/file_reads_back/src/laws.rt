ghost use Rattle.std.specs.Prelude.{◌≡◌, ◌≤◌, ℕ, List, Some, String, length};
ghost use Rattle.std.specs.declared.alloc.Global.{Global};
ghost use Rattle.cell_data.specs.Words.{value_pairs, formula_pairs};
ghost use Rattle.cell_data.specs.declared.range.Range.{Range};
ghost use Rattle.cell_data.specs.declared.value.Data.{Data};
ghost use Rattle.part_events.specs.Words.{Part};
ghost use Rattle.input_package.specs.Reading.{package_of_input};
ghost use Rattle.package_file.specs.PackageFile.{package_file, longest_file};
ghost use Rattle.text_package.specs.PartSpelling.{IsPartText};
ghost use Rattle.xlsx_writer.specs.Words.{IsWritable, written_parts};
ghost use Rattle.xlsx_writer.specs.declared.form.WrittenForm.TheVariants.{WorkbookFile};
ghost use Rattle.xlsx_writer_as_markup.specs.WrittenPieces.{HaveNoZero};
ghost use Rattle.xlsx_commands.specs.Words.{resave_file, IsOutput};
ghost use Rattle.file_reads_back.specs.FilePackages.{IsFilePackage, FileReadsBack, HasSameSheet};

use round_trip::written_packages_read_back;
use xlsx_writer_as_markup::written_parts_are_cut_back;
use zip_reads_back::written_archives_read_back;

/// The workbook file that is written of a package, as an input, is that package, where its parts
/// are markup and their names are names of parts.
pub fn package_files_are_read_back()
    ensures { (parts : List Part) →
        IsFilePackage parts → package_of_input (package_file parts) ≡ Some parts }
{
    written_archives_read_back();
}

/// What is written of values and formulas as a workbook file, as an input, is the package that was
/// written, which opens, and its sheet of this name has these values and formulas. The name and the
/// texts have no character 0 that isn't written as an escape, and the file has no more bytes than
/// one may have.
pub fn written_files_are_read_back()
    ensures { (name : List ℕ) (values : Range Data) (formulas : Range (String Global)) →
        IsPartText name → HaveNoZero WorkbookFile values formulas → IsWritable values formulas →
        length (package_file (written_parts WorkbookFile name (value_pairs values)
        (formula_pairs formulas))) ≤ longest_file →
        FileReadsBack name (value_pairs values) (formula_pairs formulas) }
{
    package_files_are_read_back();
    written_parts_are_cut_back();
    written_packages_read_back();
}

/// The output of `resave NAME --xlsx`, as an input, is a package whose sheet NAME has the values
/// and the formulas of the sheet that it was written of.
pub fn resaved_files_are_read_back()
    ensures { (parts : List Part) (name output : List ℕ) →
        IsOutput (resave_file name) parts output → HasSameSheet parts name output }
{
    written_files_are_read_back();
}
