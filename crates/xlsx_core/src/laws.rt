ghost use Rattle.std.specs.Prelude.{◌≡◌, ℕ, Bool, List, Option, Some, String};
ghost use Rattle.part_events.specs.Words.{Part};
ghost use Rattle.cell_data.specs.Words.{CellValue, bounds_of, value_pairs, place_pairs};
ghost use Rattle.cell_data.specs.Words.{formula_pairs};
ghost use Rattle.cell_data.specs.declared.range.Range.{Range};
ghost use Rattle.cell_data.specs.declared.value.Data.{Data};
ghost use Rattle.cell_data.specs.declared.value.DataRef.{DataRef};
ghost use Rattle.cell_data.specs.declared.value.HeaderRow.{HeaderRow};
ghost use Rattle.xlsx_error.specs.declared.error.XlsxError.{XlsxError};
ghost use Rattle.looks.specs.Words.{look_said, LookCause};
ghost use Rattle.cell_refs.specs.declared.dimensions.Dimensions.{Dimensions};
ghost use Rattle.cell_styles.specs.Words.{StyleMap};
ghost use Rattle.xlsx_core.specs.Agreement.{HaveSameSheet};
ghost use Rattle.xlsx_core.specs.SheetReading.{SayTheSame, ReadsAs, IsReadable, SheetCause};
ghost use Rattle.xlsx_core.specs.SheetReading.{PlacedCause};
ghost use Rattle.xlsx_areas.specs.Hyperlinks.{Link};
ghost use Rattle.xlsx_core.specs.Links.{placed_links_look};
ghost use Rattle.xlsx_core.specs.Listing.{IsListedAs, IsLeftOut};
ghost use Rattle.xlsx_core.specs.ShownTable.{ShowsValuesIn};
ghost use Rattle.xlsx_core.specs.TableData.{ReadsValuesIn, ReadsPlacesIn};
ghost use Rattle.xlsx_core.specs.Worksheets.{HasLeastRanges, ReadsValues, ReadsPlaces};
ghost use Rattle.xlsx_core.specs.Worksheets.{ReadsFormulas, ReadsStyles, RangeCause};
ghost use Rattle.xlsx_cells.specs.Words.{values_alone, formulas_alone, styles_alone};
ghost use Rattle.xlsx_cells.specs.Words.{values_and_styles, SheetPartCause, with_texts};
ghost use Rattle.cell_styles.specs.declared.style.Style.{Style};
ghost use Rattle.std.specs.declared.alloc.Global.{Global};
ghost use Rattle.xlsx_open.specs.Words.{SharedSaid};
ghost use Rattle.xlsx_workbook.specs.declared.sheet.Sheet.{Sheet};
ghost use Rattle.xlsx_core.specs.declared.sheet_reading.SheetReading.{SheetReading};
ghost use Rattle.xlsx_values.specs.Words.{ValueContext};

/// A sheet that can be read has no cause to be refused.
pub fn readable_sheets_are_not_refused()
    ensures never { (parts : List Part) (name : List ℕ)
        (values : List ((ℕ × ℕ) × CellValue)) (formulas : List ((ℕ × ℕ) × List ℕ))
        (styles : StyleMap) (error : XlsxError) → ReadsAs parts name values formulas styles →
        SheetCause parts name error → ⊥ }
{}

/// A sheet is read in one way: as the same values and formulas, in the same areas, and styles that
/// say the same.
pub fn sheets_are_read_alike()
    ensures alike { (parts : List Part) (name : List ℕ)
        (values others : List ((ℕ × ℕ) × CellValue))
        (formulas more : List ((ℕ × ℕ) × List ℕ)) (styles again : StyleMap) →
        ReadsAs parts name values formulas styles → ReadsAs parts name others more again →
        (values ≡ others) × (formulas ≡ more) × SayTheSame styles again }
    ensures areas { (parts : List Part) (name : List ℕ) (one two : SheetReading) →
        ReadsAs parts name (value_pairs one.values) (formula_pairs one.formulas) one.styles →
        ReadsAs parts name (value_pairs two.values) (formula_pairs two.formulas) two.styles →
        HasLeastRanges one → HasLeastRanges two → (bounds_of one.values ≡ bounds_of two.values)
        × (bounds_of one.formulas ≡ bounds_of two.formulas) }
{}

/// Two packages that have the same parts where a sheet is read from are read alike: the sheet of
/// both is readable or that of none, as the same values and formulas, and styles that say the same.
pub fn sheets_go_by_their_parts()
    ensures onward { (one two : List Part) (name : List ℕ) → HaveSameSheet one two name →
        IsReadable one name → IsReadable two name }
    ensures back { (one two : List Part) (name : List ℕ) → HaveSameSheet one two name →
        IsReadable two name → IsReadable one name }
    ensures alike { (one two : List Part) (name : List ℕ)
        (values others : List ((ℕ × ℕ) × CellValue))
        (formulas more : List ((ℕ × ℕ) × List ℕ)) (styles again : StyleMap) →
        HaveSameSheet one two name → ReadsAs one name values formulas styles →
        ReadsAs two name others more again →
        (values ≡ others) × (formulas ≡ more) × SayTheSame styles again }
{}

/// Of one sheet the range of values is the range with shared strings by their places, with the
/// texts put in, in the same area.
pub fn ranges_differ_by_texts()
    ensures { (context : ValueContext) (header : HeaderRow) (path : Option (List ℕ))
        (parts : List Part) (one : Range DataRef) (two : Range Data) →
        ReadsPlaces context header path parts one → ReadsValues context header path parts two →
        (value_pairs two ≡ with_texts context.strings (place_pairs one))
        × (bounds_of two ≡ bounds_of one) }
{}

/// What is read of a worksheet of an open workbook has no cause to be refused, whatever the rest of
/// its cells says: formulas at fault are no cause for values, and so on.
pub fn worksheets_that_are_read_are_not_refused()
    ensures values { (context : ValueContext) (header : HeaderRow) (name : List ℕ)
        (path : Option (List ℕ)) (parts : List Part) (range : Range Data) (error : XlsxError) →
        ReadsValues context header path parts range →
        RangeCause name values_alone context path parts error → ⊥ }
    ensures places { (context : ValueContext) (header : HeaderRow) (name : List ℕ)
        (path : Option (List ℕ)) (parts : List Part) (range : Range DataRef)
        (error : XlsxError) → ReadsPlaces context header path parts range →
        RangeCause name values_alone context path parts error → ⊥ }
    ensures formulas { (context : ValueContext) (name : List ℕ) (path : Option (List ℕ))
        (parts : List Part) (range : Range (String Global)) (error : XlsxError) →
        ReadsFormulas path parts range →
        RangeCause name formulas_alone context path parts error → ⊥ }
    ensures styles { (context : ValueContext) (palette : List Style) (name : List ℕ)
        (path : Option (List ℕ)) (parts : List Part) (styles : StyleMap) (error : XlsxError) →
        ReadsStyles palette path parts styles →
        PlacedCause name path (SheetPartCause styles_alone context) parts error → ⊥ }
{}

/// A sheet whose hyperlinks are taken has no cause to be refused for them.
pub fn links_that_are_taken_are_not_refused()
    ensures { (name : List ℕ) (path : Option (List ℕ)) (parts : List Part) (links : List Link)
        (error : XlsxError) → look_said (placed_links_look name path) parts ≡ Some links →
        LookCause (placed_links_look name path) parts error → ⊥ }
{}

/// No sheet that is listed with its range is one that is left out.
pub fn worksheets_are_listed_or_left_out()
    ensures { (context : ValueContext) (header : HeaderRow) (place : List ℕ → Option (List ℕ))
        (parts : List Part) (sheet : Sheet) (listed : String Global × Range Data) →
        IsListedAs context header place parts sheet listed →
        IsLeftOut context place parts sheet → ⊥ }
{}

/// What is read of a sheet for the data of a table has no cause to be refused.
pub fn table_data_that_are_read_are_not_refused()
    ensures values { (context : ValueContext) (header : HeaderRow) (name : List ℕ)
        (area : Dimensions) (path : Option (List ℕ)) (parts : List Part) (range : Range Data)
        (error : XlsxError) → ReadsValuesIn context header (Some area) path parts range →
        RangeCause name values_alone context path parts error → ⊥ }
    ensures places { (context : ValueContext) (header : HeaderRow) (name : List ℕ)
        (area : Dimensions) (path : Option (List ℕ)) (parts : List Part)
        (range : Range DataRef) (error : XlsxError) →
        ReadsPlacesIn context header (Some area) path parts range →
        RangeCause name values_alone context path parts error → ⊥ }
    ensures shown { (context : ValueContext) (shared : SharedSaid) (is_1904 : Bool)
        (header : HeaderRow) (name : List ℕ) (area : Dimensions) (path : Option (List ℕ))
        (parts : List Part) (range : Range Data) (error : XlsxError) →
        ShowsValuesIn context shared is_1904 header (Some area) path parts range →
        RangeCause name values_and_styles context path parts error → ⊥ }
{}
