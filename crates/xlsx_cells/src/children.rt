ghost use Rattle.std.specs.Prelude.{◌≡◌, true, false, Ok, IfOk, OnOk, IfErr};
ghost use Rattle.part_events.specs.Words.{tag_of, IsReadingElement, ReadsElement, Element};
ghost use Rattle.xlsx_error.specs.declared.error.XlsxError.TheVariants.{Io};
ghost use Rattle.cell_data.specs.declared.format.CellFormat.{CellFormat};
ghost use Rattle.xlsx_values.specs.Words.{CellKind, ValueContext as ContextSaid};
ghost use Rattle.xlsx_sections.specs.Words.{or_earlier};
ghost use Rattle.xlsx_formulas.specs.Words.{covers_of, last_seen, covers_seen};
ghost use Rattle.xlsx_cells.specs.Children.{StandsAtElement, value_kept, IsNamedAs, value_name};
ghost use Rattle.xlsx_cells.specs.Children.{ChildFails, ChildFailsBy, ContentsFail, LastStep};
ghost use Rattle.xlsx_cells.specs.Children.{ReadsFormula, child_said, TakesChild, ReadsContents};
ghost use Rattle.xlsx_cells.specs.declared.children.ChildName.TheVariants.{Formula};
ghost use Rattle.xlsx_cells.specs.CellErrors.{IsCellError};
ghost use Rattle.xlsx_cells.specs.Ends.{reads_children};

use cell_data::{CellFormat, DataRef};
use part_events::{Package, StartTag, XlReader};
use xlsx_error::XlsxError;
use xlsx_formulas::{SharedFormulas, read_formula};
use xlsx_sections::{next_child_in, skip_element_in, start_tag};
use xlsx_values::{CellType, ValueContext, read_inline, read_value};

/// What is wanted of each cell beside its position.
#[derive(Clone, Copy, Debug, PartialEq, Eq)]
pub struct Wants {
    pub values: bool,
    pub formulas: bool,
    /// The style ids.
    pub styles: bool,
}

impl Wants {
    /// The values alone.
    pub const VALUES: Wants = Wants {
        values: true,
        formulas: false,
        styles: false,
    };

    /// The formulas alone.
    pub const FORMULAS: Wants = Wants {
        values: false,
        formulas: true,
        styles: false,
    };

    /// The style ids alone.
    pub const STYLES: Wants = Wants {
        values: false,
        formulas: false,
        styles: true,
    };

    /// Values and style ids.
    pub const VALUES_AND_STYLES: Wants = Wants {
        values: true,
        formulas: false,
        styles: true,
    };

    /// Values and formulas.
    pub const VALUES_AND_FORMULAS: Wants = Wants {
        values: true,
        formulas: true,
        styles: false,
    };

    /// All that a cell has.
    pub const ALL: Wants = Wants {
        values: true,
        formulas: true,
        styles: true,
    };
}

/// What the start of a cell says.
#[derive(Debug, Drop)]
pub struct CellStart {
    /// The row and the column, counted from 0.
    pub pos: (u32, u32),
    /// 0 where it isn't wanted.
    pub style_id: usize,
    pub format: CellFormat,
    pub typ: CellType,
}

/// What the children of a cell say: the last value that counts, and the last formula as it is
/// written.
#[derive(Debug, Drop)]
pub struct CellContents {
    pub value: Option<DataRef>,
    pub formula: Option<xlsx_formulas::Formula>,
}

/// What is asked for, and what the values rest on.
#[derive(Clone, Copy)]
pub struct Asked<'a> {
    pub wants: Wants,
    pub book: ValueContext<'a>,
    /// How many styles there are: a style id counts above 0 and below this.
    pub style_count: usize,
    /// Whether the formulas of groups are kept, where formulas are wanted, for later cells.
    pub keeps_masters: bool,
}

/// What a child of a cell is by its name.
#[derive(Clone, Copy, Debug)]
enum ChildName {
    Formula,
    Value,
    Inline,
    Stray,
}

fn child_name(tag: StartTag<'_>) -> ChildName
    ensures { IsNamedAs result (tag_of tag.entry) }
{
    match tag.local_name() {
        "f" => ChildName::Formula,
        "v" => ChildName::Value,
        "is" => ChildName::Inline,
        _ => ChildName::Stray,
    }
}

/// Reads the `f` at whose start the reader stands, to its end, and keeps its formula where it is
/// wanted.
fn keep_formula<P: Package>(
    xml: &mut XlReader<P>,
    asked: Asked<'_>,
    masters: &mut SharedFormulas,
    last: &mut Option<xlsx_formulas::Formula>,
) -> Result<(), XlsxError>
    requires element { IsReadingElement xml.old }
    ensures reads { ReadsElement Io result xml.old xml.new }
    ensures formula { xml.old.source.is_visible ≡ true → asked.entry.wants.formulas ≡ true →
        let before : LastStep = record { masters = masters.old; last = last_seen last.old } in
        let after : LastStep = record { masters = masters.new; last = last_seen last.new } in
        (element : Element) → StandsAtElement element xml.old → IsNamedAs Formula element.tag →
        OnOk result (ReadsFormula asked.entry.keeps_masters element.tag element.inside before
        after) }
    ensures covers { xml.old.source.is_visible ≡ true → asked.entry.wants.formulas ≡ true →
        (element : Element) → StandsAtElement element xml.old →
        OnOk result (covers_seen last.new ≡ covers_of element.tag) }
    ensures same { asked.entry.wants.formulas ≡ false → OnOk result (masters.new ≡ masters.old) }
    ensures unlisted { asked.entry.wants.formulas ≡ false → OnOk result (last.new ≡ last.old) }
    ensures err { IfErr result (λ error. (context : ContextSaid) (format : CellFormat)
        (kind : CellKind)
        (element : Element) → StandsAtElement element xml.old → IsNamedAs Formula element.tag →
        ChildFails asked.entry.wants context format kind element.tag xml.old xml.new error) }
    ensures kind { IfErr result IsCellError }
{
    if !asked.wants.formulas {
        return skip_element_in(xml, None);
    }
    let formula = read_formula(xml)?;
    if asked.keeps_masters {
        masters.keep(&formula)?;
    }
    *last = Some(formula);
    Ok(())
}

/// Reads the `v` or the `is` at whose start the reader stands, to its end, and keeps its value
/// where it is wanted and counts.
fn keep_value<P: Package>(
    xml: &mut XlReader<P>,
    asked: Asked<'_>,
    start: &CellStart,
    is_inline: bool,
    value: &mut Option<DataRef>,
) -> Result<(), XlsxError>
    requires element { IsReadingElement xml.old }
    ensures reads { ReadsElement Io result xml.old xml.new }
    ensures value { xml.old.source.is_visible ≡ true → asked.entry.wants.values ≡ true →
        (element : Element) → StandsAtElement element xml.old →
        IsNamedAs (value_name is_inline) element.tag →
        OnOk result (or_earlier (value_kept value.old) (child_said asked.entry start.now element)
        ≡ Ok (value_kept value.new)) }
    ensures unvalued { asked.entry.wants.values ≡ false → OnOk result (value.new ≡ value.old) }
    ensures err { IfErr result (λ error. (element : Element) → StandsAtElement element xml.old →
        IsNamedAs (value_name is_inline) element.tag →
        ChildFailsBy asked.entry start.now element xml.old xml.new error) }
    ensures kind { IfErr result IsCellError }
{
    if !asked.wants.values {
        return skip_element_in(xml, None);
    }
    if is_inline {
        *value = Some(read_inline(xml)?);
        return Ok(());
    }
    let found = read_value(xml, asked.book, start.format, &start.typ)?;
    if found.is_some() {
        *value = found;
    }
    Ok(())
}

/// Reads the child of a cell at whose start the reader stands, to its end.
fn read_child<P: Package>(
    xml: &mut XlReader<P>,
    asked: Asked<'_>,
    start: &CellStart,
    masters: &mut SharedFormulas,
    latest: &mut CellContents,
) -> Result<(), XlsxError>
    requires element { IsReadingElement xml.old }
    requires wanted { reads_children asked.wants ≡ true }
    ensures reads { ReadsElement Io result xml.old xml.new }
    ensures takes { TakesChild asked.entry start.now result xml.old masters.old masters.new
        latest.old latest.new }
    ensures err { IfErr result (λ error. (element : Element) → StandsAtElement element xml.old →
        ChildFailsBy asked.entry start.now element xml.old xml.new error) }
    ensures kind { IfErr result IsCellError }
{
    match child_name(start_tag(xml)) {
        ChildName::Formula => {
            let last = &mut latest.formula;
            keep_formula(xml, asked, masters, last)
        }
        ChildName::Value => {
            let value = &mut latest.value;
            keep_value(xml, asked, start, false, value)
        }
        ChildName::Inline => {
            let value = &mut latest.value;
            keep_value(xml, asked, start, true, value)
        }
        ChildName::Stray => Err(XlsxError::UnexpectedNode("v, f, or is")),
    }
}

/// Reads what stands in the cell at whose start the reader stands, to its end.
#[tactic(auto, using(crate::proofs::ChildrenRead::written_none))]
pub fn read_children<P: Package>(
    xml: &mut XlReader<P>,
    asked: Asked<'_>,
    start: &CellStart,
    masters: &mut SharedFormulas,
) -> Result<CellContents, XlsxError>
    requires element { IsReadingElement xml.old }
    requires wanted { reads_children asked.wants ≡ true }
    ensures reads { ReadsElement Io result xml.old xml.new }
    ensures contents { IfOk result
        (ReadsContents asked.entry start.now xml.old masters.old masters.new) }
    ensures err { IfErr result (ContentsFail asked.entry start.now xml.old xml.new) }
    ensures kind { IfErr result IsCellError }
{
    let base = xml.depth();
    let mut latest = CellContents {
        value: None,
        formula: None,
    };
    'children: while let Some(_) = next_child_in(xml, base, "c")? {
        read_child(xml, asked, start, masters, &mut latest)?;
    }
    Ok(latest)
}
