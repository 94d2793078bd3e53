ghost use Rattle.std.specs.Prelude.{◌≡◌, ℕ, codes, true, Ok, Err, IfOk, IfErr};
ghost use Rattle.part_events.specs.Words.{Tag, start, tag_of, ahead, IsReadingElement};
ghost use Rattle.part_events.specs.Words.{ReadsElement, content};
ghost use Rattle.xlsx_error.specs.declared.error.XlsxError.TheVariants.{Io};
ghost use Rattle.xlsx_sections.specs.Words.{ElementReadFails, always, ElementFails};
ghost use Rattle.xlsx_formulas.specs.Formula.{sharing_of, formula_text, covers_of};
ghost use Rattle.xlsx_formulas.specs.Kept.{sharing_seen, formula_seen};
ghost use Rattle.xlsx_formulas.specs.Refused.{IsShareError, IsFormulaError};

use attr_text::{RawAttributes, get_attrs};
use cell_refs::{Dimensions, get_dimension};
use part_events::{Package, StartTag, XlReader};
use xlsx_error::XlsxError;
use xlsx_sections::{number_text, read_element_text, start_tag};

/// Whose formula an `f` writes.
#[derive(Clone, Copy, Debug, PartialEq, Eq)]
pub enum FormulaAttributes {
    /// Its cell's alone.
    Own,
    /// That of the group of this index, which is written for this area.
    Master { index: u64, area: Dimensions },
    /// One of the group of this index.
    Derived { index: u64 },
}

/// A formula as its `f` writes it.
#[derive(Debug, Drop)]
pub struct Formula {
    pub share: FormulaAttributes,
    /// The area of an array, where its `ref` names one, whether its cell lies there or not.
    pub covers: Option<Dimensions>,
    pub text: String,
}

/// What a start says of the sharing of its formula, by its attributes `t`, `si` and `ref` (ECMA-376
/// part 1, section 18.3.1.40). A shared formula with `ref` is the master of its group.
///
/// A shared formula is refused as `Unexpected` where it has no `si`, or one that is no number of 64
/// bits, and as its reference where `ref` names no area.
pub fn share_of(tag: StartTag<'_>) -> Result<FormulaAttributes, XlsxError>
    ensures ok { IfOk result (λ share. sharing_of (tag_of tag.entry) ≡ Ok (sharing_seen share)) }
    ensures err { IfErr result (λ error. (at behind : ℕ) →
        ElementFails (sharing_of (tag_of tag.entry)) at behind error) }
    ensures kind { IfErr result IsShareError }
{
    let (typ, index, range) = get_attrs!(tag, "t" => typ, "si" => index, "ref" => range)?;
    let Some("shared") = typ else {
        return Ok(FormulaAttributes::Own);
    };
    let Some(index) = index else {
        return Err(XlsxError::Unexpected("si attribute is mandatory if it is shared"));
    };
    let Some(index) = number_text(index) else {
        return Err(XlsxError::Unexpected("si attribute must be a number"));
    };
    match range {
        Some(range) => Ok(FormulaAttributes::Master {
            index,
            area: get_dimension(range)?,
        }),
        None => Ok(FormulaAttributes::Derived { index }),
    }
}

/// The area that a start says that its formula covers, by its attributes `t` and `ref` (ECMA-376
/// part 1, section 18.3.1.40): that of an array (`array`). None where the formula is no array, and
/// where it has no `ref`, or one that names no area, which refuses nothing.
pub fn covers_of(tag: StartTag<'_>) -> Option<Dimensions>
    ensures { result ≡ covers_of (tag_of tag.entry) }
{
    let Ok((typ, range)) = get_attrs!(tag, "t" => typ, "ref" => range) else {
        return None;
    };
    let Some("array") = typ else {
        return None;
    };
    let Ok(area) = get_dimension(range?) else {
        return None;
    };
    Some(area)
}

/// Reads the `f` at whose start the reader stands, to its end: the sharing and the area that its
/// start says, and then its text, which is each Text, with its line ends as LF, and the character
/// of each reference.
///
/// It is refused as [`share_of`] its start is, where a reference in its text has no character, and
/// where its end isn't there.
pub fn read_formula<P: Package>(xml: &mut XlReader<P>) -> Result<Formula, XlsxError>
    requires element { IsReadingElement xml.old }
    ensures reads { ReadsElement Io result xml.old xml.new }
    ensures formula { let inside = content 0 (ahead xml.old) in
        xml.old.source.is_visible ≡ true → (tag : Tag) → start tag ≡ xml.old.source.current →
        IfOk result (λ found. formula_text tag inside ≡ Ok (formula_seen found)) }
    ensures covers { (tag : Tag) → start tag ≡ xml.old.source.current →
        IfOk result (λ found. found.covers ≡ covers_of tag) }
    ensures err { IfErr result (λ error. (tag : Tag) → start tag ≡ xml.old.source.current →
        ElementReadFails (always (codes "f")) (formula_text tag) xml.old xml.new error) }
    ensures kind { IfErr result IsFormulaError }
{
    let share = share_of(start_tag(xml))?;
    let covers = covers_of(start_tag(xml));
    let mut text = String::new(xml.alloc());
    read_element_text(xml, &mut text, false, "f")?;
    Ok(Formula {
        share,
        covers,
        text,
    })
}
