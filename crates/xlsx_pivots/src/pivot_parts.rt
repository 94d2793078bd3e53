ghost use Rattle.std.proofs.Common.{rules};
ghost use Rattle.std.specs.Prelude.{◌≡◌, ⊤, ℕ, List, Option, Ok, Some, codes, true, option_map};
ghost use Rattle.std.specs.Prelude.{string_bytes, IfOk, OnOk, IfErr};
ghost use Rattle.part_events.specs.Words.{tag_of, IsReading, ReadsPart, events_of};
ghost use Rattle.xlsx_error.specs.declared.error.XlsxError.TheVariants.{Io};
ghost use Rattle.xlsx_sections.specs.Words.{Answers, FailsBy, ElementFails, placed_at};
ghost use Rattle.looks.specs.Words.{look_ask};
ghost use Rattle.xlsx_pivots.specs.PivotErrors.{IsPivotsError};
ghost use Rattle.xlsx_pivots.specs.PivotParts.{name_kept, name_ask, name_look};

use crate::single::Single;
use part_events::{Package, StartTag, XlReader};
use std::alloc::Global;
use xlsx_error::XlsxError;
use xlsx_parts::{find_element, open_part};
use xlsx_sections::{Keeps, keep_starts, name_by, start_tag};

/// Keeps the name of a start, where it has one. The start is event number `at` of its part.
#[tactic(auto, using(crate::proofs::PivotsRead::name_error))]
fn keep_name(
    alloc: Global,
    kept: &mut Option<String>,
    tag: StartTag<'_>,
    at: u64,
) -> Result<(), XlsxError>
    ensures ok { OnOk result ((behind : ℕ) →
        name_kept (placed_at (tag_of tag.entry) behind) (option_map string_bytes kept.old)
        ≡ Ok (option_map string_bytes kept.new)) }
    ensures err { IfErr result (λ error. (behind : ℕ) → ElementFails
        (name_kept (placed_at (tag_of tag.entry) behind) (option_map string_bytes kept.old))
        at behind error) }
    ensures kind { IfErr result IsPivotsError }
{
    let name = name_by(alloc, tag, at)?;
    Single::Name.keep(kept, name)
}

/// Keeps the name of a pivot table.
#[derive(Drop)]
struct NameKeeper {
    alloc: Global,
    kept: Option<String>,
}

impl Keeps for NameKeeper {
    ghost Index = { ⊤ };

    ghost Held = { Option (List ℕ) };

    ghost held = { λ k i. option_map string_bytes k.kept };

    ghost change = { λ k i. name_kept };

    ghost section = { codes "pivotTableDefinition" };

    ghost Kind = { IsPivotsError };

    ghost kinds = { Prim.search rules };

    fn take(&mut self, tag: StartTag<'_>, at: u64) -> Result<(), XlsxError> {
        keep_name(self.alloc, &mut self.kept, tag, at)
    }
}

/// The name of the first pivot table of a part of which nothing was taken.
#[tactic(auto, using(crate::proofs::PivotsRead::break_error))]
fn name_in_part<P: Package>(xml: &mut XlReader<P>) -> Result<String, XlsxError>
    requires reading { IsReading xml.old }
    requires first { xml.old.at ≡ 0 }
    ensures reads { ReadsPart Io result xml.old xml.new }
    ensures ends { xml.old.source.is_visible ≡ true →
        OnOk result (xml.new.at ≡ name_ask.exact (events_of xml.old)) }
    ensures name { xml.old.source.is_visible ≡ true → IfOk result (λ name.
        name_ask.said (events_of xml.old) ≡ Some (string_bytes name)) }
    ensures err { IfErr result
        (FailsBy (name_ask.cause (events_of xml.old)) xml.old.source xml.new.source) }
    ensures kind { IfErr result IsPivotsError }
{
    let alloc = xml.alloc();
    let Some(at) = find_element(xml, "pivotTableDefinition")? else {
        return Err(XlsxError::XmlEof("pivotTableDefinition"));
    };
    let mut keeper = NameKeeper { alloc, kept: None };
    keep_name(alloc, &mut keeper.kept, start_tag(xml), at)?;
    let base = xml.depth();
    keep_starts(
        xml,
        base,
        &["pivotTableDefinition"],
        "pivotTableDefinition",
        &mut keeper,
    )?;
    match keeper.kept {
        Some(name) => Ok(name),
        None => Err(Single::Name.lacking()),
    }
}

/// The name of the pivot table whose part is at this path (ECMA-376 part 1, section 18.10.1.73):
/// the only name, decoded, on the start of the first `pivotTableDefinition` and on those that stand
/// in it.
///
/// A part that is absent is `FileNotFound` of its path, and one that has no such section, or ends
/// in it, is `XmlEof("pivotTableDefinition")`. Without a name, or with another one, it is
/// `Unexpected` of the text that says so. A name with a reference without a character is
/// `Xml(Entity)` with the number of its start, counted from 0.
pub fn name_at<P: Package>(xml: &mut XlReader<P>, path: &str) -> Result<String, XlsxError>
    ensures answers { Answers (look_ask IsPivotsError (name_look path.now)) string_bytes result
        xml.old.source xml.new.source }
{
    if !open_part(xml, path)? {
        return Err(XlsxError::FileNotFound(String::from_str(xml.alloc(), path)?));
    }
    name_in_part(xml)
}
