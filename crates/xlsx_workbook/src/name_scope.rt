ghost use Rattle.std.specs.Prelude.{◌≡◌, ◌++◌, ◌^◌, [], ◌∷◌, if◌then◌else◌, Ok, OnOk};
ghost use Rattle.std.specs.Option.{option_copied};
ghost use Rattle.part_events.specs.Words.{tag_of};
ghost use Rattle.xlsx_sections.specs.Words.{number_below};
ghost use Rattle.xlsx_workbook.specs.DefinedNames.{scope_numbered, scope_by, scope_of};

use attr_text::RawAttributes;
use part_events::StartTag;
use std::alloc::AllocError;
use xlsx_sections::number_text;

/// Which sheets see a defined name, by its `localSheetId` (ECMA-376 part 1, section 18.2.5).
#[derive(Clone, Copy, Debug, PartialEq, Eq, Hash)]
pub enum NameScope {
    /// All sheets of the workbook.
    Workbook,
    /// The sheet of this number alone, counted from 0. Where the workbook has fewer sheets, none.
    Sheet(u32),
    /// No sheet: what is said of it is no number of 32 bits in decimal digits alone, or can't be
    /// told behind a fault of the attributes.
    Unread,
}

/// The scope that a text names.
fn scope_named(text: &str) -> NameScope
    ensures { result ≡ scope_numbered (number_below (2 ^ 32) text.now) }
{
    match number_text(text) {
        Some(sheet) if sheet < 4_294_967_296 => NameScope::Sheet(sheet as u32),
        _ => NameScope::Unread,
    }
}

/// The scope of a defined name, by the text that was found.
fn scope_found(text: Option<&str>) -> NameScope
    ensures { result ≡ scope_by (Ok (option_copied text.entry)) }
{
    match text {
        Some(text) => scope_named(text),
        None => NameScope::Workbook,
    }
}

/// The scope that the start of a defined name tells.
pub(crate) fn scope_of(tag: StartTag<'_>) -> NameScope
    ensures { result ≡ scope_of (tag_of tag.entry) }
{
    match tag.raw_attr("localSheetId") {
        Ok(found) => scope_found(found),
        Err(_) => NameScope::Unread,
    }
}

/// Appends the scope of a defined name, where it has a name.
pub(crate) fn push_scope(
    scopes: &mut Vec<NameScope>,
    is_named: bool,
    scope: NameScope,
) -> Result<(), AllocError>
    ensures { OnOk result (scopes.new.items
        ≡ scopes.old.items ++ (if is_named then scope ∷ [] else [])) }
{
    if is_named {
        scopes.push(scope)?;
    }
    Ok(())
}
