ghost use Rattle.std.specs.Prelude.{◌≡◌, ◌++◌, map, option_map, string_bytes, All, OnOk, IfOk};
ghost use Rattle.std.specs.Prelude.{IfErr, Some};
ghost use Rattle.std.specs.Option.{option_copied};
ghost use Rattle.xlsx_areas.specs.Hyperlinks.{link_said};
ghost use Rattle.looks.specs.Words.{look_said};
ghost use Rattle.xlsx_core.specs.Words.{placed_links_look};
ghost use Rattle.xlsx_commands.specs.Outputs.{CallFails};
ghost use Rattle.xlsx_commands.specs.SheetLists.{AreLookLines, IsKeptInside, LookPathCause};
ghost use Rattle.xlsx_commands.specs.SheetLists.{NamedLookCause, line_of_link, link_lines};

use crate::error::ToolError;
use crate::named_sheet::{OfSheet, of_sheet};
use input_package::InputPackage;
use list_lines::{LineForm, push_link_line};
use std::alloc::{AllocError, Global};
use xlsx_core::{Hyperlink, Xlsx};
use xlsx_error::XlsxError;

/// The links of a sheet.
impl OfSheet for Vec<Hyperlink> {
    ghost has = { λ links name path parts.
        look_said (placed_links_look name path) parts ≡ Some (map link_said links.items) };

    ghost cause = { LookPathCause placed_links_look };

    fn ask(xlsx: &mut Xlsx<InputPackage>, name: &str) -> Result<Vec<Hyperlink>, XlsxError> {
        xlsx.hyperlinks_by_sheet_name(name)
    }
}

fn text_of(text: &Option<String>) -> Option<&str>
    ensures { option_copied result ≡ option_map string_bytes text.now }
{
    match text {
        Some(text) => Some(text.as_str()),
        None => None,
    }
}

fn push_link(out: &mut String, form: LineForm, link: &Hyperlink) -> Result<(), AllocError>
    requires { IsKeptInside link.now }
    ensures { OnOk result
        (string_bytes out.new ≡ string_bytes out.old ++ line_of_link form (link_said link.now)) }
{
    push_link_line(
        out,
        form,
        link.range,
        text_of(&link.target),
        text_of(&link.location),
        text_of(&link.displayed_text),
        text_of(&link.tooltip),
    )
}

fn lines_of_links(alloc: Global, form: LineForm, links: &[Hyperlink]) -> Result<String, AllocError>
    requires { All IsKeptInside links.now }
    ensures { IfOk result (λ out. string_bytes out ≡ link_lines form (map link_said links.now)) }
{
    let mut out = String::new(alloc);
    for link in links {
        push_link(&mut out, form, link)?;
    }
    Ok(out)
}

/// A line for each link of the first sheet of this name.
pub fn link_lines(
    alloc: Global,
    package: InputPackage,
    form: LineForm,
    name: &str,
) -> Result<Vec<u8>, ToolError>
    ensures ok { IfOk result (λ output. AreLookLines placed_links_look (link_lines form)
        «package».parts name.now output.items) }
    ensures err { IfErr result
        (CallFails (NamedLookCause placed_links_look «package».parts name.now)) }
{
    let links: Vec<Hyperlink> = of_sheet(alloc, package, name)?;
    Ok(lines_of_links(alloc, form, &links)?.into_bytes())
}
