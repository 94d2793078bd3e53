ghost use Rattle.std.specs.Prelude.{◌≡◌, ◌++◌, string_bytes, OnOk, IfOk, IfErr};
ghost use Rattle.std.specs.Option.{option_copied};
ghost use Rattle.xlsx_properties.specs.Kept.{held, custom_texts};
ghost use Rattle.xlsx_commands.specs.Outputs.{CallFails};
ghost use Rattle.xlsx_commands.specs.PropertyLists.{line_if_said, property_lines, custom_lines};
ghost use Rattle.xlsx_commands.specs.PropertyLists.{AreByName, HasProperties, ArePropertyLines};
ghost use Rattle.xlsx_commands.specs.PropertyLists.{ListedPropertiesCause};

use crate::error::ToolError;
use input_package::InputPackage;
use list_lines::{LineForm, push_custom_line, push_property_line};
use std::alloc::{AllocError, Global};
use xlsx_core::{WorkbookProperties, Xlsx};
use xlsx_properties::named_properties;

/// The properties of the workbook.
fn properties_of(alloc: Global, package: InputPackage) -> Result<WorkbookProperties, ToolError>
    ensures ok { IfOk result (HasProperties «package».parts) }
    ensures err { IfErr result (CallFails (ListedPropertiesCause «package».parts)) }
{
    let mut xlsx = Xlsx::new(alloc, package)?;
    let properties = xlsx.workbook_properties();
    drop(xlsx.into_package());
    Ok(properties?)
}

/// Appends the line of a property, by the name of its field, where its text is said.
fn push_line(
    out: &mut String,
    form: LineForm,
    name: &str,
    text: Option<&str>,
) -> Result<(), AllocError>
    ensures { let printed = line_if_said form name.now (option_copied text.entry) in
        OnOk result (string_bytes out.new ≡ string_bytes out.old ++ printed) }
{
    match text {
        Some(text) => push_property_line(out, form, name, text),
        None => Ok(()),
    }
}

/// Appends a line for each property that the workbook says.
fn push_said(
    out: &mut String,
    form: LineForm,
    properties: &WorkbookProperties,
) -> Result<(), AllocError>
    ensures { let printed = property_lines form (λ own. held own properties.now) in
        OnOk result (string_bytes out.new ≡ string_bytes out.old ++ printed) }
{
    let all = named_properties();
    for own in all {
        push_line(out, form, own.0, properties.get(own.1))?;
    }
    Ok(())
}

/// Appends a line for each property that users named, in the order of the names.
fn push_customs(
    out: &mut String,
    form: LineForm,
    properties: &WorkbookProperties,
) -> Result<(), AllocError>
    ensures lines { let printed = custom_lines form (custom_texts properties.now) in
        OnOk result (string_bytes out.new ≡ string_bytes out.old ++ printed) }
    ensures by_name { AreByName (custom_texts properties.now) }
{
    for (name, text) in properties.custom_properties.iter() {
        push_custom_line(out, form, name.as_str(), text.as_str())?;
    }
    Ok(())
}

/// The lines of both.
fn lines_of_properties(
    alloc: Global,
    form: LineForm,
    properties: &WorkbookProperties,
) -> Result<String, AllocError>
    ensures lines { let printed = property_lines form (λ own. held own properties.now)
        ++ custom_lines form (custom_texts properties.now) in
        IfOk result (λ out. string_bytes out ≡ printed) }
    ensures by_name { OnOk result (AreByName (custom_texts properties.now)) }
{
    let mut out = String::new(alloc);
    push_said(&mut out, form, properties)?;
    push_customs(&mut out, form, properties)?;
    Ok(out)
}

/// A line for each property of the workbook: those that it says, in their order, and then those
/// that users named, in the order of the names.
pub fn property_lines(
    alloc: Global,
    package: InputPackage,
    form: LineForm,
) -> Result<Vec<u8>, ToolError>
    ensures ok { IfOk result (λ output. ArePropertyLines form «package».parts output.items) }
    ensures err { IfErr result (CallFails (ListedPropertiesCause «package».parts)) }
{
    let properties = properties_of(alloc, package)?;
    Ok(lines_of_properties(alloc, form, &properties)?.into_bytes())
}
