//! The properties of a workbook.

use crate::runs::Opened;
use crate::values::push_refusal;
use crate::words::word;
use anyhow::Result;
use std::alloc::Global;
use xlsx_core::{Property, WorkbookProperties};

const NAMED: [(&str, Property); 17] = [
    ("creator", Property::Creator),
    ("last_modified_by", Property::LastModifiedBy),
    ("created", Property::Created),
    ("modified", Property::Modified),
    ("title", Property::Title),
    ("subject", Property::Subject),
    ("description", Property::Description),
    ("keywords", Property::Keywords),
    ("category", Property::Category),
    ("content_status", Property::ContentStatus),
    ("revision", Property::Revision),
    ("version", Property::Version),
    ("application", Property::Application),
    ("app_version", Property::AppVersion),
    ("company", Property::Company),
    ("template", Property::Template),
    ("manager", Property::Manager),
];

/// The texts of properties, in their order, and then those that users named.
fn push_texts(out: &mut String, properties: &WorkbookProperties) -> Result<()> {
    for (name, property) in NAMED {
        if let Some(text) = properties.get(property) {
            write!(out, "{name}={text};")?;
        }
    }
    for (name, text) in properties.custom_properties.iter() {
        write!(out, "{name}:{text};")?;
    }
    Ok(())
}

/// Whether this is a call for properties, which is answered then: they, or a copy of them.
pub fn push_property_answer(
    out: &mut String,
    alloc: Global,
    opened: &mut Opened,
    words: &[&str],
) -> Result<bool> {
    let is_copy = match word(words, 0) {
        "properties" => false,
        "property_copies" => true,
        _ => return Ok(false),
    };
    match opened.xlsx.workbook_properties() {
        Ok(properties) if is_copy => push_texts(out, &properties.clone_in(alloc)?)?,
        Ok(properties) => push_texts(out, &properties)?,
        Err(error) => push_refusal(out, &error)?,
    }
    Ok(true)
}
