ghost use Rattle.std.specs.Prelude.{◌≡◌, map, slice_get, None, Some};
ghost use Rattle.xlsx_sections.specs.Words.{named};
ghost use Rattle.xlsx_properties.specs.Property.{core_properties, program_properties};
ghost use Rattle.xlsx_properties.specs.Property.{named_properties, property_place};

/// A property that the core part of a workbook may have; from `Application` on those that the
/// program's part may have, too.
#[derive(Clone, Copy, Debug, PartialEq, Eq)]
pub enum Property {
    Creator,
    LastModifiedBy,
    Created,
    Modified,
    Title,
    Subject,
    Description,
    Keywords,
    Category,
    ContentStatus,
    Revision,
    Version,
    Application,
    AppVersion,
    Company,
    Template,
    Manager,
}

/// The property of an element of the program's part, by its local name (ECMA-376 part 1, section
/// 22.2).
#[tactic(auto, unfolding(crate::specs::Property::program_properties))]
pub(crate) fn program_property(name: &str) -> Option<Property>
    ensures { result ≡ named program_properties None name.now }
{
    match name {
        "Application" => Some(Property::Application),
        "AppVersion" => Some(Property::AppVersion),
        "Company" => Some(Property::Company),
        "Template" => Some(Property::Template),
        "Manager" => Some(Property::Manager),
        _ => None,
    }
}

/// The property of an element of the core part, by its local name (ECMA-376 part 2, section 11).
#[tactic(auto, unfolding(crate::specs::Property::core_properties))]
pub(crate) fn core_property(name: &str) -> Option<Property>
    ensures { result ≡ named core_properties None name.now }
{
    match name {
        "creator" => Some(Property::Creator),
        "lastModifiedBy" => Some(Property::LastModifiedBy),
        "created" => Some(Property::Created),
        "modified" => Some(Property::Modified),
        "title" => Some(Property::Title),
        "subject" => Some(Property::Subject),
        "description" => Some(Property::Description),
        "keywords" => Some(Property::Keywords),
        "category" => Some(Property::Category),
        "contentStatus" => Some(Property::ContentStatus),
        "revision" => Some(Property::Revision),
        "version" => Some(Property::Version),
        _ => program_property(name),
    }
}

const NAMED: [(&str, Property); 17] = [
    ("creator", Property::Creator),
    ("last_modified_by", Property::LastModifiedBy),
    ("created", Property::Created),
    ("modified", Property::Modified),
    ("title", Property::Title),
    ("subject", Property::Subject),
    ("description", Property::Description),
    ("keywords", Property::Keywords),
    ("category", Property::Category),
    ("content_status", Property::ContentStatus),
    ("revision", Property::Revision),
    ("version", Property::Version),
    ("application", Property::Application),
    ("app_version", Property::AppVersion),
    ("company", Property::Company),
    ("template", Property::Template),
    ("manager", Property::Manager),
];

/// Each property with the name of its field in `WorkbookProperties`, in the order of these.
pub fn named_properties() -> &'static [(&'static str, Property)]
    ensures named { map (λ own. (own.0.now, own.1)) result.now ≡ named_properties }
    ensures all { (own : Property) →
        slice_get (map (λ one. one.1) named_properties) (property_place own) ≡ Some own }
{
    &NAMED
}
