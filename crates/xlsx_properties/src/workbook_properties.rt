ghost use Rattle.std.specs.Prelude.{◌≡◌, Some, None, string_bytes, option_map, if◌then◌else◌, ℕ};
ghost use Rattle.std.specs.Prelude.{List, OnOk, IfOk, IfErr};
ghost use Rattle.std.specs.Str.{bytes_eq};
ghost use Rattle.xlsx_error.specs.declared.error.XlsxError.TheVariants.{OutOfMemory};
ghost use Rattle.std.specs.Option.{option_copied};
ghost use Rattle.xlsx_properties.specs.Property.{is_same};
ghost use Rattle.xlsx_properties.specs.Kept.{held, custom_held, AreSame};
ghost use Rattle.xlsx_properties.specs.declared.property.Property.{Property};

use crate::property::Property;
use std::alloc::{AllocError, Global};
use std::collections::BTreeMap;
use xlsx_error::XlsxError;

/// What a workbook says of itself: who made it, when, and what users added by names of their own.
#[derive(Debug)]
pub struct WorkbookProperties {
    pub creator: Option<String>,
    pub last_modified_by: Option<String>,
    pub created: Option<String>,
    pub modified: Option<String>,
    pub title: Option<String>,
    pub subject: Option<String>,
    pub description: Option<String>,
    pub keywords: Option<String>,
    pub category: Option<String>,
    pub content_status: Option<String>,
    pub revision: Option<String>,
    pub version: Option<String>,
    pub application: Option<String>,
    pub app_version: Option<String>,
    pub company: Option<String>,
    pub template: Option<String>,
    pub manager: Option<String>,
    pub custom_properties: BTreeMap<String, String>,
}

impl Drop for WorkbookProperties {
    fn drop(self) {
        let WorkbookProperties {
            creator: _,
            last_modified_by: _,
            created: _,
            modified: _,
            title: _,
            subject: _,
            description: _,
            keywords: _,
            category: _,
            content_status: _,
            revision: _,
            version: _,
            application: _,
            app_version: _,
            company: _,
            template: _,
            manager: _,
            custom_properties: _,
        } = self;
    }
}

impl WorkbookProperties {
    /// No properties.
    pub fn new(alloc: Global) -> WorkbookProperties
        ensures none { (own : Property) → held own result ≡ None }
        ensures no_custom { (name : List ℕ) → custom_held name result ≡ None }
    {
        WorkbookProperties {
            creator: None,
            last_modified_by: None,
            created: None,
            modified: None,
            title: None,
            subject: None,
            description: None,
            keywords: None,
            category: None,
            content_status: None,
            revision: None,
            version: None,
            application: None,
            app_version: None,
            company: None,
            template: None,
            manager: None,
            custom_properties: BTreeMap::new(alloc),
        }
    }

    /// The text of a property, or None where the workbook doesn't say it.
    pub fn get(&self, property: Property) -> Option<&str>
        ensures { option_map (λ text. text.now) result ≡ held property self.now }
    {
        let text = match property {
            Property::Creator => &self.creator,
            Property::LastModifiedBy => &self.last_modified_by,
            Property::Created => &self.created,
            Property::Modified => &self.modified,
            Property::Title => &self.title,
            Property::Subject => &self.subject,
            Property::Description => &self.description,
            Property::Keywords => &self.keywords,
            Property::Category => &self.category,
            Property::ContentStatus => &self.content_status,
            Property::Revision => &self.revision,
            Property::Version => &self.version,
            Property::Application => &self.application,
            Property::AppVersion => &self.app_version,
            Property::Company => &self.company,
            Property::Template => &self.template,
            Property::Manager => &self.manager,
        };
        match text {
            Some(text) => Some(text.as_str()),
            None => None,
        }
    }

    /// Gives a property this text, in place of an earlier one.
    pub(crate) fn set(&mut self, property: Property, text: String)
        ensures held { (own : Property) → held own self.new
            ≡ (if is_same own property then Some (string_bytes text) else held own self.old) }
        ensures custom { self.new.custom_properties ≡ self.old.custom_properties }
    {
        let text = Some(text);
        match property {
            Property::Creator => self.creator = text,
            Property::LastModifiedBy => self.last_modified_by = text,
            Property::Created => self.created = text,
            Property::Modified => self.modified = text,
            Property::Title => self.title = text,
            Property::Subject => self.subject = text,
            Property::Description => self.description = text,
            Property::Keywords => self.keywords = text,
            Property::Category => self.category = text,
            Property::ContentStatus => self.content_status = text,
            Property::Revision => self.revision = text,
            Property::Version => self.version = text,
            Property::Application => self.application = text,
            Property::AppVersion => self.app_version = text,
            Property::Company => self.company = text,
            Property::Template => self.template = text,
            Property::Manager => self.manager = text,
        }
    }

    /// Gives a name of the users' own this text, in place of an earlier one.
    #[tactic(auto, using(std::proofs::lemmas::Map::Text::text_keys))]
    pub(crate) fn keep(&mut self, name: String, text: String) -> Result<(), XlsxError>
        ensures ok { OnOk result ((own : List ℕ) → custom_held own self.new
            ≡ (if bytes_eq own (string_bytes name) then Some (string_bytes text)
            else custom_held own self.old)) }
        ensures held { (own : Property) → held own self.new ≡ held own self.old }
        ensures err { IfErr result (λ error. error ≡ OutOfMemory) }
    {
        self.custom_properties.insert(name, text)?;
        Ok(())
    }

    /// Takes the texts of another one's properties, but for those that users named.
    fn copy_texts(&mut self, alloc: Global, source: &WorkbookProperties) -> Result<(), AllocError>
        ensures held { OnOk result ((own : Property) → held own self.new ≡ held own source.now) }
        ensures custom { self.new.custom_properties ≡ self.old.custom_properties }
    {
        self.creator = copied(alloc, &source.creator)?;
        self.last_modified_by = copied(alloc, &source.last_modified_by)?;
        self.created = copied(alloc, &source.created)?;
        self.modified = copied(alloc, &source.modified)?;
        self.title = copied(alloc, &source.title)?;
        self.subject = copied(alloc, &source.subject)?;
        self.description = copied(alloc, &source.description)?;
        self.keywords = copied(alloc, &source.keywords)?;
        self.category = copied(alloc, &source.category)?;
        self.content_status = copied(alloc, &source.content_status)?;
        self.revision = copied(alloc, &source.revision)?;
        self.version = copied(alloc, &source.version)?;
        self.application = copied(alloc, &source.application)?;
        self.app_version = copied(alloc, &source.app_version)?;
        self.company = copied(alloc, &source.company)?;
        self.template = copied(alloc, &source.template)?;
        self.manager = copied(alloc, &source.manager)?;
        Ok(())
    }

    /// A copy in memory of its own.
    pub fn clone_in(&self, alloc: Global) -> Result<WorkbookProperties, AllocError>
        ensures { IfOk result (λ copy. AreSame copy self.now) }
    {
        let mut copy = WorkbookProperties::new(alloc);
        copy.custom_properties = self.custom_properties.clone()?;
        copy.copy_texts(alloc, self)?;
        Ok(copy)
    }
}

fn copied(alloc: Global, text: &Option<String>) -> Result<Option<String>, AllocError>
    ensures { IfOk result (λ copy.
        option_map string_bytes copy ≡ option_map string_bytes text.now) }
{
    match text {
        Some(text) => Ok(Some(String::from_str(alloc, text.as_str())?)),
        None => Ok(None),
    }
}
