ghost use Rattle.std.specs.Prelude.{◌≡◌, ◌≤◌, ℕ, List, length, map, Any, Option, ◌↔◌, MatchResult};
ghost use Rattle.std.specs.Prelude.{Ok, Err};
ghost use Rattle.std.specs.Option.{option_copied};
ghost use Rattle.attr_text.specs.Attributes.{items, lookup, all_values, value_of, value_of_local};
ghost use Rattle.attr_text.specs.Attributes.{has_local_name, local_name_of};
ghost use Rattle.attr_text.specs.AttrIter.{attrs_left};
ghost use Rattle.attr_text.specs.Wanted.{accepts, answer_of};

use crate::fault::AttrFault;
use crate::items::RawAttrIter;

/// Whether the key is the local name, or ends in `:` and the local name.
pub fn local_name_matches(key: &str, local_name: &str) -> bool
    ensures { result ≡ has_local_name local_name.now key.now }
{
    let (key, local) = (key.as_bytes(), local_name.as_bytes());
    if key.len() <= local.len() {
        return key == local;
    }
    let colon = key.len() - local.len() - 1;
    key[colon] == b':' && local == &key[colon + 1..]
}

/// What follows the last `:` of a name, or the whole name.
pub fn local_name(name: &str) -> &str
    ensures { result.now ≡ local_name_of name.now }
{
    match name.rfind(':') {
        Some(colon) => &name[colon + 1..],
        None => name,
    }
}

/// Which key is looked up.
#[derive(Clone, Copy)]
enum Wanted<'k> {
    Key(&'k str),
    LocalName(&'k str),
}

impl Wanted<'_> {
    fn accepts(self, key: &str) -> bool
        ensures { result ≡ accepts self.entry key.now }
    {
        match self {
            Wanted::Key(wanted) => wanted == key,
            Wanted::LocalName(wanted) => local_name_matches(key, wanted),
        }
    }
}

/// The value of the first pair whose key is wanted.
fn find_value<'a>(raw: &'a str, wanted: Wanted<'_>) -> Result<Option<&'a str>, AttrFault>
    ensures { MatchResult result
        (λ value. answer_of wanted.entry raw.now ≡ Ok (option_copied value))
        (λ fault. answer_of wanted.entry raw.now ≡ Err fault) }
{
    for item in RawAttrIter::new(raw) {
        let (key, value) = item?;
        if wanted.accepts(key) {
            return Ok(Some(value));
        }
    }
    Ok(None)
}

/// What has an attribute text.
pub trait RawAttributes {
    /// The attribute text, by its bytes.
    ghost attributes: { Self → List ℕ };

    /// The attribute text as it is written.
    fn attributes_raw(&self) -> &str
        ensures { result.now ≡ attributes self.now };

    /// The items of the attribute text.
    fn iter_raw_attrs(&self) -> RawAttrIter<'_>
        ensures gives { attrs_left result ≡ items (attributes self.now) }
        ensures bound { length (attrs_left result) ≤ length (attributes self.now) }
    {
        RawAttrIter::new(self.attributes_raw())
    }

    /// The value of the first pair with this key. It is refused only where the items end in a fault
    /// and no pair has the key.
    fn raw_attr(&self, name: &str) -> Result<Option<&str>, AttrFault>
        ensures { MatchResult result
            (λ value. value_of name.now (attributes self.now) ≡ Ok (option_copied value))
            (λ fault. value_of name.now (attributes self.now) ≡ Err fault) }
    {
        find_value(self.attributes_raw(), Wanted::Key(name))
    }

    /// The value of the first pair whose key has this local name, by [`local_name_matches`]. It is
    /// refused only where the items end in a fault and no pair has such a key.
    fn raw_attr_local(&self, local_name: &str) -> Result<Option<&str>, AttrFault>
        ensures { MatchResult result
            (λ value. value_of_local local_name.now (attributes self.now)
            ≡ Ok (option_copied value))
            (λ fault. value_of_local local_name.now (attributes self.now) ≡ Err fault) }
    {
        find_value(self.attributes_raw(), Wanted::LocalName(local_name))
    }
}

/// The lookup of several keys is that of each by itself: it gives the value of each, or the fault
/// in which one of them is refused.
pub fn lookups_go_by_key()
    ensures each { (keys : List (List ℕ)) (text : List ℕ) →
        lookup keys text ≡ all_values (map (λ key. value_of key text) keys) }
    ensures found { (keys : List (List ℕ)) (values : List (Option (List ℕ))) (text : List ℕ) →
        lookup keys text ≡ Ok values ↔ map (λ key. value_of key text) keys ≡ map Ok values }
    ensures refused { (keys : List (List ℕ)) (fault : AttrFault) (text : List ℕ) →
        lookup keys text ≡ Err fault ↔ Any (λ key. value_of key text ≡ Err fault) keys }
{}
