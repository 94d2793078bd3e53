ghost use Rattle.std.specs.Prelude.{◌≡◌, ◌≤◌, List, ◌++◌, ◌∷◌, [], length, take, OnOk, OnErr, IfOk};
ghost use Rattle.part_events.specs.Package.{Part, folded};
ghost use Rattle.part_events.specs.PartNames.{place_of, place_by, FindsParts};

use crate::stored::folded_byte;
use std::alloc::{AllocError, Global};
use std::collections::BTreeMap;

/// For each name that is compared, which part is the first of it.
#[derive(Debug, Drop)]
pub struct PartNames {
    places: BTreeMap<Vec<u8>, usize>,
    // Where a name that is looked up is folded. No name that is kept is longer.
    buffer: Vec<u8>,
}

fn fold(name: &mut [u8])
    ensures { name.new ≡ folded name.old }
{
    for byte in name.iter_mut() {
        *byte = folded_byte(*byte);
    }
}

fn fold_front(buffer: &mut [u8], name: &str)
    requires { length name.now ≤ length buffer.old }
    ensures front { take (length name.now) buffer.new ≡ folded name.now }
    ensures size { length buffer.new ≡ length buffer.old }
{
    let front = &mut buffer[..name.len()];
    front.copy_from_slice(name.as_bytes());
    fold(front);
}

/// Writes a name, folded, to the front of a buffer.
fn fold_to_front(buffer: &mut Vec<u8>, name: &str)
    requires { length name.now ≤ length buffer.old.items }
    ensures front { take (length name.now) buffer.new.items ≡ folded name.now }
    ensures size { length buffer.new.items ≡ length buffer.old.items }
{
    fold_front(buffer, name);
}

fn folded_copy(alloc: Global, name: &str) -> Result<Vec<u8>, AllocError>
    ensures { IfOk result (λ key. key.items ≡ folded name.now) }
{
    let mut key = Vec::new(alloc);
    key.resize(name.len(), 0)?;
    fold_to_front(&mut key, name);
    Ok(key)
}

fn find(places: &BTreeMap<Vec<u8>, usize>, key: &[u8]) -> Option<usize>
    ensures { result ≡ place_by places.now key.now }
{
    places.get(key).copied()
}

impl PartNames {
    /// No names.
    pub fn new(alloc: Global) -> PartNames
        ensures { FindsParts result [] }
    {
        PartNames {
            places: BTreeMap::new(alloc),
            buffer: Vec::new(alloc),
        }
    }

    /// Where the first part of this name is, counted from 0.
    pub fn place(&mut self, name: &str) -> Option<usize>
        ensures found { (parts : List Part) → FindsParts self.old parts →
            result ≡ place_of parts (folded name.now) }
        ensures keeps { (parts : List Part) → FindsParts self.old parts →
            FindsParts self.new parts }
    {
        if self.buffer.len() < name.len() {
            return None;
        }
        fold_to_front(&mut self.buffer, name);
        find(&self.places, &self.buffer[..name.len()])
    }

    /// Makes room to look up a name of this size.
    fn make_room(&mut self, key: &Vec<u8>) -> Result<(), AllocError>
        ensures keeps { (parts : List Part) → FindsParts self.old parts →
            FindsParts self.new parts }
        ensures room { OnOk result (length key.now.items ≤ length self.new.buffer.items) }
    {
        if self.buffer.len() < key.len() {
            self.buffer.resize(key.len(), 0)?;
        }
        Ok(())
    }

    /// Keeps the name of a part that is put behind those of which the names are kept. A refusal
    /// changes nothing that is seen.
    pub fn push(&mut self, alloc: Global, name: &str, place: usize) -> Result<(), AllocError>
        ensures ok { (parts : List Part) → FindsParts self.old parts → place ≡ length parts →
            OnOk result (FindsParts self.new
            (parts ++ record { name = name.now; events = [] } ∷ [])) }
        ensures err { (parts : List Part) → FindsParts self.old parts →
            OnErr result (FindsParts self.new parts) }
    {
        let key = folded_copy(alloc, name)?;
        self.make_room(&key)?;
        if find(&self.places, &key).is_none() {
            self.places.insert(key, place)?;
        }
        Ok(())
    }
}
