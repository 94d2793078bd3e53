//! Names as they are looked up.
ghost use Rattle.std.specs.Prelude.{◌≡◌, ◌<◌, ◌++◌, [], ◌∷◌, length, OnOk, IfOk, IfSome};
ghost use Rattle.std.specs.Prelude.{MatchOption};
ghost use Rattle.formula_tokens.specs.Items.{kept_bytes};
ghost use Rattle.formula_tokens.specs.Told.{name_text};
ghost use Rattle.book_names.specs.Book.{lowered};

use formula_tokens::Name;
use std::alloc::{AllocError, Global};
use std::marker::Model;

/// A name as it is looked up, in which ASCII letters are small. It is set for one name after the
/// other, and asks for memory only where a name is longer than all before it.
#[derive(Debug, Drop)]
pub struct NameKey {
    bytes: Vec<u8>,
}

impl Model for NameKey {
    ghost use Rattle.std.specs.Prelude.{ℕ, List};

    ghost Value = { List ℕ };

    ghost view = { λ key. key.bytes.items };
}

/// Appends a name with its ASCII letters in small.
fn push_lowered(out: &mut Vec<u8>, name: &[u8]) -> Result<(), AllocError>
    ensures { OnOk result (out.new.items ≡ out.old.items ++ lowered name.now) }
{
    for b in name {
        out.push(b.to_ascii_lowercase())?;
    }
    Ok(())
}

/// The byte that a text begins with in which an apostrophe keeps the byte behind it, and what
/// stands behind it.
#[tactic(auto, using(crate::proofs::Keeping::kept_steps))]
fn split_kept(text: &[u8]) -> Option<(u8, &[u8])>
    ensures kept { MatchOption result (kept_bytes text.now ≡ [])
        (λ parts. kept_bytes text.now ≡ parts.0 ∷ kept_bytes parts.1.now) }
    ensures shorter { IfSome result (λ parts. length parts.1.now < length text.now) }
{
    let (first, behind) = text.split_first()?;
    if *first != b'\'' {
        return Some((*first, behind));
    }
    match behind.split_first() {
        Some((kept, rest)) => Some((*kept, rest)),
        None => Some((*first, behind)),
    }
}

/// Appends a text in which an apostrophe keeps the byte behind it, with its ASCII letters in small.
fn push_kept(out: &mut Vec<u8>, text: &[u8]) -> Result<(), AllocError>
    ensures { OnOk result (out.new.items ≡ out.old.items ++ lowered (kept_bytes text.now)) }
{
    let mut rest = text;
    while let Some((byte, behind)) = split_kept(rest) {
        out.push(byte.to_ascii_lowercase())?;
        rest = behind;
    }
    Ok(())
}

/// A copy of a name with its ASCII letters in small.
pub(crate) fn lowered_copy(alloc: Global, name: &str) -> Result<Vec<u8>, AllocError>
    ensures { IfOk result (λ key. key.items ≡ lowered name.now) }
{
    let mut key = Vec::new(alloc);
    push_lowered(&mut key, name.as_bytes())?;
    Ok(key)
}

impl NameKey {
    /// An empty name.
    pub fn new(alloc: Global) -> NameKey
        ensures { result ≡ [] }
    {
        NameKey {
            bytes: Vec::new(alloc),
        }
    }

    /// Takes the place of the name that was set before.
    pub fn set(&mut self, name: Name<'_>) -> Result<(), AllocError>
        ensures { OnOk result (self.new ≡ lowered (name_text name.entry)) }
    {
        self.bytes.clear();
        match name {
            Name::Plain(name) => push_lowered(&mut self.bytes, name.as_bytes()),
            Name::Quoted(text) => push_kept(&mut self.bytes, text.as_bytes()),
        }
    }

    /// The name's bytes.
    pub(crate) fn as_bytes(&self) -> &[u8]
        ensures { result.now ≡ self.now }
    {
        &self.bytes
    }
}
