ghost use Rattle.std.specs.Prelude.{◌≡◌, ◌∷◌, length, [], OnOk};
ghost use Rattle.std.specs.Bool.{OnTrue, OnFalse};
ghost use Rattle.part_events.specs.OpenNames.{is_innermost};

use std::alloc::{AllocError, Global};
use std::marker::Model;

/// The names of the open elements. They lie in one text, so that opening an element seldom asks for
/// memory.
#[derive(Debug, Drop)]
pub struct OpenNames {
    text: Vec<u8>,
    sizes: Vec<usize>,
}

impl Model for OpenNames {
    ghost use Rattle.std.specs.Prelude.{ℕ, ◌≤◌, List, length, reverse, sum};
    ghost use Rattle.part_events.specs.OpenNames.{names_cut};

    ghost Value = { List (List ℕ) };

    ghost view = { λ a. names_cut a.text.items (reverse a.sizes.items) };

    ghost invariant = { λ a. sum a.sizes.items ≤ length a.text.items };
}

impl OpenNames {
    /// The names where no element is open.
    pub fn new(alloc: Global) -> OpenNames
        ensures { result ≡ [] }
    {
        OpenNames {
            text: Vec::new(alloc),
            sizes: Vec::new(alloc),
        }
    }

    /// Puts the name before the others.
    pub fn open(&mut self, name: &str) -> Result<(), AllocError>
        ensures { OnOk result (self.new ≡ name.now ∷ self.old) }
    {
        self.text.extend_from_slice(name.as_bytes())?;
        self.sizes.push(name.len())?;
        Ok(())
    }

    /// Takes the innermost name away if it is this one. Else nothing changes.
    pub fn close(&mut self, name: &str) -> bool
        ensures answer { result ≡ is_innermost name.now self.old }
        ensures closed { OnTrue result (self.old ≡ name.now ∷ self.new) }
        ensures open { OnFalse result (self.new ≡ self.old) }
    {
        let Some(size) = self.sizes.as_slice().last().copied() else {
            return false;
        };
        let begins = self.text.len() - size;
        let (_, innermost) = self.text.as_slice().split_at(begins);
        if name.as_bytes() != innermost {
            return false;
        }
        self.text.truncate(begins);
        self.sizes.truncate(self.sizes.len() - 1);
        true
    }

    /// How many names there are.
    pub fn len(&self) -> usize
        ensures { result ≡ length self.now }
    {
        self.sizes.len()
    }
}
