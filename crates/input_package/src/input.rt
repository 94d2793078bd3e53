//! A package that a command is given, whatever it was read from.
ghost use Rattle.std.specs.Prelude.{◌≡◌, IfOk, IfErr};
ghost use Rattle.input_package.specs.declared.reading.InputError.TheVariants.{OutOfMemory};
ghost use Rattle.part_events.specs.Words.{state_of};
ghost use Rattle.workbook_file.specs.Contents.{file_state};
ghost use Rattle.input_package.specs.Told.{told_of, told_state};

use crate::reading::InputError;
use part_events::{MemoryPackage, Package, PackageError, PartEvent};
use std::alloc::Global;
use std::marker::Model;
use workbook_file::WorkbookFile;

/// What a package was read from.
#[derive(Drop)]
pub enum Held {
    Text(MemoryPackage),
    File(WorkbookFile),
}

/// A package that a command is given. It tells its content, and no call of it as a package fails
/// but for want of memory.
#[derive(Drop)]
pub struct InputPackage {
    held: Held,
}

impl Model for InputPackage {
    ghost use Rattle.input_package.specs.Told.{Told, told_of, held_state};

    ghost Value = { Told };

    ghost view = { λ a. told_of (held_state a.held) };
}

impl InputPackage {
    /// A package in memory as one that a command is given.
    pub fn in_memory(held: MemoryPackage) -> InputPackage
        ensures { result ≡ told_of (state_of held) }
    {
        InputPackage {
            held: Held::Text(held),
        }
    }

    /// A workbook file as a package that a command is given.
    pub fn of_file(held: WorkbookFile) -> InputPackage
        ensures { result ≡ told_of (file_state held) }
    {
        InputPackage {
            held: Held::File(held),
        }
    }

    /// The same parts as a package in memory: those of a workbook file unpacked and cut, one after
    /// the other. Want of memory alone refuses it.
    pub fn into_memory(self, alloc: Global) -> Result<MemoryPackage, InputError>
        ensures ok { IfOk result (λ held. held.parts ≡ self.parts) }
        ensures err { IfErr result (λ error. error ≡ OutOfMemory) }
    {
        match self.held {
            Held::Text(held) => Ok(held),
            Held::File(file) => match file.into_memory(alloc) {
                Ok(held) => Ok(held),
                Err(_) => Err(InputError::OutOfMemory),
            },
        }
    }
}

impl Package for InputPackage {
    ghost state = { told_state };

    fn open(&mut self, name: &str) -> Result<bool, PackageError> {
        match &mut self.held {
            Held::Text(held) => held.open(name),
            Held::File(held) => held.open(name),
        }
    }

    fn advance(&mut self) -> Result<bool, PackageError> {
        match &mut self.held {
            Held::Text(held) => held.advance(),
            Held::File(held) => held.advance(),
        }
    }

    fn event(&self) -> PartEvent<'_> {
        match &self.held {
            Held::Text(held) => held.event(),
            Held::File(held) => held.event(),
        }
    }

    fn left(&self) -> u64 {
        match &self.held {
            Held::Text(held) => held.left(),
            Held::File(held) => held.left(),
        }
    }

    fn taken(&self) -> u64 {
        match &self.held {
            Held::Text(held) => held.taken(),
            Held::File(held) => held.taken(),
        }
    }

    fn faults(&self) -> u64 {
        match &self.held {
            Held::Text(held) => held.faults(),
            Held::File(held) => held.faults(),
        }
    }
}
