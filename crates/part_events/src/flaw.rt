ghost use Rattle.std.specs.Prelude.{◌≡◌};
ghost use Rattle.part_events.specs.StreamFaults.{flaw_description};

/// Why nothing is told of a part from one of its events on.
#[derive(Clone, Copy, Debug, PartialEq, Eq)]
pub enum Flaw {
    /// No markup begins there.
    Malformed,
    /// The bytes of the part are no text: they aren't UTF-8, have a character 0, or declare
    /// another encoding.
    NotText,
    /// The archive has the part encrypted.
    Encrypted,
    /// The archive has it packed by a method that isn't read.
    UnknownMethod,
    /// It unpacks to more bytes than are read of a part.
    TooLarge,
    /// The archive has no whole contents of it.
    Damaged,
    /// It unpacks to another number of bytes than the archive says.
    WrongSize,
    /// Its bytes have another checksum than the archive says.
    WrongChecksum,
}

impl Flaw {
    /// What is wrong, in words.
    pub fn description(&self) -> &'static str
        ensures { result.now ≡ flaw_description self.now }
    {
        match self {
            Flaw::Malformed => "malformed markup",
            Flaw::NotText => "not a text in UTF-8",
            Flaw::Encrypted => "encrypted",
            Flaw::UnknownMethod => "unknown compression method",
            Flaw::TooLarge => "too large",
            Flaw::Damaged => "damaged",
            Flaw::WrongSize => "wrong size",
            Flaw::WrongChecksum => "wrong checksum",
        }
    }
}
