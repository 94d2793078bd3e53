//! What holds of every checksum.
ghost use Rattle.std.specs.Prelude.{◌≡◌, ℕ, List, ◌++◌};
ghost use Rattle.crc32.specs.Crc.{after_bytes};

/// A checksum goes on: the register after bytes and more bytes is the one after these, from the
/// register after those.
pub fn checksum_goes_on()
    ensures { (register : ℕ) (bytes more : List ℕ) → after_bytes register (bytes ++ more)
        ≡ after_bytes (after_bytes register bytes) more }
{}
