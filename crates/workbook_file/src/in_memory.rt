//! Parts that are unpacked into a package in memory.
ghost use Rattle.std.specs.Prelude.{◌≡◌, ◌++◌, ◌∷◌, [], OnOk};
ghost use Rattle.part_events.specs.Words.{closed, Part};
ghost use Rattle.workbook_file.specs.OpenEvents.{rest_of};

use crate::open_part::OpenPart;
use part_events::MemoryPackage;
use std::alloc::AllocError;

/// Appends a part of this name, with the events that the open part still gives.
pub fn push_part(held: &mut MemoryPackage, name: &str, part: OpenPart) -> Result<(), AllocError>
    ensures { let own : Part = record { name = name.now; events = rest_of part } in
        OnOk result (held.new ≡ closed (held.old.parts ++ own ∷ []) held.old.taken) }
{
    held.add_part(name)?;
    let mut ahead = part;
    'events: while ahead.advance() {
        held.push_event(ahead.event())?;
    }
    Ok(())
}
