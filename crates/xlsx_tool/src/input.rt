ghost use Rattle.std.specs.Prelude.{◌≡◌, ◌<◌, length, if◌then◌else◌, IfOk, IfErr};
ghost use Rattle.input_package.specs.Reading.{begins_as_file};
ghost use Rattle.xlsx_commands.specs.declared.error.ToolError.TheVariants.{FileTooLarge};
ghost use Rattle.xlsx_commands.specs.declared.error.ToolError.TheVariants.{InputTooLarge};
ghost use Rattle.xlsx_tool.specs.Input.{InputRead, InputFails, PieceRead, PieceFails};

use crate::source::Source;
use input_package::{begins_as_file, longest_input};
use std::alloc::Global;
use xlsx_commands::ToolError;

/// How many bytes are asked for at a time.
const PIECE: usize = 65_536;

/// Appends the next bytes, at most as many as the piece is long, and answers false at the source's
/// end.
fn read_piece<S: Source>(
    source: &mut S,
    bytes: &mut Vec<u8>,
    piece: &mut [u8],
) -> Result<bool, ToolError>
    requires { 0 < length piece.old }
    ensures ok { let old = S.state source.old in
        let new = S.state source.new in
        IfOk result (PieceRead (length piece.new) bytes.old.items bytes.new.items old new) }
    ensures err { IfErr result (PieceFails (S.state source.old) (S.state source.new)) }
{
    let Ok(count) = source.read(piece) else {
        return Err(ToolError::ReadFault);
    };
    if count == 0 {
        return Ok(false);
    }
    bytes.extend_from_slice(&piece[..count])?;
    Ok(true)
}

/// Why an input that begins so isn't read past its limit.
fn past_limit(bytes: &[u8]) -> ToolError
    ensures { result ≡ (if begins_as_file bytes.now then FileTooLarge else InputTooLarge) }
{
    if begins_as_file(bytes) {
        ToolError::FileTooLarge
    } else {
        ToolError::InputTooLarge
    }
}

/// Reads the source to its end. More bytes than an input may have that begins so are refused as
/// `FileTooLarge` or `InputTooLarge`, and a failure of the source as `ReadFault`.
pub fn read_input<S: Source>(alloc: Global, source: &mut S) -> Result<Vec<u8>, ToolError>
    ensures ok { let old = S.state source.old in
        let new = S.state source.new in
        IfOk result (λ bytes. InputRead bytes.items old new) }
    ensures err { IfErr result (InputFails (S.state source.old) (S.state source.new)) }
{
    let mut bytes = Vec::new(alloc);
    let mut piece = vec![in alloc; 0u8; PIECE]?;
    let mut limit = longest_input(&bytes);
    'pieces: while bytes.len() <= limit {
        let room = PIECE.min(limit + 1 - bytes.len());
        if !read_piece(source, &mut bytes, &mut piece[..room])? {
            return Ok(bytes);
        }
        limit = longest_input(&bytes);
    }
    Err(past_limit(&bytes))
}
