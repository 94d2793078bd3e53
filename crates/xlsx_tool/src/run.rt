ghost use Rattle.std.specs.Prelude.{◌≡◌, ◌≢◌, ◌<◌, ◌^◌, length, true, is_some, Some, IfOk, OnOk};
ghost use Rattle.std.specs.Prelude.{IfErr};
ghost use Rattle.xlsx_commands.specs.Words.{texts, request_meant, request_of, request_parts};
ghost use Rattle.xlsx_tool.specs.Run.{Streams, Succeeds, RefusesRun, AnswersExactly, NoPackage};
ghost use Rattle.xlsx_tool.specs.Run.{PackageFed, FeedingFails, AnswerRead, ReadingFails, IsSent};
ghost use Rattle.xlsx_tool.specs.Run.{SendFails, reads_nothing};
ghost use Rattle.input_package.specs.Reading.{package_of_input};
ghost use Rattle.xlsx_commands.specs.declared.error.ToolError.TheVariants.{WriteFault};

use crate::input::read_input;
use crate::sink::Sink;
use crate::source::Source;
use input_package::{InputError, InputPackage, read_package};
use std::alloc::Global;
use xlsx_commands::{
    Request, ToolError, answer_of, causes_leave_no_answer, package_of_request, request_of,
};

/// The package that the bytes are.
fn package_from(alloc: Global, bytes: Vec<u8>) -> Result<InputPackage, ToolError>
    requires { length bytes.items < 2 ^ 56 }
    ensures ok { IfOk result (λ held. package_of_input bytes.items ≡ Some held.parts) }
    ensures err { IfErr result (NoPackage bytes.items) }
{
    match read_package(alloc, bytes) {
        Ok(package) => Ok(package),
        Err(InputError::NotAPackage) => Err(ToolError::NotAPackage),
        Err(InputError::NotAWorkbookFile(fault)) => Err(ToolError::NotAWorkbookFile(fault)),
        Err(InputError::OutOfMemory) => Err(ToolError::OutOfMemory),
    }
}

/// The package that the command works on: its own, or the one that the source spells.
fn package_for<S: Source>(
    alloc: Global,
    request: Request<'_>,
    source: &mut S,
) -> Result<InputPackage, ToolError>
    ensures ok { let old = S.state source.old in
        let new = S.state source.new in
        IfOk result (λ held. PackageFed (request_meant request.entry) held.parts old new) }
    ensures err { let old = S.state source.old in
        let new = S.state source.new in
        IfErr result (FeedingFails (request_meant request.entry) old new) }
    ensures unread { is_some (request_parts (request_meant request.entry)) ≡ true
        → S.state source.new ≡ S.state source.old }
{
    if let Some(package) = package_of_request(alloc, request)? {
        return Ok(package);
    }
    let bytes = read_input(alloc, source)?;
    package_from(alloc, bytes)
}

/// The output of the command on the package that it works on.
fn output_from<S: Source>(
    alloc: Global,
    request: Request<'_>,
    source: &mut S,
) -> Result<Vec<u8>, ToolError>
    ensures ok { let old = S.state source.old in
        let new = S.state source.new in
        IfOk result (λ output. AnswerRead (request_meant request.entry) output.items old new) }
    ensures err { let old = S.state source.old in
        let new = S.state source.new in
        IfErr result (ReadingFails (request_meant request.entry) old new) }
    ensures unread { is_some (request_parts (request_meant request.entry)) ≡ true
        → S.state source.new ≡ S.state source.old }
{
    let package = package_for(alloc, request, source)?;
    answer_of(alloc, request, package)
}

/// Writes the bytes, whole. A failure of the sink is refused as `WriteFault`.
pub fn send<K: Sink>(sink: &mut K, bytes: &[u8]) -> Result<(), ToolError>
    ensures ok { OnOk result (IsSent bytes.now (K.state sink.old) (K.state sink.new)) }
    ensures err { IfErr result (SendFails bytes.now (K.state sink.old) (K.state sink.new)) }
{
    let mut rest = bytes;
    'pieces: while !rest.is_empty() {
        let Ok(count) = sink.write(rest) else {
            return Err(ToolError::WriteFault);
        };
        rest = &rest[count..];
    }
    Ok(())
}

/// The command of these words, by what stands behind Ok and behind each refusal.
fn run_request<S: Source, K: Sink>(
    alloc: Global,
    words: &[String],
    source: &mut S,
    sink: &mut K,
) -> Result<(), ToolError>
    ensures ok { let words = texts words.now in
        let old : Streams = record { source = S.state source.old; sink = K.state sink.old } in
        let new : Streams = record { source = S.state source.new; sink = K.state sink.new } in
        OnOk result (Succeeds words old new) }
    ensures err { let words = texts words.now in
        let old : Streams = record { source = S.state source.old; sink = K.state sink.old } in
        let new : Streams = record { source = S.state source.new; sink = K.state sink.new } in
        IfErr result (RefusesRun words old new) }
    ensures unread { reads_nothing (request_of (texts words.now)) ≡ true
        → S.state source.new ≡ S.state source.old }
    ensures unwritten { IfErr result (λ e. e ≢ WriteFault → K.state sink.new ≡ K.state sink.old) }
{
    let Some(request) = request_of(words) else {
        return Err(ToolError::Usage);
    };
    let output = output_from(alloc, request, source)?;
    send(sink, &output)
}

/// Runs the command of these words (docs/FORMAT.md): reads the package that it works on from the
/// source, unless the command has one of its own, and writes its output on that to the sink. Where
/// the words choose a sheet and tell no name, that is the output on the sheet chosen.
///
/// Answers the refusal with its status otherwise. A run that is refused before the output is
/// written leaves the sink as it was.
pub fn run<S: Source, K: Sink>(
    alloc: Global,
    words: &[String],
    source: &mut S,
    sink: &mut K,
) -> Result<(), ToolError>
    ensures ok { let words = texts words.now in
        let old : Streams = record { source = S.state source.old; sink = K.state sink.old } in
        let new : Streams = record { source = S.state source.new; sink = K.state sink.new } in
        OnOk result (Succeeds words old new) }
    ensures err { let words = texts words.now in
        let old : Streams = record { source = S.state source.old; sink = K.state sink.old } in
        let new : Streams = record { source = S.state source.new; sink = K.state sink.new } in
        IfErr result (RefusesRun words old new) }
    ensures unread { reads_nothing (request_of (texts words.now)) ≡ true
        → S.state source.new ≡ S.state source.old }
    ensures unwritten { IfErr result (λ e. e ≢ WriteFault → K.state sink.new ≡ K.state sink.old) }
    ensures exact { let old = S.state source.old in
        AnswersExactly (texts words.now) old result }
{
    causes_leave_no_answer();
    run_request(alloc, words, source, sink)
}
