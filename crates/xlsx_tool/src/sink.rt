ghost use Rattle.std.specs.Prelude.{◌≡◌, ◌<◌, ◌≤◌, ◌↔◌, [], length, take, true, IsErr, IfOk, OnOk};
ghost use Rattle.std.specs.Prelude.{OnErr};
ghost use Rattle.std.specs.Io.KnownBytes.{Appends};
ghost use Rattle.part_events.specs.Words.{RisesByOne};
ghost use Rattle.xlsx_tool.specs.Sink.{SinkState, KeepsSink, TakesFront, SinkFails};
ghost use Rattle.xlsx_tool.specs.MemoryForms.{sink_state, FailsToWrite, CountsWrite};
ghost use Rattle.xlsx_tool.specs.StdForms.{untold_sink, HoldsFront};

use std::alloc::{AllocError, Global};
use std::io::Write;
use std::marker::Model;

/// A sink could not be written: its count of faults rose, or stands at its end.
#[derive(Clone, Copy, Debug, PartialEq, Eq)]
pub struct SinkFailed;

/// Takes bytes, one piece behind another. Whether a sink tells proofs its bytes is its own choice.
pub trait Sink {
    ghost state: { Self → SinkState };

    /// Takes the first bytes of the piece, and answers how many: at least one of a piece that isn't
    /// empty.
    fn write(&mut self, piece: &[u8]) -> Result<usize, SinkFailed>
        ensures count { IfOk result (λ n. n ≤ length piece.now) }
        ensures some { IfOk result (λ n. 0 < length piece.now → 0 < n) }
        ensures keeps { KeepsSink (state self.old) (state self.new) }
        ensures ok { OnOk result ((state self.new).faults ≡ (state self.old).faults) }
        ensures bytes { let old = state self.old in
            let new = state self.new in
            old.is_visible ≡ true → IfOk result (λ n. TakesFront n piece.now old new) }
        ensures failed { OnErr result (SinkFails (state self.old) (state self.new)) };

    /// How often a call failed. The count never falls, and stops at its last value.
    fn faults(&self) -> u64
        ensures { result ≡ (state self.now).faults };
}

/// Room for bytes in memory, taken in pieces, some calls failing as planned.
#[derive(Debug, Drop)]
pub struct MemorySink {
    written: Vec<u8>,
    room: usize,
    piece: usize,
    fail_at: Vec<u64>,
    calls: u64,
    faults: u64,
}

impl Model for MemorySink {
    ghost use Rattle.std.specs.Prelude.{◌<◌, ◌≤◌, ◌^◌, vec_len, vec_capacity};
    ghost use Rattle.xlsx_tool.specs.MemoryForms.{HeldSink};

    ghost Value = { HeldSink };

    ghost view = { λ a. record {
      written = a.written.items;
      room = a.room;
      piece = a.piece;
      fail_at = a.fail_at.items;
      calls = a.calls;
      faults = a.faults;
    } };

    ghost invariant = { λ a. (vec_len a.written ≤ a.room) × (a.room ≤ vec_capacity a.written)
        × (0 < a.piece) × (a.faults < 2 ^ 64) };
}

impl MemorySink {
    /// A sink that takes at most `piece` bytes a call and at most `room` bytes in all, and whose
    /// calls of these numbers, counted from 0, fail. Its room is taken from the allocator at once,
    /// so that no write takes memory.
    pub fn new(
        alloc: Global,
        room: usize,
        piece: usize,
        fail_at: Vec<u64>,
    ) -> Result<MemorySink, AllocError>
        requires { 0 < piece }
        ensures { IfOk result (λ sink. sink ≡ record {
          written = [];
          room = room;
          piece = piece;
          fail_at = fail_at.items;
          calls = 0;
          faults = 0;
        }) }
    {
        Ok(MemorySink {
            written: Vec::with_capacity(alloc, room)?,
            room,
            piece,
            fail_at,
            calls: 0,
            faults: 0,
        })
    }

    /// The bytes that were taken, never more than the room.
    pub fn written(&self) -> &[u8]
        ensures bytes { result.now ≡ self.now.written }
        ensures fits { length result.now ≤ self.now.room }
    {
        self.written.as_slice()
    }
}

impl Sink for MemorySink {
    ghost state = { sink_state };

    fn write(&mut self, piece: &[u8]) -> Result<usize, SinkFailed>
        ensures count { IfOk result (λ n. n ≤ length piece.now) }
        ensures some { IfOk result (λ n. 0 < length piece.now → 0 < n) }
        ensures keeps { KeepsSink (sink_state self.old) (sink_state self.new) }
        ensures ok { OnOk result (self.new.faults ≡ self.old.faults) }
        ensures bytes { let old = sink_state self.old in
            let new = sink_state self.new in
            IfOk result (λ n. TakesFront n piece.now old new) }
        ensures failed { OnErr result (SinkFails (sink_state self.old) (sink_state self.new)) }
        ensures planned { IsErr result ↔ FailsToWrite self.old piece.now }
        ensures few { IfOk result (λ n. n ≤ self.old.piece) }
        ensures fits { length self.new.written ≤ self.new.room }
        ensures counts { CountsWrite self.old self.new }
    {
        let call = self.calls;
        self.calls = call.saturating_add(1);
        let left = self.room - self.written.len();
        if self.fail_at.contains(&call) || (left == 0 && !piece.is_empty()) {
            self.faults = self.faults.saturating_add(1);
            return Err(SinkFailed);
        }
        let count = self.piece.min(piece.len()).min(left);
        match self.written.extend_from_slice(&piece[..count]) {
            Ok(()) => Ok(count),
            Err(_) => unreachable!(),
        }
    }

    fn faults(&self) -> u64 {
        self.faults
    }
}

/// A writer as a sink, flushed behind every piece. Of the bytes it tells, as `write`, what the
/// writer tells; as a sink it tells none.
#[derive(Debug, Drop)]
pub struct StdSink<W: Write> {
    inner: W,
    faults: u64,
}

impl<W: Write> Model for StdSink<W> {
    ghost use Rattle.xlsx_tool.specs.StdForms.{WriterState};

    ghost Value = { WriterState };

    ghost view = { λ a. record { written = W.contents a.inner; faults = a.faults } };
}

impl<W: Write> StdSink<W> {
    /// The sink that writes to this writer.
    pub fn new(inner: W) -> StdSink<W>
        ensures { result ≡ record { written = W.contents inner; faults = 0 } }
    {
        StdSink { inner, faults: 0 }
    }

    fn fail(&mut self) -> SinkFailed
        ensures cause { RisesByOne self.old.faults self.new.faults }
        ensures rises { self.old.faults ≤ self.new.faults }
        ensures keeps { self.new.written ≡ self.old.written }
    {
        self.faults = self.faults.saturating_add(1);
        SinkFailed
    }
}

impl<W: Write> Sink for StdSink<W> {
    ghost state = { untold_sink };

    fn write(&mut self, piece: &[u8]) -> Result<usize, SinkFailed>
        ensures count { IfOk result (λ n. n ≤ length piece.now) }
        ensures some { IfOk result (λ n. 0 < length piece.now → 0 < n) }
        ensures keeps { KeepsSink (untold_sink self.old) (untold_sink self.new) }
        ensures ok { OnOk result (self.new.faults ≡ self.old.faults) }
        ensures bytes { let old = self.old.written in
            IfOk result (λ n. Appends old self.new.written (take n piece.now)) }
        ensures failed { OnErr result (SinkFails (untold_sink self.old) (untold_sink self.new)) }
        ensures front { OnErr result (HoldsFront piece.now self.old self.new) }
    {
        let count = match self.inner.write(piece) {
            Ok(count) => count,
            Err(_) => return Err(self.fail()),
        };
        if count == 0 && !piece.is_empty() {
            return Err(self.fail());
        }
        match self.inner.flush() {
            Ok(()) => Ok(count),
            Err(_) => Err(self.fail()),
        }
    }

    fn faults(&self) -> u64 {
        self.faults
    }
}
