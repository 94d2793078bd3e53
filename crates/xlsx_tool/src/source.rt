ghost use Rattle.std.specs.Prelude.{◌≡◌, ◌<◌, ◌≤◌, ◌↔◌, length, true, Contains, IsErr, IfOk, OnOk};
ghost use Rattle.std.specs.Prelude.{OnErr};
ghost use Rattle.std.specs.Io.KnownBytes.{ReadConsumes};
ghost use Rattle.xlsx_tool.specs.Source.{SourceState, KeepsSource, GivesFront, EndsAtZero};
ghost use Rattle.xlsx_tool.specs.Source.{SourceFails};
ghost use Rattle.xlsx_tool.specs.MemoryForms.{source_state, CountsRead};
ghost use Rattle.xlsx_tool.specs.StdForms.{untold_source};

use std::io::Read;
use std::marker::Model;

/// A source could not be read: its count of faults rose, or stands at its end.
#[derive(Clone, Copy, Debug, PartialEq, Eq)]
pub struct SourceFailed;

/// Bytes that are read once, from the front. Whether a source tells proofs its bytes is its own
/// choice.
pub trait Source {
    ghost state: { Self → SourceState };

    /// Puts the next bytes into the front of the piece, and answers how many. Answers 0 for a piece
    /// with room only at the end.
    fn read(&mut self, into: &mut [u8]) -> Result<usize, SourceFailed>
        ensures count { IfOk result (λ n. n ≤ length into.new) }
        ensures keeps { KeepsSource (state self.old) (state self.new) }
        ensures ok { OnOk result ((state self.new).faults ≡ (state self.old).faults) }
        ensures bytes { let old = state self.old in
            let new = state self.new in
            old.is_visible ≡ true → IfOk result (λ n. GivesFront n into.new old new) }
        ensures end { let old = state self.old in
            old.is_visible ≡ true → IfOk result (λ n. EndsAtZero n into.new old) }
        ensures failed { OnErr result (SourceFails (state self.old) (state self.new)) };

    /// How often a call failed. The count never falls, and stops at its last value.
    fn faults(&self) -> u64
        ensures { result ≡ (state self.now).faults };
}

/// Bytes in memory, given in pieces, some calls failing as planned.
#[derive(Debug, Drop)]
pub struct MemorySource {
    bytes: Vec<u8>,
    at: usize,
    piece: usize,
    fail_at: Vec<u64>,
    calls: u64,
    faults: u64,
}

impl Model for MemorySource {
    ghost use Rattle.std.specs.Prelude.{◌<◌, ◌≤◌, ◌^◌, drop, vec_len};
    ghost use Rattle.xlsx_tool.specs.MemoryForms.{HeldSource};

    ghost Value = { HeldSource };

    ghost view = { λ a. record {
      left = drop a.at a.bytes.items;
      piece = a.piece;
      fail_at = a.fail_at.items;
      calls = a.calls;
      faults = a.faults;
    } };

    ghost invariant = { λ a. (a.at ≤ vec_len a.bytes) × (0 < a.piece) × (a.faults < 2 ^ 64) };
}

impl MemorySource {
    /// A source of these bytes that gives at most `piece` bytes a call, and whose calls of these
    /// numbers, counted from 0, fail.
    pub fn new(bytes: Vec<u8>, piece: usize, fail_at: Vec<u64>) -> MemorySource
        requires { 0 < piece }
        ensures { result ≡ record {
          left = bytes.items;
          piece = piece;
          fail_at = fail_at.items;
          calls = 0;
          faults = 0;
        } }
    {
        MemorySource {
            bytes,
            at: 0,
            piece,
            fail_at,
            calls: 0,
            faults: 0,
        }
    }
}

impl Source for MemorySource {
    ghost state = { source_state };

    fn read(&mut self, into: &mut [u8]) -> Result<usize, SourceFailed>
        ensures count { IfOk result (λ n. n ≤ length into.new) }
        ensures keeps { KeepsSource (source_state self.old) (source_state self.new) }
        ensures ok { OnOk result (self.new.faults ≡ self.old.faults) }
        ensures bytes { let old = source_state self.old in
            let new = source_state self.new in
            IfOk result (λ n. GivesFront n into.new old new) }
        ensures end { IfOk result (λ n. EndsAtZero n into.new (source_state self.old)) }
        ensures failed { let old = source_state self.old in
            OnErr result (SourceFails old (source_state self.new)) }
        ensures planned { IsErr result ↔ Contains self.old.fail_at self.old.calls }
        ensures few { IfOk result (λ n. n ≤ self.old.piece) }
        ensures counts { CountsRead self.old self.new }
    {
        let call = self.calls;
        self.calls = call.saturating_add(1);
        if self.fail_at.contains(&call) {
            self.faults = self.faults.saturating_add(1);
            return Err(SourceFailed);
        }
        let count = self.piece.min(into.len()).min(self.bytes.len() - self.at);
        into[..count].copy_from_slice(&self.bytes[self.at..self.at + count]);
        self.at += count;
        Ok(count)
    }

    fn faults(&self) -> u64 {
        self.faults
    }
}

/// A reader as a source. Of the bytes it tells, as `read`, what the reader tells; as a source it
/// tells none.
#[derive(Debug, Drop)]
pub struct StdSource<R: Read> {
    inner: R,
    faults: u64,
}

impl<R: Read> Model for StdSource<R> {
    ghost use Rattle.xlsx_tool.specs.StdForms.{ReaderState};

    ghost Value = { ReaderState };

    ghost view = { λ a. record { left = R.remaining a.inner; faults = a.faults } };
}

impl<R: Read> StdSource<R> {
    /// The source of what this reader gives.
    pub fn new(inner: R) -> StdSource<R>
        ensures { result ≡ record { left = R.remaining inner; faults = 0 } }
    {
        StdSource { inner, faults: 0 }
    }
}

impl<R: Read> Source for StdSource<R> {
    ghost state = { untold_source };

    fn read(&mut self, into: &mut [u8]) -> Result<usize, SourceFailed>
        ensures count { IfOk result (λ n. n ≤ length into.new) }
        ensures keeps { KeepsSource (untold_source self.old) (untold_source self.new) }
        ensures ok { OnOk result (self.new.faults ≡ self.old.faults) }
        ensures bytes { ReadConsumes self.old.left self.new.left result into.new }
        ensures failed { let old = untold_source self.old in
            OnErr result (SourceFails old (untold_source self.new)) }
    {
        match self.inner.read(into) {
            Ok(count) => Ok(count),
            Err(_) => {
                self.faults = self.faults.saturating_add(1);
                Err(SourceFailed)
            }
        }
    }

    fn faults(&self) -> u64 {
        self.faults
    }
}
