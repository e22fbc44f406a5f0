// A source and a sink in memory, which fail at chosen calls.
ghost use Rattle.std.specs.Prelude.{◌≡◌, ◌<◌, ◌≤◌, ◌↔◌, [], length, drop, take, min, Some, IfOk, IsErr, Contains};
ghost use Rattle.std.specs.Io.KnownBytes.{ReadConsumes, WriteAppends};
ghost use Rattle.plan_base.specs.Causes.{CountsFaults, next_count};

use crate::copying::copy_from;
use crate::faults::{answer, count_fault};
use crate::{Failed, Sink, Source};
use std::alloc::Global;
use std::marker::Model;

/// A source in memory. It tells what it has left.
#[derive(Drop)]
pub struct MemSource {
    bytes: Vec<u8>,
    at: usize,
    fails: Vec<u64>,
    most: usize,
    calls: u64,
    faults: u64,
}

impl Model for MemSource {
    ghost use Rattle.std.specs.Prelude.{◌<◌, drop};
    ghost use Rattle.plan_base.specs.Streams.{MemSourceView};

    ghost Value = { MemSourceView };

    ghost view = { λ s. record { left = drop s.at s.bytes.items; fails = s.fails.items; most = s.most; calls = s.calls; faults = s.faults } };

    ghost invariant = { λ s. 0 < s.most };
}

impl MemSource {
    /// Gives `bytes`. `fails` lists the numbers, from 1, of the reads that are to fail; `most` is the greatest number
    /// of bytes that one read moves.
    pub fn new(_alloc: Global, bytes: Vec<u8>, fails: Vec<u64>, most: usize) -> MemSource
        requires { 0 < most }
        ensures { result ≡ record { left = bytes.items; fails = fails.items; most = most; calls = 0; faults = 0 } }
    {
        MemSource {
            bytes,
            at: 0,
            fails,
            most,
            calls: 0,
            faults: 0,
        }
    }
}

impl Source for MemSource {
    ghost left = { λ s. Some s.left };

    ghost calls = { λ s. s.calls };

    ghost faults = { λ s. s.faults };

    fn read(&mut self, into: &mut [u8]) -> Result<usize, Failed>
        ensures bound { IfOk result (λ n. n ≤ length into.new) }
        ensures bytes { ReadConsumes (Some self.old.left) (Some self.new.left) result into.new }
        ensures count { self.new.calls ≡ next_count self.old.calls }
        ensures cause { CountsFaults self.old.faults self.new.faults result }

        ensures listed { IsErr result ↔ Contains self.old.fails (next_count self.old.calls) }
        ensures moved { IfOk result (λ n. n ≡ min self.old.most (min (length self.old.left) (length into.new))) }
        ensures fails { self.new.fails ≡ self.old.fails }
        ensures most { self.new.most ≡ self.old.most }
    {
        self.calls = self.calls.saturating_add(1);
        answer(&self.fails, self.calls, &mut self.faults)?;
        let count = copy_from(&self.bytes, self.at, self.most, into);
        self.at += count;
        Ok(count)
    }
}

/// A sink in memory. It tells what it holds.
#[derive(Drop)]
pub struct MemSink {
    bytes: Vec<u8>,
    fails: Vec<u64>,
    most: usize,
    calls: u64,
    faults: u64,
}

impl Model for MemSink {
    ghost use Rattle.std.specs.Prelude.{◌<◌};
    ghost use Rattle.plan_base.specs.Streams.{MemSinkView};

    ghost Value = { MemSinkView };

    ghost view = { λ s. record { held = s.bytes.items; fails = s.fails.items; most = s.most; calls = s.calls; faults = s.faults } };

    ghost invariant = { λ s. 0 < s.most };
}

impl MemSink {
    /// Holds nothing yet. `fails` lists the numbers, from 1, of the writes that are to fail; `most` is the greatest
    /// number of bytes that one write moves.
    pub fn new(alloc: Global, fails: Vec<u64>, most: usize) -> MemSink
        requires { 0 < most }
        ensures { result ≡ record { held = []; fails = fails.items; most = most; calls = 0; faults = 0 } }
    {
        MemSink {
            bytes: Vec::new(alloc),
            fails,
            most,
            calls: 0,
            faults: 0,
        }
    }

    /// The bytes that it holds.
    pub fn bytes(&self) -> &[u8]
        ensures { result.now ≡ self.now.held }
    {
        &self.bytes
    }
}

impl Sink for MemSink {
    ghost held = { λ s. Some s.held };

    ghost faults = { λ s. s.faults };

    /// A write also fails where no memory is left.
    fn write(&mut self, bytes: &[u8]) -> Result<usize, Failed>
        ensures bound { IfOk result (λ n. n ≤ length bytes.now) }
        ensures some { IfOk result (λ n. 0 < length bytes.now → 0 < n) }
        ensures bytes { WriteAppends (Some self.old.held) (Some self.new.held) result bytes.now }
        ensures cause { CountsFaults self.old.faults self.new.faults result }

        ensures listed { Contains self.old.fails (next_count self.old.calls) → IsErr result }
        ensures moved { IfOk result (λ n. n ≡ min self.old.most (length bytes.now)) }
        ensures count { self.new.calls ≡ next_count self.old.calls }
        ensures fails { self.new.fails ≡ self.old.fails }
        ensures most { self.new.most ≡ self.old.most }
    {
        self.calls = self.calls.saturating_add(1);
        answer(&self.fails, self.calls, &mut self.faults)?;
        let count = bytes.len().min(self.most);
        match self.bytes.extend_from_slice(&bytes[..count]) {
            Ok(()) => Ok(count),
            Err(_) => Err(count_fault(&mut self.faults)),
        }
    }
}
