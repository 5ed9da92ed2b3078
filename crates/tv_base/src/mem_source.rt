//! A source in memory, whose calls fail where they are told to.

ghost use Rattle.std.specs.Prelude.{◌≡◌, ◌-◌, ◌^◌, ◌<◌, ◌≤◌, ◌↔◌, ◌++◌, length, take, drop, min, Some, Contains, IsTrue, IsErr, IfOk, OnErr};
ghost use Rattle.std.specs.Io.KnownBytes.{Consumes, IsAtEnd};
ghost use Rattle.tv_base.specs.Faults.{Rose, one_more};

use crate::{Failed, Source};
use std::marker::Model;

/// A source of the bytes that it was made with. A call gives at most so many bytes as a step has.
/// Calls are numbered from 1, and those whose numbers it was given fail and read nothing.
#[derive(Debug, Drop)]
pub struct MemSource {
    bytes: Vec<u8>,
    at: usize,
    step: usize,
    fail: Vec<u32>,
    calls: u64,
    faults: u64,
}

impl Model for MemSource {
    ghost use Rattle.std.specs.Prelude.{◌≤◌, length, drop};
    ghost use Rattle.tv_base.specs.Memory.{SourceState};

    ghost Value = { SourceState };

    ghost view = { λ s. record {
      left = drop s.at s.bytes.items;
      step = s.step;
      fail = s.fail.items;
      calls = s.calls;
      faults = s.faults;
    } };

    ghost invariant = { λ s. (s.at ≤ length s.bytes.items) × (1 ≤ s.step) };
}

impl MemSource {
    /// A source of these bytes, whose calls of the numbers in `fail` fail. A call gives as many
    /// bytes as are left and its buffer can have. A number of a call is a `u64` that stays at its
    /// greatest value.
    pub fn new(bytes: Vec<u8>, fail: Vec<u32>) -> Self
        ensures { result ≡ record {
          left = bytes.items;
          step = 2 ^ 64 - 1;
          fail = fail.items;
          calls = 0;
          faults = 0;
        } }
    {
        MemSource::in_steps(bytes, usize::MAX, fail)
    }

    /// The same, but a call gives at most `step` bytes.
    pub fn in_steps(bytes: Vec<u8>, step: usize, fail: Vec<u32>) -> Self
        requires { 1 ≤ step }
        ensures { result ≡ record {
          left = bytes.items;
          step = step;
          fail = fail.items;
          calls = 0;
          faults = 0;
        } }
    {
        MemSource {
            bytes,
            at: 0,
            step,
            fail,
            calls: 0,
            faults: 0,
        }
    }
}

/// Whether the call of this number is one of those that fail.
fn is_listed(fail: &[u32], call: u64) -> bool
    ensures { IsTrue result ↔ Contains fail.now call }
{
    fail.iter().any(|listed| u64::from(*listed) == call)
}

/// Copies as many bytes as both have, and at most so many, to the beginning of the buffer, and says
/// how many they are.
fn copy_prefix(from: &[u8], most: usize, buffer: &mut [u8]) -> usize
    ensures count { result ≡ min (min (length buffer.old) (length from.now)) most }
    ensures copied { buffer.new ≡ take result from.now ++ drop result buffer.old }
{
    let count = buffer.len().min(from.len()).min(most);
    buffer[..count].copy_from_slice(&from[..count]);
    count
}

impl Source for MemSource {
    ghost left = { λ s. Some s.left };

    ghost faults = { λ s. s.faults };

    fn read(&mut self, buffer: &mut [u8]) -> Result<usize, Failed>
        ensures later { self.old.faults ≤ self.new.faults }
        ensures fits { IfOk result (λ n. n ≤ length buffer.new) }
        ensures bytes { IfOk result (λ n.
            Consumes (Some self.old.left) (Some self.new.left) (take n buffer.new)) }
        ensures end { IfOk result (λ n.
            n ≡ 0 → 0 < length buffer.new → IsAtEnd (Some self.new.left)) }
        ensures failed { OnErr result (Rose self.old.faults self.new.faults) }

        // A call fails exactly where its number is listed.
        ensures listed { IsErr result ↔ Contains self.old.fail (one_more self.old.calls) }
        ensures count { IfOk result (λ n.
            n ≡ min (min (length buffer.old) (length self.old.left)) self.old.step) }
        ensures copied { IfOk result (λ n. buffer.new ≡ take n self.old.left ++ drop n buffer.old) }
        ensures ok { IfOk result (λ n. self.new ≡ record self.old {
          left = drop n self.old.left;
          calls = one_more self.old.calls;
        }) }
        ensures buffer { OnErr result (buffer.new ≡ buffer.old) }
        ensures err { OnErr result (self.new ≡ record self.old {
          calls = one_more self.old.calls;
          faults = one_more self.old.faults;
        }) }
    {
        self.calls = self.calls.saturating_add(1);
        if is_listed(&self.fail, self.calls) {
            self.faults = self.faults.saturating_add(1);
            return Err(Failed);
        }
        let count = copy_prefix(&self.bytes[self.at..], self.step, buffer);
        self.at += count;
        Ok(count)
    }
}
