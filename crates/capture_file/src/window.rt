//! The octets that were taken of a source and not read yet.

ghost use Rattle.std.specs.Prelude.{◌≡◌, ◌≤◌, ◌<◌, ◌++◌, List, ℕ, [], length, take, drop, IsTrue, IfOk, OnOk, OnErr, false};
ghost use Rattle.std.specs.Io.{ReadsAtMost};
ghost use Rattle.std.specs.Io.KnownBytes.{IsAtEnd};
ghost use Rattle.outside_io.specs.Causes.{HasCause};
ghost use Rattle.outside_io.specs.Octets.{Takes, ReadTakes, EndsWhereDone};

use acct_types::NoMemory;
use outside_io::{IoFault, Source};
use std::alloc::Global;

/// The octets of the longest event: a header of 31, and 65,535 behind it.
const LONGEST_EVENT: usize = 65566;

/// A buffer that is made for the first read, and used again for each later one. The octets from `start` to `end` are ahead.
#[derive(Debug, Drop)]
pub struct Window {
    alloc: Global,
    buffer: Vec<u8>,
    start: usize,
    end: usize,
    ghost ordered: { start ≤ end },
    ghost within: { end ≤ length buffer.items },
    ghost sized: { 0 < length buffer.items → length buffer.items ≡ 65566 },
}

// Reads behind the first `end` octets of a buffer.
fn read_at_end<S: Source>(source: &mut S, buffer: &mut [u8], end: usize) -> Result<usize, IoFault>
    requires { end < length buffer.old }
    ensures kept { take end buffer.new ≡ take end buffer.old }
    ensures bound { ReadsAtMost result (drop end buffer.new) }
    ensures octets { ReadTakes (S.state source.old).left (S.state source.new).left result (drop end buffer.new) }
    ensures end { IfOk result (λ n. n ≡ 0 → IsAtEnd (S.state source.old).left) }
    ensures cause { HasCause (S.state source.old).faults (S.state source.new).faults result }
{
    source.read(&mut buffer[end..])
}

impl Window {
    ghost use Rattle.std.specs.Prelude.{◌-◌};
    ghost use Rattle.capture_file.specs.Window.{ahead_of};

    /// No octet is ahead. Takes no memory.
    pub fn new(alloc: Global) -> Window
        ensures { ahead_of result ≡ [] }
    {
        Window {
            alloc,
            buffer: Vec::new(alloc),
            start: 0,
            end: 0,
        }
    }

    /// The octets ahead.
    pub fn as_slice(&self) -> &[u8]
        ensures value { result.now ≡ ahead_of self.now }
        ensures bound { length (ahead_of self.now) ≤ 65566 }
    {
        &self.buffer[self.start..self.end]
    }

    /// Drops the first octets ahead.
    pub fn skip(&mut self, count: usize)
        requires { count ≤ length (ahead_of self.old) }
        ensures { ahead_of self.new ≡ drop count (ahead_of self.old) }
    {
        self.start += count;
    }

    fn make_buffer(&mut self) -> Result<(), NoMemory>
        ensures ahead { ahead_of self.new ≡ ahead_of self.old }
        ensures made { OnOk result (length self.new.buffer.items ≡ 65566) }
    {
        if self.buffer.is_empty() {
            let mut buffer = Vec::new(self.alloc);
            buffer.resize(LONGEST_EVENT, 0)?;
            self.buffer = buffer;
        }
        Ok(())
    }

    fn move_to_front(&mut self)
        ensures ahead { ahead_of self.new ≡ ahead_of self.old }
        ensures buffer { length self.new.buffer.items ≡ length self.old.buffer.items }
        ensures front { self.new.end ≡ self.old.end - self.old.start }
    {
        let (start, end) = (self.start, self.end);
        self.buffer.copy_within(start..end, 0);
        self.start = 0;
        self.end = end - start;
    }

    // Where the buffer is full behind the octets ahead, they go to its front.
    fn make_room(&mut self) -> Result<(), NoMemory>
        requires { length (ahead_of self.old) < 65566 }
        ensures ahead { ahead_of self.new ≡ ahead_of self.old }
        ensures room { OnOk result (self.new.end < length self.new.buffer.items) }
    {
        self.make_buffer()?;
        if self.end == self.buffer.len() {
            self.move_to_front();
        }
        Ok(())
    }

    /// Takes octets of the source, as many as it gives at once and as fit behind those ahead. How many: none only where it has none left.
    /// After an error none was taken.
    pub fn refill<S: Source>(&mut self, source: &mut S) -> Result<usize, IoFault>
        requires { length (ahead_of self.old) < 65566 }
        ensures octets { IfOk result (λ n. (octets : List ℕ) × (length octets ≡ n) × (ahead_of self.new ≡ ahead_of self.old ++ octets)
            × Takes (S.state source.old).left octets (S.state source.new).left) }
        ensures end { IfOk result (λ n. n ≡ 0 → IsAtEnd (S.state source.new).left) }
        ensures err { OnErr result ((ahead_of self.new ≡ ahead_of self.old) × ((S.state source.new).left ≡ (S.state source.old).left)) }
        ensures cause { HasCause (S.state source.old).faults (S.state source.new).faults result }
    {
        self.make_room()?;
        let end = self.end;
        let count = read_at_end(source, self.buffer.as_mut_slice(), end)?;
        self.end = end + count;
        Ok(count)
    }
}
