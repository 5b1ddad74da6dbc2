//! Where a reader of a capture stands, behind what it has read.

ghost use Rattle.std.specs.Prelude.{◌≡◌, ◌≤◌, ◌<◌, ◌+◌, ◌-◌, ◌^◌, ◌++◌, List, ℕ, [], length, take, false, IsTrue, IfOk, Ok, OnErr};
ghost use Rattle.std.specs.Io.KnownBytes.{IsAtEnd};
ghost use Rattle.outside_io.specs.Causes.{HasCause};
ghost use Rattle.outside_io.specs.Octets.{Takes};
ghost use Rattle.capture_file.specs.Looked.{Looked};
ghost use Rattle.capture_file.specs.Standing.{at_start, is_open, judged_at, may_turn, past_event, past_magic};

use crate::event::{judge, stamp_of};
use crate::flows::{CaptureEnd, has_magic};
use crate::read_event::ReadEvent;
use crate::window::Window;
use acct_types::NoMemory;
use outside_io::{IoFault, Source};
use std::alloc::Global;
use std::marker::Model;

/// What was read of a capture, and the octets ahead of that.
#[derive(Debug, Drop)]
pub struct Reading {
    alloc: Global,
    flows: bool,
    most: u64,
    begun: bool,
    used: u64,
    moment: u64,
    window: Window,
}

impl Model for Reading {
    ghost use Rattle.capture_file.specs.Standing.{Standing};

    ghost Value = { Standing };

    ghost use Rattle.capture_file.specs.Holds.{standing_in, IsSound};

    ghost view = { standing_in };

    ghost invariant = { IsSound };
}

fn may_turn(judged: &Result<usize, CaptureEnd>) -> bool
    ensures { result ≡ may_turn judged.now }
{
    match judged {
        Err(CaptureEnd::Ended) => true,
        Err(CaptureEnd::Torn { .. }) => true,
        _ => false,
    }
}

impl Reading {
    /// Nothing was read. Takes no memory.
    pub fn new(alloc: Global, flows: bool, most: u64) -> Reading
        requires { most ≤ 2 ^ 64 - 9 }
        ensures { result ≡ at_start flows most }
    {
        Reading {
            alloc,
            flows,
            most,
            begun: false,
            used: 0,
            moment: 0,
            window: Window::new(alloc),
        }
    }

    /// What it was made with.
    pub fn alloc(&self) -> Global {
        self.alloc
    }

    fn pass_magic(&mut self)
        ensures { self.new ≡ past_magic self.old }
    {
        if !self.begun && has_magic(self.window.as_slice()) {
            self.begun = true;
            self.window.skip(8);
        }
    }

    fn judge(&self) -> Result<usize, CaptureEnd>
        ensures judged { result ≡ judged_at self.now }
        ensures few { length self.now.ahead ≤ 65566 }
    {
        let octets = self.window.as_slice();
        if !self.begun {
            return Err(CaptureEnd::BadMagic);
        }
        judge(self.flows, octets, self.used, self.most)
    }

    fn is_open(&self, judged: &Result<usize, CaptureEnd>) -> bool
        requires { judged.now ≡ judged_at self.now }
        ensures { result ≡ is_open self.now }
    {
        if self.begun {
            may_turn(judged)
        } else {
            self.window.as_slice().len() < 8
        }
    }

    fn refill<S: Source>(&mut self, source: &mut S) -> Result<usize, IoFault>
        requires { length self.old.ahead < 65566 }
        ensures octets { IfOk result (λ n. (octets : List ℕ) × (length octets ≡ n) × (self.new ≡ record self.old { ahead = self.old.ahead ++ octets })
            × Takes (S.state source.old).left octets (S.state source.new).left) }
        ensures few { length self.new.ahead ≤ 65566 }
        ensures end { IfOk result (λ n. n ≡ 0 → IsAtEnd (S.state source.new).left) }
        ensures err { OnErr result ((self.new ≡ self.old) × ((S.state source.new).left ≡ (S.state source.old).left)) }
        ensures cause { HasCause (S.state source.old).faults (S.state source.new).faults result }
    {
        let read = self.window.refill(source);
        let _octets = self.window.as_slice();
        read
    }

    /// Reads until the octets ahead decide what stands at the front, or the source has none left. How many octets the event has that
    /// stands there, or why none does.
    pub fn look<S: Source>(&mut self, source: &mut S) -> Result<Result<usize, CaptureEnd>, IoFault>
        ensures looked { Looked self.old self.new (S.state source.old).left (S.state source.new).left result }
        ensures few { length self.new.ahead ≤ 65566 }
        ensures idle { is_open (past_magic self.old) ≡ false → source.new ≡ source.old }
        ensures cause { HasCause (S.state source.old).faults (S.state source.new).faults result }
    {
        loop {
            self.pass_magic();
            let judged = self.judge();
            if !self.is_open(&judged) {
                return Ok(judged);
            }
            if self.refill(source)? == 0 {
                return Ok(judged);
            }
        }
    }

    /// Reads the event of that width at the front. After NoMemory it stands there still.
    pub fn take_event<E: ReadEvent>(&mut self, width: usize) -> Result<E, NoMemory>
        requires { judged_at self.old ≡ Ok width }
        ensures event { IfOk result (λ event. event ≡ E.at self.old.flows self.old.moment (take width self.old.ahead)) }
        ensures behind { IfOk result (λ _. self.new ≡ past_event self.old width) }
        ensures err { OnErr result (self.new ≡ self.old) }
        ensures fewer { length self.new.ahead ≤ length self.old.ahead }
    {
        let octets = self.window.as_slice();
        let octets = &octets[..width];
        let stamp = stamp_of(octets);
        let event = E::read(self.alloc, self.flows, self.moment, octets)?;
        self.moment = self.moment.max(stamp);
        self.used += width as u64;
        self.window.skip(width);
        Ok(event)
    }
}
