//! The core of a collector.

ghost use Rattle.std.specs.Prelude.{◌≡◌, ◌≤◌, ◌<◌, ◌+◌, ◌^◌, ◌-◌, ◌++◌, [], ℕ, List as Sequence, All, length, map, true, IfOk, OnOk};
ghost use Rattle.acct_types.specs.Counts.{IsBelow};
ghost use Rattle.acct_types.specs.declared.datagram.Datagram.{Datagram};
ghost use Rattle.out_text.specs.declared.event.Event.TheVariants as event;
ghost use Rattle.out_text.specs.Events.{IsNamed};
ghost use Rattle.collect_core.specs.Job.{collects};
ghost use Rattle.collect_core.specs.Loads.{given_to};
ghost use Rattle.collect_core.specs.Seen.{HasSeen, IsFed, IsStep};

use crate::Job;
use crate::loads::loads_of;
use acct_types::{Datagram, FlowRecord, Hashing, Item, List, NoMemory};
use flow_decode::{Decoder, FeedFault};
use flow_templates::Notice;
use out_text::{Event, Totals};
use std::alloc::Global;

/// What is kept between datagrams: what the decoder knows, and what was counted.
#[derive(Drop)]
pub struct Core {
    alloc: Global,
    pub decoder: Decoder,
    pub totals: Totals,
}

/// What a datagram gives: the events that are told of it before any drop, the items with the number of their plugin (from 0, in the
/// configuration's order), in order of record and then plugin, and whether it has more records than were asked for.
#[derive(Drop)]
pub struct CoreStep {
    pub events: List<Event>,
    pub loads: List<(u32, Item)>,
    pub full: bool,
}

// The notices of the datagram with this number.
fn notices_of(alloc: Global, number: u64, notices: &[Notice]) -> Result<List<Event>, NoMemory>
    ensures { IfOk result (λ events. events ≡ map (event.Notice number) notices.now) }
{
    let mut events = List::from_vec(Vec::with_capacity(alloc, notices.len())?);
    for notice in notices {
        events.push(Event::Notice {
            datagram: number,
            notice: *notice,
        })?;
    }
    Ok(events)
}

impl Core {
    /// A core that has seen no datagram. Its decoder looks up by `hashing`, which no answer depends on.
    pub fn new(alloc: Global, hashing: Hashing, job: &Job) -> Core
        requires { collects job.now.config.tool ≡ true }
        ensures seen { HasSeen job.now [] result }
        ensures totals { result.totals ≡ record { datagrams = 0; refused = 0; records = 0; dropped = 0; messages = 0; closed = 0 } }
    {
        Core {
            alloc,
            decoder: Decoder::new(alloc, hashing, job.config.tool, job.renormalises()),
            totals: Totals {
                datagrams: 0,
                refused: 0,
                records: 0,
                dropped: 0,
                messages: 0,
                closed: 0,
            },
        }
    }

    // The records of the next datagram, none of one that is refused, and what the audit tells of it.
    fn feed(
        &mut self,
        job: &Job,
        datagram: &Datagram,
    ) -> Result<(List<FlowRecord>, List<Event>), NoMemory>
        requires fits { length datagram.now.octets ≤ 65535 }
        requires datagrams { self.old.totals.datagrams < 2 ^ 64 - 1 }
        requires refused { self.old.totals.refused ≤ self.old.totals.datagrams }
        ensures fed { (flows : Sequence Datagram) → HasSeen job.now flows self.old → IfOk result (λ fed. IsFed job.now flows datagram.now self.new fed.0 fed.1) }
        ensures small { IfOk result (λ fed. All (λ flow. IsBelow (2 ^ 96) flow.counts) fed.0) }
        ensures few { IfOk result (λ fed. length fed.0 ≤ length datagram.now.octets) }
        ensures named { IfOk result (λ fed. All IsNamed fed.1) }
        ensures datagrams { OnOk result (self.new.totals.datagrams ≡ self.old.totals.datagrams + 1) }
        ensures refused { OnOk result (self.new.totals.refused ≤ self.new.totals.datagrams) }
        ensures records { OnOk result (self.new.totals.records ≡ self.old.totals.records) }
        ensures others { OnOk result ((self.new.totals.dropped ≡ self.old.totals.dropped) × (self.new.totals.messages ≡ self.old.totals.messages) × (self.new.totals.closed ≡ self.old.totals.closed)) }
    {
        let number = self.totals.datagrams + 1;
        match self.decoder.feed(datagram, &job.samplings) {
            Ok(decoded) => {
                let events = notices_of(self.alloc, number, decoded.notices.as_slice())?;
                self.totals.datagrams = number;
                Ok((decoded.rows, events))
            }
            Err(FeedFault::Refused(cause)) => {
                let event = Event::Refused {
                    datagram: number,
                    cause,
                };
                let mut events = List::new(self.alloc);
                events.push(event)?;
                self.totals.datagrams = number;
                self.totals.refused += 1;
                Ok((List::new(self.alloc), events))
            }
            Err(FeedFault::NoMemory) => Err(NoMemory),
        }
    }

    /// The step of the next datagram, with the loads of its first `most` records. After NoMemory the core isn't used again.
    pub fn datagram(
        &mut self,
        job: &Job,
        datagram: &Datagram,
        most: u64,
    ) -> Result<CoreStep, NoMemory>
        requires fits { length datagram.now.octets ≤ 65535 }
        requires datagrams { self.old.totals.datagrams < 2 ^ 64 - 1 }
        requires refused { self.old.totals.refused ≤ self.old.totals.datagrams }
        requires records { self.old.totals.records + most < 2 ^ 64 }
        ensures step { (flows : Sequence Datagram) → HasSeen job.now flows self.old → IfOk result (IsStep job.now flows datagram.now most self.old self.new) }
        ensures named { IfOk result (λ step. All IsNamed step.events) }
        ensures numbered { IfOk result (λ step. All (λ load. load.0 < length job.now.config.plugins) step.loads) }
        ensures few { IfOk result (λ step. (number : ℕ) → length (given_to number step.loads) ≤ most) }
        ensures datagrams { OnOk result (self.new.totals.datagrams ≡ self.old.totals.datagrams + 1) }
        ensures refused { OnOk result (self.new.totals.refused ≤ self.new.totals.datagrams) }
        ensures others { OnOk result ((self.new.totals.dropped ≡ self.old.totals.dropped) × (self.new.totals.messages ≡ self.old.totals.messages) × (self.new.totals.closed ≡ self.old.totals.closed)) }
    {
        let (rows, events) = self.feed(job, datagram)?;
        let count = rows.len().min(most as usize);
        let loads = loads_of(
            self.alloc,
            job,
            self.totals.datagrams,
            datagram.moment,
            &rows.as_slice()[..count],
        )?;
        self.totals.records += count as u64;
        Ok(CoreStep {
            events,
            loads,
            full: count < rows.len(),
        })
    }
}
