//! Data sets (RFC 3954, 5.3, and RFC 7011, 3.4.3).

ghost use Rattle.std.specs.Prelude.{◌≡◌, ◌≤◌, ◌+◌, ◌^◌, ◌++◌, All, length, true, false, OnOk};
ghost use Rattle.acct_types.specs.Counts.{IsBelow};
ghost use Rattle.flow_templates.specs.Decoding.{FailsAs};
ghost use Rattle.flow_templates.specs.Known.{known_after, known_in};
ghost use Rattle.flow_templates.specs.Templates.{is_accepted};
ghost use Rattle.flow_sets.specs.Layout.{FitsWithin, numbers_by};
ghost use Rattle.flow_sets.specs.Records.{data_said, row_of};
ghost use Rattle.flow_sets.specs.Rates.{rate_for, taught};
ghost use Rattle.flow_sets.specs.Saying.{Adds, Teaches, and_rates, so_far};

use crate::fields::end_of_all;
use crate::layout::{Layout, Spans, is_fixed};
use crate::record::{flow_of, own_rate, rate_for, sampler_of, told_rate};
use acct_types::numbers::after;
use acct_types::{List, NoMemory};
use flow_templates::{
    Cause, Domain, LearnedRate, RateKey, RawDecoded, RawRecord, Staged, Stores, Template,
    Undecodable,
};
use std::alloc::Global;

// The sampler that was asked for last, and the rate that is known for it: most records name the same.
#[derive(Clone, Copy)]
struct LastRate {
    sampler: Option<u64>,
    rate: Option<u32>,
}

#[tactic(auto, using(crate::proofs::RecordLemmas::same_sampler))]
fn learned_rate(
    stores: &Stores,
    staged: &Staged,
    domain: &Domain,
    sampler: Option<u64>,
    last: &mut LastRate,
) -> Option<u32>
    requires { last.old.rate ≡ rate_for domain.now (known_after (known_in stores.now) staged.now) last.old.sampler }
    ensures rate { result ≡ rate_for domain.now (known_after (known_in stores.now) staged.now) sampler }
    ensures last { last.new.rate ≡ rate_for domain.now (known_after (known_in stores.now) staged.now) last.new.sampler }
{
    if sampler == last.sampler {
        return last.rate;
    }
    let rate = rate_for(stores, staged, domain, sampler);
    *last = LastRate { sampler, rate };
    rate
}

fn row_of(
    stores: &Stores,
    staged: &Staged,
    domain: &Domain,
    spans: &Spans,
    octets: &[u8],
    last: &mut LastRate,
) -> RawRecord
    requires fits { FitsWithin (length octets.now) spans.now }
    requires last { last.old.rate ≡ rate_for domain.now (known_after (known_in stores.now) staged.now) last.old.sampler }
    ensures row { result ≡ row_of domain.now (known_after (known_in stores.now) staged.now) (numbers_by spans.now octets.now) }
    ensures last { last.new.rate ≡ rate_for domain.now (known_after (known_in stores.now) staged.now) last.new.sampler }
    ensures counts { IsBelow (2 ^ 64) result.flow.counts }
{
    let sampler = sampler_of(spans, octets);
    RawRecord {
        flow: flow_of(domain, spans, octets),
        own_rate: own_rate(spans, octets),
        learned_rate: learned_rate(stores, staged, domain, sampler, last),
        header_rate: 1,
    }
}

// Why a data set isn't read: one of its records is cut, or where none is, memory is wanted.
fn failure_of(domain: &Domain, template: &Template, octets: &[u8]) -> Undecodable
    requires fits { length octets.now ≤ 65535 }
    requires accepted { is_accepted domain.now.version template.now ≡ true }
    ensures { (known : _) → FailsAs result (data_said domain.now known template.now octets.now) }
{
    let version = domain.version;
    let fields = template.fields.as_slice();
    let least = template.least_length(version) as usize;
    let mut rest = octets;
    while rest.len() >= least {
        let Some(used) = end_of_all(version, fields, rest, 0) else {
            return Undecodable::Refused(Cause::VarCut);
        };
        rest = after(rest, used);
    }
    Undecodable::NoMemory
}

/// The flows of a data set's records.
pub(crate) fn read_rows(
    stores: &Stores,
    staged: &Staged,
    domain: &Domain,
    template: &Template,
    octets: &[u8],
    decoded: &mut RawDecoded,
) -> Result<(), Undecodable>
    requires fits { length octets.now ≤ 65535 }
    requires accepted { is_accepted domain.now.version template.now ≡ true }
    requires flows { template.now.options ≡ false }
    requires counts { All (λ row. IsBelow (2 ^ 64) row.flow.counts) decoded.old.rows }
    ensures answer { Adds result (so_far decoded.old staged.now) (so_far decoded.new staged.now)
        (data_said domain.now (known_after (known_in stores.now) staged.now) template.now octets.now) }
    ensures few { OnOk result (length decoded.new.rows ≤ length decoded.old.rows + length octets.now) }
    ensures counts { OnOk result (All (λ row. IsBelow (2 ^ 64) row.flow.counts) decoded.new.rows) }
{
    let version = domain.version;
    let fixed = is_fixed(version, template);
    let least = template.least_length(version) as usize;
    let mut layout = Layout::new();
    let mut last = LastRate {
        sampler: None,
        rate: rate_for(stores, staged, domain, None),
    };
    let mut rest = octets;
    while rest.len() >= least {
        let Some(()) = layout.renew(version, template, fixed, rest) else {
            return Err(Undecodable::Refused(Cause::VarCut));
        };
        let row = row_of(stores, staged, domain, &layout.spans, rest, &mut last);
        let Ok(()) = decoded.rows.push(row) else {
            return Err(failure_of(domain, template, octets));
        };
        rest = after(rest, layout.used);
    }
    Ok(())
}

// What an option record teaches.
fn append_lesson(
    domain: &Domain,
    spans: &Spans,
    octets: &[u8],
    lessons: &mut List<LearnedRate>,
) -> Result<(), NoMemory>
    requires { FitsWithin (length octets.now) spans.now }
    ensures { OnOk result (lessons.new ≡ lessons.old ++ taught domain.now (numbers_by spans.now octets.now)) }
{
    let Some(rate) = told_rate(spans, octets) else {
        return Ok(());
    };
    let key = RateKey::new(domain, sampler_of(spans, octets));
    lessons.push(LearnedRate { key, rate })
}

/// The sampling rates that a data set of an options template teaches.
pub(crate) fn read_lessons(
    alloc: Global,
    domain: &Domain,
    template: &Template,
    octets: &[u8],
) -> Result<List<LearnedRate>, Undecodable>
    requires fits { length octets.now ≤ 65535 }
    requires accepted { is_accepted domain.now.version template.now ≡ true }
    requires options { template.now.options ≡ true }
    ensures { (known : _) → Teaches result (data_said domain.now known template.now octets.now) }
{
    let version = domain.version;
    let fixed = is_fixed(version, template);
    let least = template.least_length(version) as usize;
    let mut lessons = List::new(alloc);
    let mut layout = Layout::new();
    let mut rest = octets;
    while rest.len() >= least {
        let Some(()) = layout.renew(version, template, fixed, rest) else {
            return Err(Undecodable::Refused(Cause::VarCut));
        };
        let Ok(()) = append_lesson(domain, &layout.spans, rest, &mut lessons) else {
            return Err(failure_of(domain, template, octets));
        };
        rest = after(rest, layout.used);
    }
    Ok(lessons)
}

/// Stages rates that were taught.
pub(crate) fn learn_all(staged: &mut Staged, lessons: &[LearnedRate]) -> Result<(), NoMemory>
    ensures { OnOk result (staged.new ≡ and_rates staged.old lessons.now) }
{
    for lesson in lessons {
        staged.learn(&lesson.key.domain, lesson.key.sampler, lesson.rate)?;
    }
    Ok(())
}
