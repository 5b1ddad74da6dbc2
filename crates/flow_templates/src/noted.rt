ghost use Rattle.std.specs.Prelude.{◌≡◌, ◌==◌, ◌++◌, [], ◌∷◌, OnOk, OnErr, length};
ghost use Rattle.std.specs.Option.{option_copied};
ghost use Rattle.flow_templates.specs.Changes.{after_all};
ghost use Rattle.flow_templates.specs.Known.{rate_after};
ghost use Rattle.flow_templates.specs.Noted.{is_later, put_by, put_or, subject_of};

use crate::{Domain, LearnedRate, RateKey, Template, TemplateChange, TemplateKey};
use acct_types::{Hashing, List, NoMemory};
use indexmap::IndexMap;
use std::alloc::Global;
use std::marker::Model;

/// What a change is about: the template of a key, or all options templates of a domain, or all others.
#[derive(Clone, Copy, Debug, PartialEq, Eq, Hash)]
pub(crate) enum Subject {
    One(TemplateKey),
    Kind(Domain, bool),
}

fn subject_of(change: &TemplateChange) -> Subject
    ensures { result ≡ subject_of change.now }
{
    match change {
        TemplateChange::Put(key, _) => Subject::One(*key),
        TemplateChange::Withdraw(key) => Subject::One(*key),
        TemplateChange::WithdrawAll(domain, options) => Subject::Kind(*domain, *options),
    }
}

fn put_by(change: &TemplateChange) -> Option<&Template>
    ensures { option_copied result ≡ put_by change.now }
{
    match change {
        TemplateChange::Put(_, template) => Some(template),
        _ => None,
    }
}

// The template that is put at a place, or where there is no place the one before.
fn put_or<'a>(
    changes: &'a [TemplateChange],
    place: Option<usize>,
    before: Option<&'a Template>,
) -> Option<&'a Template>
    ensures { option_copied result ≡ put_or changes.now place (option_copied before.entry) }
{
    match place {
        Some(place) => match changes.get(place) {
            Some(change) => put_by(change),
            None => None,
        },
        None => before,
    }
}

// Whether a withdrawal of a kind comes behind the last change of a template.
fn is_later(withdrawn: Option<usize>, place: Option<usize>) -> bool
    ensures { result ≡ is_later withdrawn place }
{
    match (withdrawn, place) {
        (Some(withdrawn), Some(place)) => place < withdrawn,
        (Some(_), None) => true,
        (None, _) => false,
    }
}

/// Changes of templates in their order, and of each subject the place of its last change: so what they leave is found
/// without a walk. Contracts see them as a list.
#[derive(Drop)]
pub(crate) struct NotedChanges {
    changes: List<TemplateChange>,
    last: IndexMap<Subject, usize, Hashing>,
}

impl Model for NotedChanges {
    ghost use Rattle.std.specs.Prelude.{List as Sequence};
    ghost use Rattle.flow_templates.specs.declared.change.TemplateChange.{TemplateChange};
    ghost use Rattle.flow_templates.specs.Noted.{ArePlaces};

    ghost Value = { Sequence TemplateChange };

    ghost view = { λ noted. noted.changes };

    ghost invariant = { λ noted. ArePlaces noted.changes noted.last.entries };
}

impl NotedChanges {
    /// No change, which takes no memory.
    pub(crate) fn new(alloc: Global, hashing: Hashing) -> NotedChanges
        ensures { result ≡ [] }
    {
        NotedChanges {
            changes: List::new(alloc),
            last: IndexMap::with_hasher(alloc, hashing),
        }
    }

    pub(crate) fn is_empty(&self) -> bool
        ensures { result ≡ (length self.now == 0) }
    {
        self.changes.is_empty()
    }

    /// After NoMemory nothing has changed.
    pub(crate) fn push(&mut self, change: TemplateChange) -> Result<(), NoMemory>
        ensures ok { OnOk result (self.new ≡ self.old ++ change ∷ []) }
        ensures err { OnErr result (self.new ≡ self.old) }
    {
        self.last.reserve(1)?;
        let subject = subject_of(&change);
        let place = self.changes.len();
        self.changes.push(change)?;
        let _earlier = self.last.insert(subject, place).unwrap();
        Ok(())
    }

    /// What is found by a key after the changes, where `before` was found.
    pub(crate) fn find<'a>(
        &'a self,
        key: &TemplateKey,
        before: Option<&'a Template>,
    ) -> Option<&'a Template>
        ensures { option_copied result ≡ after_all self.now key.now (option_copied before.entry) }
    {
        // Most datagrams change nothing.
        if self.changes.is_empty() {
            return before;
        }
        let place = self.last.get(&Subject::One(*key)).copied();
        let template = put_or(self.changes.as_slice(), place, before)?;
        let kind = Subject::Kind(key.domain, template.options);
        let later = is_later(self.last.get(&kind).copied(), place);
        (!later).then_some(template)
    }

    pub(crate) fn into_vec(self) -> Vec<TemplateChange>
        ensures { result.items ≡ self }
    {
        self.changes.into_vec()
    }
}

/// Rates that were learned, in their order, and of each key the last one. Contracts see them as a list.
#[derive(Drop)]
pub(crate) struct NotedRates {
    rates: List<LearnedRate>,
    last: IndexMap<RateKey, u32, Hashing>,
}

impl Model for NotedRates {
    ghost use Rattle.std.specs.Prelude.{List as Sequence};
    ghost use Rattle.flow_templates.specs.declared.rate.LearnedRate.{LearnedRate};
    ghost use Rattle.flow_templates.specs.Noted.{AreLastRates};

    ghost Value = { Sequence LearnedRate };

    ghost view = { λ noted. noted.rates };

    ghost invariant = { λ noted. AreLastRates noted.rates noted.last.entries };
}

impl NotedRates {
    /// No rate, which takes no memory.
    pub(crate) fn new(alloc: Global, hashing: Hashing) -> NotedRates
        ensures { result ≡ [] }
    {
        NotedRates {
            rates: List::new(alloc),
            last: IndexMap::with_hasher(alloc, hashing),
        }
    }

    pub(crate) fn is_empty(&self) -> bool
        ensures { result ≡ (length self.now == 0) }
    {
        self.rates.is_empty()
    }

    /// After NoMemory nothing has changed.
    pub(crate) fn push(&mut self, learned: LearnedRate) -> Result<(), NoMemory>
        ensures ok { OnOk result (self.new ≡ self.old ++ learned ∷ []) }
        ensures err { OnErr result (self.new ≡ self.old) }
    {
        self.last.reserve(1)?;
        self.rates.push(learned)?;
        let _earlier = self.last.insert(learned.key, learned.rate).unwrap();
        Ok(())
    }

    /// The rate under a key after these were learned, where `before` was there.
    pub(crate) fn rate(&self, key: &RateKey, before: Option<u32>) -> Option<u32>
        ensures { result ≡ rate_after self.now key.now before }
    {
        if self.rates.is_empty() {
            return before;
        }
        self.last.get(key).copied().or(before)
    }

    pub(crate) fn as_slice(&self) -> &[LearnedRate]
        ensures { result.now ≡ self.now }
    {
        self.rates.as_slice()
    }
}
