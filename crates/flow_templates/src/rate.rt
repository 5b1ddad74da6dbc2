ghost use Rattle.std.specs.Prelude.{◌≡◌, ◌∷◌, ◌≤◌, [], length, OnOk, OnErr};
ghost use Rattle.indexmap.specs.IndexMap.{spare};
ghost use Rattle.flow_templates.specs.Keys.{rate_key_of};
ghost use Rattle.flow_templates.specs.Known.{HasOneRateEach, LearnsAll, RatesAddUp, learned_of, rate_found};

use crate::Domain;
use acct_types::{Hashing, NoMemory};
use indexmap::IndexMap;
use std::alloc::Global;
use std::marker::Model;

/// What a sampling rate that an exporter taught is found by: its domain, and the number of the sampler, None for the rate
/// without a sampler.
#[derive(Clone, Copy, Debug, PartialEq, Eq, Hash)]
pub struct RateKey {
    pub domain: Domain,
    pub sampler: Option<u64>,
}

impl RateKey {
    pub fn new(domain: &Domain, sampler: Option<u64>) -> RateKey
        ensures { result ≡ rate_key_of domain.now sampler }
    {
        RateKey {
            domain: *domain,
            sampler,
        }
    }
}

/// A sampling rate as an option record taught it.
#[derive(Clone, Copy, Debug, PartialEq, Eq)]
pub struct LearnedRate {
    pub key: RateKey,
    pub rate: u32,
}

/// The sampling rates that were learned last, which contracts see as their entries: what counts is what is found under a key.
#[derive(Drop)]
pub struct OptionStore {
    rates: IndexMap<RateKey, u32, Hashing>,
}

impl Model for OptionStore {
    ghost use Rattle.std.specs.Prelude.{ℕ, List as Sequence};
    ghost use Rattle.flow_templates.specs.declared.rate.RateKey.{RateKey};

    ghost Value = { Sequence (RateKey × ℕ) };

    ghost view = { λ store. store.rates.entries };
}

// Learns rates, in their order, for which there is room.
fn learn_all(rates: &mut IndexMap<RateKey, u32, Hashing>, learned: &[LearnedRate])
    requires { length learned.now ≤ spare rates.old }
    ensures { LearnsAll rates.old.entries rates.new.entries learned.now }
{
    for one in learned {
        let _replaced = rates.insert(one.key, one.rate).unwrap();
    }
}

impl OptionStore {
    /// No rate, which takes no memory.
    pub fn new(alloc: Global, hashing: Hashing) -> OptionStore
        ensures { result ≡ [] }
    {
        OptionStore {
            rates: IndexMap::with_hasher(alloc, hashing),
        }
    }

    /// Keeps a rate in place of the one of that domain and sampler. After NoMemory the store is unchanged.
    pub fn learn(
        &mut self,
        domain: &Domain,
        sampler: Option<u64>,
        rate: u32,
    ) -> Result<(), NoMemory>
        ensures ok { OnOk result (LearnsAll self.old self.new (learned_of domain.now sampler rate ∷ [])) }
        ensures err { OnErr result (self.new ≡ self.old) }
    {
        let key = RateKey::new(domain, sampler);
        self.rates.insert(key, rate)?;
        Ok(())
    }

    /// The rate of a domain and sampler, None exactly where none is kept.
    pub fn rate(&self, domain: &Domain, sampler: Option<u64>) -> Option<u32>
        ensures { result ≡ rate_found self.now (rate_key_of domain.now sampler) }
    {
        // Most exporters teach no rate: then nothing is hashed.
        if self.rates.is_empty() {
            return None;
        }
        let key = RateKey::new(domain, sampler);
        self.rates.get(&key).copied()
    }

    /// A law: each domain and sampler has one rate.
    pub fn has_one_each(&self)
        ensures { HasOneRateEach self.now }
    {
        // The length is what says that no key comes twice.
        let _count = self.rates.len();
    }

    /// Learns rates, one behind another: all of them, or none after NoMemory.
    pub(crate) fn learn_all(&mut self, learned: &[LearnedRate]) -> Result<(), NoMemory>
        ensures ok { OnOk result (LearnsAll self.old self.new learned.now) }
        ensures err { OnErr result (self.new ≡ self.old) }
    {
        self.rates.reserve(learned.len())?;
        learn_all(&mut self.rates, learned);
        Ok(())
    }
}

/// A law: of the rates that were learned under a key the last one counts.
pub fn rates_add_up()
    ensures { RatesAddUp }
{}
