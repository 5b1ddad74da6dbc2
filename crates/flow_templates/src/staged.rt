ghost use Rattle.std.specs.Prelude.{◌≡◌, ◌==◌, length, ◌++◌, [], ◌∷◌, true, OnOk, OnErr, IfSome, IsTrue, ◌↔◌};
ghost use Rattle.std.specs.Option.{option_copied};
ghost use Rattle.flow_templates.specs.declared.change.TemplateChange.TheVariants as change;
ghost use Rattle.flow_templates.specs.Changes.{HasOneEach, and_change, and_rate, key_of, nothing_staged};
ghost use Rattle.flow_templates.specs.Known.{HasOneRateEach, known_after, known_in, learned_of, nothing_known, rate_key_of};
ghost use Rattle.flow_templates.specs.Templates.{IsDefined, is_accepted};

use crate::noted::{NotedChanges, NotedRates};
use crate::{
    Domain, LearnedRate, OptionStore, RateKey, Template, TemplateChange, TemplateKey, TemplateStore,
};
use acct_types::{Hashing, NoMemory};
use std::alloc::Global;
use std::marker::Model;

/// What the datagrams so far have taught.
#[derive(Drop)]
pub struct Stores {
    pub templates: TemplateStore,
    pub options: OptionStore,
}

impl Stores {
    /// Nothing, which takes no memory.
    pub fn new(alloc: Global, hashing: Hashing) -> Stores
        ensures templates { result.templates ≡ [] }
        ensures options { result.options ≡ [] }
        ensures known { known_in result ≡ nothing_known }
    {
        Stores {
            templates: TemplateStore::new(alloc, hashing),
            options: OptionStore::new(alloc, hashing),
        }
    }

    /// A law: each domain and id has one template, and each domain and sampler one rate.
    pub fn has_one_each(&self)
        ensures templates { HasOneEach self.now.templates }
        ensures rates { HasOneRateEach self.now.options }
    {
        self.templates.has_one_each();
        self.options.has_one_each();
    }
}

/// The changes of one datagram, which count once they are committed, and are let go where it is refused. Contracts see
/// them as lists in their order.
#[derive(Drop)]
pub struct Staged {
    changes: NotedChanges,
    rates: NotedRates,
}

impl Model for Staged {
    ghost use Rattle.flow_templates.specs.Changes.{PutDefined, StagedChanges};

    ghost Value = { StagedChanges };

    ghost view = { λ staged. record { templates = staged.changes; rates = staged.rates } };

    ghost invariant = { λ staged. PutDefined staged.changes };
}

impl Staged {
    /// No change, which takes no memory.
    pub fn new(alloc: Global, hashing: Hashing) -> Staged
        ensures { result ≡ nothing_staged }
    {
        Staged {
            changes: NotedChanges::new(alloc, hashing),
            rates: NotedRates::new(alloc, hashing),
        }
    }

    pub fn is_empty(&self) -> bool
        ensures { IsTrue result ↔ self.now ≡ nothing_staged }
    {
        self.changes.is_empty() && self.rates.is_empty()
    }

    /// Notes behind the earlier changes that a template is put. After NoMemory nothing has changed.
    pub fn put(&mut self, domain: &Domain, id: u16, template: Template) -> Result<(), NoMemory>
        requires { IsDefined domain.now.version template }
        ensures ok { OnOk result (self.new ≡ and_change self.old (change.Put (key_of domain.now id) template)) }
        ensures err { OnErr result (self.new ≡ self.old) }
    {
        let key = TemplateKey::new(domain, id);
        self.changes.push(TemplateChange::Put(key, template))
    }

    /// Notes behind the earlier changes that a template is withdrawn. After NoMemory nothing has changed.
    pub fn withdraw(&mut self, domain: &Domain, id: u16) -> Result<(), NoMemory>
        ensures ok { OnOk result (self.new ≡ and_change self.old (change.Withdraw (key_of domain.now id))) }
        ensures err { OnErr result (self.new ≡ self.old) }
    {
        let key = TemplateKey::new(domain, id);
        self.changes.push(TemplateChange::Withdraw(key))
    }

    /// Notes behind the earlier changes that all options templates of a domain are withdrawn, or all others. After
    /// NoMemory nothing has changed.
    pub fn withdraw_all(&mut self, domain: &Domain, options: bool) -> Result<(), NoMemory>
        ensures ok { OnOk result (self.new ≡ and_change self.old (change.WithdrawAll domain.now options)) }
        ensures err { OnErr result (self.new ≡ self.old) }
    {
        self.changes
            .push(TemplateChange::WithdrawAll(*domain, options))
    }

    /// Notes behind the earlier changes that a sampling rate was learned. After NoMemory nothing has changed.
    pub fn learn(
        &mut self,
        domain: &Domain,
        sampler: Option<u64>,
        rate: u32,
    ) -> Result<(), NoMemory>
        ensures ok { OnOk result (self.new ≡ and_rate self.old (learned_of domain.now sampler rate)) }
        ensures err { OnErr result (self.new ≡ self.old) }
    {
        let key = RateKey::new(domain, sampler);
        self.rates.push(LearnedRate { key, rate })
    }

    /// The template that the stores would find after these changes.
    pub fn find<'a>(&'a self, stores: &'a Stores, domain: &Domain, id: u16) -> Option<&'a Template>
        ensures found { option_copied result ≡ (known_after (known_in stores.now) self.now).template (key_of domain.now id) }
        ensures defined { IfSome result (λ template. IsDefined domain.now.version template.now) }
        ensures accepted { IfSome result (λ template. is_accepted domain.now.version template.now ≡ true) }
    {
        let key = TemplateKey::new(domain, id);
        self.changes.find(&key, stores.templates.find(domain, id))
    }

    /// The sampling rate that the stores would have after these changes.
    pub fn rate(&self, stores: &Stores, domain: &Domain, sampler: Option<u64>) -> Option<u32>
        ensures { result ≡ (known_after (known_in stores.now) self.now).rate (rate_key_of domain.now sampler) }
    {
        let key = RateKey::new(domain, sampler);
        self.rates.rate(&key, stores.options.rate(domain, sampler))
    }

    /// Makes the changes in the stores, one behind another: all of them, or none after NoMemory.
    pub fn commit(self, stores: &mut Stores) -> Result<(), NoMemory>
        ensures ok { OnOk result (known_in stores.new ≡ known_after (known_in stores.old) self) }
        ensures err { OnErr result (stores.new ≡ stores.old) }
    {
        let changes = self.changes.into_vec();
        let learned = self.rates.as_slice();
        stores
            .templates
            .change(changes, &mut stores.options, learned)
    }
}
