ghost use Rattle.std.specs.Prelude.{◌≡◌, ◌+◌, [], true, OnOk, OnErr, IfSome, length};
ghost use Rattle.std.specs.Option.{option_copied};
ghost use Rattle.indexmap.specs.IndexMap.{IsUnique};
ghost use Rattle.flow_templates.specs.declared.change.TemplateChange.TheVariants as change;
ghost use Rattle.flow_templates.specs.Changes.{Changes, ChangesAll, HasOneEach, PutDefined, found, key_of};
ghost use Rattle.flow_templates.specs.Domains.{HasRoom, HasRoomFor, HaveOneAnId, HaveRoom, entries_of};
ghost use Rattle.flow_templates.specs.Known.{LearnsAll};
ghost use Rattle.flow_templates.specs.Templates.{IsDefined, is_accepted};

use crate::domain_templates::DomainTemplates;
use crate::{Domain, LearnedRate, OptionStore, Template, TemplateChange, TemplateKey};
use acct_types::{Hashing, NoMemory};
use indexmap::IndexMap;
use std::alloc::Global;
use std::marker::Model;

/// The templates in force, which contracts see as their entries: what counts is what is found under a key. Each is
/// exactly what an accepted record defines. They are kept domain by domain, so that what a domain's exporter withdraws takes no
/// look at another's templates.
#[derive(Drop)]
pub struct TemplateStore {
    domains: IndexMap<Domain, DomainTemplates, Hashing>,
}

impl Model for TemplateStore {
    ghost use Rattle.std.specs.Prelude.{List as Sequence};
    ghost use Rattle.flow_templates.specs.declared.template.Template.{Template};
    ghost use Rattle.flow_templates.specs.declared.template.TemplateKey.{TemplateKey};
    ghost use Rattle.flow_templates.specs.Domains.{AreKept, entries_of};

    ghost Value = { Sequence (TemplateKey × Template) };

    ghost view = { λ store. entries_of store.domains.entries };

    ghost invariant = { λ store. AreKept store.domains.entries };
}

// Makes room for as many more templates of a domain. The templates stay.
fn make_room(
    domains: &mut IndexMap<Domain, DomainTemplates, Hashing>,
    domain: &Domain,
    count: usize,
) -> Result<(), NoMemory>
    ensures entries { entries_of domains.new.entries ≡ entries_of domains.old.entries }
    ensures ok { OnOk result (HasRoom domains.new.entries domain.now count) }
    ensures room { (other : _) (most : _) → HasRoom domains.old.entries other most → HasRoom domains.new.entries other most }
    ensures unique { IsUnique ⟦<Domain as PartialEq>⟧.eq domains.new }
    ensures one { HaveOneAnId domains.old.entries → HaveOneAnId domains.new.entries }
{
    // The length is what says that no domain comes twice.
    let _count = domains.len();
    if let Some(templates) = domains.get_mut(domain) {
        templates.has_one_each();
        return templates.reserve(count);
    }
    let mut templates = DomainTemplates::new(*domains.allocator(), *domains.hasher());
    templates.reserve(count)?;
    let _none = domains.insert(*domain, templates)?;
    Ok(())
}

// Makes room for all templates that the changes put. The templates stay.
fn make_room_for_all(
    domains: &mut IndexMap<Domain, DomainTemplates, Hashing>,
    changes: &[TemplateChange],
) -> Result<(), NoMemory>
    ensures entries { entries_of domains.new.entries ≡ entries_of domains.old.entries }
    ensures ok { OnOk result (HaveRoom domains.new.entries (length changes.now) changes.now) }
    ensures unique { IsUnique ⟦<Domain as PartialEq>⟧.eq domains.new }
    ensures one { HaveOneAnId domains.old.entries → HaveOneAnId domains.new.entries }
{
    let _count = domains.len();
    for change in changes {
        if let TemplateChange::Put(key, _) = change {
            make_room(domains, &key.domain, changes.len())?;
        }
    }
    Ok(())
}

fn put(
    domains: &mut IndexMap<Domain, DomainTemplates, Hashing>,
    key: TemplateKey,
    template: Template,
)
    requires { HasRoom domains.old.entries key.domain 1 }
    ensures changed { Changes (entries_of domains.old.entries) (entries_of domains.new.entries) (change.Put key template) }
    ensures room { (domain : _) (most : _) → HasRoom domains.old.entries domain (most + 1) → HasRoom domains.new.entries domain most }
    ensures unique { IsUnique ⟦<Domain as PartialEq>⟧.eq domains.new }
    ensures one { HaveOneAnId domains.old.entries → HaveOneAnId domains.new.entries }
{
    let templates = domains.get_mut(&key.domain).unwrap();
    templates.put(key.id, template);
    templates.has_one_each();
}

fn withdraw(domains: &mut IndexMap<Domain, DomainTemplates, Hashing>, key: TemplateKey)
    ensures changed { Changes (entries_of domains.old.entries) (entries_of domains.new.entries) (change.Withdraw key) }
    ensures room { (domain : _) (most : _) → HasRoom domains.old.entries domain (most + 1) → HasRoom domains.new.entries domain most }
    ensures unique { IsUnique ⟦<Domain as PartialEq>⟧.eq domains.new }
    ensures one { HaveOneAnId domains.old.entries → HaveOneAnId domains.new.entries }
{
    let _count = domains.len();
    if let Some(templates) = domains.get_mut(&key.domain) {
        templates.withdraw(key.id);
        templates.has_one_each();
    }
}

fn withdraw_all(
    domains: &mut IndexMap<Domain, DomainTemplates, Hashing>,
    domain: Domain,
    options: bool,
)
    ensures changed { Changes (entries_of domains.old.entries) (entries_of domains.new.entries) (change.WithdrawAll domain options) }
    ensures room { (other : _) (most : _) → HasRoom domains.old.entries other (most + 1) → HasRoom domains.new.entries other most }
    ensures unique { IsUnique ⟦<Domain as PartialEq>⟧.eq domains.new }
    ensures one { HaveOneAnId domains.old.entries → HaveOneAnId domains.new.entries }
{
    let _count = domains.len();
    if let Some(templates) = domains.get_mut(&domain) {
        templates.withdraw_all(options);
        templates.has_one_each();
    }
}

// Makes a change for which there is room.
fn apply(domains: &mut IndexMap<Domain, DomainTemplates, Hashing>, change: TemplateChange)
    requires { HasRoomFor domains.old.entries 1 change }
    ensures changed { Changes (entries_of domains.old.entries) (entries_of domains.new.entries) change }
    ensures room { (domain : _) (most : _) → HasRoom domains.old.entries domain (most + 1) → HasRoom domains.new.entries domain most }
    ensures unique { IsUnique ⟦<Domain as PartialEq>⟧.eq domains.new }
    ensures one { HaveOneAnId domains.old.entries → HaveOneAnId domains.new.entries }
{
    match change {
        TemplateChange::Put(key, template) => put(domains, key, template),
        TemplateChange::Withdraw(key) => withdraw(domains, key),
        TemplateChange::WithdrawAll(domain, options) => withdraw_all(domains, domain, options),
    }
}

// Makes changes, in their order, for which there is room.
fn apply_all(domains: &mut IndexMap<Domain, DomainTemplates, Hashing>, changes: Vec<TemplateChange>)
    requires { HaveRoom domains.old.entries (length changes.items) changes.items }
    ensures changed { ChangesAll (entries_of domains.old.entries) (entries_of domains.new.entries) changes.items }
    ensures unique { IsUnique ⟦<Domain as PartialEq>⟧.eq domains.new }
    ensures one { HaveOneAnId domains.old.entries → HaveOneAnId domains.new.entries }
{
    let _count = domains.len();
    let mut rest = changes;
    rest.reverse();
    while let Some(change) = rest.pop() {
        apply(domains, change);
    }
}

impl TemplateStore {
    /// No template, which takes no memory.
    pub fn new(alloc: Global, hashing: Hashing) -> TemplateStore
        ensures { result ≡ [] }
    {
        TemplateStore {
            domains: IndexMap::with_hasher(alloc, hashing),
        }
    }

    /// Keeps a template in place of the one of that domain and id. After NoMemory the store is unchanged.
    pub fn put(&mut self, domain: &Domain, id: u16, template: Template) -> Result<(), NoMemory>
        requires { IsDefined domain.now.version template }
        ensures ok { OnOk result (Changes self.old self.new (change.Put (key_of domain.now id) template)) }
        ensures err { OnErr result (self.new ≡ self.old) }
    {
        make_room(&mut self.domains, domain, 1)?;
        put(&mut self.domains, TemplateKey::new(domain, id), template);
        Ok(())
    }

    /// Forgets the template of a domain and id.
    pub fn withdraw(&mut self, domain: &Domain, id: u16)
        ensures { Changes self.old self.new (change.Withdraw (key_of domain.now id)) }
    {
        withdraw(&mut self.domains, TemplateKey::new(domain, id));
    }

    /// Forgets all options templates of a domain, or all others.
    pub fn withdraw_all(&mut self, domain: &Domain, options: bool)
        ensures { Changes self.old self.new (change.WithdrawAll domain.now options) }
    {
        withdraw_all(&mut self.domains, *domain, options);
    }

    /// The template of a domain and id, None exactly where none is kept.
    pub fn find(&self, domain: &Domain, id: u16) -> Option<&Template>
        ensures found { option_copied result ≡ found self.now (key_of domain.now id) }
        ensures defined { IfSome result (λ template. IsDefined domain.now.version template.now) }
        ensures accepted { IfSome result (λ template. is_accepted domain.now.version template.now ≡ true) }
    {
        if self.domains.is_empty() {
            return None;
        }
        let Some(templates) = self.domains.get(domain) else {
            return None;
        };
        templates.find(id)
    }

    /// A law: each domain and id has one template.
    pub fn has_one_each(&self)
        ensures { HasOneEach self.now }
    {
        let _ = &self.domains;
    }

    /// Makes changes, one behind another, and has a store learn rates: all of it, or nothing after NoMemory.
    pub(crate) fn change(
        &mut self,
        changes: Vec<TemplateChange>,
        options: &mut OptionStore,
        learned: &[LearnedRate],
    ) -> Result<(), NoMemory>
        requires { PutDefined changes.items }
        ensures templates { OnOk result (ChangesAll self.old self.new changes.items) }
        ensures rates { OnOk result (LearnsAll options.old options.new learned.now) }
        ensures templates_stay { OnErr result (self.new ≡ self.old) }
        ensures rates_stay { OnErr result (options.new ≡ options.old) }
    {
        // Only these two take memory.
        make_room_for_all(&mut self.domains, changes.as_slice())?;
        options.learn_all(learned)?;
        apply_all(&mut self.domains, changes);
        Ok(())
    }
}
