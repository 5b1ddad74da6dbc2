ghost use Rattle.std.specs.Prelude.{◌≡◌, ◌<◌, ◌≤◌, ◌+◌, [], Some, None, OnOk};
ghost use Rattle.std.specs.Option.{option_copied};
ghost use Rattle.indexmap.specs.IndexMap.{spare};
ghost use Rattle.flow_templates.specs.Changes.{without_kind};
ghost use Rattle.flow_templates.specs.Domains.{HasOneAnId, Renumbers, numbered};

use crate::Template;
use acct_types::{Hashing, NoMemory};
use indexmap::IndexMap;
use std::alloc::Global;
use std::marker::Model;

/// The templates of one domain by their ids, of which each has one template. Options templates are kept apart from the
/// others, so that all of a kind are withdrawn without a look at the other kind.
#[derive(Drop)]
pub(crate) struct DomainTemplates {
    others: IndexMap<u16, Template, Hashing>,
    options: IndexMap<u16, Template, Hashing>,
}

impl Model for DomainTemplates {
    ghost use Rattle.std.specs.Prelude.{◌++◌, min};
    ghost use Rattle.indexmap.specs.IndexMap.{spare};
    ghost use Rattle.flow_templates.specs.Domains.{AreParted, Numbered};

    ghost Value = { Numbered };

    ghost view = { λ kept. record { templates = kept.others.entries ++ kept.options.entries; room = min (spare kept.others) (spare kept.options) } };

    ghost invariant = { λ kept. AreParted kept.others.entries kept.options.entries };
}

// Puts a template among those of its kind, for which there is room.
fn put(
    own: &mut IndexMap<u16, Template, Hashing>,
    others: &mut IndexMap<u16, Template, Hashing>,
    id: u16,
    template: Template,
)
    requires { 0 < spare own.old }
    ensures own { Renumbers own.old.entries own.new.entries id (Some template) }
    ensures others { Renumbers others.old.entries others.new.entries id None }
    ensures own_room { spare own.old ≤ spare own.new + 1 }
    ensures others_room { spare others.old ≤ spare others.new }
{
    let _other_kind = others.swap_remove(&id);
    let _replaced = own.insert(id, template).unwrap();
}

// The template of an id among those of a kind. Where there are none, nothing is hashed.
fn find(templates: &IndexMap<u16, Template, Hashing>, id: u16) -> Option<&Template>
    ensures { option_copied result ≡ numbered templates.now.entries id }
{
    if templates.is_empty() {
        return None;
    }
    templates.get(&id)
}

impl DomainTemplates {
    /// No template, which takes no memory.
    pub(crate) fn new(alloc: Global, hashing: Hashing) -> DomainTemplates
        ensures { result.templates ≡ [] }
    {
        DomainTemplates {
            others: IndexMap::with_hasher(alloc, hashing),
            options: IndexMap::with_hasher(alloc, hashing),
        }
    }

    /// Makes room for as many more templates, of whichever kind.
    pub(crate) fn reserve(&mut self, count: usize) -> Result<(), NoMemory>
        ensures templates { self.new.templates ≡ self.old.templates }
        ensures ok { OnOk result (count ≤ self.new.room) }
        ensures room { self.old.room ≤ self.new.room }
    {
        self.others.reserve(count)?;
        self.options.reserve(count)?;
        Ok(())
    }

    /// Puts a template, for which there is room.
    pub(crate) fn put(&mut self, id: u16, template: Template)
        requires { 0 < self.old.room }
        ensures put { Renumbers self.old.templates self.new.templates id (Some template) }
        ensures room { self.old.room ≤ self.new.room + 1 }
    {
        if template.options {
            put(&mut self.options, &mut self.others, id, template);
        } else {
            put(&mut self.others, &mut self.options, id, template);
        }
    }

    pub(crate) fn withdraw(&mut self, id: u16)
        ensures withdrawn { Renumbers self.old.templates self.new.templates id None }
        ensures room { self.old.room ≤ self.new.room }
    {
        let _other = self.others.swap_remove(&id);
        let _options = self.options.swap_remove(&id);
    }

    /// Withdraws all options templates, or all others, in time for as many as there are.
    pub(crate) fn withdraw_all(&mut self, options: bool)
        ensures withdrawn { (id : _) → numbered self.new.templates id ≡ without_kind options (numbered self.old.templates id) }
        ensures room { self.old.room ≤ self.new.room }
    {
        if options {
            self.options.truncate(0);
        } else {
            self.others.truncate(0);
        }
    }

    /// Each id has one template.
    pub(crate) fn has_one_each(&self)
        ensures { HasOneAnId self.now.templates }
    {
        // The lengths are what says that no id comes twice among those of a kind.
        let _others = self.others.len();
        let _options = self.options.len();
    }

    pub(crate) fn find(&self, id: u16) -> Option<&Template>
        ensures { option_copied result ≡ numbered self.now.templates id }
    {
        match find(&self.others, id) {
            Some(template) => Some(template),
            None => find(&self.options, id),
        }
    }
}
