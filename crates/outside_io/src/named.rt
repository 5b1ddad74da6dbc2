ghost use Rattle.std.specs.Prelude.{◌≡◌, ◌≤◌, [], OnOk, OnErr};
ghost use Rattle.std.specs.Option.{option_copied};
ghost use Rattle.outside_io.specs.Causes.{RisesWhere, RisesAt};
ghost use Rattle.outside_io.specs.Named.{value_of, place_of, count_of, PutsNamed, Raises};

use acct_types::{NoMemory, Text};
use std::alloc::Global;
use std::marker::Model;

/// A value under a name.
#[derive(Debug, Drop)]
pub struct Named<T> {
    pub name: Text,
    pub value: T,
}

/// Values under names, in the order in which the names came.
#[derive(Debug, Drop)]
pub struct NamedValues<T> {
    items: Vec<Named<T>>,
}

impl<T> Model for NamedValues<T> {
    ghost use Rattle.std.specs.Prelude.{List};
    ghost use Rattle.outside_io.specs.declared.named.Named.{Named};

    ghost Value = { List (Named T) };

    ghost view = { λ it. it.items.items };
}

impl<T> NamedValues<T> {
    /// No name has a value.
    pub fn new(alloc: Global) -> NamedValues<T>
        ensures { result ≡ [] }
    {
        NamedValues {
            items: Vec::new(alloc),
        }
    }

    /// How many values stand before that of the name, all of them where it has none.
    fn place(&self, name: &Text) -> usize
        ensures { result ≡ place_of self.now name.now }
    {
        for i in 0..self.items.len() {
            if self.items[i].name.as_slice() == name.as_slice() {
                return i;
            }
        }
        self.items.len()
    }

    /// The value of the name.
    pub fn find(&self, name: &Text) -> Option<&T>
        ensures { option_copied result ≡ value_of self.now name.now }
    {
        for item in &self.items {
            if item.name.as_slice() == name.as_slice() {
                return Some(&item.value);
            }
        }
        None
    }
}

impl<T: Drop> NamedValues<T> {
    /// Gives the name a value, in place of the one that it had. After NoMemory nothing has changed.
    pub fn put(&mut self, name: &Text, value: T) -> Result<(), NoMemory>
        ensures ok { OnOk result (PutsNamed self.old self.new name.now value) }
        ensures err { OnErr result (self.new ≡ self.old) }
    {
        let place = self.place(name);
        if place < self.items.len() {
            self.items[place].value = value;
        } else {
            let name = name.copy()?;
            self.items.push(Named { name, value })?;
        }
        Ok(())
    }
}

impl NamedValues<u64> {
    /// Raises the number of the name, 0 where it had none. After NoMemory nothing has changed.
    pub fn raise(&mut self, name: &Text) -> Result<(), NoMemory>
        ensures ok { OnOk result (Raises self.old self.new name.now) }
        ensures err { OnErr result (self.new ≡ self.old) }
    {
        let count = self.find(name).copied().unwrap_or(0);
        self.put(name, count.saturating_add(1))
    }

    /// Raises the number of the name where `faults` isn't 0.
    pub fn raise_where(&mut self, name: &Text, faults: u64) -> Result<(), NoMemory>
        ensures ok { OnOk result (RisesWhere faults (count_of self.old) (count_of self.new) name.now) }
        ensures at { RisesAt (count_of self.old) (count_of self.new) name.now }
        ensures err { OnErr result (self.new ≡ self.old) }
    {
        if faults == 0 {
            return Ok(());
        }
        self.raise(name)
    }
}
