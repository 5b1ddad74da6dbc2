ghost use Rattle.std.specs.Prelude.{◌≡◌, ◌<◌, IfSome};
ghost use Rattle.plugin_cache.specs.Slices.{FewItemsFit, SlicesArePurged, SlicesConserve, window_of};

use crate::{Aggregate, purges_conserve};
use acct_types::{Hashing, Item, Key, NoMemory, Purge, keys_are_ordered};
use std::alloc::Global;
use std::marker::Model;

/// The sums by key of the items of a slice. A slice has one window and at most as many keys as the limit, where there is one.
#[derive(Drop)]
pub struct Cache {
    alloc: Global,
    limit: Option<u32>,
    refresh: Option<u32>,
    window: u64,
    sums: Aggregate,
}

impl Model for Cache {
    ghost use Rattle.plugin_cache.specs.Slices.{CacheState, IsWithin};

    ghost Value = { CacheState };

    ghost view = { λ cache. record { limit = cache.limit; refresh = cache.refresh; window = cache.window; rows = cache.sums } };

    ghost invariant = { λ cache. IsWithin cache.limit cache.refresh cache.sums };
}

// The number of the window of a moment in milliseconds, where windows have so many seconds. Most moments lie in the window of the moment
// before, and it takes no division to see that.
fn window_of(refresh: Option<u32>, last: u64, moment: u64) -> u64
    requires { IfSome refresh (λ seconds. 0 < seconds) }
    ensures { result ≡ window_of refresh moment }
{
    let Some(seconds) = refresh else {
        return 0;
    };
    let length = 1000 * u64::from(seconds);
    if let Some(start) = last.checked_mul(length) {
        if start <= moment && moment - start < length {
            return last;
        }
    }
    moment / length
}

impl Cache {
    ghost use Rattle.std.specs.Prelude.{length, true, None, Ok, IfOk, OnOk, OnErr};
    ghost use Rattle.acct_types.specs.Counts.{CountsFit, plus};
    ghost use Rattle.plugin_cache.specs.Slices.{AnswersEnd, AnswersEntry, after, completes, fresh, is_full, timed};
    ghost use Rattle.plugin_cache.specs.Sums.{count_in, has_key};

    /// A cache that was given nothing, whose slices have at most `limit` keys and one window of `refresh` seconds, where
    /// these are given. It asks for room for `limit` keys, which are looked up by `hashing`: no answer depends on that.
    pub fn open(
        alloc: Global,
        hashing: Hashing,
        limit: Option<u32>,
        refresh: Option<u32>,
    ) -> Result<Cache, NoMemory>
        requires limit { IfSome limit (λ keys. 0 < keys) }
        requires refresh { IfSome refresh (λ seconds. 0 < seconds) }
        ensures { IfOk result (λ cache. cache ≡ fresh limit refresh) }
    {
        let sums = match limit {
            Some(keys) => Aggregate::with_room(alloc, hashing, keys as usize)?,
            None => Aggregate::new(alloc, hashing),
        };
        Ok(Cache {
            alloc,
            limit,
            refresh,
            window: 0,
            sums,
        })
    }

    // Whether the slice has as many keys as it may have.
    fn is_full(&self) -> bool
        ensures { result ≡ is_full self.now.limit (length self.now.rows) }
    {
        match self.limit {
            Some(limit) => self.sums.len() >= limit as usize,
            None => false,
        }
    }

    // Whether an item of this window and key doesn't go with the slice.
    fn completes(&self, window: u64, key: &Key) -> bool
        ensures { result ≡ completes self.now window key.now }
    {
        self.sums.len() > 0 && (window != self.window || self.is_full() && !self.sums.has(key))
    }

    /// Adds an item. The answer is the purge of a slice, exactly where the item completes it: where the cache isn't empty,
    /// and the item's window differs or the cache has all its keys and the item's is a new one. The item then begins the
    /// next slice. After NoMemory the cache is unchanged; an item whose key is there in the same window takes no memory.
    pub fn add(&mut self, item: Item) -> Result<Option<Purge>, NoMemory>
        requires { CountsFit (plus (count_in self.old.rows item.key) item.counts) }
        ensures purge { IfOk result (AnswersEntry self.old (timed self.old.refresh item)) }
        ensures ok { OnOk result (self.new ≡ after self.old (timed self.old.refresh item)) }
        ensures err { OnErr result (self.new ≡ self.old) }
        ensures there { has_key self.old.rows item.key ≡ true → window_of self.old.refresh item.moment ≡ self.old.window → result ≡ Ok None }
    {
        let Item {
            moment,
            key,
            counts,
            ..
        } = item;
        let window = window_of(self.refresh, self.window, moment);
        if self.completes(window, &key) {
            let rows = self.sums.start_over(self.alloc, key, counts)?;
            let purge = Purge {
                window: self.window,
                rows,
            };
            self.window = window;
            return Ok(Some(purge));
        }
        self.sums.add(key, counts)?;
        self.window = window;
        Ok(None)
    }

    /// The purge of the last slice, None exactly where the cache is empty.
    pub fn finish(self) -> Result<Option<Purge>, NoMemory>
        ensures { IfOk result (AnswersEnd self) }
    {
        if self.sums.len() == 0 {
            return Ok(None);
        }
        let rows = self.sums.into_rows(self.alloc)?;
        Ok(Some(Purge {
            window: self.window,
            rows,
        }))
    }
}

/// A law: what a cache answers to items, one after another, and then to the end are the purges of their slices.
pub fn slices_are_purged()
    ensures { SlicesArePurged }
{
    keys_are_ordered();
}

/// A law: over all purges each key has the sums that it has over the items.
pub fn slices_conserve()
    ensures { SlicesConserve }
{
    purges_conserve();
}

/// A law: the sums of fewer than 2^32 items fit.
pub fn few_items_fit()
    ensures { FewItemsFit }
{
    keys_are_ordered();
}
