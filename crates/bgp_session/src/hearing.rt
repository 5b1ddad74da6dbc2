//! What is gathered while a piece is heard.

ghost use Rattle.std.specs.Prelude.{◌≡◌, [], false, None};

use crate::progress::{Local, Progress};
use crate::{Turn, Why};
use acct_types::{List, Octets, Update};
use std::alloc::Global;

/// What is gathered while a piece is heard.
#[derive(Drop)]
pub(crate) struct Hearing {
    pub(crate) alloc: Global,
    pub(crate) local: Local,
    pub(crate) progress: Progress,
    pub(crate) replies: Octets,
    pub(crate) updates: List<Update>,
    /// A message was heard.
    pub(crate) some: bool,
    pub(crate) closed: Option<Why>,
}

impl Hearing {
    pub(crate) fn new(alloc: Global, local: Local, progress: Progress) -> Hearing
        ensures local { result.local ≡ local }
        ensures progress { result.progress ≡ progress }
        ensures replies { result.replies ≡ [] }
        ensures updates { result.updates ≡ [] }
        ensures some { result.some ≡ false }
        ensures closed { result.closed ≡ None }
    {
        Hearing {
            alloc,
            local,
            progress,
            replies: List::new(alloc),
            updates: List::new(alloc),
            some: false,
            closed: None,
        }
    }

    pub(crate) fn into_turn(self) -> Turn
        ensures replies { result.replies ≡ self.replies }
        ensures updates { result.updates ≡ self.updates }
        ensures closed { result.closed ≡ self.closed }
    {
        Turn {
            replies: self.replies,
            updates: self.updates,
            closed: self.closed,
        }
    }
}
