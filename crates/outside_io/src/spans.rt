//! Laws of the events that an input hands out between two moments, and of its calls.

ghost use Rattle.outside_io.specs.Calls.{CallsJoin, OneCallMore};
ghost use Rattle.outside_io.specs.Spans.{NothingInNoTime, SpansJoin, SpansAreUnique};

use crate::{Datagrams, Sessions};

/// A law: at one moment nothing is handed out.
#[tactic(auto, using(crate::proofs::SpanLemmas::nothing_in_no_time))]
pub fn nothing_is_handed_out_in_no_time<T>()
    ensures { NothingInNoTime T }
{}

/// A law: what is handed out in two spans that adjoin is what the first has, and then what the second has.
#[tactic(auto, using(crate::proofs::SpanLemmas::spans_join))]
pub fn adjoining_spans_join<T>()
    ensures { SpansJoin T }
{}

/// A law: where an input tells what it has left, or what it handed out, one list alone was handed out in a span.
pub fn what_is_handed_out_is_unique<T>()
    ensures { SpansAreUnique T }
{}

/// A law: calls of datagrams and then more calls, or one more, are the calls of both, and hand out what the first did and then what the others did.
pub fn calls_of_datagrams_join<D: Datagrams>()
    ensures join { CallsJoin D.call }
    ensures one_more { OneCallMore D.call }
{}

/// A law: the same of the calls of sessions.
pub fn calls_of_sessions_join<I: Sessions>()
    ensures join { CallsJoin I.call }
    ensures one_more { OneCallMore I.call }
{}
