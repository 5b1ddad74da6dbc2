use crate::InputFault;

/// What there is too much of.
#[derive(Clone, Copy, Debug, PartialEq, Eq)]
pub enum Which {
    Records,
    Messages,
    Octets,
}

/// How an input of a run came to its end.
#[derive(Clone, Copy, Debug, PartialEq, Eq)]
pub enum SideEnd {
    Ended,
    Fault(InputFault),
    TooMany(Which),
}

/// How an output of a run came to its end: it was written whole, a write failed, or memory ran out.
#[derive(Clone, Copy, Debug, PartialEq, Eq)]
pub enum OutEnd {
    Whole,
    Failed,
    Memory,
}
