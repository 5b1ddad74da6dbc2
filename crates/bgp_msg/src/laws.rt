//! Laws of frames, of the messages that are written, and of the lists in an UPDATE.

ghost use Rattle.bgp_msg.specs.Spellings.{ReadsAddress, ReadsPath, ReadsPrefixes, ReplacesTheLast};
ghost use Rattle.bgp_msg.specs.Laws.{FaultBefore, FoundAlone, FoundBefore, ReadsKeepalive, ReadsNotification, ReadsOpen, WaitsWithFew};

/// A law: a message at the front of octets has 19 to 4,096 of them, and these alone are a message.
pub fn a_message_stands_alone()
    ensures { FoundAlone }
{}

/// A law: a message or a fault at the front is there whatever follows, and fewer than 4,096 octets are waited with.
pub fn what_follows_changes_nothing()
    ensures message { FoundBefore }
    ensures fault { FaultBefore }
    ensures waits { WaitsWithFew }
{}

/// A law: what the writers append is a whole message, which is read as what it was written of.
pub fn what_is_written_is_read()
    ensures hello { ReadsOpen }
    ensures keepalive { ReadsKeepalive }
    ensures notification { ReadsNotification }
{}

/// A law: the prefixes and path segments of an UPDATE are read as what they were spelled of. AS4_PATH changes neither the length of a path
/// nor its first hops.
pub fn lists_are_read_as_they_are_spelled()
    ensures prefixes { ReadsPrefixes }
    ensures address { ReadsAddress }
    ensures path { ReadsPath }
    ensures later { ReplacesTheLast }
{}
