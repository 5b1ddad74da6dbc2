ghost use Rattle.std.specs.Prelude.{◌≡◌};
ghost use Rattle.capture_file.specs.Capture.{has_magic};

/// Why the events of a capture end. Places are those of an event's first octet in the file, from 0.
#[derive(Clone, Copy, Debug, PartialEq, Eq)]
pub enum CaptureEnd {
    /// The file ends behind a whole event, or behind the magic.
    Ended,
    /// The file doesn't begin with the magic.
    BadMagic,
    /// The kind isn't one of this capture's.
    BadKind { place: u64 },
    /// The file ends within the event.
    Torn { place: u64 },
    /// The event's length is above 65,535.
    TooLong { place: u64 },
    /// The event would bring the octets of events above the limit.
    TooMany,
}

/// Whether octets begin with the magic.
pub fn has_magic(octets: &[u8]) -> bool
    ensures { result ≡ has_magic octets.now }
{
    octets.len() >= 8 && &octets[..8] == b"PMACAP01".as_slice()
}
