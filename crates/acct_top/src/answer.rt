ghost use Rattle.std.specs.Prelude.{◌≡◌};
ghost use Rattle.acct_top.specs.Answers.{side_answer};
ghost use Rattle.acct_top.specs.Status.{status_of};

use acct_types::Text;
use config_keys::ConfigCause;
use outside_io::{InputFault, SideEnd, Which};
use pretag_map::MapCause;

/// Why a file is refused.
#[derive(Clone, Copy, Debug, PartialEq, Eq)]
pub enum AnyCause {
    /// A configuration has this cause.
    Config(ConfigCause),
    /// A map has this cause.
    Map(MapCause),
    /// The file has more than 1,048,576 octets.
    TooLong,
}

/// What is wrong with a capture.
#[derive(Clone, Copy, Debug, PartialEq, Eq)]
pub enum BadCause {
    /// It doesn't begin with the magic.
    Magic,
    /// An event is of no kind that it may have.
    Kind,
    /// An event has more octets than it may have.
    Length,
}

/// How a run ended.
#[derive(Debug, Drop)]
pub enum Answer {
    /// The capture was read to its end, all outputs were written and closed, and the line was said.
    Done,
    /// The words aren't those of the program.
    Usage,
    /// The configuration or the map in this file has this cause at this line, from 1, or at no line, which is 0.
    ConfigRefused {
        file: Text,
        line: u32,
        cause: AnyCause,
    },
    /// The name couldn't be opened, or is that of a configuration or a map that couldn't be read.
    OpenFault {
        name: Text,
    },
    /// Reading the flow capture failed.
    FlowFault,
    /// A capture, that of flows or that of routes, ends within the event at this place.
    CaptureTorn {
        flows: bool,
        place: u64,
    },
    /// A capture isn't well formed at this place.
    CaptureBad {
        flows: bool,
        place: u64,
        cause: BadCause,
    },
    /// Writing or closing the name failed.
    WriteFault {
        name: Text,
    },
    /// All else was done, and the line couldn't be said.
    SayFault,
    /// One more would have passed a limit. All before it is accounted for.
    TooMany {
        which: Which,
    },
    NoMemory,
}

/// The exit status of an answer.
pub fn status(answer: &Answer) -> u8
    ensures { result ≡ status_of answer.now }
{
    match answer {
        Answer::Done => 0,
        Answer::Usage => 1,
        Answer::ConfigRefused {
            file: _,
            line: _,
            cause: _,
        } => 2,
        Answer::OpenFault { name: _ } => 3,
        Answer::FlowFault => 4,
        Answer::CaptureTorn { flows: _, place: _ }
        | Answer::CaptureBad {
            flows: _,
            place: _,
            cause: _,
        } => 5,
        Answer::WriteFault { name: _ } | Answer::SayFault => 6,
        Answer::TooMany { which: _ } => 7,
        Answer::NoMemory => 8,
    }
}

/// How a run answers whose flow side ended so.
pub fn side_answer(end: SideEnd) -> Answer
    ensures { result ≡ side_answer end }
{
    let fault = match end {
        SideEnd::Ended => return Answer::Done,
        SideEnd::TooMany(which) => return Answer::TooMany { which },
        SideEnd::Fault(fault) => fault,
    };
    let (place, cause) = match fault {
        InputFault::ReadFault => return Answer::FlowFault,
        InputFault::NoMemory => return Answer::NoMemory,
        InputFault::TooMany => {
            return Answer::TooMany {
                which: Which::Octets,
            };
        }
        InputFault::Torn { place } => return Answer::CaptureTorn { flows: true, place },
        InputFault::BadMagic => (0, BadCause::Magic),
        InputFault::BadKind { place } => (place, BadCause::Kind),
        InputFault::TooLong { place } => (place, BadCause::Length),
    };
    Answer::CaptureBad {
        flows: true,
        place,
        cause,
    }
}
