//! The texts that are read before a run.

ghost use Rattle.std.specs.Prelude.{◌≡◌, ◌⊎◌, ◌≤◌, length, Some, IsTrue, IfOk, IfErr};
ghost use Rattle.acct_top.specs.Reading.{TakesMore, HasTextCause, IsRefusalOf, MOST_TEXT, ReadReason};
ghost use Rattle.outside_io.specs.States.{OnlyRead};

use crate::{Answer, AnyCause};
use acct_types::{NoMemory, Octets, Text};
use outside_io::{IoFault, Place, read_name};
use std::alloc::Global;

/// The most octets of a configuration or a map.
const MOST_TEXT: usize = 1_048_576;

/// The answer where a text is refused at a line.
pub fn refused(name: &Text, line: u32, cause: AnyCause) -> Answer
    ensures { (result ≡ Answer.NoMemory) ⊎ (result ≡ Answer.ConfigRefused name.now line cause) }
{
    match name.copy() {
        Ok(file) => Answer::ConfigRefused { file, line, cause },
        Err(NoMemory) => Answer::NoMemory,
    }
}

// The answer where a name couldn't be opened or read.
fn unread(name: &Text) -> Answer
    ensures { (result ≡ Answer.NoMemory) ⊎ (result ≡ Answer.OpenFault name.now) }
{
    match name.copy() {
        Ok(name) => Answer::OpenFault { name },
        Err(NoMemory) => Answer::NoMemory,
    }
}

/// The text of a name, of at most 1,048,576 octets.
pub fn read_text<P: Place>(alloc: Global, place: &mut P, name: &Text) -> Result<Octets, Answer>
    ensures text { IsTrue P.tells → IfOk result (λ text. (P.state place.old).names name.now ≡ Some text) }
    ensures short { IfOk result (λ text. length text ≤ MOST_TEXT) }
    ensures refused { IsTrue P.tells → IfErr result (λ answer. IsRefusalOf HasTextCause (P.state place.old).names name.now answer) }
    ensures reason { IfErr result (λ answer. ReadReason answer (P.state place.old) (P.state place.new)) }
    ensures names { IsTrue P.tells → (P.state place.new).names ≡ (P.state place.old).names }
    ensures taken { IsTrue P.tells → IfOk result (λ text. TakesMore (P.state place.old).taken (P.state place.new).taken name.now text) }
    ensures only_read { OnlyRead (P.state place.old) (P.state place.new) }
{
    let text = match read_name(alloc, place, name, MOST_TEXT + 1) {
        Ok(text) => text,
        Err(IoFault::Failed) => return Err(unread(name)),
        Err(IoFault::NoMemory) => return Err(Answer::NoMemory),
    };
    if text.len() > MOST_TEXT {
        return Err(refused(name, 0, AnyCause::TooLong));
    }
    Ok(text)
}
