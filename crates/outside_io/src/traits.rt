ghost use Rattle.std.specs.Prelude.{◌≡◌, ◌≢◌, ◌<◌, ◌≤◌, ◌∷◌, ◌++◌, ℕ, List, [], length, Bool, IsTrue, Some, IsSome, IfOk, OnOk, IsErrOf, MatchResult};
ghost use Rattle.std.specs.Io.{ReadsAtMost, WritesAtMost};
ghost use Rattle.std.specs.Io.KnownBytes.{prepend_known};
ghost use Rattle.outside_io.specs.Causes.{HasCause, IsStillUnlessFailed, HasCauseAt, RisesWhere, RisesAt};
ghost use Rattle.outside_io.specs.Octets.{Takes, ReadTakes, EndsWhereDone, WriteAdds};
ghost use Rattle.outside_io.specs.Names.{begun, Puts, PutsFront};
ghost use Rattle.outside_io.specs.States.{SourceState, SinkState, PlaceState};

use crate::{Begin, IoFault};
use acct_types::{NoMemory, Text};

/// What octets come from.
pub trait Source {
    /// The octets left, where it tells them, and how often it failed, which never falls.
    ghost state: { Self → SourceState };

    /// Takes a front of the octets left into `buf`, and answers its length. 0 for a buffer that isn't empty
    /// says that none are left. After an error all of them are left.
    fn read(&mut self, buf: &mut [u8]) -> Result<usize, IoFault>
        ensures bound { ReadsAtMost result buf.new }
        ensures octets { ReadTakes (state self.old).left (state self.new).left result buf.new }
        ensures end { EndsWhereDone (state self.old).left result buf.new }
        ensures cause { HasCause (state self.old).faults (state self.new).faults result };
}

/// What octets go to.
pub trait Sink: Drop {
    /// The octets held, where it tells them, and how often it failed, which never falls.
    ghost state: { Self → SinkState };

    /// Adds a front of `piece` to what is held, and answers its length, which is 0 only for an empty piece.
    /// After an error a front of the piece was added, which may be empty.
    fn write(&mut self, piece: &[u8]) -> Result<usize, IoFault>
        ensures bound { WritesAtMost result piece.now }
        ensures octets { WriteAdds (state self.old).held (state self.new).held result piece.now }
        ensures progress { IfOk result (λ n. 0 < length piece.now → 0 < n) }
        ensures cause { HasCause (state self.old).faults (state self.new).faults result }
        ensures still { IsStillUnlessFailed (state self.old).faults (state self.new).faults result };
}

/// Names with octets. Numbers of faults never fall, and a call changes those of its name alone.
pub trait Place {
    type In: Source + Send + Drop;

    type Out: Sink + Send;

    /// Whether it tells the octets of its names, and what was taken of them.
    ghost tells: { Bool };

    /// The octets of each name and those that each close took of it, where it tells them, and how often opening, reading
    /// and writing (or closing) each name failed.
    ghost state: { Self → PlaceState };

    /// A source with the octets of the name left. It fails where the name is missing. Whatever it answers, no
    /// name changes.
    fn open_in(&mut self, name: &Text) -> Result<Self::In, IoFault>
        ensures opened { IsTrue tells → IfOk result (λ input. IsSome ((state self.old).names name.now) × ((Self.In.state input).left ≡ (state self.old).names name.now)) }
        ensures names { IsTrue tells → (state self.new).names ≡ (state self.old).names }
        ensures taken { IsTrue tells → (state self.new).taken ≡ (state self.old).taken }
        ensures fresh { IfOk result (λ input. (Self.In.state input).faults ≡ 0) }
        ensures cause { HasCauseAt (state self.old).opens (state self.new).opens name.now result }
        ensures reads { (state self.new).reads ≡ (state self.old).reads }
        ensures writes { (state self.new).writes ≡ (state self.old).writes };

    /// Takes the input back. What it has left is the end of the name's octets, and what stands before that end
    /// was taken.
    fn close_in(&mut self, name: &Text, input: Self::In) -> Result<(), NoMemory>
        requires { IsTrue tells → (before : List ℕ) × Takes ((state self.old).names name.now) before (Self.In.state input).left }
        ensures names { IsTrue tells → (state self.new).names ≡ (state self.old).names }
        ensures taken { IsTrue tells → OnOk result ((before : List ℕ) → Takes ((state self.old).names name.now) before (Self.In.state input).left
            → Puts (state self.old).taken (state self.new).taken name.now ((state self.old).taken name.now ++ before ∷ [])) }
        ensures others { IsTrue tells → (other : List ℕ) → other ≢ name.now → (state self.new).taken other ≡ (state self.old).taken other }
        ensures opens { (state self.new).opens ≡ (state self.old).opens }
        ensures cause { OnOk result (RisesWhere (Self.In.state input).faults (state self.old).reads (state self.new).reads name.now) }
        ensures reads { RisesAt (state self.old).reads (state self.new).reads name.now }
        ensures writes { (state self.new).writes ≡ (state self.old).writes };

    /// A sink that holds nothing. With Anew the name is emptied. After an error no name has changed.
    fn open_out(&mut self, name: &Text, begin: Begin) -> Result<Self::Out, IoFault>
        ensures opened { IsTrue tells → IfOk result (λ out. (Self.Out.state out).held ≡ Some []) }
        ensures names { IsTrue tells → MatchResult result
            (λ _. Puts (state self.old).names (state self.new).names name.now (Some (begun begin (state self.old).names name.now)))
            (λ _. (state self.new).names ≡ (state self.old).names) }
        ensures taken { IsTrue tells → (state self.new).taken ≡ (state self.old).taken }
        ensures fresh { IfOk result (λ out. (Self.Out.state out).faults ≡ 0) }
        ensures cause { HasCauseAt (state self.old).opens (state self.new).opens name.now result }
        ensures reads { (state self.new).reads ≡ (state self.old).reads }
        ensures writes { (state self.new).writes ≡ (state self.old).writes };

    /// Takes the sink back. The name has its old octets, none with Anew, and then what the sink holds, or a front
    /// of that where it failed. No other name changes.
    fn close_out(&mut self, name: &Text, begin: Begin, out: Self::Out) -> Result<(), IoFault>
        ensures ok { IsTrue tells → OnOk result
            (Puts (state self.old).names (state self.new).names name.now (prepend_known (begun begin (state self.old).names name.now) (Self.Out.state out).held)) }
        ensures failed { IsTrue tells → IsErrOf result IoFault.Failed →
            PutsFront (state self.old).names (state self.new).names name.now (begun begin (state self.old).names name.now) (Self.Out.state out).held }
        ensures others { IsTrue tells → (other : List ℕ) → other ≢ name.now → (state self.new).names other ≡ (state self.old).names other }
        ensures taken { IsTrue tells → (state self.new).taken ≡ (state self.old).taken }
        ensures opens { (state self.new).opens ≡ (state self.old).opens }
        ensures reads { (state self.new).reads ≡ (state self.old).reads }
        ensures cause { HasCauseAt (state self.old).writes (state self.new).writes name.now result }
        ensures kept { OnOk result (RisesWhere (Self.Out.state out).faults (state self.old).writes (state self.new).writes name.now) };
}
