ghost use Rattle.std.specs.Prelude.{◌≡◌, Ok, Some, OnOk, length, true, false};
ghost use Rattle.framed_pieces.specs.Listening.{Listening};

use crate::Framing;
use acct_types::NoMemory;

/// What hears messages, one after another.
pub trait Listener<F: Framing> {
    /// What contracts see of a listener.
    ghost State: { Type 0 };

    ghost state: { Self → State };

    /// What a message, and a fault, makes of it, and whether it hears no more.
    ghost listening: { Listening State F.Fault };

    /// Hears a whole message.
    fn hear(&mut self, message: &[u8]) -> Result<(), NoMemory>
        requires whole { F.framed message.now ≡ Ok (Some (length message.now)) }
        requires live { listening.is_over (state self.old) ≡ false }
        ensures { OnOk result (state self.new ≡ listening.hears (state self.old) message.now) };

    /// Hears that no message can stand at the front of what is left, and nothing more.
    fn refuse(&mut self, fault: F::Fault) -> Result<(), NoMemory>
        requires live { listening.is_over (state self.old) ≡ false }
        ensures refuses { OnOk result (state self.new ≡ listening.refuses (state self.old) fault) }
        ensures ends { OnOk result (listening.is_over (state self.new) ≡ true) };

    /// Whether it hears no more.
    fn is_over(&self) -> bool
        ensures { result ≡ listening.is_over (state self.now) };
}
