//! Pieces, one behind another.

ghost use Rattle.std.specs.Prelude.{◌≡◌, ◌++◌, [], Ok, Some, None, OnOk, length, false};
ghost use Rattle.framed_pieces.specs.Framing.{IsFraming};
ghost use Rattle.framed_pieces.specs.Listening.{kept, taken};

use crate::begun::complete;
use crate::{Framing, Listener};
use acct_types::{NoMemory, Octets};

// Takes the whole messages at the front, and keeps the rest, unless the listener hears no more then.
fn take_all<F: Framing, L: Listener<F>>(
    listener: &mut L,
    begun: &mut Octets,
    octets: &[u8],
) -> Result<(), NoMemory>
    requires lawful { IsFraming F.framed }
    requires empty { begun.old ≡ [] }
    requires live { L.listening.is_over (L.state listener.old) ≡ false }
    ensures takes { OnOk result (L.state listener.new ≡ taken F.framed L.listening (L.state listener.old) octets.now) }
    ensures keeps { OnOk result (begun.new ≡ kept F.framed L.listening (L.state listener.old) octets.now) }
{
    let mut rest = octets;
    loop {
        match F::frame(rest) {
            Err(fault) => {
                listener.refuse(fault)?;
                return Ok(());
            }
            Ok(None) => {
                begun.extend(rest)?;
                return Ok(());
            }
            Ok(Some(size)) => {
                let (message, later) = rest.split_at(size as usize);
                listener.hear(message)?;
                if listener.is_over() {
                    return Ok(());
                }
                rest = later;
            }
        }
    }
}

/// Takes a piece behind the octets of a message begun: the listener hears the messages that are whole then, up to the one with which
/// it is over. What isn't a whole message is kept, unless the listener is over.
pub fn take_piece<F: Framing, L: Listener<F>>(
    listener: &mut L,
    begun: &mut Octets,
    piece: &[u8],
) -> Result<(), NoMemory>
    requires lawful { IsFraming F.framed }
    requires partial { F.framed begun.old ≡ Ok None }
    requires live { L.listening.is_over (L.state listener.old) ≡ false }
    ensures takes { OnOk result (L.state listener.new ≡ taken F.framed L.listening (L.state listener.old) (begun.old ++ piece.now)) }
    ensures keeps { OnOk result (begun.new ≡ kept F.framed L.listening (L.state listener.old) (begun.old ++ piece.now)) }
{
    if begun.is_empty() {
        return take_all::<F, L>(listener, begun, piece);
    }
    let rest = complete::<F>(begun, piece)?;
    match F::frame(begun.as_slice()) {
        Err(fault) => {
            begun.truncate(0);
            listener.refuse(fault)?;
            Ok(())
        }
        Ok(None) => Ok(()),
        Ok(Some(_)) => {
            listener.hear(begun.as_slice())?;
            begun.truncate(0);
            if listener.is_over() {
                return Ok(());
            }
            take_all::<F, L>(listener, begun, rest)?;
            Ok(())
        }
    }
}
