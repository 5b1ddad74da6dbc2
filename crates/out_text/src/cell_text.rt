//! The text of a cell.

ghost use Rattle.std.specs.Prelude.{◌≡◌, ◌++◌, ◌∷◌, ◌<◌, [], OnOk, codes, flat_map, map};
ghost use Rattle.std.specs.Char.{digit_char};
ghost use Rattle.out_text.specs.Lines.{cell_text, hex_pair, mac_text};
ghost use Rattle.out_text.specs.Rows.{shown_cell};

use crate::row::Shown;
use acct_types::{CellRef, NoMemory, Octets, append_decimal};

/// Appends what is shown, as the table layouts have it.
#[tactic(auto, unfolding(crate::specs::Lines::cell_text))]
pub fn append_text(shown: &Shown<'_>, out: &mut Octets) -> Result<(), NoMemory>
    ensures { OnOk result (out.new ≡ out.old ++ cell_text (shown_cell shown.now)) }
{
    match shown {
        Shown::Count(number) => append_decimal(*number, out),
        Shown::Cell(CellRef::Number(number)) => append_decimal(*number, out),
        Shown::Cell(CellRef::Address(address)) => address.append_text(out),
        Shown::Cell(CellRef::Mac(mac)) => append_mac(*mac, out),
        Shown::Cell(CellRef::Words(words)) => out.extend(words),
    }
}

#[tactic(auto, unfolding(crate::specs::Lines::mac_text))]
fn append_mac(mac: u64, out: &mut Octets) -> Result<(), NoMemory>
    ensures { OnOk result (out.new ≡ out.old ++ mac_text mac) }
{
    let octets = mac.to_be_bytes();
    append_pair(octets[2], out)?;
    append_more_pairs(&octets[3..], out)
}

// Pairs with a colon before each.
fn append_more_pairs(octets: &[u8], out: &mut Octets) -> Result<(), NoMemory>
    ensures { OnOk result (out.new ≡ out.old ++ flat_map (λ other. codes ":" ++ other) (map hex_pair octets.now)) }
{
    for octet in octets {
        out.push(b':')?;
        append_pair(*octet, out)?;
    }
    Ok(())
}

fn append_pair(octet: u8, out: &mut Octets) -> Result<(), NoMemory>
    ensures { OnOk result (out.new ≡ out.old ++ hex_pair octet) }
{
    out.push(hex_digit(octet / 16))?;
    out.push(hex_digit(octet % 16))
}

fn hex_digit(value: u8) -> u8
    requires { value < 16 }
    ensures { result ≡ digit_char value }
{
    if value < 10 {
        b'0' + value
    } else {
        b'a' + (value - 10)
    }
}
