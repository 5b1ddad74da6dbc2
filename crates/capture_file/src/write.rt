//! Captures as they are written.

ghost use Rattle.std.specs.Prelude.{◌≡◌, ◌≤◌, ◌<◌, ◌+◌, ◌*◌, ◌^◌, ◌++◌, ◌∷◌, List as Sequence, ℕ, length, take, IfOk, OnOk, OnErr};
ghost use Rattle.acct_types.specs.RouteEvents.{act_octets};
ghost use Rattle.capture_file.specs.Capture.{magic};
ghost use Rattle.capture_file.specs.Event.{address_spelling, event_spelling, high_half_spelling, low_half_spelling, route_spelling_of, spelling_of};

use acct_types::{Act, Addr, Datagram, NoMemory, Octets, RouteEvent, Side};

/// Appends the eight octets that a capture begins with. After NoMemory `out` is unchanged.
pub fn write_magic(out: &mut Octets) -> Result<(), NoMemory>
    ensures ok { OnOk result (out.new ≡ out.old ++ magic) }
    ensures err { OnErr result (out.new ≡ out.old) }
{
    out.extend(b"PMACAP01")
}

fn low_half(address: &Addr) -> u8
    ensures { result ≡ low_half_spelling address.now }
{
    match address {
        Addr::V4(_) => 4,
        Addr::V6(_) => 6,
    }
}

fn high_half(side: Side, act: &Act) -> u8
    ensures value { result ≡ high_half_spelling side act.now }
    ensures fits { result < 8 }
{
    match (side, act) {
        (Side::Bgp, Act::Up) => 1,
        (Side::Bgp, Act::Bytes(_)) => 2,
        (Side::Bgp, Act::Down) => 3,
        (Side::Bmp, Act::Up) => 4,
        (Side::Bmp, Act::Bytes(_)) => 5,
        (Side::Bmp, Act::Down) => 6,
        (_, Act::Tick) => 7,
    }
}

fn append_address(address: &Addr, out: &mut Octets) -> Result<(), NoMemory>
    ensures ok { OnOk result (out.new ≡ out.old ++ address_spelling address.now) }
    ensures err { OnErr result (out.new ≡ out.old) }
{
    match address {
        Addr::V4(number) => out.extend(&number.to_be_bytes()),
        Addr::V6(number) => out.extend(&number.to_be_bytes()),
    }
}

// Kind, stamp, address, port, length and octets. After NoMemory `out` is longer by some of them.
#[tactic(auto, using(crate::proofs::WriteLemmas::laid_out))]
fn append_event(
    high: u8,
    stamp: u64,
    address: &Addr,
    port: u16,
    octets: &[u8],
    out: &mut Octets,
) -> Result<(), NoMemory>
    requires kind { high < 8 }
    requires octets { length octets.now ≤ 65535 }
    ensures ok { OnOk result (out.new ≡ out.old ++ event_spelling high stamp address.now port octets.now) }
    ensures err { OnErr result (take (length out.old) out.new ≡ out.old) }
{
    out.push(16 * high + low_half(address))?;
    out.extend(&stamp.to_be_bytes())?;
    append_address(address, out)?;
    out.extend(&port.to_be_bytes())?;
    out.extend(&(octets.len() as u32).to_be_bytes())?;
    out.extend(octets)
}

fn write_event(
    high: u8,
    stamp: u64,
    address: &Addr,
    port: u16,
    octets: &[u8],
    out: &mut Octets,
) -> Result<(), NoMemory>
    requires kind { high < 8 }
    requires octets { length octets.now ≤ 65535 }
    ensures ok { OnOk result (out.new ≡ out.old ++ event_spelling high stamp address.now port octets.now) }
    ensures err { OnErr result (out.new ≡ out.old) }
{
    let before = out.len();
    let written = append_event(high, stamp, address, port, octets, out);
    if written.is_err() {
        out.truncate(before);
    }
    written
}

/// Appends the event of a datagram of at most 65,535 octets, its moment as the stamp in milliseconds. After NoMemory `out` is unchanged.
pub fn write_flow(d: &Datagram, out: &mut Octets) -> Result<(), NoMemory>
    requires { length d.now.octets ≤ 65535 }
    ensures ok { OnOk result (out.new ≡ out.old ++ spelling_of d.now) }
    ensures err { OnErr result (out.new ≡ out.old) }
{
    write_event(0, d.moment, &d.exporter, d.port, d.octets.as_slice(), out)
}

/// Appends a route event with at most 65,535 octets, its moment as the stamp in milliseconds. After NoMemory `out` is unchanged.
pub fn write_route(e: &RouteEvent, out: &mut Octets) -> Result<(), NoMemory>
    requires { length (act_octets e.now.act) ≤ 65535 }
    ensures ok { OnOk result (out.new ≡ out.old ++ route_spelling_of e.now) }
    ensures err { OnErr result (out.new ≡ out.old) }
{
    let octets = match &e.act {
        Act::Bytes(octets) => octets.as_slice(),
        Act::Up | Act::Down | Act::Tick => &[],
    };
    write_event(
        high_half(e.side, &e.act),
        e.moment,
        &e.address,
        e.port,
        octets,
        out,
    )
}
