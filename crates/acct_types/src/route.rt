//! What a route says of its prefix, and its texts.

ghost use Rattle.std.specs.Prelude.{◌≡◌, ◌++◌, true, IfOk, OnOk, OnErr, codes, decimal};
ghost use Rattle.acct_types.specs.Cells.{are_plain};
ghost use Rattle.acct_types.specs.Routes.{BeginsWith, communities_text, community_text, hop_text, numbers_text, path_text};

use crate::{Addr, List, NoMemory, Octets, Prefix, append_decimal};

/// A step of an AS path (RFC 4271, 4.3).
#[derive(Debug, PartialEq, Eq, Drop)]
pub enum Hop {
    /// One autonomous system.
    One(u32),
    /// Systems whose order isn't told, as the message lists them.
    Set(List<u32>),
}

/// What an UPDATE says of its prefixes (RFC 4271, 4.3, and RFC 1997). The path is from the nearest system to the one where the
/// prefix is.
#[derive(Debug, PartialEq, Eq, Drop)]
pub struct RouteAttrs {
    pub origin: u8,
    pub path: List<Hop>,
    pub med: Option<u32>,
    pub local_pref: Option<u32>,
    pub communities: List<u32>,
}

/// A route that is read where it is kept.
#[derive(Clone, Copy, Debug)]
pub struct RouteRef<'a> {
    pub prefix: Prefix,
    /// The path identifier of RFC 7911, 0 where there is none.
    pub path_id: u32,
    pub next_hop: Addr,
    pub attrs: &'a RouteAttrs,
}

impl Hop {
    /// An equal hop.
    pub fn copy(&self) -> Result<Hop, NoMemory>
        ensures { IfOk result (λ copy. copy ≡ self.now) }
    {
        match self {
            Hop::One(number) => Ok(Hop::One(*number)),
            Hop::Set(numbers) => Ok(Hop::Set(numbers.copy()?)),
        }
    }
}

fn copy_path(path: &List<Hop>) -> Result<List<Hop>, NoMemory>
    ensures { IfOk result (λ copy. copy ≡ path.now) }
{
    let mut copy = List::new(path.alloc());
    for hop in path.as_slice() {
        copy.push(hop.copy()?)?;
    }
    Ok(copy)
}

impl RouteAttrs {
    /// Equal attributes.
    pub fn copy(&self) -> Result<RouteAttrs, NoMemory>
        ensures { IfOk result (λ copy. copy ≡ self.now) }
    {
        Ok(RouteAttrs {
            origin: self.origin,
            path: copy_path(&self.path)?,
            med: self.med,
            local_pref: self.local_pref,
            communities: self.communities.copy()?,
        })
    }

    /// Appends the hops with `_` between them, a set as `{1_2}`: plain words. After NoMemory `out` is unchanged.
    #[tactic(auto, using(crate::proofs::RouteLemmas::plain_path))]
    pub fn append_path_text(&self, out: &mut Octets) -> Result<(), NoMemory>
        ensures ok { OnOk result (out.new ≡ out.old ++ path_text self.now.path) }
        ensures err { OnErr result (out.new ≡ out.old) }
        ensures plain { are_plain (path_text self.now.path) ≡ true }
    {
        let before = out.len();
        let pushed = push_path(out, self.path.as_slice());
        if pushed.is_err() {
            out.truncate(before);
        }
        pushed
    }

    /// Appends the communities as `high:low` with `_` between them: plain words. After NoMemory `out` is unchanged.
    #[tactic(auto, using(crate::proofs::RouteLemmas::plain_communities))]
    pub fn append_communities_text(&self, out: &mut Octets) -> Result<(), NoMemory>
        ensures ok { OnOk result (out.new ≡ out.old ++ communities_text self.now.communities) }
        ensures err { OnErr result (out.new ≡ out.old) }
        ensures plain { are_plain (communities_text self.now.communities) ≡ true }
    {
        let before = out.len();
        let pushed = push_communities(out, self.communities.as_slice());
        if pushed.is_err() {
            out.truncate(before);
        }
        pushed
    }
}

#[tactic(auto, using(crate::proofs::RouteLemmas::appended, crate::proofs::RouteLemmas::unchanged, crate::proofs::RouteLemmas::further))]
fn push_path(out: &mut Octets, path: &[Hop]) -> Result<(), NoMemory>
    ensures ok { OnOk result (out.new ≡ out.old ++ path_text path.now) }
    ensures kept { BeginsWith out.old out.new }
{
    let [first, rest @ ..] = path else {
        return Ok(());
    };
    push_hop(out, first)?;
    for hop in rest {
        out.push(b'_')?;
        push_hop(out, hop)?;
    }
    Ok(())
}

#[tactic(auto, using(crate::proofs::RouteLemmas::appended, crate::proofs::RouteLemmas::unchanged, crate::proofs::RouteLemmas::further))]
fn push_hop(out: &mut Octets, hop: &Hop) -> Result<(), NoMemory>
    ensures ok { OnOk result (out.new ≡ out.old ++ hop_text hop.now) }
    ensures kept { BeginsWith out.old out.new }
{
    match hop {
        Hop::One(number) => push_number(out, *number),
        Hop::Set(numbers) => {
            out.push(b'{')?;
            push_numbers(out, numbers.as_slice())?;
            out.push(b'}')
        }
    }
}

#[tactic(auto, using(crate::proofs::RouteLemmas::appended, crate::proofs::RouteLemmas::unchanged, crate::proofs::RouteLemmas::further))]
fn push_numbers(out: &mut Octets, numbers: &[u32]) -> Result<(), NoMemory>
    ensures ok { OnOk result (out.new ≡ out.old ++ numbers_text numbers.now) }
    ensures kept { BeginsWith out.old out.new }
{
    let [first, rest @ ..] = numbers else {
        return Ok(());
    };
    push_number(out, *first)?;
    for number in rest {
        out.push(b'_')?;
        push_number(out, *number)?;
    }
    Ok(())
}

#[tactic(auto, using(crate::proofs::RouteLemmas::appended, crate::proofs::RouteLemmas::unchanged, crate::proofs::RouteLemmas::further))]
fn push_communities(out: &mut Octets, communities: &[u32]) -> Result<(), NoMemory>
    ensures ok { OnOk result (out.new ≡ out.old ++ communities_text communities.now) }
    ensures kept { BeginsWith out.old out.new }
{
    let [first, rest @ ..] = communities else {
        return Ok(());
    };
    push_community(out, *first)?;
    for community in rest {
        out.push(b'_')?;
        push_community(out, *community)?;
    }
    Ok(())
}

#[tactic(auto, using(crate::proofs::RouteLemmas::appended, crate::proofs::RouteLemmas::unchanged, crate::proofs::RouteLemmas::further))]
fn push_community(out: &mut Octets, community: u32) -> Result<(), NoMemory>
    ensures ok { OnOk result (out.new ≡ out.old ++ community_text community) }
    ensures kept { BeginsWith out.old out.new }
{
    push_number(out, community >> 16)?;
    out.push(b':')?;
    push_number(out, community & 0xffff)
}

#[tactic(auto, using(crate::proofs::RouteLemmas::appended, crate::proofs::RouteLemmas::unchanged))]
fn push_number(out: &mut Octets, number: u32) -> Result<(), NoMemory>
    ensures ok { OnOk result (out.new ≡ out.old ++ decimal number) }
    ensures kept { BeginsWith out.old out.new }
{
    append_decimal(number, out)
}
