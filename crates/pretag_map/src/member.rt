//! The members of a map's line.

ghost use Rattle.std.specs.Prelude.{◌≡◌, ◌==◌, IfOk, map, option_map, position};
ghost use Rattle.std.specs.List.{slice_split};
ghost use Rattle.config_keys.specs.Lines.{is_blank};
ghost use Rattle.pretag_map.specs.Members.{keys_of, member_of, members_in, members_of, words_in};
ghost use Rattle.pretag_map.specs.Views.{member_view};

use acct_types::NoMemory;
use std::alloc::Global;

/// A key and its value.
#[derive(Clone, Copy)]
pub struct Member<'a> {
    pub key: &'a [u8],
    pub value: &'a [u8],
}

/// Where an octet first stands.
pub fn place_of(text: &[u8], octet: u8) -> Option<usize>
    ensures { result ≡ position (λ other. other == octet) text.now }
{
    text.iter().position(|other| *other == octet)
}

fn is_blank(octet: u8) -> bool
    ensures { result ≡ is_blank octet }
{
    octet == b' ' || octet == b'\t'
}

fn pieces_of(alloc: Global, line: &[u8]) -> Result<Vec<&[u8]>, NoMemory>
    ensures { IfOk result (λ pieces. map (λ p. p.now) pieces.items ≡ slice_split is_blank line.now) }
{
    Ok(line.split(|octet| is_blank(*octet)).collect(alloc)?)
}

fn words_in<'a>(alloc: Global, pieces: &[&'a [u8]]) -> Result<Vec<&'a [u8]>, NoMemory>
    ensures { IfOk result (λ words. map (λ w. w.now) words.items ≡ words_in (map (λ p. p.now) pieces.now)) }
{
    let mut words = Vec::new(alloc);
    for piece in pieces {
        if !piece.is_empty() {
            words.push(*piece)?;
        }
    }
    Ok(words)
}

fn read_member(word: &[u8]) -> Option<Member<'_>>
    ensures { option_map member_view result ≡ member_of word.now }
{
    let place = place_of(word, b'=')?;
    Some(Member {
        key: &word[..place],
        value: &word[place + 1..],
    })
}

fn members_in<'a>(alloc: Global, words: &[&'a [u8]]) -> Result<Option<Vec<Member<'a>>>, NoMemory>
    ensures { IfOk result (λ members. option_map (λ v. map member_view v.items) members ≡ members_in (map (λ w. w.now) words.now)) }
{
    let mut members = Vec::new(alloc);
    for word in words {
        match read_member(word) {
            Some(member) => members.push(member)?,
            None => return Ok(None),
        }
    }
    Ok(Some(members))
}

/// The members of a line, between spaces and tabs; None where one has no `=`.
pub fn read_members(alloc: Global, line: &[u8]) -> Result<Option<Vec<Member<'_>>>, NoMemory>
    ensures { IfOk result (λ members. option_map (λ v. map member_view v.items) members ≡ members_of line.now) }
{
    let pieces = pieces_of(alloc, line)?;
    let words = words_in(alloc, &pieces)?;
    members_in(alloc, &words)
}

/// The keys of members.
pub fn keys_of<'a>(alloc: Global, members: &[Member<'a>]) -> Result<Vec<&'a [u8]>, NoMemory>
    ensures { IfOk result (λ keys. map (λ k. k.now) keys.items ≡ keys_of (map member_view members.now)) }
{
    let mut keys = Vec::new(alloc);
    for member in members {
        keys.push(member.key)?;
    }
    Ok(keys)
}
