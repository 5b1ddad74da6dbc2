//! What is wrong with the members of a line.

ghost use Rattle.std.specs.Prelude.{◌≡◌, not, IfOk, map};
ghost use Rattle.std.specs.List.{list_all};
ghost use Rattle.config_keys.specs.Values.{are_apart};
ghost use Rattle.pretag_map.specs.Judging.{fits, is_known, line_members};
ghost use Rattle.pretag_map.specs.Keys.{row_view};
ghost use Rattle.pretag_map.specs.Members.{keys_of};
ghost use Rattle.pretag_map.specs.Views.{MembersAre, member_view};

use crate::fault::MapCause;
use crate::keys::{Row, find_row};
use crate::member::{Member, keys_of, read_members};
use crate::value::takes;
use acct_types::NoMemory;
use config_keys::{are_apart, is_text};
use std::alloc::Global;

fn is_known(rows: &[Row], member: Member<'_>) -> bool
    ensures { result ≡ is_known (map row_view rows.now) (member_view member.entry) }
{
    find_row(rows, member.key).is_some()
}

fn are_known(rows: &[Row], members: &[Member<'_>]) -> bool
    ensures { result ≡ list_all (is_known (map row_view rows.now)) (map member_view members.now) }
{
    for member in members {
        if !is_known(rows, *member) {
            return false;
        }
    }
    true
}

fn fits(rows: &[Row], member: Member<'_>) -> bool
    ensures { result ≡ fits (map row_view rows.now) (member_view member.entry) }
{
    match find_row(rows, member.key) {
        None => false,
        Some(row) => takes(row.kind, member.value),
    }
}

fn all_fit(rows: &[Row], members: &[Member<'_>]) -> bool
    ensures { result ≡ list_all (fits (map row_view rows.now)) (map member_view members.now) }
{
    for member in members {
        if !fits(rows, *member) {
            return false;
        }
    }
    true
}

fn stands_twice(alloc: Global, members: &[Member<'_>]) -> Result<bool, NoMemory>
    ensures { IfOk result (λ twice. twice ≡ not (are_apart (keys_of (map member_view members.now)))) }
{
    let keys = keys_of(alloc, members)?;
    Ok(!are_apart(alloc, &keys)?)
}

/// The members of a line of a map with these keys, or the line's first cause.
pub fn line_members<'a>(
    alloc: Global,
    rows: &[Row],
    line: &'a [u8],
) -> Result<Result<Vec<Member<'a>>, MapCause>, NoMemory>
    ensures { IfOk result (λ members. MembersAre members (line_members (map row_view rows.now) line.entry.now)) }
{
    if !is_text(line) {
        return Ok(Err(MapCause::NotText));
    }
    let Some(members) = read_members(alloc, line)? else {
        return Ok(Err(MapCause::NoEquals));
    };
    if !are_known(rows, &members) {
        return Ok(Err(MapCause::UnknownKey));
    }
    if stands_twice(alloc, &members)? {
        return Ok(Err(MapCause::Repeated));
    }
    if !all_fit(rows, &members) {
        return Ok(Err(MapCause::BadValue));
    }
    Ok(Ok(members))
}
