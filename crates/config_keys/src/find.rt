//! The values that keys have.

ghost use Rattle.std.specs.Prelude.{◌≡◌, ◌<◌, ◌≤◌, ◌^◌, true, IfOk, Some, None, map, option_map, unwrap_or};
ghost use Rattle.acct_types.specs.declared.addr.Addr.TheVariants.{V4};
ghost use Rattle.config_keys.specs.Lines.{is_among};
ghost use Rattle.config_keys.specs.Reading.{as_from_in, asked_in, by_source_host, identifier_or, layout_in, number_or, same_name, truth_or, value_for, value_in, value_of};
ghost use Rattle.config_keys.specs.Table.{fits};
ghost use Rattle.config_keys.specs.ValueViews.{asked_view};
ghost use Rattle.config_keys.specs.Values.{is_identifier};
ghost use Rattle.config_keys.specs.Views.{setting_of};

use crate::line::Entry;
use crate::table::Range;
use crate::value::{is_word, read_identifier, read_number, read_primitives};
use acct_types::{Addr, AsFrom, Column, Layout, List, NoMemory, Primitives, Text};
use std::alloc::Global;

fn same_name(one: Option<&[u8]>, other: Option<&[u8]>) -> bool
    ensures { result ≡ same_name (option_map (λ n. n.now) one.entry) (option_map (λ n. n.now) other.entry) }
{
    match (one, other) {
        (None, None) => true,
        (Some(one), Some(other)) => is_word(one, other),
        _ => false,
    }
}

/// The value of a key with a name, or without one.
pub fn value_in<'a>(entries: &[Entry<'a>], key: &[u8], name: Option<&[u8]>) -> Option<&'a [u8]>
    ensures { option_map (λ v. v.now) result ≡ value_in (map setting_of entries.now) key.now (option_map (λ n. n.now) name.entry) }
{
    for entry in entries {
        if is_word(entry.key, key) && same_name(entry.name, name) {
            return Some(entry.value);
        }
    }
    None
}

/// The value of a key of the whole program.
pub fn value_of<'a>(entries: &[Entry<'a>], key: &[u8]) -> Option<&'a [u8]>
    ensures { option_map (λ v. v.now) result ≡ value_of (map setting_of entries.now) key.now }
{
    value_in(entries, key, None)
}

/// The value of a key for a plugin: with its name, or else without a name.
pub fn value_for<'a>(entries: &[Entry<'a>], key: &[u8], plugin: &[u8]) -> Option<&'a [u8]>
    ensures { option_map (λ v. v.now) result ≡ value_for (map setting_of entries.now) key.now plugin.now }
{
    match value_in(entries, key, Some(plugin)) {
        Some(value) => Some(value),
        None => value_in(entries, key, None),
    }
}

/// The number in a value, or the default where there is none.
pub fn number_or(range: Range, value: Option<&[u8]>, default: u64) -> u64
    requires { fits range default ≡ true }
    ensures value { result ≡ number_or range (option_map (λ v. v.now) value.entry) default }
    ensures within { fits range result ≡ true }
{
    let Some(value) = value else {
        return default;
    };
    match read_number(range, value) {
        Some(number) => number,
        None => default,
    }
}

/// The same of a range that has 32 bits.
#[tactic(auto, using(crate::proofs::NumberLemmas::at_most))]
pub fn short_number_or(range: Range, value: Option<&[u8]>, default: u32) -> u32
    requires short { range.most < 2 ^ 32 }
    requires default { fits range default ≡ true }
    ensures value { result ≡ number_or range (option_map (λ v. v.now) value.entry) default }
    ensures within { fits range result ≡ true }
{
    number_or(range, value, u64::from(default)) as u32
}

pub fn truth_or(value: Option<&[u8]>, default: bool) -> bool
    ensures { result ≡ truth_or (option_map (λ v. v.now) value.entry) default }
{
    match value {
        None => default,
        Some(value) => is_word(value, b"true"),
    }
}

pub fn layout_in(value: Option<&[u8]>) -> Layout
    ensures { result ≡ layout_in (option_map (λ v. v.now) value.entry) }
{
    match value {
        None => Layout::Formatted,
        Some(value) => {
            if is_word(value, b"csv") {
                Layout::Csv
            } else if is_word(value, b"json") {
                Layout::Json
            } else {
                Layout::Formatted
            }
        }
    }
}

/// The source of routing parts that a key of the whole program gives.
pub fn as_from_of(entries: &[Entry<'_>], key: &[u8]) -> AsFrom
    ensures { result ≡ as_from_in (value_of (map setting_of entries.now) key.now) }
{
    match value_of(entries, key) {
        None => AsFrom::Export,
        Some(value) => {
            if is_word(value, b"bgp") {
                AsFrom::Bgp
            } else if is_word(value, b"bmp") {
                AsFrom::Bmp
            } else {
                AsFrom::Export
            }
        }
    }
}

fn by_source_host() -> Primitives
    ensures { asked_view result ≡ by_source_host }
{
    Primitives::none().with(Column::SrcHost)
}

/// What a value asks for, or the source host alone.
pub fn asked_in(alloc: Global, value: Option<&[u8]>) -> Result<Primitives, NoMemory>
    ensures { IfOk result (λ asked. asked_view asked ≡ asked_in (option_map (λ v. v.now) value.entry)) }
{
    let Some(value) = value else {
        return Ok(by_source_host());
    };
    match read_primitives(alloc, value)? {
        Some(asked) => Ok(asked),
        None => Ok(by_source_host()),
    }
}

/// The number of a key of the whole program.
pub fn number_of(entries: &[Entry<'_>], key: &[u8], range: Range, default: u64) -> u64
    requires { fits range default ≡ true }
    ensures value { result ≡ number_or range (value_of (map setting_of entries.now) key.now) default }
    ensures within { fits range result ≡ true }
{
    number_or(range, value_of(entries, key), default)
}

/// The truth value of a key of the whole program.
pub fn truth_of(entries: &[Entry<'_>], key: &[u8], default: bool) -> bool
    ensures { result ≡ truth_or (value_of (map setting_of entries.now) key.now) default }
{
    truth_or(value_of(entries, key), default)
}

/// The IPv4 address of a key of the whole program, or 127.0.0.1.
pub fn identifier_of(entries: &[Entry<'_>], key: &[u8]) -> Addr
    ensures value { result ≡ identifier_or (value_of (map setting_of entries.now) key.now) (V4 2130706433) }
    ensures good { is_identifier result ≡ true }
{
    let Some(value) = value_of(entries, key) else {
        return Addr::V4(0x7f00_0001);
    };
    match read_identifier(value) {
        Some(address) => address,
        None => Addr::V4(0x7f00_0001),
    }
}

/// The name that a key of the whole program gives.
pub fn name_of(alloc: Global, entries: &[Entry<'_>], key: &[u8]) -> Result<Option<Text>, NoMemory>
    ensures { IfOk result (λ name. name ≡ value_of (map setting_of entries.now) key.now) }
{
    match value_of(entries, key) {
        None => Ok(None),
        Some(value) => Ok(Some(List::from_slice(alloc, value)?)),
    }
}

/// The same, or a default.
pub fn name_or(
    alloc: Global,
    entries: &[Entry<'_>],
    key: &[u8],
    default: &[u8],
) -> Result<Text, NoMemory>
    ensures { IfOk result (λ name. name ≡ unwrap_or (value_of (map setting_of entries.now) key.now) default.now) }
{
    match value_of(entries, key) {
        None => List::from_slice(alloc, default),
        Some(value) => List::from_slice(alloc, value),
    }
}
