//! The values of keys.

ghost use Rattle.std.specs.Prelude.{◌≡◌, IfOk, IfSome, Some, None, map, find, option_map, true, nat_lt, ◌^◌, ◌||◌, is_some, if◌then◌else◌};
ghost use Rattle.std.specs.List.{list_all, list_any};
ghost use Rattle.std.specs.Str.{bytes_eq};
ghost use Rattle.std.specs.Str.Parse.{digits_value};
ghost use Rattle.config_keys.specs.Lines.{is_among, members_of};
ghost use Rattle.config_keys.specs.Views.{label_view};
ghost use Rattle.config_keys.specs.Table.{fits, left_out_words, taken_words};
ghost use Rattle.config_keys.specs.Values.{are_apart, asked_by, asked_with, begins_with_zero, bad_unless, cause_in, column_named, few_and_apart, has_left_out, identifier_of, is_digit, is_file_name, is_identifier, is_left_out, is_left_out_member, is_numeral, left_out_kinds, member_of, named, names_of, nothing_asked, number_within, plugins_in, plugins_of, primitives, value_cause, with_member};
ghost use Rattle.config_keys.specs.ValueViews.{PluginsAre, asked_view, member_view, named_view, primitive_view};

use crate::fault::ConfigCause;
use crate::line::{Label, read_label, read_members};
use crate::seen::are_apart;
use crate::table::{Choice, Kind, Range};
use acct_types::{Addr, Column, NoMemory, Primitives, read_address};
use std::alloc::Global;

/// What a plugin does with its rows: it appends them to a file in windows, or writes them at the end.
#[derive(Clone, Copy, Debug, PartialEq, Eq)]
pub enum PluginKind {
    Print,
    Memory,
}

/// A plugin of a kind with its name.
#[derive(Clone, Copy)]
pub struct NamedPlugin<'a> {
    pub kind: PluginKind,
    pub name: &'a [u8],
}

/// What a member of a list of plugins is.
#[derive(Clone, Copy)]
enum Member<'a> {
    LeftOut,
    Malformed,
    Taken(NamedPlugin<'a>),
}

#[derive(Clone, Copy)]
struct Primitive {
    name: &'static [u8],
    column: Column,
}

static LEFT_OUT_KINDS: [&'static [u8]; 8] = [
    b"sqlite3", b"mysql", b"pgsql", b"kafka", b"amqp", b"tee", b"nfprobe", b"sfprobe",
];

static PRIMITIVES: [Primitive; 28] = [
    Primitive {
        name: b"tag",
        column: Column::Tag,
    },
    Primitive {
        name: b"tag2",
        column: Column::Tag2,
    },
    Primitive {
        name: b"label",
        column: Column::Label,
    },
    Primitive {
        name: b"acct_window",
        column: Column::AcctWindow,
    },
    Primitive {
        name: b"src_mac",
        column: Column::SrcMac,
    },
    Primitive {
        name: b"dst_mac",
        column: Column::DstMac,
    },
    Primitive {
        name: b"vlan",
        column: Column::Vlan,
    },
    Primitive {
        name: b"src_as",
        column: Column::SrcAs,
    },
    Primitive {
        name: b"dst_as",
        column: Column::DstAs,
    },
    Primitive {
        name: b"std_comm",
        column: Column::StdComm,
    },
    Primitive {
        name: b"as_path",
        column: Column::AsPath,
    },
    Primitive {
        name: b"local_pref",
        column: Column::LocalPref,
    },
    Primitive {
        name: b"med",
        column: Column::Med,
    },
    Primitive {
        name: b"peer_dst_as",
        column: Column::PeerDstAs,
    },
    Primitive {
        name: b"peer_src_ip",
        column: Column::PeerSrcIp,
    },
    Primitive {
        name: b"peer_dst_ip",
        column: Column::PeerDstIp,
    },
    Primitive {
        name: b"in_iface",
        column: Column::InIface,
    },
    Primitive {
        name: b"out_iface",
        column: Column::OutIface,
    },
    Primitive {
        name: b"src_host",
        column: Column::SrcHost,
    },
    Primitive {
        name: b"dst_host",
        column: Column::DstHost,
    },
    Primitive {
        name: b"src_net",
        column: Column::SrcNet,
    },
    Primitive {
        name: b"dst_net",
        column: Column::DstNet,
    },
    Primitive {
        name: b"src_mask",
        column: Column::SrcMask,
    },
    Primitive {
        name: b"dst_mask",
        column: Column::DstMask,
    },
    Primitive {
        name: b"src_port",
        column: Column::SrcPort,
    },
    Primitive {
        name: b"dst_port",
        column: Column::DstPort,
    },
    Primitive {
        name: b"proto",
        column: Column::Proto,
    },
    Primitive {
        name: b"tos",
        column: Column::Tos,
    },
];

/// Whether it is that word.
pub fn is_word(text: &[u8], word: &[u8]) -> bool
    ensures { result ≡ bytes_eq text.now word.now }
{
    text == word
}

/// Whether the text is one of these.
pub fn is_among(texts: &[&[u8]], text: &[u8]) -> bool
    ensures { result ≡ is_among (map (λ t. t.now) texts.now) text.now }
{
    for other in texts {
        if is_word(other, text) {
            return true;
        }
    }
    false
}

fn is_digit(octet: u8) -> bool
    ensures { result ≡ is_digit octet }
{
    octet >= b'0' && octet <= b'9'
}

fn are_digits(text: &[u8]) -> bool
    ensures { result ≡ list_all is_digit text.now }
{
    text.iter().all(|octet| is_digit(*octet))
}

fn begins_with_zero(text: &[u8]) -> bool
    ensures { result ≡ begins_with_zero text.now }
{
    match text {
        [] => false,
        [first, ..] => *first == b'0',
    }
}

fn is_numeral(text: &[u8]) -> bool
    ensures { result ≡ is_numeral text.now }
{
    !text.is_empty() && are_digits(text) && (text.len() == 1 || !begins_with_zero(text))
}

fn is_within(range: Range, number: u64) -> bool
    ensures { result ≡ fits range number }
{
    (range.least <= number && number <= range.most) || (range.zero && number == 0)
}

/// The number in a text, where it is in the range.
pub fn read_number(range: Range, text: &[u8]) -> Option<u64>
    ensures value { result ≡ number_within range text.now }
    ensures within { IfSome result (λ n. fits range n ≡ true) }
{
    if !is_numeral(text) {
        return None;
    }
    let number = numeral_value(text)?;
    if is_within(range, number) {
        Some(number)
    } else {
        None
    }
}

// None where it is 2^64 or more.
fn numeral_value(text: &[u8]) -> Option<u64>
    requires { is_numeral text.now ≡ true }
    ensures { result ≡ (if nat_lt (digits_value 10 text.now) (2 ^ 64) then Some (digits_value 10 text.now) else None) }
{
    let Ok(text) = str::from_utf8(text) else {
        return None;
    };
    match text.parse::<u64>() {
        Ok(number) => Some(number),
        Err(_) => None,
    }
}

/// Whether it has 1 to 255 characters.
pub fn is_file_name(text: &[u8]) -> bool
    ensures { result ≡ is_file_name text.now }
{
    !text.is_empty() && text.len() <= 255
}

/// The IPv4 address in a text, where it isn't 0.0.0.0.
pub fn read_identifier(text: &[u8]) -> Option<Addr>
    ensures value { result ≡ identifier_of text.now }
    ensures good { IfSome result (λ address. is_identifier address ≡ true) }
{
    match read_address(text) {
        Some(Addr::V4(number)) if number != 0 => Some(Addr::V4(number)),
        _ => None,
    }
}

fn left_out_kinds() -> &'static [&'static [u8]]
    ensures { map (λ t. t.now) result.now ≡ left_out_kinds }
{
    &LEFT_OUT_KINDS
}

fn named<'a>(kind: PluginKind, label: Label<'a>) -> Member<'a>
    ensures { member_view result ≡ named kind (label_view label.entry) }
{
    Member::Taken(NamedPlugin {
        kind,
        name: match label.name {
            Some(name) => name,
            None => label.word,
        },
    })
}

fn read_member(text: &[u8]) -> Member<'_>
    ensures { member_view result ≡ member_of text.now }
{
    let Some(label) = read_label(text) else {
        return Member::Malformed;
    };
    if is_word(label.word, b"print") {
        named(PluginKind::Print, label)
    } else if is_word(label.word, b"memory") {
        named(PluginKind::Memory, label)
    } else if is_among(left_out_kinds(), label.word) {
        Member::LeftOut
    } else {
        Member::Malformed
    }
}

fn has_left_out(members: &[&[u8]]) -> bool
    ensures { result ≡ has_left_out (map (λ m. m.now) members.now) }
{
    for member in members {
        if let Member::LeftOut = read_member(member) {
            return true;
        }
    }
    false
}

fn plugins_in<'a>(
    alloc: Global,
    members: &[&'a [u8]],
) -> Result<Option<Vec<NamedPlugin<'a>>>, NoMemory>
    ensures { IfOk result (λ plugins. option_map (λ v. map named_view v.items) plugins ≡ plugins_in (map (λ m. m.now) members.now)) }
{
    let mut plugins = Vec::new(alloc);
    for member in members {
        match read_member(member) {
            Member::Taken(plugin) => plugins.push(plugin)?,
            _ => return Ok(None),
        }
    }
    Ok(Some(plugins))
}

fn names_of<'a>(alloc: Global, plugins: &[NamedPlugin<'a>]) -> Result<Vec<&'a [u8]>, NoMemory>
    ensures { IfOk result (λ names. map (λ n. n.now) names.items ≡ names_of (map named_view plugins.now)) }
{
    let mut names = Vec::new(alloc);
    for plugin in plugins {
        names.push(plugin.name)?;
    }
    Ok(names)
}

/// The plugins of a list, or what is wrong with it.
pub fn read_plugins(
    alloc: Global,
    value: &[u8],
) -> Result<Result<Vec<NamedPlugin<'_>>, ConfigCause>, NoMemory>
    ensures { IfOk result (λ read. PluginsAre read (plugins_of value.now)) }
{
    let members = read_members(alloc, value)?;
    if has_left_out(&members) {
        return Ok(Err(ConfigCause::NotInProfile));
    }
    let Some(plugins) = plugins_in(alloc, &members)? else {
        return Ok(Err(ConfigCause::BadValue));
    };
    let names = names_of(alloc, &plugins)?;
    if !are_apart(alloc, &names)? {
        return Ok(Err(ConfigCause::BadValue));
    }
    if plugins.len() > 8 {
        return Ok(Err(ConfigCause::TooManyPlugins));
    }
    Ok(Ok(plugins))
}

fn primitives() -> &'static [Primitive]
    ensures { map primitive_view result.now ≡ primitives }
{
    &PRIMITIVES
}

fn column_named(name: &[u8]) -> Option<Column>
    ensures { result ≡ column_named name.now }
{
    for primitive in primitives() {
        if is_word(primitive.name, name) {
            return Some(primitive.column);
        }
    }
    None
}

fn with_member(asked: Primitives, member: &[u8]) -> Option<Primitives>
    ensures { option_map asked_view result ≡ with_member (asked_view asked) member.now }
{
    if is_word(member, b"flows") {
        return Some(asked.with_flows());
    }
    Some(asked.with(column_named(member)?))
}

fn asked_with(members: &[&[u8]]) -> Option<Primitives>
    ensures { option_map asked_view result ≡ asked_with nothing_asked (map (λ m. m.now) members.now) }
{
    let mut asked = Primitives::none();
    for member in members {
        asked = with_member(asked, member)?;
    }
    Some(asked)
}

/// What the members of a list ask for, where each is a primitive.
pub fn read_primitives(alloc: Global, value: &[u8]) -> Result<Option<Primitives>, NoMemory>
    ensures { IfOk result (λ asked. option_map asked_view asked ≡ asked_by value.now) }
{
    let members = read_members(alloc, value)?;
    Ok(asked_with(&members))
}

fn is_taken_word(choice: Choice, value: &[u8]) -> bool
    ensures { result ≡ is_among (taken_words choice) value.now }
{
    match choice {
        Choice::Truth => is_either(b"true", b"false", value),
        Choice::Append => is_word(b"true", value),
        Choice::Layout => is_word(b"formatted", value) || is_either(b"csv", b"json", value),
        Choice::NetflowAs => is_word(b"netflow", value) || is_either(b"bgp", b"bmp", value),
        Choice::SflowAs => is_word(b"sflow", value) || is_either(b"bgp", b"bmp", value),
    }
}

fn is_left_out_word(choice: Choice, value: &[u8]) -> bool
    ensures { result ≡ is_among (left_out_words choice) value.now }
{
    match choice {
        Choice::Truth => false,
        Choice::Append => is_word(b"false", value),
        Choice::Layout => is_word(b"avro", value),
        Choice::NetflowAs => is_either(b"longest", b"file", value),
        Choice::SflowAs => is_either(b"longest", b"file", value),
    }
}

fn is_either(one: &[u8], other: &[u8], value: &[u8]) -> bool
    ensures { result ≡ (bytes_eq one.now value.now || bytes_eq other.now value.now) }
{
    is_word(one, value) || is_word(other, value)
}

/// Whether the value is known and not taken.
pub fn is_left_out(alloc: Global, kind: Kind, value: &[u8]) -> Result<bool, NoMemory>
    ensures { IfOk result (λ left_out. left_out ≡ is_left_out kind value.now) }
{
    match kind {
        Kind::Plugins => {
            let members = read_members(alloc, value)?;
            Ok(has_left_out(&members))
        }
        Kind::Choice(choice) => Ok(is_left_out_word(choice, value)),
        _ => Ok(false),
    }
}

fn bad_unless(good: bool) -> Option<ConfigCause>
    ensures { result ≡ bad_unless good }
{
    if good {
        None
    } else {
        Some(ConfigCause::BadValue)
    }
}

fn plugins_cause(alloc: Global, value: &[u8]) -> Result<Option<ConfigCause>, NoMemory>
    ensures { IfOk result (λ cause. cause ≡ cause_in (plugins_of value.now)) }
{
    match read_plugins(alloc, value)? {
        Ok(_) => Ok(None),
        Err(cause) => Ok(Some(cause)),
    }
}

fn primitives_cause(alloc: Global, value: &[u8]) -> Result<Option<ConfigCause>, NoMemory>
    ensures { IfOk result (λ cause. cause ≡ (if is_some (asked_by value.now) then None else Some ConfigCause.UnknownPrimitive)) }
{
    match read_primitives(alloc, value)? {
        Some(_) => Ok(None),
        None => Ok(Some(ConfigCause::UnknownPrimitive)),
    }
}

/// What is wrong with a value of that kind.
pub fn value_cause(alloc: Global, kind: Kind, value: &[u8]) -> Result<Option<ConfigCause>, NoMemory>
    ensures { IfOk result (λ cause. cause ≡ value_cause kind value.now) }
{
    match kind {
        Kind::Plugins => plugins_cause(alloc, value),
        Kind::Primitives => primitives_cause(alloc, value),
        Kind::Choice(choice) => Ok(bad_unless(is_taken_word(choice, value))),
        Kind::FileName => Ok(bad_unless(is_file_name(value))),
        Kind::Number(range) => Ok(bad_unless(read_number(range, value).is_some())),
        Kind::Identifier => Ok(bad_unless(read_identifier(value).is_some())),
        Kind::Anything => Ok(None),
    }
}
