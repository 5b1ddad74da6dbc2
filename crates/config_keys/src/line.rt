//! The lines of a configuration, and what stands on a line.

ghost use Rattle.std.specs.Prelude.{◌≡◌, ◌==◌, ◌≤◌, ◌+◌, IfOk, length, map, option_map, position};
ghost use Rattle.std.specs.List.{list_all, slice_split};
ghost use Rattle.config_keys.specs.Lines.{after_blanks, before_blanks, is_blank, is_name, is_name_octet, is_passed_over, is_text, is_text_octet, label_of, labelled, lines_in, lines_of, members_of, name_before_bracket, statement_of, trimmed, without_return};
ghost use Rattle.config_keys.specs.Views.{label_view, line_view};

use acct_types::NoMemory;
use std::alloc::Global;

/// A word, and the name behind it in brackets.
#[derive(Clone, Copy)]
pub struct Label<'a> {
    pub word: &'a [u8],
    pub name: Option<&'a [u8]>,
}

/// A key with its name, as they stand and in their parts, and its value.
#[derive(Clone, Copy)]
pub struct Entry<'a> {
    pub left: &'a [u8],
    pub key: &'a [u8],
    pub name: Option<&'a [u8]>,
    pub value: &'a [u8],
}

/// What a line says.
#[derive(Clone, Copy)]
pub enum Line<'a> {
    Nothing,
    NoColon,
    NoLabel,
    Says(Entry<'a>),
}

fn is_blank(octet: u8) -> bool
    ensures { result ≡ is_blank octet }
{
    octet == b' ' || octet == b'\t'
}

fn after_blanks(text: &[u8]) -> &[u8]
    ensures { result.now ≡ after_blanks text.now }
{
    let mut rest = text;
    while let Some((first, more)) = rest.split_first() {
        if !is_blank(*first) {
            return rest;
        }
        rest = more;
    }
    rest
}

#[tactic(auto, using(crate::proofs::LineLemmas::without_blank, crate::proofs::LineLemmas::without_no_blank))]
fn before_blanks(text: &[u8]) -> &[u8]
    ensures { result.now ≡ before_blanks text.now }
{
    let mut rest = text;
    while let Some((last, front)) = rest.split_last() {
        if !is_blank(*last) {
            return rest;
        }
        rest = front;
    }
    rest
}

/// A text without the spaces and tabs at its ends.
pub fn trimmed(text: &[u8]) -> &[u8]
    ensures { result.now ≡ trimmed text.now }
{
    before_blanks(after_blanks(text))
}

/// Whether a line is empty or a comment: of spaces and tabs alone, or with `!` or `#` as its first other character.
pub fn is_passed_over(line: &[u8]) -> bool
    ensures { result ≡ is_passed_over line.now }
{
    match after_blanks(line) {
        [] => true,
        [first, ..] => *first == b'!' || *first == b'#',
    }
}

fn is_text_octet(octet: u8) -> bool
    ensures { result ≡ is_text_octet octet }
{
    octet <= 126 && (octet >= 32 || octet == b'\t')
}

/// Whether no octet is above 126, and none below 32 but a tab.
pub fn is_text(line: &[u8]) -> bool
    ensures { result ≡ is_text line.now }
{
    line.iter().all(|octet| is_text_octet(*octet))
}

fn is_name_octet(octet: u8) -> bool
    ensures { result ≡ is_name_octet octet }
{
    (octet >= b'a' && octet <= b'z')
        || (octet >= b'A' && octet <= b'Z')
        || (octet >= b'0' && octet <= b'9')
        || octet == b'_'
        || octet == b'-'
}

fn are_name_octets(text: &[u8]) -> bool
    ensures { result ≡ list_all is_name_octet text.now }
{
    text.iter().all(|octet| is_name_octet(*octet))
}

/// Whether it is a name of 1 to 32 letters, digits, `_` or `-`.
pub fn is_name(text: &[u8]) -> bool
    ensures { result ≡ is_name text.now }
{
    !text.is_empty() && text.len() <= 32 && are_name_octets(text)
}

fn place_of(text: &[u8], octet: u8) -> Option<usize>
    ensures { result ≡ position (λ other. other == octet) text.now }
{
    text.iter().position(|other| *other == octet)
}

fn name_before_bracket(text: &[u8]) -> Option<&[u8]>
    ensures { option_map (λ name. name.now) result ≡ name_before_bracket text.now }
{
    let place = place_of(text, b']')?;
    if place + 1 == text.len() && is_name(&text[..place]) {
        Some(&text[..place])
    } else {
        None
    }
}

/// A word alone, or a word with a name in brackets; None where the name is malformed.
pub fn read_label(text: &[u8]) -> Option<Label<'_>>
    ensures { option_map label_view result ≡ label_of text.now }
{
    match place_of(text, b'[') {
        None => Some(Label {
            word: text,
            name: None,
        }),
        Some(place) => {
            let name = name_before_bracket(&text[place + 1..])?;
            Some(Label {
                word: &text[..place],
                name: Some(name),
            })
        }
    }
}

fn labelled<'a>(left: &'a [u8], value: &'a [u8]) -> Line<'a>
    ensures { line_view result ≡ labelled left.entry.now value.entry.now (label_of left.entry.now) }
{
    match read_label(left) {
        None => Line::NoLabel,
        Some(label) => Line::Says(Entry {
            left,
            key: label.word,
            name: label.name,
            value,
        }),
    }
}

/// What a line says.
pub fn read_line(line: &[u8]) -> Line<'_>
    ensures { line_view result ≡ statement_of line.now }
{
    if is_passed_over(line) {
        return Line::Nothing;
    }
    match place_of(line, b':') {
        None => Line::NoColon,
        Some(place) => labelled(trimmed(&line[..place]), trimmed(&line[place + 1..])),
    }
}

fn pieces_of(alloc: Global, text: &[u8], end: u8) -> Result<Vec<&[u8]>, NoMemory>
    ensures { IfOk result (λ pieces. map (λ p. p.now) pieces.items ≡ slice_split (λ octet. octet == end) text.now) }
{
    Ok(text.split(|octet| *octet == end).collect(alloc)?)
}

fn trimmed_pieces<'a>(alloc: Global, pieces: &[&'a [u8]]) -> Result<Vec<&'a [u8]>, NoMemory>
    ensures { IfOk result (λ members. map (λ m. m.now) members.items ≡ map trimmed (map (λ p. p.now) pieces.now)) }
{
    let mut members = Vec::new(alloc);
    for piece in pieces {
        members.push(trimmed(piece))?;
    }
    Ok(members)
}

/// The members of a list, between commas.
pub fn read_members(alloc: Global, value: &[u8]) -> Result<Vec<&[u8]>, NoMemory>
    ensures { IfOk result (λ members. map (λ m. m.now) members.items ≡ members_of value.now) }
{
    let pieces = pieces_of(alloc, value, b',')?;
    trimmed_pieces(alloc, &pieces)
}

#[tactic(auto, using(crate::proofs::LineLemmas::without_its_return, crate::proofs::LineLemmas::without_no_return))]
fn without_return(piece: &[u8]) -> &[u8]
    ensures { result.now ≡ without_return piece.now }
{
    let Some((last, front)) = piece.split_last() else {
        return piece;
    };
    if *last == b'\r' { front } else { piece }
}

#[tactic(auto, using(crate::proofs::LineLemmas::last_line, crate::proofs::LineLemmas::line_before))]
// The lines of which these are the pieces between line feeds.
fn lines_in<'a>(alloc: Global, pieces: &[&'a [u8]]) -> Result<Vec<&'a [u8]>, NoMemory>
    ensures { IfOk result (λ lines. map (λ l. l.now) lines.items ≡ lines_in (map (λ p. p.now) pieces.now)) }
{
    let mut lines = Vec::new(alloc);
    for (index, piece) in pieces.iter().enumerate() {
        if index + 1 < pieces.len() {
            lines.push(without_return(piece))?;
        } else if !piece.is_empty() {
            lines.push(*piece)?;
        }
    }
    Ok(lines)
}

/// The lines of a text, which end with a line feed, before which a carriage return is dropped. The last may lack it.
#[tactic(auto, using(crate::proofs::LineLemmas::few_read))]
pub fn read_lines(alloc: Global, text: &[u8]) -> Result<Vec<&[u8]>, NoMemory>
    ensures lines { IfOk result (λ lines. map (λ l. l.now) lines.items ≡ lines_of text.now) }
    ensures few { IfOk result (λ lines. length lines.items ≤ length text.now + 1) }
{
    let pieces = pieces_of(alloc, text, b'\n')?;
    lines_in(alloc, &pieces)
}
