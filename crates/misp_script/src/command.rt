//! The verbs of lines, and their fields.

ghost use Rattle.std.specs.Prelude.{◌≡◌, ◌<◌, length, option_map, IfOk};
ghost use Rattle.std.specs.List.{list_all};
ghost use Rattle.misp_ids.specs.Uid.{read_uid};
ghost use Rattle.misp_script.specs.Fields.{Shows, kept};
ghost use Rattle.misp_script.specs.Seen.{field_of};
ghost use Rattle.misp_script.specs.Step.{IsPlaced, verb_of, is_visible, visible_of, is_lower_digit, bytes_of, hex_bytes, org_of, key_of, body_of, rest_of, next_instance, next_visible, nothing_command, request_command, raw_command, group_command, sync_command, command_data, command_of};

use crate::directory::Directory;
use crate::field::{BadLine, Field, kept, next_field, no_field};
use crate::step::{Command, GroupLine, RawLine, RequestLine, SyncLine};
use misp_ids::{Direction, InstId, OrgId, Uid};
use std::str;

/// The verb of a line.
#[derive(Clone, Copy, Drop)]
pub(crate) enum Verb {
    Nothing,
    Request,
    Raw,
    AddGroup,
    EditGroup,
    Pull,
    Push,
}

pub(crate) fn read_verb(text: &[u8]) -> Option<Verb>
    ensures { result ≡ verb_of text.now }
{
    if text == b"none".as_slice() {
        Some(Verb::Nothing)
    } else if text == b"req".as_slice() {
        Some(Verb::Request)
    } else if text == b"raw".as_slice() {
        Some(Verb::Raw)
    } else if text == b"group-add".as_slice() {
        Some(Verb::AddGroup)
    } else if text == b"group-edit".as_slice() {
        Some(Verb::EditGroup)
    } else if text == b"pull".as_slice() {
        Some(Verb::Pull)
    } else if text == b"push".as_slice() {
        Some(Verb::Push)
    } else {
        None
    }
}

fn is_visible(byte: u8) -> bool
    ensures { result ≡ is_visible byte }
{
    matches!(byte, b'!'..=b'~')
}

fn are_visible(text: &[u8]) -> bool
    ensures { result ≡ list_all is_visible text.now }
{
    text.iter().all(|byte| is_visible(*byte))
}

fn visible(text: &[u8]) -> Option<&str>
    ensures { option_map (λ text. text.now) result ≡ visible_of text.now }
{
    if text.is_empty() || !are_visible(text) {
        return None;
    }
    match str::from_utf8(text) {
        Ok(text) => Some(text),
        Err(_) => unreachable!(),
    }
}

/// The key of a request, for which `-` stands where there is none.
fn key(text: &str) -> Option<&str>
    ensures { option_map (λ text. text.now) result ≡ key_of text.now }
{
    if text == "-" { None } else { Some(text) }
}

fn uuid(text: &[u8]) -> Option<Uid>
    ensures { result ≡ read_uid text.now }
{
    match str::from_utf8(text) {
        Ok(text) => Uid::read(text),
        Err(_) => None,
    }
}

/// The organisation of a uuid, if it is known at the instance of this place.
fn org(directory: &Directory, at: usize, text: &[u8]) -> Option<OrgId>
    ensures { result ≡ org_of directory.now at text.now }
{
    let org = OrgId(uuid(text)?);
    if directory.knows(at, &org) {
        Some(org)
    } else {
        None
    }
}

/// What follows a field, and nothing where it is the last.
fn body<'a>(before: &Field<'a>) -> &'a [u8]
    ensures { result.now ≡ body_of (field_of before.now).rest }
{
    match before.rest {
        Some(body) => body,
        None => &[],
    }
}

fn is_lower_digit(byte: u8) -> bool
    ensures { result ≡ is_lower_digit byte }
{
    matches!(byte, b'0'..=b'9' | b'a'..=b'f')
}

fn are_lower_digits(text: &[u8]) -> bool
    ensures { result ≡ list_all is_lower_digit text.now }
{
    text.iter().all(|byte| is_lower_digit(*byte))
}

/// Bytes in hexadecimal digits, of which there is an even number.
fn hex(text: &[u8]) -> Option<&[u8]>
    ensures { option_map (λ hex. bytes_of hex.now) result ≡ hex_bytes text.now }
{
    if text.len() % 2 == 0 && are_lower_digits(text) {
        Some(text)
    } else {
        None
    }
}

/// The rest of a line after a field.
fn rest<'a>(line: &[u8], before: &Field<'a>) -> Result<&'a [u8], BadLine>
    ensures { Shows (λ rest. rest.now) result (rest_of line.now (field_of before.now).rest) }
{
    match before.rest {
        Some(rest) => Ok(rest),
        None => Err(BadLine { place: line.len() }),
    }
}

/// The place of the instance that the next field names, and that field.
#[tactic(auto, unfolding(crate::specs::Step::next_instance))]
fn next_instance<'a>(
    line: &[u8],
    directory: &Directory,
    before: &Field<'a>,
) -> Result<(usize, Field<'a>), BadLine>
    ensures instance { Shows (λ named. (named.0, field_of named.1)) result
        (next_instance directory.now line.now (field_of before.now).rest) }
    ensures placed { IfOk result (λ named. named.0 < length directory.now) }
{
    let inst = next_field(line, before)?;
    let at = kept(inst.place, directory.place_of(inst.text))?;
    Ok((at, inst))
}

/// The text of the next field, and that field.
#[tactic(auto, unfolding(crate::specs::Step::next_visible))]
fn next_visible<'a>(line: &[u8], before: &Field<'a>) -> Result<(&'a str, Field<'a>), BadLine>
    ensures { Shows (λ shown. (shown.0.now, field_of shown.1)) result
        (next_visible line.now (field_of before.now).rest) }
{
    let field = next_field(line, before)?;
    let text = kept(field.place, visible(field.text))?;
    Ok((text, field))
}

fn hex_field<'a>(field: &Field<'a>) -> Result<&'a [u8], BadLine>
    ensures { Shows (λ hex. bytes_of hex.now) result
        (kept (field_of field.now).place (hex_bytes (field_of field.now).text)) }
{
    match hex(field.text) {
        Some(hex) => Ok(hex),
        None => Err(BadLine { place: field.place }),
    }
}

fn nothing<'a>(line: &[u8], before: &Field<'a>) -> Result<Command<'a>, BadLine>
    ensures command { Shows command_data result
        (nothing_command line.now (field_of before.now).rest) }
{
    no_field(line, before)?;
    Ok(Command::Nothing)
}

#[tactic(auto, unfolding(crate::specs::Step::request_of))]
fn request<'a>(
    line: &[u8],
    directory: &Directory,
    before: &Field<'a>,
) -> Result<Command<'a>, BadLine>
    ensures command { Shows command_data result
        (request_command directory.now line.now (field_of before.now).rest) }
    ensures placed { IfOk result
        (λ command. IsPlaced (length directory.now) (command_data command)) }
{
    let (at, inst) = next_instance(line, directory, before)?;
    let (key_text, key_field) = next_visible(line, &inst)?;
    let (method, method_field) = next_visible(line, &key_field)?;
    let (target, target_field) = next_visible(line, &method_field)?;
    Ok(Command::Request(RequestLine {
        at,
        key: key(key_text),
        method,
        target,
        body: body(&target_field),
    }))
}

#[tactic(auto, unfolding(crate::specs::Step::raw_of))]
fn raw<'a>(line: &[u8], directory: &Directory, before: &Field<'a>) -> Result<Command<'a>, BadLine>
    ensures command { Shows command_data result
        (raw_command directory.now line.now (field_of before.now).rest) }
    ensures placed { IfOk result
        (λ command. IsPlaced (length directory.now) (command_data command)) }
{
    let (at, inst) = next_instance(line, directory, before)?;
    let digits = next_field(line, &inst)?;
    let hex = hex_field(&digits)?;
    no_field(line, &digits)?;
    Ok(Command::Raw(RawLine { at, hex }))
}

#[tactic(auto, unfolding(crate::specs::Step::group_of))]
fn group<'a>(
    line: &[u8],
    directory: &Directory,
    add: bool,
    before: &Field<'a>,
) -> Result<Command<'a>, BadLine>
    ensures command { Shows command_data result
        (group_command directory.now line.now add (field_of before.now).rest) }
    ensures placed { IfOk result
        (λ command. IsPlaced (length directory.now) (command_data command)) }
{
    let (at, inst) = next_instance(line, directory, before)?;
    let org_field = next_field(line, &inst)?;
    let org = kept(org_field.place, org(directory, at, org_field.text))?;
    let body = rest(line, &org_field)?;
    Ok(Command::Group(GroupLine { at, org, add, body }))
}

#[tactic(auto, unfolding(crate::specs::Step::sync_of))]
fn sync<'a>(
    line: &[u8],
    directory: &Directory,
    direction: Direction,
    before: &Field<'a>,
) -> Result<Command<'a>, BadLine>
    ensures command { Shows command_data result
        (sync_command directory.now line.now direction (field_of before.now).rest) }
    ensures placed { IfOk result
        (λ command. IsPlaced (length directory.now) (command_data command)) }
{
    let (at, inst) = next_instance(line, directory, before)?;
    let link_field = next_field(line, &inst)?;
    let link = kept(link_field.place, InstId::from_bytes(link_field.text))?;
    no_field(line, &link_field)?;
    Ok(Command::Sync(SyncLine {
        at,
        direction,
        link,
    }))
}

/// The command of a verb, whose fields are after it.
pub(crate) fn command<'a>(
    line: &[u8],
    directory: &Directory,
    verb: Verb,
    before: &Field<'a>,
) -> Result<Command<'a>, BadLine>
    ensures command { Shows command_data result
        (command_of directory.now line.now verb (field_of before.now).rest) }
    ensures placed { IfOk result
        (λ command. IsPlaced (length directory.now) (command_data command)) }
{
    match verb {
        Verb::Nothing => nothing(line, before),
        Verb::Request => request(line, directory, before),
        Verb::Raw => raw(line, directory, before),
        Verb::AddGroup => group(line, directory, true, before),
        Verb::EditGroup => group(line, directory, false, before),
        Verb::Pull => sync(line, directory, Direction::Pull, before),
        Verb::Push => sync(line, directory, Direction::Push, before),
    }
}
