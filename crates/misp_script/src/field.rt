//! The fields of a line.

ghost use Rattle.std.specs.Prelude.{◌≡◌, option_map, position};
ghost use Rattle.misp_script.specs.Fields.{Shows, is_space, up_to_space, after_space, field_in, next_field, kept, no_field};
ghost use Rattle.misp_script.specs.Seen.{field_of};

/// A line that is not of its form: the first byte of the first field that is missing or not so.
#[derive(Clone, Copy, PartialEq, Eq)]
pub struct BadLine {
    pub place: usize,
}

/// A field, and what follows the space after it, if there is one.
#[derive(Clone, Copy, Drop)]
pub(crate) struct Field<'a> {
    pub(crate) place: usize,
    pub(crate) text: &'a [u8],
    pub(crate) rest: Option<&'a [u8]>,
}

fn space_in(text: &[u8]) -> Option<usize>
    ensures { result ≡ position is_space text.now }
{
    text.iter().position(|byte| *byte == b' ')
}

fn up_to_space(text: &[u8]) -> &[u8]
    ensures { result.now ≡ up_to_space text.now }
{
    match space_in(text) {
        Some(at) => &text[..at],
        None => text,
    }
}

fn after_space(text: &[u8]) -> Option<&[u8]>
    ensures { option_map (λ rest. rest.now) result ≡ after_space text.now }
{
    match space_in(text) {
        Some(at) => Some(&text[at + 1..]),
        None => None,
    }
}

/// The first field of what is left of a line.
pub(crate) fn field_in<'a>(line: &[u8], left: &'a [u8]) -> Field<'a>
    ensures { field_of result ≡ field_in line.now left.now }
{
    Field {
        place: line.len().saturating_sub(left.len()),
        text: up_to_space(left),
        rest: after_space(left),
    }
}

/// The field after another of the line.
pub(crate) fn next_field<'a>(line: &[u8], before: &Field<'a>) -> Result<Field<'a>, BadLine>
    ensures { Shows field_of result (next_field line.now (field_of before.now).rest) }
{
    match before.rest {
        None => Err(BadLine { place: line.len() }),
        Some(left) => Ok(field_in(line, left)),
    }
}

/// What was read of a field, or its fault.
pub(crate) fn kept<T: Drop>(place: usize, read: Option<T>) -> Result<T, BadLine>
    ensures { result ≡ kept place read }
{
    match read {
        Some(value) => Ok(value),
        None => Err(BadLine { place }),
    }
}

/// No field is after another of the line.
pub(crate) fn no_field(line: &[u8], before: &Field<'_>) -> Result<(), BadLine>
    ensures { result ≡ no_field line.now (field_of before.now).rest }
{
    match before.rest {
        None => Ok(()),
        Some(left) => Err(BadLine {
            place: line.len().saturating_sub(left.len()),
        }),
    }
}
