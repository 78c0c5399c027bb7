//! Identifiers at the end of a path.

ghost use Rattle.std.specs.Prelude.{◌≡◌, position};
ghost use Rattle.misp_api.specs.Path.{behind_one, behind_slash, ending, ids_in, ids_of, two, three};
ghost use Rattle.misp_api.specs.Pattern.{is_slash};

use misp_ids::Uid;

/// The identifiers at the end of a path, in their order.
#[derive(Clone, Copy)]
pub enum PathIds {
    Nobody,
    One(Uid),
    Two(Uid, Uid),
    Three(Uid, Uid, Uid),
}

fn two(a: Option<Uid>, b: Option<Uid>) -> Option<PathIds>
    ensures { result ≡ two a b }
{
    match (a, b) {
        (Some(a), Some(b)) => Some(PathIds::Two(a, b)),
        _ => None,
    }
}

fn three(a: Option<Uid>, b: Option<Uid>, c: Option<Uid>) -> Option<PathIds>
    ensures { result ≡ three a b c }
{
    match (a, b, c) {
        (Some(a), Some(b), Some(c)) => Some(PathIds::Three(a, b, c)),
        _ => None,
    }
}

// One more in what stands behind a first slash, or two with the next slash between them.
fn behind_one(a: Option<Uid>, text: &str) -> Option<PathIds>
    ensures { result ≡ behind_one a text.now (position is_slash text.now) }
{
    match text.split_once('/') {
        Some((b, c)) => three(a, Uid::read(b), Uid::read(c)),
        None => two(a, Uid::read(text)),
    }
}

// The identifiers in a text with a slash between two. They are at most three.
fn ids_in(text: &str) -> Option<PathIds>
    ensures { result ≡ ids_in text.now }
{
    if text.is_empty() {
        return Some(PathIds::Nobody);
    }
    match text.split_once('/') {
        Some((first, rest)) => behind_one(Uid::read(first), rest),
        None => match Uid::read(text) {
            Some(only) => Some(PathIds::One(only)),
            None => None,
        },
    }
}

fn behind_slash(text: &str) -> &str
    ensures { result.now ≡ behind_slash text.now }
{
    match text.split_once('/') {
        Some((_, rest)) => rest,
        None => "",
    }
}

/// What stands behind the third slash of a path.
pub(crate) fn ending(path: &str) -> &str
    ensures { result.now ≡ ending path.now }
{
    behind_slash(behind_slash(behind_slash(path)))
}

/// The identifiers of a path, behind its third slash.
pub(crate) fn ids_of(path: &str) -> Option<PathIds>
    ensures { result ≡ ids_of path.now }
{
    ids_in(ending(path))
}
