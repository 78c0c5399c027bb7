//! The page that a query asks for.

ghost use Rattle.std.specs.Prelude.{◌≡◌, ◌≤◌, IfSome};
ghost use Rattle.std.specs.Option.{option_copied};
ghost use Rattle.misp_api.specs.Query.{number_asked, number_in, page_query, value_in, value_of};

use misp_ids::are_digits;
use misp_search::Page;

/// The page that a query asks for, or which of its two numbers is none.
#[derive(Clone, Copy)]
pub enum PageQuery {
    Of(Page),
    /// The number of the page.
    BadPage,
    /// How many items a page has.
    BadLimit,
}

// What stands behind the first `=` of a piece, where this name stands before it.
#[tactic(auto, unfolding(crate::specs::Query::value_of))]
fn value_of<'a>(piece: &'a str, name: &str) -> Option<&'a str>
    ensures { option_copied result ≡ value_of name.now piece.now }
{
    match piece.split_once('=') {
        Some((before, value)) if before == name => Some(value),
        _ => None,
    }
}

// The value of the first piece of a query that has this name.
fn value_in<'a>(query: &'a str, name: &str) -> Option<&'a str>
    ensures { option_copied result ≡ value_in name.now query.now }
{
    for piece in query.split('&') {
        if let Some(value) = value_of(piece, name) {
            return Some(value);
        }
    }
    None
}

// The number that decimal digits write, from 1 to `most`.
#[tactic(auto, unfolding(crate::specs::Query::number_in))]
fn number_in(text: &str, most: u64) -> Option<u64>
    ensures value { result ≡ number_in most text.now }
    ensures least { IfSome result (λ n. 1 ≤ n) }
    ensures most { IfSome result (λ n. n ≤ most) }
{
    if text.is_empty() || !are_digits(text.as_bytes()) {
        return None;
    }
    let Ok(number) = u64::from_str_radix(text, 10) else {
        return None;
    };
    if number < 1 || most < number {
        return None;
    }
    Some(number)
}

// The same, and `absent` where nothing is said.
#[tactic(auto, unfolding(crate::specs::Query::number_asked))]
fn number_asked(text: Option<&str>, most: u64, absent: u64) -> Option<u64>
    requires least { 1 ≤ absent }
    requires most { absent ≤ most }
    ensures value { result ≡ number_asked most absent (option_copied text.entry) }
    ensures least { IfSome result (λ n. 1 ≤ n) }
    ensures most { IfSome result (λ n. n ≤ most) }
{
    match text {
        Some(text) => number_in(text, most),
        None => Some(absent),
    }
}

/// The page that a query asks for, the first of 60 items where it does not say.
#[tactic(auto, unfolding(crate::specs::Query::page_query))]
pub(crate) fn page_query(query: &str) -> PageQuery
    ensures { result ≡ page_query query.now }
{
    let number = number_asked(value_in(query, "page"), 1_000_000, 1);
    let size = number_asked(value_in(query, "limit"), 1000, 60);
    match (number, size) {
        (None, _) => PageQuery::BadPage,
        (Some(_), None) => PageQuery::BadLimit,
        (Some(number), Some(size)) => PageQuery::Of(Page::of(number, size)),
    }
}
