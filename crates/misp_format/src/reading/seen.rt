//! When something was first and last seen.

ghost use Rattle.std.specs.Prelude.{◌≡◌, ◌||◌, false, None, Ok, IfOk, codes, is_some};
ghost use Rattle.misp_elem.specs.Fields.{IsOptionalMoment, earliest};
ghost use Rattle.misp_model.specs.Edit.{IsGiven, IsSeen};
ghost use Rattle.misp_format.specs.Edits.{given_seen_at};
ghost use Rattle.misp_format.specs.Elements.{ends_early, in_order_at, seen_at};
ghost use Rattle.misp_format.specs.Members.{body_of};
ghost use Rattle.misp_format.specs.Rows.{Gives, must_be};

use crate::fault::FormatFault;
use crate::reading::members::Members;
use misp_elem::Moment;
use misp_fields::{Need, member};
use misp_model::Seen;

/// Whether the last moment is before the first, as far as both are known.
fn ends_early(first: Option<Moment>, last: Option<Moment>) -> bool
    ensures value { result ≡ ends_early first last }
    ensures fits { result ≡ false
        → IsOptionalMoment 0 first × IsOptionalMoment (earliest first) last }
{
    match (first, last) {
        (Some(first), Some(last)) => last.get() < first.get(),
        _ => false,
    }
}

fn in_order(it: &Members<'_>, seen: Seen) -> Result<Seen, FormatFault>
    ensures gives { Gives result (in_order_at (body_of it.now) seen) }
    ensures fits { IfOk result IsSeen }
{
    if ends_early(seen.first, seen.last) {
        return it.refused("last_seen", Need::Range);
    }
    Ok(seen)
}

/// The two moments, none where one is absent.
#[tactic(auto, unfolding(crate::specs::Elements::seen_at))]
pub(crate) fn seen(it: &Members<'_>) -> Result<Seen, FormatFault>
    ensures gives { Gives result (seen_at (body_of it.now) (Ok None)) }
    ensures fits { IfOk result IsSeen }
{
    let first = it.moment("first_seen")?;
    let last = it.moment("last_seen")?;
    in_order(it, Seen { first, last })
}

/// The two moments, neither of which may be absent.
#[tactic(auto, unfolding(crate::specs::Elements::seen_at))]
fn both_seen(it: &Members<'_>) -> Result<Seen, FormatFault>
    ensures gives { Gives result (seen_at (body_of it.now) must_be) }
    ensures fits { IfOk result IsSeen }
{
    let first = it.needed_moment("first_seen")?;
    let last = it.needed_moment("last_seen")?;
    in_order(it, Seen { first, last })
}

/// The two moments of an edit, which are given together.
#[tactic(auto, unfolding(crate::specs::Edits::given_seen_at))]
pub(crate) fn given_seen(it: &Members<'_>) -> Result<Option<Seen>, FormatFault>
    ensures gives { Gives result (given_seen_at (body_of it.now)) }
    ensures fits { IfOk result (IsGiven IsSeen) }
{
    if member(it.value, "first_seen").is_none() && member(it.value, "last_seen").is_none() {
        return Ok(None);
    }
    Ok(Some(both_seen(it)?))
}
