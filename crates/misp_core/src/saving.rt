//! What a request comes to that writes rows of an event, or that a fault refuses.

ghost use Rattle.std.specs.Prelude.{◌≡◌, Err, IfErr, IfOk, length, map};
ghost use Rattle.misp_elem.specs.Row.{AreRows};
ghost use Rattle.misp_orgs.specs.Admin.{AdminFields};
ghost use Rattle.misp_model.specs.declared.ask.Ask.{Ask};
ghost use Rattle.misp_model.specs.Answers.{ask_rules};
ghost use Rattle.misp_model.specs.Scene.{Scene};
ghost use Rattle.misp_copies.specs.Barring.{Refuses};
ghost use Rattle.misp_statements.specs.Saving.{Saves};
ghost use Rattle.misp_core.specs.declared.reply.Answer.TheVariants as answers;
ghost use Rattle.misp_core.specs.Answers.{greatest};
ghost use Rattle.misp_core.specs.Effects.{asked, row_batches};
ghost use Rattle.misp_core.specs.Planning.{Plans, batches_of, rows_put};
ghost use Rattle.misp_core.specs.Saving.{IsOfEvent, NamesPlace, place_named};

use crate::planning::{Batch, NoPlan, Plan};
use crate::reply::Answer;
use misp_copies::ChangeFault;
use misp_edit::rule_name;
use misp_elem::{NoMemory, Row};
use misp_ids::{EventId, Items, Refusal, Stamp, Text};
use std::alloc::Global;

/// Rows are put in one batch, and no rows in none.
pub(crate) fn rows_put(alloc: Global, rows: Vec<Row>) -> Option<Batch>
    ensures batches { batches_of result ≡ row_batches rows.items }
    ensures rows { rows_put result ≡ rows.items }
{
    let [_, ..] = rows.as_slice() else {
        return None;
    };
    Some(Batch {
        rows: Items::of(rows),
        groups: Items::of(Vec::new(alloc)),
    })
}

// The greatest of the rows' stamps.
#[tactic(auto, unfolding(crate::specs::Answers::greatest))]
fn greatest(rows: &[Row]) -> Stamp
    ensures { result ≡ greatest (map (λ row. row.stamp) rows.now) }
{
    let mut newest = Stamp::first();
    for row in rows {
        newest = newest.max(row.stamp);
    }
    newest
}

/// What is answered to a request of this event, and the rows that it writes.
pub(crate) fn saved(alloc: Global, event: EventId, rows: Vec<Row>) -> Plan
    ensures answer { result.answer ≡ answers.Saved (length rows.items) event
        (greatest (map (λ row. row.stamp) rows.items)) }
    ensures batches { batches_of result.batch ≡ row_batches rows.items }
    ensures rows { rows_put result.batch ≡ rows.items }
{
    let answer = Answer::Saved {
        elements: rows.len() as u64,
        event,
        stamp: greatest(&rows),
    };
    Plan {
        answer,
        batch: rows_put(alloc, rows),
    }
}

// The group or the element that a fault names.
fn place_named(alloc: Global, fault: ChangeFault) -> Result<Text, NoMemory>
    ensures { IfOk result (λ place. place ≡ place_named fault) }
{
    match fault {
        ChangeFault::GroupNotUsable(group) => Ok(group.uuid.to_text(alloc)?),
        ChangeFault::ElementExists(element) => Ok(element.0.to_text(alloc)?),
        _ => Ok(Text::of(String::new(alloc))),
    }
}

// Why a request is not planned that this fault refuses.
fn not_saved(alloc: Global, fault: ChangeFault) -> NoPlan
    ensures { (admin : AdminFields) (s : Scene) (ask : Ask) → Refuses (ask_rules s ask) fault →
        NamesPlace s ask fault → Plans (Err result) (asked admin s ask) }
{
    let Some(name) = rule_name(fault) else {
        return NoPlan::NoMemory;
    };
    match place_named(alloc, fault) {
        Ok(place) => NoPlan::Refused(Refusal { name, place }),
        Err(NoMemory) => NoPlan::NoMemory,
    }
}

/// What is planned for a request of this event whose rows are made, or which a fault refuses.
pub(crate) fn saved_or_refused(
    alloc: Global,
    event: EventId,
    made: Result<Vec<Row>, ChangeFault>,
) -> Result<Plan, NoPlan>
    ensures { (admin : AdminFields) (s : Scene) (ask : Ask) → IsOfEvent ask event →
        IfOk made (λ rows. Saves s ask rows.items) → IfOk made (λ rows. AreRows rows.items) →
        IfErr made (Refuses (ask_rules s ask)) → IfErr made (NamesPlace s ask) →
        Plans result (asked admin s ask) }
{
    match made {
        Ok(rows) => Ok(saved(alloc, event, rows)),
        Err(fault) => Err(not_saved(alloc, fault)),
    }
}
