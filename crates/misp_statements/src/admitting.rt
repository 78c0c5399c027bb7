//! Which rule refuses a statement, and the row of one.

ghost use Rattle.std.specs.Prelude.{◌≡◌, [], ◌∷◌, Some, not, IfOk, IfErr};
ghost use Rattle.misp_elem.specs.Row.{AreRows, IsRow};
ghost use Rattle.misp_ids.specs.declared.uid.ElemId.{ElemId as SomeElement};
ghost use Rattle.misp_model.specs.Scene.{EventGone, NotGranted, Rule, first_rule};
ghost use Rattle.misp_copies.specs.Barring.{NamesUuid, outcome, rule_of};
ghost use Rattle.misp_statements.specs.Rows.{statement_row};

use misp_copies::ChangeFault;
use misp_elem::{Content, KeyForm, Row, RowFields};
use misp_ids::{Label, NoMemory, OrgId, Stamp};
use std::alloc::Global;

// The first of these that refuses: its target is not seen, the caller's copy is deleted, or the
// caller has made it.
#[tactic(auto, unfolding(misp_copies::specs::Barring::rule_of, misp_model::specs::Scene::first_rule))]
pub(crate) fn admitted(
    seen: bool,
    gone: bool,
    made: bool,
    again: ChangeFault,
) -> Result<(), ChangeFault>
    ensures rule { (rule : Rule) → rule_of again ≡ Some rule → outcome result
        ≡ first_rule ((not seen, NotGranted) ∷ (gone, EventGone) ∷ (made, rule) ∷ []) }
    ensures names { (uuid : SomeElement) → NamesUuid uuid again → IfErr result (NamesUuid uuid) }
{
    if !seen {
        return Err(ChangeFault::NotGranted);
    }
    if gone {
        return Err(ChangeFault::EventGone);
    }
    if made {
        return Err(again);
    }
    Ok(())
}

// The row of a statement that its owner makes at this moment.
pub(crate) fn statement_row(owner: OrgId, now: Stamp, key: KeyForm, content: Content) -> Row
    requires { IsRow (statement_row owner now key content) }
    ensures { result ≡ statement_row owner now key content }
{
    Row::of(RowFields {
        owner,
        key,
        stamp: now,
        label: Label::Inherit,
        held: false,
        carried: false,
        content,
    })
}

// The row alone.
pub(crate) fn alone(alloc: Global, row: Row) -> Result<Vec<Row>, NoMemory>
    requires { IsRow row }
    ensures ok { IfOk result (λ made. made.items ≡ row ∷ []) }
    ensures are_rows { IfOk result (λ made. AreRows made.items) }
{
    let mut made = Vec::with_capacity(alloc, 1)?;
    made.push(row)?;
    Ok(made)
}
