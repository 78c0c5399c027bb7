//! What is put where a group is added or edited.

ghost use Rattle.std.specs.Prelude.{◌≡◌, None, Some, IfOk, IfErr, OnOk};
ghost use Rattle.misp_ids.specs.Same.{same_org};
ghost use Rattle.misp_ids.specs.Moments.{next_stamp};
ghost use Rattle.misp_groups.specs.Changes.{group_now};
ghost use Rattle.misp_groups.specs.Groups.{why_kept, why_not_added, why_not_edited};

use crate::group::Group;
use crate::groups::Groups;
use misp_ids::{GroupId, OrgId, RuleName, Stamp};

// Whether the organisation created the group of this name.
#[tactic(auto, unfolding(misp_ids::specs::Same::same_org))]
fn is_creator(org: &OrgId, id: &GroupId) -> bool
    ensures { result ≡ same_org org.now id.now.creator }
{
    *org == id.creator
}

// The stamp of an edit of the group, or the rule by which it keeps its form.
#[tactic(auto, unfolding(misp_ids::specs::Moments::last_stamp, misp_ids::specs::Moments::next_stamp))]
fn edit_stamp(held: &Group, now: Stamp) -> Result<Stamp, RuleName>
    ensures free { OnOk result (why_kept (Some held.now) ≡ None) }
    ensures stamp { IfOk result (λ stamp. stamp ≡ next_stamp now held.now.modified) }
    ensures err { IfErr result (λ rule. why_kept (Some held.now) ≡ Some rule) }
{
    if held.carried {
        return Err(RuleName::LockedGroup);
    }
    match Stamp::next(held.modified, now) {
        Some(stamp) => Ok(stamp),
        None => Err(RuleName::TimeLimit),
    }
}

impl Groups {
    /// The group as its creator adds it at this moment, or the first rule against it.
    pub fn added(&self, by: &OrgId, group: Group, now: Stamp) -> Result<Group, RuleName>
        ensures free { OnOk result (why_not_added self.now by.now group.id ≡ None) }
        ensures group { IfOk result (λ added. added ≡ group_now now group self.now) }
        ensures err { IfErr result (λ rule. why_not_added self.now by.now group.id ≡ Some rule) }
    {
        if !is_creator(by, &group.id) {
            return Err(RuleName::NotCreator);
        }
        match self.get(&group.id) {
            Some(_) => Err(RuleName::GroupExists),
            None => Ok(group.home(now)),
        }
    }

    /// The group as its creator has it replace the one of its name at this moment, or the first
    /// rule against it.
    pub fn edited(&self, by: &OrgId, group: Group, now: Stamp) -> Result<Group, RuleName>
        ensures free { OnOk result (why_not_edited self.now by.now group.id ≡ None) }
        ensures group { IfOk result (λ edited. edited ≡ group_now now group self.now) }
        ensures err { IfErr result (λ rule. why_not_edited self.now by.now group.id ≡ Some rule) }
    {
        if !is_creator(by, &group.id) {
            return Err(RuleName::NotCreator);
        }
        match self.get(&group.id) {
            Some(held) => {
                let stamp = edit_stamp(held, now)?;
                Ok(group.home(stamp))
            }
            None => Err(RuleName::NoGroup),
        }
    }
}
