//! Laws of the groups of an instance.

ghost use Rattle.std.specs.Prelude.{◌≡◌, List, [], true, false, None, Some, is_some, if◌then◌else◌};
ghost use Rattle.std.specs.Ordering.{is_lt};
ghost use Rattle.std.specs.List.Sorted.{IsStrictlySortedBy};
ghost use Rattle.misp_ids.specs.declared.uid.OrgId.{OrgId};
ghost use Rattle.misp_ids.specs.declared.uid.GroupId.{GroupId};
ghost use Rattle.misp_groups.specs.declared.group.GroupFields.{GroupFields as Group};
ghost use Rattle.misp_ids.specs.Moments.{Stamp};
ghost use Rattle.misp_ids.specs.Same.{same_group, group_before};
ghost use Rattle.misp_groups.specs.Audience.{known_group};
ghost use Rattle.misp_groups.specs.Changes.{put_group, group_now, administration_fails, administered};
ghost use Rattle.misp_groups.specs.Groups.{by_id, by_name, put_groups, why_not_added, why_not_edited};

/// A group that is added or edited, and then put in its place, is put as an administration of the
/// history does it. There is a rule against it exactly where that fails.
pub fn groups_change_as_they_are_administered()
    ensures added { (old : List Group) (by : OrgId) (g : Group) (now : Stamp) →
        why_not_added old by g.id ≡ None →
        put_group (group_now now g old) old ≡ administered now by true g old }
    ensures edited { (old : List Group) (by : OrgId) (g : Group) (now : Stamp) →
        why_not_edited old by g.id ≡ None →
        put_group (group_now now g old) old ≡ administered now by false g old }
    ensures not_added { (old : List Group) (by : OrgId) (g : Group) →
        is_some (why_not_added old by g.id) ≡ administration_fails by true g old }
    ensures not_edited { (old : List Group) (by : OrgId) (g : Group) →
        IsStrictlySortedBy by_name old →
        is_some (why_not_edited old by g.id) ≡ administration_fails by false g old }
{}

/// The name of a group that is put in its place has this group, and every other name the group that
/// it had. Groups that ascend come of putting one after another in its place, and they ascend in
/// the order of the history.
pub fn groups_are_put_in_order()
    ensures known { (g : Group) (groups : List Group) (id : GroupId) →
        known_group (put_group g groups) id
        ≡ (if same_group g.id id then Some g else known_group groups id) }
    ensures all { (groups : List Group) →
        IsStrictlySortedBy by_name groups → put_groups [] groups ≡ groups }
    ensures order { (a b : GroupId) → is_lt (by_id a b) ≡ group_before a b }
{}
