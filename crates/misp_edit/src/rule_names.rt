//! The rule that a fault names.

ghost use Rattle.std.specs.Prelude.{◌≡◌};
ghost use Rattle.misp_edit.specs.Refusals.{rule_named};

use misp_copies::ChangeFault;
use misp_ids::RuleName;

/// The rule that refuses by this fault. There is none where memory ran out.
#[tactic(auto, unfolding(misp_copies::specs::Barring::rule_of))]
pub fn rule_name(fault: ChangeFault) -> Option<RuleName>
    ensures { result ≡ rule_named fault }
{
    match fault {
        ChangeFault::NotGranted => Some(RuleName::NotGranted),
        ChangeFault::NotOwner => Some(RuleName::NotOwner),
        ChangeFault::LockedCopy => Some(RuleName::LockedCopy),
        ChangeFault::EventGone => Some(RuleName::EventGone),
        ChangeFault::ElementExists(_) => Some(RuleName::ElementExists),
        ChangeFault::GroupNotUsable(_) => Some(RuleName::GroupNotUsable),
        ChangeFault::OlderTime => Some(RuleName::OlderTime),
        ChangeFault::TimeLimit => Some(RuleName::TimeLimit),
        ChangeFault::ProposalExists => Some(RuleName::ProposalExists),
        ChangeFault::ProposalClosed => Some(RuleName::ProposalClosed),
        ChangeFault::ElementFull => Some(RuleName::ElementFull),
        ChangeFault::NoMemory => None,
    }
}
