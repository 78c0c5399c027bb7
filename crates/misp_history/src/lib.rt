//! The history of a network: versions, the tables that are the newest of them, and what each act and
//! each synchronisation leaves.
#![tactic(auto)]

mod laws;
mod origins;
mod synchronising;
mod table;

pub use laws::{
    a_copy_is_as_its_event_came, a_partner_counts_for_pulls_alone,
    a_publishing_clears_the_holds_of_its_copy, a_request_is_decided_without_its_number,
    an_accepted_request_is_put_row_by_row, one_version_more, what_an_act_leaves,
};
pub use origins::{
    each_row_has_its_label_of_origin_lowered_by_its_hops, each_version_has_an_origin,
};
pub use synchronising::{
    a_package_is_handed_in, a_part_is_the_one_asked_for, a_pull_is_answered_by_packages,
    a_second_synchronisation, a_synchronisation_by_packages, one_synchronisation,
    packages_are_merged_one_by_one, the_first_packages_bring_so_many, what_passes_is_granted,
};
pub use table::tables_have_one_row_for_each_key;
