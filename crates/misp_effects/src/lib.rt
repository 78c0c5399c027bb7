//! What commands come to, and runs of them, whatever they are about.
#![tactic(auto)]

mod laws;
mod stop;

pub use laws::{
    a_course_begins, a_course_goes_on, a_fault_is_counted_at_its_keeper,
    a_row_that_is_put_reads_back_as_itself, what_is_done_is_done_behind_a_batch,
    what_is_done_is_shown,
};
pub use stop::{Side, Stop};
