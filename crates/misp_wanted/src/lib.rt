//! Which rows of a package are wanted, the package with these alone, and the bytes of manifests and
//! of wanted lists.
#![tactic(auto)]

mod held;
mod laws;
mod reading;
mod selecting;
mod wanting;
mod writing;

pub use held::ascend;
pub use laws::what_is_wanted_is_all_that_is_taken;
pub use reading::{read_manifest, read_wanted};
pub use selecting::only;
pub use wanting::{wanted, wanted_over};
pub use writing::{manifest_bytes, wanted_bytes};
