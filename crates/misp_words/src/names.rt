//! The names of the commands.

pub(crate) const NET: &str = "net";

pub(crate) const CHECK: &str = "check";

pub(crate) const SERVE: &str = "serve";

pub(crate) const SYNC: &str = "sync";

pub(crate) const GEN: &str = "gen";
