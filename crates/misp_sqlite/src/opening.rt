//! The table, where it is missing.

ghost use Rattle.std.specs.Prelude.{◌≡◌, IsTrue, OnOk};
ghost use Rattle.sqlite.specs.Held.{state};
ghost use Rattle.sqlite.specs.State.{HasCleanDisk, Survives};
ghost use Rattle.misp_outside.specs.Held.{nothing_held};
ghost use Rattle.misp_sqlite.specs.Kept.{no_schema};
ghost use Rattle.misp_sqlite.specs.Standing.{Begins, Finds};
ghost use Rattle.misp_sqlite.specs.Stored.{held_in};

use crate::fault::fault_of;
use crate::loading::is_ready;
use crate::schema::is_empty;
use crate::texts::CREATE;
use misp_outside::KeeperFault;
use sqlite::{Alter, Connection};

/// Whether the connection is in no transaction, and its database has nothing.
fn is_bare<A: Alter>(connection: &Connection<A>) -> bool
    ensures { IsTrue result → (state A.Store connection.now).now.schema ≡ no_schema }
{
    connection.is_autocommit() && is_empty(connection.schema())
}

/// Makes the table in a database that has nothing. One that has another table is refused.
pub(crate) fn make_table<A: Alter>(connection: &mut Connection<A>) -> Result<(), KeeperFault>
    ensures found { HasCleanDisk (state A.Store connection.new) → OnOk result
        (Finds (state A.Store connection.old) (state A.Store connection.new)) }
    ensures crash { Survives (state A.Store connection.old) (state A.Store connection.new)
        (λ trees. held_in (trees 0) ≡ nothing_held) }
    ensures held { OnOk result
        (Begins (state A.Store connection.old) (state A.Store connection.new)) }
{
    if is_ready(connection) {
        return Ok(());
    }
    if !is_bare(connection) {
        return Err(KeeperFault::Failed);
    }
    match connection.execute(CREATE, &[]) {
        Ok(_) => Ok(()),
        Err(error) => Err(fault_of(error)),
    }
}
