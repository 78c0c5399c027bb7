//! The keeper.

ghost use Rattle.std.specs.Prelude.{◌≡◌, Err, IfOk, IsTrue, OnErr, OnOk};
ghost use Rattle.sqlite.specs.Held.{state as shown_by};
ghost use Rattle.sqlite.specs.State.{HasCleanDisk, Survives};
ghost use Rattle.misp_lists.specs.Order.{ascend};
ghost use Rattle.misp_outside.specs.Causes.{HasCause, StaysUnless};
ghost use Rattle.misp_outside.specs.Held.{admin_before, comes_before, next_row, nothing_held, rows_named, rows_of, with_batch};
ghost use Rattle.misp_sqlite.specs.Standing.{Begins, Finds, HasBatch, LeavesWhole, ShowsSame, held_of, is_reporting, kept_of};
ghost use Rattle.misp_sqlite.specs.Stored.{held_in};

use crate::loading::{admin_rows, all_rows, event_rows};
use crate::named::named_rows;
use crate::next::next_row;
use crate::opening::make_table;
use crate::putting::put_batch;
use misp_ids::EventId;
use misp_outside::{AdminRow, Keeper, KeeperFault, RawBatch, RawRow};
use sqlite::{Alter, Connection};
use std::alloc::Global;

/// A keeper whose rows are in the table `kept_row` of a database. By the trait it reports what the
/// table holds, while the connection is open and no two of these rows have one name. From a fault
/// on that has shut the connection it reports nothing.
#[derive(Drop)]
pub struct SqliteKeeper<A: Alter> {
    connection: Connection<A>,
    /// How many statements were refused for another cause than memory, or gave a row of another
    /// form. The number stays at its greatest value.
    faults: u64,
}

/// The count of faults after this answer.
fn counted<T>(answer: &Result<T, KeeperFault>, faults: u64) -> u64
    ensures cause { HasCause faults result (answer.now ≡ Err KeeperFault.Failed) }
    ensures stays { StaysUnless faults result (answer.now ≡ Err KeeperFault.Failed) }
{
    match answer {
        Err(KeeperFault::Failed) => faults.saturating_add(1),
        _ => faults,
    }
}

impl<A: Alter + Drop> SqliteKeeper<A> {
    ghost use Rattle.misp_sqlite.specs.Connected.{connection_of, faults_of};

    /// A keeper over the table of the connection's database. It makes the table in a database that
    /// has nothing, and refuses one that has another table.
    pub fn open(mut connection: Connection<A>) -> Result<SqliteKeeper<A>, KeeperFault>
        ensures faults { IfOk result (λ keeper. faults_of keeper ≡ 0) }
        ensures found { IfOk result (λ keeper.
            HasCleanDisk (shown_by A.Store (connection_of keeper)) →
            Finds (shown_by A.Store connection) (shown_by A.Store (connection_of keeper))) }
        ensures crash { IfOk result (λ keeper. Survives (shown_by A.Store connection)
            (shown_by A.Store (connection_of keeper))
            (λ trees. held_in (trees 0) ≡ nothing_held)) }
        ensures held { IfOk result (λ keeper. Begins (shown_by A.Store connection)
            (shown_by A.Store (connection_of keeper))) }
    {
        match make_table(&mut connection) {
            Ok(()) => Ok(SqliteKeeper {
                connection,
                faults: 0,
            }),
            Err(fault) => Err(fault),
        }
    }

    /// The connection as it is.
    pub fn into_connection(self) -> Connection<A>
        ensures { result ≡ connection_of self }
    {
        let SqliteKeeper {
            connection,
            faults: _,
        } = self;
        connection
    }
}

impl<A: Alter + Drop> Keeper for SqliteKeeper<A> {
    ghost use Rattle.misp_outside.specs.KeeperState.{state};
    ghost use Rattle.misp_sqlite.specs.Connected.{connection_of, faults_of};

    ghost state = { λ keeper.
        state (held_of (shown_by A.Store (connection_of keeper))) (faults_of keeper) };

    fn load_event(&mut self, alloc: Global, event: &EventId) -> Result<Vec<RawRow>, KeeperFault>
        ensures found { HasCleanDisk (shown_by A.Store (connection_of self.new)) →
            IfOk result (λ found. found.items
            ≡ rows_of event.now (kept_of (shown_by A.Store (connection_of self.old))).rows) }
        ensures order { IfOk result (λ found. IsTrue (ascend comes_before found.items)) }
        ensures same { ShowsSame (shown_by A.Store (connection_of self.old))
            (shown_by A.Store (connection_of self.new)) }
        ensures survives { Survives (shown_by A.Store (connection_of self.old))
            (shown_by A.Store (connection_of self.new)) (λ _. ⊥) }
        ensures clean { IsTrue (shown_by A.Store (connection_of self.new)).is_open →
            HasCleanDisk (shown_by A.Store (connection_of self.new)) }
        ensures cause { HasCause (faults_of self.old) (faults_of self.new)
            (result ≡ Err KeeperFault.Failed) }
        ensures stays { StaysUnless (faults_of self.old) (faults_of self.new)
            (result ≡ Err KeeperFault.Failed) }
    {
        let answer = event_rows(&mut self.connection, alloc, event.0.0);
        self.faults = counted(&answer, self.faults);
        answer
    }

    /// It reads no other rows, but where `front` is empty or has bytes 255 alone: there it reads
    /// all rows of the event.
    fn load_named(
        &mut self,
        alloc: Global,
        event: &EventId,
        front: &[u8],
    ) -> Result<Vec<RawRow>, KeeperFault>
        ensures found { HasCleanDisk (shown_by A.Store (connection_of self.new)) →
            IfOk result (λ found. found.items ≡ rows_named event.now front.now
            (kept_of (shown_by A.Store (connection_of self.old))).rows) }
        ensures order { IfOk result (λ found. IsTrue (ascend comes_before found.items)) }
        ensures same { ShowsSame (shown_by A.Store (connection_of self.old))
            (shown_by A.Store (connection_of self.new)) }
        ensures survives { Survives (shown_by A.Store (connection_of self.old))
            (shown_by A.Store (connection_of self.new)) (λ _. ⊥) }
        ensures clean { IsTrue (shown_by A.Store (connection_of self.new)).is_open →
            HasCleanDisk (shown_by A.Store (connection_of self.new)) }
        ensures cause { HasCause (faults_of self.old) (faults_of self.new)
            (result ≡ Err KeeperFault.Failed) }
        ensures stays { StaysUnless (faults_of self.old) (faults_of self.new)
            (result ≡ Err KeeperFault.Failed) }
    {
        let answer = named_rows(&mut self.connection, alloc, event.0.0, front);
        self.faults = counted(&answer, self.faults);
        answer
    }

    /// It reads at most one row more: the one after it.
    fn load_next(
        &mut self,
        alloc: Global,
        event: &EventId,
        from: &[u8],
    ) -> Result<Option<RawRow>, KeeperFault>
        ensures found { HasCleanDisk (shown_by A.Store (connection_of self.new)) →
            IfOk result (λ found. found ≡ next_row event.now from.now
            (kept_of (shown_by A.Store (connection_of self.old))).rows) }
        ensures same { ShowsSame (shown_by A.Store (connection_of self.old))
            (shown_by A.Store (connection_of self.new)) }
        ensures survives { Survives (shown_by A.Store (connection_of self.old))
            (shown_by A.Store (connection_of self.new)) (λ _. ⊥) }
        ensures clean { IsTrue (shown_by A.Store (connection_of self.new)).is_open →
            HasCleanDisk (shown_by A.Store (connection_of self.new)) }
        ensures cause { HasCause (faults_of self.old) (faults_of self.new)
            (result ≡ Err KeeperFault.Failed) }
        ensures stays { StaysUnless (faults_of self.old) (faults_of self.new)
            (result ≡ Err KeeperFault.Failed) }
    {
        let answer = next_row(&mut self.connection, alloc, event.0.0, from);
        self.faults = counted(&answer, self.faults);
        answer
    }

    fn load_all(&mut self, alloc: Global) -> Result<Vec<RawRow>, KeeperFault>
        ensures found { HasCleanDisk (shown_by A.Store (connection_of self.new)) →
            IfOk result (λ found. found.items
            ≡ (kept_of (shown_by A.Store (connection_of self.old))).rows) }
        ensures order { IfOk result (λ found. IsTrue (ascend comes_before found.items)) }
        ensures same { ShowsSame (shown_by A.Store (connection_of self.old))
            (shown_by A.Store (connection_of self.new)) }
        ensures survives { Survives (shown_by A.Store (connection_of self.old))
            (shown_by A.Store (connection_of self.new)) (λ _. ⊥) }
        ensures clean { IsTrue (shown_by A.Store (connection_of self.new)).is_open →
            HasCleanDisk (shown_by A.Store (connection_of self.new)) }
        ensures cause { HasCause (faults_of self.old) (faults_of self.new)
            (result ≡ Err KeeperFault.Failed) }
        ensures stays { StaysUnless (faults_of self.old) (faults_of self.new)
            (result ≡ Err KeeperFault.Failed) }
    {
        let answer = all_rows(&mut self.connection, alloc);
        self.faults = counted(&answer, self.faults);
        answer
    }

    fn load_admin(&mut self, alloc: Global) -> Result<Vec<AdminRow>, KeeperFault>
        ensures found { HasCleanDisk (shown_by A.Store (connection_of self.new)) →
            IfOk result (λ found. found.items
            ≡ (kept_of (shown_by A.Store (connection_of self.old))).admin) }
        ensures order { IfOk result (λ found. IsTrue (ascend admin_before found.items)) }
        ensures same { ShowsSame (shown_by A.Store (connection_of self.old))
            (shown_by A.Store (connection_of self.new)) }
        ensures survives { Survives (shown_by A.Store (connection_of self.old))
            (shown_by A.Store (connection_of self.new)) (λ _. ⊥) }
        ensures clean { IsTrue (shown_by A.Store (connection_of self.new)).is_open →
            HasCleanDisk (shown_by A.Store (connection_of self.new)) }
        ensures cause { HasCause (faults_of self.old) (faults_of self.new)
            (result ≡ Err KeeperFault.Failed) }
        ensures stays { StaysUnless (faults_of self.old) (faults_of self.new)
            (result ≡ Err KeeperFault.Failed) }
    {
        let answer = admin_rows(&mut self.connection, alloc);
        self.faults = counted(&answer, self.faults);
        answer
    }

    /// All rows are put in one transaction.
    fn apply(&mut self, batch: RawBatch) -> Result<(), KeeperFault>
        ensures done { HasCleanDisk (shown_by A.Store (connection_of self.new)) → OnOk result
            (HasBatch batch (shown_by A.Store (connection_of self.old))
            (shown_by A.Store (connection_of self.new))) }
        ensures same { OnErr result (ShowsSame (shown_by A.Store (connection_of self.old))
            (shown_by A.Store (connection_of self.new))) }
        ensures crash { Survives (shown_by A.Store (connection_of self.old))
            (shown_by A.Store (connection_of self.new)) (λ trees. held_in (trees 0)
            ≡ with_batch batch (kept_of (shown_by A.Store (connection_of self.old)))) }
        ensures left { HasCleanDisk (shown_by A.Store (connection_of self.new)) →
            IsTrue (shown_by A.Store (connection_of self.old)).is_open →
            LeavesWhole batch (shown_by A.Store (connection_of self.old))
            (shown_by A.Store (connection_of self.new)) }
        ensures reported { OnOk result
            (IsTrue (shown_by A.Store (connection_of self.new)).is_open →
            is_reporting (shown_by A.Store (connection_of self.new))
            ≡ is_reporting (shown_by A.Store (connection_of self.old))) }
        ensures clean { IsTrue (shown_by A.Store (connection_of self.new)).is_open →
            HasCleanDisk (shown_by A.Store (connection_of self.new)) }
        ensures cause { HasCause (faults_of self.old) (faults_of self.new)
            (result ≡ Err KeeperFault.Failed) }
        ensures stays { StaysUnless (faults_of self.old) (faults_of self.new)
            (result ≡ Err KeeperFault.Failed) }
    {
        let answer = put_batch(&mut self.connection, &batch);
        self.faults = counted(&answer, self.faults);
        answer
    }
}
