//! The statements.

/// The table. A row of an event has the event's 16 bytes and the kind 0. A row of the
/// administration has no bytes for an event, and its kind.
pub(crate) const CREATE: &str = "CREATE TABLE IF NOT EXISTS kept_row (\
    event BLOB NOT NULL, kind INTEGER NOT NULL, name BLOB NOT NULL, bytes BLOB NOT NULL, \
    PRIMARY KEY (event, kind, name)) STRICT";

/// Puts a row in place of the one of its name.
pub(crate) const PUT: &str = "INSERT INTO kept_row (event, kind, name, bytes) \
    VALUES (?1, ?2, ?3, ?4) \
    ON CONFLICT (event, kind, name) DO UPDATE SET bytes = excluded.bytes";

/// The rows of an event, or with no bytes for it those of the administration.
pub(crate) const ONE: &str = "SELECT kind, name, bytes FROM kept_row \
    WHERE event = ?1 AND rowid IS NOT NULL \
    ORDER BY kind, name";

/// The rows of an event whose names are in a range, which the index of the key finds.
pub(crate) const BETWEEN: &str = "SELECT kind, name, bytes FROM kept_row \
    WHERE event = ?1 AND kind = 0 AND name >= ?2 AND name < ?3 AND rowid IS NOT NULL \
    ORDER BY kind, name";

/// The first of the rows of an event whose names are not before the given one, and the one after it.
pub(crate) const NEXT: &str = "SELECT kind, name, bytes FROM kept_row \
    WHERE event = ?1 AND kind = 0 AND name >= ?2 AND rowid IS NOT NULL \
    ORDER BY kind, name LIMIT 2";

/// The rows of all events.
pub(crate) const ALL: &str = "SELECT event, kind, name, bytes FROM kept_row \
    WHERE event <> x'' AND rowid IS NOT NULL \
    ORDER BY event, kind, name";
