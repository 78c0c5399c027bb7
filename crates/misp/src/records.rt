//! The file that keeps the records of an instance.

use misp_app::Status;
use misp_ids::InstId;
use misp_outside::KeeperFault;
use misp_sqlite::SqliteKeeper;
use sqlite::{Connection, Error, ErrorCode, File, FileStore};

/// A keeper over the file of an instance.
pub(crate) type Records = SqliteKeeper<FileStore<File>>;

// Why a file is not opened, in plain words.
fn cause_of(error: Error) -> &'static str {
    match error {
        Error::SqliteFailure(ErrorCode::DatabaseBusy) => "another process has it open",
        Error::SqliteFailure(ErrorCode::NotADatabase) => "it is no database of SQLite",
        Error::SqliteFailure(ErrorCode::DatabaseCorrupt) => "it is damaged",
        Error::SqliteFailure(ErrorCode::DiskFull) => "the disk is full",
        Error::SqliteFailure(ErrorCode::OutOfMemory) => "there is no memory for it",
        _ => "it cannot be read and written",
    }
}

// Why a table is not opened, in plain words.
fn cause_of_fault(fault: KeeperFault) -> &'static str {
    match fault {
        KeeperFault::Failed => "it has other tables, or cannot be written",
        KeeperFault::NoMemory => "there is no memory for it",
    }
}

fn status_of(error: Error) -> Status {
    match error {
        Error::SqliteFailure(ErrorCode::OutOfMemory) => Status::OutOfMemory,
        _ => Status::KeeperFault,
    }
}

fn status_of_fault(fault: KeeperFault) -> Status {
    match fault {
        KeeperFault::Failed => Status::KeeperFault,
        KeeperFault::NoMemory => Status::OutOfMemory,
    }
}

// Opens the file at a path, or makes it. One that is made has a sum at the end of each page, by which
// a byte that has changed is found (SQLite's cksumvfs).
fn open_at(rt: &HostRuntime, path: &str) -> Result<Records, (Status, &'static str)> {
    match Connection::open_with_sums(rt, path) {
        Ok(connection) => SqliteKeeper::open(connection).map_err(|fault| (
            status_of_fault(fault),
            cause_of_fault(fault),
        )),
        Err(error) => Err((status_of(error), cause_of(error))),
    }
}

/// Opens the records of an instance: the file `NAME.misp` in the working directory, which is made
/// where there is none. Where they cannot be had, a line on standard error says why.
pub(crate) fn open(rt: &HostRuntime, name: &InstId) -> Result<Records, Status> {
    let path = format!(in rt.alloc(); "{}.misp", name.text())?;
    open_at(rt, path.as_str()).map_err(|(status, cause)| {
        // Where standard error takes nothing, the exit status says it alone.
        let _ = eprintln!(rt; "misp: {path}: {cause}");
        status
    })
}

/// Closes records, which copies the log into the file. Where it cannot be copied it stays, and the
/// next opening reads it.
pub(crate) fn close(keepers: Vec<Records>) {
    for keeper in keepers {
        let _ = keeper.into_connection().close();
    }
}
