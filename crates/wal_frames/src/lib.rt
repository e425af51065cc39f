//! The write-ahead log in SQLite's format, version 3007000, with pages of 4,096 bytes: its checksum, writing a log and
//! reading the valid frames of one. (SQLite's page "Database File Format", section "The Write-Ahead Log".)
#![tactic(auto)]

mod checksums;
mod fault;
mod frame;
mod header;
mod laws;
mod reader;
mod reading;
mod words;
mod writer;

pub use checksums::{WordOrder, checksum};
pub use fault::WalFault;
pub use frame::{Frame, LentFrame};
pub use header::WalHeader;
pub use laws::{
    checksums_chain, headers_read_back, logs_read_back, one_list_is_valid,
    whole_logs_are_written_so,
};
pub use reader::WalReader;
pub use reading::{WalRead, read_wal};
pub use writer::{WalWriter, wal_length, write_wal};

/// The bytes of a log.
pub type WalBytes = dq_base::Items<u8>;
