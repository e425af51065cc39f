//! The process: its standard streams and its user.

use std::fs;
use std::fs::File;
use std::os::fd::{AsRawFd, IntoRawFd};
use std::os::unix::fs::MetadataExt;

/// The greatest descriptor of a standard stream.
const MAX_STREAM: i32 = 2;

/// Opens each standard stream that is closed, so that no file of the folder gets its descriptor, to which lines would then be written. It
/// is opened on the root folder, for reading: each read and each write of it fails, as at a stream that is closed.
pub fn open_streams(rt: &HostRuntime) {
    for _ in 0..=MAX_STREAM {
        let Ok(file) = File::open(rt, "/") else {
            return;
        };
        if file.as_raw_fd() > MAX_STREAM {
            return;
        }
        let _stays_open = file.into_raw_fd();
    }
}

/// Whether the process is the superuser's, as far as the system shows.
pub fn is_root(rt: &HostRuntime) -> bool {
    match fs::metadata(rt, "/proc/self") {
        Ok(found) => found.uid() == 0,
        Err(_) => false,
    }
}
