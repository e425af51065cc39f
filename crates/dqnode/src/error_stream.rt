//! Lines on the error stream.

use crate::founding::FolderRefusal;
use crate::secret::SecretFault;
use folder_disk::DirDisk;
use serve_node::{Note, Notes};
use serve_sockets::{HostFault, TcpHost};
use serve_threads::{LineQueue, LineWriter, NextLine, write_beside};
use session_gateway::Read;
use std::alloc::AllocError;
use std::io::ErrorKind;
use std::sync::Wait;
use std::thread::Threads;
use std::time::{Clock, Duration};
use std::{io, thread};

/// How many times the end looks whether all lines are written, and how long it waits after each look, in milliseconds.
const MAX_LOOKS: u64 = 100;

const LOOK_MS: u64 = 10;

/// Has lines written on the error stream. Those of a served node wait in a queue for a thread that writes them, so that the node never
/// waits for who reads the stream. A line that can't be written, or for which memory runs out, is lost.
#[derive(Drop)]
pub struct ErrorStream {
    rt: HostRuntime,
    lines: LineQueue,
    has_writer: bool,
}

/// Writes on the error stream.
#[derive(Drop)]
struct StreamWriter {
    rt: HostRuntime,
}

impl LineWriter for StreamWriter {
    fn write(&mut self, next: NextLine) {
        let rt = self.rt;
        let _ = match next {
            NextLine::Text(text) => eprintln!(rt; "{text}"),
            NextLine::LeftOut(count) => {
                eprintln!(rt; "{count} lines were left out, since this stream was not read")
            }
        };
    }
}

/// The line of a note.
fn line_of(rt: &HostRuntime, note: Note<'_>) -> Result<String, AllocError> {
    let alloc = rt.alloc();
    match note {
        Note::Listens { id, address } => format!(in alloc; "listening on {address} as node {id}"),
        Note::Leads { term } => format!(in alloc; "term {term}: leader"),
        Note::Follows { term, leader } => { format!(in alloc; "term {term}: follower of {leader}") }
        Note::FillsUp { last } => {
            format!(in alloc; "the log has {last} entries of at most 4294900000")
        }
        Note::Unread { fault } => format!(in alloc; "status 8: {fault}"),
    }
}

impl ErrorStream {
    /// The error stream of the process, with the queue of its lines.
    pub fn new(rt: HostRuntime, lines: LineQueue) -> ErrorStream {
        ErrorStream {
            rt,
            lines,
            has_writer: false,
        }
    }

    /// Has lines wait in the queue from here on, for a thread that writes them. If there is no thread, it says so.
    pub fn begin_queue<R: Threads + Wait + Copy + Drop + Send + 'static>(
        &mut self,
        waits: R,
    ) -> io::Result<()> {
        let started = match self.lines.again() {
            Ok(lines) => write_beside(waits, lines, StreamWriter { rt: self.rt }),
            Err(_) => Err(ErrorKind::OutOfMemory.into()),
        };
        match started {
            Ok(()) => {
                self.has_writer = true;
                Ok(())
            }
            Err(error) => {
                let _ = eprintln!(self.rt; "status 6: start a thread: {error}");
                Err(error)
            }
        }
    }

    /// Waits until all lines are written, at most for a second.
    pub fn finish<R: Wait + Clock>(&self, waits: &R) {
        for _ in 0..MAX_LOOKS {
            if !self.has_writer || self.lines.is_written(waits) {
                return;
            }
            thread::sleep(waits, Duration::from_millis(LOOK_MS));
        }
    }

    /// Has a line written.
    pub fn say(&self, line: Result<String, AllocError>) {
        let Ok(line) = line else {
            return;
        };
        if self.has_writer {
            self.lines.put(line);
        } else {
            let _ = eprintln!(self.rt; "{line}");
        }
    }

    /// Says why a node doesn't get its folder.
    pub fn tell_refusal(&self, refusal: &FolderRefusal) {
        let alloc = self.rt.alloc();
        self.say(match refusal {
            FolderRefusal::NoNode => String::from_str(
                alloc,
                "status 5: the folder has no file `node`: make a new node with --new; if this node is not new its files are missing, as where a disk is not mounted",
            ),
            FolderRefusal::HasNode(held) => format!(in alloc;
                "status 5: --new makes a new node, and the folder has one, whose file `node` says: {}",
                held.as_str().trim_end()
            ),
            FolderRefusal::Another(held) => format!(in alloc;
                "status 5: the words name another node or other voters than the folder's file `node`, which says: {}",
                held.as_str().trim_end()
            ),
        });
    }

    /// Says why a file is not taken as the cluster's secret.
    pub fn tell_secret(&self, file: &str, fault: &SecretFault) {
        self.say(format!(in self.rt.alloc(); "status 1: --secret {file}: {fault}"));
    }

    /// Says that a node at this address has no secret.
    pub fn tell_no_secret(&self, address: &str) {
        self.say(format!(in self.rt.alloc();
            "no --secret, and {address} is not loopback: who reaches it can speak as a peer"
        ));
    }

    /// Says that the process is the superuser's.
    pub fn tell_root(&self) {
        self.say(String::from_str(
            self.rt.alloc(),
            "running as root, which the node does not need",
        ));
    }

    /// Says that the disk failed, with the call that failed last and the system's error.
    pub fn tell_disk(&self, disk: &DirDisk<HostRuntime>) {
        let alloc = self.rt.alloc();
        let Some(fault) = disk.last_fault() else {
            return;
        };
        self.say(if fault.error.kind() == ErrorKind::WouldBlock {
            format!(in alloc; "status 5: {}: another process has the folder", fault.call)
        } else {
            format!(in alloc; "status 5: {}: {}", fault.call, fault.error)
        });
    }

    /// Says that the host failed, with the call that failed last and the system's error, if there is one.
    pub fn tell_host<R: Wait + Copy + Drop>(&self, host: &TcpHost<R, Read>) {
        let alloc = self.rt.alloc();
        let Some(HostFault { call, error }) = host.last_fault() else {
            return;
        };
        self.say(match error {
            Some(error) => format!(in alloc; "status 6: {call}: {error}"),
            None => format!(in alloc; "status 6: {call}"),
        });
    }

    /// Says that memory ran out.
    pub fn tell_memory(&self) {
        self.say(String::from_str(self.rt.alloc(), "status 7: out of memory"));
    }

    /// Says that a node failed because of a bug of the program, and asks for a report.
    pub fn tell_bug(&self) {
        self.say(String::from_str(
            self.rt.alloc(),
            "status 15: internal fault: this is a bug of dqnode; please report it, with the lines before this one and what led to it",
        ));
    }
}

impl Notes for ErrorStream {
    fn note(&mut self, note: Note<'_>) {
        self.say(line_of(&self.rt, note));
    }
}
