//! The lines that wait to be written on the error stream.

ghost use Rattle.std.specs.Prelude.{◌≤◌, length};

use std::alloc::{AllocError, Global};
use std::collections::VecDeque;
use std::io;
use std::sync::atomic::{AtomicU64, Ordering};
use std::sync::{Arc, Condvar, Mutex, Wait};
use std::thread::{Builder, Threads};

/// How many lines may wait.
const MAX_LINES: usize = 256;

/// The room of the thread that writes lines, in bytes.
const STACK: usize = 262_144;

/// How many times a line is tried to be put while another thread touches the queue.
const MAX_TRIES: u64 = 10_000;

/// What is to be written next.
#[derive(Drop)]
pub enum NextLine {
    /// A line, without its end.
    Text(String),
    /// After the lines before it this many were left out, since too many waited.
    LeftOut(u64),
}

/// The lines that wait, and how many were left out after them.
#[derive(Drop)]
struct WaitingLines {
    waiting: VecDeque<NextLine>,
    left_out: u64,
    is_writing: bool,
    ghost bounded: { length waiting.items ≤ 256 },
}

impl WaitingLines {
    /// No line waits.
    fn new(alloc: Global) -> WaitingLines {
        WaitingLines {
            waiting: VecDeque::new(alloc),
            left_out: 0,
            is_writing: false,
        }
    }

    /// Has what is to be written next wait, if there is room and memory for it, and says whether there is.
    fn push(&mut self, next: NextLine) -> bool {
        if self.waiting.len() >= MAX_LINES {
            return false;
        }
        self.waiting.push_back(next).is_ok()
    }

    /// Adds a line, or leaves it out if there is no room. The first line after some that were left out says so before it.
    fn add(&mut self, text: String) {
        if self.left_out > 0 && self.push(NextLine::LeftOut(self.left_out)) {
            self.left_out = 0;
        }
        if self.left_out > 0 || !self.push(NextLine::Text(text)) {
            self.left_out = self.left_out.saturating_add(1);
        }
    }

    /// This many lines more were left out.
    fn leave_out(&mut self, count: u64) {
        self.left_out = self.left_out.saturating_add(count);
    }

    /// Takes what is to be written next, if there is something.
    fn next(&mut self) -> Option<NextLine> {
        if let Some(next) = self.waiting.pop_front() {
            return Some(next);
        }
        if self.left_out == 0 {
            return None;
        }
        let left_out = self.left_out;
        self.left_out = 0;
        Some(NextLine::LeftOut(left_out))
    }

    /// Whether all that came was written.
    fn is_written(&self) -> bool {
        self.waiting.is_empty() && self.left_out == 0 && !self.is_writing
    }
}

#[derive(Drop)]
struct Shared {
    lines: Mutex<WaitingLines>,
    came: Condvar,
    missed: AtomicU64,
}

/// One end of a queue of lines. Who puts a line never waits, and never sleeps: of more than 256 that wait the new ones are left out, and
/// counted.
#[derive(Drop)]
pub struct LineQueue {
    shared: Arc<Shared, Global>,
}

impl LineQueue {
    /// A queue in which nothing waits.
    pub fn new(alloc: Global) -> Result<LineQueue, AllocError> {
        let shared = Shared {
            lines: Mutex::new(WaitingLines::new(alloc)),
            came: Condvar::new(),
            missed: AtomicU64::new(0),
        };
        Ok(LineQueue {
            shared: Arc::new(alloc, shared)?,
        })
    }

    /// Another end. `Err` if there are too many.
    pub fn again(&self) -> Result<LineQueue, AllocError> {
        Ok(LineQueue {
            shared: Arc::try_clone(&self.shared)?,
        })
    }

    /// Puts a line, which has no end of a line. It is left out if others touch the queue all the time.
    pub fn put(&self, text: String) {
        for _ in 0..MAX_TRIES {
            if let Some(mut lines) = self.shared.lines.try_lock() {
                lines.add(text);
                drop(lines);
                self.shared.came.notify_one();
                return;
            }
        }
        self.shared.missed.fetch_add(1, Ordering::SeqCst);
    }

    /// Waits for what is to be written next. What was taken before counts as written from here on.
    pub fn take<R: Wait>(&self, rt: &R) -> NextLine {
        let mut lines = self.shared.lines.lock(rt);
        lines.is_writing = false;
        for _ in rt.forever() {
            lines.leave_out(self.shared.missed.swap(0, Ordering::SeqCst));
            if let Some(next) = lines.next() {
                lines.is_writing = true;
                return next;
            }
            lines = self.shared.came.wait(rt, lines);
        }
        unreachable!()
    }

    /// Whether all that was put is written.
    pub fn is_written<R: Wait>(&self, rt: &R) -> bool {
        self.shared.lines.lock(rt).is_written()
    }
}

/// What writes lines, in its own thread. It may wait.
pub trait LineWriter: Send + Drop + Sized {
    /// Writes a line, or how many were left out.
    fn write(&mut self, next: NextLine);
}

/// Has the lines of a queue written by their own thread, while the process is there.
pub fn write_beside<
    R: Threads + Wait + Copy + Drop + Send + 'static,
    W: LineWriter + Send + 'static,
>(rt: R, lines: LineQueue, writer: W) -> io::Result<()> {
    Builder::new()
        .stack_size(STACK)
        .spawn(&rt, move || write_all(rt, lines, writer))?;
    Ok(())
}

/// Writes the lines that come.
fn write_all<R: Wait + Copy + Drop, W: LineWriter>(rt: R, lines: LineQueue, writer: W) {
    let mut writer = writer;
    for _ in 0..u64::MAX {
        writer.write(lines.take(&rt));
    }
}
