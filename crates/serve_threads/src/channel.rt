//! An inbox and posts over a channel.

ghost use Rattle.std.specs.Prelude.{◌≡◌, None, IfOk};
ghost use Rattle.dq_base.specs.Faults.{HasCause};
ghost use Rattle.serve_traits.specs.Told.{Puts};
ghost use Rattle.serve_threads.specs.Counts.{IsCounted};

use crate::credit::{Credit, Debit};
use crossbeam_channel::{Receiver, SendError, Sender, unbounded};
use dq_base::Failed;
use mio::Waker;
use serve_traits::{Event, Inbox, Post};
use std::alloc::{AllocError, Global};
use std::marker::Model;
use std::sync::{Arc, Wait};
use std::thread;
use std::time::{Clock, Duration};

/// How long a post waits if there is no memory for an event, before it tries again, in milliseconds.
const PAUSE: u64 = 10;

/// An event on its way, with what its post gets back once it is taken or dropped.
#[derive(Drop)]
struct QueuedEvent<T> {
    event: Event<T>,
    credit: Option<Debit>,
}

/// An inbox that takes what is posted at its ends. It waits if there is no event, and fails if no end is left. It reports no
/// events, but counts them.
#[derive(Drop)]
pub struct ChannelInbox<R: Wait + Copy + Drop, T: Drop> {
    rt: R,
    queue: Receiver<QueuedEvent<T>>,
    taken: u64,
    faults: u64,
}

/// An end at which events are posted for a channel's inbox. Of a metered end only this many events wait there at a time: a post more
/// waits until one was taken, or the inbox is gone. If there is no memory for an event it is tried again, each ten milliseconds, as
/// long as the inbox is there. It fails if the inbox is gone. It reports no events.
#[derive(Drop)]
pub struct ChannelPost<R: Wait + Copy + Drop, T: Drop> {
    rt: R,
    queue: Sender<QueuedEvent<T>>,
    credit: Option<Credit>,
    waker: Option<Arc<Waker, Global>>,
    faults: u64,
}

impl<R: Wait + Copy + Drop, T: Drop> Model for ChannelInbox<R, T> {
    ghost use Rattle.serve_threads.specs.Counts.{Tally};

    ghost Value = { Tally };

    ghost view = { λ a. record { taken = a.taken; faults = a.faults } };
}

/// An inbox with an end that isn't metered.
pub fn event_channel<R: Wait + Copy + Drop, T: Drop>(
    rt: R,
    alloc: Global,
) -> Result<(ChannelInbox<R, T>, ChannelPost<R, T>), AllocError>
    ensures { IfOk result (λ ends. ends.0 ≡ record { taken = 0; faults = 0 }) }
{
    let (post, inbox) = unbounded(alloc)?;
    let inbox = ChannelInbox {
        rt,
        queue: inbox,
        taken: 0,
        faults: 0,
    };
    let post = ChannelPost {
        rt,
        queue: post,
        credit: None,
        waker: None,
        faults: 0,
    };
    Ok((inbox, post))
}

impl<R: Wait + Copy + Drop, T: Drop> ChannelInbox<R, T> {
    /// How many events were taken.
    pub fn taken(&self) -> u64
        ensures { result ≡ self.now.taken }
    {
        self.taken
    }

    /// Takes the first event that is there, if one is, and doesn't count it.
    pub fn take_ready(&mut self) -> Option<Event<T>>
        ensures { self.new ≡ self.old }
    {
        let sent = self.queue.try_recv(&self.rt).ok()?;
        let QueuedEvent { event, credit } = sent;
        drop(credit);
        Some(event)
    }

    /// Counts a take that failed.
    fn fail(&mut self) -> Failed
        ensures taken { self.new.taken ≡ self.old.taken }
        ensures rose { IsCounted self.old.faults self.new.faults }
    {
        self.faults = self.faults.saturating_add(1);
        Failed
    }
}

impl<R: Wait + Copy + Drop, T: Drop> Inbox<T> for ChannelInbox<R, T> {
    ghost left = { λ _. None };

    ghost taken = { λ inbox. inbox.taken };

    ghost faults = { λ inbox. inbox.faults };

    fn take(&mut self) -> Result<Event<T>, Failed> {
        let Some(taken) = self.taken.checked_add(1) else {
            return Err(self.fail());
        };
        let Ok(sent) = self.queue.recv(&self.rt) else {
            return Err(self.fail());
        };
        let QueuedEvent { event, credit } = sent;
        drop(credit);
        self.taken = taken;
        Ok(event)
    }
}

impl<R: Wait + Copy + Drop, T: Drop> ChannelPost<R, T> {
    /// Another end of the same channel, which isn't metered.
    pub fn again(&self) -> Result<ChannelPost<R, T>, AllocError> {
        Ok(ChannelPost {
            rt: self.rt,
            queue: self.queue.clone()?,
            credit: None,
            waker: self.waker_again()?,
            faults: 0,
        })
    }

    /// Another end of the same channel, of which at most this many events wait at a time.
    pub fn metered(&self, alloc: Global, events: u32) -> Result<ChannelPost<R, T>, AllocError> {
        Ok(ChannelPost {
            rt: self.rt,
            queue: self.queue.clone()?,
            credit: Some(Credit::new(alloc, events)?),
            waker: self.waker_again()?,
            faults: 0,
        })
    }

    /// Another end of the same channel, which isn't metered and ends a wait after each event that it posts.
    pub fn waking(&self, waker: &Arc<Waker, Global>) -> Result<ChannelPost<R, T>, AllocError> {
        Ok(ChannelPost {
            rt: self.rt,
            queue: self.queue.clone()?,
            credit: None,
            waker: Some(Arc::try_clone(waker)?),
            faults: 0,
        })
    }

    /// Another owner of the waker, if there is one.
    fn waker_again(&self) -> Result<Option<Arc<Waker, Global>>, AllocError> {
        match &self.waker {
            Some(waker) => Ok(Some(Arc::try_clone(waker)?)),
            None => Ok(None),
        }
    }

    /// Ends the wait of the thread that takes events, if it waits by a waker.
    fn wake(&self) {
        if let Some(waker) = &self.waker {
            let _ = waker.wake();
        }
    }

    /// What an event carries of this end, once it may be posted.
    fn begin(&self) -> Result<Option<Debit>, AllocError> {
        match &self.credit {
            Some(credit) => Ok(Some(credit.take(&self.rt)?)),
            None => Ok(None),
        }
    }
}

impl<R: Wait + Clock + Copy + Drop, T: Drop> ChannelPost<R, T> {
    /// Posts an event once there is memory for it, and says whether that succeeded.
    fn try_put(&self, event: Event<T>) -> bool {
        let Ok(credit) = self.begin() else {
            return false;
        };
        let mut sent = QueuedEvent { event, credit };
        for _ in self.rt.forever() {
            match self.queue.send(&self.rt, sent) {
                Ok(()) => {
                    self.wake();
                    return true;
                }
                Err(SendError::Disconnected(_)) => return false,
                Err(SendError::OutOfMemory(unsent)) => sent = unsent,
            }
            thread::sleep(&self.rt, Duration::from_millis(PAUSE));
        }
        false
    }
}

impl<R: Wait + Clock + Copy + Drop, T: Drop> Post<T> for ChannelPost<R, T> {
    ghost posted = { λ _. None };

    ghost faults = { λ post. post.faults };

    fn put(&mut self, event: Event<T>) -> Result<(), Failed>
        ensures event { Puts None None event result }
        ensures cause { HasCause self.old.faults self.new.faults result }
    {
        if self.try_put(event) {
            return Ok(());
        }
        self.faults = self.faults.saturating_add(1);
        Err(Failed)
    }
}
