//! Time, for a node.

ghost use Rattle.std.specs.Prelude.{◌≤◌, ◌<◌};

use crate::channel::ChannelPost;
use crate::leader_contact::LeaderContact;
use serve_traits::{Event, Post};
use std::sync::Wait;
use std::thread;
use std::time::{Clock, Duration};

/// The time between two Beats, in milliseconds.
const BEAT: u64 = 100;

/// The shortest time until the Timeout of a node that heard of no leader, and what a random part adds to it at most, in
/// milliseconds.
const PATIENCE: u64 = 1_000;

/// After how many heartbeats without an acknowledgement of a majority a leader gives up: two seconds.
const MAX_UNACKED_BEATS: u64 = 20;

/// Posts a heartbeat every 100 ms; a Timeout once the node answered no leader and gave no vote for 1,000 to 1,999 ms, again by chance each time;
/// and a Yield once the node leads and no majority of the voters has acknowledged for two seconds. Each of these times counts heartbeats, so it
/// pauses while a step is long.
#[derive(Drop)]
pub struct Ticker<R: Wait + Clock + Copy + Drop, T: Drop> {
    /// For its clock.
    pub rt: R,
    /// Where events go; it should be metered, so that no Beats gather while a step is long.
    pub post: ChannelPost<R, T>,
    /// What the node noted.
    pub heard: LeaderContact,
    /// Where the random words begin.
    pub word: u64,
}

impl<R: Wait + Clock + Copy + Drop, T: Drop> Ticker<R, T> {
    /// Ticks until the post fails.
    pub fn run(mut self) {
        let mut left = self.patience();
        let mut unacked = 0;
        for _ in 0..u64::MAX {
            thread::sleep(&self.rt, Duration::from_millis(BEAT));
            if !self.posts(Event::Beat) {
                return;
            }
            self.heard.count_beat();
            left = self.left_after(left);
            if left == 0 {
                if !self.posts(Event::Timeout) {
                    return;
                }
                left = self.patience();
            }
            unacked = self.unacked_after(unacked);
            if unacked == MAX_UNACKED_BEATS {
                if !self.posts(Event::Yield) {
                    return;
                }
                unacked = 0;
                left = self.patience();
            }
        }
    }

    /// Posts an event, and says whether the post still takes some.
    fn posts(&mut self, event: Event<T>) -> bool {
        self.post.put(event).is_ok()
    }

    /// The time until the next Timeout after a heartbeat more, in milliseconds. It begins again if something was heard.
    fn left_after(&mut self, left: u64) -> u64 {
        if self.heard.take() {
            return self.patience();
        }
        left.saturating_sub(BEAT)
    }

    /// For how many heartbeats no majority has acknowledged, after one more.
    fn unacked_after(&self, unacked: u64) -> u64 {
        if self.heard.take_majority() {
            return 0;
        }
        unacked.saturating_add(1)
    }

    /// The time until the next Timeout, in milliseconds.
    fn patience(&mut self) -> u64
        ensures { (1000 ≤ result) × (result < 2000) }
    {
        self.word = self
            .word
            .wrapping_mul(6_364_136_223_846_793_005)
            .wrapping_add(1_442_695_040_888_963_407);
        PATIENCE + (self.word >> 33) % PATIENCE
    }
}
