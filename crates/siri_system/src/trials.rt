//! Messages whose answers weren't waited for any longer. They go on beside: an answer that still comes tells that its
//! address is there, and nothing else of it is used.

use crate::connection::{Connection, Whose};
use crate::gone::GoneList;
use crate::limit::{Limit, shorter};
use crate::message::Message;
use crate::stream::would_wait;
use mio::Registry;
use siri_base::Name;
use std::alloc::Global;
use std::time::{Duration, Instant};

/// How long an answer is waited for beside, in seconds.
const TRIAL_SECONDS: u64 = 10;

/// How many pieces of 16 KiB are taken of one answer before the others are looked at.
const MOST_PIECES: u32 = 64;

/// How many are kept at most; of more the first is closed.
const MOST_TRIALS: usize = 64;

/// What became of a message.
#[derive(Clone, Copy, PartialEq, Eq)]
enum Fate {
    /// It isn't decided.
    Open,
    /// It was answered.
    Answered,
    /// It wasn't.
    Failed,
}

/// A message whose answer isn't waited for, and when its time is over.
#[derive(Drop)]
struct Trial {
    connection: Connection,
    answer: Message,
    limit: Limit,
    outcome: Fate,
}

impl Trial {
    /// Sends and takes what it can.
    fn go_on(&mut self, registry: &Registry, now: Instant) {
        self.outcome = if self.connection.push().is_err() {
            Fate::Failed
        } else {
            self.hear()
        };
        if self.outcome == Fate::Open
            && (self.limit.is_over(now) || self.connection.watch(registry).is_err())
        {
            self.outcome = Fate::Failed;
        }
    }

    /// Takes what came of the answer.
    fn hear(&mut self) -> Fate {
        let mut piece = [0u8; 16_384];
        for _ in 0..MOST_PIECES {
            match self.connection.take(&mut piece) {
                Ok(0) => return Fate::Failed,
                Ok(count) => {
                    let came = piece.get(..count).unwrap_or(&[]);
                    if self.answer.take(came).is_err() {
                        return Fate::Failed;
                    }
                }
                Err(error) if would_wait(&error) => return Fate::Open,
                Err(_) => return Fate::Failed,
            }
            if self.answer.is_whole() {
                return Fate::Answered;
            }
        }
        Fate::Open
    }

    /// Tells what became of it.
    fn tell(&self, gone: &mut GoneList, now: Instant) {
        match (&self.connection.whose, self.outcome) {
            (Whose::Ours(address) | Whose::Tried(address), Fate::Answered) => {
                gone.answered(address);
            }
            (Whose::Tried(address), Fate::Failed) => {
                let took = now.duration_since(self.connection.begun);
                gone.failed(address, took, now);
            }
            _ => {}
        }
    }
}

/// Messages whose answers aren't waited for.
#[derive(Drop)]
pub(crate) struct Trials {
    alloc: Global,
    list: Vec<Trial>,
}

impl Trials {
    /// None yet.
    pub(crate) fn new(alloc: Global) -> Trials {
        Trials {
            alloc,
            list: Vec::new(alloc),
        }
    }

    /// One more.
    pub(crate) fn add(&mut self, connection: Connection, now: Instant) {
        if self.list.len() >= MOST_TRIALS {
            drop(self.list.remove(0));
        }
        let _ = self.list.push(Trial {
            connection,
            answer: Message::new(self.alloc),
            limit: Limit::after(now, Duration::from_secs(TRIAL_SECONDS)),
            outcome: Fate::Open,
        });
    }

    /// Whether one of an address is under way.
    pub(crate) fn has(&self, address: &Name) -> bool {
        for trial in &self.list {
            if let Whose::Ours(asked) | Whose::Tried(asked) = &trial.connection.whose
                && asked.text() == address.text()
            {
                return true;
            }
        }
        false
    }

    /// Sends and takes what can be, and tells what became of those that are decided.
    pub(crate) fn look(&mut self, gone: &mut GoneList, registry: &Registry, now: Instant) {
        for trial in self.list.iter_mut() {
            trial.go_on(registry, now);
            trial.tell(gone, now);
        }
        self.list
            .retain(|trial: &Trial| trial.outcome == Fate::Open);
    }

    /// How long nothing needs to be done where nothing happens, where there is such a time.
    pub(crate) fn rest(&self, now: Instant) -> Option<Duration> {
        let mut rest = None;
        for trial in &self.list {
            rest = shorter(rest, Some(trial.limit.left(now)));
        }
        rest
    }

    /// Time in which this end didn't look isn't counted.
    pub(crate) fn lengthen(&mut self, by: Duration) {
        for trial in self.list.iter_mut() {
            trial.limit.lengthen(by);
        }
    }
}
