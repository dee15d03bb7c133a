//! The system's clock.

ghost use Rattle.std.specs.Prelude.{None, ◌≡◌};

use siri_base::Moment;
use siri_outside::{Clock, Failed};
use std::time::SystemTime;

/// The system's clock. It fails before 1970, after the year 9999, and where the system does.
#[derive(Drop)]
pub struct SystemClock {
    rt: HostRuntime,
    faults: u64,
}

impl SystemClock {
    /// The clock of this system.
    pub fn new(rt: HostRuntime) -> SystemClock
        ensures faults { ⟦<SystemClock as Clock>⟧.faults result ≡ 0 }
    {
        SystemClock { rt, faults: 0 }
    }
}

/// The system's moment, cut to milliseconds.
pub(crate) fn system_moment(rt: &HostRuntime) -> Option<Moment> {
    let now = SystemTime::now(rt).ok()?;
    let since = now.duration_since(SystemTime::UNIX_EPOCH).ok()?;
    Moment::new(i64::try_from(since.as_millis()).ok()?)
}

impl Clock for SystemClock {
    ghost tells = { λ c. None };

    ghost faults = { λ c. c.faults };

    fn now(&mut self) -> Result<Moment, Failed> {
        match system_moment(&self.rt) {
            Some(moment) => Ok(moment),
            None => {
                self.faults = self.faults.saturating_add(1);
                Err(Failed)
            }
        }
    }
}
