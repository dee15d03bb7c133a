//! The addresses of hosts' names, each looked up once a minute at most: a look-up has no limit of time.

use crate::limit::Limit;
use siri_base::{Copies, Name};
use std::alloc::Global;
use std::io;
use std::io::ErrorKind;
use std::net::{IpAddr, Ipv4Addr, SocketAddr, ToSocketAddrs};
use std::time::{Duration, Instant};

/// How long is kept what a look-up told, in seconds.
const KEPT_SECONDS: u64 = 60;

/// How many names are known at most; of more the first is forgotten.
const MOST_NAMES: usize = 256;

/// How many addresses of a name are taken.
const MOST_ADDRESSES: usize = 8;

/// The addresses of a name.
#[derive(Clone, Copy, Drop)]
pub(crate) struct Addresses {
    list: [SocketAddr; 8],
    count: usize,
}

impl Addresses {
    /// None yet.
    fn none() -> Addresses {
        Addresses {
            list: [SocketAddr::new(IpAddr::V4(Ipv4Addr::UNSPECIFIED), 0); MOST_ADDRESSES],
            count: 0,
        }
    }

    /// One more, where there is room for it.
    fn add(&mut self, address: SocketAddr) {
        if let Some(place) = self.list.get_mut(self.count) {
            *place = address;
            self.count = self.count.saturating_add(1);
        }
    }

    /// All of them, in order.
    pub(crate) fn all(&self) -> &[SocketAddr] {
        self.list.get(..self.count).unwrap_or(&[])
    }

    /// Whether one of them is of this host.
    fn has(&self, host: IpAddr) -> bool {
        for address in self.all() {
            if address.ip() == host {
                return true;
            }
        }
        false
    }
}

/// What a look-up told, and how long it is kept.
#[derive(Drop)]
struct Known {
    name: Name,
    told: io::Result<Addresses>,
    limit: Limit,
}

/// What look-ups told within the last minute.
#[derive(Drop)]
pub(crate) struct Names {
    list: Vec<Known>,
}

/// Asks the system for the addresses of a name, `HOST:PORT`. There is at least one where it succeeds.
fn looked_up(rt: &HostRuntime, name: &Name) -> io::Result<Addresses> {
    let mut found = Addresses::none();
    for address in name.text().to_socket_addrs(rt)? {
        found.add(address);
    }
    match found.count {
        0 => Err(io::Error::from(ErrorKind::NotFound)),
        _ => Ok(found),
    }
}

/// The address that a text is, where it needs no look-up.
fn literal(name: &Name) -> Option<Addresses> {
    let address = name.text().parse::<SocketAddr>().ok()?;
    let mut found = Addresses::none();
    found.add(address);
    Some(found)
}

impl Names {
    /// None yet.
    pub(crate) fn new(alloc: Global) -> Names {
        Names {
            list: Vec::new(alloc),
        }
    }

    /// What a name's last look-up told, where it is kept.
    fn known(&self, name: &Name) -> Option<io::Result<Addresses>> {
        for known in &self.list {
            if known.name.text() == name.text() {
                return Some(known.told);
            }
        }
        None
    }

    /// The addresses of `HOST:PORT`, or what the system told instead, at most a minute ago.
    pub(crate) fn look_up(&mut self, rt: &HostRuntime, name: &Name) -> io::Result<Addresses> {
        if let Some(found) = literal(name) {
            return Ok(found);
        }
        let now = Instant::now(rt)?;
        self.list.retain(|known: &Known| !known.limit.is_over(now));
        if let Some(told) = self.known(name) {
            return told;
        }
        let told = looked_up(rt, name);
        self.keep(name, told, Instant::now(rt)?);
        told
    }

    /// Keeps what was told just now, where there is memory for it.
    fn keep(&mut self, name: &Name, told: io::Result<Addresses>, now: Instant) {
        if self.list.len() >= MOST_NAMES {
            drop(self.list.remove(0));
        }
        if let Ok(name) = name.copy() {
            let limit = Limit::after(now, Duration::from_secs(KEPT_SECONDS));
            let _ = self.list.push(Known { name, told, limit });
        }
    }

    /// Whether a name is known to be at a host.
    pub(crate) fn is_at(&self, name: &Name, host: IpAddr) -> bool {
        match (literal(name), self.known(name)) {
            (Some(found), _) | (None, Some(Ok(found))) => found.has(host),
            _ => false,
        }
    }
}
