//! What a log tells, and how: a line of words or an object of JSON for each connection, and for each change of whom is
//! left alone.

use crate::clock::system_moment;
use crate::gone::Change;
use crate::traffic::{Shown, Traffic};
use siri_base::Moment;
use siri_time::write_moment;
use std::io::Write;
use std::net::SocketAddr;
use std::time::Instant;
use std::{io, str};

/// How what becomes of connections is told.
#[derive(Clone, Copy, PartialEq, Eq, Drop)]
pub enum Telling {
    /// Not at all.
    Nothing,
    /// In lines of words.
    Lines,
    /// In objects of JSON (RFC 8259), one a line.
    Objects,
}

/// Who began a connection.
#[derive(Clone, Copy, PartialEq, Eq, Drop)]
pub(crate) enum Way {
    Accepted,
    Dialled,
}

impl Way {
    /// Its word.
    fn word(self) -> &'static str {
        match self {
            Way::Accepted => "accepted",
            Way::Dialled => "dialled",
        }
    }
}

/// What is known of a connection.
#[derive(Clone, Copy, Drop)]
pub(crate) struct Logged {
    pub(crate) way: Way,
    pub(crate) begun: Begun,
    pub(crate) peer: Option<SocketAddr>,
    pub(crate) came: Traffic,
    pub(crate) went: Traffic,
    pub(crate) fault: Option<io::Error>,
}

/// When something began, where the system's clocks tell it.
#[derive(Clone, Copy, Drop)]
pub(crate) struct Begun {
    moment: Option<Moment>,
    since: Option<Instant>,
}

impl Begun {
    /// It begins now.
    pub(crate) fn now(rt: &HostRuntime) -> Begun {
        Begun {
            moment: system_moment(rt),
            since: Instant::now(rt).ok(),
        }
    }

    /// It began at this moment of the system's other clock, where that is known.
    pub(crate) fn at(rt: &HostRuntime, since: Option<Instant>) -> Begun {
        let now = Begun::now(rt);
        match (now.moment, since) {
            (Some(moment), Some(since)) => {
                let begun = Begun {
                    moment: None,
                    since: Some(since),
                };
                let ago = i64::try_from(begun.milliseconds(rt)).unwrap_or(0);
                Begun {
                    moment: Moment::new(moment.ms().saturating_sub(ago)),
                    since: Some(since),
                }
            }
            _ => now,
        }
    }

    /// How many milliseconds ago it began; 0 where that isn't known.
    fn milliseconds(&self, rt: &HostRuntime) -> u128 {
        match (self.since, Instant::now(rt)) {
            (Some(since), Ok(now)) => now.duration_since(since).as_millis(),
            _ => 0,
        }
    }
}

impl Telling {
    /// Tells of a connection that ends.
    pub(crate) fn end(self, rt: &HostRuntime, connection: &Logged) {
        let _ = match self {
            Telling::Nothing => Ok(()),
            Telling::Lines => write_line(rt, connection),
            Telling::Objects => write_object(rt, connection),
        };
    }

    /// Tells of a connection to an address that wasn't made.
    pub(crate) fn failure(
        self,
        rt: &HostRuntime,
        begun: &Begun,
        address: &str,
        fault: Option<io::Error>,
    ) {
        let address = Shown(address.as_bytes());
        let _ = match self {
            Telling::Nothing => Ok(()),
            Telling::Lines => write_failure(rt, begun, &address, fault),
            Telling::Objects => write_failure_object(rt, begun, &address, fault),
        };
    }

    /// Tells of an address that is left alone from now on, or answers again.
    pub(crate) fn change(self, rt: &HostRuntime, change: &Change) {
        let _ = match self {
            Telling::Nothing => Ok(()),
            Telling::Lines => write_change(rt, change),
            Telling::Objects => write_change_object(rt, change),
        };
    }
}

/// The moment at which something began, as a text: `-` where the system's clock told none.
fn write_moment_of(rt: &HostRuntime, begun: &Begun) -> io::Result<()> {
    let mut text = [0u8; 24];
    let length = match begun.moment {
        Some(moment) => write_moment(moment, &mut text),
        None => 0,
    };
    let told = text.get(..length).unwrap_or(&[]);
    write!(rt.stderr(), "{}", str::from_utf8(told).unwrap_or("-"))
}

/// The peer of a connection: `-` where it isn't known.
fn write_peer(rt: &HostRuntime, peer: Option<SocketAddr>) -> io::Result<()> {
    match peer {
        Some(peer) => write!(rt.stderr(), "{peer}"),
        None => write!(rt.stderr(), "-"),
    }
}

/// What was asked over a connection, and what was answered.
fn asked_and_answered(connection: &Logged) -> (&Traffic, &Traffic) {
    match connection.way {
        Way::Accepted => (&connection.came, &connection.went),
        Way::Dialled => (&connection.went, &connection.came),
    }
}

/// The line of a connection.
fn write_line(rt: &HostRuntime, connection: &Logged) -> io::Result<()> {
    let (asked, answered) = asked_and_answered(connection);
    write_moment_of(rt, &connection.begun)?;
    write!(rt.stderr(), " {} ", connection.way.word())?;
    write_peer(rt, connection.peer)?;
    let (question, answer) = (asked.first_line(), answered.first_line());
    let (came, went) = (connection.came.bytes(), connection.went.bytes());
    write!(
        rt.stderr(),
        " \"{question}\" \"{answer}\" in {came} out {went} bytes"
    )?;
    write_duration(rt, &connection.begun, connection.fault)?;
    match answered.reason() {
        Some(reason) => writeln!(rt.stderr(), ": {reason}"),
        None => writeln!(rt.stderr()),
    }
}

/// The line of a connection that wasn't made.
fn write_failure(
    rt: &HostRuntime,
    begun: &Begun,
    address: &Shown<'_>,
    fault: Option<io::Error>,
) -> io::Result<()> {
    write_moment_of(rt, begun)?;
    write!(rt.stderr(), " dialled {address}")?;
    write_duration(rt, begun, fault)?;
    writeln!(rt.stderr())
}

/// The line of an address that is left alone, or answers again.
fn write_change(rt: &HostRuntime, change: &Change) -> io::Result<()> {
    write_moment_of(rt, &Begun::now(rt))?;
    match change {
        Change::Alone(address, seconds) => {
            let address = Shown(address.text().as_bytes());
            writeln!(rt.stderr(), " left alone {address} for {seconds} s")
        }
        Change::Back(address) => {
            let address = Shown(address.text().as_bytes());
            writeln!(rt.stderr(), " answers again {address}")
        }
    }
}

/// What the system told last where a call failed, and how long it took.
fn write_duration(rt: &HostRuntime, begun: &Begun, fault: Option<io::Error>) -> io::Result<()> {
    if let Some(fault) = fault {
        write!(rt.stderr(), " failed: {fault}")?;
    }
    write!(rt.stderr(), ", {} ms", begun.milliseconds(rt))
}

/// The object of a connection.
fn write_object(rt: &HostRuntime, connection: &Logged) -> io::Result<()> {
    let (asked, answered) = asked_and_answered(connection);
    write_beginning(rt, &connection.begun, connection.way.word())?;
    write_peer(rt, connection.peer)?;
    let (question, answer) = (asked.first_line(), answered.first_line());
    let (came, went) = (connection.came.bytes(), connection.went.bytes());
    write!(
        rt.stderr(),
        "\",\"request\":\"{question}\",\"response\":\"{answer}\",\"in\":{came},\"out\":{went}"
    )?;
    write_duration_member(rt, &connection.begun, connection.fault)?;
    if let Some(reason) = answered.reason() {
        write!(rt.stderr(), ",\"refused\":\"{reason}\"")?;
    }
    writeln!(rt.stderr(), "}}")
}

/// The object of a connection that wasn't made.
fn write_failure_object(
    rt: &HostRuntime,
    begun: &Begun,
    address: &Shown<'_>,
    fault: Option<io::Error>,
) -> io::Result<()> {
    write_beginning(rt, begun, "dialled")?;
    write!(rt.stderr(), "{address}\"")?;
    write_duration_member(rt, begun, fault)?;
    writeln!(rt.stderr(), "}}")
}

/// The object of an address that is left alone, or answers again.
fn write_change_object(rt: &HostRuntime, change: &Change) -> io::Result<()> {
    let begun = Begun::now(rt);
    match change {
        Change::Alone(address, seconds) => {
            write_beginning(rt, &begun, "left alone")?;
            let address = Shown(address.text().as_bytes());
            writeln!(rt.stderr(), "{address}\",\"seconds\":{seconds}}}")
        }
        Change::Back(address) => {
            write_beginning(rt, &begun, "answers again")?;
            let address = Shown(address.text().as_bytes());
            writeln!(rt.stderr(), "{address}\"}}")
        }
    }
}

/// The first members of an object, up to the name of the peer's.
fn write_beginning(rt: &HostRuntime, begun: &Begun, way: &str) -> io::Result<()> {
    write!(rt.stderr(), "{{\"at\":\"")?;
    write_moment_of(rt, begun)?;
    write!(rt.stderr(), "\",\"way\":\"{way}\",\"peer\":\"")
}

/// The same as members of an object: what the system told last where a call failed, and how long it took.
fn write_duration_member(
    rt: &HostRuntime,
    begun: &Begun,
    fault: Option<io::Error>,
) -> io::Result<()> {
    if let Some(fault) = fault {
        write!(rt.stderr(), ",\"failed\":\"{fault}\"")?;
    }
    write!(rt.stderr(), ",\"milliseconds\":{}", begun.milliseconds(rt))
}
