//! The adapters over TCP, the system's clock and the file of the start number.

use siri_base::{Moment, Name};
use siri_ends::{PostAlone, Tally, serve_one};
use siri_outside::{Clock, Keeper, Wire};
use siri_producer::Producer;
use siri_system::{FileKeeper, SystemClock, TcpWire};
use std::fs;
use std::fs::File;
use std::io::ErrorKind;
use std::net::TcpListener;
use std::test::Fail;
use std::time::{Instant, SystemTime};

/// 1 May 2024 at 07:00 in UTC, in milliseconds since 1970, and an hour later.
const SEVEN: i64 = 1_714_546_800_000;

const EIGHT: i64 = SEVEN + 3_600_000;

/// A request for a producer's status.
const CHECK: &str = concat!(
    "POST / HTTP/1.1\r\nHost: a\r\nContent-Length: 34\r\n\r\n",
    r#"{"Siri":{"CheckStatusRequest":{}}}"#
);

/// What `p` answers to it that started at 7 and stands at 8.
const CHECKED: &str = concat!(
    "HTTP/1.1 200 OK\r\nContent-Type: application/json\r\nContent-Length: 153\r\n",
    "Connection: close\r\n\r\n",
    r#"{"Siri":{"CheckStatusResponse":{"ProducerRef":"p","#,
    r#""ResponseTimestamp":"2024-05-01T08:00:00Z","#,
    r#""ServiceStartedTime":"2024-05-01T07:00:00Z","Status":true}}}"#
);

/// Where the test listens. The connection is made before it is accepted, so one thread serves both ends.
const ADDRESS: &str = "127.0.0.1:17113";

/// A request that is whole, so that who sent it has its turn.
const ASKED: &[u8] = b"GET /asked HTTP/1.1\r\n\r\n";

#[test]
fn bytes_go_both_ways_over_tcp(rt: HostRuntime) {
    let address = Name::new(rt.alloc(), ADDRESS).expect(&rt, "a name");
    let mut server = TcpWire::new(rt);
    let mut client = TcpWire::new(rt);
    assert!(rt; server.accept().is_err());
    assert!(rt; client.dial(&address).is_err());
    server.listen(&address).expect(&rt, "a listener");
    client.dial(&address).expect(&rt, "a connection");
    assert_eq!(rt; client.write(ASKED).expect(&rt, "a write"), 23);
    server.accept().expect(&rt, "a connection");
    let mut told = [0u8; 32];
    assert_eq!(rt; server.read(&mut told).expect(&rt, "a read"), 23);
    assert_eq!(rt; told[..23], *ASKED);
    assert_eq!(rt; server.write(b"told").expect(&rt, "a write"), 4);
    server.hang_up();
    assert_eq!(rt; client.read(&mut told).expect(&rt, "a read"), 4);
    assert_eq!(rt; told[..4], *b"told".as_slice());
    assert_eq!(rt; client.read(&mut told).expect(&rt, "the end"), 0);
}

/// As much as a connection takes without being read, and more than is read of one that isn't whole by then.
static LONG: [u8; 30_000] = [0; 30_000];

#[test]
fn who_still_sends_sees_the_answer(rt: HostRuntime) -> Result<(), Fail> {
    let address = Name::new(rt.alloc(), "127.0.0.1:17115")?;
    let mut server = TcpWire::new(rt);
    let mut client = TcpWire::new(rt);
    server.listen(&address)?;
    client.dial(&address)?;
    assert_eq!(rt; client.write(&LONG)?, LONG.len());
    server.accept()?;
    assert_eq!(rt; server.write(b"told")?, 4);
    server.hang_up();
    let mut told = [0u8; 8];
    assert_eq!(rt; client.read(&mut told)?, 4);
    assert_eq!(rt; client.read(&mut told)?, 0);
    Ok(())
}

#[test]
fn who_says_nothing_or_half_holds_nobody_up(rt: HostRuntime) -> Result<(), Fail> {
    let address = Name::new(rt.alloc(), "127.0.0.1:17118")?;
    let mut server = TcpWire::new(rt);
    let mut silent = TcpWire::new(rt);
    let mut slow = TcpWire::new(rt);
    let mut client = TcpWire::new(rt);
    server.listen(&address)?;
    silent.dial(&address)?;
    slow.dial(&address)?;
    assert_eq!(rt;
        slow.write(b"POST / HTTP/1.1\r\nContent-Length: 2\r\n\r\n{")?,
        39
    );
    client.dial(&address)?;
    assert_eq!(rt; client.write(ASKED)?, ASKED.len());
    let begun = Instant::now(&rt)?;
    server.accept()?;
    let mut told = [0u8; 64];
    assert_eq!(rt; server.read(&mut told)?, ASKED.len());
    server.hang_up();
    assert!(rt; begun.elapsed(&rt)?.as_millis() < 1_000);
    assert_eq!(rt; slow.write(b"}")?, 1);
    server.accept()?;
    assert_eq!(rt; server.read(&mut told)?, 40);
    server.hang_up();
    // The one that says nothing has ten seconds, and then no more is waited for.
    server.accept()?;
    assert!(rt; server.read(&mut told).is_err());
    let took = begun.elapsed(&rt)?.as_millis();
    assert!(rt; 9_500 <= took && took < 15_000);
    Ok(())
}

/// How many connections wait at a listener that accepts none is the system's to say, and below this.
const MANY: u32 = 1_000;

/// Dials until that fails, and gives how many milliseconds that took.
fn dial_in_vain(rt: &HostRuntime, client: &mut TcpWire, address: &Name) -> Result<u128, Fail> {
    for _ in 0..MANY {
        let begun = Instant::now(rt)?;
        if client.dial(address).is_err() {
            return Ok(begun.elapsed(rt)?.as_millis());
        }
    }
    Ok(0)
}

#[test]
fn a_host_that_swallows_packets_is_given_up_and_left_alone(rt: HostRuntime) -> Result<(), Fail> {
    let address = Name::new(rt.alloc(), "127.0.0.1:17116")?;
    let listener = TcpListener::bind(&rt, "127.0.0.1:17116")?;
    let mut client = TcpWire::new(rt);
    let took = dial_in_vain(&rt, &mut client, &address)?;
    assert!(rt; 1_900 <= took && took < 10_000);
    let fault = client.fault().ok_or("no fault")?;
    assert!(rt; matches!(fault.kind(), ErrorKind::TimedOut));
    assert!(rt; dial_in_vain(&rt, &mut client, &address)? < 1_000);
    let fault = client.fault().ok_or("no fault")?;
    assert!(rt; matches!(fault.kind(), ErrorKind::HostUnreachable));
    // Somebody comes from its host: it is tried, for a tenth of a second.
    let own = Name::new(rt.alloc(), "127.0.0.1:17119")?;
    let mut other = TcpWire::new(rt);
    client.listen(&own)?;
    other.dial(&own)?;
    assert_eq!(rt; other.write(ASKED)?, ASKED.len());
    client.accept()?;
    client.hang_up();
    client.dial(&address)?;
    let begun = Instant::now(&rt)?;
    assert!(rt; client.read(&mut [0u8; 8]).is_err());
    assert!(rt; begun.elapsed(&rt)?.as_millis() < 1_000);
    client.hang_up();
    assert!(rt; client.dial(&address).is_err());
    drop(listener);
    Ok(())
}

#[test]
fn the_system_says_why(rt: HostRuntime) -> Result<(), Fail> {
    let address = Name::new(rt.alloc(), "127.0.0.1:17117")?;
    let mut first = TcpWire::new(rt);
    let mut second = TcpWire::new(rt);
    first.listen(&address)?;
    assert!(rt; first.fault().is_none());
    assert!(rt; second.listen(&address).is_err());
    let fault = second.fault().ok_or("no fault")?;
    assert!(rt; matches!(fault.kind(), ErrorKind::AddrInUse));
    Ok(())
}

/// Accepts a connection and serves it.
fn serve_next(rt: &HostRuntime, wire: &mut TcpWire) -> Result<Tally, Fail> {
    let alloc = rt.alloc();
    wire.accept()?;
    let started = Moment::new(SEVEN).ok_or("no moment")?;
    let now = Moment::new(EIGHT).ok_or("no moment")?;
    let mut tally = Tally::new();
    let mut producer = Producer::new(alloc, Name::new(alloc, "p")?, 1, started)?;
    producer.clock(now);
    let served = serve_one::<TcpWire, PostAlone>(alloc, wire, &mut producer, &mut tally);
    drop(producer);
    served?;
    Ok(tally)
}

#[test]
fn a_request_is_served_over_tcp(rt: HostRuntime) -> Result<(), Fail> {
    let address = Name::new(rt.alloc(), "127.0.0.1:17114")?;
    let mut server = TcpWire::new(rt);
    let mut client = TcpWire::new(rt);
    server.listen(&address)?;
    client.dial(&address)?;
    assert_eq!(rt; client.write(CHECK.as_bytes())?, CHECK.len());
    let tally = serve_next(&rt, &mut server)?;
    assert_eq!(rt;
        [tally.served, tally.refused, tally.dropped, tally.unsent],
        [1, 0, 0, 0]
    );
    let mut told = [0u8; 512];
    let count = client.read(&mut told)?;
    assert_eq!(rt; told[..count], *CHECKED.as_bytes());
    Ok(())
}

/// The moment at which the system says that a file was written, in milliseconds since 1970.
fn written_at(rt: &HostRuntime, file: &str) -> Result<i64, Fail> {
    let written = fs::metadata(rt, file)?.modified()?;
    let since = written
        .duration_since(SystemTime::UNIX_EPOCH)
        .ok()
        .ok_or("before 1970")?;
    Ok(i64::try_from(since.as_millis()).ok().ok_or("too late")?)
}

#[test]
fn the_clock_is_that_of_files(rt: HostRuntime) -> Result<(), Fail> {
    let mut clock = SystemClock::new(rt);
    let first = clock.now()?;
    fs::write(&rt, "siri-moment", "")?;
    let written = written_at(&rt, "siri-moment")?;
    let second = clock.now()?;
    assert!(rt; first.ms().saturating_sub(1_000) <= written);
    assert!(rt; written <= second.ms().saturating_add(1_000));
    fs::remove_file(&rt, "siri-moment")?;
    Ok(())
}

#[test]
fn the_number_rises_from_start_to_start(rt: HostRuntime) {
    let mut keeper = FileKeeper::new(rt);
    for (kept, given) in [
        ("", None),
        ("7", None),
        ("x\n", None),
        ("99999999999\n", None),
        ("7\n", Some(8)),
        ("007\n", Some(8)),
    ] {
        fs::write(&rt, "siri-start", kept).expect(&rt, "a file");
        assert_eq!(rt; keeper.raise().ok(), given);
    }
    assert_eq!(rt; FileKeeper::new(rt).raise().ok(), Some(9));
    fs::remove_file(&rt, "siri-start").expect(&rt, "no file");
    assert_eq!(rt; keeper.raise().ok(), Some(1));
}

#[test]
fn the_keeper_says_why_and_lets_go_of_its_lock(rt: HostRuntime) -> Result<(), Fail> {
    let mut keeper = FileKeeper::new(rt);
    fs::write(&rt, "siri-start", "x\n")?;
    assert!(rt; keeper.fault().is_none());
    assert!(rt; keeper.raise().is_err());
    let fault = keeper.fault().ok_or("no fault")?;
    assert!(rt; matches!(fault.kind(), ErrorKind::InvalidData));
    assert!(rt; File::open(&rt, "siri-start.lock")?.try_lock().is_ok());
    fs::remove_file(&rt, "siri-start")?;
    Ok(())
}
