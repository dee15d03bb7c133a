//! The system as the outside of a run: connections over TCP, the system's clock, the start number and rows in files.
//!
//! ```text
//!   a run  -->  Wire    [`TcpWire`]      mio, and [`LoggedWire`] over it
//!          -->  Clock   [`SystemClock`]  std::time
//!          -->  Keeper  [`FileKeeper`]   std::fs, the files `siri-start` and `siri-start.lock`
//!          -->  Shelf   [`FileShelf`]    sqlite: one table `shelf`, a row of it for each row
//! ```
//!
//! These are the trusted edge. They raise a count at each failure and tell nothing of what a socket, a clock or a file
//! holds; a wire, a keeper and a shelf keep the last error, for whoever tells it in the system's words. Standard input,
//! output and error have their adapters in `siri_outside`.
//!
//! A run knows one connection at a time, which it accepts or dials, reads, writes and hangs up. What a wire does beside
//! it goes on whenever it waits, in one thread:
//!
//! ```text
//!   clients       -->  door  --accept-->  connection  --hang up-->  farewells   until the answer is taken
//!   asked by us   <------------dial-------------/ \ --late-------->  trials      until an answer comes beside
//!                                                                      |
//!                        gone  <---------------------------------------+        who is left alone, and until when
//! ```
//!
//! `message` says when a request is whole, `names` keeps what look-ups told, `limit` is a moment at which time is over,
//! `stream` a connection whose calls don't wait, and `beside` holds it all, and is the one place in which it is waited.
//! Whose turn it is, how long is waited for whom, and who is left alone is decided here and said in no clause: a run
//! speaks of connections in the order in which they are accepted and dialled, and never of when.
//!
//! A `LoggedWire` tells what becomes of each connection, where that is asked for.
//!
//! Each write of the shelf is one transaction, which is on the disk before the call ends. Each call of the database
//! stands in one function over any store, which says nothing of it, so that no proof carries what it says. All goes
//! through one call of `opened`, since each function that names a database in a file takes long to prove.
//!
//! Stands on `siri_outside`, and on `siri_time` for the texts of moments. It knows no message and no HTTP but where a head
//! ends and what it says of its body's length.
#![tactic(auto)]

mod beside;
mod clock;
mod connection;
mod database;
mod door;
mod farewells;
mod file_shelf;
mod gone;
mod keeper;
mod limit;
mod logged;
mod message;
mod names;
mod opened;
mod stream;
mod telling;
mod traffic;
mod trials;
mod wire;
mod writing;

pub use clock::SystemClock;
pub use file_shelf::FileShelf;
pub use keeper::FileKeeper;
pub use logged::LoggedWire;
pub use telling::Telling;
pub use wire::TcpWire;
