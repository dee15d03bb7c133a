//! The subscription that a line of a script asks for.

ghost use Rattle.std.specs.Prelude.{◌≡◌, ◌++◌, IfOk};
ghost use Rattle.siri_json.specs.Shown.{shown};
ghost use Rattle.siri_tables.specs.Refusals.{Gives};
ghost use Rattle.siri_wire.specs.Wanted.{only_wanted, requested_root, requested_of, wanted_of, wanted_error, IsWanted};

use crate::Refusal;
use crate::read_subscriptions::{RequestedSubscriptions, read_requested_rows};
use siri_base::{Copies, List, Name, OutOfMemory, Reason, Span};
use siri_json::{Path, Scratch, Tree, TreeError, read_tree};
use siri_tables::TableError;
use siri_tables::refusal::refuse;
use siri_topic::Subscription;
use std::alloc::Global;
use thiserror::Error;

/// A subscription that a consumer wants.
#[derive(Drop)]
pub struct Wanted {
    /// The subscription; its subscriber is the consumer.
    pub subscription: Subscription,
    /// How often a heartbeat is requested (HeartbeatInterval); zero where none is.
    pub beat: Span,
}

/// Why a text gave no subscription.
#[derive(Debug, Drop, Error)]
pub enum WantedError {
    /// The text is refused: the first refusal in the order of the tables, depth first.
    #[error("the text is refused")]
    Refused(Refusal),
    /// It asks for more than one subscription.
    #[error("more than one subscription")]
    WrongMessage,
    /// There was no memory.
    #[error("out of memory")]
    OutOfMemory,
}

impl From<TableError> for WantedError {
    ghost from_gives = { λ error given. given ≡ wanted_error error };

    fn from(error: TableError) -> Self {
        match error {
            TableError::Refused { path, reason } => WantedError::Refused(Refusal { path, reason }),
            TableError::OutOfMemory => WantedError::OutOfMemory,
        }
    }
}

impl From<OutOfMemory> for WantedError {
    ghost use Rattle.siri_wire.specs.declared.wanted.WantedError.TheVariants.{OutOfMemory as NoMemory};

    ghost from_gives = { λ _ error. error ≡ NoMemory };

    fn from(_: OutOfMemory) -> Self {
        WantedError::OutOfMemory
    }
}

/// What the root of a text asks for in the name of this subscriber; `WrongKind` where it is no object.
#[tactic(auto, unfolding(crate::specs::Wanted::requested_root))]
fn requested_root(
    alloc: Global,
    tree: &Tree<'_>,
    subscriber: &Name,
) -> Result<RequestedSubscriptions, TableError>
    ensures { Gives result (requested_root subscriber.now (shown tree.now)) }
{
    match tree {
        Tree::Object(_) => read_requested_rows(alloc, tree, &Some(subscriber.copy()?)),
        _ => refuse(alloc, Reason::WrongKind),
    }
}

/// What a text asks for in the name of this subscriber; `TooLong` and `NotJson` come before all other refusals.
#[tactic(auto, unfolding(crate::specs::Wanted::requested_of))]
fn requested_of(
    alloc: Global,
    text: &[u8],
    subscriber: &Name,
) -> Result<RequestedSubscriptions, TableError>
    ensures { Gives result (requested_of text.now subscriber.now) }
{
    let mut scratch = Scratch::new(alloc);
    match read_tree(alloc, text, &mut scratch) {
        Ok(tree) => requested_root(alloc, &tree, subscriber),
        Err(TreeError::TooLong) => refuse(alloc, Reason::TooLong),
        Err(TreeError::NotJson) => refuse(alloc, Reason::NotJson),
        Err(TreeError::OutOfMemory) => Err(TableError::OutOfMemory),
    }
}

/// The subscriptions of all services.
fn all_of(
    stops: List<Subscription>,
    timetables: List<Subscription>,
    vehicles: List<Subscription>,
    situations: List<Subscription>,
) -> Result<Vec<Subscription>, OutOfMemory>
    ensures { IfOk result (λ all. all.items ≡ stops ++ timetables ++ vehicles ++ situations) }
{
    let mut all = stops.into_vec();
    all.append(&mut timetables.into_vec())?;
    all.append(&mut vehicles.into_vec())?;
    all.append(&mut situations.into_vec())?;
    Ok(all)
}

/// The only one of these subscriptions, as its subscriber's own.
fn only_wanted(
    alloc: Global,
    subscriber: Name,
    beat: Option<Span>,
    mut all: Vec<Subscription>,
) -> Result<Wanted, WantedError>
    ensures { IsWanted result (only_wanted subscriber beat all.items) }
{
    if all.len() > 1 {
        return Err(WantedError::WrongMessage);
    }
    match all.pop() {
        Some(mut subscription) => {
            subscription.subscriber = subscriber;
            Ok(Wanted {
                subscription,
                beat: beat.unwrap_or(Span::zero()),
            })
        }
        None => Err(WantedError::Refused(Refusal {
            path: Path::new(alloc),
            reason: Reason::NotCarried,
        })),
    }
}

/// The subscription that a text asks for in the name of this subscriber: an object with exactly one subscription under
/// the name of its service's list (EN 15531-2, SubscriptionRequest), and with SubscriptionContext or without; other
/// members are passed over. Its subscriber is this one, whoever it names. Refused as [`decode`](crate::decode) refuses,
/// with paths from the text's own root, and `NotCarried` there where it has no subscription. `WrongMessage` exactly
/// where nothing is refused and it has more than one.
#[tactic(auto, unfolding(crate::specs::Wanted::wanted_of))]
pub fn decode_wanted(alloc: Global, bytes: &[u8], subscriber: &Name) -> Result<Wanted, WantedError>
    ensures { IsWanted result (wanted_of bytes.now subscriber.now) }
{
    let requested = requested_of(alloc, bytes, subscriber)?;
    let all = all_of(
        requested.stops,
        requested.timetables,
        requested.vehicles,
        requested.situations,
    )?;
    only_wanted(alloc, subscriber.copy()?, requested.heartbeat_interval, all)
}
