//! DataReceivedAcknowledgement.

ghost use Rattle.std.specs.Prelude.{◌≡◌, ◌↔◌, true, Some};
ghost use Rattle.siri_model.specs.Rows.{rows_acknowledged};
ghost use Rattle.siri_subscriptions.specs.Courses.{kept_rows};
ghost use Rattle.siri_subscriptions.specs.Noted.{looked_in};
ghost use Rattle.siri_subscriptions.specs.Acknowledgements.{counts, counts_by};

use crate::course::Course;
use siri_base::{Moment, Name, Place};
use siri_messages::{DataReceivedAcknowledgement, Mark};
use siri_subs::{Table, Taken};

/// Takes an acknowledgement at a moment, in a start of the producer. It counts exactly where its Status is true, it has
/// a ConsumerRef and a mark, the subscription is held under the mark's number, and start, round and part are those
/// wanted; the next part is wanted then, or after the last none. Otherwise nothing changes. It takes no memory.
pub fn acknowledge(
    table: &mut Table<Course>,
    start: u64,
    now: Moment,
    message: &DataReceivedAcknowledgement,
) -> Taken
    ensures taken { (result ≡ Taken.Taken) ↔ (counts start message.now (kept_rows table.old) ≡ true) }
    ensures rows { kept_rows table.new ≡ rows_acknowledged start now message.now.status message.now.consumer_ref message.now.extensions (kept_rows table.old) }
    ensures looked { looked_in table.new ≡ looked_in table.old }
{
    if !message.status {
        return Taken::NotThis;
    }
    match (&message.consumer_ref, &message.extensions) {
        (Some(consumer), Some(mark)) => acknowledge_part(table, start, now, consumer, mark),
        _ => Taken::NotThis,
    }
}

/// The part that a mark names is acknowledged by a consumer.
fn acknowledge_part(
    table: &mut Table<Course>,
    start: u64,
    now: Moment,
    consumer: &Name,
    mark: &Mark,
) -> Taken
    ensures taken { (result ≡ Taken.Taken) ↔ (counts_by start true (Some consumer.now) (Some mark.now) (kept_rows table.old) ≡ true) }
    ensures rows { kept_rows table.new ≡ rows_acknowledged start now true (Some consumer.now) (Some mark.now) (kept_rows table.old) }
    ensures looked { looked_in table.new ≡ looked_in table.old }
{
    let Some(place) = table.place_of(consumer, &mark.subscription) else {
        return Taken::NotThis;
    };
    match table.at(place) {
        Some(row) if mark.number == row.number && mark.start == start => {}
        _ => return Taken::NotThis,
    }
    match table.at_mut(place) {
        Some(course) => course.rounds.acknowledge(
            Place {
                round: mark.round,
                part: mark.part,
            },
            now,
        ),
        None => Taken::NotThis,
    }
}
