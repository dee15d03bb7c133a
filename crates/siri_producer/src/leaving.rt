//! The last looks at the subscriptions of a table that count no more, and the marks of keys that are asked for no more.

ghost use Rattle.std.specs.Prelude.{◌≡◌, ◌≤◌, length, map, IfSome};
ghost use Rattle.siri_producer.specs.Leaving.{Leaves, course_left, row_left};
ghost use Rattle.siri_producer.specs.Oldest.{oldest_look};

use siri_responder::Responder;
use siri_store::{MOST_LIVE, Marks};
use siri_subs::Table;
use siri_subscriptions::Course;

/// The most marks of keys that are kept after a settle.
pub(crate) const MOST_MARKS: usize = 40_000;

/// Where the marks are many, those that are handed over, of each key the last, stand in their place: a look since which as
/// many keys were marked as items may be held counts no more, and marks before the oldest of the others go. It takes no
/// memory.
pub(crate) fn leave(responder: &mut Responder, table: &mut Table<Course>, last: Option<Marks>)
    requires number { IfSome last (λ last. last.number ≤ responder.old.marks.number) }
    requires room { IfSome last (λ last. length responder.old.held ≤ last.room) }
    ensures { Leaves last responder.old responder.new table.old table.new }
{
    let Some(last) = last else {
        return;
    };
    leave_looks(table, &last);
    let oldest = oldest_look(table, responder.number());
    responder.put_marks(last, oldest);
}

/// Of each row, as `leave_look` says.
fn leave_looks(table: &mut Table<Course>, marks: &Marks)
    ensures { table.new ≡ map (row_left marks.now.log) table.old }
{
    for place in 0..table.len() {
        let Some(course) = table.at_mut(place) else {
            return;
        };
        leave_look(course, marks);
    }
}

/// A look since which as many keys were marked as items may be held counts no more.
fn leave_look(course: &mut Course, marks: &Marks)
    ensures { course.new ≡ course_left marks.now.log course.old }
{
    let is_gone = match &course.looked {
        Some(looked) => marks.len_since(looked.number) >= MOST_LIVE,
        None => false,
    };
    if is_gone {
        course.looked = None;
    }
}

/// The least number of the last looks at the subscriptions of a table, at most this one.
pub(crate) fn oldest_look(table: &Table<Course>, most: u64) -> u64
    ensures { result ≡ oldest_look most table.now }
{
    let mut oldest = most;
    for place in 0..table.len() {
        let Some(row) = table.at(place) else {
            break;
        };
        if let Some(looked) = &row.slot.looked {
            oldest = oldest.min(looked.number);
        }
    }
    oldest
}
