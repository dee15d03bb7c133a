//! A settle of the whole table.

ghost use Rattle.std.specs.Prelude.{◌≡◌, ◌≤◌, ◌<◌, ◌+◌, ◌^◌, map, length, IfOk, OnOk, OnErr};
ghost use Rattle.siri_model.specs.Followed.{look_bounds};
ghost use Rattle.siri_subscriptions.specs.Courses.{kept_rows, KnowLevels};
ghost use Rattle.siri_subscriptions.specs.Due.{AreDue};
ghost use Rattle.siri_subscriptions.specs.Looked.{AllFollow, followed_rows};
ghost use Rattle.siri_subscriptions.specs.Sends.{at_of, table_sends};
ghost use Rattle.siri_subscriptions.specs.Settled.{settled_row};
ghost use Rattle.siri_subs.specs.Table.{most_subscriptions};

use crate::Out;
use crate::course::Course;
use crate::due::{Due, do_due, find_due};
use crate::touched::Touched;
use siri_base::{List, OutOfMemory};
use siri_responder::Responder;
use siri_subs::Table;
use std::alloc::Global;

/// What a settle sends, and what it does to each row of the table.
#[derive(Drop)]
struct Plan {
    outs: List<Out>,
    dues: Vec<Due>,
}

/// Settles: each subscription of the table in its order looks, opens a round where one is due, and sends the message of
/// its wanted part and then a heartbeat, where they are due. It gives what is sent. Rows that looked get the number
/// after the responder's: under it keys are to be marked from now on. Of the responder nothing but the counter of
/// steps changes, and that by no more than the looks may read. After want of memory the table is as it was.
pub fn settle(
    alloc: Global,
    responder: &mut Responder,
    table: &mut Table<Course>,
) -> Result<List<Out>, OutOfMemory>
    requires follows { AllFollow responder.old table.old }
    requires numbers { responder.old.marks.number + 1 < 2 ^ 64 }
    ensures sends { IfOk result (λ outs. outs ≡ table_sends (at_of responder.old) responder.old.held (kept_rows table.old)) }
    ensures table { OnOk result (table.new ≡ map (settled_row responder.old.moment responder.old.held (responder.old.marks.number + 1)) table.old) }
    ensures levels { OnOk result (KnowLevels responder.old.moment responder.old.held table.new) }
    ensures err { OnErr result (table.new ≡ table.old) }
    ensures rest { responder.new ≡ record responder.old { reads = responder.new.reads } }
    ensures risen { responder.old.reads ≤ responder.new.reads }
    ensures bound { responder.new.reads ≤ responder.old.reads + look_bounds responder.old.moment responder.old.held (followed_rows responder.old.marks table.old) }
{
    let Plan { outs, dues } = prepare(alloc, responder, table)?;
    carry_out(responder, table, dues);
    Ok(outs)
}

/// Looks at each subscription. This takes all memory, and changes nothing but the responder's counter of steps.
fn prepare(
    alloc: Global,
    responder: &mut Responder,
    table: &Table<Course>,
) -> Result<Plan, OutOfMemory>
    requires follows { AllFollow responder.old table.now }
    ensures outs { IfOk result (λ plan. plan.outs ≡ table_sends (at_of responder.old) responder.old.held (kept_rows table.now)) }
    ensures dues { IfOk result (λ plan. AreDue responder.old.moment responder.old.held (responder.old.marks.number + 1) table.now plan.dues.items) }
    ensures few { length table.now ≤ most_subscriptions }
    ensures rest { responder.new ≡ record responder.old { reads = responder.new.reads } }
    ensures risen { responder.old.reads ≤ responder.new.reads }
    ensures bound { responder.new.reads ≤ responder.old.reads + look_bounds responder.old.moment responder.old.held (followed_rows responder.old.marks table.now) }
{
    let mut touched = Touched::new(alloc);
    let mut outs = List::new(alloc);
    let mut dues = Vec::new(alloc);
    for place in 0..table.len() {
        let Some(entry) = table.at(place) else {
            break;
        };
        dues.push(find_due(alloc, responder, &entry, &mut touched, &mut outs)?)?;
    }
    Ok(Plan { outs, dues })
}

/// Does what is due to each row. It takes no memory.
fn carry_out(responder: &Responder, table: &mut Table<Course>, dues: Vec<Due>)
    requires dues { AreDue responder.now.moment responder.now.held (responder.now.marks.number + 1) table.old dues.items }
    requires few { length table.old ≤ most_subscriptions }
    requires numbers { responder.now.marks.number + 1 < 2 ^ 64 }
    ensures { table.new ≡ map (settled_row responder.now.moment responder.now.held (responder.now.marks.number + 1)) table.old }
{
    let now = responder.now();
    let next = responder.number() + 1;
    let mut place = 0;
    for due in dues {
        let Some(course) = table.at_mut(place) else {
            return;
        };
        do_due(course, now, next, due);
        place += 1;
    }
}
