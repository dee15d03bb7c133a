//! What is due of one subscription at a settle.

ghost use Rattle.std.specs.Prelude.{◌≡◌, ◌≤◌, ◌+◌, ◌++◌, is_some, IfOk, OnOk};
ghost use Rattle.siri_subs.specs.Lent.{entry_of};
ghost use Rattle.siri_subscriptions.specs.Courses.{kept_row};
ghost use Rattle.siri_model.specs.Followed.{look_bound};
ghost use Rattle.siri_model.specs.Rows.{is_heartbeat_due};
ghost use Rattle.siri_subscriptions.specs.Again.{AreTouched};
ghost use Rattle.siri_subscriptions.specs.Due.{apart_at, course_after, IsDue, IsFound};
ghost use Rattle.siri_subscriptions.specs.Looked.{RowFollows, followed_row};
ghost use Rattle.siri_subscriptions.specs.Openings.{CanOpen};
ghost use Rattle.siri_subscriptions.specs.Sends.{outs_with, at_of, heartbeat_due, part_due, row_sends};

use crate::again::look_again;
use crate::course::{Course, Looked};
use crate::limited::look_whole;
use crate::outs::push_out;
use crate::replies::heartbeat;
use crate::touched::Touched;
use crate::{Finding, Out, message_due, move_on};
use siri_base::{List, Moment, OutOfMemory};
use siri_messages::Message;
use siri_records::SharedKey;
use siri_responder::Responder;
use siri_subs::{Beats, Entry};
use std::alloc::Global;

/// What a settle does to a subscription, found before anything changes.
#[derive(Drop)]
pub(crate) struct Due {
    pub finding: Finding,
    /// The keys that are kept apart after the look, where there is one.
    pub apart: Option<List<SharedKey>>,
    pub has_heartbeat: bool,
}

/// What a settle sees of a subscription: there is no look where a round of it is outstanding.
#[derive(Drop)]
pub(crate) struct Seen {
    pub finding: Finding,
    /// The keys that are kept apart after the look, where there is one.
    pub apart: Option<List<SharedKey>>,
}

/// Looks at a subscription, puts what is sent of it at the end, and tells what is due. Of the responder nothing but the
/// counter of steps changes.
pub(crate) fn find_due(
    alloc: Global,
    responder: &mut Responder,
    entry: &Entry<'_, Course>,
    touched: &mut Touched,
    outs: &mut List<Out>,
) -> Result<Due, OutOfMemory>
    requires follows { RowFollows responder.old (entry_of entry.now) }
    requires touched { AreTouched responder.old touched.old }
    ensures due { IfOk result (IsDue responder.old.moment responder.old.held (responder.old.marks.number + 1) (entry_of entry.now)) }
    ensures outs { OnOk result (outs.new ≡ outs.old ++ row_sends (at_of responder.old) responder.old.held (kept_row (entry_of entry.now))) }
    ensures touched { AreTouched responder.new touched.new }
    ensures rest { responder.new ≡ record responder.old { reads = responder.new.reads } }
    ensures risen { responder.old.reads ≤ responder.new.reads }
    ensures bound { responder.new.reads ≤ responder.old.reads + look_bound responder.old.moment responder.old.held (followed_row responder.old.marks (entry_of entry.now)) }
{
    let Seen { finding, apart } = look_at(alloc, responder, entry, touched)?;
    push_part(alloc, responder, entry, &finding, outs)?;
    let has_heartbeat = push_heartbeat(responder, entry, outs)?;
    Ok(Due {
        finding,
        apart,
        has_heartbeat,
    })
}

/// Puts the message of the wanted part at the end, where one is due.
fn push_part(
    alloc: Global,
    responder: &Responder,
    entry: &Entry<'_, Course>,
    finding: &Finding,
    outs: &mut List<Out>,
) -> Result<(), OutOfMemory>
    requires { IsFound responder.now.moment responder.now.held (entry_of entry.now) finding.now }
    ensures { OnOk result (outs.new ≡ outs.old ++ outs_with (kept_row (entry_of entry.now)) (part_due (at_of responder.now) responder.now.held (kept_row (entry_of entry.now)))) }
{
    let part = part_due(alloc, responder, entry, finding)?;
    push_out(outs, entry, part)
}

/// Puts a heartbeat at the end, where one is due, and tells whether one is.
fn push_heartbeat(
    responder: &Responder,
    entry: &Entry<'_, Course>,
    outs: &mut List<Out>,
) -> Result<bool, OutOfMemory>
    ensures outs { OnOk result (outs.new ≡ outs.old ++ outs_with (kept_row (entry_of entry.now)) (heartbeat_due (at_of responder.now) (kept_row (entry_of entry.now)))) }
    ensures due { IfOk result (λ is_due. is_due ≡ is_heartbeat_due responder.now.moment (kept_row (entry_of entry.now))) }
{
    let heartbeat = heartbeat_due(responder, entry)?;
    let is_due = heartbeat.is_some();
    push_out(outs, entry, heartbeat)?;
    Ok(is_due)
}

/// Looks at a subscription, unless a round of it is outstanding.
fn look_at(
    alloc: Global,
    responder: &mut Responder,
    entry: &Entry<'_, Course>,
    touched: &mut Touched,
) -> Result<Seen, OutOfMemory>
    requires follows { RowFollows responder.old (entry_of entry.now) }
    requires touched { AreTouched responder.old touched.old }
    ensures found { IfOk result (λ seen. IsFound responder.old.moment responder.old.held (entry_of entry.now) seen.finding) }
    ensures apart { IfOk result (λ seen. seen.apart ≡ apart_at responder.old.moment responder.old.held (entry_of entry.now)) }
    ensures touched { AreTouched responder.new touched.new }
    ensures rest { responder.new ≡ record responder.old { reads = responder.new.reads } }
    ensures risen { responder.old.reads ≤ responder.new.reads }
    ensures bound { responder.new.reads ≤ responder.old.reads + look_bound responder.old.moment responder.old.held (followed_row responder.old.marks (entry_of entry.now)) }
{
    let course = entry.slot;
    if course.rounds.outstanding().is_some() {
        return Ok(Seen {
            finding: Finding {
                opening: None,
                is_level: course.is_level,
            },
            apart: None,
        });
    }
    match &course.looked {
        Some(looked) => look_again(alloc, responder, entry, looked, touched),
        None => look_whole(alloc, responder, entry),
    }
}

/// The message of the wanted part, where one is due once the round has opened that a look found.
fn part_due(
    alloc: Global,
    responder: &Responder,
    entry: &Entry<'_, Course>,
    finding: &Finding,
) -> Result<Option<Message>, OutOfMemory>
    requires { IsFound responder.now.moment responder.now.held (entry_of entry.now) finding.now }
    ensures { IfOk result (λ message. message ≡ part_due (at_of responder.now) responder.now.held (kept_row (entry_of entry.now))) }
{
    message_due(
        alloc,
        responder.name(),
        responder.start(),
        entry.wanted,
        entry.number,
        &entry.slot.rounds,
        finding.opening.as_ref(),
        responder.now(),
    )
}

/// A heartbeat, where one is due.
fn heartbeat_due(
    responder: &Responder,
    entry: &Entry<'_, Course>,
) -> Result<Option<Message>, OutOfMemory>
    ensures message { IfOk result (λ message. message ≡ heartbeat_due (at_of responder.now) (kept_row (entry_of entry.now))) }
    ensures due { IfOk result (λ message. is_some message ≡ is_heartbeat_due responder.now.moment (kept_row (entry_of entry.now))) }
{
    let now = responder.now();
    let beats = Beats::new(entry.beat, entry.slot.last_heartbeat);
    if !beats.due(now) {
        return Ok(None);
    }
    let heartbeat = heartbeat(responder.name(), now, responder.started())?;
    Ok(Some(Message::HeartbeatNotification(heartbeat)))
}

/// Does what is due at a moment; after a look keys are marked under the next number. It takes no memory.
pub(crate) fn do_due(course: &mut Course, now: Moment, next: u64, due: Due)
    requires { CanOpen due.finding.opening course.old.rounds }
    ensures { course.new ≡ course_after now next due course.old }
{
    let Due {
        finding,
        apart,
        has_heartbeat,
    } = due;
    move_on(&mut course.rounds, now, finding.opening);
    course.is_level = finding.is_level;
    if let Some(apart) = apart {
        course.looked = Some(Looked {
            moment: now,
            number: next,
            apart,
        });
    }
    if has_heartbeat {
        course.last_heartbeat = now;
    }
}
