//! The line that a load comes to.

ghost use Rattle.std.specs.Prelude.{◌≡◌, ◌++◌, count_by, IfOk, OnOk};
ghost use Rattle.std.specs.Fmt.{decimal};
ghost use Rattle.siri_world_model.specs.Lines.{told_line};
ghost use Rattle.siri_load.specs.Load.{load_text, is_item, is_quiet_view, summary};
ghost use Rattle.siri_load.specs.Playing.{Sums};

use crate::player::Player;
use crate::stop::Stop;
use siri_base::{OutOfMemory, append, append_number};
use siri_world_model::Line;
use std::alloc::Global;

/// What a load comes to.
#[derive(Clone, Copy, Debug)]
struct Totals {
    seed: u64,
    count: u64,
    lines: u64,
    packets: u64,
    lost: u64,
    quiet: usize,
    items: usize,
}

/// Plays a load, and tells what it came to in one line.
pub(crate) fn summary(alloc: Global, seed: u64, count: u64) -> Result<Vec<u8>, Stop>
    ensures { Sums result (λ line. line.items) (load_text seed count) }
{
    let mut player = Player::new(alloc, seed)?;
    player.play(count)?;
    let views = player.views()?;
    let totals = Totals {
        seed,
        count,
        lines: player.lines(),
        packets: player.sent(),
        lost: player.lost(),
        quiet: quiet(&views),
        items: items(&views),
    };
    Ok(text_of(alloc, totals)?)
}

/// A view that is quiet.
#[tactic(auto, unfolding(crate::specs::Load::is_quiet_view))]
fn is_quiet(line: &Line) -> bool
    ensures { result ≡ is_quiet_view (told_line line.now) }
{
    match line {
        Line::View { quiet, .. } => *quiet,
        _ => false,
    }
}

/// An item of a view.
#[tactic(auto, unfolding(crate::specs::Load::is_item))]
fn is_item(line: &Line) -> bool
    ensures { result ≡ is_item (told_line line.now) }
{
    match line {
        Line::Item(_) => true,
        _ => false,
    }
}

/// How many views are quiet.
fn quiet(lines: &[Line]) -> usize
    ensures { result ≡ count_by (λ line. is_quiet_view (told_line line)) lines.now }
{
    let mut count = 0;
    for line in lines {
        if is_quiet(line) {
            count += 1;
        }
    }
    count
}

/// How many items the views have.
fn items(lines: &[Line]) -> usize
    ensures { result ≡ count_by (λ line. is_item (told_line line)) lines.now }
{
    let mut count = 0;
    for line in lines {
        if is_item(line) {
            count += 1;
        }
    }
    count
}

/// `load SEED COUNT lines N packets N lost N quiet N items N` and a line feed.
fn text_of(alloc: Global, totals: Totals) -> Result<Vec<u8>, OutOfMemory>
    ensures { IfOk result (λ text. text.items ≡ summary totals.seed totals.count totals.lines totals.packets totals.lost totals.quiet totals.items) }
{
    let mut text = Vec::new(alloc);
    push(alloc, &mut text, b"load ", totals.seed)?;
    push(alloc, &mut text, b" ", totals.count)?;
    push(alloc, &mut text, b" lines ", totals.lines)?;
    push(alloc, &mut text, b" packets ", totals.packets)?;
    push(alloc, &mut text, b" lost ", totals.lost)?;
    push(alloc, &mut text, b" quiet ", totals.quiet as u64)?;
    push(alloc, &mut text, b" items ", totals.items as u64)?;
    append(&mut text, b"\n")?;
    Ok(text)
}

/// Puts a word and a number at the end.
fn push(alloc: Global, text: &mut Vec<u8>, word: &[u8], number: u64) -> Result<(), OutOfMemory>
    ensures { OnOk result (text.new.items ≡ text.old.items ++ word.now ++ decimal number) }
{
    append(text, word)?;
    append_number(alloc, text, number)
}
