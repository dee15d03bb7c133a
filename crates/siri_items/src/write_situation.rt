//! Writing situations.

ghost use Rattle.std.specs.Prelude.{◌≡◌, ◌∷◌, ◌++◌, Some, OnOk};
ghost use Rattle.siri_json.specs.Tokens.{tokens_of};
ghost use Rattle.siri_tables.specs.Appended.{row_tokens};
ghost use Rattle.siri_tables.specs.Writing.{row_object, written_name};
ghost use Rattle.siri_tables.proofs.Sorted.{any_written};
ghost use Rattle.siri_items.specs.declared.names.TheConstants.{AFFECTED_OPERATOR, AFFECTED_STOP_POINT, AFFECTS, LINE_REF, NETWORKS, OPERATORS, OPERATOR_REF, STOP_POINTS, STOP_POINT_REF};
ghost use Rattle.siri_items.specs.Written.{rows_of_period, written_period, written_names, written_networks, rows_of_affects, written_affects, written_situation};

use crate::names;
use siri_base::{List, Name, OutOfMemory};
use siri_json::Output;
use siri_records::{Period, Situation};
use siri_tables::rules::{MomentRule, NameRule, TextRule};
use siri_tables::writing::{
    Written, list, list_inside, name_inside, object_of_list, optional, required,
};

/// A period of a ValidityPeriod, in an object of its own.
struct PeriodRule;

impl Written for PeriodRule {
    type Of = Period;

    ghost writing = { written_period };

    #[tactic(auto, unfolding(crate::specs::Written::written_period))]
    fn write(out: &mut Output, period: &Period) -> Result<(), OutOfMemory> {
        write_period(out, period)
    }
}

/// Writes the object of a period: EndTime where there is one, and StartTime.
#[tactic(auto, using(crate::proofs::InOrder::period_in_order))]
fn write_period(out: &mut Output, period: &Period) -> Result<(), OutOfMemory>
    ensures { OnOk result (out.new ≡ out.old ++ tokens_of (row_object (rows_of_period period.now))) }
{
    out.begin_object()?;
    optional::<MomentRule>(out, names::END_TIME, &period.end_time)?;
    required::<MomentRule>(out, names::START_TIME, &period.start_time)?;
    out.end_object()
}

/// An operator, in an object of its own.
struct AffectedOperator;

impl Written for AffectedOperator {
    type Of = Name;

    ghost writing = { written_name OPERATOR_REF.now };

    fn write(out: &mut Output, name: &Name) -> Result<(), OutOfMemory> {
        name_inside(out, names::OPERATOR_REF, name)
    }
}

/// A line, in an object of its own.
struct AffectedLine;

impl Written for AffectedLine {
    type Of = Name;

    ghost writing = { written_name LINE_REF.now };

    fn write(out: &mut Output, name: &Name) -> Result<(), OutOfMemory> {
        name_inside(out, names::LINE_REF, name)
    }
}

/// A stop point, in an object of its own.
struct AffectedStopPoint;

impl Written for AffectedStopPoint {
    type Of = Name;

    ghost writing = { written_name STOP_POINT_REF.now };

    fn write(out: &mut Output, name: &Name) -> Result<(), OutOfMemory> {
        name_inside(out, names::STOP_POINT_REF, name)
    }
}

/// Writes the row Networks of the lines that are affected: one AffectedNetwork has them all.
#[tactic(auto, using(crate::proofs::InOrder::network_written), unfolding(crate::specs::Written::written_networks, crate::specs::Written::written_names))]
fn filled_networks_row(out: &mut Output, first: &Name, rest: &[Name]) -> Result<(), OutOfMemory>
    ensures { OnOk result (out.new ≡ out.old ++ row_tokens NETWORKS.now (written_networks (first.now ∷ rest.now))) }
{
    out.key(names::NETWORKS)?;
    out.begin_object()?;
    out.key(names::AFFECTED_NETWORK)?;
    out.begin_list()?;
    object_of_list::<AffectedLine>(out, names::AFFECTED_LINE, first, rest)?;
    out.end_list()?;
    out.end_object()
}

/// Writes the row Networks of an Affects, which is left out where no line is affected.
#[tactic(auto, using(crate::proofs::InOrder::no_networks))]
fn networks_row(out: &mut Output, lines: &List<Name>) -> Result<(), OutOfMemory>
    ensures { OnOk result (out.new ≡ out.old ++ row_tokens NETWORKS.now (written_networks lines.now)) }
{
    match lines.slice().split_first() {
        Some((first, rest)) => filled_networks_row(out, first, rest),
        None => Ok(()),
    }
}

/// Writes the row Operators of an Affects, which is left out where no operator is affected.
#[tactic(auto, unfolding(crate::specs::Written::written_names))]
fn operators_row(out: &mut Output, operators: &List<Name>) -> Result<(), OutOfMemory>
    ensures { OnOk result (out.new ≡ out.old
        ++ row_tokens OPERATORS.now (written_names AFFECTED_OPERATOR.now OPERATOR_REF.now operators.now)) }
{
    list_inside::<AffectedOperator>(out, names::OPERATORS, names::AFFECTED_OPERATOR, operators)
}

/// Writes the row StopPoints of an Affects, which is left out where no stop point is affected.
#[tactic(auto, unfolding(crate::specs::Written::written_names))]
fn stop_points_row(out: &mut Output, stop_points: &List<Name>) -> Result<(), OutOfMemory>
    ensures { OnOk result (out.new ≡ out.old
        ++ row_tokens STOP_POINTS.now (written_names AFFECTED_STOP_POINT.now STOP_POINT_REF.now stop_points.now)) }
{
    list_inside::<AffectedStopPoint>(
        out,
        names::STOP_POINTS,
        names::AFFECTED_STOP_POINT,
        stop_points,
    )
}

/// Whether a situation affects an operator, a line or a stop point.
#[tactic(auto, using(crate::proofs::InOrder::names_there, crate::proofs::InOrder::networks_there))]
fn affects_any(situation: &Situation) -> bool
    ensures { result ≡ any_written (rows_of_affects situation.now.affected_operators situation.now.affected_lines situation.now.affected_stop_points) }
{
    situation.affected_operators.len() > 0
        || situation.affected_lines.len() > 0
        || situation.affected_stop_points.len() > 0
}

/// Writes the object of an Affects: Networks, Operators and StopPoints, each where it has entries.
#[tactic(auto, using(crate::proofs::InOrder::affects_in_order))]
fn write_affects(out: &mut Output, situation: &Situation) -> Result<(), OutOfMemory>
    ensures { OnOk result (out.new ≡ out.old
        ++ tokens_of (row_object (rows_of_affects situation.now.affected_operators situation.now.affected_lines situation.now.affected_stop_points))) }
{
    out.begin_object()?;
    networks_row(out, &situation.affected_lines)?;
    operators_row(out, &situation.affected_operators)?;
    stop_points_row(out, &situation.affected_stop_points)?;
    out.end_object()
}

/// Writes the row Affects, which is left out where the situation affects nothing.
#[tactic(auto, using(crate::proofs::InOrder::affects_left_out, crate::proofs::InOrder::affects_written))]
fn affects_row(out: &mut Output, situation: &Situation) -> Result<(), OutOfMemory>
    ensures { OnOk result (out.new ≡ out.old ++ row_tokens AFFECTS.now
        (written_affects situation.now.affected_operators situation.now.affected_lines situation.now.affected_stop_points)) }
{
    if !affects_any(situation) {
        return Ok(());
    }
    out.key(names::AFFECTS)?;
    write_affects(out, situation)
}

/// Writes a situation.
#[tactic(auto, using(crate::proofs::InOrder::situation_in_order))]
pub(crate) fn write_situation(out: &mut Output, situation: &Situation) -> Result<(), OutOfMemory>
    ensures { OnOk result (out.new ≡ out.old ++ tokens_of (written_situation situation.now)) }
{
    out.begin_object()?;
    affects_row(out, situation)?;
    optional::<MomentRule>(out, names::CREATION_TIME, &situation.creation_time)?;
    optional::<TextRule>(out, names::DESCRIPTION, &situation.description)?;
    optional::<NameRule>(out, names::PARTICIPANT_REF, &situation.participant_ref)?;
    optional::<TextRule>(out, names::PROGRESS, &situation.progress)?;
    optional::<TextRule>(out, names::SEVERITY, &situation.severity)?;
    required::<NameRule>(out, names::SITUATION_NUMBER, &situation.situation_number)?;
    optional::<TextRule>(out, names::SUMMARY, &situation.summary)?;
    list::<PeriodRule>(out, names::VALIDITY_PERIOD, &situation.validity_period)?;
    optional::<NameRule>(out, names::VERSION, &situation.version)?;
    optional::<MomentRule>(out, names::VERSIONED_AT_TIME, &situation.versioned_at_time)?;
    out.end_object()
}
