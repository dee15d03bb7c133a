//! Reading situations.

ghost use Rattle.std.specs.Prelude.{◌≡◌, Some, flat_map, sum_by, nat_le, IfOk};
ghost use Rattle.siri_json.specs.Shown.{shown};
ghost use Rattle.siri_tables.specs.Refusals.{Gives};
ghost use Rattle.siri_tables.specs.Rules.{list_inside};
ghost use Rattle.siri_items.specs.declared.names.TheConstants.{NETWORKS};
ghost use Rattle.siri_items.specs.Situations.{period, lines_at, network, all_lines, lines_of, network_lines, affected, or_nothing, situation};

use crate::names;
use siri_base::{List, Name, OutOfMemory, Reason};
use siri_json::{ObjectOf, Tree, member, object_of};
use siri_records::{Period, Situation};
use siri_tables::refusal::{TableError, below, refuse, refuse_at};
use siri_tables::rows::{
    entry_count, list_of, names_inside, names_of, nonempty_list, required_row, row,
};
use siri_tables::rules::{MomentRule, NameRule, Table, TextRule};
use std::alloc::Global;

/// The most entries of a situation's ValidityPeriod; with more it is `TooMany`.
const MOST_PERIODS: usize = 100;

/// The most entries of AffectedOperator, of AffectedStopPoint, and of all AffectedLine of a situation.
const MOST_NAMES: usize = 2000;

/// A period of a ValidityPeriod: StartTime is required; without EndTime it is open.
struct PeriodTable;

impl Table for PeriodTable {
    type Out = Period;

    ghost rows = { period };

    #[tactic(auto, unfolding(crate::specs::Situations::period))]
    fn read_rows(alloc: Global, tree: &Tree<'_>) -> Result<Period, TableError> {
        Ok(Period {
            start_time: required_row::<MomentRule>(alloc, tree, names::START_TIME)?,
            end_time: row::<MomentRule>(alloc, tree, names::END_TIME)?,
        })
    }
}

/// The operators, lines and stop points that a situation affects (CEN/TS 15531-5, Affects), at most 2,000 of each.
#[derive(Drop)]
pub(crate) struct Affected {
    pub operators: List<Name>,
    pub lines: List<Name>,
    pub stop_points: List<Name>,
}

/// The lines of a network, and how many entries its list has that aren't null.
#[derive(Drop)]
pub(crate) struct Network {
    pub lines: List<Name>,
    pub entries: usize,
}

/// An AffectedNetwork (CEN/TS 15531-5, Affects): its AffectedLine, no lines where that is absent.
struct NetworkTable;

/// The LineRefs of an AffectedLine, and how many of its entries aren't null, be they without a LineRef.
fn lines_at(alloc: Global, value: &Tree<'_>) -> Result<Network, TableError>
    ensures { Gives result (lines_at (Some (shown value.now))) }
{
    let lines = names_of(alloc, value, names::LINE_REF)?;
    Ok(Network {
        lines,
        entries: entry_count(value),
    })
}

impl Table for NetworkTable {
    type Out = Network;

    ghost rows = { network };

    #[tactic(auto, unfolding(crate::specs::Situations::network))]
    fn read_rows(alloc: Global, tree: &Tree<'_>) -> Result<Network, TableError> {
        match member(tree, names::AFFECTED_LINE) {
            Some(value) => below(alloc, names::AFFECTED_LINE, lines_at(alloc, value)),
            None => Ok(Network {
                lines: List::new(alloc),
                entries: 0,
            }),
        }
    }
}

/// Whether the AffectedLine of these networks have at most 2,000 entries that aren't null, in all.
fn is_few(networks: &[Network]) -> bool
    ensures { result ≡ nat_le (sum_by (λ n. n.entries) networks.now) 2000 }
{
    let mut left = MOST_NAMES;
    for network in networks {
        if network.entries > left {
            return false;
        }
        left -= network.entries;
    }
    true
}

/// The lines of all networks in one list, network by network; a line of two networks stands in it twice.
fn joined(alloc: Global, networks: List<Network>) -> Result<List<Name>, OutOfMemory>
    ensures { IfOk result (λ lines. lines ≡ flat_map (λ n. n.lines) networks) }
{
    let mut lines = Vec::new(alloc);
    for network in networks.into_vec() {
        lines.append(&mut network.lines.into_vec())?;
    }
    Ok(List::of(lines))
}

/// The lines of an AffectedNetwork's entries; `TooMany` above 2,000 in all, after what the entries are refused for.
#[tactic(auto, unfolding(crate::specs::Situations::lines_of))]
fn lines_of(alloc: Global, value: &Tree<'_>) -> Result<List<Name>, TableError>
    ensures { Gives result (lines_of (shown value.now)) }
{
    let networks = list_of::<NetworkTable>(alloc, value)?;
    if !is_few(networks.slice()) {
        return refuse(alloc, Reason::TooMany);
    }
    Ok(joined(alloc, networks)?)
}

/// The lines at AffectedNetwork of a Networks, none where it is absent.
#[tactic(auto, unfolding(crate::specs::Situations::network_lines))]
fn network_lines(alloc: Global, tree: &Tree<'_>) -> Result<List<Name>, TableError>
    ensures { Gives result (network_lines (shown tree.now)) }
{
    match member(tree, names::AFFECTED_NETWORK) {
        Some(value) => below(alloc, names::AFFECTED_NETWORK, lines_of(alloc, value)),
        None => Ok(List::new(alloc)),
    }
}

/// The lines at Networks of an Affects, none where it counts as absent, `WrongKind` at it where it is no object.
#[tactic(auto, unfolding(siri_tables::specs::Rules::list_inside))]
fn all_lines(alloc: Global, tree: &Tree<'_>) -> Result<List<Name>, TableError>
    ensures { Gives result (list_inside NETWORKS.now network_lines (shown tree.now)) }
{
    let Some(value) = member(tree, names::NETWORKS) else {
        return Ok(List::new(alloc));
    };
    match object_of(value) {
        ObjectOf::Is(networks) => below(alloc, names::NETWORKS, network_lines(alloc, networks)),
        ObjectOf::Absent => Ok(List::new(alloc)),
        ObjectOf::Wrong => refuse_at(alloc, names::NETWORKS, Reason::WrongKind),
    }
}

/// An Affects (CEN/TS 15531-5): Operators, Networks and StopPoints, each of which may be absent.
struct AffectedTable;

impl Table for AffectedTable {
    type Out = Affected;

    ghost rows = { affected };

    #[tactic(auto, unfolding(crate::specs::Situations::affected))]
    fn read_rows(alloc: Global, tree: &Tree<'_>) -> Result<Affected, TableError> {
        Ok(Affected {
            operators: names_inside(
                alloc,
                tree,
                names::OPERATORS,
                names::AFFECTED_OPERATOR,
                names::OPERATOR_REF,
                MOST_NAMES,
            )?,
            lines: all_lines(alloc, tree)?,
            stop_points: names_inside(
                alloc,
                tree,
                names::STOP_POINTS,
                names::AFFECTED_STOP_POINT,
                names::STOP_POINT_REF,
                MOST_NAMES,
            )?,
        })
    }
}

/// What is affected: no operator, no line and no stop point where Affects is absent.
fn or_nothing(alloc: Global, affects: Option<Affected>) -> Affected
    ensures { result ≡ or_nothing affects }
{
    match affects {
        Some(affected) => affected,
        None => Affected {
            operators: List::new(alloc),
            lines: List::new(alloc),
            stop_points: List::new(alloc),
        },
    }
}

/// A situation of the network (CEN/TS 15531-5, PtSituationElement).
pub struct SituationTable;

impl Table for SituationTable {
    type Out = Situation;

    ghost rows = { situation };

    #[tactic(auto, unfolding(crate::specs::Situations::situation))]
    fn read_rows(alloc: Global, tree: &Tree<'_>) -> Result<Situation, TableError> {
        let creation_time = row::<MomentRule>(alloc, tree, names::CREATION_TIME)?;
        let participant_ref = row::<NameRule>(alloc, tree, names::PARTICIPANT_REF)?;
        let situation_number = required_row::<NameRule>(alloc, tree, names::SITUATION_NUMBER)?;
        let version = row::<NameRule>(alloc, tree, names::VERSION)?;
        let versioned_at_time = row::<MomentRule>(alloc, tree, names::VERSIONED_AT_TIME)?;
        let progress = row::<TextRule>(alloc, tree, names::PROGRESS)?;
        let validity_period = nonempty_list::<PeriodTable>(
            alloc,
            tree,
            names::VALIDITY_PERIOD,
            MOST_PERIODS,
        )?;
        let severity = row::<TextRule>(alloc, tree, names::SEVERITY)?;
        let summary = row::<TextRule>(alloc, tree, names::SUMMARY)?;
        let description = row::<TextRule>(alloc, tree, names::DESCRIPTION)?;
        let affects = row::<AffectedTable>(alloc, tree, names::AFFECTS)?;
        let affected = or_nothing(alloc, affects);
        Ok(Situation {
            creation_time,
            participant_ref,
            situation_number,
            version,
            versioned_at_time,
            progress,
            validity_period,
            severity,
            summary,
            description,
            affected_operators: affected.operators,
            affected_lines: affected.lines,
            affected_stop_points: affected.stop_points,
        })
    }
}
