//! Situations of the network.

ghost use Rattle.std.specs.Prelude.{◌≡◌};

use siri_base::{Copies, List, Moment, Name, OutOfMemory, Text};

/// A situation that affects operators, lines or stops (CEN/TS 15531-5, PtSituationElement). It is known by its
/// participant and its situation number. A document has at most 100 periods and 2,000 names of each kind in it.
pub struct Situation {
    pub creation_time: Option<Moment>,
    pub participant_ref: Option<Name>,
    pub situation_number: Name,
    pub version: Option<Name>,
    pub versioned_at_time: Option<Moment>,
    pub progress: Option<Text>,
    pub validity_period: List<Period>,
    pub severity: Option<Text>,
    pub summary: Option<Text>,
    pub description: Option<Text>,
    pub affected_operators: List<Name>,
    pub affected_lines: List<Name>,
    pub affected_stop_points: List<Name>,
}

impl Drop for Situation {
    fn drop(self) {
        let Situation {
            creation_time: _,
            participant_ref: _,
            situation_number: _,
            version: _,
            versioned_at_time: _,
            progress: _,
            validity_period: _,
            severity: _,
            summary: _,
            description: _,
            affected_operators: _,
            affected_lines: _,
            affected_stop_points: _,
        } = self;
    }
}

/// A time in which a situation holds (CEN/TS 15531-5, ValidityPeriod), open where it has no end.
#[derive(Clone, Copy, Debug, PartialEq, Eq)]
pub struct Period {
    pub start_time: Moment,
    pub end_time: Option<Moment>,
}

impl Copies for Situation {
    fn copy(&self) -> Result<Self, OutOfMemory> {
        Ok(Situation {
            creation_time: self.creation_time,
            participant_ref: self.participant_ref.copy()?,
            situation_number: self.situation_number.copy()?,
            version: self.version.copy()?,
            versioned_at_time: self.versioned_at_time,
            progress: self.progress.copy()?,
            validity_period: self.validity_period.copy()?,
            severity: self.severity.copy()?,
            summary: self.summary.copy()?,
            description: self.description.copy()?,
            affected_operators: self.affected_operators.copy()?,
            affected_lines: self.affected_lines.copy()?,
            affected_stop_points: self.affected_stop_points.copy()?,
        })
    }
}

impl Copies for Period {
    fn copy(&self) -> Result<Self, OutOfMemory> {
        Ok(*self)
    }
}
