//! The names of members, as documents spell them (EN 15531-3, CEN/TS 15531-5).

pub const STOP_POINT_REF: &str = "StopPointRef";

pub const ORDER: &str = "Order";

pub const STOP_POINT_NAME: &str = "StopPointName";

pub const VEHICLE_AT_STOP: &str = "VehicleAtStop";

pub const AIMED_ARRIVAL_TIME: &str = "AimedArrivalTime";

pub const EXPECTED_ARRIVAL_TIME: &str = "ExpectedArrivalTime";

pub const ACTUAL_ARRIVAL_TIME: &str = "ActualArrivalTime";

pub const ARRIVAL_STATUS: &str = "ArrivalStatus";

pub const ARRIVAL_PLATFORM_NAME: &str = "ArrivalPlatformName";

pub const AIMED_DEPARTURE_TIME: &str = "AimedDepartureTime";

pub const EXPECTED_DEPARTURE_TIME: &str = "ExpectedDepartureTime";

pub const ACTUAL_DEPARTURE_TIME: &str = "ActualDepartureTime";

pub const DEPARTURE_STATUS: &str = "DepartureStatus";

pub const DEPARTURE_PLATFORM_NAME: &str = "DeparturePlatformName";

pub const FRAMED_VEHICLE_JOURNEY_REF: &str = "FramedVehicleJourneyRef";

pub const DATA_FRAME_REF: &str = "DataFrameRef";

pub const DATED_VEHICLE_JOURNEY_REF: &str = "DatedVehicleJourneyRef";

pub const LINE_REF: &str = "LineRef";

pub const DIRECTION_REF: &str = "DirectionRef";

pub const PUBLISHED_LINE_NAME: &str = "PublishedLineName";

pub const OPERATOR_REF: &str = "OperatorRef";

pub const DESTINATION_REF: &str = "DestinationRef";

pub const DESTINATION_NAME: &str = "DestinationName";

pub const VEHICLE_REF: &str = "VehicleRef";

pub const MONITORED: &str = "Monitored";

pub const OCCUPANCY: &str = "Occupancy";

pub const DELAY: &str = "Delay";

pub const VEHICLE_LOCATION: &str = "VehicleLocation";

pub const LONGITUDE: &str = "Longitude";

pub const LATITUDE: &str = "Latitude";

pub const MONITORED_CALL: &str = "MonitoredCall";

pub const RECORDED_AT_TIME: &str = "RecordedAtTime";

pub const ITEM_IDENTIFIER: &str = "ItemIdentifier";

pub const MONITORING_REF: &str = "MonitoringRef";

pub const MONITORED_VEHICLE_JOURNEY: &str = "MonitoredVehicleJourney";

pub const CANCELLATION: &str = "Cancellation";

pub const RECORDED_CALLS: &str = "RecordedCalls";

pub const RECORDED_CALL: &str = "RecordedCall";

pub const ESTIMATED_CALLS: &str = "EstimatedCalls";

pub const ESTIMATED_CALL: &str = "EstimatedCall";

pub const VALID_UNTIL_TIME: &str = "ValidUntilTime";

pub const CREATION_TIME: &str = "CreationTime";

pub const PARTICIPANT_REF: &str = "ParticipantRef";

pub const SITUATION_NUMBER: &str = "SituationNumber";

pub const VERSION: &str = "Version";

pub const VERSIONED_AT_TIME: &str = "VersionedAtTime";

pub const PROGRESS: &str = "Progress";

pub const VALIDITY_PERIOD: &str = "ValidityPeriod";

pub const START_TIME: &str = "StartTime";

pub const END_TIME: &str = "EndTime";

pub const SEVERITY: &str = "Severity";

pub const SUMMARY: &str = "Summary";

pub const DESCRIPTION: &str = "Description";

pub const AFFECTS: &str = "Affects";

pub const OPERATORS: &str = "Operators";

pub const AFFECTED_OPERATOR: &str = "AffectedOperator";

pub const NETWORKS: &str = "Networks";

pub const AFFECTED_NETWORK: &str = "AffectedNetwork";

pub const AFFECTED_LINE: &str = "AffectedLine";

pub const STOP_POINTS: &str = "StopPoints";

pub const AFFECTED_STOP_POINT: &str = "AffectedStopPoint";
