//! The names of members that messages have besides those of items, as documents spell them (EN 15531-2, EN 15531-3,
//! CEN/TS 15531-5). Extensions and what stands in them are this profile's own.

pub const REQUEST_TIMESTAMP: &str = "RequestTimestamp";

pub const RESPONSE_TIMESTAMP: &str = "ResponseTimestamp";

pub const REQUESTOR_REF: &str = "RequestorRef";

pub const MESSAGE_IDENTIFIER: &str = "MessageIdentifier";

pub const STOP_MONITORING_REQUEST: &str = "StopMonitoringRequest";

pub const ESTIMATED_TIMETABLE_REQUEST: &str = "EstimatedTimetableRequest";

pub const VEHICLE_MONITORING_REQUEST: &str = "VehicleMonitoringRequest";

pub const SITUATION_EXCHANGE_REQUEST: &str = "SituationExchangeRequest";

pub const PRODUCER_REF: &str = "ProducerRef";

pub const RESPONSE_MESSAGE_IDENTIFIER: &str = "ResponseMessageIdentifier";

pub const REQUEST_MESSAGE_REF: &str = "RequestMessageRef";

pub const STATUS: &str = "Status";

pub const ERROR_CONDITION: &str = "ErrorCondition";

pub const OTHER_ERROR: &str = "OtherError";

pub const ERROR_TEXT: &str = "ErrorText";

pub const MORE_DATA: &str = "MoreData";

pub const STOP_MONITORING_DELIVERY: &str = "StopMonitoringDelivery";

pub const ESTIMATED_TIMETABLE_DELIVERY: &str = "EstimatedTimetableDelivery";

pub const VEHICLE_MONITORING_DELIVERY: &str = "VehicleMonitoringDelivery";

pub const SITUATION_EXCHANGE_DELIVERY: &str = "SituationExchangeDelivery";

pub const CONSUMER_ADDRESS: &str = "ConsumerAddress";

pub const SUBSCRIPTION_CONTEXT: &str = "SubscriptionContext";

pub const HEARTBEAT_INTERVAL: &str = "HeartbeatInterval";

pub const STOP_MONITORING_SUBSCRIPTION_REQUEST: &str = "StopMonitoringSubscriptionRequest";

pub const ESTIMATED_TIMETABLE_SUBSCRIPTION_REQUEST: &str = "EstimatedTimetableSubscriptionRequest";

pub const VEHICLE_MONITORING_SUBSCRIPTION_REQUEST: &str = "VehicleMonitoringSubscriptionRequest";

pub const SITUATION_EXCHANGE_SUBSCRIPTION_REQUEST: &str = "SituationExchangeSubscriptionRequest";

pub const RESPONSE_STATUS: &str = "ResponseStatus";

pub const SUBSCRIBER_REF: &str = "SubscriberRef";

pub const SUBSCRIPTION_REF: &str = "SubscriptionRef";

pub const VALID_UNTIL: &str = "ValidUntil";

pub const TERMINATION_RESPONSE_STATUS: &str = "TerminationResponseStatus";

pub const EXTENSIONS: &str = "Extensions";

pub const NUMBER: &str = "Number";

pub const START: &str = "Start";

pub const ROUND: &str = "Round";

pub const PART: &str = "Part";

pub const CONSUMER_REF: &str = "ConsumerRef";

pub const ALL_DATA: &str = "AllData";

pub const SERVICE_STARTED_TIME: &str = "ServiceStartedTime";

pub const REMOVED: &str = "Removed";

pub const MONITORED_STOP_VISIT: &str = "MonitoredStopVisit";

pub const MONITORED_STOP_VISIT_CANCELLATION: &str = "MonitoredStopVisitCancellation";

pub const ESTIMATED_JOURNEY_VERSION_FRAME: &str = "EstimatedJourneyVersionFrame";

pub const ESTIMATED_VEHICLE_JOURNEY: &str = "EstimatedVehicleJourney";

pub const VEHICLE_ACTIVITY: &str = "VehicleActivity";

pub const VEHICLE_ACTIVITY_CANCELLATION: &str = "VehicleActivityCancellation";

pub const SITUATIONS: &str = "Situations";

pub const PT_SITUATION_ELEMENT: &str = "PtSituationElement";

pub const ITEM_REF: &str = "ItemRef";

pub const SUBSCRIPTION_IDENTIFIER: &str = "SubscriptionIdentifier";

pub const INITIAL_TERMINATION_TIME: &str = "InitialTerminationTime";

pub const INCREMENTAL_UPDATES: &str = "IncrementalUpdates";

pub const CHANGE_BEFORE_UPDATES: &str = "ChangeBeforeUpdates";

pub const DELIVERY_METHOD: &str = "DeliveryMethod";

pub const PREVIEW_INTERVAL: &str = "PreviewInterval";

pub const MAXIMUM_STOP_VISITS: &str = "MaximumStopVisits";

pub const LINES: &str = "Lines";

pub const LINE_DIRECTION: &str = "LineDirection";

pub const SIRI: &str = "Siri";

pub const SERVICE_REQUEST: &str = "ServiceRequest";

pub const SERVICE_DELIVERY: &str = "ServiceDelivery";

pub const SUBSCRIPTION_REQUEST: &str = "SubscriptionRequest";

pub const SUBSCRIPTION_RESPONSE: &str = "SubscriptionResponse";

pub const TERMINATE_SUBSCRIPTION_REQUEST: &str = "TerminateSubscriptionRequest";

pub const TERMINATE_SUBSCRIPTION_RESPONSE: &str = "TerminateSubscriptionResponse";

pub const DATA_READY_NOTIFICATION: &str = "DataReadyNotification";

pub const DATA_READY_ACKNOWLEDGEMENT: &str = "DataReadyAcknowledgement";

pub const DATA_SUPPLY_REQUEST: &str = "DataSupplyRequest";

pub const DATA_RECEIVED_ACKNOWLEDGEMENT: &str = "DataReceivedAcknowledgement";

pub const CHECK_STATUS_REQUEST: &str = "CheckStatusRequest";

pub const CHECK_STATUS_RESPONSE: &str = "CheckStatusResponse";

pub const HEARTBEAT_NOTIFICATION: &str = "HeartbeatNotification";
