//! Texts of moments and spans, and the milliseconds that they stand for: of the standard (W3C XML Schema, part 2) and
//! of another calendar's arithmetic.

use siri_base::{Moment, Span};
use siri_time::{SpanError, TimeError, read_moment, read_span, write_moment, write_span};

/// Fractions are cut, and offsets are taken to their ends. The last has 64 bytes.
static MOMENTS: [(&str, i64); 27] = [
    ("1970-01-01T00:00:00Z", 0),
    ("1970-12-31T00:00:00Z", 31_449_600_000),
    ("1972-01-01T00:00:00Z", 63_072_000_000),
    ("1972-02-29T00:00:00Z", 68_169_600_000),
    ("1972-12-31T00:00:00Z", 94_608_000_000),
    ("2000-01-01T00:00:00Z", 946_684_800_000),
    ("2000-02-29T00:00:00Z", 951_782_400_000),
    ("2000-12-31T00:00:00Z", 978_220_800_000),
    ("2100-01-01T00:00:00Z", 4_102_444_800_000),
    ("2100-03-01T00:00:00Z", 4_107_542_400_000),
    ("2100-12-31T00:00:00Z", 4_133_894_400_000),
    ("9999-01-01T00:00:00Z", 253_370_764_800_000),
    ("9999-12-31T00:00:00Z", 253_402_214_400_000),
    ("9999-12-31T23:59:59.999Z", 253_402_300_799_999),
    ("1999-05-31T13:20:00-05:00", 928_174_800_000),
    ("2002-10-10T12:00:00-05:00", 1_034_269_200_000),
    ("2002-10-10T17:00:00Z", 1_034_269_200_000),
    ("2000-03-04T23:00:00+03:00", 952_200_000_000),
    ("2004-04-12T13:20:15.5Z", 1_081_776_015_500),
    ("2024-02-29T23:59:59.9996-00:30", 1_709_252_999_999),
    ("2004-04-12T13:20:15.1239999Z", 1_081_776_015_123),
    ("2024-05-01T08:00:00+14:00", 1_714_500_000_000),
    ("2024-05-01T08:00:00-14:00", 1_714_600_800_000),
    ("2024-05-01T08:00:00-13:59", 1_714_600_740_000),
    ("2024-05-01T08:00:00-00:00", 1_714_550_400_000),
    ("1970-01-01T00:01:00+00:01", 0),
    (
        "2024-05-01T08:00:00.0000000000000000000000000000000000000000000Z",
        1_714_550_400_000,
    ),
];

/// Texts of no moment. The last have 65 bytes, or would have with an offset.
static NO_MOMENTS: [&str; 35] = [
    "",
    "Z",
    "2024-02-29T00:00:00.",
    "2024-02-29T00:00:00.Z",
    "2024-02-29T00:00:00ZZ",
    "2024-02-29T00:00:00z",
    "2024-02-29t00:00:00Z",
    "2024-02-29 00:00:00Z",
    " 2024-02-29T00:00:00Z",
    "+2024-02-29T00:00:00Z",
    "2024-2-29T00:00:00Z",
    "2024-02-29T00:00Z",
    "2024-02-29Z",
    "2024-02-30T00:00:00",
    "2023-02-29T00:00:00Z",
    "2100-02-29T00:00:00Z",
    "2024-00-01T00:00:00Z",
    "2024-13-01T00:00:00Z",
    "2024-01-00T00:00:00Z",
    "2024-04-31T00:00:00Z",
    "2024-05-01T24:00:00Z",
    "2024-05-01T23:60:00Z",
    "2024-05-01T23:59:60Z",
    "2024-05-01T08:00:00+14:01",
    "2024-05-01T08:00:00-14:01",
    "2024-05-01T08:00:00+13:60",
    "2024-05-01T08:00:00+1400",
    "2024-05-01T08:00:00+14:00Z",
    "1970-01-01T00:00:00+00:01",
    "1969-12-31T23:00:00-02:00",
    "1969-12-31T23:59:59",
    "9999-12-31T23:59:59-00:01",
    "10000-01-01T00:00:00Z",
    "2024-05-01T08:00:00.00000000000000000000000000000000000000000000Z",
    "2024-05-01T08:00:00.00000000000000000000000000000000000000000000",
];

/// Texts of moments but for their offsets.
static NO_OFFSETS: [&str; 4] = [
    "2024-02-29T00:00:00",
    "2024-02-29T00:00:00.25",
    "2000-01-15T00:00:00",
    "2024-05-01T08:00:00.0000000000000000000000000000000000000000000",
];

/// Lengths of time. The last has 64 bytes.
static SPANS: [(&str, i64); 13] = [
    ("P1DT90S", 86_490_000),
    ("-PT0.5S", -500),
    ("PT0S", 0),
    ("-PT0.0009S", 0),
    ("P0Y0M0DT0H1M30.000S", 90_000),
    ("PT1.5S", 1_500),
    ("PT36H", 129_600_000),
    ("PT1H2M3.4567S", 3_723_456),
    ("P000000000000001D", 86_400_000),
    ("P1000000D", 86_400_000_000_000),
    ("-P1000000D", -86_400_000_000_000),
    ("-P120D", -10_368_000_000),
    (
        "PT1.00000000000000000000000000000000000000000000000000000000000S",
        1_000,
    ),
];

/// Texts of no length. The last has 65 bytes.
static NO_SPANS: [&str; 26] = [
    "P0000000000000001D",
    "P1000000DT0.001S",
    "P999999999999999DT999999999999999H",
    "P-1347M",
    "P1Y2MT",
    "",
    "P",
    "PT",
    "-",
    "+PT1S",
    "1S",
    "PS",
    "P1",
    "P1S",
    "P1H",
    "PT1D",
    "PT1S1M",
    "P1D1D",
    "P1M1Y",
    "P1W",
    "PT1.S",
    "PT.5S",
    "PT1.5M",
    "P1DT",
    "PT1S ",
    "PT1.000000000000000000000000000000000000000000000000000000000000S",
];

/// Lengths with years or months.
static CALENDAR_SPANS: [&str; 7] = [
    "P1Y2M3DT10H30M",
    "P1347Y",
    "P1Y2MT2H",
    "P0Y1347M0D",
    "-P1347M",
    "P1M",
    "P1Y1000001D",
];

/// Moments as they are written.
static WRITTEN_MOMENTS: [(i64, &str); 9] = [
    (0, "1970-01-01T00:00:00Z"),
    (31_535_999_999, "1970-12-31T23:59:59.999Z"),
    (68_169_600_000, "1972-02-29T00:00:00Z"),
    (951_782_400_001, "2000-02-29T00:00:00.001Z"),
    (1_034_269_200_000, "2002-10-10T17:00:00Z"),
    (1_081_776_015_500, "2004-04-12T13:20:15.500Z"),
    (1_709_252_999_999, "2024-03-01T00:29:59.999Z"),
    (4_107_542_400_000, "2100-03-01T00:00:00Z"),
    (253_402_300_799_999, "9999-12-31T23:59:59.999Z"),
];

/// Lengths as they are written.
static WRITTEN_SPANS: [(i64, &str); 10] = [
    (0, "PT0S"),
    (90_000, "PT1M30S"),
    (1_500, "PT1.500S"),
    (86_400_000, "P1D"),
    (-500, "-PT0.500S"),
    (86_490_000, "P1DT1M30S"),
    (3_600_000, "PT1H"),
    (-86_400_000_000_000, "-P1000000D"),
    (-86_399_999_999_999, "-P999999DT23H59M59.999S"),
    (60_001, "PT1M0.001S"),
];

fn reads_moment(text: &str, ms: i64) -> bool {
    match read_moment(text.as_bytes()) {
        Ok(moment) => moment.ms() == ms,
        Err(_) => false,
    }
}

fn refuses_moment(text: &str, error: TimeError) -> bool {
    match read_moment(text.as_bytes()) {
        Ok(_) => false,
        Err(told) => told == error,
    }
}

#[test]
fn moments_are_read(rt: HostRuntime) {
    for (text, ms) in &MOMENTS {
        assert!(rt; reads_moment(text, *ms), "{text}");
    }
    for text in &NO_MOMENTS {
        assert!(rt; refuses_moment(text, TimeError::BadTime), "{text}");
    }
    for text in &NO_OFFSETS {
        assert!(rt; refuses_moment(text, TimeError::NoOffset), "{text}");
    }
}

fn reads_span(text: &str, ms: i64) -> bool {
    match read_span(text.as_bytes()) {
        Ok(span) => span.ms() == ms,
        Err(_) => false,
    }
}

fn refuses_span(text: &str, error: SpanError) -> bool {
    match read_span(text.as_bytes()) {
        Ok(_) => false,
        Err(told) => told == error,
    }
}

#[test]
fn spans_are_read(rt: HostRuntime) {
    for (text, ms) in &SPANS {
        assert!(rt; reads_span(text, *ms), "{text}");
    }
    for text in &NO_SPANS {
        assert!(rt; refuses_span(text, SpanError::BadSpan), "{text}");
    }
    for text in &CALENDAR_SPANS {
        assert!(rt; refuses_span(text, SpanError::CalendarSpan), "{text}");
    }
}

fn writes_moment(ms: i64, text: &str) -> bool {
    let Some(moment) = Moment::new(ms) else {
        return false;
    };
    let mut into = [b'?'; 24];
    let len = write_moment(moment, &mut into);
    into.get(..len) == Some(text.as_bytes())
}

fn writes_span(ms: i64, text: &str) -> bool {
    let Some(span) = Span::new(ms) else {
        return false;
    };
    let mut into = [b'?'; 32];
    let len = write_span(span, &mut into);
    into.get(..len) == Some(text.as_bytes())
}

#[test]
fn times_are_written(rt: HostRuntime) {
    for (ms, text) in &WRITTEN_MOMENTS {
        assert!(rt; writes_moment(*ms, text), "{text}");
    }
    for (ms, text) in &WRITTEN_SPANS {
        assert!(rt; writes_span(*ms, text), "{text}");
    }
}
