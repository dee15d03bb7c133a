//! The document that a target stands for.

ghost use Rattle.std.specs.Prelude.{◌≡◌, ◌++◌, ◌↔◌, ◌≤◌, length, is_some, Some, None, IfOk, OnOk, IsErrOf, option_map, option_and_then};
ghost use Rattle.std.specs.Cow.{cow_str_bytes};
ghost use Rattle.siri_json.specs.Tokens.{tokens_of};
ghost use Rattle.siri_json.specs.Tree.{longest_document};
ghost use Rattle.siri_records.specs.declared.item.Service.TheVariants as services;
ghost use Rattle.siri_tables.specs.Appended.{row_tokens};
ghost use Rattle.siri_tables.specs.Writing.{written_text};
ghost use Rattle.siri_deliveries.specs.declared.names.TheConstants.{LINES};
ghost use Rattle.siri_queries.specs.Documents.{given, one_line, given_lines, request_name, asked_of, document_tree, document_of};
ghost use Rattle.siri_queries.specs.Pairs.{path_in};
ghost use Rattle.siri_queries.specs.Paths.{service_at};

use crate::errors::QueryError;
use crate::pairs::{first_value, parts};
use crate::paths::service_at;
use siri_base::{OutOfMemory, Text};
use siri_deliveries::names;
use siri_items::names as item_names;
use siri_json::Output;
use siri_records::Service;
use std::alloc::Global;
use std::borrow::CowStr;

/// Writes the row of a text that may be absent.
fn text_row(out: &mut Output, name: &str, text: &Option<CowStr<'_>>) -> Result<(), OutOfMemory>
    ensures { OnOk result (out.new ≡ out.old ++ row_tokens name.now (option_and_then written_text (option_map cow_str_bytes text.now))) }
{
    match text {
        Some(text) => {
            out.key(name)?;
            out.text(text.as_str())
        }
        None => Ok(()),
    }
}

/// Writes the row of that name, where a pair gives it.
fn given(out: &mut Output, name: &str, query: &[u8]) -> Result<(), OutOfMemory>
    ensures { OnOk result (out.new ≡ out.old ++ row_tokens name.now (given query.now name.now).1) }
{
    let text = first_value(out.alloc(), query, name)?;
    text_row(out, name, &text)
}

/// Whether Lines is written: a line or a direction is there.
#[tactic(auto, using(crate::proofs::InOrder::one_line_is_some))]
fn has_line(line: &Option<CowStr<'_>>, direction: &Option<CowStr<'_>>) -> bool
    ensures { result ≡ is_some (one_line (option_map cow_str_bytes line.now) (option_map cow_str_bytes direction.now)) }
{
    line.is_some() || direction.is_some()
}

/// Writes the row Lines with its one LineDirection, where a line or a direction is there.
#[tactic(auto, using(crate::proofs::InOrder::line_in_order, crate::proofs::InOrder::line_left_out))]
fn lines_with(
    out: &mut Output,
    line: &Option<CowStr<'_>>,
    direction: &Option<CowStr<'_>>,
) -> Result<(), OutOfMemory>
    ensures { OnOk result (out.new ≡ out.old ++ row_tokens LINES.now
        (one_line (option_map cow_str_bytes line.now) (option_map cow_str_bytes direction.now))) }
{
    if !has_line(line, direction) {
        return Ok(());
    }
    out.key(names::LINES)?;
    out.begin_object()?;
    out.key(names::LINE_DIRECTION)?;
    out.begin_list()?;
    out.begin_object()?;
    text_row(out, item_names::DIRECTION_REF, direction)?;
    text_row(out, item_names::LINE_REF, line)?;
    out.end_object()?;
    out.end_list()?;
    out.end_object()
}

/// Writes the row Lines, where a pair gives a line or a direction.
fn lines_row(out: &mut Output, query: &[u8]) -> Result<(), OutOfMemory>
    ensures { OnOk result (out.new ≡ out.old ++ row_tokens LINES.now (given_lines query.now)) }
{
    let line = first_value(out.alloc(), query, item_names::LINE_REF)?;
    let direction = first_value(out.alloc(), query, item_names::DIRECTION_REF)?;
    lines_with(out, &line, &direction)
}

/// Writes what a query asks of Stop Monitoring.
#[tactic(auto, using(crate::proofs::InOrder::stop_in_order))]
fn stop_asked(out: &mut Output, query: &[u8]) -> Result<(), OutOfMemory>
    ensures { OnOk result (out.new ≡ out.old ++ tokens_of (asked_of services.Stop query.now)) }
{
    out.begin_object()?;
    given(out, item_names::DESTINATION_REF, query)?;
    given(out, item_names::DIRECTION_REF, query)?;
    given(out, item_names::LINE_REF, query)?;
    given(out, names::MAXIMUM_STOP_VISITS, query)?;
    given(out, item_names::MONITORING_REF, query)?;
    given(out, item_names::OPERATOR_REF, query)?;
    given(out, names::PREVIEW_INTERVAL, query)?;
    given(out, item_names::START_TIME, query)?;
    out.end_object()
}

/// Writes what a query asks of Estimated Timetable.
#[tactic(auto, using(crate::proofs::InOrder::timetable_in_order))]
fn timetable_asked(out: &mut Output, query: &[u8]) -> Result<(), OutOfMemory>
    ensures { OnOk result (out.new ≡ out.old ++ tokens_of (asked_of services.Timetable query.now)) }
{
    out.begin_object()?;
    lines_row(out, query)?;
    given(out, item_names::OPERATOR_REF, query)?;
    given(out, names::PREVIEW_INTERVAL, query)?;
    out.end_object()
}

/// Writes what a query asks of Vehicle Monitoring.
#[tactic(auto, using(crate::proofs::InOrder::vehicle_in_order))]
fn vehicle_asked(out: &mut Output, query: &[u8]) -> Result<(), OutOfMemory>
    ensures { OnOk result (out.new ≡ out.old ++ tokens_of (asked_of services.Vehicle query.now)) }
{
    out.begin_object()?;
    given(out, item_names::DIRECTION_REF, query)?;
    given(out, item_names::LINE_REF, query)?;
    given(out, item_names::VEHICLE_REF, query)?;
    out.end_object()
}

/// Writes what a query asks of Situation Exchange.
#[tactic(auto, using(crate::proofs::InOrder::situation_in_order))]
fn situation_asked(out: &mut Output, query: &[u8]) -> Result<(), OutOfMemory>
    ensures { OnOk result (out.new ≡ out.old ++ tokens_of (asked_of services.Situation query.now)) }
{
    out.begin_object()?;
    given(out, item_names::LINE_REF, query)?;
    given(out, item_names::OPERATOR_REF, query)?;
    given(out, names::PREVIEW_INTERVAL, query)?;
    given(out, item_names::START_TIME, query)?;
    given(out, item_names::STOP_POINT_REF, query)?;
    out.end_object()
}

/// Writes what a query asks of a service.
fn asked(out: &mut Output, service: Service, query: &[u8]) -> Result<(), OutOfMemory>
    ensures { OnOk result (out.new ≡ out.old ++ tokens_of (asked_of service query.now)) }
{
    match service {
        Service::Stop => stop_asked(out, query),
        Service::Timetable => timetable_asked(out, query),
        Service::Vehicle => vehicle_asked(out, query),
        Service::Situation => situation_asked(out, query),
    }
}

/// The name under which a ServiceRequest has the requests of a service.
fn request_name(service: Service) -> &'static str
    ensures { result.now ≡ request_name service }
{
    match service {
        Service::Stop => names::STOP_MONITORING_REQUEST,
        Service::Timetable => names::ESTIMATED_TIMETABLE_REQUEST,
        Service::Vehicle => names::VEHICLE_MONITORING_REQUEST,
        Service::Situation => names::SITUATION_EXCHANGE_REQUEST,
    }
}

/// Writes the whole document: a ServiceRequest with one request of the service.
#[tactic(auto, using(crate::proofs::InOrder::document_in_order))]
fn document(out: &mut Output, service: Service, query: &[u8]) -> Result<(), OutOfMemory>
    ensures { OnOk result (out.new ≡ out.old ++ tokens_of (document_tree service query.now)) }
{
    out.begin_object()?;
    out.key(names::SIRI)?;
    out.begin_object()?;
    out.key(names::SERVICE_REQUEST)?;
    out.begin_object()?;
    out.key(request_name(service))?;
    out.begin_list()?;
    asked(out, service, query)?;
    out.end_list()?;
    out.end_object()?;
    out.end_object()?;
    out.end_object()
}

/// The document that a target stands for: a ServiceRequest with one request of the service whose path it has. Its
/// members are the rows of that service's request (EN 15531-3, CEN/TS 15531-5) that a pair of the query names, each
/// with the text of the first such pair as a string; of a timetable's, LineRef and DirectionRef stand in the one
/// LineDirection of Lines. Pairs of other names are passed over, and so is one named Lines. The document is compact,
/// members in byte order of their names, and has at most 8,388,608 bytes. `NoPath` exactly where the path is none of
/// the four, whatever the memory; never `NotQuery`.
#[tactic(auto, using(crate::proofs::InOrder::document_said, crate::proofs::Bounds::document_short))]
pub fn document_of(alloc: Global, target: &Text) -> Result<Vec<u8>, QueryError>
    ensures document { IfOk result (λ document. document_of target.now ≡ Some document.items) }
    ensures no_path { IsErrOf result QueryError.NoPath ↔ (service_at (path_in target.now) ≡ None) }
    ensures other { IsErrOf result QueryError.NotQuery → ⊥ }
    ensures bound { IfOk result (λ document. length document.items ≤ longest_document) }
{
    let (path, query) = parts(target.text().as_bytes());
    let Some(service) = service_at(path) else {
        return Err(QueryError::NoPath);
    };
    let mut out = Output::new(alloc);
    document(&mut out, service, query)?;
    Ok(out.into_text())
}
