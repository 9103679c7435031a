//! Calls that fail, as fields.

use gr_desk::{CallKind, Fail as FailedCall, Port};
use std::alloc::Global;
use std::test::Fail;
use test_rows::number_of;

/// The port of this name.
pub fn port_of(word: &str) -> Option<Port> {
    match word {
        "In" => Some(Port::In),
        "RoutesIn" => Some(Port::RoutesIn),
        "CertIn" => Some(Port::CertIn),
        "EditsIn" => Some(Port::EditsIn),
        "RoutesOut" => Some(Port::RoutesOut),
        "CertOut" => Some(Port::CertOut),
        "DesignOut" => Some(Port::DesignOut),
        "GuideOut" => Some(Port::GuideOut),
        "MapOut" => Some(Port::MapOut),
        "Report" => Some(Port::Report),
        _ => None,
    }
}

fn call_of(word: &str) -> Option<CallKind> {
    match word {
        "Open" => Some(CallKind::Open),
        "Create" => Some(CallKind::Create),
        "Read" => Some(CallKind::Read),
        "Write" => Some(CallKind::Write),
        _ => None,
    }
}

/// The one call that fails: the `nth` of this kind at this port, counted from 0.
pub fn failing_call(
    alloc: Global,
    port: &str,
    call: &str,
    nth: u32,
) -> Result<Vec<FailedCall>, Fail> {
    let port = port_of(port).ok_or("a port")?;
    let call = call_of(call).ok_or("a call")?;
    let mut failing = Vec::new(alloc);
    failing.push(FailedCall { port, call, nth })?;
    Ok(failing)
}

/// The call that a field names by its port and its kind, and maybe by how many such calls go before it: none where the field
/// is empty.
pub fn failing_of(alloc: Global, field: &'static str) -> Result<Vec<FailedCall>, Fail> {
    if field.is_empty() {
        return Ok(Vec::new(alloc));
    }
    let (port, call) = field.split_once(' ').ok_or("a call that fails")?;
    let (call, nth) = call.split_once(' ').unwrap_or((call, "0"));
    failing_call(alloc, port, call, number_of(nth)?)
}
