//! What no clause of `gr_desk` says: worked examples, each public call once on its way to an answer, and real files.

ghost use Rattle.std.specs.Prelude.{◌<◌, ◌^◌};

use crate::text_fields::field_of;
use gr_desk::{
    CallKind, Desk, Fail as FailedCall, Failed, MemDesk, NeverFails, Port, PortFault, RealDesk,
    RuntimeFiles, read_port, write_all,
};
use std::alloc::{AllocError, Global};
use std::fmt::Display;
use std::io::ErrorKind;
use std::test::Fail;
use std::{fs, io};
use test_rows::{Answers, RowFault, check_rows, four_fields, number_of, text_of};

fn one_file(alloc: Global, bytes: &[u8]) -> Result<Vec<(String, Vec<u8>)>, AllocError> {
    let mut files = Vec::new(alloc);
    files.push((String::from_str(alloc, "a.gr")?, bytes.to_vec(alloc)?))?;
    Ok(files)
}

fn port_of(word: &'static str) -> Result<Port, RowFault> {
    match word {
        "In" => Ok(Port::In),
        "CertIn" => Ok(Port::CertIn),
        "RoutesOut" => Ok(Port::RoutesOut),
        "CertOut" => Ok(Port::CertOut),
        "Report" => Ok(Port::Report),
        _ => Err(RowFault::OtherFields(word)),
    }
}

fn kind_of(word: &'static str) -> Result<CallKind, RowFault> {
    match word {
        "Open" => Ok(CallKind::Open),
        "Create" => Ok(CallKind::Create),
        "Read" => Ok(CallKind::Read),
        "Write" => Ok(CallKind::Write),
        _ => Err(RowFault::OtherFields(word)),
    }
}

/// The call that a word as `In/Read/2` names: by its port, its kind, and how many such calls go before it.
fn failing_call(word: &'static str) -> Result<FailedCall, RowFault> {
    let Some((port, rest)) = word.split_once('/') else {
        return Err(RowFault::OtherFields(word));
    };
    let Some((kind, nth)) = rest.split_once('/') else {
        return Err(RowFault::OtherFields(word));
    };
    let (port, call, nth) = (port_of(port)?, kind_of(kind)?, number_of(nth)?);
    Ok(FailedCall { port, call, nth })
}

/// The calls that a field names.
fn failing_of(alloc: Global, field: &'static str) -> Result<Vec<FailedCall>, RowFault> {
    let mut failing = Vec::new(alloc);
    for word in field.split_whitespace() {
        failing.push(failing_call(word)?)?;
    }
    Ok(failing)
}

/// Whether a call that moves nothing or a whole text went well.
fn ended(alloc: Global, answer: Result<(), Failed>) -> Result<String, Fail> {
    Ok(String::from_str(alloc, if answer.is_ok() { "ok" } else { "failed" })?)
}

/// How many bytes a call moved, or that it failed.
fn moved(alloc: Global, answer: Result<usize, Failed>) -> Result<String, Fail> {
    match answer {
        Ok(count) => Ok(count.to_string(alloc)?),
        Err(_) => Ok(String::from_str(alloc, "failed")?),
    }
}

/// What is left at a port, within a limit, or why there is no such text.
fn read_text<D: Desk>(alloc: Global, desk: &mut D, port: Port, limit: u64) -> Result<String, Fail>
    requires { limit < 2 ^ 32 }
{
    match read_port(alloc, desk, port, limit) {
        Ok(bytes) => field_of(alloc, &bytes),
        Err(PortFault::TooLong) => Ok(String::from_str(alloc, "too long")?),
        Err(PortFault::Failed) => Ok(String::from_str(alloc, "failed")?),
        Err(PortFault::NoMemory) => Err(Fail::new("no memory")),
    }
}

/// What one read into so much room answers.
fn taken<D: Desk>(alloc: Global, desk: &mut D, port: Port, room: usize) -> Result<String, Fail> {
    let mut room = vec![in alloc; 0u8; room]?;
    moved(alloc, desk.read(port, &mut room))
}

/// What writing the text of a field whole answers.
fn written<D: Desk>(alloc: Global, desk: &mut D, port: Port, field: &str) -> Result<String, Fail> {
    let text = text_of(alloc, field)?;
    ended(alloc, write_all(desk, port, text.as_bytes()))
}

/// What a call of this name answers at a port. `take` and `put` are one read and one write; `read` and `write` move a text whole.
fn answer_at<D: Desk>(
    alloc: Global,
    desk: &mut D,
    name: &'static str,
    port: Port,
    rest: &'static str,
) -> Result<String, Fail> {
    match name {
        "open" => ended(alloc, desk.open(port, rest)),
        "create" => ended(alloc, desk.create(port, rest)),
        "take" => taken(alloc, desk, port, number_of(rest)?),
        "put" => moved(alloc, desk.write(port, rest.as_bytes())),
        "read" => read_text(alloc, desk, port, number_of::<u32>(rest)? as u64),
        "write" => written(alloc, desk, port, rest),
        _ => Err(Fail::new(name)),
    }
}

/// What a call answers, which its name, its port and a name, a number or a text tell.
fn answer_of<D: Desk>(alloc: Global, desk: &mut D, call: &'static str) -> Result<String, Fail> {
    let (name, rest) = call.split_once(' ').unwrap_or((call, ""));
    let (port, rest) = rest.split_once(' ').unwrap_or((rest, ""));
    answer_at(alloc, desk, name, port_of(port)?, rest)
}

/// What the calls of a field answer one behind another, each with a comma behind it.
fn answers_of<D: Desk>(alloc: Global, desk: &mut D, calls: &'static str) -> Result<String, Fail> {
    let mut text = String::new(alloc);
    for call in calls.split(',') {
        text.push_str(answer_of(alloc, desk, call)?.as_str())?;
        text.push_str(",")?;
    }
    Ok(text)
}

/// The same, with what stands on the desk behind them: the routes, the report, whether the desk strayed, and how often it starved.
fn left_by(alloc: Global, desk: &mut MemDesk, calls: &'static str) -> Result<String, Fail> {
    let answers = answers_of(alloc, desk, calls)?;
    let routes = field_of(alloc, desk.written(Port::RoutesOut))?;
    let report = field_of(alloc, desk.written(Port::Report))?;
    let (strayed, starved) = (desk.strayed(), desk.starved());
    Ok(format!(in alloc; "{answers}{routes}/{report}/{strayed} {starved}")?)
}

/// A desk over these files that expects `a.gr` at its first port.
fn expecting(
    alloc: Global,
    files: Vec<(String, Vec<u8>)>,
    failing: Vec<FailedCall>,
) -> Result<MemDesk, AllocError> {
    let name = String::from_str(alloc, "a.gr")?;
    let mut names = Vec::new(alloc);
    names.push((Port::In, name))?;
    Ok(MemDesk::expecting(alloc, files, failing, names))
}

/// A desk over these files: one that expects a name, one without steps, or one with steps of so many bytes.
fn desk_of(
    alloc: Global,
    way: &'static str,
    files: Vec<(String, Vec<u8>)>,
    failing: Vec<FailedCall>,
) -> Result<MemDesk, RowFault> {
    match way {
        "expecting" => Ok(expecting(alloc, files, failing)?),
        "new" => Ok(MemDesk::new(alloc, files, failing)),
        _ => match number_of::<usize>(way)? {
            0 => Err(RowFault::NoNumber(way)),
            step => Ok(MemDesk::with_step(alloc, files, failing, step)),
        },
    }
}

struct Desks;

impl Answers for Desks {
    fn answer(&self, alloc: Global, given: &'static str) -> Result<String, Fail> {
        let (text, way, failing, calls) = four_fields(given)?;
        let failing = failing_of(alloc, failing)?;
        let files = one_file(alloc, text.as_bytes())?;
        if way == "never" {
            return answers_of(alloc, &mut NeverFails::new(files), calls);
        }
        let mut desk = desk_of(alloc, way, files, failing)?;
        left_by(alloc, &mut desk, calls)
    }
}

/// The text of the one file, the way of the desk, its calls that fail, the calls that are made, and what they answer and leave. `never`
/// is a desk of which no call fails. A `;` stands for a line end. A desk strays at a name that it doesn't expect.
const DESKS: &str = "# as many bytes as the limit, and one more
hello world|new||open In a.gr,read In 11|ok,hello world,//true 0
hello world|new||open In a.gr,read In 10|ok,too long,//true 0
hello world|never||open In a.gr,read In 11|ok,hello world,
# a listed open, a name that no file has, and a listed read
hello world|new|In/Open/1|open In a.gr,open In a.gr,open In a.gr,open In b.gr|ok,failed,ok,failed,//true 0
hello world|new|In/Read/0|open In a.gr,read In 11|ok,failed,//true 0
# a create that fails keeps what was written
hello world|new|RoutesOut/Create/1|create RoutesOut a.routes,write RoutesOut a 0;!;,create RoutesOut b.routes|ok,ok,failed,a 0;!;//true 0
# without steps a text is one write, and one that fails writes nothing
hello world|new|Report/Write/0|write Report nets 1;,write Report nets 1;,write Report nets 1;|failed,ok,ok,/nets 1;nets 1;/false 0
hello world|new|Report/Write/1|write Report nets 1;,write Report nets 1;,write Report nets 1;|ok,failed,ok,/nets 1;nets 1;/false 0
# by steps a call moves a step, and a text comes whole
one net|1|In/Read/100 RoutesOut/Write/100|open In a.gr,take In 16,put Report one net,open In a.gr,read In 7,create RoutesOut a.routes,write RoutesOut one net|ok,1,1,ok,one net,ok,ok,one net/o/true 0
one net|2|In/Read/100 RoutesOut/Write/100|open In a.gr,take In 16,put Report one net,open In a.gr,read In 7,create RoutesOut a.routes,write RoutesOut one net|ok,2,2,ok,one net,ok,ok,one net/on/true 0
one net|3|In/Read/100 RoutesOut/Write/100|open In a.gr,take In 16,put Report one net,open In a.gr,read In 7,create RoutesOut a.routes,write RoutesOut one net|ok,3,3,ok,one net,ok,ok,one net/one/true 0
# by steps of 6 or less the third read of seven bytes is one, since the last finds none; by steps of 3 or less the third write is one
one net|1|In/Read/2 RoutesOut/Write/2|open In a.gr,read In 7,create RoutesOut a.routes,write RoutesOut one net|ok,failed,ok,failed,on//true 0
one net|2|In/Read/2 RoutesOut/Write/2|open In a.gr,read In 7,create RoutesOut a.routes,write RoutesOut one net|ok,failed,ok,failed,one //true 0
one net|3|In/Read/2 RoutesOut/Write/2|open In a.gr,read In 7,create RoutesOut a.routes,write RoutesOut one net|ok,failed,ok,failed,one ne//true 0
one net|4|In/Read/2 RoutesOut/Write/2|open In a.gr,read In 7,create RoutesOut a.routes,write RoutesOut one net|ok,failed,ok,ok,one net//true 0
one net|5|In/Read/2 RoutesOut/Write/2|open In a.gr,read In 7,create RoutesOut a.routes,write RoutesOut one net|ok,failed,ok,ok,one net//true 0
one net|6|In/Read/2 RoutesOut/Write/2|open In a.gr,read In 7,create RoutesOut a.routes,write RoutesOut one net|ok,failed,ok,ok,one net//true 0
one net|7|In/Read/2 RoutesOut/Write/2|open In a.gr,read In 7,create RoutesOut a.routes,write RoutesOut one net|ok,one net,ok,ok,one net//true 0
one net|8|In/Read/2 RoutesOut/Write/2|open In a.gr,read In 7,create RoutesOut a.routes,write RoutesOut one net|ok,one net,ok,ok,one net//true 0
# a name that is not expected strays
hello world|expecting||open In a.gr|ok,//false 0
hello world|expecting||open In b.gr|failed,//true 0";

#[test]
fn calls_of_desks_in_memory_answer_and_leave(rt: HostRuntime) -> Result<(), Fail> {
    check_rows(rt.alloc(), DESKS, &Desks)
}

/// Whether a text is written under a name, and then the same one is read under another, or the same.
fn is_moved<D: Desk>(alloc: Global, desk: &mut D, made: &str, opened: &str, text: &[u8]) -> bool {
    if desk.create(Port::RoutesOut, made).is_err()
        || write_all(desk, Port::RoutesOut, text).is_err()
        || desk.open(Port::In, opened).is_err()
    {
        return false;
    }
    match read_port(alloc, desk, Port::In, 100_000) {
        Ok(read) => read.as_slice() == text,
        Err(_) => false,
    }
}

fn is_moved_in_memory(alloc: Global, text: &[u8]) -> Result<bool, AllocError> {
    let name = "a".repeat(alloc, 5_000)?;
    let mut desk = MemDesk::new(alloc, one_file(alloc, text)?, Vec::new(alloc));
    Ok(is_moved(alloc, &mut desk, &name, "a.gr", text) && desk.written(Port::RoutesOut) == text)
}

// Each call that takes memory, at a size that a user meets.
#[test]
fn a_hundred_thousand_bytes_are_written_and_read(rt: HostRuntime) -> Result<(), Fail> {
    let text = vec![in rt.alloc(); b'x'; 100_000]?;
    assert!(rt; is_moved_in_memory(rt.alloc(), &text)?);
    Ok(())
}

fn is_kept(rt: &HostRuntime, text: &[u8]) -> bool {
    let mut desk = RealDesk::new(rt);
    is_moved(
        rt.alloc(),
        &mut desk,
        "desk_test.txt",
        "desk_test.txt",
        text,
    )
}

/// Whether a file is opened, and is not once it is gone, although it is open at the port, and whether standard output takes a text.
fn is_gone(rt: &HostRuntime) -> bool {
    let mut desk = RealDesk::new(rt);
    desk.open(Port::In, "desk_test.txt").is_ok()
        && write_all(&mut desk, Port::Report, b"one net\n").is_ok()
        && fs::remove_file(rt, "desk_test.txt").is_ok()
        && desk.open(Port::In, "desk_test.txt").is_err()
}

// Each text is shorter than the one before: a create empties its file, and an open reads anew.
#[test]
fn files_and_standard_output_are_reached(rt: HostRuntime) -> Result<(), Fail> {
    let long = vec![in rt.alloc(); b'x'; 100_000]?;
    assert!(rt; is_kept(&rt, &long) && is_kept(&rt, b"one net\n") && is_kept(&rt, b"!"));
    assert!(rt; is_gone(&rt));
    Ok(())
}

/// Whether a folder is opened and then fails to be read, and a full device and a closed output take nothing.
fn fails_at_devices(rt: &HostRuntime) -> bool {
    let mut desk = RealDesk::over(RuntimeFiles::new(rt), io::writer(&Closed));
    desk.open(Port::CertIn, ".").is_ok()
        && read_port(rt.alloc(), &mut desk, Port::CertIn, 100).is_err()
        && desk.create(Port::CertOut, "/dev/full").is_ok()
        && write_all(&mut desk, Port::CertOut, b"one net\n").is_err()
        && write_all(&mut desk, Port::Report, b"one net\n").is_err()
}

// A device's own fault is the desk's.
#[test]
fn a_device_that_fails_is_a_failed_call(rt: HostRuntime) {
    assert!(rt; fails_at_devices(&rt));
}

// An output that takes nothing.
struct Closed;

impl Print for Closed {
    fn print<D: Display + Drop>(&self, _value: D) -> io::Result<()> {
        Err(io::Error::from(ErrorKind::BrokenPipe))
    }

    fn println<D: Display + Drop>(&self, _value: D) -> io::Result<()> {
        Err(io::Error::from(ErrorKind::BrokenPipe))
    }

    fn write_all(&self, _bytes: &[u8]) -> io::Result<()> {
        Err(io::Error::from(ErrorKind::BrokenPipe))
    }
}
