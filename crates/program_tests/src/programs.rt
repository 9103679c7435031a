//! The programs beside `grouter`, and where the names among their words belong.

use congestion_cli::run_map;
use gr_desk::{MemDesk, Port};
use reroute_cli::run_reroute;
use std::alloc::Global;
use std::test::Fail;
use std::thread::Threads;
use unavoidable_cli::run_unavoidable;

/// A program of which runs are told.
#[derive(Clone, Copy, Drop)]
pub enum Program {
    /// `reroute` from none.
    RerouteFromNone,
    /// `reroute` from routes.
    RerouteWithRoutes,
    /// `unavoidable`, of routes with a certificate, or of routes alone where there are three words.
    Unavoidable,
    /// `congestion_map`.
    CongestionMap,
}

/// Where the first words of a line belong, which has so many.
fn ports_of(program: Program, words: usize) -> &'static [Port] {
    match program {
        Program::RerouteFromNone => &[Port::In, Port::RoutesOut],
        Program::RerouteWithRoutes => &[Port::In, Port::RoutesIn, Port::RoutesOut],
        Program::Unavoidable => match words {
            3 => &[Port::In, Port::RoutesIn, Port::CertOut],
            _ => &[Port::In, Port::RoutesIn, Port::CertIn, Port::CertOut],
        },
        Program::CongestionMap => &[Port::In, Port::RoutesIn, Port::MapOut],
    }
}

/// The names among the words of a line, each with its port, in the order of work: a certificate behind `--cut` comes before the
/// map.
pub fn names_of(
    alloc: Global,
    program: Program,
    line: &'static str,
) -> Result<Vec<(Port, &'static str)>, Fail> {
    let cut = line.split_once(" --cut ");
    let mut names = Vec::new(alloc);
    let ports = ports_of(program, line.split(' ').count());
    for (port, word) in ports.iter().zip(line.split(' ')) {
        if let (Port::MapOut, Some((_, cert))) = (*port, cut) {
            names.push((Port::CertIn, cert))?;
        }
        names.push((*port, word))?;
    }
    Ok(names)
}

/// Runs the words, and answers the status.
pub fn status_of<R: Threads + Sync>(
    program: Program,
    rt: &R,
    alloc: Global,
    words: &Vec<String>,
    desk: &mut MemDesk,
) -> u8 {
    match program {
        Program::RerouteFromNone | Program::RerouteWithRoutes => {
            run_reroute(rt, alloc, words, desk)
        }
        Program::Unavoidable => run_unavoidable(rt, alloc, words, desk),
        Program::CongestionMap => run_map(alloc, words, desk),
    }
}
