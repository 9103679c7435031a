//! The desk over files and standard output.

ghost use Rattle.std.specs.Prelude.{◌≡◌, ◌≢◌, ◌<◌, None, IsNone, IsErr, OnOk, OnErr, IfOk, is_some, length, option_and_then};
ghost use Rattle.std.specs.Io.{ReadsAtMost, WritesAtMost};
ghost use Rattle.std.specs.Io.KnownBytes.{Keeps, ReadConsumes, WriteAppends};
ghost use Rattle.gr_desk.specs.declared.port.Port.TheVariants.{Report};
ghost use Rattle.gr_desk.specs.Calls.{Opens, Creates, Reads, Writes};
ghost use Rattle.gr_desk.specs.OpenFiles.{file_at, told_at, GivesFile, KeepsFiles};
ghost use Rattle.gr_desk.specs.Made.{KeepsNames, MakesName};
ghost use Rattle.gr_desk.specs.Untold.{untold};

use crate::desk::Desk;
use crate::failed::Failed;
use crate::fault_counts::FaultCounts;
use crate::file_store::FileStore;
use crate::open_files::OpenFiles;
use crate::port::Port;
use crate::runtime_files::RuntimeFiles;
use std::io;
use std::io::{Printer, Read, Write};
use std::rt::Files;

/// The desk over the files of a store, with a writer for its report. It tells nothing of the bytes that it moves.
///
/// One file may be open at each port but the report. A `write` that takes nothing of some bytes counts as failed, and
/// so does any call at a port that has no file.
#[derive(Drop)]
pub struct RealDesk<S: FileStore + Drop, W: Write + Drop> {
    store: S,
    files: OpenFiles<S::File>,
    report: W,
    faults: FaultCounts,
}

// A read from the file, if there is one.
fn read_file<F: Read>(file: &mut Option<F>, buf: &mut [u8]) -> Result<usize, Failed>
    ensures bound { ReadsAtMost result buf.new }
    ensures bytes { ReadConsumes (option_and_then F.remaining file.old) (option_and_then F.remaining file.new) result buf.new }
    ensures no_file { IsNone file.old → IsErr result }
    ensures still { is_some file.new ≡ is_some file.old }
{
    match file {
        None => Err(Failed),
        Some(file) => match file.read(buf) {
            Ok(n) => Ok(n),
            Err(_) => Err(Failed),
        },
    }
}

// A write to the file, if there is one.
fn write_file<F: Write>(file: &mut Option<F>, bytes: &[u8]) -> Result<usize, Failed>
    ensures bound { WritesAtMost result bytes.now }
    ensures some { 0 < length bytes.now → OnOk result (result ≢ Ok 0) }
    ensures bytes { WriteAppends (option_and_then F.contents file.old) (option_and_then F.contents file.new) result bytes.now }
    ensures no_file { IsNone file.old → IsErr result }
    ensures still { is_some file.new ≡ is_some file.old }
{
    match file {
        None => Err(Failed),
        Some(file) => write_to(file, bytes),
    }
}

// A write, which failed where nothing of some bytes was taken.
fn write_to<W: Write>(writer: &mut W, bytes: &[u8]) -> Result<usize, Failed>
    ensures bound { WritesAtMost result bytes.now }
    ensures some { 0 < length bytes.now → OnOk result (result ≢ Ok 0) }
    ensures bytes { WriteAppends (W.contents writer.old) (W.contents writer.new) result bytes.now }
{
    match writer.write(bytes) {
        Ok(n) if n > 0 || bytes.is_empty() => Ok(n),
        _ => Err(Failed),
    }
}

impl<'a, R: Files + Print> RealDesk<RuntimeFiles<'a, R>, Printer<'a, R>> {
    /// A desk over the runtime's files, with no file open, whose report is standard output. A file that it opened or
    /// created is not created anew, under whatever name.
    pub fn new(rt: &'a R) -> Self
        ensures files { (p : Port) → file_at result.files p ≡ None }
        ensures in_faults { result.faults.in_faults ≡ 0 }
        ensures out_faults { result.faults.out_faults ≡ 0 }
    {
        RealDesk::over(RuntimeFiles::new(rt), io::writer(rt))
    }
}

impl<S: FileStore + Drop, W: Write + Drop> RealDesk<S, W> {
    /// A desk with no file open, whose report goes to this writer.
    pub fn over(store: S, report: W) -> Self
        ensures store { result.store ≡ store }
        ensures files { (p : Port) → file_at result.files p ≡ None }
        ensures report { result.report ≡ report }
        ensures in_faults { result.faults.in_faults ≡ 0 }
        ensures out_faults { result.faults.out_faults ≡ 0 }
    {
        RealDesk {
            store,
            files: OpenFiles::none(),
            report,
            faults: FaultCounts::none(),
        }
    }
}

impl<S: FileStore + Drop, W: Write + Drop> Desk for RealDesk<S, W> {
    ghost told = { λ s. untold s.faults };

    fn open(&mut self, port: Port, name: &str) -> Result<(), Failed>
        ensures does { Opens (untold self.old.faults) (untold self.new.faults) port name.now result }
        ensures file { GivesFile self.old.files self.new.files port (λ f. S.opened f name.now) result }
        ensures names { KeepsNames S.made self.old.store self.new.store }
        ensures report { self.new.report ≡ self.old.report }
    {
        match self.store.open(name) {
            Ok(file) if !matches!(port, Port::Report) => {
                *self.files.at_mut(port) = Some(file);
                Ok(())
            }
            _ => Err(self.faults.count_in()),
        }
    }

    fn create(&mut self, port: Port, name: &str) -> Result<(), Failed>
        ensures does { Creates (untold self.old.faults) (untold self.new.faults) port name.now result }
        ensures file { GivesFile self.old.files self.new.files port (λ f. S.created f name.now) result }
        ensures names { MakesName S.made self.old.store self.new.store name.now result }
        ensures report { self.new.report ≡ self.old.report }
    {
        // The report is no file: nothing of that name is to be emptied.
        if matches!(port, Port::Report) {
            return Err(self.faults.count_out());
        }
        match self.store.create(name) {
            Ok(file) => {
                *self.files.at_mut(port) = Some(file);
                Ok(())
            }
            Err(_) => Err(self.faults.count_out()),
        }
    }

    fn read(&mut self, port: Port, buf: &mut [u8]) -> Result<usize, Failed>
        ensures bound { ReadsAtMost result buf.new }
        ensures does { Reads (untold self.old.faults) (untold self.new.faults) port result buf.new }
        ensures bytes { ReadConsumes (told_at S.File.remaining self.old.files port) (told_at S.File.remaining self.new.files port) result buf.new }
        ensures no_file { IsNone (file_at self.old.files port) → IsErr result }
        ensures files { KeepsFiles self.old.files self.new.files port }
        ensures store { self.new.store ≡ self.old.store }
        ensures report { self.new.report ≡ self.old.report }
    {
        match read_file(self.files.at_mut(port), buf) {
            Ok(count) => Ok(count),
            Err(Failed) => Err(self.faults.count_in()),
        }
    }

    fn write(&mut self, port: Port, bytes: &[u8]) -> Result<usize, Failed>
        ensures bound { WritesAtMost result bytes.now }
        ensures some { 0 < length bytes.now → OnOk result (result ≢ Ok 0) }
        ensures does { Writes (untold self.old.faults) (untold self.new.faults) port result bytes.now }
        ensures report { port ≡ Report → WriteAppends (W.contents self.old.report) (W.contents self.new.report) result bytes.now }
        ensures no_report { port ≢ Report → self.new.report ≡ self.old.report }
        ensures bytes { port ≢ Report → WriteAppends (told_at S.File.contents self.old.files port) (told_at S.File.contents self.new.files port) result bytes.now }
        ensures no_file { port ≢ Report → IsNone (file_at self.old.files port) → IsErr result }
        ensures files { KeepsFiles self.old.files self.new.files port }
        ensures store { self.new.store ≡ self.old.store }
    {
        let written = match port {
            Port::Report => write_to(&mut self.report, bytes),
            _ => write_file(self.files.at_mut(port), bytes),
        };
        match written {
            Ok(n) => Ok(n),
            Err(Failed) => Err(self.faults.count_out()),
        }
    }
}
