//! The files of the machine and its standard output. A few lines each, which tell nothing of what the
//! machine holds: what they give and take is the machine's. Each call that does not fail is noted.

ghost use Rattle.std.specs.Prelude.{◌≡◌, [], None};
ghost use Rattle.esa_outside.specs.Cause.{HasCause};

use crate::heard::{Event, Note};
use crate::log::Log;
use crate::{Cabinet, Failed, Printer};
use std::fs::{File, OpenOptions};
use std::io::{self, Read, Seek, SeekFrom, Write};
use std::marker::Model;
use std::rt::Files;

/// The files of the machine, each by its path. It is seen as its count of faults and what its calls gave or
/// took.
#[derive(Drop)]
pub struct HostCabinet<R> {
    rt: R,
    faults: u64,
    heard: Log<Event>,
}

impl<R> Model for HostCabinet<R> {
    ghost use Rattle.esa_outside.specs.Host.{Account, account_code};

    ghost Value = { Account };

    ghost coded = { account_code };

    ghost view = { λ cabinet. record { faults = cabinet.faults; heard = cabinet.heard.entries } };
}

impl<R: Files + Drop> HostCabinet<R> {
    /// A cabinet over the runtime's files.
    pub fn make(rt: R) -> HostCabinet<R>
        ensures { result ≡ record { faults = 0; heard = [] } }
    {
        HostCabinet {
            rt,
            faults: 0,
            heard: Log::new(),
        }
    }
}

impl<R: Files + Drop> Cabinet for HostCabinet<R> {
    ghost told = { λ _. None };

    ghost faults = { λ cabinet. cabinet.faults };

    ghost heard = { λ cabinet. cabinet.heard };

    fn faults(&self) -> u64 {
        self.faults
    }

    fn length(&mut self, name: &str) -> Result<u64, Failed> {
        let length = counted(&mut self.faults, length(&self.rt, name))?;
        self.heard = self.heard.then(&Note::LengthOf(name, length));
        Ok(length)
    }

    fn read_at(&mut self, name: &str, at: u64, out: &mut [u8]) -> Result<(), Failed> {
        counted(&mut self.faults, read_at(&self.rt, name, at, out))?;
        self.heard = self.heard.then(&Note::PartOf(name, at, out));
        Ok(())
    }

    fn start(&mut self, name: &str) -> Result<(), Failed> {
        counted(&mut self.faults, start(&self.rt, name))?;
        self.heard = self.heard.then(&Note::Started(name));
        Ok(())
    }

    fn append(&mut self, name: &str, bytes: &[u8]) -> Result<(), Failed> {
        counted(&mut self.faults, append(&self.rt, name, bytes))?;
        self.heard = self.heard.then(&Note::Added(name, bytes));
        Ok(())
    }
}

/// The standard output. It is seen as its count of faults and what its calls printed.
#[derive(Drop)]
pub struct HostPrinter<R> {
    rt: R,
    faults: u64,
    heard: Log<Event>,
}

impl<R> Model for HostPrinter<R> {
    ghost use Rattle.esa_outside.specs.Host.{Account, account_code};

    ghost Value = { Account };

    ghost coded = { account_code };

    ghost view = { λ printer. record { faults = printer.faults; heard = printer.heard.entries } };
}

impl<R: Print + Drop> HostPrinter<R> {
    /// A printer over the runtime's standard output.
    pub fn make(rt: R) -> HostPrinter<R>
        ensures { result ≡ record { faults = 0; heard = [] } }
    {
        HostPrinter {
            rt,
            faults: 0,
            heard: Log::new(),
        }
    }
}

impl<R: Print + Drop> Printer for HostPrinter<R> {
    ghost told = { λ _. None };

    ghost faults = { λ printer. printer.faults };

    ghost heard = { λ printer. printer.heard };

    fn faults(&self) -> u64 {
        self.faults
    }

    fn line(&mut self, text: &[u8]) -> Result<(), Failed> {
        counted(&mut self.faults, print(&self.rt, text))?;
        self.heard = self.heard.then(&Note::Printed(text));
        Ok(())
    }
}

/// Counts a fault where the machine answered an error.
fn counted<T: Drop>(faults: &mut u64, answer: io::Result<T>) -> Result<T, Failed>
    ensures { HasCause faults.old faults.new ⊥ result }
{
    match answer {
        Ok(value) => Ok(value),
        Err(_) => {
            *faults = faults.saturating_add(1);
            Err(Failed)
        }
    }
}

fn length<R: Files>(rt: &R, name: &str) -> io::Result<u64> {
    Ok(rt.metadata(name)?.len())
}

fn read_at<R: Files>(rt: &R, name: &str, at: u64, out: &mut [u8]) -> io::Result<()> {
    let mut file = File::open(rt, name)?;
    file.seek(SeekFrom::Start(at))?;
    file.read_exact(out)
}

fn start<R: Files>(rt: &R, name: &str) -> io::Result<()> {
    let _ = File::create(rt, name)?;
    Ok(())
}

fn append<R: Files>(rt: &R, name: &str, bytes: &[u8]) -> io::Result<()> {
    let mut file = OpenOptions::new().append(true).open(rt, name)?;
    file.write_all(bytes)
}

fn print<R: Print>(rt: &R, text: &[u8]) -> io::Result<()> {
    rt.write_all(text)?;
    rt.write_all(b"\n")
}
