//! The program: a command and a job file, over the files of the machine and its standard output. A shuffle's external memory
//! is a file in the folder that the program runs in.
#![tactic(auto)]

ghost use Rattle.std.specs.Prelude.{◌≡◌, [], IfOk};

use esa_cli::{End, Status, esa, tell};
use esa_device::{FileDevice, Recorder};
use esa_outside::{HostCabinet, HostPrinter};
use std::alloc::AllocError;
use std::env;
use std::fs::File;
use std::io::{self, ErrorKind};
use std::process::ExitCode;
use std::rt::{Env, Files};

/// The file that has the external memory of a shuffle.
const DEVICE: &str = "esa-device.bin";

/// What is opened in the place of a standard stream that is closed.
const NOTHING: &str = "/dev/null";

/// Opens files before all others, so that none of those gets the number of a standard stream that is closed: its lines
/// would be written over that file. They are opened for reading, and who prints without a standard output is told so.
fn hold_streams<R: Files<File = File>>(rt: &R) -> [io::Result<File>; 3] {
    [
        File::open(rt, NOTHING),
        File::open(rt, NOTHING),
        File::open(rt, NOTHING),
    ]
}

/// The words after the program's name. Words that are no text are no words of a command line.
fn words(rt: &(impl Env + AllocGlobal)) -> Result<Vec<String>, AllocError> {
    match env::args(rt) {
        Ok(all) => all.skip(1).collect(rt.alloc()),
        Err(error) => match error.kind() {
            ErrorKind::OutOfMemory => Err(AllocError),
            _ => Ok(Vec::new(rt.alloc())),
        },
    }
}

/// The recorder of the device that a shuffle uses.
fn device<R: Files<File = File> + AllocGlobal + Clone + Drop>(
    rt: &R,
) -> Result<Recorder<FileDevice<R>>, AllocError>
    ensures { IfOk result (λ recorder. recorder.trace ≡ []) }
{
    let path = String::from_str(rt.alloc(), DEVICE)?;
    Ok(Recorder::make(rt.alloc(), FileDevice::make(rt.clone()?, path)))
}

fn main(rt: HostRuntime) -> ExitCode {
    let _streams = hold_streams(&rt);
    let mut cabinet = HostCabinet::make(&rt);
    let mut printer = HostPrinter::make(&rt);
    let status = match (words(&rt), device(&rt)) {
        (Ok(words), Ok(recorder)) => {
            let alloc = rt.alloc();
            esa(&rt, alloc, &words, &mut cabinet, &mut printer, recorder).status
        }
        _ => tell(End::Stopped(Status::OutOfMemory), &mut printer),
    };
    ExitCode::from(status.code())
}
