//! The program `vc_cli`: it answers one request from standard input to standard output.
//!
//! `run` is the program over any source, sink and key device, and its contract says which bytes it writes
//! and which status it ends with. `main` hands it the words, standard input and standard output, and for
//! a command that signs or checks the device that the file `device.key` makes.
#![tactic(auto)]

mod key_files;
#[cfg(test)]
mod key_files_tests;
mod run;
mod status;
#[cfg(test)]
mod tests;
#[cfg(test)]
mod watched_device;

use key_device::{BrokenDevice, HmacDevice};
pub use key_files::{KeyFile, key_file};
use nquads::{Memory, Text};
use run::deliver;
pub use run::{run, run_alone, uses_device};
pub use status::Status;
use std::fs::File;
use std::io::Read;
use std::process::ExitCode;
use std::rt::{Env, Files};
use std::{env, io};
use vc_io::{ReadAllFault, ReaderSource, Sink, Source, WriterSink, read_all};
use vc_session::Reply;

/// The file of which the device is made, in the folder where the program runs.
const DEVICE_FILE: &str = "device.key";

/// The most bytes that a key file has: two lines of 64 digits, each with LF.
const DEVICE_FILE_LIMIT: u64 = 130;

/// Where a seed comes from that the key file does not have.
const RANDOM_BYTES: &str = "/dev/urandom";

fn main(rt: HostRuntime) -> ExitCode {
    let mut source = ReaderSource::new(rt.stdin());
    let mut sink = WriterSink::new(rt.stdout());
    let status = match words(&rt) {
        Ok(words) => answer(&rt, words.as_slice(), &mut source, &mut sink),
        Err(Memory) => deliver(&Reply::Memory, &mut sink),
    };
    if status == Status::WriteFault {
        // Where this fails too, nothing is left to say it with: the status tells.
        drop(eprintln!(rt; "vc_cli: the reply could not be written"));
    }
    ExitCode::from(status as u8)
}

/// The answer. Where the words name a command that uses a device, it is that of the key file, and one
/// that fails at each call where there is none.
fn answer<R: Files + AllocGlobal, S: Source, K: Sink>(
    rt: &R,
    words: &[Text],
    source: &mut S,
    sink: &mut K,
) -> Status {
    let alloc = rt.alloc();
    if !uses_device(words) {
        return run_alone(alloc, words, source, sink);
    }
    match device_of_file(rt) {
        Ok(Some(mut device)) => run(alloc, words, source, sink, &mut device),
        Ok(None) => {
            let mut broken = BrokenDevice::new();
            run(alloc, words, source, sink, &mut broken)
        }
        Err(Memory) => deliver(&Reply::Memory, sink),
    }
}

/// The device of the key file; none where the file or a seed for it cannot be had.
fn device_of_file<R: Files + AllocGlobal>(rt: &R) -> Result<Option<HmacDevice>, Memory> {
    let Some(file) = keys_in_file(rt)? else {
        return Ok(None);
    };
    let seed = match file.seed {
        Some(seed) => seed,
        None => match random_seed(rt) {
            Some(seed) => seed,
            None => return Ok(None),
        },
    };
    Ok(Some(HmacDevice::new(file.root, seed)))
}

/// What the key file holds; none where there is no such file, or its bytes are none.
fn keys_in_file<R: Files + AllocGlobal>(rt: &R) -> Result<Option<KeyFile>, Memory> {
    let Ok(file) = File::open(rt, DEVICE_FILE) else {
        return Ok(None);
    };
    let mut source = ReaderSource::new(file);
    match read_all(rt.alloc(), &mut source, DEVICE_FILE_LIMIT) {
        Ok(bytes) => Ok(key_file(&bytes)),
        Err(ReadAllFault::Memory) => Err(Memory),
        Err(_) => Ok(None),
    }
}

/// 32 bytes of the system's random ones; none where they cannot be had.
fn random_seed<R: Files>(rt: &R) -> Option<[u8; 32]> {
    let mut file = File::open(rt, RANDOM_BYTES).ok()?;
    let mut seed = [0; 32];
    file.read_exact(&mut seed).ok()?;
    Some(seed)
}

/// The words behind the program's name; none where one is not UTF-8, which no command is.
fn words<R: Env + AllocGlobal>(rt: &R) -> Result<Vec<Text>, Memory> {
    let mut words = Vec::new(rt.alloc());
    match env::args(rt) {
        Ok(arguments) => {
            for word in arguments.skip(1) {
                words.push(Text::from_string(word))?;
            }
            Ok(words)
        }
        Err(error) => match error.kind() {
            io::ErrorKind::OutOfMemory => Err(Memory),
            _ => Ok(words),
        },
    }
}
