//! FlexOS: builds the image of a configuration and its sources, writes it and runs it.
#![tactic(auto)]

mod adapters;
mod command;
#[cfg(test)]
mod tests;
mod texts;
mod top;

use adapters::{RealFiles, StdSink, StdSource};
use fx_base::Sink;
use fx_cmd_base::report_out_of_memory;
use fx_device::{BlockStore, Counter, Device};
use std::alloc::AllocError;
use std::env;
use std::io::ErrorKind;
use std::process::ExitCode;

/// The words after the program's name. Where one isn't text there are none, which is no command.
fn words(rt: &HostRuntime) -> Result<Vec<String>, AllocError> {
    match env::args(rt) {
        Ok(mut words) => {
            let _program = words.next();
            words.collect(rt.alloc())
        }
        Err(error) if error.kind() == ErrorKind::OutOfMemory => Err(AllocError),
        Err(_) => Ok(Vec::new(rt.alloc())),
    }
}

/// The words of the device that keeps blocks.
const STORE_WORDS: u32 = 65_536;

/// Does what the program's words say, with a store of blocks as device 1 and a counter from 0 as device 2.
fn perform<E: Sink>(rt: &HostRuntime, err: &mut E) -> Result<u8, AllocError> {
    let alloc = rt.alloc();
    let words = words(rt)?;
    let store = BlockStore::new(alloc, STORE_WORDS)?;
    let mut devices: Vec<Box<dyn Device>> = Vec::new(alloc);
    devices.push(Box::new(alloc, store)?)?;
    devices.push(Box::new(alloc, Counter::new(0))?)?;
    Ok(top::flexos(
        alloc,
        &words,
        &mut RealFiles::new(rt),
        &mut StdSource::new(rt.stdin()),
        &mut StdSink::new(rt.stdout()),
        err,
        devices,
    ))
}

fn main(rt: HostRuntime) -> ExitCode {
    let mut err = StdSink::new(rt.stderr());
    let status = match perform(&rt, &mut err) {
        Ok(status) => status,
        Err(_) => report_out_of_memory(&mut err),
    };
    ExitCode::from(status)
}
