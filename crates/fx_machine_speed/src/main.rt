//! A loop of machine code, to see how fast the machine goes.
//!
//! `fx_machine_speed MECHANISM ROUNDS`, where MECHANISM is 0 for `call` and 1 for `light`, runs an image whose
//! program makes so many rounds of ten instructions: two loads, three stores, four of arithmetic and a jump.
//! It prints the stop and the number of turns. Round n adds 3 n to the sum that the program exits with, so
//! that it exits with 3 times 1 + 2 + .. + ROUNDS after 10 ROUNDS + 6 turns.
#![tactic(auto)]

mod image;

use crate::image::image_of;
use anyhow::{Context, Result, bail};
use fx_device::Bus;
use fx_machine::machine::Machine;
use fx_machine_model::stop::{Stop, Turn};
use std::env;

/// Makes turns until the machine stops, and gives the stop with the number of turns.
fn stop_of(machine: &mut Machine) -> Option<(Stop, u64)> {
    for turns in 1..u64::MAX {
        match machine.turn(0) {
            Turn::Went => {}
            Turn::Stopped(stop) => return Some((stop, turns)),
            Turn::Input | Turn::Output(_) | Turn::DeviceFault(_) | Turn::OutOfMemory => return None,
        }
    }
    None
}

fn main(rt: HostRuntime) -> Result<()> {
    let mut words = env::args(&rt)?;
    let mechanism = words
        .nth(1)
        .context("a mechanism is missing")?
        .as_str()
        .parse::<u8>()?;
    let rounds = words
        .next()
        .context("a number of rounds is missing")?
        .as_str()
        .parse::<u64>()?;
    let alloc = rt.alloc();
    let Some(image) = image_of(alloc, mechanism, rounds)? else {
        bail!("the image isn't read");
    };
    let mut machine = Machine::boot(alloc, &image, Bus::new(alloc, Vec::new(alloc)))?;
    match stop_of(&mut machine) {
        Some((stop, turns)) => println!(rt; "{stop:?} in {turns} turns")?,
        None => println!(rt; "no stop")?,
    }
    Ok(())
}
