//! What the machine answers to images that the input describes.
//!
//! Each line of the input has a mechanism (`call` 0, `light` 1, `full` 2, `ept` 3), the numbers of vCPUs whose
//! turns are made, in order, `:`, the code of compartment a in hexadecimal digits, `:` and that of b; `#`
//! begins a comment. Where two numbers are joined by `x`, as 8x0, it is so many turns of the vCPU behind it.
//! Device 1 is a block store of 16 words, and device 2 a counter that fails its second call. A line of output
//! has each turn's answer that isn't `Went` with the turn's number, and how many operations were made.
#![tactic(auto)]

mod bytes;
mod image;

use crate::image::image_of;
use anyhow::{Context, Result};
use fx_device::{BlockStore, Bus, Counter, Device, FailAt};
use fx_machine::machine::Machine;
use fx_machine_model::stop::Turn;

/// How many turns a word names, and of which vCPU.
fn turns_of(word: &str) -> (u64, u64) {
    let (times, vcpu) = word.split_once('x').unwrap_or(("1", word));
    (
        times.parse::<u64>().unwrap_or(0),
        vcpu.parse::<u64>().unwrap_or(0),
    )
}

/// Makes the turns, and prints the answers.
fn print_turns(rt: &impl Print, machine: &mut Machine, schedule: &str) -> Result<()> {
    let mut number: u64 = 0;
    for word in schedule.split_whitespace() {
        let (times, vcpu) = turns_of(word);
        for _ in 0..times {
            number = number.wrapping_add(1);
            let answer = machine.turn(vcpu);
            if answer != Turn::Went {
                print!(rt; "{number} {answer:?}; ")?;
            }
        }
    }
    let operations = machine.transcript().len();
    println!(rt; "{operations} operations")?;
    Ok(())
}

fn main(rt: HostRuntime) -> Result<()> {
    let alloc = rt.alloc();
    for line in rt.lines(alloc) {
        let line = line?;
        let text = line
            .as_str()
            .split_once('#')
            .map_or(line.as_str(), |parts| parts.0)
            .trim();
        if text.is_empty() {
            continue;
        }
        let (head, code) = text.split_once(':').unwrap_or((text, ""));
        let head = head.trim();
        let (mechanism, schedule) = head.split_once(' ').unwrap_or((head, ""));
        let (a, b) = code.split_once(':').unwrap_or((code, ""));
        let image = image_of(alloc, mechanism.parse::<u8>()?, a, b)?.context(
            "the image isn't read",
        )?;
        let mut devices: Vec<Box<dyn Device>> = Vec::new(alloc);
        devices.push(Box::new(alloc, BlockStore::new(alloc, 16)?)?)?;
        let failing = Vec::from_slice(alloc, &[2])?;
        devices.push(Box::new(alloc, FailAt::new(Counter::new(0), failing))?)?;
        let mut machine = Machine::boot(alloc, &image, Bus::new(alloc, devices))?;
        print_turns(&rt, &mut machine, schedule)?;
    }
    Ok(())
}
