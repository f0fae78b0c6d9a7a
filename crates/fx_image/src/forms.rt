//! An image's fields, in the order in which they are spelled.

use crate::list::{Bytes, List, Name};

/// The version that images are written in.
pub const VERSION: u16 = 2;

/// A compartment: its name, its range of the code, and its value of the PKRU register.
#[derive(Debug, Drop)]
pub struct Comp {
    pub name: Name,
    /// Where the range starts, as an offset in the code; a multiple of 4,096.
    pub start: u32,
    /// The range's bytes; a multiple of 4,096.
    pub len: u32,
    /// The PKRU value by the sections' pairs and keys under protection keys, else 0.
    pub pkru: u32,
}

/// A section: the pages of one pair of readers and writers.
#[derive(Clone, Copy, Debug, PartialEq, Eq)]
pub struct Section {
    /// Bit c is set where compartment c may read.
    pub readers: u16,
    /// Bit c is set where compartment c may write.
    pub writers: u16,
    /// The protection key of its pages.
    pub key: u8,
    /// Its first page: the address divided by 4,096.
    pub page: u32,
    /// The number of its pages.
    pub pages: u32,
}

/// An object with an address for good: a global, or a compartment's table `.rt.C`.
#[derive(Debug, Drop)]
pub struct Obj {
    pub name: Name,
    /// The number of the section that it lies in.
    pub section: u16,
    pub address: u64,
    /// Its bytes.
    pub size: u32,
    /// Its first bytes at boot, without the zeros at the end; the others are 0.
    pub initial: Bytes,
}

/// An entry of a compartment. Entry i is called at 16 * i from the start of the compartment's range.
#[derive(Debug, Drop)]
pub struct EntryRec {
    pub name: Name,
    pub compartment: u8,
    /// Its number among the compartment's entries.
    pub number: u16,
    /// Bit c is set where compartment c may call it.
    pub callers: u16,
}

/// A stub: the gate from a compartment to an entry of another one. Places are offsets in the code.
#[derive(Clone, Copy, Debug, PartialEq, Eq)]
pub struct Stub {
    pub from: u8,
    pub to: u8,
    /// The number of the entry of `to`.
    pub entry: u16,
    /// Where the stub begins.
    pub offset: u32,
    /// Its WRPKRU on the way in.
    pub first: u32,
    /// Its WRPKRU on the way back.
    pub second: u32,
}

/// Where a vCPU starts.
#[derive(Clone, Copy, Debug, PartialEq, Eq)]
pub struct Start {
    /// An address in the code.
    pub rip: u32,
    /// An address in a stack, a multiple of 16.
    pub rsp: u64,
}

/// Offsets in the code, or numbers of pieces.
pub type Offsets = List<u32>;

pub type Comps = List<Comp>;

pub type Sections = List<Section>;

pub type Objs = List<Obj>;

pub type EntryRecs = List<EntryRec>;

pub type StubList = List<Stub>;

pub type Starts = List<Start>;

/// An image. Which images there are, `IsImage` says.
#[derive(Debug, Drop)]
pub struct Image {
    /// 1 or 2. An image of version 1 has 8 threads, and each section's readers are its writers.
    pub version: u16,
    /// How compartments are kept apart: `call` 0, `light` 1, `full` 2, `ept` 3.
    pub mechanism: u8,
    /// The pages of a stack, or of each of its halves.
    pub stack_pages: u8,
    /// 8 or 16.
    pub threads: u8,
    /// The compartment that may spawn and switch threads.
    pub scheduler: u8,
    /// The compartment of `main`.
    pub home: u8,
    pub compartments: Comps,
    pub sections: Sections,
    /// The compartments' ranges in order, and then the runtime's range.
    pub code: Bytes,
    pub literals: Bytes,
    pub objects: Objs,
    pub entries: EntryRecs,
    pub stubs: StubList,
    /// Where the abort stub begins, as an offset in the code.
    pub abort: u32,
    /// The compartment that owns each device.
    pub owners: [u8; 16],
    /// Where each vCPU starts.
    pub starts: Starts,
}
