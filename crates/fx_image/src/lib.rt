//! The image: what the build writes and the machine runs.
//!
//! An image names the compartments with their code, rights and entries, the sections with their
//! readers and writers, the objects that lie in them, the stubs of the gates, and the places where
//! execution starts. The format is this project's own. `image_spelling` (in `specs/`) says which
//! bytes an image has, `IsImage` which images there are, and every image has one spelling.
#![tactic(auto)]

mod compartments;
pub mod error;
mod fields;
pub mod find;
pub mod forms;
mod gates;
mod keys;
pub mod list;
mod migration;
mod names;
mod objects;
mod reading;
mod sections;
mod sequences;
mod starts;
mod writing;

pub use compartments::ranges_end;
pub use error::ImageError;
pub use find::{Found, object_of};
pub use forms::{
    Comp, Comps, EntryRec, EntryRecs, Image, Obj, Objs, Offsets, Section, Sections, Start, Starts,
    Stub, StubList, VERSION,
};
pub use gates::is_key_sequence;
pub use keys::{has_member, is_keyed, pkru_of};
pub use list::{Bytes, List, Name};
pub use migration::migrate;
pub use reading::{one_spelling, read};
pub use sequences::first_unlisted;
pub use writing::print;
