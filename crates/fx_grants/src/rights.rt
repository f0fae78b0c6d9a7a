//! Whether a compartment may touch an object.

ghost use Rattle.std.specs.Prelude.{◌≡◌, ◌<◌, slice_get};
ghost use Rattle.fx_grants.specs.GrantSets.{may_of, set_of, local_set, has_common_stacks, denies_nothing, is_literal, HasHomes};
ghost use Rattle.fx_grants.specs.Homes.{home_at};

use crate::grants::{Grants, Place};
use crate::homes::home_at;
use crate::sets::{all_of, has_member, only};
use fx_config::Mechanism;

impl Grants {
    /// Whether a compartment may write an object, or read it (this project's own rules). A literal
    /// may never be written. It takes no memory.
    pub fn may(&self, compartment: u8, object: Place, write: bool) -> bool
        requires there { compartment < 16 }
        requires homes { HasHomes self.now }
        ensures { result ≡ may_of self.now compartment object write }
    {
        if denies_nothing(self.mechanism) {
            !(write && is_literal(object))
        } else {
            has_member(set_of(self, object, write), compartment)
        }
    }

    /// The compartment of a library.
    pub fn home(&self, library: u8) -> u8
        ensures { result ≡ home_at self.now.homes library }
    {
        home_at(self.homes.as_slice(), library)
    }
}

// The compartments that may write an object, or read it.
fn set_of(g: &Grants, object: Place, write: bool) -> u16
    requires { HasHomes g.now }
    ensures { result ≡ set_of g.now object write }
{
    match object {
        Place::Global(n) => match g.globals.as_slice().get(n as usize) {
            Some(pair) if write => pair.writers,
            Some(pair) => pair.readers,
            None => 0,
        },
        Place::Literal(_) if write => 0,
        Place::Literal(_) => all_of(g.compartments as usize),
        Place::Local { function, local } => local_set(g, function, local),
    }
}

// The compartments that may touch a parameter or a local.
fn local_set(g: &Grants, function: u32, local: u16) -> u16
    requires { HasHomes g.now }
    ensures { result ≡ local_set g.now (slice_get g.now.functions function) local }
{
    match g.functions.as_slice().get(function as usize) {
        Some(f) => {
            let shared = f
                .shared
                .as_slice()
                .get(local as usize)
                .copied()
                .unwrap_or(false);
            if has_common_stacks(g.mechanism) || shared {
                all_of(g.compartments as usize)
            } else {
                only(f.compartment)
            }
        }
        None => 0,
    }
}

fn has_common_stacks(mechanism: Mechanism) -> bool
    ensures { result ≡ has_common_stacks mechanism }
{
    match mechanism {
        Mechanism::Call | Mechanism::Light => true,
        Mechanism::Full | Mechanism::Ept => false,
    }
}

fn denies_nothing(mechanism: Mechanism) -> bool
    ensures { result ≡ denies_nothing mechanism }
{
    match mechanism {
        Mechanism::Call => true,
        Mechanism::Light | Mechanism::Full | Mechanism::Ept => false,
    }
}

fn is_literal(object: Place) -> bool
    ensures { result ≡ is_literal object }
{
    match object {
        Place::Literal(_) => true,
        Place::Global(_) | Place::Local { .. } => false,
    }
}
