//! What is in reach in a function's body.

use fx_c_ast::checked::{TLocal, Ty};
use fx_c_ast::parsed::Bytes;
use fx_c_types_heads::heads::{Heads, place_32};
use fx_c_types_heads::names::Names;

/// What holds in the whole of a function's body: the program's heads, how many structs are declared
/// before the function, and the function's library and result.
#[derive(Drop)]
pub struct Scope<'a> {
    pub heads: &'a Heads,
    pub declared: u32,
    pub library: u8,
    pub answer: &'a Ty,
}

/// What grows in a body: the program's strings, the function's parameters and locals so far, and the
/// names that the open blocks declare, the outermost block first.
#[derive(Drop)]
pub struct Body {
    pub literals: Vec<Bytes>,
    pub locals: Vec<TLocal>,
    pub blocks: Vec<Names>,
}

impl Body {
    ghost use Rattle.std.specs.Prelude.{◌≡◌, length};
    ghost use Rattle.fx_c_types_rules.specs.Structs.{place_32};
    ghost use Rattle.fx_c_types_bodies.specs.Views.{body_tree};

    /// The number of the next local.
    pub fn local_count(&self) -> u32
        ensures { result ≡ place_32 (length (body_tree self.now).locals) }
    {
        place_32(self.locals.len())
    }
}
