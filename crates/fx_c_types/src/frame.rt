//! Whether a call of a function takes at most 65,536 bytes of stack.

ghost use Rattle.std.specs.Prelude.{◌≡◌, ◌<◌, ◌≤◌, MatchOption, nat_le};
ghost use Rattle.fx_c_ast.specs.CheckedTrees.{tstmt_trees};
ghost use Rattle.fx_c_ast.specs.StackUse.{slots_size, frame_size};
ghost use Rattle.fx_c_types_rules.specs.Locals.{local_trees, types_of_locals};
ghost use Rattle.fx_c_types_heads.specs.Sizes.{known, AreKnown};

use fx_c_ast::checked::{TLocal, TStmt};
use fx_c_ast::layout::Layout;
use fx_c_ast::stack::{frame_bytes, need_stmts, slot_size};
use fx_c_types_heads::sizes::size_within;

/// The most bytes of stack that a call may take.
const LONGEST: u64 = 65536;

// The slots of locals, if they have at most 65,536 bytes.
fn slots_within(layouts: &[Layout], locals: &[TLocal]) -> Option<u64>
    requires { AreKnown layouts.now }
    ensures { let slots = slots_size (known layouts.now) (types_of_locals (local_trees locals.now)) in
        MatchOption result (65536 < slots) (λ n. (n ≡ slots) × (n ≤ 65536)) }
{
    let mut total: u64 = 0;
    for local in locals {
        let Some(size) = size_within(layouts, &local.ty) else {
            return None;
        };
        total += slot_size(size);
        if total > LONGEST {
            return None;
        }
    }
    Some(total)
}

/// Whether a call of a function with these locals and this body takes at most 65,536 bytes of stack.
pub fn fits(layouts: &[Layout], locals: &[TLocal], body: &[TStmt]) -> bool
    requires { AreKnown layouts.now }
    ensures { let types = types_of_locals (local_trees locals.now) in
        result ≡ nat_le (frame_size (known layouts.now) types (tstmt_trees body.now)) 65536 }
{
    let Some(slots) = slots_within(layouts, locals) else {
        return false;
    };
    let Some(need) = need_stmts(body) else {
        return false;
    };
    if need > LONGEST {
        return false;
    }
    frame_bytes(slots, need) <= LONGEST
}
