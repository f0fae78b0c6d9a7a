//! What bringing an image to the version that is written today changes of its runs: nothing.
//!
//! Neither boot nor a turn looks at an image's version, which says how its bytes are spelled and no
//! more. The public function has an empty body; its contract is the law.
#![tactic(auto)]

ghost use Rattle.fx_image_migration_law.specs.Migration.{MigrationKeeps};

/// An image that `migrate` gives runs as the image that it is given, by all answers and schedules:
/// it makes the same operations and comes to the same stop in the same number of turns, and the
/// state after them is the same.
pub fn migration_keeps()
    ensures { MigrationKeeps }
{}
