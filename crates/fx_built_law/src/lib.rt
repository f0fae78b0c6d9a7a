//! What is built of a program that was loaded, granted and placed is an image.
//!
//! The public function has no work to do; its contract is the law.
#![tactic(auto)]

ghost use Rattle.fx_built_law.specs.Laws.{BuiltIsImage};

use fx_build_quiet_law::{linked_are_short, parts_have_no_keys};
use fx_built_parts_law::{grants_give_homes, parts_are_whole};
use fx_c_types_law::checked_programs_start;
use fx_cmd_load_law::configured_programs_are_lowerable;
use fx_given_law::configured_programs_are_given;
use fx_linker_law::linked_are_images;

/// What is built, under plain calls, of the program of a configuration and its sources meets each
/// rule of an image (`IsImage` of fx_image).
pub fn built_is_image()
    ensures { BuiltIsImage }
{
    configured_programs_are_given();
    configured_programs_are_lowerable();
    checked_programs_start();
    grants_give_homes();
    parts_are_whole();
    parts_have_no_keys();
    linked_are_short();
    linked_are_images();
}
