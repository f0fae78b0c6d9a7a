//! Laws about ends and stops.

ghost use Rattle.fx_faithful.specs.Ends.{NothingIsDenied};

/// Under plain calls no refusal is a denial, so a faithful image never stops at one while its source
/// is defined.
pub fn nothing_is_denied()
    ensures { NothingIsDenied }
{}
