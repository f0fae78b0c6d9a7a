//! Laws of the pages, for whoever reasons about what is written and what is executed.

ghost use Rattle.fx_machine.specs.Frames.{CodeIsNeverWritten, FramesAreOwn};

/// No page that may be written has the frame of a page of code, in any space, so an instruction that was
/// decoded once stays what the bytes spell; and within one space no two pages have one frame.
pub fn frames()
    ensures code { CodeIsNeverWritten }
    ensures own { FramesAreOwn }
{}
