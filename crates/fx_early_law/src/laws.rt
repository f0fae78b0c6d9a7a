//! The law that a run's contract carries.

ghost use Rattle.fx_early_law.specs.Plays.{EarlyRunsPlay};

use fx_early_image::laws::runs_write_constants;

/// A run of an image of at most 1,000 constants exits with 0 once it has put them all out in order and nothing
/// else, unless it is cut off by its budget, by the output or for want of memory; then it has put out a front
/// of them. So it is by each schedule, with all devices and whichever of them is unplugged.
pub fn early_runs_play()
    ensures { EarlyRunsPlay }
{
    runs_write_constants();
}
