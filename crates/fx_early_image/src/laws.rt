//! The law that the build's contract carries.

ghost use Rattle.fx_early_image.specs.Faithful.{ImagesAreFaithful, RunsWriteConstants};

/// The image of at most 1,000 constants is faithful to the program that writes them: for all answers
/// of devices and all schedules its run keeps to the program's.
pub fn images_are_faithful()
    ensures { ImagesAreFaithful }
{}

/// Each run of such an image has stored a front of the constants to the console and nothing else, and
/// its only stop is Exit 0, with all of them stored.
pub fn runs_write_constants()
    ensures { RunsWriteConstants }
{}
