//! Laws of the table's definitions, for whoever reasons about instructions one after the other.

ghost use Rattle.fx_cpu.specs.Laws.{StoresLeaveOthers, LoadsGiveStored, WordsFit, StoresKeepBytes, FreeStepsRun, TrapsKeep, StepTrapsKeep, OneAccess, StepOneAccess};
ghost use Rattle.fx_cpu.specs.FrameSlots.{FrameSlotsHold};

/// What loads and stores of words mean together.
pub fn words_in_memory()
    ensures others { StoresLeaveOthers }
    ensures same { LoadsGiveStored }
    ensures fit { WordsFit }
    ensures bytes { StoresKeepBytes }
{}

/// An instruction whose access is free goes, and does what `run_one` says.
pub fn free_steps_run()
    ensures { FreeStepsRun }
{}

/// A trap changes no register and no memory.
pub fn traps_keep()
    ensures instruction { TrapsKeep }
    ensures step { StepTrapsKeep }
{}

/// An instruction makes at most one data access, and a step at most fifteen fetches before it.
pub fn one_access()
    ensures instruction { OneAccess }
    ensures step { StepOneAccess }
{}

/// A push, a store to a slot, a load of another slot, an add and a pop leave exactly the registers
/// and bytes that one expects.
pub fn frame_slots_hold()
    ensures { FrameSlotsHold }
{}
