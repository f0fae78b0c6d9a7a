//! What the places of slots and stacks mean together.

ghost use Rattle.fx_shadow.specs.Laws.{SlotsAreApart, SlotsAreInFrame, StacksAreApart, StacksHaveOneOwner, LocalsLieInHalves};

/// Slots of a frame do not overlap and stand 16 bytes apart.
pub fn slots_are_apart()
    ensures apart { SlotsAreApart }
    ensures inside { SlotsAreInFrame }
{}

/// Stacks do not overlap, and each has one owner where compartments have stacks of their own.
pub fn stacks_are_apart()
    ensures apart { StacksAreApart }
    ensures owner { StacksHaveOneOwner }
{}

/// Locals of frames lie in the halves of their stack.
pub fn locals_lie_in_halves()
    ensures { LocalsLieInHalves }
{}
