//! Laws about schedules.

ghost use Rattle.std.specs.Prelude.{ℕ, ◌∷◌, List};
ghost use Rattle.fx_outcomes.specs.Rounds.{HasRounds};

/// A turn more in front keeps the rounds.
pub fn rounds_kept()
    ensures { (processors rounds u : ℕ) (schedule : List ℕ) → HasRounds processors rounds schedule → HasRounds processors rounds (u ∷ schedule) }
{}
