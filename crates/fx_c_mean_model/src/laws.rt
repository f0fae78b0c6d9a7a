//! Laws of the meaning.

ghost use Rattle.std.specs.Prelude.{ℕ, ◌≡◌, ◌≤◌, List, Some, false};
ghost use Rattle.fx_c_mean_model.specs.declared.end.End.{End};
ghost use Rattle.fx_c_mean_model.specs.declared.rights.Rights.{Rights};
ghost use Rattle.fx_c_mean_model.specs.Programs.{Program};
ghost use Rattle.fx_c_mean_model.specs.Steps.{State, step};
ghost use Rattle.fx_c_mean_model.specs.Expected.{expected};
ghost use Rattle.fx_c_mean_model.specs.Laws.{Grows, IsOneOperation, IsNotDenied, IsCallOrReturn, ChangesByAccess, DeniesAccess, IsOfStep};

/// For a greater cost the operations are the same or more, and an end stays.
pub fn more_cost_makes_more()
    ensures { (p : Program) (r : Rights) (answers : List ℕ) (k j : ℕ) → k ≤ j → Grows (expected p r answers k) (expected p r answers j) }
{}

/// A step makes at most one operation, and none where it ends the run.
pub fn one_operation()
    ensures { (p : Program) (r : Rights) (answer : ℕ) (s : State) → IsOneOperation (step p r answer s) }
{}

/// A step that is no call and no return changes memory by its one write alone, if it makes one.
pub fn one_access()
    ensures { (p : Program) (r : Rights) (answer : ℕ) (s : State) → (IsCallOrReturn s.spot → ⊥) → ChangesByAccess s (step p r answer s) }
{}

/// Where gates are plain calls no step is denied.
pub fn plain_calls()
    ensures { (p : Program) (r : Rights) (answer : ℕ) (s : State) → r.guarded ≡ false → IsNotDenied (step p r answer s) }
{}

/// A step that is denied makes an access of that object at that offset, which its compartment is not
/// granted.
pub fn denials_are_accesses()
    ensures { (p : Program) (r : Rights) (answer : ℕ) (s : State) → DeniesAccess p r s (step p r answer s) }
{}

/// An end of a run is that of a step at the state that the steps before it lead to.
pub fn ends_are_of_a_step()
    ensures { (p : Program) (r : Rights) (answers : List ℕ) (k : ℕ) (e : End) → (expected p r answers k).finish ≡ Some e → IsOfStep p r answers e }
{}
