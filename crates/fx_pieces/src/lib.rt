//! Pieces that run: what a list of pieces does to registers and memory, one after the other.
//!
//! A piece is an instruction whose displacement is still open, with the target that it leads to
//! (`fx_x64_forms`). Code is emitted as pieces and linked later; what it does can be said before. The
//! definitions (in `specs/`) give it with no fetch and no address in it: `Runs` is a type that computes
//! along the pieces. It asks that each access may be made (`Rights`), that no instruction stops, and
//! that `Then` holds of the registers and the memory at the end. Where the pieces stand and where
//! targets lead is a parameter (`Places`), so one law serves a template wherever it is linked, and under
//! each mechanism. The lemmas (in `proofs/`) weaken what holds at the end and join pieces that follow one
//! another. What an instruction does is `need` and `finish` of `fx_cpu`; the form is this project's own.
#![tactic(auto)]
