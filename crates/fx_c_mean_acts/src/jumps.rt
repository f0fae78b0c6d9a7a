//! Steps that test and jump.

ghost use Rattle.std.specs.Prelude.{◌≡◌, List};
ghost use Rattle.fx_c_ast.specs.CheckedTrees.{texpr_tree, tstmt_tree};
ghost use Rattle.fx_c_mean_model.specs.States.{after_loop, next_round, begin_loop, Frame as MeantFrame};
ghost use Rattle.fx_c_mean_model.specs.Steps.{at, is_true, truth_value, decide, branch, tested};
ghost use Rattle.fx_c_mean_control.specs.Views.{frames_of, spot_of, loop_at, first_branch, second_branch};
ghost use Rattle.fx_c_mean_acts.specs.Cores.{state_of, Comes};

use crate::state::{Core, Moved};
use fx_c_ast::checked::{TExpr, TStmt};
use fx_c_ast::operator::Binop;
use fx_c_mean_blocks::value::Value;
use fx_c_mean_control::control::Frames;
use fx_c_mean_control::frames::{Act, Frame, Now};

/// Whether a value counts as true.
fn holds(v: Value) -> bool
    ensures { result ≡ is_true v }
{
    match v {
        Value::Number(w) => w != 0,
        Value::Void | Value::Null | Value::Address(_) => false,
    }
}

/// The value of a truth.
pub fn judged(v: Value) -> Value
    ensures { result ≡ truth_value (is_true v) }
{
    if holds(v) {
        Value::Number(1)
    } else {
        Value::Number(0)
    }
}

/// What follows the nearest loop.
fn leave_loop<'p>(frames: &mut Frames<'p>) -> Now<'p>
    ensures { spot_of result (frames_of frames.new) ≡ after_loop (frames_of frames.old) }
{
    match frames.top() {
        None => Now::Does(Act::Stuck),
        Some(Frame::Body(_)) => {
            frames.drop_top();
            Now::Follows
        }
        Some(Frame::Caller(..)) => {
            frames.drop_top();
            Now::Does(Act::Stuck)
        }
        Some(_) => {
            frames.drop_top();
            leave_loop(frames)
        }
    }
}

/// Where `continue` goes.
fn next_of_loop<'p>(frames: &mut Frames<'p>) -> Now<'p>
    ensures { spot_of result (frames_of frames.new) ≡ next_round (frames_of frames.old) }
{
    match frames.top() {
        None => Now::Does(Act::Stuck),
        Some(Frame::Body(l)) => {
            frames.drop_top();
            match l {
                TStmt::While(..) => Now::BeginsLoop(l),
                _ => Now::EndsBody(l),
            }
        }
        Some(Frame::Caller(..)) => {
            frames.drop_top();
            Now::Does(Act::Stuck)
        }
        Some(_) => {
            frames.drop_top();
            next_of_loop(frames)
        }
    }
}

impl<'p> Core<'p> {
    /// The first operand of `&&` or `||` decides, or the second one is evaluated.
    pub fn decide(&mut self, op: Binop, b: &'p TExpr, v: Value) -> Moved
        ensures { Comes (at (state_of self.old) (decide op (is_true v) (texpr_tree b.now) (frames_of self.old.frames))) result (state_of self.old) (state_of self.new) }
    {
        let truth = holds(v);
        match op {
            Binop::Land => {
                if !truth {
                    return self.give(Value::Number(0));
                }
            }
            Binop::Lor => {
                if truth {
                    return self.give(Value::Number(1));
                }
            }
            _ => {
                self.here = Now::Does(Act::Stuck);
                return Moved::Went;
            }
        }
        match self.frames.push(Frame::Truth) {
            Ok(()) => {
                self.here = Now::Starts(b);
                Moved::Went
            }
            Err(_) => Moved::OutOfMemory,
        }
    }

    /// A branch is chosen.
    pub fn branch(&mut self, v: Value, s: &'p TStmt) -> Moved
        ensures { Comes
            (at (state_of self.old)
            (branch (is_true v) (first_branch (tstmt_tree s.now))
            (second_branch (tstmt_tree s.now)) (frames_of self.old.frames)))
            result (state_of self.old) (state_of self.new) }
    {
        self.here = branch_of(s, holds(v));
        Moved::Went
    }

    /// A loop's body is executed once more, or the loop is done.
    pub fn test(&mut self, v: Value, l: &'p TStmt) -> Moved
        ensures { Comes (at (state_of self.old) (tested (is_true v) (loop_at l.now) (frames_of self.old.frames))) result (state_of self.old) (state_of self.new) }
    {
        self.here = if holds(v) {
            Now::BeginsBody(l)
        } else {
            Now::Follows
        };
        Moved::Went
    }

    /// The jump back of a loop.
    pub fn jump_back(&mut self, l: &'p TStmt) -> Moved
        ensures { Comes (at (state_of self.old) (begin_loop (loop_at l.now) (frames_of self.old.frames))) result (state_of self.old) (state_of self.new) }
    {
        self.here = Now::BeginsLoop(l);
        Moved::Went
    }

    /// `break`.
    pub fn leave_loop(&mut self) -> Moved
        ensures { Comes (at (state_of self.old) (after_loop (frames_of self.old.frames))) result (state_of self.old) (state_of self.new) }
    {
        self.here = leave_loop(&mut self.frames);
        Moved::Went
    }

    /// `continue`.
    pub fn go_on_in_loop(&mut self) -> Moved
        ensures { Comes (at (state_of self.old) (next_round (frames_of self.old.frames))) result (state_of self.old) (state_of self.new) }
    {
        self.here = next_of_loop(&mut self.frames);
        Moved::Went
    }
}

/// The branch of a choice that its test takes.
fn branch_of<'p>(s: &'p TStmt, truth: bool) -> Now<'p>
    ensures { (rest : List MeantFrame) → spot_of result rest ≡ branch truth (first_branch (tstmt_tree s.now)) (second_branch (tstmt_tree s.now)) rest }
{
    match s {
        TStmt::If(_, then, other) => {
            if truth {
                return Now::Begins(then);
            }
            match other {
                Some(other) => Now::Begins(other),
                None => Now::Follows,
            }
        }
        _ => Now::Follows,
    }
}
