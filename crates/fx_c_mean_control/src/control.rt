//! The way from a state to its next step: what costs nothing.

ghost use Rattle.std.specs.Prelude.{◌≡◌, ◌≢◌, ◌∷◌, ◌++◌, ◌&&◌, [], List, drop, MatchResult, IfSome};
ghost use Rattle.fx_c_ast.specs.CheckedTrees.{ty_tree, texpr_tree, texpr_trees, tstmt_tree, tstmt_trees};
ghost use Rattle.fx_c_mean_model.specs.States.{is_lvalue, is_scalar as scalar, same_integer, same_type, pointed, start as starts, converting as converts, type_of as typed, reach, begin as begins, begin_all as begins_all, begin_loop as begins_loop, begin_body as begins_body, loop_body, after_body, follow, give as gives, assign as assigned, Frame as MeantFrame};
ghost use Rattle.fx_c_mean_control.specs.Views.{frame_of, frames_of, loop_at, spot_of, values_of, way_of, called_with, argued, IsLast};

use crate::frames::{ARGUMENTS, Act, Frame, Now, Values, Way};
use crate::stack::Stack;
use fx_c_ast::checked::{TExpr, TKind, TStmt, Ty};
use fx_c_ast::operator::{Binop, IntType, Unop};
use fx_c_mean_blocks::integers::{has_sign, width};
use fx_c_mean_blocks::value::Value;
use fx_word_ops::words::bits;
use std::alloc::AllocError;

/// The frames of a thread.
pub type Frames<'p> = Stack<Frame<'p>>;

/// Whether an expression designates an object (C11 6.3.2.1).
fn is_place(e: &TExpr) -> bool
    ensures { result ≡ is_lvalue (texpr_tree e.now) }
{
    match &e.kind {
        TKind::Literal(_)
        | TKind::Global(_)
        | TKind::Local(_)
        | TKind::Un(Unop::Deref, _)
        | TKind::Index(..)
        | TKind::Member(..)
        | TKind::Arrow(..) => true,
        _ => false,
    }
}

/// Whether a type is an integer or a pointer.
fn is_scalar(ty: &Ty) -> bool
    ensures { result ≡ scalar (ty_tree ty.now) }
{
    match ty {
        Ty::Int(_) | Ty::Ptr(_) => true,
        Ty::Void | Ty::Struct(_) | Ty::Array(..) => false,
    }
}

fn is_same_integer(i: IntType, j: IntType) -> bool
    ensures { result ≡ same_integer i j }
{
    bits(width(i)) == bits(width(j)) && has_sign(i) == has_sign(j)
}

/// Whether two types are one.
fn is_same_type(s: &Ty, t: &Ty) -> bool
    ensures { result ≡ same_type (ty_tree s.now) (ty_tree t.now) }
{
    match (s, t) {
        (Ty::Void, Ty::Void) => true,
        (Ty::Int(i), Ty::Int(j)) => is_same_integer(*i, *j),
        (Ty::Struct(m), Ty::Struct(n)) => m == n,
        (Ty::Ptr(s), Ty::Ptr(t)) => is_same_type(s, t),
        (Ty::Array(s, m), Ty::Array(t, n)) => is_same_type(s, t) && m == n,
        _ => false,
    }
}

/// The type that a pointer type points to.
fn pointed_type(ty: &Ty) -> &Ty
    ensures { ty_tree result.now ≡ pointed (ty_tree ty.now) }
{
    match ty {
        Ty::Ptr(to) => to,
        _ => ty,
    }
}

/// No values.
fn no_values() -> Values
    ensures { values_of result ≡ [] }
{
    Values {
        items: [Value::Void; ARGUMENTS],
        len: 0,
    }
}

/// One value more, where there are not six yet.
fn with_value(values: Values, v: Value) -> Option<Values>
    ensures { IfSome result (λ r. values_of r ≡ values_of values ++ v ∷ []) }
{
    if values.len >= ARGUMENTS {
        return None;
    }
    let mut more = values;
    more.items[more.len] = v;
    more.len += 1;
    Some(more)
}

/// The type of an expression.
fn type_of(e: &TExpr) -> &Ty
    ensures { ty_tree result.now ≡ typed (texpr_tree e.now) }
{
    &e.ty
}

/// Whether a value is to be loaded from where an expression leads.
fn is_loaded(e: &TExpr) -> bool
    ensures { result ≡ is_lvalue (texpr_tree e.now) && scalar (typed (texpr_tree e.now)) }
{
    is_place(e) && is_scalar(type_of(e))
}

/// Evaluation of an expression begins: its value is loaded in the end, where it is an lvalue's.
fn start<'p>(frames: &mut Frames<'p>, e: &'p TExpr) -> Result<Now<'p>, AllocError>
    ensures { MatchResult result (λ now. spot_of now (frames_of frames.new) ≡ starts (texpr_tree e.now) (frames_of frames.old)) (λ _. frames.new ≡ frames.old) }
{
    if is_loaded(e) {
        frames.push(Frame::Loads(type_of(e)))?;
        return Ok(Now::Reaches(e));
    }
    Ok(Now::Reaches(e))
}

/// A conversion, which is none where the types are one.
fn converting<'p>(frames: &mut Frames<'p>, e: &'p TExpr, to: &'p Ty) -> Result<Now<'p>, AllocError>
    ensures { MatchResult result
        (λ now. spot_of now (frames_of frames.new)
        ≡ starts (texpr_tree e.now)
        (converts (typed (texpr_tree e.now)) (ty_tree to.now) (frames_of frames.old)))
        (λ _. frames.new ≡ frames.old) }
{
    let from = type_of(e);
    if is_same_type(from, to) {
        return Ok(Now::Starts(e));
    }
    frames.push(Frame::Converts(from, to))?;
    Ok(Now::Starts(e))
}

/// A frame is put below the evaluation of an expression.
fn before<'p>(
    frames: &mut Frames<'p>,
    frame: Frame<'p>,
    e: &'p TExpr,
) -> Result<Now<'p>, AllocError>
    ensures { MatchResult result (λ now. spot_of now (frames_of frames.new) ≡ starts (texpr_tree e.now) (frame_of frame.entry ∷ frames_of frames.old)) (λ _. frames.new ≡ frames.old) }
{
    frames.push(frame)?;
    Ok(Now::Starts(e))
}

/// A frame is put below the evaluation of an expression up to an lvalue's address.
fn before_place<'p>(
    frames: &mut Frames<'p>,
    frame: Frame<'p>,
    e: &'p TExpr,
) -> Result<Now<'p>, AllocError>
    ensures { MatchResult result (λ now. spot_of now (frames_of frames.new) ≡ reach (texpr_tree e.now) (frame_of frame.entry ∷ frames_of frames.old)) (λ _. frames.new ≡ frames.old) }
{
    frames.push(frame)?;
    Ok(Now::Reaches(e))
}

/// The evaluation of arguments begins, or the call where there are none.
fn arguments<'p>(
    frames: &mut Frames<'p>,
    function: u32,
    way: Way,
    all: &'p [TExpr],
) -> Result<Now<'p>, AllocError>
    ensures { MatchResult result (λ now. spot_of now (frames_of frames.new) ≡ called_with function (way_of way) (texpr_trees all.now) (frames_of frames.old)) (λ _. frames.new ≡ frames.old) }
{
    match all {
        [] => Ok(Now::Does(Act::Enter {
            function,
            way,
            values: no_values(),
        })),
        [e, more @ ..] => before(
            frames,
            Frame::Arguments {
                function,
                way,
                before: no_values(),
                more,
            },
            e,
        ),
    }
}

/// Evaluation of an expression goes down one node.
fn descend<'p>(frames: &mut Frames<'p>, e: &'p TExpr) -> Result<Now<'p>, AllocError>
    ensures { MatchResult result (λ now. spot_of now (frames_of frames.new) ≡ reach (texpr_tree e.now) (frames_of frames.old)) (λ _. frames.new ≡ frames.old) }
{
    match &e.kind {
        TKind::Number(w) => Ok(Now::Does(Act::Push(Value::Number(*w)))),
        TKind::Literal(n) => Ok(Now::Does(Act::LiteralAddress(*n))),
        TKind::Global(n) => Ok(Now::Does(Act::GlobalAddress(*n))),
        TKind::Local(n) => Ok(Now::Does(Act::LocalAddress(*n))),
        TKind::Un(Unop::Addr, a) => before_place(frames, Frame::Applies(Unop::Addr, &e.ty), a),
        TKind::Un(op, a) => before(frames, Frame::Applies(*op, type_of(a)), a),
        TKind::Bin(Binop::Land, a, b) => before(frames, Frame::Decides(Binop::Land, b), a),
        TKind::Bin(Binop::Lor, a, b) => before(frames, Frame::Decides(Binop::Lor, b), a),
        TKind::Bin(op, a, b) => before(frames, Frame::Second(*op, type_of(a), b), a),
        TKind::Cast(a) => converting(frames, a, &e.ty),
        TKind::Convert(a) => converting(frames, a, &e.ty),
        TKind::Size(t) => Ok(Now::Does(Act::SizeOf(t))),
        TKind::Index(a, b) => before(frames, Frame::Second(Binop::Add, type_of(a), b), a),
        TKind::Member(a, n) => before_place(frames, Frame::Steps(type_of(a), *n), a),
        TKind::Arrow(a, n) => before(frames, Frame::Steps(pointed_type(type_of(a)), *n), a),
        TKind::Call(f, all) => arguments(frames, *f, Way::Plainly, all),
        TKind::Gate(f, all) => arguments(frames, *f, Way::ByGate, all),
        TKind::Getc => Ok(Now::Does(Act::Ask(0, 0))),
        TKind::Putc(a) => before(frames, Frame::Tells(0, 0), a),
        TKind::DevLoad(d, r) => Ok(Now::Does(Act::Ask(*d, *r))),
        TKind::DevStore(d, r, a) => before(frames, Frame::Tells(*d, *r), a),
        TKind::Spawn(f, a) => before(frames, Frame::Spawns(*f), a),
        TKind::Switch(a) => before(frames, Frame::Switches, a),
        TKind::Me => Ok(Now::Does(Act::Own)),
    }
}

/// Execution of a statement begins.
fn begin<'p>(frames: &mut Frames<'p>, s: &'p TStmt) -> Result<Now<'p>, AllocError>
    ensures { MatchResult result (λ now. spot_of now (frames_of frames.new) ≡ begins (tstmt_tree s.now) (frames_of frames.old) (follow (frames_of frames.old))) (λ _. frames.new ≡ frames.old) }
{
    match s {
        TStmt::Empty => Ok(Now::Follows),
        TStmt::Block(all) => Ok(Now::BeginsAll(all)),
        TStmt::Local { local, init } => match init {
            Some(e) => {
                frames.push(Frame::Target(type_of(e), e))?;
                Ok(Now::Does(Act::LocalAddress(*local)))
            }
            None => Ok(Now::Follows),
        },
        TStmt::Eval(e) => before(frames, Frame::Discards, e),
        TStmt::Assign(to, e) => before_place(frames, Frame::Target(type_of(to), e), to),
        TStmt::If(test, _, _) => before(frames, Frame::Forks(s), test),
        TStmt::While(test, _) => before(frames, Frame::Tests(s), test),
        TStmt::For(first, _, _, _) => {
            frames.push(Frame::Enters(s))?;
            match first {
                Some(first) => Ok(Now::Begins(first)),
                None => Ok(Now::Follows),
            }
        }
        TStmt::Break => Ok(Now::Does(Act::Break)),
        TStmt::Continue => Ok(Now::Does(Act::Continue)),
        TStmt::Return(value) => match value {
            Some(e) => before(frames, Frame::Answers, e),
            None => Ok(Now::Does(Act::FallOff)),
        },
    }
}

/// Execution of statements begins.
fn begin_all<'p>(frames: &mut Frames<'p>, all: &'p [TStmt]) -> Result<Now<'p>, AllocError>
    ensures { MatchResult result (λ now. spot_of now (frames_of frames.new) ≡ begins_all (tstmt_trees all.now) (frames_of frames.old) (follow (frames_of frames.old))) (λ _. frames.new ≡ frames.old) }
{
    match all {
        [] => Ok(Now::Follows),
        [s, more @ ..] => {
            frames.push(Frame::Then(more))?;
            Ok(Now::Begins(s))
        }
    }
}

/// A loop begins with its test, or without one with its body.
fn begin_loop<'p>(frames: &mut Frames<'p>, l: &'p TStmt) -> Result<Now<'p>, AllocError>
    ensures { MatchResult result (λ now. spot_of now (frames_of frames.new) ≡ begins_loop (loop_at l.now) (frames_of frames.old)) (λ _. frames.new ≡ frames.old) }
{
    match l {
        TStmt::While(test, _) => before(frames, Frame::Tests(l), test),
        TStmt::For(_, test, _, _) => match test {
            Some(test) => before(frames, Frame::Tests(l), test),
            None => Ok(Now::BeginsBody(l)),
        },
        _ => Ok(Now::BeginsBody(l)),
    }
}

/// A loop's body begins.
fn begin_body<'p>(frames: &mut Frames<'p>, l: &'p TStmt) -> Result<Now<'p>, AllocError>
    ensures { MatchResult result (λ now. spot_of now (frames_of frames.new) ≡ begins_body (loop_at l.now) (loop_body (loop_at l.now)) (frames_of frames.old)) (λ _. frames.new ≡ frames.old) }
{
    frames.push(Frame::Body(l))?;
    match l {
        TStmt::While(_, body) => Ok(Now::Begins(body)),
        TStmt::For(_, _, _, body) => Ok(Now::Begins(body)),
        _ => Ok(Now::Follows),
    }
}

/// A loop's body is done: the third part of a `for` follows, and the jump back.
fn end_body<'p>(frames: &mut Frames<'p>, l: &'p TStmt) -> Result<Now<'p>, AllocError>
    ensures { MatchResult result (λ now. spot_of now (frames_of frames.new) ≡ after_body (loop_at l.now) (frames_of frames.old)) (λ _. frames.new ≡ frames.old) }
{
    match l {
        TStmt::For(_, _, next, _) => match next {
            Some(next) => {
                frames.push(Frame::Third(l))?;
                Ok(Now::Begins(next))
            }
            None => Ok(Now::Does(Act::JumpBack(l))),
        },
        _ => Ok(Now::Does(Act::JumpBack(l))),
    }
}

/// What follows a statement.
fn follow_on<'p>(frames: &mut Frames<'p>) -> Now<'p>
    ensures { spot_of result (frames_of frames.new) ≡ follow (frames_of frames.old) }
{
    match frames.top() {
        Some(Frame::Then(more)) => {
            frames.drop_top();
            Now::BeginsAll(more)
        }
        Some(Frame::Enters(l)) => {
            frames.drop_top();
            Now::BeginsLoop(l)
        }
        Some(Frame::Body(l)) => {
            frames.drop_top();
            Now::EndsBody(l)
        }
        Some(Frame::Third(l)) => {
            frames.drop_top();
            Now::Does(Act::JumpBack(l))
        }
        Some(Frame::Caller(..)) => Now::Does(Act::FallOff),
        None => Now::Does(Act::FallOff),
        Some(_) => {
            frames.drop_top();
            Now::Does(Act::Stuck)
        }
    }
}

/// The step or the way to it once the top frame is gone.
fn popped<'p>(frames: &mut Frames<'p>, now: Now<'p>) -> Now<'p>
    ensures now { result ≡ now.entry }
    ensures frames { frames.new ≡ drop 1 frames.old }
{
    frames.drop_top();
    now
}

/// Evaluation of an expression begins, with another frame in place of the top one.
fn instead<'p>(frames: &mut Frames<'p>, frame: Frame<'p>, e: &'p TExpr) -> Now<'p>
    requires { frames.old ≢ [] }
    ensures { spot_of result (frames_of frames.new) ≡ starts (texpr_tree e.now) (frame_of frame.entry ∷ frames_of (drop 1 frames.old)) }
{
    frames.set_top(frame);
    Now::Starts(e)
}

/// A value is stored; a struct is copied byte by byte.
fn assign<'p>(ty: &'p Ty, to: Value, v: Value) -> Now<'p>
    ensures { (rest : List MeantFrame) → spot_of result rest ≡ assigned (ty_tree ty.now) to v rest }
{
    match ty {
        Ty::Int(_) | Ty::Ptr(_) => Now::Does(Act::Store(ty, to, v)),
        Ty::Void | Ty::Struct(_) | Ty::Array(..) => Now::Does(Act::ReadByte(ty, to, v, 0)),
    }
}

/// A value of an argument: the next argument is evaluated, or the call is made. More arguments than a
/// call can have are want of memory.
fn give_argument<'p>(
    frames: &mut Frames<'p>,
    function: u32,
    way: Way,
    before: Values,
    more: &'p [TExpr],
    v: Value,
) -> Result<Now<'p>, AllocError>
    requires { frames.old ≢ [] }
    ensures { MatchResult result
        (λ now. spot_of now (frames_of frames.new)
        ≡ argued function (way_of way) (values_of before ++ v ∷ [])
        (texpr_trees more.now) (frames_of (drop 1 frames.old)))
        (λ _. frames.new ≡ frames.old) }
{
    let Some(values) = with_value(before, v) else {
        return Err(AllocError);
    };
    match more {
        [] => Ok(popped(
            frames,
            Now::Does(Act::Enter {
                function,
                way,
                values,
            }),
        )),
        [e, more @ ..] => Ok(instead(
            frames,
            Frame::Arguments {
                function,
                way,
                before: values,
                more,
            },
            e,
        )),
    }
}

/// What follows a value.
fn give<'p>(frames: &mut Frames<'p>, v: Value) -> Result<Now<'p>, AllocError>
    ensures { MatchResult result (λ now. spot_of now (frames_of frames.new) ≡ gives v (frames_of frames.old)) (λ _. frames.new ≡ frames.old) }
{
    match frames.top() {
        Some(frame) => give_to(frames, frame, v),
        None => Ok(Now::Does(Act::Stuck)),
    }
}

/// What follows a value at the top frame.
fn give_to<'p>(frames: &mut Frames<'p>, frame: Frame<'p>, v: Value) -> Result<Now<'p>, AllocError>
    requires { frames.old ≡ frame ∷ drop 1 frames.old }
    ensures { MatchResult result (λ now. spot_of now (frames_of frames.new) ≡ gives v (frame_of frame.entry ∷ frames_of (drop 1 frames.old))) (λ _. frames.new ≡ frames.old) }
{
    match frame {
        Frame::Second(op, first, b) => Ok(instead(
            frames,
            Frame::Combines(op, first, type_of(b), v),
            b,
        )),
        Frame::Arguments {
            function,
            way,
            before,
            more,
        } => give_argument(frames, function, way, before, more, v),
        Frame::Target(ty, e) => Ok(instead(frames, Frame::Into(ty, v), e)),
        _ => Ok(popped(frames, step_at(frame, v))),
    }
}

/// The step that a value leads to at a frame that is done with it.
fn step_at<'p>(frame: Frame<'p>, v: Value) -> Now<'p>
    requires { IsLast frame }
    ensures { (rest : List MeantFrame) → spot_of result rest ≡ gives v (frame_of frame.entry ∷ rest) }
{
    match frame {
        Frame::Loads(ty) => Now::Does(Act::Load(ty, v)),
        Frame::Applies(op, ty) => Now::Does(Act::Apply(op, ty, v)),
        Frame::Converts(from, to) => Now::Does(Act::Convert(from, to, v)),
        Frame::Steps(ty, member) => Now::Does(Act::Step(ty, member, v)),
        Frame::Combines(op, first, second, u) => Now::Does(Act::Combine(op, first, second, u, v)),
        Frame::Decides(op, b) => Now::Does(Act::Decide(op, b, v)),
        Frame::Truth => Now::Does(Act::Judge(v)),
        Frame::Tells(device, register) => Now::Does(Act::Tell(device, register, v)),
        Frame::Spawns(function) => Now::Does(Act::Spawn(function, v)),
        Frame::Switches => Now::Does(Act::Switch(v)),
        Frame::Into(ty, to) => assign(ty, to, v),
        Frame::Discards => Now::Follows,
        Frame::Forks(s) => Now::Does(Act::Branch(v, s)),
        Frame::Tests(l) => Now::Does(Act::Test(v, l)),
        Frame::Answers => Now::Does(Act::Leave(v)),
        _ => Now::Does(Act::Stuck),
    }
}

/// One move of what costs nothing.
fn advance<'p>(frames: &mut Frames<'p>, now: Now<'p>) -> Result<Now<'p>, AllocError>
    ensures { MatchResult result (λ after. spot_of after (frames_of frames.new) ≡ spot_of now.entry (frames_of frames.old)) (λ _. frames.new ≡ frames.old) }
{
    match now {
        Now::Does(act) => Ok(Now::Does(act)),
        Now::Starts(e) => start(frames, e),
        Now::Reaches(e) => descend(frames, e),
        Now::Gives(v) => give(frames, v),
        Now::Begins(s) => begin(frames, s),
        Now::BeginsAll(all) => begin_all(frames, all),
        Now::BeginsLoop(l) => begin_loop(frames, l),
        Now::BeginsBody(l) => begin_body(frames, l),
        Now::EndsBody(l) => end_body(frames, l),
        Now::Follows => Ok(follow_on(frames)),
    }
}

/// Goes on by what costs nothing, up to the next step. Where memory ran out on the way the answer is no
/// step yet; the thread stands where it stood all the same.
pub fn settle<'p>(frames: &mut Frames<'p>, now: Now<'p>) -> Now<'p>
    ensures { spot_of result (frames_of frames.new) ≡ spot_of now.entry (frames_of frames.old) }
{
    let mut here = now;
    for _ in 0..u64::MAX {
        if let Now::Does(_) = here {
            return here;
        }
        match advance(frames, here) {
            Ok(after) => here = after,
            Err(_) => return here,
        }
    }
    here
}
