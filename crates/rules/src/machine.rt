//! The machine that runs programs.

ghost use Rattle.std.specs.Prelude.{◌≡◌, ◌≤◌, ◌<◌, ◌+◌, ◌∷◌, length, IfOk};
ghost use Rattle.std.specs.Prelude.{IsOk, IsSome, IsTrue, true};
ghost use Rattle.std.specs.List.{list_all, list_any};
ghost use Rattle.trees.specs.Things.{Kept, meanings};
ghost use Rattle.rules.specs.Run.{stepped, rows_for, takes, lists_of, thing_of};
ghost use Rattle.rules.specs.Run.{rows_in, things_of, rows_of_all};
ghost use Rattle.rules.specs.Schemas.{fits, has_then};
ghost use Rattle.rules.specs.Shifts.{ShiftsFit, ThenFits};

use crate::derived::arity;
use crate::instruction::Instruction;
use crate::program::Place;
use crate::stack::Stack;
use crate::table::derivation;
use rows::Maker;
use std::alloc::AllocError;
use theory::kid_count;

/// Takes what an instruction takes off the stack, and answers the row that it makes.
#[cycle(run)]
fn follow<M: Maker>(
    maker: &mut M,
    parts: &[u64],
    instruction: Instruction,
    stack: &mut Stack,
) -> Result<u64, AllocError>
    requires runs { let f = M.means maker.old in
        IsSome (stepped instruction (meanings f parts.now) (meanings f stack.old)) }
    requires small { ThenFits (M.means maker.old) instruction stack.old }
    ensures covered { rows_for instruction ≤ M.spare maker.old → IsOk result }
    ensures spends { M.spare maker.old ≤ M.spare maker.new + rows_for instruction }
    ensures kept { Kept (M.means maker.old) (M.means maker.new) }
    ensures steps { let f = M.means maker.old in
        IfOk result (λ row. meanings (M.means maker.new) (row ∷ stack.new) ≡
        stepped instruction (meanings f parts.now) (meanings f stack.old)) }
    ensures room { IfOk result (λ _. length stack.new + takes instruction ≡ length stack.old) }
{
    match instruction {
        Instruction::Part(k) => Ok(parts[k as usize]),
        Instruction::Var(index) => Ok(maker.var(index)?),
        Instruction::Make(op) => {
            let count = kid_count(op) as usize;
            let row = maker.make(op, stack.first(count))?;
            stack.remove(count);
            Ok(row)
        }
        Instruction::Instance => {
            let (term, sub) = stack.pop_two();
            Ok(maker.instance(term, sub)?)
        }
        Instruction::Shift(by) => Ok(maker.shift(by)?),
        Instruction::Push => {
            let (sub, term) = stack.pop_two();
            Ok(maker.push(sub, term)?)
        }
        Instruction::Then => {
            let (first, second) = stack.pop_two();
            Ok(maker.then(first, second)?)
        }
        Instruction::CtxNil => Ok(maker.ctx_nil()?),
        Instruction::CtxVar => {
            let (ctx, ty) = stack.pop_two();
            Ok(maker.ctx_var(ctx, ty)?)
        }
        Instruction::CtxName => {
            let ctx = stack.pop();
            Ok(maker.ctx_name(ctx)?)
        }
        Instruction::CtxFace => {
            let (ctx, face) = stack.pop_two();
            Ok(maker.ctx_face(ctx, face)?)
        }
        Instruction::Call(derived) => {
            let count = arity(derived);
            let row = row_of(maker, stack.first(count), derivation(derived))?;
            stack.remove(count);
            Ok(row)
        }
    }
}

/// The row of what the instructions of a place make of the parts.
#[cycle(run)]
fn row_of<M: Maker>(maker: &mut M, parts: &[u64], place: Place) -> Result<u64, AllocError>
    requires fits { fits place.now ≡ true }
    requires live { IsSome (meanings (M.means maker.old) parts.now) }
    requires makes { IsSome (thing_of (meanings (M.means maker.old) parts.now) place.now) }
    requires shifts { IsTrue (has_then place.now) →
        ShiftsFit (meanings (M.means maker.old) parts.now) }
    ensures covered { rows_in place.now ≤ M.spare maker.old → IsOk result }
    ensures spends { M.spare maker.old ≤ M.spare maker.new + rows_in place.now }
    ensures kept { Kept (M.means maker.old) (M.means maker.new) }
    ensures row { IfOk result (λ row. M.means maker.new row ≡
        thing_of (meanings (M.means maker.old) parts.now) place.now) }
{
    let mut stack = Stack::new();
    let mut at = place.len();
    while at > 0 {
        at -= 1;
        let row = follow(maker, parts, place[at], &mut stack)?;
        stack.push(row);
    }
    Ok(stack.pop())
}

/// The rows of what the instructions of some places make of the parts.
pub fn rows_of<M: Maker, const N: usize>(
    maker: &mut M,
    parts: &[u64],
    places: &[Place],
) -> Result<[u64; N], AllocError>
    requires count { length places.now ≡ N }
    requires fits { list_all fits (lists_of places.now) ≡ true }
    requires live { IsSome (meanings (M.means maker.old) parts.now) }
    requires makes { let P = meanings (M.means maker.old) parts.now in
        IsSome (things_of P (lists_of places.now)) }
    requires shifts { IsTrue (list_any has_then (lists_of places.now)) →
        ShiftsFit (meanings (M.means maker.old) parts.now) }
    ensures covered { rows_of_all (lists_of places.now) ≤ M.spare maker.old → IsOk result }
    ensures spends { M.spare maker.old ≤ M.spare maker.new + rows_of_all (lists_of places.now) }
    ensures kept { Kept (M.means maker.old) (M.means maker.new) }
    ensures rows { IfOk result (λ rows. meanings (M.means maker.new) rows ≡
        things_of (meanings (M.means maker.old) parts.now) (lists_of places.now)) }
{
    let mut rows = [0; N];
    for (at, place) in places.iter().enumerate() {
        rows[at] = row_of(maker, parts, place)?;
    }
    Ok(rows)
}
