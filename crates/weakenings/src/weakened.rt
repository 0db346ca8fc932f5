//! Questions to rows: what is under a substitution, without it.

ghost use Rattle.std.specs.Prelude.{◌≡◌, ◌≤◌, ◌+◌, ◌-◌, IfSome, IsSome, Some};
ghost use Rattle.trees.specs.Trees.{Var, greatest_shift, shift_by};
ghost use Rattle.trees.specs.Things.{ASubst, ATree, both, instance_of, then_of};
ghost use Rattle.rows.specs.Views.{IsSubst};

use rows::{Reader, SubId, SubSize, TermId, TermRow};

/// The greatest shift of a row.
const GREATEST_SHIFT: u64 = 1 << 62;

/// What an index or a shift comes to that is past all the trees that are pushed on a shift.
fn past(at: u64, pushed: u64, shift: u64) -> Option<u64>
    ensures { IfSome result (λ by. (pushed ≤ at) × (by ≡ at - pushed + shift)) }
{
    let left = at.checked_sub(pushed)?;
    let by = left.checked_add(shift)?;
    Some(by)
}

/// The shift that `first then second` is, if `first` is a shift that drops all the trees that
/// `second` pushes. It is one that a row may have.
pub fn shift_of_both<R: Reader>(rows: &R, first: SubId, second: SubId) -> Option<u64>
    requires first { IsSubst (R.means rows.now first.0) }
    requires second { IsSubst (R.means rows.now second.0) }
    ensures both { let f = R.means rows.now in
        IfSome result (λ by. both then_of (f first.0) (f second.0) ≡ Some (ASubst (shift_by by))) }
    ensures fits { IfSome result (λ by. by ≤ greatest_shift) }
{
    let SubSize {
        pushed: Some(0),
        shift,
    } = rows.size(first)
    else {
        return None;
    };
    let SubSize {
        pushed: Some(pushed),
        shift: behind,
    } = rows.size(second)
    else {
        return None;
    };
    let by = past(shift, pushed, behind)?;
    if by <= GREATEST_SHIFT { Some(by) } else { None }
}

/// The row that the instance is, if it is one already: a tree under the identity, or under a shift
/// that the substitution undoes.
pub fn undone<R: Reader>(rows: &R, term: TermId, sub: SubId) -> Option<u64>
    requires { IsSome (both instance_of (R.means rows.now term.0) (R.means rows.now sub.0)) }
    ensures { let f = R.means rows.now in
        IfSome result (λ row. f row ≡ both instance_of (f term.0) (f sub.0)) }
{
    if let SubSize {
        pushed: Some(0),
        shift: 0,
    } = rows.size(sub)
    {
        return Some(term.0);
    }
    let TermRow::Instance(tree, first) = rows.term(term) else {
        return None;
    };
    match shift_of_both(rows, first, sub) {
        Some(0) => Some(tree.0),
        _ => None,
    }
}

/// The index of the variable that the instance is, if it is one past the trees that are pushed.
pub fn passed<R: Reader>(rows: &R, term: TermId, sub: SubId) -> Option<u32>
    requires { IsSome (both instance_of (R.means rows.now term.0) (R.means rows.now sub.0)) }
    ensures { let f = R.means rows.now in
        IfSome result (λ k. both instance_of (f term.0) (f sub.0) ≡ Some (ATree (Var k))) }
{
    let TermRow::Var(index) = rows.term(term) else {
        return None;
    };
    let SubSize {
        pushed: Some(pushed),
        shift,
    } = rows.size(sub)
    else {
        return None;
    };
    let index = past(u64::from(index), pushed, shift)?;
    match u32::try_from(index) {
        Ok(index) => Some(index),
        Err(_) => None,
    }
}
