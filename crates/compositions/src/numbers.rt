//! Compositions of numbers.

use crate::sides::{Terms, covered};
use book::{Book, NodeId};
use eliminators::{OnFace, Settled, Sides, Waiting, equation_under, into_face, within_face};
use kan_rules::{
    BASE_AT_START, BASE_AT_START_GIVES, COMP_NAT_SIDES_SUC, COMP_NAT_SIDES_SUC_GIVES,
    COMP_NAT_SIDES_ZERO, COMP_NAT_SIDES_ZERO_GIVES, COMP_NAT_SUC, COMP_NAT_SUC_GIVES,
    COMP_NAT_ZERO, COMP_NAT_ZERO_GIVES, PREDECESSOR, PREDECESSOR_GIVES, PREDECESSOR_TYPED,
    PREDECESSOR_TYPED_GIVES,
};
use std::alloc::Global;
use tested_steps::{
    Fault, always_false, conjunction, context_of, count_conjunctions, derive, part_of, premise_of,
    rule_of,
};
use theory::{NatRule, RuleName};
use typing_rules::{ZERO_TERM, ZERO_TERM_GIVES};
use values::{Goal, Question, Susp, identity, rebuilt, term_under};

/// A composition along the line of the numbers, by its node.
#[derive(Clone, Copy)]
struct Numbers {
    face: u64,
    line: NodeId,
    side: NodeId,
    base: NodeId,
    start: NodeId,
}

fn numbers_of(book: &Book, goal: Goal) -> Result<Numbers, Fault> {
    let node = goal.susp.typing;
    Ok(Numbers {
        face: part_of(book, node, 2)?,
        line: premise_of(book, node, 0)?,
        side: premise_of(book, node, 1)?,
        base: premise_of(book, node, 2)?,
        start: premise_of(book, node, 3)?,
    })
}

/// Zero or a successor.
#[derive(Clone, Copy, PartialEq, Eq)]
enum Numeral {
    Zero,
    Suc,
}

/// What a head is, if it is zero or a successor.
fn numeral_of(book: &Book, head: Goal) -> Result<Option<Numeral>, Fault> {
    match rule_of(book, head.susp.typing)? {
        RuleName::Naturals(NatRule::Zero) => Ok(Some(Numeral::Zero)),
        RuleName::Naturals(NatRule::Suc) => Ok(Some(Numeral::Suc)),
        _ => Ok(None),
    }
}

/// The number before a head that is a successor.
fn number_before(book: &mut Book, head: Goal) -> Result<NodeId, Fault> {
    let number = premise_of(book, head.susp.typing, 0)?;
    term_under(book, head.susp.sub, number)
}

/// What the side is, where the conjunction at a place of the face is true.
fn ask_side(alloc: Global, book: &mut Book, sides: Sides) -> Result<Settled, Fault> {
    let numbers = numbers_of(book, sides.goal)?;
    let inner = context_of(alloc, book, numbers.side)?;
    let face = conjunction(book, sides.goal.susp.ctx, numbers.face, sides.at, 1)?;
    let within = within_face(book, inner, face)?;
    let question = Question::HeadOf(Susp {
        ctx: within.ctx,
        typing: numbers.side,
        sub: within.out,
    });
    Ok(Settled::Asks(question, Waiting::Side(sides)))
}

/// A composition from zero over a face that is true nowhere.
fn zero_over_nothing(book: &mut Book, goal: Goal, base: Goal) -> Result<Settled, Fault> {
    let numbers = numbers_of(book, goal)?;
    let premises = [
        goal.susp.ctx,
        numbers.line,
        numbers.side,
        numbers.base,
        numbers.start,
        base.way.equal,
    ];
    let [equal, term]: [NodeId; 2] = derive(
        book,
        COMP_NAT_ZERO,
        COMP_NAT_ZERO_GIVES,
        &[numbers.face],
        &premises,
    )?;
    Ok(Settled::Fired(rebuilt(book, goal, equal, None, term)?))
}

/// A composition from a successor over a face that is true nowhere.
fn suc_over_nothing(book: &mut Book, goal: Goal, base: Goal) -> Result<Settled, Fault> {
    let numbers = numbers_of(book, goal)?;
    let premises = [
        goal.susp.ctx,
        numbers.line,
        numbers.side,
        numbers.base,
        numbers.start,
        base.way.equal,
        number_before(book, base)?,
    ];
    let [equal, term]: [NodeId; 2] = derive(
        book,
        COMP_NAT_SUC,
        COMP_NAT_SUC_GIVES,
        &[numbers.face],
        &premises,
    )?;
    Ok(Settled::Fired(rebuilt(book, goal, equal, None, term)?))
}

/// The place of the first conjunction of the face from this one on that is true somewhere, if there
/// is one. The side may be any number where the others are.
fn live_conjunction(book: &mut Book, goal: Goal, from: usize) -> Result<Option<usize>, Fault> {
    let ctx = goal.susp.ctx;
    let face = part_of(book, goal.susp.typing, 2)?;
    let count = count_conjunctions(book, ctx, face)?;
    for at in from..count {
        let face = conjunction(book, ctx, face, at, 0)?;
        if !always_false(book, ctx, face)? {
            return Ok(Some(at));
        }
    }
    Ok(None)
}

/// A composition of numbers, of which the base was found.
pub fn settle_number(
    alloc: Global,
    book: &mut Book,
    goal: Goal,
    base: Goal,
) -> Result<Settled, Fault> {
    let Some(numeral) = numeral_of(book, base)? else {
        return Ok(Settled::Closed(goal));
    };
    let Some(at) = live_conjunction(book, goal, 0)? else {
        return match numeral {
            Numeral::Zero => zero_over_nothing(book, goal, base),
            Numeral::Suc => suc_over_nothing(book, goal, base),
        };
    };
    let sides = Sides {
        goal,
        base,
        at,
        before: None,
    };
    ask_side(alloc, book, sides)
}

/// What a side that is a successor equals where a conjunction is true, at the side's own type: the
/// successor of the predecessor.
fn successor_there(book: &mut Book, sides: Sides, side: Goal, face: u64) -> Result<NodeId, Fault> {
    let numbers = numbers_of(book, sides.goal)?;
    let number = number_before(book, side)?;
    let inner = premise_of(book, side.susp.ctx, 0)?;
    let within = within_face(book, inner, face)?;
    let tube = term_under(book, within.out, numbers.side)?;
    let premises = [side.susp.ctx, tube, number, side.way.equal];
    let [equal, _value, _term]: [NodeId; 3] = derive(
        book,
        PREDECESSOR,
        PREDECESSOR_GIVES,
        &[],
        &premises,
    )?;
    Ok(equal)
}

/// What the side is to equal, in the context of the side: a number's successor, or zero.
#[derive(Clone, Copy)]
struct Wanted {
    ctx: NodeId,
    numeral: Numeral,
    /// The number; of zero itself.
    before: NodeId,
    value: NodeId,
}

/// What the side is to equal, of `ctx H.p.I`.
fn value_wanted(
    book: &mut Book,
    sides: Sides,
    numeral: Numeral,
    ctx: NodeId,
) -> Result<Wanted, Fault> {
    let [before, value] = match numeral {
        Numeral::Zero => {
            let [zero]: [NodeId; 1] = derive(book, ZERO_TERM, ZERO_TERM_GIVES, &[], &[ctx])?;
            [zero, zero]
        }
        Numeral::Suc => {
            let premises = [ctx, premise_of(book, sides.goal.susp.typing, 1)?];
            derive(
                book,
                PREDECESSOR_TYPED,
                PREDECESSOR_TYPED_GIVES,
                &[],
                &premises,
            )?
        }
    };
    Ok(Wanted {
        ctx,
        numeral,
        before,
        value,
    })
}

/// A composition of which the base is zero, and the side by that equation.
fn all_zero(book: &mut Book, sides: Sides, equal: NodeId) -> Result<Settled, Fault> {
    let goal = sides.goal;
    let numbers = numbers_of(book, goal)?;
    let premises = [
        goal.susp.ctx,
        numbers.line,
        numbers.side,
        numbers.base,
        numbers.start,
        sides.base.way.equal,
        equal,
    ];
    let [equal, term]: [NodeId; 2] = derive(
        book,
        COMP_NAT_SIDES_ZERO,
        COMP_NAT_SIDES_ZERO_GIVES,
        &[numbers.face],
        &premises,
    )?;
    Ok(Settled::Fired(rebuilt(book, goal, equal, None, term)?))
}

/// That the number before the base is that before the side, where the side starts.
fn same_start(book: &mut Book, sides: Sides, number: NodeId) -> Result<NodeId, Fault> {
    let numbers = numbers_of(book, sides.goal)?;
    let premises = [
        sides.goal.susp.ctx,
        numbers.side,
        numbers.base,
        numbers.start,
        sides.base.way.equal,
        number,
    ];
    let [there, start, here, same]: [NodeId; 4] = derive(
        book,
        BASE_AT_START,
        BASE_AT_START_GIVES,
        &[numbers.face],
        &premises,
    )?;
    let premises = [there, start, here, same];
    let [_equal, value, _term]: [NodeId; 3] = derive(
        book,
        PREDECESSOR,
        PREDECESSOR_GIVES,
        &[],
        &premises,
    )?;
    Ok(value)
}

/// A composition of which the base is a successor, and the side that of a number, by that equation.
fn all_successors(
    book: &mut Book,
    sides: Sides,
    equal: NodeId,
    before: NodeId,
) -> Result<Settled, Fault> {
    let goal = sides.goal;
    let numbers = numbers_of(book, goal)?;
    let number = number_before(book, sides.base)?;
    let premises = [
        numbers.line,
        numbers.side,
        numbers.base,
        numbers.start,
        sides.base.way.equal,
        number,
        equal,
        before,
        same_start(book, sides, number)?,
    ];
    let [equal, term]: [NodeId; 2] = derive(
        book,
        COMP_NAT_SIDES_SUC,
        COMP_NAT_SIDES_SUC_GIVES,
        &[numbers.face],
        &premises,
    )?;
    Ok(Settled::Fired(rebuilt(book, goal, equal, None, term)?))
}

/// What the side equals where one of the conjunctions up to the present one is true.
fn equal_so_far(
    book: &mut Book,
    sides: Sides,
    side: Goal,
    wanted: Wanted,
) -> Result<OnFace, Fault> {
    let numbers = numbers_of(book, sides.goal)?;
    let face = conjunction(book, sides.goal.susp.ctx, numbers.face, sides.at, 1)?;
    let equation = match wanted.numeral {
        Numeral::Zero => side.way.equal,
        Numeral::Suc => successor_there(book, sides, side, face)?,
    };
    let here = OnFace { face, equation };
    let Some(before) = sides.before else {
        return Ok(here);
    };
    let terms = Terms {
        ctx: wanted.ctx,
        left: numbers.side,
        right: wanted.value,
    };
    covered(book, terms, before, here)
}

/// A composition of numbers, of which the side was found where a conjunction of the face is true.
pub fn settle_side(
    alloc: Global,
    book: &mut Book,
    sides: Sides,
    side: Goal,
) -> Result<Settled, Fault> {
    let goal = sides.goal;
    let Some(numeral) = both_numeral(book, sides.base, side)? else {
        return Ok(Settled::Closed(goal));
    };
    let tube = premise_of(book, goal.susp.typing, 1)?;
    let inner = context_of(alloc, book, tube)?;
    let wanted = value_wanted(book, sides, numeral, inner)?;
    let so_far = equal_so_far(book, sides, side, wanted)?;
    let Some(after) = sides.at.checked_add(1) else {
        return Err(Fault::Misfit);
    };
    if let Some(at) = live_conjunction(book, goal, after)? {
        let next = Sides {
            at,
            before: Some(so_far),
            ..sides
        };
        return ask_side(alloc, book, next);
    }
    let equal = everywhere(book, inner, so_far)?;
    match numeral {
        Numeral::Zero => all_zero(book, sides, equal),
        Numeral::Suc => all_successors(book, sides, equal, wanted.before),
    }
}

/// What two heads are, if both are zero or both successors.
fn both_numeral(book: &Book, left: Goal, right: Goal) -> Result<Option<Numeral>, Fault> {
    let found = numeral_of(book, left)?;
    if found == numeral_of(book, right)? {
        Ok(found)
    } else {
        Ok(None)
    }
}

/// An equation where a face is true that is true in the whole context.
fn everywhere(book: &mut Book, ctx: NodeId, part: OnFace) -> Result<NodeId, Fault> {
    let here = identity(book, ctx)?;
    let there = into_face(book, here, part.face)?;
    equation_under(book, there, part.equation)
}
