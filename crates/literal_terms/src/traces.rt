//! Terms, traced to where they were made.

ghost use Rattle.std.specs.Prelude.{◌≡◌, ◌+◌, ◌≤◌, ◌∷◌, IfOk, IsTrue, List, OnOk, Some, reverse};
ghost use Rattle.trees.specs.Trees.{Subst, Tree, id};
ghost use Rattle.trees.specs.Judgements.{Context};
ghost use Rattle.trees.specs.Language.{Sb, Tm, TyEq};
ghost use Rattle.book.specs.Shown.{Extends};
ghost use Rattle.typed_nodes.specs.Typed.{Says};
ghost use Rattle.literal_types.specs.Openings.{weight};
ghost use Rattle.literal_types.specs.Waits.{waiting_weight};
ghost use Rattle.literal_types.specs.declared.waiting.Waiting.{Waiting};
ghost use Rattle.literal_types.specs.declared.waiting.Waiting.TheVariants as waits;
ghost use Rattle.literal_terms.specs.declared.origins.Origin.TheVariants as origin;
ghost use Rattle.literal_terms.specs.Traces.{Fits, IsJoined, IsLiteralTerm, IsTraced, IsTracedTo};
ghost use Rattle.literal_terms.specs.Traces.{LooksUp, trace_weight};

use crate::equations::{equation_under, joined_equations};
use crate::forms::{LiteralTerm, TermForm};
use crate::origins::{Origin, opened};
use book::{Book, NodeId};
use literal_types::{Waiting, joined, joined_two, looked_up};
use std::alloc::{AllocError, Global};

/// How far a term is traced.
#[derive(Drop)]
pub struct Trace {
    alloc: Global,
    /// That nothing is done, where the term is.
    here: NodeId,
    /// The node that was reached,
    node: NodeId,
    /// under these substitutions,
    waiting: Vec<Waiting>,
    /// which are this one, where that is known.
    sub: Option<NodeId>,
    /// That its type there equals the type of the term, where they are not one.
    fits: Option<NodeId>,
}

/// What waits, once more.
fn copied(alloc: Global, waiting: &[Waiting]) -> Result<Vec<Waiting>, AllocError>
    ensures { IfOk result (λ copy. copy.items ≡ waiting.now) }
{
    let mut copy = Vec::new(alloc);
    copy.extend_from_slice(waiting)?;
    Ok(copy)
}

/// `H >> R = T`, of `H >> R = S`, where S and T are one or equal.
fn fitting(book: &mut Book, equation: NodeId, fits: Option<NodeId>) -> Result<NodeId, AllocError>
    requires { (H : Context) × (R S T : Tree) × Says book.old equation (TyEq H R S)
        × Fits book.old fits H S T }
    ensures extends { Extends book.old book.new }
    ensures typed { IfOk result (λ node. (H : Context) (R S T : Tree) →
        Says book.old equation (TyEq H R S) → Fits book.old fits H S T
        → Says book.new node (TyEq H R T)) }
{
    match fits {
        Some(after) => Ok(joined_equations(book, equation, after)?),
        None => Ok(equation),
    }
}

/// What waits with one more substitution before it, where the others are known as one.
fn below(book: &mut Book, before: Option<NodeId>, sub: NodeId) -> Result<Option<NodeId>, AllocError>
    requires { (H K G : Context) × (d : Subst) × (ws : List Waiting)
        × Says book.old sub (Sb K d G) × IsJoined book.old before ws H K }
    ensures extends { Extends book.old book.new }
    ensures joined { IfOk result (λ both. (H K G : Context) (d : Subst) (ws : List Waiting) →
        Says book.old sub (Sb K d G) → IsJoined book.old before ws H K
        → IsJoined book.new both (waits.Sub sub ∷ ws) H G) }
{
    match before {
        Some(before) => Ok(Some(joined_two(book, before, sub)?)),
        None => Ok(None),
    }
}

impl Trace {
    /// What waits, as one substitution.
    fn as_one(&self, book: &mut Book) -> Result<NodeId, AllocError>
        requires { (H : Context) × (t T : Tree) × IsTraced book.old self.now H t T }
        ensures extends { Extends book.old book.new }
        ensures joined { IfOk result (λ sub. (H : Context) (t T : Tree)
            (traced : IsTraced book.old self.now H t T) →
            IsJoined book.new (Some sub) (reverse self.now.waiting.items) H traced.at.home) }
    {
        match self.sub {
            Some(sub) => Ok(sub),
            None => {
                let waiting = copied(self.alloc, &self.waiting)?;
                Ok(joined(self.alloc, book, self.here, waiting)?)
            }
        }
    }

    /// Goes on with what was converted.
    fn convert(&mut self, book: &mut Book, term: NodeId, equation: NodeId) -> Result<(), AllocError>
        requires { (H : Context) × (t T : Tree) × IsTracedTo book.old self.old
            (origin.Converted term equation) H t T }
        ensures extends { Extends book.old book.new }
        ensures traced { OnOk result ((H : Context) (t T : Tree) → IsTracedTo book.old self.old
            (origin.Converted term equation) H t T → IsTraced book.new self.new H t T) }
        ensures less { OnOk result (trace_weight self.new
            ≤ weight term + waiting_weight (reverse self.old.waiting.items)) }
    {
        let sub = self.as_one(book)?;
        let under = equation_under(book, sub, equation)?;
        let fits = fitting(book, under, self.fits)?;
        self.node = term;
        self.sub = Some(sub);
        self.fits = Some(fits);
        Ok(())
    }

    /// Goes on below a substitution.
    fn enter(&mut self, book: &mut Book, sub: NodeId, term: NodeId) -> Result<(), AllocError>
        requires { (H : Context) × (t T : Tree) × IsTracedTo book.old self.old
            (origin.Instance sub term) H t T }
        ensures extends { Extends book.old book.new }
        ensures traced { OnOk result ((H : Context) (t T : Tree) → IsTracedTo book.old self.old
            (origin.Instance sub term) H t T → IsTraced book.new self.new H t T) }
        ensures less { OnOk result (trace_weight self.new
            ≤ weight sub + weight term + waiting_weight (reverse self.old.waiting.items)) }
    {
        let both = below(book, self.sub, sub)?;
        self.waiting.push(Waiting::Sub(sub))?;
        self.node = term;
        self.sub = both;
        Ok(())
    }

    /// Goes on with what the innermost variable becomes, if it is no variable.
    fn look_up(&mut self, book: &Book) -> Result<bool, AllocError>
        requires { (H : Context) × (t T : Tree) × IsTracedTo book.now self.old
            origin.Variable H t T }
        ensures traced { IfOk result (λ more. (H : Context) (t T : Tree) →
            IsTracedTo book.now self.old origin.Variable H t T
            → LooksUp book.now self.new more H t T) }
        ensures less { IfOk result (λ more. IsTrue more
            → trace_weight self.new ≤ waiting_weight (reverse self.old.waiting.items)) }
    {
        match looked_up(book, &mut self.waiting)? {
            Some(term) => {
                self.node = term;
                self.sub = None;
                Ok(true)
            }
            None => Ok(false),
        }
    }

    /// The form that was reached.
    fn ended(&self, book: &mut Book, form: TermForm) -> Result<LiteralTerm, AllocError>
        requires { (H : Context) × (t T : Tree) × IsTracedTo book.old self.now
            (origin.Formed form) H t T }
        ensures extends { Extends book.old book.new }
        ensures literal { IfOk result (λ term. (H : Context) (t T : Tree) →
            IsTracedTo book.old self.now (origin.Formed form) H t T
            → IsLiteralTerm book.new (Some term) H t T) }
    {
        let sub = self.as_one(book)?;
        Ok(LiteralTerm {
            form,
            sub,
            fits: self.fits,
        })
    }
}

/// What a term literally is, whatever instances and conversions spell it, or None where it is no
/// function, pair, path, glued term or type by its operator. A conversion that keeps the type is
/// none. `here` is the substitution that does nothing, in the context of the term.
///
/// # Errors
/// Only where memory runs out.
pub fn literal_term(
    alloc: Global,
    book: &mut Book,
    typing: NodeId,
    here: NodeId,
) -> Result<Option<LiteralTerm>, AllocError>
    requires { (H : Context) × (t T : Tree) × Says book.old typing (Tm H t T)
        × Says book.old here (Sb H id H) }
    ensures extends { Extends book.old book.new }
    ensures literal { IfOk result (λ found. (H : Context) (t T : Tree) →
        Says book.old typing (Tm H t T) → Says book.old here (Sb H id H)
        → IsLiteralTerm book.new found H t T) }
{
    let mut trace = Trace {
        alloc,
        here,
        node: typing,
        waiting: Vec::new(alloc),
        sub: Some(here),
        fits: None,
    };
    loop {
        match opened(book, trace.node) {
            Origin::Same(term) => trace.node = term,
            Origin::Converted(term, equation) => trace.convert(book, term, equation)?,
            Origin::Instance(sub, term) => trace.enter(book, sub, term)?,
            Origin::Variable => {
                if !trace.look_up(book)? {
                    return Ok(None);
                }
            }
            Origin::Formed(form) => return Ok(Some(trace.ended(book, form)?)),
            Origin::Other => return Ok(None),
        }
    }
}
