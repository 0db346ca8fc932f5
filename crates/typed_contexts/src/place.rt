//! The contexts of a place, and the weakenings between them.

ghost use Rattle.std.specs.Prelude.{◌≡◌, ◌-◌, ◌≤◌, ◌<◌, IfOk, OnOk, MatchOption};
ghost use Rattle.std.specs.Prelude.{length, suc};
ghost use Rattle.trees.specs.Trees.{Tree, Var, apply, shift_by, id};
ghost use Rattle.trees.specs.Judgements.{Context, Nil, WithVar, WithName};
ghost use Rattle.trees.specs.Language.{Ctx, Ty, Tm, Sb};
ghost use Rattle.conditions.specs.Sides.{is_name as is_name_of};
ghost use Rattle.book.specs.Contents.{Contents};
ghost use Rattle.book.specs.Shown.{Extends};
ghost use Rattle.typed_nodes.specs.Typed.{IsTyped, Says};
ghost use Rattle.typed_contexts.specs.Contexts.{at_depth, depth_of, outside, type_in};
ghost use Rattle.typed_contexts.specs.Places.{IsLevel, IsNext, IsPlace, Weakens};

use book::{Book, NodeId};
use std::alloc::{AllocError, Global};
use typed_nodes::{
    TypeAt, Typed, composed, empty, identity, past_name, past_variable, term_instance,
    type_instance, variable, with_name, with_variable,
};

/// An entry of a context.
#[derive(Clone, Copy, Debug)]
pub(crate) enum Entry {
    /// A variable, with the node of its type in the context before it.
    Variable(NodeId),
    /// A name of the interval.
    Name,
}

/// A weakening to the context of that depth.
#[derive(Clone, Copy, Debug)]
pub(crate) struct Weakening {
    pub(crate) to: usize,
    pub(crate) sub: NodeId,
}

/// A context that ends with an entry.
#[derive(Clone, Copy, Debug)]
pub(crate) struct Level {
    pub(crate) ctx: NodeId,
    pub(crate) entry: Entry,
    /// The weakening past the entry.
    pub(crate) up: NodeId,
    /// A weakening that passes some entries more, or the same. Jumps are so long that any context
    /// is about twice the logarithm of the depth away, or nearer.
    pub(crate) jump: Weakening,
}

/// A place: its context, and the contexts that this one goes on from.
#[derive(Drop)]
pub struct Places {
    pub(crate) empty: NodeId,
    pub(crate) levels: Vec<Level>,
}

impl Places {
    /// The place of the top level.
    pub fn new(alloc: Global, book: &mut Book) -> Result<Places, AllocError>
        ensures extends { Extends book.old book.new }
        ensures place { IfOk result (λ places. IsPlace book.new places Nil) }
    {
        Ok(Places {
            empty: empty(book)?,
            levels: Vec::new(alloc),
        })
    }

    /// The number of variables and names.
    pub fn depth(&self) -> usize
        ensures levels { result ≡ length self.now.levels.items }
        ensures place { (b : Contents) (H : Context) → IsPlace b self.now H
            → result ≡ depth_of H }
    {
        self.levels.len()
    }

    /// The level of that depth, which is not the empty context.
    fn level(&self, depth: usize) -> Level
        requires entry { 0 < depth }
        requires within { depth ≤ length self.now.levels.items }
        ensures { (b : Contents) (H : Context) → IsPlace b self.now H
            → IsLevel b result (at_depth depth H) }
    {
        self.levels[depth - 1]
    }

    /// The node of the context.
    pub fn ctx(&self) -> NodeId
        ensures { (b : Contents) (H : Context) → IsPlace b self.now H
            → Says b result (Ctx H) }
    {
        let depth = self.depth();
        if depth == 0 {
            self.empty
        } else {
            self.level(depth).ctx
        }
    }

    /// The depth to which the next level jumps: over the last jump and the one that goes on from
    /// there, where both are as long; else past its own entry alone.
    fn jump_target(&self) -> usize
        requires { (b : Contents) × (H : Context) × IsPlace b self.now H }
        ensures { (b : Contents) (H : Context) → IsPlace b self.now H → result ≤ depth_of H }
    {
        let depth = self.depth();
        if depth == 0 {
            return depth;
        }
        let middle = self.level(depth).jump.to;
        if middle == 0 {
            return depth;
        }
        let target = self.level(middle).jump.to;
        if depth - middle == middle - target {
            target
        } else {
            depth
        }
    }

    /// The jump of the next level, whose weakening past its entry is at hand.
    fn jump(&self, book: &mut Book, up: NodeId) -> Result<Weakening, AllocError>
        requires { (G H : Context) × IsPlace book.old self.now H
            × Says book.old up (Sb G (shift_by 1) H) }
        ensures extends { Extends book.old book.new }
        ensures weakens { IfOk result (λ jump. (G H : Context) → IsPlace book.old self.now H
            → Says book.old up (Sb G (shift_by 1) H) → (jump.to ≤ depth_of H)
            × Says book.new jump.sub
            (Sb G (shift_by (suc (depth_of H) - jump.to)) (at_depth jump.to H))) }
    {
        let to = self.jump_target();
        if to == self.depth() {
            return Ok(Weakening { to, sub: up });
        }
        let onward = self.weakening(book, to)?;
        let sub = composed(book, up, onward)?;
        Ok(Weakening { to, sub })
    }

    /// Goes on to a context that ends with this entry.
    fn push(
        &mut self,
        book: &mut Book,
        ctx: NodeId,
        entry: Entry,
        up: NodeId,
    ) -> Result<(), AllocError>
        requires { (G : Context) × IsNext book.old self.old ctx entry up G }
        ensures extends { Extends book.old book.new }
        ensures place { (G : Context) → IsNext book.old self.old ctx entry up G
            → OnOk result (IsPlace book.new self.new G) }
    {
        let jump = self.jump(book, up)?;
        self.levels.push(Level {
            ctx,
            entry,
            up,
            jump,
        })?;
        Ok(())
    }

    /// Goes under a variable of this type.
    pub fn enter(&mut self, book: &mut Book, ty: NodeId) -> Result<(), AllocError>
        requires { (H : Context) × (A : Tree) × IsPlace book.old self.old H
            × Says book.old ty (Ty H A) }
        ensures extends { Extends book.old book.new }
        ensures place { (H : Context) (A : Tree) → IsPlace book.old self.old H
            → Says book.old ty (Ty H A) → OnOk result (IsPlace book.new self.new (WithVar H A)) }
    {
        let here = self.here(book)?;
        let up = past_variable(book, here, ty)?;
        let ctx = with_variable(book, ty)?;
        Ok(self.push(book, ctx, Entry::Variable(ty), up)?)
    }

    /// Goes under a name of the interval.
    pub fn enter_name(&mut self, book: &mut Book) -> Result<(), AllocError>
        requires { (H : Context) × IsPlace book.old self.old H }
        ensures extends { Extends book.old book.new }
        ensures place { (H : Context) → IsPlace book.old self.old H
            → OnOk result (IsPlace book.new self.new (WithName H)) }
    {
        let here = self.here(book)?;
        let up = past_name(book, here)?;
        let ctx = with_name(book, self.ctx())?;
        Ok(self.push(book, ctx, Entry::Name, up)?)
    }

    /// Leaves the last entry. The answer is the node of its type, if it is a variable.
    pub fn leave(&mut self) -> Option<NodeId>
        ensures variable { (b : Contents) (H : Context) (A : Tree)
            → IsPlace b self.old (WithVar H A)
            → (ty : NodeId) × (result ≡ Some ty) × Says b ty (Ty H A) × IsPlace b self.new H }
        ensures name { (b : Contents) (H : Context) → IsPlace b self.old (WithName H)
            → (result ≡ None) × IsPlace b self.new H }
    {
        let left = self.levels.pop()?;
        match left.entry {
            Entry::Variable(ty) => Some(ty),
            Entry::Name => None,
        }
    }

    /// The substitution that does nothing here.
    pub fn here(&self, book: &mut Book) -> Result<NodeId, AllocError>
        requires { (H : Context) × IsPlace book.old self.now H }
        ensures extends { Extends book.old book.new }
        ensures here { IfOk result (λ sub. (H : Context) → IsPlace book.old self.now H
            → Says book.new sub (Sb H id H)) }
    {
        Ok(identity(book, self.ctx())?)
    }

    /// One step from a depth towards another: the jump, unless it goes too far.
    fn step(&self, from: usize, to: usize) -> Weakening
        requires further { to < from }
        requires place { (b : Contents) × (H : Context) × IsPlace b self.now H
            × (from ≤ depth_of H) }
        ensures within { to ≤ result.to }
        ensures further { result.to < from }
        ensures weakens { (b : Contents) (H : Context) → IsPlace b self.now H
            → Weakens b H result.sub from result.to }
    {
        let level = self.level(from);
        if to <= level.jump.to {
            level.jump
        } else {
            Weakening {
                to: from - 1,
                sub: level.up,
            }
        }
    }

    /// The weakening from one depth to another. Few steps lead there, so that this calls itself a
    /// few times. The steps near the end are put together first: what is used at a place is
    /// mostly used further in too, and all but one step are made there.
    fn weakening_from(&self, book: &mut Book, from: usize, to: usize) -> Result<NodeId, AllocError>
        requires further { to < from }
        requires place { (H : Context) × IsPlace book.old self.now H × (from ≤ depth_of H) }
        ensures extends { Extends book.old book.new }
        ensures weakens { IfOk result (λ sub. (H : Context) → IsPlace book.old self.now H
            → Weakens book.new H sub from to) }
    {
        let step = self.step(from, to);
        if step.to == to {
            return Ok(step.sub);
        }
        let rest = self.weakening_from(book, step.to, to)?;
        Ok(composed(book, step.sub, rest)?)
    }

    /// The weakening from here to the context of that depth.
    pub fn weakening(&self, book: &mut Book, to: usize) -> Result<NodeId, AllocError>
        requires { (H : Context) × IsPlace book.old self.now H × (to ≤ depth_of H) }
        ensures extends { Extends book.old book.new }
        ensures weakens { IfOk result (λ sub. (H : Context) → IsPlace book.old self.now H
            → Says book.new sub (Sb H (shift_by (depth_of H - to)) (at_depth to H))) }
    {
        let depth = self.depth();
        if to == depth {
            return Ok(self.here(book)?);
        }
        Ok(self.weakening_from(book, depth, to)?)
    }

    /// A type of the context of that depth, here.
    pub fn type_from(&self, book: &mut Book, ty: NodeId, level: usize) -> Result<NodeId, AllocError>
        requires { (H : Context) × (A : Tree) × IsPlace book.old self.now H
            × (level ≤ depth_of H) × Says book.old ty (Ty (at_depth level H) A) }
        ensures extends { Extends book.old book.new }
        ensures typed { IfOk result (λ node. (H : Context) (A : Tree) →
            IsPlace book.old self.now H → Says book.old ty (Ty (at_depth level H) A)
            → Says book.new node (Ty H (apply A (shift_by (depth_of H - level))))) }
    {
        if level == self.depth() {
            return Ok(ty);
        }
        let sub = self.weakening(book, level)?;
        Ok(type_instance(book, sub, ty)?)
    }

    /// A term of the context of that depth, here.
    pub fn term_from(
        &self,
        book: &mut Book,
        term: NodeId,
        level: usize,
    ) -> Result<NodeId, AllocError>
        requires { (H : Context) × (a A : Tree) × IsPlace book.old self.now H
            × (level ≤ depth_of H) × Says book.old term (Tm (at_depth level H) a A) }
        ensures extends { Extends book.old book.new }
        ensures typed { IfOk result (λ node. (H : Context) (a A : Tree) →
            IsPlace book.old self.now H → Says book.old term (Tm (at_depth level H) a A)
            → let passed = shift_by (depth_of H - level) in
            Says book.new node (Tm H (apply a passed) (apply A passed))) }
    {
        if level == self.depth() {
            return Ok(term);
        }
        let sub = self.weakening(book, level)?;
        Ok(term_instance(book, sub, term)?)
    }

    /// Whether the index is that of a name of the interval.
    pub fn is_name(&self, index: u32) -> bool
        ensures { (b : Contents) (H : Context) → IsPlace b self.now H
            → result ≡ is_name_of H index }
    {
        let depth = self.depth();
        let index = index as usize;
        if depth <= index {
            return false;
        }
        match self.level(depth - index).entry {
            Entry::Variable(_) => false,
            Entry::Name => true,
        }
    }

    /// The variable of this index, with its type. None for a name, and where there is none.
    pub fn variable(&self, book: &mut Book, index: u32) -> Result<Option<Typed>, AllocError>
        requires { (H : Context) × IsPlace book.old self.now H }
        ensures extends { Extends book.old book.new }
        ensures typed { IfOk result (λ found. (H : Context) → IsPlace book.old self.now H
            → MatchOption found (type_in H index ≡ None) (λ typed.
            (A : Tree) × (type_in H index ≡ Some A)
            × IsTyped book.new typed H (Var index) A)) }
    {
        let depth = self.depth();
        let index = index as usize;
        if depth <= index {
            return Ok(None);
        }
        let level = self.level(depth - index);
        let Entry::Variable(ty) = level.entry else {
            return Ok(None);
        };
        let sub = self.weakening(book, depth - index)?;
        let term = variable(book, sub, ty)?;
        let before = composed(book, sub, level.up)?;
        Ok(Some(Typed {
            term,
            ty: TypeAt { ty, sub: before },
        }))
    }
}
