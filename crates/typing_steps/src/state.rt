//! What a checker knows at a place, and what it found.

ghost use Rattle.std.specs.Prelude.{◌≡◌, List, ◌∷◌, IfOk, OnOk, Some};
ghost use Rattle.trees.specs.Trees.{Tree};
ghost use Rattle.trees.specs.Judgements.{Judgement, trees};
ghost use Rattle.trees.specs.Language.{Ctx, Sb, Tm, Ty};
ghost use Rattle.translation.specs.Terms.{nat, universe};
ghost use Rattle.rules.specs.Table.{id};
ghost use Rattle.book.specs.Contents.{Contents};
ghost use Rattle.book.specs.Shown.{Extends};
ghost use Rattle.direct.specs.Known.{Interval, Known, Variable};
ghost use Rattle.typed_nodes.specs.Typed.{IsTypeAt, IsTyped, Says};
ghost use Rattle.typing_tasks.specs.States.{Inferred, State, finding, forgetting, inferring};
ghost use Rattle.typing_tasks.specs.States.{nothing};
ghost use Rattle.typing_tasks.specs.States.{place, stating, under, with_found, with_inferred};
ghost use Rattle.typing_tasks.specs.States.{with_known};
ghost use Rattle.typing_tasks.specs.Tasks.{before_last};
ghost use Rattle.typing_steps.specs.Steps.{IsInferred, IsState};

use book::{Book, NodeId};
use numbered_scope::{ByNumber, Numbered};
use std::alloc::{AllocError, Global};
use typed_contexts::Places;
use typed_nodes::{TypeAt, Typed, numbers_type, universe_type};

/// The nodes of a definition: its type, and its body.
#[derive(Clone, Copy, Debug)]
pub struct Root {
    pub ty: NodeId,
    pub body: NodeId,
}

/// A definition in scope, and the depth of the place where it stands.
#[derive(Clone, Copy, Debug)]
pub(crate) struct InScope {
    pub(crate) root: Root,
    pub(crate) depth: usize,
}

/// What a checker knows at a place, and what it found.
#[derive(Drop)]
pub struct CheckState {
    /// Where its stacks grow.
    pub alloc: Global,
    pub(crate) places: Places,
    pub(crate) scope: ByNumber<InScope>,
    /// Typings that were found.
    pub(crate) nodes: Vec<NodeId>,
    /// Terms that were inferred.
    pub(crate) heads: Vec<Typed>,
    /// The definitions that were stated, in order.
    pub roots: Vec<Root>,
}

impl CheckState {
    /// At the empty context, where nothing was found.
    pub fn new(alloc: Global, book: &mut Book) -> Result<CheckState, AllocError>
        ensures extends { Extends book.old book.new }
        ensures state { IfOk result (λ state. IsState book.new state nothing) }
    {
        Ok(CheckState {
            alloc,
            places: Places::new(alloc, book)?,
            scope: ByNumber::new(alloc),
            nodes: Vec::new(alloc),
            heads: Vec::new(alloc),
            roots: Vec::new(alloc),
        })
    }

    // what was found

    /// The typing that was found last, which stays.
    pub(crate) fn last_node(&self) -> NodeId
        requires { (b : Contents) × (S : State) × (J : Judgement) × (js : List Judgement)
            × IsState b self.now S × (S.found ≡ J ∷ js) }
        ensures { (b : Contents) (S : State) (J : Judgement) (js : List Judgement) →
            IsState b self.now S → S.found ≡ J ∷ js → Says b result J }
    {
        match self.nodes.as_slice().last() {
            Some(last) => *last,
            None => unreachable!(),
        }
    }

    /// The typing that was found last.
    pub(crate) fn take_node(&mut self) -> NodeId
        requires { (b : Contents) × (S : State) × (J : Judgement) × (js : List Judgement)
            × IsState b self.old S × (S.found ≡ J ∷ js) }
        ensures { (b : Contents) (S : State) (J : Judgement) (js : List Judgement) →
            IsState b self.old S → S.found ≡ J ∷ js
            → Says b result J × IsState b self.new (with_found js S) }
    {
        match self.nodes.pop() {
            Some(node) => node,
            None => unreachable!(),
        }
    }

    /// The term that was inferred last, which stays.
    pub(crate) fn last_head(&self) -> Typed
        requires { (b : Contents) × (S : State) × (r : Inferred) × (rs : List Inferred)
            × IsState b self.now S × (S.inferred ≡ r ∷ rs) }
        ensures { (b : Contents) (S : State) (r : Inferred) (rs : List Inferred) →
            IsState b self.now S → S.inferred ≡ r ∷ rs → IsInferred b result r }
    {
        match self.heads.as_slice().last() {
            Some(last) => *last,
            None => unreachable!(),
        }
    }

    /// The term that was inferred last.
    pub(crate) fn take_head(&mut self) -> Typed
        requires { (b : Contents) × (S : State) × (r : Inferred) × (rs : List Inferred)
            × IsState b self.old S × (S.inferred ≡ r ∷ rs) }
        ensures { (b : Contents) (S : State) (r : Inferred) (rs : List Inferred) →
            IsState b self.old S → S.inferred ≡ r ∷ rs
            → IsInferred b result r × IsState b self.new (with_inferred rs S) }
    {
        match self.heads.pop() {
            Some(head) => head,
            None => unreachable!(),
        }
    }

    /// A typing was found.
    pub fn found(&mut self, node: NodeId) -> Result<(), AllocError>
        ensures { OnOk result ((b : Contents) (S : State) (J : Judgement) →
            IsState b self.old S → Says b node J → IsState b self.new (finding J S)) }
    {
        self.nodes.push(node)?;
        Ok(())
    }

    /// A term was inferred.
    pub(crate) fn inferred(&mut self, head: Typed) -> Result<(), AllocError>
        ensures { OnOk result ((b : Contents) (S : State) (a A : Tree) → IsState b self.old S →
            IsTyped b head (place S) a A → IsState b self.new (inferring a A S)) }
    {
        self.heads.push(head)?;
        Ok(())
    }

    // definitions

    /// States a definition, which is known from then on.
    pub(crate) fn define(&mut self, number: u32, root: Root) -> Result<(), AllocError>
        ensures { OnOk result ((b : Contents) (S : State) (A t : Tree) → IsState b self.old S →
            Says b root.ty (Ty (place S) A) → Says b root.body (Tm (place S) t A)
            → IsState b self.new (stating number A t S)) }
    {
        let depth = self.places.depth();
        self.scope.push(Numbered {
            number,
            value: InScope { root, depth },
        })?;
        self.roots.push(root)?;
        Ok(())
    }

    /// Forgets so many definitions.
    pub(crate) fn forget(&mut self, count: usize)
        ensures { (b : Contents) (S : State) (G : Known) → IsState b self.old S →
            forgetting count S.known ≡ Some G → IsState b self.new (with_known G S) }
    {
        let mark = self.scope.mark();
        self.scope.cut(mark.saturating_sub(count));
    }

    // the place

    /// The node of its context.
    pub fn ctx(&self) -> NodeId
        ensures { (b : Contents) (S : State) → IsState b self.now S →
            Says b result (Ctx (place S)) }
    {
        self.places.ctx()
    }

    /// The substitution that does nothing there.
    pub(crate) fn here(&self, book: &mut Book) -> Result<NodeId, AllocError>
        requires { (S : State) × IsState book.old self.now S }
        ensures extends { Extends book.old book.new }
        ensures here { IfOk result (λ sub. (S : State) → IsState book.old self.now S →
            Says book.new sub (Sb (place S) (id trees) (place S))) }
    {
        Ok(self.places.here(book)?)
    }

    /// Goes under a variable of this type.
    pub(crate) fn enter(&mut self, book: &mut Book, ty: NodeId) -> Result<(), AllocError>
        requires { (S : State) × (A : Tree) × IsState book.old self.old S
            × Says book.old ty (Ty (place S) A) }
        ensures extends { Extends book.old book.new }
        ensures under { OnOk result ((S : State) (A : Tree) → IsState book.old self.old S →
            Says book.old ty (Ty (place S) A) → IsState book.new self.new (under (Variable A) S)) }
    {
        self.places.enter(book, ty)?;
        Ok(())
    }

    /// Goes under a name of the interval.
    pub(crate) fn enter_name(&mut self, book: &mut Book) -> Result<(), AllocError>
        requires { (S : State) × IsState book.old self.old S }
        ensures extends { Extends book.old book.new }
        ensures under { OnOk result ((S : State) → IsState book.old self.old S →
            IsState book.new self.new (under Interval S)) }
    {
        self.places.enter_name(book)?;
        Ok(())
    }

    /// Leaves the last variable or name.
    pub(crate) fn leave(&mut self)
        ensures { (b : Contents) (S : State) (G : Known) → IsState b self.old S →
            before_last S.known ≡ Some G → IsState b self.new (with_known G S) }
    {
        let _last = self.places.leave();
    }

    // types there

    /// A type of the place by its node.
    pub(crate) fn type_here(&self, book: &mut Book, ty: NodeId) -> Result<TypeAt, AllocError>
        requires { (S : State) × (A : Tree) × IsState book.old self.now S
            × Says book.old ty (Ty (place S) A) }
        ensures extends { Extends book.old book.new }
        ensures here { IfOk result (λ at. (S : State) (A : Tree) → IsState book.old self.now S →
            Says book.old ty (Ty (place S) A) → IsTypeAt book.new at (place S) A) }
    {
        let sub = self.here(book)?;
        Ok(TypeAt { ty, sub })
    }

    /// The type of numbers.
    pub(crate) fn numbers(&self, book: &mut Book) -> Result<TypeAt, AllocError>
        requires { (S : State) × IsState book.old self.now S }
        ensures extends { Extends book.old book.new }
        ensures here { IfOk result (λ at. (S : State) → IsState book.old self.now S →
            IsTypeAt book.new at (place S) nat) }
    {
        let (_, ty) = numbers_type(book, self.ctx())?;
        Ok(self.type_here(book, ty)?)
    }

    /// The universe.
    pub fn universe(&self, book: &mut Book) -> Result<TypeAt, AllocError>
        requires { (S : State) × IsState book.old self.now S }
        ensures extends { Extends book.old book.new }
        ensures here { IfOk result (λ at. (S : State) → IsState book.old self.now S →
            IsTypeAt book.new at (place S) universe) }
    {
        let ty = universe_type(book, self.ctx())?;
        Ok(self.type_here(book, ty)?)
    }
}
