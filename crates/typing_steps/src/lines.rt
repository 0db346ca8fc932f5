//! Lines, types of paths, and transports.

ghost use Rattle.std.specs.Prelude.{IfOk};
ghost use Rattle.trees.specs.Trees.{Tree};
ghost use Rattle.trees.specs.Judgements.{Context, WithName};
ghost use Rattle.trees.specs.Language.{Tm};
ghost use Rattle.translation.specs.Terms.{i0, i1, pathp};
ghost use Rattle.direct.specs.Literal.{at};
ghost use Rattle.typed_nodes.specs.Typed.{Says};
ghost use Rattle.typing_tasks.specs.Outcomes.{formed};
ghost use Rattle.book.specs.Contents.{Contents};
ghost use Rattle.book.specs.Shown.{Extends};
ghost use Rattle.typing_steps.specs.Steps.{Finishes, MayStep, Plans, Steps};
ghost use Rattle.typing_tasks.specs.declared.tasks.Task.TheVariants.{Lining as LiningOf};
ghost use Rattle.typing_tasks.specs.declared.tasks.Lining.TheVariants.{ClosePath, EnterName, Leave};
ghost use Rattle.typing_tasks.specs.declared.tasks.Lining.TheVariants.{Left, Line, PathInUniverse};
ghost use Rattle.typing_tasks.specs.declared.tasks.Lining.TheVariants.{Right, Transport};

use crate::state::CheckState;
use book::{Book, NodeId};
use codes::{Code, Opened};
use literal_types::{Literal, literal};
use rows::Maker;
use std::alloc::AllocError;
use trees::Op;
use typed_nodes::{
    TypeAt, line_ends, path_in_universe, path_small, path_type, transported, under_name,
};
use typing_tasks::{Lining, Next, Sort, Task, Tasks, as_type, end_rows, of_sort};

/// A line, as a type over a name, or as a term of the universe there.
pub fn line<'a>(tasks: &mut Tasks<'a>, line: &'a Opened, sort: Sort) -> Result<Next, AllocError>
    ensures { IfOk result (Plans tasks.old tasks.new (LiningOf (Line line.entry sort))) }
{
    match line {
        Opened::Under(_, code) => Ok(tasks.plan(&[
            Task::Lining(Lining::EnterName),
            Task::Form(code, sort),
            Task::Lining(Lining::Leave),
        ])?),
        Opened::Applied(_, code) => {
            Ok(tasks.plan(&[
                Task::Infer(code),
                Task::Lining(Lining::PathInUniverse(sort)),
            ])?)
        }
    }
}

/// A type of paths, of either sort.
fn path_of(
    book: &mut Book,
    sort: Sort,
    line: NodeId,
    left: NodeId,
    right: NodeId,
) -> Result<NodeId, AllocError>
    requires { (H : Context) × (A u v : Tree) × Says book.old line (formed sort (WithName H) A)
        × Says book.old left (Tm H u (at A i0)) × Says book.old right (Tm H v (at A i1)) }
    ensures extends { Extends book.old book.new }
    ensures typed { IfOk result (λ node. (H : Context) (A u v : Tree) →
        Says book.old «line» (formed sort (WithName H) A) → Says book.old left (Tm H u (at A i0))
        → Says book.old right (Tm H v (at A i1))
        → Says book.new node (formed sort H (pathp A u v))) }
{
    match sort {
        Sort::Large => Ok(path_type(book, line, left, right)?),
        Sort::Small => Ok(path_small(book, line, left, right)?),
    }
}

impl CheckState {
    /// Goes under a name.
    pub fn under_a_name(&mut self, book: &mut Book) -> Result<Next, AllocError>
        requires { MayStep book.old self.old (LiningOf EnterName) }
        ensures extends { Extends book.old book.new }
        ensures done { IfOk result (Finishes book.old book.new self.old self.new
            (LiningOf EnterName)) }
    {
        self.enter_name(book)?;
        Ok(Next::Moved)
    }

    /// Leaves the last variable or name.
    pub fn leave_entry(&mut self) -> Result<Next, AllocError>
        requires { (b : Contents) × MayStep b self.old (LiningOf Leave) }
        ensures { IfOk result (λ next. (b : Contents) →
            Finishes b b self.old self.new (LiningOf Leave) next) }
    {
        self.leave();
        Ok(Next::Moved)
    }

    /// A path of types, which was inferred last, at a new name.
    pub fn path_at_name(&mut self, book: &mut Book, sort: Sort) -> Result<Next, AllocError>
        requires { MayStep book.old self.old (LiningOf (PathInUniverse sort)) }
        ensures extends { Extends book.old book.new }
        ensures done { IfOk result (Finishes book.old book.new self.old self.new
            (LiningOf (PathInUniverse sort))) }
    {
        let head = self.take_head();
        let Literal::Path(line) = literal(self.alloc, book, head.ty)? else {
            return Ok(Next::NotDirect);
        };
        let universe = book.make(Op::U, &[])?;
        let over_name = under_name(book, line.sub)?;
        let types = TypeAt {
            ty: line.ty,
            sub: over_name,
        };
        if !types.is_row(book, universe)? {
            return Ok(Next::NotDirect);
        }
        let ends = end_rows(book, line)?;
        let small = path_in_universe(book, ends, self.ctx(), head.term)?;
        let node = of_sort(book, small, sort)?;
        self.found(node)?;
        Ok(Next::Moved)
    }

    /// To check a code at the start of the line that was found last.
    pub fn left_end<'a>(
        &mut self,
        book: &mut Book,
        tasks: &mut Tasks<'a>,
        code: &'a Code,
        sort: Sort,
    ) -> Result<Next, AllocError>
        requires { MayStep book.old self.old (LiningOf (Left code sort)) }
        ensures extends { Extends book.old book.new }
        ensures steps { IfOk result (Steps book.old book.new self.old self.new
            tasks.old tasks.new (LiningOf (Left code.entry sort))) }
    {
        let ty = as_type(book, self.last_node(), sort)?;
        let (sub, _) = line_ends(book, self.ctx())?;
        Ok(tasks.plan(&[Task::Check(code, TypeAt { ty, sub })])?)
    }

    /// To check a code at the end of the line that was found before the left end.
    pub fn right_end<'a>(
        &mut self,
        book: &mut Book,
        tasks: &mut Tasks<'a>,
        code: &'a Code,
        sort: Sort,
    ) -> Result<Next, AllocError>
        requires { MayStep book.old self.old (LiningOf (Right code sort)) }
        ensures extends { Extends book.old book.new }
        ensures steps { IfOk result (Steps book.old book.new self.old self.new
            tasks.old tasks.new (LiningOf (Right code.entry sort))) }
    {
        let left = self.take_node();
        let ty = as_type(book, self.last_node(), sort)?;
        self.found(left)?;
        let (_, sub) = line_ends(book, self.ctx())?;
        Ok(tasks.plan(&[Task::Check(code, TypeAt { ty, sub })])?)
    }

    /// A type of paths, whose parts were found last.
    pub fn close_path(&mut self, book: &mut Book, sort: Sort) -> Result<Next, AllocError>
        requires { MayStep book.old self.old (LiningOf (ClosePath sort)) }
        ensures extends { Extends book.old book.new }
        ensures done { IfOk result (Finishes book.old book.new self.old self.new
            (LiningOf (ClosePath sort))) }
    {
        let right = self.take_node();
        let left = self.take_node();
        let line = self.take_node();
        let node = path_of(book, sort, line, left, right)?;
        self.found(node)?;
        Ok(Next::Moved)
    }

    /// A composition without sides, of the base that was found last.
    pub fn transport(&mut self, book: &mut Book) -> Result<Next, AllocError>
        requires { MayStep book.old self.old (LiningOf Transport) }
        ensures extends { Extends book.old book.new }
        ensures done { IfOk result (Finishes book.old book.new self.old self.new
            (LiningOf Transport)) }
    {
        let base = self.take_node();
        let line = self.take_node();
        let head = transported(book, self.ctx(), line, base)?;
        self.inferred(head)?;
        Ok(Next::Moved)
    }
}
