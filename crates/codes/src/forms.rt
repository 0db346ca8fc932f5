//! Codes by their forms.

ghost use Rattle.std.specs.Prelude.{◌≡◌, [], ◌∷◌, IfOk, map, replicate};
ghost use Rattle.translation.specs.Forms.{
  after,
  application,
  composition,
  define,
  defined,
  fill as filling,
  glue_of_terms,
  glue_of_types,
  one,
  path_type,
  project,
  transport as transported,
  tuple as tupled,
  under,
  under_names,
  unglued,
};
ghost use Rattle.translation.specs.Terms.{innermost, lam, nat, pi, sig, suc};
ghost use Rattle.translation.specs.Translated.{done};
ghost use Rattle.codes.specs.declared.code.CodeDef.{out-CodeDef};
ghost use Rattle.codes.specs.Codes.{
  at_name,
  at_variable,
  binder,
  binder_of,
  definition,
  definitions,
  element,
  line_side,
  meaning,
  pair_side,
  recursion,
  term_side,
};
ghost use Rattle.codes.specs.Shapes.{
  apply as an_application,
  def_shape,
  element_shape,
  lambda as a_lambda,
  listed,
  of_binder,
  of_line_side,
  of_pair_side,
  of_side,
  opened_shape,
  path_lambda as a_path_lambda,
  shape,
  successor as a_successor,
  Comp as a_comp,
  Def as a_def,
  Fill as a_fill,
  GlueTerm as a_glue_term,
  GlueType as a_glue_type,
  Let as a_let,
  NatRec as a_natrec,
  PathP as a_path_type,
  Pi as a_pi,
  Project as a_projection,
  Sigma as a_sigma,
  Suc as a_suc,
  Transport as a_transport,
  Tuple as a_tuple,
  Unglue as an_unglue,
};

use crate::code::{Binder, Code, CodeDef, Element, LineSide, Opened, PairSide, Side};
use layout_lexer::Span;
use std::alloc::{AllocError, Global};
use syntax::Projections;

impl Code {
    /// `let locals in body`
    pub fn let_in(
        alloc: Global,
        span: Span,
        locals: Vec<CodeDef>,
        body: Code,
    ) -> Result<Code, AllocError>
        ensures means { IfOk result (λ c.
            meaning c ≡ after (definitions locals.items) (meaning body)) }
        ensures shaped { IfOk result (λ c.
            shape c ≡ a_let span (listed def_shape locals.items) (shape body)) }
    {
        let body = Box::new(alloc, body)?;
        Ok(Code::Let { span, locals, body })
    }

    /// `suc argument`
    pub fn suc(alloc: Global, span: Span, argument: Code) -> Result<Code, AllocError>
        ensures means { IfOk result (λ c. meaning c ≡ one suc (meaning argument)) }
        ensures shaped { IfOk result (λ c. shape c ≡ a_suc span (shape argument)) }
    {
        let argument = Box::new(alloc, argument)?;
        Ok(Code::Suc { span, argument })
    }

    /// `natrec motive base step argument`
    pub fn natrec(
        alloc: Global,
        span: Span,
        motive: Opened,
        base: Code,
        step: Code,
        argument: Code,
    ) -> Result<Code, AllocError>
        ensures means { IfOk result (λ c.
            meaning c ≡ recursion (at_variable motive) (meaning base) (meaning step)
            (meaning argument)) }
        ensures shaped { IfOk result (λ c.
            shape c ≡ a_natrec span (opened_shape motive) (shape base) (shape step)
            (shape argument)) }
    {
        let motive = Box::new(alloc, motive)?;
        let base = Box::new(alloc, base)?;
        let step = Box::new(alloc, step)?;
        let argument = Box::new(alloc, argument)?;
        Ok(Code::NatRec {
            span,
            motive,
            base,
            step,
            argument,
        })
    }

    /// `binders -> body`
    pub fn pi(
        alloc: Global,
        span: Span,
        binders: Vec<Binder>,
        body: Code,
    ) -> Result<Code, AllocError>
        ensures means { IfOk result (λ c.
            meaning c ≡ under pi (map binder binders.items) (meaning body)) }
        ensures shaped { IfOk result (λ c.
            shape c ≡ a_pi span (listed of_binder binders.items) (shape body)) }
    {
        let body = Box::new(alloc, body)?;
        Ok(Code::Pi {
            span,
            binders,
            body,
        })
    }

    /// `binders * body`
    pub fn sigma(
        alloc: Global,
        span: Span,
        binders: Vec<Binder>,
        body: Code,
    ) -> Result<Code, AllocError>
        ensures means { IfOk result (λ c.
            meaning c ≡ under sig (map binder binders.items) (meaning body)) }
        ensures shaped { IfOk result (λ c.
            shape c ≡ a_sigma span (listed of_binder binders.items) (shape body)) }
    {
        let body = Box::new(alloc, body)?;
        Ok(Code::Sigma {
            span,
            binders,
            body,
        })
    }

    /// `\ binders -> body`; over no binders, the body
    pub fn lambda(
        alloc: Global,
        span: Span,
        binders: Vec<Binder>,
        body: Code,
    ) -> Result<Code, AllocError>
        ensures means { IfOk result (λ c.
            meaning c ≡ under lam (map binder binders.items) (meaning body)) }
        ensures shaped { IfOk result (λ c.
            shape c ≡ a_lambda span (listed of_binder binders.items) (shape body)) }
    {
        if binders.is_empty() {
            return Ok(body);
        }
        let body = Box::new(alloc, body)?;
        Ok(Code::Lambda {
            span,
            binders,
            body,
        })
    }

    /// `body` under so many names of the interval; under none, the body
    pub fn path_lambda(
        alloc: Global,
        span: Span,
        names: usize,
        body: Code,
    ) -> Result<Code, AllocError>
        ensures means { IfOk result (λ c.
            meaning c ≡ under_names (replicate names 0) (meaning body)) }
        ensures shaped { IfOk result (λ c. shape c ≡ a_path_lambda span names (shape body)) }
    {
        if names == 0 {
            return Ok(body);
        }
        let body = Box::new(alloc, body)?;
        Ok(Code::PathLambda { span, names, body })
    }

    /// `head elements`; of no elements, the head
    pub fn apply(
        alloc: Global,
        span: Span,
        head: Code,
        elements: Vec<Element>,
    ) -> Result<Code, AllocError>
        ensures means { IfOk result (λ c.
            meaning c ≡ application (meaning head) (map element elements.items)) }
        ensures shaped { IfOk result (λ c.
            shape c ≡ an_application span (shape head) (listed element_shape elements.items)) }
    {
        if elements.is_empty() {
            return Ok(head);
        }
        let head = Box::new(alloc, head)?;
        Ok(Code::Apply {
            span,
            head,
            elements,
        })
    }

    /// `pair projections`
    pub fn project(
        alloc: Global,
        span: Span,
        pair: Code,
        projections: Projections,
    ) -> Result<Code, AllocError>
        ensures means { IfOk result (λ c.
            meaning c ≡ one (λ t. project t projections) (meaning pair)) }
        ensures shaped { IfOk result (λ c. shape c ≡ a_projection span (shape pair) projections) }
    {
        let pair = Box::new(alloc, pair)?;
        Ok(Code::Project {
            span,
            pair,
            projections,
        })
    }

    /// `( components )`, which nest to the right
    pub fn tuple(span: Span, components: Vec<Code>) -> Code
        ensures means { meaning result ≡ tupled (map meaning components.items) }
        ensures shaped { shape result ≡ a_tuple span (listed shape components.items) }
    {
        Code::Tuple { span, components }
    }

    /// `PathP line left right`
    pub fn path_type(
        alloc: Global,
        span: Span,
        line: Opened,
        left: Code,
        right: Code,
    ) -> Result<Code, AllocError>
        ensures means { IfOk result (λ c.
            meaning c ≡ path_type (at_name line) (meaning left) (meaning right)) }
        ensures shaped { IfOk result (λ c.
            shape c ≡ a_path_type span (opened_shape line) (shape left) (shape right)) }
    {
        let line = Box::new(alloc, line)?;
        let left = Box::new(alloc, left)?;
        let right = Box::new(alloc, right)?;
        Ok(Code::PathP {
            span,
            line,
            left,
            right,
        })
    }

    /// `comp line base sides`
    pub fn comp(
        alloc: Global,
        span: Span,
        line: Opened,
        base: Code,
        sides: Vec<LineSide>,
    ) -> Result<Code, AllocError>
        ensures means { IfOk result (λ c.
            meaning c ≡ composition (at_name line) (meaning base) (map line_side sides.items)) }
        ensures shaped { IfOk result (λ c.
            shape c ≡ a_comp span (opened_shape line) (shape base)
            (listed of_line_side sides.items)) }
    {
        let line = Box::new(alloc, line)?;
        let base = Box::new(alloc, base)?;
        Ok(Code::Comp {
            span,
            line,
            base,
            sides,
        })
    }

    /// `fill line base sides`
    pub fn fill(
        alloc: Global,
        span: Span,
        line: Opened,
        base: Code,
        sides: Vec<LineSide>,
    ) -> Result<Code, AllocError>
        ensures means { IfOk result (λ c.
            meaning c ≡ filling (at_name line) (meaning base) (map line_side sides.items)) }
        ensures shaped { IfOk result (λ c.
            shape c ≡ a_fill span (opened_shape line) (shape base)
            (listed of_line_side sides.items)) }
    {
        let line = Box::new(alloc, line)?;
        let base = Box::new(alloc, base)?;
        Ok(Code::Fill {
            span,
            line,
            base,
            sides,
        })
    }

    /// `transport line base`
    pub fn transport(
        alloc: Global,
        span: Span,
        line: Opened,
        base: Code,
    ) -> Result<Code, AllocError>
        ensures means { IfOk result (λ c. meaning c ≡ transported (at_name line) (meaning base)) }
        ensures shaped { IfOk result (λ c.
            shape c ≡ a_transport span (opened_shape line) (shape base)) }
    {
        let line = Box::new(alloc, line)?;
        let base = Box::new(alloc, base)?;
        Ok(Code::Transport { span, line, base })
    }

    /// `Glue base sides`
    pub fn glue_type(
        alloc: Global,
        span: Span,
        base: Code,
        sides: Vec<PairSide>,
    ) -> Result<Code, AllocError>
        ensures means { IfOk result (λ c.
            meaning c ≡ glue_of_types (meaning base) (map pair_side sides.items)) }
        ensures shaped { IfOk result (λ c.
            shape c ≡ a_glue_type span (shape base) (listed of_pair_side sides.items)) }
    {
        let base = Box::new(alloc, base)?;
        Ok(Code::GlueType { span, base, sides })
    }

    /// `glue base sides`
    pub fn glue_term(
        alloc: Global,
        span: Span,
        base: Code,
        sides: Vec<Side>,
    ) -> Result<Code, AllocError>
        ensures means { IfOk result (λ c.
            meaning c ≡ glue_of_terms (meaning base) (map term_side sides.items)) }
        ensures shaped { IfOk result (λ c.
            shape c ≡ a_glue_term span (shape base) (listed of_side sides.items)) }
    {
        let base = Box::new(alloc, base)?;
        Ok(Code::GlueTerm { span, base, sides })
    }

    /// `unglue base sides`
    pub fn unglue(
        alloc: Global,
        span: Span,
        base: Code,
        sides: Vec<PairSide>,
    ) -> Result<Code, AllocError>
        ensures means { IfOk result (λ c.
            meaning c ≡ unglued (meaning base) (map pair_side sides.items)) }
        ensures shaped { IfOk result (λ c.
            shape c ≡ an_unglue span (shape base) (listed of_pair_side sides.items)) }
    {
        let base = Box::new(alloc, base)?;
        Ok(Code::Unglue { span, base, sides })
    }

    /// `suc` without an argument: `\(x : nat) -> suc x`
    pub fn successor(alloc: Global, span: Span) -> Result<Code, AllocError>
        ensures means { IfOk result (λ c. meaning c ≡ under lam
            (binder_of 1 (λ G. done nat) ∷ []) (one suc (λ G. done innermost))) }
        ensures shaped { IfOk result (λ c. shape c ≡ a_successor span) }
    {
        let mut binders = Vec::new(alloc);
        binders.push(Binder {
            names: 1,
            ty: Code::Nat { span },
        })?;
        let argument = Code::Bound { span, index: 0 };
        Code::lambda(alloc, span, binders, Code::suc(alloc, span, argument)?)
    }
}

impl CodeDef {
    /// The definition of this number.
    pub fn new(name: Span, number: u32, binders: Vec<Binder>, ty: Code, body: Code) -> CodeDef
        ensures means { definition result ≡ define number
            (defined (map binder binders.items) (meaning ty) (λ G. done G) (meaning body)) }
        ensures shaped { def_shape result
            ≡ a_def name number (listed of_binder binders.items) (shape ty) (shape body) }
        ensures named { (out-CodeDef result).name ≡ name }
        ensures numbered { (out-CodeDef result).number ≡ number }
    {
        CodeDef {
            name,
            number,
            binders,
            ty,
            body,
        }
    }
}
