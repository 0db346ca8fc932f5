//! The trees of codes.

ghost use Rattle.std.specs.Prelude.{IfOk};
ghost use Rattle.trees.specs.Things.{Kept};
ghost use Rattle.judgement_rows.specs.Forms.{IsTuple};
ghost use Rattle.judgement_rows.specs.Steps.{FitsSome, Row, Spells, state};
ghost use Rattle.judgement_rows.specs.Words.{Rows, code_tree, code_trees};

use crate::bodies::Bodies;
use crate::places::Place;
use codes::Code;
use form_rows::tupled;
use rows::Maker;
use std::alloc::{AllocError, Global};
use trees::{Claim, Op};

/// What is known of the definitions before a place: the bodies of those in scope, and the claims of
/// all.
#[derive(Drop)]
pub(crate) struct Spelling {
    pub(crate) alloc: Global,
    pub(crate) bodies: Bodies,
    pub(crate) claims: Vec<Claim>,
}

impl Spelling {
    /// The row of the tree of a code, by its form. Each form of several parts has a function of its
    /// own, so that deep codes take little stack.
    #[cycle(spell)]
    pub(crate) fn code<M: Maker>(
        &mut self,
        maker: &mut M,
        place: Place,
        code: &Code,
    ) -> Result<u64, AllocError>
        requires { FitsSome (state (M.means maker.old) self.old) place }
        ensures kept { Kept (M.means maker.old) (M.means maker.new) }
        ensures spells { IfOk result (λ r. Spells (state (M.means maker.old) self.old)
            (state (M.means maker.new) self.new) place (Row r) (code_tree code.now)) }
    {
        match code {
            Code::Bound { index, .. } => maker.var(*index),
            Code::Defined { number, .. } => self.defined(maker, place, *number),
            Code::Universe { .. } => maker.make(Op::U, &[]),
            Code::Nat { .. } => maker.make(Op::Nat, &[]),
            Code::Zero { .. } => maker.make(Op::Zero, &[]),
            Code::Let { .. } => self.let_in(maker, place, code),
            Code::Suc { .. } => self.suc(maker, place, code),
            Code::NatRec { .. } => self.natrec(maker, place, code),
            Code::Pi { .. } => self.pi(maker, place, code),
            Code::Sigma { .. } => self.sigma(maker, place, code),
            Code::Lambda { .. } => self.lambda(maker, place, code),
            Code::PathLambda { .. } => self.path_lambda(maker, place, code),
            Code::Apply { .. } => self.application(maker, place, code),
            Code::Project { .. } => self.projection(maker, place, code),
            Code::Tuple { .. } => self.tuple(maker, place, code),
            Code::PathP { .. } => self.path_type(maker, place, code),
            Code::Comp { .. } => self.comp(maker, place, code),
            Code::Fill { .. } => self.fill(maker, place, code),
            Code::Transport { .. } => self.transport(maker, place, code),
            Code::GlueType { .. } => self.glue_type(maker, place, code),
            Code::GlueTerm { .. } => self.glue_term(maker, place, code),
            Code::Unglue { .. } => self.unglue(maker, place, code),
        }
    }

    /// `( components )`
    #[cycle(spell)]
    pub(crate) fn tuple<M: Maker>(
        &mut self,
        maker: &mut M,
        place: Place,
        code: &Code,
    ) -> Result<u64, AllocError>
        requires form { IsTuple code.now }
        requires fits { FitsSome (state (M.means maker.old) self.old) place }
        ensures kept { Kept (M.means maker.old) (M.means maker.new) }
        ensures spells { IfOk result (λ r. Spells (state (M.means maker.old) self.old)
            (state (M.means maker.new) self.new) place (Row r) (code_tree code.now)) }
    {
        let Code::Tuple { components, .. } = code else {
            unreachable!();
        };
        let components = self.codes(maker, place, components)?;
        Ok(tupled(maker, Op::Pair, Op::U, &components)?)
    }

    /// Codes, in order.
    #[cycle(spell)]
    pub(crate) fn codes<M: Maker>(
        &mut self,
        maker: &mut M,
        place: Place,
        codes: &[Code],
    ) -> Result<Vec<u64>, AllocError>
        requires { FitsSome (state (M.means maker.old) self.old) place }
        ensures kept { Kept (M.means maker.old) (M.means maker.new) }
        ensures spells { IfOk result (λ r. Spells (state (M.means maker.old) self.old)
            (state (M.means maker.new) self.new) place (Rows r.items) (code_trees codes.now)) }
    {
        let mut rows = Vec::new(self.alloc);
        for code in codes {
            rows.push(self.code(maker, place, code)?)?;
        }
        Ok(rows)
    }
}
