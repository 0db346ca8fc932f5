//! Definitions, in blocks and at the top level, and the binders of teles.

ghost use Rattle.std.specs.Prelude.{◌≡◌, IfOk};
ghost use Rattle.syntax.specs.declared.exp.Def.{out-Def};
ghost use Rattle.codes.specs.declared.code.CodeDef.{out-CodeDef};
ghost use Rattle.scopes.specs.Steps.{Binds, Defines, Opens};
ghost use Rattle.resolved_forms.specs.Shaped.{AreBinders, AreDefs, IsDef};
ghost use Rattle.resolved_forms.specs.Spelt.{
  binders_of,
  block_of,
  code_binders,
  code_block,
  code_def,
  code_names,
  def_names,
  means_of,
  number_of,
};

use crate::resolving::Resolver;
use codes::{Binder, CodeDef};
use resolved_forms::{binder, with_locals};
use scopes::Place;
use std::alloc::AllocError;
use syntax::{Def, Tele};
use translation::span_of;

impl<'a> Resolver<'a> {
    /// The definitions of a block or a module. Their names stay bound.
    #[cycle(resolve)]
    pub(crate) fn block(
        &self,
        place: &mut Place<'a>,
        defs: &[Def],
    ) -> Result<Vec<CodeDef>, AllocError>
        ensures opens { IfOk result (λ cs. Opens place.old place.new
            (block_of self.now.names.bytes.now defs.now) (code_block cs.items)) }
        ensures spelt { let bytes = self.now.names.bytes.now in
            IfOk result (λ cs. AreDefs bytes place.old.names place.new.names defs.now cs.items) }
        ensures named { IfOk result (λ cs. code_names cs.items ≡ def_names defs.now) }
    {
        let first = place.next();
        let mut codes = Vec::new(self.names.alloc);
        for def in defs {
            let code = self.def(place, def)?;
            self.names.define(place, first, def.name, code.number)?;
            codes.push(code)?;
        }
        Ok(codes)
    }

    /// A definition, which is numbered after the local ones that it holds.
    #[cycle(resolve)]
    fn def(&self, place: &mut Place<'a>, def: &Def) -> Result<CodeDef, AllocError>
        ensures defines { IfOk result (λ c. Defines place.old place.new (number_of c)
            (means_of self.now.names.bytes.now def.now) (code_def c)) }
        ensures spelt { IfOk result (λ c.
            IsDef self.now.names.bytes.now place.old.names def.now c) }
        ensures named { IfOk result (λ c. (out-CodeDef c).name ≡ (out-Def def.now).name) }
    {
        let mark = place.mark();
        let binders = self.binders(place, def.teles.as_slice())?;
        let ty = self.exp(place, &def.ty)?;
        let locals = self.block(place, def.locals.as_slice())?;
        let body = self.exp(place, &def.body)?;
        place.cut(mark);
        let body = with_locals(self.names.alloc, span_of(&def.body), locals, body)?;
        let number = place.take_number()?;
        Ok(CodeDef::new(def.name, number, binders, ty, body))
    }

    /// The binders that teles write. Their names stay bound.
    #[cycle(resolve)]
    pub(crate) fn binders(
        &self,
        place: &mut Place<'a>,
        teles: &[Tele],
    ) -> Result<Vec<Binder>, AllocError>
        ensures resolves { IfOk result (λ bs. Binds place.old place.new
            (binders_of self.now.names.bytes.now teles.now) (code_binders bs.items)) }
        ensures spelt { let bytes = self.now.names.bytes.now in
            IfOk result (λ bs.
            AreBinders bytes place.old.names place.new.names teles.now bs.items) }
    {
        let mut binders = Vec::new(self.names.alloc);
        for tele in teles {
            let ty = self.exp(place, &tele.ty)?;
            binders.push(binder(&self.names, place, tele, ty)?)?;
        }
        Ok(binders)
    }
}
