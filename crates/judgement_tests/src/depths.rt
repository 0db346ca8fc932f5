//! Codes that are as deep as may be.

use codes::{Code, CodeDef, Opened};
use judgement_rows::claims_of;
use layout_lexer::Span;
use rows::RowStore;
use std::alloc::{AllocError, Global};
use std::test::Fail;

const HERE: Span = Span { start: 0, end: 1 };

/// So many path types, each the line of the one round it.
fn deep(alloc: Global, depth: u32) -> Result<Code, AllocError> {
    let mut code = Code::Universe { span: HERE };
    for _ in 0..depth {
        let line = Opened::Applied(HERE, code);
        let left = Code::Nat { span: HERE };
        let right = Code::Nat { span: HERE };
        code = Code::path_type(alloc, HERE, line, left, right)?;
    }
    Ok(code)
}

#[test]
fn the_deepest_codes_are_spelt(rt: HostRuntime) -> Result<(), Fail> {
    let alloc = rt.alloc();
    let ty = Code::Universe { span: HERE };
    let def = CodeDef::new(HERE, 0, Vec::new(alloc), ty, deep(alloc, 511)?);
    let mut defs = Vec::new(alloc);
    defs.push(def)?;
    let mut rows = RowStore::new(alloc);
    let claims = claims_of(alloc, &mut rows, &defs)?;
    assert_eq!(&rt; claims.len(), 2);
    Ok(())
}
