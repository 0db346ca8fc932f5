//! What is asked of the rows that a case before has given.

use crate::chains::{
    chain_told, doubled_chains_told, doublings_told, shared_closed_told, shared_raised_told,
    shared_told,
};
use crate::compared::{claims_told, same_told};
use crate::decided::{
    alike_told, holds_told, in_order_told, kind_of_text, long_formula_told, shared_formula_told,
    value_told,
};
use crate::fault::Fault;
use crate::opened::{head_told, outermost_told, variable_told};
use crate::stored::filled;
use compare::Comparison;
use rows::RowStore;
use std::alloc::Global;

/// The rows, and what was found of them so far.
#[derive(Drop)]
pub(crate) struct Asked {
    rows: RowStore,
    comparison: Comparison,
}

impl Asked {
    pub(crate) fn new(alloc: Global) -> Asked {
        Asked {
            rows: RowStore::new(alloc),
            comparison: Comparison::new(alloc),
        }
    }

    /// Puts the rows of some lines in place of the others.
    pub(crate) fn put(&mut self, alloc: Global, text: &str) -> Result<(), Fault> {
        self.rows = filled(alloc, text)?;
        self.comparison = Comparison::new(alloc);
        Ok(())
    }
}

/// The answers of cases that are known by name.
fn named_told(alloc: Global, asked: &str) -> Result<String, Fault> {
    match asked {
        "chain" => chain_told(alloc),
        "doublings" => doublings_told(alloc),
        "doubled-chains" => doubled_chains_told(alloc),
        "shared" => shared_told(alloc),
        "shared-raised" => shared_raised_told(alloc),
        "shared-closed" => shared_closed_told(alloc),
        "in-order" => in_order_told(alloc),
        "shared-formula" => shared_formula_told(alloc),
        "long-formula" => long_formula_told(alloc),
        _ => Ok(String::from_str(alloc, "no such question")?),
    }
}

/// The answer to what is asked of an input.
pub(crate) fn told(
    alloc: Global,
    asked: &mut Asked,
    what: &str,
    input: &str,
) -> Result<String, Fault> {
    let Asked { rows, comparison } = asked;
    match what {
        "variable" => variable_told(alloc, rows, input),
        "head" => head_told(alloc, rows, input),
        "outermost" => outermost_told(alloc, rows, input),
        "same" => same_told(alloc, comparison, rows, input),
        "claims" => claims_told(alloc, comparison, rows, input),
        "holds" => holds_told(alloc, input),
        "value" => value_told(alloc, input),
        "kind" => kind_of_text(alloc, input),
        "alike" => alike_told(alloc, input),
        _ => named_told(alloc, what),
    }
}
