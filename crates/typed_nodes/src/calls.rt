//! Calls of derived rules.

ghost use Rattle.std.specs.Prelude.{◌≡◌, ◌≤◌, List, [], ◌∷◌, length, Some, IfOk};
ghost use Rattle.trees.specs.Things.{Thing};
ghost use Rattle.book.specs.Shown.{Extends};
ghost use Rattle.recipes.specs.Statements.{Statement};
ghost use Rattle.recipe_runner.specs.Running.{most_made_by};
ghost use Rattle.typed_nodes.specs.Calls.{Gives, IsTableOf, MayCall};

use book::{Book, Few, NodeId};
use recipe_runner::{NoRecipes, run};
use recipes::Row;
use std::alloc::AllocError;

/// The nodes that a derived rule gives, of premises, which are nodes. The table reads the parts of
/// the rule from what these conclude, but for the first parts, which are rows.
///
/// # Errors
/// Only where memory runs out.
pub fn derived(
    book: &mut Book,
    rows: &[Row],
    gives: &[u16],
    parts: &[u64],
    premises: &[u64],
) -> Result<Few, AllocError>
    requires rows { most_made_by rows.now ≤ 512 }
    requires few { length gives.now ≤ 16 }
    requires may { (s : Statement) × (things : List Thing)
        × IsTableOf s rows.now gives.now (length parts.now)
        × MayCall s book.old parts.now premises.now things }
    ensures extends { Extends book.old book.new }
    ensures gives { IfOk result (λ nodes. (s : Statement) →
        IsTableOf s rows.now gives.now (length parts.now)
        → Gives s book.old book.new parts.now premises.now nodes) }
{
    Ok(run(book, &NoRecipes, rows, gives, parts, premises)?)
}

/// The one node that a derived rule gives.
pub fn derive(
    book: &mut Book,
    rows: &[Row],
    gives: &[u16],
    parts: &[u64],
    premises: &[u64],
) -> Result<NodeId, AllocError>
    requires rows { most_made_by rows.now ≤ 512 }
    requires one { length gives.now ≡ 1 }
    requires may { (s : Statement) × (things : List Thing)
        × IsTableOf s rows.now gives.now (length parts.now)
        × MayCall s book.old parts.now premises.now things }
    ensures extends { Extends book.old book.new }
    ensures gives { IfOk result (λ node. (s : Statement) →
        IsTableOf s rows.now gives.now (length parts.now)
        → Gives s book.old book.new parts.now premises.now (node.0 ∷ [])) }
{
    let nodes = derived(book, rows, gives, parts, premises)?;
    Ok(NodeId(nodes.as_slice()[0]))
}

/// The two nodes that a derived rule gives.
pub fn derive_two(
    book: &mut Book,
    rows: &[Row],
    gives: &[u16],
    parts: &[u64],
    premises: &[u64],
) -> Result<(NodeId, NodeId), AllocError>
    requires rows { most_made_by rows.now ≤ 512 }
    requires two { length gives.now ≡ 2 }
    requires may { (s : Statement) × (things : List Thing)
        × IsTableOf s rows.now gives.now (length parts.now)
        × MayCall s book.old parts.now premises.now things }
    ensures extends { Extends book.old book.new }
    ensures gives { IfOk result (λ nodes. (s : Statement) →
        IsTableOf s rows.now gives.now (length parts.now)
        → Gives s book.old book.new parts.now premises.now (nodes.0.0 ∷ nodes.1.0 ∷ [])) }
{
    let nodes = derived(book, rows, gives, parts, premises)?;
    let first = nodes.as_slice()[0];
    let second = nodes.as_slice()[1];
    Ok((NodeId(first), NodeId(second)))
}
