//! The derived rules of the Kan operations as calls over a book: filling, contraction,
//! preservation, and extension of an element of a fiber; and how the recipe of a rule of
//! composition unfolds one.
//!
//! ```text
//! let step = Derive { parts, premises };      // G A p b a r, and the premises of `comp`
//! let filled = fill(book, ctx, &step)?;       // ctx concludes `ctx G`
//! book.conclusion(filled.typing)              // G >> Fill(i.A, p, i.b, a, r) : A{r}
//! ```
#![tactic(auto)]

mod calls;
mod earlier;
mod kan;
mod unfolding;

pub use calls::{Derive, Derived, MOST_ADDED, contr, ext, fill, pres};
pub use earlier::{Contraction, Filling};
pub use kan::Kan;
pub use unfolding::{Recipe, Unfolded, laws_of_unfoldings, unfold_by};
