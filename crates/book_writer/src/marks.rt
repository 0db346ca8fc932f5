//! Which rows of a file serve a root.

ghost use Rattle.std.specs.Prelude.{◌≡◌, ◌<◌, IfOk, length, replicate, false};
ghost use Rattle.std.specs.List.{All};
ghost use Rattle.book_writer.specs.Served.{Marks, AreServed};

use crate::lines::Lines;
use std::alloc::AllocError;

/// Marks these rows.
pub fn mark_all(marks: &mut [bool], rows: &[u64])
    requires { All (λ k. k < length marks.old) rows.now }
    ensures { Marks marks.old rows.now marks.new }
{
    for row in rows {
        marks[*row as usize] = true;
    }
}

impl Lines {
    /// Marks the header, and the rows that serve one of these as a root: these, and what they name.
    fn mark_served(&self, marks: &mut [bool], roots: &[u64])
        requires clear { marks.old ≡ replicate (length self.now) false }
        requires roots { All (λ k. k < length self.now) roots.now }
        ensures { AreServed self.now roots.now marks.new }
    {
        let _ = &self.alloc;
        mark_all(marks, &[0]);
        mark_all(marks, roots);
        let mut left = self.len();
        while 0 < left {
            left -= 1;
            if marks[left as usize] {
                mark_all(marks, self.line(left).1);
            }
        }
    }

    /// The same, of new marks.
    pub(crate) fn served(&self, roots: &[u64]) -> Result<Vec<bool>, AllocError>
        requires { All (λ k. k < length self.now) roots.now }
        ensures { IfOk result (λ marks. AreServed self.now roots.now marks.items) }
    {
        let mut marks = vec![in self.alloc; false; self.len() as usize]?;
        self.mark_served(&mut marks, roots);
        Ok(marks)
    }
}
