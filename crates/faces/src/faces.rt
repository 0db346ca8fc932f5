//! Disjunctions of conjunctions of equations.

ghost use Rattle.std.specs.Prelude.{◌≡◌, ◌↔◌, false, true, List, [], All, Any};
ghost use Rattle.std.specs.Prelude.{Contains, IsTrue, IfOk, MatchOption};
ghost use Rattle.std.specs.List.Sorted.{IsStrictlySortedBy};
ghost use Rattle.std.specs.Cmp.Lexicographic.{slice_cmp};
ghost use Rattle.antichains.specs.Antichains.{IsWithin};
ghost use Rattle.points.specs.Points.{Point, with_free, with_end, valuation_of};
ghost use Rattle.interval.specs.Forms.{product_value, form_value};
ghost use Rattle.faces.specs.Equations.{equation_cmp, equals_end, opposite};
ghost use Rattle.faces.specs.Faces.{conj_truth, face_truth, IsTrueWhere, HoldsUnder, IsConsistent};
ghost use Rattle.faces.specs.Faces.{HasRisingNames, IsIrredundant, LacksName};
ghost use Rattle.faces.specs.Meets.{ImpliesTogether, CoversMeet, IsMergeOutside, IsMeetOutside};

use crate::equations::Equation;
use antichains::{Antichain, Lattice};
use interval::{Form, Product};
use std::alloc::{AllocError, Global};
use std::marker::Model;

/// A conjunction of equations, as the strictly sorted list of them. In a face no two of them are of
/// one name.
pub type Conj = antichains::Product<Equation>;

/// A face, as the disjunction of conjunctions in normal form: they are in order, none implies
/// another, and none has a name at both ends.
#[derive(Drop)]
pub struct Face {
    conjs: Antichain<Equation>,
}

impl Model for Face {
    ghost use Rattle.std.specs.Prelude.{List, All};
    ghost use Rattle.faces.specs.declared.equations.Equation.{Equation};
    ghost use Rattle.faces.specs.Faces.{IsConsistent};

    ghost Value = { List (List Equation) };

    ghost view = { λ face. face.conjs };

    ghost invariant = { λ face. All IsConsistent face.conjs };
}

impl Face {
    /// The face that is true at no point: the disjunction of nothing.
    pub fn bottom(alloc: Global) -> Result<Face, AllocError>
        ensures { IfOk result (IsTrueWhere (λ _. false)) }
    {
        Face::from_conjs(Vec::new(alloc))
    }

    /// The face that is true at every point: the conjunction of nothing.
    pub fn top(alloc: Global) -> Result<Face, AllocError>
        ensures { IfOk result (IsTrueWhere (λ _. true)) }
    {
        let mut conjs = Vec::with_capacity(alloc, 1)?;
        conjs.push(Conj::new(alloc))?;
        Face::from_conjs(conjs)
    }

    /// The face that is true where the form is equal to the end, 1 for `true` and 0 for `false`.
    pub fn eq(alloc: Global, form: &Form, end: bool) -> Result<Face, AllocError>
        ensures { IfOk result
            (IsTrueWhere (λ x. equals_end (form_value form.now (valuation_of x)) end)) }
    {
        if end {
            Face::where_one(alloc, form)
        } else {
            Face::where_zero(alloc, form)
        }
    }

    /// The conjunctions, in order: by their lists of equations, a prefix first.
    pub fn parts(&self) -> &[Conj]
        ensures value { result.now ≡ self.now }
        ensures sorted { IsStrictlySortedBy (slice_cmp equation_cmp) self.now }
        ensures names { All HasRisingNames self.now }
        ensures irredundant { IsIrredundant self.now }
    {
        self.conjs.products()
    }

    /// The face that is true where this one is with the name free: without the conjunctions that
    /// have the name.
    pub fn forall(&self, name: u64) -> Result<Face, AllocError>
        ensures truth { IfOk result (IsTrueWhere (λ x. face_truth self.now (with_free name x))) }
        ensures gone { IfOk result (LacksName name) }
    {
        let mut conjs = Vec::new(self.alloc());
        for conj in self.conjs.products() {
            if !has_name(conj, name) {
                conjs.push(conj.clone()?)?;
            }
        }
        Face::from_conjs(conjs)
    }

    /// The face that is true where this one is with the name at the end, 1 for `true` and 0 for
    /// `false`.
    pub fn restrict(&self, name: u64, end: bool) -> Result<Face, AllocError>
        ensures truth { IfOk result (IsTrueWhere (λ x. face_truth self.now (with_end name end x))) }
        ensures gone { IfOk result (LacksName name) }
    {
        let equation = Equation { name, end };
        let mut conjs = Vec::new(self.alloc());
        for conj in self.conjs.products() {
            if !conj.contains(equation.opposite()) {
                conjs.push(conj.without(equation)?)?;
            }
        }
        Face::from_conjs(conjs)
    }

    /// Whether this face is true wherever all the given ones are. It meets the given faces one
    /// after the other and goes on with the conjunctions that do not imply this face yet; of the
    /// last one it only asks whether any is left.
    pub fn holds_under(&self, given: &[Face]) -> Result<bool, AllocError>
        ensures { IfOk result (λ holds. IsTrue holds ↔ HoldsUnder given.now self.now) }
    {
        let mut open = Face::top(self.alloc())?;
        let Some((last, others)) = given.split_last() else {
            return self.covers_meet(&open, &open);
        };
        for face in others {
            if open.is_nowhere() {
                return Ok(true);
            }
            open = open.meet_outside(face, self)?;
        }
        self.covers_meet(&open, last)
    }
}

impl Lattice for Face {
    ghost use Rattle.std.specs.Prelude.{Bool, ◌&&◌, ◌||◌};
    ghost use Rattle.points.specs.Points.{Point};
    ghost use Rattle.faces.specs.Faces.{face_truth};

    ghost Place = { Point };

    ghost Worth = { Bool };

    ghost worth = { face_truth };

    ghost both = { λ b c. b && c };

    ghost either = { λ b c. b || c };

    /// The face that is true where both are: at m and n conjunctions at most m * n merges, and one
    /// normal form. A merge with a name at both ends is dropped.
    fn meet(&self, other: &Face) -> Result<Face, AllocError> {
        self.meet_outside(other, &Face::bottom(self.alloc())?)
    }

    /// The face that is true where one of the two is.
    fn join(&self, other: &Face) -> Result<Face, AllocError> {
        Ok(Face {
            conjs: self.conjs.join(&other.conjs)?,
        })
    }
}

impl Face {
    /// The face of some conjunctions.
    fn from_conjs(conjs: Vec<Conj>) -> Result<Face, AllocError>
        requires { All IsConsistent conjs.items }
        ensures truth { IfOk result (IsTrueWhere (face_truth conjs.items)) }
        ensures among { IfOk result (λ face. IsWithin face conjs.items) }
    {
        Ok(Face {
            conjs: Antichain::from_products(conjs)?,
        })
    }

    /// The face that is true where the form is 1: where all literals of one product are.
    fn where_one(alloc: Global, form: &Form) -> Result<Face, AllocError>
        ensures { IfOk result (IsTrueWhere (λ x. (form_value form.now (valuation_of x)).holds)) }
    {
        let mut conjs = Vec::new(alloc);
        for product in form.products() {
            if let Some(conj) = where_all_are_one(alloc, product)? {
                conjs.push(conj)?;
            }
        }
        Face::from_conjs(conjs)
    }

    /// The face that is true where the form is 0: where one literal of each product is.
    fn where_zero(alloc: Global, form: &Form) -> Result<Face, AllocError>
        ensures { IfOk result (IsTrueWhere (λ x. (form_value form.now (valuation_of x)).fails)) }
    {
        let mut face = Face::top(alloc)?;
        for product in form.products() {
            face = face.meet(&Face::where_some_is_zero(alloc, product)?)?;
        }
        Ok(face)
    }

    /// The face that is true where one literal of the product is 0.
    fn where_some_is_zero(alloc: Global, product: &Product) -> Result<Face, AllocError>
        ensures { IfOk result
            (IsTrueWhere (λ x. (product_value product.now (valuation_of x)).fails)) }
    {
        let mut conjs = Vec::with_capacity(alloc, product.len())?;
        for literal in product.elements() {
            conjs.push(Conj::single(alloc, Equation::of(*literal, false))?)?;
        }
        Face::from_conjs(conjs)
    }

    /// The conjunctions of the meet that do not imply the excluded face.
    fn meet_outside(&self, other: &Face, excluded: &Face) -> Result<Face, AllocError>
        ensures { IfOk result (IsMeetOutside excluded.now self.now other.now) }
    {
        let mut conjs = Vec::new(self.alloc());
        for left in self.conjs.products() {
            for right in other.conjs.products() {
                if let Some(both) = merge_outside(left, right, excluded)? {
                    conjs.push(both)?;
                }
            }
        }
        Face::from_conjs(conjs)
    }

    /// Whether this face is true wherever the two are. A no comes at the first merge that does not
    /// imply it.
    fn covers_meet(&self, left: &Face, right: &Face) -> Result<bool, AllocError>
        ensures { IfOk result (λ covers. IsTrue covers ↔ CoversMeet self.now left.now right.now) }
    {
        for first in left.conjs.products() {
            for second in right.conjs.products() {
                if merge_outside(first, second, self)?.is_some() {
                    return Ok(false);
                }
            }
        }
        Ok(true)
    }

    /// Whether the face is true wherever the conjunction is.
    fn is_implied_by(&self, conj: &Conj) -> bool
        ensures { IsTrue result ↔ Any (λ part. IsWithin part conj.now) self.now }
    {
        self.conjs
            .products()
            .iter()
            .any(|part| conj.contains_all(part))
    }

    /// Whether the face is true at no point.
    fn is_nowhere(&self) -> bool
        ensures { IsTrue result ↔ (self.now ≡ []) }
    {
        self.conjs.products().is_empty()
    }

    /// The allocator that the face keeps.
    fn alloc(&self) -> Global {
        self.conjs.alloc()
    }
}

/// The conjunction that is true where all literals of the product are 1; none where two of them
/// contradict each other.
fn where_all_are_one(alloc: Global, product: &Product) -> Result<Option<Conj>, AllocError>
    ensures { let truth = λ (x : Point). (product_value product.now (valuation_of x)).holds in
        IfOk result (λ found. MatchOption found
        ((x : Point) → truth x ≡ false)
        (λ conj. IsConsistent conj × ((x : Point) → conj_truth conj x ≡ truth x))) }
{
    let mut conj = Conj::new(alloc);
    for literal in product.elements() {
        let equation = Equation::of(*literal, true);
        if conj.contains(equation.opposite()) {
            return Ok(None);
        }
        conj = conj.merged(&Conj::single(alloc, equation)?)?;
    }
    Ok(Some(conj))
}

/// The conjunction of both; none where it has a name at both ends or implies the excluded face.
fn merge_outside(left: &Conj, right: &Conj, excluded: &Face) -> Result<Option<Conj>, AllocError>
    requires left_consistent { IsConsistent left.now }
    requires right_consistent { IsConsistent right.now }
    ensures { IfOk result (λ found. MatchOption found
        (ImpliesTogether left.now right.now excluded.now)
        (IsMergeOutside excluded.now left.now right.now)) }
{
    if contradict(left, right) {
        return Ok(None);
    }
    let both = left.merged(right)?;
    if excluded.is_implied_by(&both) {
        Ok(None)
    } else {
        Ok(Some(both))
    }
}

/// Whether one conjunction has a name at one end and the other has it at the other end.
fn contradict(left: &Conj, right: &Conj) -> bool
    ensures { IsTrue result ↔ Any (λ equation. Contains right.now (opposite equation)) left.now }
{
    left.elements()
        .iter()
        .any(|equation| right.contains(equation.opposite()))
}

/// Whether an equation of the conjunction is of this name.
fn has_name(conj: &Conj, name: u64) -> bool
    ensures { IsTrue result ↔ Any (λ equation. equation.name ≡ name) conj.now }
{
    conj.elements().iter().any(|equation| equation.name == name)
}
