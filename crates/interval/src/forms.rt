//! Sums of products of literals.

ghost use Rattle.std.specs.Prelude.{◌≡◌, ◌↔◌, List, IsTrue, IfOk};
ghost use Rattle.antichains.specs.Antichains.{IsNormal, IsWithin};
ghost use Rattle.points.specs.Values.{value_at, with_value, zero_value};
ghost use Rattle.points.specs.Values.{one_value, end_value, negation};
ghost use Rattle.interval.specs.Literals.{literal_cmp};
ghost use Rattle.interval.specs.Forms.{product_value, form_value, HasValue, LacksName};

use crate::literals::Literal;
use antichains::{Antichain, Lattice};
use std::alloc::{AllocError, Global};
use std::marker::Model;

/// A product of literals, as the strictly sorted list of them.
pub type Product = antichains::Product<Literal>;

/// A formula, as the sum of products of literals in normal form.
#[derive(Drop)]
pub struct Form {
    sum: Antichain<Literal>,
}

impl Model for Form {
    ghost use Rattle.std.specs.Prelude.{List};
    ghost use Rattle.interval.specs.declared.literals.Literal.{Literal};

    ghost Value = { List (List Literal) };

    ghost view = { λ form. form.sum };
}

impl Form {
    /// The end 0: the sum of nothing.
    pub fn zero(alloc: Global) -> Result<Form, AllocError>
        ensures { IfOk result (HasValue (λ _. zero_value)) }
    {
        Ok(Form {
            sum: Antichain::new(alloc),
        })
    }

    /// The end 1: the product of nothing.
    pub fn one(alloc: Global) -> Result<Form, AllocError>
        ensures { IfOk result (HasValue (λ _. one_value)) }
    {
        Form::from_product(alloc, Product::new(alloc))
    }

    /// The name itself.
    pub fn name(alloc: Global, name: u64) -> Result<Form, AllocError>
        ensures { IfOk result (HasValue (λ valuation. value_at valuation name)) }
    {
        let literal = Literal {
            name,
            negated: false,
        };
        Form::from_product(alloc, Product::single(alloc, literal)?)
    }

    /// The sum of one product.
    fn from_product(alloc: Global, product: Product) -> Result<Form, AllocError>
        ensures { IfOk result (HasValue (product_value product)) }
    {
        let mut products = Vec::with_capacity(alloc, 1)?;
        products.push(product)?;
        Form::from_products(products)
    }

    /// The sum of some products.
    fn from_products(products: Vec<Product>) -> Result<Form, AllocError>
        ensures value { IfOk result (HasValue (form_value products.items)) }
        ensures among { IfOk result (λ form. IsWithin form products.items) }
    {
        Ok(Form {
            sum: Antichain::from_products(products)?,
        })
    }

    /// The products, in order.
    pub fn products(&self) -> &[Product]
        ensures value { result.now ≡ self.now }
        ensures normal { IsNormal literal_cmp self.now }
    {
        self.sum.products()
    }

    /// Whether the two forms have the same value under every valuation. They do exactly where they
    /// are the same list.
    pub fn same(&self, other: &Form) -> bool
        ensures values { IsTrue result ↔ HasValue (form_value other.now) self.now }
        ensures lists { IsTrue result ↔ (self.now ≡ other.now) }
    {
        self.sum.same(&other.sum)
    }

    /// The negation: by De Morgan's laws, the meet over all products of the join of their negated
    /// literals.
    pub fn neg(&self) -> Result<Form, AllocError>
        ensures { IfOk result (HasValue (λ valuation. negation (form_value self.now valuation))) }
    {
        let mut form = Form::one(self.alloc())?;
        for product in self.products() {
            form = form.meet(&Form::negated(self.alloc(), product)?)?;
        }
        Ok(form)
    }

    /// The form with the name replaced by an end, 1 for `true` and 0 for `false`.
    pub fn at(&self, name: u64, end: bool) -> Result<Form, AllocError>
        ensures value { IfOk result (HasValue (λ valuation.
            form_value self.now (with_value name (end_value end) valuation))) }
        ensures gone { IfOk result (LacksName name) }
    {
        let one = Literal {
            name,
            negated: !end,
        };
        let zero = Literal { name, negated: end };
        let mut products = Vec::new(self.alloc());
        for product in self.products() {
            if !product.contains(zero) {
                products.push(product.without(one)?)?;
            }
        }
        Form::from_products(products)
    }

    /// The negation of a product: the sum of its negated literals.
    fn negated(alloc: Global, product: &Product) -> Result<Form, AllocError>
        ensures { IfOk result
            (HasValue (λ valuation. negation (product_value product.now valuation))) }
    {
        let mut products = Vec::with_capacity(alloc, product.len())?;
        for literal in product.elements() {
            products.push(Product::single(alloc, literal.negation())?)?;
        }
        Form::from_products(products)
    }

    /// The allocator that the form keeps.
    fn alloc(&self) -> Global {
        self.sum.alloc()
    }
}

impl Lattice for Form {
    ghost use Rattle.points.specs.Values.{Value, Valuation, meet, join};
    ghost use Rattle.interval.specs.Forms.{form_value};

    ghost Place = { Valuation };

    ghost Worth = { Value };

    ghost worth = { form_value };

    ghost both = { meet };

    ghost either = { join };

    /// At m and n products it takes m * n merges, and one normal form.
    fn meet(&self, other: &Form) -> Result<Form, AllocError> {
        Ok(Form {
            sum: self.sum.meet(&other.sum)?,
        })
    }

    fn join(&self, other: &Form) -> Result<Form, AllocError> {
        Ok(Form {
            sum: self.sum.join(&other.sum)?,
        })
    }
}
