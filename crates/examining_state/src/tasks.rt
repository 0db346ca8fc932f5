//! What is to be done.

use crate::shapes::Shape;
use crate::state::Inferred;
use book::NodeId;
use codes::{Binder, Code, CodeDef, Element, Opened};
use joined_sides::Glued;
use std::alloc::{AllocError, Global};
use syntax::Projection;
use typed_nodes::{Family, Line};

/// Whether types are taken as types, or as terms of the universe.
#[derive(Clone, Copy, Debug, PartialEq, Eq)]
pub enum Sort {
    /// As types.
    Large,
    /// As terms of the universe.
    Small,
}

/// The type that binders form over a body.
#[derive(Clone, Copy, Debug, PartialEq, Eq)]
pub enum Former {
    /// Of functions.
    Pi,
    /// Of pairs.
    Sigma,
}

/// What stands under binders.
#[derive(Clone, Copy)]
pub enum Inner<'a> {
    /// A type, over which the binders form one.
    Family(Former, Sort, &'a Code),
    /// A body to be inferred, over which they form a function.
    Function(&'a Code),
    /// A definition: its type, and its body.
    Definition(&'a CodeDef),
}

/// What is formed over a variable.
#[derive(Clone, Copy, Debug, PartialEq, Eq)]
pub enum Closing {
    /// A type of functions or pairs.
    Family(Former, Sort),
    /// A function, whose body was inferred last.
    Function,
    /// The type and the body of a definition.
    Definition,
}

impl Inner<'_> {
    /// How the types of the binders are taken.
    pub fn sort(self) -> Sort {
        match self {
            Inner::Family(_, sort, _) => sort,
            Inner::Function(_) => Sort::Large,
            Inner::Definition(_) => Sort::Large,
        }
    }

    /// What it becomes over a variable.
    pub fn closing(self) -> Closing {
        match self {
            Inner::Family(former, sort, _) => Closing::Family(former, sort),
            Inner::Function(_) => Closing::Function,
            Inner::Definition(_) => Closing::Definition,
        }
    }
}

/// Something to be done at the place.
#[derive(Clone, Copy)]
pub enum Task<'a> {
    /// To infer a code.
    Infer(&'a Code),
    /// To check a code at a type of the place.
    Check(&'a Code, NodeId),
    /// To take a code as a type, or to check it at the universe.
    Form(&'a Code, Sort),
    /// Of definitions.
    Defining(Defining<'a>),
    /// Of types of functions and pairs, and of functions.
    Binding(Binding<'a>),
    /// Of pairs and paths against types.
    Pairing(Pairing<'a>),
    /// Of terms that were inferred last and are taken apart.
    Eliminating(Eliminating<'a>),
    /// Of a recursion.
    Recurring(&'a Code, Recurring),
    /// Of lines and types of paths.
    Lining(Lining<'a>),
    /// Of terms that were inferred last.
    Comparing(Comparing),
    /// Of compositions and fillings.
    Composing(&'a Code, Composing),
    /// Of glued types and their elements.
    Gluing(&'a Code, Gluing),
}

/// Of definitions.
#[derive(Clone, Copy)]
pub enum Defining<'a> {
    /// To check definitions, which are known from then on.
    Block(&'a [CodeDef]),
    /// To check a body at the type that was found last.
    Body(&'a Code),
    /// To state the definition of this number, whose type and body were found last.
    Close(u32),
    /// To forget so many definitions.
    End(usize),
}

/// Of types of functions and pairs, and of functions.
#[derive(Clone, Copy)]
pub enum Binding<'a> {
    /// What stands under binders, and then what they form of it.
    Under(&'a [Binder], Inner<'a>),
    /// The same, under so many variables of the type that was found last before the binders.
    Over(usize, &'a [Binder], Inner<'a>),
    /// To form it over the last variable.
    Close(Closing),
    /// To check a function of these binders at a type. It begins at this byte.
    Lambda(&'a [Binder], &'a Code, NodeId, u32),
    /// The same, of so many variables of the type that was found last before the binders, at a type
    /// of functions.
    Take(usize, &'a [Binder], &'a Code, Shape, u32),
    /// To form a function of the last variable, at a type of functions: of the equation of the
    /// domain and that of the type, and of the type of the body.
    CloseFunction(Shape, NodeId, NodeId),
}

/// Of pairs and paths against types.
#[derive(Clone, Copy)]
pub enum Pairing<'a> {
    /// Components against a type: the last at what is left of it. They begin at this byte.
    Components(&'a [Code], NodeId, u32),
    /// The other components, where the first was found last.
    Second(&'a [Code], Family, u32),
    /// The pair of the two components that were found last, at a type of pairs.
    Pair(Family, Shape),
    /// A body under so many names, at a type. It begins at this byte.
    Names(usize, &'a Code, NodeId, u32),
    /// To form a path over the last name, at a type of paths.
    CloseName(Line, Shape, u32),
}

/// Of terms that were inferred last and are taken apart.
#[derive(Clone, Copy)]
pub enum Eliminating<'a> {
    /// What a term is applied to. The term begins at the first byte, and what it is applied to
    /// forms terms that begin at the second.
    Elements(&'a [Element], u32, u32),
    /// To apply a term to the argument that was found last.
    Apply(Family),
    /// Projections of a pair, which begins at the first byte, and its halves at the second.
    Project(&'a [Projection], u32, u32),
    /// The successor of the number that was found last.
    Successor,
}

/// Of a recursion, which is at hand.
#[derive(Clone, Copy, Debug)]
pub enum Recurring {
    /// To form the motive, under a number.
    Motive,
    /// To go under a number.
    EnterNumber,
    /// A family that was inferred last outside, at the new number: the text begins at this byte.
    AtNumber(u32),
    /// To check the base, where the motive was found last.
    Base,
    /// To check the step, where the motive and the base were found last.
    Step,
    /// To check the number.
    Number,
    /// The recursion of the motive, the base, the step and the number that were found last.
    Close,
}

/// Of lines and types of paths.
#[derive(Clone, Copy)]
pub enum Lining<'a> {
    /// To form a line, under a name.
    Line(&'a Opened, Sort),
    /// To go under a name.
    EnterName,
    /// To leave the last entry.
    Leave,
    /// A path that was inferred last outside, at the new name: the text begins at this byte.
    AtName(u32),
    /// To check a code at the start of the line that was found last.
    Left(&'a Code),
    /// To check a code at the end of the line that was found before the left end.
    Right(&'a Code),
    /// The type of paths over the line and between the ends that were found last.
    ClosePath(Sort),
}

/// Of terms that were inferred last. The text begins at this byte.
#[derive(Clone, Copy)]
pub enum Comparing {
    /// It has this type.
    At(NodeId, u32),
    /// It is a type, or a term of the universe.
    IsSmall(Sort, u32),
    /// A term of the universe that was found last, as one that was inferred.
    Small,
}

/// Of a composition, a filling or a transport, which is at hand.
#[derive(Clone, Copy, Debug)]
pub enum Composing {
    /// To check the base, where the line was found last.
    Base,
    /// To check the sides, where the line and the base were found last.
    Start,
    /// To check the sides from one of this number on, at a line.
    Sides(NodeId, usize),
    /// To form it of a line, a base, and the sides that were found last.
    Close(NodeId, NodeId),
}

/// Of a glued type, an element of one, or such an element unglued, which is at hand.
#[derive(Clone, Copy, Debug)]
pub enum Gluing {
    /// To check the sides of a glued type over the base that was found last.
    Start(Sort),
    /// To check sides over a base, from one of this number on.
    Sides(NodeId, Sort, usize),
    /// To check the equivalence of the side of this number over a base, where its type was found
    /// last.
    Map(NodeId, usize),
    /// To form a glued type of a base and of the sides that were found last.
    Close(NodeId, Sort),
    /// To unglue the element that was inferred last.
    Unglue,
    /// To unglue an element, where the base and then the sides of its type were found.
    CloseUnglued(Inferred, NodeId),
    /// To check an element at a type.
    Element(NodeId),
    /// To check the sides of an element of a glued type, where the base was found last.
    ElementSides(Glued, Shape),
    /// To check them from one of this number on.
    MoreSides(Glued, usize),
    /// To form an element at its type, of the base and of the sides that were found last.
    CloseElement(Glued, Shape, NodeId),
}

/// What is to be done, the first task last.
#[derive(Drop)]
pub struct Tasks<'a> {
    /// The tasks that are left.
    pub items: Vec<Task<'a>>,
}

impl<'a> Tasks<'a> {
    /// Nothing is to be done.
    pub fn new(alloc: Global) -> Tasks<'a> {
        Tasks {
            items: Vec::new(alloc),
        }
    }

    /// To do these first, in order.
    pub fn plan(&mut self, tasks: &[Task<'a>]) -> Result<(), AllocError> {
        for task in tasks.iter().rev() {
            self.items.push(*task)?;
        }
        Ok(())
    }
}
