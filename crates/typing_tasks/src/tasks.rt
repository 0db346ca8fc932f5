//! What is to be done.

ghost use Rattle.std.specs.Prelude.{◌≡◌, ◌++◌, IfOk, [], reverse};
ghost use Rattle.typing_tasks.specs.Tasks.{closing_of, sort_of};
ghost use Rattle.typing_tasks.specs.declared.tasks.Next.TheVariants.{Moved};

use codes::{Binder, Code, CodeDef, Element, Opened};
use std::alloc::{AllocError, Global};
use syntax::Projection;
use typed_nodes::{Family, TypeAt};

/// Whether types are taken as types, or as terms of the universe.
#[derive(Clone, Copy, Debug, PartialEq, Eq)]
pub enum Sort {
    /// As types.
    Large,
    /// As terms of the universe.
    Small,
}

/// The type that binders form over a body.
#[derive(Clone, Copy, Debug, PartialEq, Eq)]
pub enum Former {
    /// Of functions.
    Pi,
    /// Of pairs.
    Sigma,
}

/// What stands under binders.
#[derive(Clone, Copy)]
pub enum Inner<'a> {
    /// A type, over which the binders form one.
    Family(Former, Sort, &'a Code),
    /// A body to be inferred, over which they form a function.
    Function(&'a Code),
    /// A definition: its type, and its body.
    Definition(&'a CodeDef),
}

/// What is formed over a variable.
#[derive(Clone, Copy, Debug, PartialEq, Eq)]
pub enum Closing {
    /// A type of functions or pairs.
    Family(Former, Sort),
    /// A function, whose body was inferred last.
    Function,
    /// The type and the body of a definition.
    Definition,
}

impl Inner<'_> {
    /// How the types of the binders are taken.
    pub fn sort(self) -> Sort
        ensures { result ≡ sort_of self.entry }
    {
        match self {
            Inner::Family(_, sort, _) => sort,
            Inner::Function(_) => Sort::Large,
            Inner::Definition(_) => Sort::Large,
        }
    }

    /// What it becomes over a variable.
    pub fn closing(self) -> Closing
        ensures { result ≡ closing_of self.entry }
    {
        match self {
            Inner::Family(former, sort, _) => Closing::Family(former, sort),
            Inner::Function(_) => Closing::Function,
            Inner::Definition(_) => Closing::Definition,
        }
    }
}

/// Something to be done at the place. What is found stands on two stacks: typings, and terms that
/// were inferred with their types.
#[derive(Clone, Copy)]
pub enum Task<'a> {
    /// To infer a code.
    Infer(&'a Code),
    /// To check a code at a type of the place.
    Check(&'a Code, TypeAt),
    /// To take a code as a type, or to check it at the universe.
    Form(&'a Code, Sort),
    /// Of definitions.
    Defining(Defining<'a>),
    /// Of types of functions and pairs, and of functions.
    Binding(Binding<'a>),
    /// Of pairs and paths against types.
    Pairing(Pairing<'a>),
    /// Of heads, which were inferred last.
    Eliminating(Eliminating<'a>),
    /// Of a recursion.
    Recurring(Recurring<'a>),
    /// Of lines, types of paths, and transports.
    Lining(Lining<'a>),
    /// Of terms that were inferred last.
    Comparing(Comparing),
}

/// Of definitions.
#[derive(Clone, Copy)]
pub enum Defining<'a> {
    /// To check definitions, which are known from then on.
    Block(&'a [CodeDef]),
    /// To check a body at the type that was found last.
    Body(&'a Code),
    /// To state the definition of this number, whose type and body were found last.
    Close(u32),
    /// To forget so many definitions.
    End(usize),
}

/// Of types of functions and pairs, and of functions.
#[derive(Clone, Copy)]
pub enum Binding<'a> {
    /// What stands under binders, and then what they form of it.
    Under(&'a [Binder], Inner<'a>),
    /// The same, under so many variables of the type that was found last before the binders.
    Over(usize, &'a [Binder], Inner<'a>),
    /// To form it over the last variable.
    Close(Closing),
    /// To check a function of these binders at a type.
    Lambda(&'a [Binder], &'a Code, TypeAt),
    /// The same, of so many variables of the type that was found last before the binders.
    Take(usize, &'a [Binder], &'a Code, TypeAt),
    /// To form a function of the last variable.
    CloseFunction,
}

/// Of pairs and paths against types.
#[derive(Clone, Copy)]
pub enum Pairing<'a> {
    /// Components against a type: the last at what is left of it.
    Components(&'a [Code], TypeAt),
    /// The other components, where the first was found last.
    Second(&'a [Code], Family),
    /// The pair of the two components that were found last.
    Pair(Family),
    /// A body under so many names.
    Names(usize, &'a Code, TypeAt),
    /// To form a path over the last name.
    CloseName(TypeAt),
}

/// Of heads, which were inferred last.
#[derive(Clone, Copy)]
pub enum Eliminating<'a> {
    /// What a head is applied to.
    Elements(&'a [Element]),
    /// To apply a head to the argument that was found last.
    Apply(Family),
    /// Projections of a pair.
    Project(&'a [Projection]),
    /// To check a number.
    Number(&'a Code),
    /// The successor of the number that was found last.
    Successor,
}

/// Of a recursion.
#[derive(Clone, Copy)]
pub enum Recurring<'a> {
    /// To form the motive, under a number.
    Motive(&'a Opened),
    /// To go under a number.
    EnterNumber,
    /// A family of numbers that was inferred last, at a new number.
    FamilyOfNumbers,
    /// To check the base, where the motive was found last.
    Base(&'a Code),
    /// To check the step, where the motive and the base were found last.
    Step(&'a Code),
    /// The recursion of the motive, the base, the step and the number that were found last.
    Close,
}

/// Of lines, types of paths, and transports.
#[derive(Clone, Copy)]
pub enum Lining<'a> {
    /// To form a line, under a name.
    Line(&'a Opened, Sort),
    /// To go under a name.
    EnterName,
    /// To leave the last variable or name.
    Leave,
    /// A path of types that was inferred last, at a new name.
    PathInUniverse(Sort),
    /// To check a code at the start of the line that was found last.
    Left(&'a Code, Sort),
    /// To check a code at the end of the line that was found before the left end.
    Right(&'a Code, Sort),
    /// The type of paths over the line and between the ends that were found last.
    ClosePath(Sort),
    /// To transport the base that was found last.
    Transport,
}

/// Of terms that were inferred last.
#[derive(Clone, Copy)]
pub enum Comparing {
    /// It has this type.
    At(TypeAt),
    /// It is of the universe: a type.
    IsSmall,
    /// A term of the universe that was found last, as one that was inferred.
    Small,
}

/// How a step ended.
#[derive(Clone, Copy, Debug, PartialEq, Eq)]
pub enum Next {
    /// The task is done, or others are planned for it.
    Moved,
    /// What is looked at is not direct.
    NotDirect,
}

/// What is to be done, the first task last.
#[derive(Drop)]
pub struct Tasks<'a> {
    /// The tasks that are left.
    pub items: Vec<Task<'a>>,
}

impl<'a> Tasks<'a> {
    /// Nothing is to be done.
    pub fn new(alloc: Global) -> Tasks<'a>
        ensures { result.items.items ≡ [] }
    {
        Tasks {
            items: Vec::new(alloc),
        }
    }

    /// To do these first, in order.
    pub fn plan(&mut self, tasks: &[Task<'a>]) -> Result<Next, AllocError>
        ensures { IfOk result (λ next. (next ≡ Moved)
            × (self.new.items.items ≡ self.old.items.items ++ reverse tasks.now)) }
    {
        let mut left = tasks;
        while let [before @ .., last] = left {
            self.items.push(*last)?;
            left = before;
        }
        Ok(Next::Moved)
    }
}
