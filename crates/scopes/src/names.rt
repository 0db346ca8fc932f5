//! The names that are in scope at a place.

ghost use Rattle.std.specs.Prelude.{◌≡◌, ◌-◌, [], ◌∷◌, drop, length, OnErr, OnOk};
ghost use Rattle.translation.specs.Names.{built_in_name};
ghost use Rattle.scopes.specs.Finding.{find, outermost};

use indexmap::IndexMap;
use std::alloc::{AllocError, Global};
use std::marker::Model;
use translation::BuiltIn;

/// What a name is bound as.
#[derive(Clone, Copy, Debug, PartialEq, Eq)]
pub enum Binding {
    Variable,
    /// A name of the interval.
    Interval,
    /// A definition, of this number.
    Definition(u32),
}

/// What a name stands for at a place. Variables and names of the interval are given by index.
#[derive(Clone, Copy, Debug, PartialEq, Eq)]
pub enum Found {
    Variable(u32),
    Interval(u32),
    Definition(u32),
    BuiltIn(BuiltIn),
    Nothing,
}

/// A binding, with the number of variables and names of the interval that are bound outside it.
#[derive(Clone, Copy, Debug, PartialEq, Eq)]
pub(crate) struct Bound {
    pub(crate) binding: Binding,
    pub(crate) level: u32,
}

/// A bound name, with the binding that it hides.
#[derive(Clone, Copy, Drop)]
pub(crate) struct Entry<'a> {
    pub(crate) name: &'a [u8],
    pub(crate) bound: Bound,
    pub(crate) hidden: Option<Bound>,
}

/// The names in scope, the newest first.
#[derive(Drop)]
pub(crate) struct Names<'a> {
    /// The newest binding of each name that was ever bound.
    newest: IndexMap<&'a [u8], Option<Bound>>,
    /// The names in scope, the newest last.
    entries: Vec<Entry<'a>>,
    /// How many variables and names of the interval are bound.
    depth: u32,
}

impl<'a> Model for Names<'a> {
    ghost use Rattle.std.specs.Prelude.{◌≡◌, List, map, reverse, nat_eq};
    ghost use Rattle.std.specs.Cmp.Lexicographic.{pointwise};
    ghost use Rattle.std.specs.Option.{option_flatten};
    ghost use Rattle.indexmap.specs.IndexMap.{get};
    ghost use Rattle.scopes.specs.Finding.{Named};
    ghost use Rattle.scopes.specs.Linked.{named, depth_of, newest as newest_of, IsLinked};

    ghost Value = { List Named };

    ghost view = { λ n. map named (reverse n.entries.items) };

    ghost invariant = { λ n.
        (n.depth ≡ depth_of (reverse n.entries.items))
        × IsLinked (reverse n.entries.items)
        × ((x : _) → option_flatten (get (λ x y. pointwise nat_eq x.now y.now) n.newest x)
        ≡ newest_of (reverse n.entries.items) x.now) };
}

fn built_in(name: &[u8]) -> Found
    ensures { result ≡ outermost (built_in_name name.now) }
{
    if name == b"nat".as_slice() {
        return Found::BuiltIn(BuiltIn::Nat);
    }
    if name == b"zero".as_slice() {
        return Found::BuiltIn(BuiltIn::Zero);
    }
    if name == b"suc".as_slice() {
        return Found::BuiltIn(BuiltIn::Suc);
    }
    if name == b"natrec".as_slice() {
        return Found::BuiltIn(BuiltIn::NatRec);
    }
    Found::Nothing
}

impl<'a> Names<'a> {
    /// No names but the built-in ones, which takes no memory.
    pub(crate) fn new(alloc: Global) -> Names<'a>
        ensures { result ≡ [] }
    {
        Names {
            newest: IndexMap::new(alloc),
            entries: Vec::new(alloc),
            depth: 0,
        }
    }

    /// A mark to which the names can be cut back.
    pub(crate) fn mark(&self) -> usize
        ensures { result ≡ length self.now }
    {
        self.entries.len()
    }

    /// Binds a name, which hides an older one.
    pub(crate) fn bind(&mut self, name: &'a [u8], binding: Binding) -> Result<(), AllocError>
        ensures ok { OnOk result
            (self.new ≡ record { word = name.now; binding = binding } ∷ self.old) }
        ensures err { OnErr result (self.new ≡ self.old) }
    {
        let bound = Bound {
            binding,
            level: self.depth,
        };
        let depth = match binding {
            Binding::Definition(_) => self.depth,
            _ => self.depth.checked_add(1).ok_or(AllocError)?,
        };
        self.entries.reserve(1)?;
        let hidden = match self.newest.insert(name, Some(bound)) {
            Ok(older) => older.flatten(),
            Err(_) => return Err(AllocError),
        };
        self.entries.push_reserved(Entry {
            name,
            bound,
            hidden,
        });
        self.depth = depth;
        Ok(())
    }

    /// Takes away the names that were bound after the mark.
    pub(crate) fn cut(&mut self, mark: usize)
        ensures { self.new ≡ drop (length self.old - mark) self.old }
    {
        while self.mark() > mark {
            self.unbind();
        }
    }

    /// Takes away the newest name.
    fn unbind(&mut self)
        ensures { self.new ≡ drop 1 self.old }
    {
        let Some(entry) = self.entries.pop() else {
            return;
        };
        self.depth = entry.bound.level;
        if let Some(newest) = self.newest.get_mut(entry.name) {
            *newest = entry.hidden;
        }
    }

    /// What a name stands for.
    pub(crate) fn find(&self, name: &[u8]) -> Found
        ensures { result ≡ find self.now name.now }
    {
        if name == b"_".as_slice() {
            return Found::Nothing;
        }
        let Some(bound) = self.newest.get(name).copied().flatten() else {
            return built_in(name);
        };
        match bound.binding {
            Binding::Variable => Found::Variable(self.depth - 1 - bound.level),
            Binding::Interval => Found::Interval(self.depth - 1 - bound.level),
            Binding::Definition(number) => Found::Definition(number),
        }
    }
}
