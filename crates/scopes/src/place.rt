//! What is known at a place of a text.

ghost use Rattle.std.specs.Prelude.{◌≡◌, ◌+◌, ◌-◌, ◌<◌, [], length, drop, reverse, map, Some, None};
ghost use Rattle.std.specs.Prelude.{IfOk, OnErr, OnOk};
ghost use Rattle.translation.specs.Translated.{earlier};
ghost use Rattle.scopes.specs.Finding.{find};
ghost use Rattle.scopes.specs.Steps.{bound_to, named_of};

use crate::names::{Binding, Found, Names};
use crate::scope::Scope;
use std::alloc::{AllocError, Global};
use std::marker::Model;
use translation::{Cause, Refusal, earlier};

/// A place of a text, up to which it is resolved: the names in scope, the number of the next
/// definition, and the refusal that is named so far.
#[derive(Drop)]
pub struct Place<'a> {
    names: Names<'a>,
    next: u32,
    refusal: Option<Refusal>,
}

impl<'a> Model for Place<'a> {
    ghost use Rattle.scopes.specs.Steps.{State};

    ghost Value = { State };

    ghost view = { λ p.
        record { names = p.names; so_far = record { next = p.next; refusal = p.refusal } } };
}

impl<'a> Place<'a> {
    /// The beginning of a text, in a scope.
    pub fn new(alloc: Global, scope: &'a Scope) -> Result<Place<'a>, AllocError>
        ensures { IfOk result (λ p. p ≡ record {
          names = map named_of (reverse scope.now.names);
          so_far = record { next = scope.now.next; refusal = None };
        }) }
    {
        let mut names = Names::new(alloc);
        for name in scope.names.as_slice() {
            names.bind(name.name.as_bytes(), Binding::Definition(name.def))?;
        }
        Ok(Place {
            names,
            next: scope.next,
            refusal: None,
        })
    }

    /// A mark to which the names can be cut back.
    pub fn mark(&self) -> usize
        ensures { result ≡ length self.now.names }
    {
        self.names.mark()
    }

    /// Binds a name, which hides an older one.
    pub fn bind(&mut self, name: &'a [u8], binding: Binding) -> Result<(), AllocError>
        ensures ok { OnOk result (self.new ≡ bound_to self.old name.now binding) }
        ensures err { OnErr result (self.new ≡ self.old) }
    {
        self.names.bind(name, binding)
    }

    /// Takes away the names that were bound after the mark.
    pub fn cut(&mut self, mark: usize)
        ensures { self.new ≡ record self.old {
          names = drop (length self.old.names - mark) self.old.names;
        } }
    {
        self.names.cut(mark);
    }

    /// What a name stands for.
    pub fn find(&self, name: &[u8]) -> Found
        ensures { result ≡ find self.now.names name.now }
    {
        self.names.find(name)
    }

    /// Notes what is wrong at a place.
    pub fn refuse(&mut self, at: u32, cause: Cause)
        ensures { self.new ≡ record self.old {
          so_far = record self.old.so_far {
            refusal = earlier self.old.so_far.refusal (Some (record { at = at; cause = cause }));
          };
        } }
    {
        self.refusal = earlier(self.refusal, Some(Refusal { at, cause }));
    }

    /// Takes the number of the next definition. There are less than 2^32.
    pub fn take_number(&mut self) -> Result<u32, AllocError>
        ensures ok { IfOk result (λ n. (n ≡ self.old.so_far.next)
            × (self.new ≡ record self.old { so_far = record self.old.so_far { next = n + 1 } })) }
        ensures err { OnErr result (self.new ≡ self.old) }
    {
        let number = self.next;
        self.next = number.checked_add(1).ok_or(AllocError)?;
        Ok(number)
    }

    /// The number of the next definition.
    pub fn next(&self) -> u32
        ensures { result ≡ self.now.so_far.next }
    {
        self.next
    }

    /// The refusal that is named.
    pub fn refusal(&self) -> Option<Refusal>
        ensures { result ≡ self.now.so_far.refusal }
    {
        self.refusal
    }
}
