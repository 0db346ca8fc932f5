//! What texts determine. A shape is a resolved text without where its parts lie in memory: codes of
//! one shape mean the same, and one is direct where the other is.
//!
//! ```text
//! directness_is_of_shapes();
//! // definitions of one shape: the first that is not direct stands at the same place in both
//! ```
#![tactic(auto)]

ghost use Rattle.std.specs.Prelude.{List, [], map, ◌++◌, ◌≡◌, ℕ};
ghost use Rattle.layout_lexer.specs.declared.token.Span.{Span};
ghost use Rattle.syntax.specs.Tree as text;
ghost use Rattle.codes.specs.declared.code.Code.{Code};
ghost use Rattle.codes.specs.declared.code.CodeDef.{CodeDef};
ghost use Rattle.translation.specs.Scopes.{Scope};
ghost use Rattle.codes.specs.Codes.{definitions, meaning};
ghost use Rattle.codes.specs.Shapes.{Shape, Shapes, def_shape, listed, shape};
ghost use Rattle.scopes.specs.Finding.{Named};
ghost use Rattle.direct.specs.Known.{Known};
ghost use Rattle.direct.specs.Direct.{def_typing, other_place, typing};
ghost use Rattle.module_texts.specs.Texts.{Text};
ghost use Rattle.resolved_forms.specs.Shaped.{Become, BecomeSides, Becomes, Scoping, Stand};
ghost use Rattle.resolver.specs.declared.resolving.Codes.{Codes};
ghost use Rattle.resolver.specs.Resolved.{defs_in};
ghost use Rattle.linking.specs.Linked.{IsLinked};
ghost use Rattle.text_laws.specs.Numbers.{numbers_before, numbers_in};

/// A law, and no code: codes of one shape mean the same and are typed the same; definitions of one
/// shape are direct after the same, and leave the same to be known; and of lists of such
/// definitions the first that is not direct stands at the same place.
pub fn directness_is_of_shapes()
    ensures meanings { (a b : Code) → shape a ≡ shape b → meaning a ≡ meaning b }
    ensures typings { (a b : Code) → shape a ≡ shape b → typing a ≡ typing b }
    ensures definitions { (c d : CodeDef) → def_shape c ≡ def_shape d
        → def_typing c ≡ def_typing d }
    ensures places { (cs ds : List CodeDef) (G : Known) → listed def_shape cs ≡ listed def_shape ds
        → other_place cs G ≡ other_place ds G }
{}

/// A law, and no code: among the same names a text becomes one code, but for the numbers of the
/// definitions in it. Where the numbers of two are those of the one list, in order, the codes are
/// one, and so is what is left of the list.
pub fn a_text_has_one_code()
    ensures code { (bytes : List ℕ) (e : text.Tree) (names : List Named) (at : Stand)
        (c d : Shape) (r s : List ℕ) → Becomes bytes e names at c → Becomes bytes e names at d
        → numbers_before c r ≡ numbers_before d s → (c ≡ d) × (r ≡ s) }
    ensures codes { (bytes : List ℕ) (es : text.Trees) (names : List Named) (step : Scoping)
        (cs ds : Shapes) (r s : List ℕ) → Become bytes step es names cs
        → Become bytes step es names ds
        → numbers_in cs r ≡ numbers_in ds s → (cs ≡ ds) × (r ≡ s) }
    ensures sides { (bytes : List ℕ) (es : text.Trees) (names : List Named) (at : Span → Stand)
        (cs ds : Shapes) (r s : List ℕ) → BecomeSides bytes at es names cs
        → BecomeSides bytes at es names ds
        → numbers_in cs r ≡ numbers_in ds s → (cs ≡ ds) × (r ≡ s) }
{}

/// A law, and no code: the numbers of a shape are those of the definitions that a code of it holds,
/// in the order in which they are stated.
pub fn numbers_are_of_shapes()
    ensures code { (c : Code) (G : Scope ℕ) (r : List ℕ) →
        map (λ d. d.name) (meaning c G).stated ++ r ≡ numbers_before (shape c) r }
    ensures definitions { (ds : List CodeDef) (G : Scope ℕ) (r : List ℕ) →
        map (λ d. d.name) (definitions ds G).stated ++ r ≡ numbers_in (listed def_shape ds) r }
{}

/// A law, and no code: whichever codes the definitions of modules become, they are one but for
/// where their parts lie in memory, and the first that is not direct stands at the same place.
pub fn texts_determine_directness()
    ensures codes { (texts : List Text) (a b : Codes) → IsLinked texts a → IsLinked texts b
        → listed def_shape (defs_in a) ≡ listed def_shape (defs_in b) }
    ensures places { (texts : List Text) (a b : Codes) (G : Known) → IsLinked texts a
        → IsLinked texts b → other_place (defs_in a) G ≡ other_place (defs_in b) G }
{}
