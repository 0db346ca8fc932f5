//! Texts, with the judgements that they spell.

use crate::shown::{claims_shown, tree_shown};
use grammar::read;
use judgement_rows::{claims_of, term_of};
use layout_lexer::tokens;
use resolver::{Codes, Scope, ScopeNames, resolve};
use rows::RowStore;
use std::alloc::{AllocError, Global};
use std::process::Abort;
use std::test::Fail;

/// The definitions of a module, and their judgements, one a line.
type Row = (&'static str, &'static str);

/// The codes of definitions, or why there are none.
fn codes_of(alloc: Global, defs: &str) -> Result<Result<Codes, &'static str>, AllocError> {
    let text = format!(in alloc; "module M where\n{defs}\n")?;
    let bytes = text.as_bytes();
    let Ok(tokens) = tokens(alloc, bytes) else {
        return Ok(Err("no tokens"));
    };
    let Ok(module) = read(alloc, bytes, &tokens) else {
        return Ok(Err("not read"));
    };
    let scope = Scope {
        names: ScopeNames::new(alloc),
        next: 0,
    };
    let Ok(codes) = resolve(alloc, bytes, &module, &scope) else {
        return Ok(Err("not resolved"));
    };
    Ok(Ok(codes))
}

fn judged(alloc: Global, defs: &str) -> Result<String, AllocError> {
    let codes = match codes_of(alloc, defs)? {
        Ok(codes) => codes,
        Err(why) => return String::from_str(alloc, why),
    };
    let mut rows = RowStore::new(alloc);
    let claims = claims_of(alloc, &mut rows, codes.as_slice())?;
    claims_shown(alloc, &rows, &claims)
}

/// What the body of the last definition spells after the others.
fn spelt(alloc: Global, defs: &str) -> Result<String, AllocError> {
    let codes = match codes_of(alloc, defs)? {
        Ok(codes) => codes,
        Err(why) => return String::from_str(alloc, why),
    };
    let [before @ .., last] = codes.as_slice() else {
        return String::from_str(alloc, "no definition");
    };
    let mut rows = RowStore::new(alloc);
    let row = term_of(alloc, &mut rows, before, &last.body)?;
    tree_shown(alloc, &rows, row)
}

const TERMS: [Row; 3] = [
    (
        "id (A : U) (x : A) : A = x\nt : nat = id nat zero",
        "(app (app (lam U (lam #0 #0)) nat) zero)",
    ),
    (
        "N : U = nat\nM : U = U\nt : U = (x : N) -> N",
        "(pi nat nat[1])",
    ),
    // a definition of its own
    (
        "N : U = nat\nt : U = let M : U = N in (x : M) -> U",
        "(pi nat U)",
    ),
];

const ROWS: [Row; 20] = [
    // binders: the second type stands under the first variable
    (
        "id (A : U) (x : A) : A = x",
        "[] >> (pi U (pi #0 #1))\n[] >> (lam U (lam #0 #0)) : (pi U (pi #0 #1))\n",
    ),
    (
        "first (A B : U) : U = A",
        "[] >> (pi U (pi U[1] U))\n[] >> (lam U (lam U[1] #1)) : (pi U (pi U[1] U))\n",
    ),
    // a definition that is used: where it stands, and under two variables
    (
        "N : U = nat\nM : U = N\nL (x y : N) : U = N",
        "[] >> U\n[] >> nat : U\n[] >> U\n[] >> nat : U\n\
         [] >> (pi nat (pi nat[1] U))\n\
         [] >> (lam nat (lam nat[1] nat[2])) : (pi nat (pi nat[1] U))\n",
    ),
    // a local definition is stated first, in its context, and is used two variables further in
    (
        "f (A : U) : U = let B : U = A in (x : B) -> B",
        "[] : U >> U\n[] : U >> #0 : U\n\
         [] >> (pi U U)\n[] >> (lam U (pi #0 #0[1])) : (pi U U)\n",
    ),
    (
        "f (A : U) : U = B\n  where\n    B : U = A",
        "[] : U >> U\n[] : U >> #0 : U\n[] >> (pi U U)\n[] >> (lam U #0) : (pi U U)\n",
    ),
    // two blocks, one after the other
    (
        "f : U = (x : let B : U = nat in B) -> (y : let C : U = U in C) -> U",
        "[] >> U\n[] >> nat : U\n\
         [] : nat >> U\n[] : nat >> U : U\n\
         [] >> U\n[] >> (pi nat (pi U U)) : U\n",
    ),
    // names and faces of the context
    (
        "f (A : U) : PathP (<i> U) A A = <i> let B : U = A in B",
        "[] : U . i >> U\n[] : U . i >> #1 : U\n\
         [] >> (pi U (pathp U #0 #0))\n\
         [] >> (lam U (plam #1)) : (pi U (pathp U #0 #0))\n",
    ),
    (
        "f (A : U) : PathP (<i> U) A A = <i> comp (<j> U) A [ (i=0) -> let B : U = A in <j> B ]",
        "[] : U . i | (eq0 #0) >> U\n[] : U . i | (eq0 #0) >> #1 : U\n\
         [] >> (pi U (pathp U #0 #0))\n\
         [] >> (lam U (plam (comp U (join (eq0 #0) f0) \
         (sys (eq0 #0)[1] f0 (papp (plam #1[1])[1] #0) empty) #1))) : (pi U (pathp U #0 #0))\n",
    ),
    // lines that are opened, and lines that are applied
    (
        "f (A : PathP (<i> U) nat nat) : U = PathP A zero zero",
        "[] >> (pi (pathp U nat nat) U)\n\
         [] >> (lam (pathp U nat nat) (pathp (papp #0[1] #0) zero zero)) : \
         (pi (pathp U nat nat) U)\n",
    ),
    (
        "f : U = nat\ng : PathP (<i j> f) zero zero = <i j> f",
        "[] >> U\n[] >> nat : U\n\
         [] >> (pathp (plam nat[2]) zero zero)\n\
         [] >> (plam (plam nat[2])) : (pathp (plam nat[2]) zero zero)\n",
    ),
    // motives
    (
        "f (n : nat) : nat = natrec (\\(x : nat) -> nat) zero (\\(x y : nat) -> suc x) n",
        "[] >> (pi nat nat)\n\
         [] >> (lam nat (natrec nat zero (lam nat (lam nat[1] (suc #1))) #0)) : (pi nat nat)\n",
    ),
    (
        "f (P : nat -> U) (n : nat) : U = natrec P zero zero n",
        "[] >> (pi (pi nat U) (pi nat U))\n\
         [] >> (lam (pi nat U) (lam nat (natrec (app #1[1] #0) zero zero #0))) : \
         (pi (pi nat U) (pi nat U))\n",
    ),
    // what is applied, and to what
    (
        "f (x y : U) (p : PathP (<i> U) x y) : PathP (<i> U) x x = <i> p @ (i /\\ -i) \\/ 0",
        "[] >> (pi U (pi U[1] (pi (pathp U #1 #0) (pathp U #2 #2))))\n\
         [] >> (lam U (lam U[1] (lam (pathp U #1 #0) \
         (plam (papp #1 (max (min #0 (neg #0)) i0)))))) : \
         (pi U (pi U[1] (pi (pathp U #1 #0) (pathp U #2 #2))))\n",
    ),
    // pairs
    (
        "f (A : U) : (x : A) * (y : A) * U = (A, A, U)",
        "[] >> (pi U (sig #0 (sig #1 U)))\n\
         [] >> (lam U (pair #0 (pair #0 U))) : (pi U (sig #0 (sig #1 U)))\n",
    ),
    (
        "f (c : (x : U) * (y : U) * U) : U = c.2.1",
        "[] >> (pi (sig U (sig U U)) U)\n\
         [] >> (lam (sig U (sig U U)) (fst (snd #0))) : (pi (sig U (sig U U)) U)\n",
    ),
    // compositions
    (
        "f (A : U) : U = comp (<i> U) A []",
        "[] >> (pi U U)\n[] >> (lam U (comp U f0 empty #0)) : (pi U U)\n",
    ),
    (
        "f (A : U) : U = transport (<i> U) A",
        "[] >> (pi U U)\n[] >> (lam U (comp U f0 empty #0)) : (pi U U)\n",
    ),
    (
        "f (A : U) : PathP (<i> U) A A = <i> comp (<j> U) A [ (i=0) -> <j> A, (i=1) -> <j> U ]",
        "[] >> (pi U (pathp U #0 #0))\n\
         [] >> (lam U (plam (comp U (join (eq0 #0) (join (eq1 #0) f0)) \
         (sys (eq0 #0)[1] (join (eq1 #0)[1] f0) #2 (sys (eq1 #0)[1] f0 U empty)) #1))) : \
         (pi U (pathp U #0 #0))\n",
    ),
    // filling
    (
        "f (A : U) : PathP (<i> U) A A = fill (<i> U) A []",
        "[] >> (pi U (pathp U #0 #0))\n\
         [] >> (lam U (plam (comp U[2, (min #1 #0)] (join f0[1] (join (eq0 #0) f0)) \
         (sys f0[2] (join (eq0 #1) f0) empty[2, (min #1 #0)] (sys (eq0 #1) f0 #0[2] empty)) \
         #0[1]))) : (pi U (pathp U #0 #0))\n",
    ),
    // glueing
    (
        "f (A T w : U) : PathP (<i> U) A A = <i> Glue A [ (i=0) -> (T, w), (i=1) -> (A, w) ]",
        "[] >> (pi U (pi U[1] (pi U[1][1] (pathp U #2 #2))))\n\
         [] >> (lam U (lam U[1] (lam U[1][1] (plam (Glue #3 (join (eq0 #0) (join (eq1 #0) f0)) \
         (sys (eq0 #0) (join (eq1 #0) f0) #2 (sys (eq1 #0) f0 #3 empty)) \
         (sys (eq0 #0) (join (eq1 #0) f0) #1 (sys (eq1 #0) f0 #1 empty))))))) : \
         (pi U (pi U[1] (pi U[1][1] (pathp U #2 #2))))\n",
    ),
];

fn are_judged(rt: &impl Abort, alloc: Global, rows: &[Row]) -> Result<(), Fail> {
    for (text, wanted) in rows {
        let found = judged(alloc, text)?;
        assert_eq!(rt; found.as_str(), *wanted, "of {text:?}");
    }
    Ok(())
}

#[test]
fn bodies_are_spelt_after_definitions(rt: HostRuntime) -> Result<(), Fail> {
    for (text, wanted) in &TERMS {
        let found = spelt(rt.alloc(), text)?;
        assert_eq!(&rt; found.as_str(), *wanted, "of {text:?}");
    }
    Ok(())
}

#[test]
fn texts_spell_their_judgements(rt: HostRuntime) -> Result<(), Fail> {
    are_judged(&rt, rt.alloc(), &ROWS)
}
