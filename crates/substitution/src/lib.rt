//! The laws of substitution, for trees over any table of operators.
//!
//! Nothing here runs. The lemmas stand in `proofs/`, a public one for each law, named by the left
//! side of its equation; the functions below have them as their contracts, so that a check of this
//! crate proves each.
//!
//! ```text
//! apply_apply      A[d][e] is A[d then e]
//! at_weaken        A+{a} is A
//! apply_at         A{a}[d] is A[lift d]{a[d]}
//! ```
#![tactic(auto)]

ghost use Rattle.std.specs.Prelude.{◌≡◌, ℕ, suc, ◌+◌, ◌-◌, ◌*◌, ◌^◌, ◌<◌, ◌≤◌, List};
ghost use Rattle.std.specs.Prelude.{[], ◌∷◌, ◌++◌, length, map, Some, option_map};
ghost use Rattle.std.specs.List.{All};
ghost use Rattle.trees.specs.declared.op.Op.{Op};
ghost use Rattle.trees.specs.Operators.{binds_of};
ghost use Rattle.trees.specs.Trees.{Tree, Trees, Subst, Var, Make, raise, apply_under};
ghost use Rattle.trees.specs.Trees.{apply, shift_by, push, then, id, up};
ghost use Rattle.trees.specs.Judgements.{trees};
ghost use Rattle.substitution.specs.Forms.{at, weaken, lift, lift_by, drop};
ghost use Rattle.trees.specs.Trees.{count_of};
ghost use Rattle.substitution.specs.Action.{look, ActAlike};
ghost use Rattle.trees.specs.Trees.{greatest_shift};
ghost use Rattle.substitution.specs.Shifts.{then_all};
ghost use Rattle.substitution.specs.Delayed.{Delayed, at_depth, here, closed};
ghost use Rattle.substitution.specs.Delayed.{deeper, closed_kids, kid_at};

/// A substitution does to a tree what it does to the tree's indices, and one after another is one.
pub fn laws_of_apply()
    ensures apply_id { (t : Tree) → apply t id ≡ t }
    ensures apply_apply { (t : Tree) (d e : Subst) → apply (apply t d) e ≡ apply t (then d e) }
    ensures apply_shift_by { (t : Tree) (n : ℕ) → apply t (shift_by n) ≡ raise t 0 n }
    ensures look_then { (d e : Subst) (k : ℕ) → look (then d e) k ≡ apply (look d k) e }
    ensures look_decides { (d e : Subst) → ((k : ℕ) → look d k ≡ look e k) → ActAlike d e }
{}

/// Equations of substitutions: one list and one shift on both sides.
pub fn laws_of_then()
    ensures then_assoc { (d e f : Subst) → then (then d e) f ≡ then d (then e f) }
    ensures id_then { (d : Subst) → then id d ≡ d }
    ensures then_id { (d : Subst) → then d id ≡ d }
    ensures push_then { (d e : Subst) (a : Tree) → then (push d a) e ≡ push (then d e) (apply a e) }
    ensures up_then_push { (d : Subst) (a : Tree) → then up (push d a) ≡ d }
    ensures shift_by_then_push { (n : ℕ) (d : Subst) (a : Tree) →
        then (shift_by (suc n)) (push d a) ≡ then (shift_by n) d }
    ensures shift_by_then_shift_by { (n m : ℕ) → then (shift_by n) (shift_by m) ≡ shift_by (n + m) }
    ensures drop_drop { (n m : ℕ) (d : Subst) →
        drop trees n (drop trees m d) ≡ drop trees (n + m) d }
    ensures lift_then { (d e : Subst) → lift trees (then d e) ≡ then (lift trees d) (lift trees e) }
    ensures lift_then_push { (d e : Subst) (a : Tree) →
        then (lift trees d) (push e a) ≡ push (then d e) a }
{}

/// Substitutions that do the same to every tree, whether or not their lists and shifts are the
/// same.
pub fn laws_of_action()
    ensures push_up { ActAlike (push up (Var 0)) id }
    ensures push_up_is_not_id { push up (Var 0) ≡ id → ⊥ }
    ensures push_shift_by { (n : ℕ) → ActAlike (push (shift_by (suc n)) (Var n)) (shift_by n) }
    ensures push_drop { (n : ℕ) (d : Subst) →
        ActAlike (push (drop trees (suc n) d) (look d n)) (drop trees n d) }
    ensures of_then { (c d e f : Subst) → ActAlike c d →
        ActAlike e f → ActAlike (then c e) (then d f) }
    ensures of_push { (d e : Subst) (a : Tree) → ActAlike d e → ActAlike (push d a) (push e a) }
    ensures of_lift { (d e : Subst) → ActAlike d e → ActAlike (lift trees d) (lift trees e) }
{}

/// Substitution under binders: instances, weakening and lifting.
pub fn laws_under_binders()
    ensures apply_at { (t a : Tree) (d : Subst) →
        apply (at trees t a) d ≡ at trees (apply t (lift trees d)) (apply a d) }
    ensures at_apply_lift { (t a : Tree) (d : Subst) →
        at trees (apply t (lift trees d)) a ≡ apply t (push d a) }
    ensures apply_weaken { (t a : Tree) (d : Subst) →
        apply (weaken trees t) (push d a) ≡ apply t d }
    ensures at_weaken { (t a : Tree) → at trees (weaken trees t) a ≡ t }
    ensures weaken_apply { (t : Tree) (d : Subst) →
        weaken trees (apply t d) ≡ apply (weaken trees t) (lift trees d) }
    ensures apply_under_lift_by { (t : Tree) (n : ℕ) (d : Subst) →
        apply_under t n d ≡ apply t (lift_by trees n d) }
    ensures apply_under_apply_under { (t : Tree) (n : ℕ) (d e : Subst) →
        apply_under (apply_under t n d) n e ≡ apply_under t n (then d e) }
    ensures apply_under_shift_by { (t : Tree) (n m : ℕ) →
        apply_under t n (shift_by m) ≡ raise t n m }
{}

/// Raising, which is weakening under binders. A substitution leaves what was raised past it.
pub fn laws_of_raise()
    ensures raise_zero { (t : Tree) (from : ℕ) → raise t from 0 ≡ t }
    ensures raise_raise { (t : Tree) (from a b : ℕ) →
        raise (raise t from a) from b ≡ raise t from (a + b) }
    ensures raise_raise_above { (t : Tree) (i m j n : ℕ) →
        raise (raise t i m) (i + m + j) n ≡ raise (raise t (i + j) n) i m }
    ensures apply_under_raise { (t : Tree) (c n m : ℕ) (d : Subst) →
        apply_under (raise t c n) (n + m + c) d ≡ raise (apply_under t (m + c) d) c n }
    ensures apply_under_raise_past { (t : Tree) (n m : ℕ) (d : Subst) →
        apply_under (raise t n (m + count_of d.pushed)) n d ≡ raise t n (m + d.shift) }
{}

/// What an index becomes: kept by the binders above, or what the substitution makes of it, raised
/// past them.
pub fn laws_of_indices()
    ensures below { (n : ℕ) (d : Subst) (k : ℕ) → k < n → apply_under (Var k) n d ≡ Var k }
    ensures above { (n : ℕ) (d : Subst) (k : ℕ) →
        apply_under (Var (k + n)) n d ≡ raise (look d k) 0 n }
    ensures past { (d : Subst) (k : ℕ) → look d (k + count_of d.pushed) ≡ Var (k + d.shift) }
{}

/// The shift and the number of trees of one substitution after another, and what they grow to.
pub fn bounds_of_shifts()
    ensures shift { (d e : Subst) → (then d e).shift ≡ e.shift + (d.shift - count_of e.pushed) }
    ensures count { (d e : Subst) →
        count_of (then d e).pushed ≡ count_of d.pushed + (count_of e.pushed - d.shift) }

    // The shift of a `then` of two substitutions of files fits 64 bits.
    ensures one { (d e : Subst) → d.shift ≤ greatest_shift →
        e.shift ≤ greatest_shift → (then d e).shift ≤ 2 ^ 63 }

    // An index of 32 bits under fewer than 2 ^ 64 of them fits 128 bits.
    ensures all { (ds : List Subst) (k : ℕ) →
        All (λ d. d.shift ≤ greatest_shift) ds → length ds < 2 ^ 64 →
        k < 2 ^ 32 → k + (then_all ds).shift < 2 ^ 128 }

    // The index with which a walk goes on past an entry, after n entries.
    ensures step { (k n trees shift : ℕ) →
        k ≤ 2 ^ 32 + n * greatest_shift → shift ≤ greatest_shift →
        k - trees + shift ≤ 2 ^ 32 + (n + 1) * greatest_shift }
    ensures fits { (k n : ℕ) → k ≤ 2 ^ 32 + n * greatest_shift → n < 2 ^ 64 → k < 2 ^ 128 }
{}

/// What opens a tree under delayed substitutions by one operator: the operator keeps its head and
/// passes the list to its kids, deeper by what they bind; an instance adds to the list; a variable
/// skips an entry or becomes it.
pub fn laws_of_delayed()
    ensures of_make { (op : Op) (ts : Trees) (env : List Delayed) →
        closed (Make op ts) env ≡ Make op (closed_kids ts op 0 env) }
    ensures of_kid { (ts : Trees) (op : Op) (k : ℕ) (env : List Delayed) →
        kid_at (closed_kids ts op 0 env) k ≡
        option_map (λ t. closed t (deeper (binds_of op k) env)) (kid_at ts k) }
    ensures kids_decide { (ts us : Trees) → ((k : ℕ) → kid_at ts k ≡ kid_at us k) → ts ≡ us }
    ensures of_apply { (t : Tree) (d : Subst) (env : List Delayed) →
        closed (apply t d) env ≡ closed t (here d ∷ env) }
    ensures of_raise { (t : Tree) (n : ℕ) (env : List Delayed) →
        closed (raise t 0 n) env ≡ closed t (here (shift_by n) ∷ env) }
    ensures below { (k : ℕ) (i : Delayed) (env : List Delayed) →
        k < i.depth → closed (Var k) (i ∷ env) ≡ closed (Var k) env }
    ensures pushed { (k : ℕ) (i : Delayed) (env : List Delayed) (a : Tree) →
        i.depth ≤ k → kid_at i.subst.pushed (k - i.depth) ≡ Some a →
        closed (Var k) (i ∷ env) ≡ closed a (here (shift_by i.depth) ∷ env) }
    ensures above { (k : ℕ) (i : Delayed) (env : List Delayed) →
        i.depth ≤ k → closed (Var k) (i ∷ env) ≡
        closed (look i.subst (k - i.depth)) (here (shift_by i.depth) ∷ env) }
    ensures past { (k : ℕ) (i : Delayed) (env : List Delayed) →
        i.depth + count_of i.subst.pushed ≤ k →
        closed (Var k) (i ∷ env) ≡ closed (Var (k - count_of i.subst.pushed + i.subst.shift)) env }
{}

/// A variable under an entry whose substitution is opened by one push, one shift or one `then`.
pub fn laws_of_delayed_by_rows()
    ensures push_here { (n : ℕ) (d : Subst) (a : Tree) (env : List Delayed) →
        closed (Var n) (at_depth n (push d a) ∷ env) ≡ closed a (here (shift_by n) ∷ env) }
    ensures push_next { (k n : ℕ) (d : Subst) (a : Tree) (env : List Delayed) →
        n ≤ k →
        closed (Var (suc k)) (at_depth n (push d a) ∷ env) ≡ closed (Var k) (at_depth n d ∷ env) }
    ensures shift_by { (k n m : ℕ) (env : List Delayed) →
        n ≤ k → closed (Var k) (at_depth n (shift_by m) ∷ env) ≡ closed (Var (k + m)) env }
    ensures one_after_another { (t : Tree) (n : ℕ) (d e : Subst) (env : List Delayed) →
        closed t (at_depth n (then d e) ∷ env) ≡ closed t (at_depth n d ∷ at_depth n e ∷ env) }
    ensures all_at_once { (t : Tree) (ds : List Subst) →
        apply t (then_all ds) ≡ closed t (map here ds) }
{}

/// The list of delayed substitutions itself: met under more binders, raised as a whole, shortened.
pub fn laws_of_lists()
    ensures append { (t : Tree) (env more : List Delayed) →
        closed t (env ++ more) ≡ closed (closed t env) more }
    ensures raised { (t : Tree) (n : ℕ) (env : List Delayed) →
        closed (raise t 0 n) (deeper n env) ≡ raise (closed t env) 0 n }
    ensures raised_last { (t : Tree) (n : ℕ) (env : List Delayed) →
        closed t (env ++ here (shift_by n) ∷ []) ≡ raise (closed t env) 0 n }
    ensures deeper_twice { (a b : ℕ) (env : List Delayed) →
        deeper b (deeper a env) ≡ deeper (a + b) env }
    ensures depth_is_lifting { (t : Tree) (n b : ℕ) (d : Subst) (env : List Delayed) →
        closed t (at_depth (n + b) d ∷ env) ≡ closed t (at_depth b (lift_by trees n d) ∷ env) }
    ensures of_id { (t : Tree) (n : ℕ) (env : List Delayed) →
        closed t (at_depth n id ∷ env) ≡ closed t env }
{}
