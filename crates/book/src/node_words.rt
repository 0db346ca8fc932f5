//! How nodes are coded: the rule, the form of the conclusion, its rows, the parts and the premises.

ghost use Rattle.std.specs.Prelude.{◌≡◌, ◌≤◌, ◌+◌, [], Some, length};
ghost use Rattle.theory.specs.RuleNames.{kinds_of};
ghost use Rattle.trees.specs.Claims.{form_of, rows_of};
ghost use Rattle.book.specs.Nodes.{node_coded, places_of};
ghost use Rattle.book.specs.Coded.{IsWhole, node_from, node_shown};

use interned::Words;
use theory::{Claim, JudgementForm, RuleName, count_parts, numbered_rule, rule_number};

/// The most words of a node.
pub const MOST_NODE_WORDS: usize = 32;

/// The forms of judgements, each at the place that its word says.
static FORMS: [JudgementForm; 6] = [
    JudgementForm::Ctx,
    JudgementForm::Ty,
    JudgementForm::TyEq,
    JudgementForm::Tm,
    JudgementForm::TmEq,
    JudgementForm::Sb,
];

/// A node, as its words say it.
#[derive(Clone, Copy, Debug)]
pub struct NodeCells<'a> {
    pub rule: RuleName,
    pub form: JudgementForm,
    pub claimed: &'a [u64],
    pub parts: &'a [u64],
    pub premises: &'a [u64],
}

/// Writes the words of a node. They are not handed back, since moving them costs as much.
pub fn spell_node(
    words: &mut Words<MOST_NODE_WORDS>,
    rule: RuleName,
    claim: Claim,
    parts: &[u64],
    premises: &[u64],
)
    requires empty { words.old ≡ [] }
    requires count { length parts.now ≡ length (kinds_of rule) }
    requires few { length parts.now + length premises.now ≤ 26 }
    ensures { node_coded words.new ≡ Some (node_from rule claim parts.now premises.now) }
{
    let rows = claim.rows();
    words.append(&[rule_number(rule), claim.form() as u64]);
    words.append(rows.as_slice());
    words.append(parts);
    words.append(premises);
}

/// How many rows a judgement of a form names.
fn count_places(form: JudgementForm) -> usize
    ensures { result ≡ places_of form }
{
    match form {
        JudgementForm::Ctx => 1,
        JudgementForm::Ty => 2,
        JudgementForm::TyEq | JudgementForm::Tm | JudgementForm::Sb => 3,
        JudgementForm::TmEq => 4,
    }
}

/// The node that words say.
pub fn read_node(words: &[u64]) -> NodeCells<'_>
    requires { IsWhole words.now }
    ensures node { node_coded words.now ≡ Some (node_shown result) }
    ensures count { length result.claimed.now ≡ places_of result.form }
{
    let rule = numbered_rule(words[0]);
    let form = FORMS[words[1] as usize];
    let cells = words.split_at(2).1;
    let (claimed, rest) = cells.split_at(count_places(form));
    let (parts, premises) = rest.split_at(count_parts(rule) as usize);
    NodeCells {
        rule,
        form,
        claimed,
        parts,
        premises,
    }
}

/// The claim of a form whose places are these rows.
pub fn claim_of(form: JudgementForm, rows: &[u64]) -> Claim
    requires { length rows.now ≡ places_of form }
    ensures form { form_of result ≡ form }
    ensures rows { rows_of result ≡ rows.now }
{
    match form {
        JudgementForm::Ctx => Claim::Ctx(rows[0]),
        JudgementForm::Ty => Claim::Ty(rows[0], rows[1]),
        JudgementForm::TyEq => Claim::TyEq(rows[0], rows[1], rows[2]),
        JudgementForm::Tm => Claim::Tm(rows[0], rows[1], rows[2]),
        JudgementForm::TmEq => Claim::TmEq(rows[0], rows[1], rows[2], rows[3]),
        JudgementForm::Sb => Claim::Sb(rows[0], rows[1], rows[2]),
    }
}
