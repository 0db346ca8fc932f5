//! The programs of the rules, a line each, in families.

ghost use Rattle.rules.specs.Schemas.{Means};

use crate::program::Schema;
use composition::comp_schema;
use contexts::context_schema;
pub use derived::derivation;
use equality::equality_schema;
use gluing::glue_schema;
use instances::instance_schema;
use naturals::nat_schema;
use paths::path_schema;
use pi::pi_schema;
use sigma::sigma_schema;
use systems::system_schema;
use theory::RuleName;
use universe::universe_schema;

mod composition;
mod contexts;
mod derived;
mod equality;
mod gluing;
mod instances;
mod named;
mod naturals;
mod paths;
mod pi;
mod sigma;
mod systems;
mod universe;

/// The programs of a rule.
pub fn schema_of(rule: RuleName) -> Schema
    ensures { Means rule result }
{
    match rule {
        RuleName::Contexts(rule) => context_schema(rule),
        RuleName::Instances(rule) => instance_schema(rule),
        RuleName::Equality(rule) => equality_schema(rule),
        RuleName::Universe(rule) => universe_schema(rule),
        RuleName::Pi(rule) => pi_schema(rule),
        RuleName::Sigma(rule) => sigma_schema(rule),
        RuleName::Paths(rule) => path_schema(rule),
        RuleName::Naturals(rule) => nat_schema(rule),
        RuleName::Systems(rule) => system_schema(rule),
        RuleName::Composition(rule) => comp_schema(rule),
        RuleName::Gluing(rule) => glue_schema(rule),
    }
}
