//! The rules that predicates are rewritten by.
ghost use Rattle.std.specs.Prelude.{◌≡◌, ◌++◌, ◌∷◌, [], OnErr, OnOk};

use crate::rewrite::rule::{StatsRewriteRule, StatsRewriteRuleRef};
use std::alloc::{AllocError, Global};
use vortex_expr::scalar_fn::ScalarFnId;

/// A rule of the library's own. The engine runs them, at a node of their function, in this order.
#[derive(Clone, Copy, Debug, PartialEq, Eq)]
pub enum BuiltinRule {
    /// Comparisons by the least and the greatest values of their operands, AND and OR by their
    /// sides.
    BinaryNanCountStatsRewrite,
    /// BETWEEN by the AND of the two comparisons that it stands for.
    BetweenStatsRewrite,
    /// A literal truth, falsified by its opposite and satisfied by itself.
    LiteralStatsRewrite,
    /// IS NULL by the number of nulls.
    IsNullNullCountStatsRewrite,
    /// IS NULL by whether no value is null.
    IsNullAllNonNullStatsRewrite,
    /// IS NULL by whether every value is null.
    IsNullAllNullStatsRewrite,
    /// IS NOT NULL by the number of nulls.
    IsNotNullNullCountStatsRewrite,
    /// IS NOT NULL by whether every value is null.
    IsNotNullAllNullStatsRewrite,
    /// IS NOT NULL by whether no value is null.
    IsNotNullAllNonNullStatsRewrite,
    /// LIKE by the literal beginning of its pattern.
    LikeStatsRewrite,
}

impl BuiltinRule {
    ghost use Rattle.vortex_rewrite.specs.Rewriting.BuiltIn.{function_of};

    /// The function whose nodes the rule is for.
    pub fn scalar_fn_id(self) -> ScalarFnId
        ensures { result ≡ function_of self }
    {
        match self {
            BuiltinRule::BinaryNanCountStatsRewrite => ScalarFnId::Binary,
            BuiltinRule::BetweenStatsRewrite => ScalarFnId::Between,
            BuiltinRule::LiteralStatsRewrite => ScalarFnId::Literal,
            BuiltinRule::IsNullNullCountStatsRewrite
            | BuiltinRule::IsNullAllNonNullStatsRewrite
            | BuiltinRule::IsNullAllNullStatsRewrite => ScalarFnId::IsNull,
            BuiltinRule::IsNotNullNullCountStatsRewrite
            | BuiltinRule::IsNotNullAllNullStatsRewrite
            | BuiltinRule::IsNotNullAllNonNullStatsRewrite => ScalarFnId::IsNotNull,
            BuiltinRule::LikeStatsRewrite => ScalarFnId::Like,
        }
    }
}

/// The built-in rules, and those of a user.
#[derive(Drop)]
pub struct Rules {
    /// The user's rules, asked after the built-in ones and in this order.
    pub own: Vec<StatsRewriteRuleRef>,
}

/// Something with rules of a user. A contract names them as `⟦<Rules as OwnRules>⟧.own`.
pub trait OwnRules {
    ghost use Rattle.std.specs.Prelude.{List};
    ghost use Rattle.vortex_rewrite.specs.Rewriting.Lawful.{OwnRule};

    // The rules, read as plain data, in their order.
    ghost own: { Self → List OwnRule };
}

impl OwnRules for Rules {
    ghost use Rattle.vortex_rewrite.specs.Rewriting.Own.{own_rules};

    ghost own = { λ rules. own_rules StatsRewriteRule-box rules.own.items };
}

impl Rules {
    /// The built-in rules alone.
    pub fn builtin(alloc: Global) -> Rules
        ensures { result.own.items ≡ [] }
    {
        Rules {
            own: Vec::new(alloc),
        }
    }

    /// The built-in rules and then these.
    pub fn with_own(own: Vec<StatsRewriteRuleRef>) -> Rules
        ensures { result.own ≡ own }
    {
        Rules { own }
    }

    /// Adds a rule behind the user's others. Where memory is refused, it is dropped and the others
    /// are as they were.
    pub fn push(&mut self, rule: StatsRewriteRuleRef) -> Result<(), AllocError>
        ensures pushed { OnOk result (self.new.own.items ≡ self.old.own.items ++ rule ∷ []) }
        ensures refused { OnErr result (self.new.own.items ≡ self.old.own.items) }
    {
        Ok(self.own.push(rule)?)
    }
}
