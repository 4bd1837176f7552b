//! The items of a chain.
ghost use Rattle.std.specs.Prelude.{◌≡◌, ◌≤◌, ◌⊎◌, IsTrue};
ghost use Rattle.vortex_expr.specs.Trees.Connectives.{is_and, operator_of};
ghost use Rattle.vortex_expr.specs.Trees.Tree as tree;
ghost use Rattle.vortex_rewrite.specs.Rewriting.Predicates.{is_predicate};
ghost use Rattle.vortex_normal.specs.Balanced.{depth};
ghost use Rattle.vortex_capi.specs.Nesting.Nodes.{Joins};

use crate::nested::error::NestedError;
use crate::nested::nested::{Nested, Pair};
use std::alloc::Global;
use std::marker::Model;
use vortex_expr::scalar_fn::Connective;

/// Holds an item of a chain: an expression of type Bool.
#[derive(Drop)]
pub(crate) struct Item {
    nested: Nested,
}

impl Model for Item {
    ghost use Rattle.std.specs.Prelude.{IsTrue};
    ghost use Rattle.vortex_expr.specs.Trees.Tree.{Tree, Place};
    ghost use Rattle.vortex_expr.specs.Trees.TreeCode.{tree_code, place_code};

    ghost Value = { Tree Place };

    ghost coded = { tree_code place_code };

    ghost use Rattle.vortex_rewrite.specs.Rewriting.Predicates.{is_predicate};

    ghost view = { λ i. i.nested };

    ghost invariant = { λ i. IsTrue (is_predicate i.nested) };
}

impl Item {
    /// Makes an item of a truth.
    pub(crate) fn new(nested: Nested) -> Item
        requires { IsTrue (is_predicate nested) }
        ensures { result ≡ nested }
    {
        Item { nested }
    }

    /// Returns the expression.
    pub(crate) fn into_nested(self) -> Nested
        ensures { result ≡ self }
    {
        self.nested
    }

    /// Joins two items by AND or by OR, or refuses one that has `below` levels or more.
    pub(crate) fn joined(
        alloc: Global,
        connective: Connective,
        below: usize,
        a: Item,
        b: Item,
    ) -> Result<Item, NestedError>
        ensures { Joins (λ e. e ≡ tree.binary (operator_of (is_and connective)) a b)
            ((below ≤ depth a) ⊎ (below ≤ depth b)) result }
    {
        let (a, b) = (a.nested, b.nested);
        if a.depth() >= below || b.depth() >= below {
            return Err(NestedError::TooDeep);
        }
        match Nested::pair(alloc, Pair::Binary(connective.operator()), a, b, 0) {
            Ok(nested) => Ok(Item { nested }),
            Err(NestedError::Memory) => Err(NestedError::Memory),
            Err(_) => unreachable!(),
        }
    }
}
