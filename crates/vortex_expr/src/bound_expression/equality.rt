//! Equality of typed expressions: two are equal if they are one tree.
ghost use Rattle.std.specs.Prelude.{◌≡◌, ◌↔◌, IsTrue};
ghost use Rattle.std.specs.Cmp.{partial_equiv_from_equiv};
ghost use Rattle.vortex_base.specs.Data.Exact.{exact_equivalence};
ghost use Rattle.vortex_expr.specs.Trees.TreeEq.{tree_eq, tree_eq_is_exact};

use crate::bound_expression::{BoundExpression, Node};

impl BoundExpression {
    fn is_same(&self, other: &BoundExpression) -> bool
        ensures { result ≡ tree_eq self.now other.now }
    {
        match (&*self.node, &*other.node) {
            (Node::Column(i), Node::Column(j)) => *i == *j && self.dtype == other.dtype,
            (Node::Literal(a), Node::Literal(b)) => *a == *b,
            (Node::Binary(o, a, b), Node::Binary(p, c, d)) => {
                *o == *p && a.is_same(c) && b.is_same(d)
            }
            (Node::Between(o, a, b, c), Node::Between(p, d, e, f)) => {
                *o == *p && a.is_same(d) && b.is_same(e) && c.is_same(f)
            }
            (Node::IsNull(a), Node::IsNull(b)) => a.is_same(b),
            (Node::IsNotNull(a), Node::IsNotNull(b)) => a.is_same(b),
            (Node::Not(a), Node::Not(b)) => a.is_same(b),
            (Node::Like(o, a, b), Node::Like(p, c, d)) => {
                *o == *p && a.is_same(c) && b.is_same(d)
            }
            (Node::Stat(f, a), Node::Stat(g, b)) => *f == *g && a.is_same(b),
            (Node::RowCount, Node::RowCount) => true,
            _ => false,
        }
    }
}

impl PartialEq for BoundExpression {
    ghost eq = { tree_eq };

    ghost laws = { partial_equiv_from_equiv (exact_equivalence tree_eq tree_eq_is_exact) };

    fn eq(&self, other: &BoundExpression) -> bool
        ensures value { result ≡ tree_eq self.now other.now }
        ensures same { IsTrue result ↔ (self.now ≡ other.now) }
    {
        self.is_same(other)
    }
}

impl Eq for BoundExpression {
    ghost laws = { exact_equivalence tree_eq tree_eq_is_exact };
}
