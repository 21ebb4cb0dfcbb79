//! Shelf names in the order of their bytes, so that an ordered map can have them as keys.
ghost use Rattle.std.proofs.Common.{rules};
ghost use Rattle.std.specs.Cmp.{partial_order_from_own_ties};
ghost use Rattle.std.specs.Cmp.Lexicographic.{slice_cmp, nat_list_cmp_total};
ghost use Rattle.std.specs.Cmp.Rules.{comparing};
ghost use Rattle.std.specs.Ordering.{nat_cmp, as_partial_cmp, eq_by_cmp};

use crate::name::ShelfName;
use std::cmp::Ordering;

impl PartialEq for ShelfName {
    ghost eq = { eq_by_cmp (slice_cmp nat_cmp) };

    ghost laws = { Prim.search (comparing, rules) };

    fn eq(&self, other: &ShelfName) -> bool {
        self.cmp(other).is_eq()
    }
}

impl Eq for ShelfName {
    ghost laws = { Prim.search (comparing, rules) };
}

impl PartialOrd for ShelfName {
    ghost partial_cmp = { as_partial_cmp (slice_cmp nat_cmp) };

    ghost laws = { partial_order_from_own_ties (Prim.search (comparing, rules)) (Prim.search (comparing, rules)) };

    fn partial_cmp(&self, other: &ShelfName) -> Option<Ordering> {
        Some(self.cmp(other))
    }
}

impl Ord for ShelfName {
    ghost cmp = { slice_cmp nat_cmp };

    ghost total = { nat_list_cmp_total };

    ghost matches_partial_cmp = { Prim.search (comparing, rules) };

    ghost matches_eq = { Prim.search (comparing, rules) };

    fn cmp(&self, other: &ShelfName) -> Ordering {
        self.as_slice().cmp(other.as_slice())
    }
}
