//! Lists that ascend.
ghost use Rattle.std.specs.Prelude.{◌≡◌};
ghost use Rattle.std.specs.Ordering.{is_lt};
ghost use Rattle.std.specs.declared.cmp.Ordering.{Ordering};
ghost use Rattle.eql_values.specs.Adjacent.{ascends_next};
ghost use Rattle.eql_cut.specs.Ordered.{with_itself};

/// A value that stands in lists which ascend.
pub trait Ordered {
    /// The order by which the lists ascend.
    ghost rank: { Self → Self → Ordering };

    /// Whether this value may stand directly before the other.
    fn is_before(&self, next: &Self) -> bool
        ensures { result ≡ is_lt (rank self.now next.now) };
}

/// Whether each comes after the one before it.
pub(crate) fn ascends<T: Ordered>(items: &[T]) -> bool
    ensures { result ≡ ascends_next T.rank (with_itself items.now) }
{
    let mut left = items;
    while let [first, rest @ ..] = left {
        if let Some(next) = rest.first()
            && !first.is_before(next)
        {
            return false;
        }
        left = rest;
    }
    true
}
