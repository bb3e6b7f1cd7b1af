//! Lists in order.

ghost use Rattle.imkl_population.specs.Order.{AreInOrder};

/// A list that ascends, with each element once.
pub(crate) fn in_order<T: Ord + Drop>(items: Vec<T>) -> Vec<T>
    ensures { AreInOrder T.cmp T.eq items.items result.items }
{
    let mut items = items;
    items.sort_unstable();
    items.dedup();
    items
}
