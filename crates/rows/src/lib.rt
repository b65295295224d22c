//! Rows of at most so many items, and facts about any row.
#![tactic(auto)]

mod methods;

ghost use Rattle.std.specs.Prelude.{◌≡◌, ◌+◌, ◌<◌, ◌≤◌, [], ◌∷◌, ◌++◌, length, take, drop, slice_index_or, slice_set};
ghost use Rattle.rows.specs.Rest.{FillSteps, RestSteps};

use std::alloc::AllocError;

/// Up to `N` items, in memory of their own: the first `count`.
#[derive(Copy)]
pub struct Row<T: Copy, const N: usize> {
    items: [T; N],
    count: usize,
    ghost few: { count ≤ N },
}

impl<T: Copy, const N: usize> Clone for Row<T, N> {
    ghost is_clone = { λ x y. y ≡ x };

    ghost is_infallible = { λ _. Unit {0} };

    fn clone(&self) -> Result<Row<T, N>, AllocError> {
        Ok(*self)
    }
}

/// There is no room for one item more.
#[derive(Clone, Copy, Debug, PartialEq, Eq)]
pub struct Full;

/// From `i` on the row is the item that stands there, and then the row behind it.
pub fn unrolls<T>(row: &[T], i: usize, item: &T)
    ensures { i < length row.now → item.now ≡ slice_index_or row.now i item.now → drop i row.now ≡ item.now ∷ drop (i + 1) row.now }
{
    row_law(row);
}

/// From its end on nothing is left of the row.
pub fn ends<T>(row: &[T])
    ensures { drop (length row.now) row.now ≡ [] }
{
    row_law(row);
}

/// The first `count` of the row are so many, and with the item written behind them they are one more.
pub fn fills<T>(row: &[T], count: usize, item: &T)
    ensures size { count ≤ length row.now → length (take count row.now) ≡ count }
    ensures more { count < length row.now → take (count + 1) (slice_set row.now count item.now) ≡ take count row.now ++ (item.now ∷ []) }
{
    row_law(row);
}

fn row_law<T>(row: &[T])
    ensures rest { RestSteps T }
    ensures fill { FillSteps T }
{}
