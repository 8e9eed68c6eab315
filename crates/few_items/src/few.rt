ghost use Rattle.std.specs.Prelude.{◌≡◌, ◌++◌, ◌∷◌, [], length, IfOk, OnOk};
ghost use Rattle.few_items.specs.Kept.{kept_items};

use std::alloc::{AllocError, Global};
use std::marker::Model;
use std::slice;

// The storage of a list. Up to two items are in the value itself. `More` has all items in a vector.
#[derive(Debug, Drop)]
enum Kept<T> {
    Nothing,
    One(T),
    Two([T; 2]),
    More(Vec<T>),
}

/// A list that allocates no memory for up to two items, unless `with_capacity` reserved room for
/// more.
#[derive(Debug, Drop)]
pub struct Few<T> {
    kept: Kept<T>,
}

impl<T> Model for Few<T> {
    ghost use Rattle.std.specs.Prelude.{List};
    ghost use Rattle.few_items.specs.Kept.{kept_items};

    ghost Value = { List T };

    ghost view = { λ a. kept_items a.kept };
}

fn three<T: Copy>(alloc: Global, two: &[T], third: T) -> Result<Vec<T>, AllocError>
    ensures { IfOk result (λ items. items.items ≡ two.now ++ third ∷ []) }
{
    let mut items = Vec::with_capacity(alloc, 4)?;
    items.extend_from_slice(two)?;
    items.push(third)?;
    Ok(items)
}

impl<T: Copy> Kept<T> {
    fn as_slice(&self) -> &[T]
        ensures { result.now ≡ kept_items self.now }
    {
        match self {
            Kept::Nothing => &[],
            Kept::One(item) => slice::from_ref(item),
            Kept::Two(items) => items.as_slice(),
            Kept::More(items) => items.as_slice(),
        }
    }

    fn push(&mut self, alloc: Global, item: T) -> Result<(), AllocError>
        ensures { OnOk result (kept_items self.new ≡ kept_items self.old ++ item ∷ []) }
    {
        match self {
            Kept::Nothing => *self = Kept::One(item),
            Kept::One(first) => *self = Kept::Two([*first, item]),
            Kept::Two(two) => *self = Kept::More(three(alloc, two.as_slice(), item)?),
            Kept::More(items) => items.push(item)?,
        }
        Ok(())
    }
}

impl<T: Copy> Few<T> {
    /// Returns an empty list.
    pub fn none() -> Few<T>
        ensures { result ≡ [] }
    {
        Few {
            kept: Kept::Nothing,
        }
    }

    /// Returns an empty list with room for `count` items. Allocates nothing if `count` is at most two.
    pub fn with_capacity(alloc: Global, count: usize) -> Result<Few<T>, AllocError>
        ensures { IfOk result (λ few. few ≡ []) }
    {
        if count <= 2 {
            return Ok(Few::none());
        }
        Ok(Few {
            kept: Kept::More(Vec::with_capacity(alloc, count)?),
        })
    }

    /// Returns the items as a slice.
    pub fn as_slice(&self) -> &[T]
        ensures { result.now ≡ self.now }
    {
        self.kept.as_slice()
    }

    /// Returns the number of items.
    pub fn len(&self) -> usize
        ensures { result ≡ length self.now }
    {
        self.kept.as_slice().len()
    }

    /// Appends an item. If memory runs out, the content of the list is unspecified.
    pub fn push(&mut self, alloc: Global, item: T) -> Result<(), AllocError>
        ensures { OnOk result (self.new ≡ self.old ++ item ∷ []) }
    {
        self.kept.push(alloc, item)
    }
}
