// Functions that append an item to a vector: `push_if` if a condition is true, and `push_some` if
// there is an item.
ghost use Rattle.std.specs.Prelude.{◌≡◌, ◌++◌, ◌∷◌, [], if◌then◌else◌, OnOk};
ghost use Rattle.std.specs.Option.{option_to_list};

use std::alloc::AllocError;

/// Appends the item if `passes` is true. If memory runs out, the content of the vector is
/// unspecified.
pub fn push_if<T: Drop>(items: &mut Vec<T>, item: T, passes: bool) -> Result<(), AllocError>
    ensures { OnOk result
        (items.new.items ≡ items.old.items ++ (if passes then item ∷ [] else [])) }
{
    if passes {
        items.push(item)?;
    }
    Ok(())
}

/// Appends the item if there is one. If memory runs out, the content of the vector is unspecified.
pub fn push_some<T: Drop>(items: &mut Vec<T>, item: Option<T>) -> Result<(), AllocError>
    ensures { OnOk result (items.new.items ≡ items.old.items ++ option_to_list item) }
{
    if let Some(item) = item {
        items.push(item)?;
    }
    Ok(())
}
