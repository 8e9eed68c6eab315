// Lists of net numbers.
ghost use Rattle.std.specs.Prelude.{◌≡◌, ◌++◌, ◌∷◌, [], if◌then◌else◌, IfOk, OnOk};

use lists::Items;
use std::alloc::{AllocError, Global};

/// A list of net numbers.
pub type NetNumbers = Items<u32>;

/// Returns a copy of the numbers.
pub fn copy_of(alloc: Global, nets: &[u32]) -> Result<NetNumbers, AllocError>
    ensures { IfOk result (λ numbers. numbers ≡ nets.now) }
{
    let mut numbers = Vec::with_capacity(alloc, nets.len())?;
    numbers.extend_from_slice(nets)?;
    Ok(Items::of(numbers))
}

/// Appends the net if `passes` is true.
pub fn push_if(numbers: &mut NetNumbers, net: u32, passes: bool) -> Result<(), AllocError>
    ensures { OnOk result (numbers.new ≡ numbers.old ++ (if passes then net ∷ [] else [])) }
{
    if passes {
        numbers.push(net)?;
    }
    Ok(())
}
