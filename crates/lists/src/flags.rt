// Lists of flags.
ghost use Rattle.std.specs.Prelude.{◌≡◌, true, false, slice_set, slice_index_or};

/// Returns whether the flag at `place`, counted from 0, is set. Returns false past the end.
pub fn is_set(flags: &[bool], place: usize) -> bool
    ensures { result ≡ slice_index_or flags.now place false }
{
    match flags.get(place) {
        None => false,
        Some(flag) => *flag,
    }
}

/// Sets the flag at `place`, counted from 0. Does nothing past the end.
pub fn mark(flags: &mut [bool], place: usize)
    ensures { flags.new ≡ slice_set flags.old place true }
{
    if place < flags.len() {
        flags[place] = true;
    }
}
