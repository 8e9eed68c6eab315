// The places at which the items of a list satisfy a predicate, and a test whether two lists have a number in common.
ghost use Rattle.std.specs.Prelude.{◌≡◌, ◌↔◌, IsTrue, if◌then◌else◌};
ghost use Rattle.net_facts.specs.Found.{IsAscending, Meet};
ghost use Rattle.net_facts.specs.inner.Found.{is_elsewhere_of, found_with};

/// The places at which the items of a list satisfy a predicate: none, one, or several. The place is known only if there
/// is just one.
#[derive(Clone, Copy)]
pub enum Found {
    Nowhere,
    At(usize),
    Several,
}

impl Found {
    fn with(self, place: usize) -> Found
        ensures { result ≡ found_with self place }
    {
        match self {
            Found::Nowhere => Found::At(place),
            Found::At(_) => Found::Several,
            Found::Several => Found::Several,
        }
    }

    /// Returns the places, with `place` added if `passes` is true.
    pub fn with_if(self, place: usize, passes: bool) -> Found
        ensures { result ≡ (if passes then found_with self place else self) }
    {
        if passes { self.with(place) } else { self }
    }

    /// Returns whether one of the places differs from `place`.
    pub fn is_elsewhere(self, place: usize) -> bool
        ensures { result ≡ is_elsewhere_of self place }
    {
        match self {
            Found::Nowhere => false,
            Found::At(other) => other != place,
            Found::Several => true,
        }
    }
}

/// Returns whether two lists have a number in common. Both lists must be ascending.
pub fn meet(a: &[u32], b: &[u32]) -> bool
    requires first { IsAscending a.now }
    requires second { IsAscending b.now }
    ensures { IsTrue result ↔ Meet a.now b.now }
{
    let mut i = 0;
    let mut j = 0;
    while i < a.len() && j < b.len() {
        if a[i] == b[j] {
            return true;
        }
        if a[i] < b[j] {
            i += 1;
        } else {
            j += 1;
        }
    }
    false
}
