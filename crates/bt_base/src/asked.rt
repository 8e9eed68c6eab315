//! The names with which texts were fetched from a store. Only proofs see this list. It takes no
//! memory, and its methods do nothing at run time.
ghost use Rattle.std.specs.Prelude.{◌≡◌, ℕ, List, [], ◌∷◌, ◌++◌};
ghost use Rattle.std.specs.Borrow.{ftrue};

use std::marker::Model;

/// The names of all fetches so far, in the order of the fetches. Fetches that failed count too.
#[derive(Drop)]
pub(crate) struct Asked {
    pub ghost names: { List (List ℕ) },
}

impl Model for Asked {
    ghost also_owns = { λ _. ftrue };
}

impl Asked {
    pub(crate) fn nothing() -> Asked
        ensures { result.names ≡ [] }
    {
        Asked {}
    }

    pub(crate) fn and(&self, name: &&str) -> Asked
        ensures { result.names ≡ self.now.names ++ name.now.now ∷ [] }
    {
        Asked {}
    }
}

// An `Asked` holds nothing at run time.
unsafe impl Send for Asked {}

unsafe impl Sync for Asked {}
