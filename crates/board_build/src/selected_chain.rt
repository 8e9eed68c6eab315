// A chain that `select` accepted, with its parts.
ghost use Rattle.std.specs.Prelude.{◌≡◌, ◌<◌, ◌^◌, All, length, map};
ghost use Rattle.board_defs.specs.BoardRules.{IsPart};
ghost use Rattle.board_lines.specs.Names.{named, names_of};
ghost use Rattle.board_lines.specs.declared.names.Naming.TheVariants.{Part as PartName};
ghost use Rattle.board_lines.specs.ChainParts.{IsChain};
ghost use Rattle.board_build.specs.inner.Selected.{IsSelected};

use board_defs::Part;
use board_files::ChainLine;
use std::marker::Model;

/// The lines and the parts of a chain that `select` accepted.
#[derive(Drop)]
pub struct SelectedChain<'a> {
    lines: &'a [ChainLine],
    parts: Vec<Part>,
}

impl<'a> Model for SelectedChain<'a> {
    ghost use Rattle.board_build.specs.inner.Selected.{ChainWithParts, IsSelected};

    ghost Value = { ChainWithParts };

    ghost view = { λ a. record { lines = a.lines.now; parts = a.parts.items } };

    ghost invariant = { λ a. IsSelected (record { lines = a.lines.now; parts = a.parts.items }) };
}

impl<'a> SelectedChain<'a> {
    /// Returns the chain of these lines and parts. There must be fewer than 2^32 lines, and they
    /// must have 1 to 255 parts with different names. `parts` must have the names on the DEVICE and
    /// BYPASS lines, in the order of the lines, and must keep the rules of a part.
    pub fn of(lines: &'a [ChainLine], parts: Vec<Part>) -> SelectedChain<'a>
        requires few { length lines.now < 2 ^ 32 }
        requires selected { IsChain lines.now }
        requires names { map (λ part. part.name) parts.items ≡ names_of (named PartName lines.now) }
        requires kinds { All (λ part. IsPart part.kind) parts.items }
        ensures { result ≡ record { lines = lines.now; parts = parts.items } }
    {
        SelectedChain { lines, parts }
    }

    pub fn lines(&self) -> &'a [ChainLine]
        ensures lines { result.now ≡ self.now.lines }
        ensures few { length result.now < 2 ^ 32 }
    {
        self.lines
    }

    /// Returns the parts.
    pub fn parts(&self) -> &[Part]
        ensures parts { result.now ≡ self.now.parts }
        ensures selected { IsSelected self.now }
    {
        &self.parts
    }

    pub fn into_parts(self) -> Vec<Part>
        ensures { result.items ≡ self.entry.parts }
    {
        self.parts
    }
}
