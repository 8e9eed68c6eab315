// A group of walk nets that are shorted together. The walk nets are the nets that the walking test observes.
ghost use Rattle.std.specs.Prelude.{◌≡◌};
ghost use Rattle.walk_test.specs.Groups.{Rise};

use std::marker::Model;

/// A group of walk nets that are shorted together. The value of a group in contracts is the list of the
/// numbers of its nets, in ascending order.
#[derive(Debug, Drop)]
pub struct Group {
    nets: Vec<u32>,
}

impl Model for Group {
    ghost use Rattle.std.specs.Prelude.{ℕ, List};
    ghost use Rattle.walk_test.specs.Groups.{Rise};

    ghost Value = { List ℕ };

    ghost view = { λ a. a.nets.items };

    ghost invariant = { λ a. Rise a.nets.items };
}

impl Group {
    // Returns the group of these nets, which must be in ascending order.
    pub(crate) fn of(nets: Vec<u32>) -> Group
        requires { Rise nets.items }
        ensures { result ≡ nets.items }
    {
        Group { nets }
    }

    /// Returns the numbers of the nets, in net order.
    pub fn nets(&self) -> &[u32]
        ensures nets { result.now ≡ self.now }
        ensures order { Rise self.now }
    {
        &self.nets
    }
}
