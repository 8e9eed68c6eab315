//! Laws about the nets that two controls share, and about the drivers of paired nets. Each function does nothing, and
//! its contract is the law.
ghost use Rattle.net_classes.specs.Laws.{NetsAreShared, PairsHaveDrivers};

/// Two controls have drivers on one net if and only if their lists of driven nets have a number in common. For two
/// different controls, the same is true of their lists of shared nets. The driven nets of a control are the nets with a
/// driver of this control. The shared nets of a control are its driven nets that also have a driver of another control.
/// One-sided drivers do not count as drivers of a control.
pub fn nets_are_shared()
    ensures { NetsAreShared }
{}

/// The definition `first_pair` of `board_defs` looks for a tested driver of each of two nets such that one safe setting
/// enables both drivers. It finds two such drivers if and only if one safe setting observes both nets.
pub fn pairs_have_drivers()
    ensures { PairsHaveDrivers }
{}
