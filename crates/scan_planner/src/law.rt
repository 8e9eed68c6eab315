//! Laws of plans. Each function does nothing, and its contract is the law.
ghost use Rattle.scan_planner.specs.Laws.{UsefulPlanned};

/// On a board that keeps the rules of boards, a plan can be made from safe passes whose controls are all
/// useful. Every useful control, and every control of a driver of a net, controls a driver of the board. A
/// control is useful if the setting with this control alone is safe and enables a tested driver.
pub fn useful_planned()
    ensures { UsefulPlanned }
{}
