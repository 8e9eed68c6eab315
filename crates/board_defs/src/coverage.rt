// The reasons why a net is not covered. A net is covered if some safe setting enables a driver of the net, another pin
// of the net is a receiver, and none of the reasons `Supply`, `TestPort` and `Dark` applies.

/// The reason why a net is not covered. If several reasons apply, the first in this order counts.
#[derive(Clone, Copy)]
pub enum Reason {
    /// The net carries a supply.
    Supply,
    /// The net has a pin of a test access port, or a pin that compliance patterns name.
    TestPort,
    /// The net has a dark pin: something that no setting controls may drive the net.
    Dark,
    /// The net has no driver.
    NoDriver,
    /// No safe setting enables a driver on the net.
    Blocked,
    /// For each driver of the net that some safe setting enables, no other pin of the net is a
    /// receiver.
    NoReceiver,
}
