//! What holds of the definitions, as contracts of functions that do nothing.

ghost use Rattle.tx_route.specs.Laws.{DeliveriesAreOne, KeysAreTold, OrdersGoRound, StepsAreUndone, StepsComeIn};

/// Each step along the focus order from a row of it is undone by the step the other way.
pub fn steps_are_undone()
    ensures { StepsAreUndone }
{}

/// Where no row of the focus order is focused, a step forwards leads to its first row, and a step
/// back to its last one.
pub fn steps_come_in()
    ensures { StepsComeIn }
{}

/// As many steps as the focus order has rows lead from a row of it to that row again, and through
/// all the others.
pub fn orders_go_round()
    ensures { OrdersGoRound }
{}

/// An input comes to one thing alone: what its selectors match first, and so what is delivered, is
/// determined.
pub fn deliveries_are_one()
    ensures { DeliveriesAreOne }
{}

/// The test by which a binding is found for a key tells whether two keys are one.
pub fn keys_are_told()
    ensures { KeysAreTold }
{}
