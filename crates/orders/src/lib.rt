// Lawful orders, ages, run-ups and value orders: the definitions, and the theorems on them.
#![tactic(auto)]

ghost use Rattle.orders.specs.Claims.{ValueOrdersAreLawfulOrders, TryingEnds, TriedIsLeastAge, UnreadIsLeastAge, LawfulOrdersExist, BaysCombine, OrdersRestrict, LargestIsLeastAge, NothingIsLeastAge, ListingHoldsRunUps, ListingGivesTrials, ListingGivesFirst, ListingGivesTried, BayIsTried, TrialsAreUnique, FirstIsUnique, TriedIsUnique};
ghost use Rattle.orders.specs.Cases.{CasesHold};

pub fn value_orders_are_lawful_orders()
    ensures { ValueOrdersAreLawfulOrders }
{}

pub fn trying_ends()
    ensures { TryingEnds }
{}

pub fn tried_is_least_age()
    ensures { TriedIsLeastAge }
{}

pub fn unread_is_least_age()
    ensures { UnreadIsLeastAge }
{}

pub fn lawful_orders_exist()
    ensures { LawfulOrdersExist }
{}

pub fn bays_combine()
    ensures { BaysCombine }
{}

pub fn orders_restrict()
    ensures { OrdersRestrict }
{}

pub fn largest_is_least_age()
    ensures { LargestIsLeastAge }
{}

pub fn nothing_is_least_age()
    ensures { NothingIsLeastAge }
{}

pub fn listing_holds_run_ups()
    ensures { ListingHoldsRunUps }
{}

pub fn listing_gives_trials()
    ensures { ListingGivesTrials }
{}

pub fn listing_gives_first()
    ensures { ListingGivesFirst }
{}

pub fn listing_gives_tried()
    ensures { ListingGivesTried }
{}

pub fn bay_is_tried()
    ensures { BayIsTried }
{}

pub fn trials_are_unique()
    ensures { TrialsAreUnique }
{}

pub fn first_is_unique()
    ensures { FirstIsUnique }
{}

pub fn tried_is_unique()
    ensures { TriedIsUnique }
{}

pub fn cases_hold()
    ensures { CasesHold }
{}
