//! Laws on the list of all calls, by the calls of each pass. These functions do nothing: each is called for what it ensures.
ghost use Rattle.turn_uses.specs.Laws.{EntriesAreOwn, SumsAreByPass, NobodyBehind, AllBefore};

/// Each entry of the list stands among the calls of its pass.
pub fn entries_are_own<E>()
    ensures { EntriesAreOwn E }
{}

/// Whatever a call weighs, the list weighs what the calls of its passes weigh.
pub fn sums_are_by_pass<E>()
    ensures { SumsAreByPass E }
{}

/// From a place on before which all who work have left, nobody who works makes a call.
pub fn nobody_behind<E>()
    ensures { NobodyBehind E }
{}

/// All calls of those who work stand before a place before which all of them have left.
pub fn all_before<E>()
    ensures { AllBefore E }
{}
