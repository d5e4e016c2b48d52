//! Laws of ledgers. Each function is a law: it does nothing, and its contract is the law.

ghost use Rattle.wh_ledger.specs.Laws.{ClientsAreInOrder, PhasesAddUp};

/// Each client that submitted a task has one row, and the rows stand in order of the clients' first tasks.
pub fn clients_are_in_order()
    ensures { ClientsAreInOrder }
{}

/// The open, the assigned, the carried and the done tasks of a client are together those that it submitted.
pub fn phases_add_up()
    ensures { PhasesAddUp }
{}
