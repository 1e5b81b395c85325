//! What an order of entries must keep so that a run leaves the same, and how its questions tell.
ghost use Rattle.ac_legal_law.specs.BrokenOrders.{QuestionsAreBrokenOrders, KeptWhereNoQuestionHasAPoint};
ghost use Rattle.ac_legal_law.specs.Reorderings.{ReorderingsLeaveTheState, SortingLeavesTheState};
ghost use Rattle.ac_legal_law.specs.Schedules.{KeptOrdersReorder};

/// Times that keep the order of the entries that conflict let these be reordered: each list of the same entries along which
/// times never fall leaves the same in every cell, under every table and from all contents.
///
/// `entries` says so of any entries. `trace` says so of the trace of a program at a valuation of its parameters. `schedule`
/// says so of a schedule that keeps the order at every valuation of a context.
pub fn reorderings_of_a_trace()
    ensures entries { SortingLeavesTheState }
    ensures trace { ReorderingsLeaveTheState }
    ensures schedule { KeptOrdersReorder }
{}

/// A point meets a question of a schedule if and only if the order is broken between its two instances (`points`). So a
/// schedule keeps the order if and only if no question has a point (`kept`).
pub fn questions_of_a_schedule()
    ensures points { QuestionsAreBrokenOrders }
    ensures kept { KeptWhereNoQuestionHasAPoint }
{}
