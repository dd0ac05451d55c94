ghost use Rattle.cycle.specs.Laws.{CountsToReading, DtsAddUp, DueAsPlanned, DueMomentsAreMultiples, DueTasksAreAsked, NeverEarly, OrderAsPlanned, SkipsAreCounted};

/// The k-th due moment of a task is k intervals behind the start.
pub fn due_moments_are_multiples()
    ensures { DueMomentsAreMultiples }
{}

/// No task is evaluated before it is due.
pub fn never_early()
    ensures { NeverEarly }
{}

/// The time of a task is counted up to the reading at which it is evaluated.
pub fn counts_to_reading()
    ensures { CountsToReading }
{}

/// The dts of a task add up.
pub fn dts_add_up()
    ensures { DtsAddUp }
{}

/// Due moments that are skipped are counted exactly.
pub fn skips_are_counted()
    ensures { SkipsAreCounted }
{}

/// A task that is due is asked for, however late the others are.
pub fn due_tasks_are_asked()
    ensures { DueTasksAreAsked }
{}

/// A task is due exactly where the plan has an entry of it.
pub fn due_as_planned()
    ensures { DueAsPlanned }
{}

/// Tasks that are due at one moment go as the plan has them.
pub fn order_as_planned()
    ensures { OrderAsPlanned }
{}
