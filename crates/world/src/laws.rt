// What holds for every list of events, and for every schedule.
ghost use Rattle.world.specs.Laws.{KeptIsLatest, PairsRise, OneRun};
ghost use Rattle.world.specs.ScheduleLaws.{OneReading};

use evaluation::one_evaluation;

/// A list of events has one run.
pub fn one_run()
    ensures { OneRun }
{
    one_evaluation();
}

/// In each task's list of evaluations the pairs of incarnation and number rise strictly.
pub fn pairs_rise()
    ensures { PairsRise }
{}

/// Whatever happens, keeping the greatest pair of what is delivered keeps the latest.
pub fn keeping_the_greatest_keeps_the_latest()
    ensures { KeptIsLatest }
{}

/// A text spells one list of events.
pub fn one_reading()
    ensures { OneReading }
{}
