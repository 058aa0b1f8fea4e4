// What a schedule of a graph's system finds.

ghost use Rattle.net_cycles.specs.Found.{SchedulesFindLeast, SourceNetsAreSources};

use net_unroll::known_schedules_settle;

/// A schedule that leaves no node of a graph's system unknown finds the least solution of the graph.
pub(crate) fn schedules_find_least()
    ensures { SchedulesFindLeast }
{
    known_schedules_settle();
}

/// The nets of a system's sources have the values of the instant.
pub(crate) fn source_nets_are_sources()
    ensures { SourceNetsAreSources }
{}
