//! Laws of captures.
ghost use Rattle.fault_events.specs.Endings.{CapturesMayBeCut, NotesTellOfFaults};
ghost use Rattle.fault_events.specs.Events.{EventsTellOfFaults, EventsTellOfRuns};
ghost use Rattle.fault_events.specs.Notes.{NotesTellOfWays};
ghost use Rattle.fault_events.specs.Rows.{EventRows};
ghost use Rattle.fault_events.specs.Sources.{CapturesTakeFromSources};

/// Whatever the nets are, a capture of the data column takes each bit from its source: what a pin sees, or a bit that
/// hangs on no net. Of devices without strings, in whatever registers.
pub fn captures_take_from_sources()
    ensures { CapturesTakeFromSources }
{}

/// What a few scans tell of a net that is stuck.
pub fn events_compute()
    ensures { EventRows }
{}

/// Of a program that passes, the captures tell how it ends with other nets: it fails at the first of them at which a
/// wanted bit is another, and at the least such bit, as long as no bit that stays is another before.
pub fn events_tell_of_runs()
    ensures { EventsTellOfRuns }
{}

/// The same of whole plays, from power-up, on a sound board and on the one where a fault shows in a way.
pub fn events_tell_of_faults()
    ensures { EventsTellOfFaults }
{}

/// Where a fault shows in a way, two groups of pins at most see another bit. What is noted of both at a capture tells
/// which wanted bit is the first that is another, and whether one that stays is.
pub fn notes_tell_of_ways()
    ensures { NotesTellOfWays }
{}

/// Of a program that passes on a sound board without strings, what is noted of every pin at the captures of one play
/// tells how it ends on the board where a fault shows in a way, unless a bit that stays is another before.
pub fn notes_tell_of_faults()
    ensures { NotesTellOfFaults }
{}

/// Captures may be judged block by block: the first that do not tell that a program passes tell how it ends.
pub fn captures_may_be_cut()
    ensures { CapturesMayBeCut }
{}
