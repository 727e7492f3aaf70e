//! The laws of the schedule format: what is written reads back, and what is read was so written.
#![tactic(auto)]

ghost use Rattle.roundtrip.specs.Laws.{CallWasWritten, HeaderWasWritten, ScheduleReadsBack};

/// The laws of the format. A schedule that is written from a job and calls reads back as them; a header and a call that are
/// accepted are those written of what they are read as, so that nothing has two spellings.
pub fn format_laws()
    ensures a_written_schedule_reads_back { ScheduleReadsBack }
    ensures an_accepted_header_is_the_written_one { HeaderWasWritten }
    ensures an_accepted_call_is_the_written_one { CallWasWritten }
{}
