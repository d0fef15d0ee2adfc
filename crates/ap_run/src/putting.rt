// A report put to a sink.
ghost use Rattle.ap_run.specs.Writing.{IsPut};

use crate::writing::write_whole;
use ap_io::{Failed, Sink};
use ap_report::{Report, Status};

/// Writes a report to the sink, and tells the status with which this ends. It takes no memory.
pub fn put<K: Sink>(sink: &mut K, report: &Report) -> Status
    ensures { IsPut (record {
      bytes = K.held sink.old;
      bytes' = K.held sink.new;
      faults = K.faults sink.old;
      faults' = K.faults sink.new;
    }) report.now result }
{
    match write_whole(sink, report.bytes.items()) {
        Ok(()) => report.status,
        Err(Failed) => Status::Write,
    }
}
