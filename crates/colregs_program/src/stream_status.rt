//! How a run ends that has not written its whole report.
ghost use Rattle.std.specs.Prelude.{◌≡◌};
ghost use Rattle.colregs_program.specs.Inner.Streaming.{stream_status};

use crate::status::{Status, Which};
use crate::streaming::StreamFault;
use auditor::MOST_TRACES;
use plan_situations::MOST_TARGETS;
use sessions::SessionFault;
use tracks::MOST_VESSELS;

/// How a run ends with a fault, where its log may have so many bytes.
pub(crate) fn stream_status(fault: StreamFault, most: u64) -> Status
    ensures { result ≡ stream_status fault most }
{
    match fault {
        StreamFault::NotRead => Status::ReadFault,
        StreamFault::NotWritten => Status::WriteFault,
        StreamFault::Unreported(why) => match why {
            SessionFault::Vessels => Status::Limit(Which::Vessels, MOST_VESSELS as u64),
            SessionFault::Pairs => Status::Limit(Which::Pairs, MOST_TRACES as u64),
            SessionFault::LogBytes => Status::Limit(Which::Log, most),
            SessionFault::Own(why) => Status::OwnUnready(why),
            SessionFault::Targets => Status::Limit(Which::Targets, MOST_TARGETS as u64),
            SessionFault::Entry(index) => Status::BadEntry(index),
            SessionFault::Memory => Status::Memory,
        },
    }
}
