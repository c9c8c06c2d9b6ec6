// The statuses of what a run comes to.
ghost use Rattle.std.specs.Prelude.{◌≡◌, ◌≢◌, OnOk, OnErr};
ghost use Rattle.gno_num.specs.Faults.{Rose};
ghost use Rattle.gnocchi_run.specs.Ending.{WritesText, status_of_connection, status_of_script, status_of_store};

use command_line::Status;
use front::StoreFault;
use gno_io::{Sink, put_all};
use rest_api::ConnEnd;
use rest_script::ScriptEnd;

/// The status of a script that ended so.
pub(crate) fn status_of_script(end: ScriptEnd) -> Status
    ensures value { result ≡ status_of_script end }
    ensures read { result ≡ Status.Read → end ≡ ScriptEnd.ReadFault }
    ensures write { result ≡ Status.Write → end ≡ ScriptEnd.WriteFault }
    ensures used { result ≢ Status.Usage }
{
    match end {
        ScriptEnd::Ended => Status::Done,
        ScriptEnd::TooLong | ScriptEnd::Cut => Status::Input,
        ScriptEnd::TooMuch => Status::TooMuch,
        ScriptEnd::ReadFault => Status::Read,
        ScriptEnd::WriteFault => Status::Write,
        ScriptEnd::Memory => Status::Memory,
    }
}

/// The status of a connection that ended so.
pub(crate) fn status_of_connection(end: ConnEnd) -> Status
    ensures value { result ≡ status_of_connection end }
    ensures read { result ≡ Status.Read → end ≡ ConnEnd.ReadFault }
    ensures write { result ≡ Status.Write → end ≡ ConnEnd.WriteFault }
    ensures used { result ≢ Status.Usage }
{
    match end {
        ConnEnd::Ended | ConnEnd::Closed => Status::Done,
        ConnEnd::Refused | ConnEnd::Cut => Status::Input,
        ConnEnd::TooMuch => Status::TooMuch,
        ConnEnd::ReadFault => Status::Read,
        ConnEnd::WriteFault => Status::Write,
        ConnEnd::Memory => Status::Memory,
    }
}

/// The status of a store that wasn't made or found.
pub(crate) fn status_of_store(fault: StoreFault) -> Status
    ensures value { result ≡ status_of_store fault }
    ensures used { result ≢ Status.Usage }
    ensures unread { result ≢ Status.Read }
    ensures unwritten { result ≢ Status.Write }
{
    match fault {
        StoreFault::Exists => Status::Exists,
        StoreFault::DiskFault(_) => Status::Disk,
        StoreFault::Damaged(damaged) => Status::Damaged {
            disk: damaged.disk,
            at: damaged.at,
        },
        StoreFault::Memory => Status::Memory,
    }
}

/// Writes a text.
pub(crate) fn tell<K: Sink>(sink: &mut K, text: &[u8]) -> Status
    ensures tells { WritesText text.now (K.taken sink.old) (K.taken sink.new) result }
    ensures used { result ≢ Status.Usage }
    ensures unread { result ≢ Status.Read }
    ensures write_cause { result ≡ Status.Write → Rose (K.faults sink.old) (K.faults sink.new) }
{
    match put_all(sink, text) {
        Ok(()) => Status::Done,
        Err(_) => Status::Write,
    }
}
