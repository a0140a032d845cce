ghost use Rattle.std.specs.Prelude.{◌≡◌};
ghost use Rattle.run_main.specs.Status.{exit_number};

use kept_image::ImageFault;
use log_audit::AuditFault;
use workload::{Limit, WorkFault};

/// How a top call ended. Lines are counted from 1.
#[derive(Clone, Copy, Debug, PartialEq, Eq)]
pub enum Status {
    /// The work is done and its text is written.
    Done,
    /// The arguments name no command.
    Usage,
    /// The first faulty line of the workload, of the report or of the events of a link has none of the forms that may
    /// stand there.
    BadLine(u32),
    /// A read of the source failed.
    ReadFault,
    /// A write to the sink failed.
    WriteFault,
    /// A call of the keeper failed.
    KeeperFault,
    /// Memory was refused.
    Memory,
    /// The first faulty line of the workload, of the report or of the events passes this limit; line 0 stands for the
    /// whole input, or for the arguments.
    TooLarge(Limit, u32),
    /// The first faulty line of the image has none of the forms that may stand there.
    BadImage(u32),
    /// The first faulty line of the image gives a version of a key another body than an earlier line does.
    Conflict(u32),
    /// The lines of the report's history up to this line of the input are not good.
    Wrong(u32),
}

impl Status {
    /// The number with which the program ends.
    pub fn exit_number(self) -> u8
        ensures { result ≡ exit_number self }
    {
        match self {
            Status::Done => 0,
            Status::Usage => 2,
            Status::BadLine(_) => 3,
            Status::ReadFault => 4,
            Status::WriteFault => 5,
            Status::KeeperFault => 6,
            Status::Memory => 7,
            Status::TooLarge(_, _) => 8,
            Status::BadImage(_) | Status::Conflict(_) => 9,
            Status::Wrong(_) => 11,
        }
    }
}

impl From<WorkFault> for Status {
    ghost use Rattle.run_main.specs.Status.{status_of};

    ghost from_gives = { λ fault status. status ≡ status_of fault };

    fn from(fault: WorkFault) -> Self {
        match fault {
            WorkFault::BadLine(line) => Status::BadLine(line),
            WorkFault::TooLarge(limit, line) => Status::TooLarge(limit, line),
            WorkFault::Memory => Status::Memory,
        }
    }
}

impl From<ImageFault> for Status {
    ghost use Rattle.run_main.specs.Status.{image_status_of};

    ghost from_gives = { λ fault status. status ≡ image_status_of fault };

    fn from(fault: ImageFault) -> Self {
        match fault {
            ImageFault::BadLine(line) => Status::BadImage(line),
            ImageFault::Conflict(line) => Status::Conflict(line),
            ImageFault::Memory => Status::Memory,
        }
    }
}

impl From<AuditFault> for Status {
    ghost use Rattle.run_main.specs.Status.{audit_status_of};

    ghost from_gives = { λ fault status. status ≡ audit_status_of fault };

    fn from(fault: AuditFault) -> Self {
        match fault {
            AuditFault::BadLine(line) => Status::BadLine(line),
            AuditFault::TooLarge(line) => Status::TooLarge(Limit::Ops, line),
            AuditFault::Memory => Status::Memory,
        }
    }
}
