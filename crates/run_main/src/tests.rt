use crate::status::Status;
use std::test::Fail;
use workload::{Limit, WorkFault};

/// The number with which the program ends tells the cause apart.
#[test]
fn each_status_has_a_number_of_its_own(rt: HostRuntime) -> Result<(), Fail> {
    let expected = [
        (Status::Done, 0),
        (Status::Usage, 2),
        (Status::BadLine(1), 3),
        (Status::ReadFault, 4),
        (Status::WriteFault, 5),
        (Status::KeeperFault, 6),
        (Status::Memory, 7),
        (Status::TooLarge(Limit::Input, 0), 8),
    ];
    for (status, number) in expected {
        assert_eq!(rt; status.exit_number(), number);
    }
    Ok(())
}

#[test]
fn a_fault_of_the_workload_keeps_its_line(rt: HostRuntime) -> Result<(), Fail> {
    assert_eq!(rt; Status::from(WorkFault::BadLine(7)), Status::BadLine(7));
    let body = WorkFault::TooLarge(Limit::Body, 9);
    assert_eq!(rt; Status::from(body), Status::TooLarge(Limit::Body, 9));
    assert_eq!(rt; Status::from(WorkFault::Memory), Status::Memory);
    Ok(())
}
