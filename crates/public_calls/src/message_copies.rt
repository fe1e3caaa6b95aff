// Copies of the messages of a log.
use crate::marks::{FIRST, Mark, VALUE};
use log_model::{PaxMsg, copy_report};
use std::test::Fail;

/// A message of each kind.
const MESSAGES: [PaxMsg<Mark>; 8] = [
    PaxMsg::Prepare(FIRST, 1),
    PaxMsg::Promise(FIRST, 2, None),
    PaxMsg::Promise(FIRST, 3, Some((FIRST, VALUE))),
    PaxMsg::Accept(FIRST, 4, VALUE),
    PaxMsg::Accepted(FIRST, 5, VALUE),
    PaxMsg::Ask(6),
    PaxMsg::Learn(7, VALUE),
    PaxMsg::Behind(8),
];

#[test]
fn a_copy_is_the_same_message(rt: HostRuntime) -> Result<(), Fail> {
    for message in &MESSAGES {
        assert_eq!(rt; message.copy()?, *message);
    }
    Ok(())
}

#[test]
fn a_copy_of_a_report_has_its_value(rt: HostRuntime) -> Result<(), Fail> {
    assert_eq!(rt; copy_report::<Mark>(&None)?, None);
    assert_eq!(rt; copy_report(&Some((FIRST, VALUE)))?, Some((FIRST, VALUE)));
    Ok(())
}
