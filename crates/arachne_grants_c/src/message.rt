//! The C function that reads a client's message from bytes.
ghost use Rattle.std.specs.Prelude.{◌≡◌};
ghost use Rattle.arachne_grants_c.specs.MessageTold.{code_of, message_alone, told_message, IsRead};

use crate::codes::{ASK, HELLO, JOIN, KIND, PLACE, PRIORITY, SHORT, UNUSED, VERSION, WAIT};
use arachne_grants::{ClientMessage, MessageFault, read_message};

/// A message from a client. Fields that this kind of message does not use are 0.
#[repr(C)]
#[derive(Clone, Copy)]
pub struct ArachneMessage {
    /// HELLO, JOIN, WAIT or ASK if the bytes begin with such a message, and otherwise the code of the fault.
    pub code: u32,
    pub priority: u32,
    pub reserved: u32,
    pub most: u32,
    pub client: u32,
    pub thread: u32,
    pub place: u32,
    pub cores: u32,
    pub floats: bool,
}

/// Reads the message at the beginning of `bytes`.
///
/// Returns HELLO, JOIN, WAIT or ASK; SHORT if there are fewer than 16 bytes; otherwise KIND, VERSION, PRIORITY, PLACE
/// or UNUSED, for the first of the message's four numbers that is not valid.
#[unsafe(no_mangle)]
pub extern "C" fn arachne_message_read(bytes: &[u8]) -> ArachneMessage
    ensures { IsRead bytes.now result }
{
    match read_message(bytes) {
        Ok(message) => told_message(&message),
        Err(fault) => message_alone(code_of(&fault)),
    }
}

fn message_alone(code: u32) -> ArachneMessage
    ensures { result ≡ message_alone code }
{
    ArachneMessage {
        code,
        priority: 0,
        reserved: 0,
        most: 0,
        client: 0,
        thread: 0,
        place: 0,
        cores: 0,
        floats: false,
    }
}

fn told_message(message: &ClientMessage) -> ArachneMessage
    ensures { result ≡ told_message message.now }
{
    match *message {
        ClientMessage::Hello {
            priority,
            reserved,
            most,
        } => ArachneMessage {
            priority: u32::from(priority),
            reserved: u32::from(reserved),
            most: u32::from(most),
            ..message_alone(HELLO)
        },
        ClientMessage::Join {
            client,
            thread,
            place,
            floats,
        } => ArachneMessage {
            client,
            thread,
            place: u32::from(place),
            floats,
            ..message_alone(JOIN)
        },
        ClientMessage::Wait => message_alone(WAIT),
        ClientMessage::Ask { cores } => ArachneMessage {
            cores,
            ..message_alone(ASK)
        },
    }
}

fn code_of(fault: &MessageFault) -> u32
    ensures { result ≡ code_of fault.now }
{
    match fault {
        MessageFault::Short => SHORT,
        MessageFault::Kind => KIND,
        MessageFault::Version => VERSION,
        MessageFault::Priority => PRIORITY,
        MessageFault::Place => PLACE,
        MessageFault::Unused => UNUSED,
    }
}
