//! Reads messages of clients (programs) to the daemon that grants cores. A message is four little-endian `u32`.
ghost use Rattle.std.specs.Prelude.{◌≡◌, ◌+◌, ◌<◌, ◌≤◌, IfErr, IfOk, length};
ghost use Rattle.arachne_grants.specs.Messages.{number_at, numbers_in, AreOf, IsFaultOf, IsFirstWrong, IsMessageOf, IsUnambiguous};

/// The number of bytes of a message.
pub const MESSAGE_BYTES: usize = 16;

/// The version of the protocol, which a client's first message names.
pub const PROTOCOL_VERSION: u32 = 1;

/// The number of priorities, which are 0 to 7.
pub const PRIORITIES: u32 = 8;

const HELLO: u32 = 1;

const JOIN: u32 = 2;

const WAIT: u32 = 3;

const ASK: u32 = 4;

/// A client's message to the daemon that grants cores.
#[derive(Clone, Copy, Debug, PartialEq, Eq)]
pub enum ClientMessage {
    /// A client's first message. The message names the client's priority (0 is the highest), the number of cores that
    /// it reserves, and the greatest number that it may ask for.
    Hello {
        priority: u8,
        reserved: u16,
        most: u16,
    },
    /// A kernel thread registers with the client that has the number `client`. `thread` is the thread's id in the
    /// kernel, and `place` its number within the client. If `floats` is true, the thread never waits for a core: the
    /// daemon moves it to and from cores while it runs.
    Join {
        client: u32,
        thread: u32,
        place: u8,
        floats: bool,
    },
    /// The thread that sends this message gives its core back, if it has one, and waits for another core.
    Wait,
    /// The client asks for this number of cores in all. This replaces its last request.
    Ask {
        cores: u32,
    },
}

/// The reason why bytes don't begin with a message. If several numbers are wrong, the fault is that of the first.
#[derive(Clone, Copy, Debug, PartialEq, Eq)]
pub enum MessageFault {
    /// There are fewer than `MESSAGE_BYTES` bytes.
    Short,
    /// There is no kind of message with this number.
    Kind,
    /// The client speaks another version of the protocol.
    Version,
    /// The priority is greater than 7.
    Priority,
    /// The thread's number within its client is greater than 63.
    Place,
    /// A number that this kind of message does not use is greater than 0.
    Unused,
}

#[derive(Clone, Copy)]
pub(crate) struct Numbers {
    pub kind: u32,
    pub first: u32,
    pub second: u32,
    pub third: u32,
}

/// Reads the message at the beginning of `bytes`.
pub fn read_message(bytes: &[u8]) -> Result<ClientMessage, MessageFault>
    ensures message { IfOk result (IsMessageOf bytes.now) }
    ensures fault { IfErr result (IsFaultOf bytes.now) }
{
    if bytes.len() < MESSAGE_BYTES {
        return Err(MessageFault::Short);
    }
    message_of(&Numbers {
        kind: number_at(bytes, 0),
        first: number_at(bytes, 4),
        second: number_at(bytes, 8),
        third: number_at(bytes, 12),
    })
}

/// Does nothing. The contract says that bytes begin with at most one message, and have no fault if they begin with one.
pub fn messages_are_unambiguous(bytes: &[u8])
    ensures { IsUnambiguous bytes.now }
{}

fn number_at(bytes: &[u8], at: usize) -> u32
    requires { at + 4 ≤ length bytes.now }
    ensures { result ≡ number_at bytes.now at }
{
    u32::from_le_bytes([bytes[at], bytes[at + 1], bytes[at + 2], bytes[at + 3]])
}

/// Returns the message that these four numbers make up, or why the first wrong number is wrong.
fn message_of(numbers: &Numbers) -> Result<ClientMessage, MessageFault>
    ensures message { IfOk result (AreOf numbers.now) }
    ensures fault { IfErr result (IsFirstWrong numbers.now) }
{
    match numbers.kind {
        HELLO => hello_of(numbers),
        JOIN => join_of(numbers),
        WAIT => wait_of(numbers),
        ASK => ask_of(numbers),
        _ => Err(MessageFault::Kind),
    }
}

fn hello_of(numbers: &Numbers) -> Result<ClientMessage, MessageFault>
    requires { numbers.now.kind ≡ 1 }
    ensures message { IfOk result (AreOf numbers.now) }
    ensures fault { IfErr result (IsFirstWrong numbers.now) }
{
    if numbers.first != PROTOCOL_VERSION {
        return Err(MessageFault::Version);
    }
    if numbers.second >= PRIORITIES {
        return Err(MessageFault::Priority);
    }
    let cores = numbers.third;
    Ok(ClientMessage::Hello {
        priority: numbers.second as u8,
        reserved: (cores / 65536) as u16,
        most: (cores % 65536) as u16,
    })
}

fn join_of(numbers: &Numbers) -> Result<ClientMessage, MessageFault>
    requires { numbers.now.kind ≡ 2 }
    ensures message { IfOk result (AreOf numbers.now) }
    ensures fault { IfErr result (IsFirstWrong numbers.now) }
{
    if numbers.third >= 128 {
        return Err(MessageFault::Place);
    }
    Ok(ClientMessage::Join {
        client: numbers.first,
        thread: numbers.second,
        place: (numbers.third / 2) as u8,
        floats: numbers.third % 2 == 1,
    })
}

fn wait_of(numbers: &Numbers) -> Result<ClientMessage, MessageFault>
    requires { numbers.now.kind ≡ 3 }
    ensures message { IfOk result (AreOf numbers.now) }
    ensures fault { IfErr result (IsFirstWrong numbers.now) }
{
    if numbers.first != 0 || numbers.second != 0 || numbers.third != 0 {
        return Err(MessageFault::Unused);
    }
    Ok(ClientMessage::Wait)
}

fn ask_of(numbers: &Numbers) -> Result<ClientMessage, MessageFault>
    requires { numbers.now.kind ≡ 4 }
    ensures message { IfOk result (AreOf numbers.now) }
    ensures fault { IfErr result (IsFirstWrong numbers.now) }
{
    if numbers.second != 0 || numbers.third != 0 {
        return Err(MessageFault::Unused);
    }
    Ok(ClientMessage::Ask {
        cores: numbers.first,
    })
}
