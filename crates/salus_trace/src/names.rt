use salus_message::{Kind, MessageError, decode};
use salus_model::Sent;
use salus_types::{NoMemory, NodeName, Sender};
use std::alloc::Global;
use text_words::{put, put_number};

pub fn put_node(out: &mut Vec<u8>, name: NodeName) -> Result<(), NoMemory> {
    put_number(out, b"", u64::from(name.region))?;
    put_number(out, b".", u64::from(name.replica))
}

pub fn put_party(out: &mut Vec<u8>, party: Sender) -> Result<(), NoMemory> {
    match party {
        Sender::Client => put(out, b"client"),
        Sender::Node(name) => put_node(out, name),
    }
}

fn word_of(kind: Kind) -> &'static str {
    match kind {
        Kind::Part => "part",
        Kind::Prepared => "prepared",
        Kind::Committed => "committed",
        Kind::Ask => "ask",
        Kind::Answer => "answer",
        Kind::Gather => "gather",
        Kind::Gathered => "gathered",
        Kind::Stage => "stage",
        Kind::Staged => "staged",
        Kind::Switch => "switch",
        Kind::Switched => "switched",
        Kind::Dump => "dump",
        Kind::Dumped => "dumped",
    }
}

/// What a message is, by its first byte. No party sends one that isn't of a kind.
pub fn kind_word(bytes: &[u8]) -> &'static str {
    match bytes.first() {
        None => "nothing",
        Some(byte) => match Kind::from_byte(*byte) {
            None => "bytes",
            Some(kind) => word_of(kind),
        },
    }
}

/// What bytes are that anyone may have made: bytes that are no message are no more than that.
pub fn told_word(alloc: Global, bytes: &[u8]) -> Result<&'static str, NoMemory> {
    match decode(alloc, bytes) {
        Ok(_) => Ok(kind_word(bytes)),
        Err(MessageError::NoMemory) => Err(NoMemory),
        Err(_) => Ok("no message"),
    }
}

/// A message by its kind, its number and its ends.
pub fn put_message(out: &mut Vec<u8>, number: u64, message: &Sent) -> Result<(), NoMemory> {
    put(out, kind_word(message.bytes.as_slice()).as_bytes())?;
    put_number(out, b" #", number)?;
    put(out, b" ")?;
    put_party(out, message.from)?;
    put(out, b" to ")?;
    put_party(out, message.to)
}
