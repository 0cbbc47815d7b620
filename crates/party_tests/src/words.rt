//! The words of the rows: senders, bytes, and messages as they leave.

use salus_types::{NoMemory, NodeName, Out, Sender};
use std::alloc::Global;
use std::str::SplitWhitespace;

fn digit(byte: u8) -> u8 {
    byte.saturating_sub(b'0')
}

/// The client, or a node by the digits of region and replica.
pub fn sender_of(word: &str) -> Option<Sender> {
    match word.as_bytes() {
        [b'c', ..] => Some(Sender::Client),
        [region, b'.', replica] => Some(Sender::Node(NodeName {
            region: digit(*region) as u16,
            replica: digit(*replica),
        })),
        _ => None,
    }
}

/// The bytes that the next word spells; none where there is no word.
pub fn bytes(alloc: Global, words: &mut SplitWhitespace) -> Vec<u8> {
    match words.next() {
        Some(word) => hex::decode(alloc, word).unwrap_or(Vec::new(alloc)),
        None => Vec::new(alloc),
    }
}

fn put_sender(text: &mut Vec<u8>, to: Sender) -> Result<(), NoMemory> {
    match to {
        Sender::Client => text.extend_from_slice(b"client")?,
        Sender::Node(name) => {
            text.push(b'0'.wrapping_add((name.region % 10) as u8))?;
            text.push(b'.')?;
            text.push(b'0'.wrapping_add(name.replica % 10))?;
        }
    }
    Ok(())
}

/// The receiver and the bytes of each message, a line each.
pub fn put_outs(alloc: Global, text: &mut Vec<u8>, outs: &[Out]) -> Result<(), NoMemory> {
    for out in outs {
        put_sender(text, out.to)?;
        text.push(b' ')?;
        match hex::encode(alloc, out.bytes.as_slice()) {
            Ok(spelled) => text.extend_from_slice(spelled.as_bytes())?,
            Err(_) => return Err(NoMemory),
        }
        text.push(b'\n')?;
    }
    Ok(())
}
