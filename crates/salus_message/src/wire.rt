ghost use Rattle.std.specs.Prelude.{◌≡◌, ◌≤◌, ◌∷◌, ◌++◌, Some, Ok, IfOk, OnOk};
ghost use Rattle.salus_types.specs.Outcome.{Gives};
ghost use Rattle.salus_codec.specs.Reading.{field_fault};
ghost use Rattle.salus_message.specs.declared.wire.Message.{Message as AnyMessage};
ghost use Rattle.salus_message.specs.Kinds.{kind_of, byte_of};
ghost use Rattle.salus_message.specs.Spelling.{fields_bytes, message_bytes};
ghost use Rattle.salus_message.specs.Ranges.{IsMessage, HasWidths};
ghost use Rattle.salus_message.specs.Reading.{fields_at, fault_of, whole, message_at, message_words, message_fault};

use crate::carried::{
    Dumped, Gathered, Part, Stage, put_dumped, put_gathered, read_dumped, read_gathered,
};
use crate::kinds::Kind;
use crate::replies::{Answer, put_answer, read_answer};
use crate::small::{
    Ask, Committed, Dump, Gather, Prepared, Staged, Switch, Switched, put_ask, put_committed,
    put_dump, put_prepared, read_ask, read_committed, read_dump, read_prepared,
};
use client_tag::{read_base, read_record, write_base, write_record};
use salus_codec::{FieldError, Fields, put_u64};
use salus_types::NoMemory;
use std::alloc::Global;
use std::error::Error;
use std::fmt;

/// What goes between client and servers.
#[derive(Debug, Drop)]
pub enum Message {
    Part(Part),
    Prepared(Prepared),
    Committed(Committed),
    Ask(Ask),
    Answer(Answer),
    Gather(Gather),
    Gathered(Gathered),
    Stage(Stage),
    Staged(Staged),
    Switch(Switch),
    Switched(Switched),
    Dump(Dump),
    Dumped(Dumped),
}

/// Why bytes are no message: what is wrong with the first field that fails, from left to right.
#[derive(Clone, Copy, PartialEq, Eq, Debug, Drop)]
pub enum MessageError {
    /// Too few bytes remain for the field; no byte at all is short too.
    Short,
    /// The first byte isn't 1 to 13.
    Tag,
    /// The field is there and lies outside its range.
    Count,
    /// All fields are read, and bytes remain.
    Trailing,
    /// There was no memory.
    NoMemory,
}

impl fmt::Display for MessageError {
    ghost output = { λ error. Some (message_words error) };

    fn fmt<W: fmt::Write>(&self, f: &mut fmt::Formatter<W>) -> fmt::Result {
        match self {
            MessageError::Short => write!(f, "too few bytes"),
            MessageError::Tag => write!(f, "unknown kind"),
            MessageError::Count => write!(f, "field out of range"),
            MessageError::Trailing => write!(f, "bytes left over"),
            MessageError::NoMemory => write!(f, "out of memory"),
        }
    }
}

impl Error for MessageError {}

fn fault(error: FieldError) -> MessageError
    ensures { result ≡ fault_of error }
{
    match error {
        FieldError::Short => MessageError::Short,
        FieldError::Count => MessageError::Count,
        FieldError::NoMemory => MessageError::NoMemory,
    }
}

fn read_fields(alloc: Global, kind: Kind, fields: &mut Fields) -> Result<Message, FieldError>
    ensures { Gives (λ x. Ok (x, fields.new)) field_fault result (fields_at kind fields.old) }
{
    match kind {
        Kind::Part => Ok(Message::Part(Part {
            rec: read_record(alloc, fields)?,
        })),
        Kind::Prepared => Ok(Message::Prepared(read_prepared(fields)?)),
        Kind::Committed => Ok(Message::Committed(read_committed(fields)?)),
        Kind::Ask => Ok(Message::Ask(read_ask(fields)?)),
        Kind::Answer => Ok(Message::Answer(read_answer(alloc, fields)?)),
        Kind::Gather => Ok(Message::Gather(Gather {
            session: fields.u64()?,
        })),
        Kind::Gathered => Ok(Message::Gathered(read_gathered(alloc, fields)?)),
        Kind::Stage => Ok(Message::Stage(Stage {
            base: read_base(alloc, fields)?,
        })),
        Kind::Staged => Ok(Message::Staged(Staged {
            session: fields.u64()?,
        })),
        Kind::Switch => Ok(Message::Switch(Switch {
            session: fields.u64()?,
        })),
        Kind::Switched => Ok(Message::Switched(Switched {
            session: fields.u64()?,
        })),
        Kind::Dump => Ok(Message::Dump(read_dump(fields)?)),
        Kind::Dumped => Ok(Message::Dumped(read_dumped(alloc, fields)?)),
    }
}

fn read_whole(alloc: Global, kind: Kind, bytes: &[u8]) -> Result<Message, MessageError>
    ensures { Gives Ok message_fault result (whole (fields_at kind bytes.now)) }
{
    let mut fields = Fields::new(bytes);
    match read_fields(alloc, kind, &mut fields) {
        Err(error) => Err(fault(error)),
        Ok(message) => {
            if fields.rest() == 0 {
                Ok(message)
            } else {
                Err(MessageError::Trailing)
            }
        }
    }
}

#[tactic(auto, unfolding(crate::specs::Reading::message_at))]
fn read_message(alloc: Global, bytes: &[u8]) -> Result<Message, MessageError>
    ensures { Gives Ok message_fault result (message_at bytes.now) }
{
    match bytes {
        [] => Err(MessageError::Short),
        [byte, rest @ ..] => match Kind::from_byte(*byte) {
            None => Err(MessageError::Tag),
            Some(kind) => read_whole(alloc, kind, rest),
        },
    }
}

/// The message that the bytes spell, all of the bytes.
pub fn decode(alloc: Global, bytes: &[u8]) -> Result<Message, MessageError>
    // What is read is spelled so.
    ensures found { IfOk result (λ m. (bytes.now ≡ message_bytes m) × IsMessage m × HasWidths m) }
    // What is spelled so is read, unless memory runs out.
    ensures only { (m : AnyMessage) → IsMessage m → HasWidths m → bytes.now ≡ message_bytes m → Gives Ok message_fault result (Ok m) }
    // Which refusal it is.
    ensures exact { Gives Ok message_fault result (message_at bytes.now) }
{
    read_message(alloc, bytes)
}

fn first_byte(message: &Message) -> u8
    ensures { result ≡ byte_of (kind_of message.now) }
{
    let kind = match message {
        Message::Part(_) => Kind::Part,
        Message::Prepared(_) => Kind::Prepared,
        Message::Committed(_) => Kind::Committed,
        Message::Ask(_) => Kind::Ask,
        Message::Answer(_) => Kind::Answer,
        Message::Gather(_) => Kind::Gather,
        Message::Gathered(_) => Kind::Gathered,
        Message::Stage(_) => Kind::Stage,
        Message::Staged(_) => Kind::Staged,
        Message::Switch(_) => Kind::Switch,
        Message::Switched(_) => Kind::Switched,
        Message::Dump(_) => Kind::Dump,
        Message::Dumped(_) => Kind::Dumped,
    };
    kind.byte()
}

fn put_fields(out: &mut Vec<u8>, message: &Message) -> Result<(), NoMemory>
    requires { IsMessage message.now }
    ensures { OnOk result (out.new.items ≡ out.old.items ++ fields_bytes message.now) }
{
    match message {
        Message::Part(part) => write_record(&part.rec, out),
        Message::Prepared(prepared) => put_prepared(out, prepared),
        Message::Committed(committed) => put_committed(out, committed),
        Message::Ask(ask) => put_ask(out, ask),
        Message::Answer(answer) => put_answer(out, answer),
        Message::Gather(gather) => put_u64(out, gather.session),
        Message::Gathered(gathered) => put_gathered(out, gathered),
        Message::Stage(stage) => write_base(&stage.base, out),
        Message::Staged(staged) => put_u64(out, staged.session),
        Message::Switch(switch) => put_u64(out, switch.session),
        Message::Switched(switched) => put_u64(out, switched.session),
        Message::Dump(dump) => put_dump(out, dump),
        Message::Dumped(dumped) => put_dumped(out, dumped),
    }
}

/// Room for the bytes of most messages, so that they are written without moving.
fn room_for(message: &Message) -> usize
    requires { IsMessage message.now }
    ensures { result ≤ 4544 }
{
    match message {
        Message::Answer(answer) => 64 + answer.bytes.len() + 32 * answer.path.len(),
        Message::Part(_) | Message::Gathered(_) | Message::Stage(_) | Message::Dumped(_) => 1024,
        _ => 64,
    }
}

/// The one spelling of the message.
pub fn encode(alloc: Global, message: &Message) -> Result<Vec<u8>, NoMemory>
    requires { IsMessage message.now }
    ensures { IfOk result (λ out. out.items ≡ message_bytes message.now) }
{
    let mut out = Vec::with_capacity(alloc, room_for(message))?;
    out.push(first_byte(message))?;
    put_fields(&mut out, message)?;
    Ok(out)
}
