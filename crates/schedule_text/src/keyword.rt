ghost use Rattle.std.specs.Prelude.{◌≡◌};
ghost use Rattle.schedule_text.specs.Reading.{keyword_of, message_keyword, outage_keyword};

/// The first word of an event's line.
#[derive(Clone, Copy, PartialEq, Eq, Debug, Drop)]
pub enum Keyword {
    Write,
    Read,
    Barrier,
    Deliver,
    Settle,
    Drop,
    Lie,
    Stop,
    Crash,
    Fail,
    Replace,
    ClientCrash,
    Restart,
    Reassign,
    Tick,
}

#[tactic(auto, unfolding(crate::specs::Reading::outage_keyword))]
fn outage_keyword(word: &[u8]) -> Option<Keyword>
    ensures { result ≡ outage_keyword word.now }
{
    if word == b"crash".as_slice() {
        Some(Keyword::Crash)
    } else if word == b"fail".as_slice() {
        Some(Keyword::Fail)
    } else if word == b"replace".as_slice() {
        Some(Keyword::Replace)
    } else if word == b"clientcrash".as_slice() {
        Some(Keyword::ClientCrash)
    } else if word == b"tick".as_slice() {
        Some(Keyword::Tick)
    } else {
        None
    }
}

#[tactic(auto, unfolding(crate::specs::Reading::message_keyword))]
fn message_keyword(word: &[u8]) -> Option<Keyword>
    ensures { result ≡ message_keyword word.now }
{
    if word == b"deliver".as_slice() {
        Some(Keyword::Deliver)
    } else if word == b"settle".as_slice() {
        Some(Keyword::Settle)
    } else if word == b"drop".as_slice() {
        Some(Keyword::Drop)
    } else if word == b"lie".as_slice() {
        Some(Keyword::Lie)
    } else if word == b"stop".as_slice() {
        Some(Keyword::Stop)
    } else {
        outage_keyword(word)
    }
}

/// The event that a line's first word names.
#[tactic(auto, unfolding(crate::specs::Reading::keyword_of))]
pub fn keyword_of(word: &[u8]) -> Option<Keyword>
    ensures { result ≡ keyword_of word.now }
{
    if word == b"write".as_slice() {
        Some(Keyword::Write)
    } else if word == b"read".as_slice() {
        Some(Keyword::Read)
    } else if word == b"barrier".as_slice() {
        Some(Keyword::Barrier)
    } else if word == b"restart".as_slice() {
        Some(Keyword::Restart)
    } else if word == b"reassign".as_slice() {
        Some(Keyword::Reassign)
    } else {
        message_keyword(word)
    }
}
