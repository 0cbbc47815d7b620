//! The program on whole schedules: what it prints, what it refuses, and what it does when source or sink fail.

ghost use Rattle.std.specs.Prelude.{◌≤◌};

use salus_commands::{Report, salus};
use salus_io::{MemSink, MemSource};
use salus_types::NoMemory;
use std::alloc::Global;

/// What a command did.
#[derive(Drop)]
struct Outcome {
    status: u8,
    held: Vec<u8>,
}

fn words_of(alloc: Global, text: &str) -> Result<Vec<String>, NoMemory> {
    let mut words = Vec::new(alloc);
    for word in text.split_whitespace() {
        words.push(String::from_str(alloc, word)?)?;
    }
    Ok(words)
}

/// The command over a source and a sink of pieces of so many bytes, whose call of that number fails; 0 is none.
fn run_command(
    alloc: Global,
    words: &str,
    text: &[u8],
    piece: u64,
    source_fails: u64,
    sink_fails: u64,
) -> Result<Outcome, NoMemory>
    requires { 1 ≤ piece }
{
    let words = words_of(alloc, words)?;
    let mut source = MemSource::new(alloc, Vec::from_slice(alloc, text)?, piece);
    let mut sink = MemSink::new(alloc, piece);
    if source_fails > 0 {
        source.fail_at(source_fails)?;
    }
    if sink_fails > 0 {
        sink.fail_at(sink_fails)?;
    }
    let mut report = Report::new(alloc);
    let status = salus(alloc, &words, &mut source, &mut sink, &mut report);
    Ok(Outcome {
        status,
        held: Vec::from_slice(alloc, sink.held())?,
    })
}

/// A text, in which `~` stands for a line end, `#` for a number and `%` for the two digits of a byte.
fn text_of(alloc: Global, row: &str, number: &str, byte: &str) -> Result<Vec<u8>, NoMemory> {
    let mut text = Vec::new(alloc);
    for letter in row.as_bytes() {
        match *letter {
            b'~' => text.push(b'\n')?,
            b'#' => text.extend_from_slice(number.as_bytes())?,
            b'%' => text.extend_from_slice(byte.as_bytes())?,
            other => text.push(other)?,
        }
    }
    Ok(text)
}

/// Whether a text ends with that status, and so much is written.
fn ends_so(
    alloc: Global,
    text: &str,
    written: &str,
    number: &str,
    byte: &str,
    status: u8,
) -> Result<bool, NoMemory> {
    let text = text_of(alloc, text, number, byte)?;
    let written = text_of(alloc, written, "", "")?;
    let outcome = run_command(alloc, "replay", text.as_slice(), 4096, 0, 0)?;
    Ok(outcome.status == status && outcome.held.as_slice() == written.as_slice())
}

/// The same of a row, a text and what is written with `=` between them.
fn is_right(
    alloc: Global,
    row: &str,
    number: &str,
    byte: &str,
    status: u8,
) -> Result<bool, NoMemory> {
    let (text, written) = row.split_once('=').unwrap_or(("", ""));
    ends_so(alloc, text, written, number, byte, status)
}

/// The first of the rows, one a line, that isn't so.
fn wrong_row<'a>(alloc: Global, rows: &'a str, status: u8) -> Option<&'a str> {
    for row in rows.lines() {
        if !matches!(is_right(alloc, row, "", "", status), Ok(true)) {
            return Some(row);
        }
    }
    None
}

/// Ordinary use, hostile answers, messages out of order, devices that fail, and what is refused when a client is full.
fn runs() -> &'static str {
    "\
volume 0 0 1 1 6b=
volume 1 1 2 1 6b~read 3~settle 2=read 1 3 *00~
volume 0 0 1 1 6b~read 1~deliver 1=refused 1 range 1~skip 2 1~
volume 0 1 1 1 6b~write 1 *0a 1 *0b~read 1~settle 20=submit 1 1~read 2 1 *0b~ack 1~
volume 0 0 1 1 6b~write 0 *07~settle 10~read 0~settle 10=submit 1 1~ack 1~read 3 0 *07~
volume 1 0 1 1 6b~write 0 *01 1 *02~write 1 *03~read 1~settle 20=submit 1 1~submit 2 2~ack 1~read 3 1 *03~ack 2~
volume 0 0 1 1 6b~write 0 *01~read 0~lie 0.0 client 050000000000000001000000010000000100000000000000000000000000010900~settle 10=fault 1 0 96a296d224f285c67bee93c30f8a309157f0daa35dc5b87e410b78630a09cfc7:c87479cd656e7e3ad6bd8db402e8027df454b2b0c42ff29e093458beb98a23d4~read 2 0 *00~
volume 0 0 1 2 6b~read 0~lie 0.0 client 050000000000000001000000000000000100000000000000000000000000010900~lie 0.1 client 050000000000000001000000000000000100000000000000000000000500010000~read 0~settle 10=fault 1 0 96a296d224f285c67bee93c30f8a309157f0daa35dc5b87e410b78630a09cfc7:c87479cd656e7e3ad6bd8db402e8027df454b2b0c42ff29e093458beb98a23d4 past:5:0~read 4 0 *00~
volume 0 0 1 1 6b~write 0 *01~settle 9~write 0 *02~settle 9~read 0~lie 0.0 client 050000000000000001000000000000000500000000000000000000000200010100=submit 1 1~ack 1~submit 3 2~ack 2~fault 5 0 fcf0a6c700dd13e274b6fba8deea8dd9b26e4eedde3495717cac8408c9c5177f:b413f47d13ee2fe6c845b2ee141af81de858df4ec549a58b7970bb96645bc8d2~
volume 0 0 1 2 6b~write 0 *07~settle 100~read 0~lie 0.0 client 050000000000000001000000000000000300000000000000000000000100010600~deliver 18~deliver 19=submit 1 1~ack 1~read 3 0 *07~
volume 0 0 1 1 6b~write 0 *07~settle 3~read 0~lie 0.0 client 050000000000000001000000000000000300000000000000000000000100010600~read 0~deliver 6~deliver 7=submit 1 1~fault 3 0 2ecd8a6b7d2845546659ad4cf443533cf921b19dc81fa83934e83821b4dfdcb7:40d88127d4d31a3891f41598eeed41174e5bc89b1eb9bbd66a8cbfc09956a3fd~read 5 0 *07~
volume 0 0 1 1 6b~fail 0.0 2~write 0 *07~settle 10~tick client~settle 10=submit 2 1~
volume 0 0 1 1 6b~fail 0.0 2~write 0 *07~settle 10~tick client~settle 10~crash 0.0 0 00~tick client~settle 20=submit 2 1~ack 1~
volume 1 0 1 1 6b~write 0 *01~write 1 *02~deliver 1~deliver 2~deliver 4~deliver 5~deliver 6~deliver 7=submit 1 1~submit 2 2~
volume 1 0 1 1 6b~write 0 *01~write 1 *02~deliver 1~deliver 2~deliver 4~deliver 5~deliver 6~deliver 7~settle 20=submit 1 1~submit 2 2~ack 1~ack 2~
volume 0 0 1 2 6b~write 0 *01~write 0 *02~deliver 1~deliver 3~deliver 4~deliver 6~deliver 10~deliver 12~deliver 12~deliver 5~deliver 5~settle 100=submit 1 1~submit 2 2~ack 1~ack 2~
volume 2 1 512 3 6b6579~write 0 *11 3 *22~write 2 *33 5 *44~barrier~write 7 *55~settle 1000~read 3~read 7~settle 100=submit 1 1~submit 2 2~ack 1~submit 4 3~ack 2~barrier 3 2~ack 3~read 6 3 *22~read 7 7 *55~
volume 0 0 1 1 6b~write 0 *11~write 0 *11~write 0 *11~write 0 *11~write 0 *11~write 0 *11~write 0 *11~write 0 *11~write 0 *11~write 0 *11~write 0 *11~write 0 *11~write 0 *11~write 0 *11~write 0 *11~write 0 *11~write 0 *11=refused 17 full 16~
volume 0 0 1 1 6b~write 0 *11~write 0 *11~write 0 *11~write 0 *11~write 0 *11~write 0 *11~write 0 *11~write 0 *11~write 0 *11~write 0 *11~write 0 *11~write 0 *11~write 0 *11~write 0 *11~write 0 *11~write 0 *11~write 0 *11~settle 7~write 0 *11~settle 1000=refused 17 full 16~submit 1 1~submit 2 2~ack 1~submit 3 3~ack 2~submit 4 4~ack 3~submit 5 5~ack 4~submit 6 6~ack 5~submit 7 7~ack 6~submit 8 8~ack 7~submit 9 9~ack 8~submit 10 10~ack 9~submit 11 11~ack 10~submit 12 12~ack 11~submit 13 13~ack 12~submit 14 14~ack 13~submit 15 15~ack 14~submit 16 16~ack 15~submit 19 17~ack 16~ack 17~
volume 0 0 1 1 6b~read 0~read 0~read 0~read 0~read 0~read 0~read 0~read 0~read 0~read 0~read 0~read 0~read 0~read 0~read 0~read 0~read 0~read 0~read 0~read 0~read 0~read 0~read 0~read 0~read 0~read 0~read 0~read 0~read 0~read 0~read 0~read 0~read 0~read 0~read 0~read 0~read 0~read 0~read 0~read 0~read 0~read 0~read 0~read 0~read 0~read 0~read 0~read 0~read 0~read 0~read 0~read 0~read 0~read 0~read 0~read 0~read 0~read 0~read 0~read 0~read 0~read 0~read 0~read 0~read 0=refused 65 full 64~"
}

/// Runs in which disks stop, fail and crash, a client crashes, messages are lost, and parties send again.
fn rough_runs() -> &'static str {
    "\
volume 2 2 1 2 e639782c92c65ca2f26014bf50a602fc0434b1639aa0e10a7336eb471ddd8ed62b6f409306afba8ede0f74bcd454a944506e14975f23f652f7119d78dc401780~barrier~barrier~deliver 18446744073709551615~read 7~write 4 *27 2 *e2 3 *75~write 10 *c8~read 6~settle 20000=barrier 1 0~barrier 2 0~skip 3 18446744073709551615~read 4 7 *00~submit 5 1~submit 6 2~ack 1~read 7 6 *00~ack 2~
volume 0 0 3 2 40~write 0 *86 0 *16~barrier~write 0 *c8 0 dfadae~write 0 *bd 0 56db6a 0 *03~write 0 *af~write 0 bc8e50~settle 20000=submit 1 1~submit 3 2~ack 1~barrier 2 1~submit 4 3~ack 2~submit 5 4~ack 3~submit 6 5~ack 4~ack 5~
volume 0 0 4 4 772f87~read 0~read 0~settle 12~drop 7~settle 1~settle 3~stop 7 8 0 00~deliver 17~settle 8~deliver 10~settle 20~settle 2~tick client~write 0 24c3ee8a 0 *6b 0 *1b~drop 20~deliver 18~drop 19~deliver 21~settle 2~stop 26 0 5 01~crash 0.3 76 01~crash 0.2 18446744073709551615 00~settle 100~write 0 *93~settle 20000=read 1 0 *00~read 2 0 *00~submit 14 1~submit 24 2~
volume 0 0 1 1 27c113859e2f60777ffba9c0bcf909fe043024a9796d4ce29cc2b44e59092350f4b361d898674f8aed285b1dd0cc54e12d2137dbce5e67b8ccdafd08cfcd9ec1~settle 40~write 0 *01~settle 8~settle 3~write 0 *d2~settle 8~barrier~read 0~write 0 *52~write 0 *32~deliver 13~deliver 14~deliver 16~drop 17~read 0~read 0~write 0 *cb~deliver 15~deliver 18~deliver 19~write 0 *d4 0 *f5~write 0 *fe~fail 0.0 6~deliver 17~crash 0.0 1 ff~settle 100~settle 8~deliver 38~deliver 1~drop 41~deliver 41~stop 3 7 5 61~write 0 *41 0 *bf~settle 20000=submit 2 1~ack 1~submit 5 2~ack 2~barrier 7 2~submit 9 3~read 8 0 *52~submit 10 4~read 15 0 *32~read 16 0 *32~submit 17 5~submit 21 6~submit 22 7~submit 33 8~
volume 1 1 2 1 5f~deliver 0~fail 1.0 5~tick client~crash 1.0 1 00~read 0~settle 2~write 3 *86 3 911a 3 *3f~deliver 3~crash 0.0 5 01~stop 4 3 2 01~deliver 4~deliver 4~barrier~settle 2~write 3 *e0 1 *fe 1 ed10 0 *e1 2 6113 0 79d8~write 0 *26 2 *d4 1 83b8 9223372036854775812 *f7 1 *5f 3 85aa~deliver 12~settle 5~deliver 15~settle 40~barrier~settle 1~settle 100~tick client~settle 1~settle 5~tick client~write 0 *51~write 3 *77 1 7c69 2 *99 2 f503 3 a5b0 9223372036854775812 93c9~write 0 *03~write 3 9806~write 3 c6de~write 0 7750 0 *6d 1 *a6 2 b1c1 0 *12 2 *0a~write 0 *a1~write 4 2f69~write 2 *c4~write 3 *9a~write 0 *59=skip 1 0~read 5 0 *00~skip 10 4~submit 7 1~refused 16 range 9223372036854775812~ack 1~barrier 13 1~submit 15 2~ack 2~barrier 21 2~refused 29 range 9223372036854775812~refused 35 range 4~
volume 0 1 3 2 2e~write 1 bedcff 0 *b8~deliver 4~fail 0.1 10~stop 4 9 43 01~drop 2~settle 40~fail 0.1 9~settle 8~lie 0.1 client 0d000000000000000100000000000000000001000000020003000000e8bfb9~settle 3~read 1~read 1~write 1 59c117~write 0 e8e579~write 1 902fdd 0 ffd732 0 25c571 1 *82 0 *c2 0 *72~write 1 *08~write 1 *7c~write 0 *8d 0 *38 1 6397fd~write 1 383cf2~write 1 a50131 0 *a2 0 *13 1 *42 0 *e5 0 32486a~write 1 5022ba~write 0 *99~deliver 21~deliver 22~deliver 23~deliver 24~deliver 25~deliver 26~deliver 27~deliver 28~deliver 29~deliver 30~deliver 31~deliver 32~deliver 35~deliver 36~deliver 34~deliver 33~write 1 *52~fail 0.1 4~settle 40=submit 1 1~ack 1~read 11 1 bedcff~read 12 1 bedcff~submit 13 2~submit 14 3~ack 2~submit 15 4~submit 16 5~submit 17 6~
volume 0 0 2 1 6d~deliver 1~tick client~clientcrash~deliver 18446744073709551615~write 0 6bae~write 0 d125~write 0 *5d~write 0 *62 0 *cf 0 *e4 0 *5d 1 *e0 0 542a~write 1 b740~write 0 *b1~write 0 *75 0 1552 0 *77~write 0 *20~settle 1000~tick client~tick 0.0~deliver 1~tick client~deliver 0~tick client~tick 0.0~deliver 5~stop 18446744073709551615 0 0 00~barrier~crash 0.0 2 d2~settle 4~deliver 1~deliver 1~write 0 *ba~write 0 *01~write 0 45d1~write 0 *e8~write 0 *e7~write 0 d570 0 dbba 0 044b~write 0 *07~write 0 *a3 0 *93 0 *ef 0 713a 0 1b9b 0 855e~write 0 *dd 0 *83~write 0 87e2 0 *4f 0 f8d9 0 *cf 0 *17 0 *ef~settle 1000~tick client~tick 0.0=skip 1 1~skip 4 18446744073709551615~refused 5 closed~refused 6 closed~refused 7 closed~refused 8 closed~refused 9 closed~refused 10 closed~refused 11 closed~refused 12 closed~skip 16 1~skip 18 0~skip 21 5~skip 22 18446744073709551615~refused 23 closed~skip 26 1~skip 27 1~refused 28 closed~refused 29 closed~refused 30 closed~refused 31 closed~refused 32 closed~refused 33 closed~refused 34 closed~refused 35 closed~refused 36 closed~refused 37 closed~
volume 1 2 2 3 bb9176ecebc4f66b18aebadce039f08155dcf39f0b60058e3ad85e206177fb1a6e708be83748ceef92a4d36ed6c4c79f8394aac99ca532b63cb0687ff1f61079~write 4 *ac 6 *ef 6 *dd 5 3a71 7 575c 2 *06~write 7 *bb~crash 0.1 2 00~write 0 *1b 1 *72 2 51ed 2 1d5e 5 *fc 0 *eb~replace 1.2~deliver 3~settle 8~deliver 12~deliver 22~deliver 18~deliver 14~deliver 16~deliver 13~deliver 20~deliver 21~deliver 17~deliver 10~deliver 11~deliver 11~deliver 15~deliver 19~fail 0.1 12~drop 24~stop 11 3 0 00~write 0 *01~deliver 26~write 5 201b~settle 12~write 7 e79b~write 5 5c3d~settle 100~read 1~deliver 52~crash 0.1 0 00~write 1 *4a 5 adec~read 2~write 6 *3c~read 6~write 6 0e0c~write 0 *b1 0 *d6 1 *db~write 2 *d7~write 6 73c8=submit 1 1~submit 2 2~submit 4 3~submit 25 4~submit 27 5~
volume 1 1 3 3 12~write 2 86365f 3 066d0e 2 *75 2 *90 2 *42 2 ef8d35~write 2 *29 3 *1f 1 9bf382 2 *3e 1 52b88b 1 *0c~read 0~write 3 *42~read 3~write 0 *9d 2 *c1 3 *ac 0 *c2 2 *8b 3 *6f~settle 1~write 3 *77~settle 40~write 2 *6c~settle 40~deliver 83~barrier~settle 12~write 1 *18 1 0a16f5 2 *1f 1 *08 2 *5f 3 09fc75~write 1 b13c77 5 *57 3 *bb 1 f5392a 0 e61964 1 950234~settle 20000=submit 1 1~submit 2 2~ack 1~read 3 0 *00~refused 16 range 5~submit 4 3~ack 2~read 5 3 *42~submit 6 4~ack 3~submit 8 5~ack 4~submit 10 6~ack 5~submit 15 7~ack 6~barrier 13 6~ack 7~
volume 2 1 4 2 78567d770ae891380ebb483be15a0c7431116ba675edabb213276a8c3a868dbc9bfcee499b00f501b41449443d45e30fe347622985f4fd17e3c8f62c28689151~tick 2.0~deliver 1~settle 40~stop 18446744073709551615 5 18446744073709551615 7f~crash 2.1 16 00~tick 0.1~stop 1 6 2 01~settle 1~tick 1.1~crash 0.0 0 00~deliver 18446744073709551615~settle 1~settle 2~settle 2~read 5~read 2~write 1 *58 6 *03 9223372036854775816 65f55737 1 *ff 1 7684377b 1 *18~write 3 c0d77ba3 7 *17 6 *45~deliver 1~deliver 2~deliver 3~deliver 4~deliver 5~deliver 6~deliver 7~deliver 8~deliver 9~deliver 10~deliver 11~deliver 12~deliver 13~deliver 14~deliver 15~deliver 16~deliver 17~deliver 18~deliver 19~deliver 20~deliver 23~deliver 22~drop 21~settle 12~settle 8~fail 1.1 9~write 0 *d7 6 *28 1 *e0~write 0 5e82ff04~settle 20000=skip 2 1~skip 4 18446744073709551615~skip 7 1~skip 11 18446744073709551615~refused 17 range 9223372036854775816~read 15 5 *00~read 16 2 *00~submit 18 1~submit 45 2~submit 46 3~
volume 2 1 4 1 fed9cd~fail 0.0 8~settle 5~read 1~tick 0.0~crash 1.0 0 00~read 5~deliver 2~settle 5~write 6 *90 5 *eb 1 fa31895f~write 3 4fca7238 0 *54~deliver 6~settle 20~read 5~deliver 11~fail 1.0 6~deliver 28~crash 1.0 1 89~crash 1.0 5 97~read 5~write 4 *e3~write 3 217e2a32~read 13~write 1 *ab 2 47792a69 6 ddcb1eef 5 3f932e34 4 *01 3 *dc~deliver 30~deliver 31~deliver 32~deliver 33~deliver 34~deliver 36~deliver 35~deliver 26~deliver 27~deliver 29~read 6~write 7 1b651346 5 d4c14a6c 4 2596bf8a 0 4e8e097d 6 a44e8031 7 *fb~read 0~write 7 7f1cf8b9 5 620b3459 7 *fc~write 2 8b487b30~read 7~read 3~write 9223372036854775816 *13~deliver 39~deliver 41~deliver 42~deliver 43~deliver 44~deliver 45~deliver 46~deliver 47~deliver 48~deliver 49~deliver 37~deliver 37~deliver 38~barrier~read 2~crash 0.0 99 ff~deliver 40=read 6 5 *00~read 3 1 *00~submit 9 1~submit 10 2~ack 1~refused 22 range 13~read 13 5 *eb~read 19 5 *eb~submit 20 3~refused 41 range 9223372036854775816~submit 21 4~"
}

/// Runs in which a client opens a session anew: by a restart from what its servers hold, or by a reassignment of a region.
fn opening_runs() -> &'static str {
    "\
volume 1 0 1 1 6b~write 0 *01 1 *01~write 0 *02 1 *02~settle 100~write 0 *03 1 *03~settle 4~deliver 27~drop 28~clientcrash~restart 2~settle 100~deliver 27~read 0~read 1~settle 20=submit 1 1~submit 2 2~ack 1~ack 2~submit 4 3~stage 2 from 1 2~open 2~read 12 0 *02~read 13 1 *02~
volume 0 0 1 2 6b~write 0 *01~settle 100~write 0 *02~settle 4~deliver 22~drop 21~clientcrash~restart 2~settle 100~read 0~settle 10=submit 1 1~ack 1~submit 3 2~stage 2 from 1 2~open 2~read 10 0 *02~
volume 0 0 1 2 6b~write 0 *01~settle 100~write 0 *02~settle 4~drop 22~drop 21~clientcrash~restart 2~settle 100~read 0~settle 10=submit 1 1~ack 1~submit 3 2~stage 2 from 1 1~open 2~read 10 0 *01~
volume 0 0 1 1 6b~write 0 *01~settle 10~clientcrash~restart 2~deliver 7~deliver 8~deliver 9~deliver 10~clientcrash~restart 3~deliver 12~deliver 13~deliver 11~settle 20~read 0~settle 10~clientcrash~restart 4~settle 20=submit 1 1~ack 1~stage 2 from 1 1~stage 3 from 2 1~open 3~read 15 0 *01~stage 4 from 3 1~open 4~
volume 1 0 1 1 6b~write 0 *01~reassign 2 0~settle 20~reassign 3 0~settle 50~read 0~settle 10=refused 2 inflight 1 0 0~submit 1 1~ack 1~stage 3 from 1 1~open 3~read 6 0 *01~
volume 1 0 1 1 6b~write 0 *01~reassign 2 0~settle 20~reassign 3 0~lie 0.0 client 0d00000000000000010000000000000000000100000001000102~settle 50~read 0~settle 10=refused 2 inflight 1 0 0~submit 1 1~ack 1~stage 3 from 1 1~open 3~read 7 0 *01~
volume 0 0 1 2 6b~write 0 *01~settle 100~replace 0.0~reassign 2 0~settle 100~replace 0.1~clientcrash~restart 3~settle 100~read 0~settle 10=submit 1 1~ack 1~stage 2 from 1 1~open 2~stage 3 from 2 1~open 3~read 10 0 *01~
volume 0 0 1 2 6b~write 0 *01~settle 100~replace 0.0~replace 0.1~clientcrash~restart 3~settle 100~read 0~settle 10=submit 1 1~ack 1~lost 3~refused 8 closed~
volume 1 0 1 1 6b~write 0 *01 1 *01~deliver 1~deliver 2~deliver 3~deliver 4~settle 100~clientcrash~restart 2~deliver 12~deliver 13~deliver 14~deliver 15~deliver 16~deliver 17~deliver 18~deliver 19~drop 20~drop 21~clientcrash~restart 3~deliver 22~deliver 23~deliver 24~deliver 25~deliver 26~deliver 27~deliver 28~deliver 29~deliver 21~settle 100~clientcrash~restart 4~settle 100=submit 1 1~ack 1~stage 2 from 1 1~stage 3 from 2 1~open 3~stage 4 from 3 1~open 4~
volume 1 0 1 1 6b~write 0 *01 1 *01~deliver 1~deliver 2~deliver 3~deliver 4~settle 100~clientcrash~restart 2~deliver 12~deliver 13~deliver 14~deliver 15~deliver 16~deliver 18~drop 17~settle 100~clientcrash~restart 3~settle 100~read 0~settle 20=submit 1 1~ack 1~stage 2 from 1 1~stage 3 from 1 1~open 3~read 20 0 *01~
volume 1 0 1 1 6b~write 0 *01~deliver 1~deliver 2~clientcrash~restart 2~deliver 4~deliver 3~deliver 7~deliver 9~drop 8~drop 10~deliver 5~settle 100~write 0 *02 1 *02~deliver 20~deliver 21~deliver 22~deliver 23~write 0 *03~deliver 26~drop 25~settle 100~clientcrash~restart 3~settle 100=submit 1 1~stage 2 from 1 0~open 2~submit 14 1~submit 19 2~stage 3 from 2 0~open 3~
volume 1 0 1 1 6b~write 0 *01 1 *01~deliver 1~deliver 2~deliver 3~deliver 4~deliver 5~deliver 6~deliver 7~deliver 8~deliver 9~deliver 10~drop 11~write 0 *02 1 *02~deliver 12~deliver 13~deliver 14~deliver 15~deliver 16~deliver 17~deliver 18~deliver 19~deliver 20~deliver 21~drop 22~write 0 *03 1 *03~deliver 23~deliver 24~deliver 25~deliver 26~deliver 27~deliver 28~deliver 29~deliver 30~deliver 31~deliver 32~drop 33~write 0 *04 1 *04~deliver 34~deliver 35~deliver 36~deliver 37~deliver 38~deliver 39~deliver 40~deliver 41~deliver 42~deliver 43~drop 44~write 0 *05 1 *05~deliver 45~deliver 46~deliver 47~deliver 48~deliver 49~deliver 50~deliver 51~deliver 52~deliver 53~deliver 54~drop 55~write 0 *06 1 *06~deliver 56~deliver 57~deliver 58~deliver 59~deliver 60~deliver 61~deliver 62~deliver 63~deliver 64~deliver 65~drop 66~write 0 *07 1 *07~deliver 67~deliver 68~deliver 69~deliver 70~deliver 71~deliver 72~deliver 73~deliver 74~deliver 75~deliver 76~drop 77~write 0 *08 1 *08~deliver 78~deliver 79~deliver 80~deliver 81~deliver 82~deliver 83~deliver 84~deliver 85~deliver 86~deliver 87~drop 88~write 0 *09 1 *09~deliver 89~deliver 90~deliver 91~deliver 92~deliver 93~deliver 94~deliver 95~deliver 96~deliver 97~deliver 98~drop 99~write 0 *0a 1 *0a~deliver 100~deliver 101~deliver 102~deliver 103~deliver 104~deliver 105~deliver 106~deliver 107~deliver 108~deliver 109~drop 110~write 0 *0b 1 *0b~deliver 111~deliver 112~deliver 113~deliver 114~deliver 115~deliver 116~deliver 117~deliver 118~deliver 119~deliver 120~drop 121~write 0 *0c 1 *0c~deliver 122~deliver 123~deliver 124~deliver 125~deliver 126~deliver 127~deliver 128~deliver 129~deliver 130~deliver 131~drop 132~write 0 *0d 1 *0d~deliver 133~deliver 134~deliver 135~deliver 136~deliver 137~deliver 138~deliver 139~deliver 140~deliver 141~deliver 142~drop 143~write 0 *0e 1 *0e~deliver 144~deliver 145~deliver 146~deliver 147~deliver 148~deliver 149~deliver 150~deliver 151~deliver 152~deliver 153~drop 154~write 0 *0f 1 *0f~deliver 155~deliver 156~deliver 157~deliver 158~deliver 159~deliver 160~deliver 161~deliver 162~deliver 163~deliver 164~drop 165~write 0 *10 1 *10~deliver 166~deliver 167~deliver 168~deliver 169~deliver 170~deliver 171~deliver 172~deliver 173~deliver 174~deliver 175~drop 176~write 0 *11 1 *11~deliver 177~deliver 178~deliver 179~deliver 180~deliver 181~deliver 182~deliver 183~deliver 184~deliver 185~deliver 186~drop 187~write 0 *12 1 *12~deliver 188~deliver 189~deliver 190~deliver 191~deliver 192~deliver 193~deliver 194~deliver 195~deliver 196~deliver 197~drop 198~write 0 *13 1 *13~deliver 199~deliver 200~deliver 201~deliver 202~deliver 203~deliver 204~deliver 205~deliver 206~deliver 207~deliver 208~drop 209~write 0 *14 1 *14~deliver 210~deliver 211~deliver 212~deliver 213~deliver 214~deliver 215~deliver 216~deliver 217~deliver 218~deliver 219~drop 220~write 0 *15 1 *15~deliver 221~deliver 222~deliver 223~deliver 224~deliver 225~deliver 226~deliver 227~deliver 228~deliver 229~deliver 230~drop 231~write 0 *16 1 *16~deliver 232~deliver 233~deliver 234~deliver 235~deliver 236~deliver 237~deliver 238~deliver 239~deliver 240~deliver 241~drop 242~write 0 *17 1 *17~deliver 243~deliver 244~deliver 245~deliver 246~deliver 247~deliver 248~deliver 249~deliver 250~deliver 251~deliver 252~drop 253~write 0 *18 1 *18~deliver 254~deliver 255~deliver 256~deliver 257~deliver 258~deliver 259~deliver 260~deliver 261~deliver 262~deliver 263~drop 264~clientcrash~restart 2~deliver 265~deliver 266~deliver 267~deliver 268~deliver 269~deliver 270~deliver 271~deliver 272~deliver 264~settle 100~clientcrash~restart 3~settle 100=submit 1 1~ack 1~submit 13 2~ack 2~submit 25 3~ack 3~submit 37 4~ack 4~submit 49 5~ack 5~submit 61 6~ack 6~submit 73 7~ack 7~submit 85 8~ack 8~submit 97 9~ack 9~submit 109 10~ack 10~submit 121 11~ack 11~submit 133 12~ack 12~submit 145 13~ack 13~submit 157 14~ack 14~submit 169 15~ack 15~submit 181 16~ack 16~submit 193 17~ack 17~submit 205 18~ack 18~submit 217 19~ack 19~submit 229 20~ack 20~submit 241 21~ack 21~submit 253 22~ack 22~submit 265 23~ack 23~submit 277 24~ack 24~stage 2 from 1 24~open 2~stage 3 from 2 24~open 3~
volume 0 0 1 1 6b~write 0 *07~settle 2~stop 3 4 0 01~clientcrash~restart 2~settle 100~read 0~settle 10=submit 1 1~stage 2 from 1 1~open 2~read 7 0 *07~
volume 0 0 1 1 6b~write 0 *01~write 0 *02~write 0 *03~write 0 *04~write 0 *05~write 0 *06~write 0 *07~write 0 *08~write 0 *09~write 0 *0a~write 0 *0b~write 0 *0c~write 0 *0d~write 0 *0e~write 0 *0f~write 0 *10~settle 1000~write 0 *11~write 0 *12~write 0 *13~write 0 *14~write 0 *15~write 0 *16~write 0 *17~write 0 *18~settle 47~stop 144 4 0 00~clientcrash~restart 2~settle 200~read 0~settle 10=submit 1 1~submit 2 2~ack 1~submit 3 3~ack 2~submit 4 4~ack 3~submit 5 5~ack 4~submit 6 6~ack 5~submit 7 7~ack 6~submit 8 8~ack 7~submit 9 9~ack 8~submit 10 10~ack 9~submit 11 11~ack 10~submit 12 12~ack 11~submit 13 13~ack 12~submit 14 14~ack 13~submit 15 15~ack 14~submit 16 16~ack 15~ack 16~submit 18 17~submit 19 18~ack 17~submit 20 19~ack 18~submit 21 20~ack 19~submit 22 21~ack 20~submit 23 22~ack 21~submit 24 23~ack 22~submit 25 24~ack 23~ack 24~stage 2 from 1 24~open 2~read 31 0 *18~
volume 0 0 1 1 6b~restart 2~reassign 3 9~clientcrash~reassign 4 0=refused 1 open~refused 2 range 9~refused 4 closed~"
}

#[test]
fn schedules_are_run(rt: HostRuntime) {
    assert_eq!(rt; wrong_row(rt.alloc(), runs(), 0), None);
    assert_eq!(rt; wrong_row(rt.alloc(), rough_runs(), 0), None);
    assert_eq!(rt; wrong_row(rt.alloc(), opening_runs(), 0), None);
}

/// A server whose disk stops after so many calls while it stores a part. Then it sends again what it holds.
fn stopped() -> &'static str {
    "volume 0 0 1 1 6b~write 0 *07~settle 2~stop 3 # %~settle 20~tick 0.0~settle 20~read 0~settle 10"
}

/// What is printed where the part is held then, and where it isn't.
fn stopped_lines(held: bool) -> &'static str {
    if held {
        "submit 1 1~ack 1~read 7 0 *07~"
    } else {
        "submit 1 1~"
    }
}

/// Whether the part is held exactly from so many calls on, where the crash leaves that image.
fn is_held_from(alloc: Global, least: u64, image: &str) -> Result<bool, NoMemory> {
    for calls in 0u64..7 {
        let number = calls.to_string(alloc)?;
        if !ends_so(
            alloc,
            stopped(),
            stopped_lines(calls >= least),
            number.as_str(),
            image,
            0,
        )? {
            return Ok(false);
        }
    }
    Ok(true)
}

/// A server whose disk stops while it folds what is acknowledged into its base.
fn stopped_in_fold() -> &'static str {
    "volume 0 0 1 1 6b~write 0 *01~write 0 *02~write 0 *03~write 0 *04~write 0 *05~write 0 *06~write 0 *07~write 0 *08~write 0 *09~write 0 *0a~write 0 *0b~write 0 *0c~write 0 *0d~write 0 *0e~write 0 *0f~write 0 *10~settle 1000~write 0 *11~write 0 *12~write 0 *13~write 0 *14~write 0 *15~write 0 *16~write 0 *17~write 0 *18~settle 47~stop 144 # %~read 0~settle 100=submit 1 1~submit 2 2~ack 1~submit 3 3~ack 2~submit 4 4~ack 3~submit 5 5~ack 4~submit 6 6~ack 5~submit 7 7~ack 6~submit 8 8~ack 7~submit 9 9~ack 8~submit 10 10~ack 9~submit 11 11~ack 10~submit 12 12~ack 11~submit 13 13~ack 12~submit 14 14~ack 13~submit 15 15~ack 14~submit 16 16~ack 15~ack 16~submit 18 17~submit 19 18~ack 17~submit 20 19~ack 18~submit 21 20~ack 19~submit 22 21~ack 20~submit 23 22~ack 21~submit 24 23~ack 22~submit 25 24~ack 23~ack 24~read 28 0 *18~"
}

/// The first number of calls, below `most`, after which the disk of that run may stop and the lines are others; none where there
/// is no such number.
fn wrong_stop(alloc: Global, row: &str, most: u64, image: &str) -> Result<Option<u64>, NoMemory> {
    for calls in 0..most {
        let number = calls.to_string(alloc)?;
        if !is_right(alloc, row, number.as_str(), image, 0)? {
            return Ok(Some(calls));
        }
    }
    Ok(None)
}

#[test]
fn disks_stop_at_any_call(rt: HostRuntime) {
    // The third call opens the part's gate, and isn't synced: the gate is kept, or filled.
    for (image, least) in [
        ("0 00", 4),
        ("0 01", 3),
        ("0 ff", 4),
        ("1 00", 3),
        ("1 01", 3),
        ("9 ff", 3),
    ] {
        assert!(rt;
            matches!(is_held_from(rt.alloc(), least, image), Ok(true)),
            "image {image}"
        );
    }
    for image in ["0 00", "0 01"] {
        assert!(rt;
            matches!(
                wrong_stop(rt.alloc(), stopped_in_fold(), 6, image),
                Ok(None)
            ),
            "image {image} in a fold"
        );
    }
}

/// Texts that aren't run, with the line that says why.
fn refused() -> &'static str {
    "\
=error 1 volume~
~=error 1 volume~
volume 5 0 1 1 6b=error 1 volume~
volume 0 0 1 6 6b=error 1 volume~
volume 4 10 65 1 6b=error 1 volume~
volume 0 0 1 1 6=error 1 volume~
volume 0 0 1 1 6b~sleep=error 2 word~
volume 0 0 1 1 6b~read=error 2 word~
volume 0 0 1 1 6b~barrier~~=error 3 word~
volume 0 0 1 1 6b~read 18446744073709551616=error 2 number~
volume 0 0 1 1 6b~barrier~fail 0.0 0=error 3 number~
volume 0 0 1 1 6b~tick 0.1=error 2 node~
volume 1 0 1 2 6b~lie 1.1 2.0 00=error 2 node~
volume 0 0 1 1 6b~write 0 0=error 2 hex~
volume 0 0 1 1 6b~crash 0.0 0 0=error 2 hex~
volume 0 0 1 1 6b~write 0 0102=error 2 size~
volume 0 0 1 1 6b~write=error 2 empty~
volume 0 0 1 1 6b~restart 2~restart 2=error 3 order~
volume 0 0 1 1 6b~reassign 1 0=error 2 order~
volume 0 0 1 1 6b~restart 2~sleep=error 3 word~"
}

/// Whether a write of so many pairs is refused so.
fn is_refused_long(alloc: Global, pairs: usize, written: &str) -> Result<bool, NoMemory> {
    let mut text = Vec::from_slice(alloc, b"volume 0 0 1 1 6b\nwrite")?;
    for _ in 0..pairs {
        text.extend_from_slice(b" 0 *07")?;
    }
    let outcome = run_command(alloc, "replay", text.as_slice(), 4096, 0, 0)?;
    Ok(outcome.status == 3 && outcome.held.as_slice() == written.as_bytes())
}

// A text of more bytes than one may have.
const TOO_MANY_BYTES: usize = 67_108_865;

fn is_too_long(alloc: Global) -> Result<bool, NoMemory> {
    let text = vec![in alloc; b' '; TOO_MANY_BYTES]?;
    let outcome = run_command(alloc, "replay", text.as_slice(), 1_048_576, 0, 0)?;
    Ok(outcome.status == 3 && outcome.held.as_slice() == b"error 0 long\n".as_slice())
}

#[test]
fn texts_are_refused_with_their_causes(rt: HostRuntime) {
    assert_eq!(rt; wrong_row(rt.alloc(), refused(), 3), None);
    assert!(rt;
        matches!(is_refused_long(rt.alloc(), 65, "error 2 long\n"), Ok(true)),
        "a long write"
    );
}

#[test]
fn a_text_that_is_too_long_is_refused(rt: HostRuntime) {
    assert!(rt; matches!(is_too_long(rt.alloc()), Ok(true)), "a long text");
}

const PLAIN: &str = "volume 0 0 1 1 6b\nwrite 0 *07\nsettle 10\nread 0\nsettle 10\n";

const PLAIN_LINES: &str = "submit 1 1\nack 1\nread 3 0 *07\n";

#[test]
fn other_words_are_refused(rt: HostRuntime) {
    for words in [
        "",
        "replay now",
        "Replay",
        "reply",
        "replay replay",
        "-- replay",
        "--help",
        "generate",
        "generate 7",
        "generate 7 0",
        "generate 7 1 1",
        "generate seven 1",
        "trial 7 0",
        "trial 07 5",
        "trial 7 10001",
        "trial 7 -1",
        "trial 18446744073709551616 1",
    ] {
        match run_command(rt.alloc(), words, PLAIN.as_bytes(), 11, 0, 0) {
            Ok(outcome) => {
                assert_eq!(rt; outcome.status, 2, "status of {words}");
                assert!(rt; outcome.held.is_empty(), "text of {words}");
            }
            Err(_) => assert!(rt; false, "no memory for {words}"),
        }
    }
}

/// Words, and what is written.
fn commands() -> &'static str {
    "\
generate 0 1=volume 4 8 256 3 6b~write 3519 *01~settle 1000~read 3519~settle 1000~barrier~
generate 18446744073709551615 2=volume 4 8 256 3 6b~write 936 *ec~settle 1000~read 936~settle 1000~write 2743 *6a~settle 1000~read 2743~settle 1000~barrier~
trial 7 1=events 5~submit 1~ack 1~read 1~fault 0~barrier 1~refused 0~
trial 7 100=events 401~submit 100~ack 100~read 100~fault 0~barrier 1~refused 0~"
}

/// Whether the words of a row do so with a source that fails at once: they don't read it.
fn is_done(alloc: Global, row: &str) -> Result<bool, NoMemory> {
    let (words, written) = row.split_once('=').unwrap_or(("", ""));
    let written = text_of(alloc, written, "", "")?;
    let outcome = run_command(alloc, words, b"".as_slice(), 4096, 1, 0)?;
    Ok(outcome.status == 0 && outcome.held.as_slice() == written.as_slice())
}

/// The same with a sink of pieces of 11 bytes whose second call fails: the status, and how much is written.
fn cut_off(alloc: Global, words: &str) -> Result<(u8, usize), NoMemory> {
    let outcome = run_command(alloc, words, b"".as_slice(), 11, 1, 2)?;
    Ok((outcome.status, outcome.held.len()))
}

/// How many messages the trial sends.
fn messages_of(alloc: Global, words: &str) -> Result<usize, NoMemory> {
    let words = words_of(alloc, words)?;
    let mut source = MemSource::new(alloc, Vec::new(alloc), 1);
    let mut sink = MemSink::new(alloc, 4096);
    let mut report = Report::new(alloc);
    let _ = salus(alloc, &words, &mut source, &mut sink, &mut report);
    Ok(report.messages.len())
}

#[test]
fn schedules_are_generated_and_tried(rt: HostRuntime) {
    for row in commands().lines() {
        assert!(rt; matches!(is_done(rt.alloc(), row), Ok(true)), "{row}");
    }
    assert!(rt;
        matches!(messages_of(rt.alloc(), "trial 7 10"), Ok(1710)),
        "messages"
    );
    assert!(rt;
        matches!(cut_off(rt.alloc(), "generate 0 1"), Ok((5, 11))),
        "a part of a schedule"
    );
    assert!(rt;
        matches!(cut_off(rt.alloc(), "trial 0 1"), Ok((5, 11))),
        "a part of a summary"
    );
}

/// The status where the call of that number fails, of the source or of the sink, each of pieces of 11 bytes; and whether what
/// was written is a front part of the lines.
fn status_of_fault(
    alloc: Global,
    source_fails: u64,
    sink_fails: u64,
) -> Result<(u8, usize), NoMemory> {
    let outcome = run_command(
        alloc,
        "replay",
        PLAIN.as_bytes(),
        11,
        source_fails,
        sink_fails,
    )?;
    let written = outcome.held.len();
    if written <= PLAIN_LINES.len()
        && outcome.held.as_slice() == &PLAIN_LINES.as_bytes()[..written]
    {
        Ok((outcome.status, written))
    } else {
        Ok((outcome.status, usize::MAX))
    }
}

#[test]
fn faults_have_their_statuses(rt: HostRuntime) {
    for call in 1u64..8 {
        let outcome = status_of_fault(rt.alloc(), call, 0);
        assert!(rt; matches!(outcome, Ok((4, 0))), "read {call}");
    }
    assert!(rt;
        matches!(status_of_fault(rt.alloc(), 8, 0), Ok((0, 30))),
        "no read after the end"
    );
    assert!(rt;
        matches!(status_of_fault(rt.alloc(), 0, 1), Ok((5, 0))),
        "write 1"
    );
    assert!(rt;
        matches!(status_of_fault(rt.alloc(), 0, 2), Ok((5, 11))),
        "write 2"
    );
    assert!(rt;
        matches!(status_of_fault(rt.alloc(), 0, 3), Ok((5, 22))),
        "write 3"
    );
    assert!(rt;
        matches!(status_of_fault(rt.alloc(), 0, 4), Ok((0, 30))),
        "no write after the last"
    );
}
