ghost use Rattle.std.specs.Prelude.{◌≡◌, ◌≤◌, ◌&&◌, insert, length, not, nat_le, vec_capacity};
ghost use Rattle.replica_rules.specs.Voting.{share_place};
ghost use Rattle.pipelined_commit.specs.Noting.{IsNoted, Noted, has_passed, noted_of, put_note, with_note, without_place};

use crate::note::Note;
use salus_types::Header;

/// Whether two numbers have one place modulo 16.
fn share_place(left: u64, right: u64) -> bool
    ensures { result ≡ share_place left right }
{
    left % 16 == right % 16
}

/// Whether one of at least that number has its place.
fn has_passed(noted: &[Note], seq: u64) -> bool
    ensures { result ≡ has_passed noted.now seq }
{
    'notes: for note in noted {
        if share_place(note.seq(), seq) && seq <= note.seq() {
            return true;
        }
    }
    false
}

/// Takes out what has that number's place.
fn clear_place(noted: &mut Vec<Note>, seq: u64)
    ensures items { noted.new.items ≡ without_place noted.old.items seq }
    ensures room { vec_capacity noted.new ≡ vec_capacity noted.old }
{
    noted.retain(|note| !share_place(note.seq(), seq));
}

/// Where a note with that number goes, by rising numbers.
fn place_of(noted: &[Note], seq: u64) -> usize
    ensures within { result ≤ length noted.now }
    ensures place { (note : Noted) → note.seq ≡ seq → insert noted.now result note ≡ put_note noted.now note }
{
    'notes: for (i, note) in noted.iter().enumerate() {
        if seq < note.seq() {
            return i;
        }
    }
    noted.len()
}

/// Notes a header, in a list that has room for 16.
pub fn note_header(noted: &mut Vec<Note>, header: &Header)
    requires few { length header.now.touched ≤ 16 }
    requires noted { IsNoted noted.old.items }
    requires room { 16 ≤ vec_capacity noted.old }
    ensures items { noted.new.items ≡ with_note noted.old.items (noted_of header.now) }
    ensures noted { IsNoted noted.new.items }
    ensures room { 16 ≤ vec_capacity noted.new }
{
    if has_passed(noted.as_slice(), header.seq) {
        return;
    }
    clear_place(noted, header.seq);
    let place = place_of(noted.as_slice(), header.seq);
    match noted.insert(place, Note::of(header)) {
        Ok(()) => {}
        Err(_) => unreachable!(),
    }
}
