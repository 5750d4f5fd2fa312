ghost use Rattle.std.specs.Prelude.{◌≡◌, ℕ, ◌+◌, ◌%◌, ◌^◌, ◌<◌, ◌≤◌, length, map, IfSome, IfOk, ok_or};
ghost use Rattle.gv_text.specs.Grammar.{one_word, two_words, three_words, four_words, five_words, more_words, access_line, guest_line, elsp_line, turn_line, switch_line, move_line, reset_line, read_line, write_line, line_of_words, line_words, line_of, says_nothing, bad_line, IsForm};

use crate::access::{highest_address, read_access, write_access};
use crate::fields::{
    address, descriptor, engine_number, frame_count, guest_number, number_u32, turn_count, values,
};
use crate::lines::LONGEST_LINE;
use crate::{BadLine, Guest, Line};
use arrayvec::ArrayVec;
use gv_types::{Place, Width};

/// No line has more words: a line of writes with 16 values has 19.
const MOST_WORDS: usize = 19;

/// What a line of a script says. The bytes are the line without its line feed. A line that is empty
/// or begins with `#` says nothing; any other has one of the forms of [`Line`], with its words
/// separated by one space, and at most 256 bytes.
pub fn line(bytes: &[u8]) -> Result<Line, BadLine>
    ensures value { result ≡ ok_or (line_of bytes.now) bad_line }
    ensures form { IfOk result IsForm }
{
    parsed(bytes).ok_or(BadLine)
}

fn parsed(bytes: &[u8]) -> Option<Line>
    ensures value { result ≡ line_of bytes.now }
    ensures form { IfSome result IsForm }
{
    if bytes.len() > LONGEST_LINE {
        None
    } else if is_comment(bytes) {
        Some(Line::Blank)
    } else {
        parsed_by_words(bytes)
    }
}

fn is_comment(bytes: &[u8]) -> bool
    ensures { result ≡ says_nothing bytes.now }
{
    match bytes {
        [] => true,
        [first, ..] => *first == b'#',
    }
}

fn parsed_by_words(bytes: &[u8]) -> Option<Line>
    ensures value { result ≡ line_of_words (line_words bytes.now) }
    ensures form { IfSome result IsForm }
{
    let mut words = ArrayVec::<&[u8], MOST_WORDS>::new();
    for word in bytes.split(|byte| *byte == b' ') {
        if words.is_full() {
            return None;
        }
        words.push(word);
    }
    of_words(&words)
}

fn of_words(words: &[&[u8]]) -> Option<Line>
    requires { length words.now ≤ 19 }
    ensures value { result ≡ line_of_words (map (λ w. w.now) words.now) }
    ensures form { IfSome result IsForm }
{
    match words {
        [] => None,
        [word] => of_one_word(word),
        [word, x] => of_two_words(word, x),
        [word, x, y] => of_three_words(word, x, y),
        [word, x, y, z] => of_four_words(word, x, y, z),
        [word, x, y, z, v] => of_five_words(word, x, y, z, v),
        [word, x, y, values @ ..] => of_more_words(word, x, y, values),
    }
}

fn of_one_word(word: &[u8]) -> Option<Line>
    ensures value { result ≡ one_word word.now }
    ensures form { IfSome result IsForm }
{
    if word == b"end".as_slice() {
        Some(Line::End)
    } else {
        None
    }
}

fn of_two_words(word: &[u8], x: &[u8]) -> Option<Line>
    ensures value { result ≡ two_words word.now x.now }
    ensures form { IfSome result IsForm }
{
    if word == b"switch".as_slice() {
        switch(x)
    } else if word == b"reset".as_slice() {
        reset(x)
    } else {
        None
    }
}

fn of_three_words(word: &[u8], x: &[u8], y: &[u8]) -> Option<Line>
    ensures value { result ≡ three_words word.now x.now y.now }
    ensures form { IfSome result IsForm }
{
    if word == b"turn".as_slice() {
        turn(x, y)
    } else if word == b"move".as_slice() {
        move_frame(x, y)
    } else {
        of_read(word, x, y)
    }
}

fn of_read(word: &[u8], x: &[u8], y: &[u8]) -> Option<Line>
    ensures value { result ≡ access_line word.now x.now y.now }
    ensures form { IfSome result IsForm }
{
    let (place, width) = read_access(word)?;
    read(place, width, x, y)
}

fn of_four_words(word: &[u8], x: &[u8], y: &[u8], z: &[u8]) -> Option<Line>
    ensures value { result ≡ four_words word.now x.now y.now z.now }
    ensures form { IfSome result IsForm }
{
    if word == b"guest".as_slice() {
        guest(x, y, z)
    } else {
        of_more_words(word, x, y, &[z])
    }
}

fn of_five_words(word: &[u8], x: &[u8], y: &[u8], z: &[u8], v: &[u8]) -> Option<Line>
    ensures value { result ≡ five_words word.now x.now y.now z.now v.now }
    ensures form { IfSome result IsForm }
{
    if word == b"elsp".as_slice() {
        elsp(x, y, z, v)
    } else {
        of_more_words(word, x, y, &[z, v])
    }
}

fn of_more_words(word: &[u8], x: &[u8], y: &[u8], values: &[&[u8]]) -> Option<Line>
    requires some { 0 < length values.now }
    requires few { length values.now ≤ 16 }
    ensures value { result ≡ more_words word.now x.now y.now (map (λ w. w.now) values.now) }
    ensures form { IfSome result IsForm }
{
    let (place, width) = write_access(word)?;
    write(place, width, x, y, values)
}

fn guest(frames: &[u8], low: &[u8], high: &[u8]) -> Option<Line>
    ensures value { result ≡ guest_line frames.now low.now high.now }
    ensures form { IfSome result IsForm }
{
    let frames = frame_count(frames)?;
    let low = number_u32(low)?;
    let high = number_u32(high)?;
    if frames == 0 {
        return None;
    }
    Some(Line::Guest(Guest { frames, low, high }))
}

fn elsp(guest: &[u8], engine: &[u8], second: &[u8], first: &[u8]) -> Option<Line>
    ensures value { result ≡ elsp_line guest.now engine.now second.now first.now }
    ensures form { IfSome result IsForm }
{
    let guest = guest_number(guest)?;
    let engine = engine_number(engine)?;
    let second = descriptor(second)?;
    let first = descriptor(first)?;
    Some(Line::Elsp {
        guest,
        engine,
        second,
        first,
    })
}

fn turn(engine: &[u8], count: &[u8]) -> Option<Line>
    ensures value { result ≡ turn_line engine.now count.now }
    ensures form { IfSome result IsForm }
{
    let engine = engine_number(engine)?;
    let count = turn_count(count)?;
    if count == 0 {
        return None;
    }
    Some(Line::Turn { engine, count })
}

fn switch(engine: &[u8]) -> Option<Line>
    ensures value { result ≡ switch_line engine.now }
    ensures form { IfSome result IsForm }
{
    let engine = engine_number(engine)?;
    Some(Line::Switch { engine })
}

fn move_frame(guest: &[u8], frame: &[u8]) -> Option<Line>
    ensures value { result ≡ move_line guest.now frame.now }
    ensures form { IfSome result IsForm }
{
    let guest = guest_number(guest)?;
    let frame = number_u32(frame)?;
    Some(Line::Move { guest, frame })
}

fn reset(guest: &[u8]) -> Option<Line>
    ensures value { result ≡ reset_line guest.now }
    ensures form { IfSome result IsForm }
{
    let guest = guest_number(guest)?;
    Some(Line::Reset { guest })
}

fn read(place: Place, width: Width, guest: &[u8], at: &[u8]) -> Option<Line>
    ensures value { result ≡ read_line place width guest.now at.now }
    ensures form { IfSome result IsForm }
{
    let guest = guest_number(guest)?;
    let at = address(place, width, at)?;
    Some(Line::Read {
        guest,
        place,
        width,
        at,
    })
}

fn write(place: Place, width: Width, guest: &[u8], at: &[u8], words: &[&[u8]]) -> Option<Line>
    requires some { 0 < length words.now }
    requires few { length words.now ≤ 16 }
    ensures value { result ≡ write_line place width guest.now at.now (map (λ w. w.now) words.now) }
    ensures form { IfSome result IsForm }
{
    let guest = guest_number(guest)?;
    let at = address(place, width, at)?;
    let values = values(width, words)?;
    let bytes = width.bytes() * words.len() as u64;
    let last = bytes - width.bytes();
    if highest_address(place) - at < last {
        return None;
    }
    Some(Line::Write {
        guest,
        place,
        width,
        at,
        values,
    })
}
