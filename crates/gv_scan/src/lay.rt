ghost use Rattle.std.specs.Prelude.{◌≡◌, ◌≤◌, ◌<◌, ◌+◌, ◌*◌, ◌^◌, ◌++◌, [], ℕ, ◌↔◌, IsTrue, Option, Some, IfOk, OnOk, Ok, length};
ghost use Rattle.gv_cmd.specs.Command.{decoded};
ghost use Rattle.gv_cmd.specs.Table.{kind_of};
ghost use Rattle.gv_fetch.specs.Items.{is_end, is_fetched_start, start_at};
ghost use Rattle.gv_fetch.specs.Flat.{flat, AreNested};
ghost use Rattle.gv_fetch.specs.Left.{Left, Level as LevelLeft};
ghost use Rattle.gv_scan.specs.Listed.{BeginsWithCommand, ListsBatch, ListsSecond, ListsRing, SecondLaid, BatchLaid, RingLaid, ListsLevel, LevelLists, LevelLaid, Lists, LaidOut};

use crate::Program;
use gv_cmd::{Command, Kind, decode};
use gv_ctx::{Batch, Saved};
use gv_types::OutOfMemory;
use std::alloc::Global;

// The command at the front of dwords that begin with one.
fn front(words: &[u32]) -> Command
    requires { BeginsWithCommand words.now }
    ensures { decoded words.now ≡ Ok (result, length result) }
{
    match decode(words) {
        Ok((command, _)) => command,
        Err(_) => unreachable!(),
    }
}

fn ends(command: &Command) -> bool
    ensures { result ≡ is_end (kind_of command.now) }
{
    matches!(command.kind(), Kind::BatchEnd)
}

fn starts(command: &Command) -> bool
    ensures { result ≡ is_fetched_start (kind_of command.now) }
{
    matches!(command.kind(), Kind::BatchStart { live: false, .. })
}

fn append(list: &mut Vec<u32>, command: &Command) -> Result<(), OutOfMemory>
    ensures { OnOk result (list.new.items ≡ list.old.items ++ command.now) }
{
    list.extend_from_slice(command.words())?;
    Ok(())
}

fn append_start(list: &mut Vec<u32>, command: &Command, offset: u32) -> Result<(), OutOfMemory>
    ensures { OnOk result (list.new.items ≡ list.old.items ++ start_at command.now offset) }
{
    let words = command.words();
    list.extend_from_slice(&[words[0], offset, 0])?;
    Ok(())
}

// Where a batch ends that starts none.
fn end_of(words: &[u32], start: usize) -> usize
    requires { ListsSecond words.now start }
    ensures past { (b : ListsSecond words.now start) → result ≡ start + length (flat b.items) }
    ensures within { result ≤ length words.now }
    ensures on { start ≤ result }
{
    let mut at = start;
    'batch: loop {
        let command = front(&words[at..]);
        at += command.words().len();
        if ends(&command) {
            return at;
        }
    }
}

// Appends a batch that starts none, and answers where it ends.
fn second_level(words: &[u32], start: usize, batches: &mut Vec<u32>) -> Result<usize, OutOfMemory>
    requires lists { ListsSecond words.now start }
    ensures laid { IfOk result (λ at. (b : ListsSecond words.now start) → SecondLaid words.now start at batches.old.items batches.new.items b) }
    ensures within { IfOk result (λ at. at ≤ length words.now) }
    ensures room { IfOk result (λ at. (start ≤ at) × (length batches.new.items + start ≡ length batches.old.items + at)) }
{
    let end = end_of(words, start);
    batches.extend_from_slice(&words[start..end])?;
    Ok(end)
}

// The byte offset at which the next dwords will be.
fn end_offset(batches: &[u32]) -> u32
    requires { length batches.now ≤ 2 ^ 20 }
    ensures { result ≡ 4 * length batches.now }
{
    (4 * batches.len()) as u32
}

// Appends a batch's own commands behind the others, and answers the byte offset at which they are.
fn append_batch(batches: &mut Vec<u32>, own: &[u32]) -> Result<u32, OutOfMemory>
    requires { length batches.old.items ≤ 2 ^ 20 }
    ensures offset { IfOk result (λ offset. offset ≡ 4 * length batches.old.items) }
    ensures items { OnOk result (batches.new.items ≡ batches.old.items ++ own.now) }
{
    let offset = (4 * batches.len()) as u32;
    batches.extend_from_slice(own)?;
    Ok(offset)
}

// Appends a batch, behind those that it starts, and answers the byte offset of its own commands, and where it ends.
fn first_level(
    alloc: Global,
    words: &[u32],
    start: usize,
    batches: &mut Vec<u32>,
) -> Result<(u32, usize), OutOfMemory>
    requires lists { ListsBatch words.now start }
    requires few { length batches.old.items + length words.now ≤ 2 ^ 20 }
    ensures laid { IfOk result (λ r. (b : ListsBatch words.now start) → BatchLaid words.now start r.1 r.0 batches.old.items batches.new.items b) }
    ensures within { IfOk result (λ r. r.1 ≤ length words.now) }
    ensures room { IfOk result (λ r. length batches.new.items + start ≤ length batches.old.items + r.1) }
{
    let mut own: Vec<u32> = Vec::new(alloc);
    let mut at = start;
    'batch: loop {
        let command = front(&words[at..]);
        at += command.words().len();
        if starts(&command) {
            let offset = end_offset(batches);
            at = second_level(words, at, batches)?;
            append_start(&mut own, &command, offset)?;
            continue 'batch;
        }
        append(&mut own, &command)?;
        if ends(&command) {
            let offset = append_batch(batches, &own)?;
            return Ok((offset, at));
        }
    }
}

// Lays out a ring, and all batches that it starts.
fn ring(alloc: Global, words: &[u32], batches: &mut Vec<u32>) -> Result<Vec<u32>, OutOfMemory>
    requires lists { ListsRing words.now }
    requires none { batches.old.items ≡ [] }
    requires few { length words.now ≤ 2 ^ 19 }
    ensures laid { IfOk result (λ own. (r : ListsRing words.now) → RingLaid words.now own.items batches.new.items r) }
    ensures room { OnOk result (length batches.new.items ≤ length words.now) }
{
    let mut own: Vec<u32> = Vec::new(alloc);
    let mut at = 0;
    'ring: while at < words.len() {
        let command = front(&words[at..]);
        at += command.words().len();
        if starts(&command) {
            let (offset, end) = first_level(alloc, words, at, batches)?;
            at = end;
            append_start(&mut own, &command, offset)?;
            continue 'ring;
        }
        append(&mut own, &command)?;
    }
    Ok(own)
}

/// A batch level: the dwords of what is left of a fetched batch and of all that it starts, or the address in a live one.
#[derive(Clone, Copy)]
pub enum Level<'a> {
    Fetched(&'a [u32]),
    Live(u64),
}

/// Whether batch levels stand as starts can have entered them: an inner one only within an outer one, and a fetched one within
/// no live one.
pub fn are_nested(outer: Option<Level>, inner: Option<Level>) -> bool
    ensures { (first second : Option LevelLeft) → ListsLevel outer.entry first → ListsLevel inner.entry second → (IsTrue result ↔ AreNested first second) }
{
    match (outer, inner) {
        (_, None) => true,
        (None, Some(_)) => false,
        (Some(Level::Live(_)), Some(Level::Fetched(_))) => false,
        (Some(_), Some(_)) => true,
    }
}

// Appends what is left of a batch level, and answers the place in it.
fn append_level(alloc: Global, level: Level, batches: &mut Vec<u32>) -> Result<Batch, OutOfMemory>
    requires lists { LevelLists (Some level) (length batches.old.items) }
    ensures laid { IfOk result (λ place. (l : LevelLists (Some level.entry) (length batches.old.items)) → LevelLaid l.left batches.old.items batches.new.items (Some place)) }
{
    match level {
        Level::Live(at) => Ok(Batch { at, live: true }),
        Level::Fetched(words) => {
            let (offset, _) = first_level(alloc, words, 0, batches)?;
            Ok(Batch {
                at: u64::from(offset),
                live: false,
            })
        }
    }
}

// The same, if there is one.
fn append_any(
    alloc: Global,
    level: Option<Level>,
    batches: &mut Vec<u32>,
) -> Result<Option<Batch>, OutOfMemory>
    requires lists { LevelLists level (length batches.old.items) }
    ensures laid { IfOk result (λ place. (l : LevelLists level.entry (length batches.old.items)) → LevelLaid l.left batches.old.items batches.new.items place) }
{
    match level {
        None => Ok(None),
        Some(level) => {
            let place = append_level(alloc, level, batches)?;
            Ok(Some(place))
        }
    }
}

/// Lays out what is left of an element: the dwords of the ring's commands with all batches that they start, and up to two
/// levels, the outer one first. It answers a program, in which each start of a fetched batch holds the byte offset of its
/// copy, and the place at the front of all of it, whose fetched levels are byte offsets too. It takes no memory but the
/// program's, and that of one batch at a time.
pub fn lay_out(
    alloc: Global,
    ring_words: &[u32],
    outer: Option<Level>,
    inner: Option<Level>,
) -> Result<(Program, Saved), OutOfMemory>
    requires lists { (engine : ℕ) × (w : Left) × Lists ring_words.now outer inner engine w }
    ensures laid { IfOk result (λ r. (engine : ℕ) (w : Left) → Lists ring_words.now outer.entry inner.entry engine w → LaidOut w r.0.ring.items r.0.batches.items r.1) }
{
    let mut batches = Vec::new(alloc);
    let own = ring(alloc, ring_words, &mut batches)?;
    let first = append_any(alloc, outer, &mut batches)?;
    let second = append_any(alloc, inner, &mut batches)?;
    Ok((
        Program { ring: own, batches },
        Saved {
            ring: 0,
            first,
            second,
        },
    ))
}
