// The entry points: check, fresh, switch, judge. They ask nothing, and refuse bad input in the paper's order.
#![tactic(auto)]

ghost use Rattle.std.specs.Prelude.{◌≡◌, true};
ghost use Rattle.layers.specs.Layers.{shown_of};
ghost use Rattle.faults.specs.Faults.{fault_of};
ghost use Rattle.table.specs.Words.{table_in};
ghost use Rattle.records.specs.Records.{records_of, lent};
ghost use Rattle.records.specs.Good.{records_good};
ghost use Rattle.steps.specs.Steps.{arrival};
ghost use Rattle.firewall.specs.Firewall.{
  leaves,
  says,
  said_done,
  said_judged,
  check_of,
  start_of,
  switch_of,
  after_frame,
  after_socket,
  judge_of,
};

pub mod refusal;

pub use crate::refusal::Refusal;
use events::ROOM;
use faults::first_fault;
use records::fresh::switch_to;
use records::good::good;
use records::shape::{shape, shape_of};
use records::{Counts, Head, Places, RecordWords};
use steps::{Answer, step};
use table::Table;
use table::words::{ROW_WORDS, ROWS, TableWords, statecount};

// Is the table good, and then the record? Of the parts: what changes one of them has no & of the whole.
#[tactic(auto, unfolding(crate::specs::Firewall::check_of))]
fn check_parts(t: &TableWords, head: &Head, counts: &Counts, places: &Places) -> Result<(), Refusal>
    ensures { said_done result ≡ check_of (table_in t.now) (lent head.now counts.now places.now) }
{
    first_fault(t)?;
    if good(t, head, counts, places) {
        Ok(())
    } else {
        Err(Refusal::BadRecord)
    }
}

// The same of all words.
pub fn check(t: &TableWords, words: &RecordWords) -> Result<(), Refusal>
    ensures { said_done result ≡ check_of (table_in t.now) words.now }
{
    check_parts(t, &words.head, &words.counts, &words.places)
}

// A fresh record: state 0, all else empty or zero.
#[tactic(auto, using(crate::proofs::Laws::start_fresh), unfolding(crate::specs::Firewall::start_of))]
pub fn fresh(t: &TableWords, reading: u64, words: &mut RecordWords) -> Result<(), Refusal>
    ensures { leaves (said_done result) words.new ≡ start_of (table_in t.now) reading words.old }
{
    first_fault(t)?;
    *words = RecordWords::fresh(reading);
    shape(*words);
    Ok(())
}

// A switch of vehicle state changes only the active state.
// For a caller who may change the head alone: switch_head(&t, state, &mut words.head, &words.counts, &words.places).
pub fn switch_head(
    t: &TableWords,
    state: usize,
    head: &mut Head,
    counts: &Counts,
    places: &Places,
) -> Result<(), Refusal>
    ensures { leaves (said_done result) (lent head.new counts.now places.now)
        ≡ switch_of (table_in t.now) state (lent head.old counts.now places.now) }
{
    check_parts(t, head, counts, places)?;
    if state >= statecount(t) {
        return Err(Refusal::NoSuchState);
    }
    shape_of(*head, *counts, *places);
    switch_to(state as u64, head);
    Ok(())
}

// The same of all words.
pub fn switch(t: &TableWords, state: usize, words: &mut RecordWords) -> Result<(), Refusal>
    ensures { leaves (said_done result) words.new ≡ switch_of (table_in t.now) state words.old }
{
    switch_head(t, state, &mut words.head, &words.counts, &words.places)
}

// A frame judged by a table and a record that were checked. Both facts are clauses and no type: the records change, and then are told anew to be good.
// Socket, frame and reading are parameters and no struct: whoever calls has them apart, and would make one for this call alone.
fn judge_frame(
    t: &TableWords,
    words: &mut RecordWords,
    socket: u8,
    frame: &[u8],
    reading: u64,
    space: &mut [u8],
) -> Result<Answer, Refusal>
    requires table { fault_of (table_in t.now) ≡ Ok tt }
    requires record { records_good (table_in t.now) (records_of words.old) ≡ true }
    ensures { says (said_judged result) words.new space.new
        ≡ after_frame (table_in t.now) words.old (arrival reading socket frame.now) space.old (shown_of frame.now) }
{
    let seen = layers::see(socket == 1, frame)?;
    if space.len() < ROOM {
        return Err(Refusal::NoSpace);
    }
    Ok(step(t, &seen, reading, words, space))
}

// The same of a frame whose socket is asked first.
fn judge_socket(
    t: &TableWords,
    words: &mut RecordWords,
    socket: u8,
    frame: &[u8],
    reading: u64,
    space: &mut [u8],
) -> Result<Answer, Refusal>
    requires table { fault_of (table_in t.now) ≡ Ok tt }
    requires record { records_good (table_in t.now) (records_of words.old) ≡ true }
    ensures { says (said_judged result) words.new space.new
        ≡ after_socket (table_in t.now) words.old (arrival reading socket frame.now) space.old }
{
    if socket > 1 {
        return Err(Refusal::NoSuchSocket);
    }
    judge_frame(t, words, socket, frame, reading, space)
}

// One frame that came on a socket: its verdict, the deciding rule's id and the event's length.
pub fn judge(
    t: &TableWords,
    words: &mut RecordWords,
    socket: u8,
    frame: &[u8],
    reading: u64,
    space: &mut [u8],
) -> Result<Answer, Refusal>
    ensures { says (said_judged result) words.new space.new
        ≡ judge_of (table_in t.now) words.old (arrival reading socket frame.now) space.old }
{
    check(t, words)?;
    judge_socket(t, words, socket, frame, reading, space)
}

// The same for a table by value, as callers write it: it is laid as words, and those are lent.
pub fn judge_table(
    t: Table,
    words: &mut RecordWords,
    socket: u8,
    frame: &[u8],
    reading: u64,
    space: &mut [u8],
) -> Result<Answer, Refusal>
    ensures { says (said_judged result) words.new space.new ≡ judge_of t words.old (arrival reading socket frame.now) space.old }
{
    let mut w: TableWords = [[0; ROW_WORDS]; ROWS];
    lay::table(t, &mut w);
    judge(&w, words, socket, frame, reading, space)
}
