// Judges M1 to M11 of the paper's worked set and prints them, a line for each frame; then wrong steps, bundles of messages, segments over IPv6, frames on two sockets, wrong tables.
// Everything goes through the entry points.
#![tactic(auto)]

mod bench;
mod bundle;
mod expected;
mod modem;
mod page;
mod rules;
mod sockets;
mod words;
mod wrong;

use bench::{Asked, Bench, SOCKET, laid};
use paper::Line;
use paper::frames::{MOST, frame};
use paper::lines::{count, line};
use records::RecordWords;
use std::io;

// One line; was its frame answered as the paper says?
fn show<R: Print>(bench: &mut Bench<R>, l: Line) -> io::Result<bool> {
    let mut bytes = [0; MOST];
    let n = frame(l.frame, &mut bytes);
    let judged = bench.show(Asked {
        example: Some(l.example),
        what: words::frame(l.frame),
        socket: SOCKET,
        frame: &bytes[..n],
        reading: l.reading,
    })?;
    Ok(judged.meets(l.expected))
}

// Every line; the first that was not answered as the paper says. The records of the run before the last stay in `before`.
fn show_all<R: Print>(bench: &mut Bench<R>, before: &mut RecordWords) -> io::Result<Option<usize>> {
    let mut wrong = None;
    for k in 0..count() {
        let l = line(k);
        if l.fresh {
            *before = bench.words;
            bench.begin()?;
        }
        if !show(bench, l)? {
            wrong = wrong.or(Some(k));
        }
    }
    Ok(wrong)
}

fn are_same(a: &RecordWords, b: &RecordWords) -> bool {
    a.head == b.head && a.counts == b.counts && a.places == b.places
}

// The last two runs are M11 in both orders.
fn worked_set<R: Print>(bench: &mut Bench<R>) -> io::Result<()> {
    let rt = bench.rt;
    let mut before = RecordWords::fresh(0);
    let wrong = show_all(bench, &mut before)?;
    if are_same(&before, &bench.words) {
        println!(rt; "M11  both orders leave the same records, word by word")?;
    } else {
        println!(rt; "M11  the orders leave different records")?;
    }
    match wrong {
        None => println!(rt; "every frame is answered as the paper says"),
        Some(k) => { println!(rt; "frame {k}, counted from 0, is not answered as the paper says") }
    }
}

fn main(rt: HostRuntime) -> io::Result<()> {
    let t = paper::rules::table();
    rules::table(&rt, &t)?;
    page::title(&rt)?;
    let w = laid(t);
    let mut bench = Bench::new(&rt, &w);
    worked_set(&mut bench)?;
    wrong::steps(&mut bench)?;
    bundle::bundles(&mut bench)?;
    modem::segments(&rt)?;
    sockets::both(&rt)?;
    wrong::tables(&rt)?;
    words::settings(&rt)
}
