// Two sockets under table T: beside the worked set, for a person who reads them for the first time.
use crate::bench::{Asked, Bench, laid};
use crate::page::Text;
use crate::rules::RuleLine;
use crate::wrong::changed;
use paper::Frame;
use paper::frames::{MOST, frame};
use std::io;
use table::*;

fn step<R: Print>(bench: &mut Bench<R>, what: &str, f: Frame, socket: u8) -> io::Result<()> {
    let mut bytes = [0; MOST];
    let n = frame(f, &mut bytes);
    let words = Text::of(format_args!("{what} on socket {socket}"));
    bench.show(Asked {
        socket,
        ..Asked::beside(words.as_str(), &bytes[..n])
    })?;
    Ok(())
}

// From a fresh record, under rule 20 with one of its two places for each socket: each socket has its number, its conversations and its bucket.
pub(crate) fn both<R: Print>(rt: &R) -> io::Result<()> {
    let t = changed(
        1,
        |r| Rule {
            tracking: TrackingSettings {
                number0: Setting::Set(1),
                number1: Setting::Set(1),
                ..r.tracking
            },
            ..r
        },
    );
    println!(rt;
        "\ntwo sockets, each SYN from 443, the table with one change\n{}",
        RuleLine(&t.rules[1])
    )?;
    let w = laid(t);
    let mut bench = Bench::new(rt, &w);
    bench.begin()?;
    for (what, f, socket) in [
        ("SYN to 50001", Frame::Syn1, 0),
        ("SYN to 50002", Frame::Syn2, 0),
        ("SYN to 50001", Frame::Syn1, 1),
        ("0x0806", Frame::Ether0806, 0),
        ("0x0806", Frame::Ether0806, 0),
        ("0x0806", Frame::Ether0806, 0),
        ("0x0806", Frame::Ether0806, 1),
        ("SYN to 50001", Frame::Syn1, 2),
    ] {
        step(&mut bench, what, f, socket)?;
    }
    Ok(())
}
