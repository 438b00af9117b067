// What is answered to a step that is wrong, and to a table that is: beside the worked set, for a person who reads them for the first time.
ghost use Rattle.std.specs.Prelude.{◌<◌};

use crate::bench::{Asked, Bench, laid};
use crate::words::RefusalWords;
use paper::Frame;
use paper::frames::{MOST, frame};
use paper::rules::table;
use records::RecordWords;
use std::io;
use table::*;

// Where the flags of an untagged TCP frame without IP options stand.
const FLAGS: usize = 47;

const FIN: u8 = 1;

const SYN: u8 = 2;

const ACK: u8 = 16;

// From a fresh record, frames from 443 to 50001 with these flags: wrong flags come first, whether a conversation is held or not.
pub(crate) fn steps<R: Print>(bench: &mut Bench<R>) -> io::Result<()> {
    println!(bench.rt; "\nwhich TCP step was wrong, from 443 to 50001")?;
    bench.begin()?;
    let mut bytes = [0; MOST];
    let n = frame(Frame::Ack1, &mut bytes);
    for (what, flags) in [
        ("SYN+FIN", SYN + FIN),
        ("ACK", ACK),
        ("SYN", SYN),
        ("ACK", ACK),
        ("SYN", SYN),
        ("no flag", 0),
    ] {
        bytes[FLAGS] = flags;
        bench.show(Asked::beside(what, &bytes[..n]))?;
    }
    Ok(())
}

// The table with one rule changed.
pub(crate) fn changed<F: FnOnce(Rule) -> Rule>(k: usize, change: F) -> Table
    requires place { k < 64 }
    requires change { F.IsAlwaysCallable change }
{
    let mut t = table();
    t.rules[k] = change(t.rules[k]);
    t
}

// How many there are of the next.
const SPOILED: usize = 7;

// One change that is a fault: by its number and not as a list, so that one table is held at a time.
fn spoiled(k: usize) -> (&'static str, Table) {
    match k {
        0 => (
            "rule 10 with VLAN id 4095",
            changed(
                0,
                |r| Rule {
                    link: LinkSettings {
                        vlan: Setting::Set(4095),
                        ..r.link
                    },
                    ..r
                },
            ),
        ),
        1 => (
            "rule 10 with IPv6 protocol 17 too",
            changed(
                0,
                |r| Rule {
                    ipv6: IpSettings {
                        protocol: Setting::Set(17),
                        ..r.ipv6
                    },
                    ..r
                },
            ),
        ),
        2 => (
            "rule 20 blocks",
            changed(
                1,
                |r| Rule {
                    action: Action::Block,
                    ..r
                },
            ),
        ),
        3 => (
            "rule 30 without its refill",
            changed(
                2,
                |r| Rule {
                    rate: RateSettings {
                        refill: Setting::Unset,
                        ..r.rate
                    },
                    ..r
                },
            ),
        ),
        4 => (
            "rule 40 without its kind",
            changed(
                3,
                |r| Rule {
                    transport: TransportSettings {
                        kind: Setting::Unset,
                        ..r.transport
                    },
                    ..r
                },
            ),
        ),
        5 => (
            "rule 40 with the id of rule 10",
            changed(3, |r| Rule { id: 10, ..r }),
        ),
        _ => (
            "no vehicle state",
            Table {
                statecount: 0,
                ..table()
            },
        ),
    }
}

// A fresh record asked of each, and what is answered.
pub(crate) fn tables(rt: &impl Print) -> io::Result<()> {
    println!(rt; "\nwhich setting is at fault, the table with one change")?;
    for k in 0..SPOILED {
        let (what, t) = spoiled(k);
        let w = laid(t);
        match firewall::fresh(&w, 0, &mut RecordWords::fresh(0)) {
            Ok(()) => println!(rt; "     {what:<39}good"),
            Err(r) => println!(rt; "     {what:<39}{}", RefusalWords(r, &w)),
        }?;
    }
    Ok(())
}
