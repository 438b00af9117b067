// IPv6 from the new modem under table T: beside the worked set, for a person who reads them for the first time.
ghost use Rattle.std.specs.Prelude.{◌≤◌, ◌+◌, length};

use crate::bench::{Asked, Bench, laid};
use crate::rules::RuleLine;
use crate::wrong::changed;
use addresses::Wide;
use paper::frames::MOST;
use std::io;
use table::*;

// Where each stands in an untagged frame.
const ETHER: usize = 12;

const PAYLOAD_LENGTH: usize = 19;

const NEXT: usize = 20;

const SOURCE: usize = 22;

const DESTINATION: usize = 38;

const PAYLOAD: usize = 54;

// Numbers of headers.
const TCP: u8 = 6;

const FRAGMENT: u8 = 44;

const OPTIONS: u8 = 60;

const SYN: u8 = 2;

const ACK: u8 = 16;

// At most nine headers, a clause here and below and no type: what calls from without names the number.
// So many headers of destination options, of eight bytes each, the last of which names TCP.
fn options(n: usize) -> [u8; MOST]
    requires { n ≤ 9 }
{
    let mut bytes = [0; MOST];
    for k in 0..n {
        bytes[PAYLOAD + 8 * k] = if k + 1 < n { OPTIONS } else { TCP };
    }
    bytes
}

fn put(at: usize, part: &[u8], bytes: &mut [u8; MOST])
    requires { at + length part.now ≤ 1519 }
{
    bytes[at..at + part.len()].copy_from_slice(part);
}

// From 443 to 50001, between 2001:db8::2 and 2001:db8::1.
fn segment(first: u8, n: usize, flags: u8) -> [u8; MOST]
    requires { n ≤ 9 }
{
    let mut bytes = options(n);
    put(ETHER, &[0x86, 0xDD, 0x60], &mut bytes);
    bytes[PAYLOAD_LENGTH] = 20 + 8 * n as u8;
    bytes[NEXT] = first;
    put(SOURCE, &[0x20, 0x01, 0x0D, 0xB8], &mut bytes);
    bytes[SOURCE + 15] = 2;
    put(DESTINATION, &[0x20, 0x01, 0x0D, 0xB8], &mut bytes);
    bytes[DESTINATION + 15] = 1;
    let at = PAYLOAD + 8 * n;
    put(at, &[1, 187, 195, 81], &mut bytes);
    put(at + 12, &[0x50, flags], &mut bytes);
    bytes
}

// Behind so many headers of which this is the first.
fn step<R: Print>(
    bench: &mut Bench<R>,
    what: &str,
    first: u8,
    n: usize,
    flags: u8,
) -> io::Result<()>
    requires { n ≤ 9 }
{
    let bytes = segment(first, n, flags);
    let end = PAYLOAD + 8 * n + 20;
    bench.show(Asked::beside(what, &bytes[..end]))?;
    Ok(())
}

// From a fresh record, under rule 20 for senders of 2001:db8::/32 alone: a chain of at most eight headers is followed.
pub(crate) fn segments<R: Print>(rt: &R) -> io::Result<()> {
    let prefix = Prefix {
        address: Wide {
            high: 0x20010DB800000000,
            low: 0,
        },
        length: 32,
    };
    let t = changed(
        1,
        |r| Rule {
            ipv6: IpSettings {
                source: Setting::Set(prefix),
                ..r.ipv6
            },
            ..r
        },
    );
    println!(rt;
        "\nIPv6 from the new modem, from 443 to 50001, the table with one change\n{}",
        RuleLine(&t.rules[1])
    )?;
    let w = laid(t);
    let mut bench = Bench::new(rt, &w);
    bench.begin()?;
    // Calls and not a list: each is proved to stay within the frame by its own numbers.
    step(&mut bench, "SYN", TCP, 0, SYN)?;
    step(&mut bench, "ACK behind one header", OPTIONS, 1, ACK)?;
    step(&mut bench, "ACK behind eight headers", OPTIONS, 8, ACK)?;
    step(&mut bench, "ACK behind nine headers", OPTIONS, 9, ACK)?;
    step(&mut bench, "ACK in a fragment", FRAGMENT, 1, ACK)
}
