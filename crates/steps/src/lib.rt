// One frame judged for a good table and a good record, with nothing checked again.
#![tactic(auto)]

ghost use Rattle.std.specs.Prelude.{◌≡◌, ◌≤◌, length};
ghost use Rattle.numbers.specs.Lists.{Wrote};
ghost use Rattle.layers.specs.Layers.{least};
ghost use Rattle.layers.specs.Seen.{seen_in};
ghost use Rattle.table.specs.Table.{most_rules};
ghost use Rattle.table.specs.Words.{table_in};
ghost use Rattle.deciding.specs.Best.{best_of};
ghost use Rattle.records.specs.Records.{records_of};
ghost use Rattle.verdicts.specs.Verdict.{verdict_number};
ghost use Rattle.events.specs.Events.{event_room};
ghost use Rattle.steps.specs.Steps.{no_turn, quad_of, turn_in, id_at, event_for, best_event, event_of, outcome_of, Ready, stepped, stepped_as};

use conversations::Turn;
use deciding::{Best, decide};
use events::{Event, mismatch, write};
use flags::flag_kind;
use layers::Seen;
use packets::Ip;
use payloads::Transport;
use places::Quad;
use places::place::{ipv4_quad, ipv6_quad, no_quad};
use records::shape::shape;
use records::{ACTIVE, DEFAULT, RecordWords};
use table::words::{TableWords, id};
use verdicts::verdict::Verdict;

// "The answer is verdict, the deciding rule's id (65,535 for the default) and event length".
#[derive(Clone, Copy)]
pub struct Answer {
    pub verdict: Verdict,
    pub rule: u16,
    pub length: usize,
}

impl Answer {
    // The rule id that stands for none.
    pub const NO_RULE: u16 = 65535;
}

// What a verdict reports: nothing, an event of the decider, or the mismatch of the best fit. A value of its own, since the definition event_for tells it.
#[derive(Clone, Copy)]
pub enum Report {
    Nothing,
    Own(Event),
    BestFit,
}

fn no_turn(second: bool) -> Turn
    ensures { result ≡ no_turn second }
{
    Turn {
        quad: no_quad(second),
        flags: None,
    }
}

// The conversation between the addresses of a packet of either kind, none where there is no packet.
fn quad_of(second: bool, ip: Ip, ports: u32) -> Quad
    ensures { result ≡ quad_of second ip ports }
{
    match ip {
        Ip::Absent => no_quad(second),
        Ip::V4(p) => ipv4_quad(second, p.source, p.destination, ports),
        Ip::V6(p) => ipv6_quad(second, p.source, p.destination, ports),
    }
}

// What a rule looks at: the socket, addresses, ports and flags of a TCP segment.
pub(crate) fn turn(second: bool, ip: Ip, t: Transport) -> Turn
    ensures { result ≡ turn_in second ip t }
{
    match t {
        Transport::Absent | Transport::Udp(_) => no_turn(second),
        Transport::Tcp(s) => Turn {
            quad: quad_of(
                second,
                ip,
                u32::from(s.source) * 65536 + u32::from(s.destination),
            ),
            flags: flag_kind(s.fin, s.syn, s.rst, s.ack),
        },
    }
}

#[tactic(auto, using(table::proofs::Rows::rule_at_lem))]
fn id_at(t: &TableWords, d: usize) -> u16
    ensures { result ≡ id_at (table_in t.now) d }
{
    if d < DEFAULT {
        id(&t[d])
    } else {
        Answer::NO_RULE
    }
}

// Verdicts 0, 1 and 2 have no event.
#[tactic(auto, unfolding(crate::specs::Steps::event_for))]
fn event_for(v: Verdict) -> Report
    ensures { result ≡ event_for (verdict_number v) }
{
    match v {
        Verdict::OverRate => Report::Own(Event::Ratelimit),
        Verdict::WrongFlags | Verdict::NoConversation | Verdict::NotInState => {
            Report::Own(Event::StateTransition)
        }
        Verdict::NoPlaceFree => Report::Own(Event::MaxConnections),
        Verdict::BlockedByDefault => Report::BestFit,
        Verdict::Allowed | Verdict::AllowedByDefault | Verdict::BlockedByRule => Report::Nothing,
    }
}

// The mismatch event of the best fit. With no active rule: link and 65,535.
#[tactic(auto, using(table::proofs::Rows::rule_at_lem, crate::proofs::Laws::best_rule, crate::proofs::Laws::wrote))]
fn write_best(t: &TableWords, state: usize, best: Best, x: &Seen, space: &mut [u8]) -> usize
    requires rules { (table_in t.now).rulecount ≤ most_rules }
    requires best { best ≡ best_of (table_in t.now) state (seen_in x.now) }
    requires long { least ≤ length x.now.frame.now }
    requires room { event_room ≤ length space.old }
    ensures { Wrote (best_event (table_in t.now) state (seen_in x.now)) space.old space.new result }
{
    if best.place < DEFAULT {
        let rule = &t[best.place];
        return write(mismatch(rule, best.layer), id(rule), x, space);
    }
    write(Event::LinkMismatch, Answer::NO_RULE, x, space)
}

// The event of a verdict, at the start of the space.
fn write_event(
    t: &TableWords,
    state: usize,
    best: Best,
    x: &Seen,
    d: usize,
    v: Verdict,
    space: &mut [u8],
) -> usize
    requires rules { (table_in t.now).rulecount ≤ most_rules }
    requires best { best ≡ best_of (table_in t.now) state (seen_in x.now) }
    requires long { least ≤ length x.now.frame.now }
    requires room { event_room ≤ length space.old }
    ensures { Wrote (event_of (table_in t.now) state (seen_in x.now) d (verdict_number v)) space.old space.new result }
{
    match event_for(v) {
        Report::Nothing => 0,
        Report::Own(e) => write(e, id_at(t, d), x, space),
        Report::BestFit => write_best(t, state, best, x, space),
    }
}

// Steps 1 to 5, and the event.
pub fn step(
    t: &TableWords,
    x: &Seen,
    reading: u64,
    words: &mut RecordWords,
    space: &mut [u8],
) -> Answer
    requires { Ready (table_in t.now) words.old (seen_in x.now) space.old }
    ensures outcome { stepped result words.new space.new
        ≡ stepped_as (outcome_of (table_in t.now) (records_of words.old) reading (seen_in x.now)) space.old }
    ensures records { records_of words.new ≡ (outcome_of (table_in t.now) (records_of words.old) reading (seen_in x.now)).records }
{
    let state = words.head[ACTIVE] as usize;
    let g = turn(x.second, x.layers.ip, x.layers.transport);
    let decision = decide(t, state, x);
    let d = decision.decider;
    words.tick(t, reading);
    let verdict = words.act(t, g, d);
    shape(*words);
    let length = write_event(t, state, decision.best, x, d, verdict, space);
    Answer {
        verdict,
        rule: id_at(t, d),
        length,
    }
}
