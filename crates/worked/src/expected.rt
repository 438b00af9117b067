// Is an answer what the paper says?
use crate::bench::Judged;
use numbers::read16;
use paper::Expected;
use steps::Answer;

impl Judged {
    pub(crate) fn meets(&self, e: Expected) -> bool {
        match (e, self.answer) {
            (Expected::Refused(n), Err(r)) => r.number() == n,
            (Expected::Quiet { verdict, rule }, Ok(a)) => is(a, verdict, rule, 0),
            (
                Expected::Event {
                    verdict,
                    rule,
                    number,
                    named,
                    length,
                },
                Ok(a),
            ) => {
                is(a, verdict, rule, length)
                    && read16(&self.event, 0) == number
                    && read16(&self.event, 2) == named
            }
            _ => false,
        }
    }
}

fn is(a: Answer, verdict: u8, rule: u16, length: usize) -> bool {
    a.verdict.number() == verdict && a.rule == rule && a.length == length
}
