// What a scan that stands somewhere is answered.
ghost use Rattle.std.specs.Prelude.{◌≡◌};
ghost use Rattle.scan.specs.Answer.{said_by, tally_of, verdict_refusal, refusal, answer_of};
ghost use Rattle.scan.specs.Call.{asked_answer};

use crate::lines::spot_in;
use crate::{Answer, Scan, Tally};
use base::{InTab, state};

impl Scan {
    fn tally(self) -> Tally
        ensures { result ≡ tally_of self }
    {
        Tally {
            events: self.used,
            steps: self.steps,
        }
    }

    // The answer of a scan that a verdict ended.
    fn verdict_refusal(self) -> Answer
        ensures { said_by result ≡ verdict_refusal self }
    {
        let tokenizer = self.tokenizer;
        let regs = tokenizer.regs;
        let lines = self.lines;
        let line = lines.line;
        let tab = lines.tab;
        let name = tokenizer.state;
        let tally = self.tally();
        let number = regs.last;
        match name {
            state::VERDICT_ERROR => {
                let fault = lines.fault;
                let spot = spot_in(fault, InTab::Outside, regs.fault);
                Answer::VerdictError {
                    spot,
                    number,
                    tally,
                }
            }
            state::VERDICT_EOF => {
                let spot = spot_in(line, tab, tokenizer.at);
                Answer::VerdictEof {
                    spot,
                    number,
                    tally,
                }
            }
            _ => Answer::BadCall,
        }
    }

    // The answer of a scan that the page or the event buffer ended.
    fn refusal(self) -> Answer
        ensures { said_by result ≡ refusal self }
    {
        let tokenizer = self.tokenizer;
        let regs = tokenizer.regs;
        let lines = self.lines;
        let line = lines.line;
        let tab = lines.tab;
        let name = tokenizer.state;
        let spot = spot_in(line, tab, tokenizer.at);
        let tally = self.tally();
        let site = regs.site;
        let note = regs.note;
        match name {
            state::NOT_ASCII => Answer::NotAscii { spot, tally },
            state::EOF => Answer::Eof { spot, site, tally },
            state::UNEXPECTED => Answer::Unexpected {
                spot,
                site,
                note,
                tally,
            },
            state::FULL => Answer::Full { spot, tally },
            _ => self.verdict_refusal(),
        }
    }

    // The answer of the scan as it stands, which is in range.
    pub(crate) fn stands(self) -> Answer
        ensures { said_by result ≡ answer_of self }
    {
        let tokenizer = self.tokenizer;
        let lines = self.lines;
        let line = lines.line;
        let tab = lines.tab;
        let end = tokenizer.at;
        let name = tokenizer.state;
        let spot = spot_in(line, tab, end);
        let tally = self.tally();
        if state::FIRST_RUNNING <= name {
            return Answer::Paused { spot, tally };
        }
        match name {
            state::DONE => Answer::Done { end, tally },
            state::NOK => Answer::Nok { tally },
            state::ASKING => Answer::Asking { spot, tally },
            _ => self.refusal(),
        }
    }

    // The answer of the scan as it stands: 12 for one that no call can have given.
    pub fn answer(self) -> Answer
        ensures { said_by result ≡ asked_answer self }
    {
        if self.in_range() {
            return self.stands();
        }
        Answer::BadCall
    }
}
