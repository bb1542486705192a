// The line that a step shows as.
ghost use Rattle.std.specs.Prelude.{◌≤◌, length};
ghost use Rattle.lines.specs.Text.{Appended};
ghost use Rattle.lines.specs.Written.{Written};
ghost use Rattle.lines.specs.Line.{verdict_text, result_text, answer_text, step_text, line_of, longest};

use crate::text::Line;
use kernel::numbers::ACCEPTED;
use kernel::table::Answer;
use task::task::Outcome;

// No line is longer than this.
pub(crate) const LONGEST: usize = 62;

impl<'a> Line<'a> {
    pub(crate) fn verdict(&mut self, verdict: u8)
        ensures { Written self.old (verdict_text verdict) self.new }
    {
        match verdict {
            ACCEPTED => self.text(b"ok"),
            refusal => self.behind(b'R', u64::from(refusal)),
        }
    }

    fn result(&mut self, told: Outcome)
        ensures { Written self.old (result_text told) self.new }
    {
        match told {
            Outcome::Nothing => self.put(b'-'),
            Outcome::Value { from, cut, value } => {
                self.text(b"v ");
                self.signed(value);
                self.behind(b' ', u64::from(from));
                self.behind(b' ', u64::from(cut));
            }
            Outcome::Fault(fault) => {
                self.text(b"e ");
                self.signed(u32::from(fault).wrapping_neg());
            }
        }
    }

    fn answer(&mut self, answer: Answer)
        ensures { Written self.old (answer_text answer) self.new }
    {
        self.verdict(answer.verdict);
        self.behind(b' ', u64::from(answer.next));
        self.put(b' ');
        self.result(answer.result);
    }

    // The number of a step, which the caller has counted, its kind, and what it answered.
    pub(crate) fn step(&mut self, step: u64, kind: u32, answer: Answer)
        ensures { Written self.old (step_text step kind answer) self.new }
    {
        self.decimal(step);
        self.put(b' ');
        self.signed(kind);
        self.put(b' ');
        self.answer(answer);
    }
}

// The line of a step.
pub fn line(out: &mut [u8], at: usize, step: u64, kind: u32, answer: Answer) -> usize
    ensures appended { Appended out.old at (line_of step kind answer) out.new result }
    ensures short { length (line_of step kind answer) ≤ longest }
{
    let mut line = Line::new(out, at);
    line.step(step, kind, answer);
    line.put(b'\n');
    line.at
}
