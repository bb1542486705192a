// The wide line that a step shows as.
ghost use Rattle.std.specs.Prelude.{◌≤◌, length};
ghost use Rattle.kernel.specs.Table.{used_slots};
ghost use Rattle.lines.specs.Text.{Appended};
ghost use Rattle.lines.specs.Written.{Written};
ghost use Rattle.lines.specs.State.{effect_text, task_text, tasks_text, wide_line_of, longest_wide};

use crate::shown::LONGEST;
use crate::text::Line;
use kernel::table::{Decision, Effect, Table};
use task::parts::state_code;
use task::search::used_slots;
use task::task::Task;
use tid::sizes::SLOTS;

// No wide line is longer than this.
pub const LONGEST_WIDE: usize = LONGEST + 72 + SLOTS * 19;

impl<'a> Line<'a> {
    fn effect(&mut self, effect: Effect)
        ensures { Written self.old (effect_text effect) self.new }
    {
        match effect {
            Effect::Keep => self.put(b'-'),
            Effect::Copy {
                source,
                dest,
                count,
                cut,
            } => {
                self.put(b'c');
                self.behind(b' ', source as u64);
                self.behind(b' ', dest as u64);
                self.behind(b' ', count as u64);
                self.behind(b' ', u64::from(cut));
            }
            Effect::Put { at, .. } => {
                self.put(b'w');
                self.behind(b' ', at as u64);
            }
        }
    }

    fn task(&mut self, task: Task)
        ensures { Written self.old (task_text task) self.new }
    {
        self.behind(b' ', u64::from(state_code(task.state)));
        self.behind(b'/', u64::from(task.priority));
        self.behind(b'/', u64::from(task.entry));
    }

    // The used slots come first.
    fn tasks(&mut self, table: Table)
        ensures { Written self.old (tasks_text table (used_slots table)) self.new }
    {
        let used = used_slots(table.tasks);
        for task in &table.tasks[..used] {
            self.task(*task);
        }
    }
}

// The wide line of a step.
pub(crate) fn wide_line(
    out: &mut [u8],
    at: usize,
    step: u64,
    kind: u32,
    decision: Decision,
) -> usize
    ensures appended { Appended out.old at (wide_line_of step kind decision) out.new result }
    ensures short { length (wide_line_of step kind decision) ≤ longest_wide }
{
    let mut line = Line::new(out, at);
    line.step(step, kind, decision.answer);
    line.text(b" ; ");
    line.effect(decision.effect);
    line.text(b" ;");
    line.tasks(decision.table);
    line.put(b'\n');
    line.at
}
