// A task's waiting result is taken out of its own record.
ghost use Rattle.std.specs.Prelude.{◌≡◌};
ghost use Rattle.task.specs.Result as Shown;
ghost use Rattle.task.specs.Task.{cleared, taken_from};

use crate::task::{Outcome, Taken, Task};

// Nothing is left in the record, and every other field is as it was.
pub fn take_result(task: &mut Task) -> Outcome
    ensures { (result ≡ task.old.result) × (task.new ≡ cleared task.old) }
{
    std::mem::replace(&mut task.result, Outcome::Nothing)
}

// The same by value: the one place that lends a task.
pub fn taken(mut task: Task) -> Taken
    ensures { result ≡ taken_from task }
{
    let result = take_result(&mut task);
    Taken { task, result }
}

// 1 for true, 0 for false: what stands for `cut` in records, answers and lines.
pub fn bit(x: bool) -> u8
    ensures { result ≡ Shown.bit x }
{
    u8::from(x)
}
