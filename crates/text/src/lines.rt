// The three lines. Each is written from the start of the buffer, and ends in a line feed.

ghost use Rattle.std.specs.Prelude.{◌≡◌, ◌<◌, ◌≤◌, length, IfOk};
ghost use Rattle.refusals.specs.Faults.{answered};
ghost use Rattle.text.specs.Grown.{Grown, HasRoom};
ghost use Rattle.text.specs.Printed.{head_line, next_test, plan_line, refusal_line, spaced};
ghost use Rattle.text.specs.Refused.{plan_fault, room_fault, written};
ghost use Rattle.text.specs.Sets.{tests_from};
ghost use Rattle.text.specs.Told.{Tells};

use crate::checks::{HIGHEST, check_plan, check_room};
use crate::faults::TextFault;
use crate::writing::Line;

// `plans 12`, or `plans 12 over`: how many plans there are, and whether there were too few places for them.
#[tactic(auto, using(crate::proofs::Laid::head_put))]
pub fn head_line(buffer: &mut [u8], count: u32, over: bool) -> Result<usize, TextFault>
    ensures answer { result ≡ answered (room_fault (length buffer.old)) (length (head_line count over)) }
    ensures after { buffer.new ≡ written result (head_line count over) buffer.old }
    ensures within { IfOk result (λ n. n < 64) }
{
    check_room(buffer.len())?;
    let mut line = Line::new(buffer);
    line.push_str("plans ");
    line.push_number(count);
    if over {
        line.push_str(" over");
    }
    line.push_str("\n");
    Ok(line.len())
}

// The plan's tests by their numbers, rising, with one space between; `-` for no test.
#[tactic(auto, using(crate::proofs::Laid::plan_put))]
pub fn plan_line(buffer: &mut [u8], tests: u32) -> Result<usize, TextFault>
    ensures answer { result ≡ answered (plan_fault tests (length buffer.old)) (length (plan_line tests)) }
    ensures after { buffer.new ≡ written result (plan_line tests) buffer.old }
    ensures within { IfOk result (λ n. n < 64) }
    ensures told { Tells tests result }
{
    check_plan(tests, buffer.len())?;
    let mut line = Line::new(buffer);
    push_tests(&mut line, tests);
    if line.is_empty() {
        line.push_str("-");
    }
    line.push_str("\n");
    Ok(line.len())
}

// `refused 9`; a page's refusals, 3 and 4, name their place too: `refused 3 record 1 byte 2`.
// Number, record and byte are 32-bit numbers of whatever value: a rule of the project.
#[tactic(auto, using(crate::proofs::Laid::refusal_put))]
pub fn refusal_line(
    buffer: &mut [u8],
    number: u32,
    record: u32,
    byte: u32,
) -> Result<usize, TextFault>
    ensures answer { result ≡ answered (room_fault (length buffer.old)) (length (refusal_line number «record» byte)) }
    ensures after { buffer.new ≡ written result (refusal_line number «record» byte) buffer.old }
    ensures within { IfOk result (λ n. n < 64) }
{
    check_room(buffer.len())?;
    let mut line = Line::new(buffer);
    line.push_str("refused ");
    line.push_number(number);
    if matches!(number, 3 | 4) {
        line.push_str(" record ");
        line.push_number(record);
        line.push_str(" byte ");
        line.push_number(byte);
    }
    line.push_str("\n");
    Ok(line.len())
}

// The tests of 1 to 24 that are in the set, from the start of the buffer.
fn push_tests(line: &mut Line, tests: u32)
    requires empty { line.old.len ≡ 0 }
    requires room { 64 ≤ length line.old.buffer.now }
    ensures { Grown line.old (spaced (tests_from 1 24 tests)) line.new }
{
    for test in 1..=HIGHEST {
        if sets::has(tests, test) {
            push_test(line, test);
        }
    }
}

// One more test; only the first has no space before it.
#[tactic(auto, using(crate::proofs::Laid::test_put))]
fn push_test(line: &mut Line, test: u32)
    requires { HasRoom line.old (next_test line.old.len test) }
    ensures { Grown line.old (next_test line.old.len test) line.new }
{
    if !line.is_empty() {
        line.push_str(" ");
    }
    line.push_number(test);
}
