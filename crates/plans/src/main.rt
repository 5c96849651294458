// The program `plans`: a page of records from standard input; every plan of it, or its refusal, to standard output.

#![tactic(auto)]

// the plans of a page
mod planning;
#[cfg(test)]
mod tests;

use books::faults::BookFault;
use planning::plans_of;
use refusals::{Place, Refusal};
use std::io;
use std::io::{BufWriter, Read, Write};
use text::faults::TextFault;
use text::lines::{head_line, plan_line, refusal_line};

// one byte more than the largest page, so that a longer input is seen to be longer
const MOST_READ: u64 = 2049;
// places of the list
const PLACES: usize = 2048;
// room for every line
const ROOM: usize = 64;

fn main(rt: HostRuntime) -> io::Result<()> {
    let mut page = Vec::new(rt.alloc());
    rt.stdin().take(MOST_READ).read_to_end(&mut page)?;
    let mut list = [0u32; PLACES];
    let mut out = BufWriter::new(rt.alloc(), rt.stdout())?;
    // over comes as 1 or 0, by a rule of the project
    match plans_of(page.as_slice(), &mut list) {
        Ok((count, over)) => print_plans(&mut out, &list, count, over == 1)?,
        Err(fault) => print_refusal(&mut out, fault)?,
    }
    out.flush()
}

// The head line, and a line for each plan unless it is over. The list is the caller's memory, and the count, which is printed too, tells its plans.
fn print_plans<W: Write>(out: &mut W, list: &[u32], count: u32, over: bool) -> io::Result<()> {
    let mut line = [0u8; ROOM];
    let written = head_line(&mut line, count, over);
    print_line(out, &line, written)?;
    if over {
        return Ok(());
    }
    for plan in list.iter().take(count as usize) {
        print_plan(out, *plan)?;
    }
    Ok(())
}

fn print_plan<W: Write>(out: &mut W, plan: u32) -> io::Result<()> {
    let mut line = [0u8; ROOM];
    let written = plan_line(&mut line, plan);
    print_line(out, &line, written)
}

fn print_refusal<W: Write>(out: &mut W, fault: BookFault) -> io::Result<()> {
    let mut line = [0u8; ROOM];
    let refusal = Refusal::from(fault);
    let (record, byte) = match refusal.place {
        Place::At(_) => (0, 0),
        Place::InPage { record, byte } => (record, byte),
    };
    let written = refusal_line(&mut line, refusal.number, record, byte);
    print_line(out, &line, written)
}

// The first bytes of the buffer, as many as were written: the buffer is the caller's, and a call that writes a line answers its length.
fn print_line<W: Write>(
    out: &mut W,
    line: &[u8],
    written: Result<usize, TextFault>,
) -> io::Result<()> {
    match written {
        Ok(len) if len <= line.len() => out.write_all(&line[0..len]),
        _ => Err(io::Error::other("a line did not fit its buffer")),
    }
}
