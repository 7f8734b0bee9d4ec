// Runs stored plans through the checker and stored programs through the writer, and writes what they answer.
//
// The input is a run of records. Kind 0: text, written as it is. Any other kind: a task's length and a buffer's (2 bytes each), the
// buffer, the task, and a program for the writer if the kind is 2, else a plan for the checker. The answer's number and value are
// written, and the whole buffer afterwards: in hexadecimal, or two sums of its bytes if there are more than 1,024.
#![tactic(auto)]

use checker::check::check_plan;
use checker::write::write_plan;
use records::numbers::two_at;
use std::io::{self, Read};
use task::refusal::Refusal;
use test_requests::{answer_all, read_body, write_answer, write_bytes};

// The kind of a request to the writer.
const WRITER: u16 = 2;

// The longest buffer that is listed.
const LISTED: usize = 1024;

// The sum of the bytes, and the sum of the sums up to each of them.
fn write_sums(rt: &impl Print, bytes: &[u8]) -> io::Result<()> {
    let mut sum: u64 = 0;
    let mut sums: u64 = 0;
    for &byte in bytes {
        sum = sum.wrapping_add(byte as u64);
        sums = sums.wrapping_add(sum);
    }
    println!(rt; " sums {sum} {sums}")
}

fn write_buffer(rt: &impl Print, buffer: &[u8]) -> io::Result<()> {
    if LISTED < buffer.len() {
        write_sums(rt, buffer)
    } else {
        write_bytes(rt, buffer)
    }
}

// The writer's answer on a program, or the checker's on a plan.
fn ask(kind: u16, task: &[u8], file: &[u8], buffer: &mut [u8]) -> Result<usize, Refusal> {
    if kind == WRITER {
        write_plan(task, file, buffer)
    } else {
        check_plan(task, file, buffer)
    }
}

// The answer on a task of the given length and a plan or program behind it, and the buffer after it.
fn answer_files(
    rt: &impl Print,
    kind: u16,
    size: u16,
    files: &[u8],
    buffer: &mut [u8],
) -> io::Result<()> {
    let Some((task, file)) = files.split_at_checked(size as usize) else {
        return Ok(());
    };
    write_answer(rt, ask(kind, task, file, buffer))?;
    write_buffer(rt, buffer)
}

// Reads a request's body and answers it; false if it does not fit.
fn answer_request(
    rt: &impl Print,
    input: &mut impl Read,
    kind: u16,
    size: u16,
    space: &mut [u8; 65536],
    lent: &mut [u8; 65536],
) -> io::Result<bool> {
    let mut head = [0u8; 4];
    if input.read_exact(&mut head).is_err() {
        return Ok(false);
    }
    let buffer = two_at(&head, 2);
    let Some(files) = size
        .checked_sub(4)
        .and_then(|rest| rest.checked_sub(buffer))
    else {
        return Ok(false);
    };
    let buffer = read_body(input, lent, buffer);
    let files = read_body(input, space, files);
    answer_files(rt, kind, two_at(&head, 0), files, buffer)?;
    Ok(true)
}

fn main(rt: HostRuntime) -> io::Result<()> {
    let mut space = [0u8; 65536];
    let mut lent = [0u8; 65536];
    answer_all(&mut rt.reader(), |input, kind, size| {
        if kind != 0 {
            return answer_request(&rt, input, kind, size, &mut space, &mut lent);
        }
        rt.write_all(read_body(input, &mut space, size))?;
        Ok(true)
    })
}
