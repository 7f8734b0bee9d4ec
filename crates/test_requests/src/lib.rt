// What the programs of stored tests share: they read records of requests, and write answers. No other crate calls it.
//
// The input is a run of records: the length of the body and the kind (2 bytes each), and the body.
#![tactic(auto)]

ghost use Rattle.std.specs.Prelude.{◌≡◌, true, false, ◌+◌, ◌<◌, ◌≤◌, length};

use records::numbers::two_at;
use std::io::{self, Read};
use task::refusal::Refusal;

// The most records that are answered.
const RECORDS: u16 = 4096;

// Hands the kind of each record and the length of its body to a closure that reads the body and answers it, until the input ends or the closure
// says false, as it does at a record that does not fit.
pub fn answer_all<R: Read, F: FnMut(&mut R, u16, u16) -> io::Result<bool>>(
    input: &mut R,
    mut answer: F,
) -> io::Result<()>
    requires { F.IsAlwaysCallable answer }
{
    for _ in 0..RECORDS {
        let mut head = [0u8; 4];
        if input.read_exact(&mut head).is_err() {
            return Ok(());
        }
        if !answer(input, two_at(&head, 2), two_at(&head, 0))? {
            return Ok(());
        }
    }
    Ok(())
}

// Reads so many bytes into the start of a space, which has room for any such number; at the end of the input fewer are read.
pub fn read_body<'a>(input: &mut impl Read, space: &'a mut [u8; 65536], size: u16) -> &'a mut [u8]
    ensures { length result.now ≡ size }
{
    let body = &mut space[..size as usize];
    let _ = input.read_exact(body);
    body
}

// Whether so many bytes are there from an offset on, as those of a task that passes are.
pub fn there(bytes: &[u8], at: usize, size: usize) -> bool
    ensures whole { result ≡ true → at + size ≤ length bytes.now }
    ensures cut { result ≡ false → length bytes.now < at + size }
{
    size <= bytes.len() && at <= bytes.len() - size
}

// A yes has the number 0 and its value; a no has its question's number and its place.
pub fn write_answer(rt: &impl Print, answer: Result<usize, Refusal>) -> io::Result<()> {
    match answer {
        Ok(value) => print!(rt; "0 {value}"),
        Err(refusal) => print!(rt; "{refusal}"),
    }
}

// Each byte in hexadecimal.
pub fn write_bytes(rt: &impl Print, bytes: &[u8]) -> io::Result<()> {
    print!(rt; " [")?;
    for byte in bytes {
        print!(rt; "{byte:02x}")?;
    }
    println!(rt; "]")
}
