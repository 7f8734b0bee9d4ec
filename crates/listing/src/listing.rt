// The report on a plan: `refused`, the question's number and the place; or `accepted`, the number of steps, and then the
// program, procedure by procedure and line by line.
ghost use Rattle.std.specs.Prelude.{◌≡◌, min, length};
ghost use Rattle.task.specs.Program.{line_bytes, instruction_on};
ghost use Rattle.listing.specs.Listing.{instruction_text, decoded_text, line_text, procedure_text, listing_text, numbered, report_text, filled};
ghost use Rattle.listing.specs.Page.{HasPut};

use crate::page::Page;
use records::numbers::byte_at;
use task::bounds::Bounds;
use task::index::Index;
use task::instruction::{Instruction, Line, Proc, Triple, decode};
use task::program::line_offset;

// An instruction's name and its operands.
#[tactic(auto, using(crate::proofs::Laws::Page::puts_append), unfolding(crate::specs::Listing::instruction_text))]
fn put_instruction(page: &mut Page<'_>, w: Instruction)
    ensures { HasPut page.old (instruction_text w) page.new }
{
    match w {
        Instruction::Empty => page.put_word(b" empty"),
        Instruction::Act(action) => page.put_labelled(b" act ", action as usize),
        Instruction::Goto(Line(line), fact) => {
            page.put_labelled(b" goto ", line as usize);
            page.put_labelled(b" ", fact as usize);
        }
        Instruction::Call(Proc(procedure)) => page.put_labelled(b" call ", procedure as usize),
        Instruction::End => page.put_word(b" end"),
    }
}

// What three bytes decoded to.
#[tactic(auto, using(crate::proofs::Laws::Page::puts_none), unfolding(crate::specs::Listing::decoded_text))]
fn put_decoded(page: &mut Page<'_>, decoded: Option<Instruction>)
    ensures { HasPut page.old (decoded_text decoded) page.new }
{
    if let Some(w) = decoded {
        put_instruction(page, w);
    }
}

// The three bytes on a line of a procedure. They need not be there, as they must for `triple_at`: a byte past the program's end counts as 0.
#[tactic(auto, using(crate::proofs::Laws::Line::line_room), unfolding(task::specs::Instruction::triple_at))]
fn line_bytes(b: Bounds, program: &[u8], procedure: Proc, line: Line) -> Triple
    ensures { result ≡ line_bytes b program.now procedure line }
{
    let at = line_offset(b, procedure, line);
    Triple {
        op: byte_at(program, at),
        p: byte_at(program, at + 1),
        q: byte_at(program, at + 2),
    }
}

// A program, of any length, for a task with this index.
#[derive(Clone, Copy, Debug, PartialEq, Eq)]
struct Program<'a> {
    index: Index,
    bytes: &'a [u8],
}

impl Program<'_> {
    // The instruction on a line of a procedure, if these bytes spell one that is allowed there.
    #[tactic(auto, unfolding(task::specs::Program::instruction_on))]
    fn instruction_on(&self, procedure: Proc, line: Line) -> Option<Instruction>
        ensures { result ≡ instruction_on self.now.index self.now.bytes.now procedure line }
    {
        let bounds = self.index.bounds;
        let triple = line_bytes(bounds, self.bytes, procedure, line);
        decode(bounds, self.index.actions, line, triple)
    }

    // One line of a procedure: its number and its instruction.
    #[tactic(auto, using(crate::proofs::Laws::Page::puts_append), unfolding(crate::specs::Listing::line_text))]
    fn put_line(&self, page: &mut Page<'_>, procedure: u8, line: u8)
        ensures { HasPut page.old (line_text self.now.index self.now.bytes.now procedure line)
            page.new }
    {
        page.put_decimal(line as usize);
        put_decoded(page, self.instruction_on(Proc(procedure), Line(line)));
        page.put(b'\n');
    }

    // A procedure: its number, and its lines 0 to n.
    #[tactic(auto, using(crate::proofs::Laws::Page::puts_append, crate::proofs::Laws::Page::puts_none), unfolding(crate::specs::Listing::procedure_text, crate::specs::Listing::in_order))]
    fn put_procedure(&self, page: &mut Page<'_>, procedure: u8)
        ensures { HasPut page.old (procedure_text self.now.index self.now.bytes.now procedure)
            page.new }
    {
        page.put_labelled(b"procedure ", procedure as usize);
        page.put(b'\n');
        for line in 0..=self.index.bounds.last {
            self.put_line(page, procedure, line);
        }
    }

    // Every procedure.
    #[tactic(auto, using(crate::proofs::Laws::Page::puts_append, crate::proofs::Laws::Page::puts_none), unfolding(crate::specs::Listing::listing_text, crate::specs::Listing::in_order))]
    fn put_listing(&self, page: &mut Page<'_>)
        ensures { HasPut page.old (listing_text self.now.index self.now.bytes.now) page.new }
    {
        for procedure in 0..self.index.bounds.procedures {
            self.put_procedure(page, procedure);
        }
    }
}

// Any answer on a plan: the steps, or a question's number and the place.
#[tactic(auto, using(crate::proofs::Laws::Page::puts_append), unfolding(crate::specs::Listing::report_text))]
fn put_report(page: &mut Page<'_>, answer: Result<usize, (u8, usize)>, program: &Program<'_>)
    ensures { HasPut page.old
        (report_text (numbered answer) program.now.index program.now.bytes.now) page.new }
{
    match answer {
        Err((question, place)) => {
            page.put_labelled(b"refused ", question as usize);
            page.put_labelled(b" ", place);
            page.put(b'\n');
        }
        Ok(steps) => {
            page.put_labelled(b"accepted ", steps);
            page.put(b'\n');
            program.put_listing(page);
        }
    }
}

// Writes the report on a plan at the start of a text: on one that is accepted with its steps, or refused with any number and place. Answers how many bytes it wrote: all, or those that fit.
#[tactic(auto, using(crate::proofs::Laws::Page::put_all))]
pub fn report(
    answer: Result<usize, (u8, usize)>,
    index: Index,
    program: &[u8],
    text: &mut [u8],
) -> usize
    ensures { (result ≡ min (length (report_text (numbered answer) index program.now)) (length text.old))
        × (text.new ≡ filled (report_text (numbered answer) index program.now) text.old) }
{
    let program = Program {
        index,
        bytes: program,
    };
    let mut page = Page { text, at: 0 };
    put_report(&mut page, answer, &program);
    page.at
}
