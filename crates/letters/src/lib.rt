// What the program `noticecheck` answers to the letters that it is brought.
#![tactic(auto)]

ghost use Rattle.std.specs.Prelude.{◌≡◌, ◌≤◌, ◌++◌, length, IfOk, OnOk};
ghost use Rattle.shared.specs.Answers.{optional};
ghost use Rattle.letters.specs.Counts.{counted, Headed, ReadAs};
ghost use Rattle.shared_pen.specs.Inks.{poured};
ghost use Rattle.shared_pen.specs.Laws.{Finished};
ghost use Rattle.shared_pen.specs.Pens.{number_text};
ghost use Rattle.letters.specs.Letters.{cause_name, fault_text, letter_text, letter_length, letter_of, form_of, text_of_letters, text_in_room};

use line_forms::{inside, push_refused, split_once};
use shared::kinds::SettingKind;
use shared::refusal::{Cause, Fault};
use shared_kinds::trim::Trim;
use shared_notice::notice::walk_notice;
use shared_pen::pen::Pen;
use shared_pen::printer::Printer;
use shared_pen::sink::Sink;
use shared_text::events::StepVisitor;
use shared_text::number::read_number;
use shared_text::row::Row;
use std::alloc::AllocError;
use std::io::Write;

pub const LONGEST_LETTER: usize = 65536;

// The length that a letter's line gives.
fn letter_length(line: &[u8]) -> Option<u32>
    ensures { optional result ≡ letter_length line.now }
{
    read_number(inside(line, b"(letter ")?, 0, LONGEST_LETTER as u32)
}

// This program's words, and no Display of the library's type.
fn cause_name(cause: Cause) -> &'static str
    ensures { result.now ≡ cause_name cause }
{
    match cause {
        Cause::Byte => "byte",
        Cause::Word => "word",
        Cause::Setting(_) => "setting",
    }
}

// A pass that counts the steps.
#[derive(Clone, Copy, PartialEq, Eq, Debug, Default)]
pub struct StepCount {
    pub steps: u8,
}

impl StepVisitor for StepCount {
    ghost after = { counted };

    fn begin_bucket(&mut self, _bucket: u16, _seed: u16) {
        self.steps = self.steps.saturating_add(1);
    }

    fn setting<S: SettingKind>(&mut self, _slot: u8, _setting: S) {}

    fn row(&mut self, _row: Row) {}

    fn flip(&mut self, _place: u16) {}

    fn end_bucket(&mut self) {}

    fn slot_step<S: SettingKind>(&mut self, _bucket: u16, _slot: u16, _setting: S) {
        self.steps = self.steps.saturating_add(1);
    }
}

// What a pass over a notice tells: its number, and how many steps it has.
#[derive(Clone, Copy, PartialEq, Eq, Debug)]
pub struct Head {
    pub number: u32,
    pub steps: u8,
}

fn read_letter(text: &[u8]) -> Result<Head, Fault>
    ensures { ReadAs text.now result }
{
    let mut count = StepCount::default();
    let number = walk_notice::<Trim, StepCount>(text, &mut count)?;
    Ok(Head {
        number,
        steps: count.steps,
    })
}

// Prints the notice that `text` holds again.
fn print_again<K: Sink>(text: &[u8], head: Head, sink: &mut K)
    requires { Headed text.now head }
    ensures { sink.new ≡ poured K.each sink.old (letter_text text.now) }
{
    let mut printer = Printer { sink };
    printer.head(head.number, head.steps);
    let _ = walk_notice::<Trim, Printer<K>>(text, &mut printer);
    printer.end(head.number);
}

// Writes it at the front of `room`, and answers its length.
fn rewrite(text: &[u8], head: Head, room: &mut [u8]) -> Option<usize>
    requires { Headed text.now head }
    ensures { Finished (letter_text text.now) room.old room.new result }
{
    let mut pen = Pen::new(room);
    print_again(text, head, &mut pen);
    pen.finish()
}

// The number in decimal, behind what `out` holds. Here and below only want of memory is an error.
fn push_number(n: usize, out: &mut Vec<u8>) -> Result<(), AllocError>
    ensures { OnOk result (out.new.items ≡ out.old.items ++ number_text n) }
{
    let printed = write!(out, "{n}");
    // only want of memory makes the write fail
    printed.map_err(|_| AllocError)
}

// Piece by piece, and only the number by `write!`: one `writeln!` of the whole line took twice as long.
fn push_fault(fault: Fault, out: &mut Vec<u8>) -> Result<(), AllocError>
    ensures { OnOk result (out.new.items ≡ out.old.items ++ fault_text fault) }
{
    out.extend_from_slice(b"(refused 14 ")?;
    push_number(fault.place, out)?;
    out.push(b' ')?;
    out.extend_from_slice(cause_name(fault.cause).as_bytes())?;
    out.extend_from_slice(b")\n")
}

// What is printed of a letter that holds a notice.
fn push_notice(
    text: &[u8],
    head: Head,
    room: &mut [u8],
    out: &mut Vec<u8>,
) -> Result<(), AllocError>
    requires head { Headed text.now head }
    requires room { length text.now ≤ length room.old }
    ensures { OnOk result (out.new.items ≡ out.old.items ++ letter_text text.now) }
{
    // there is room: a notice is as long as the text that it is read from
    let len = rewrite(text, head, room).unwrap();
    out.extend_from_slice(&room[..len])
}

// What is printed of a letter. Here and below `room` and `out` are two loans of two owners.
fn answer_letter(text: &[u8], room: &mut [u8], out: &mut Vec<u8>) -> Result<(), AllocError>
    requires { length text.now ≤ length room.old }
    ensures { OnOk result (out.new.items ≡ out.old.items ++ letter_text text.now) }
{
    match read_letter(text) {
        Ok(head) => push_notice(text, head, room, out),
        Err(fault) => push_fault(fault, out),
    }
}

// What is printed of a line and the letter behind it; the answer is what stands behind the letter.
fn answer_line<'a>(
    line: &[u8],
    rest: &'a [u8],
    room: &mut [u8],
    out: &mut Vec<u8>,
) -> Result<&'a [u8], AllocError>
    requires { 65536 ≤ length room.old }
    ensures printed { OnOk result (out.new.items ≡ out.old.items ++ (letter_of (letter_length line.now) rest.now).0) }
    ensures behind { IfOk result (λ left. left.now ≡ (letter_of (letter_length line.now) rest.now).1) }
{
    let Some(len) = letter_length(line) else {
        push_refused(out)?;
        return Ok(rest);
    };
    let Some((letter, behind)) = rest.split_at_checked(len as usize) else {
        push_refused(out)?;
        return Ok(&[]); // the letter is cut short
    };
    answer_letter(letter, room, out)?;
    Ok(behind)
}

// What is printed of the first form of an input; the answer is what stands behind the form.
fn answer_form<'a>(
    input: &'a [u8],
    room: &mut [u8],
    out: &mut Vec<u8>,
) -> Result<&'a [u8], AllocError>
    requires { 65536 ≤ length room.old }
    ensures printed { OnOk result (out.new.items ≡ out.old.items ++ (form_of input.now).0) }
    ensures behind { IfOk result (λ left. left.now ≡ (form_of input.now).1) }
{
    let Some((line, rest)) = split_once(input, b'\n') else {
        push_refused(out)?;
        return Ok(&[]);
    };
    answer_line(line, rest, room, out)
}

#[tactic(auto, using(crate::proofs::Forms::forms))]
fn answer_forms(input: &[u8], room: &mut [u8], out: &mut Vec<u8>) -> Result<(), AllocError>
    requires { 65536 ≤ length room.old }
    ensures { OnOk result (out.new.items ≡ out.old.items ++ text_of_letters input.now) }
{
    let mut rest = input;
    while !rest.is_empty() {
        rest = answer_form(rest, room, out)?;
    }
    Ok(())
}

// What is printed of all the letters of an input. `room` is where notices are written before they are printed: it has
// to be as long as the longest letter.
pub fn answer_letters(input: &[u8], room: &mut [u8], out: &mut Vec<u8>) -> Result<(), AllocError>
    ensures { OnOk result (out.new.items ≡ out.old.items ++ text_in_room (length room.old) input.now) }
{
    if room.len() < LONGEST_LETTER {
        return Ok(());
    }
    answer_forms(input, room, out)
}
