// What the programs print: bytes as they are, counts, whole numbers with their sign, and lists of them.
// Each function takes the writer that it prints to, and answers as std does: a write can fail. Of one that did not, its promise says which bytes it added.
#![tactic(auto)]

ghost use Rattle.std.specs.Prelude.{◌≡◌, ◌++◌, ◌↔◌, All, IsTrue, OnOk, codes};
ghost use Rattle.std.specs.List.{flat_map};
ghost use Rattle.std.specs.Fmt.{decimal, signed_decimal};
ghost use Rattle.std.specs.Io.KnownBytes.{Appends};
ghost use Rattle.refusals.specs.Answers.{refused_with};
ghost use Rattle.printing.specs.Printed.{refusal_text, setpoint_text, term_text, special_text, byte_text};

use refusals::Refusal;
use std::io;
use std::io::Write;

// Prints bytes as they are.
pub fn print<W: Write>(out: &mut W, text: &[u8]) -> io::Result<()>
    ensures { OnOk result (Appends (W.contents out.old) (W.contents out.new) text.now) }
{
    out.write_all(text)
}

pub fn print_count<W: Write>(out: &mut W, count: usize) -> io::Result<()>
    ensures { OnOk result (Appends (W.contents out.old) (W.contents out.new) (decimal count)) }
{
    write!(out, "{}", count)
}

// Prints a whole number with its sign.
fn print_number<W: Write>(out: &mut W, number: i32) -> io::Result<()>
    ensures { OnOk result (Appends (W.contents out.old) (W.contents out.new) (signed_decimal number)) }
{
    if number < 0 {
        print(out, b"-")?;
    }
    write!(out, "{}", number.unsigned_abs())
}

// Prints the value of a term, or a setpoint.
fn print_value<W: Write>(out: &mut W, value: i16) -> io::Result<()>
    ensures { OnOk result (Appends (W.contents out.old) (W.contents out.new) (signed_decimal value)) }
{
    print_number(out, i32::from(value))
}

// Prints a call and what it is given.
pub fn print_call<W: Write>(out: &mut W, call: &[u8], given: &[u8]) -> io::Result<()>
    ensures { OnOk result (Appends (W.contents out.old) (W.contents out.new) (call.now ++ given.now)) }
{
    print(out, call)?;
    print(out, given)
}

// Prints a count after what it is.
pub fn print_count_after<W: Write>(out: &mut W, what: &[u8], count: usize) -> io::Result<()>
    ensures { OnOk result (Appends (W.contents out.old) (W.contents out.new) (what.now ++ decimal count)) }
{
    print(out, what)?;
    print_count(out, count)
}

// Prints a number after what it is.
pub fn print_number_after<W: Write>(out: &mut W, what: &[u8], number: i32) -> io::Result<()>
    ensures { OnOk result (Appends (W.contents out.old) (W.contents out.new) (what.now ++ signed_decimal number)) }
{
    print(out, what)?;
    print_number(out, number)
}

// Prints the number of an answer's refusal, 0 for none, with which the answer begins.
pub fn print_outcome<W: Write, T>(out: &mut W, answer: &Result<T, Refusal>) -> io::Result<()>
    ensures { OnOk result (Appends (W.contents out.old) (W.contents out.new) (codes ": " ++ decimal (refused_with answer.now))) }
{
    let number = match answer {
        Ok(_) => 0,
        Err(refusal) => refusal.row(),
    };
    print_count_after(out, b": ", usize::from(number))
}

// Prints the line of a text that is turned away.
pub fn print_refused<W: Write>(out: &mut W, refusal: Refusal) -> io::Result<()>
    ensures { OnOk result (Appends (W.contents out.old) (W.contents out.new) (refusal_text refusal)) }
{
    writeln!(out, "refused {refusal}")
}

// Prints a setpoint after a space.
pub fn print_setpoint<W: Write>(out: &mut W, setpoint: i16) -> io::Result<()>
    ensures { OnOk result (Appends (W.contents out.old) (W.contents out.new) (setpoint_text setpoint)) }
{
    print(out, b" ")?;
    print_value(out, setpoint)
}

// Prints setpoints, each after a space.
pub fn print_setpoints<W: Write>(out: &mut W, setpoints: &[i16]) -> io::Result<()>
    ensures { OnOk result (Appends (W.contents out.old) (W.contents out.new) (flat_map setpoint_text setpoints.now)) }
{
    for setpoint in setpoints {
        print_setpoint(out, *setpoint)?;
    }
    Ok(())
}

// Prints a term after a space, as node:value.
pub fn print_term<W: Write>(out: &mut W, node: u16, value: i16) -> io::Result<()>
    ensures { OnOk result (Appends (W.contents out.old) (W.contents out.new) (term_text node value)) }
{
    print_number_after(out, b" ", i32::from(node))?;
    print(out, b":")?;
    print_value(out, value)
}

// Prints a special slot after a space, as slot:band.
pub fn print_special<W: Write>(out: &mut W, slot: u16, band: u16) -> io::Result<()>
    ensures { OnOk result (Appends (W.contents out.old) (W.contents out.new) (special_text slot band)) }
{
    print_number_after(out, b" ", i32::from(slot))?;
    print_number_after(out, b":", i32::from(band))
}

// Prints whether lent numbers, which held the same in every place, hold it still.
pub fn print_unchanged<W: Write>(out: &mut W, numbers: &[i16], held: i16) -> io::Result<()>
    ensures same { All (λ number. number ≡ held) numbers.now → OnOk result (Appends (W.contents out.old) (W.contents out.new) (codes " as it was")) }
    ensures changed { ¬ All (λ number. number ≡ held) numbers.now → OnOk result (Appends (W.contents out.old) (W.contents out.new) (codes " changed")) }
{
    if are_all(numbers, held) {
        print(out, b" as it was")
    } else {
        print(out, b" changed")
    }
}

// Whether every number is this one.
fn are_all(numbers: &[i16], number: i16) -> bool
    ensures { IsTrue result ↔ All (λ found. found ≡ number) numbers.now }
{
    numbers.iter().all(|found| *found == number)
}

// Prints bytes in hexadecimal, each after a space.
pub fn print_bytes<W: Write>(out: &mut W, bytes: &[u8]) -> io::Result<()>
    ensures { OnOk result (Appends (W.contents out.old) (W.contents out.new) (flat_map byte_text bytes.now)) }
{
    for byte in bytes {
        print(out, b" ")?;
        write!(out, "{:02x}", byte)?;
    }
    Ok(())
}
