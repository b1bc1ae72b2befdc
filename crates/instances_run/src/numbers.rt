// Numbers read and written.
use decimal::read::read_number;
use decimal::write::write_number;
use printing::{print, print_count_after, print_number_after, print_outcome};
use refusals::Refusal;
use std::io;
use std::io::Write;

// Prints every number read and written.
pub fn run(out: &mut impl Write) -> io::Result<()> {
    document(out)?;
    document_refused(out)?;
    thousandths(out)?;
    thousandths_at_their_limits(out)?;
    thousandths_refused(out)?;
    others(out)?;
    others_refused(out)?;
    written(out)?;
    written_to_short_places(out)
}

// Document 01's instances.
fn document(out: &mut impl Write) -> io::Result<()> {
    read_each(out, &[b"14,50", b"14,5", b"14", b"-0,05"])
}

// Document 01's instances that are refused.
fn document_refused(out: &mut impl Write) -> io::Result<()> {
    read_each(out, &[b"14,", b"", b"1.450", b"+3", b"1234"])
}

// Document 02's F-2: its instances, and others that its rule gives.
fn thousandths(out: &mut impl Write) -> io::Result<()> {
    read_each(out, &[b"14,505", b"-0,005", b"0,004", b"-0,004", b"0,995"])
}

// The greatest values that it gives, rounded up or not, and the least.
fn thousandths_at_their_limits(out: &mut impl Write) -> io::Result<()> {
    read_each(out, &[b"999,994", b"999,995", b"-999,999"])
}

// Thousandths after a point, and too many bytes behind a comma.
fn thousandths_refused(out: &mut impl Write) -> io::Result<()> {
    read_each(out, &[b"14.505", b"14,5050", b"14,50x"])
}

// Others that read: with a point, with a sign, the greatest value without thousandths, and with zeros in front.
fn others(out: &mut impl Write) -> io::Result<()> {
    read_each(out, &[b"14.5", b"-0", b"999,99", b"007"])
}

// Others that are no numbers.
fn others_refused(out: &mut impl Write) -> io::Result<()> {
    read_each(out, &[b"-", b",5", b" 1", b"1\n"])
}

// Reads fields, one after the other.
fn read_each(out: &mut impl Write, fields: &[&[u8]]) -> io::Result<()> {
    for field in fields {
        read(out, field)?;
    }
    Ok(())
}

// Numbers written one over the other: each leaves the bytes past its own as they were.
fn written(out: &mut impl Write) -> io::Result<()> {
    let mut eight = [b'.'; 8];
    for number in [1450, -5, -40000, 40001, -40001] {
        write(out, number, &mut eight)?;
    }
    Ok(())
}

// Numbers written to as many bytes as they have, and to one fewer.
fn written_to_short_places(out: &mut impl Write) -> io::Result<()> {
    let mut six = [b'.'; 6];
    write(out, -40000, &mut six)?;
    let mut four = [b'.'; 4];
    write(out, 0, &mut four)?;
    let mut three = [b'.'; 3];
    write(out, 0, &mut three)?;
    write(out, 40001, &mut three)
}

// The field, then the refusal's number and the value in hundredths.
fn read(out: &mut impl Write, field: &[u8]) -> io::Result<()> {
    let answer = read_number(field);
    print_text(out, b"read `", field)?;
    print_outcome(out, &answer)?;
    print_number_after(out, b" ", answer.unwrap_or(0))?;
    print(out, b"\n")
}

// The value in hundredths and the destination before, then the refusal's number, the count of bytes and the destination after.
fn write(out: &mut impl Write, number: i32, destination: &mut [u8]) -> io::Result<()> {
    print_number_after(out, b"write ", number)?;
    print_text(out, b" over `", destination)?;
    let answer = write_number(number, destination);
    print_written(out, answer, destination)
}

// Prints the refusal's number, the count of bytes and the destination.
fn print_written(
    out: &mut impl Write,
    answer: Result<usize, Refusal>,
    destination: &[u8],
) -> io::Result<()> {
    print_outcome(out, &answer)?;
    print_count_after(out, b" ", answer.unwrap_or(0))?;
    print_text(out, b" `", destination)?;
    print(out, b"\n")
}

// Prints a text in quotation marks, of which the first stands before it.
fn print_text(out: &mut impl Write, before: &[u8], text: &[u8]) -> io::Result<()> {
    print(out, before)?;
    print(out, text)?;
    print(out, b"`")
}
