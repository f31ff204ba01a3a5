// Reads the bundle and writes its listing. `write_part`, which alone writes, has the precondition that
// these are the next bytes of the listing. Which bytes a reader gives and a writer takes is promised
// where their types know it; standard input's and standard output's don't.
ghost use Rattle.std.specs.Prelude.{◌≡◌, ◌+◌, ◌≤◌, length, take, IfOk, OnOk, OnErr, IfSome};
ghost use Rattle.std.specs.Io.KnownBytes.{Appends};
ghost use Rattle.listing.specs.Listing.{listing as listingOf};
ghost use Rattle.list.specs.Written.{BytesAt, AppendsSome};

use lent::{State, Waiting};
use listing::start;
use listing_parts::list_part_lent;
use slots::SLOTS;
use std::io;
use std::io::{ErrorKind, Read, Write};
use std::ops::ControlFlow;
use text::Text;

// The bytes of the longest bundle that is listed.
const LONGEST: usize = 65535;

// Writes all the bytes, however many the writer takes at a time. Where a write fails, the writer has got
// those before, which `write_all` doesn't promise.
fn write_whole<W: Write>(writer: &mut W, bytes: &[u8]) -> io::Result<()>
    ensures ok { OnOk result (Appends (W.contents writer.old) (W.contents writer.new) bytes.now) }
    ensures err { OnErr result (AppendsSome (W.contents writer.old) (W.contents writer.new) bytes.now) }
{
    let mut done = 0;
    while done < bytes.len() {
        let n = writer.write(&bytes[done..])?;
        if n == 0 {
            return Err(io::Error::from(ErrorKind::WriteZero));
        }
        done += n;
    }
    Ok(())
}

// Writes a part of the input's listing, which stands there from that place on, and gives the place
// behind it. Only the contract looks at the input.
fn write_part<W: Write>(
    writer: &mut W,
    input: &[u8],
    written: usize,
    part: &[u8],
) -> io::Result<usize>
    requires { BytesAt (listingOf input.now) written part.now }
    ensures place { IfOk result (λ n. n ≡ written + length part.now) }
    ensures bytes { OnOk result (Appends (W.contents writer.old) (W.contents writer.new) part.now) }
    ensures err { OnErr result (AppendsSome (W.contents writer.old) (W.contents writer.new) part.now) }
{
    write_whole(writer, part)?;
    Ok(written + part.len())
}

// Writes the listing part after part until nothing is left, and gives its length. The panel is a fresh
// one, number 0, at time 0. Of an input above the longest bundle it is only `long`.
fn print_listing<W: Write>(writer: &mut W, input: &[u8]) -> io::Result<usize>
    ensures all { IfOk result (λ n. n ≡ length (listingOf input.now)) }
    ensures bytes { OnOk result (Appends (W.contents writer.old) (W.contents writer.new)
        (listingOf input.now)) }
    ensures err { OnErr result (AppendsSome (W.contents writer.old) (W.contents writer.new)
        (listingOf input.now)) }
{
    if LONGEST < input.len() {
        return write_part(writer, input, 0, b"long\n");
    }
    let mut state = State {
        own: 0,
        time: 0,
        high: &mut 0,
        marks: &mut [0u64; 64],
        barrier: &mut [0u64; 64],
        floor: &mut 0,
    };
    let mut list = Waiting {
        count: &mut 0,
        slots: &mut [0u8; SLOTS],
    };
    let mut text = Text {
        buffer: &mut [0u8; 16384],
        at: 0,
    };
    let mut next = ControlFlow::Continue(start());
    let mut written = 0;
    while let ControlFlow::Continue(listing) = next {
        next = list_part_lent(&mut state, &mut list, input, listing, &mut text);
        written = write_part(writer, input, written, text.as_bytes())?;
    }
    Ok(written)
}

// Reads until the buffer is full or the input ends, and gives how many bytes it put at the buffer's start:
// `read_exact` says nothing of them where there are fewer, and `read_to_end` takes the heap.
fn read_full<R: Read>(reader: &mut R, buffer: &mut [u8]) -> io::Result<usize>
    ensures within { IfOk result (λ n. n ≤ length buffer.new) }
    ensures bytes { IfOk result (λ n. IfSome (R.remaining reader.old)
        (λ bytes. take n buffer.new ≡ take (length buffer.new) bytes)) }
{
    let mut done = 0;
    while done < buffer.len() {
        let n = reader.read(&mut buffer[done..])?;
        if n == 0 {
            return Ok(done);
        }
        done += n;
    }
    Ok(done)
}

// The listing of all that there is to read, however long, goes to the writer. One byte more than a
// bundle may have is read, so that a longer input is seen. Where a read or a write fails, the writer has
// got the listing's first bytes, or none.
pub fn list_input<R: Read, W: Write>(reader: &mut R, writer: &mut W) -> io::Result<()>
    ensures ok { OnOk result (IfSome (R.remaining reader.old)
        (λ bytes. Appends (W.contents writer.old) (W.contents writer.new) (listingOf bytes))) }
    ensures err { OnErr result (IfSome (R.remaining reader.old)
        (λ bytes. AppendsSome (W.contents writer.old) (W.contents writer.new) (listingOf bytes))) }
{
    let mut input = [0u8; LONGEST + 1];
    let length = read_full(reader, &mut input)?;
    print_listing(writer, &input[..length])?;
    Ok(())
}
