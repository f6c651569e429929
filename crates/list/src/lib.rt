// The listing of a chunk that comes on standard input.
#![tactic(auto)]

ghost use Rattle.std.specs.Prelude.{◌*◌, ◌≤◌, IfOk, length};

use format::Refusal;
use std::io;
use std::io::Read;

// The letters SHEX, as a dword.
const SHEX: u32 = 0x5845_4853;

// The edition that knows every code.
const NEWEST: u32 = 3;

// Prints what was accepted: a line for each row with its words 0 to 3, byte offset, dwords, code and kind, and then how many rows there are.
fn print_accepted(rt: &impl Print, instructions: &[u32], count: u32) -> io::Result<()>
    requires { 16 * count ≤ length instructions.now }
{
    let (rows, _) = instructions.as_chunks::<16>();
    for row in &rows[..count as usize] {
        println!(rt; "{} {} {} {}", row[0], row[1], row[2], row[3])?;
    }
    println!(rt; "accepted {count}")
}

// Prints a refusal's number and place.
fn print_refused(rt: &impl Print, r: Refusal) -> io::Result<()> {
    println!(rt; "refused {} {}", answers::number(r), answers::place(r))
}

// Reads a chunk into pools and prints what came of it. What decode ensures of an accepted chunk keeps the rows that are printed
// inside their pool.
fn print_chunk(
    rt: &impl Print,
    chunk: &[u8],
    instructions: &mut [u32],
    operands: &mut [u32],
    words: &mut [u32],
) -> io::Result<()> {
    match decode::decode(chunk, SHEX, NEWEST, instructions, operands, words) {
        Ok(accepted) => print_accepted(rt, instructions, accepted.instructions),
        Err(r) => print_refused(rt, r),
    }
}

// Reads to the front of a buffer until it is full or the input ends, and gives how many bytes there were.
fn read_full(reader: &mut impl Read, buffer: &mut [u8]) -> io::Result<usize>
    ensures { IfOk result (λ n. n ≤ length buffer.new) }
{
    let mut size = 0;
    while size < buffer.len() {
        let n = reader.read(&mut buffer[size..])?;
        if n == 0 {
            break;
        }
        size += n;
    }
    Ok(size)
}

// Lists the chunk on standard input. The pools have room for 1,000 dwords past the header, all that 4,008 bytes hold.
pub fn run(rt: &(impl Print + Input)) -> io::Result<()> {
    let mut input = [0u8; 4009];
    let mut reader = rt.reader();
    let size = read_full(&mut reader, &mut input)?;
    if 4008 < size {
        return println!(rt; "too long");
    }
    let mut instructions = [0u32; 16000];
    let mut operands = [0u32; 16000];
    let mut words = [0u32; 1000];
    print_chunk(
        rt,
        &input[..size],
        &mut instructions,
        &mut operands,
        &mut words,
    )
}
