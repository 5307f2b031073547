//! The lines of an input, each in fixed memory: one that is longer, or no UTF-8, is told by its buffer, where `lines` of a
//! BufReader would allocate each line and answer a fault of input.
ghost use Rattle.std.specs.Prelude.{◌≡◌, IfOk, OnOk, IfSome, Ok};
ghost use Rattle.std.specs.List.{position};
ghost use Rattle.console.specs.Handed.{is_newline, Took, HandedAll, Counted};

use super::LineBuffer;
use std::alloc::{AllocError, Global};
use std::io;
use std::io::{BufRead, BufReader, Read};

// What a reader showed next of its lines.
pub(crate) enum Piece {
    // Nothing: the input has ended.
    End,
    // Some bytes of a line that goes on.
    Part,
    // The rest of a line, and its newline.
    Rest,
}

// Where the first newline stands.
fn newline_in(bytes: &[u8]) -> Option<usize>
    ensures { result ≡ position is_newline bytes.now }
{
    bytes.iter().position(|byte| *byte == b'\n')
}

// Takes the next piece of a line from the reader into the line.
fn take_piece<R: BufRead>(reader: &mut R, line: &mut LineBuffer) -> io::Result<Piece>
    ensures { IfOk result (λ piece. Took (R.remaining reader.old) line.old piece line.new (R.remaining reader.new)) }
{
    let bytes = reader.fill_buf()?;
    let shown = bytes.len();
    if shown == 0 {
        return Ok(Piece::End);
    }
    match newline_in(bytes) {
        None => {
            line.extend(bytes);
            reader.consume(shown);
            Ok(Piece::Part)
        }
        Some(count) => {
            line.extend(&bytes[..count]);
            reader.consume(count + 1);
            Ok(Piece::Rest)
        }
    }
}

/// Hands each line of the input on under its number, and answers how many newlines came.
pub fn each_line<
    I: Read + Drop,
    E: From<io::Error> + From<AllocError>,
    F: FnMut(u64, &LineBuffer) -> Result<(), E>,
>(heap: Global, input: I, mut take: F) -> Result<u64, E>
    requires { F.IsAlwaysCallable take }
    ensures handed { OnOk result (IfSome (I.remaining input) (HandedAll (λ f n line g. F.step f n line (Ok tt) g) take)) }
    ensures count { IfOk result (λ n. IfSome (I.remaining input) (Counted n)) }
{
    let mut reader = BufReader::new(heap, input)?;
    let mut buffer = LineBuffer::new();
    let mut line: u64 = 0;
    // A counted loop, since an input has no length.
    for _ in 0..u64::MAX {
        match take_piece(&mut reader, &mut buffer)? {
            Piece::End => break,
            Piece::Part => {}
            Piece::Rest => {
                line = line.saturating_add(1);
                take(line, &buffer)?;
                buffer.clear();
            }
        }
    }
    if !buffer.is_empty() {
        take(line.saturating_add(1), &buffer)?;
    }
    Ok(line)
}
