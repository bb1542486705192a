// How the programs read their input, and how those that run cases read and write them: in words and chunks. A word is a number of four bytes,
// the lowest first; a chunk is a word, its length, and that many bytes.
#![tactic(auto)]

ghost use Rattle.std.specs.Prelude.{◌≤◌, ◌≡◌, IfOk, IfErr, false, length};

use std::io;
use std::io::Read;
use thiserror::Error;

// How many bytes a word has.
const WORD: usize = 4;

// The longest chunk.
pub const MOST: usize = 16384;

// Why a case is not run.
#[derive(Debug, Drop, Error)]
pub enum CaseError {
    #[error("the last case is cut short")]
    CutCase,
    #[error("the last start is cut short")]
    CutStart,
    #[error("a chunk is longer than {MOST} bytes")]
    LongChunk,
    #[error("an image is longer than {MOST} bytes")]
    LongImage,
    #[error(transparent)]
    Io(#[from] io::Error),
}

// Reads until the buffer is full or the input ends, and answers how many bytes it put at the buffer's start.
pub fn read_full<R: Read>(from: &mut R, buffer: &mut [u8]) -> io::Result<usize>
    ensures { IfOk result (λ n. n ≤ length buffer.new) }
{
    let mut done = 0;
    while done < buffer.len() {
        let n = from.read(&mut buffer[done..])?;
        if n == 0 {
            break;
        }
        done += n;
    }
    Ok(done)
}

// Reads a word; there is none where the input has ended.
pub fn read_word<R: Read>(from: &mut R) -> Result<Option<u32>, CaseError> {
    let mut bytes = [0u8; WORD];
    match read_full(from, &mut bytes)? {
        0 => Ok(None),
        WORD => Ok(Some(u32::from_le_bytes(bytes))),
        _ => Err(CaseError::CutCase),
    }
}

// Reads a chunk into the buffer's start, and answers it.
pub fn read_chunk<'a, R: Read>(
    from: &mut R,
    buffer: &'a mut [u8],
) -> Result<&'a mut [u8], CaseError>
    ensures { IfOk result (λ chunk. length chunk.now ≤ length buffer.old) }
{
    let n = read_word(from)?.ok_or(CaseError::CutCase)? as usize;
    if MOST < n || buffer.len() < n {
        return Err(CaseError::LongChunk);
    }
    let chunk = &mut buffer[..n];
    if read_full(from, chunk)? < n {
        return Err(CaseError::CutCase);
    }
    Ok(chunk)
}

// Whether another case is to be run, by what came of the last, which answers false where there was none. Where one cannot be run this says
// why, and no more are.
pub fn goes_on(err: &impl Eprint, program: &str, done: Result<bool, CaseError>) -> io::Result<bool>
    ensures done { IfOk done (λ more. result ≡ Ok more) }
    ensures refused { IfErr done (λ why. IfOk result (λ on. on ≡ false)) }
{
    match done {
        Ok(more) => Ok(more),
        Err(CaseError::Io(e)) => Err(e),
        Err(why) => {
            eprintln!(err; "{program}: {why}")?;
            Ok(false)
        }
    }
}

// Writes a word.
pub fn write_word(rt: &impl Print, n: usize) -> io::Result<()> {
    rt.write_all(&n.to_le_bytes()[..WORD])
}

// Writes a chunk.
pub fn write_chunk(rt: &impl Print, bytes: &[u8]) -> io::Result<()> {
    write_word(rt, bytes.len())?;
    rt.write_all(bytes)
}
