// The bytes of a sheet that a program reads.
ghost use Rattle.std.specs.Prelude.{◌≡◌, ◌≤◌, take, IfOk, IfSome, vec_len};

use std::alloc::Global;
use std::io;
use std::io::Read;

// Only so many bytes of the input are read.
pub(crate) const LIMIT: usize = 8192;

// The first bytes that a reader gives, up to 8,192.
pub fn read_first<R: Read + Drop>(heap: Global, reader: R) -> io::Result<Vec<u8>>
    ensures few { IfOk result (λ sheet. vec_len sheet ≤ 8192) }
    ensures first { IfOk result (λ sheet.
        IfSome (R.remaining reader) (λ bytes. sheet.items ≡ take 8192 bytes)) }
{
    let mut sheet = Vec::new(heap);
    reader.take(LIMIT as u64).read_to_end(&mut sheet)?;
    // Where a reader's bytes are not known beforehand, `take` promises no length to the proof.
    sheet.truncate(LIMIT);
    Ok(sheet)
}
