// Why a dump is not read as units.
use dumps::causes::Cause;
use std::io::Result;

// The file cannot be read.
pub fn no_file(rt: &impl Print, cause: Cause) -> Result<()> {
    println!(rt; "error: the dump cannot be read: {cause}")?;
    println!(rt;
        "Name a file that you may read, or hand the dump over by standard input and name it -."
    )
}

// A byte is left over.
pub fn odd_bytes(rt: &impl Print, count: usize) -> Result<()> {
    println!(rt;
        "error: the dump has {count} bytes, and a unit has two: one is missing, or one is too many"
    )?;
    println!(rt; "Dump the whole block as UTF-16 little-endian.")
}
