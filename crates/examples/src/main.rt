// Runs the document's unmarked examples, its "Errors easily made", and Microsoft's published examples, and says of each whether it came out as stated.
// The two tables are those of "Parsing C command-line arguments" (C language) and of "main function and command-line arguments" (C++), each behind a
// program name of ours. Last come lines that are built from a slice of records.
#![tactic(auto)]

mod listed;

use cases::{batch_refused, batches, bounds, limit, reads, unchanged, writes};
use listed::print_lines;
use std::io::Result;

// The table for the C language.
const C_TABLE: [(&str, &str); 6] = [
    ("exe \"a b c\" d e", "exe\na b c\nd\ne\n"),
    ("exe \"ab\\\"c\" \"\\\\\" d", "exe\nab\"c\n\\\nd\n"),
    ("exe a\\\\\\b d\"e f\"g h", "exe\na\\\\\\b\nde fg\nh\n"),
    ("exe a\\\\\\\"b c d", "exe\na\\\"b\nc\nd\n"),
    ("exe a\\\\\\\\\"b c\" d e", "exe\na\\\\b c\nd\ne\n"),
    ("exe a\"b\"\" c d", "exe\nab\" c d\n"),
];

// The table for C++, the rows that the one for C has not.
const CPP_TABLE: [(&str, &str); 2] = [
    ("exe \"abc\" d e", "exe\nabc\nd\ne\n"),
    ("exe a\\\\b d\"e f\"g h", "exe\na\\\\b\nde fg\nh\n"),
];

// The document's examples that carry no mark.
fn unmarked(rt: &impl Print) -> Result<()> {
    println!(rt; "The document's unmarked examples")?;
    reads(rt, b"\"a b\"c d", b"a bc\nd\n")?;
    limit(rt, 32767, 0, b"a line of 32,767 units")?;
    limit(rt, 32768, 2, b"a line of 32,768 units is refused by 2")?;
    bounds(rt)
}

// The document's "Errors easily made".
fn errors(rt: &impl Print) -> Result<()> {
    println!(rt; "Errors easily made")?;
    reads(rt, b"exe a \"\"", b"exe\na\n\n")?;
    reads(rt, b"a\\\"b c\" d", b"a\\b c\nd\n")?;
    writes(rt, b"a\\\\b", b"\"exe\" a\\\\b")?;
    batches(
        rt,
        b"a\"b",
        b"cmd.exe /e:ON /v:OFF /d /c \"\"a.bat\" \"a\"\"b\"\"",
    )?;
    batch_refused(rt, b"\0\r", 6, 1, b"NUL, CR is refused by 6, place 1")?;
    unchanged(rt)
}

// The lines of a table and what each is read as, behind the table's name.
fn table(rt: &impl Print, name: &str, rows: &[(&str, &str)]) -> Result<()> {
    println!(rt; "Microsoft: {name}")?;
    for &(line, stated) in rows {
        reads(rt, line.as_bytes(), stated.as_bytes())?;
    }
    Ok(())
}

fn main(rt: HostRuntime) -> Result<()> {
    unmarked(&rt)?;
    errors(&rt)?;
    table(&rt, "Parsing C command-line arguments", &C_TABLE)?;
    table(&rt, "main function and command-line arguments", &CPP_TABLE)?;
    print_lines(&rt)
}
