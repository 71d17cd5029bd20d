// What is lent for one line: it is looked up, and stored, under what stands here.

// The program, the arguments' records and the text that they name, and whether each argument stands in quotes.
#[derive(Clone, Copy, Debug)]
pub struct Lent<'a> {
    pub program: &'a [u16],
    pub records: &'a [u32],
    pub text: &'a [u16],
    pub force_quotes: bool,
}
