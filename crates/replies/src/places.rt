// A piece of an answer, which takes its bytes one after another. Those that are written out already are skipped, and those past its end are dropped: an
// answer that is longer than a piece is put again for the next one.
ghost use Rattle.std.specs.Prelude.{[], ◌∷◌, ℕ, List};
ghost use Rattle.forms.specs.Form.{each};
ghost use Rattle.replies.specs.Page.{Puts};

// How many bytes are still to be skipped, and where the next one goes.
// The piece stands beside it: a struct that held the lent piece would have to say in each clause that it still holds the same one.
#[derive(Clone, Copy, Debug, PartialEq, Eq)]
pub struct Place {
    pub skip: usize,
    pub at: usize,
}

// A byte.
#[tactic(auto, using(crate::proofs::Putting::skipped, crate::proofs::Putting::stored, crate::proofs::Putting::dropped))]
pub fn put(piece: &mut [u8], p: Place, byte: u8) -> Place
    ensures { Puts (byte ∷ []) p result piece.old piece.new }
{
    if p.skip > 0 {
        Place {
            skip: p.skip - 1,
            ..p
        }
    } else if p.at < piece.len() {
        piece[p.at] = byte;
        Place { at: p.at + 1, ..p }
    } else {
        p
    }
}

// Each element of a list by the routine that puts one.
pub fn put_each<T: Copy, F: Fn(&mut [u8], Place, T) -> Place>(
    piece: &mut [u8],
    p: Place,
    list: &[T],
    put_one: F,
) -> Place
    requires { F.IsAlwaysCallable put_one }
    ensures { (form : T → List ℕ) → ((d e : _) (q r : _) (x : T) → F.post put_one d q x r e → Puts (form x) q r d.now e.now) → Puts (each form list.now) p result piece.old piece.new }
{
    let mut to = p;
    for &item in list {
        to = put_one(piece, to, item);
    }
    to
}

// A run of bytes.
pub fn put_run(piece: &mut [u8], p: Place, run: &[u8]) -> Place
    ensures { Puts run.now p result piece.old piece.new }
{
    put_each(piece, p, run, put)
}
