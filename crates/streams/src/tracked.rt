// What takes the pieces of a line, and says what it took, also where it failed.
ghost use Rattle.std.specs.Prelude.{ℕ, List, [], ◌∷◌, ◌++◌};
ghost use Rattle.std.specs.Io.KnownBytes.{Appends};
ghost use Rattle.lines.specs.Pieces.{joined};
ghost use Rattle.streams.specs.Pieces.{Handed, Began, none_taken, more_taken, began_later, began_earlier};

use std::io;
use std::io::{ErrorKind, Write};

// What takes pieces, each at once.
pub trait TrackedOutput {
    // What it was, and what it is after it took these pieces in their order.
    ghost took: { Self → Self → List (List ℕ) → Type 0 };

    // What it was, and what it is after it failed at one of these pieces: it took a beginning of them, and nothing more.
    ghost broke: { Self → Self → List (List ℕ) → Type 0 };

    fn put(&mut self, piece: &[u8]) -> io::Result<()>
        ensures { Handed took broke self.old self.new (piece.now ∷ []) result };

    ghost took_none: { (a : Self) → took a a [] };

    ghost took_more: { (a b c : Self) (ps qs : List (List ℕ)) → took a b ps → took b c qs → took a c (ps ++ qs) };

    ghost broke_later: { (a b c : Self) (ps qs : List (List ℕ)) → took a b ps → broke b c qs → broke a c (ps ++ qs) };

    ghost broke_earlier: { (a b : Self) (ps qs : List (List ℕ)) → broke a b ps → broke a b (ps ++ qs) };
}

// An output takes the bytes of a piece.
impl<W: Write> TrackedOutput for W {
    ghost took = { λ a b ps. Appends (W.contents a) (W.contents b) (joined ps) };

    ghost broke = { λ a b ps. Began (W.contents a) (W.contents b) (joined ps) };

    ghost took_none = { λ a. none_taken (W.contents a) };

    ghost took_more = { λ a b c ps qs x y. more_taken (W.contents a) (W.contents b) (W.contents c) ps qs x y };

    ghost broke_later = { λ a b c ps qs x y. began_later (W.contents a) (W.contents b) (W.contents c) ps qs x y };

    ghost broke_earlier = { λ a b ps qs x. began_earlier (W.contents a) (W.contents b) ps qs x };

    // A write that fails or takes nothing is the last: none is made again, as `write_all` would one that was interrupted.
    fn put(&mut self, piece: &[u8]) -> io::Result<()> {
        let mut done = 0;
        while done < piece.len() {
            let n = self.write(&piece[done..])?;
            if n == 0 {
                return Err(io::Error::from(ErrorKind::WriteZero));
            }
            done += n;
        }
        Ok(())
    }
}
