//! What the lines of a stream are, as laws about every stream.

ghost use Rattle.std.specs.Prelude.{◌≡◌, ℕ, List, ◌++◌};
ghost use Rattle.ctl_protocol.specs.Lines.{lines_of, rest_of, stream_of};

/// The lines, each with its newline, and then the rest, are the stream.
pub fn whole_stream()
    ensures { (bytes : List ℕ) → stream_of (lines_of bytes) (rest_of bytes) ≡ bytes }
{}

/// It doesn't matter how a stream is cut into pieces.
pub fn any_pieces()
    ensures lines { (x y : List ℕ) → lines_of (x ++ y) ≡ lines_of x ++ lines_of (rest_of x ++ y) }
    ensures rest { (x y : List ℕ) → rest_of (x ++ y) ≡ rest_of (rest_of x ++ y) }
{}
