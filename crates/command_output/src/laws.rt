//! Laws of what goes out in groups.

ghost use Rattle.std.specs.Prelude.{◌≡◌, List};
ghost use Rattle.command_output.specs.Gathered.{InGroups};
ghost use Rattle.command_output.specs.GatheredTerms.{StandsInOrder};
ghost use Rattle.command_output.specs.OutputPieces.{Never, Piece, Sinks, Stop, gone};

/// However far pieces went out in groups, each sink holds a front of the bytes that are for it, and
/// where a line stands on `err`, all that comes before it for `out` stands on `out`. Where the call
/// ended whole, they went out as they would one by one.
pub fn a_line_stands_after_what_comes_before_it()
    ensures order { (stop : Stop) (pieces : List Piece) (old new : Sinks) →
        InGroups stop pieces old new → StandsInOrder pieces old new }
    ensures whole { (pieces : List Piece) (old new : Sinks) →
        InGroups Never pieces old new → new ≡ gone pieces old }
{}
