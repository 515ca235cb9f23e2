// Sources of operations.
ghost use Rattle.std.specs.Prelude.{◌≡◌, ℕ, List, length};
ghost use Rattle.operations.specs.declared.row.Row.{Row};
ghost use Rattle.operations.specs.Rows.{AllValid};
ghost use Rattle.operations.specs.Sources.{Told, Stepped};

use crate::operation::Operation;
use crate::refusal::PastEnd;
use crate::step::Step;
use values::kind::Kind;

// A source means a finite list of operations, and tells them by place. An `impl` cannot be written without showing that it
// answers by its list. Nothing of a source changes when it tells, so the same place always gives the same operation.
pub trait Source {
    type Value: Kind;

    // The list that the source means.
    ghost operations: { Self → List (Row Self.Value) };

    // Each row of it is an operation's.
    ghost valid: { (s : Self) → AllValid (operations s) };

    // What a pass over the source still has to come at a position. Positions are the source's own; a pass begins at 0.
    ghost onward: { Self → ℕ → List (Row Self.Value) };

    ghost begins: { (s : Self) → onward s 0 ≡ operations s };

    fn len(&self) -> usize
        ensures { result ≡ length (operations self.now) };

    // The operation at a place, counted from 0.
    fn at(&self, place: usize) -> Result<Operation<Self::Value>, PastEnd>
        ensures { Told (operations self.now) place result };

    // The next operation of a pass, which asks for each operation once, however sources are nested.
    fn next(&self, position: usize) -> Option<Step<Self::Value>>
        ensures { Stepped (onward self.now) position result };
}
